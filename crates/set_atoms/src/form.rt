//! The form of an atom.

use text_forms::word::InlineText;

/// How an atom or a place of a list holds its text: `Share` is a share with its set, or one without.
#[derive(Drop)]
pub(crate) enum Repr<Beside, Share> {
    Inline(InlineText),
    /// The text at this index of the static tables.
    Static(u32),
    /// What is beside the share, and the share.
    Dynamic(Beside, Share),
}
