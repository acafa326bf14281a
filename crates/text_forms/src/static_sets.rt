//! Static tables of texts, and the form that they give a text.

ghost use Rattle.std.specs.Prelude.{◌≡◌, ◌↔◌, ◌<◌, IfSome, IsSome, IsTrue, length, slice_index};
ghost use Rattle.text_forms.specs.Parts.{parts};
ghost use Rattle.text_forms.specs.Tables.{Tables, AreUsable, AllAreStatic, IsPerfectTable, IsStaticIndex, empty_tables, entry_hash, form_of_text, place_in, text_at};

use crate::phf::{hash, place};
use crate::word::InlineText;

/// Static tables: each text is at the place that its hashes and its pair of displacements give it.
#[derive(Drop)]
pub struct PhfStrSet {
    /// The key of the hash.
    pub key: u64,
    /// The pairs of displacements.
    pub disps: &'static [(u32, u32)],
    /// The texts.
    pub atoms: &'static [&'static str],
    /// The number that an atom of each text hashes as.
    pub hashes: &'static [u64],
}

impl PhfStrSet {
    ghost use Rattle.text_forms.specs.PhfStrSet.{tables_of};

    /// Whether a static type may have these tables and each text is listed once, at its place. Then every text of more
    /// than 7 bytes in them is static. The hashes are only counted.
    pub fn check(&self) -> bool
        ensures perfect { IsTrue result ↔ IsPerfectTable (tables_of self.now) }
        ensures found { IsTrue result → AllAreStatic (tables_of self.now) }
    {
        check_parts(self.key, self.disps, self.atoms, self.hashes)
    }
}

/// What `PhfStrSet::check` decides, for borrowed tables: whether a static type may have them and each text is listed once, at its place. Then every
/// text of more than 7 bytes in them is static. The hashes are only counted. It takes no memory, and hashes each text at most once.
pub fn check_parts(key: u64, disps: &[(u32, u32)], atoms: &[&str], hashes: &[u64]) -> bool
    ensures perfect { IsTrue result ↔ IsPerfectTable (parts key disps.now atoms.now hashes.now) }
    ensures found { IsTrue result → AllAreStatic (parts key disps.now atoms.now hashes.now) }
{
    let Ok(len) = u32::try_from(atoms.len()) else {
        return false;
    };
    if len == 0
        || disps.is_empty()
        || disps.len() > u32::MAX as usize
        || hashes.len() != atoms.len()
    {
        return false;
    }
    for (i, text) in atoms.iter().enumerate() {
        if place(&hash(text, key), disps, len) as usize != i {
            return false;
        }
    }
    true
}

/// What is asked of the tables of a static type, however their texts are stored. `StaticAtomSet` gives it for tables that list each text, `Packed`
/// for those whose texts are all in one.
pub trait StaticTables: Ord {
    ghost tables: { Tables };

    /// The number of texts that they have.
    fn count() -> u32
        ensures { result ≡ length tables.atoms };

    /// The place of a text, whether it is listed or not, and the hash of its entry.
    fn look_up(text: &str) -> (u32, u64)
        ensures place { result.0 ≡ place_in tables text.now }
        ensures listed { result.0 < length tables.atoms }
        ensures hash { result.1 ≡ entry_hash tables text.now };

    /// The text at an index.
    fn text_at(index: u32) -> &'static str
        requires { index < length tables.atoms }
        ensures { result.now ≡ text_at tables index };

    /// The number that an atom of the text at an index hashes as.
    fn hash_at(index: u32) -> u64
        requires { index < length tables.atoms }
        ensures { result ≡ slice_index tables.hashes index };

    ghost usable: { AreUsable tables };
}

/// The type of a static set.
pub trait StaticAtomSet: Ord {
    ghost tables: { Tables };

    ghost use Rattle.text_forms.specs.PhfStrSet.{tables_of};

    /// Its tables, the same on each call. They have at least one pair of displacements and one text, as many hashes as texts, and at most 2^32 - 1 of
    /// each. They needn't be perfect: a text that isn't at its place is dynamic.
    fn get() -> &'static PhfStrSet
        ensures { tables_of result.now ≡ tables };

    ghost usable: { AreUsable tables };
}

impl<S: StaticAtomSet> StaticTables for S {
    ghost tables = { S.tables };

    ghost usable = { S.usable };

    #[inline]
    fn count() -> u32 {
        S::get().atoms.len() as u32
    }

    #[inline]
    fn look_up(text: &str) -> (u32, u64) {
        let set = S::get();
        let hashes = hash(text, set.key);
        let index = place(&hashes, set.disps, set.atoms.len() as u32);
        (index, hashes.entry_hash())
    }

    #[inline]
    fn text_at(index: u32) -> &'static str {
        S::get().atoms[index as usize]
    }

    #[inline]
    fn hash_at(index: u32) -> u64 {
        S::get().hashes[index as usize]
    }
}

/// The static set in which no text is static.
#[derive(PartialEq, Eq, PartialOrd, Ord)]
pub struct EmptyStaticAtomSet;

static EMPTY: PhfStrSet = PhfStrSet {
    key: 0,
    disps: &[(0, 0)],
    atoms: &[""],
    hashes: &[0x3ddd_def3],
};

impl StaticAtomSet for EmptyStaticAtomSet {
    ghost use Rattle.std.proofs.Common.{lit<, refl};

    ghost tables = { empty_tables };

    ghost usable = { record { displaced = lit< tt; listed = lit< tt; few_disps = lit< tt; few_atoms = lit< tt; hashed = refl } };

    fn get() -> &'static PhfStrSet {
        &EMPTY
    }
}

/// What a text is under the tables of a static type, and what it is found by.
#[derive(Clone, Copy, Debug, PartialEq, Eq)]
pub enum TextForm {
    /// Up to 7 bytes: the text itself.
    Inline(InlineText),
    /// Listed at its place, which is this index.
    Static(u32),
    /// Any other: the hash of its entry.
    Dynamic(u64),
}

/// The form of a text under the tables of `S`. It hashes a text of more than 7 bytes once.
#[inline]
pub fn form_of_text<S: StaticTables>(text: &str) -> TextForm
    ensures { result ≡ form_of_text S.tables text.now }
{
    if let Some(inline) = InlineText::new(text) {
        return TextForm::Inline(inline);
    }
    let (index, hash) = S::look_up(text);
    if S::text_at(index) == text {
        TextForm::Static(index)
    } else {
        TextForm::Dynamic(hash)
    }
}

/// The static text at an index. `None` if the tables have none there, or one that isn't at its place or has at most 7 bytes.
pub fn static_text<S: StaticTables>(index: u32) -> Option<&'static str>
    ensures is_static { IsSome result ↔ IsStaticIndex S.tables index }
    ensures text { IfSome result (λ text. text.now ≡ text_at S.tables index) }
{
    if index >= S::count() {
        return None;
    }
    let text = S::text_at(index);
    match form_of_text::<S>(text) {
        TextForm::Static(own) if own == index => Some(text),
        _ => None,
    }
}

/// Whether each text of the tables of `S` is listed once, at its place. Then every text of more than 7 bytes in them is static.
/// The hashes aren't looked at. It takes no memory, and hashes each text at most once.
pub fn are_perfect<S: StaticTables>() -> bool
    ensures perfect { IsTrue result ↔ IsPerfectTable S.tables }
    ensures found { IsTrue result → AllAreStatic S.tables }
{
    for index in 0..S::count() {
        let (place, _) = S::look_up(S::text_at(index));
        if place != index {
            return false;
        }
    }
    true
}
