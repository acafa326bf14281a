//! The text of a word.

ghost use Rattle.std.specs.Prelude.{◌≡◌};

use std::convert::AsStr;
use std::fmt::{self, Debug, Display, Formatter, Write};
use text_forms::word::InlineText;

/// The text of a word: its own, or one that a table or its static type lends.
#[derive(Clone, Copy)]
pub enum WordText<'t> {
    /// That of an inline word, which holds it itself.
    Inline(InlineText),
    /// That of a static word or of a ticket.
    Lent(&'t str),
}

impl<'t> WordText<'t> {
    ghost use Rattle.interner_table.specs.WordText.{text_in};

    /// The text.
    pub fn as_str(&self) -> &str
        ensures { result.now ≡ text_in self.now }
    {
        match self {
            WordText::Inline(text) => text.as_str(),
            WordText::Lent(text) => text,
        }
    }
}

/// Lends the text.
impl<'t> AsStr for WordText<'t> {
    ghost use Rattle.interner_table.specs.WordText.{text_in};

    ghost text = { text_in };

    fn as_str(&self) -> &str {
        WordText::as_str(self)
    }
}

/// The text.
impl<'t> Display for WordText<'t> {
    fn fmt<W: Write>(&self, f: &mut Formatter<W>) -> fmt::Result {
        Display::fmt(self.as_str(), f)
    }
}

/// The text in quotes.
impl<'t> Debug for WordText<'t> {
    fn fmt<W: Write>(&self, f: &mut Formatter<W>) -> fmt::Result {
        Debug::fmt(self.as_str(), f)
    }
}
