//! The calls of a table, and its replies.

ghost use Rattle.std.specs.Prelude.{◌≡◌};

use text_forms::Fault;

/// A call of a table.
#[derive(Debug, Drop)]
pub enum Call {
    /// Interns a text.
    Intern(String),
    /// Adds a holder to a word that is held.
    Clone(u64),
    /// Takes a holder from a word that is held.
    Give(u64),
}

/// A table's reply to a call.
#[derive(Clone, Copy, Debug, PartialEq, Eq)]
pub enum TableReply {
    /// The word that was interned or cloned.
    Word(u64),
    /// The holder was taken.
    Given,
    /// The word isn't held, and nothing changed.
    NotHeld,
    /// The call was refused, and nothing changed.
    Refused(Fault),
}

impl TableReply {
    ghost use Rattle.interner_table.specs.Calls.{reply_of};

    /// The reply that gives the word, or says why there is none.
    pub(super) fn of(outcome: Result<u64, Fault>) -> TableReply
        ensures { result ≡ reply_of outcome }
    {
        match outcome {
            Ok(word) => TableReply::Word(word),
            Err(fault) => TableReply::Refused(fault),
        }
    }
}
