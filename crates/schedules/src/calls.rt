//! The calls that a thread makes, and what they return.

use crate::texts::{Case, Word};
use string_cache::Fault;

/// A call. `Again` and `Drop` are made on the newest atom that the thread has, and `Push` and `Listed` on its list.
#[derive(Clone, Copy)]
pub enum Call {
    Intern(Word),
    /// Interns the text of a JSON value.
    Read(Word),
    /// Looks up a text.
    Find(Word),
    /// Makes an atom of its text in this case, or a clone.
    Again(Option<Case>),
    Drop,
    /// Appends a text to the list.
    Push(Word),
    Listed(Listed),
    /// A call on the whole set.
    Whole(Whole),
}

/// A call on the thread's list, which isn't made if the list is empty.
#[derive(Clone, Copy)]
pub enum Listed {
    /// Makes another atom of the last place.
    Copy,
    /// Takes the last atom out.
    Pop,
    Clear,
}

/// A call on the whole set.
#[derive(Clone, Copy)]
pub enum Whole {
    Sweep,
    Linked,
    /// Visits each entry.
    Visit,
    Memory,
}

impl Call {
    /// The call that a letter stands for: a digit interns the text of that number, a letter from `A` reads it from a JSON value, one from `K`
    /// looks it up, and one from `U`, or one of the four signs behind `Z`, appends it to the list.
    pub fn of_letter(letter: u8) -> Option<Call> {
        match letter {
            b'0'..=b'9' => Some(Call::Intern(Word::of_number(letter - b'0')?)),
            b'A'..=b'J' => Some(Call::Read(Word::of_number(letter - b'A')?)),
            b'K'..=b'T' => Some(Call::Find(Word::of_number(letter - b'K')?)),
            b'U'..=b'^' => Some(Call::Push(Word::of_number(letter - b'U')?)),
            b'c' => Some(Call::Again(None)),
            b'd' => Some(Call::Drop),
            b'u' => Some(Call::Again(Some(Case::Upper))),
            b'w' => Some(Call::Again(Some(Case::Lower))),
            b'y' => Some(Call::Listed(Listed::Copy)),
            b'p' => Some(Call::Listed(Listed::Pop)),
            b'e' => Some(Call::Listed(Listed::Clear)),
            b's' => Some(Call::Whole(Whole::Sweep)),
            b'l' => Some(Call::Whole(Whole::Linked)),
            b'v' => Some(Call::Whole(Whole::Visit)),
            b'm' => Some(Call::Whole(Whole::Memory)),
            _ => None,
        }
    }
}

impl Whole {
    pub fn name(&self) -> &'static str {
        match self {
            Whole::Sweep => "sweep",
            Whole::Linked => "linked",
            Whole::Visit => "visit",
            Whole::Memory => "memory",
        }
    }
}

/// A call that has begun.
#[derive(Clone, Copy)]
pub struct Begun {
    pub call: &'static str,
    /// The text of the atom that it is made on, or that it asks for.
    pub text: &'static str,
    pub at: u64,
}

/// What a call returned.
#[derive(Clone, Copy)]
pub enum Answer {
    Nothing,
    /// An atom of the text that it should have, with this ticket.
    Ticket(u64),
    /// An atom of another text.
    OtherText(u64),
    Fault(Fault),
    /// No atom, since nobody holds the text.
    Absent,
    Linked(u128),
    /// This many entries, and no text that somebody holds was met twice.
    Visited(u64),
    /// An entry of no text that was interned, or a second one of a text that somebody holds.
    Strange(u64),
}

impl Answer {
    /// The word and the number by which it is printed.
    pub fn shown(&self) -> (&'static str, u128) {
        match self {
            Answer::Nothing => ("nothing", 0),
            Answer::Ticket(ticket) => ("ticket", u128::from(*ticket)),
            Answer::OtherText(ticket) => ("other-text", u128::from(*ticket)),
            Answer::Fault(fault) => ("fault", u128::from(fault.number())),
            Answer::Absent => ("absent", 0),
            Answer::Linked(number) => ("linked", *number),
            Answer::Visited(number) => ("visited", u128::from(*number)),
            Answer::Strange(number) => ("strange", u128::from(*number)),
        }
    }
}

/// A call that was made.
#[derive(Clone, Copy)]
pub struct Done {
    pub thread: u64,
    pub begun: Begun,
    pub ended: u64,
    pub answer: Answer,
}
