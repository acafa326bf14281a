//! Calls of a set with a name that the tests of two modules make. They say nothing about what they do, so that the proof of a test has less to read,
//! and return a plain value, so that a test has less to end.

use named_set::{Held, NamedSet, SetName};
use std::sync::Wait;
use text_forms::Fault;
use text_forms::static_sets::StaticTables;

/// The word of a text, held, unless it is refused.
pub fn interned<'s, S: StaticTables, N: SetName, R: Wait>(
    rt: &R,
    set: &'s NamedSet<S, N>,
    text: &str,
) -> Result<Held<'s, S, N>, Fault> {
    set.intern(rt, text)
}

/// That of a text that the set has, unless it is refused.
pub fn found<'s, S: StaticTables, N: SetName, R: Wait>(
    rt: &R,
    set: &'s NamedSet<S, N>,
    text: &str,
) -> Result<Option<Held<'s, S, N>>, Fault> {
    set.find(rt, text)
}

/// One more holder of the word, unless it is refused.
pub fn cloned<'s, S: StaticTables, N: SetName, R: Wait>(
    rt: &R,
    held: &Held<'s, S, N>,
) -> Result<Held<'s, S, N>, Fault> {
    held.clone_held(rt)
}

/// Whether this many cells are linked.
pub fn links<S: StaticTables, N: SetName, R: Wait>(
    rt: &R,
    set: &NamedSet<S, N>,
    count: u128,
) -> bool {
    set.linked(rt) == count
}

/// Whether the word has this text.
pub fn has_text<S: StaticTables, N: SetName>(held: &Held<'_, S, N>, text: &str) -> bool {
    held.text() == text
}

/// Whether both are equal, and have the same word.
pub fn are_one<S: StaticTables, N: SetName>(one: &Held<'_, S, N>, other: &Held<'_, S, N>) -> bool {
    one == other && one.word() == other.word()
}

/// Whether the text is found under the word that is held.
pub fn is_found_as<S: StaticTables, N: SetName, R: Wait>(
    rt: &R,
    set: &NamedSet<S, N>,
    held: &Held<'_, S, N>,
    text: &str,
) -> bool {
    match found(rt, set, text) {
        Ok(Some(found)) => are_one(&found, held) && has_text(&found, text),
        _ => false,
    }
}
