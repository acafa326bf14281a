//! What no clause says about a set with a name: that a text which is held is found under its word, that the last holder's end takes out its cell, and
//! when the limits refuse.
ghost use Rattle.std.specs.Prelude.{◌≡◌, true};

use crate::assert_that;
use crate::calls::{are_one, cloned, found, interned, is_found_as, links};
use named_set::{FreshName, Held, HeldCell, NamedSet, SetName};
use std::alloc::Global;
use std::marker::Brand;
use std::process::Abort;
use std::sync::Wait;
use text_forms::Fault;
use text_forms::static_sets::{EmptyStaticAtomSet, StaticTables};
use text_forms::word::{Buckets, Limits};

type Named<N> = NamedSet<EmptyStaticAtomSet, N>;

/// A text of two megabytes beyond ASCII.
fn long_text(alloc: Global) -> Result<String, Fault> {
    Ok("Größe, 長さ, 🦀".repeat(alloc, 100_000)?)
}

/// Whether the words differ, and the two aren't equal.
fn are_two<S: StaticTables, N: SetName>(one: &Held<'_, S, N>, other: &Held<'_, S, N>) -> bool {
    one != other && one.word() != other.word()
}

/// Whether a text is given a word other than the one that is held.
fn is_another<S: StaticTables, N: SetName, R: Wait>(
    rt: &R,
    set: &NamedSet<S, N>,
    held: &Held<'_, S, N>,
    text: &str,
) -> bool {
    match interned(rt, set, text) {
        Ok(other) => are_two(held, &other),
        Err(_) => false,
    }
}

/// Whether the text is given the word that is held once more.
fn is_given_again<S: StaticTables, N: SetName, R: Wait>(
    rt: &R,
    set: &NamedSet<S, N>,
    held: &Held<'_, S, N>,
    text: &str,
) -> bool {
    match interned(rt, set, text) {
        Ok(again) => are_one(held, &again),
        Err(_) => false,
    }
}

/// Whether it is, and another text is given another word.
fn is_again<S: StaticTables, N: SetName, R: Wait>(
    rt: &R,
    set: &NamedSet<S, N>,
    held: &Held<'_, S, N>,
    text: &str,
    other: &str,
) -> bool {
    match interned(rt, set, text) {
        Ok(again) => are_one(held, &again) && is_another(rt, set, held, other),
        Err(_) => false,
    }
}

/// Two that hold the same text have the same word, and a third that holds another text has another.
fn tells_apart<S: StaticTables, N: SetName, R: Wait>(
    rt: &R,
    set: &NamedSet<S, N>,
    text: &str,
    other: &str,
) -> bool {
    match interned(rt, set, text) {
        Ok(first) => is_again(rt, set, &first, text, other),
        Err(_) => false,
    }
}

/// Whether the text is looked for, and not found.
fn finds_none<S: StaticTables, N: SetName, R: Wait>(
    rt: &R,
    set: &NamedSet<S, N>,
    text: &str,
) -> bool {
    matches!(found(rt, set, text), Ok(None))
}

/// What is held has its text, and is found, and another text isn't.
fn is_found<S: StaticTables, N: SetName, R: Wait>(
    rt: &R,
    set: &NamedSet<S, N>,
    text: &str,
    other: &str,
) -> bool {
    match interned(rt, set, text) {
        Ok(held) => {
            is_found_as(rt, set, &held, text) && finds_none(rt, set, other) && links(rt, set, 1)
        }
        Err(_) => false,
    }
}

/// The word that the text has while it is held here, unless it is refused.
fn word_of<S: StaticTables, N: SetName, R: Wait>(
    rt: &R,
    set: &NamedSet<S, N>,
    text: &str,
) -> Option<u64> {
    match interned(rt, set, text) {
        Ok(held) => Some(held.word()),
        Err(_) => None,
    }
}

/// Whether the text, held, has another word than this one, and is the only one linked.
fn has_new_word<S: StaticTables, N: SetName, R: Wait>(
    rt: &R,
    set: &NamedSet<S, N>,
    text: &str,
    before: u64,
) -> bool {
    match interned(rt, set, text) {
        Ok(held) => held.word() != before && links(rt, set, 1),
        Err(_) => false,
    }
}

/// A text that nobody holds is gone, and gets a word that it hasn't had before.
fn goes_with_the_last<S: StaticTables, N: SetName, R: Wait>(
    rt: &R,
    set: &NamedSet<S, N>,
    text: &str,
) -> bool {
    match word_of(rt, set, text) {
        Some(before) => links(rt, set, 0) && has_new_word(rt, set, text, before),
        None => false,
    }
}

/// What a call was refused for, if it was.
fn refusal<T: Drop>(outcome: Result<T, Fault>) -> Option<Fault> {
    outcome.err()
}

/// Whether no further holder is given by a clone, by the text or by looking it up.
fn is_full<S: StaticTables, N: SetName, R: Wait>(
    rt: &R,
    set: &NamedSet<S, N>,
    held: &Held<'_, S, N>,
    text: &str,
) -> bool {
    let full = Some(Fault::FullCount);
    refusal(cloned(rt, held)) == full
        && refusal(interned(rt, set, text)) == full
        && refusal(found(rt, set, text)) == full
}

/// Whether that is so while there is a second holder.
fn is_full_with_another<S: StaticTables, N: SetName, R: Wait>(
    rt: &R,
    set: &NamedSet<S, N>,
    held: &Held<'_, S, N>,
    text: &str,
) -> bool {
    match cloned(rt, held) {
        Ok(_second) => is_full(rt, set, held, text),
        Err(_) => false,
    }
}

/// With a limit of two holders: a third is refused, and taken once one has gone.
fn is_full_at_two<S: StaticTables, N: SetName, R: Wait>(
    rt: &R,
    set: &NamedSet<S, N>,
    text: &str,
) -> bool {
    match interned(rt, set, text) {
        Ok(first) => {
            is_full_with_another(rt, set, &first, text) && is_given_again(rt, set, &first, text)
        }
        Err(_) => false,
    }
}

/// Whether a clone has the word that is held.
fn is_cloned<S: StaticTables, N: SetName, R: Wait>(rt: &R, held: &Held<'_, S, N>) -> bool {
    match cloned(rt, held) {
        Ok(clone) => are_one(held, &clone),
        Err(_) => false,
    }
}

/// Whether a single try gives one more that holds the cell, and none at the limit of two.
fn is_tried<S: StaticTables, N: SetName>(cell: &HeldCell<'_, S, N>, text: &str) -> bool
    requires { cell.now.name.grows ≡ true }
{
    match cell.try_clone_held(cell.permit()) {
        Ok(second) => second.text() == text && cell.try_clone_held(cell.permit()).is_err(),
        Err(_) => false,
    }
}

/// Whether the text is found and cloned, also by a single try.
fn has_second<S: StaticTables, N: SetName, R: Wait>(
    rt: &R,
    set: &NamedSet<S, N>,
    text: &str,
) -> bool {
    match interned(rt, set, text) {
        Ok(held) => {
            is_found_as(rt, set, &held, text)
                && is_cloned(rt, &held)
                && is_tried(&held.into_parts().1, text)
        }
        Err(_) => false,
    }
}

/// A short text, none, one of NUL and others, one of more than a line, and two beyond ASCII.
static TEXTS: [&str; 6] = ["a", "", "a\0NUL", "two\nlines", "été", "長さ、大きさ"];

/// Whether each is found, and can have a second holder.
fn are_all<S: StaticTables, N: SetName, R: Wait>(rt: &R, set: &NamedSet<S, N>) -> bool {
    for text in &TEXTS {
        if !has_second(rt, set, text) {
            return false;
        }
    }
    true
}

/// Interns and gives back until the tickets of its one bucket are spent, and returns how many it had.
fn tickets_of<S: StaticTables, N: SetName, R: Wait>(rt: &R, set: &NamedSet<S, N>) -> u64 {
    for count in 0..100u64 {
        if refusal(interned(rt, set, "spent")) == Some(Fault::TicketsSpent) {
            return count;
        }
    }
    100
}

/// A set with limits of two holders and 20 serials in one bucket.
fn small_set<N: SetName>(alloc: Global, name: FreshName) -> Result<Named<N>, Fault>
    requires { N.logs ≡ name.logs }
{
    let limits = match Limits::new(2, 20) {
        Some(limits) => limits,
        None => Limits::greatest(),
    };
    NamedSet::new(alloc, name, limits)
}

fn small_name(alloc: Global) -> Result<FreshName, Fault> {
    let count = match Buckets::new(0) {
        Some(count) => count,
        None => Buckets::usual(),
    };
    FreshName::new(alloc, count)
}

fn asks<N: SetName, R: Wait + Abort>(rt: &R, alloc: Global, name: FreshName) -> Result<bool, Fault>
    requires { N.logs ≡ name.logs }
{
    let set = small_set::<N>(alloc, name)?;
    asks_of(rt, alloc, &set)
}

fn asks_of<N: SetName, R: Wait + Abort>(
    rt: &R,
    alloc: Global,
    set: &Named<N>,
) -> Result<bool, Fault> {
    let long = long_text(alloc)?;
    assert_that(rt, tells_apart(rt, set, "interned", "intern"));
    assert_that(rt, tells_apart(rt, set, long.as_str(), ""));
    assert_that(rt, is_found(rt, set, "interned", "intern"));
    assert_that(rt, is_found(rt, set, long.as_str(), "long"));
    assert_that(rt, goes_with_the_last(rt, set, "interned"));
    assert_that(rt, goes_with_the_last(rt, set, long.as_str()));
    assert_that(rt, is_full_at_two(rt, set, "interned"));
    assert_that(rt, are_all(rt, set) && has_second(rt, set, long.as_str()));
    Ok(true)
}

/// Two holders of one text have the same word, which goes with the last, and a third is refused if there may be two.
#[test]
fn words_are_those_of_texts(rt: HostRuntime) {
    let name = small_name(rt.alloc()).expect(&rt, "a name");
    assert_that(
        &rt,
        asks::<Brand, _>(&rt, rt.alloc(), name).expect(&rt, "answers"),
    );
}

fn spends<N: SetName, R: Wait>(rt: &R, alloc: Global, name: FreshName) -> Result<u64, Fault>
    requires { N.logs ≡ name.logs }
{
    let set = small_set::<N>(alloc, name)?;
    Ok(tickets_of(rt, &set))
}

/// A bucket gives as many tickets as the limits say, even though nothing is held.
#[test]
fn tickets_are_spent_at_the_limit(rt: HostRuntime) {
    let name = small_name(rt.alloc()).expect(&rt, "a name");
    assert_that(
        &rt,
        spends::<Brand, _>(&rt, rt.alloc(), name).expect(&rt, "an answer") == 20,
    );
}
