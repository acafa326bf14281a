//! More calls that ask for no memory: those of lists, of borrowed texts, and of a change of case.

use super::{DefaultList, SHORT};
use crate::assert_that;
use crate::begun::{intern, new_set};
use crate::refusals::named;
use serde_json::Value;
use std::borrow::CowStr;
use std::io::Print;
use std::process::Abort;
use std::sync::Wait;
use string_cache::dynamic_set::Set;
use string_cache::{AtomList, DefaultAtom, EmptyStaticAtomSet, Fault};
use test_calls::{cloned_at, interned_cow, links, lowered, pop, push, read_json};
use test_refusals::{End, begin, finish};
use test_samples::One;

/// How many places a list has before it is cleared.
const PLACES: usize = 100;

/// Pushes an inline text so often.
fn is_filled<R: Wait>(rt: &R, list: &mut DefaultList<'_>) -> bool {
    for _ in 0..PLACES {
        if push(rt, list, "ab") != Ok(()) {
            return false;
        }
    }
    true
}

/// Whether the list is cleared, and filled again.
fn is_filled_again<R: Wait + Print>(rt: &R, list: &mut DefaultList<'_>) -> bool {
    begin(rt);
    list.clear();
    let is_again = is_filled(rt, list);
    finish(rt, End::Given);
    is_again
}

/// Also a long one.
#[test]
fn cleared_list_keeps_its_room(rt: HostRuntime) {
    let set: Set<EmptyStaticAtomSet> = new_set(&rt, rt.alloc());
    let mut list = AtomList::new(&set);
    let is_filled = is_filled(&rt, &mut list);
    assert_that(&rt, is_filled && is_filled_again(&rt, &mut list));
}

/// A list of atoms with a static text.
type OneList<'s> = AtomList<'s, One>;

fn has_atom<R: Wait + Abort>(rt: &R, list: &OneList<'_>, at: usize) -> bool {
    cloned_at(rt, list, at).expect(rt, "an answer").is_some()
}

/// Whether a static text has a place, and an atom there, and goes.
fn has_static_place<R: Wait + Print + Abort>(rt: &R, list: &mut OneList<'_>) -> bool {
    begin(rt);
    let is_there = push(rt, list, "sentence") == Ok(()) && has_atom(rt, list, 1);
    let goes = pop(list).is_some();
    finish(rt, End::Given);
    is_there && goes
}

#[test]
fn static_text_has_a_place(rt: HostRuntime) {
    let set: Set<One> = new_set(&rt, rt.alloc());
    let mut list = AtomList::new(&set);
    push(&rt, &mut list, "ab").expect(&rt, "a place");
    assert_that(&rt, has_static_place(&rt, &mut list));
}

/// The word of the atom of a borrowed text that might be owned.
fn cow_word<R: Wait + Abort>(rt: &R, set: &Set<One>, text: &str) -> u64 {
    interned_cow(rt, set, CowStr::Borrowed(text))
        .expect(rt, "an answer")
        .unsafe_data()
}

/// Whether a text that is held, an inline one and a static one have these words.
fn are_borrowed<R: Wait + Print + Abort>(rt: &R, set: &Set<One>, word: u64) -> bool {
    begin(rt);
    let is_held = cow_word(rt, set, "interned") == word;
    let are_fixed = cow_word(rt, set, "abcdefg") == SHORT && cow_word(rt, set, "sentence") == 2;
    finish(rt, End::Given);
    is_held && are_fixed
}

#[test]
fn borrowed_texts_are_not_copied(rt: HostRuntime) {
    let set: Set<One> = new_set(&rt, rt.alloc());
    let held = intern(&rt, &set, "interned");
    assert_that(&rt, are_borrowed(&rt, &set, held.unsafe_data()));
}

fn is_lowered<R: Wait>(
    rt: &R,
    set: &Set<EmptyStaticAtomSet>,
    atom: &DefaultAtom<'_>,
    lower: &DefaultAtom<'_>,
) -> bool {
    match lowered(rt, set, atom) {
        Ok(other) => other == *lower,
        Err(_) => false,
    }
}

/// Whether the atom stays as it is in lower case.
fn stays_lower<R: Wait>(rt: &R, set: &Set<EmptyStaticAtomSet>, atom: &DefaultAtom<'_>) -> bool {
    match lowered(rt, set, atom) {
        Ok(other) => other == *atom,
        Err(_) => false,
    }
}

/// Whether the first is the second in lower case, and the last one stays as it is.
fn are_lowered<R: Wait + Print>(
    rt: &R,
    set: &Set<EmptyStaticAtomSet>,
    upper: &DefaultAtom<'_>,
    lower: &DefaultAtom<'_>,
    long: &DefaultAtom<'_>,
) -> bool {
    begin(rt);
    let are_lowered = is_lowered(rt, set, upper, lower) && stays_lower(rt, set, long);
    finish(rt, End::Given);
    are_lowered
}

/// The atom of this letter, so often.
fn letters<'s, R: Wait + Abort>(
    rt: &R,
    set: &'s Set<EmptyStaticAtomSet>,
    letter: &str,
    times: usize,
) -> DefaultAtom<'s> {
    let text = letter.repeat(set.allocator(), times).expect(rt, "a text");
    intern(rt, set, &text)
}

/// A text of 64 bytes is changed without memory, and a longer one that has the case already isn't copied.
#[test]
fn lower_case_of_long_texts(rt: HostRuntime) {
    let set = new_set(&rt, rt.alloc());
    let upper = letters(&rt, &set, "A", 64);
    let lower = letters(&rt, &set, "a", 64);
    let long = letters(&rt, &set, "a", 65);
    assert_that(&rt, are_lowered(&rt, &set, &upper, &lower, &long));
}

/// Whether JSON values that are no texts are refused as such.
fn are_no_texts<R: Wait>(rt: &R, set: &Set<EmptyStaticAtomSet>, values: &[Value]) -> bool {
    for value in values {
        if read_json(rt, set, value).err() != Some(Fault::NotText) {
            return false;
        }
    }
    true
}

/// Whether they are, without a request.
fn are_refused<R: Wait + Print>(rt: &R, set: &Set<EmptyStaticAtomSet>, values: &[Value]) -> bool {
    begin(rt);
    let are_refused = are_no_texts(rt, set, values);
    finish(rt, End::Given);
    are_refused
}

/// What is no text is refused before memory is asked for.
#[test]
fn json_without_text_is_refused(rt: HostRuntime) {
    let set: Set<EmptyStaticAtomSet> = new_set(&rt, rt.alloc());
    let list = Value::from_str(
        rt.alloc(),
        "[null, true, 7.5, -1, [\"interned\"], {\"interned\": 1}]",
    );
    let list = list.expect(&rt, "a value");
    let values = list.as_array().expect(&rt, "a list");
    assert_that(&rt, are_refused(&rt, &set, values.as_slice()));
}

/// And one whose last place is taken out before it is cleared.
#[test]
fn list_is_read_and_taken_from(rt: HostRuntime) {
    let set: Set<EmptyStaticAtomSet> = new_set(&rt, rt.alloc());
    assert_that(&rt, named::is_listed(&rt, &set) && links(&rt, &set, 0));
}

/// So is one of a set with a name.
#[test]
fn list_of_a_set_with_a_name_is_read_and_taken_from(rt: HostRuntime) {
    named::check(&rt, rt.alloc(), named::Call::Listed);
}
