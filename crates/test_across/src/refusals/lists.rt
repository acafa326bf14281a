//! Lists of atoms: a place that is refused memory leaves the list as it was, and is there once it is asked for again.

use crate::assert_that;
use crate::begun::new_set;
use std::io::Print;
use std::process::Abort;
use std::sync::Wait;
use string_cache::dynamic_set::Set;
use string_cache::{AtomList, EmptyStaticAtomSet, Fault};
use test_calls::{is_found, links, push};
use test_refusals::{begin, finishes_refused};

/// A list of atoms without static texts.
type DefaultList<'s> = AtomList<'s, EmptyStaticAtomSet>;

/// Pushes a text to a list of this many places. If a request is refused, the list stays as it was, and the text is pushed again.
fn push_at_last<R: Wait + Print>(
    rt: &R,
    list: &mut DefaultList<'_>,
    text: &str,
    places: usize,
) -> Result<(), Fault> {
    begin(rt);
    let answer = push(rt, list, text);
    if finishes_refused(rt, &answer) && list.len() == places {
        return push(rt, list, text);
    }
    answer
}

/// Whether the list's last place is this one, and it has these texts there and before it.
fn ends_at(list: &DefaultList<'_>, last: usize, texts: [&str; 2]) -> bool {
    list.get(last.saturating_sub(1)) == Some(texts[0])
        && list.get(last) == Some(texts[1])
        && list.len() == last.saturating_add(1)
}

/// Whether a text that is finally pushed to a list of this many places comes after the other one.
fn is_pushed_at_last<R: Wait + Print>(
    rt: &R,
    list: &mut DefaultList<'_>,
    places: usize,
    texts: [&str; 2],
) -> bool {
    push_at_last(rt, list, texts[1], places) == Ok(()) && ends_at(list, places, texts)
}

/// Whether the text is held under this word.
fn is_held<R: Wait>(rt: &R, set: &Set<EmptyStaticAtomSet>, text: &str, word: u64) -> bool {
    is_found(rt, set, text, word)
}

/// A list of one text, which has room for a second place.
fn list_of_one<'s, R: Wait + Abort>(
    rt: &R,
    set: &'s Set<EmptyStaticAtomSet>,
    text: &str,
) -> DefaultList<'s> {
    let mut list = AtomList::new(set);
    push(rt, &mut list, text).expect(rt, "a place");
    list
}

/// There is room for the place, and none for the text. By OpenSSL's SipHash the bucket of "interned" is 0x210.
#[test]
fn text_is_pushed(rt: HostRuntime) {
    let set = new_set(&rt, rt.alloc());
    let mut list = list_of_one(&rt, &set, "ab");
    assert_that(
        &rt,
        is_pushed_at_last(&rt, &mut list, 1, ["ab", "interned"])
            && is_held(&rt, &set, "interned", 0x1_0840),
    );
    drop(list);
    assert_that(&rt, links(&rt, &set, 0));
}

/// A list of 64 texts, whose next place is the first past the room that it has.
fn list_of_sixty_four<'s, R: Wait + Abort>(
    rt: &R,
    set: &'s Set<EmptyStaticAtomSet>,
) -> DefaultList<'s> {
    let mut list = list_of_one(rt, set, "interned");
    for _ in 1..64 {
        push(rt, &mut list, "ab").expect(rt, "a place");
    }
    list
}

/// There is no room for the place, and none for the text, which spends no ticket before it has both. By OpenSSL's SipHash the bucket of "tokenised"
/// is 0xe77.
#[test]
fn place_is_pushed(rt: HostRuntime) {
    let set = new_set(&rt, rt.alloc());
    let mut list = list_of_sixty_four(&rt, &set);
    assert_that(
        &rt,
        is_pushed_at_last(&rt, &mut list, 64, ["ab", "tokenised"])
            && is_held(&rt, &set, "tokenised", 0x1_39dc),
    );
    drop(list);
    assert_that(&rt, links(&rt, &set, 0));
}
