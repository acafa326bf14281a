//! What no contract says: words and texts that come from outside, and sets that threads share.

use crate::assert_that;
use crate::samples::{are_equal, crosses, intern, is_one, new_set};
use crate::scenes::Step;
use crate::sets::{USUAL, play};
use std::process::Abort;
use std::sync::Wait;
use std::thread::{self, Threads};
use string_cache::{Atom, DefaultAtom};
use test_calls::{DefaultSet, has_text};
use test_samples::One;

/// Texts that are inline, and their words.
static INLINE: [Step; 7] = [
    Step::Word("", 0x01),
    Step::Word("a", 0x6111),
    Step::Word("foo", 0x6f6f_6631),
    Step::Word("abcdefg", 0x6766_6564_6362_6171),
    Step::Word("\0", 0x11),
    Step::Word("é", 0xa9_c321),
    Step::Linked(0),
];

#[test]
fn inline_atoms(rt: HostRuntime) {
    play(&rt, rt.alloc(), USUAL, &[&INLINE]);
}

/// Texts that are dynamic, and their words: the low 12 bits of f1, which is 0x86f9a2c5, 0x06a47210 and 0xb9737e77, are the bucket. The first one is
/// held until the end, so that it is found again.
static DYNAMIC: [Step; 5] = [
    Step::Intern("abcdefgh"),
    Step::Word("abcdefgh", 0x1_0b14),
    Step::Word("interned", 0x1_0840),
    Step::Word("tokenised", 0x1_39dc),
    Step::Word("abcdefgh", 0x1_0b14),
];

#[test]
fn dynamic_atoms(rt: HostRuntime) {
    play(&rt, rt.alloc(), USUAL, &[&DYNAMIC]);
}

/// Whether atoms of the two texts, from two sets, are equal.
fn have_equal_atoms<'s, R: Wait + Abort>(
    rt: &R,
    left: (&'s DefaultSet, &str),
    right: (&'s DefaultSet, &str),
) -> bool {
    intern(rt, left.0, left.1) == intern(rt, right.0, right.1)
}

#[test]
fn atoms_of_two_sets(rt: HostRuntime) {
    let one = new_set(&rt, rt.alloc());
    let other = new_set(&rt, rt.alloc());
    assert_that(
        &rt,
        have_equal_atoms(&rt, (&one, "abcdefgh"), (&other, "abcdefgh")),
    );
    assert_that(
        &rt,
        !have_equal_atoms(&rt, (&one, "abcdefgh"), (&other, "interned")),
    );
}

/// Without static tables no text is static.
#[test]
fn not_static(rt: HostRuntime) {
    assert_that(&rt, DefaultAtom::try_static("").is_none());
    assert_that(&rt, DefaultAtom::pack_static(0).is_none());
    assert_that(&rt, Atom::<One>::pack_static(1).is_none());
}

/// An atom of a text that all threads intern, and one of a text of a thread's own.
type Both<'s> = (DefaultAtom<'s>, DefaultAtom<'s>);

fn intern_both<'s, R: Wait + Abort>(rt: &R, set: &'s DefaultSet, own: &str) -> Both<'s> {
    (intern(rt, set, "tokenised"), intern(rt, set, own))
}

/// Whether two threads have the same atom of the text that both interned, and atoms of texts of their own.
fn are_shared(left: &Both<'_>, right: &Both<'_>) -> bool {
    crosses(left);
    is_one(&left.0, &right.0)
        && !are_equal(&left.1, &right.1)
        && has_text(&left.1, "sentence")
        && has_text(&right.1, "repeated")
}

fn share<R: Threads + Wait + Abort + Sync>(rt: &R, set: &DefaultSet) -> bool {
    crosses(set);
    let (left, right) = thread::join(
        rt,
        || intern_both(rt, set, "sentence"),
        || intern_both(rt, set, "repeated"),
    );
    are_shared(&left, &right)
}

#[test]
fn shared_by_threads(rt: HostRuntime) {
    let set = new_set(&rt, rt.alloc());
    assert_that(&rt, share(&rt, &set));
}
