//! What tests of this crate share: sets, atoms and numbers of buckets. They say nothing about what they do, so that each test is proved in a moment.

use crate::assert_that;
use std::alloc::Global;
use std::process::Abort;
use std::sync::Wait;
use string_cache::dynamic_set::Set;
use string_cache::static_sets::StaticTables;
use string_cache::word::Buckets;
use string_cache::{AtomKind, SetAtom, SharedSet, TextSet};
use test_calls::{are_one, cloned, interned, links, look_up, made};

/// The buckets with this many bits.
pub fn buckets_of(rt: &impl Abort, bits: u8) -> Buckets {
    Buckets::new(bits).expect(rt, "bits")
}

/// A set of the usual limits.
pub fn new_set<Static: StaticTables>(rt: &impl Abort, alloc: Global) -> Set<Static> {
    made(alloc).expect(rt, "a set")
}

/// The word of a text's atom, which goes at once.
pub fn word_of<S: TextSet, R: Wait + Abort>(rt: &R, set: S, text: &str) -> u64 {
    intern(rt, set, text).unsafe_data()
}

/// The atom of a text.
pub fn intern<S: TextSet, R: Wait + Abort>(rt: &R, set: S, text: &str) -> SetAtom<S::Held> {
    interned(rt, set, text).expect(rt, "an atom")
}

pub fn clone_of<H: AtomKind, R: Wait + Abort>(rt: &R, atom: &SetAtom<H>) -> SetAtom<H> {
    cloned(rt, atom).expect(rt, "an atom")
}

/// Whether both atoms are equal.
pub fn are_equal<H: AtomKind>(one: &SetAtom<H>, other: &SetAtom<H>) -> bool {
    *one == *other
}

/// Whether both atoms have the same word, and are equal.
pub fn is_one<H: AtomKind>(one: &SetAtom<H>, other: &SetAtom<H>) -> bool {
    are_one(one, other) && are_equal(one, other)
}

/// Whether the text isn't found.
pub fn is_absent<S: SharedSet, R: Wait>(rt: &R, set: S, text: &str) -> bool {
    matches!(look_up(rt, set, text), Ok(None))
}

/// A text that is owned.
pub fn owned(rt: &impl Abort, alloc: Global, text: &str) -> String {
    String::from_str(alloc, text).expect(rt, "a text")
}

/// Drops what there is.
pub fn end<T: Drop>(last: &mut Option<T>) {
    *last = None;
}

/// Compiles only for what threads may share and send.
pub fn crosses<T: Send + Sync>(_value: &T) {}

/// Checks that this many texts are linked.
pub fn check_linked<S: SharedSet, R: Wait + Abort>(rt: &R, set: S, count: u128) {
    assert_that(rt, links(rt, set, count));
}
