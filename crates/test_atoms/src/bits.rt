//! Sets of each number of buckets. The low bits of the hash of "interned" are 0x7210, and a word is its serial times 0x10000 and its
//! bucket times 4.

use crate::assert_that;
use crate::samples::{buckets_of, intern, word_of};
use crate::scenes::Step;
use crate::sets::{ONE_BUCKET, Question, Size, ask, play};
use std::alloc::Global;
use std::process::Abort;
use std::sync::Wait;
use string_cache::SharedSet;
use string_cache::word::Buckets;
use test_calls::{DefaultSet, has_word, is_found, made_with};

fn set_of(rt: &impl Abort, alloc: Global, buckets: Buckets) -> DefaultSet {
    made_with(alloc, buckets).expect(rt, "a set")
}

/// Whether the set has this many buckets, and one entry, in the bucket at this place.
fn has_one_entry<R: Wait>(rt: &R, set: &DefaultSet, number: usize, place: usize) -> bool {
    let mut is_right = set.buckets().len() == number;
    for (at, bucket) in set.buckets().iter().enumerate() {
        is_right = is_right && bucket.lock(rt).len() == usize::from(at == place);
    }
    is_right
}

/// Whether the text's first word is this one, and it is found with it.
fn comes_first<S: SharedSet, R: Wait + Abort>(rt: &R, set: S, first: u64) -> bool {
    let atom = intern(rt, set, "interned");
    has_word(&atom, first) && is_found(rt, set, "interned", first)
}

/// Checks that the text's first word is this one, and that the next one has the next serial.
pub fn check<S: SharedSet, R: Wait + Abort>(rt: &R, set: S, first: u64) {
    assert_that(rt, comes_first(rt, set, first));
    assert_that(
        rt,
        word_of(rt, set, "interned").wrapping_sub(first) == 0x1_0000,
    );
}

/// Whether the text is in the bucket at this place, of this many.
fn has_place<R: Wait + Abort>(rt: &R, set: &DefaultSet, number: usize, place: usize) -> bool {
    let _held = intern(rt, set, "interned");
    has_one_entry(rt, set, number, place)
}

/// Checks it in a set of this many bits.
fn check_place<R: Wait + Abort>(rt: &R, alloc: Global, bits: u8, number: usize, place: usize) {
    let set = set_of(rt, alloc, buckets_of(rt, bits));
    assert_that(rt, has_place(rt, &set, number, place));
}

/// Bits, how many buckets these are, the text's bucket, and the first word.
static WORDS: [(u8, usize, usize, u64); 15] = [
    (0, 1, 0, 0x1_0000),
    (1, 2, 0, 0x1_0000),
    (2, 4, 0, 0x1_0000),
    (3, 8, 0, 0x1_0000),
    (4, 16, 0, 0x1_0000),
    (5, 32, 0x10, 0x1_0040),
    (6, 64, 0x10, 0x1_0040),
    (7, 128, 0x10, 0x1_0040),
    (8, 256, 0x10, 0x1_0040),
    (9, 512, 0x10, 0x1_0040),
    (10, 1024, 0x210, 0x1_0840),
    (11, 2048, 0x210, 0x1_0840),
    (12, 4096, 0x210, 0x1_0840),
    (13, 8192, 0x1210, 0x1_4840),
    (14, 16384, 0x3210, 0x1_c840),
];

/// A set of each number of bits is made, and each word's bucket is the one in its set that its text is in.
#[test]
fn words_have_the_bits_of_their_set(rt: HostRuntime) {
    for (bits, number, place, first) in &WORDS {
        let size = Size {
            bits: *bits,
            limits: None,
        };
        check_place(&rt, rt.alloc(), *bits, *number, *place);
        ask(&rt, rt.alloc(), size, Question::FirstWord(*first));
    }
}

static TICKETS: [Step; 5] = [
    Step::Intern("interned"),
    Step::Intern("tokenised"),
    Step::Is(0, "interned", 0x1_0000),
    Step::Is(1, "tokenised", 0x2_0000),
    Step::Linked(2),
];

#[test]
fn one_bucket_gives_all_tickets(rt: HostRuntime) {
    play(&rt, rt.alloc(), ONE_BUCKET, &[&TICKETS]);
}
