//! One text in each bucket of a set: held, then dying, then gone.

use crate::assert_that;
use crate::samples::{buckets_of, intern};
use crate::sets::{self, Kind, Size, ask};
use std::alloc::Global;
use std::process::Abort;
use std::sync::Wait;
use std::thread::Threads;
use std::time::Clock;
use string_cache::static_sets::EmptyStaticAtomSet;
use string_cache::word::Buckets;
use string_cache::{SetAtom, SharedSet};
use test_calls::{has_text, hash_of, look_up, shown};

/// The place of a text's bucket.
fn place_of(buckets: Buckets, text: &str) -> usize {
    usize::from(buckets.bucket_of(hash_of::<EmptyStaticAtomSet>(text)))
}

/// Puts a text at a place. Returns whether there was none yet.
fn is_put(texts: &mut [String], place: usize, text: String) -> bool {
    match texts.get_mut(place) {
        Some(at) if at.is_empty() => {
            *at = text;
            true
        }
        _ => false,
    }
}

/// The text of 15 bytes of a number.
fn text_of(rt: &impl Abort, alloc: Global, n: u32) -> String {
    format!(in alloc; "the text {n:06}").expect(rt, "a text")
}

/// Puts texts at their buckets' places until each has one. Returns how many have.
fn put_each(rt: &impl Abort, alloc: Global, buckets: Buckets, texts: &mut [String]) -> usize {
    let mut number = 0usize;
    for n in 0..400_000u32 {
        if number == buckets.number() {
            break;
        }
        let text = text_of(rt, alloc, n);
        let place = place_of(buckets, &text);
        number = number.saturating_add(usize::from(is_put(texts, place, text)));
    }
    number
}

/// A place for a text of each bucket.
fn places(rt: &impl Abort, alloc: Global, buckets: Buckets) -> Vec<String> {
    let mut texts = Vec::new(alloc);
    for _ in 0..buckets.number() {
        texts.push(String::new(alloc)).expect(rt, "room");
    }
    texts
}

/// A text of 15 bytes of each bucket, from the first bucket to the last.
fn texts_of_buckets(rt: &impl Abort, alloc: Global, buckets: Buckets) -> Vec<String> {
    let mut texts = places(rt, alloc, buckets);
    let number = put_each(rt, alloc, buckets, &mut texts);
    assert_that(rt, number == buckets.number());
    texts
}

/// An atom of each text, that of the first bucket last.
fn atoms_of<S: SharedSet, R: Wait + Abort>(
    rt: &R,
    set: S,
    texts: &[String],
) -> Vec<SetAtom<S::Held>> {
    let mut atoms = Vec::with_capacity(set.allocator(), texts.len()).expect(rt, "room");
    for text in texts.iter().rev() {
        atoms.push(intern(rt, set, text)).expect(rt, "room");
    }
    atoms
}

/// Whether the text is found as itself. One that isn't found has no other.
fn is_found<S: SharedSet, R: Wait + Abort>(rt: &R, set: S, text: &str) -> bool {
    match look_up(rt, set, text).expect(rt, "an answer") {
        Some(atom) => has_text(&atom, text),
        None => false,
    }
}

/// How many of the texts are found, each as itself.
fn found<S: SharedSet, R: Wait + Abort>(rt: &R, set: S, texts: &[String]) -> usize {
    let mut number = 0usize;
    for text in texts {
        number = number.saturating_add(usize::from(is_found(rt, set, text)));
    }
    number
}

/// Whether a visit shows as many texts, each with as many holders.
fn visits<S: SharedSet, R: Wait>(rt: &R, set: S, number: usize, holders: u64) -> bool {
    let shown = shown(rt, set);
    shown.entries == number as u64 && shown.fewest == holders && shown.most == holders
}

/// The bytes of a bucket, those that it keeps once it had a text, and those of a text of 15 bytes in addition.
fn bytes_of(kind: Kind) -> [u128; 3] {
    match kind {
        Kind::Plain => [32, 32, 48 + 32 + 16],
        Kind::Named => [112, 112 + 32, 32 + 16],
    }
}

/// Whether the set has this many texts with these holders, each in a bucket of its own.
fn has_texts<S: SharedSet, R: Wait>(
    rt: &R,
    set: S,
    kind: Kind,
    number: usize,
    holders: u64,
) -> bool {
    let [_, kept, text] = bytes_of(kind);
    set.linked(rt) == number as u128
        && visits(rt, set, number, holders)
        && set.memory(rt) == (number as u128).saturating_mul(kept.saturating_add(text))
}

/// Whether the set has no text, and each bucket what it keeps once it had one.
fn is_empty<S: SharedSet, R: Wait>(rt: &R, set: S, kind: Kind, number: usize) -> bool {
    let [_, kept, _] = bytes_of(kind);
    set.linked(rt) == 0 && set.memory(rt) == (number as u128).saturating_mul(kept)
}

/// Whether the texts are linked and found, each with one holder.
fn are_held<S: SharedSet, R: Wait + Abort>(rt: &R, set: S, kind: Kind, texts: &[String]) -> bool {
    has_texts(rt, set, kind, texts.len(), 1) && found(rt, set, texts) == texts.len()
}

/// Drops the last of what there is.
fn end_last<T: Drop>(atoms: &mut Vec<T>) {
    let _ = atoms.pop();
}

/// Holds the texts, and lets each die while a visit has its bucket's lock. Returns whether they were linked and found before.
fn are_found_till_they_die<S: SharedSet, R: Wait + Abort>(
    rt: &R,
    set: S,
    kind: Kind,
    texts: &[String],
) -> bool {
    let mut atoms = atoms_of(rt, set, texts);
    let are_held = are_held(rt, set, kind, texts);
    set.for_each(rt, |_, _| end_last(&mut atoms));
    are_held && atoms.is_empty()
}

/// Whether the texts are linked and found while they are held, and only linked while they die, until a sweep.
fn are_swept<S: SharedSet, R: Wait + Abort>(rt: &R, set: S, kind: Kind, texts: &[String]) -> bool {
    let were_held = are_found_till_they_die(rt, set, kind, texts);
    let are_dying = has_texts(rt, set, kind, texts.len(), 0);
    set.sweep(rt);
    were_held && are_dying && is_empty(rt, set, kind, texts.len())
}

/// Whether each text goes with its atom, and isn't found then.
fn go_alone<S: SharedSet, R: Wait + Abort>(rt: &R, set: S, kind: Kind, texts: &[String]) -> bool {
    drop(atoms_of(rt, set, texts));
    is_empty(rt, set, kind, texts.len()) && found(rt, set, texts) == 0
}

/// Checks a set of as many buckets, each of which has one of the texts.
pub fn check<S: SharedSet, R: Wait + Abort>(rt: &R, set: S, kind: Kind, texts: &[String]) {
    let [bucket, _, _] = bytes_of(kind);
    let of_none = (texts.len() as u128).saturating_mul(bucket);
    assert_that(rt, set.memory(rt) == of_none);
    assert_that(rt, are_swept(rt, set, kind, texts));
    assert_that(rt, go_alone(rt, set, kind, texts));
}

/// Checks a set of as many bits of buckets, of each kind.
fn check_buckets<R: Threads + Clock + Wait + Abort + Sync>(rt: &R, alloc: Global, bits: u8) {
    let texts = texts_of_buckets(rt, alloc, buckets_of(rt, bits));
    let size = Size { bits, limits: None };
    ask(rt, alloc, size, sets::Question::EveryBucket(&texts));
}

#[test]
fn each_of_two_buckets(rt: HostRuntime) {
    check_buckets(&rt, rt.alloc(), 1);
}

#[test]
fn each_of_the_usual_buckets(rt: HostRuntime) {
    check_buckets(&rt, rt.alloc(), 12);
}

#[test]
fn each_of_the_most_buckets(rt: HostRuntime) {
    check_buckets(&rt, rt.alloc(), 14);
}
