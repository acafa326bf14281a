//! What tests of this crate share. They say nothing about what they do, and take a `Set` alone, not any set, so that each test is proved in a moment.

use crate::assert_that;
use std::alloc::Global;
use std::process::Abort;
use std::sync::{MutexGuard, Wait};
use string_cache::Atom;
use string_cache::dynamic_set::{Bucket, Set};
use string_cache::static_sets::{EmptyStaticAtomSet, StaticTables};
use string_cache::word::Buckets;
use test_calls::{DefaultSet, interned, limited, links, locked, made, made_with};

/// The buckets with this many bits.
pub fn buckets_of(rt: &impl Abort, bits: u8) -> Buckets {
    Buckets::new(bits).expect(rt, "bits")
}

/// A set of the usual limits.
pub fn new_set<Static: StaticTables>(rt: &impl Abort, alloc: Global) -> Set<Static> {
    made(alloc).expect(rt, "a set")
}

pub fn default_set(rt: &impl Abort, alloc: Global) -> DefaultSet {
    new_set(rt, alloc)
}

/// A set of one bucket.
pub fn one_bucket<Static: StaticTables>(rt: &impl Abort, alloc: Global) -> Set<Static> {
    made_with(alloc, buckets_of(rt, 0)).expect(rt, "a set")
}

pub fn limited_set(rt: &impl Abort, alloc: Global, holders: u64, serials: u64) -> DefaultSet {
    limited(alloc, holders, serials).expect(rt, "a set")
}

/// The atom of a text.
pub fn intern<'s, R: Wait + Abort, Static: StaticTables>(
    rt: &R,
    set: &'s Set<Static>,
    text: &str,
) -> Atom<'s, Static> {
    interned(rt, set, text).expect(rt, "an atom")
}

/// The lock of a bucket, held.
pub fn lock_of<'s, R: Wait + Abort>(
    rt: &R,
    set: &'s DefaultSet,
    at: usize,
) -> MutexGuard<'s, Bucket<EmptyStaticAtomSet>> {
    locked(rt, set, at).expect(rt, "a bucket")
}

/// Whether this many texts are linked.
pub fn has_linked<R: Wait, Static: StaticTables>(rt: &R, set: &Set<Static>, count: u128) -> bool {
    links(rt, set, count)
}

/// Checks that this many texts are linked.
pub fn check_linked<R: Wait + Abort, Static: StaticTables>(rt: &R, set: &Set<Static>, count: u128) {
    assert_that(rt, has_linked(rt, set, count));
}

/// The locks of all buckets but the one at this place, or of all if there is no such bucket.
pub fn locks_but<'s, R: Wait + Abort, Static: StaticTables>(
    rt: &R,
    set: &'s Set<Static>,
    free: usize,
) -> Vec<MutexGuard<'s, Bucket<Static>>> {
    let mut held = Vec::new(set.allocator());
    for (at, bucket) in set.buckets().iter().enumerate() {
        if at != free {
            held.push(bucket.lock(rt)).expect(rt, "room");
        }
    }
    held
}

/// Drops the atoms while all locks of their set are held, so that their entries die and stay linked.
pub fn drop_under_locks<R: Wait + Abort, A: Drop>(rt: &R, set: &DefaultSet, atoms: A) {
    let _held = locks_but(rt, set, usize::MAX);
    drop(atoms);
}
