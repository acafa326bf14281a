//! Sweeps of a set with entries in certain buckets.

use crate::samples::{buckets_of, check_linked, drop_under_locks, intern};
use std::alloc::Global;
use std::process::Abort;
use std::sync::Wait;
use string_cache::DefaultAtom;
use string_cache::static_sets::EmptyStaticAtomSet;
use string_cache::word::Buckets;
use test_calls::{BITS, DefaultSet, hash_of, made_with};

fn set_of(rt: &impl Abort, alloc: Global, buckets: Buckets) -> DefaultSet {
    made_with(alloc, buckets).expect(rt, "a set")
}

/// A text of the bucket, if one of a million has it.
fn text_of_bucket(alloc: Global, buckets: Buckets, place: usize) -> Option<String> {
    for n in 0..1_000_000u32 {
        let text = format!(in alloc; "w{n:07}").ok()?;
        if usize::from(buckets.bucket_of(hash_of::<EmptyStaticAtomSet>(&text))) == place {
            return Some(text);
        }
    }
    None
}

/// Checks that this many entries are linked, even once they die as the atoms are dropped, and that a sweep takes them all.
fn check_sweep<R: Wait + Abort, A: Drop>(rt: &R, set: &DefaultSet, atoms: A, count: u128) {
    check_linked(rt, set, count);
    drop_under_locks(rt, set, atoms);
    check_linked(rt, set, count);
    set.sweep(rt);
    check_linked(rt, set, 0);
}

/// An atom of a text of the bucket.
fn atom_of_bucket<'s, R: Wait + Abort>(
    rt: &R,
    set: &'s DefaultSet,
    buckets: Buckets,
    place: usize,
) -> DefaultAtom<'s> {
    let text = text_of_bucket(set.allocator(), buckets, place).expect(rt, "a text");
    intern(rt, set, &text)
}

/// Checks a sweep of the first bucket and the last one.
fn check_ends<R: Wait + Abort>(rt: &R, set: &DefaultSet, buckets: Buckets) {
    let first = atom_of_bucket(rt, set, buckets, 0);
    let last = atom_of_bucket(rt, set, buckets, buckets.number() - 1);
    let count = if buckets.bits() == 0 { 1 } else { 2 };
    check_sweep(rt, set, (first, last), count);
}

/// Checks it in a set of this many bits.
fn check_ends_of<R: Wait + Abort>(rt: &R, alloc: Global, bits: u8) {
    let buckets = buckets_of(rt, bits);
    check_ends(rt, &set_of(rt, alloc, buckets), buckets);
}

#[test]
fn sweep_takes_the_first_and_the_last_bucket(rt: HostRuntime) {
    for bits in &BITS {
        check_ends_of(&rt, rt.alloc(), *bits);
    }
}

/// An atom of each of 16 buckets.
fn sixteen_atoms<'s, R: Wait + Abort>(
    rt: &R,
    set: &'s DefaultSet,
    buckets: Buckets,
) -> Vec<DefaultAtom<'s>> {
    let mut atoms = Vec::new(set.allocator());
    for place in 0..16 {
        let atom = atom_of_bucket(rt, set, buckets, place);
        atoms.push(atom).expect(rt, "room");
    }
    atoms
}

fn check_sixteen<R: Wait + Abort>(rt: &R, set: &DefaultSet, buckets: Buckets) {
    let atoms = sixteen_atoms(rt, set, buckets);
    check_sweep(rt, set, atoms, 16);
}

/// One entry in each of 16 buckets, held and then dying: all are counted, and a sweep takes them all.
#[test]
fn sweep_takes_each_of_sixteen_buckets(rt: HostRuntime) {
    let buckets = buckets_of(&rt, 4);
    check_sixteen(&rt, &set_of(&rt, rt.alloc(), buckets), buckets);
}
