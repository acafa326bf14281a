//! The names of the program's sets: how many buckets a text gets, and that texts which were chosen under one run's keys are like any others under
//! another's.

ghost use Rattle.std.specs.Prelude.{◌≡◌};

use crate::{assert_for, assert_that};
use commands::set_names::{buckets_for, name_under};
use std::alloc::Global;
use std::hash::{BuildHasher, RandomState};
use std::marker::Brand;
use std::process::Abort;
use std::sync::Wait;
use string_cache::word::{Buckets, Limits};
use string_cache::{
    EmptyStaticAtomSet, FreshName, NamedAtomList, NamedSet, SetName, SipKey, StaticTables,
};
use test_samples::keys;

/// At each step of the choice, and on both sides of it.
static BITS: [(usize, u8); 6] = [
    (0, 6),
    (4095, 6),
    (4096, 8),
    (65_535, 8),
    (65_536, 10),
    (usize::MAX, 10),
];

#[test]
fn buckets_for_a_text(rt: HostRuntime) {
    for (bytes, bits) in &BITS {
        assert_for(&rt, buckets_for(*bytes).bits() == *bits, bytes);
    }
}

/// The bytes of an empty set with a name for a text with this number of bytes.
fn bytes_of_empty<R: Wait + Abort>(rt: &R, alloc: Global, bytes: usize) -> u128 {
    let keys = keys(1).expect(rt, "keys");
    let name = name_under(alloc, keys, bytes).expect(rt, "a name");
    bytes_named::<Brand, R>(rt, alloc, name, &[])
}

/// A bucket has 112 bytes.
#[test]
fn names_have_buckets_for_a_text(rt: HostRuntime) {
    for (bytes, bits) in &BITS {
        let wanted = 112u128 << *bits;
        assert_for(
            &rt,
            bytes_of_empty(&rt, rt.alloc(), *bytes) == wanted,
            bytes,
        );
    }
}

/// So many texts are chosen.
const COUNT: usize = 20;

/// The index of a bucket with so many texts has 34 places or more. So many of them aren't below all where texts belong.
const UPPER: u64 = 34 - 8;

/// What an index under these keys multiplies hashes with.
fn multiplier(keys: &RandomState) -> u64 {
    SipKey::new(keys.hash_one(0u64), keys.hash_one(1u64)).hash_one(0u64) | 1
}

/// Whether a text is of the first bucket of a small text's, and belongs at the lowest of the upper places of an index that multiplies with this.
fn is_chosen(buckets: Buckets, multiplier: u64, text: &str) -> bool {
    let (_, hash) = EmptyStaticAtomSet::look_up(text);
    let short = hash.wrapping_mul(multiplier) >> 32;
    buckets.bucket_of(hash) == 0 && (short * UPPER) >> 32 == 0
}

/// Texts that were chosen for the keys with this number.
fn chosen(rt: &impl Abort, alloc: Global, number: u64) -> Vec<String> {
    let keys = keys(number).expect(rt, "keys");
    let multiplier = multiplier(&keys);
    let mut texts = Vec::new(alloc);
    for n in 0..100_000 {
        let text = format!(in alloc; "chosen{n}").expect(rt, "room");
        if texts.len() < COUNT && is_chosen(buckets_for(0), multiplier, &text) {
            texts.push(text).expect(rt, "room");
        }
    }
    texts
}

/// The bytes that the set with this name takes once it holds the texts.
fn bytes_named<N: SetName, R: Wait + Abort>(
    rt: &R,
    alloc: Global,
    name: FreshName,
    texts: &[String],
) -> u128
    requires { N.logs ≡ name.logs }
{
    let set = NamedSet::<EmptyStaticAtomSet, N>::new(alloc, name, Limits::greatest());
    let set = set.expect(rt, "a set");
    let mut atoms = NamedAtomList::new(&set);
    for text in texts {
        atoms.push_str(rt, text.as_str()).expect(rt, "room");
    }
    set.memory(rt)
}

/// The same of a set for a small text under the keys with this number.
fn bytes_under<R: Wait + Abort>(rt: &R, alloc: Global, number: u64, texts: &[String]) -> u128 {
    let keys = keys(number).expect(rt, "keys");
    let name = name_under(alloc, keys, 0).expect(rt, "a name");
    bytes_named::<Brand, R>(rt, alloc, name, texts)
}

/// Under the keys for which they were chosen, most of the texts lie beside the index, which then takes fewer bytes than one over which they are
/// spread.
#[test]
fn texts_chosen_under_other_keys(rt: HostRuntime) {
    for (own, other) in &[(1, 2), (2, 1)] {
        let texts = chosen(&rt, rt.alloc(), *own);
        let beside = bytes_under(&rt, rt.alloc(), *own, &texts);
        let spread = bytes_under(&rt, rt.alloc(), *other, &texts);
        assert_for(&rt, texts.len() == COUNT && beside < spread, own);
    }
}
