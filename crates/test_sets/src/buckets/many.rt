//! More entries in one bucket than 16 bits count.

use crate::assert_that;
use crate::samples::{lock_of, one_bucket};
use std::alloc::Global;
use std::process::Abort;
use std::sync::Wait;
use string_cache::Fault;
use string_cache::dynamic_set::{Bucket, FreeGrant, Share};
use string_cache::static_sets::EmptyStaticAtomSet;
use string_cache::word::Limits;
use test_calls::{DefaultSet, hash_of, is_found, links, shown};

/// How many entries there are.
const MANY: u32 = 70_000;

/// Links the text of a number in a bucket.
fn link(alloc: Global, bucket: &mut Bucket<EmptyStaticAtomSet>, n: u32) -> Result<Share, Fault> {
    let text = format!(in alloc; "the text {n:06}")?;
    let hash = hash_of::<EmptyStaticAtomSet>(&text);
    match bucket.link(&text, hash, &Limits::greatest(), FreeGrant) {
        Ok(share) => Ok(share),
        Err((fault, _)) => Err(fault),
    }
}

/// Links this many texts in a bucket, which no pass goes over meanwhile.
fn linked_in(
    rt: &impl Abort,
    alloc: Global,
    bucket: &mut Bucket<EmptyStaticAtomSet>,
) -> Vec<Share> {
    let mut shares = Vec::new(alloc);
    for n in 0..MANY {
        let share = link(alloc, bucket, n).expect(rt, "a share");
        shares.push(share).expect(rt, "room");
    }
    shares
}

/// Whether the set shows them, with the oldest and the newest found.
fn shows_many<R: Wait>(rt: &R, set: &DefaultSet) -> bool {
    let shown = shown(rt, set);
    links(rt, set, 70_000)
        && (shown.entries, shown.holders) == (70_000, 70_000)
        && is_found(rt, set, "the text 000000", 0x1_0000)
        && is_found(rt, set, "the text 069999", 70_000 * 0x1_0000)
}

fn link_many<R: Wait + Abort>(rt: &R, set: &DefaultSet) {
    let shares = linked_in(rt, set.allocator(), &mut lock_of(rt, set, 0));
    assert_that(rt, shows_many(rt, set));
    drop(shares);
    assert_that(rt, links(rt, set, 70_000));
    set.sweep(rt);
    assert_that(rt, links(rt, set, 0));
}

/// A bucket can be asked to link without a walk.
#[test]
fn one_bucket_has_many_entries(rt: HostRuntime) {
    link_many(&rt, &one_bucket(&rt, rt.alloc()));
}
