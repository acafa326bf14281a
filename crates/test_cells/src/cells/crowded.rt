//! A cell that many share.

use super::{GREATEST, ShareGuard, frees, make, owner_tried, tried};
use crate::assert_that;
use std::alloc::Global;
use std::process::Abort;

/// So many shares more, each by a single try.
fn shares(rt: &impl Abort, alloc: Global, first: &ShareGuard, count: usize) -> Vec<ShareGuard> {
    let mut shares = Vec::new(alloc);
    for _ in 0..count {
        shares
            .push(tried(first).expect(rt, "a share"))
            .expect(rt, "room");
    }
    shares
}

/// Single tries succeed however many shares there are.
#[test]
fn single_tries_among_many(rt: HostRuntime) {
    let (owner, first) = make(rt.alloc(), GREATEST, "interned").expect(&rt, "an answer");
    let others = shares(&rt, rt.alloc(), &first, 70_000);
    assert_that(
        &rt,
        tried(&first).is_some() && owner_tried(&owner).is_some(),
    );
    drop(others);
    assert_that(&rt, first.gives_last());
    assert_that(&rt, frees(owner));
}
