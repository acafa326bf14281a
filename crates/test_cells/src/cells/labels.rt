//! Cells of the lowest and the highest hashes and tickets: they live as others do.
ghost use Rattle.std.specs.Prelude.{◌≡◌, true, IfOk};

use super::{ShareGuard, frees, is_full, one_more, owner_tried, tried};
use crate::{assert_for, assert_that};
use counted_cell::{FreeGrant, Label, Owner};
use linked_list_allocator::LocalHeap;
use std::alloc::{AllocError, Allocator};
use std::process::Abort;
use std::sync::Wait;

/// A cell with this hash and this ticket, and its first share.
fn labelled<A: Allocator>(
    alloc: A,
    hash: u64,
    ticket: u64,
) -> Result<(Owner<A>, ShareGuard), AllocError>
    ensures { IfOk result (λ made. made.0.name.grows ≡ true) }
{
    let label = Label {
        hash,
        ticket,
        limit: 4,
    };
    let (owner, share) = Owner::new::<FreeGrant>(alloc, label, 9, "interned")?;
    Ok((owner, ShareGuard { share }))
}

/// Gets a share by each call, until there are as many as there may be.
fn share_out<A: Allocator, R: Wait + Abort>(rt: &R, owner: &Owner<A>, first: &ShareGuard)
    requires { owner.now.name.grows ≡ true }
{
    let second = one_more(rt, owner);
    let third = owner_tried(owner).expect(rt, "a share");
    let fourth = tried(first).expect(rt, "a share");
    assert_that(rt, is_full(rt, owner) && first.is_full(rt));
    drop(second);
    drop(third);
    assert_that(rt, !fourth.gives_last());
}

/// Gets and gives shares of such a cell, and ends it.
fn live<R: Wait + Abort>(
    rt: &R,
    heap: &LocalHeap,
    hash: u64,
    ticket: u64,
) -> Result<(), AllocError> {
    let (owner, first) = labelled(heap, hash, ticket)?;
    assert_that(rt, owner.hash() == hash && owner.ticket() == ticket);
    share_out(rt, &owner, &first);
    assert_that(rt, first.gives_last());
    assert_that(rt, frees(owner));
    Ok(())
}

static NUMBERS: [u64; 5] = [0, 1, 1 << 32, u64::MAX - 1, u64::MAX];

/// Whatever its hash and its ticket are, a cell gets shares below its limit, and its end gives its block back.
#[test]
fn hashes_and_tickets_of_each_kind(rt: HostRuntime) {
    let heap = LocalHeap::new(rt.alloc(), 4_096).expect(&rt, "an answer");
    for number in &NUMBERS {
        live(&rt, &heap, *number, 7).expect(&rt, "an answer");
        live(&rt, &heap, 8, *number).expect(&rt, "an answer");
        assert_for(&rt, heap.used() == 0, number);
    }
}
