//! Packs: each call once, and what becomes of the items at the end.

use super::{Mark, five, followed};
use crate::{assert_for, assert_that};
use node_chain::{NodeChain, Pack};
use std::sync::atomic::{AtomicU64, Ordering};
use std::test::Fail;

/// A pack of this many marks, the last of which has the digit 1.
fn pack_of<'a>(ended: &'a AtomicU64, count: u64) -> Pack<Mark<'a>> {
    let mut pack = Pack::new(Mark { ended, digit: 1 });
    for digit in 2..=count {
        if pack.has_room() {
            pack.add(Mark { ended, digit });
        }
    }
    pack
}

fn digits_of(pack: &Pack<Mark>) -> u64 {
    let mut number = 0u64;
    for index in 0..pack.len() {
        if let Some(mark) = pack.get(index) {
            number = followed(number, mark.digit);
        }
    }
    number
}

/// Whether a pack of this many items, with the one at this place taken out, has these digits left, and all end in this order.
fn closes(count: u64, index: usize, left: u64, ends: u64) -> bool {
    let ended = AtomicU64::new(0);
    let mut pack = pack_of(&ended, count);
    let is_full = pack.has_room() == (count < 4) && pack.get(pack.len()).is_none();
    if index < pack.len() && pack.len() > 1 {
        drop(pack.remove(index));
    }
    let is_left = digits_of(&pack) == left;
    drop(pack);
    is_full && is_left && ended.load(Ordering::SeqCst) == ends
}

/// The number of items, the place that is taken out, the digits that are left, and those that end.
static GAPS: [(u64, usize, u64, u64); 9] = [
    (2, 0, 1, 21),
    (2, 1, 2, 12),
    (3, 0, 21, 321),
    (3, 1, 31, 231),
    (3, 2, 32, 132),
    (4, 0, 321, 4321),
    (4, 1, 421, 3421),
    (4, 2, 431, 2431),
    (4, 3, 432, 1432),
];

#[test]
fn packs_close_their_gaps(rt: HostRuntime) {
    for (count, index, left, ends) in &GAPS {
        assert_for(&rt, closes(*count, *index, *left, *ends), &(count, index));
    }
}

/// Gives the next item this digit in a node that is unlinked and linked again, and passes it.
fn relink(chain: &mut NodeChain<Mark>, digit: u64) {
    if chain.look().is_some() {
        let mut node = chain.unlink();
        node.item.digit = digit;
        chain.link(node);
        chain.keep();
    }
}

#[test]
fn nodes_are_unlinked_and_linked_again(rt: HostRuntime) -> Result<(), Fail> {
    let ended = AtomicU64::new(0);
    let mut chain = five(&rt, rt.alloc(), &ended)?;
    for digit in 6..9u64 {
        relink(&mut chain, digit);
    }
    assert_that(&rt, chain.remaining() == 2);
    drop(chain);
    assert_that(&rt, ended.load(Ordering::SeqCst) == 67821);
    Ok(())
}
