//! What no clause says: that memory is found, what becomes of the items at the end, and how deep that goes. All also pass if any one request for
//! memory is refused, as under `rt try --test --fail-alloc N`.

mod packs;

use crate::{assert_for, assert_that};
use node_chain::NodeChain;
use std::alloc::Global;
use std::process::Abort;
use std::sync::atomic::{AtomicU64, Ordering};
use std::test::Fail;

/// Puts its digit after those of the marks that ended before it.
struct Mark<'a> {
    ended: &'a AtomicU64,
    digit: u64,
}

impl<'a> Drop for Mark<'a> {
    fn drop(self) {
        let Self { ended, digit } = self;
        let before = ended.load(Ordering::SeqCst);
        ended.store(followed(before, digit), Ordering::SeqCst);
    }
}

/// The number with one more digit.
fn followed(number: u64, digit: u64) -> u64 {
    number.wrapping_mul(10).wrapping_add(digit)
}

/// The digits of all items, which are left in that order.
fn digits(chain: &mut NodeChain<Mark>) -> u64 {
    chain.rewind();
    let mut number = 0u64;
    for _ in 0..chain.remaining() {
        let Some(mark) = chain.look() else {
            break;
        };
        number = followed(number, mark.digit);
        chain.keep();
    }
    chain.rewind();
    number
}

/// Adds a mark as the first. If that is refused, the mark is handed back and nothing has changed; it is then added again.
fn add<'a>(
    rt: &impl Abort,
    chain: &mut NodeChain<Mark<'a>>,
    ended: &'a AtomicU64,
    digit: u64,
) -> Result<(), Fail> {
    let (number, so_far) = (digits(chain), ended.load(Ordering::SeqCst));
    chain.rewind();
    if let Err(refused) = chain.add_head(Mark { ended, digit }) {
        assert_that(rt, refused.value.digit == digit);
        assert_that(rt, digits(chain) == number);
        assert_that(rt, ended.load(Ordering::SeqCst) == so_far);
        chain.rewind();
        chain.add_head(refused.value)?;
    }
    Ok(())
}

/// A chain whose digits are 54321.
fn five<'a>(
    rt: &impl Abort,
    alloc: Global,
    ended: &'a AtomicU64,
) -> Result<NodeChain<Mark<'a>>, Fail> {
    let mut chain = NodeChain::new(alloc);
    assert_that(rt, chain.look().is_none());
    for digit in 1..6u64 {
        add(rt, &mut chain, ended, digit)?;
    }
    assert_that(rt, digits(&mut chain) == 54321);
    Ok(chain)
}

/// Takes out the items of these digits, and passes the others.
fn take_out(chain: &mut NodeChain<Mark>, digits: &[u64]) {
    for _ in 0..chain.remaining() {
        let Some(mark) = chain.look() else {
            break;
        };
        if digits.contains(&mark.digit) {
            drop(chain.take_out());
        } else {
            chain.keep();
        }
    }
}

/// Whether all items were passed, and these are left.
fn has_passed(chain: &mut NodeChain<Mark>, stay: u64) -> bool {
    chain.look().is_none() && chain.remaining() == 0 && digits(chain) == stay
}

/// Whether these digits stay once some are taken out, and all end in this order, once a sixth was added.
fn are_taken_out(
    rt: &impl Abort,
    alloc: Global,
    out: &[u64],
    stay: u64,
    ends: u64,
) -> Result<bool, Fail> {
    let ended = AtomicU64::new(0);
    let mut chain = five(rt, alloc, &ended)?;
    take_out(&mut chain, out);
    let is_right = has_passed(&mut chain, stay);
    add(rt, &mut chain, &ended, 6)?;
    drop(chain);
    Ok(is_right && ended.load(Ordering::SeqCst) == ends)
}

/// The digits that are taken out, those that stay, and the order in which all end, once a sixth was added.
static TAKEN: [(&[u64], u64, u64); 10] = [
    (&[], 54321, 654321),
    (&[5], 4321, 564321),
    (&[3], 5421, 365421),
    (&[1], 5432, 165432),
    (&[5, 4], 321, 546321),
    (&[4, 3], 521, 436521),
    (&[2, 1], 543, 216543),
    (&[5, 3, 1], 42, 531642),
    (&[4, 2], 531, 426531),
    (&[5, 4, 3, 2, 1], 0, 543216),
];

#[test]
fn items_are_taken_out_anywhere(rt: HostRuntime) -> Result<(), Fail> {
    for (out, stay, ends) in &TAKEN {
        let is_right = are_taken_out(&rt, rt.alloc(), out, *stay, *ends)?;
        assert_for(&rt, is_right, out);
    }
    Ok(())
}

/// Passes an item, if there is one.
fn pass(chain: &mut NodeChain<Mark>) {
    if chain.look().is_some() {
        chain.keep();
    }
}

/// Whether the next item has this digit, and this many are left with it.
fn stands_at(chain: &NodeChain<Mark>, digit: u64, left: usize) -> bool {
    matches!(chain.look(), Some(mark) if mark.digit == digit) && chain.remaining() == left
}

#[test]
fn items_that_were_passed_end_as_well(rt: HostRuntime) -> Result<(), Fail> {
    let ended = AtomicU64::new(0);
    let mut chain = five(&rt, rt.alloc(), &ended)?;
    pass(&mut chain);
    pass(&mut chain);
    assert_that(&rt, stands_at(&chain, 3, 3));
    drop(chain);
    assert_that(&rt, ended.load(Ordering::SeqCst) == 54321);
    Ok(())
}

/// One of those whose ends are counted.
struct Counted<'a> {
    ended: &'a AtomicU64,
}

impl<'a> Drop for Counted<'a> {
    fn drop(self) {
        let Self { ended } = self;
        let _ = ended.fetch_add(1, Ordering::SeqCst);
    }
}

/// An end that called itself for each next node would need more stack than there is.
#[test]
fn a_long_chain_ends(rt: HostRuntime) -> Result<(), Fail> {
    let ended = AtomicU64::new(0);
    let mut chain = NodeChain::new(rt.alloc());
    for _ in 0..200_000u32 {
        chain.rewind();
        if let Err(refused) = chain.add_head(Counted { ended: &ended }) {
            chain.rewind();
            chain.add_head(refused.value)?;
        }
    }
    assert_that(&rt, chain.remaining() == 200_000);
    drop(chain);
    assert_that(&rt, ended.load(Ordering::SeqCst) == 200_000);
    Ok(())
}
