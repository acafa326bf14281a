//! What no clause says: that a cell is made, that an addition below the limit succeeds, that `dying` answers as soon as the count
//! is 0, that a block is really freed, and what threads do to one count.
ghost use Rattle.std.specs.Prelude.{◌≡◌, true, ℕ, ◌≤◌, ◌<◌, ◌^◌, IfOk};
ghost use Rattle.counted_cell.specs.Cell.{Cell};
ghost use Rattle.counted_cell.specs.Reply.{IsReply};

mod crowded;
mod labels;

use crate::receipts::first_receipt;
use crate::{assert_for, assert_that};
use counted_cell::{AtLimit, CellShare, Ending, FreeGrant, Label, Owner, Permit, ShareReply};
use linked_list_allocator::LocalHeap;
use std::alloc::{AllocError, Allocator, Global};
use std::process::Abort;
use std::sync::Wait;
use std::thread::{self, Threads};

/// A share that is given back at its drop. Its cell gets more shares.
struct ShareGuard {
    share: CellShare,
    ghost grows: { share.cell.name.grows ≡ true },
}

impl Drop for ShareGuard {
    fn drop(self) {
        let _ = self.gives_last();
    }
}

impl ShareGuard {
    /// Gives the share back, and returns whether it was the last.
    fn gives_last(self) -> bool {
        self.into_share().give().last().is_some()
    }

    /// The share, which isn't given back.
    fn into_share(self) -> CellShare
        ensures { result.cell.name.grows ≡ true }
    {
        let Self { share } = self;
        share
    }

    fn has_text(&self, text: &str) -> bool {
        self.share.text() == text
    }

    /// One more share of its cell.
    fn one_more<R: Wait + Abort>(&self, rt: &R) -> ShareGuard {
        share_answer(self.share.add(rt, self.share.permit())).share(rt)
    }

    /// Whether one more share is refused, since there are as many as there may be.
    fn is_full<R: Wait>(&self, rt: &R) -> bool {
        matches!(
            share_answer(self.share.add(rt, self.share.permit())),
            Answer::Full
        )
    }
}

/// A reply whose share is given back at its drop.
#[derive(Drop)]
enum Answer {
    Added(ShareGuard),
    Dying,
    Full,
}

fn reply_answer(reply: ShareReply) -> Answer
    requires { (c : Cell) × (permit : ℕ) × IsReply c permit reply × (c.name.grows ≡ true) }
{
    match reply {
        ShareReply::Added(share, _) => Answer::Added(ShareGuard { share }),
        ShareReply::Dying(_, _) => Answer::Dying,
        ShareReply::Full(_, _) => Answer::Full,
    }
}

fn share_answer(reply: Result<CellShare, (AtLimit, Permit)>) -> Answer
    requires { IfOk reply (λ share. share.cell.name.grows ≡ true) }
{
    match reply {
        Ok(share) => Answer::Added(ShareGuard { share }),
        Err(_) => Answer::Full,
    }
}

impl Answer {
    /// The share that was added.
    fn share(self, rt: &impl Abort) -> ShareGuard {
        match self {
            Answer::Added(share) => share,
            Answer::Dying | Answer::Full => panic!(rt; "nothing was added"),
        }
    }
}

/// A cell, whose first share is given back at its drop.
fn make<A: Allocator>(
    alloc: A,
    limit: u64,
    text: &str,
) -> Result<(Owner<A>, ShareGuard), AllocError>
    requires { (1 ≤ limit) × (limit < 2 ^ 63) }
    ensures { IfOk result (λ made. made.0.name.grows ≡ true) }
{
    let label = Label {
        hash: 8,
        ticket: 7,
        limit,
    };
    let (owner, share) = Owner::new::<FreeGrant>(alloc, label, 9, text)?;
    Ok((owner, ShareGuard { share }))
}

/// A cell of a short text, with its first share.
fn made(rt: &impl Abort, alloc: Global) -> (Owner<Global>, ShareGuard)
    ensures { result.0.name.grows ≡ true }
{
    make(alloc, 2, "interned").expect(rt, "an answer")
}

/// One more share of the owner's cell.
fn one_more<A: Allocator, R: Wait + Abort>(rt: &R, owner: &Owner<A>) -> ShareGuard
    requires { owner.now.name.grows ≡ true }
{
    reply_answer(owner.add(rt, owner.permit())).share(rt)
}

/// Whether one more share is refused, since there are as many as there may be.
fn is_full<A: Allocator, R: Wait>(rt: &R, owner: &Owner<A>) -> bool
    requires { owner.now.name.grows ≡ true }
{
    matches!(reply_answer(owner.add(rt, owner.permit())), Answer::Full)
}

/// Whether the count reads 0.
fn is_dying<A: Allocator>(owner: &Owner<A>) -> bool {
    owner.dying().is_ok()
}

/// Whether one more share is refused, since there is none left.
fn is_over<A: Allocator, R: Wait>(rt: &R, owner: &Owner<A>) -> bool
    requires { owner.now.name.grows ≡ true }
{
    matches!(reply_answer(owner.add(rt, owner.permit())), Answer::Dying)
}

/// Whether the owner reads this many shares.
fn has_shares<A: Allocator>(owner: &Owner<A>, number: u64) -> bool {
    owner.count().shares() == number
}

/// Whether the end freed the cell.
fn frees<A: Allocator>(owner: Owner<A>) -> bool {
    matches!(owner.finish(), Ending::Freed(_))
}

/// Makes a cell of the text, reads it through its owner and both of its shares, and ends it.
fn one_life<R: Wait + Abort>(rt: &R, alloc: Global, text: &str) -> Result<(), AllocError> {
    let (owner, first) = make(alloc, 2, text)?;
    let second = one_more(rt, &owner);
    assert_that(
        rt,
        owner.text() == text && first.has_text(text) && second.has_text(text),
    );
    assert_that(rt, owner.hash() == 8 && owner.ticket() == 7);
    assert_that(rt, first.share.hash() == 8 && first.share.ticket() == 7);
    assert_that(rt, second.share.limit() == 2);
    assert_that(rt, !first.gives_last());
    assert_that(rt, second.has_text(text));
    assert_that(rt, second.gives_last());
    assert_that(rt, frees(owner));
    Ok(())
}

#[test]
fn a_cell_keeps_its_text(rt: HostRuntime) {
    let alloc = rt.alloc();
    one_life(&rt, alloc, "").expect(&rt, "an answer");
    one_life(&rt, alloc, "a").expect(&rt, "an answer");
    one_life(&rt, alloc, "interned").expect(&rt, "an answer");
    one_life(&rt, alloc, "tokenised ü").expect(&rt, "an answer");
    one_life(&rt, alloc, "a longer text, which takes more than one word").expect(&rt, "an answer");
}

/// The limit that takes no memory.
const GREATEST: u64 = (1 << 63) - 1;

/// Limits with bytes of each kind, the greatest, and one below it.
static LIMITS: [u64; 7] = [1, 255, 256, 1_000, 1 << 40, GREATEST - 1, GREATEST];

/// Whether a cell of the text tells this limit, and its text as it is.
fn tells_its_limit(alloc: Global, limit: u64, text: &str) -> Result<bool, AllocError>
    requires { (1 ≤ limit) × (limit < 2 ^ 63) }
{
    let (owner, share) = make(alloc, limit, text)?;
    Ok(share.share.limit() == limit && owner.text() == text && share.has_text(text))
}

/// Whether cells of the text tell all these limits.
fn tell_their_limits(rt: &impl Abort, alloc: Global, text: &str) -> bool {
    for limit in &LIMITS {
        let limit = (*limit).clamp(1, GREATEST);
        if !tells_its_limit(alloc, limit, text).expect(rt, "an answer") {
            return false;
        }
    }
    true
}

#[test]
fn a_cell_keeps_its_limit(rt: HostRuntime) {
    let long = "größer, ".repeat(rt.alloc(), 100_000).expect(&rt, "a text");
    for text in &["", "a", "interned", "tokenised ü", long.as_str()] {
        assert_for(&rt, tell_their_limits(&rt, rt.alloc(), text), &text.len());
    }
}

/// Whether the count stays at 0, and no share is added.
fn stays_over<A: Allocator, R: Wait>(rt: &R, owner: &Owner<A>) -> bool
    requires { owner.now.name.grows ≡ true }
{
    is_dying(owner) && is_over(rt, owner) && is_dying(owner)
}

/// The replies from the first share to the last one, at a limit of 2.
#[test]
fn replies(rt: HostRuntime) {
    let (owner, first) = made(&rt, rt.alloc());
    assert_that(&rt, !is_dying(&owner));
    let second = first.one_more(&rt);
    assert_that(&rt, is_full(&rt, &owner) && first.is_full(&rt));
    assert_that(&rt, !first.gives_last());
    let third = one_more(&rt, &owner);
    assert_that(&rt, !second.gives_last());
    assert_that(&rt, !is_dying(&owner));
    assert_that(&rt, third.gives_last());
    assert_that(&rt, stays_over(&rt, &owner));
    assert_that(&rt, frees(owner));
}

/// One more share by a single try.
fn tried(first: &ShareGuard) -> Option<ShareGuard> {
    let share = first.share.try_add(first.share.permit()).ok()?;
    Some(ShareGuard { share })
}

/// Single tries on a cell of the text, at a limit of 3 or of more.
fn tries<R: Wait + Abort>(rt: &R, alloc: Global, limit: u64, text: &str) -> Result<(), AllocError>
    requires { (1 ≤ limit) × (limit < 2 ^ 63) }
{
    let (owner, first) = make(alloc, limit, text)?;
    let second = tried(&first).expect(rt, "a share");
    assert_that(rt, second.has_text(text));
    let third = tried(&second).expect(rt, "a share");
    assert_that(rt, tried(&first).is_none() == (limit == 3));
    assert_that(rt, is_full(rt, &owner) == (limit == 3));
    assert_that(rt, !first.gives_last());
    assert_that(rt, !third.gives_last());
    assert_that(rt, second.gives_last());
    assert_that(rt, frees(owner));
    Ok(())
}

/// While no other thread changes the count, a single try succeeds below the limit.
#[test]
fn single_tries(rt: HostRuntime) {
    let alloc = rt.alloc();
    let long = "interned ".repeat(alloc, 30_000).expect(&rt, "a text");
    for text in &["", "interned", "tokenised ü", long.as_str()] {
        tries(&rt, alloc, 3, text).expect(&rt, "an answer");
        tries(&rt, alloc, GREATEST, text).expect(&rt, "an answer");
    }
}

/// One more share of the owner's cell by a single try.
fn owner_tried<A: Allocator>(owner: &Owner<A>) -> Option<ShareGuard>
    requires { owner.now.name.grows ≡ true }
{
    let share = owner.try_add(owner.permit()).ok()?;
    Some(ShareGuard { share })
}

/// Whether a single try gives none.
fn has_no_try<A: Allocator>(owner: &Owner<A>) -> bool
    requires { owner.now.name.grows ≡ true }
{
    owner_tried(owner).is_none()
}

/// Single tries of the owner of a cell of the text, at a limit of 2 or of more: one share is given, at the limit none is, and none is once both were
/// given back.
fn owner_tries(rt: &impl Abort, alloc: Global, limit: u64, text: &str) -> Result<(), AllocError>
    requires { (1 ≤ limit) × (limit < 2 ^ 63) }
{
    let (owner, first) = make(alloc, limit, text)?;
    let second = owner_tried(&owner).expect(rt, "a share");
    assert_that(rt, second.has_text(text));
    assert_that(rt, has_no_try(&owner) == (limit == 2));
    assert_that(rt, !first.gives_last());
    assert_that(rt, second.gives_last());
    assert_that(rt, has_no_try(&owner));
    assert_that(rt, frees(owner));
    Ok(())
}

#[test]
fn single_tries_of_an_owner(rt: HostRuntime) {
    let alloc = rt.alloc();
    let long = "interned ".repeat(alloc, 30_000).expect(&rt, "a text");
    for text in &["", "interned", "tokenised ü", long.as_str()] {
        owner_tries(&rt, alloc, 2, text).expect(&rt, "an answer");
        owner_tries(&rt, alloc, GREATEST, text).expect(&rt, "an answer");
    }
}

/// No share is left once both were given back.
#[test]
fn both_are_given_back(rt: HostRuntime) {
    let (owner, first) = made(&rt, rt.alloc());
    let second = one_more(&rt, &owner);
    assert_that(&rt, !is_dying(&owner));
    drop(first_receipt(first.into_share(), second.into_share()));
    assert_that(&rt, is_dying(&owner));
    assert_that(&rt, frees(owner));
}

/// Adds a share and gives it back, again and again. Returns how many were refused.
fn clone_and_give<R: Wait>(rt: &R, first: &ShareGuard) -> u64 {
    let mut refused = 0u64;
    for _ in 0..30_000 {
        if first.is_full(rt) {
            refused = refused.wrapping_add(1);
        }
    }
    refused
}

/// How many additions were refused to each of two threads at one count.
fn refused_at_once<R: Threads + Wait + Sync>(rt: &R, first: &ShareGuard) -> (u64, u64) {
    thread::join(
        rt,
        || clone_and_give(rt, first),
        || clone_and_give(rt, first),
    )
}

/// No share is lost or left over, and none is refused, even though two threads change one count.
#[test]
fn one_count_in_two_threads(rt: HostRuntime) {
    let (owner, first) = make(rt.alloc(), 3, "interned").expect(&rt, "an answer");
    assert_that(&rt, refused_at_once(&rt, &first) == (0, 0));
    let second = first.one_more(&rt);
    let third = one_more(&rt, &owner);
    assert_that(&rt, is_full(&rt, &owner));
    assert_that(&rt, !first.gives_last());
    assert_that(&rt, !third.gives_last());
    assert_that(&rt, second.gives_last());
    assert_that(&rt, frees(owner));
}

/// Of two threads that each give a share back, exactly one gave the last.
#[test]
fn one_of_two_is_the_last(rt: HostRuntime) {
    let (owner, first) = made(&rt, rt.alloc());
    let second = first.one_more(&rt);
    let last = thread::join(&rt, || first.gives_last(), || second.gives_last());
    assert_that(&rt, last.0 != last.1);
    assert_that(&rt, frees(owner));
}

/// The bytes of the heap that are in use once a cell of the text has ended at its owner's `finish`, or at its drop.
fn left_by_an_end(heap: &LocalHeap, text: &str, by_drop: bool) -> Result<usize, AllocError> {
    let (owner, share) = make(heap, 1, text)?;
    drop(share);
    if by_drop {
        drop(owner);
    } else {
        let _ = owner.finish();
    }
    Ok(heap.used())
}

/// Whether a cell of the text leaves nothing behind, whichever way its owner ends.
fn leaves_nothing(heap: &LocalHeap, text: &str) -> Result<bool, AllocError> {
    Ok(left_by_an_end(heap, text, false)? == 0 && left_by_an_end(heap, text, true)? == 0)
}

/// Whether the end left the cell.
fn leaves<A: Allocator>(owner: Owner<A>) -> bool {
    matches!(owner.finish(), Ending::Left(_))
}

/// Whether the share is the last of the text, and its block of this many bytes is in use before and after it is given back.
fn stays(heap: &LocalHeap, share: ShareGuard, text: &str, size: usize) -> bool {
    let is_held = share.has_text(text) && heap.used() == size;
    let is_last = share.gives_last();
    is_held && is_last && heap.used() == size
}

/// Whether the block of a cell stays if its owner ends before its share.
fn is_left_behind(heap: &LocalHeap, text: &str, size: usize) -> Result<bool, AllocError> {
    let (owner, share) = make(heap, 1, text)?;
    let is_made = heap.used() == size;
    let is_left = leaves(owner);
    Ok(stays(heap, share, text, size) && is_made && is_left)
}

/// A cell is one block, which is given back at the end of the owner if no share is left, and never if one is. One of the texts has 300,000 bytes.
#[test]
fn the_end_frees_what_is_not_held(rt: HostRuntime) {
    let heap = LocalHeap::new(rt.alloc(), 400_000).expect(&rt, "an answer");
    let long = "a".repeat(rt.alloc(), 300_000).expect(&rt, "an answer");
    for text in &["", "interned", long.as_str()] {
        let is_freed = leaves_nothing(&heap, text).expect(&rt, "an answer");
        assert_for(&rt, is_freed, &text.len());
    }
    assert_that(
        &rt,
        is_left_behind(&heap, "left behind", 64).expect(&rt, "an answer"),
    );
}

/// Limits, texts, the bytes of a cell's block, and those that a heap which gives out sixteens says are in use.
static BLOCKS: [(u64, &str, usize, usize); 9] = [
    (GREATEST, "", 32, 32),
    (GREATEST, "a", 40, 48),
    (GREATEST, "abcdefgh", 40, 48),
    (GREATEST, "abcdefghi", 48, 48),
    (GREATEST, "not all of it is ascii: é", 64, 64),
    (
        GREATEST,
        "a longer text, which takes more than one word",
        80,
        80,
    ),
    (GREATEST - 1, "abcdefgh", 48, 48),
    (1, "", 40, 48),
    (1, "abcdefghi", 56, 64),
];

/// Whether a cell of the text reports this as its block's size, and the heap then has this in use.
fn tells_its_size(
    heap: &LocalHeap,
    limit: u64,
    text: &str,
    size: usize,
    used: usize,
) -> Result<bool, AllocError>
    requires { (1 ≤ limit) × (limit < 2 ^ 63) }
{
    let (owner, share) = make(heap, limit, text)?;
    let is_told = owner.block_size() == size && heap.used() == used;
    drop(share);
    drop(owner);
    Ok(is_told)
}

#[test]
fn a_cell_tells_the_bytes_of_its_block(rt: HostRuntime) {
    let heap = LocalHeap::new(rt.alloc(), 4_096).expect(&rt, "an answer");
    for (limit, text, size, used) in &BLOCKS {
        let limit = (*limit).clamp(1, GREATEST);
        let is_told = tells_its_size(&heap, limit, text, *size, *used).expect(&rt, "an answer");
        assert_for(&rt, is_told, text);
    }
}

/// What a look at the count tells.
#[test]
fn the_count_is_read(rt: HostRuntime) {
    let (owner, first) = made(&rt, rt.alloc());
    assert_that(&rt, has_shares(&owner, 1));
    let second = one_more(&rt, &owner);
    assert_that(&rt, has_shares(&owner, 2));
    assert_that(&rt, !first.gives_last() && has_shares(&owner, 1));
    assert_that(&rt, second.gives_last() && has_shares(&owner, 0));
    assert_that(&rt, frees(owner));
}

/// Whether a cell of the text finds no room in the heap, and nothing is lost.
fn finds_no_room(heap: &LocalHeap, text: &str) -> bool {
    let used = heap.used();
    make(heap, 1, text).is_err() && heap.used() == used
}

/// A heap without room refuses a cell and loses nothing.
#[test]
fn without_memory_nothing_is_made(rt: HostRuntime) {
    let heap = LocalHeap::new(rt.alloc(), 128).expect(&rt, "an answer");
    let (owner, share) = make(&heap, 1, "interned").expect(&rt, "an answer");
    let long = "a text that finds no room in this heap, since it is longer than what is left of it";
    assert_that(&rt, finds_no_room(&heap, long));
    assert_that(&rt, share.gives_last());
    assert_that(&rt, frees(owner));
}
