//! Links for which there is no memory, and a great number of them in one bucket.

use super::{Fake, check_share, link, new_bucket, tickets};
use crate::samples::{check_linked, intern, lock_of, one_bucket};
use crate::{assert_for, assert_that};
use std::alloc::Global;
use std::process::Abort;
use std::sync::Wait;
use std::test::Fail;
use string_cache::dynamic_set::{Bucket, Share};
use string_cache::static_sets::EmptyStaticAtomSet;
use string_cache::word::{Limits, ticket_word};
use string_cache::{DefaultAtom, Fault};
use test_calls::{DefaultSet, is_of, numbered};

/// Links a text, and tries again if there is no memory: a refused link leaves the bucket as it was.
fn link_again<R: Abort>(
    rt: &R,
    bucket: &mut Bucket<EmptyStaticAtomSet>,
    before: &[u64; 3],
) -> Result<Share, Fault> {
    let limits = Limits::greatest();
    match link(bucket, "tokenised", &limits) {
        Err(Fault::Memory) => {
            assert_that(rt, tickets(bucket) == *before);
            link(bucket, "tokenised", &limits)
        }
        made => made,
    }
}

/// Also passes if any one request for memory is refused, as under `rt try --test --fail-alloc N`: a refused link leaves the bucket as it was, and the
/// next one gets the serial that it would have got.
#[test]
fn refused_links_made_again(rt: HostRuntime) -> Result<(), Fail> {
    let mut bucket = new_bucket(rt.alloc());
    // Six entries make two nodes.
    for serial in 1..=6u64 {
        let ticket = ticket_word(serial, 0xe77);
        let before = tickets(&mut bucket);
        let share = link_again(&rt, &mut bucket, &before)?;
        check_share(&rt, &share, "tokenised", ticket);
        assert_that(&rt, tickets(&mut bucket) == [ticket, before[0], before[1]]);
    }
    Ok(())
}

/// The ticket of a serial from 1 to 16.
fn ticket(serial: u64) -> u64 {
    ticket_word(serial.clamp(1, 16), 0xe77)
}

/// Links nine entries, whose shares go at once.
fn link_nine(rt: &impl Abort, bucket: &mut Bucket<EmptyStaticAtomSet>) {
    for _ in 0..9u64 {
        let before = tickets(bucket);
        drop(link_again(rt, bucket, &before).expect(rt, "an answer"));
    }
    assert_that(rt, bucket.len() == 9);
}

/// A bucket of nine entries, whose shares are gone.
fn nine_entries(rt: &impl Abort, alloc: Global) -> Bucket<EmptyStaticAtomSet> {
    let mut bucket = new_bucket(alloc);
    link_nine(rt, &mut bucket);
    bucket
}

/// Takes out the entry of a serial, and returns whether the three newest are then those of these serials.
fn leaves(
    bucket: &mut Bucket<EmptyStaticAtomSet>,
    serial: u64,
    [first, second, third]: [u64; 3],
) -> bool {
    bucket.prune(&mut Fake::new(0, 0, ticket(serial)));
    tickets(bucket) == [ticket(first), ticket(second), ticket(third)]
}

/// A serial whose entry goes, and those of the three newest entries then.
type Goes = (u64, [u64; 3]);

/// In the order in which they go.
static GOES: [[Goes; 4]; 3] = [
    [
        (5, [9, 8, 7]),
        (9, [8, 7, 6]),
        (1, [8, 7, 6]),
        (7, [8, 6, 4]),
    ],
    [
        (9, [8, 7, 6]),
        (8, [7, 6, 5]),
        (7, [6, 5, 4]),
        (6, [5, 4, 3]),
    ],
    [
        (7, [9, 8, 6]),
        (8, [9, 6, 5]),
        (6, [9, 5, 4]),
        (5, [9, 4, 3]),
    ],
];

/// Whether entries of nine go in this way, and the others are left.
fn go_so(rt: &impl Abort, alloc: Global, goes: &[Goes]) -> bool {
    let mut bucket = nine_entries(rt, alloc);
    for (serial, newest) in goes {
        if !leaves(&mut bucket, *serial, *newest) {
            return false;
        }
    }
    bucket.len() == 9usize.saturating_sub(goes.len())
}

/// Entries go from anywhere among the nodes, and the others stay in order.
#[test]
fn entries_go_one_by_one(rt: HostRuntime) {
    for goes in &GOES {
        assert_for(&rt, go_so(&rt, rt.alloc(), goes), goes);
    }
}

/// Links the text of a number in the only bucket of a set.
fn link_numbered<R: Wait + Abort>(rt: &R, set: &DefaultSet, n: usize) -> Share {
    let text = numbered(set.allocator(), n).expect(rt, "a text");
    let mut only = lock_of(rt, set, 0);
    link(&mut only, &text, &Limits::greatest()).expect(rt, "a share")
}

/// Links each of 5,000 texts there.
fn link_five_thousand<R: Wait + Abort>(rt: &R, set: &DefaultSet) -> Vec<Share> {
    let mut shares = Vec::new(set.allocator());
    for n in 0..5_000 {
        shares.push(link_numbered(rt, set, n)).expect(rt, "room");
    }
    shares
}

/// The atom of a text, which has this word.
fn atom_of<'s, R: Wait + Abort>(
    rt: &R,
    set: &'s DefaultSet,
    text: &str,
    word: u64,
) -> DefaultAtom<'s> {
    let atom = intern(rt, set, text);
    assert_that(rt, is_of(&atom, word, text));
    atom
}

fn find_among_many<R: Wait + Abort>(rt: &R, set: &DefaultSet) {
    let shares = link_five_thousand(rt, set);
    check_linked(rt, set, 5_000);
    let _oldest = atom_of(rt, set, "w0000000", 0x1_0000);
    let _newest = atom_of(rt, set, "w0004999", 0x1388_0000);
    let _next = atom_of(rt, set, "interned", 0x1389_0000);
    check_linked(rt, set, 5_001);
    drop(shares);
    set.sweep(rt);
    check_linked(rt, set, 3);
}

/// Each of 5,000 texts is linked in the one bucket of a set, and the oldest and the newest are found there. 5,000 is 0x1388.
#[test]
fn five_thousand_entries_of_one_bucket(rt: HostRuntime) {
    find_among_many(&rt, &one_bucket(&rt, rt.alloc()));
}
