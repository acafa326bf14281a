//! Three parties, of the least and of the greatest number among them: each holds a bucket at once, and then they link, give,
//! unlink and free a hundred entries and more, one after another.

use super::{Do, Plain, Row, linked, new_world, run_rows};
use crate::assert_that;
use StepReply::{Cloned, Dying, Freed, Given, Kept, Left, Taken, Unlinked};
use atomic_steps::steps::StepReply;
use std::alloc::Global;
use string_cache_core::Fault;
use string_cache_core::word::SERIAL_BOUND;

const TEXT: &str = "interned";

static PARTIES: [u32; 3] = [0, 7, u32::MAX];

/// How many entries there are in the end.
const ENTRIES: u32 = 120;

/// The ticket of a serial of bucket 0x210, the low bits of the text's hash 0x556a_6dba_06a4_7210.
fn ticket(serial: u64) -> u64 {
    (serial % SERIAL_BOUND) << 16 | 0x840
}

/// The first entry, in a pass alongside two sweeps: three hold it, and then nobody.
fn first_rows() -> [Row; 13] {
    let [least, other, greatest] = PARTIES;
    [
        (least, Do::Intern(TEXT), Taken),
        (other, Do::Sweep(0), Taken),
        (greatest, Do::Sweep(4095), Taken),
        (least, Do::Link(true), linked(1, ticket(1))),
        (other, Do::Clone(1), Cloned { holders: 2 }),
        (greatest, Do::Clone(1), Cloned { holders: 3 }),
        (least, Do::Unlink(1), Kept),
        (least, Do::Leave, Left),
        (other, Do::Leave, Left),
        (greatest, Do::Leave, Left),
        (other, Do::Give(1), Given { left: 2 }),
        (greatest, Do::Give(1), Given { left: 1 }),
        (least, Do::Give(1), Given { left: 0 }),
    ]
}

/// The entry after one that nobody holds: the party links it, frees the one before, and gives its own.
fn next_rows(party: u32, before: u32) -> [Row; 7] {
    let before = u64::from(before);
    let entry = before + 1;
    [
        (party, Do::Intern(TEXT), Taken),
        (party, Do::Add(before), Dying),
        (party, Do::Link(true), linked(entry, ticket(entry))),
        (party, Do::Unlink(before), Unlinked),
        (party, Do::Leave, Left),
        (party, Do::Free(before), Freed),
        (party, Do::Give(entry), Given { left: 0 }),
    ]
}

/// Makes the rows of all entries, and appends the replies and what they must be.
fn link_entries(
    alloc: Global,
    world: &mut Plain,
    given: &mut Vec<StepReply>,
    wanted: &mut Vec<StepReply>,
) -> Result<(), Fault> {
    run_rows(alloc, world, &first_rows(), given, wanted)?;
    for before in 1..ENTRIES {
        let party = PARTIES[(before % 3) as usize];
        run_rows(alloc, world, &next_rows(party, before), given, wanted)?;
    }
    Ok(())
}

/// Whether all replies are as they must be.
fn are_linked(alloc: Global, world: &mut Plain) -> Result<bool, Fault> {
    let mut given = Vec::new(alloc);
    let mut wanted = Vec::new(alloc);
    link_entries(alloc, world, &mut given, &mut wanted)?;
    Ok(given == wanted)
}

/// Whether this is the last entry, and nobody holds it.
fn ends_with(world: &Plain, last: u64) -> bool {
    world.count(last) == Some(0) && world.count(last.saturating_add(1)).is_none()
}

#[test]
fn three_parties_link_more_than_a_hundred_entries(rt: HostRuntime) {
    let mut world = new_world(&rt, rt.alloc());
    assert_that(&rt, are_linked(rt.alloc(), &mut world) == Ok(true));
    assert_that(&rt, ends_with(&world, u64::from(ENTRIES)));
}
