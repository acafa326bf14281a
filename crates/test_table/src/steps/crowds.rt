//! Two hundred parties at once, an entry that is found dying again and again, many entries of one bucket, a long text, and odd ones.

use super::{Do, Plain, check, linked, new_world, push, run, world_with};
use crate::texts::numbered_text;
use crate::{assert_for, assert_that};
use StepReply::{Dying, Freed, Given, Kept, Left, Taken, Unlinked};
use atomic_steps::steps::{Step, StepReply};
use std::alloc::{AllocError, Global};
use std::process::Abort;
use string_cache_core::Fault;
use string_cache_core::word::{Buckets, Limits};

/// The number of parties, each of which sweeps a bucket of its own number.
const PARTIES: u32 = 200;

/// A step of the party: it takes its bucket, or leaves it.
fn step_of_party(party: u32, takes: bool) -> Step {
    if takes {
        Step::TakeSweep(party)
    } else {
        Step::Leave
    }
}

/// Whether each party, one after another, takes its bucket, or leaves it.
fn all_do(world: &mut Plain, takes: bool) -> Result<bool, Fault> {
    let wanted = if takes { Taken } else { Left };
    for party in 0..PARTIES {
        if world.step(party, step_of_party(party, takes))? != wanted {
            return Ok(false);
        }
    }
    Ok(true)
}

/// Whether all take their buckets, and leave them once the last has its own.
fn take_and_leave(world: &mut Plain) -> Result<bool, Fault> {
    Ok(all_do(world, true)? && all_do(world, false)?)
}

#[test]
fn two_hundred_parties_hold_buckets_at_once(rt: HostRuntime) {
    let mut world = new_world(&rt, rt.alloc());
    assert_that(&rt, take_and_leave(&mut world) == Ok(true));
}

/// A pass asks the same entry three times, before it links its own. The bucket is 0x210, the low bits of the text's hash
/// 0x556a_6dba_06a4_7210.
#[test]
fn an_entry_is_found_dying_three_times(rt: HostRuntime) {
    let rows = [
        (1, Do::Intern("interned"), Taken),
        (1, Do::Link(true), linked(1, 0x1_0840)),
        (1, Do::Leave, Left),
        (1, Do::Give(1), Given { left: 0 }),
        (2, Do::Intern("interned"), Taken),
        (2, Do::Add(1), Dying),
        (2, Do::Add(1), Dying),
        (2, Do::Add(1), Dying),
        (2, Do::Link(true), linked(2, 0x2_0840)),
        (2, Do::Unlink(1), Unlinked),
        (2, Do::Leave, Left),
        (2, Do::Free(1), Freed),
    ];
    check(&rt, rt.alloc(), Limits::greatest(), &rows, &[0, 1]);
}

/// The number of texts in the one bucket.
const ENTRIES: u64 = 150;

/// Appends what links the entry of a number, and looks at all before it.
fn push_entry(
    alloc: Global,
    steps: &mut Vec<(u32, Step)>,
    wanted: &mut Vec<StepReply>,
    text: String,
    number: u64,
) -> Result<(), AllocError> {
    steps.push((1, Step::TakeIntern(text)))?;
    wanted.push(Taken)?;
    push(alloc, steps, 1, Do::Link(true))?;
    wanted.push(linked(number, number << 16))?;
    for before in 1..number {
        push(alloc, steps, 1, Do::Unlink(before))?;
        wanted.push(Kept)?;
    }
    push(alloc, steps, 1, Do::Leave)?;
    wanted.push(Left)?;
    Ok(())
}

/// Whether this many texts are linked in the world's bucket, and stay.
fn are_linked(rt: &impl Abort, alloc: Global, world: &mut Plain) -> Result<bool, Fault> {
    let (mut steps, mut wanted) = (Vec::new(alloc), Vec::new(alloc));
    for number in 1..=ENTRIES {
        let text = numbered_text(rt, alloc, "the text ", number as usize);
        push_entry(alloc, &mut steps, &mut wanted, text, number)?;
    }
    let mut given = Vec::new(alloc);
    run(world, &steps, &mut given)?;
    Ok(given == wanted && world.count(ENTRIES) == Some(1))
}

#[test]
fn one_bucket_has_many_entries(rt: HostRuntime) {
    let buckets = Buckets::new(0).expect(&rt, "bits");
    let mut world = world_with(&rt, rt.alloc(), Limits::greatest(), buckets);
    assert_that(&rt, are_linked(&rt, rt.alloc(), &mut world) == Ok(true));
}

/// Whether the text is linked as the world's first entry.
fn is_linked(world: &mut Plain, text: String) -> Result<bool, Fault> {
    let is_taken = world.step(1, Step::TakeIntern(text))? == Taken;
    let reply = world.step(1, Step::Link(true))?;
    Ok(is_taken && matches!(reply, StepReply::Linked { entry: 1, .. }) && world.count(1) == Some(1))
}

/// A text of 200,000 bytes, not all of it ASCII.
#[test]
fn long_text_is_linked(rt: HostRuntime) {
    let text = "né€𝄞".repeat(rt.alloc(), 20_000).expect(&rt, "a text");
    let mut world = new_world(&rt, rt.alloc());
    assert_that(&rt, is_linked(&mut world, text) == Ok(true));
}

/// Texts with NUL, a line feed and a carriage return, and one beyond ASCII: none is inline.
static ODD_TEXTS: [&str; 4] = [
    "a\0NUL and more",
    "\0\0\0\0\0\0\0\0",
    "two\r\nlines",
    "長さ、大きさ",
];

/// Whether the text is linked in a new world.
fn is_linked_alone(rt: &impl Abort, alloc: Global, text: &str) -> Result<bool, Fault> {
    is_linked(&mut new_world(rt, alloc), String::from_str(alloc, text)?)
}

#[test]
fn odd_texts_are_linked(rt: HostRuntime) {
    for text in &ODD_TEXTS {
        assert_for(
            &rt,
            is_linked_alone(&rt, rt.alloc(), text) == Ok(true),
            text,
        );
    }
}
