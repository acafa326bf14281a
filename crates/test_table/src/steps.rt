//! The steps on small scripts. Expected replies are those of the table of steps, worked out by hand.

mod crowds;
mod merges;
mod parties;

use crate::{assert_for, assert_that};
use StepReply::{
    Added, Cloned, Dying, Freed, Full, Given, Kept, Left, Linked, Memory, No, Spent, Taken,
    Unlinked,
};
use std::alloc::{AllocError, Global};
use std::process::Abort;
use string_cache_core::Fault;
use string_cache_core::static_sets::{EmptyStaticAtomSet, TextForm, form_of_text};
use string_cache_core::steps::{Step, StepReply, World};
use string_cache_core::word::{Buckets, Limits, SERIAL_BOUND};

// A step whose text is a literal.
#[derive(Clone, Copy)]
enum Do {
    Intern(&'static str),
    Sweep(u32),
    Add(u64),
    Link(bool),
    Clone(u64),
    Give(u64),
    Unlink(u64),
    Free(u64),
    Leave,
}

fn step_of(alloc: Global, step: Do) -> Result<Step, AllocError> {
    Ok(match step {
        Do::Intern(text) => Step::TakeIntern(String::from_str(alloc, text)?),
        Do::Sweep(bucket) => Step::TakeSweep(bucket),
        Do::Add(entry) => Step::Add(entry),
        Do::Link(room) => Step::Link(room),
        Do::Clone(entry) => Step::Clone(entry),
        Do::Give(entry) => Step::Give(entry),
        Do::Unlink(entry) => Step::Unlink(entry),
        Do::Free(entry) => Step::Free(entry),
        Do::Leave => Step::Leave,
    })
}

// The ticket of a serial in the bucket, among these, of the text.
fn ticket_in(buckets: Buckets, text: &str, serial: u64) -> u64 {
    match form_of_text::<EmptyStaticAtomSet>(text) {
        TextForm::Dynamic(hash) => {
            (serial % SERIAL_BOUND) << 16 | u64::from(buckets.bucket_of(hash)) << 2
        }
        _ => 0,
    }
}

// The same for the usual number of buckets.
fn ticket_of(text: &str, serial: u64) -> u64 {
    ticket_in(Buckets::usual(), text, serial)
}

// A party's step, and the reply to it.
type Row = (u32, Do, StepReply);

type Plain = World<EmptyStaticAtomSet>;

// These say nothing about what they do, so that each test is proved in a moment.

fn linked(entry: u64, ticket: u64) -> StepReply {
    Linked { entry, ticket }
}

fn world_with(rt: &impl Abort, alloc: Global, limits: Limits, buckets: Buckets) -> Plain {
    World::with_buckets(alloc, limits, buckets).expect(rt, "a world")
}

fn new_world(rt: &impl Abort, alloc: Global) -> Plain {
    World::new(alloc, Limits::greatest()).expect(rt, "a world")
}

// Whether this is the reply to the party's step.
fn replies(
    alloc: Global,
    world: &mut Plain,
    party: u32,
    step: Do,
    reply: StepReply,
) -> Result<bool, Fault> {
    Ok(world.step(party, step_of(alloc, step)?)? == reply)
}

fn run(world: &mut Plain, steps: &[(u32, Step)], given: &mut Vec<StepReply>) -> Result<(), Fault> {
    world.run(steps, given)
}

// Makes the steps in one run, and appends the replies and what they must be.
fn run_rows(
    alloc: Global,
    world: &mut Plain,
    rows: &[Row],
    given: &mut Vec<StepReply>,
    wanted: &mut Vec<StepReply>,
) -> Result<(), Fault> {
    let mut steps = Vec::new(alloc);
    for (party, step, reply) in rows {
        steps.push((*party, step_of(alloc, *step)?))?;
        wanted.push(*reply)?;
    }
    run(world, &steps, given)
}

// Whether the first entries are held this often, and there are no others.
fn are_held(world: &Plain, held: &[u64]) -> bool {
    for (k, count) in held.iter().enumerate() {
        if world.count(k as u64 + 1) != Some(*count) {
            return false;
        }
    }
    world.count(0).is_none() && world.count(held.len() as u64 + 1).is_none()
}

// `check_in` with the usual number of buckets.
fn check(rt: &impl Abort, alloc: Global, limits: Limits, rows: &[Row], held: &[u64]) {
    check_in(rt, alloc, limits, Buckets::usual(), rows, held);
}

// By `step` and by `run`: each row's step of its party has that reply, and then the entries are held this often.
fn check_in(
    rt: &impl Abort,
    alloc: Global,
    limits: Limits,
    buckets: Buckets,
    rows: &[Row],
    held: &[u64],
) {
    check_steps(
        rt,
        alloc,
        &mut world_with(rt, alloc, limits, buckets),
        rows,
        held,
    );
    check_run(
        rt,
        alloc,
        &mut world_with(rt, alloc, limits, buckets),
        rows,
        held,
    );
}

fn check_steps(rt: &impl Abort, alloc: Global, world: &mut Plain, rows: &[Row], held: &[u64]) {
    for (party, step, reply) in rows {
        let outcome = replies(alloc, world, *party, *step, *reply);
        assert_for(rt, outcome == Ok(true), &(party, reply));
    }
    assert_that(rt, are_held(world, held));
}

fn check_run(rt: &impl Abort, alloc: Global, world: &mut Plain, rows: &[Row], held: &[u64]) {
    let mut given = Vec::new(alloc);
    let mut wanted = Vec::new(alloc);
    run_rows(alloc, world, rows, &mut given, &mut wanted).expect(rt, "replies");
    assert_that(rt, given == wanted);
    assert_that(rt, are_held(world, held));
}

#[test]
fn two_parties_share_an_entry(rt: HostRuntime) {
    let ticket = ticket_of("interned", 1);
    let rows = [
        (1, Do::Intern("interned"), Taken),
        (2, Do::Intern("interned"), No),
        (1, Do::Link(true), linked(1, ticket)),
        (1, Do::Leave, Left),
        (2, Do::Intern("interned"), Taken),
        (2, Do::Link(true), No),
        (2, Do::Add(1), Added { ticket, holders: 2 }),
        (2, Do::Leave, Left),
    ];
    check(&rt, rt.alloc(), Limits::greatest(), &rows, &[2]);
}

#[test]
fn a_dying_entry_is_linked_anew(rt: HostRuntime) {
    let first = ticket_of("tokenised", 1);
    let second = ticket_of("tokenised", 2);
    let rows = [
        (1, Do::Intern("tokenised"), Taken),
        (1, Do::Link(true), linked(1, first)),
        (1, Do::Leave, Left),
        (2, Do::Intern("tokenised"), Taken),
        (1, Do::Give(1), Given { left: 0 }),
        (2, Do::Add(1), Dying),
        (2, Do::Link(true), linked(2, second)),
        (2, Do::Unlink(1), Unlinked),
        (2, Do::Leave, Left),
        (2, Do::Free(1), Freed),
        (2, Do::Free(1), No),
    ];
    check(&rt, rt.alloc(), Limits::greatest(), &rows, &[0, 1]);
}

#[test]
fn limits_of_one(rt: HostRuntime) {
    let ticket = ticket_of("tokenised", 1);
    let rows = [
        (1, Do::Intern("tokenised"), Taken),
        (1, Do::Link(true), linked(1, ticket)),
        (1, Do::Leave, Left),
        (1, Do::Clone(1), Full),
        (2, Do::Intern("tokenised"), Taken),
        (2, Do::Leave, No),
        (2, Do::Add(1), Full),
        (2, Do::Leave, Left),
        (1, Do::Give(1), Given { left: 0 }),
        (2, Do::Intern("tokenised"), Taken),
        (2, Do::Add(1), Dying),
        (2, Do::Link(true), Spent),
        (2, Do::Leave, No),
        (2, Do::Unlink(1), Unlinked),
        (2, Do::Leave, Left),
        (2, Do::Free(1), Freed),
    ];
    let limits = Limits::new(1, 1).expect(&rt, "limits");
    check(&rt, rt.alloc(), limits, &rows, &[0]);
}

#[test]
fn a_link_without_room(rt: HostRuntime) {
    let rows = [
        (1, Do::Intern("interned"), Taken),
        (1, Do::Link(false), Memory),
        (1, Do::Leave, Left),
        (1, Do::Link(true), No),
        (1, Do::Intern("short"), No),
    ];
    check(&rt, rt.alloc(), Limits::greatest(), &rows, &[]);
}

#[test]
fn a_holder_outside_of_a_pass(rt: HostRuntime) {
    let ticket = ticket_of("interned", 1);
    let rows = [
        (1, Do::Intern("interned"), Taken),
        (1, Do::Link(true), linked(1, ticket)),
        (2, Do::Clone(1), Cloned { holders: 2 }),
        (1, Do::Leave, Left),
        (2, Do::Give(1), Given { left: 1 }),
    ];
    check(&rt, rt.alloc(), Limits::greatest(), &rows, &[1]);
}

#[test]
fn an_undecided_pass_stays(rt: HostRuntime) {
    let ticket = ticket_of("interned", 1);
    let rows = [
        (1, Do::Intern("interned"), Taken),
        (1, Do::Link(true), linked(1, ticket)),
        (1, Do::Leave, Left),
        (1, Do::Intern("interned"), Taken),
        (2, Do::Intern("interned"), No),
        (1, Do::Unlink(1), Kept),
        (1, Do::Leave, No),
        (1, Do::Add(1), Added { ticket, holders: 2 }),
        (1, Do::Leave, Left),
    ];
    check(&rt, rt.alloc(), Limits::greatest(), &rows, &[2]);
}

// Each number of bits, with its number of buckets.
static BUCKETS: [(u8, u32); 15] = [
    (0, 1),
    (1, 2),
    (2, 4),
    (3, 8),
    (4, 16),
    (5, 32),
    (6, 64),
    (7, 128),
    (8, 256),
    (9, 512),
    (10, 1024),
    (11, 2048),
    (12, 4096),
    (13, 8192),
    (14, 16384),
];

#[test]
fn sweeps_of_the_last_buckets(rt: HostRuntime) {
    for (bits, number) in &BUCKETS {
        let rows = [
            (1, Do::Sweep(number.saturating_sub(1)), Taken),
            (1, Do::Leave, Left),
            (1, Do::Sweep(*number), No),
            (1, Do::Give(1), No),
        ];
        let buckets = Buckets::new(*bits).expect(&rt, "bits");
        check_in(&rt, rt.alloc(), Limits::greatest(), buckets, &rows, &[]);
    }
}

// A party that interns in the only bucket looks at the other text's entry too, and waits for the party that holds the bucket.
#[test]
fn one_bucket_for_all_texts(rt: HostRuntime) {
    let (first, second) = (0x1_0000, 0x2_0000);
    let rows = [
        (1, Do::Intern("interned"), Taken),
        (2, Do::Intern("tokenised"), No),
        (1, Do::Link(true), linked(1, first)),
        (1, Do::Leave, Left),
        (2, Do::Intern("tokenised"), Taken),
        (2, Do::Link(true), linked(2, second)),
        (2, Do::Leave, No),
        (2, Do::Unlink(1), Kept),
        (2, Do::Leave, Left),
    ];
    let buckets = Buckets::new(0).expect(&rt, "bits");
    check_in(&rt, rt.alloc(), Limits::greatest(), buckets, &rows, &[1, 1]);
}

// The other text's entry is looked at before a new one is linked, and then a sweep leaves of three what is held.
#[test]
fn a_sweep_of_three_entries(rt: HostRuntime) {
    let rows = [
        (1, Do::Intern("interned"), Taken),
        (1, Do::Link(true), linked(1, 0x1_0000)),
        (1, Do::Leave, Left),
        (1, Do::Intern("tokenised"), Taken),
        (1, Do::Unlink(1), Kept),
        (1, Do::Link(true), linked(2, 0x2_0000)),
        (1, Do::Leave, Left),
        (1, Do::Intern("sentence"), Taken),
        (1, Do::Unlink(2), Kept),
        (1, Do::Unlink(1), Kept),
        (1, Do::Link(true), linked(3, 0x3_0000)),
        (1, Do::Leave, Left),
        (1, Do::Give(1), Given { left: 0 }),
        (1, Do::Give(3), Given { left: 0 }),
        (2, Do::Sweep(0), Taken),
        (2, Do::Unlink(3), Unlinked),
        (2, Do::Unlink(2), Kept),
        (2, Do::Leave, No),
        (2, Do::Unlink(1), Unlinked),
        (2, Do::Leave, Left),
        (2, Do::Free(1), Freed),
        (2, Do::Free(2), No),
        (2, Do::Free(3), Freed),
    ];
    let buckets = Buckets::new(0).expect(&rt, "bits");
    check_in(
        &rt,
        rt.alloc(),
        Limits::greatest(),
        buckets,
        &rows,
        &[0, 1, 0],
    );
}

#[test]
fn most_buckets_keep_texts_apart(rt: HostRuntime) {
    let buckets = Buckets::new(14).expect(&rt, "bits");
    let rows = [
        (1, Do::Intern("interned"), Taken),
        (2, Do::Intern("tokenised"), Taken),
        (
            1,
            Do::Link(true),
            linked(1, ticket_in(buckets, "interned", 1)),
        ),
        (
            2,
            Do::Link(true),
            linked(2, ticket_in(buckets, "tokenised", 1)),
        ),
        (2, Do::Leave, Left),
        (1, Do::Leave, Left),
    ];
    check_in(&rt, rt.alloc(), Limits::greatest(), buckets, &rows, &[1, 1]);
}

#[test]
fn steps_that_are_not_enabled_answer_no(rt: HostRuntime) {
    let ticket = ticket_of("interned", 1);
    let rows = [
        (1, Do::Clone(1), No),
        (1, Do::Unlink(1), No),
        (1, Do::Intern("interned"), Taken),
        (1, Do::Link(true), linked(1, ticket)),
        (2, Do::Unlink(1), No),
        (1, Do::Unlink(2), No),
        (1, Do::Leave, Left),
        (1, Do::Unlink(1), No),
        (2, Do::Clone(0), No),
        (2, Do::Clone(2), No),
        (1, Do::Give(1), Given { left: 0 }),
        (2, Do::Clone(1), No),
    ];
    check(&rt, rt.alloc(), Limits::greatest(), &rows, &[0]);
}

fn push(
    alloc: Global,
    steps: &mut Vec<(u32, Step)>,
    party: u32,
    step: Do,
) -> Result<(), AllocError> {
    steps.push((party, step_of(alloc, step)?))?;
    Ok(())
}

// A linked entry of party 1, and then ten thousand times one more holder by party 2 and one fewer by party 1.
fn push_many(alloc: Global, steps: &mut Vec<(u32, Step)>) -> Result<(), AllocError> {
    push(alloc, steps, 1, Do::Intern("interned"))?;
    push(alloc, steps, 1, Do::Link(true))?;
    push(alloc, steps, 1, Do::Leave)?;
    for _ in 0..10_000u32 {
        push(alloc, steps, 2, Do::Clone(1))?;
        push(alloc, steps, 1, Do::Give(1))?;
    }
    Ok(())
}

fn count_of(replies: &[StepReply], reply: StepReply) -> usize {
    replies.iter().filter(|other| **other == reply).count()
}

// Whether these are the replies to those steps.
fn are_many(replies: &[StepReply]) -> bool {
    replies.len() == 20_003
        && count_of(replies, Cloned { holders: 2 }) == 10_000
        && count_of(replies, Given { left: 1 }) == 10_000
}

// Whether one run gives them.
fn come_of_one_run(alloc: Global, world: &mut Plain) -> Result<bool, Fault> {
    let mut steps = Vec::new(alloc);
    push_many(alloc, &mut steps)?;
    let mut given = Vec::new(alloc);
    run(world, &steps, &mut given)?;
    Ok(are_many(&given))
}

#[test]
fn twenty_thousand_steps_in_one_run(rt: HostRuntime) {
    let mut world = new_world(&rt, rt.alloc());
    assert_that(&rt, come_of_one_run(rt.alloc(), &mut world) == Ok(true));
    assert_that(&rt, are_held(&world, &[1]));
}
