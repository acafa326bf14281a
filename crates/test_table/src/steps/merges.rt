//! Steps of three parties, merged in many orders: what the world replies, read as calls of one map, is what a table replies.

use super::{Do, Plain, step_of, world_with};
use crate::assert_for;
use atomic_steps::steps::StepReply;
use std::alloc::{AllocError, Global};
use std::process::Abort;
use string_cache_core::Fault;
use string_cache_core::static_sets::EmptyStaticAtomSet;
use string_cache_core::table::{Call, Table, TableReply, TrustedTexts};
use string_cache_core::word::{Buckets, Limits};

const TEXT: &str = "interned";

/// What each of the parties 1 and 2 does, in order.
static INTERNING: [Do; 5] = [
    Do::Intern(TEXT),
    Do::Link(true),
    Do::Add(1),
    Do::Link(true),
    Do::Leave,
];

/// What party 3 does, in order.
static GIVING: [Do; 2] = [Do::Give(1), Do::Give(1)];

#[derive(Clone, Copy)]
enum Party {
    First,
    Second,
    Third,
}

impl Party {
    fn number(self) -> u32 {
        match self {
            Party::First => 1,
            Party::Second => 2,
            Party::Third => 3,
        }
    }

    fn of_digit(digit: u32) -> Party {
        match digit {
            0 => Party::First,
            1 => Party::Second,
            _ => Party::Third,
        }
    }

    /// The next party; after the third comes the first.
    fn after(self) -> Party {
        match self {
            Party::First => Party::Second,
            Party::Second => Party::Third,
            Party::Third => Party::First,
        }
    }
}

/// The parties' steps that are still to come.
#[derive(Drop)]
struct Parties {
    first: &'static [Do],
    second: &'static [Do],
    third: &'static [Do],
}

impl Parties {
    fn new() -> Parties {
        Parties {
            first: &INTERNING,
            second: &INTERNING,
            third: &GIVING,
        }
    }

    /// The next step of this party.
    fn take(&mut self, party: Party) -> Option<Do> {
        let left = match party {
            Party::First => &mut self.first,
            Party::Second => &mut self.second,
            Party::Third => &mut self.third,
        };
        let (step, rest) = left.split_first()?;
        *left = rest;
        Some(*step)
    }

    /// The next step of this party or, if it has none left, of the next one that has.
    fn next(&mut self, party: Party) -> Option<(u32, Do)> {
        let mut other = party;
        for _ in 0..3 {
            if let Some(step) = self.take(other) {
                return Some((other.number(), step));
            }
            other = other.after();
        }
        None
    }
}

/// The digit at a place of a merge's number in base 3, the lowest being at 0.
fn digit(merge: u32, place: usize) -> u32 {
    let mut rest = merge;
    for _ in 0..place {
        rest /= 3;
    }
    rest % 3
}

/// The steps of a merge, in order. The lowest five digits of its number name the parties whose turn it is, again and again.
fn steps_of(alloc: Global, merge: u32) -> Result<Vec<(u32, Do)>, AllocError> {
    let mut parties = Parties::new();
    let mut steps = Vec::new(alloc);
    for turn in 0..12usize {
        let party = Party::of_digit(digit(merge, turn % 5));
        if let Some(step) = parties.next(party) {
            steps.push(step)?;
        }
    }
    Ok(steps)
}

/// The calls that replies are read as, and what a table must reply to them.
#[derive(Drop)]
struct History {
    calls: Vec<Call>,
    replies: Vec<TableReply>,
    /// The ticket of entry 1.
    ticket: u64,
}

impl History {
    fn new(alloc: Global) -> History {
        History {
            calls: Vec::new(alloc),
            replies: Vec::new(alloc),
            ticket: 0,
        }
    }

    fn call(&mut self, call: Call, reply: TableReply) -> Result<(), AllocError> {
        self.calls.push(call)?;
        self.replies.push(reply)?;
        Ok(())
    }

    /// Reads one reply. A reply that decides is a call, and no other is.
    fn read(&mut self, alloc: Global, reply: StepReply) -> Result<(), AllocError> {
        let outcome = match reply {
            StepReply::Linked { entry, ticket } => {
                if entry == 1 {
                    self.ticket = ticket;
                }
                TableReply::Word(ticket)
            }
            StepReply::Added { ticket, .. } => TableReply::Word(ticket),
            StepReply::Full => TableReply::Refused(Fault::FullCount),
            StepReply::Spent => TableReply::Refused(Fault::TicketsSpent),
            StepReply::Memory => TableReply::Refused(Fault::Memory),
            StepReply::Given { .. } => {
                return self.call(Call::Give(self.ticket), TableReply::Given);
            }
            _ => return Ok(()),
        };
        self.call(Call::Intern(String::from_str(alloc, TEXT)?), outcome)
    }
}

/// Makes the steps in the world, and reads the replies.
fn history_of(alloc: Global, world: &mut Plain, steps: &[(u32, Do)]) -> Result<History, Fault> {
    let mut history = History::new(alloc);
    for (party, step) in steps {
        let reply = world.step(*party, step_of(alloc, *step)?)?;
        history.read(alloc, reply)?;
    }
    Ok(history)
}

/// How many entries of a world are held. There are at most four.
fn held(world: &Plain) -> usize {
    (1..=4)
        .filter(|entry| world.count(*entry).unwrap_or(0) > 0)
        .count()
}

/// Whether the table replies as the history says, and then holds this many texts.
fn replies_as(
    table: &mut Table<EmptyStaticAtomSet, TrustedTexts>,
    history: &History,
    held: usize,
) -> Result<bool, Fault> {
    let replies = table.run(&history.calls)?;
    Ok(replies == history.replies && table.entries() == held)
}

/// Whether a new table with these buckets does.
fn is_history_of_table(
    alloc: Global,
    buckets: Buckets,
    history: &History,
    held: usize,
) -> Result<bool, Fault> {
    let limits = Limits::greatest();
    let mut table = Table::with_buckets(alloc, TrustedTexts, limits, buckets)?;
    replies_as(&mut table, history, held)
}

/// Makes a merge's steps in a world, and the calls that they are in a table, both with these buckets.
fn check_merge(rt: &impl Abort, alloc: Global, buckets: Buckets, merge: u32) {
    let steps = steps_of(alloc, merge).expect(rt, "steps");
    assert_for(rt, steps.len() == 12, &merge);
    let mut world = world_with(rt, alloc, Limits::greatest(), buckets);
    let history = history_of(alloc, &mut world, &steps).expect(rt, "a history");
    let outcome = is_history_of_table(alloc, buckets, &history, held(&world));
    assert_for(rt, outcome == Ok(true), &merge);
}

#[test]
fn merges_are_histories_of_a_table(rt: HostRuntime) {
    for bits in [0, 12, 14] {
        let buckets = Buckets::new(bits).expect(&rt, "bits");
        for merge in 0..243 {
            check_merge(&rt, rt.alloc(), buckets, merge);
        }
    }
}
