//! Random work by many threads on one set. Each interns, clones and drops atoms of a few texts, changes their case and sweeps, and checks that each
//! atom has its text. Once all have ended, one sweep must leave nothing.
#![tactic(auto)]

mod texts;
mod worker;

use anyhow::bail;
use std::alloc::Global;
use std::rt::Env;
use std::sync::Wait;
use std::thread::Threads;
use std::{env, thread};
use string_cache::dynamic_set::Set;
use string_cache::{EmptyStaticAtomSet, Fault};
use worker::Worker;

/// What the arguments ask for.
#[derive(Clone, Copy)]
struct Command {
    workers: usize,
    /// The number of things that each worker does.
    rounds: u64,
}

/// What the words ask for, or `None` if they aren't two numbers.
fn command_of(words: &[String]) -> Option<Command> {
    let [workers, rounds] = words else {
        return None;
    };
    Some(Command {
        workers: workers.as_str().parse::<usize>().ok()?,
        rounds: rounds.as_str().parse::<u64>().ok()?,
    })
}

/// `None` if the arguments aren't two numbers.
fn asked_for(rt: &(impl Env + AllocGlobal)) -> Result<Option<Command>, anyhow::Error> {
    let words: Vec<String> = env::args(rt)?.skip(1).collect(rt.alloc())?;
    Ok(command_of(words.as_slice()))
}

/// What is left of the work.
struct Outcome {
    /// How many atoms had a text other than theirs.
    wrong: u64,
    /// How many entries are linked after one sweep.
    left: u128,
}

/// The sum of what the workers counted.
fn sum_of(counts: &[Result<u64, Fault>]) -> Result<u64, Fault> {
    let mut sum = 0u64;
    for count in counts {
        match count {
            Ok(count) => sum = sum.saturating_add(*count),
            Err(fault) => return Err(*fault),
        }
    }
    Ok(sum)
}

/// Runs this many workers in the set, each in a thread of its own. Returns how many atoms had a text other than theirs.
fn count_wrong<R: Threads + Wait + Sync>(
    rt: &R,
    alloc: Global,
    set: &Set<EmptyStaticAtomSet>,
    command: Command,
) -> Result<u64, Fault> {
    let rounds = command.rounds;
    let counts = thread::map_indices(
        rt,
        alloc,
        command.workers,
        &|n| { Worker::new(rt, set, n as u64).work(rounds) },
    )?;
    sum_of(&counts)
}

/// Runs the workers in a set, and sweeps it once.
fn work<R: Threads + Wait + Sync>(
    rt: &R,
    alloc: Global,
    command: Command,
) -> Result<Outcome, Fault> {
    let set = Set::<EmptyStaticAtomSet>::new(alloc)?;
    let wrong = count_wrong(rt, alloc, &set, command)?;
    set.sweep(rt);
    Ok(Outcome {
        wrong,
        left: set.linked(rt),
    })
}

fn main(rt: HostRuntime) -> Result<(), anyhow::Error> {
    let Some(command) = asked_for(&rt)? else {
        println!(rt; "usage: stress WORKERS ROUNDS")?;
        return Ok(());
    };
    let Command { workers, rounds } = command;
    let Outcome { wrong, left } = work(&rt, rt.alloc(), command)?;
    println!(rt;
        "{workers} workers, {rounds} rounds each: {wrong} wrong texts, {left} entries left"
    )?;
    if wrong > 0 || left > 0 {
        bail!("the set is wrong");
    }
    Ok(())
}
