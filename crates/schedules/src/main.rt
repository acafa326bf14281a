//! A few threads that each make some calls on one set, for a tool that tries all orders of their steps (docs/SCHEDULES.md).
//!
//! `schedules [named] HOLDERS SERIALS BITS THREAD ..`: the set, which has a name if that is asked for, has these limits, and 2 to the power of `BITS`
//! buckets. A thread is `CALLS/CALLS`, each made of letters; the first calls are made before any thread is started. At its end a thread drops what it
//! has, and ends its list of the set's atoms. A line says for each call which thread made it, on which text, when it began and ended, and what it
//! returned; one that lets a list go has a line for each place.
#![tactic(auto)]

mod calls;
mod seen;
mod sets;
mod texts;
mod worker;

ghost use Rattle.std.specs.Prelude.{◌≡◌};

use anyhow::{Result, bail};
use calls::{Begun, Done};
use named_set::{FreshName, NamedSet, SetName};
use sets::Shared;
use std::alloc::Global;
use std::io::Print;
use std::marker::Brand;
use std::rt::Env;
use std::sync::Wait;
use std::sync::atomic::{AtomicU64, Ordering};
use std::thread::Threads;
use std::{env, thread};
use string_cache::dynamic_set::Set;
use string_cache::word::{Buckets, Limits};
use string_cache::{EmptyStaticAtomSet, Fault};
use worker::Worker;

/// Added once to the word that is the clock: it tells the tool which word that is, and no thread waits for another on it.
const CLOCK: u64 = 0x5343_4845_4400_0000;

/// A thread that hasn't been started yet.
#[derive(Drop)]
struct Start<'c, S: Shared> {
    worker: Worker<'c, S>,
    /// The letters of its calls.
    calls: &'c str,
}

impl<'c, S: Shared> Start<'c, S> {
    /// The thread of an argument, whose first calls are made.
    fn new<R: Wait>(
        rt: &R,
        alloc: Global,
        set: S,
        clock: &'c AtomicU64,
        thread: u64,
        arg: &'c str,
    ) -> Result<Start<'c, S>> {
        let Some((first, calls)) = arg.split_once('/') else {
            bail!("a thread is CALLS/CALLS");
        };
        let mut worker = Worker::new(alloc, set, clock, thread)?;
        worker.make_all(rt, first)?;
        Ok(Start { worker, calls })
    }
}

/// What each thread's calls returned.
type Answers = Vec<Result<Vec<Done>, Fault>>;

/// Starts a thread for each of the last `left` of them, from the last down, and joins them all.
fn start_to<'x, 'e: 'x, S: Shared + Send + 'e, R: Threads + Wait + Sync>(
    scope: &thread::Scope<'x, &'e ()>,
    rt: &'e R,
    mut starts: Vec<Start<'e, S>>,
    done: &mut Answers,
    left: usize,
) -> Result<(), Fault>
where
    S::Atom: Send,
    S::List: Send,
{
    if left == 0 {
        return Ok(());
    }
    let Some(Start { worker, calls }) = starts.pop() else {
        return Ok(());
    };
    let started = scope.spawn(move || worker.work(rt, calls));
    let others = start_to(scope, rt, starts, done, left - 1);
    let Ok(thread) = started else {
        return Err(Fault::Memory);
    };
    done.push(thread.join(rt))?;
    others
}

fn run<'e, S: Shared + Send + 'e, R: Threads + Wait + Sync>(
    rt: &'e R,
    starts: Vec<Start<'e, S>>,
    done: &mut Answers,
) -> Result<(), Fault>
where
    S::Atom: Send,
    S::List: Send,
{
    let left = starts.len();
    thread::scope(thread::scope_env::<'e>(), rt, move |scope| {
        start_to(scope, rt, starts, done, left)
    })
}

fn print_call<R: Print>(rt: &R, done: &Done) -> Result<()> {
    let Done {
        thread,
        begun: Begun { call, text, at },
        ended,
        answer,
    } = *done;
    let (word, number) = answer.shown();
    println!(rt; "{thread} {call} {text} {at} {ended} {word} {number}")?;
    Ok(())
}

fn print_calls<R: Print>(rt: &R, calls: &[Done]) -> Result<()> {
    for call in calls {
        print_call(rt, call)?;
    }
    Ok(())
}

/// Prints what the threads did, up to the first one that failed.
fn print_all<R: Print>(rt: &R, done: &[Result<Vec<Done>, Fault>]) -> Result<()> {
    for calls in done {
        match calls {
            Ok(calls) => print_calls(rt, calls)?,
            Err(fault) => return Err((*fault).into()),
        }
    }
    Ok(())
}

/// The set after all threads: how many entries are linked, and how many a sweep leaves.
fn print_end<S: Shared, R: Wait + Print>(rt: &R, set: S) -> Result<()> {
    let linked = set.linked(rt);
    set.sweep(rt);
    let left = set.linked(rt);
    println!(rt; "linked {linked} left {left}")?;
    Ok(())
}

/// The size of a set.
#[derive(Clone, Copy)]
struct Size {
    limits: Limits,
    buckets: Buckets,
}

/// The size that three numbers ask for.
fn size_of(holders: &str, serials: &str, bits: &str) -> Result<Size> {
    Ok(Size {
        limits: limits_of(holders, serials)?,
        buckets: buckets_of(bits)?,
    })
}

/// The limits that the first two numbers ask for.
fn limits_of(holders: &str, serials: &str) -> Result<Limits> {
    let Some(limits) = Limits::new(holders.parse::<u64>()?, serials.parse::<u64>()?) else {
        bail!("no set has these limits");
    };
    Ok(limits)
}

/// The number of buckets that the third number asks for.
fn buckets_of(bits: &str) -> Result<Buckets> {
    let Some(buckets) = Buckets::new(bits.parse::<u8>()?) else {
        bail!("no set has this many buckets");
    };
    Ok(buckets)
}

/// Adds the threads of the arguments to `starts`, the first one first, and makes their first calls.
fn push_starts<'c, S: Shared, R: Wait>(
    rt: &R,
    alloc: Global,
    set: S,
    clock: &'c AtomicU64,
    threads: &'c [String],
    starts: &mut Vec<Start<'c, S>>,
) -> Result<()> {
    let mut thread = 0u64;
    for calls in threads {
        thread = thread.saturating_add(1);
        starts.push(Start::new(rt, alloc, set, clock, thread, calls.as_str())?)?;
    }
    Ok(())
}

/// Makes the first calls of all threads, starts them, and adds what they did to `done`.
fn make_calls<'e, S: Shared + Send + 'e, R: Threads + Wait + Sync>(
    rt: &'e R,
    alloc: Global,
    set: S,
    clock: &'e AtomicU64,
    threads: &'e [String],
    done: &mut Answers,
) -> Result<()>
where
    S::Atom: Send,
    S::List: Send,
{
    let mut starts = Vec::new(alloc);
    push_starts(rt, alloc, set, clock, threads, &mut starts)?;
    starts.reverse(); // so that the first is started first
    run(rt, starts, done)?;
    Ok(())
}

/// Makes all calls, and prints what they did, and what the set is at the end.
fn play<'e, S: Shared + Send + 'e, R: Threads + Wait + Print + Sync>(
    rt: &'e R,
    alloc: Global,
    set: S,
    clock: &'e AtomicU64,
    threads: &'e [String],
) -> Result<()>
where
    S::Atom: Send,
    S::List: Send,
{
    let mut done = Vec::new(alloc);
    make_calls(rt, alloc, set, clock, threads, &mut done)?;
    print_all(rt, &done)?;
    print_end(rt, set)
}

/// A scene over a set without a name.
fn play_over_set<R: Threads + Wait + Print + Sync>(
    rt: &R,
    alloc: Global,
    clock: &AtomicU64,
    size: Size,
    threads: &[String],
) -> Result<()> {
    let set = Set::<EmptyStaticAtomSet>::with_buckets(alloc, size.limits, size.buckets)?;
    play(rt, alloc, &set, clock, threads)
}

/// A scene over a set that has a name.
fn play_over_named<R: Threads + Wait + Print + Sync>(
    rt: &R,
    alloc: Global,
    clock: &AtomicU64,
    size: Size,
    threads: &[String],
) -> Result<()> {
    let name = FreshName::new(alloc, size.buckets)?;
    play_over_name::<Brand, R>(rt, alloc, clock, size.limits, threads, name)
}

/// The same, over the set with this name.
fn play_over_name<N: SetName + Send + Sync, R: Threads + Wait + Print + Sync>(
    rt: &R,
    alloc: Global,
    clock: &AtomicU64,
    limits: Limits,
    threads: &[String],
    name: FreshName,
) -> Result<()>
    requires { N.logs ≡ name.logs }
{
    let set = NamedSet::<EmptyStaticAtomSet, N>::new(alloc, name, limits)?;
    play(rt, alloc, &set, clock, threads)
}

/// Plays the scene of a program's arguments, without the word `named`.
fn play_words<R: Threads + Wait + Print + Sync>(
    rt: &R,
    alloc: Global,
    clock: &AtomicU64,
    words: &[String],
    is_named: bool,
) -> Result<()> {
    let [holders, serials, bits, threads @ ..] = words else {
        bail!("usage: schedules [named] HOLDERS SERIALS BITS CALLS/CALLS ..");
    };
    let size = size_of(holders.as_str(), serials.as_str(), bits.as_str())?;
    if is_named {
        play_over_named(rt, alloc, clock, size, threads)
    } else {
        play_over_set(rt, alloc, clock, size, threads)
    }
}

fn main(rt: HostRuntime) -> Result<()> {
    let alloc = rt.alloc();
    let words: Vec<String> = env::args(&rt)?.skip(1).collect(alloc)?;
    let clock = AtomicU64::new(0);
    clock.fetch_add(CLOCK, Ordering::SeqCst);
    clock.store(0, Ordering::SeqCst);
    match words.as_slice() {
        [first, others @ ..] if first.as_str() == "named" => {
            play_words(&rt, alloc, &clock, others, true)
        }
        all => play_words(&rt, alloc, &clock, all, false),
    }
}
