//! Interning by several threads at once.

ghost use Rattle.std.specs.Prelude.{◌≡◌};

use crate::phases::{Phase, Phases};
use crate::sets::Shared;
use crate::texts::Texts;
use named_set::{FreshName, NamedSet, SetName};
use std::alloc::{AllocError, Global};
use std::marker::Brand;
use std::rt::Clock;
use std::sync::Wait;
use std::thread;
use std::thread::Threads;
use std::time::Instant;
use string_cache::dynamic_set::Set;
use string_cache::word::{Buckets, Limits};
use string_cache::{EmptyStaticAtomSet, Fault};

/// Interns all texts, and holds their atoms. Every other thread goes through the texts in the other order.
fn intern_own<S: Shared, R: Wait>(
    rt: &R,
    alloc: Global,
    set: S,
    texts: &Texts,
    number: usize,
) -> Result<Vec<S::Atom>, Fault> {
    let own = if number % 2 == 0 {
        texts.first()
    } else {
        texts.again()
    };
    let mut atoms = Vec::with_capacity(alloc, own.len())?;
    set.intern_all(rt, own, &mut atoms)?;
    Ok(atoms)
}

/// The number of atoms that all threads hold.
fn count_of<T: Drop>(held: &[Result<Vec<T>, Fault>]) -> Result<usize, Fault> {
    let mut count = 0usize;
    for atoms in held {
        match atoms {
            Ok(atoms) => count = count.saturating_add(atoms.len()),
            Err(fault) => return Err(*fault),
        }
    }
    Ok(count)
}

/// Notes this many calls since then, by the atoms that all threads hold.
fn note_held<T: Drop, R: Clock>(
    rt: &R,
    phases: &mut Phases,
    calls: usize,
    held: &[Result<Vec<T>, Fault>],
    start: Instant,
) -> Result<(), anyhow::Error> {
    let time = start.elapsed(rt)?;
    let done = count_of(held)?;
    phases.add(Phase {
        name: "intern and hold, by all threads",
        calls,
        done,
        time,
    })
}

/// The atoms of all threads in this set.
fn held_by_all<S: Shared + Sync, R: Threads + Wait + Sync>(
    rt: &R,
    alloc: Global,
    set: S,
    texts: &Texts,
    workers: usize,
) -> Result<Vec<Result<Vec<S::Atom>, Fault>>, AllocError>
where
    S::Atom: Send,
{
    thread::map_indices(
        rt,
        alloc,
        workers,
        &|n| intern_own(rt, alloc, set, texts, n),
    )
}

/// Times the threads in this set.
fn measure_in<S: Shared + Sync, R: Threads + Wait + Clock + Sync>(
    rt: &R,
    alloc: Global,
    set: S,
    texts: &Texts,
    workers: usize,
    phases: &mut Phases,
) -> Result<(), anyhow::Error>
where
    S::Atom: Send,
{
    let start = Instant::now(rt)?;
    let held = held_by_all(rt, alloc, set, texts, workers)?;
    note_held(
        rt,
        phases,
        texts.len().saturating_mul(workers),
        &held,
        start,
    )
}

/// Times this many threads over a set, each of which interns all texts and holds their atoms until all have ended. Every other one goes through
/// them in the other order.
pub fn measure<R: Threads + Wait + Clock + Sync>(
    rt: &R,
    alloc: Global,
    buckets: Buckets,
    texts: &Texts,
    workers: usize,
    phases: &mut Phases,
) -> Result<(), anyhow::Error> {
    let set = Set::<EmptyStaticAtomSet>::with_buckets(alloc, Limits::greatest(), buckets)?;
    measure_in(rt, alloc, &set, texts, workers, phases)
}

/// The same, over a set with a name.
pub fn measure_named<R: Threads + Wait + Clock + Sync>(
    rt: &R,
    alloc: Global,
    buckets: Buckets,
    texts: &Texts,
    workers: usize,
    phases: &mut Phases,
) -> Result<(), anyhow::Error> {
    let name = FreshName::new(alloc, buckets)?;
    measure_under::<Brand, R>(rt, alloc, name, texts, workers, phases)
}

/// The same, over the set with this name.
fn measure_under<N: SetName + Send, R: Threads + Wait + Clock + Sync>(
    rt: &R,
    alloc: Global,
    name: FreshName,
    texts: &Texts,
    workers: usize,
    phases: &mut Phases,
) -> Result<(), anyhow::Error>
    requires { N.logs ≡ name.logs }
{
    let set = NamedSet::<EmptyStaticAtomSet, N>::new(alloc, name, Limits::greatest())?;
    measure_in(rt, alloc, &set, texts, workers, phases)
}
