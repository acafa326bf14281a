//! The calls of the table for one thread.

use crate::phases::{Phase, Phases};
use crate::texts::Texts;
use std::alloc::{AllocError, Global};
use std::hash::BuildHasher;
use std::rt::Clock;
use std::time::Instant;
use string_cache::table::{Call, Table, TableReply};
use string_cache::{EmptyStaticAtomSet, Fault};

/// A kind of calls on a word that is held.
#[derive(Clone, Copy)]
enum Kind {
    Clone,
    Give,
}

/// What is printed for the calls that clone each word.
const CLONES: [&str; 1] = ["clone"];

/// What is printed for those that give it, once for each of its three holders.
const GIVES: [&str; 3] = ["give", "give again", "give by the last holder"];

/// A table, and the words of the texts that were interned last.
#[derive(Drop)]
struct Measured<H: BuildHasher> {
    table: Table<EmptyStaticAtomSet, H>,
    words: Vec<u64>,
}

impl<H: BuildHasher> Measured<H> {
    /// Interns the texts, and keeps their words.
    fn intern_all(&mut self, texts: &[String]) -> Result<(), Fault> {
        for text in texts {
            self.words.push(self.table.intern(text.as_str())?)?;
        }
        Ok(())
    }

    /// Interns the texts, and keeps their words instead of the earlier ones.
    fn intern<R: Clock>(
        &mut self,
        rt: &R,
        phases: &mut Phases,
        name: &'static str,
        texts: &[String],
    ) -> Result<(), anyhow::Error> {
        self.words.clear();
        self.words.reserve(texts.len())?;
        let start = Instant::now(rt)?;
        self.intern_all(texts)?;
        phases.note(rt, name, texts.len(), self.words.len(), start)
    }

    /// Makes the calls. Each must find its word held.
    fn run<R: Clock>(
        &mut self,
        rt: &R,
        phases: &mut Phases,
        name: &'static str,
        calls: &[Call],
    ) -> Result<(), anyhow::Error> {
        let start = Instant::now(rt)?;
        let replies = self.table.run(calls)?;
        let time = start.elapsed(rt)?;
        phases.add(Phase {
            name,
            calls: calls.len(),
            done: count_done(&replies),
            time,
        })
    }

    /// Makes a call of this kind on each word, once for each of the names.
    fn run_each<R: Clock>(
        &mut self,
        rt: &R,
        alloc: Global,
        phases: &mut Phases,
        kind: Kind,
        names: &[&'static str],
    ) -> Result<(), anyhow::Error> {
        let calls = calls_of(alloc, kind, &self.words)?;
        for name in names {
            self.run(rt, phases, name, &calls)?;
        }
        Ok(())
    }

    /// Times each kind of call in a new table.
    fn measure<R: Clock>(
        &mut self,
        rt: &R,
        alloc: Global,
        texts: &Texts,
        phases: &mut Phases,
    ) -> Result<(), anyhow::Error> {
        self.intern(rt, phases, "intern of a new text", texts.first())?;
        self.intern(rt, phases, "intern of a text that is there", texts.again())?;
        self.run_each(rt, alloc, phases, Kind::Clone, &CLONES)?;
        self.run_each(rt, alloc, phases, Kind::Give, &GIVES)
    }
}

/// The calls of this kind on each word.
fn calls_of(alloc: Global, kind: Kind, words: &[u64]) -> Result<Vec<Call>, AllocError> {
    let mut calls = Vec::with_capacity(alloc, words.len())?;
    for word in words {
        calls.push(match kind {
            Kind::Clone => Call::Clone(*word),
            Kind::Give => Call::Give(*word),
        })?;
    }
    Ok(calls)
}

/// The number of calls that found their word held.
fn count_done(replies: &[TableReply]) -> usize {
    let mut done = 0usize;
    for reply in replies {
        if matches!(reply, TableReply::Word(_) | TableReply::Given) {
            done = done.wrapping_add(1);
        }
    }
    done
}

/// A new table with this hasher.
fn new_table<H: BuildHasher + Drop>(alloc: Global, hasher: H) -> Result<Measured<H>, Fault> {
    Ok(Measured {
        table: Table::new(alloc, hasher)?,
        words: Vec::new(alloc),
    })
}

/// Times each kind of call, in a table with this hasher: interning texts when they are new, interning them in another order when they are there,
/// cloning their words in that order, and giving them three times, the last time by their last holder.
pub fn measure<R: Clock, H: BuildHasher + Drop>(
    rt: &R,
    alloc: Global,
    hasher: H,
    texts: &Texts,
    phases: &mut Phases,
) -> Result<(), anyhow::Error> {
    new_table(alloc, hasher)?.measure(rt, alloc, texts, phases)
}
