//! What is timed.

use std::alloc::Global;
use std::rt::Clock;
use std::time::{Duration, Instant};

/// What a number of calls of one kind did, and how long they took together.
#[derive(Clone, Copy)]
pub struct Phase {
    /// The kind.
    pub name: &'static str,
    /// How many calls were made.
    pub calls: usize,
    /// How many of them did what they were made for.
    pub done: usize,
    /// From before the first call to after the last.
    pub time: Duration,
}

impl Phase {
    /// The tenths of a nanosecond that a call took. 0 if none was made.
    pub fn tenths_each(&self) -> u128 {
        self.time
            .as_nanos()
            .saturating_mul(10)
            .checked_div(self.calls as u128)
            .unwrap_or(0)
    }
}

/// What was timed so far.
#[derive(Drop)]
pub struct Phases {
    list: Vec<Phase>,
}

impl Phases {
    /// Nothing.
    pub fn new(alloc: Global) -> Phases {
        Phases {
            list: Vec::new(alloc),
        }
    }

    /// What was timed, in order.
    pub fn list(&self) -> &[Phase] {
        &self.list
    }

    /// Notes calls that were timed.
    pub fn add(&mut self, phase: Phase) -> Result<(), anyhow::Error> {
        self.list.push(phase)?;
        Ok(())
    }

    /// Notes the calls since then: how many were made, and how many did what they were made for.
    pub fn note<R: Clock>(
        &mut self,
        rt: &R,
        name: &'static str,
        calls: usize,
        done: usize,
        start: Instant,
    ) -> Result<(), anyhow::Error> {
        let time = start.elapsed(rt)?;
        self.add(Phase {
            name,
            calls,
            done,
            time,
        })
    }
}
