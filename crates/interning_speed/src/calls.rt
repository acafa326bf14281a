//! The calls of a set of either kind, in the loops that are timed.

use crate::phases::{Phase, Phases};
use crate::sets::Shared;
use std::alloc::{AllocError, Global};
use std::rt::Clock;
use std::sync::Wait;
use std::time::Instant;

/// Drops the atoms, the last one first. Returns how many there were, and how long it took.
pub fn drop_all<T: Drop, R: Clock>(
    rt: &R,
    name: &'static str,
    mut atoms: Vec<T>,
) -> Result<Phase, anyhow::Error> {
    let calls = atoms.len();
    let start = Instant::now(rt)?;
    for _atom in 0..calls {
        drop(atoms.pop());
    }
    Ok(Phase {
        name,
        calls,
        done: calls.saturating_sub(atoms.len()),
        time: start.elapsed(rt)?,
    })
}

/// Compares each atom of one list with the one at its place in the other, this many times. Returns how often `==` gave the right answer.
pub fn compare_all<T: PartialEq>(
    rounds: usize,
    lefts: &[T],
    rights: &[T],
    is_equal: bool,
) -> usize {
    let mut done = 0usize;
    for _round in 0..rounds {
        for (left, right) in lefts.iter().zip(rights) {
            done = done.wrapping_add(usize::from((left == right) == is_equal));
        }
    }
    done
}

/// Atoms, and those that they are compared with.
#[derive(Drop)]
pub struct Pairs<T: Drop> {
    pub lefts: Vec<T>,
    pub rights: Vec<T>,
}

impl<T: Drop> Pairs<T> {
    /// No atoms, with room for this many on each side.
    pub fn with_capacity(alloc: Global, count: usize) -> Result<Pairs<T>, AllocError> {
        Ok(Pairs {
            lefts: Vec::with_capacity(alloc, count)?,
            rights: Vec::with_capacity(alloc, count)?,
        })
    }
}

/// A set, and what was timed on it.
#[derive(Drop)]
pub struct Timed<'s, S: Shared, R: Wait> {
    pub rt: &'s R,
    pub alloc: Global,
    pub set: S,
    pub phases: &'s mut Phases,
}

impl<'s, S: Shared, R: Wait + Clock> Timed<'s, S, R> {
    /// Interns the texts, and adds their atoms to `atoms`, which is empty.
    fn intern_into(
        &mut self,
        name: &'static str,
        texts: &[String],
        atoms: &mut Vec<S::Atom>,
    ) -> Result<(), anyhow::Error> {
        let start = Instant::now(self.rt)?;
        self.set.intern_all(self.rt, texts, atoms)?;
        self.phases
            .note(self.rt, name, texts.len(), atoms.len(), start)
    }

    /// Interns the texts, and returns their atoms.
    pub fn intern(
        &mut self,
        name: &'static str,
        texts: &[String],
    ) -> Result<Vec<S::Atom>, anyhow::Error> {
        let mut atoms = Vec::with_capacity(self.alloc, texts.len())?;
        self.intern_into(name, texts, &mut atoms)?;
        Ok(atoms)
    }

    /// Clones the atoms, and adds the clones to `clones`, which is empty.
    fn clone_into(
        &mut self,
        atoms: &[S::Atom],
        clones: &mut Vec<S::Atom>,
    ) -> Result<(), anyhow::Error> {
        let start = Instant::now(self.rt)?;
        S::clone_all(self.rt, atoms, clones)?;
        self.phases
            .note(self.rt, "clone", atoms.len(), clones.len(), start)
    }

    /// Clones the atoms.
    pub fn clones_of(&mut self, atoms: &[S::Atom]) -> Result<Vec<S::Atom>, anyhow::Error> {
        let mut clones = Vec::with_capacity(self.alloc, atoms.len())?;
        self.clone_into(atoms, &mut clones)?;
        Ok(clones)
    }
}
