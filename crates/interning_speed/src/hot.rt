//! The calls of a set on a few texts, over and over.

use crate::calls::{Pairs, compare_all};
use crate::elements::Elements;
use crate::phases::Phases;
use crate::sets::Shared;
use std::alloc::{AllocError, Global};
use std::rt::Clock;
use std::sync::Wait;
use std::time::Instant;
use string_cache::dynamic_set::Set;
use string_cache::word::{Buckets, Limits};
use string_cache::{Atom, Fault, StaticAtomSet};

/// Texts that are held in place.
const INLINE: [&str; 8] = ["a", "be", "div", "span", "table", "strong", "section", ""];

/// Texts that are kept in the set.
const DYNAMIC: [&str; 8] = [
    "background-color",
    "border-collapse",
    "font-family",
    "grid-template-columns",
    "justify-content",
    "letter-spacing",
    "transition-duration",
    "vertical-align",
];

/// The same texts in the other order: no text is at its place.
const TURNED: [&str; 8] = [
    "vertical-align",
    "transition-duration",
    "letter-spacing",
    "justify-content",
    "grid-template-columns",
    "font-family",
    "border-collapse",
    "background-color",
];

/// A set whose atoms are asked about themselves, and dropped at once.
trait Telling: Shared {
    /// Interns the texts in turn, this many times, and drops each atom at once. Returns how often that had the text's length.
    fn intern_rounds<R: Wait>(self, rt: &R, rounds: usize, texts: &[&str]) -> Result<usize, Fault>;

    /// Whether a clone's text is kept in the set.
    fn is_clone_dynamic<R: Wait>(rt: &R, atom: &Self::Atom) -> Result<bool, Fault>;
}

impl<'s, Static: StaticAtomSet> Telling for &'s Set<Static> {
    fn intern_rounds<R: Wait>(self, rt: &R, rounds: usize, texts: &[&str]) -> Result<usize, Fault> {
        let mut done = 0usize;
        for _round in 0..rounds {
            for text in texts {
                let atom = Atom::from_str_in(rt, self, text)?;
                done = done.wrapping_add(usize::from(atom.as_str().len() == text.len()));
            }
        }
        Ok(done)
    }

    #[inline]
    fn is_clone_dynamic<R: Wait>(rt: &R, atom: &Atom<'s, Static>) -> Result<bool, Fault> {
        let clone = atom.clone_atom(rt)?;
        Ok(clone.is_dynamic())
    }
}

/// Clones the atoms in turn, this many times, and drops each clone at once. Returns how often that was one whose text the set keeps.
fn clone_all<S: Telling, R: Wait>(
    rt: &R,
    rounds: usize,
    atoms: &[S::Atom],
) -> Result<usize, Fault> {
    let mut done = 0usize;
    for _round in 0..rounds {
        for atom in atoms {
            done = done.wrapping_add(usize::from(S::is_clone_dynamic(rt, atom)?));
        }
    }
    Ok(done)
}

/// The texts, each in memory of its own.
fn owned(alloc: Global, texts: &[&str]) -> Result<Vec<String>, AllocError> {
    let mut strings = Vec::new(alloc);
    for text in texts {
        strings.push(String::from_str(alloc, text)?)?;
    }
    Ok(strings)
}

/// Adds the atoms of the texts to `atoms`.
fn push_atoms<S: Shared, R: Wait>(
    rt: &R,
    alloc: Global,
    set: S,
    texts: &[&str],
    atoms: &mut Vec<S::Atom>,
) -> Result<(), Fault> {
    let texts = owned(alloc, texts)?;
    set.intern_all(rt, &texts, atoms)
}

/// A set, and what was timed on it.
#[derive(Drop)]
struct Hot<'s, S: Shared, R: Wait> {
    rt: &'s R,
    alloc: Global,
    set: S,
    /// How often each call is made for each text.
    rounds: usize,
    phases: &'s mut Phases,
}

impl<'s, S: Telling, R: Wait + Clock> Hot<'s, S, R> {
    /// Notes the calls on this many texts since then: how long they took, and how many did what they were made for.
    fn note(
        &mut self,
        name: &'static str,
        texts: usize,
        done: usize,
        start: Instant,
    ) -> Result<(), anyhow::Error> {
        let calls = texts.saturating_mul(self.rounds);
        self.phases.note(self.rt, name, calls, done, start)
    }

    /// Interns the texts in turn, and drops each atom at once.
    fn intern(&mut self, name: &'static str, texts: &[&str]) -> Result<(), anyhow::Error> {
        let start = Instant::now(self.rt)?;
        let done = self.set.intern_rounds(self.rt, self.rounds, texts)?;
        self.note(name, texts.len(), done, start)
    }

    /// Clones the atoms in turn, and drops each clone at once.
    fn clone_all(&mut self, name: &'static str, atoms: &[S::Atom]) -> Result<(), anyhow::Error> {
        let start = Instant::now(self.rt)?;
        let done = clone_all::<S, R>(self.rt, self.rounds, atoms)?;
        self.note(name, atoms.len(), done, start)
    }

    /// Interns texts that are held, and clones their atoms.
    fn intern_and_clone_held(&mut self) -> Result<(), anyhow::Error> {
        let mut held = Vec::new(self.alloc);
        push_atoms(self.rt, self.alloc, self.set, &DYNAMIC, &mut held)?;
        self.intern("intern and drop, dynamic and held", &DYNAMIC)?;
        self.clone_all("clone and drop", &held)
    }

    /// Compares the atom of each text of one list with that of the text at its place in the other.
    fn compare(
        &mut self,
        name: &'static str,
        lefts: &[&str],
        rights: &[&str],
        is_equal: bool,
    ) -> Result<(), anyhow::Error> {
        let mut pairs = Pairs::with_capacity(self.alloc, lefts.len())?;
        push_atoms(self.rt, self.alloc, self.set, lefts, &mut pairs.lefts)?;
        push_atoms(self.rt, self.alloc, self.set, rights, &mut pairs.rights)?;
        self.compare_pairs(name, &pairs, is_equal)
    }

    /// Compares the atoms of each pair.
    fn compare_pairs(
        &mut self,
        name: &'static str,
        pairs: &Pairs<S::Atom>,
        is_equal: bool,
    ) -> Result<(), anyhow::Error> {
        let start = Instant::now(self.rt)?;
        let done = compare_all(self.rounds, &pairs.lefts, &pairs.rights, is_equal);
        self.note(name, pairs.lefts.len(), done, start)
    }

    /// Times each kind of call. These are the static texts of the set's type.
    fn measure(&mut self, statics: &[&str]) -> Result<(), anyhow::Error> {
        self.intern("intern and drop, inline", &INLINE)?;
        self.intern("intern and drop, static", statics)?;
        self.intern_and_clone_held()?;
        self.compare("== of one text", &DYNAMIC, &DYNAMIC, true)?;
        self.compare("== of two texts", &DYNAMIC, &TURNED, false)
    }
}

/// The static texts of the type.
fn texts_of<Static: StaticAtomSet>() -> &'static [&'static str] {
    Static::get().atoms
}

/// Times interning inline, static and held dynamic texts, each with its drop, cloning and dropping, and comparing atoms of one text and of two: this
/// many rounds of each.
pub fn measure<R: Wait + Clock>(
    rt: &R,
    alloc: Global,
    buckets: Buckets,
    rounds: usize,
    phases: &mut Phases,
) -> Result<(), anyhow::Error> {
    let set = Set::<Elements>::with_buckets(alloc, Limits::greatest(), buckets)?;
    let mut hot = Hot {
        rt,
        alloc,
        set: &set,
        rounds,
        phases,
    };
    hot.measure(texts_of::<Elements>())
}
