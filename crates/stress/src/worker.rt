//! A worker: its atoms, and what it does with them.

ghost use Rattle.std.specs.Prelude.{◌<◌, length};

use crate::texts::{Case, TEXTS, Text};
use rand::RngExt;
use rand::seq::IndexedRandom;
use rand_core::SeedableRng;
use rand_xoshiro::Xoshiro256PlusPlus;
use std::sync::Wait;
use string_cache::dynamic_set::Set;
use string_cache::{DefaultAtom, EmptyStaticAtomSet, Fault};

/// The most atoms that a worker keeps.
const MOST: usize = 8;

/// An atom, and the text that it should have.
#[derive(Drop)]
struct Kept<'s> {
    atom: DefaultAtom<'s>,
    text: Text,
    case: Case,
}

impl<'s> Kept<'s> {
    /// An atom of the same text in this case, or in its own.
    fn again<R: Wait>(
        &self,
        rt: &R,
        set: &'s Set<EmptyStaticAtomSet>,
        case: Option<Case>,
    ) -> Result<Kept<'s>, Fault> {
        let atom = match case {
            None => self.atom.clone_atom(rt),
            Some(Case::Lower) => self.atom.to_ascii_lowercase_in(rt, set),
            Some(Case::Upper) => self.atom.to_ascii_uppercase_in(rt, set),
        };
        Ok(Kept {
            atom: atom?,
            text: self.text,
            case: case.unwrap_or(self.case),
        })
    }

    /// Whether it has its text.
    fn is_right(&self) -> bool {
        self.atom.eq_str(self.text.in_case(self.case))
    }
}

#[derive(Drop)]
pub struct Worker<'s, R: Wait> {
    rt: &'s R,
    set: &'s Set<EmptyStaticAtomSet>,
    rng: Xoshiro256PlusPlus,
    kept: Vec<Kept<'s>>,
    /// How many atoms had another text.
    wrong: u64,
}

impl<'s, R: Wait> Worker<'s, R> {
    /// A worker without atoms. It does the same things for the same seed.
    pub fn new(rt: &'s R, set: &'s Set<EmptyStaticAtomSet>, seed: u64) -> Self {
        Worker {
            rt,
            set,
            rng: Xoshiro256PlusPlus::seed_from_u64(seed),
            kept: Vec::new(set.allocator()),
            wrong: 0,
        }
    }

    /// Does this many things, and lets all atoms go. Returns how many atoms had a text other than theirs.
    pub fn work(mut self, rounds: u64) -> Result<u64, Fault> {
        for _ in 0..rounds {
            self.act()?;
        }
        Ok(self.wrong)
    }

    /// Does one thing. More atoms are let go than made, so that entries come and go all the time.
    fn act(&mut self) -> Result<(), Fault> {
        match self.rng.random_range(0..1000u32) {
            0..200 => self.intern(),
            200..300 => self.renew(None),
            300..400 => {
                let case = self.any_case();
                self.renew(Some(case))
            }
            400..999 => {
                self.let_go();
                Ok(())
            }
            _ => {
                self.set.sweep(self.rt);
                Ok(())
            }
        }
    }

    fn any_case(&mut self) -> Case {
        if self.rng.random_range(0..2u32) == 0 {
            Case::Lower
        } else {
            Case::Upper
        }
    }

    /// The place of one of its atoms.
    fn any_kept(&mut self) -> Option<usize> {
        let count = self.kept.len();
        if count == 0 {
            return None;
        }
        Some(self.rng.random_range(0..count))
    }

    /// Checks that an atom has its text.
    fn see(&mut self, kept: &Kept<'s>) {
        if !kept.is_right() {
            self.wrong = self.wrong.saturating_add(1);
        }
    }

    /// Keeps an atom while there is room, and checks that it has its text.
    fn keep(&mut self, kept: Kept<'s>) -> Result<(), Fault> {
        self.see(&kept);
        if self.kept.len() < MOST {
            self.kept.push(kept)?;
        }
        Ok(())
    }

    fn intern(&mut self) -> Result<(), Fault> {
        let case = self.any_case();
        let Some(text) = TEXTS.as_slice().choose(&mut self.rng) else {
            return Ok(());
        };
        let atom = DefaultAtom::from_str_in(self.rt, self.set, text.in_case(case))?;
        let text = *text;
        self.keep(Kept { atom, text, case })
    }

    /// Makes another atom from one that it has: of its text in this case, or a clone.
    fn renew(&mut self, case: Option<Case>) -> Result<(), Fault> {
        let Some(at) = self.any_kept() else {
            return Ok(());
        };
        let Some(kept) = self.kept.get(at) else {
            return Ok(());
        };
        let again = kept.again(self.rt, self.set, case)?;
        self.keep(again)
    }

    /// Lets go of one of its atoms, which has kept its text until then.
    fn let_go(&mut self) {
        let Some(at) = self.any_kept() else {
            return;
        };
        if at < self.kept.len() {
            let kept = self.kept.swap_remove(at);
            self.see(&kept);
        }
    }
}
