//! The calls of a set with many live texts.

use crate::calls::{Timed, drop_all};
use crate::phases::Phases;
use crate::sets::Shared;
use crate::texts::Texts;
use std::alloc::Global;
use std::rt::Clock;
use std::sync::Wait;
use string_cache::EmptyStaticAtomSet;
use string_cache::dynamic_set::Set;
use string_cache::word::{Buckets, Limits};

/// A set that tells how many texts it has.
trait Counted: Shared {
    /// The number of its texts that are linked.
    fn linked<R: Wait>(self, rt: &R) -> u128;
}

impl<'s> Counted for &'s Set<EmptyStaticAtomSet> {
    fn linked<R: Wait>(self, rt: &R) -> u128 {
        Set::linked(self, rt)
    }
}

impl<'s, S: Counted, R: Wait + Clock> Timed<'s, S, R> {
    /// Drops the atoms, the last one first. Either each of them is the last of its text, or none is.
    fn drop_counted(
        &mut self,
        name: &'static str,
        atoms: Vec<S::Atom>,
        is_last: bool,
    ) -> Result<(), anyhow::Error> {
        let before = self.set.linked(self.rt);
        let mut phase = drop_all(self.rt, name, atoms)?;
        let gone = before.saturating_sub(self.set.linked(self.rt));
        phase.done = done_of(phase.calls, gone, is_last);
        self.phases.add(phase)
    }

    /// Clones the atoms, and drops the clones.
    fn clone_and_drop(&mut self, atoms: &[S::Atom]) -> Result<(), anyhow::Error> {
        let clones = self.clones_of(atoms)?;
        self.drop_counted("drop of a clone", clones, false)
    }

    /// Interns new texts, and drops their atoms.
    fn intern_and_drop(&mut self, texts: &[String]) -> Result<(), anyhow::Error> {
        let newest = self.intern("intern of one more new text", texts)?;
        self.drop_counted("last drop, of the newest", newest, true)
    }

    /// Times each kind of call.
    fn measure_live(&mut self, texts: &Texts) -> Result<(), anyhow::Error> {
        let first = self.intern("intern of a new text", texts.first())?;
        let again = self.intern("intern of a text that is there", texts.again())?;
        self.clone_and_drop(&again)?;
        drop(first);
        self.intern_and_drop(texts.more())?;
        self.drop_counted("last drop, of any", again, true)
    }
}

/// How many of these drops took their text out of the set, or left it there, if this many texts are gone.
fn done_of(calls: usize, gone: u128, is_last: bool) -> usize {
    let gone = usize::try_from(gone).unwrap_or(0);
    if is_last {
        gone
    } else {
        calls.saturating_sub(gone)
    }
}

/// Times each kind of call: interning texts when they are new, and in another order when they are there, cloning the atoms in that order, the ends of
/// the clones, those of the last atoms of the newest texts, and those of the last atoms of all.
pub fn measure<R: Wait + Clock>(
    rt: &R,
    alloc: Global,
    buckets: Buckets,
    texts: &Texts,
    phases: &mut Phases,
) -> Result<(), anyhow::Error> {
    let set = Set::<EmptyStaticAtomSet>::with_buckets(alloc, Limits::greatest(), buckets)?;
    let mut timed = Timed {
        rt,
        alloc,
        set: &set,
        phases,
    };
    timed.measure_live(texts)
}
