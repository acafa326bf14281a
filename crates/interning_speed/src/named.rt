//! The calls of a set with a name and many live texts, and of a map by its words.

ghost use Rattle.std.specs.Prelude.{◌≡◌};

use crate::calls::{Pairs, Timed, compare_all, drop_all};
use crate::phases::Phases;
use crate::sets::Shared;
use crate::texts::Texts;
use named_set::{FreshName, NamedSet, SetName};
use std::alloc::{AllocError, Global};
use std::collections::HashMap;
use std::hash::Hash;
use std::marker::Brand;
use std::rt::Clock;
use std::sync::Wait;
use std::time::Instant;
use string_cache::word::{Buckets, Limits};
use string_cache::{ByWord, EmptyStaticAtomSet, Fault, NamedAtom};

/// A set whose atoms are keys by their words.
trait Keyed: Shared {
    /// An atom as a key by its word.
    type Key: Drop + Eq + Hash;

    /// A clone of an atom, as a key.
    fn key_of<R: Wait>(rt: &R, atom: &Self::Atom) -> Result<Self::Key, Fault>;
}

impl<'s, N: SetName> Keyed for &'s NamedSet<EmptyStaticAtomSet, N> {
    type Key = ByWord<'s, EmptyStaticAtomSet, N>;

    fn key_of<R: Wait>(
        rt: &R,
        atom: &NamedAtom<'s, EmptyStaticAtomSet, N>,
    ) -> Result<ByWord<'s, EmptyStaticAtomSet, N>, Fault> {
        atom.clone_atom(rt).map(ByWord::new)
    }
}

/// A map by words, and the words again.
#[derive(Drop)]
struct Places<K: Drop + Eq + Hash> {
    keys: Vec<K>,
    places: HashMap<K, usize>,
}

impl<K: Drop + Eq + Hash> Places<K> {
    /// No words.
    fn new(alloc: Global) -> Places<K> {
        Places {
            keys: Vec::new(alloc),
            places: HashMap::new(alloc),
        }
    }

    /// Adds a word to the map.
    fn put(&mut self, key: K, place: usize) -> Result<(), AllocError> {
        self.places.insert(key, place)?;
        Ok(())
    }

    /// The number of the words that the map has.
    fn found(&self) -> usize {
        let mut done = 0usize;
        for key in &self.keys {
            done = done.wrapping_add(usize::from(self.places.contains_key(key)));
        }
        done
    }
}

/// Adds the words of the atoms to the list.
fn list_all<S: Keyed, R: Wait>(
    rt: &R,
    atoms: &[S::Atom],
    keys: &mut Vec<S::Key>,
) -> Result<(), Fault> {
    keys.reserve(atoms.len())?;
    for atom in atoms {
        keys.push(S::key_of(rt, atom)?)?;
    }
    Ok(())
}

/// Adds the words of the atoms to the map.
fn place_all<S: Keyed, R: Wait>(
    rt: &R,
    atoms: &[S::Atom],
    places: &mut Places<S::Key>,
) -> Result<(), Fault> {
    for (place, atom) in atoms.iter().enumerate() {
        places.put(S::key_of(rt, atom)?, place)?;
    }
    Ok(())
}

/// Adds the atom of a long text to `atoms`.
fn push_long<S: Shared, R: Wait>(
    rt: &R,
    alloc: Global,
    set: S,
    atoms: &mut Vec<S::Atom>,
) -> Result<(), Fault> {
    let mut texts = Vec::new(alloc);
    texts.push("interned, ".repeat(alloc, 1000)?)?;
    set.intern_all(rt, &texts, atoms)
}

/// Adds this many pairs of clones of each of these atoms.
fn pair_clones<S: Shared, R: Wait>(
    rt: &R,
    atoms: &[S::Atom],
    count: usize,
    pairs: &mut Pairs<S::Atom>,
) -> Result<(), Fault> {
    for _pair in 0..count {
        S::clone_all(rt, atoms, &mut pairs.lefts)?;
        S::clone_all(rt, atoms, &mut pairs.rights)?;
    }
    Ok(())
}

/// This many pairs of atoms of a long text.
fn long_pairs<S: Shared, R: Wait>(
    rt: &R,
    alloc: Global,
    set: S,
    count: usize,
) -> Result<Pairs<S::Atom>, Fault> {
    let mut atoms = Vec::new(alloc);
    push_long(rt, alloc, set, &mut atoms)?;
    let mut pairs = Pairs::with_capacity(alloc, count)?;
    pair_clones::<S, R>(rt, &atoms, count, &mut pairs)?;
    Ok(pairs)
}

impl<'s, S: Keyed, R: Wait + Clock> Timed<'s, S, R> {
    /// Drops the atoms, the last one first.
    fn drop_all(&mut self, name: &'static str, atoms: Vec<S::Atom>) -> Result<(), anyhow::Error> {
        self.phases.add(drop_all(self.rt, name, atoms)?)
    }

    /// Compares the atoms with those at their places in the other list, as many as that has.
    fn compare(
        &mut self,
        name: &'static str,
        lefts: &[S::Atom],
        rights: &[S::Atom],
        is_equal: bool,
    ) -> Result<(), anyhow::Error> {
        let start = Instant::now(self.rt)?;
        let done = compare_all(1, lefts, rights, is_equal);
        self.phases.note(self.rt, name, rights.len(), done, start)
    }

    /// Compares the atoms with their clones, and with those of other texts.
    fn compare_both(&mut self, atoms: &[S::Atom], clones: &[S::Atom]) -> Result<(), anyhow::Error> {
        self.compare("== of one text", atoms, clones, true)?;
        let others = clones.get(1..).unwrap_or(&[]);
        self.compare("== of two texts", atoms, others, false)
    }

    /// Compares this many atoms of one long text with as many others of it.
    fn compare_long(&mut self, count: usize) -> Result<(), anyhow::Error> {
        let pairs = long_pairs(self.rt, self.alloc, self.set, count)?;
        self.compare(
            "== of one text of 10,000 bytes",
            &pairs.lefts,
            &pairs.rights,
            true,
        )
    }

    /// Clones the atoms, compares the clones with them, compares as many atoms of one long text, and drops the clones.
    fn compare_clones(&mut self, atoms: &[S::Atom]) -> Result<(), anyhow::Error> {
        let clones = self.clones_of(atoms)?;
        self.compare_both(atoms, &clones)?;
        self.compare_long(atoms.len())?;
        self.drop_all("drop of a clone", clones)
    }

    /// Looks up the words of the atoms in this map, which has none yet.
    fn look_up_in(
        &mut self,
        atoms: &[S::Atom],
        places: &mut Places<S::Key>,
    ) -> Result<(), anyhow::Error> {
        list_all::<S, R>(self.rt, atoms, &mut places.keys)?;
        place_all::<S, R>(self.rt, atoms, places)?;
        let start = Instant::now(self.rt)?;
        let done = places.found();
        self.phases.note(
            self.rt,
            "look-up in a map by words",
            atoms.len(),
            done,
            start,
        )
    }

    /// Looks up the words of the atoms in a map that has them all.
    fn look_up(&mut self, atoms: &[S::Atom]) -> Result<(), anyhow::Error> {
        self.look_up_in(atoms, &mut Places::new(self.alloc))
    }

    /// Times each kind of call.
    fn measure_named(&mut self, texts: &Texts) -> Result<(), anyhow::Error> {
        let first = self.intern("intern of a new text", texts.first())?;
        let again = self.intern("intern of a text that is there", texts.again())?;
        self.compare_clones(&again)?;
        self.look_up(&first)?;
        drop(first);
        self.drop_all("last drop, of any", again)
    }
}

/// Times each kind of call in a new set: interning texts when they are new, and in another order when they are there, cloning the atoms in that
/// order, comparing clones with their atoms and with others, and atoms of one long text, the ends of the clones, look-ups by words, and the ends of
/// the last atoms.
pub fn measure<R: Wait + Clock>(
    rt: &R,
    alloc: Global,
    buckets: Buckets,
    texts: &Texts,
    phases: &mut Phases,
) -> Result<(), anyhow::Error> {
    let name = FreshName::new(alloc, buckets)?;
    measure_named::<Brand, R>(rt, alloc, name, texts, phases)
}

/// The same, in the set with this name.
fn measure_named<N: SetName, R: Wait + Clock>(
    rt: &R,
    alloc: Global,
    name: FreshName,
    texts: &Texts,
    phases: &mut Phases,
) -> Result<(), anyhow::Error>
    requires { N.logs ≡ name.logs }
{
    let set = NamedSet::<EmptyStaticAtomSet, N>::new(alloc, name, Limits::greatest())?;
    let mut timed = Timed {
        rt,
        alloc,
        set: &set,
        phases,
    };
    timed.measure_named(texts)
}
