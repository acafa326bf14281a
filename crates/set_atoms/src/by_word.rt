//! Atoms as keys by their words.

ghost use Rattle.std.proofs.Common.{rules};
ghost use Rattle.std.specs.Cmp.Rules.{comparing, hashing};
ghost use Rattle.std.specs.Hash as fed;
ghost use Rattle.std.specs.Prelude.{◌≡◌, ◌↔◌, ◌==◌, IsTrue};

use crate::atom::NamedAtom;
use named_set::SetName;
use std::hash::{Hash, Hasher};
use std::marker::Model;
use text_forms::static_sets::StaticTables;

/// An atom that is compared and hashed by its word alone, as a key of a map: one number, for which no cell and no table is read.
///
/// Two that exist at once are equal exactly if their texts are. A text that nobody held in between gets another word when it is interned again, so
/// what is kept by a word is valid only while the atom is kept. In a clause it is its atom.
#[derive(Drop)]
pub struct ByWord<'s, Static: StaticTables, N: SetName> {
    atom: NamedAtom<'s, Static, N>,
}

impl<'s, Static: StaticTables, N: SetName> Model for ByWord<'s, Static, N> {
    ghost use Rattle.set_atoms.specs.AtomValue.{AtomValue};

    ghost Value = { AtomValue };

    ghost view = { λ k. k.atom };
}

impl<'s, Static: StaticTables, N: SetName> ByWord<'s, Static, N> {
    /// The atom as a key.
    pub fn new(atom: NamedAtom<'s, Static, N>) -> Self
        ensures { result ≡ atom.entry }
    {
        ByWord { atom }
    }

    /// Its atom.
    pub fn atom(&self) -> &NamedAtom<'s, Static, N>
        ensures { result.now ≡ self.now }
    {
        &self.atom
    }

    /// Its atom, with its share.
    pub fn into_atom(self) -> NamedAtom<'s, Static, N>
        ensures { result ≡ self.entry }
    {
        let ByWord { atom } = self;
        atom
    }
}

/// Compares two numbers, which reads no text and yet tells whether the texts are the same.
impl<'s, Static: StaticTables, N: SetName> PartialEq for ByWord<'s, Static, N> {
    ghost eq = { λ a b. a.word == b.word };

    ghost laws = { Prim.search (comparing, rules) };

    #[inline]
    fn eq(&self, other: &Self) -> bool
        ensures word { result ≡ (self.now.word == other.now.word) }
        ensures text { IsTrue result ↔ (self.now.text ≡ other.now.text) }
    {
        self.atom.agree(&other.atom);
        self.atom.unsafe_data() == other.atom.unsafe_data()
    }
}

impl<'s, Static: StaticTables, N: SetName> Eq for ByWord<'s, Static, N> {
    ghost laws = { Prim.search (comparing, rules) };
}

/// Hashes the word, which is read from the atom itself.
impl<'s, Static: StaticTables, N: SetName> Hash for ByWord<'s, Static, N> {
    ghost hash_input = { λ k. fed.u64 k.word };

    ghost respects_eq = { Prim.search (hashing, rules) };

    #[inline]
    fn hash<H: Hasher>(&self, state: &mut H) {
        state.write_u64(self.atom.unsafe_data());
    }
}
