//! Atoms of one set in a list that holds the set once.

ghost use Rattle.std.specs.Iterator.{at_most};
ghost use Rattle.std.specs.Map.Iter.{TakesFirst, deref};
ghost use Rattle.std.specs.Prelude.{◌≡◌, ◌≢◌, ◌↔◌, [], ◌∷◌, ◌++◌, length, take, slice_get, IfErr, IfOk, IsTrue, MatchOption, None, OnErr, OnOk, Some};
ghost use Rattle.text_forms.specs.Faults.{IsInternFault};
ghost use Rattle.text_forms.specs.Tables.{is_dynamic};
ghost use Rattle.set_atoms.specs.AtomList.{texts_of};
ghost use Rattle.set_atoms.specs.AtomValue.{AtomValue};

use super::{AtomOf, SetAtom};
use crate::form::Repr;
use crate::held::{BareText, HeldText, ListedSet, TakesBack, TextSet};
use counted_set::dynamic_set::{HeldShare as CountedShare, Set};
use named_set::{HeldShare as NamedShare, NamedSet, SetName};
use std::iter::FusedIterator;
use std::marker::Model;
use std::slice;
use std::sync::Wait;
use text_forms::Fault;
use text_forms::static_sets::StaticTables;

/// A place of a list: what an atom of the list's set is, without the set.
struct Place<Bare: BareText> {
    form: Repr<(), Bare>,
}

impl<Bare: BareText> Model for Place<Bare> {
    ghost use Rattle.std.specs.Prelude.{⊤};
    ghost use Rattle.set_atoms.specs.AtomValue.{AtomValue};

    ghost Value = { AtomValue };

    ghost use Rattle.set_atoms.specs.AtomForm.{value_of_form, IsOwnForm};

    ghost view = { λ p. value_of_form Bare.Static.tables Bare.atom_of p.form };

    ghost invariant = { λ p. IsOwnForm Bare.Static.tables Bare.atom_of (λ beside hash. ⊤) Bare.is_kept Bare.is_ticket p.form };
}

impl<Bare: BareText> Place<Bare> {
    /// The place of an atom. A share stays the same, and isn't counted again.
    fn of_atom<S: ListedSet<Bare>>(atom: SetAtom<S::Held>) -> Self
    where
        Bare: BareText<Static = <S::Held as HeldText>::Static>,
        ensures { result ≡ atom }
    {
        let AtomOf { ahead: _, form } = atom;
        let form = match form {
            Repr::Inline(text) => Repr::Inline(text),
            Repr::Static(index) => Repr::Static(index),
            Repr::Dynamic(_, held) => Repr::Dynamic((), S::bare_of(held)),
        };
        Place { form }
    }

    /// The atom of a place whose list is of this set. A share stays the same, and isn't counted again.
    fn into_atom<S: ListedSet<Bare>>(self, set: S) -> SetAtom<S::Held>
    where
        Bare: BareText<Static = <S::Held as HeldText>::Static>,
        ensures { result ≡ self }
    {
        let Place { form } = self;
        match form {
            Repr::Inline(text) => AtomOf::of_inline(text),
            Repr::Static(index) => AtomOf::of_static(index),
            Repr::Dynamic(_, bare) => AtomOf::of_share(set.again(bare)),
        }
    }

    /// Ends the place of a list of this set: a share is given back.
    fn end<S: TakesBack<Bare>>(self, set: S) {
        let Place { form } = self;
        if let Repr::Dynamic(_, bare) = form {
            set.take_back(bare);
        }
    }

    /// Another atom of the text, of the list's set.
    fn clone_atom<S: ListedSet<Bare>, R: Wait>(
        &self,
        rt: &R,
        set: S,
    ) -> Result<SetAtom<S::Held>, Fault>
    where
        Bare: BareText<Static = <S::Held as HeldText>::Static>,
        ensures same { IfOk result (λ atom. atom ≡ self.now) }
        ensures refused { IfErr result (λ fault. fault ≡ Fault.FullCount) }
        ensures dynamic { OnErr result (IsTrue (is_dynamic S.Held.Static.tables self.now.text)) }
    {
        match &self.form {
            Repr::Inline(text) => Ok(AtomOf::of_inline(*text)),
            Repr::Static(index) => Ok(AtomOf::of_static(*index)),
            Repr::Dynamic(_, bare) => {
                let held = set.clone_bare(rt, bare)?;
                Ok(AtomOf::of_share(held))
            }
        }
    }

    /// The text.
    fn as_str(&self) -> &str
        ensures { result.now ≡ self.now.text }
    {
        match &self.form {
            Repr::Inline(text) => text.as_str(),
            Repr::Static(index) => Bare::Static::text_at(*index),
            Repr::Dynamic(_, bare) => bare.text(),
        }
    }
}

/// A list of atoms of one set. A place has 16 bytes, where an atom has 24 or 32: the list holds the set once.
///
/// When a place ends, by `truncate`, `clear` or the end of the list, a dynamic one gives its share back as an atom does: that never waits. In a
/// clause a list is its atoms, from the first to the last.
pub struct ListOf<S: TakesBack<Bare>, Bare: BareText> {
    set: S,
    places: Vec<Place<Bare>>,
}

/// The list of atoms of a set.
pub type SetList<S> = ListOf<S, <S as TextSet>::Bare>;

/// A list of atoms of a set without a name.
pub type AtomList<'s, Static> = ListOf<&'s Set<Static>, CountedShare<Static>>;

/// A list of atoms of the set with this name.
pub type NamedAtomList<'s, Static, N> = ListOf<&'s NamedSet<Static, N>, NamedShare<Static, N>>;

impl<S: TakesBack<Bare>, Bare: BareText> Model for ListOf<S, Bare> {
    ghost use Rattle.std.specs.Prelude.{List};
    ghost use Rattle.set_atoms.specs.AtomValue.{AtomValue};

    ghost Value = { List AtomValue };

    ghost view = { λ l. l.places.items };
}

/// Gives back the share of each dynamic place, and never waits.
impl<S: TakesBack<Bare>, Bare: BareText> Drop for ListOf<S, Bare> {
    fn drop(mut self) {
        self.clear();
        let Self { set: _, places } = self;
        places.destroy_empty();
    }
}

impl<S: ListedSet<Bare>, Bare: BareText<Static = <S::Held as HeldText>::Static>> ListOf<S, Bare> {
    /// An empty list of this set. It takes no memory.
    pub fn new(set: S) -> Self
        ensures { result ≡ [] }
    {
        ListOf {
            set,
            places: Vec::new(set.allocator()),
        }
    }

    /// Appends the atom of a text, as `Atom::from_str_in` gives it.
    ///
    /// `Memory` if there is no room for one more place or for a new text; `TicketsSpent` and `FullCount` only for a dynamic text, as there. After an
    /// error the list is as it was.
    pub fn push_str<R: Wait>(&mut self, rt: &R, text: &str) -> Result<(), Fault>
        ensures pushed { OnOk result ((atom : AtomValue) × (atom.text ≡ text.now) × (self.new ≡ self.old ++ atom ∷ [])) }
        ensures kept { OnErr result (self.new ≡ self.old) }
        ensures refused { IfErr result IsInternFault }
        ensures dynamic { IfErr result (λ fault. fault ≢ Fault.Memory → IsTrue (is_dynamic S.Held.Static.tables text.now)) }
    {
        self.places.reserve(1)?;
        let atom = AtomOf::from_str_in(rt, self.set, text)?;
        self.places.push_reserved(Place::of_atom::<S>(atom));
        Ok(())
    }

    /// Another atom of the text at a place, counted from 0. `None` past the last.
    ///
    /// The only error is `FullCount`, if the text is dynamic and its entry has as many holders as the set's limits allow.
    pub fn clone_atom<R: Wait>(&self, rt: &R, at: usize) -> Result<Option<SetAtom<S::Held>>, Fault>
        ensures same { IfOk result (λ found. found ≡ slice_get self.now at) }
        ensures refused { IfErr result (λ fault. fault ≡ Fault.FullCount) }
        ensures dynamic { OnErr result ((atom : AtomValue) × (slice_get self.now at ≡ Some atom) × IsTrue (is_dynamic S.Held.Static.tables atom.text)) }
    {
        match self.places.get(at) {
            Some(place) => Ok(Some(place.clone_atom(rt, self.set)?)),
            None => Ok(None),
        }
    }

    /// Takes out the last atom. `None` if there is none.
    pub fn pop(&mut self) -> Option<SetAtom<S::Held>>
        ensures { MatchOption result ((self.old ≡ []) × (self.new ≡ [])) (λ atom. self.old ≡ self.new ++ atom ∷ []) }
    {
        let place = self.places.pop()?;
        Some(place.into_atom(self.set))
    }
}

impl<S: TakesBack<Bare>, Bare: BareText> ListOf<S, Bare> {
    /// The number of atoms.
    pub fn len(&self) -> usize
        ensures { result ≡ length self.now }
    {
        self.places.len()
    }

    /// Whether there are none.
    pub fn is_empty(&self) -> bool
        ensures { IsTrue result ↔ (self.now ≡ []) }
    {
        self.places.is_empty()
    }

    /// The text at a place, counted from 0. `None` past the last.
    pub fn get(&self, at: usize) -> Option<&str>
        ensures { MatchOption result (slice_get (texts_of self.now) at ≡ None) (λ text. slice_get (texts_of self.now) at ≡ Some text.now) }
    {
        let place = self.places.get(at)?;
        Some(place.as_str())
    }

    /// Takes out all but the first `len` atoms, beginning with the last.
    pub fn truncate(&mut self, len: usize)
        ensures { self.new ≡ take len self.old }
    {
        for _turn in len..self.len() {
            self.end_last();
        }
    }

    /// Takes out all atoms. The list keeps the memory of their places.
    pub fn clear(&mut self)
        ensures { self.new ≡ [] }
    {
        self.truncate(0);
    }

    /// The texts, from the first to the last.
    pub fn iter(&self) -> Texts<'_, Bare>
        ensures { result ≡ texts_of self.now }
    {
        Texts {
            left: self.places.iter(),
        }
    }

    /// Ends the last place. `None` if there is none.
    fn end_last(&mut self) -> Option<()>
        ensures { MatchOption result ((self.old ≡ []) × (self.new ≡ [])) (λ ended. (atom : AtomValue) × (self.old ≡ self.new ++ atom ∷ [])) }
    {
        let place = self.places.pop()?;
        place.end(self.set);
        Some(())
    }
}

/// The texts of a list, from the first to the last.
#[derive(Drop)]
pub struct Texts<'l, Bare: BareText> {
    left: slice::Iter<'l, Place<Bare>>,
}

impl<'l, Bare: BareText> Model for Texts<'l, Bare> {
    ghost use Rattle.std.specs.Prelude.{List, ℕ};
    ghost use Rattle.std.specs.Slice.Iter.{iter_rest};
    ghost use Rattle.set_atoms.specs.AtomList.{texts_of};

    ghost Value = { List (List ℕ) };

    ghost view = { λ t. texts_of (iter_rest t.left) };
}

impl<'l, Bare: BareText> Iterator for Texts<'l, Bare> {
    type Item = &'l str;

    ghost next_gives = { TakesFirst deref };

    ghost remaining = { λ texts. at_most (length texts) };

    fn next(&mut self) -> Option<&'l str> {
        let place = self.left.next()?;
        Some(place.as_str())
    }

    fn size_hint(&self) -> (usize, Option<usize>) {
        let left = self.len();
        (left, Some(left))
    }
}

impl<'l, Bare: BareText> ExactSizeIterator for Texts<'l, Bare> {
    fn len(&self) -> usize {
        self.left.len()
    }
}

impl<'l, Bare: BareText> FusedIterator for Texts<'l, Bare> {}

impl<'l, 's, Static: StaticTables> IntoIterator for &'l AtomList<'s, Static> {
    type Item = &'l str;

    type IntoIter = Texts<'l, CountedShare<Static>>;

    ghost into_iter_gives = { λ list texts. texts ≡ texts_of list.now };

    fn into_iter(self) -> Texts<'l, CountedShare<Static>> {
        self.iter()
    }
}

impl<'l, 's, Static: StaticTables, N: SetName> IntoIterator for &'l NamedAtomList<'s, Static, N> {
    type Item = &'l str;

    type IntoIter = Texts<'l, NamedShare<Static, N>>;

    ghost into_iter_gives = { λ list texts. texts ≡ texts_of list.now };

    fn into_iter(self) -> Texts<'l, NamedShare<Static, N>> {
        ListOf::iter(self)
    }
}
