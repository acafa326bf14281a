//! The two kinds of sets that a scene may run over, and what it asks of them.

use crate::seen::Seen;
use crate::texts::Case;
use named_set::{NamedSet, SetName};
use serde_json::Value;
use std::sync::Wait;
use string_cache::dynamic_set::Set;
use string_cache::{AtomList, DefaultAtom, EmptyStaticAtomSet, Fault, NamedAtom, NamedAtomList};

/// A set that threads share, by what each of them has of it.
pub trait Shared: Copy {
    /// An atom of the set.
    type Atom: Drop;

    /// A list of such atoms.
    type List: Drop;

    fn intern<R: Wait>(self, rt: &R, text: &str) -> Result<Self::Atom, Fault>;

    /// The atom of a JSON value's text.
    fn read<R: Wait>(self, rt: &R, value: &Value) -> Result<Self::Atom, Fault>;

    fn find<R: Wait>(self, rt: &R, text: &str) -> Result<Option<Self::Atom>, Fault>;

    /// The atom of the other one's text in this case, or a clone of it.
    fn again<R: Wait>(
        self,
        rt: &R,
        atom: &Self::Atom,
        case: Option<Case>,
    ) -> Result<Self::Atom, Fault>;

    /// An empty list.
    fn list(self) -> Self::List;

    fn push<R: Wait>(rt: &R, list: &mut Self::List, text: &str) -> Result<(), Fault>;

    /// Another atom of the last place, or `None` if there is none.
    fn copy<R: Wait>(rt: &R, list: &Self::List) -> Result<Option<Self::Atom>, Fault>;

    /// The last atom, which is taken out, or `None` if there is none.
    fn pop(list: &mut Self::List) -> Option<Self::Atom>;

    fn clear(list: &mut Self::List);

    /// An atom's ticket, and whether it has this text.
    fn ticket(atom: &Self::Atom, text: &str) -> (u64, bool);

    fn sweep<R: Wait>(self, rt: &R);

    fn linked<R: Wait>(self, rt: &R) -> u128;

    /// Meets each entry.
    fn visit<R: Wait>(self, rt: &R, seen: &mut Seen);

    fn measure<R: Wait>(self, rt: &R);
}

impl<'s> Shared for &'s Set<EmptyStaticAtomSet> {
    type Atom = DefaultAtom<'s>;

    type List = AtomList<'s, EmptyStaticAtomSet>;

    fn intern<R: Wait>(self, rt: &R, text: &str) -> Result<DefaultAtom<'s>, Fault> {
        DefaultAtom::from_str_in(rt, self, text)
    }

    fn read<R: Wait>(self, rt: &R, value: &Value) -> Result<DefaultAtom<'s>, Fault> {
        DefaultAtom::from_json_in(rt, self, value)
    }

    fn find<R: Wait>(self, rt: &R, text: &str) -> Result<Option<DefaultAtom<'s>>, Fault> {
        DefaultAtom::get_in(rt, self, text)
    }

    fn again<R: Wait>(
        self,
        rt: &R,
        atom: &DefaultAtom<'s>,
        case: Option<Case>,
    ) -> Result<DefaultAtom<'s>, Fault> {
        match case {
            None => atom.clone_atom(rt),
            Some(Case::Lower) => atom.to_ascii_lowercase_in(rt, self),
            Some(Case::Upper) => atom.to_ascii_uppercase_in(rt, self),
        }
    }

    fn list(self) -> AtomList<'s, EmptyStaticAtomSet> {
        AtomList::new(self)
    }

    fn push<R: Wait>(
        rt: &R,
        list: &mut AtomList<'s, EmptyStaticAtomSet>,
        text: &str,
    ) -> Result<(), Fault> {
        list.push_str(rt, text)
    }

    fn copy<R: Wait>(
        rt: &R,
        list: &AtomList<'s, EmptyStaticAtomSet>,
    ) -> Result<Option<DefaultAtom<'s>>, Fault> {
        list.clone_atom(rt, list.len().saturating_sub(1))
    }

    fn pop(list: &mut AtomList<'s, EmptyStaticAtomSet>) -> Option<DefaultAtom<'s>> {
        list.pop()
    }

    fn clear(list: &mut AtomList<'s, EmptyStaticAtomSet>) {
        list.clear();
    }

    fn ticket(atom: &DefaultAtom<'s>, text: &str) -> (u64, bool) {
        (atom.unsafe_data(), atom.eq_str(text))
    }

    fn sweep<R: Wait>(self, rt: &R) {
        Set::sweep(self, rt)
    }

    fn linked<R: Wait>(self, rt: &R) -> u128 {
        Set::linked(self, rt)
    }

    fn visit<R: Wait>(self, rt: &R, seen: &mut Seen) {
        self.for_each(rt, |text, holders| seen.meet(text, holders));
    }

    fn measure<R: Wait>(self, rt: &R) {
        let _ = self.memory(rt);
    }
}

impl<'s, N: SetName> Shared for &'s NamedSet<EmptyStaticAtomSet, N> {
    type Atom = NamedAtom<'s, EmptyStaticAtomSet, N>;

    type List = NamedAtomList<'s, EmptyStaticAtomSet, N>;

    fn intern<R: Wait>(
        self,
        rt: &R,
        text: &str,
    ) -> Result<NamedAtom<'s, EmptyStaticAtomSet, N>, Fault> {
        NamedAtom::from_str_in(rt, self, text)
    }

    fn read<R: Wait>(
        self,
        rt: &R,
        value: &Value,
    ) -> Result<NamedAtom<'s, EmptyStaticAtomSet, N>, Fault> {
        NamedAtom::from_json_in(rt, self, value)
    }

    fn find<R: Wait>(
        self,
        rt: &R,
        text: &str,
    ) -> Result<Option<NamedAtom<'s, EmptyStaticAtomSet, N>>, Fault> {
        NamedAtom::get_in(rt, self, text)
    }

    fn again<R: Wait>(
        self,
        rt: &R,
        atom: &NamedAtom<'s, EmptyStaticAtomSet, N>,
        case: Option<Case>,
    ) -> Result<NamedAtom<'s, EmptyStaticAtomSet, N>, Fault> {
        match case {
            None => atom.clone_atom(rt),
            Some(Case::Lower) => atom.to_ascii_lowercase_in(rt, self),
            Some(Case::Upper) => atom.to_ascii_uppercase_in(rt, self),
        }
    }

    fn list(self) -> NamedAtomList<'s, EmptyStaticAtomSet, N> {
        NamedAtomList::new(self)
    }

    fn push<R: Wait>(
        rt: &R,
        list: &mut NamedAtomList<'s, EmptyStaticAtomSet, N>,
        text: &str,
    ) -> Result<(), Fault> {
        list.push_str(rt, text)
    }

    fn copy<R: Wait>(
        rt: &R,
        list: &NamedAtomList<'s, EmptyStaticAtomSet, N>,
    ) -> Result<Option<NamedAtom<'s, EmptyStaticAtomSet, N>>, Fault> {
        list.clone_atom(rt, list.len().saturating_sub(1))
    }

    fn pop(
        list: &mut NamedAtomList<'s, EmptyStaticAtomSet, N>,
    ) -> Option<NamedAtom<'s, EmptyStaticAtomSet, N>> {
        list.pop()
    }

    fn clear(list: &mut NamedAtomList<'s, EmptyStaticAtomSet, N>) {
        list.clear();
    }

    fn ticket(atom: &NamedAtom<'s, EmptyStaticAtomSet, N>, text: &str) -> (u64, bool) {
        (atom.unsafe_data(), atom.eq_str(text))
    }

    fn sweep<R: Wait>(self, rt: &R) {
        NamedSet::sweep(self, rt)
    }

    fn linked<R: Wait>(self, rt: &R) -> u128 {
        NamedSet::linked(self, rt)
    }

    fn visit<R: Wait>(self, rt: &R, seen: &mut Seen) {
        self.for_each(rt, |text, holders| seen.meet(text, holders));
    }

    fn measure<R: Wait>(self, rt: &R) {
        let _ = self.memory(rt);
    }
}
