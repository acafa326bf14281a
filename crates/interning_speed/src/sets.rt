//! The two kinds of sets whose calls are timed, and what is asked of both.

use named_set::{NamedSet, SetName};
use std::sync::Wait;
use string_cache::dynamic_set::Set;
use string_cache::{Atom, EmptyStaticAtomSet, Fault, NamedAtom, StaticAtomSet};

/// A set that threads share, by what each of them has of it.
pub trait Shared: Copy {
    /// An atom of the set.
    type Atom: Drop + PartialEq;

    /// Interns the texts, and adds their atoms to `atoms`.
    fn intern_all<R: Wait>(
        self,
        rt: &R,
        texts: &[String],
        atoms: &mut Vec<Self::Atom>,
    ) -> Result<(), Fault>;

    /// Clones the atoms, and adds the clones to `clones`.
    fn clone_all<R: Wait>(
        rt: &R,
        atoms: &[Self::Atom],
        clones: &mut Vec<Self::Atom>,
    ) -> Result<(), Fault>;
}

impl<'s, Static: StaticAtomSet> Shared for &'s Set<Static> {
    type Atom = Atom<'s, Static>;

    fn intern_all<R: Wait>(
        self,
        rt: &R,
        texts: &[String],
        atoms: &mut Vec<Atom<'s, Static>>,
    ) -> Result<(), Fault> {
        for text in texts {
            atoms.push(Atom::from_str_in(rt, self, text.as_str())?)?;
        }
        Ok(())
    }

    fn clone_all<R: Wait>(
        rt: &R,
        atoms: &[Atom<'s, Static>],
        clones: &mut Vec<Atom<'s, Static>>,
    ) -> Result<(), Fault> {
        for atom in atoms {
            clones.push(atom.clone_atom(rt)?)?;
        }
        Ok(())
    }
}

impl<'s, N: SetName> Shared for &'s NamedSet<EmptyStaticAtomSet, N> {
    type Atom = NamedAtom<'s, EmptyStaticAtomSet, N>;

    fn intern_all<R: Wait>(
        self,
        rt: &R,
        texts: &[String],
        atoms: &mut Vec<NamedAtom<'s, EmptyStaticAtomSet, N>>,
    ) -> Result<(), Fault> {
        for text in texts {
            atoms.push(NamedAtom::from_str_in(rt, self, text.as_str())?)?;
        }
        Ok(())
    }

    fn clone_all<R: Wait>(
        rt: &R,
        atoms: &[NamedAtom<'s, EmptyStaticAtomSet, N>],
        clones: &mut Vec<NamedAtom<'s, EmptyStaticAtomSet, N>>,
    ) -> Result<(), Fault> {
        for atom in atoms {
            clones.push(atom.clone_atom(rt)?)?;
        }
        Ok(())
    }
}
