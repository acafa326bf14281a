//! Atoms of sets that threads share: texts that are inline, static, or shares of a set. One atom type serves any set, with or without a name: `Atom`
//! is that of `counted_set`, `NamedAtom` that of `named_set`.
#![tactic(auto)]

pub mod atom;
pub mod by_word;
mod counted;
mod form;
pub mod held;
mod named;
pub mod shared;
pub mod trivial_impls;

pub use atom::{
    Atom, AtomKind, AtomList, AtomOf, DefaultAtom, ListOf, NamedAtom, NamedAtomList, SetAtom,
    SetList,
};
pub use by_word::ByWord;
pub use held::{Ahead, BareText, Beside, HeldText, ListedSet, TakesBack, TextSet};
pub use shared::SharedSet;
