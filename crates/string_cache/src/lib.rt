//! Interned strings, under the names of Rust's `string_cache` 0.11.0 and others that go with them. Nothing is defined here: the atoms are those of
//! `set_atoms`, the sets that threads share those of `counted_set` and, with a name, of `named_set`, the words, hashes and static tables those of
//! `text_forms`, the table for one thread that of `interner_table`, and the core of atomic steps that of `atomic_steps`.

pub use atomic_steps::steps;
pub use counted_set::dynamic_set;
pub use interner_table::table;
pub use named_set::{FreshName, NamedSet, SetName};
pub use set_atoms::{
    Atom, AtomKind, AtomList, ByWord, DefaultAtom, ListOf, NamedAtom, NamedAtomList, SetAtom,
    SetList, SharedSet, TextSet, atom, trivial_impls,
};
pub use text_forms::packed_sets::{Packed, PackedAtomSet, PackedStrSet};
pub use text_forms::static_sets::{EmptyStaticAtomSet, PhfStrSet, StaticAtomSet, StaticTables};
pub use text_forms::{Fault, SipKey, packed_sets, phf, static_sets, word};
