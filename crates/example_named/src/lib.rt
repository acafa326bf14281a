//! Small programs over a set with a name, as its users write them. Each has a contract that is proved only from the contracts of `named_set` and
//! `set_atoms`. The tests that run them are in `crates/test_examples`.
#![tactic(auto)]

mod atoms;
mod crew;
mod readers;
mod results;
mod symbols;
mod words;

pub use atoms::are_one_name;
pub use crew::crew_agrees;
use named_set::{Held, NamedSet};
pub use readers::{Told, declare_and_look_up_all, look_up_all};
pub use symbols::{Symbols, declare_and_look_up, declare_and_look_up_by_threads};
use text_forms::static_sets::EmptyStaticAtomSet;
pub use words::are_one_word;

/// The set with this name, which has no static texts.
pub type Texts<N> = NamedSet<EmptyStaticAtomSet, N>;

/// A held word of the set with this name.
pub type Word<'s, N> = Held<'s, EmptyStaticAtomSet, N>;
