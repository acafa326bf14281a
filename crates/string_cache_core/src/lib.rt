//! The table of `interner_table`, the core of atomic steps of `atomic_steps`, and the words, hashes and static tables of `text_forms`.
#![tactic(auto)]

pub use atomic_steps::steps;
pub use interner_table::table;
pub use text_forms::{Fault, SipKey, packed_sets, phf, static_sets, word};
