//! The table for one thread. The words, hashes and static tables of `text_forms` are here as well.
#![tactic(auto)]

pub mod table;

pub use text_forms::{Fault, SipKey, packed_sets, phf, static_sets, word};
