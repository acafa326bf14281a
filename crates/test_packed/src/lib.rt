//! Packed static types for tests, and nothing else: one over names in several scripts, one over a thousand names, and one in which no text is at its
//! place.
#![tactic(auto)]

pub mod dishes;
pub mod elements;
pub mod misplaced;
