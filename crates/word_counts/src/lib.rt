//! The distinct words of a text with their numbers, counted by several workers over one set of interned texts.
#![tactic(auto)]

pub mod count;
