//! What tests of several crates have in common: static types, names, a text with its counts, keys for tables and maps, and a source that gives none.
#![tactic(auto)]

mod example;
mod key_source;
mod names;
mod statics;

pub use example::{EXAMPLE, EXAMPLE_COUNTS};
pub use key_source::{Refusing, keys};
pub use names::NAMES;
pub use statics::{One, Short, Twice};
