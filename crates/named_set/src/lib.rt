//! A set of texts with a name that types speak of. Threads share it, and two words that are held of it are equal exactly if their texts are.
//!
//! Beside each bucket lies a log of all cells that were ever linked there, which takes no memory. It shows that a text's next cell is
//! linked only after the last share of the one before has gone, and what is held shows what was seen of it. So the theorem is one of the
//! code that runs, and not of a design: `Held::agree` states it, and `==` compares two numbers.
#![tactic(auto)]

mod bucket;
mod cells;
mod held;
mod index_key;
mod locked;
mod look;
mod name;
mod set;
mod slots;

#[doc(hidden)]
pub use held::HeldShare;
pub use held::{Held, HeldCell};
pub use name::{FreshName, SetName};
pub use set::NamedSet;
