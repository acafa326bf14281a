//! Perfect static tables of a list of texts: made, printed, and checked from their printed form.
//!
//! ```text
//! let tables = generate(alloc, &["sentence", "interned"], 0, 1024)?;
//! let text = format!(in alloc; "{tables}")?;
//! check_tables(alloc, &text)? // true
//! ```
#![tactic(auto)]

pub mod check;
mod displace;
pub mod generate;
mod items;
mod search;
pub mod tables;

// For the tests above.
#[doc(hidden)]
pub use search::{Tried, find_pair};
