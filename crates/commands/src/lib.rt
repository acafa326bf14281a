//! What the program `atoms` does, command by command, over any reader and writer: the words of a text with how often each occurred before, their
//! counts by several workers, scripts of steps, and static tables. The readers, writers and faults of `text_streams` and the counting of
//! `word_counts` are here as well, and what makes and checks static tables in `generate`.
#![tactic(auto)]

pub mod count;
pub mod generate;
pub mod program;
pub mod replay;
pub mod set_names;
pub mod words;

pub use text_streams::{faults, streams};
