//! Scripts of steps that several parties take on one table, in any order: each line is read, the steps are made, and their
//! replies are printed.
//!
//! ```text
//! replay_text(alloc, "1 intern tokenised\n1 link\n1 leave\n")? // "taken\nlinked e1 serial 1\nleft\nheld e1 1\n"
//! ```
//!
//! A line is a party's number and its step, which is one of these, where E is an entry's number and B a bucket's:
//!
//! ```text
//! intern TEXT   sweep B   add eE   clone eE   give eE   unlink eE   free eE   link   link noroom   leave
//! ```
//!
//! Before the first step there may be `limits HOLDERS SERIALS`, the most holders of an entry and serials of a bucket, and then, or alone,
//! `buckets BITS`, for 2 to the power of `BITS` buckets. Numbers are decimal, without a sign or leading zeros.
#![tactic(auto)]

mod faults;
mod line;
mod print;
mod replay;
mod script;

pub use faults::ScriptFault;
pub use replay::{one_output, replay_text};
pub use script::next_line;
