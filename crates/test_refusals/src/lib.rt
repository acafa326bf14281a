//! What tests of calls have in common: how a refused request is watched, and what they ask of counts.
#![tactic(auto)]

mod counts;
mod watched;

pub use counts::are;
pub use watched::{End, Refusal, at_last, begin, finish, finishes_refused};
