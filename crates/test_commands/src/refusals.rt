//! Calls that are refused memory, or a thread. `gate/refusals/refused.py` runs each of these tests once for each request for memory that comes
//! between the two lines printed around its call, or in `starts` for each start of a thread, and has that request refused; those of `whole` are run
//! once, with none refused. With all at hand they pass as any test does.

mod programs;
mod starts;
mod whole;

pub use programs::numbered_words;
