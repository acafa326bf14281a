//! The set of dynamic texts: buckets of counted entries, each behind a lock, and the shares that keep entries. `string_cache`, whose atoms build on
//! it, re-exports the module `dynamic_set`.
#![tactic(auto)]

pub mod dynamic_set;
