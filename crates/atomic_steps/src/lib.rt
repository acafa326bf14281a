//! The core of atomic steps: a world of buckets and entries that many parties share, the nine steps that they make in it, and the proof that whatever
//! they do, in whatever order, their replies are those of one map from texts to tickets and holders. `string_cache` re-exports the module `steps`.
#![tactic(auto)]

pub mod steps;
