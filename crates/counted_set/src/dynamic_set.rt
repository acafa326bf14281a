//! The set of dynamic texts, shared by threads: buckets of counted entries, each bucket behind a lock of its own.
//!
//! What is hidden here is public only for proofs and tests: no user needs it.

mod bucket;
mod counts;
mod entries;
mod held;
mod locked;
mod quiet;
mod set;
mod share;
mod visits;

#[doc(hidden)]
pub use bucket::Bucket;
#[doc(hidden)]
pub use counted_cell::{FreeGrant, Grant};
#[doc(hidden)]
pub use counts::{CountReply, Counts, OwnCounts, Pass};
pub use held::Held;
#[doc(hidden)]
pub use held::HeldShare;
pub use set::Set;
#[doc(hidden)]
pub use share::{Entry, Share};
