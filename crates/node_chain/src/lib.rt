//! A chain of nodes on the heap, with a place in it: a walk goes from node to node, and takes out those that it should.
//!
//! Each node holds one item of any type, and leads to the next node by a raw pointer. All code that follows pointers is in `nodes`, a few lines per
//! function; `chain` counts on top of it, and takes and frees the memory.
#![tactic(auto)]

mod chain;
mod nodes;
mod pack;

pub use chain::{NodeChain, StoredChain};
pub use nodes::Node;
pub use pack::Pack;
