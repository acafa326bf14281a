//! The form of a text: a word of 64 bits for a short one, an index for one in static tables, and a hash for any other.
#![tactic(auto)]

mod faults;
pub mod numbers;
pub mod packed_sets;
pub mod phf;
mod sip_key;
pub mod static_sets;
pub mod word;

pub use faults::Fault;
pub use sip_key::{SipHasher, SipKey};
