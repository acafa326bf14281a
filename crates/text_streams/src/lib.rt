//! Reads and writes whole inputs and outputs, over readers and writers that remember that they failed or ended, and the errors of a program over
//! them.
#![tactic(auto)]

pub mod faults;
pub mod streams;
