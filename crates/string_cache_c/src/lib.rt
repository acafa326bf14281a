//! The table of texts for one thread, for C.
#![tactic(auto)]

mod copies;
mod forms;
mod handle;
mod interning;
mod life;
mod loan;
mod numbered_table;
mod numbers;
mod parts;
mod printed;
mod reading;
mod seat;
mod text_key;
mod texts;
