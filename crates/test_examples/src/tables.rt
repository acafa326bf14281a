//! The programs over a table.

mod asked;
mod compared;
mod kept;
mod kinds;
mod words;
