//! The names of elements and attributes that a page has, as a static type: each name's word is a constant.
#![tactic(auto)]

pub mod names;
#[cfg(test)]
mod page;
