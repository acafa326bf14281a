//! Texts that tests of several modules make, and how values are printed. Proofs of their callers needn't read any of that.

use std::alloc::{AllocError, Global};
use std::fmt::Display;
use std::process::Abort;

/// The text followed by a number of five digits.
pub fn numbered_text(rt: &impl Abort, alloc: Global, text: &str, number: usize) -> String {
    format!(in alloc; "{text}{number:05}").expect(rt, "a text")
}

/// Whether the value is printed like this.
pub fn is_printed_as<D: Display>(alloc: Global, value: &D, text: &str) -> bool {
    let printed: Result<_, AllocError> = format!(in alloc; "{value}");
    match printed {
        Ok(printed) => printed.as_str() == text,
        Err(_) => false,
    }
}
