//! Packed static types, which are in `test_packed`.

mod found;
mod held;
