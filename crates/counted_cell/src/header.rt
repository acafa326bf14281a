//! What is in a cell's block before the bytes of its text.

/// The count of the shares, and what they read.
#[derive(Drop)]
pub struct Header<T> {
    pub count: u64,
    pub value: T,
}
