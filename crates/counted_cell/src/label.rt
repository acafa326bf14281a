//! What a cell is made with besides its text.

/// The numbers of a cell, which never change.
#[derive(Clone, Copy)]
pub struct Label {
    /// The hash of the text.
    pub hash: u64,
    /// The number under which the text is known.
    pub ticket: u64,
    /// The most shares of the cell that there may be at a time. It takes no memory if it is 2^63 - 1.
    pub limit: u64,
}
