//! What an owner's end leaves.
use crate::evidence::{NoShares, SharesLeft};

/// How an owner ended. The load that ends it decides, so nothing comes between.
#[derive(Drop)]
pub enum Ending {
    /// The count was read as 0, and the block was given back to the allocator.
    Freed(NoShares),
    /// The count was read as 1 or more. The block stays for the shares that are left, and is never freed.
    Left(SharesLeft),
}
