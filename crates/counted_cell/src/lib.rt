//! A text on the heap, in one block with its hash, its ticket and a count, read by one owner and by counted shares.
//!
//! The count is the number of shares that weren't given back. It goes up only from one or more and below the cell's limit, by one, and down only when
//! a share is given back. At 0 no share is left and none ever will be, so the owner's end, which reads the count, frees the block if it is 0 and
//! leaves it otherwise. Each step on the count is one atomic operation, and all are sequentially consistent.
//!
//! All code that follows pointers is in `cell_ref`, `block_right`, `block`, `places` and `placed`, a few lines per function.
#![tactic(auto)]

mod block;
mod block_right;
mod cell_log;
mod cell_ref;
mod content;
mod ending;
mod evidence;
mod grant;
mod header;
mod label;
mod note;
mod owner;
mod placed;
mod places;
mod reply;
mod share;
mod text;

pub use cell_log::{CellLog, LogSeen};
pub use cell_ref::{Permit, Reading, Receipt};
pub use ending::Ending;
pub use evidence::{AtLimit, CountSeen, NoShares, SharesLeft};
pub use grant::{FreeGrant, Grant};
pub use label::Label;
pub use owner::Owner;
pub use reply::ShareReply;
pub use share::{CellShare, Given};
