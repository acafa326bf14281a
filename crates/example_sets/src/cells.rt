//! Reads a counted cell by a share of its own.

ghost use Rattle.std.specs.Prelude.{◌≡◌, true, IfSome, length};

use counted_cell::{Owner, ShareReply};
use std::alloc::Global;
use std::sync::Wait;

/// The length of the cell's text, as one more share of it sees it. `None` if the cell is dying or full. The cell gets more shares, as each that
/// `Owner::new` makes for free grants does.
pub fn length_by_share<R: Wait>(rt: &R, owner: &Owner<Global>) -> Option<usize>
    requires { owner.now.name.grows ≡ true }
    ensures { IfSome result (λ len. len ≡ length owner.now.text) }
{
    match owner.add(rt, owner.permit()) {
        ShareReply::Added(share, _) => {
            let len = share.text().len();
            drop(share.give());
            Some(len)
        }
        ShareReply::Dying(_, _) | ShareReply::Full(_, _) => None,
    }
}
