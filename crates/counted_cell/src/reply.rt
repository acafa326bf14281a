//! What adding a share returns.
ghost use Rattle.std.specs.Prelude.{◌≡◌, ◌<◌};
ghost use Rattle.counted_cell.specs.Counting.{CanRead};
ghost use Rattle.counted_cell.specs.Cell.{IsBehind, IsLimited, cell_of};

use crate::cell_ref::{CellRef, Permit, Reading};
use crate::content::{Content, limit_of};
use crate::evidence::{AtLimit, NoShares};
use crate::share::CellShare;
use std::sync::Wait;

/// What adding a share returns. It has no drop, since it may hold a share.
pub enum ShareReply {
    /// The count went up by one, for this share, and this is what it was before.
    Added(CellShare, Reading),
    /// The count was read as 0, so there are no shares any more. Nothing was added: the permit is handed back.
    Dying(NoShares, Permit),
    /// The count was read as the limit. Nothing was added: the permit is handed back.
    Full(AtLimit, Permit),
}

impl ShareReply {
    ghost use Rattle.counted_cell.specs.Reply.{IsReply};

    /// Adds a share of the cell. If another step came between, it tries again from the count that it found.
    #[inline]
    pub(crate) fn one_more<R: Wait>(rt: &R, cell: &CellRef<Content>, permit: Permit) -> ShareReply
        requires reads { CanRead cell.now.right }
        requires permit { permit.name ≡ cell.now.name }
        requires limit { IsLimited cell.now }
        requires place { IsBehind cell.now }
        ensures { IsReply (cell_of cell.now) permit.number result }
    {
        let limit = limit_of(cell);
        let (mut seen, mut reading) = cell.load();
        let mut left = permit;
        for _ in rt.forever() {
            if seen == 0 {
                return ShareReply::Dying(NoShares { reading }, left);
            }
            if seen >= limit {
                return ShareReply::Full(AtLimit { reading }, left);
            }
            let (found, next, more) = cell.increment(seen, left);
            if found == seen {
                return ShareReply::Added(CellShare::of_ref(more), next);
            }
            left = more.unspent();
            seen = found;
            reading = next;
        }
        unreachable!()
    }
}
