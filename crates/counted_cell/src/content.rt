//! What an owner and its shares read.
ghost use Rattle.std.specs.Prelude.{◌≡◌};
ghost use Rattle.counted_cell.specs.Counting.{CanRead};
ghost use Rattle.counted_cell.specs.Cell.{IsBehind, IsLimited};

use crate::cell_ref::CellRef;
use crate::note::Note;
use crate::text::Text;

/// The numbers and the text of a cell, and what clauses know besides. The numbers are before the text, so that a look-up that passes the cell reads
/// no further.
#[derive(Drop)]
pub struct Content {
    pub(crate) hash: u64,
    pub(crate) ticket: u64,
    pub(crate) note: Note,
    pub(crate) text: Text,
}

/// The most shares that the cell may have.
#[inline]
pub(crate) fn limit_of(cell: &CellRef<Content>) -> u64
    requires reads { CanRead cell.now.right }
    requires limit { IsLimited cell.now }
    requires place { IsBehind cell.now }
    ensures { result ≡ cell.now.name.limit }
{
    cell.get().text.limit(cell.end())
}
