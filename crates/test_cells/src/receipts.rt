//! What a caller knows about the receipts of two shares.
ghost use Rattle.std.specs.Prelude.{◌≡◌};

use counted_cell::{CellShare, Receipt};

/// Gives both shares back, and returns the receipt of the first.
pub fn first_receipt(first: CellShare, second: CellShare) -> Receipt
    ensures { (result.name ≡ first.cell.name) × (result.number ≡ first.number) }
{
    let (receipt, _) = first.give().parts();
    drop(second.give());
    receipt
}
