//! Grants: permission to add one share to whichever of some cells it turns out to be.
ghost use Rattle.std.specs.Prelude.{◌≡◌, Bool, true, ℕ};
ghost use Rattle.counted_cell.specs.Counting.{CellName};

use crate::cell_ref::Permit;
use crate::owner::Owner;
use std::alloc::Global;

/// Permission to add one share to one of some cells, for callers that can't tell beforehand which cell it will be, such as a pass over a bucket.
///
/// A call that is generic over it takes one, and either gives a share or hands it back. It can't make one itself or turn one into two, so what it
/// answers is all that it added.
pub trait Grant: Drop {
    /// The cells that it is good for.
    ghost may: { CellName → Type 0 };

    /// Whether the cells that are made for it get more shares freely.
    ghost grows: { Bool };

    /// The permits that are made from one.
    ghost permits: { CellName → ℕ → Type 0 };

    /// The permit for a cell.
    fn permit(self, owner: &Owner<Global>) -> Permit
        requires { may owner.now.name }
        ensures name { result.name ≡ owner.now.name }
        ensures permits { permits result.name result.number };

    /// What an unspent permit was made from.
    fn of_permit(permit: Permit) -> Self
        requires { permits permit.name permit.number };

    /// It is good for each cell that is made for it.
    ghost covers: { (t : CellName) → t.grows ≡ grows → may t };
}

/// A grant for cells that get more shares, as every cell that is made does. It costs nothing, and anyone can have as many as they like.
#[derive(Drop)]
pub struct FreeGrant;

impl Grant for FreeGrant {
    ghost use Rattle.std.specs.Prelude.{⊤};

    ghost may = { λ t. t.grows ≡ true };

    ghost grows = { true };

    ghost permits = { λ _ _. ⊤ };

    #[inline]
    fn permit(self, owner: &Owner<Global>) -> Permit {
        owner.permit()
    }

    #[inline]
    fn of_permit(_permit: Permit) -> FreeGrant {
        FreeGrant
    }

    ghost covers = { λ _ grows. grows };
}
