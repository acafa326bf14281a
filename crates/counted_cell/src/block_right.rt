//! The right to get a cell's block back.
ghost use Rattle.std.specs.Prelude.{◌≡◌, ◌≤◌, Bool, ℕ};
ghost use denote.RawPtr.{Ptr};
ghost use Rattle.counted_cell.specs.Counting.{CellName, cell_name_coded, owner_right, share_right, sole_right};
ghost use Rattle.counted_cell.specs.BlockRight.{block_right_owns};

use crate::cell_ref::CellRef;
use crate::header::Header;
use crate::placed::PlacedValue;
use std::marker::{Model, PhantomData};

/// The right to get back the block of a cell, which is at `ptr`, once nobody reads it any more. It takes no space. Its drop forgets it.
#[derive(Drop)]
pub struct BlockRight<T> {
    mark: PhantomData<*const T>,
    pub ghost ptr: { Ptr },
    pub ghost value: { T },
    pub ghost name: { CellName } by { cell_name_coded },
}

impl<T> Model for BlockRight<T> {
    ghost also_owns = { λ d. block_right_owns T.row d.ptr d.value d.name };
}

/// Turns a block whose count is 1 into a cell. Returns the right to get the block back, the owner's reference, and the first share's. From here on
/// its `kind` limits how many shares there may be at a time, and says whether more can be added freely.
pub fn begin<T>(whole: PlacedValue<Header<T>>) -> (BlockRight<T>, CellRef<T>, CellRef<T>)
    ghost kind: { ℕ × Bool }
    requires { (whole.value.count ≡ 1) × (1 ≤ kind.0) }
    ensures { (result.0.name.limit ≡ kind.0) × (result.0.name.grows ≡ kind.1) × (result.0.ptr ≡ whole.ptr) × (result.1.ptr ≡ whole.ptr) × (result.2.ptr ≡ whole.ptr) × (result.0.value ≡ whole.value.value) × (result.1.value ≡ whole.value.value) × (result.2.value ≡ whole.value.value) × (result.1.name ≡ result.0.name) × (result.2.name ≡ result.0.name) × (result.1.right ≡ owner_right) × (result.2.right ≡ share_right) }
{
    let PlacedValue { ptr } = whole;
    (
        BlockRight { mark: PhantomData },
        CellRef { ptr },
        CellRef { ptr },
    )
}

/// The block again, at the end of an owner that has the cell to itself.
pub fn reclaim<T>(block: BlockRight<T>, sole: CellRef<T>) -> PlacedValue<Header<T>>
    requires { (sole.right ≡ sole_right) × (sole.name ≡ block.name) × (sole.ptr ≡ block.ptr) }
    ensures { (result.ptr ≡ block.ptr) × (result.value.value ≡ block.value) }
{
    let BlockRight { mark: _ } = block;
    let CellRef { ptr } = sole;
    PlacedValue {
        ptr: ptr as *mut Header<T>,
    }
}

unsafe impl<T: Send> Send for BlockRight<T> {}
