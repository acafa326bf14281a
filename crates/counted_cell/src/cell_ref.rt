//! References to a cell, each with what it may do there, and the steps on its count. Nothing else reads or writes the count.
//!
//! A step is one atomic operation: a load, a compare-and-exchange upwards, or a subtraction. All are sequentially consistent, and the proofs are for
//! that ordering alone: they say nothing about a weaker one.
ghost use Rattle.std.specs.Prelude.{◌≡◌, ◌≢◌, true, ℕ, ◌+◌, ◌^◌, ◌<◌};
ghost use Rattle.counted_cell.specs.Counting.{CellName, cell_name_coded, Right, right_coded, CanRead, no_right, owner_right, share_right, sole_right, permit_right, ref_owns, ref_shares, reading_owns, receipt_owns, permit_owns};
ghost use Rattle.counted_cell.specs.BlockRight.{header_bytes};
ghost use denote.RawPtr.{◌+ₚ◌};

use crate::header::Header;
use crate::places::PlacesPtr;
use atomic_table::exchange;
use std::marker::{Brand, Model, PhantomData};
use std::mem::size_of;
use std::sync::atomic::Ordering::SeqCst;
use std::sync::atomic::raw;

/// A pointer to a cell, with the right that its holder has there. It has no drop, so no right ends unseen: a share's is spent only by `decrement`,
/// the owner's by `close`, what `close` gained by `reclaim`, and none at all by `done`. A struct that holds one and has a drop of its own can be
/// forgotten: then the right is never spent. No two shares of a cell have the same number.
pub struct CellRef<T> {
    pub(crate) ptr: *const Header<T>,
    pub ghost value: { T },
    pub ghost name: { CellName } by { cell_name_coded },
    pub ghost number: { ℕ },
    pub ghost right: { Right } by { right_coded },
}

impl<T> Model for CellRef<T> {
    ghost also_owns = { λ h. ref_owns T.row h.ptr h.value h.name h.number h.right };

    ghost also_shares = { λ h _ κ. ref_shares T.row h.ptr h.value h.name h.right κ };
}

/// What a step on the count found there, or left. If that is 0, no share is left and none ever will be. Only the steps make one.
#[derive(Drop)]
pub struct Reading {
    pub(crate) marker: PhantomData<()>,
    pub ghost name: { CellName } by { cell_name_coded },
    pub ghost count: { ℕ },
}

impl Model for Reading {
    ghost also_owns = { λ s. reading_owns s.name s.count };
}

/// Shows that the share with this number was taken off the count. Only the subtraction makes one. It takes no space.
#[derive(Drop)]
pub struct Receipt {
    marker: PhantomData<()>,
    pub ghost name: { CellName } by { cell_name_coded },
    pub ghost number: { ℕ },
}

impl Model for Receipt {
    ghost also_owns = { λ r. receipt_owns r.name r.number };
}

/// Permission to add one share to a cell. An addition spends it, and one that adds nothing hands it back. It takes no space.
///
/// For a cell that gets more shares, as every cell that is made does, it is nothing, and `CellRef::free` makes one. But nothing that runs can tell
/// such a cell from one that gets none by itself, and there each permit is one of a row that nobody can add to. So a body that adds a share has no
/// permit to hand back.
#[derive(Drop)]
pub struct Permit {
    marker: PhantomData<()>,
    pub ghost name: { CellName } by { cell_name_coded },
    pub ghost number: { ℕ },
}

impl Model for Permit {
    ghost also_owns = { λ p. permit_owns p.name p.number };
}

impl<T> CellRef<T> {
    /// A permit for a cell that gets more shares. It does nothing when it runs.
    #[inline]
    pub fn free(&self) -> Permit
        requires { self.now.name.grows ≡ true }
        ensures { result.name ≡ self.now.name }
    {
        Permit {
            marker: PhantomData,
        }
    }

    /// What the cell holds, which never changes.
    pub fn get(&self) -> &T
        requires { CanRead self.now.right }
        ensures { result.now ≡ self.now.value }
    {
        unsafe { &(*self.ptr).value }
    }

    /// Where the bytes after the header begin.
    pub fn end(&self) -> PlacesPtr<u8>
        requires reads { CanRead self.now.right }
        requires fits { header_bytes T.row < 2 ^ 63 }
        ensures { result.ptr ≡ self.now.ptr +ₚ header_bytes T.row }
    {
        let ptr = self.ptr;
        PlacesPtr {
            ptr: unsafe { (ptr as *mut u8).add(size_of::<Header<T>>()) },
        }
    }

    /// The count.
    pub fn load(&self) -> (u64, Reading)
        requires { CanRead self.now.right }
        ensures { (result.1.name ≡ self.now.name) × (result.1.count ≡ result.0) }
    {
        let ptr = self.ptr;
        let found = unsafe { raw::load::<Brand>(&raw const (*ptr).count, SeqCst) };
        (
            found,
            Reading {
                marker: PhantomData,
            },
        )
    }

    /// Adds a share if the count is still `seen`, which is above 0 and below the limit: one exchange. Returns the count that was found, and the right
    /// to the share if that is `seen`. Then the permit is spent; otherwise `unspent` hands it back.
    pub fn increment(&self, seen: u64, permit: Permit) -> (u64, Reading, CellRef<T>)
        requires reads { CanRead self.now.right }
        requires permit { permit.name ≡ self.now.name }
        requires room { (0 < seen) × (seen < self.now.name.limit) × (seen + 1 < 2 ^ 63) }
        ensures found { (result.1.name ≡ self.now.name) × (result.1.count ≡ result.0) × (result.2.value ≡ self.now.value) × (result.2.name ≡ self.now.name) × (result.2.ptr ≡ self.now.ptr) }
        ensures gained { (result.0 ≡ seen → result.2.right ≡ share_right) × (result.0 ≢ seen → (result.2.right ≡ permit_right) × (result.2.number ≡ permit.number)) }
    {
        let Permit { marker: _ } = permit;
        let ptr = self.ptr;
        let more = seen + 1;
        let found = unsafe { exchange::<Brand>(&raw const (*ptr).count, seen, more) };
        (
            found,
            Reading {
                marker: PhantomData,
            },
            CellRef { ptr },
        )
    }

    /// Takes off one share: one subtraction. Returns the count that it found, a reading of what is left, and the share's receipt.
    ///
    /// It doesn't require that the cell gets more shares. In one that gets none there is no receipt to spare, and nothing that runs can tell such a
    /// cell from another. So a body that lets the share go without a step has no receipt to return.
    pub fn decrement(self) -> (u64, Reading, Receipt)
        requires { self.right ≡ share_right }
        ensures left { (0 < result.0) × (result.1.name ≡ self.name) × (result.1.count + 1 ≡ result.0) }
        ensures receipt { (result.2.name ≡ self.name) × (result.2.number ≡ self.number) }
    {
        let CellRef { ptr } = self;
        let found = unsafe { raw::fetch_sub::<Brand>(&raw const (*ptr).count, 1, SeqCst) };
        (
            found,
            Reading {
                marker: PhantomData,
            },
            Receipt {
                marker: PhantomData,
            },
        )
    }

    /// Ends a reference that gained no share. Returns the permit.
    #[inline]
    pub fn unspent(self) -> Permit
        requires { self.right ≡ permit_right }
        ensures { (result.name ≡ self.name) × (result.number ≡ self.number) }
    {
        let CellRef { ptr: _ } = self;
        Permit {
            marker: PhantomData,
        }
    }

    /// Ends a reference that gained nothing.
    pub fn done(self)
        requires { self.right ≡ no_right }
    {
        let CellRef { ptr: _ } = self;
    }

    /// Ends the owner, by one load. If that found 0, the reference that is returned has the cell to itself.
    pub fn close(self) -> (u64, Reading, CellRef<T>)
        requires { self.right ≡ owner_right }
        ensures found { (result.1.name ≡ self.name) × (result.1.count ≡ result.0) × (result.2.value ≡ self.value) × (result.2.name ≡ self.name) × (result.2.ptr ≡ self.ptr) }
        ensures gained { (result.0 ≡ 0 → result.2.right ≡ sole_right) × (result.0 ≢ 0 → result.2.right ≡ no_right) }
    {
        let CellRef { ptr } = self;
        let found = unsafe { raw::load::<Brand>(&raw const (*ptr).count, SeqCst) };
        (
            found,
            Reading {
                marker: PhantomData,
            },
            CellRef { ptr },
        )
    }
}

/// A law: what is read of a cell that has a share is not 0.
pub fn is_counted<T>(reading: Reading, share: &CellRef<T>)
    requires name { reading.name ≡ share.now.name }
    requires share { share.now.right ≡ share_right }
    ensures { reading.count ≢ 0 }
{
    let _ = share;
}

unsafe impl<T: Send + Sync> Send for CellRef<T> {}

unsafe impl<T: Send + Sync> Sync for CellRef<T> {}
