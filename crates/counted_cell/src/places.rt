//! A row of places behind a pointer, each empty or holding a value.
ghost use Rattle.std.specs.Prelude.{◌≡◌, ◌<◌, List, Option, Some, None, map, length, take, drop, get_or, slice_set, ⊤};
ghost use denote.RawPtr.{Ptr};
ghost use Rattle.counted_cell.specs.Places.{IsRun, places_own, places_lent};

use std::alloc::AllocError;
use std::marker::{Model, PhantomData};
use std::slice;

/// Where a row begins. It owns nothing.
pub struct PlacesPtr<T> {
    pub(crate) ptr: *mut T,
}

impl<T> Clone for PlacesPtr<T> {
    ghost is_clone = { λ x y. y ≡ x };

    ghost is_infallible = { λ _. ⊤ };

    fn clone(&self) -> Result<PlacesPtr<T>, AllocError> {
        Ok(*self)
    }
}

impl<T> Copy for PlacesPtr<T> {}

/// The owner of the places. It takes no space. Its drop forgets what the places hold, and frees nothing.
#[derive(Drop)]
pub struct Places<T> {
    pub(crate) mark: PhantomData<*const T>,
    pub ghost at: { Ptr },
    pub ghost slots: { List (Option T) },
}

impl<T> Model for Places<T> {
    ghost also_owns = { λ c. places_own T.row c.at c.slots };

    ghost also_shares = { λ c _ κ. places_lent T.row c.at c.slots κ };
}

unsafe impl<T: Send> Send for Places<T> {}

unsafe impl<T: Sync> Sync for Places<T> {}

impl<T> Places<T> {
    /// Fills an empty place.
    pub(crate) fn write(&mut self, start: PlacesPtr<T>, index: usize, item: T)
        requires { (start.ptr ≡ self.old.at) × (index < length self.old.slots) × (get_or self.old.slots index None ≡ None) }
        ensures { (self.new.at ≡ self.old.at) × (self.new.slots ≡ slice_set self.old.slots index (Some item)) }
    {
        unsafe { start.ptr.add(index).write(item) }
    }

    /// The `len` values from `from` on.
    pub(crate) fn slice(&self, start: PlacesPtr<T>, from: usize, len: usize) -> &[T]
        requires { (start.ptr ≡ self.now.at) × IsRun self.now.slots from len }
        ensures { take len (drop from self.now.slots) ≡ map Some result.now }
    {
        unsafe { slice::from_raw_parts(start.ptr.add(from), len) }
    }
}
