//! One block on the heap: a header, and bytes after it.
ghost use Rattle.std.specs.Prelude.{◌≡◌, ℕ, length, replicate, None, IfOk};
ghost use Rattle.std.specs.Mem.{type_size};
ghost use denote.RawPtr.{Ptr, ◌+ₚ◌};
ghost use Rattle.counted_cell.specs.Block.{IsWhole, free_right_owns};

use crate::placed::Room;
use crate::places::{Places, PlacesPtr};
use std::alloc::{AllocError, Allocator};
use std::marker::{Model, PhantomData};
use std::mem::size_of;

/// The right to give back the block whose header is at `at` with `len` bytes after it. It takes no space.
#[derive(Drop)]
pub struct FreeRight<B, A: Allocator> {
    mark: PhantomData<*const (B, A)>,
    pub ghost at: { Ptr },
    pub ghost len: { ℕ },
    pub ghost alloc: { A },
}

impl<B, A: Allocator> Model for FreeRight<B, A> {
    ghost also_owns = { λ l. free_right_owns B.row (A.dealloc_token l.alloc) l.at l.len };
}

unsafe impl<B, A: Allocator + Send> Send for FreeRight<B, A> {}

/// A block of `size` bytes: room for a header, and `len` empty places for bytes after it.
pub(crate) fn allocate<B, A: Allocator>(
    alloc: &A,
    len: usize,
    size: usize,
    align: usize,
) -> Result<(Room<B>, PlacesPtr<u8>, Places<u8>, FreeRight<B, A>), AllocError>
    requires { IsWhole B.row len size align }
    ensures { IfOk result (λ r. (r.1.ptr ≡ r.0.ptr +ₚ type_size B.row) × (r.2.at ≡ r.1.ptr) × (r.2.slots ≡ replicate len None) × (r.3.at ≡ r.0.ptr) × (r.3.len ≡ len) × (r.3.alloc ≡ alloc.now)) }
{
    match alloc.allocate(size, align) {
        Ok(block) => {
            let start = PlacesPtr {
                ptr: unsafe { block.add(size_of::<B>()) },
            };
            let room = Room {
                ptr: block as *mut B,
            };
            Ok((
                room,
                start,
                Places { mark: PhantomData },
                FreeRight { mark: PhantomData },
            ))
        }
        Err(error) => Err(error),
    }
}

/// Gives the block back to the allocator. What the bytes hold is forgotten.
pub(crate) fn deallocate<B, A: Allocator>(
    alloc: &A,
    room: Room<B>,
    places: Places<u8>,
    free: FreeRight<B, A>,
    size: usize,
    align: usize,
)
    requires { (free.at ≡ room.ptr) × (free.alloc ≡ alloc.now) × IsWhole B.row free.len size align × (places.at ≡ room.ptr +ₚ type_size B.row) × (length places.slots ≡ free.len) }
{
    let Room { ptr } = room;
    let Places { mark: _ } = places;
    let FreeRight { mark: _ } = free;
    unsafe { alloc.deallocate(ptr as *mut u8, size, align) }
}
