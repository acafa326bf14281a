//! A value at a pointer, and room for one.
ghost use Rattle.std.specs.Prelude.{◌≡◌};
ghost use Rattle.counted_cell.specs.Placed.{placed_owns};
ghost use Rattle.counted_cell.specs.Block.{room_owns};

use std::marker::Model;

/// The owner of the value at the pointer. Its drop forgets the value.
#[derive(Drop)]
pub struct PlacedValue<B> {
    pub(crate) ptr: *mut B,
    pub ghost value: { B },
}

impl<B> Model for PlacedValue<B> {
    ghost also_owns = { λ l. placed_owns B.row l.ptr l.value };
}

/// The owner of room for a value at the pointer. Its drop forgets the room.
#[derive(Drop)]
pub struct Room<B> {
    pub(crate) ptr: *mut B,
}

impl<B> Model for Room<B> {
    ghost also_owns = { λ r. room_owns B.row r.ptr };
}

/// Moves the value into the room.
pub(crate) fn fill<B>(room: Room<B>, value: B) -> PlacedValue<B>
    ensures { (result.ptr ≡ room.ptr) × (result.value ≡ value) }
{
    let Room { ptr } = room;
    unsafe { ptr.write(value) };
    PlacedValue { ptr }
}

/// Moves the value out of its place, which is then room.
pub(crate) fn take<B>(placed: PlacedValue<B>) -> (Room<B>, B)
    ensures { (result.0.ptr ≡ placed.ptr) × (result.1 ≡ placed.value) }
{
    let PlacedValue { ptr } = placed;
    let value = unsafe { ptr.read() };
    (Room { ptr }, value)
}
