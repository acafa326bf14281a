//! An index of cells by the hashes of their texts: open addressing, place by place down from the one where a hash belongs.

ghost use Rattle.std.specs.Prelude.{◌≡◌, ℕ, ◌+◌, ◌^◌, ◌<◌, ◌≤◌, ◌∷◌, ◌++◌, [], length, map, replicate, set, slice_get, vec_len, vec_capacity, false, None, Some, IfOk, IfSome, IfErr, OnOk, OnErr};
ghost use Rattle.std.specs.List.Sorted.{IsPermutation};
ghost use Rattle.counted_cell.specs.Cell.{Cell};
ghost use Rattle.named_set.specs.Places.{cells_in, FoundAt, HasCell, HaveHash};
ghost use Rattle.named_set.specs.Slots as spec;
ghost use Rattle.named_set.specs.Slots.{EndsAbove, HaveShorts, IsFreePlace, IsIndex};
ghost use Rattle.named_set.specs.declared.slots.Slot.TheVariants.{Empty, Full};

use crate::index_key::IndexKey;
use counted_cell::{NoShares, Owner};
use std::alloc::{AllocError, Global};
use std::marker::Model;
use std::mem;

/// So many places lie below those where hashes belong, for cells that find these taken.
const BELOW: usize = 8;

/// What stands at a place: nothing; nothing any more, so that a look goes on below; or a cell, with what the index knows of its hash.
#[derive(Drop)]
pub(crate) enum Slot {
    Empty,
    Gone,
    Full(u32, Owner<Global>),
}

/// The places of an index. In a clause it is what stands at each: a cell, or none.
///
/// From the place where a cell's hash belongs down to the one where it stands, none is empty. So a look for a text begins there, and ends
/// at a place that is empty.
#[derive(Drop)]
pub struct Slots {
    slots: Vec<Slot>,
    key: IndexKey,
    cells: usize, // so many places have a cell
    taken: usize, // so many aren't empty
}

impl Model for Slots {
    ghost use Rattle.std.specs.Prelude.{◌≡◌, List, Option, length, map};
    ghost use Rattle.counted_cell.specs.Cell.{Cell};
    ghost use Rattle.named_set.specs.Places.{cells_in};
    ghost use Rattle.named_set.specs.Slots.{IsIndex, cell_at};

    ghost Value = { List (Option Cell) };

    ghost view = { λ s. map cell_at s.slots.items };

    ghost invariant = { λ s. IsIndex s.key.multiplier s.slots.items × (s.cells ≡ length (cells_in (map cell_at s.slots.items))) };
}

impl Slots {
    /// No places. They will be chosen under this key.
    pub(crate) fn new(alloc: Global, key: IndexKey) -> Slots
        ensures { result ≡ [] }
    {
        Slots {
            slots: Vec::new(alloc),
            key,
            cells: 0,
            taken: 0,
        }
    }

    /// How many cells it has.
    pub(crate) fn len(&self) -> usize
        ensures value { result ≡ length (cells_in self.now) }
        ensures few { result < 2 ^ 63 }
    {
        self.cells
    }

    /// How many places it has.
    pub(crate) fn places(&self) -> usize
        ensures value { result ≡ length self.now }
        ensures few { result < 2 ^ 63 }
    {
        self.slots.len()
    }

    /// Whether an eighth of its places is still empty.
    #[inline]
    pub(crate) fn has_room(&self) -> bool {
        self.taken < self.slots.len() - self.slots.len() / 8
    }

    /// How many bytes its places take.
    pub(crate) fn memory(&self) -> u128 {
        (self.slots.capacity() as u128).saturating_mul(mem::size_of::<Slot>() as u128)
    }

    /// The cell that stands there, if one does.
    #[inline]
    pub(crate) fn at(&self, at: usize) -> Option<&Owner<Global>>
        requires { at < length self.now }
        ensures cell { IfSome result (λ owner. HasCell self.now at owner.now) }
        ensures none { result ≡ None → slice_get self.now at ≡ Some None }
    {
        match &self.slots[at] {
            Slot::Full(_, owner) => Some(owner),
            _ => None,
        }
    }

    /// Where a cell of the text stands, whose hash this is.
    pub(crate) fn position(&self, text: &str, hash: u64) -> Option<usize>
        requires { HaveHash text.now hash (cells_in self.now) }
        ensures { FoundAt self.now text.now result }
    {
        let short = self.key.short_of(hash);
        let mut below = reach(self.slots.len(), short);
        while below > 0 {
            let at = below - 1;
            match &self.slots[at] {
                Slot::Empty => return None,
                Slot::Gone => {}
                Slot::Full(other, owner) => {
                    if *other == short && owner.text() == text {
                        return Some(at);
                    }
                }
            }
            below = at;
        }
        None
    }

    /// Where a cell of this hash stands that has no share left, and what shows it.
    pub(crate) fn dying(&self, hash: u64) -> Option<(usize, NoShares)>
        ensures { IfSome result (λ found. (c : Cell) × HasCell self.now found.0 c × (found.1 ≡ c.name)) }
    {
        let short = self.key.short_of(hash);
        let mut below = reach(self.slots.len(), short);
        while below > 0 {
            let at = below - 1;
            match &self.slots[at] {
                Slot::Empty => return None,
                Slot::Full(other, owner) if *other == short && owner.hash() == hash => {
                    if let Ok(none) = owner.dying() {
                        return Some((at, none));
                    }
                }
                _ => {}
            }
            below = at;
        }
        None
    }

    /// One cell more, if there is a place for it. Otherwise its owner is handed back.
    pub(crate) fn put(&mut self, owner: Owner<Global>) -> Result<(), Owner<Global>>
        ensures added { OnOk result (IsPermutation (owner ∷ cells_in self.old) (cells_in self.new)) }
        ensures back { IfErr result (λ back. back ≡ owner) }
        ensures same { OnErr result (self.new ≡ self.old) }
        ensures places { length self.new ≡ length self.old }
    {
        let short = self.key.short_of(owner.hash());
        let was_empty = put_full(self.slots.as_mut_slice(), short, owner)?;
        self.cells += 1;
        self.taken = self.taken.saturating_add(usize::from(was_empty));
        Ok(())
    }

    /// Takes out the cell that stands there.
    pub(crate) fn take(&mut self, at: usize) -> Owner<Global>
        requires { (c : Cell) × HasCell self.old at c }
        ensures cell { HasCell self.old at result }
        ensures others { IsPermutation (cells_in self.old) (result ∷ cells_in self.new) }
        ensures places { length self.new ≡ length self.old }
    {
        let is_passed = is_passed(self.slots.as_slice(), at);
        let left = if is_passed { Slot::Gone } else { Slot::Empty };
        self.taken = self.taken.saturating_sub(usize::from(!is_passed));
        self.cells -= 1;
        match mem::replace(&mut self.slots[at], left) {
            Slot::Full(_, owner) => owner,
            _ => unreachable!(),
        }
    }

    /// Lays the index out over so many places. Cells that find none go to the spare ones. If there is no memory, all stays.
    pub(crate) fn lay_out(
        &mut self,
        places: usize,
        spare: &mut Vec<Owner<Global>>,
    ) -> Result<(), AllocError>
        ensures cells { IsPermutation (cells_in self.old ++ spare.old.items) (cells_in self.new ++ spare.new.items) }
        ensures places { OnOk result (length self.new ≡ places) }
        ensures same { OnErr result ((self.new ≡ self.old) × (spare.new.items ≡ spare.old.items)) }
    {
        spare.reserve(self.cells)?;
        let slots = empty_slots(*self.slots.allocator(), places)?;
        let before = mem::replace(&mut self.slots, slots);
        let moved = move_all(self.slots.as_mut_slice(), before, spare);
        self.cells = moved;
        self.taken = moved;
        Ok(())
    }
}

// Of so many places, as many lie at the one where a hash belongs, or below.
#[inline]
fn reach(places: usize, short: u32) -> usize
    ensures value { result ≡ spec.reach places short }
    ensures within { result ≤ places }
{
    let upper = places.saturating_sub(BELOW) as u64;
    let above = (upper.saturating_mul(u64::from(short)) >> 32) as usize;
    places.min(above.saturating_add(BELOW + 1))
}

// The first place without a cell from the one down where this hash belongs.
fn free_place(slots: &[Slot], short: u32) -> Option<usize>
    ensures { IfSome result (λ at. IsFreePlace slots.now at short) }
{
    let mut below = reach(slots.len(), short);
    while below > 0 {
        below -= 1;
        match &slots[below] {
            Slot::Full(_, _) => {}
            _ => return Some(below),
        }
    }
    None
}

// A cell at the first free place from the one down where its hash belongs, and whether that place was empty before. Otherwise its owner is
// handed back.
fn put_full(slots: &mut [Slot], short: u32, owner: Owner<Global>) -> Result<bool, Owner<Global>>
    ensures put { OnOk result ((at : ℕ) × IsFreePlace slots.old at short × (slots.new ≡ set slots.old at (Full short owner))) }
    ensures back { IfErr result (λ back. back ≡ owner) }
    ensures same { OnErr result (slots.new ≡ slots.old) }
{
    let Some(at) = free_place(slots, short) else {
        return Err(owner);
    };
    let before = mem::replace(&mut slots[at], Slot::Full(short, owner));
    Ok(matches!(before, Slot::Empty))
}

// Moves the cells of these places into others, and tells how many. Those that find no place go to the spare ones. No cell is read: an old
// place has what is needed of the hash.
fn move_all(slots: &mut [Slot], mut before: Vec<Slot>, spare: &mut Vec<Owner<Global>>) -> usize
    requires { length (cells_in (map spec.cell_at before.items)) + vec_len spare.old ≤ vec_capacity spare.old }
    ensures index { (multiplier : ℕ) → IsIndex multiplier slots.old → HaveShorts multiplier before.items → IsIndex multiplier slots.new }
    ensures cells { IsPermutation (cells_in (map spec.cell_at before.items) ++ (cells_in (map spec.cell_at slots.old) ++ spare.old.items)) (cells_in (map spec.cell_at slots.new) ++ spare.new.items) }
    ensures count { result + length (cells_in (map spec.cell_at slots.old)) ≡ length (cells_in (map spec.cell_at slots.new)) }
    ensures places { length slots.new ≡ length slots.old }
{
    let mut moved = 0;
    while let Some(slot) = before.pop() {
        if let Slot::Full(short, owner) = slot {
            match put_full(slots, short, owner) {
                Ok(_) => moved += 1,
                Err(owner) => spare.push_reserved(owner),
            }
        }
    }
    moved
}

// Whether a look may go on below this place: the next one isn't empty.
fn is_passed(slots: &[Slot], at: usize) -> bool
    requires { at < length slots.now }
    ensures { result ≡ false → EndsAbove slots.now at }
{
    if at == 0 {
        return false;
    }
    match &slots[at - 1] {
        Slot::Empty => false,
        _ => true,
    }
}

// So many places, all empty.
fn empty_slots(alloc: Global, places: usize) -> Result<Vec<Slot>, AllocError>
    ensures { IfOk result (λ slots. slots.items ≡ replicate places Empty) }
{
    let mut slots = Vec::with_capacity(alloc, places)?;
    while slots.len() < places {
        slots.push_reserved(Slot::Empty);
    }
    Ok(slots)
}
