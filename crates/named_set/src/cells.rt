//! The linked cells of a bucket, each found by its text's hash in a time that doesn't grow with their number.

ghost use Rattle.std.specs.Prelude.{◌≡◌, ◌≤◌, ◌<◌, ◌∷◌, ◌++◌, [], length, map, slice_get, None, Some, OnOk, OnErr, IfSome, IfErr, IsTrue, ◌↔◌};
ghost use Rattle.std.specs.List.Sorted.{IsPermutation};
ghost use Rattle.counted_cell.specs.Cell.{Cell};
ghost use Rattle.named_set.specs.Places.{cells_in, FoundAt, HasCell, HaveHash};

use crate::index_key::IndexKey;
use crate::look::Look;
use crate::slots::Slots;
use counted_cell::{NoShares, Owner};
use std::alloc::Global;
use std::marker::Model;
use std::mem::size_of;

/// So many cells are walked before an index of them is made.
const FEW: usize = 8;

/// The owners of linked cells. A few lie beside each other and are walked. If they are more, an index finds each by its hash, but for one
/// for which there was no place in it: such lie beside it, and are walked. In a clause it is what stands at each place, in no order that
/// counts: a cell, or none.
#[derive(Drop)]
pub struct Cells {
    slots: Slots,
    beside: Vec<Owner<Global>>,
    look: Look,
}

impl Model for Cells {
    ghost use Rattle.std.specs.Prelude.{◌++◌, List, Option, Some, map};
    ghost use Rattle.counted_cell.specs.Cell.{Cell};

    ghost Value = { List (Option Cell) };

    ghost view = { λ s. s.slots ++ map Some s.beside.items };
}

impl Cells {
    /// No cells. The index will hash under this key.
    pub(crate) fn new(alloc: Global, key: IndexKey) -> Cells
        ensures { result ≡ [] }
    {
        Cells {
            slots: Slots::new(alloc, key),
            beside: Vec::new(alloc),
            look: Look::new(),
        }
    }

    /// How many cells there are.
    pub(crate) fn len(&self) -> usize
        ensures { result ≡ length (cells_in self.now) }
    {
        self.slots.len() + self.beside.len()
    }

    /// How many places there are.
    pub(crate) fn places(&self) -> usize
        ensures { result ≡ length self.now }
    {
        self.slots.places() + self.beside.len()
    }

    /// Where those begin that lie beside the index, which has as many places.
    pub(crate) fn first_beside(&self) -> usize
        ensures { result ≤ length self.now }
    {
        self.slots.places()
    }

    /// All places are to be looked at. `next_unseen` tells which are next.
    pub(crate) fn look_at_all(&mut self)
        ensures { self.new ≡ self.old }
    {
        self.look.begin();
    }

    /// Whether places are still to be looked at.
    #[inline]
    pub(crate) fn has_unseen(&self) -> bool {
        self.look.has_unseen()
    }

    /// The next places of those that are still to be looked at, and no more than so many: where they begin, and where they end.
    pub(crate) fn next_unseen(&mut self, most: usize) -> (usize, usize)
        ensures same { self.new ≡ self.old }
        ensures within { result.1 ≤ length self.old }
    {
        let places = self.places();
        self.look.next(places, most)
    }

    /// All were seen.
    pub(crate) fn end_look(&mut self)
        ensures { self.new ≡ self.old }
    {
        self.look.end();
    }

    /// The cell that stands there, if one does.
    #[inline]
    pub(crate) fn at(&self, at: usize) -> Option<&Owner<Global>>
        requires { at < length self.now }
        ensures cell { IfSome result (λ owner. HasCell self.now at owner.now) }
        ensures none { result ≡ None → slice_get self.now at ≡ Some None }
    {
        let first = self.slots.places();
        if at < first {
            self.slots.at(at)
        } else {
            Some(&self.beside[at - first])
        }
    }

    /// Where a cell of the text stands, whose hash this is.
    pub(crate) fn position(&self, text: &str, hash: u64) -> Option<usize>
        requires { HaveHash text.now hash (cells_in self.now) }
        ensures { FoundAt self.now text.now result }
    {
        if let Some(at) = self.slots.position(text, hash) {
            return Some(at);
        }
        let at = position_of(self.beside.as_slice(), text, hash)?;
        Some(self.slots.places() + at)
    }

    /// Where the index has a cell of this hash that has no share left, and what shows it.
    pub(crate) fn dying(&self, hash: u64) -> Option<(usize, NoShares)>
        ensures { IfSome result (λ found. (c : Cell) × HasCell self.now found.0 c × (found.1 ≡ c.name)) }
    {
        self.slots.dying(hash)
    }

    /// One cell more. If there is no memory, its owner is handed back, and the cells are those that they were.
    pub(crate) fn add(&mut self, owner: Owner<Global>) -> Result<(), Owner<Global>>
        ensures added { OnOk result (IsPermutation (owner ∷ cells_in self.old) (cells_in self.new)) }
        ensures back { IfErr result (λ back. back ≡ owner) }
        ensures same { OnErr result (IsPermutation (cells_in self.old) (cells_in self.new)) }
    {
        if self.are_few() {
            return self.add_beside(owner);
        }
        if !self.make_room() {
            return Err(owner);
        }
        self.put(owner)
    }

    // Whether they are walked with one more.
    fn are_few(&self) -> bool {
        self.slots.places() == 0 && self.beside.len() < FEW
    }

    // One cell more, which lies beside the index.
    fn add_beside(&mut self, owner: Owner<Global>) -> Result<(), Owner<Global>>
        ensures added { OnOk result (IsPermutation (owner ∷ cells_in self.old) (cells_in self.new)) }
        ensures back { IfErr result (λ back. back ≡ owner) }
        ensures same { OnErr result (IsPermutation (cells_in self.old) (cells_in self.new)) }
    {
        if let Err(refused) = self.beside.push(owner) {
            return Err(refused.value);
        }
        self.look.again(); // there is one place more
        Ok(())
    }

    // One cell more, in the index if there is a place for it, and otherwise beside it.
    fn put(&mut self, owner: Owner<Global>) -> Result<(), Owner<Global>>
        ensures added { OnOk result (IsPermutation (owner ∷ cells_in self.old) (cells_in self.new)) }
        ensures back { IfErr result (λ back. back ≡ owner) }
        ensures same { OnErr result (IsPermutation (cells_in self.old) (cells_in self.new)) }
    {
        if let Err(owner) = self.slots.put(owner) {
            return self.add_beside(owner);
        }
        Ok(())
    }

    // Whether an eighth of the index is still empty, or could be made so.
    fn make_room(&mut self) -> bool
        ensures { IsPermutation (cells_in self.old) (cells_in self.new) }
    {
        if self.slots.has_room() {
            return true;
        }
        self.lay_out(index_places(self.len().saturating_add(1)))
    }

    // Lays the index out over so many places, and takes into it what lies beside it. Whether there was memory.
    #[cold]
    #[inline(never)]
    fn lay_out(&mut self, places: usize) -> bool
        ensures { IsPermutation (cells_in self.old) (cells_in self.new) }
    {
        let is_laid_out = self.slots.lay_out(places, &mut self.beside).is_ok();
        if is_laid_out {
            index_each(&mut self.slots, &mut self.beside);
        }
        self.beside.shrink_to_fit();
        self.look.again(); // cells stand elsewhere
        is_laid_out
    }

    /// Takes out the one that stands there. Another may stand there then, which stood behind it.
    pub(crate) fn take_out(&mut self, at: usize) -> Owner<Global>
        requires { (c : Cell) × HasCell self.old at c }
        ensures cell { HasCell self.old at result }
        ensures others { IsPermutation (cells_in self.old) (result ∷ cells_in self.new) }
        ensures before { at ≤ length self.new }
    {
        let first = self.slots.places();
        if at < first {
            self.slots.take(at)
        } else {
            self.look.again(); // the last one will stand there
            self.beside.swap_remove(at - first)
        }
    }

    /// Gives back memory of the index, if it would be given less than a quarter of its places.
    pub(crate) fn shrink(&mut self)
        ensures { IsPermutation (cells_in self.old) (cells_in self.new) }
    {
        let enough = index_places(self.len());
        if enough < self.slots.places() / 4 {
            self.lay_out(enough);
        }
    }

    /// How many bytes it has asked for and still holds, without the cells.
    pub(crate) fn memory(&self) -> u128 {
        let owner = size_of::<Owner<Global>>() as u128;
        let beside = owner.saturating_mul(self.beside.capacity() as u128);
        beside.saturating_add(self.slots.memory())
    }
}

// So many places an index of so many cells is given: two for each. Few cells have none.
fn index_places(cells: usize) -> usize {
    if cells <= FEW {
        return 0;
    }
    cells.saturating_mul(2)
}

// Moves into the index what lies beside it, but for cells for which there is no place.
fn index_each(slots: &mut Slots, beside: &mut Vec<Owner<Global>>)
    ensures { IsPermutation (cells_in slots.old ++ beside.old.items) (cells_in slots.new ++ beside.new.items) }
{
    let mut at = beside.len();
    while at > 0 {
        at -= 1;
        index_one(slots, beside, at);
    }
}

// The same of the one that lies there. Those before it stay where they lie.
fn index_one(slots: &mut Slots, beside: &mut Vec<Owner<Global>>, at: usize)
    requires { at < length beside.old.items }
    ensures moved { IsPermutation (cells_in slots.old ++ beside.old.items) (cells_in slots.new ++ beside.new.items) }
    ensures before { at ≤ length beside.new.items }
{
    let owner = beside.swap_remove(at);
    if let Err(owner) = slots.put(owner) {
        beside.push_reserved(owner);
    }
}

// Where one of the text stands, whose hash this is.
fn position_of(owners: &[Owner<Global>], text: &str, hash: u64) -> Option<usize>
    requires { HaveHash text.now hash owners.now }
    ensures { FoundAt (map Some owners.now) text.now result }
{
    let mut at = 0;
    while at < owners.len() {
        if is_of(&owners[at], text, hash) {
            return Some(at);
        }
        at += 1;
    }
    None
}

// Whether it is one of the text, whose hash this is.
fn is_of(owner: &Owner<Global>, text: &str, hash: u64) -> bool
    requires { owner.now.text ≡ text.now → owner.now.label.hash ≡ hash }
    ensures { IsTrue result ↔ (owner.now.text ≡ text.now) }
{
    owner.hash() == hash && owner.text() == text
}
