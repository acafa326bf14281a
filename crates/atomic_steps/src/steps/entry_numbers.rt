//! The numbers of a bucket's entries, so that a step needn't look at those of other buckets.

ghost use Rattle.std.specs.Prelude.{◌≡◌, ◌<◌, ◌==◌, ◌++◌, ◌∷◌, [], length, MatchOption, OnOk};
ghost use Rattle.std.specs.List.{list_all, position, remove};
ghost use Rattle.std.specs.Option.{option_map};
ghost use Rattle.text_forms.specs.Faults.{RefusesUnchanged};
ghost use Rattle.atomic_steps.specs.Steps.{dying_if_linked, entry_at, has, looked_at_if_linked, without_one};
ghost use Rattle.atomic_steps.specs.EntryNumbers.{passes_at};

use super::world_entry::WorldEntry;
use std::alloc::Global;
use std::marker::Model;
use text_forms::Fault;

/// Whether the number is one of them.
pub fn contains(numbers: &[u64], number: u64) -> bool
    ensures { result ≡ has numbers.now number }
{
    numbers.iter().any(|other| *other == number)
}

/// The first place of the number.
fn place_in(numbers: &[u64], number: u64) -> Option<usize>
    ensures { result ≡ position (λ x. x == number) numbers.now }
{
    numbers.iter().position(|other| *other == number)
}

/// The first place of the number.
fn spot_of(numbers: &[u64], number: u64) -> Option<usize>
    ensures { MatchOption result (without_one number numbers.now ≡ numbers.now) (λ at. (at < length numbers.now) × (without_one number numbers.now ≡ remove numbers.now at)) }
{
    place_in(numbers, number)
}

/// The entry with that number, counted from 1.
fn entry_of(entries: &[WorldEntry], number: u64) -> Option<&WorldEntry>
    ensures { option_map (λ entry. entry.now) result ≡ entry_at entries.now number }
{
    entries.get(number.checked_sub(1)? as usize)
}

/// Whether the entry was looked at, if it is linked in the bucket.
fn looked_at_if_linked(entries: &[WorldEntry], number: u64, bucket: u16, looked: &[u64]) -> bool
    ensures { result ≡ passes_at (looked_at_if_linked bucket looked.now) entries.now number }
{
    match entry_of(entries, number) {
        None => true,
        Some(entry) => !entry.is_linked_in(bucket) || contains(looked, number),
    }
}

/// Whether the entry was found dying, if it is linked with the text.
fn dying_if_linked(entries: &[WorldEntry], number: u64, text: &str, dying: &[u64]) -> bool
    ensures { result ≡ passes_at (dying_if_linked dying.now text.now) entries.now number }
{
    match entry_of(entries, number) {
        None => true,
        Some(entry) => !entry.is_linked_of(text) || contains(dying, number),
    }
}

#[derive(Drop)]
pub struct EntryNumbers {
    numbers: Vec<u64>,
}

impl Model for EntryNumbers {
    ghost use Rattle.std.specs.Prelude.{List, ℕ};

    ghost Value = { List ℕ };

    ghost view = { λ a. a.numbers.items };
}

impl EntryNumbers {
    /// No numbers yet.
    pub fn new(alloc: Global) -> EntryNumbers
        ensures { result ≡ [] }
    {
        EntryNumbers {
            numbers: Vec::new(alloc),
        }
    }

    /// Adds a number at the end. `Memory` if there is no room, and then nothing changes.
    pub fn add(&mut self, number: u64) -> Result<(), Fault>
        ensures ok { OnOk result (self.new ≡ self.old ++ number ∷ []) }
        ensures err { RefusesUnchanged self.old result self.new }
    {
        self.numbers.reserve(1)?;
        self.numbers.push_reserved(number);
        Ok(())
    }

    /// Takes out the first place of the number.
    pub fn take_out(&mut self, number: u64)
        ensures { self.new ≡ without_one number self.old }
    {
        let Some(at) = spot_of(&self.numbers, number) else {
            return;
        };
        self.numbers.remove(at);
    }

    /// Whether each entry that is linked in the bucket was looked at.
    pub fn all_seen(&self, entries: &[WorldEntry], bucket: u16, looked: &[u64]) -> bool
        ensures { result ≡ list_all (passes_at (looked_at_if_linked bucket looked.now) entries.now) self.now }
    {
        self.numbers.iter().all(|number| looked_at_if_linked(entries, *number, bucket, looked))
    }

    /// Whether each entry that is linked with the text was found dying.
    pub fn all_dying(&self, entries: &[WorldEntry], text: &str, dying: &[u64]) -> bool
        ensures { result ≡ list_all (passes_at (dying_if_linked dying.now text.now) entries.now) self.now }
    {
        self.numbers
            .iter()
            .all(|number| dying_if_linked(entries, *number, text, dying))
    }
}
