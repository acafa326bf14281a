//! What a world keeps. It keeps no bag of tickets: an entry's count is how often the bag has its ticket.

ghost use Rattle.std.specs.Prelude.{◌≡◌, ℕ, ◌%◌, ◌^◌, ◌<◌, ◌≤◌, ◌==◌, ◌&&◌, not, nat_lt, List, length, IfOk, OnErr, MatchOption, IfSome, IfNone, is_none, slice_get, Some, None, true, false};
ghost use Rattle.std.specs.List.{position, list_all};
ghost use Rattle.std.specs.Option.{option_map, option_map_or};
ghost use Rattle.text_forms.specs.Layout.{holder_bound, most_buckets, serial_bound};
ghost use Rattle.atomic_steps.specs.World.{is_unlinked_by};
ghost use Rattle.atomic_steps.specs.Sound.{SoundTable};
ghost use Rattle.atomic_steps.specs.Steps.{all_found_dying, all_looked_at, entry_at, has, is_free, is_linked_in, last_of, opening, pass_of, wants};
ghost use Rattle.atomic_steps.specs.EntryNumbers.{AreWithin};
ghost use Rattle.atomic_steps.specs.Places.{PassAt, EntryAt};

mod changes;
mod rows;

use super::entry_numbers::EntryNumbers;
use super::party_pass::PartyPass;
use super::world_entry::WorldEntry;
use std::alloc::Global;
use std::marker::Model;
use text_forms::Fault;
use text_forms::word::{Buckets, Limits};

#[derive(Drop)]
pub struct State {
    limits: Limits,
    buckets: Buckets,
    lasts: Vec<u64>,
    entries: Vec<WorldEntry>,
    /// For each bucket, the numbers of its linked entries.
    linked: Vec<EntryNumbers>,
    passes: Vec<PartyPass>,
}

impl Model for State {
    ghost use Rattle.std.specs.Prelude.{◌≡◌, length};
    ghost use Rattle.atomic_steps.specs.World as world;
    ghost use Rattle.atomic_steps.specs.Places.{held_places};
    ghost use Rattle.atomic_steps.specs.EntryNumbers.{AreListsKept};

    ghost Value = { world.World };

    ghost view = { λ a. record { limits = a.limits; lasts = a.lasts.items; entries = a.entries.items; passes = a.passes.items; bag = held_places a.entries.items } };

    ghost invariant = { λ a. AreListsKept a.buckets a.entries.items a.lasts.items a.linked.items };
}

/// Where the party's pass is among them.
fn place_of(passes: &[PartyPass], party: u32) -> Option<usize>
    ensures { result ≡ position (λ pass. pass.party == party) passes.now }
{
    passes.iter().position(|pass| pass.party == party)
}

/// Whether no pass has the bucket.
fn is_free(passes: &[PartyPass], bucket: u16) -> bool
    ensures { result ≡ list_all (λ pass. not (pass.bucket == bucket)) passes.now }
{
    passes.iter().all(|pass| pass.bucket != bucket)
}

/// That many empty lists. `Memory` if there is no room for them.
fn empty_lists(alloc: Global, count: usize) -> Result<Vec<EntryNumbers>, Fault>
    ensures ok { IfOk result (λ lists. length lists.items ≡ count) }
    ensures err { OnErr result (result ≡ Err Fault.Memory) }
{
    let mut lists = Vec::with_capacity(alloc, count)?;
    for _turn in 0..count {
        lists.push(EntryNumbers::new(alloc))?;
    }
    Ok(lists)
}

impl State {
    ghost use Rattle.atomic_steps.specs.World as world;

    /// A state with these limits and buckets, without entries or passes. `Memory` if there is no room.
    pub fn new(alloc: Global, limits: Limits, buckets: Buckets) -> Result<State, Fault>
        ensures ok { IfOk result (λ state. state ≡ opening limits (2 ^ buckets)) }
        ensures few { (1 ≤ 2 ^ buckets) × (2 ^ buckets ≤ most_buckets) }
        ensures err { OnErr result (result ≡ Err Fault.Memory) }
    {
        let count = buckets.number();
        let lasts = vec![in alloc; 0; count]?;
        let linked = empty_lists(alloc, count)?;
        Ok(State {
            limits,
            buckets,
            lasts,
            entries: Vec::new(alloc),
            linked,
            passes: Vec::new(alloc),
        })
    }

    // ---- what is there

    /// Where the party's pass is, if it has one.
    fn pass_place(&self, party: u32) -> Option<usize>
        ensures { MatchOption result (pass_of self.now party ≡ None) (λ at. PassAt self.now party at) }
    {
        place_of(&self.passes, party)
    }

    /// Where the entry with that number, counted from 1, is.
    fn entry_place(&self, number: u64) -> Option<usize>
        ensures { MatchOption result (entry_at self.now.entries number ≡ None) (λ k. EntryAt self.now number k) }
    {
        let k = number.checked_sub(1)? as usize;
        if k < self.entries.len() {
            Some(k)
        } else {
            None
        }
    }

    /// The bucket of a hash.
    fn bucket_of(&self, hash: u64) -> u16
        ensures value { result ≡ hash % length self.now.lasts }
        ensures below { result < most_buckets }
    {
        self.buckets.bucket_of(hash)
    }

    /// The bucket with that number, if there is one.
    fn bucket_at(&self, number: u32) -> Option<u16>
        ensures some { IfSome result (λ bucket. (bucket ≡ number) × (nat_lt number (length self.now.lasts) ≡ true) × (bucket < most_buckets)) }
        ensures none { IfNone result (nat_lt number (length self.now.lasts) ≡ false) }
    {
        if (number as usize) < self.buckets.number() {
            Some(number as u16)
        } else {
            None
        }
    }

    /// The most holders that an entry may have.
    fn holders(&self) -> u64
        ensures value { result ≡ self.now.limits.holders }
        ensures below { result < holder_bound }
    {
        self.limits.holders()
    }

    /// The greatest serial that a bucket may give.
    fn serials(&self) -> u64
        ensures value { result ≡ self.now.limits.serials }
        ensures below { result < serial_bound }
    {
        self.limits.serials()
    }

    /// The last serial that the pass's bucket gave.
    fn last_at(&self, at: usize) -> u64
        requires pass { at < length self.now.passes }
        requires below { AreWithin self.now }
        ensures { (pass : world.PartyPass) → slice_get self.now.passes at ≡ Some pass → result ≡ last_of self.now pass.bucket }
    {
        let pass = &self.passes[at];
        self.lasts[pass.bucket as usize]
    }

    /// How many hold the entry.
    fn count_at(&self, k: usize) -> u64
        requires { k < length self.now.entries }
        ensures { (entry : world.WorldEntry) → slice_get self.now.entries k ≡ Some entry → result ≡ entry.count }
    {
        let entry = &self.entries[k];
        entry.count
    }

    /// How many hold the entry. `None` if no entry has the number.
    pub fn count(&self, entry: u64) -> Option<u64>
        ensures { result ≡ option_map (λ entry. entry.count) (entry_at self.now.entries entry) }
    {
        let k = self.entry_place(entry)?;
        Some(self.count_at(k))
    }

    // ---- tests

    /// Whether the party has no pass, and no pass has the bucket.
    fn is_idle_and_free(&self, party: u32, bucket: u16) -> bool
        ensures { result ≡ (is_none (pass_of self.now party) && is_free self.now bucket) }
    {
        self.pass_place(party).is_none() && is_free(&self.passes, bucket)
    }

    /// Whether the entry is linked in the pass's bucket and has the text that it wants.
    fn may_add(&self, at: usize, k: usize) -> bool
        requires pass { at < length self.now.passes }
        requires entry { k < length self.now.entries }
        ensures { (pass : world.PartyPass) (entry : world.WorldEntry) → slice_get self.now.passes at ≡ Some pass → slice_get self.now.entries k ≡ Some entry
            → result ≡ (is_linked_in pass.bucket entry && wants pass entry.text) }
    {
        let pass = &self.passes[at];
        let entry = &self.entries[k];
        entry.is_linked_in(pass.bucket) && pass.wants(entry.text.as_str())
    }

    /// Whether the pass has found each linked entry of the text dying.
    fn all_dying(&self, at: usize, text: &str) -> bool
        requires pass { at < length self.now.passes }
        requires below { AreWithin self.now }
        requires placed { (pass : world.PartyPass) (k : ℕ) (entry : world.WorldEntry) → slice_get self.now.passes at ≡ Some pass → slice_get self.now.entries k ≡ Some entry
            → entry.text ≡ text.now → entry.bucket ≡ pass.bucket }
        ensures { (pass : world.PartyPass) → slice_get self.now.passes at ≡ Some pass → result ≡ all_found_dying self.now pass text.now }
    {
        let pass = &self.passes[at];
        let listed = &self.linked[pass.bucket as usize];
        listed.all_dying(&self.entries, text, &pass.dying)
    }

    /// Whether the pass wants a text, and found each linked entry of it dying.
    fn may_link(&self, at: usize) -> bool
        requires pass { at < length self.now.passes }
        requires below { AreWithin self.now }
        requires placed { (pass : world.PartyPass) (text : List ℕ) (k : ℕ) (entry : world.WorldEntry) → slice_get self.now.passes at ≡ Some pass → pass.wanted ≡ Some text
            → slice_get self.now.entries k ≡ Some entry → entry.text ≡ text → entry.bucket ≡ pass.bucket }
        ensures { (pass : world.PartyPass) → slice_get self.now.passes at ≡ Some pass
            → result ≡ option_map_or (λ text. all_found_dying self.now pass text) pass.wanted false }
    {
        let pass = &self.passes[at];
        match &pass.wanted {
            None => false,
            Some(text) => self.all_dying(at, text.as_str()),
        }
    }

    /// Whether the entry is linked in the pass's bucket.
    fn may_unlink(&self, at: usize, k: usize) -> bool
        requires pass { at < length self.now.passes }
        requires entry { k < length self.now.entries }
        ensures { (pass : world.PartyPass) (entry : world.WorldEntry) → slice_get self.now.passes at ≡ Some pass → slice_get self.now.entries k ≡ Some entry
            → result ≡ is_linked_in pass.bucket entry }
    {
        let pass = &self.passes[at];
        self.entries[k].is_linked_in(pass.bucket)
    }

    /// Whether the entry was unlinked by the party, and is still there.
    fn may_free(&self, party: u32, k: usize) -> bool
        requires { k < length self.now.entries }
        ensures { (entry : world.WorldEntry) → slice_get self.now.entries k ≡ Some entry → result ≡ is_unlinked_by party entry.place }
    {
        self.entries[k].is_unlinked_by(party)
    }

    /// Whether the pass has looked at each entry of its bucket.
    fn all_seen(&self, at: usize) -> bool
        requires pass { at < length self.now.passes }
        requires below { AreWithin self.now }
        ensures { (pass : world.PartyPass) → slice_get self.now.passes at ≡ Some pass → result ≡ all_looked_at self.now pass }
    {
        let pass = &self.passes[at];
        let listed = &self.linked[pass.bucket as usize];
        listed.all_seen(&self.entries, pass.bucket, &pass.looked)
    }

    /// Whether the pass wants nothing more.
    fn may_leave(&self, at: usize) -> bool
        requires pass { at < length self.now.passes }
        requires below { AreWithin self.now }
        ensures { (pass : world.PartyPass) → slice_get self.now.passes at ≡ Some pass → result ≡ (is_none pass.wanted && all_looked_at self.now pass) }
    {
        let pass = &self.passes[at];
        !pass.is_undecided() && self.all_seen(at)
    }

    /// Whether the bag has the entry's ticket.
    fn is_held(&self, k: usize) -> bool
        requires entry { k < length self.now.entries }
        requires sound { SoundTable self.now.entries self.now.lasts self.now.bag }
        ensures { (entry : world.WorldEntry) → slice_get self.now.entries k ≡ Some entry → result ≡ has self.now.bag entry.ticket }
    {
        self.count_at(k) > 0
    }
}
