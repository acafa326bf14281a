//! The changes of a state.

ghost use Rattle.std.specs.Prelude.{◌≡◌, ◌+◌, ◌-◌, ◌<◌, ◌≤◌, List, ℕ, [], ◌∷◌, ◌++◌, length, IfOk, OnOk, IsSome, slice_get, slice_set, Some};
ghost use Rattle.std.specs.List.{remove};
ghost use Rattle.std.specs.Option.{option_map};
ghost use Rattle.std.specs.String.{string_bytes};
ghost use Rattle.text_forms.specs.Faults.{RefusesUnchanged};
ghost use Rattle.text_forms.specs.Layout.{holder_bound, most_buckets, serial_bound};
ghost use Rattle.atomic_steps.specs.EntryNumbers.{AreWithin};
ghost use Rattle.text_forms.specs.Word.{ticket_of};
ghost use Rattle.atomic_steps.specs.Sound.{SoundTable};
ghost use Rattle.atomic_steps.specs.Steps.{decides, finds_dying, last_of, looks_at, take_bucket, with_one, without_one};

use super::State;
use crate::steps::party_pass::PartyPass;
use crate::steps::world_entry::{Place, WorldEntry};
use text_forms::Fault;
use text_forms::word::ticket_word;

impl State {
    ghost use Rattle.atomic_steps.specs.World as world;

    #[tactic(auto, unfolding(crate::specs::Steps::take_bucket))]
    pub(super) fn start_pass(
        &mut self,
        party: u32,
        bucket: u16,
        wanted: Option<String>,
    ) -> Result<(), Fault>
        requires { bucket < most_buckets }
        ensures ok { OnOk result (self.new ≡ (take_bucket self.old party bucket (option_map (λ text. string_bytes text) wanted)).1) }
        ensures err { RefusesUnchanged self.old result self.new }
    {
        let alloc = *self.passes.allocator();
        self.passes.reserve(1)?;
        self.passes.push_reserved(PartyPass {
            party,
            bucket,
            wanted,
            dying: Vec::new(alloc),
            looked: Vec::new(alloc),
        });
        Ok(())
    }

    /// Ends the pass, and frees its bucket.
    pub(super) fn end_pass(&mut self, at: usize)
        requires { at < length self.old.passes }
        ensures { self.new ≡ record self.old { passes = remove self.old.passes at } }
    {
        self.passes.remove(at);
    }

    /// Notes that the pass has looked at the entry. After `Memory` nothing has changed.
    pub(super) fn look_at(&mut self, at: usize, number: u64) -> Result<(), Fault>
        requires { at < length self.old.passes }
        ensures ok { (pass : world.PartyPass) → slice_get self.old.passes at ≡ Some pass
            → OnOk result (self.new ≡ record self.old { passes = slice_set self.old.passes at (looks_at pass number) }) }
        ensures err { RefusesUnchanged self.old result self.new }
    {
        let pass = &mut self.passes[at];
        pass.look_at(number)
    }

    /// Notes that the pass has found the entry dying. After `Memory` nothing has changed.
    pub(super) fn find_dying(&mut self, at: usize, number: u64) -> Result<(), Fault>
        requires { at < length self.old.passes }
        ensures ok { (pass : world.PartyPass) → slice_get self.old.passes at ≡ Some pass
            → OnOk result (self.new ≡ record self.old { passes = slice_set self.old.passes at (finds_dying pass number) }) }
        ensures err { RefusesUnchanged self.old result self.new }
    {
        let pass = &mut self.passes[at];
        pass.find_dying(number)
    }

    /// The pass wants no text any more.
    pub(super) fn decide(&mut self, at: usize)
        requires { at < length self.old.passes }
        ensures { (pass : world.PartyPass) → slice_get self.old.passes at ≡ Some pass
            → self.new ≡ record self.old { passes = slice_set self.old.passes at (decides pass) } }
    {
        let pass = &mut self.passes[at];
        pass.decide();
    }

    /// Looks at the entry, and decides.
    pub(super) fn decide_on(&mut self, at: usize, number: u64) -> Result<(), Fault>
        requires { at < length self.old.passes }
        ensures ok { (pass : world.PartyPass) → slice_get self.old.passes at ≡ Some pass
            → OnOk result (self.new ≡ record self.old { passes = slice_set self.old.passes at (decides (looks_at pass number)) }) }
        ensures err { RefusesUnchanged self.old result self.new }
    {
        let pass = &mut self.passes[at];
        pass.look_at(number)?;
        pass.decide();
        Ok(())
    }

    /// Adds a holder. Returns the ticket, and how many hold it now.
    pub(super) fn add_share(&mut self, k: usize) -> (u64, u64)
        requires entry { k < length self.old.entries }
        requires sound { SoundTable self.old.entries self.old.lasts self.old.bag }
        requires fits { (entry : world.WorldEntry) → slice_get self.old.entries k ≡ Some entry → (0 < entry.count) × (entry.count < holder_bound) }
        ensures { (entry : world.WorldEntry) → slice_get self.old.entries k ≡ Some entry
            → (result.0 ≡ entry.ticket) × (result.1 ≡ entry.count + 1) × (self.new ≡ record self.old {
              entries = slice_set self.old.entries k (record entry { count = entry.count + 1 });
              bag = with_one entry.ticket self.old.bag;
            }) }
    {
        let entry = &mut self.entries[k];
        entry.add_holder();
        (entry.ticket, entry.count)
    }

    /// Takes a holder. Returns how many are left.
    pub(super) fn give_share(&mut self, k: usize) -> u64
        requires entry { k < length self.old.entries }
        requires sound { SoundTable self.old.entries self.old.lasts self.old.bag }
        requires held { (entry : world.WorldEntry) → slice_get self.old.entries k ≡ Some entry → 0 < entry.count }
        ensures { (entry : world.WorldEntry) → slice_get self.old.entries k ≡ Some entry
            → (result ≡ entry.count - 1) × (self.new ≡ record self.old {
              entries = slice_set self.old.entries k (record entry { count = entry.count - 1 });
              bag = without_one entry.ticket self.old.bag;
            }) }
    {
        let entry = &mut self.entries[k];
        entry.drop_holder();
        entry.count
    }

    /// Links a new entry with the text that the pass wants. Returns its number and its ticket. All growth comes before the first change.
    pub(super) fn link_entry(&mut self, at: usize, serial: u64) -> Result<(u64, u64), Fault>
        requires pass { at < length self.old.passes }
        requires below { AreWithin self.old }
        requires sound { SoundTable self.old.entries self.old.lasts self.old.bag }
        requires wanted { (pass : world.PartyPass) → slice_get self.old.passes at ≡ Some pass → IsSome pass.wanted × (serial ≡ last_of self.old pass.bucket + 1) }
        requires serial { (1 ≤ serial) × (serial < serial_bound) }
        ensures ok { (pass : world.PartyPass) (text : List ℕ) → slice_get self.old.passes at ≡ Some pass → pass.wanted ≡ Some text
            → IfOk result (λ linked. (linked.0 ≡ length self.old.entries + 1) × (linked.1 ≡ ticket_of serial pass.bucket) × (self.new ≡ record self.old {
              lasts = slice_set self.old.lasts pass.bucket serial;
              entries = self.old.entries ++ record { text = text; bucket = pass.bucket; ticket = ticket_of serial pass.bucket; count = 1; place = Place.Linked } ∷ [];
              passes = slice_set self.old.passes at (decides (looks_at pass (length self.old.entries + 1)));
              bag = with_one (ticket_of serial pass.bucket) self.old.bag;
            })) }
        ensures err { RefusesUnchanged self.old result self.new }
    {
        self.entries.reserve(1)?;
        let number = self.entries.len() as u64 + 1;
        let pass = &mut self.passes[at];
        let bucket = pass.bucket;
        let listed = &mut self.linked[bucket as usize];
        let text = pass.link(number, listed)?;
        let ticket = ticket_word(serial, bucket);
        self.lasts[bucket as usize] = serial;
        self.entries.push_reserved(WorldEntry {
            text,
            bucket,
            ticket,
            count: 1,
            place: Place::Linked,
        });
        Ok((number, ticket))
    }

    /// Takes the entry out of the list of the pass's bucket.
    pub(super) fn set_unlinked(&mut self, at: usize, k: usize, party: u32)
        requires pass { at < length self.old.passes }
        requires below { AreWithin self.old }
        requires entry { k < length self.old.entries }
        ensures { (entry : world.WorldEntry) → slice_get self.old.entries k ≡ Some entry
            → self.new ≡ record self.old { entries = slice_set self.old.entries k (record entry { place = Place.UnlinkedBy party }) } }
    {
        let pass = &self.passes[at];
        self.linked[pass.bucket as usize].take_out(k as u64 + 1);
        let entry = &mut self.entries[k];
        entry.unlink(party);
    }

    /// The entry is freed.
    pub(super) fn set_freed(&mut self, k: usize)
        requires { k < length self.old.entries }
        ensures { (entry : world.WorldEntry) → slice_get self.old.entries k ≡ Some entry
            → self.new ≡ record self.old { entries = slice_set self.old.entries k (record entry { place = Place.Freed }) } }
    {
        let entry = &mut self.entries[k];
        entry.free();
    }
}
