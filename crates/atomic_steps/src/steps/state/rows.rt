//! The nine steps, each as its row of the table of steps.

ghost use Rattle.std.specs.Prelude.{ℕ, IfOk};
ghost use Rattle.text_forms.specs.Faults.{RefusesUnchanged};
ghost use Rattle.atomic_steps.specs.EntryNumbers.{AreWithin};
ghost use Rattle.text_forms.specs.Tables.{Tables};
ghost use Rattle.atomic_steps.specs.Sound.{SoundTable, SoundWorld};
ghost use Rattle.atomic_steps.specs.Steps.{IsStep};

use super::State;
use crate::steps::{Step, StepReply};
use text_forms::Fault;
use text_forms::static_sets::{StaticTables, TextForm, form_of_text};

impl State {
    /// Begins a pass over the text's bucket that wants the text.
    fn take_intern<S: StaticTables>(
        &mut self,
        party: u32,
        text: &String,
    ) -> Result<StepReply, Fault>
        ensures ok { IfOk result (λ reply. IsStep S.tables self.old party (Step.TakeIntern text.now) reply self.new) }
        ensures err { RefusesUnchanged self.old result self.new }
    {
        let TextForm::Dynamic(hash) = form_of_text::<S>(text.as_str()) else {
            return Ok(StepReply::No);
        };
        let bucket = self.bucket_of(hash);
        if !self.is_idle_and_free(party, bucket) {
            return Ok(StepReply::No);
        }
        let text = text.clone()?;
        self.start_pass(party, bucket, Some(text))?;
        Ok(StepReply::Taken)
    }

    /// Begins a pass over the bucket that wants nothing.
    fn take_sweep(&mut self, party: u32, number: u32) -> Result<StepReply, Fault>
        ensures ok { IfOk result (λ reply. (t : Tables) → IsStep t self.old party (Step.TakeSweep number) reply self.new) }
        ensures err { RefusesUnchanged self.old result self.new }
    {
        let Some(bucket) = self.bucket_at(number) else {
            return Ok(StepReply::No);
        };
        if !self.is_idle_and_free(party, bucket) {
            return Ok(StepReply::No);
        }
        self.start_pass(party, bucket, None)?;
        Ok(StepReply::Taken)
    }

    /// Adds a holder to an entry with the text that the pass wants, unless it is dying or full.
    fn add(&mut self, party: u32, number: u64) -> Result<StepReply, Fault>
        requires { SoundTable self.old.entries self.old.lasts self.old.bag }
        ensures ok { IfOk result (λ reply. (t : Tables) → IsStep t self.old party (Step.Add number) reply self.new) }
        ensures err { RefusesUnchanged self.old result self.new }
    {
        let Some(at) = self.pass_place(party) else {
            return Ok(StepReply::No);
        };
        let Some(k) = self.entry_place(number) else {
            return Ok(StepReply::No);
        };
        if !self.may_add(at, k) {
            return Ok(StepReply::No);
        }
        let count = self.count_at(k);
        if count == 0 {
            self.find_dying(at, number)?;
            return Ok(StepReply::Dying);
        }
        self.decide_on(at, number)?;
        if count >= self.holders() {
            return Ok(StepReply::Full);
        }
        let (ticket, holders) = self.add_share(k);
        Ok(StepReply::Added { ticket, holders })
    }

    /// Links a new entry with the text that the pass wants, if each linked one of it was found dying.
    fn link<S: StaticTables>(&mut self, party: u32, room: bool) -> Result<StepReply, Fault>
        requires { SoundWorld S.tables self.old }
        ensures ok { IfOk result (λ reply. (t : Tables) → IsStep t self.old party (Step.Link room) reply self.new) }
        ensures err { RefusesUnchanged self.old result self.new }
    {
        let Some(at) = self.pass_place(party) else {
            return Ok(StepReply::No);
        };
        if !self.may_link(at) {
            return Ok(StepReply::No);
        }
        let last = self.last_at(at);
        if last >= self.serials() {
            self.decide(at);
            return Ok(StepReply::Spent);
        }
        if !room {
            self.decide(at);
            return Ok(StepReply::Memory);
        }
        let (entry, ticket) = self.link_entry(at, last + 1)?;
        Ok(StepReply::Linked { entry, ticket })
    }

    /// A step of any party, even an idle one.
    fn clone_entry(&mut self, number: u64) -> StepReply
        requires { SoundTable self.old.entries self.old.lasts self.old.bag }
        ensures { (t : Tables) (party : ℕ) → IsStep t self.old party (Step.Clone number) result self.new }
    {
        let Some(k) = self.entry_place(number) else {
            return StepReply::No;
        };
        if !self.is_held(k) {
            return StepReply::No;
        }
        if self.count_at(k) >= self.holders() {
            return StepReply::Full;
        }
        let (_, holders) = self.add_share(k);
        StepReply::Cloned { holders }
    }

    /// A step of any party, even an idle one.
    fn give(&mut self, number: u64) -> StepReply
        requires { SoundTable self.old.entries self.old.lasts self.old.bag }
        ensures { (t : Tables) (party : ℕ) → IsStep t self.old party (Step.Give number) result self.new }
    {
        let Some(k) = self.entry_place(number) else {
            return StepReply::No;
        };
        if !self.is_held(k) {
            return StepReply::No;
        }
        let left = self.give_share(k);
        StepReply::Given { left }
    }

    /// Takes a dying entry out of the list of the pass's bucket, or finds that it is held.
    fn unlink(&mut self, party: u32, number: u64) -> Result<StepReply, Fault>
        requires { AreWithin self.old }
        ensures ok { IfOk result (λ reply. (t : Tables) → IsStep t self.old party (Step.Unlink number) reply self.new) }
        ensures err { RefusesUnchanged self.old result self.new }
    {
        let Some(at) = self.pass_place(party) else {
            return Ok(StepReply::No);
        };
        let Some(k) = self.entry_place(number) else {
            return Ok(StepReply::No);
        };
        if !self.may_unlink(at, k) {
            return Ok(StepReply::No);
        }
        if self.count_at(k) == 0 {
            self.set_unlinked(at, k, party);
            return Ok(StepReply::Unlinked);
        }
        self.look_at(at, number)?;
        Ok(StepReply::Kept)
    }

    /// Frees an entry that the party unlinked.
    fn free(&mut self, party: u32, number: u64) -> StepReply
        ensures { (t : Tables) → IsStep t self.old party (Step.Free number) result self.new }
    {
        let Some(k) = self.entry_place(number) else {
            return StepReply::No;
        };
        if !self.may_free(party, k) {
            return StepReply::No;
        }
        self.set_freed(k);
        StepReply::Freed
    }

    /// Ends the party's pass, if it may end.
    fn leave(&mut self, party: u32) -> StepReply
        requires { AreWithin self.old }
        ensures { (t : Tables) → IsStep t self.old party Step.Leave result self.new }
    {
        let Some(at) = self.pass_place(party) else {
            return StepReply::No;
        };
        if !self.may_leave(at) {
            return StepReply::No;
        }
        self.end_pass(at);
        StepReply::Left
    }

    /// Makes one step of a party. After an `Err` nothing has changed.
    pub fn apply<S: StaticTables>(&mut self, party: u32, step: &Step) -> Result<StepReply, Fault>
        requires { SoundWorld S.tables self.old }
        ensures ok { IfOk result (λ reply. IsStep S.tables self.old party step.now reply self.new) }
        ensures err { RefusesUnchanged self.old result self.new }
    {
        match step {
            Step::TakeIntern(text) => self.take_intern::<S>(party, text),
            Step::TakeSweep(bucket) => self.take_sweep(party, *bucket),
            Step::Add(number) => self.add(party, *number),
            Step::Link(room) => self.link::<S>(party, *room),
            Step::Clone(number) => Ok(self.clone_entry(*number)),
            Step::Give(number) => Ok(self.give(*number)),
            Step::Unlink(number) => self.unlink(party, *number),
            Step::Free(number) => Ok(self.free(party, *number)),
            Step::Leave => Ok(self.leave(party)),
        }
    }
}
