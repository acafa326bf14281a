//! The atomic steps of a table that many parties share, one after another: a world of buckets and entries, and the nine
//! steps that parties make in it. Whatever steps the parties make, in whatever order, their replies are those of one map
//! from texts to tickets and holders.

ghost use Rattle.std.specs.Prelude.{◌≡◌, ◌+◌, ◌^◌, false, length, IfOk, OnOk, OnErr, Some};
ghost use Rattle.std.specs.Option.{option_map};
ghost use Rattle.text_forms.specs.Faults.{RefusesUnchanged};
ghost use Rattle.text_forms.specs.Layout.{usual_buckets};
ghost use Rattle.atomic_steps.specs.Steps.{IsStep, entry_at, opening};
ghost use Rattle.atomic_steps.specs.Theorem.{HasRun};
ghost use Rattle.atomic_steps.specs.PassSteps.{PassIsSteps};

mod entry_numbers;
mod party_pass;
mod state;
mod world_entry;

use state::State;
use std::alloc::Global;
use std::marker::{Model, PhantomData};
use text_forms::Fault;
use text_forms::static_sets::StaticTables;
use text_forms::word::{Buckets, Limits};

/// A step of a party.
#[derive(Debug, PartialEq, Eq, Drop)]
pub enum Step {
    /// Take the bucket of a dynamic text, to intern the text.
    TakeIntern(String),
    /// Take the bucket of this number, to sweep it.
    TakeSweep(u32),
    /// Add a holder to an entry of the text that is to be interned.
    Add(u64),
    /// Link a new entry of the text that is to be interned, if there is room.
    Link(bool),
    /// Add a holder to an entry that is held.
    Clone(u64),
    /// Take a holder from an entry that is held.
    Give(u64),
    /// Take an entry out of the bucket's list if nobody holds it.
    Unlink(u64),
    /// Free an entry that the party unlinked.
    Free(u64),
    /// Leave the bucket.
    Leave,
}

/// The reply to a step.
#[derive(Clone, Copy, Debug, PartialEq, Eq)]
pub enum StepReply {
    /// The step isn't enabled, and nothing changed.
    No,
    /// The party holds the bucket.
    Taken,
    /// The entry has one more holder: its ticket, and how many hold it now.
    Added {
        /// The entry's ticket.
        ticket: u64,
        /// How many hold it now.
        holders: u64,
    },
    /// Nobody holds the entry, and nobody ever will.
    Dying,
    /// The entry has as many holders as the limits allow.
    Full,
    /// A new entry is linked, with one holder.
    Linked {
        /// The entry's number, from 1.
        entry: u64,
        /// The entry's ticket.
        ticket: u64,
    },
    /// The bucket has given the last ticket that the limits allow.
    Spent,
    /// There was no room for a new entry.
    Memory,
    /// The entry has one more holder.
    Cloned {
        /// How many hold it now.
        holders: u64,
    },
    /// The entry has one holder fewer.
    Given {
        /// How many still hold it.
        left: u64,
    },
    /// The entry left the bucket's list.
    Unlinked,
    /// Somebody holds the entry, and it stays.
    Kept,
    /// The entry is freed.
    Freed,
    /// The party has left the bucket.
    Left,
}

/// A world of buckets and of the entries that were ever linked in them, in which parties make steps.
#[derive(Drop)]
pub struct World<S: StaticTables> {
    state: State,
    of: PhantomData<S>,
}

impl<S: StaticTables> Model for World<S> {
    ghost use Rattle.atomic_steps.specs.World as world;
    ghost use Rattle.atomic_steps.specs.Sound.{SoundWorld};

    ghost Value = { world.World };

    ghost view = { λ a. a.state };

    ghost invariant = { λ a. SoundWorld S.tables a.state };
}

impl<S: StaticTables> World<S> {
    ghost use Rattle.atomic_steps.specs.World as world;
    ghost use Rattle.atomic_steps.specs.World.{is_linked};

    /// A world with the usual number of buckets, in which nothing is linked, nothing is held, and all parties are idle.
    pub fn new(alloc: Global, limits: Limits) -> Result<Self, Fault>
        ensures ok { IfOk result (λ world. world ≡ opening limits usual_buckets) }
        ensures err { OnErr result (result ≡ Err Fault.Memory) }
    {
        World::with_buckets(alloc, limits, Buckets::usual())
    }

    /// A world with these buckets, in which nothing is linked, nothing is held, and all parties are idle.
    pub fn with_buckets(alloc: Global, limits: Limits, buckets: Buckets) -> Result<Self, Fault>
        ensures ok { IfOk result (λ world. world ≡ opening limits (2 ^ buckets)) }
        ensures err { OnErr result (result ≡ Err Fault.Memory) }
    {
        let state = State::new(alloc, limits, buckets)?;
        Ok(World {
            state,
            of: PhantomData,
        })
    }

    /// Makes one step of a party, and returns its reply.
    fn apply(&mut self, party: u32, step: &Step) -> Result<StepReply, Fault>
        ensures ok { IfOk result (λ reply. IsStep S.tables self.old party step.now reply self.new) }
        ensures err { RefusesUnchanged self.old result self.new }
    {
        let reply = self.state.apply::<S>(party, step)?;
        Ok(reply)
    }

    /// Makes one step of a party, and returns its reply. An `Err` is a refusal of the memory that the world itself needs to grow; then nothing has
    /// changed.
    pub fn step(&mut self, party: u32, step: Step) -> Result<StepReply, Fault>
        ensures ok { IfOk result (λ reply. IsStep S.tables self.old party step reply self.new) }
        ensures err { RefusesUnchanged self.old result self.new }
    {
        self.apply(party, &step)
    }

    /// Makes the steps in order, and appends each reply. After an `Err`, for lack of memory, the world is as it was after the steps whose replies
    /// were appended.
    pub fn run(&mut self, steps: &[(u32, Step)], out: &mut Vec<StepReply>) -> Result<(), Fault>
        ensures done { HasRun S.tables self.old steps.now out.old.items out.new.items self.new }
        ensures all { OnOk result (length out.new.items ≡ length out.old.items + length steps.now) }
        ensures err { OnErr result (result ≡ Err Fault.Memory) }
    {
        for s in steps {
            out.reserve(1)?;
            let (party, step) = s;
            let reply = self.apply(*party, step)?;
            out.push_reserved(reply);
        }
        Ok(())
    }

    /// How many hold the entry: 0 once it is unlinked or freed. `None` if no entry has the number.
    pub fn count(&self, entry: u64) -> Option<u64>
        ensures value { result ≡ option_map (λ entry. entry.count) (entry_at self.now.entries entry) }
        ensures unlinked { (gone : world.WorldEntry) → entry_at self.now.entries entry ≡ Some gone → is_linked gone.place ≡ false → result ≡ Some 0 }
    {
        self.state.count(entry)
    }
}

/// Does nothing. Its contract is that any pass over a bucket's list is a sequence of steps that are all enabled, and that the list which they leave
/// is the one that the pass leaves. `S` is what a pass may find, a share: any type.
pub fn pass_is_steps<S>()
    ensures { PassIsSteps S }
{}
