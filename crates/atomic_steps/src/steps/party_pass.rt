//! What a party that holds a bucket does.

ghost use Rattle.std.specs.Prelude.{◌≡◌, ◌==◌, ◌++◌, ◌∷◌, [], IfOk, OnOk, OnErr, Some, IsSome, is_some};
ghost use Rattle.std.specs.String.{string_bytes};
ghost use Rattle.text_forms.specs.Faults.{RefusesUnchanged};

use super::entry_numbers::EntryNumbers;
use std::marker::Model;
use text_forms::Fault;

#[derive(Drop)]
pub struct PartyPass {
    pub party: u32,
    pub bucket: u16,
    pub wanted: Option<String>,
    pub dying: Vec<u64>,
    pub looked: Vec<u64>,
}

impl Model for PartyPass {
    ghost use Rattle.std.specs.Prelude.{◌<◌};
    ghost use Rattle.std.specs.Option.{option_map};
    ghost use Rattle.std.specs.String.{string_bytes};
    ghost use Rattle.text_forms.specs.Layout.{most_buckets};
    ghost use Rattle.atomic_steps.specs.World as world;

    ghost Value = { world.PartyPass };

    ghost view = { λ a. record { party = a.party; bucket = a.bucket; wanted = option_map (λ t. string_bytes t) a.wanted; dying = a.dying.items; looked = a.looked.items } };

    ghost invariant = { λ a. a.bucket < most_buckets };
}

impl PartyPass {
    ghost use Rattle.atomic_steps.specs.Steps.{wants, finds_dying, looks_at, decides};

    /// Whether the pass wants this text.
    pub fn wants(&self, text: &str) -> bool
        ensures { result ≡ wants self.now text.now }
    {
        match &self.wanted {
            None => false,
            Some(wanted) => wanted.as_str() == text,
        }
    }

    /// Whether the pass still wants a text.
    pub fn is_undecided(&self) -> bool
        ensures { result ≡ is_some self.now.wanted }
    {
        self.wanted.is_some()
    }

    /// Notes that the entry was found dying. After `Memory` nothing has changed.
    pub fn find_dying(&mut self, number: u64) -> Result<(), Fault>
        ensures ok { OnOk result (self.new ≡ finds_dying self.old number) }
        ensures err { RefusesUnchanged self.old result self.new }
    {
        self.dying.reserve(1)?;
        self.dying.push_reserved(number);
        Ok(())
    }

    /// Notes that the entry was looked at. After `Memory` nothing has changed.
    pub fn look_at(&mut self, number: u64) -> Result<(), Fault>
        ensures ok { OnOk result (self.new ≡ looks_at self.old number) }
        ensures err { RefusesUnchanged self.old result self.new }
    {
        self.looked.reserve(1)?;
        self.looked.push_reserved(number);
        Ok(())
    }

    /// The pass wants no text any more.
    pub fn decide(&mut self)
        ensures { self.new ≡ decides self.old }
    {
        self.wanted = None;
    }

    /// Adds the number of a new entry to the list and to those looked at, and decides. Returns the pass's text. All growth comes before the first
    /// change.
    pub fn link(&mut self, number: u64, listed: &mut EntryNumbers) -> Result<String, Fault>
        requires { IsSome self.old.wanted }
        ensures text { IfOk result (λ text. self.old.wanted ≡ Some (string_bytes text)) }
        ensures ok { OnOk result ((self.new ≡ decides (looks_at self.old number)) × (listed.new ≡ listed.old ++ number ∷ [])) }
        ensures err { OnErr result ((self.new ≡ self.old) × (listed.new ≡ listed.old) × (result ≡ Err Fault.Memory)) }
    {
        self.looked.reserve(1)?;
        listed.add(number)?;
        self.looked.push_reserved(number);
        Ok(self.wanted.take().unwrap())
    }
}
