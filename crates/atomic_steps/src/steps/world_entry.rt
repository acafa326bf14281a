//! An entry: a text that was linked, how many hold it, and where it is.

ghost use Rattle.std.specs.Prelude.{◌≡◌, ◌+◌, ◌-◌, ◌<◌, ◌==◌, ◌&&◌};
ghost use Rattle.std.specs.Str.{bytes_eq};

use std::marker::Model;

/// Where an entry is.
#[derive(Clone, Copy)]
pub enum Place {
    /// In its bucket's list.
    Linked,
    /// Out of the list, by this party.
    UnlinkedBy(u32),
    Freed,
}

#[derive(Drop)]
pub struct WorldEntry {
    pub text: String,
    pub bucket: u16,
    pub ticket: u64,
    pub count: u64,
    pub place: Place,
}

impl Model for WorldEntry {
    ghost use Rattle.std.specs.String.{string_bytes};
    ghost use Rattle.atomic_steps.specs.World as world;

    ghost Value = { world.WorldEntry };

    ghost view = { λ a. record { text = string_bytes a.text; bucket = a.bucket; ticket = a.ticket; count = a.count; place = a.place } };
}

impl WorldEntry {
    ghost use Rattle.text_forms.specs.Layout.{holder_bound};
    ghost use Rattle.atomic_steps.specs.World.{is_linked, is_unlinked_by};
    ghost use Rattle.atomic_steps.specs.Steps.{is_linked_in};

    /// Whether the entry is linked in this bucket.
    pub fn is_linked_in(&self, bucket: u16) -> bool
        ensures { result ≡ is_linked_in bucket self.now }
    {
        matches!(self.place, Place::Linked) && self.bucket == bucket
    }

    /// Whether the entry is linked and has this text.
    pub fn is_linked_of(&self, text: &str) -> bool
        ensures { result ≡ is_linked self.now.place && bytes_eq self.now.text text.now }
    {
        matches!(self.place, Place::Linked) && self.text.as_str() == text
    }

    /// Whether the party has unlinked the entry, and it isn't freed yet.
    pub fn is_unlinked_by(&self, party: u32) -> bool
        ensures { result ≡ is_unlinked_by party self.now.place }
    {
        match self.place {
            Place::Linked => false,
            Place::UnlinkedBy(other) => other == party,
            Place::Freed => false,
        }
    }

    /// One holder more.
    pub fn add_holder(&mut self)
        requires { self.old.count < holder_bound }
        ensures { self.new ≡ record self.old { count = self.old.count + 1 } }
    {
        self.count += 1;
    }

    /// One holder less.
    pub fn drop_holder(&mut self)
        ensures { self.new ≡ record self.old { count = self.old.count - 1 } }
    {
        self.count = self.count.saturating_sub(1);
    }

    /// The party has unlinked the entry.
    pub fn unlink(&mut self, party: u32)
        ensures { self.new ≡ record self.old { place = Place.UnlinkedBy party } }
    {
        self.place = Place::UnlinkedBy(party);
    }

    /// The entry is freed.
    pub fn free(&mut self)
        ensures { self.new ≡ record self.old { place = Place.Freed } }
    {
        self.place = Place::Freed;
    }
}
