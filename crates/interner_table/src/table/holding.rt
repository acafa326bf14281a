//! What a table keeps for a text.

ghost use Rattle.std.specs.Prelude.{◌≡◌, ◌<◌, Some, slice_get};
ghost use Rattle.indexmap.specs.IndexMap.{with_value_at, IsUnique, index_map_len, values};
ghost use Rattle.std.specs.String.{string_eq};
ghost use Rattle.text_forms.specs.Map.{Holding};

use indexmap::IndexMap;
use std::hash::BuildHasher;
use std::marker::Model;

/// The ticket of a text, and the number of its holders.
#[derive(Drop)]
pub struct Holding {
    ticket: u64,
    holders: u64,
}

impl Model for Holding {
    ghost use Rattle.text_forms.specs.Map.{Holding};

    ghost Value = { Holding };

    ghost view = { λ h. record { ticket = h.ticket; holders = h.holders } };
}

impl Holding {
    /// A new text's ticket, with one holder.
    pub fn new(ticket: u64) -> Holding
        ensures { result ≡ record { ticket = ticket; holders = 1 } }
    {
        Holding { ticket, holders: 1 }
    }

    /// The ticket.
    pub fn ticket(&self) -> u64
        ensures { result ≡ self.now.ticket }
    {
        self.ticket
    }

    /// The number of its holders.
    pub fn holders(&self) -> u64
        ensures { result ≡ self.now.holders }
    {
        self.holders
    }
}

/// Sets the number of holders of the text at a place.
pub fn write_holders<H: BuildHasher>(
    entries: &mut IndexMap<String, Holding, H>,
    at: usize,
    holders: u64,
)
    requires { at < index_map_len entries.old }
    ensures written { (held : Holding) → slice_get (values entries.old) at ≡ Some held
        → entries.new ≡ with_value_at entries.old at (record { ticket = held.ticket; holders = holders }) }
    ensures unique { IsUnique string_eq entries.old }
{
    let (_, held) = entries.pair_mut(at);
    held.holders = holders;
}
