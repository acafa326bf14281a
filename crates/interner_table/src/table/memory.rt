//! The memory that a table takes.

ghost use Rattle.std.specs.Prelude.{◌≡◌, ◌+◌, ◌*◌, ◌^◌, ◌<◌, ◌≤◌, max, min};
ghost use Rattle.interner_table.specs.Memory.{IsMemory, group_places, text_group_size, ticket_group_size};

use super::Table;
use super::holding::Holding;
use std::hash::BuildHasher;
use std::mem::size_of;
use text_forms::static_sets::StaticTables;

/// The places in a group of a map. A map grows by whole groups.
const GROUP_PLACES: usize = 9;

/// The bytes of a group of a map's index: twelve tags, four more bytes, and twelve numbers of places.
const INDEX_GROUP: usize = 64;

/// The bytes of a place in a map's index: the hash of what is there, and where its number is kept.
const INDEX_PLACE: usize = 8;

/// The bytes of a group of the map of texts, with its places.
const TEXT_GROUP: usize = INDEX_GROUP
    + GROUP_PLACES * (INDEX_PLACE + size_of::<String>() + size_of::<Holding>());

/// The bytes of a group of the map of tickets, with its places.
const TICKET_GROUP: usize = INDEX_GROUP + GROUP_PLACES * (INDEX_PLACE + size_of::<u64>());

/// The most places that each of a table's two maps has reported. The maps keep them all, but a map reports a place that an entry left only after it
/// has put its index in order again.
#[derive(Drop)]
pub(super) struct Room {
    texts: usize,
    tickets: usize,
}

impl Room {
    /// That of two maps without places.
    pub(super) fn none() -> Room {
        Room {
            texts: 0,
            tickets: 0,
        }
    }

    /// Notes the places that the maps report.
    pub(super) fn note(&mut self, texts: usize, tickets: usize) {
        self.texts = self.texts.max(texts);
        self.tickets = self.tickets.max(tickets);
    }
}

impl<S: StaticTables, H: BuildHasher> Table<S, H> {
    /// The bytes that the table has asked for and still holds: the last serials of its buckets, its two maps with their free places, and the texts.
    /// If room was refused while a map grew, what the map got before that isn't counted until it has grown.
    ///
    /// The table itself, which is wherever its owner keeps it, isn't counted.
    pub fn memory(&self) -> u128
        ensures { IsMemory self.now result }
    {
        let _ = self.entries.len(); // its contract says that this is below 2^63
        let texts = groups(self.room.texts.max(self.entries.capacity()));
        let tickets = groups(self.room.tickets.max(self.tickets.capacity()));
        bytes_of(self.lasts.len(), self.bytes, texts, tickets)
    }
}

/// The bytes of this many last serials, of the texts, and of this many groups of each map.
fn bytes_of(serials: usize, text_bytes: u128, text_groups: u128, ticket_groups: u128) -> u128
    requires texts { text_bytes < 2 ^ 127 }
    requires text_groups { text_groups ≤ 2 ^ 64 }
    requires ticket_groups { ticket_groups ≤ 2 ^ 64 }
    ensures { result ≡ 8 * serials + text_bytes + text_groups * text_group_size + ticket_groups * ticket_group_size + min ticket_groups 1 }
{
    let lasts = serials as u128 * size_of::<u64>() as u128;
    let units = ticket_groups.min(1); // a block for values without bytes is requested as one byte
    let groups = text_groups * TEXT_GROUP as u128 + ticket_groups * TICKET_GROUP as u128;
    lasts + text_bytes + groups + units
}

/// The number of groups that have this many places.
fn groups(places: usize) -> u128
    ensures enough { places ≤ result * group_places }
    ensures few { result ≤ 2 ^ 64 }
{
    places.div_ceil(GROUP_PLACES) as u128
}
