//! A text in bytes that belong to a block, with the limit of its cell's shares.
ghost use Rattle.std.specs.Prelude.{◌≡◌, ◌+◌, ◌*◌, ◌/◌, ◌^◌, ◌<◌, ◌≤◌, List, ℕ, drop, length, map, replicate, take, true, None, Some, IsUtf8};
ghost use Rattle.counted_cell.specs.Text as spec;
ghost use Rattle.counted_cell.specs.Text.{begun, ArePart, length_in, limit_in, most_shares, somes, text_in};
ghost use Rattle.std.proofs.Props.{props};

use crate::places::{Places, PlacesPtr};
use std::mem::size_of;

/// The most shares that a cell without a limit of its own may have.
const MOST_SHARES: u64 = (1 << 63) - 1;

/// What is added to the number that tells a text's length if a limit lies behind the text.
const LIMITED: usize = 1 << 63;

/// Texts are shorter than this, and nobody has so many shares.
const FAR: u64 = 1 << 62;

/// How many bytes a limit takes behind a text: none if it is the greatest.
pub(crate) fn limit_size(limit: u64) -> usize
    ensures { result ≡ spec.limit_size limit }
{
    if limit == MOST_SHARES {
        0
    } else {
        size_of::<u64>()
    }
}

/// The owner of the bytes of a text, and of its cell's limit behind them if that isn't the greatest. Its holder knows where they are, at a fixed
/// distance after a header. Its drop gives nothing back: the block's end does.
#[derive(Drop)]
pub struct Text {
    sized: usize, // the text's length, and `LIMITED` more if a limit lies behind it
    pub(crate) places: Places<u8>,
    ghost row: { places.slots ≡ map Some (somes places.slots) } by { Prim.hlevel props },
    ghost long: { length (somes places.slots) ≡ length_in sized + sized / 2 ^ 63 * 8 } by { Prim.hlevel props },
    ghost own: { spec.limit_size (limit_in sized (somes places.slots)) ≡ sized / 2 ^ 63 * 8 } by { Prim.hlevel props },
    ghost utf8: { IsUtf8 (text_in sized (somes places.slots)) } by { Prim.hlevel props },
}

impl Text {
    /// Copies the text into empty places, and behind it the limit, if that isn't the greatest.
    pub(crate) fn write(start: PlacesPtr<u8>, places: Places<u8>, text: &str, limit: u64) -> Text
        requires start { start.ptr ≡ places.at }
        requires room { places.slots ≡ replicate (length text.now + spec.limit_size limit) None }
        requires few { length text.now < 2 ^ 63 }
        requires limit { limit ≤ most_shares }
        ensures text { text_in result.sized (somes result.places.slots) ≡ text.now }
        ensures limit { limit_in result.sized (somes result.places.slots) ≡ limit }
        ensures place { (result.places.at ≡ places.at) × (length result.places.slots ≡ length text.now + spec.limit_size limit) }
    {
        let bytes = text.as_bytes();
        let mut places = places;
        copy(start, &mut places, 0, bytes);
        if limit == MOST_SHARES {
            return Text {
                sized: bytes.len(),
                places,
            };
        }
        copy(start, &mut places, bytes.len(), &limit.to_le_bytes());
        Text {
            sized: bytes.len() + LIMITED,
            places,
        }
    }

    /// The text, as it is in the block from `start` on. Nothing is copied or checked.
    pub(crate) fn as_str(&self, start: PlacesPtr<u8>) -> &str
        requires { start.ptr ≡ self.now.places.at }
        ensures { result.now ≡ text_in self.now.sized (somes self.now.places.slots) }
    {
        unsafe { std::str::from_utf8_unchecked(self.places.slice(start, 0, self.len())) }
    }

    /// The number of its bytes.
    #[inline]
    pub(crate) fn len(&self) -> usize
        ensures { result ≡ length (text_in self.now.sized (somes self.now.places.slots)) }
    {
        self.sized % LIMITED
    }

    /// The limit.
    #[inline]
    pub(crate) fn limit(&self, start: PlacesPtr<u8>) -> u64
        requires { start.ptr ≡ self.now.places.at }
        ensures { result ≡ limit_in self.now.sized (somes self.now.places.slots) }
    {
        if self.sized < LIMITED {
            MOST_SHARES
        } else {
            self.own_limit(start)
        }
    }

    /// Whether so many shares are far fewer than the limit, which is the greatest then: one comparison tells both. Of a cell with a limit of its own
    /// it is never said.
    #[inline]
    #[tactic(auto, using(crate::proofs::Texts::far_below))]
    pub(crate) fn is_far_above(&self, shares: u64) -> bool
        ensures { result ≡ true → shares < limit_in self.now.sized (somes self.now.places.slots) }
    {
        shares | (self.sized as u64) < FAR
    }

    // The limit that lies behind the text.
    #[cold]
    #[inline(never)]
    fn own_limit(&self, start: PlacesPtr<u8>) -> u64
        requires place { start.ptr ≡ self.now.places.at }
        requires own { 2 ^ 63 ≤ self.now.sized }
        ensures { result ≡ limit_in self.now.sized (somes self.now.places.slots) }
    {
        let bytes = self.places.slice(start, self.len(), size_of::<u64>());
        match bytes.first_chunk::<8>() {
            Some(limit) => u64::from_le_bytes(*limit),
            None => unreachable!(),
        }
    }

    /// The number of its bytes and of the limit's behind it.
    pub(crate) fn size(&self) -> usize
        ensures { result ≡ length self.now.places.slots }
    {
        self.len() + self.sized / LIMITED * size_of::<u64>()
    }

    /// The number of all bytes, and the bytes.
    pub(crate) fn into_bytes(self) -> (usize, Places<u8>)
        ensures { (result.1 ≡ self.places) × (result.0 ≡ length self.places.slots) }
    {
        let size = self.size();
        let Self { sized: _, places } = self;
        (size, places)
    }
}

// Copies the bytes into empty places from this one on. They are some of those that the places will have.
fn copy(start: PlacesPtr<u8>, places: &mut Places<u8>, from: usize, bytes: &[u8])
    requires place { start.ptr ≡ places.old.at }
    requires empty { (all : List ℕ) × (places.old.slots ≡ begun all from) × ArePart all from bytes.now }
    requires few { from + length bytes.now < 2 ^ 64 }
    ensures begun { (all : List ℕ) → places.old.slots ≡ begun all from → ArePart all from bytes.now → places.new.slots ≡ begun all (from + length bytes.now) }
    ensures place { places.new.at ≡ places.old.at }
{
    let mut count = 0;
    while count < bytes.len() {
        places.write(start, from + count, bytes[count]);
        count += 1;
    }
}
