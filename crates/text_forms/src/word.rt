//! The word of an atom: an inline text, an index into static tables, or a ticket.

ghost use Rattle.std.specs.Prelude.{◌≡◌, ℕ, ◌-◌, ◌%◌, ◌^◌, ◌<◌, ◌≤◌, ◌↔◌, length, IsSome, IsTrue, IfSome};
ghost use Rattle.std.specs.Str.{IsAscii};
ghost use Rattle.text_forms.specs.Bounds.{AreBounds};
ghost use Rattle.text_forms.specs.Form.{IsFormOf};
ghost use Rattle.text_forms.specs.Layout.{holder_bound, most_bits, most_buckets, serial_bound, usual_bits};
ghost use Rattle.text_forms.specs.Word.{IsInlineText, IsInlineWord, inline_word, ticket_of, static_word, IsTicket};

use std::fmt::{self, Debug, Formatter, Write};
use std::marker::Model;
use std::str;

/// The most buckets that tickets can tell apart.
pub const MOST_BUCKETS: usize = 1 << MOST_BITS;
/// Serials are below this: a ticket has 64 bits.
pub const SERIAL_BOUND: u64 = 1 << 48;
/// Numbers of holders are below this.
pub const HOLDER_BOUND: u64 = 1 << 63;

const BUCKET_SHIFT: u32 = 2; // above the tag

const SERIAL_SHIFT: u32 = 16; // above the bucket

const MOST_BITS: u8 = 14; // of a bucket

const USUAL_BITS: u8 = 12; // if no other number of buckets is chosen

/// A text of at most 7 bytes, as an inline word holds it.
#[derive(Clone, Copy, PartialEq, Eq)]
pub struct InlineText {
    align: [u64; 0], // as a word, so that it is copied as one
    bytes: [u8; 8], // of its word, the low one first
}

impl Model for InlineText {
    ghost use Rattle.std.specs.Prelude.{List, ℕ};

    ghost Value = { List ℕ };

    ghost use Rattle.text_forms.specs.InlineText.{text_of, padded_text, IsPadded};

    ghost view = { text_of };

    ghost invariant = { IsPadded };

    ghost inverse = { padded_text };
}

impl InlineText {
    /// A text of at most 7 bytes. `None` if it is longer.
    #[inline]
    pub fn new(text: &str) -> Option<InlineText>
        ensures short { IsSome result ↔ (length text.now ≤ 7) }
        ensures text { IfSome result (λ inline. inline ≡ text.now) }
    {
        let text = text.as_bytes();
        let len = text.len();
        if len > 7 {
            return None;
        }
        let mut bytes = [0u8; 8];
        bytes[0] = 1 + 16 * len as u8;
        bytes[1..1 + len].copy_from_slice(text);
        Some(InlineText { align: [], bytes })
    }

    /// Its inline word.
    #[inline]
    pub fn word(&self) -> u64
        ensures { result ≡ inline_word self.now }
    {
        u64::from_le_bytes(self.bytes)
    }

    /// The text.
    #[inline]
    pub fn as_str(&self) -> &str
        ensures text { result.now ≡ self.now }
        ensures inline { IsInlineText self.now }
    {
        let len = (self.bytes[0] / 16) as usize;
        // SAFETY: by the type's invariant these bytes are UTF-8, which the proof shows.
        unsafe { str::from_utf8_unchecked(&self.bytes[1..1 + len]) }
    }
}

/// `InlineText`, and the text in quotes.
impl Debug for InlineText {
    fn fmt<W: Write>(&self, f: &mut Formatter<W>) -> fmt::Result {
        f.debug_tuple("InlineText").field(&self.as_str()).finish()
    }
}

/// What a word tells about itself.
#[derive(Clone, Copy, Debug, PartialEq, Eq)]
pub enum Form {
    /// The word of this text.
    Inline(InlineText),
    /// The word of the text at this index of the static tables.
    Static(u32),
    /// The ticket that a bucket gave with a serial.
    Dynamic {
        /// From 1 to `SERIAL_BOUND` - 1.
        serial: u64,
        /// Below `MOST_BUCKETS`.
        bucket: u16,
    },
}

/// The inline word of a text. `None` if the text has more than 7 bytes.
pub fn pack_inline_word(text: &str) -> Option<u64>
    ensures short { IsSome result ↔ (length text.now ≤ 7) }
    ensures word { IfSome result (λ word. word ≡ inline_word text.now) }
{
    let inline = InlineText::new(text)?;
    Some(inline.word())
}

/// Whether all eight bytes are ASCII. No branch depends on one of them, so this is sooner done than reading UTF-8.
#[inline]
fn are_ascii(bytes: &[u8; 8]) -> bool
    ensures { IsTrue result → IsAscii bytes.now }
{
    let low = bytes[0] | bytes[1] | bytes[2] | bytes[3];
    let high = bytes[4] | bytes[5] | bytes[6] | bytes[7];
    low | high < 128
}

/// The text of an inline word. `None` for any other word.
pub fn unpack_inline(word: u64) -> Option<InlineText>
    ensures inline { IsSome result ↔ IsInlineWord word }
    ensures text { IfSome result (λ text. IsInlineText text × (inline_word text ≡ word)) }
{
    let bytes = word.to_le_bytes();
    let len = bytes[0] / 16;
    if bytes[0] % 16 != 1 || len > 7 {
        return None;
    }
    let (text, behind) = bytes[1..].split_at(len as usize);
    if !behind.iter().all(|&byte| byte == 0) {
        return None;
    }
    if are_ascii(&bytes) {
        return Some(InlineText { align: [], bytes });
    }
    match str::from_utf8(text) {
        Ok(_) => Some(InlineText { align: [], bytes }),
        Err(_) => None,
    }
}

/// The word of the text at an index of the static tables.
pub fn static_word(index: u32) -> u64
    ensures { result ≡ static_word index }
{
    u64::from(index) << 32 | 2
}

/// The word of an entry, made of the serial that its bucket gave it and the bucket.
pub fn ticket_word(serial: u64, bucket: u16) -> u64
    requires { IsTicket serial bucket }
    ensures { result ≡ ticket_of serial bucket }
{
    serial << SERIAL_SHIFT | u64::from(bucket) << BUCKET_SHIFT
}

/// What a word tells about itself. `None` if it is the word of nothing.
///
/// Whether there is a text at a static index is for the static type to say.
pub fn form_of(word: u64) -> Option<Form>
    ensures { IsFormOf word result }
{
    if let Some(text) = unpack_inline(word) {
        return Some(Form::Inline(text));
    }
    let serial = word >> SERIAL_SHIFT;
    if word & 0xffff_ffff == 2 {
        Some(Form::Static((word >> 32) as u32))
    } else if word & 3 == 0 && serial > 0 {
        Some(Form::Dynamic {
            serial,
            bucket: ((word >> BUCKET_SHIFT) % MOST_BUCKETS as u64) as u16,
        })
    } else {
        None
    }
}

/// A number of buckets: 2 to the power of its bits, from 1 bucket to `MOST_BUCKETS`. In a clause it is its bits.
#[derive(Clone, Copy, Debug, PartialEq, Eq)]
pub struct Buckets {
    bits: u8,
}

impl Model for Buckets {
    ghost use Rattle.std.specs.Prelude.{ℕ, ◌≤◌};
    ghost use Rattle.text_forms.specs.Layout.{most_bits};

    ghost Value = { ℕ };

    ghost view = { λ b. b.bits };

    ghost invariant = { λ b. b.bits ≤ most_bits };

    ghost inverse = { λ v. record { bits = v } };
}

impl Buckets {
    /// The number of buckets with this number of bits, from 0 to 14. `None` if there are more.
    pub fn new(bits: u8) -> Option<Buckets>
        ensures range { IsSome result ↔ (bits ≤ most_bits) }
        ensures bits { IfSome result (λ buckets. buckets ≡ bits) }
    {
        if bits > MOST_BITS {
            return None;
        }
        Some(Buckets { bits })
    }

    /// The usual number of buckets, which has 12 bits.
    pub fn usual() -> Buckets
        ensures { result ≡ usual_bits }
    {
        Buckets { bits: USUAL_BITS }
    }

    /// The bits of the number of buckets.
    pub fn bits(&self) -> u8
        ensures value { result ≡ self.now }
        ensures range { result ≤ most_bits }
    {
        self.bits
    }

    /// The number of buckets.
    #[tactic(auto, using(crate::proofs::BucketCounts::number_range))]
    pub fn number(&self) -> usize
        ensures value { result ≡ 2 ^ self.now }
        ensures range { (1 ≤ result) × (result ≤ most_buckets) }
    {
        1 << self.bits
    }

    /// The bucket of a dynamic text with this hash: the low bits of the hash.
    #[inline]
    pub fn bucket_of(&self, hash: u64) -> u16
        ensures bucket { result ≡ hash % 2 ^ self.now }
        ensures below { result < 2 ^ self.now }
        ensures range { result < most_buckets }
    {
        (hash % self.number() as u64) as u16
    }
}

/// The most holders of an entry, and the greatest serial of a bucket.
#[derive(Clone, Copy, Debug, PartialEq, Eq)]
pub struct Limits {
    holders: u64,
    serials: u64,
}

impl Model for Limits {
    ghost use Rattle.text_forms.specs.Bounds.{Bounds, AreBounds};

    ghost Value = { Bounds };

    ghost view = { λ l. record { holders = l.holders; serials = l.serials } };

    ghost invariant = { λ l. AreBounds l.holders l.serials };

    ghost inverse = { λ v. record { holders = v.holders; serials = v.serials } };
}

impl Limits {
    /// Limits of 1 to `HOLDER_BOUND` - 1 holders and 1 to `SERIAL_BOUND` - 1 serials. `None` outside these ranges.
    pub fn new(holders: u64, serials: u64) -> Option<Limits>
        ensures range { IsSome result ↔ AreBounds holders serials }
        ensures limits { IfSome result (λ l. l ≡ record { holders = holders; serials = serials }) }
    {
        if holders == 0 || holders >= HOLDER_BOUND || serials == 0 || serials >= SERIAL_BOUND {
            return None;
        }
        Some(Limits { holders, serials })
    }

    /// The greatest limits.
    pub fn greatest() -> Limits
        ensures { result ≡ record { holders = holder_bound - 1; serials = serial_bound - 1 } }
    {
        Limits {
            holders: HOLDER_BOUND - 1,
            serials: SERIAL_BOUND - 1,
        }
    }

    /// The most holders of an entry.
    pub fn holders(&self) -> u64
        ensures value { result ≡ self.now.holders }
        ensures range { (1 ≤ result) × (result < holder_bound) }
    {
        self.holders
    }

    /// The greatest serial of a bucket.
    pub fn serials(&self) -> u64
        ensures value { result ≡ self.now.serials }
        ensures range { (1 ≤ result) × (result < serial_bound) }
    {
        self.serials
    }
}
