//! The hash of a text (SipHash: Aumasson and Bernstein, 2012), and the place that it gives the text in static tables
//! (hash, displace and compress: Belazzougui, Botelho and Dietzfelbinger, 2009).

ghost use Rattle.std.specs.Prelude.{◌≡◌, ◌+◌, ◌*◌, ◌/◌, ◌%◌, ◌^◌, ◌<◌, ◌≤◌, drop, length};
ghost use Rattle.text_forms.specs.Word.{bytes_value};
ghost use Rattle.text_forms.specs.Phf.{start, round, rounds, absorb, absorb_all, xor_of, sip24_of, hashes_of, hash_of_hashes, place_of};

/// The three hashes of a text.
#[derive(Clone, Copy, Debug, PartialEq, Eq)]
pub struct Hashes {
    /// Picks the pair of displacements.
    pub g: u32,
    /// Is multiplied by the first displacement.
    pub f1: u32,
    /// Is added to the second displacement.
    pub f2: u32,
}

impl Hashes {
    /// The hash of an entry: `g` in the high 32 bits, and `f1` in the low ones.
    pub fn entry_hash(&self) -> u64
        ensures { result ≡ hash_of_hashes self.now }
    {
        let Hashes { g, f1, .. } = *self;
        u64::from(g) << 32 | u64::from(f1)
    }
}

/// The state of SipHash.
#[derive(Clone, Copy)]
pub struct Sip {
    pub(crate) v0: u64,
    pub(crate) v1: u64,
    pub(crate) v2: u64,
    pub(crate) v3: u64,
}

impl Sip {
    #[tactic(auto, unfolding(crate::specs::Phf::start))]
    pub(crate) fn new(k0: u64, k1: u64) -> Sip
        ensures { result ≡ start k0 k1 }
    {
        Sip {
            v0: k0 ^ 0x736f_6d65_7073_6575,
            v1: k1 ^ 0x646f_7261_6e64_6f6d,
            v2: k0 ^ 0x6c79_6765_6e65_7261,
            v3: k1 ^ 0x7465_6462_7974_6573,
        }
    }

    #[tactic(auto, unfolding(crate::specs::Phf::round))]
    fn round(&mut self)
        ensures { self.new ≡ round self.old }
    {
        self.v0 = self.v0.wrapping_add(self.v1);
        self.v1 = self.v1.rotate_left(13) ^ self.v0;
        self.v0 = self.v0.rotate_left(32);
        self.v2 = self.v2.wrapping_add(self.v3);
        self.v3 = self.v3.rotate_left(16) ^ self.v2;
        self.v0 = self.v0.wrapping_add(self.v3);
        self.v3 = self.v3.rotate_left(21) ^ self.v0;
        self.v2 = self.v2.wrapping_add(self.v1);
        self.v1 = self.v1.rotate_left(17) ^ self.v2;
        self.v2 = self.v2.rotate_left(32);
    }

    #[tactic(auto, unfolding(crate::specs::Phf::rounds))]
    pub(crate) fn rounds(&mut self, count: u32)
        ensures { self.new ≡ rounds count self.old }
    {
        for _turn in 0..count {
            self.round();
        }
    }

    /// Takes in one word, by `count` rounds.
    #[tactic(auto, unfolding(crate::specs::Phf::absorb, crate::specs::Phf::xor_v0, crate::specs::Phf::xor_v3))]
    pub(crate) fn absorb(&mut self, word: u64, count: u32)
        ensures { self.new ≡ absorb count self.old word }
    {
        self.v3 ^= word;
        self.rounds(count);
        self.v0 ^= word;
    }

    /// Takes in all bytes, eight at a time, by `count` rounds a word.
    pub(crate) fn absorb_all(&mut self, bytes: &[u8], count: u32)
        ensures { self.new ≡ absorb_all count self.old bytes.now }
    {
        let (words, rest) = bytes.as_chunks::<8>();
        for word in words {
            self.absorb(u64::from_le_bytes(*word), count);
        }
        self.absorb(last_word(bytes, rest), count);
    }

    #[tactic(auto, unfolding(crate::specs::Phf::xor_of))]
    pub(crate) fn xor(&self) -> u64
        ensures { result ≡ xor_of self.now }
    {
        self.v0 ^ self.v1 ^ self.v2 ^ self.v3
    }
}

/// The last word of a text: the bytes after its whole words, then zeros, and in the top byte the length modulo 256.
fn last_word(bytes: &[u8], rest: &[u8]) -> u64
    requires { rest.now ≡ drop (length bytes.now / 8 * 8) bytes.now }
    ensures { result ≡ bytes_value rest.now + length bytes.now % 256 * 2 ^ 56 }
{
    let len = (bytes.len() % 256) as u8;
    match bytes.last_chunk::<8>() {
        Some(tail) => tail_word(*tail, 8 - rest.len() as u32, len),
        None => short_word(rest, len),
    }
}

/// The last word of a text that ends with these eight bytes, of which the first `gone`, 1 to 8, are in its whole words.
fn tail_word(tail: [u8; 8], gone: u32, len: u8) -> u64
    requires { (1 ≤ gone) × (gone ≤ 8) }
    ensures { result ≡ bytes_value (drop gone tail) + len * 2 ^ 56 }
{
    let word = u64::from_le_bytes(tail) >> (8 * gone - 8);
    (word >> 8) + (u64::from(len) << 56) // a single shift by 64 isn't allowed
}

/// The last word of a text without whole words.
fn short_word(rest: &[u8], len: u8) -> u64
    requires { length rest.now < 8 }
    ensures { result ≡ bytes_value rest.now + len * 2 ^ 56 }
{
    let mut last = [0u8; 8];
    last[..rest.len()].copy_from_slice(rest);
    last[7] = len;
    u64::from_le_bytes(last)
}

/// SipHash-2-4 of the bytes under the keys `k0` and `k1`, with 64 bits.
#[tactic(auto, unfolding(crate::specs::Phf::sip24_of, crate::specs::Phf::xor_v2))]
pub fn sip24(bytes: &[u8], k0: u64, k1: u64) -> u64
    ensures { result ≡ sip24_of bytes.now k0 k1 }
{
    let mut sip = Sip::new(k0, k1);
    sip.absorb_all(bytes, 2);
    sip.v2 ^= 0xff;
    sip.rounds(4);
    sip.xor()
}

/// The hashes of a text under a key: SipHash-1-3 with 128 bits, under the keys 0 and `key`.
#[inline(always)] // so that the second half isn't computed if nothing wants it
#[tactic(auto, unfolding(crate::specs::Phf::hashes_of, crate::specs::Phf::first_half, crate::specs::Phf::second_half, crate::specs::Phf::xor_v1, crate::specs::Phf::xor_v2))]
pub fn hash(text: &str, key: u64) -> Hashes
    ensures { result ≡ hashes_of text.now key }
{
    let mut sip = Sip::new(0, key);
    sip.v1 ^= 0xee;
    sip.absorb_all(text.as_bytes(), 1);
    sip.v2 ^= 0xee;
    sip.rounds(3);
    let first = sip.xor();
    sip.v1 ^= 0xdd;
    sip.rounds(3);
    let second = sip.xor();
    Hashes {
        g: (first >> 32) as u32,
        f1: (first & 0xffff_ffff) as u32,
        f2: (second & 0xffff_ffff) as u32,
    }
}

/// The place of a text with these hashes in static tables of `len` texts, at least one, that have at least one pair of displacements.
#[inline]
pub fn place(hashes: &Hashes, disps: &[(u32, u32)], len: u32) -> u32
    requires displaced { 1 ≤ length disps.now }
    requires listed { 1 ≤ len }
    ensures place { result ≡ place_of hashes.now disps.now len }
    ensures listed { result < len }
{
    let (d1, d2) = disps[hashes.g as usize % disps.len()];
    d2.wrapping_add(hashes.f1.wrapping_mul(d1))
        .wrapping_add(hashes.f2)
        % len
}
