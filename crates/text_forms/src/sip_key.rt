//! A key under which a map hashes.

ghost use Rattle.std.specs.Prelude.{◌≡◌};
ghost use Rattle.text_forms.specs.KeyedHash.{begun, hash_after, written};

use crate::phf::Sip;
use std::hash::{BuildHasher, Hasher};
use std::io;
use std::random::RandomSource;

/// What `str` writes after each text. No text contains this byte.
const END_OF_TEXT: u8 = 255;

/// A 128-bit key of SipHash-1-3, under which a map hashes texts or any other keys. Those who don't know it can't choose keys of the map that collide,
/// except by chance.
///
/// It does what `RandomState` does, and is faster on texts: it takes in the last bytes of a text at once, and hashes no end mark behind a text of two
/// bytes or more, or of none, since the length is hashed. Each number is hashed with the length of its bytes, too.
#[repr(C)]
#[derive(Clone, Copy, Drop)]
pub struct SipKey {
    low: u64,
    high: u64,
}

impl SipKey {
    /// The key made of these two numbers, for runs that must be repeatable.
    pub fn new(low: u64, high: u64) -> SipKey
        ensures low { result.low ≡ low }
        ensures high { result.high ≡ high }
    {
        SipKey { low, high }
    }

    /// A random key, drawn from the system by `SipKey::drawn(&rt)?`. Returns the system's error if it has no random bytes.
    pub fn drawn(source: &impl RandomSource) -> io::Result<SipKey> {
        let mut bytes = [0; 16];
        source.fill_bytes(&mut bytes)?;
        let key = u128::from_le_bytes(bytes);
        Ok(SipKey::new((key & 0xffff_ffff_ffff_ffff) as u64, (key >> 64) as u64))
    }
}

/// What hashes under a `SipKey`.
#[derive(Clone, Copy)]
pub struct SipHasher {
    sip: Sip,
    ends_text: bool, // whether the byte `END_OF_TEXT` ends a text if it is what comes next
}

impl BuildHasher for SipKey {
    type Hasher = SipHasher;

    ghost build_hasher = { λ key. begun key.low key.high };

    #[inline]
    #[tactic(auto, unfolding(crate::specs::KeyedHash::begun))]
    fn build_hasher(&self) -> SipHasher {
        SipHasher {
            sip: Sip::new(self.low, self.high),
            ends_text: false,
        }
    }
}

impl Hasher for SipHasher {
    ghost write = { written };

    ghost finish = { hash_after };

    #[inline]
    #[tactic(auto, unfolding(crate::specs::KeyedHash::written))]
    fn write(&mut self, bytes: &[u8]) {
        match bytes {
            [END_OF_TEXT] if self.ends_text => self.ends_text = false,
            _ => {
                self.sip.absorb_all(bytes, 1);
                self.ends_text = bytes.len() != 1;
            }
        }
    }

    #[inline]
    #[tactic(auto, unfolding(crate::specs::KeyedHash::written))]
    fn write_u8(&mut self, byte: u8) {
        if !self.ends_text || byte != END_OF_TEXT {
            self.sip.absorb(u64::from(byte) + (1 << 56), 1);
        }
        self.ends_text = false;
    }

    #[inline]
    #[tactic(auto, unfolding(crate::specs::KeyedHash::hash_after, crate::specs::Phf::sip13_of, crate::specs::Phf::xor_v2))]
    fn finish(&self) -> u64 {
        let mut sip = self.sip;
        sip.v2 ^= 0xff;
        sip.rounds(3);
        sip.xor()
    }
}
