//! What the index of a set hashes under.

ghost use Rattle.std.specs.Prelude.{◌≡◌};
ghost use Rattle.named_set.specs.Places.{short_hash};

use std::hash::BuildHasher;
use text_forms::SipKey;

/// The odd number nearest to 2^64 divided by the golden ratio.
const OPEN: u64 = 0x9E37_79B9_7F4A_7C15;

/// How the index of a set hashes, which is one multiplication. If the number is a secret, any two hashes of texts seldom fall together: for each
/// two, few of the odd numbers let them (Dietzfelbinger and others, "A reliable randomized algorithm for the closest-pair problem", 1997).
#[derive(Clone, Copy, Drop)]
pub struct IndexKey {
    multiplier: u64,
}

impl IndexKey {
    /// Without a secret.
    pub(crate) fn open() -> IndexKey {
        IndexKey { multiplier: OPEN }
    }

    /// Under a secret that this key makes.
    pub(crate) fn of(key: SipKey) -> IndexKey {
        IndexKey {
            multiplier: key.hash_one(0u64) | 1,
        }
    }

    /// The upper half of the product of a text's hash with the number, which is what the index knows of the text.
    #[inline]
    pub(crate) fn short_of(self, hash: u64) -> u32
        ensures { result ≡ short_hash self.multiplier hash }
    {
        (hash.wrapping_mul(self.multiplier) >> 32) as u32
    }
}
