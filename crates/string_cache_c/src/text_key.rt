//! The key under which a table hashes its texts.

use std::hash::BuildHasher;
use text_forms::{SipHasher, SipKey};

/// A key of SipHash-1-3 that C drew or chose, and handed over. No function here makes one, so a table uses its caller's key.
#[repr(C)]
#[derive(Clone, Copy, Drop)]
pub struct TextKey {
    key: SipKey,
}

impl BuildHasher for TextKey {
    type Hasher = SipHasher;

    ghost use Rattle.text_forms.specs.KeyedHash.{begun};

    ghost build_hasher = { λ key. begun key.key.low key.key.high };

    #[inline]
    fn build_hasher(&self) -> SipHasher {
        self.key.build_hasher()
    }
}
