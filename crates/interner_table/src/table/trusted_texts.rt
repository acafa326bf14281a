//! The fast hasher of texts.

ghost use Rattle.std.specs.Hash.FoldHasher as folding;

use std::hash::{BuildHasher, FoldHasher};

/// The fast hasher for a table's texts, for texts that no outsider writes: the program's own words, names in generated code, what a benchmark
/// interns. Its seed is fixed, so whoever writes the texts can write many with the same hash, and each look-up then goes through all of them.
///
/// For other people's texts, take `RandomState::new(&rt)?`: SipHash-1-3 with random keys, with which no chosen texts cost more than random ones.
#[derive(Clone, Copy, Debug)]
pub struct TrustedTexts;

impl BuildHasher for TrustedTexts {
    type Hasher = FoldHasher;

    ghost build_hasher = { λ _. folding.initial };

    fn build_hasher(&self) -> FoldHasher {
        FoldHasher::default()
    }
}
