//! The word of one kind of name.

ghost use Rattle.std.proofs.Common.{rules};
ghost use Rattle.std.specs.Cmp.Rules.{comparing, hashing};
ghost use Rattle.std.specs.Hash as fed;
ghost use Rattle.std.specs.Ordering.{nat_cmp, on};
ghost use Rattle.std.specs.Prelude.{◌≡◌, nat_eq, Some, ⊤};

use std::alloc::AllocError;
use std::cmp::Ordering;
use std::fmt::{self, Debug, Formatter, Write};
use std::hash::{Hash, Hasher};
use std::marker::PhantomData;

/// The word of a name of some kind, which is any type: a `Name<Function>` can't be passed for a `Name<File>`. It has 8 bytes, and is copied,
/// compared, ordered and hashed as its word.
pub struct Name<K> {
    pub(super) word: u64,
    pub(super) kind: PhantomData<K>,
}

impl<K> Name<K> {
    /// The word.
    pub fn word(self) -> u64
        ensures { result ≡ self.word }
    {
        self.word // in the table that gave it
    }
}

impl<K> Clone for Name<K> {
    ghost is_clone = { λ name copy. copy ≡ name };

    ghost is_infallible = { λ _. ⊤ };

    fn clone(&self) -> Result<Self, AllocError> {
        Ok(*self)
    }
}

impl<K> Copy for Name<K> {}

impl<K> PartialEq for Name<K> {
    ghost eq = { on (λ name. name.word) nat_eq };

    ghost laws = { Prim.search (comparing, rules) };

    fn eq(&self, other: &Self) -> bool {
        self.word == other.word
    }
}

impl<K> Eq for Name<K> {
    ghost laws = { Prim.search (comparing, rules) };
}

impl<K> PartialOrd for Name<K> {
    ghost partial_cmp = { λ a b. Some (nat_cmp a.word b.word) };

    ghost laws = { Prim.search (comparing, rules) };

    fn partial_cmp(&self, other: &Self) -> Option<Ordering> {
        Some(self.cmp(other))
    }
}

/// By words, which says nothing about the texts.
impl<K> Ord for Name<K> {
    ghost cmp = { on (λ name. name.word) nat_cmp };

    ghost total = { Prim.search (comparing, rules) };

    ghost matches_partial_cmp = { Prim.search (comparing, rules) };

    ghost matches_eq = { Prim.search (comparing, rules) };

    fn cmp(&self, other: &Self) -> Ordering {
        self.word.cmp(&other.word)
    }
}

impl<K> Hash for Name<K> {
    ghost hash_input = { λ name. fed.u64 name.word };

    ghost respects_eq = { Prim.search (hashing, rules) };

    fn hash<H: Hasher>(&self, state: &mut H) {
        state.write_u64(self.word);
    }
}

/// `Name`, and the word in hexadecimal digits.
impl<K> Debug for Name<K> {
    fn fmt<W: Write>(&self, f: &mut Formatter<W>) -> fmt::Result {
        write!(f, "Name({:#x})", self.word)
    }
}
