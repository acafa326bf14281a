//! How atoms compare with each other and with texts, and what they hash as.

ghost use Rattle.std.proofs.Common.{rules};
ghost use Rattle.std.specs.Cmp.{on_po, on_total};
ghost use Rattle.std.specs.Cmp.Lexicographic.{nat_list_cmp_total, slice_cmp, texts_po, texts_ties};
ghost use Rattle.std.specs.Cmp.Rules.{hashing};
ghost use Rattle.std.specs.Hash as fed;
ghost use Rattle.std.specs.Ordering.{nat_cmp};
ghost use Rattle.std.specs.Prelude.{◌≡◌, ◌↔◌, IsTrue, Some, refl};
ghost use Rattle.std.specs.Str.{str_to_ascii_lowercase};
ghost use Rattle.text_forms.specs.Tables.{hash_number};

use super::{AtomKind, AtomOf, SetAtom};
use std::cmp::Ordering;
use std::hash::{Hash, Hasher};

impl<H: AtomKind> SetAtom<H> {
    /// Whether the atom's text is this one.
    pub fn eq_str(&self, other: &str) -> bool
        ensures { IsTrue result ↔ (self.now.text ≡ other.now) }
    {
        self.as_str() == other
    }

    /// Whether the texts of both atoms are equal once each letter A to Z is lowercased.
    pub fn eq_ignore_ascii_case(&self, other: &Self) -> bool
        ensures { IsTrue result ↔ (str_to_ascii_lowercase self.now.text ≡ str_to_ascii_lowercase other.now.text) }
    {
        self.eq_str_ignore_ascii_case(other.as_str())
    }

    /// Whether the atom's text and this one are equal once each letter A to Z is lowercased.
    pub fn eq_str_ignore_ascii_case(&self, other: &str) -> bool
        ensures { IsTrue result ↔ (str_to_ascii_lowercase self.now.text ≡ str_to_ascii_lowercase other.now) }
    {
        self.as_str().eq_ignore_ascii_case(other)
    }

    /// The order of the bytes of both texts.
    #[inline(never)]
    fn order_of_texts(&self, other: &Self) -> Ordering
        ensures { result ≡ slice_cmp nat_cmp self.now.text other.now.text }
    {
        self.as_str().cmp(other.as_str())
    }
}

/// Atoms are ordered by their texts' bytes, whichever sets they borrow.
impl<H: AtomKind> PartialOrd for SetAtom<H> {
    ghost partial_cmp = { λ a b. Some (slice_cmp nat_cmp a.text b.text) };

    ghost laws = { on_po (λ a. a.text) texts_po };

    #[inline]
    fn partial_cmp(&self, other: &Self) -> Option<Ordering> {
        Some(self.cmp(other))
    }
}

impl<H: AtomKind> Ord for SetAtom<H> {
    ghost cmp = { λ a b. slice_cmp nat_cmp a.text b.text };

    ghost total = { on_total (λ a. a.text) nat_list_cmp_total };

    ghost matches_partial_cmp = { λ a b. refl };

    ghost matches_eq = { λ a b. texts_ties a.text b.text };

    /// Equal atoms are recognised first: short and static ones, and those of a set with a name, without a look at their bytes.
    #[inline]
    #[tactic(auto, using(crate::proofs::Forms::equal_tied))]
    fn cmp(&self, other: &Self) -> Ordering {
        if self == other {
            return Ordering::Equal;
        }
        self.order_of_texts(other)
    }
}

/// An atom writes one number, that of `get_hash`.
impl<H: AtomKind> Hash for SetAtom<H> {
    ghost hash_input = { λ a. fed.u64 (hash_number H.Static.tables a.text) };

    ghost respects_eq = { Prim.search (hashing, rules) };

    fn hash<W: Hasher>(&self, state: &mut W) {
        state.write_u64(self.get_hash());
    }
}
