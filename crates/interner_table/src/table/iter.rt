//! The texts that a table holds, one after another.

ghost use Rattle.std.specs.Prelude.{◌≡◌, ℕ, List, MatchOption, None, Some, length, slice_get, ⊤};
ghost use Rattle.std.specs.Iterator.{at_most};
ghost use Rattle.std.specs.List.{IsDistinct};
ghost use Rattle.std.specs.Map.{keys_of};
ghost use Rattle.std.specs.Map.Iter.{TakesFirst};
ghost use Rattle.std.specs.Str.{bytes_eq};

use super::Table;
use super::holding::Holding;
use indexmap::map;
use std::alloc::AllocError;
use std::hash::BuildHasher;
use std::iter::FusedIterator;
use std::marker::Model;
use text_forms::static_sets::StaticTables;

/// A dynamic text that a table holds.
#[derive(Clone, Copy, Debug, PartialEq, Eq)]
pub struct HeldText<'t> {
    /// The text.
    pub text: &'t str,
    /// Its word, a ticket.
    pub word: u64,
    /// The number of its holders, at least 1.
    pub holders: u64,
}

/// The dynamic texts that a table holds, in the table's order.
#[derive(Drop)]
pub struct Iter<'t> {
    entries: map::Iter<'t, String, Holding>,
}

impl<'t> Model for Iter<'t> {
    ghost use Rattle.std.specs.Prelude.{List};
    ghost use Rattle.interner_table.specs.Kept.{Pair, pairs_of};

    ghost Value = { List Pair };

    ghost view = { λ a. pairs_of a.entries };
}

impl<'t> Iterator for Iter<'t> {
    ghost use Rattle.interner_table.specs.HeldText.{pair_of};

    type Item = HeldText<'t>;

    ghost next_gives = { TakesFirst pair_of };

    ghost remaining = { λ pairs. at_most (length pairs) };

    fn next(&mut self) -> Option<HeldText<'t>> {
        let (text, held) = self.entries.next()?;
        Some(HeldText {
            text: text.as_str(),
            word: held.ticket(),
            holders: held.holders(),
        })
    }

    fn size_hint(&self) -> (usize, Option<usize>) {
        let left = self.len();
        (left, Some(left))
    }
}

impl<'t> ExactSizeIterator for Iter<'t> {
    fn len(&self) -> usize {
        self.entries.len()
    }
}

impl<'t> FusedIterator for Iter<'t> {}

impl<'t> Clone for Iter<'t> {
    ghost is_clone = { λ pairs copy. copy ≡ pairs };

    ghost is_infallible = { λ _. ⊤ };

    fn clone(&self) -> Result<Self, AllocError> {
        Ok(Iter {
            entries: self.entries.clone()?,
        })
    }
}

impl<S: StaticTables, H: BuildHasher> Table<S, H> {
    ghost use Rattle.interner_table.specs.HeldText.{pair_of};
    ghost use Rattle.interner_table.specs.Kept.{IsSoundMap, Pair, map_of};

    /// The dynamic texts that are held, each once, with its word and its holders. They are in the order in which they were interned, except that when
    /// a text is taken out, the last one takes its place: the same calls give the same order.
    pub fn iter(&self) -> Iter<'_>
        ensures texts { result ≡ self.now.pairs }
        ensures held { (at : ℕ) (pair : Pair) → slice_get self.now.pairs at ≡ Some pair → (map_of self.now).held pair.0 ≡ Some pair.1 }
        ensures distinct { IsDistinct bytes_eq (keys_of self.now.pairs) }
        ensures sound { IsSoundMap S.tables (map_of self.now) }
    {
        self.is_sound(); // as the last clause says
        Iter {
            entries: self.entries.iter(),
        }
    }

    /// The dynamic text at a place in that order, counted from 0. `None` past the last.
    pub fn nth(&self, at: usize) -> Option<HeldText<'_>>
        ensures { MatchOption result (slice_get self.now.pairs at ≡ None) (λ held. slice_get self.now.pairs at ≡ Some (pair_of held)) }
    {
        let (text, held) = self.entries.get_index(at)?;
        let (word, holders) = (held.ticket(), held.holders());
        Some(HeldText {
            text: text.as_str(),
            word,
            holders,
        })
    }
}

impl<'t, S: StaticTables, H: BuildHasher> IntoIterator for &'t Table<S, H> {
    type Item = HeldText<'t>;

    type IntoIter = Iter<'t>;

    ghost into_iter_gives = { λ table it. it ≡ table.now.pairs };

    fn into_iter(self) -> Iter<'t> {
        self.iter()
    }
}
