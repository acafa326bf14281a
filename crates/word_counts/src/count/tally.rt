//! How often words occurred, with an atom of each.

ghost use Rattle.std.specs.Prelude.{◌≡◌, ◌+◌, ◌^◌, ◌<◌, List, [], ℕ, None, IfOk, IfSome, OnOk};
ghost use Rattle.std.specs.BTreeMap.{IsFromIterResult};
ghost use Rattle.std.specs.Cmp.Lexicographic.{slice_cmp};
ghost use Rattle.std.specs.HashMap.{hasher_of, values};
ghost use Rattle.std.specs.Ordering.{nat_cmp};
ghost use Rattle.word_counts.specs.Tally.{AddsTo, IsLabelled, IsTallyOf, number_of};
ghost use Rattle.word_counts.specs.WordCounts.{counted_texts, word_counts};

use super::WordCounts;
use std::alloc::{AllocError, Global};
use std::collections::{BTreeMap, HashMap};
use std::hash::RandomState;
use string_cache::{AtomKind, SetAtom};

/// An atom of each word and how often the word occurred, found by the word as it is in the text. Words are hashed under random keys, so that nobody
/// can choose words that collide.
pub type Tally<'e, H> = HashMap<&'e str, (SetAtom<H>, u64), RandomState>;

/// The tally of no words. Words will be hashed under these keys.
pub fn of_no_words<'e, H: AtomKind>(alloc: Global, keys: RandomState) -> Tally<'e, H>
    ensures empty { IsTallyOf [] result }
    ensures keys { hasher_of result ≡ keys }
{
    HashMap::with_hasher(alloc, keys)
}

/// Counts the word once more if the tally has an atom of it, and returns whether that atom is dynamic.
pub fn count_again<'e, H: AtomKind>(tally: &mut Tally<'e, H>, word: &str) -> Option<bool>
    requires fits { number_of tally.old word.now + 1 < 2 ^ 64 }
    requires labelled { IsLabelled tally.old }
    ensures numbers { IfSome result (λ _. AddsTo tally.old tally.new word.now 1) }
    ensures labelled { IsLabelled tally.new }
    ensures absent { result ≡ None → (tally.new ≡ tally.old) × (number_of tally.old word.now ≡ 0) }
{
    let held = tally.get_mut(word)?;
    held.1 += 1;
    Some(held.0.is_dynamic())
}

/// Counts the first place of a word, with this atom.
pub fn count_first<'e, H: AtomKind>(
    tally: &mut Tally<'e, H>,
    word: &'e str,
    atom: SetAtom<H>,
) -> Result<(), AllocError>
    requires of_word { atom.text ≡ word.now }
    requires absent { number_of tally.old word.now ≡ 0 }
    requires labelled { IsLabelled tally.old }
    ensures numbers { OnOk result (AddsTo tally.old tally.new word.now 1) }
    ensures labelled { OnOk result (IsLabelled tally.new) }
{
    tally.insert(word, (atom, 1))?;
    Ok(())
}

/// The atoms with their numbers, in the order of texts.
fn in_order<'e, H: AtomKind>(
    alloc: Global,
    tally: Tally<'e, H>,
) -> Result<BTreeMap<SetAtom<H>, u64>, AllocError>
    ensures { IfOk result (IsFromIterResult (λ atom other. slice_cmp nat_cmp atom.text other.text) (values tally.entry)) }
{
    tally.into_values().collect(alloc)
}

/// The entries of a map, in order.
fn entries_of<'e, H: AtomKind>(
    alloc: Global,
    counts: BTreeMap<SetAtom<H>, u64>,
) -> Result<WordCounts<SetAtom<H>>, AllocError>
    ensures { IfOk result (λ pairs. pairs.items ≡ counts.entries) }
{
    counts.into_iter().collect(alloc)
}

/// The atoms with their numbers, in the order of texts.
pub fn into_pairs<'e, H: AtomKind>(
    alloc: Global,
    tally: Tally<'e, H>,
) -> Result<WordCounts<SetAtom<H>>, AllocError>
    ensures { (words : List (List ℕ)) → IsTallyOf words tally.entry
        → IfOk result (λ pairs. counted_texts pairs.items ≡ word_counts words) }
{
    let counts = in_order(alloc, tally)?;
    entries_of(alloc, counts)
}
