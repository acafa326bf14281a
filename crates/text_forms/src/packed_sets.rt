//! Static tables whose texts are all in one text. They scale: the checker reads one long text faster than many short ones, so a packed type can have
//! thousands of texts where a type that lists them can have some hundreds.

ghost use Rattle.std.specs.Prelude.{◌≡◌, ◌<◌, ◌≤◌, ℕ, List, length, slice_range, true};
ghost use Rattle.std.specs.Str.{IsCharBoundary};
ghost use Rattle.text_forms.specs.Packed.{are_cut, packed};
ghost use Rattle.text_forms.specs.Tables.{Tables, AreUsable, text_at};

use crate::phf::{hash, place};
use crate::static_sets::StaticTables;
use std::marker::PhantomData;

/// Static tables whose texts are all in one text, one after another.
#[derive(Clone, Copy)]
pub struct PackedStrSet {
    /// The key of the hash.
    pub key: u64,
    /// The pairs of displacements.
    pub disps: &'static [(u32, u32)],
    /// The texts.
    pub text: &'static str,
    /// Where each text begins and ends, in bytes.
    pub spans: &'static [(u32, u32)],
    /// The number that an atom of each text hashes as.
    pub hashes: &'static [u64],
}

/// The tables of a packed static type. The type itself is `Packed` of them.
pub trait PackedAtomSet: Ord {
    ghost text: { List ℕ };

    ghost spans: { List (ℕ × ℕ) };

    ghost tables: { Tables };

    /// The tables, the same on each call. Each span begins where the one before it ends, the first at 0, and cuts out a whole text. They have at
    /// least one pair of displacements and one text, as many hashes as texts, and at most 2^32 - 1 of each. They needn't be perfect: a text that
    /// isn't at its place is dynamic.
    fn get() -> PackedStrSet
        ensures text { result.text.now ≡ text }
        ensures spans { result.spans.now ≡ spans }
        ensures tables { packed result.key result.disps.now result.text.now result.spans.now result.hashes.now ≡ tables };

    ghost cut: { are_cut 0 spans text ≡ true };

    ghost usable: { AreUsable tables };
}

/// The static type over packed tables: `Atom<'_, Packed<T>>`, `Set<Packed<T>>` and `Table<Packed<T>>` are like those over any other.
///
/// The borrow checker doesn't yet cover a function that names one of these. Write the function over any `S: StaticTables`, and call it with the type.
#[derive(PartialEq, Eq, PartialOrd, Ord)]
pub struct Packed<P> {
    of: PhantomData<P>,
}

impl<P: PackedAtomSet> StaticTables for Packed<P> {
    ghost tables = { P.tables };

    ghost usable = { P.usable };

    #[inline]
    fn count() -> u32 {
        P::get().spans.len() as u32
    }

    #[inline]
    fn look_up(text: &str) -> (u32, u64) {
        let set = P::get();
        let hashes = hash(text, set.key);
        let index = place(&hashes, set.disps, set.spans.len() as u32);
        (index, hashes.entry_hash())
    }

    #[inline]
    fn text_at(index: u32) -> &'static str {
        packed_text::<P>(index)
    }

    #[inline]
    fn hash_at(index: u32) -> u64 {
        P::get().hashes[index as usize]
    }
}

/// The text that the span at an index cuts out.
#[inline]
fn packed_text<P: PackedAtomSet>(index: u32) -> &'static str
    requires { index < length P.tables.atoms }
    ensures { result.now ≡ text_at P.tables index }
{
    let set = P::get();
    let (from, to) = set.spans[index as usize];
    piece(set.text, from, to)
}

/// The text between two places.
#[inline]
fn piece(text: &str, from: u32, to: u32) -> &str
    requires ordered { from ≤ to }
    requires begins { IsCharBoundary text.now from }
    requires ends { IsCharBoundary text.now to }
    ensures { result.now ≡ slice_range text.now from to }
{
    &text[from as usize..to as usize]
}
