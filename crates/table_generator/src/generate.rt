//! Perfect tables of a list of texts, by hash, displace and compress (Belazzougui, Botelho and Dietzfelbinger, 2009).
//!
//! Each text belongs to the pair of displacements that its hash `g` picks. Pairs with more texts are settled first; for a pair, one displacement
//! after another is tried against the places taken so far, and nothing that was settled changes.

ghost use Rattle.std.specs.Prelude.{◌≡◌, ◌<◌, ◌≤◌, ◌%◌, ◌^◌, ◌⊎◌, ℕ, IfErr, IfOk, IfSome, length, map};
ghost use Rattle.std.specs.Bool.{OnTrue, OnFalse};
ghost use Rattle.std.specs.List.{All};
ghost use Rattle.std.specs.List.Sorted.{IsPermutation};
ghost use Rattle.text_forms.specs.Phf.{hashes_of};
ghost use Rattle.table_generator.specs.Generated.{tables_of, texts_of, HasDouble, HasFeed, IsTablesOf, IsUnplaceable, TellsDouble, TellsTables};
ghost use Rattle.table_generator.specs.Grouped.{AreGrouped};

use crate::displace::displace;
use crate::items::{Item, assemble, has_repeat, hashes_of_items, items_of};
use crate::search::Tried;
use crate::tables::{GenFault, Tables};
use std::alloc::Global;

/// Whether a text has a line feed.
fn has_feed(list: &[&str]) -> bool
    ensures yes { OnTrue result (HasFeed (texts_of list.now)) }
    ensures no { OnFalse result (HasFeed (texts_of list.now) → ⊥) }
{
    for text in list {
        if text.as_bytes().contains(&b'\n') {
            return true;
        }
    }
    false
}

/// Whether two texts are equal. It takes no memory, and compares each text with all before it.
fn has_double(list: &[&str]) -> bool
    ensures yes { OnTrue result (HasDouble (texts_of list.now)) }
    ensures no { OnFalse result (HasDouble (texts_of list.now) → ⊥) }
{
    for (i, text) in list.iter().enumerate() {
        for earlier in &list[..i] {
            if earlier == text {
                return true;
            }
        }
    }
    false
}

/// So many first displacements are tried at most for more than five texts, or as many as there are texts, so that a hopeless search ends.
const MOST_FIRST: u32 = 65_536;

/// The displacements that are tried for `count` texts. If `count` divides 2^32, a displacement and its remainder modulo `count` give each text the
/// same place, so no more than `count` are tried. For three and for five texts, all are. For other numbers of texts, no more than `count` second ones
/// are, as they rotate the texts, and `MOST_FIRST` first ones, or `count` if that is more.
fn tried(count: u32, bound: u32) -> Tried
    requires count { 1 ≤ count }
    requires bound { 1 ≤ bound }
    ensures some { 1 ≤ result.first }
    ensures order { result.second ≤ result.first }
    ensures most { result.first ≤ bound }
    ensures reached { count ≤ 5 → (result.second ≡ bound) ⊎ ((2 ^ 32 % count ≡ 0) × ((d : ℕ) → d < bound → d % count < result.second)) }
{
    if count == 3 || count == 5 {
        return Tried {
            first: bound,
            second: bound,
        };
    }
    let second = bound.min(count);
    if count.is_power_of_two() {
        return Tried {
            first: second,
            second,
        };
    }
    let first = second.max(bound.min(MOST_FIRST));
    Tried { first, second }
}

/// The texts as items, of which no two are equal. `Doubled` if two are, even if memory is refused: then each text is compared with all before it,
/// which takes none, and `Memory` is returned if all differ.
fn different_items<'t>(
    alloc: Global,
    list: &[&'t str],
    key: u64,
    pairs: usize,
) -> Result<Vec<Item<'t>>, GenFault>
    requires pairs { 1 ≤ pairs }
    requires few_pairs { pairs < 2 ^ 31 }
    requires few { length list.now < 2 ^ 32 }
    ensures count { IfOk result (λ items. length items.items ≡ length list.now) }
    ensures texts { IfOk result (λ items. IsPermutation (texts_of list.now) (map (λ item. item.text.now) items.items)) }
    ensures hashed { IfOk result (λ items. All (λ item. item.hashes ≡ hashes_of item.text.now key) items.items) }
    ensures grouped { IfOk result (λ items. AreGrouped pairs (map (λ item. item.hashes) items.items)) }
    ensures differ { IfOk result (λ items. HasDouble (texts_of list.now) → ⊥) }
    ensures fault { IfErr result (TellsDouble (texts_of list.now)) }
{
    match items_of(alloc, list, key, pairs) {
        Ok(items) => {
            if has_repeat(&items, pairs) {
                return Err(GenFault::Doubled);
            }
            Ok(items)
        }
        Err(_) => {
            if has_double(list) {
                return Err(GenFault::Doubled);
            }
            Err(GenFault::Memory)
        }
    }
}

/// Tables of the texts, or `None` if the search found none.
fn tables_in(alloc: Global, list: &[&str], key: u64, bound: u32) -> Result<Option<Tables>, GenFault>
    requires some { 1 ≤ length list.now }
    requires few { length list.now < 2 ^ 32 }
    ensures made { IfOk result (λ found. IfSome found (λ t. IsTablesOf (texts_of list.now) key bound (tables_of t))) }
    ensures small { IfOk result (λ found. IfSome found (λ t. All (λ hash. hash < 2 ^ 64) t.hashes.items)) }
    ensures unplaced { IfOk result (λ found. found ≡ None → length list.now ≤ 5 → IsUnplaceable (texts_of list.now) key bound) }
    ensures differ { IfOk result (λ found. HasDouble (texts_of list.now) → ⊥) }
    ensures fault { IfErr result (TellsDouble (texts_of list.now)) }
{
    let pairs = (list.len() + 4) / 5;
    let items = different_items(alloc, list, key, pairs)?;
    if bound == 0 {
        return Ok(None);
    }
    let hashes = hashes_of_items(alloc, &items)?;
    let tried = tried(list.len() as u32, bound);
    let Some(disps) = displace(alloc, &hashes, pairs, tried)? else {
        return Ok(None);
    };
    Ok(Some(assemble(alloc, key, disps, &items)?))
}

/// Tables of the texts under the key, with each displacement below the bound: one pair of displacements for every five texts, and one more if some
/// are left over.
///
/// `EmptyList`, `LineFeed` and `Doubled` are checked in this order and before any other fault, the first two before any memory is asked for.
/// `NotPlaced` if the search found no tables: for at most five texts only if there are none, so never for one text with a bound of at least 1.
/// Another key, or a greater bound, may find some.
///
/// The search takes milliseconds for a thousand texts, and always ends. What it tries for one pair, if that is hopeless, is at most 65,536 or `bound`
/// displacements, whichever is less, times the number of texts; that number's square if it is a power of two, or above 65,536; and three times
/// `bound` times `bound` for three or five texts. Small displacements are tried first: if some below a small bound place the texts, a greater bound
/// takes no longer. Equal texts have equal hashes, so each text is compared only with those of its own pair, about five of them. If memory is refused
/// before that, or there are 2^32 texts or more, it is compared with all before it, which takes no memory, but hours for millions of texts.
pub fn generate(alloc: Global, list: &[&str], key: u64, bound: u32) -> Result<Tables, GenFault>
    ensures { TellsTables (texts_of list.now) key bound result }
{
    if list.is_empty() {
        return Err(GenFault::EmptyList);
    }
    if has_feed(list) {
        return Err(GenFault::LineFeed);
    }
    if list.len() > u32::MAX as usize {
        if has_double(list) {
            return Err(GenFault::Doubled);
        }
        return Err(GenFault::NotPlaced);
    }
    match tables_in(alloc, list, key, bound)? {
        Some(tables) => Ok(tables),
        None => Err(GenFault::NotPlaced),
    }
}
