//! Texts in the order in which they are settled, and then in the order of their places.

ghost use Rattle.std.specs.Prelude.{◌≡◌, ◌<◌, ◌≤◌, ◌^◌, IfOk, length, map};
ghost use Rattle.std.specs.Bool.{OnTrue, OnFalse};
ghost use Rattle.std.specs.List.{All, AllPairs};
ghost use Rattle.std.specs.List.Sorted.{IsPermutation};
ghost use Rattle.text_forms.specs.Phf.{hash_of_hashes, hashes_of, place_of};
ghost use Rattle.table_generator.specs.Assembled.{Assembles};
ghost use Rattle.table_generator.specs.Generated.{tables_of, texts_of, HasDouble, HasEarlier};
ghost use Rattle.table_generator.specs.Grouped.{AreGrouped, rank_of};
ghost use Rattle.table_generator.specs.Places.{AreApart};

use crate::tables::Tables;
use std::alloc::{AllocError, Global};
use text_forms::phf::{Hashes, hash, place};

/// A text on its way to its place.
#[derive(Drop)]
pub struct Item<'t> {
    text: &'t str,
    hashes: Hashes,
    rank: u64,
}

/// For each pair of displacements, how many of the texts belong to another one.
fn others_of(alloc: Global, list: &[&str], key: u64, pairs: usize) -> Result<Vec<u64>, AllocError>
    requires { 1 ≤ pairs }
    ensures count { IfOk result (λ others. length others.items ≡ pairs) }
    ensures most { IfOk result (λ others. All (λ n. n ≤ length list.now) others.items) }
{
    let mut others = vec![in alloc; list.len() as u64; pairs]?;
    for text in list {
        let own = hash(text, key).g as usize % pairs;
        others[own] = others[own].saturating_sub(1);
    }
    Ok(others)
}

/// The texts with their hashes and ranks.
fn ranked<'t>(
    alloc: Global,
    list: &[&'t str],
    key: u64,
    others: &[u64],
) -> Result<Vec<Item<'t>>, AllocError>
    requires pairs { 1 ≤ length others.now }
    requires few_pairs { length others.now < 2 ^ 31 }
    requires few { length list.now < 2 ^ 32 }
    requires most { All (λ n. n ≤ length list.now) others.now }
    ensures texts { IfOk result (λ items. map (λ item. item.text.now) items.items ≡ texts_of list.now) }
    ensures hashed { IfOk result (λ items. All (λ item. item.hashes ≡ hashes_of item.text.now key) items.items) }
    ensures ranked { IfOk result (λ items. All (λ item. item.rank ≡ rank_of others.now item.hashes) items.items) }
{
    let mut items = Vec::with_capacity(alloc, list.len())?;
    for text in list {
        let hashes = hash(text, key);
        let own = hashes.g as usize % others.len();
        let rank = others[own] * others.len() as u64 + own as u64;
        items.push(Item {
            text: *text,
            hashes,
            rank,
        })?;
    }
    Ok(items)
}

/// The texts with their hashes, those of one pair side by side, those of the largest pairs first.
pub fn items_of<'t>(
    alloc: Global,
    list: &[&'t str],
    key: u64,
    pairs: usize,
) -> Result<Vec<Item<'t>>, AllocError>
    requires pairs { 1 ≤ pairs }
    requires few_pairs { pairs < 2 ^ 31 }
    requires few { length list.now < 2 ^ 32 }
    ensures count { IfOk result (λ items. length items.items ≡ length list.now) }
    ensures texts { IfOk result (λ items. IsPermutation (texts_of list.now) (map (λ item. item.text.now) items.items)) }
    ensures hashed { IfOk result (λ items. All (λ item. item.hashes ≡ hashes_of item.text.now key) items.items) }
    ensures grouped { IfOk result (λ items. AreGrouped pairs (map (λ item. item.hashes) items.items)) }
{
    let others = others_of(alloc, list, key, pairs)?;
    let mut items = ranked(alloc, list, key, &others)?;
    items.sort_unstable_by_key(|item| item.rank);
    Ok(items)
}

/// Whether a text before the one at this index is equal to it. Texts of one pair are side by side, and equal ones are of one pair, so no others are
/// looked at.
fn repeats_earlier(items: &[Item], index: usize, pairs: usize) -> bool
    requires pairs { 1 ≤ pairs }
    requires listed { index < length items.now }
    requires grouped { AreGrouped pairs (map (λ item. item.hashes) items.now) }
    requires alike { AllPairs (λ x y. x.text.now ≡ y.text.now → x.hashes ≡ y.hashes) items.now }
    ensures yes { OnTrue result (HasEarlier (map (λ item. item.text.now) items.now) index) }
    ensures no { OnFalse result (HasEarlier (map (λ item. item.text.now) items.now) index → ⊥) }
{
    let item = &items[index];
    let own = item.hashes.g as usize % pairs;
    for at in (0..index).rev() {
        let earlier = &items[at];
        if earlier.hashes.g as usize % pairs != own {
            return false;
        }
        if earlier.hashes == item.hashes && earlier.text == item.text {
            return true;
        }
    }
    false
}

/// Whether two of the items have equal texts. It takes no memory, and compares a text only with those of its own pair.
pub fn has_repeat(items: &[Item], pairs: usize) -> bool
    requires pairs { 1 ≤ pairs }
    requires grouped { AreGrouped pairs (map (λ item. item.hashes) items.now) }
    requires alike { AllPairs (λ x y. x.text.now ≡ y.text.now → x.hashes ≡ y.hashes) items.now }
    ensures yes { OnTrue result (HasDouble (map (λ item. item.text.now) items.now)) }
    ensures no { OnFalse result (HasDouble (map (λ item. item.text.now) items.now) → ⊥) }
{
    for index in 0..items.len() {
        if repeats_earlier(items, index, pairs) {
            return true;
        }
    }
    false
}

/// The hashes of the texts.
pub fn hashes_of_items(alloc: Global, items: &[Item]) -> Result<Vec<Hashes>, AllocError>
    ensures { IfOk result (λ hashes. hashes.items ≡ map (λ item. item.hashes) items.now) }
{
    let mut hashes = Vec::with_capacity(alloc, items.len())?;
    for item in items {
        hashes.push(item.hashes)?;
    }
    Ok(hashes)
}

/// A text with its place, and the hash of its entry.
#[derive(Drop)]
struct PlacedText<'t> {
    text: &'t str,
    place: u32,
    hash: u64,
}

/// The texts with their places.
fn placed_by<'t>(
    alloc: Global,
    items: &[Item<'t>],
    disps: &[(u32, u32)],
) -> Result<Vec<PlacedText<'t>>, AllocError>
    requires displaced { 1 ≤ length disps.now }
    requires few { length items.now < 2 ^ 32 }
    ensures texts { IfOk result (λ placed. map (λ text. text.text.now) placed.items ≡ map (λ item. item.text.now) items.now) }
    ensures places { IfOk result (λ placed. map (λ text. text.place) placed.items
        ≡ map (λ item. place_of item.hashes disps.now (length items.now)) items.now) }
    ensures hashes { IfOk result (λ placed. map (λ text. text.hash) placed.items
        ≡ map (λ item. hash_of_hashes item.hashes) items.now) }
    ensures small { IfOk result (λ placed. All (λ text. text.hash < 2 ^ 64) placed.items) }
{
    let len = items.len() as u32;
    let mut placed = Vec::with_capacity(alloc, items.len())?;
    for item in items {
        placed.push(PlacedText {
            text: item.text,
            place: place(&item.hashes, disps, len),
            hash: item.hashes.entry_hash(),
        })?;
    }
    Ok(placed)
}

/// The tables of the texts under the displacements that give them different places.
pub fn assemble(
    alloc: Global,
    key: u64,
    disps: Vec<(u32, u32)>,
    items: &[Item],
) -> Result<Tables, AllocError>
    requires displaced { 1 ≤ length disps.items }
    requires few_pairs { length disps.items < 2 ^ 32 }
    requires some { 1 ≤ length items.now }
    requires few { length items.now < 2 ^ 32 }
    requires hashed { All (λ item. item.hashes ≡ hashes_of item.text.now key) items.now }
    requires apart { AreApart disps.items (length items.now) (map (λ item. item.hashes) items.now) }
    ensures { IfOk result (λ t. Assembles key disps.items (map (λ item. item.text.now) items.now) (tables_of t)) }
{
    let mut placed = placed_by(alloc, items, &disps)?;
    placed.sort_unstable_by_key(|text| text.place);
    let mut atoms = Vec::with_capacity(alloc, placed.len())?;
    let mut hashes = Vec::with_capacity(alloc, placed.len())?;
    for text in &placed {
        atoms.push(String::from_str(alloc, text.text)?)?;
        hashes.push(text.hash)?;
    }
    Ok(Tables {
        key,
        disps,
        atoms,
        hashes,
    })
}
