//! Displacements for all texts: one pair after another is settled, against the places taken so far.

ghost use Rattle.std.specs.Prelude.{◌≡◌, ◌<◌, ◌≤◌, ◌^◌, ◌∷◌, [], ℕ, IfOk, IfSome, length};
ghost use Rattle.table_generator.specs.Grouped.{AreGrouped, IsRunEnd};
ghost use Rattle.table_generator.specs.Places.{AreApart, AreDisplacementsOf};

use crate::search::{Tried, find_pair, mark};
use std::alloc::{AllocError, Global};
use text_forms::phf::Hashes;

/// Where the run of texts of one pair that begins at `start` ends.
fn run_end(hashes: &[Hashes], start: usize, pairs: usize) -> usize
    requires some { start < length hashes.now }
    requires pairs { 1 ≤ pairs }
    ensures { IsRunEnd pairs hashes.now start result }
{
    let own = hashes[start].g as usize % pairs;
    let mut end = start + 1;
    while end < hashes.len() && hashes[end].g as usize % pairs == own {
        end += 1;
    }
    end
}

/// Displacements that place the texts, of which those of one pair must be side by side. `None` if the search found none; if there is only one pair,
/// then there are none among those to be tried.
pub fn displace(
    alloc: Global,
    hashes: &[Hashes],
    pairs: usize,
    tried: Tried,
) -> Result<Option<Vec<(u32, u32)>>, AllocError>
    requires pairs { 1 ≤ pairs }
    requires some { 1 ≤ tried.first }
    requires order { tried.second ≤ tried.first }
    requires few { length hashes.now < 2 ^ 32 }
    requires grouped { AreGrouped pairs hashes.now }
    ensures found { IfOk result (λ o. IfSome o (λ disps. AreDisplacementsOf pairs tried.first hashes.now disps.items)) }
    ensures unplaced { IfOk result (λ o. o ≡ None → pairs ≡ 1
        → (d1 d2 : ℕ) → d1 < tried.first → d2 < tried.second → AreApart ((d1, d2) ∷ []) (length hashes.now) hashes.now → ⊥) }
{
    let mut disps = vec![in alloc; (0u32, 0u32); pairs]?;
    let mut taken = vec![in alloc; false; hashes.len()]?;
    let mut start = 0;
    while start < hashes.len() {
        let own = hashes[start].g as usize % pairs;
        let end = run_end(hashes, start, pairs);
        let members = &hashes[start..end];
        let Some(pair) = find_pair(members, tried, &taken) else {
            return Ok(None);
        };
        mark(members, pair, &mut taken);
        disps[own] = pair;
        start = end;
    }
    Ok(Some(disps))
}
