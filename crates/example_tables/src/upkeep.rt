//! The upkeep of a table: how one is made, what it holds, how much memory it takes, and how it starts over.

ghost use Rattle.std.specs.Prelude.{◌≡◌, ◌↔◌, ◌/◌, ◌-◌, ◌<◌, ◌≤◌, ℕ, List, IfOk, IfSome, IsSome, IsTrue, MatchOption, None, Some, length, nat_lt, slice_get};
ghost use Rattle.std.specs.List.{All, list_any, sum_by};
ghost use Rattle.interner_table.specs.Bounds.{AreBounds};
ghost use Rattle.interner_table.specs.Kept.{Pair, map_of};
ghost use Rattle.interner_table.specs.Layout.{serial_bound};
ghost use Rattle.interner_table.specs.Map.{empty_map};
ghost use Rattle.interner_table.specs.Memory.{IsMemory};
ghost use Rattle.interner_table.specs.Table.{IsHeld};
ghost use Rattle.interner_table.specs.Tables.{empty_tables};
ghost use Rattle.example_tables.specs.Known.{AreKnown};

use interner_table::Fault;
use interner_table::static_sets::{EmptyStaticAtomSet, StaticTables};
use interner_table::table::{Table, TrustedTexts};
use interner_table::word::{Buckets, Limits};
use std::alloc::Global;
use std::hash::{BuildHasher, RandomState};

/// A table that holds each of some names, found under these keys.
pub fn table_of(
    alloc: Global,
    keys: RandomState,
    names: &[&str],
) -> Result<Table<EmptyStaticAtomSet>, Fault>
    ensures { IfOk result (λ table. AreKnown empty_tables (map_of table) names.now) }
{
    let mut table = Table::with_capacity(alloc, keys, names.len())?;
    for name in names {
        table.intern(name)?;
    }
    Ok(table)
}

/// A table for a few hundred names that are in the program itself, whose buckets take 128 bytes.
pub fn small_table(alloc: Global) -> Result<Table<EmptyStaticAtomSet, TrustedTexts>, Fault>
    ensures { IfOk result (λ table. map_of table ≡ empty_map 16) }
{
    let buckets = Buckets::new(4).unwrap_or(Buckets::usual());
    Table::with_buckets(alloc, TrustedTexts, Limits::greatest(), buckets)
}

/// A table in which at most this many hold a text, found under these keys. `None` if nobody could.
pub fn table_with_holders(
    alloc: Global,
    keys: RandomState,
    holders: u64,
) -> Result<Option<Table<EmptyStaticAtomSet>>, Fault>
    ensures none { IfOk result (λ made. IsSome made ↔ AreBounds holders (serial_bound - 1)) }
    ensures limits { IfOk result (λ made. IfSome made (λ table. table.limits.holders ≡ holders)) }
{
    match Limits::new(holders, Limits::greatest().serials()) {
        Some(limits) => Ok(Some(Table::with_limits(alloc, keys, limits)?)),
        None => Ok(None),
    }
}

/// Makes room for some names, before they are interned.
pub fn make_room<S: StaticTables>(table: &mut Table<S>, names: &[&str]) -> Result<(), Fault>
    ensures { table.new ≡ table.old }
{
    table.reserve(names.len())
}

/// Forgets all names. No ticket is given again.
pub fn start_over<S: StaticTables>(table: &mut Table<S>)
    ensures none { (text : List ℕ) → (map_of table.new).held text ≡ None }
    ensures serials { (bucket : ℕ) → (map_of table.new).last bucket ≡ (map_of table.old).last bucket }
{
    table.clear();
}

/// Whether each of the words is held.
pub fn all_held<S: StaticTables>(table: &Table<S>, words: &[u64]) -> bool
    ensures { IsTrue result ↔ All (λ word. IsHeld S.tables (map_of table.now) word) words.now }
{
    words.iter().all(|word| table.holds(*word))
}

/// Whether any text has more than one holder.
pub fn any_shared<S: StaticTables>(table: &Table<S>) -> bool
    ensures { result ≡ list_any (λ (pair : Pair). nat_lt 1 pair.1.holders) table.now.pairs }
{
    table.iter().any(|held| held.holders > 1)
}

/// The last of the dynamic texts that are held, in the table's order. `None` if there are none.
pub fn last_text<S: StaticTables>(table: &Table<S>) -> Option<&str>
    ensures { MatchOption result (length table.now.pairs ≡ 0) (λ text. (pair : Pair) × (slice_get table.now.pairs (length table.now.pairs - 1) ≡ Some pair) × (pair.0 ≡ text.now)) }
{
    let last = table.entries().checked_sub(1)?;
    let held = table.nth(last)?;
    Some(held.text)
}

/// Whether a table takes at most this many bytes, whatever its hasher.
pub fn takes_at_most<S: StaticTables, H: BuildHasher>(table: &Table<S, H>, most: u128) -> bool
    ensures { (bytes : ℕ) × IsMemory table.now bytes × (IsTrue result ↔ (bytes ≤ most)) }
{
    table.memory() <= most
}

/// The bytes that a table takes for each text that it holds, rounded down. `None` if it holds none.
pub fn bytes_for_each<S: StaticTables>(table: &Table<S>) -> Option<u128>
    ensures { MatchOption result (length table.now.pairs ≡ 0) (λ each. (bytes : ℕ) × IsMemory table.now bytes × (0 < length table.now.pairs) × (each ≡ bytes / length table.now.pairs)) }
{
    match table.entries() {
        0 => None,
        texts => Some(table.memory() / texts as u128),
    }
}

/// The average length of the texts that are held, in bytes, rounded down. `None` if there are none.
pub fn usual_length<S: StaticTables>(table: &Table<S>) -> Option<u128>
    ensures { MatchOption result (length table.now.pairs ≡ 0) (λ usual. (0 < length table.now.pairs) × (usual ≡ sum_by (λ (pair : Pair). length pair.0) table.now.pairs / length table.now.pairs)) }
{
    match table.entries() {
        0 => None,
        texts => Some(table.text_bytes() / texts as u128),
    }
}
