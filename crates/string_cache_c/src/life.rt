//! Opens and closes a table, and makes room in it.

ghost use Rattle.std.specs.Prelude.{◌≡◌, ◌≢◌, ◌-◌, ◌^◌, ◌≤◌, ◌⊎◌, ◌↔◌, [], None, Some, IsSome, IfSome};
ghost use Rattle.interner_table.specs.Bounds.{AreBounds};
ghost use Rattle.interner_table.specs.Kept.{map_of};
ghost use Rattle.interner_table.specs.Layout.{holder_bound, most_bits, serial_bound, usual_buckets};
ghost use Rattle.interner_table.specs.Map.{empty_map};
ghost use Rattle.string_cache_c.specs.Calls.{Within};
ghost use Rattle.string_cache_c.specs.Numbers.{closed, not_closed, not_limits};
ghost use Rattle.string_cache_c.specs.declared.numbered_table.NumberedTable.{NumberedTable};

use crate::handle::ScTable;
use crate::numbered_table::NumberedTable;
use crate::numbers::{CLOSED, NO_MEMORY, NOT_CLOSED, NOT_LIMITS};
use crate::text_key::TextKey;
use interner_table::static_sets::EmptyStaticAtomSet;
use interner_table::table::Table;
use interner_table::word::{Buckets, Limits};
use std::alloc::Global;

/// Opens a closed table, with nothing held, the greatest limits and the usual number of buckets, whose texts are hashed under this key. Returns 1 if
/// there is no memory, and 8 if the table is open; then nothing changes.
#[unsafe(no_mangle)]
pub extern "C" fn sc_table_open(t: &mut ScTable, key: TextKey, alloc: Global) -> u32
    ensures number { (result ≡ 0) ⊎ (result ≡ 1) ⊎ (result ≡ not_closed) }
    ensures not_closed { result ≡ not_closed ↔ IsSome t.old.seat.value }
    ensures open { result ≡ 0 → IsSome t.new.seat.value }
    ensures empty { result ≡ 0 → IfSome t.new.seat.value (λ numbered. map_of numbered.table ≡ empty_map usual_buckets) }
    ensures limits { result ≡ 0 → IfSome t.new.seat.value (λ numbered. numbered.table.limits ≡ record { holders = holder_bound - 1; serials = serial_bound - 1 }) }
    ensures err { result ≢ 0 → t.new.seat.value ≡ t.old.seat.value }
{
    if t.is_open() {
        return NOT_CLOSED;
    }
    match Table::new(alloc, key) {
        Ok(empty) => put_table(t, empty, alloc),
        Err(_) => NO_MEMORY,
    }
}

/// Opens a closed table, with nothing held, these limits and 2 to this power of buckets, whose texts are hashed under this key. Returns 1 if there is
/// no memory, 8 if the table is open, and 10 if there are no such limits or buckets; then nothing changes.
#[unsafe(no_mangle)]
pub extern "C" fn sc_table_open_with(
    t: &mut ScTable,
    holders: u64,
    serials: u64,
    bucket_bits: u8,
    key: TextKey,
    alloc: Global,
) -> u32
    ensures number { (result ≡ 0) ⊎ (result ≡ 1) ⊎ (result ≡ not_closed) ⊎ (result ≡ not_limits) }
    ensures not_closed { result ≡ not_closed ↔ IsSome t.old.seat.value }
    ensures not_limits { t.old.seat.value ≡ None → result ≡ not_limits ↔ ¬ (AreBounds holders serials × (bucket_bits ≤ most_bits)) }
    ensures open { result ≡ 0 → IsSome t.new.seat.value }
    ensures empty { result ≡ 0 → IfSome t.new.seat.value (λ numbered. map_of numbered.table ≡ empty_map (2 ^ bucket_bits)) }
    ensures limits { result ≡ 0 → IfSome t.new.seat.value (λ numbered. numbered.table.limits ≡ record { holders = holders; serials = serials }) }
    ensures err { result ≢ 0 → t.new.seat.value ≡ t.old.seat.value }
{
    if t.is_open() {
        return NOT_CLOSED;
    }
    let Some(limits) = Limits::new(holders, serials) else {
        return NOT_LIMITS;
    };
    let Some(buckets) = Buckets::new(bucket_bits) else {
        return NOT_LIMITS;
    };
    match Table::with_buckets(alloc, key, limits, buckets) {
        Ok(table) => put_table(t, table, alloc),
        Err(_) => NO_MEMORY,
    }
}

/// Puts the table into a closed handle. Returns 1 if there is no memory for it.
fn put_table(t: &mut ScTable, table: Table<EmptyStaticAtomSet, TextKey>, alloc: Global) -> u32
    ensures number { (result ≡ 0) ⊎ (result ≡ 1) }
    ensures ok { result ≡ 0 → t.new.seat.value ≡ Some (record { table = table }) }
    ensures err { result ≢ 0 → t.new.seat.value ≡ t.old.seat.value }
{
    let Ok(numbered) = Box::new(alloc, NumberedTable { table }) else {
        return NO_MEMORY;
    };
    t.put(numbered);
    0
}

/// Closes the table, and frees it with all that is held. A closed table stays closed.
#[unsafe(no_mangle)]
pub extern "C" fn sc_table_close(t: &mut ScTable)
    ensures { t.new.seat.value ≡ None }
{
    drop(t.take());
}

/// Ends every entry, whoever holds it, and keeps room for as many. No ticket is given again. Returns 7 if the table is closed.
#[unsafe(no_mangle)]
pub extern "C" fn sc_table_clear(t: &mut ScTable) -> u32
    ensures none { t.old.seat.value ≡ None → result ≡ closed }
    ensures some { IsSome t.old.seat.value → result ≡ 0 }
    ensures cleared { Within t.old.seat.value t.new.seat.value (λ old new. new ≡ record { limits = old.limits; lasts = old.lasts; pairs = [] }) }
{
    let Some(mut numbered) = t.take() else {
        return CLOSED;
    };
    numbered.table.clear();
    t.put(numbered);
    0
}

/// Makes room for this many more texts of more than 7 bytes. Returns 1 if there is no memory, and 7 if the table is closed. What is held stays.
#[unsafe(no_mangle)]
pub extern "C" fn sc_table_reserve(t: &mut ScTable, more: usize) -> u32
    ensures none { t.old.seat.value ≡ None → result ≡ closed }
    ensures some { IsSome t.old.seat.value → (result ≡ 0) ⊎ (result ≡ 1) }
    ensures same { t.new.seat.value ≡ t.old.seat.value }
{
    let Some(mut numbered) = t.take() else {
        return CLOSED;
    };
    let reserved = numbered.table.reserve(more);
    t.put(numbered);
    match reserved {
        Ok(()) => 0,
        Err(_) => NO_MEMORY,
    }
}
