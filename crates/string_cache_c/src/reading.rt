//! What a table tells about its texts and about words. A call here has only what C lends, so any number of them may run at the same time.

ghost use Rattle.std.specs.Prelude.{◌≡◌, ◌≢◌, ◌<◌, ◌≤◌, ◌⊎◌, ◌↔◌, ◌-◌, ◌^◌, ℕ, List, IsTrue, None, Some, IsSome, slice_get};
ghost use Rattle.std.specs.List.{IsDistinct};
ghost use Rattle.std.specs.Map.{keys_of};
ghost use Rattle.std.specs.Str.{IsUtf8, bytes_eq};
ghost use Rattle.interner_table.specs.Kept.{Pair, map_of};
ghost use Rattle.interner_table.specs.Map.{HasHolders, IsHeldTicket};
ghost use Rattle.interner_table.specs.Table.{HasWord, IsHeld};
ghost use Rattle.interner_table.specs.Tables.{empty_tables};
ghost use Rattle.string_cache_c.specs.Calls.{CopiesText, HoldsWord, IfOpen, TellsMemory, entries_of, text_bytes_of};
ghost use Rattle.string_cache_c.specs.Numbers.{closed, not_held, not_utf8};

use crate::copies::copy_text;
use crate::loan::ScLent;
use crate::numbered_table::NumberedTable;
use crate::numbers::{CLOSED, NOT_HELD, NOT_UTF8};
use crate::texts::text_of;
use std::mem::size_of;

/// Writes the word of a text that has one, and adds no holder. Returns 6 exactly if the text has no word, 5 if the bytes aren't UTF-8, and 7 if the
/// table is closed.
#[unsafe(no_mangle)]
pub extern "C" fn sc_table_get(t: ScLent, text: &[u8], word: &mut u64) -> u32
    ensures none { t.loan.value ≡ None → result ≡ closed }
    ensures utf8 { IsSome t.loan.value → ¬ (IsUtf8 text.now) → result ≡ not_utf8 }
    ensures word { IfOpen t.loan.value (λ kept. result ≡ 0 → HasWord empty_tables (map_of kept) text.now word.new) }
    ensures held { IfOpen t.loan.value (λ kept. result ≡ 0 → IsHeld empty_tables (map_of kept) word.new) }
    ensures unheld { IfOpen t.loan.value (λ kept. result ≡ not_held → (other : ℕ) → ¬ (HasWord empty_tables (map_of kept) text.now other)) }
    ensures number { IsSome t.loan.value → IsUtf8 text.now → (result ≡ 0) ⊎ (result ≡ not_held) }
    ensures err { result ≢ 0 → word.new ≡ word.old }
{
    let Some(numbered) = t.table() else {
        return CLOSED;
    };
    let Some(text) = text_of(text) else {
        return NOT_UTF8;
    };
    match numbered.table.get(text) {
        Some(own) => {
            *word = own;
            0
        }
        None => NOT_HELD,
    }
}

/// Whether a word is held: an inline word always is, and a ticket is if someone holds it. A closed table holds none.
#[unsafe(no_mangle)]
pub extern "C" fn sc_table_holds(t: ScLent, word: u64) -> bool
    ensures holds { IsTrue result ↔ HoldsWord t.loan.value word }
{
    let Some(numbered) = t.table() else {
        return false;
    };
    numbered.table.holds(word)
}

/// Writes how many hold a ticket. Returns 6 for any other word, and 7 if the table is closed.
#[unsafe(no_mangle)]
pub extern "C" fn sc_table_holders(t: ScLent, word: u64, holders: &mut u64) -> u32
    ensures none { t.loan.value ≡ None → result ≡ closed }
    ensures holders { IfOpen t.loan.value (λ kept. result ≡ 0 → HasHolders (map_of kept) word holders.new) }
    ensures unheld { IfOpen t.loan.value (λ kept. result ≡ not_held → ¬ (IsHeldTicket (map_of kept) word)) }
    ensures number { IsSome t.loan.value → (result ≡ 0) ⊎ (result ≡ not_held) }
    ensures err { result ≢ 0 → holders.new ≡ holders.old }
{
    let Some(numbered) = t.table() else {
        return CLOSED;
    };
    match numbered.table.holders(word) {
        Some(number) => {
            *holders = number;
            0
        }
        None => NOT_HELD,
    }
}

/// Copies the text of a word that is held to the front of the room if it fits. Its length is written in either case. Returns 9 if it doesn't fit, 6
/// if the word isn't held, and 7 if the table is closed.
#[unsafe(no_mangle)]
pub extern "C" fn sc_table_text(t: ScLent, word: u64, room: &mut [u8], len: &mut usize) -> u32
    ensures none { t.loan.value ≡ None → (result ≡ closed) × (room.new ≡ room.old) × (len.new ≡ len.old) }
    ensures text { IfOpen t.loan.value (λ kept. IsHeld empty_tables (map_of kept) word → (text : List ℕ) × IsUtf8 text × HasWord empty_tables (map_of kept) text word × CopiesText text result room.old room.new len.new) }
    ensures only { IfOpen t.loan.value (λ kept. (text : List ℕ) → IsUtf8 text → HasWord empty_tables (map_of kept) text word → CopiesText text result room.old room.new len.new) }
    ensures unheld { IfOpen t.loan.value (λ kept. ¬ (IsHeld empty_tables (map_of kept) word) → (result ≡ not_held) × (room.new ≡ room.old) × (len.new ≡ len.old)) }
{
    let Some(numbered) = t.table() else {
        return CLOSED;
    };
    match numbered.table.text_of(word) {
        Some(text) => copy_text(text.as_str(), room, len),
        None => NOT_HELD,
    }
}

/// Writes the ticket and the number of holders of the text at a place in the table's order, counted from 0. Returns 6 past the last, and 7 if the
/// table is closed. A new text goes to the end; when a text is taken out, the last one takes its place.
#[unsafe(no_mangle)]
pub extern "C" fn sc_table_entry(t: ScLent, index: usize, word: &mut u64, holders: &mut u64) -> u32
    ensures none { t.loan.value ≡ None → result ≡ closed }
    ensures entry { IfOpen t.loan.value (λ kept. (pair : Pair) → slice_get kept.pairs index ≡ Some pair → (result ≡ 0) × (word.new ≡ pair.1.ticket) × (holders.new ≡ pair.1.holders)) }
    ensures past { IfOpen t.loan.value (λ kept. slice_get kept.pairs index ≡ None → result ≡ not_held) }
    ensures err { result ≢ 0 → (word.new ≡ word.old) × (holders.new ≡ holders.old) }
{
    let Some(numbered) = t.table() else {
        return CLOSED;
    };
    match numbered.table.nth(index) {
        Some(held) => {
            *word = held.word;
            *holders = held.holders;
            0
        }
        None => NOT_HELD,
    }
}

/// The number of texts of more than 7 bytes that are held. A closed table has none.
#[unsafe(no_mangle)]
pub extern "C" fn sc_table_entries(t: ScLent) -> usize
    ensures count { result ≡ entries_of t.loan.value }
    ensures distinct { IfOpen t.loan.value (λ kept. IsDistinct bytes_eq (keys_of kept.pairs)) }
{
    let Some(numbered) = t.table() else {
        return 0;
    };
    numbered.table.entries()
}

/// The bytes of the texts of more than 7 bytes that are held; 2^64 - 1 if they have that many or more.
#[unsafe(no_mangle)]
pub extern "C" fn sc_table_text_bytes(t: ScLent) -> u64
    ensures bytes { text_bytes_of t.loan.value < 2 ^ 64 → result ≡ text_bytes_of t.loan.value }
    ensures most { 2 ^ 64 ≤ text_bytes_of t.loan.value → result ≡ 2 ^ 64 - 1 }
{
    let Some(numbered) = t.table() else {
        return 0;
    };
    match u64::try_from(numbered.table.text_bytes()) {
        Ok(bytes) => bytes,
        Err(_) => u64::MAX,
    }
}

/// The bytes that the table has asked for and still holds: those that `Table::memory` counts, and the block in which the handle has the table; 2^64 -
/// 1 if they are that many or more. A closed table holds none.
#[unsafe(no_mangle)]
pub extern "C" fn sc_table_memory(t: ScLent) -> u64
    ensures none { t.loan.value ≡ None → result ≡ 0 }
    ensures memory { IfOpen t.loan.value (λ kept. TellsMemory kept result) }
{
    let Some(numbered) = t.table() else {
        return 0;
    };
    let Ok(bytes) = u64::try_from(numbered.table.memory()) else {
        return u64::MAX;
    };
    bytes.saturating_add(size_of::<NumberedTable>() as u64)
}
