//! Words that come and go: interned, shared, handed on, read and given back. Two of these functions need a proof file, the others don't.

ghost use Rattle.std.specs.Prelude.{◌≡◌, ◌↔◌, ℕ, List, IfOk, IsSome, IsTrue, MatchOption, OnErr, slice_get};
ghost use Rattle.interner_table.specs.Kept.{map_of};
ghost use Rattle.interner_table.specs.Table.{HasWord, IsHeld, IsTextOf, IsWordOf};
ghost use Rattle.example_tables.specs.Prices.{IsPriceOf};
ghost use Rattle.example_tables.specs.Sharing.{TellsShared};

use interner_table::Fault;
use interner_table::static_sets::StaticTables;
use interner_table::table::Table;
use std::collections::HashMap;
use std::hash::RandomState;

/// Interns a name, and gives its word back at once. What others hold, they still hold.
pub fn comes_and_goes<S: StaticTables>(table: &mut Table<S>, name: &str) -> Result<(), Fault>
    ensures { (other : ℕ) → IsHeld S.tables (map_of table.old) other → IsHeld S.tables (map_of table.new) other }
{
    let interned = table.intern(name)?;
    table.give(interned);
    Ok(())
}

/// Whether two names are the same text. Both words are given back, the first one first or last; a refusal gives back what was interned.
pub fn two_come_and_go<S: StaticTables>(
    table: &mut Table<S>,
    first: &str,
    second: &str,
    first_goes_first: bool,
) -> Result<bool, Fault>
    ensures { IfOk result (λ same. IsTrue same ↔ (first.now ≡ second.now)) }
{
    let one = table.intern(first)?;
    let other = match table.intern(second) {
        Ok(word) => word,
        Err(fault) => {
            table.give(one);
            return Err(fault);
        }
    };
    let same = one == other;
    if first_goes_first {
        table.give(one);
        table.give(other);
    } else {
        table.give(other);
        table.give(one);
    }
    Ok(same)
}

/// Whether three names are the same text. Unless it is refused, it gives back what it interned.
pub fn are_one_name<S: StaticTables>(
    table: &mut Table<S>,
    first: &str,
    second: &str,
    third: &str,
) -> Result<bool, Fault>
    ensures { IfOk result (λ same. IsTrue same ↔ ((first.now ≡ second.now) × (second.now ≡ third.now))) }
{
    let one = table.intern(first)?;
    let two = table.intern(second)?;
    let three = table.intern(third)?;
    let same = one == two && two == three;
    table.release(one);
    table.release(two);
    table.release(three);
    Ok(same)
}

/// Hands a word on: the next holder gets one of its own, and the caller's is given back. The word stays held, and its text's.
pub fn hand_on<S: StaticTables>(table: &mut Table<S>, word: u64) -> Result<u64, Fault>
    requires { IsHeld S.tables (map_of table.old) word }
    ensures word { IfOk result (λ next. next ≡ word) }
    ensures held { IsHeld S.tables (map_of table.new) word }
    ensures text { (text : List ℕ) → HasWord S.tables (map_of table.old) text word → HasWord S.tables (map_of table.new) text word }
{
    let next = table.clone_word(word)?;
    table.give(word);
    Ok(next)
}

/// Adds a holder to a word if somebody holds it, and returns whether somebody does.
pub fn share<S: StaticTables>(table: &mut Table<S>, word: u64) -> Result<bool, Fault>
    ensures shared { IfOk result (λ shared. IsTrue shared ↔ IsHeld S.tables (map_of table.old) word) }
    ensures refused { OnErr result (table.new ≡ table.old) }
{
    Ok(table.clone_held(word)?.is_some())
}

/// Whether a ticket has more than one holder. The holders of an inline or a static word aren't counted.
pub fn is_shared<S: StaticTables>(table: &Table<S>, word: u64) -> bool
    ensures { TellsShared (map_of table.now) word result }
{
    match table.holders(word) {
        Some(holders) => holders > 1,
        None => false,
    }
}

/// The first byte of a word's text. `None` for the empty text, and if nobody holds the word.
pub fn first_byte<S: StaticTables>(table: &Table<S>, word: u64) -> Option<u8>
    ensures held { IsSome result → IsHeld S.tables (map_of table.now) word }
    ensures first { (text : List ℕ) → IsWordOf S.tables (map_of table.now) text word → IsHeld S.tables (map_of table.now) word → result ≡ slice_get text 0 }
{
    match table.text_of(word) {
        Some(text) => text.as_str().as_bytes().first().copied(),
        None => None,
    }
}

/// The text of a static word or of a ticket, which the table lends. `None` for an inline word, which has it itself, and for a word that nobody holds.
pub fn lent_text<S: StaticTables>(table: &Table<S>, word: u64) -> Option<&str>
    ensures { MatchOption result ((text : List ℕ) → ¬ (IsTextOf S.tables (map_of table.now) word text)) (λ text. IsTextOf S.tables (map_of table.now) word text.now) }
{
    table.text(word)
}

/// The price of a name, which is looked up and not interned. The map is by words; that of a short name is its letters, so the map hashes under keys.
pub fn price_of<S: StaticTables>(
    table: &Table<S>,
    prices: &HashMap<u64, u32, RandomState>,
    name: &str,
) -> Option<u32>
    ensures { IsPriceOf S.tables (map_of table.now) prices.now.entries name.now result }
{
    match table.get(name) {
        Some(word) => prices.get(&word).copied(),
        None => None,
    }
}
