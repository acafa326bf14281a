//! The names of a program, for one thread.

ghost use Rattle.std.specs.Prelude.{◌≡◌, ◌↔◌, ℕ, List, IfOk, IsTrue, string_bytes};
ghost use Rattle.interner_table.specs.Kept.{map_of};
ghost use Rattle.interner_table.specs.Table.{AreHeld};

use interner_table::Fault;
use interner_table::static_sets::{EmptyStaticAtomSet, StaticAtomSet};
use interner_table::table::Table;
use std::alloc::Global;
use std::hash::RandomState;

/// Whether two identifiers have the same word: exactly if they are the same text.
pub fn same_word(alloc: Global, keys: RandomState, left: &str, right: &str) -> Result<bool, Fault>
    ensures { IfOk result (λ same. IsTrue same ↔ (left.now ≡ right.now)) }
{
    let mut table = Table::<EmptyStaticAtomSet>::new(alloc, keys)?;
    let first = table.intern(left)?;
    let second = table.intern(right)?;
    Ok(first == second)
}

/// Whether a name is the keyword. Unless it is refused, it gives back what it interned.
pub fn is_keyword(
    table: &mut Table<EmptyStaticAtomSet>,
    name: &str,
    keyword: &str,
) -> Result<bool, Fault>
    ensures { IfOk result (λ same. IsTrue same ↔ (name.now ≡ keyword.now)) }
{
    let word = table.intern(name)?;
    let wanted = table.intern(keyword)?;
    let same = word == wanted;
    table.give(wanted);
    table.give(word);
    Ok(same)
}

/// Interns a name, reads its text back, and gives the word up again. What was held before still is.
pub fn reads_back<Static: StaticAtomSet>(
    alloc: Global,
    table: &mut Table<Static>,
    name: &str,
) -> Result<String, Fault>
    ensures text { IfOk result (λ text. string_bytes text ≡ name.now) }
    ensures held { (words : List ℕ) → AreHeld Static.tables (map_of table.old) words → AreHeld Static.tables (map_of table.new) words }
{
    let word = table.intern(name)?;
    let copy = match table.text_of(word) {
        Some(text) => String::from_str(alloc, text.as_str()),
        None => unreachable!(), // the word is held
    };
    table.release(word);
    Ok(copy?)
}
