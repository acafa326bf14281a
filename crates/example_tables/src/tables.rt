//! The names of a program as a table keeps them: found without adding a holder, and read by several threads.

ghost use Rattle.std.specs.Prelude.{◌≡◌, ◌↔◌, ℕ, IfSome, IsTrue, Some};
ghost use Rattle.interner_table.specs.Kept.{map_of};
ghost use Rattle.interner_table.specs.Map.{Holding};
ghost use Rattle.interner_table.specs.Table.{HasWord};
ghost use Rattle.interner_table.specs.Tables.{empty_tables};
ghost use Rattle.example_tables.specs.Lengths.{IsLengthOf};

use interner_table::static_sets::{EmptyStaticAtomSet, StaticAtomSet};
use interner_table::table::Table;
use std::thread;
use std::thread::Threads;

/// Whether a name has a word: it is inline, static, or held.
pub fn is_known<Static: StaticAtomSet>(table: &Table<Static>, name: &str) -> bool
    ensures { IsTrue result ↔ ((word : ℕ) × HasWord Static.tables (map_of table.now) name.now word) }
{
    table.get(name).is_some()
}

/// The first of the dynamic texts that are held, in the table's order. `None` if there are none.
pub fn first_text<Static: StaticAtomSet>(table: &Table<Static>) -> Option<&str>
    ensures held { IfSome result (λ text. (had : Holding) × ((map_of table.now).held text.now ≡ Some had)) }
{
    let held = table.iter().next()?;
    Some(held.text)
}

/// The bytes of the text of a word. `None` if nobody holds it.
fn length_of<Static: StaticAtomSet>(table: &Table<Static>, word: u64) -> Option<usize>
    ensures { IsLengthOf Static.tables (map_of table.now) word result }
{
    match table.text_of(word) {
        Some(text) => Some(text.as_str().len()),
        None => None,
    }
}

/// The bytes of the texts of two words, read by two threads at once after all names are interned.
pub fn lengths_of_both<R: Threads + Sync>(
    rt: &R,
    table: &Table<EmptyStaticAtomSet>,
    left: u64,
    right: u64,
) -> (Option<usize>, Option<usize>)
    ensures left { IsLengthOf empty_tables (map_of table.now) left result.0 }
    ensures right { IsLengthOf empty_tables (map_of table.now) right result.1 }
{
    thread::join(rt, || length_of(table, left), || length_of(table, right))
}
