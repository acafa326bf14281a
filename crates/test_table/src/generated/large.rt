//! Lists of many texts, and long texts.

use super::checked::checked;
use super::{are_checked, lent, numbered, spread, tables_of};
use crate::{assert_for, assert_that};
use std::alloc::Global;
use std::process::Abort;
use string_cache_core::Fault;
use table_generator::tables::{GenFault, Tables};

/// Whether these are perfect tables of this many texts, with this many displacements.
fn are_of(alloc: Global, tables: &Tables, texts: usize, pairs: usize) -> bool {
    tables.atoms.len() == texts
        && tables.disps.len() == pairs
        && are_checked(alloc, tables) == Ok(true)
}

/// Whether the tables of the texts are perfect, with a pair of displacements for every five.
fn are_placed(alloc: Global, texts: &[String]) -> Result<bool, GenFault> {
    let list = lent(alloc, texts)?;
    let tables = tables_of(alloc, &list, 0, 65_536)?;
    Ok(are_of(alloc, &tables, texts.len(), texts.len().div_ceil(5)))
}

#[test]
fn two_thousand_texts(rt: HostRuntime) {
    let texts = spread(rt.alloc(), 2000).expect(&rt, "texts");
    assert_that(&rt, are_placed(rt.alloc(), &texts) == Ok(true));
}

/// Short lists, each with a key under which some pair needs a first displacement of some hundreds, the fifth one of 5,831; of eight texts, the last
/// second displacement that is tried, and the last first one. The last key is large.
static LATE: [(usize, u64); 8] = [
    (9, 41),
    (13, 92),
    (14, 18),
    (15, 50),
    (21, 1_681),
    (8, 26),
    (8, 233),
    (9, u64::MAX - 1),
];

/// Whether this many texts are placed under the key.
fn are_numbered_placed(alloc: Global, count: usize, key: u64) -> Result<bool, GenFault> {
    let texts = numbered(alloc, count)?;
    let tables = tables_of(alloc, &lent(alloc, &texts)?, key, u32::MAX)?;
    Ok(are_of(alloc, &tables, count, count.div_ceil(5)))
}

#[test]
fn late_displacements_are_found(rt: HostRuntime) {
    for (count, key) in &LATE {
        let are_placed = are_numbered_placed(rt.alloc(), *count, *key);
        assert_for(&rt, are_placed == Ok(true), &(count, key));
    }
}

/// A text of 210,000 bytes, not all of it ASCII.
fn long_text(rt: &impl Abort, alloc: Global) -> String {
    "né€𝄞".repeat(alloc, 21_000).expect(rt, "a text")
}

/// Whether the text alone has tables.
fn is_placed_alone(alloc: Global, text: &str) -> Result<bool, GenFault> {
    let tables = tables_of(alloc, &[text], 0, 1)?;
    Ok(are_of(alloc, &tables, 1, 1))
}

/// Whether the empty text, a NUL, one with a space and a carriage return, other controls, and line ends beyond ASCII have tables.
fn are_odd_placed(alloc: Global) -> Result<bool, GenFault> {
    let texts = ["", "\0", "two words\r", "\t\x1b[0m\x7f", "\u{85}\u{2028}"];
    let tables = tables_of(alloc, &texts, 0, 1_024)?;
    Ok(are_of(alloc, &tables, 5, 1))
}

#[test]
fn long_text_is_placed(rt: HostRuntime) {
    let text = long_text(&rt, rt.alloc());
    assert_that(&rt, is_placed_alone(rt.alloc(), &text) == Ok(true));
    assert_that(&rt, are_odd_placed(rt.alloc()) == Ok(true));
}

/// Whether the table text of the one text, whatever its hash, is that of perfect tables, and isn't without a line feed.
fn is_checked_alone(alloc: Global, text: &str) -> Result<bool, Fault> {
    let mut lines = format!(in alloc; "key 0\ndisp 0 0\natom 1122334455667788 {text}")?;
    let is_cut = checked(alloc, &lines)?;
    lines.push_str("\n")?;
    Ok(!is_cut && checked(alloc, &lines)?)
}

#[test]
fn long_table_text_is_checked(rt: HostRuntime) {
    let text = long_text(&rt, rt.alloc())
        .repeat(rt.alloc(), 5)
        .expect(&rt, "a text");
    assert_that(&rt, is_checked_alone(rt.alloc(), &text) == Ok(true));
}
