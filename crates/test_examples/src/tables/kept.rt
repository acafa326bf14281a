//! What tables keep.

use crate::assert_that;
use example_tables::{
    all_done, all_held, any_shared, bytes_for_each, first_text, last_text, make_room, small_table,
    start_over, table_of, table_with_holders, takes_at_most, two_come_and_go, usual_length,
};
use interner_table::static_sets::EmptyStaticAtomSet;
use interner_table::table::{Call, Table};
use std::alloc::Global;
use std::process::Abort;
use test_samples::keys;

/// A table without static texts.
pub type Plain = Table<EmptyStaticAtomSet>;

/// The first ticket of "interned" in a table of 4096 buckets.
const FIRST: u64 = 0x1_0840;

/// The inline word of "abcdefg".
const SHORT: u64 = 0x6766_6564_6362_6171;

/// A table of these names, about which nothing else is known, so that the proofs of tests have less to read.
pub fn filled<R: Abort>(rt: &R, alloc: Global, names: &[&str]) -> Plain {
    let keys = keys(1).expect(rt, "keys");
    table_of(alloc, keys, names).expect(rt, "a table")
}

/// The same, unless it is refused.
fn made_of(alloc: Global, names: &[&str]) -> Option<Plain> {
    let keys = keys(1)?;
    table_of(alloc, keys, names).ok()
}

/// Whether a table of these names passes the question.
fn of_table<F: Fn(&mut Plain) -> bool>(alloc: Global, names: &[&str], ask: F) -> bool
    requires { F.IsAlwaysCallable ask }
{
    match made_of(alloc, names) {
        Some(mut table) => ask(&mut table),
        None => false,
    }
}

fn has_no_ends(table: &mut Plain) -> bool {
    first_text(table).is_none() && last_text(table).is_none()
}

fn has_ends(table: &mut Plain) -> bool {
    first_text(table) == Some("pear tree") && last_text(table) == Some("m\u{f6}glicherweise")
}

#[test]
fn tables_have_a_first_and_a_last_text(rt: HostRuntime) {
    assert_that(&rt, of_table(rt.alloc(), &["plum", "tea"], has_no_ends)); // inline
    let names = ["pear tree", "plum", "m\u{f6}glicherweise", "pear tree"];
    assert_that(&rt, of_table(rt.alloc(), &names, has_ends));
}

/// Many names, none of them inline.
static MANY_NAMES: [&str; 12] = [
    "pear tree",
    "plum tree",
    "m\u{f6}glicherweise",
    "afterwards",
    "geometric",
    "elsewhere",
    "magnitude",
    "forgotten",
    "repeated",
    "tokenised",
    "sentence",
    "interned",
];

fn has_ends_of_many(table: &mut Plain) -> bool {
    first_text(table) == Some("pear tree") && last_text(table) == Some("interned")
}

#[test]
fn large_tables_have_a_first_and_a_last_text(rt: HostRuntime) {
    assert_that(&rt, of_table(rt.alloc(), &MANY_NAMES, has_ends_of_many));
}

fn shares_any(table: &mut Plain) -> bool {
    any_shared(table)
}

fn shares_none(table: &mut Plain) -> bool {
    !any_shared(table)
}

#[test]
fn shared_texts_are_seen(rt: HostRuntime) {
    assert_that(&rt, of_table(rt.alloc(), &[], shares_none));
    let names = ["pear tree", "plum tree", "tea", "tea"];
    assert_that(&rt, of_table(rt.alloc(), &names, shares_none));
    let names = ["plum tree"; 70];
    assert_that(&rt, of_table(rt.alloc(), &names, shares_any));
}

fn has_no_length(table: &mut Plain) -> bool {
    usual_length(table).is_none()
}

fn has_usual_length(table: &mut Plain) -> bool {
    usual_length(table) == Some(12)
}

#[test]
fn usual_lengths(rt: HostRuntime) {
    assert_that(&rt, of_table(rt.alloc(), &["plum"], has_no_length)); // inline
    let names = ["pear tree", "m\u{f6}glicherweise"];
    assert_that(&rt, of_table(rt.alloc(), &names, has_usual_length));
}

/// 4096 serials, two texts, nine places for texts and nine for tickets (64 + 9 * 48, and 64 + 9 * 16), and one byte.
const BYTES: u128 = 4096 * 8 + 18 + 496 + 208 + 1;

fn takes_all_bytes(table: &mut Plain) -> bool {
    takes_at_most(table, BYTES)
        && !takes_at_most(table, BYTES - 1)
        && bytes_for_each(table) == Some(BYTES / 2)
}

fn takes_none_for_each(table: &mut Plain) -> bool {
    bytes_for_each(table).is_none()
}

#[test]
fn memory_is_told(rt: HostRuntime) {
    let names = ["pear tree", "plum tree"];
    assert_that(&rt, of_table(rt.alloc(), &names, takes_all_bytes));
    assert_that(&rt, of_table(rt.alloc(), &[], takes_none_for_each));
}

/// Whether a small table takes at most this many bytes.
fn small_takes(alloc: Global, bytes: u128) -> Option<bool> {
    match small_table(alloc) {
        Ok(table) => Some(takes_at_most(&table, bytes)),
        Err(_) => None,
    }
}

#[test]
fn a_small_table_takes_little(rt: HostRuntime) {
    assert_that(&rt, small_takes(rt.alloc(), 128) == Some(true));
    assert_that(&rt, small_takes(rt.alloc(), 127) == Some(false));
}

/// Whether two holders of a name come and go, or one goes if there may be no more, and nothing is held then.
fn two_come(table: &mut Plain, are_allowed: bool) -> bool {
    let outcome = two_come_and_go(table, "pear tree", "pear tree", true);
    outcome.is_ok() == are_allowed && table.entries() == 0
}

/// Whether at most this many hold "pear tree", which nobody held before.
fn is_full_at(table: &mut Plain, holders: u64) -> bool {
    if !two_come(table, holders > 1) {
        return false;
    }
    for _ in 0..70 {
        if !two_come(table, holders > 1) {
            return false;
        }
    }
    for _ in 0..holders {
        if table.intern("pear tree").is_err() {
            return false;
        }
    }
    table.intern("pear tree").is_err()
}

/// Whether a table with this many holders is full at them. `None` if there is none.
fn is_limited(alloc: Global, holders: u64) -> Option<bool> {
    let keys = keys(1)?;
    match table_with_holders(alloc, keys, holders) {
        Ok(Some(mut table)) => Some(is_full_at(&mut table, holders)),
        _ => None,
    }
}

#[test]
fn holders_are_limited(rt: HostRuntime) {
    assert_that(&rt, is_limited(rt.alloc(), 1) == Some(true));
    assert_that(&rt, is_limited(rt.alloc(), 70_000) == Some(true));
    assert_that(&rt, is_limited(rt.alloc(), 0).is_none());
}

fn holds_first(table: &Plain) -> bool {
    all_held(table, &[FIRST])
}

/// More names than there are places in a group.
static MORE: [&str; 12] = ["plum tree"; 12];

/// Whether "interned" is held once room was made, which takes more than a group of places, and isn't once the table started over.
fn has_room_and_starts_over(table: &mut Plain) -> bool {
    let has_room = make_room(table, &MORE).is_ok() && !takes_at_most(table, BYTES);
    let is_held = holds_first(table);
    start_over(table);
    has_room && is_held && !holds_first(table)
}

#[test]
fn a_table_has_room_and_starts_over(rt: HostRuntime) {
    assert_that(
        &rt,
        of_table(rt.alloc(), &["interned"], has_room_and_starts_over),
    );
}

fn holds_words(table: &mut Plain) -> bool {
    all_held(table, &[]) && all_held(table, &[FIRST, SHORT, FIRST]) && !all_held(table, &[FIRST, 0])
}

#[test]
fn words_are_all_held_or_not(rt: HostRuntime) {
    assert_that(&rt, of_table(rt.alloc(), &["interned"], holds_words));
}

/// Whether a call is done, asked as the only one of its list.
fn is_done(table: &mut Plain, call: Call) -> Option<bool> {
    all_done(table, &[call]).ok()
}

/// The same for two calls.
fn are_done(table: &mut Plain, call: Call, other: Call) -> Option<bool> {
    all_done(table, &[call, other]).ok()
}

/// The same for none.
fn is_none_done(table: &mut Plain) -> Option<bool> {
    all_done(table, &[]).ok()
}

/// Whether two calls are done, or just the first of two, and none.
fn are_done_together(table: &mut Plain) -> bool {
    are_done(table, Call::Clone(FIRST), Call::Give(FIRST)) == Some(true)
        && are_done(table, Call::Clone(SHORT), Call::Give(0)) == Some(false)
        && is_none_done(table) == Some(true)
}

/// Whether "interned" is cloned, and given twice and no more.
fn is_done_in_turn(table: &mut Plain) -> bool {
    is_done(table, Call::Clone(FIRST)) == Some(true)
        && is_done(table, Call::Give(FIRST)) == Some(true)
        && is_done(table, Call::Give(FIRST)) == Some(true)
        && is_done(table, Call::Give(FIRST)) == Some(false)
}

#[test]
fn calls_are_done_or_not(rt: HostRuntime) {
    assert_that(&rt, of_table(rt.alloc(), &["interned"], are_done_together));
    assert_that(&rt, of_table(rt.alloc(), &["interned"], is_done_in_turn));
}
