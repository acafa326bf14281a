//! Words that are shared, handed on and read.

use super::asked::{Question, check};
use super::kept::Plain;
use crate::{assert_for, assert_that};
use example_tables::{
    comes_and_goes, first_byte, hand_on, is_known, is_shared, lent_text, price_of, reads_back,
    share,
};
use interner_table::table::Table;
use std::alloc::Global;
use std::collections::HashMap;
use std::hash::RandomState;
use std::process::Abort;
use test_samples::{One, keys};

fn with_static_text<R: Abort>(rt: &R, alloc: Global) -> Table<One> {
    let keys = keys(1).expect(rt, "keys");
    Table::new(alloc, keys).expect(rt, "a table")
}

/// Whether the text of a name is read back, and the table holds nothing after it.
fn is_read_back(alloc: Global, table: &mut Table<One>, name: &str) -> bool {
    match reads_back(alloc, table, name) {
        Ok(text) => text.as_str() == name && table.entries() == 0,
        Err(_) => false,
    }
}

static READ_BACK: [&str; 6] = [
    "",
    "table",
    "sentence",
    "tokenised",
    "m\u{f6}glicherweise",
    "a name that no table of names in a program is likely to have, since it is long",
];

fn check_reading_back<R: Abort>(rt: &R, alloc: Global, table: &mut Table<One>) {
    for name in &READ_BACK {
        assert_for(rt, is_read_back(alloc, table, name), name);
    }
}

#[test]
fn words_of_all_forms_have_texts(rt: HostRuntime) {
    let mut table = with_static_text(&rt, rt.alloc());
    check_reading_back(&rt, rt.alloc(), &mut table);
}

fn knows(table: &Plain, name: &str) -> bool {
    is_known(table, name)
}

static LOOKED_UP: [(&str, bool); 4] = [
    ("pear tree", true),
    ("plum tree", false),
    ("plum", true), // inline
    ("m\u{f6}glicherweise", true),
];

pub fn check_look_ups<R: Abort>(rt: &R, table: &Plain) {
    for (name, wanted) in &LOOKED_UP {
        assert_for(rt, knows(table, name) == *wanted, name);
    }
}

#[test]
fn names_are_looked_up(rt: HostRuntime) {
    let names = ["pear tree", "m\u{f6}glicherweise"];
    check(&rt, rt.alloc(), &names, Question::LookUps);
}

/// Whether a name is known once another one has come and gone.
fn knows_after(table: &mut Plain, other: &str, name: &str) -> bool {
    comes_and_goes(table, other).is_ok() && is_known(table, name)
}

pub fn check_coming_and_going<R: Abort>(rt: &R, table: &mut Plain) {
    assert_that(rt, !knows_after(table, "plum tree", "plum tree"));
    assert_that(rt, knows_after(table, "pear tree", "pear tree"));
}

#[test]
fn a_name_comes_and_goes(rt: HostRuntime) {
    check(&rt, rt.alloc(), &["pear tree"], Question::ComingAndGoing);
}

/// Whether a name is known once its word was handed on, and isn't shared.
fn is_handed_on(table: &mut Plain, name: &str) -> bool {
    let Some(word) = table.get(name) else {
        return false;
    };
    match hand_on(table, word) {
        Ok(next) => is_known(table, name) && !is_shared(table, next),
        Err(_) => false,
    }
}

pub fn check_handing_on<R: Abort>(rt: &R, table: &mut Plain) {
    assert_that(rt, is_handed_on(table, "pear tree"));
    assert_that(rt, is_handed_on(table, "plum")); // inline
}

#[test]
fn a_word_is_handed_on(rt: HostRuntime) {
    check(&rt, rt.alloc(), &["pear tree"], Question::HandingOn);
}

/// Whether a word was held when it was shared, and is then shared.
fn shared(table: &mut Plain, word: u64) -> Option<(bool, bool)> {
    let was_held = share(table, word).ok()?;
    Some((was_held, is_shared(table, word)))
}

/// The same for a name's word.
fn shared_name(table: &mut Plain, name: &str) -> Option<(bool, bool)> {
    let word = table.get(name)?;
    shared(table, word)
}

pub fn check_sharing<R: Abort>(rt: &R, table: &mut Plain) {
    assert_that(rt, shared_name(table, "pear tree") == Some((true, true)));
    assert_that(rt, shared_name(table, "plum") == Some((true, false))); // inline
    assert_that(rt, shared(table, 0) == Some((false, false))); // no word
}

#[test]
fn words_are_shared(rt: HostRuntime) {
    check(&rt, rt.alloc(), &["pear tree"], Question::Sharing);
}

/// The first byte of a name, by its word.
fn begins_with(table: &Plain, name: &str) -> Option<u8> {
    first_byte(table, table.get(name)?)
}

static FIRST_BYTES: [(&str, Option<u8>); 4] = [
    ("pear tree", Some(0x70)),
    ("\u{f6}rtlich gebunden", Some(0xc3)),
    ("plum", Some(0x70)),
    ("", None),
];

pub fn check_first_bytes<R: Abort>(rt: &R, table: &Plain) {
    for (name, wanted) in &FIRST_BYTES {
        assert_for(rt, begins_with(table, name) == *wanted, name);
    }
    assert_that(rt, first_byte(table, 0).is_none()); // no word
}

#[test]
fn words_have_first_bytes(rt: HostRuntime) {
    let names = ["pear tree", "\u{f6}rtlich gebunden"];
    check(&rt, rt.alloc(), &names, Question::FirstBytes);
}

/// Whether a name has a word, for which the table lends this text: none if it is inline.
fn lends(table: &Plain, name: &str, text: Option<&str>) -> bool {
    match table.get(name) {
        Some(word) => lent_text(table, word) == text,
        None => false,
    }
}

static LENT: [(&str, Option<&str>); 2] = [("pear tree", Some("pear tree")), ("plum", None)];

pub fn check_lending<R: Abort>(rt: &R, table: &Plain) {
    for (name, text) in &LENT {
        assert_for(rt, lends(table, name, *text), &name);
    }
}

#[test]
fn texts_are_lent(rt: HostRuntime) {
    check(&rt, rt.alloc(), &["pear tree"], Question::Lending);
}

/// Prices by word, with one of this word.
fn one_price(alloc: Global, word: u64) -> Option<HashMap<u64, u32, RandomState>> {
    let mut prices = HashMap::with_hasher(alloc, keys(1)?);
    prices.insert(word, 40).ok()?;
    Some(prices)
}

/// The price of a name, if one that the table knows has a price.
fn priced(alloc: Global, table: &Plain, known: &str, name: &str) -> Option<u32> {
    let prices = one_price(alloc, table.get(known)?)?;
    price_of(table, &prices, name)
}

static PRICES: [(&str, &str, Option<u32>); 4] = [
    ("pear tree", "pear tree", Some(40)),
    ("pear tree", "plum tree", None), // not held
    ("pear tree", "plum", None),
    ("plum", "plum", Some(40)), // inline
];

pub fn check_prices<R: Abort>(rt: &R, alloc: Global, table: &Plain) {
    for (known, name, price) in &PRICES {
        assert_for(rt, priced(alloc, table, known, name) == *price, name);
    }
}

#[test]
fn prices_are_found_by_text(rt: HostRuntime) {
    check(&rt, rt.alloc(), &["pear tree"], Question::Prices);
}
