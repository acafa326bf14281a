//! Tables of a list of texts, and checks of table texts: a call that is made again returns what it returns the first time.

use crate::assert_that;
use std::alloc::Global;
use std::process::Abort;
use table_generator::check::check_tables;
use table_generator::generate::generate;
use table_generator::tables::{GenFault, Tables};
use test_refusals::at_last;

/// More than five texts: if a search for so few finds no tables, it must show that there are none.
static TEXTS: [&str; 7] = [
    "here",
    "sentence",
    "text",
    "tokenised",
    "interned",
    "repeated",
    "tokens",
];

/// The text of tables, which end here.
fn printed<R: Abort>(rt: &R, alloc: Global, tables: Tables) -> String {
    format!(in alloc; "{tables}").expect(rt, "a text")
}

#[test]
fn tables_are_made(rt: HostRuntime) {
    let alloc = rt.alloc();
    let list = TEXTS.as_slice();
    let tables = at_last(&rt, || generate(alloc, list, 1, 64)).expect(&rt, "an answer");
    let again = generate(alloc, list, 1, 64).expect(&rt, "tables");
    let text = printed(&rt, alloc, tables);
    assert_that(&rt, text == printed(&rt, alloc, again));
    assert_that(&rt, check_tables(alloc, &text).expect(&rt, "an answer"));
}

/// Two texts are equal: that is reported whatever request is refused.
static DOUBLED: [&str; 7] = [
    "here",
    "sentence",
    "text",
    "tokenised",
    "interned",
    "sentence",
    "tokens",
];

#[test]
fn doubles_are_told(rt: HostRuntime) {
    let alloc = rt.alloc();
    let answer = at_last(&rt, || generate(alloc, DOUBLED.as_slice(), 1, 64));
    assert_that(&rt, answer.err() == Some(GenFault::Doubled));
}

/// By OpenSSL's SipHash the places of the two among two are 0 and 1.
#[test]
fn table_text_is_checked(rt: HostRuntime) {
    let alloc = rt.alloc();
    let text = "key 0\ndisp 0 0\natom ed02e6f16c03c165 sentence\natom 556a6dba06a47210 interned\n";
    let is_perfect = at_last(&rt, || check_tables(alloc, text)).expect(&rt, "an answer");
    assert_that(&rt, is_perfect);
}
