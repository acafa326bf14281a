//! Names that are compared.

use super::asked::{Question, check};
use super::kept::Plain;
use crate::assert_for;
use example_tables::{are_one_name, is_keyword, same_word, two_come_and_go};
use interner_table::word::{Form, form_of};
use std::process::Abort;
use test_samples::keys;

/// Two names, and whether they are the same.
static PAIRS: [(&str, &str, bool); 7] = [
    ("while", "while", true),
    ("while", "where", false),
    ("continue", "continue", true),
    ("continue", "contrive", false),
    ("interned", "internal", false),
    ("m\u{f6}glich", "m\u{f6}glich", true),
    ("a", "", false),
];

#[test]
fn names_have_one_word_each(rt: HostRuntime) {
    let keys = keys(1).expect(&rt, "keys");
    for (left, right, wanted) in &PAIRS {
        let found = same_word(rt.alloc(), keys, left, right);
        assert_for(&rt, found == Ok(*wanted), left);
    }
}

/// Whether that is what is said about a name and a keyword, and the table holds nothing after it.
fn told_of_keyword(table: &mut Plain, name: &str, keyword: &str, wanted: bool) -> bool {
    is_keyword(table, name, keyword) == Ok(wanted) && table.entries() == 0
}

pub fn check_keywords<R: Abort>(rt: &R, table: &mut Plain) {
    for (name, word, wanted) in &PAIRS {
        assert_for(rt, told_of_keyword(table, name, word, *wanted), name);
    }
}

#[test]
fn keywords_are_told_and_given_back(rt: HostRuntime) {
    check(&rt, rt.alloc(), &[], Question::Keywords);
}

/// The same for two names that go in either order.
fn told_of_two(table: &mut Plain, first: &str, second: &str, wanted: bool) -> bool {
    two_come_and_go(table, first, second, true) == Ok(wanted)
        && table.entries() == 0
        && two_come_and_go(table, first, second, false) == Ok(wanted)
        && table.entries() == 0
}

pub fn check_two_names<R: Abort>(rt: &R, table: &mut Plain) {
    for (first, second, wanted) in &PAIRS {
        assert_for(rt, told_of_two(table, first, second, *wanted), first);
    }
}

#[test]
fn two_names_go_in_either_order(rt: HostRuntime) {
    check(&rt, rt.alloc(), &[], Question::TwoNames);
}

/// The same for a name twice, and another.
fn told_of_three(table: &mut Plain, name: &str, other: &str, wanted: bool) -> bool {
    are_one_name(table, name, name, other) == Ok(wanted) && table.entries() == 0
}

pub fn check_three_names<R: Abort>(rt: &R, table: &mut Plain) {
    for (name, other, wanted) in &PAIRS {
        assert_for(rt, told_of_three(table, name, other, *wanted), name);
    }
}

#[test]
fn three_names_are_compared(rt: HostRuntime) {
    check(&rt, rt.alloc(), &[], Question::ThreeNames);
}

/// How many hold a text. `None` if nobody does, or it is inline.
fn holders_of(table: &Plain, text: &str) -> Option<u64> {
    table.holders(table.get(text)?)
}

/// Whether the table holds "continue" once and "interned" twice, and nothing else.
fn is_as_before(table: &Plain) -> bool {
    table.entries() == 2
        && holders_of(table, "continue") == Some(1)
        && holders_of(table, "interned") == Some(2)
}

/// Whether that is so once names of which the table holds some, or all, were compared.
fn stays_as_it_is(table: &mut Plain, first: &str, second: &str) -> bool {
    is_keyword(table, first, second).is_ok()
        && is_as_before(table)
        && two_come_and_go(table, first, second, true).is_ok()
        && is_as_before(table)
        && two_come_and_go(table, first, second, false).is_ok()
        && is_as_before(table)
        && are_one_name(table, first, second, first).is_ok()
        && is_as_before(table)
}

static COMPARED: [(&str, &str); 5] = [
    ("continue", "continue"),
    ("continue", "interned"),
    ("interned", "internal"),
    ("internal", "continue"),
    ("while", "continue"),
];

pub fn check_what_was_held<R: Abort>(rt: &R, table: &mut Plain) {
    for (first, second) in &COMPARED {
        assert_for(rt, stays_as_it_is(table, first, second), &(first, second));
    }
}

/// What was held before names are compared is held by as many after it.
#[test]
fn compared_names_are_held_as_before(rt: HostRuntime) {
    let names = ["continue", "interned", "interned"];
    check(&rt, rt.alloc(), &names, Question::WhatWasHeld);
}

/// Whether the word of a text is a ticket. `None` if it is neither that nor inline.
fn is_dynamic(table: &mut Plain, text: &str) -> Option<bool> {
    match form_of(table.intern(text).ok()?)? {
        Form::Dynamic { .. } => Some(true),
        Form::Inline(_) => Some(false),
        Form::Static(_) => None,
    }
}

fn is_long(word: &str) -> bool {
    ["sentence", "tokenised", "interned", "repeated"].contains(&word)
}

pub fn check_forms<R: Abort>(rt: &R, table: &mut Plain) {
    let text =
        "here is a sentence of text that will be tokenised and\ninterned and some repeated tokens is of text and";
    for word in text.split_whitespace() {
        assert_for(rt, is_dynamic(table, word) == Some(is_long(word)), &word);
    }
}

/// Of the words of the original's example, exactly four are dynamic.
#[test]
fn forms_of_the_example(rt: HostRuntime) {
    check(&rt, rt.alloc(), &[], Question::Forms);
}
