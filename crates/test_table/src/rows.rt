//! Calls of a table as data: what each returns, and what the table tells between them. One function makes tables and follows the rows in each, so
//! that a test has none of its own. The tables have hashers of several kinds, which no answer depends on.

use crate::assert_for;
use crate::hashers::{Alike, keys_of};
use std::alloc::Global;
use std::hash::BuildHasher;
use std::process::Abort;
use string_cache_core::Fault;
use string_cache_core::static_sets::{EmptyStaticAtomSet, StaticAtomSet};
use string_cache_core::table::{Call, Table, TableReply, TrustedTexts};
use string_cache_core::word::{Buckets, Form, Limits, form_of};

/// A call of a table with what it must return, or what the table must tell.
#[derive(Drop)]
pub enum Row {
    /// The text is interned as this word, or refused with this fault.
    Intern(&'static str, Result<u64, Fault>),
    /// The text is interned as the first ticket of its bucket.
    First(&'static str),
    /// The word is held, and given.
    Give(u64),
    /// The word is held, and is cloned or refused with this fault.
    Clone(u64, Result<u64, Fault>),
    /// A holder of the word is added if it is held.
    CloneHeld(u64, Result<Option<u64>, Fault>),
    /// Whether a holder of the word goes.
    Release(u64, bool),
    /// Room for this many texts is made, or refused with this fault.
    Reserve(usize, Result<(), Fault>),
    /// All holders go.
    Clear,
    /// The calls are made in a run, with these replies.
    Run(&'static [Made], &'static [TableReply]),
    /// The word is cloned this often in one run.
    RunClones(u64, usize),
    /// The text has this word, is given, and so on, this often: each time the word is the next ticket.
    ComeAndGo(&'static str, u64, usize),
    /// The table tells this.
    Tell(Told),
}

/// What a table tells.
#[derive(Drop)]
pub enum Told {
    /// Whether the word is held.
    Held(u64, bool),
    /// The text that the word has in the table.
    Text(u64, &'static str),
    /// The word has no text in the table.
    NoText(u64),
    /// The text of the word, wherever it is.
    TextOf(u64, &'static str),
    /// The word has no text.
    NoTextOf(u64),
    /// The word that is found by the text.
    Found(&'static str, Option<u64>),
    /// How many hold the word.
    Holders(u64, Option<u64>),
    /// How many entries there are, and how many bytes.
    Keeps(usize, u128),
    /// The texts in their order, each with its holders.
    Lists(&'static [(&'static str, u64)]),
    /// The texts at their places, each with its holders.
    Stand(&'static [(&'static str, u64)]),
    /// There are three texts, the first of which is "interned" with one holder.
    Three,
    /// Each text has one holder, and is that of its word.
    HeldOnce,
}

/// A call that is made in a run.
#[derive(Drop)]
pub enum Made {
    Intern(&'static str),
    Clone(u64),
    Give(u64),
}

// These say nothing about what they do, so that their callers are proved in a moment.

pub fn interns<S: StaticAtomSet, H: BuildHasher>(
    table: &mut Table<S, H>,
    text: &str,
    wanted: Result<u64, Fault>,
) -> bool {
    table.intern(text) == wanted
}

/// Whether it is the first ticket of its bucket.
pub fn is_first(word: u64) -> bool {
    matches!(form_of(word), Some(Form::Dynamic { serial: 1, .. }))
}

fn interns_first<S: StaticAtomSet, H: BuildHasher>(table: &mut Table<S, H>, text: &str) -> bool {
    match table.intern(text) {
        Ok(word) => is_first(word),
        Err(_) => false,
    }
}

/// Whether the word is held, and then given.
pub fn gives<S: StaticAtomSet, H: BuildHasher>(table: &mut Table<S, H>, word: u64) -> bool {
    if !table.holds(word) {
        return false;
    }
    table.give(word);
    true
}

fn clones<S: StaticAtomSet, H: BuildHasher>(
    table: &mut Table<S, H>,
    word: u64,
    wanted: Result<u64, Fault>,
) -> bool {
    if !table.holds(word) {
        return false;
    }
    table.clone_word(word) == wanted
}

fn clones_held<S: StaticAtomSet, H: BuildHasher>(
    table: &mut Table<S, H>,
    word: u64,
    wanted: Result<Option<u64>, Fault>,
) -> bool {
    table.clone_held(word) == wanted
}

pub fn releases<S: StaticAtomSet, H: BuildHasher>(table: &mut Table<S, H>, word: u64) -> bool {
    table.release(word)
}

pub fn reserves<S: StaticAtomSet, H: BuildHasher>(
    table: &mut Table<S, H>,
    number: usize,
    wanted: Result<(), Fault>,
) -> bool {
    table.reserve(number) == wanted
}

fn clear<S: StaticAtomSet, H: BuildHasher>(table: &mut Table<S, H>) {
    table.clear();
}

fn call_of(rt: &impl Abort, alloc: Global, made: &Made) -> Call {
    match made {
        Made::Intern(text) => Call::Intern(String::from_str(alloc, text).expect(rt, "a text")),
        Made::Clone(word) => Call::Clone(*word),
        Made::Give(word) => Call::Give(*word),
    }
}

fn calls_of(rt: &impl Abort, alloc: Global, made: &[Made]) -> Vec<Call> {
    let mut calls = Vec::new(alloc);
    for call in made {
        calls.push(call_of(rt, alloc, call)).expect(rt, "room");
    }
    calls
}

/// This many calls that clone this word.
fn calls_of_clones(rt: &impl Abort, alloc: Global, word: u64, number: usize) -> Vec<Call> {
    let mut calls = Vec::new(alloc);
    for _ in 0..number {
        calls.push(Call::Clone(word)).expect(rt, "room");
    }
    calls
}

fn run<S: StaticAtomSet, H: BuildHasher>(
    rt: &impl Abort,
    table: &mut Table<S, H>,
    calls: &[Call],
) -> Vec<TableReply> {
    table.run(calls).expect(rt, "replies")
}

/// Whether these are the replies to the calls.
fn runs<S: StaticAtomSet, H: BuildHasher>(
    rt: &impl Abort,
    alloc: Global,
    table: &mut Table<S, H>,
    made: &[Made],
    wanted: &[TableReply],
) -> bool {
    let calls = calls_of(rt, alloc, made);
    run(rt, table, &calls).as_slice() == wanted
}

/// Whether there are this many replies, each of them this one.
fn are_all(replies: &[TableReply], number: usize, wanted: TableReply) -> bool {
    replies.len() == number && replies.iter().all(|reply| *reply == wanted)
}

/// Whether this many clones of the word in one run are replied to, each with the word.
fn runs_clones<S: StaticAtomSet, H: BuildHasher>(
    rt: &impl Abort,
    alloc: Global,
    table: &mut Table<S, H>,
    word: u64,
    number: usize,
) -> bool {
    let calls = calls_of_clones(rt, alloc, word, number);
    are_all(&run(rt, table, &calls), number, TableReply::Word(word))
}

/// The unit of a ticket: two that a bucket gives one after the other differ by it.
const TICKET_UNIT: u64 = 65536;

/// Whether the text comes and goes this often, with one ticket after another.
fn comes_and_goes<S: StaticAtomSet, H: BuildHasher>(
    table: &mut Table<S, H>,
    text: &str,
    first: u64,
    times: usize,
) -> bool {
    let mut next = first;
    for _ in 0..times {
        if !interns(table, text, Ok(next)) || !gives(table, next) {
            return false;
        }
        next = next.wrapping_add(TICKET_UNIT);
    }
    true
}

pub fn keeps<S: StaticAtomSet, H: BuildHasher>(
    table: &Table<S, H>,
    entries: usize,
    bytes: u128,
) -> bool {
    table.entries() == entries && table.text_bytes() == bytes
}

pub fn has_text<S: StaticAtomSet, H: BuildHasher>(
    table: &Table<S, H>,
    word: u64,
    text: &str,
) -> bool {
    match table.text(word) {
        Some(own) => own == text,
        None => false,
    }
}

fn has_no_text<S: StaticAtomSet, H: BuildHasher>(table: &Table<S, H>, word: u64) -> bool {
    table.text(word).is_none()
}

/// Whether `text_of` gives this text.
pub fn is_text_of<S: StaticAtomSet, H: BuildHasher>(
    table: &Table<S, H>,
    word: u64,
    text: &str,
) -> bool {
    match table.text_of(word) {
        Some(own) => own.as_str() == text,
        None => false,
    }
}

fn is_of_no_text<S: StaticAtomSet, H: BuildHasher>(table: &Table<S, H>, word: u64) -> bool {
    table.text_of(word).is_none()
}

fn is_held<S: StaticAtomSet, H: BuildHasher>(table: &Table<S, H>, word: u64) -> bool {
    table.holds(word)
}

pub fn finds<S: StaticAtomSet, H: BuildHasher>(
    table: &Table<S, H>,
    text: &str,
    word: Option<u64>,
) -> bool {
    table.get(text) == word
}

pub fn has_holders<S: StaticAtomSet, H: BuildHasher>(
    table: &Table<S, H>,
    word: u64,
    holders: Option<u64>,
) -> bool {
    table.holders(word) == holders
}

/// Whether the table gives these texts, in this order, each with its holders.
pub fn lists<S: StaticAtomSet, H: BuildHasher>(
    table: &Table<S, H>,
    wanted: &[(&str, u64)],
) -> bool {
    let mut texts = table.iter();
    for (text, holders) in wanted {
        match texts.next() {
            Some(held) if held.text == *text && held.holders == *holders => {}
            _ => return false,
        }
    }
    texts.next().is_none()
}

/// Whether the text at a place is this one, with its word and its holders, or there is none.
fn stands_at<S: StaticAtomSet, H: BuildHasher>(
    table: &Table<S, H>,
    at: usize,
    wanted: Option<(&str, u64)>,
) -> bool {
    match (table.nth(at), wanted) {
        (Some(held), Some((text, holders))) => {
            held.text == text && held.holders == holders && table.get(text) == Some(held.word)
        }
        (None, None) => true,
        _ => false,
    }
}

/// Whether these texts are at the first places, each with its holders, and none after them.
fn stand_in_order<S: StaticAtomSet, H: BuildHasher>(
    table: &Table<S, H>,
    wanted: &[(&str, u64)],
) -> bool {
    for (at, (text, holders)) in wanted.iter().enumerate() {
        if !stands_at(table, at, Some((*text, *holders))) {
            return false;
        }
    }
    stands_at(table, wanted.len(), None)
}

/// The first ticket of "interned", and the next one: its bucket is 0x210, the low bits of the text's hash 0x556a_6dba_06a4_7210.
pub const FIRST: u64 = 0x1_0840;

pub const SECOND: u64 = 0x2_0840;

/// The first two of three texts, and how many are left at each.
fn goes_over_three<S: StaticAtomSet, H: BuildHasher>(table: &Table<S, H>) -> bool {
    let mut texts = table.iter();
    let sizes = (texts.len(), texts.size_hint());
    let first = texts.next();
    let rest: Result<_, _> = texts.clone();
    match (first, rest) {
        (Some(held), Ok(rest)) => {
            sizes == (3, (3, Some(3)))
                && held.text == "interned"
                && held.word == FIRST
                && held.holders == 1
                && rest.len() == 2
        }
        _ => false,
    }
}

/// Whether each text that the table gives has one holder, and is that of its word.
fn are_held_once<S: StaticAtomSet, H: BuildHasher>(table: &Table<S, H>) -> bool {
    for held in table {
        if held.holders != 1 || !is_text_of(table, held.word, held.text) {
            return false;
        }
    }
    true
}

fn tells<S: StaticAtomSet, H: BuildHasher>(table: &Table<S, H>, told: &Told) -> bool {
    match told {
        Told::Held(word, wanted) => is_held(table, *word) == *wanted,
        Told::Text(word, text) => has_text(table, *word, text),
        Told::NoText(word) => has_no_text(table, *word),
        Told::TextOf(word, text) => is_text_of(table, *word, text),
        Told::NoTextOf(word) => is_of_no_text(table, *word),
        Told::Found(text, word) => finds(table, text, *word),
        Told::Holders(word, holders) => has_holders(table, *word, *holders),
        Told::Keeps(entries, bytes) => keeps(table, *entries, *bytes),
        Told::Lists(wanted) => lists(table, wanted),
        Told::Stand(wanted) => stand_in_order(table, wanted),
        Told::Three => goes_over_three(table),
        Told::HeldOnce => are_held_once(table),
    }
}

fn is_right<S: StaticAtomSet, H: BuildHasher>(
    rt: &impl Abort,
    alloc: Global,
    table: &mut Table<S, H>,
    row: &Row,
) -> bool {
    match row {
        Row::Intern(text, wanted) => interns(table, text, *wanted),
        Row::First(text) => interns_first(table, text),
        Row::Give(word) => gives(table, *word),
        Row::Clone(word, wanted) => clones(table, *word, *wanted),
        Row::CloneHeld(word, wanted) => clones_held(table, *word, *wanted),
        Row::Release(word, wanted) => releases(table, *word) == *wanted,
        Row::Reserve(number, wanted) => reserves(table, *number, *wanted),
        Row::Clear => {
            clear(table);
            true
        }
        Row::Run(made, wanted) => runs(rt, alloc, table, made, wanted),
        Row::RunClones(word, number) => runs_clones(rt, alloc, table, *word, *number),
        Row::ComeAndGo(text, first, times) => comes_and_goes(table, text, *first, *times),
        Row::Tell(told) => tells(table, told),
    }
}

/// Each of these rows must be right, one after another.
pub fn follow<S: StaticAtomSet, H: BuildHasher>(
    rt: &impl Abort,
    alloc: Global,
    table: &mut Table<S, H>,
    rows: &[Row],
) {
    for (at, row) in rows.iter().enumerate() {
        assert_for(rt, is_right(rt, alloc, table, row), &at);
    }
}

/// Follows the rows in a new table with this hasher.
fn check_in<S: StaticAtomSet, H: BuildHasher + Drop>(
    rt: &impl Abort,
    alloc: Global,
    hasher: H,
    rows: &[Row],
) {
    let mut table = Table::<S, H>::new(alloc, hasher).expect(rt, "a table");
    follow(rt, alloc, &mut table, rows);
}

/// Follows the rows in new tables: two with keys of their own, the fast one, and one in which all texts have the same hash.
pub fn check<S: StaticAtomSet>(rt: &impl Abort, alloc: Global, rows: &[Row]) {
    check_in::<S, _>(rt, alloc, keys_of(rt, 1), rows);
    check_in::<S, _>(rt, alloc, keys_of(rt, 2), rows);
    check_in::<S, _>(rt, alloc, TrustedTexts, rows);
    check_in::<S, _>(rt, alloc, Alike, rows);
}

pub type Plain = Table<EmptyStaticAtomSet>;

/// A new table without static texts.
pub fn plain(rt: &impl Abort, alloc: Global) -> Plain {
    Table::new(alloc, keys_of(rt, 1)).expect(rt, "a table")
}

/// Follows the rows in new tables without static texts.
pub fn check_plain(rt: &impl Abort, alloc: Global, rows: &[Row]) {
    check::<EmptyStaticAtomSet>(rt, alloc, rows);
}

/// Follows the rows in a table with this hasher and this many bits of buckets.
fn check_with_in<H: BuildHasher + Drop>(
    rt: &impl Abort,
    alloc: Global,
    hasher: H,
    limits: Limits,
    buckets: Buckets,
    rows: &[Row],
) {
    let table: Result<Table<EmptyStaticAtomSet, H>, _> = Table::with_buckets(
        alloc, hasher, limits, buckets,
    );
    follow(rt, alloc, &mut table.expect(rt, "a table"), rows);
}

/// Follows the rows in tables with this many bits of buckets, one with keys and the fast one.
pub fn check_with(rt: &impl Abort, alloc: Global, limits: Limits, buckets: Buckets, rows: &[Row]) {
    check_with_in(rt, alloc, keys_of(rt, 1), limits, buckets, rows);
    check_with_in(rt, alloc, TrustedTexts, limits, buckets, rows);
}

/// Follows the rows in a table that has room for this many texts.
pub fn check_with_room(rt: &impl Abort, alloc: Global, number: usize, rows: &[Row]) {
    let mut table = Plain::with_capacity(alloc, keys_of(rt, 1), number).expect(rt, "a table");
    follow(rt, alloc, &mut table, rows);
    drop(table);
}
