//! Words, tickets and refusals of a table, with values from outside.

use crate::hashers::keys_of;
use crate::rows::{
    FIRST, Made, Plain, Row, SECOND, Told, check, check_plain, check_with, gives, has_text,
    interns, is_first, keeps, plain,
};
use crate::texts::numbered_text;
use crate::{assert_for, assert_that};
use std::alloc::Global;
use std::process::Abort;
use string_cache_core::Fault;
use string_cache_core::phf::hash;
use string_cache_core::table::{Table, TableReply};
use string_cache_core::word::{Buckets, Limits};
use test_samples::One;

/// Short texts, and their words: each is held, and has no text in the table.
static SHORT: [Row; 19] = [
    Row::Intern("", Ok(0x1)),
    Row::Tell(Told::NoText(0x1)),
    Row::Tell(Told::Held(0x1, true)),
    Row::Intern("\0", Ok(0x11)),
    Row::Tell(Told::NoText(0x11)),
    Row::Tell(Told::Held(0x11, true)),
    Row::Intern("a", Ok(0x6111)),
    Row::Tell(Told::NoText(0x6111)),
    Row::Tell(Told::Held(0x6111, true)),
    Row::Intern("é", Ok(0xa9_c321)),
    Row::Tell(Told::NoText(0xa9_c321)),
    Row::Tell(Told::Held(0xa9_c321, true)),
    Row::Intern("foo", Ok(0x6f6f_6631)),
    Row::Tell(Told::NoText(0x6f6f_6631)),
    Row::Tell(Told::Held(0x6f6f_6631, true)),
    Row::Intern("abcdefg", Ok(0x6766_6564_6362_6171)),
    Row::Tell(Told::NoText(0x6766_6564_6362_6171)),
    Row::Tell(Told::Held(0x6766_6564_6362_6171, true)),
    Row::Tell(Told::Keeps(0, 0)),
];

#[test]
fn short_texts_have_inline_words(rt: HostRuntime) {
    check_plain(&rt, rt.alloc(), &SHORT);
}

/// Texts have words of their own, the first tickets of the buckets that their hashes end in, and keep them: a short one, one with NUL, one of two
/// lines, one beyond the first plane, one of bucket 77 and one of the last.
static ONE_TICKET: [Row; 12] = [
    Row::Intern("abcdefgh", Ok(0x1_0b14)),
    Row::Intern("interned", Ok(FIRST)),
    Row::Intern("interned", Ok(FIRST)),
    Row::Tell(Told::Text(0x1_0b14, "abcdefgh")),
    Row::Tell(Told::Text(FIRST, "interned")),
    Row::Intern("a text\0with NUL", Ok(0x1_35f4)),
    Row::Intern("two lines\nof text", Ok(0x1_0bbc)),
    Row::Intern("🦀 and 🦀", Ok(0x1_3218)),
    Row::Intern("word 03729", Ok(0x1_0134)), // bucket 0x4d
    Row::Intern("word 00553", Ok(0x1_3ffc)),
    Row::Tell(Told::Text(0x1_35f4, "a text\0with NUL")),
    Row::Tell(Told::Keeps(7, 81)),
];

#[test]
fn one_text_has_one_ticket(rt: HostRuntime) {
    check_plain(&rt, rt.alloc(), &ONE_TICKET);
}

static STATIC: [Row; 5] = [
    Row::Intern("sentence", Ok(2)),
    Row::Tell(Told::Text(2, "sentence")),
    Row::Tell(Told::Held(2, true)),
    Row::Tell(Told::Held(0x1_0000_0002, false)),
    Row::First("sentencf"),
];

#[test]
fn static_texts_have_static_words(rt: HostRuntime) {
    check::<One>(&rt, rt.alloc(), &STATIC);
}

static LAST_HOLDER: [Row; 9] = [
    Row::Intern("interned", Ok(FIRST)),
    Row::Intern("interned", Ok(FIRST)),
    Row::Tell(Told::Keeps(1, 8)),
    Row::Give(FIRST),
    Row::Give(FIRST),
    Row::Tell(Told::Held(FIRST, false)),
    Row::Tell(Told::NoText(FIRST)),
    Row::Tell(Told::Keeps(0, 0)),
    Row::Intern("interned", Ok(SECOND)),
];

#[test]
fn a_word_goes_with_its_last_holder(rt: HostRuntime) {
    check_plain(&rt, rt.alloc(), &LAST_HOLDER);
}

/// Words by OpenSSL's SipHash: the buckets are 0x2ec, 0x20a and 0x760. The second and the third text keep theirs when the first one goes, and the
/// third is found by its own.
static LAST_PLACE: [Row; 8] = [
    Row::Intern("the first", Ok(0x1_0bb0)),
    Row::Intern("the second", Ok(0x1_0828)),
    Row::Intern("the third", Ok(0x1_1d80)),
    Row::Give(0x1_0bb0),
    Row::Tell(Told::Text(0x1_0828, "the second")),
    Row::Tell(Told::Text(0x1_1d80, "the third")),
    Row::Intern("the third", Ok(0x1_1d80)),
    Row::Tell(Told::Keeps(2, 19)),
];

#[test]
fn the_last_text_comes_in_the_place_of_one_that_goes(rt: HostRuntime) {
    check_plain(&rt, rt.alloc(), &LAST_PLACE);
}

/// When a text may have at most two holders, and is interned or cloned.
static FULL: [Row; 9] = [
    Row::Intern("interned", Ok(FIRST)),
    Row::Intern("interned", Ok(FIRST)),
    Row::Intern("interned", Err(Fault::FullCount)),
    Row::Run(
        &[Made::Intern("interned"), Made::Clone(FIRST)],
        &[
            TableReply::Refused(Fault::FullCount),
            TableReply::Refused(Fault::FullCount),
        ],
    ),
    Row::Tell(Told::Keeps(1, 8)),
    Row::Clone(FIRST, Err(Fault::FullCount)),
    Row::Give(FIRST),
    Row::Clone(FIRST, Ok(FIRST)),
    Row::Clone(0x6111, Ok(0x6111)),
];

fn limits_of(rt: &impl Abort, holders: u64, serials: u64) -> Limits {
    Limits::new(holders, serials).expect(rt, "limits")
}

#[test]
fn a_text_has_no_more_holders_than_its_limit(rt: HostRuntime) {
    let limits = limits_of(&rt, 2, 1);
    check_with(&rt, rt.alloc(), limits, Buckets::usual(), &FULL);
}

/// "interned" has this many holders, and no more.
fn check_holders(rt: &impl Abort, alloc: Global, holders: u64) {
    let rows = [
        Row::Intern("interned", Ok(FIRST)),
        Row::RunClones(FIRST, holders.saturating_sub(1) as usize),
        Row::Clone(FIRST, Err(Fault::FullCount)),
        Row::Intern("interned", Err(Fault::FullCount)),
        Row::Tell(Told::Holders(FIRST, Some(holders))),
    ];
    let limits = limits_of(rt, holders, 1);
    check_with(rt, alloc, limits, Buckets::usual(), &rows);
}

#[test]
fn a_text_has_as_many_holders_as_its_limit(rt: HostRuntime) {
    for holders in [1, 2, 3, 1_000, 70_000] {
        check_holders(&rt, rt.alloc(), holders);
    }
}

/// Characters of one to four bytes, ten in all, doubled nineteen times.
fn large_text(rt: &impl Abort, alloc: Global) -> String {
    let mut text = String::from_str(alloc, "né€𝄞").expect(rt, "room");
    for _ in 0..19 {
        let half = text.clone().expect(rt, "room");
        text.push_str(&half).expect(rt, "room");
    }
    text
}

fn intern(rt: &impl Abort, table: &mut Plain, text: &str) -> u64 {
    table.intern(text).expect(rt, "a word")
}

/// Whether the text is the only entry of the table, with this many bytes, until its word is given.
fn is_kept_till_given(rt: &impl Abort, table: &mut Plain, text: &str, bytes: u128) -> bool {
    let word = intern(rt, table, text);
    let is_kept = is_first(word) && has_text(table, word, text) && keeps(table, 1, bytes);
    is_kept && gives(table, word) && keeps(table, 0, 0)
}

fn is_kept_in_a_new_table(rt: &impl Abort, alloc: Global, text: &str, bytes: u128) -> bool {
    let mut table = plain(rt, alloc);
    let is_right = is_kept_till_given(rt, &mut table, text, bytes);
    drop(table);
    is_right
}

#[test]
fn a_large_text_is_interned(rt: HostRuntime) {
    let text = large_text(&rt, rt.alloc());
    assert_that(
        &rt,
        is_kept_in_a_new_table(&rt, rt.alloc(), &text, 5_242_880),
    );
}

static COME_AND_GO: [Row; 1] = [Row::ComeAndGo("interned", FIRST, 2_000)];

#[test]
fn a_text_that_comes_and_goes_has_the_next_ticket(rt: HostRuntime) {
    check_plain(&rt, rt.alloc(), &COME_AND_GO);
}

/// The buckets with this many bits.
fn buckets_of(rt: &impl Abort, bits: u8) -> Buckets {
    Buckets::new(bits).expect(rt, "bits")
}

/// The bucket of a text without static tables.
fn bucket_of_text(buckets: Buckets, text: &str) -> usize {
    usize::from(buckets.bucket_of(hash(text, 0).entry_hash()))
}

/// Two texts with the same bucket: there is one more text than buckets.
fn bucket_mates(rt: &impl Abort, alloc: Global, buckets: Buckets) -> (String, String) {
    let mut first = vec![in alloc; None; buckets.number()].expect(rt, "room");
    for number in 0..=buckets.number() {
        let text = numbered_text(rt, alloc, "word", number);
        let place = first
            .get_mut(bucket_of_text(buckets, &text))
            .expect(rt, "a bucket");
        if let Some(other) = *place {
            return (numbered_text(rt, alloc, "word", other), text);
        }
        *place = Some(number);
    }
    panic!(rt; "no bucket has two");
}

/// Whether the only ticket of a bucket is given once: to the first of two texts of one bucket, and, once that is given back, to none.
fn gives_one_ticket(rt: &impl Abort, table: &mut Plain, first: &str, second: &str) -> bool {
    let word = intern(rt, table, first);
    let is_spent = is_first(word) && interns(table, second, Err(Fault::TicketsSpent));
    is_spent
        && gives(table, word)
        && interns(table, first, Err(Fault::TicketsSpent))
        && interns(table, "abc", Ok(0x6362_6131))
}

/// Whether that is so in a table with these buckets.
fn gives_one_ticket_of(
    rt: &impl Abort,
    alloc: Global,
    buckets: Buckets,
    first: &str,
    second: &str,
) -> bool {
    let mut table = Table::with_buckets(alloc, keys_of(rt, 1), limits_of(rt, 1, 1), buckets).expect(
        rt, "a table",
    );
    let is_right = gives_one_ticket(rt, &mut table, first, second);
    drop(table);
    is_right
}

/// Whether that is so for two texts of one of the buckets.
fn have_one_ticket(rt: &impl Abort, alloc: Global, buckets: Buckets) -> bool {
    let (first, second) = bucket_mates(rt, alloc, buckets);
    gives_one_ticket_of(rt, alloc, buckets, &first, &second)
}

#[test]
fn a_bucket_gives_no_more_tickets_than_its_limit(rt: HostRuntime) {
    for bits in 0..=14 {
        let buckets = buckets_of(&rt, bits);
        assert_for(&rt, have_one_ticket(&rt, rt.alloc(), buckets), &bits);
    }
}

/// Numbers of bits, and the first word of "interned" for each: its hash is 0x556a_6dba_06a4_7210, whose low bits are its bucket.
static WORDS: [(u8, u64); 15] = [
    (0, 0x1_0000),
    (1, 0x1_0000),
    (2, 0x1_0000),
    (3, 0x1_0000),
    (4, 0x1_0000), // no bit of the low four is set
    (5, 0x1_0040),
    (6, 0x1_0040),
    (7, 0x1_0040),
    (8, 0x1_0040),
    (9, 0x1_0040), // bucket 0x10
    (10, FIRST),
    (11, FIRST),
    (12, FIRST), // bucket 0x210
    (13, 0x1_4840), // bucket 0x1210
    (14, 0x1_c840), // bucket 0x3210
];

/// "interned" first has this word in a table of this many bits, and once that is given back the next ticket of its bucket.
fn check_tickets(rt: &impl Abort, alloc: Global, bits: u8, word: u64) {
    let rows = [Row::ComeAndGo("interned", word, 2)];
    check_with(rt, alloc, Limits::greatest(), buckets_of(rt, bits), &rows);
}

#[test]
fn a_ticket_has_the_low_bits_of_the_hash(rt: HostRuntime) {
    for (bits, word) in &WORDS {
        check_tickets(&rt, rt.alloc(), *bits, *word);
    }
}

static ONE_BUCKET: [Row; 3] = [
    Row::Intern("interned", Ok(0x1_0000)),
    Row::Intern("tokenised", Ok(0x2_0000)),
    Row::Tell(Told::Keeps(2, 17)),
];

#[test]
fn one_bucket_gives_all_tickets(rt: HostRuntime) {
    let buckets = buckets_of(&rt, 0);
    check_with(&rt, rt.alloc(), Limits::greatest(), buckets, &ONE_BUCKET);
}
