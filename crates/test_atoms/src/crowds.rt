//! Texts of one bucket, and many workers at them.

use crate::samples::{buckets_of, check_linked, clone_of, intern};
use crate::sets::{self, Size, USUAL, ask};
use crate::together::Together;
use crate::{assert_for, assert_that};
use std::alloc::Global;
use std::process::Abort;
use std::sync::Wait;
use std::thread::{self, Threads};
use std::time::Clock;
use string_cache::static_sets::EmptyStaticAtomSet;
use string_cache::table::Table;
use string_cache::word::{Buckets, Limits};
use string_cache::{AtomKind, SetAtom, SharedSet};
use test_calls::{BITS, has_text, hash_of, links, numbered};
use test_samples::keys;

/// What is asked of a new set.
#[derive(Clone, Copy)]
pub enum Question<'q> {
    /// Both texts, which are of one bucket, stay apart.
    Apart(&'q str, &'q str),
    /// This many workers are at the texts at once, this often.
    Workers(usize, usize, &'q [String]),
    /// Many texts come and go, one after another.
    ComeAndGo,
}

/// Asks it of a set, which has no text afterwards.
pub fn check<S: SharedSet + Together + Send + Sync, R: Threads + Wait + Abort + Sync>(
    rt: &R,
    set: S,
    question: Question<'_>,
) {
    match question {
        Question::Apart(first, second) => check_apart_in_a_set(rt, set, first, second),
        Question::Workers(number, rounds, texts) => check_workers(rt, set, (number, rounds), texts),
        Question::ComeAndGo => come_and_go(rt, set),
    }
    check_linked(rt, set, 0);
}

/// Asks it of a new set of this many bits, of each kind.
fn check_both<R: Threads + Clock + Wait + Abort + Sync>(
    rt: &R,
    alloc: Global,
    bits: u8,
    question: Question<'_>,
) {
    let size = Size { bits, limits: None };
    ask(rt, alloc, size, sets::Question::Crowds(question));
}

/// The texts of this many numbers.
fn numbers(rt: &impl Abort, alloc: Global, count: usize) -> Vec<String> {
    let mut texts = Vec::new(alloc);
    for n in 0..count {
        let text = numbered(alloc, n).expect(rt, "a text");
        texts.push(text).expect(rt, "room");
    }
    texts
}

fn bucket_of_text(buckets: Buckets, text: &str) -> u16 {
    buckets.bucket_of(hash_of::<EmptyStaticAtomSet>(text))
}

/// The bucket that is the first to have this many of the texts, if any has.
fn crowded_bucket(
    rt: &impl Abort,
    alloc: Global,
    buckets: Buckets,
    texts: &[String],
    wanted: u32,
) -> Option<u16> {
    let mut counts = vec![in alloc; 0u32; buckets.number()].expect(rt, "room");
    for text in texts {
        let bucket = bucket_of_text(buckets, text);
        if let Some(count) = counts.get_mut(usize::from(bucket)) {
            *count = count.saturating_add(1);
            if *count == wanted {
                return Some(bucket);
            }
        }
    }
    None
}

/// This many of the texts, all of one bucket.
fn bucket_mates(
    rt: &impl Abort,
    alloc: Global,
    buckets: Buckets,
    texts: &[String],
    wanted: u32,
) -> Vec<String> {
    let crowded = crowded_bucket(rt, alloc, buckets, texts, wanted);
    let bucket = crowded.expect(rt, "a bucket that has as many");
    let mut mates = Vec::new(alloc);
    for text in texts {
        if bucket_of_text(buckets, text) == bucket && mates.len() < wanted as usize {
            mates
                .push(text.clone().expect(rt, "a text"))
                .expect(rt, "room");
        }
    }
    mates
}

/// Whether the atoms of two texts have words of their own, and differ.
fn are_apart<H: AtomKind>(one: &SetAtom<H>, two: &SetAtom<H>) -> bool {
    one.unsafe_data() != two.unsafe_data() && one != two
}

/// Two atoms, as clones of others that were apart and have gone.
fn cloned_apart<S: SharedSet, R: Wait + Abort>(
    rt: &R,
    set: S,
    first: &str,
    second: &str,
) -> (SetAtom<S::Held>, SetAtom<S::Held>) {
    let one = intern(rt, set, first);
    let two = intern(rt, set, second);
    assert_that(rt, are_apart(&one, &two));
    (clone_of(rt, &one), clone_of(rt, &two))
}

/// Interns both texts in a set, and goes on with clones.
fn check_apart_in_a_set<S: SharedSet, R: Wait + Abort>(rt: &R, set: S, first: &str, second: &str) {
    let (one, two) = cloned_apart(rt, set, first, second);
    assert_that(rt, has_text(&one, first) && has_text(&two, second));
    drop(one);
    assert_that(rt, has_text(&two, second));
    check_linked(rt, set, 1);
    drop(two);
    check_linked(rt, set, 0);
}

// These say nothing about what they do, so that their callers are proved in a moment.

/// The word of a text, which is held twice.
fn hold_twice(rt: &impl Abort, table: &mut Table<EmptyStaticAtomSet>, text: &str) -> u64 {
    let word = table.intern(text).expect(rt, "a word");
    assert_that(rt, table.holds(word));
    let clone = table.clone_word(word).expect(rt, "a word");
    assert_that(rt, clone == word);
    word
}

/// Gives a word that must be held.
fn give(rt: &impl Abort, table: &mut Table<EmptyStaticAtomSet>, word: u64) {
    assert_that(rt, table.holds(word));
    table.give(word);
}

/// Whether the table has the text under the word.
fn is_text_of(table: &Table<EmptyStaticAtomSet>, word: u64, text: &str) -> bool {
    match table.text(word) {
        Some(own) => own == text,
        None => false,
    }
}

fn has_entries(table: &Table<EmptyStaticAtomSet>, count: usize) -> bool {
    table.entries() == count
}

/// The same in a table.
fn check_apart_in_a_table(
    rt: &impl Abort,
    table: &mut Table<EmptyStaticAtomSet>,
    first: &str,
    second: &str,
) {
    let one = hold_twice(rt, table, first);
    let two = hold_twice(rt, table, second);
    assert_that(rt, one != two);
    give(rt, table, one);
    give(rt, table, two);
    assert_that(
        rt,
        is_text_of(table, one, first) && is_text_of(table, two, second),
    );
    give(rt, table, one);
    assert_that(rt, is_text_of(table, two, second) && has_entries(table, 1));
    give(rt, table, two);
    assert_that(rt, has_entries(table, 0));
}

fn table_of(rt: &impl Abort, alloc: Global, buckets: Buckets) -> Table<EmptyStaticAtomSet> {
    let keys = keys(1).expect(rt, "keys");
    Table::with_buckets(alloc, keys, Limits::greatest(), buckets).expect(rt, "a table")
}

/// And in such a table.
fn check_table(rt: &impl Abort, alloc: Global, buckets: Buckets, first: &str, second: &str) {
    let mut table = table_of(rt, alloc, buckets);
    check_apart_in_a_table(rt, &mut table, first, second);
}

/// Checks two texts of one bucket in a set of each kind, and in a table.
fn check_apart<R: Threads + Clock + Wait + Abort + Sync>(
    rt: &R,
    alloc: Global,
    buckets: Buckets,
    first: &str,
    second: &str,
) {
    assert_that(rt, first != second);
    assert_that(
        rt,
        bucket_of_text(buckets, first) == bucket_of_text(buckets, second),
    );
    check_both(rt, alloc, buckets.bits(), Question::Apart(first, second));
    check_table(rt, alloc, buckets, first, second);
}

/// This many of the first texts that are of one bucket.
fn first_mates(
    rt: &impl Abort,
    alloc: Global,
    buckets: Buckets,
    count: usize,
    wanted: u32,
) -> Vec<String> {
    let texts = numbers(rt, alloc, count);
    bucket_mates(rt, alloc, buckets, &texts, wanted)
}

/// Checks two texts, which these are.
fn check_mates_of<R: Threads + Clock + Wait + Abort + Sync>(
    rt: &R,
    alloc: Global,
    buckets: Buckets,
    mates: &[String],
) {
    assert_that(rt, mates.len() == 2);
    if let [first, second] = mates {
        check_apart(rt, alloc, buckets, first, second);
    }
}

fn check_mates<R: Threads + Clock + Wait + Abort + Sync>(rt: &R, alloc: Global, buckets: Buckets) {
    let mates = first_mates(rt, alloc, buckets, buckets.number() + 1, 2);
    check_mates_of(rt, alloc, buckets, &mates);
}

/// Of one more text than there are buckets, two have the same bucket.
#[test]
fn two_texts_of_one_bucket(rt: HostRuntime) {
    for bits in &BITS {
        check_mates(&rt, rt.alloc(), buckets_of(&rt, *bits));
    }
}

/// Interns and clones a text. Returns whether the clone has it once the atom has gone.
fn is_cloned<S: SharedSet, R: Wait + Abort>(rt: &R, set: S, text: &str) -> bool {
    let atom = intern(rt, set, text);
    let clone = clone_of(rt, &atom);
    drop(atom);
    has_text(&clone, text)
}

/// Interns, clones and drops each of the texts, this often. Returns whether each atom had its text.
pub fn turn_over<S: SharedSet, R: Wait + Abort>(
    rt: &R,
    set: S,
    rounds: usize,
    texts: &[String],
) -> bool {
    let mut is_same = true;
    for _ in 0..rounds {
        for text in texts {
            is_same = is_same && is_cloned(rt, set, text);
        }
    }
    is_same
}

/// Whether this many turns were as they should be, and all of them.
fn are_all(turns: &[bool], number: usize) -> bool {
    turns.len() == number && turns.iter().all(|is_same| *is_same)
}

/// This many workers, each with this many rounds, at these texts. Returns whether each atom had its text, and whether none is left linked.
fn work_together<S: SharedSet + Together + Send + Sync, R: Threads + Wait + Abort + Sync>(
    rt: &R,
    set: S,
    (number, rounds): (usize, usize),
    texts: &[String],
) -> bool {
    let turns = thread::map_indices(
        rt,
        set.allocator(),
        number,
        &|_| { set.turn_over_all(rt, rounds, texts) },
    );
    let turns = turns.expect(rt, "room");
    set.sweep(rt);
    links(rt, set, 0) && are_all(&turns, number)
}

fn check_workers<S: SharedSet + Together + Send + Sync, R: Threads + Wait + Abort + Sync>(
    rt: &R,
    set: S,
    crew: (usize, usize),
    texts: &[String],
) {
    assert_that(rt, texts.len() == 11);
    assert_that(rt, work_together(rt, set, crew, texts));
}

/// This many workers, each with this many rounds, at eleven texts of one bucket, in sets of 2 to the power of `bits` buckets. As ten texts for each
/// bucket would be fewer, some bucket has eleven.
fn check_crew<R: Threads + Clock + Wait + Abort + Sync>(
    rt: &R,
    alloc: Global,
    bits: u8,
    (number, rounds): (usize, usize),
) {
    let buckets = buckets_of(rt, bits);
    let mates = first_mates(rt, alloc, buckets, 10 * buckets.number() + 1, 11);
    check_both(rt, alloc, bits, Question::Workers(number, rounds, &mates));
}

#[test]
fn many_workers_at_one_bucket(rt: HostRuntime) {
    check_crew(&rt, rt.alloc(), 12, (64, 1_000));
}

#[test]
fn many_workers_at_the_only_bucket(rt: HostRuntime) {
    check_crew(&rt, rt.alloc(), 0, (64, 1_000));
}

#[test]
fn many_workers_at_one_of_the_most_buckets(rt: HostRuntime) {
    check_crew(&rt, rt.alloc(), 14, (64, 1_000));
}

/// A crew may have nobody, one worker, or a hundred.
#[test]
fn crews_of_each_number(rt: HostRuntime) {
    for number in &[0, 1, 100] {
        check_crew(&rt, rt.alloc(), 1, (*number, 100));
    }
}

fn comes_and_goes<S: SharedSet, R: Wait + Abort>(rt: &R, set: S, text: &str) -> bool {
    has_text(&intern(rt, set, text), text)
}

fn come_and_go<S: SharedSet, R: Wait + Abort>(rt: &R, set: S) {
    for n in 0..10_000 {
        assert_that(
            rt,
            comes_and_goes(rt, set, &numbered(set.allocator(), n).expect(rt, "a text")),
        );
        if n % 1000 == 999 {
            assert_for(rt, links(rt, set, 0), &n);
        }
    }
}

/// What nobody holds doesn't stay, in a loop over many texts.
#[test]
fn ten_thousand_texts_come_and_go(rt: HostRuntime) {
    check_both(&rt, rt.alloc(), USUAL.bits, Question::ComeAndGo);
}
