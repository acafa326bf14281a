//! The hasher of a table's texts: a table asks the one that it was given, as often as it must, and no word depends on it.

ghost use Rattle.std.specs.Hash.FoldHasher as folding;

use crate::rows::{FIRST, Row, SECOND, Told, follow};
use crate::texts::numbered_text;
use crate::{assert_for, assert_that};
use std::alloc::Global;
use std::cell::Cell;
use std::hash::{BuildHasher, FoldHasher, Hasher, RandomState};
use std::io;
use std::process::Abort;
use std::random::RandomSource;
use string_cache_core::static_sets::EmptyStaticAtomSet;
use string_cache_core::table::{Table, TrustedTexts};
use text_forms::SipKey;

/// The keys with this number.
pub fn keys_of(rt: &impl Abort, number: u64) -> RandomState {
    test_samples::keys(number).expect(rt, "keys")
}

/// A hasher with which all texts have one hash.
#[derive(Clone, Copy)]
pub struct Alike;

impl Hasher for Alike {
    ghost write = { λ hasher _. hasher };

    ghost finish = { λ _. 0 };

    fn finish(&self) -> u64 {
        0
    }

    fn write(&mut self, _bytes: &[u8]) {}
}

impl BuildHasher for Alike {
    type Hasher = Alike;

    ghost build_hasher = { λ hasher. hasher };

    fn build_hasher(&self) -> Alike {
        *self
    }
}

/// A hasher that counts how many hashes it is asked for.
#[derive(Clone, Copy)]
struct Counting<'c> {
    asked: &'c Cell<u64>,
}

impl<'c> BuildHasher for Counting<'c> {
    type Hasher = FoldHasher;

    ghost build_hasher = { λ _. folding.initial };

    fn build_hasher(&self) -> FoldHasher {
        self.asked.set(self.asked.get().saturating_add(1));
        FoldHasher::default()
    }
}

/// Follows the rows in a new table, which asks this hasher.
fn follow_counted(rt: &impl Abort, alloc: Global, asked: &Cell<u64>, rows: &[Row]) {
    let table: Result<Table<EmptyStaticAtomSet, _>, _> = Table::new(alloc, Counting { asked });
    follow(rt, alloc, &mut table.expect(rt, "a table"), rows);
}

/// The number of hashes that a new table asks for in these rows.
fn asked_in(rt: &impl Abort, alloc: Global, rows: &[Row]) -> u64 {
    let asked = Cell::new(0);
    follow_counted(rt, alloc, &asked, rows);
    asked.get()
}

/// Rows, and the number of hashes that they ask for: one to look for a text that isn't short, and one more to put it in. Calls by words ask for none.
static ASKED: [(&[Row], u64); 9] = [
    (&[Row::Intern("abcdefg", Ok(0x6766_6564_6362_6171))], 0),
    (&[Row::Intern("interned", Ok(FIRST))], 2),
    (
        &[
            Row::Intern("interned", Ok(FIRST)),
            Row::Intern("interned", Ok(FIRST)),
        ],
        3,
    ),
    (
        &[
            Row::Intern("interned", Ok(FIRST)),
            Row::Intern("abcdefgh", Ok(0x1_0b14)),
        ],
        4,
    ),
    (
        &[
            Row::Intern("interned", Ok(FIRST)),
            Row::Tell(Told::Found("interned", Some(FIRST))),
        ],
        3,
    ),
    (
        &[
            Row::Intern("interned", Ok(FIRST)),
            Row::Tell(Told::Found("abcdefgh", None)),
        ],
        3,
    ),
    (
        &[
            Row::Intern("interned", Ok(FIRST)),
            Row::Tell(Told::TextOf(FIRST, "interned")),
        ],
        2,
    ),
    (
        &[
            Row::Intern("interned", Ok(FIRST)),
            Row::CloneHeld(FIRST, Ok(Some(FIRST))),
            Row::Release(FIRST, true),
            Row::Release(FIRST, true),
        ],
        2,
    ),
    (
        &[
            Row::Intern("interned", Ok(FIRST)),
            Row::Reserve(1_000, Ok(())),
            Row::Clear,
            Row::Intern("interned", Ok(SECOND)),
        ],
        4,
    ),
];

#[test]
fn a_table_asks_its_hasher_as_often_as_it_has_to(rt: HostRuntime) {
    for (at, (rows, asked)) in ASKED.iter().enumerate() {
        assert_for(&rt, asked_in(&rt, rt.alloc(), rows) == *asked, &at);
    }
}

/// A text's word. The holder of one in three is gone.
fn word_of<H: BuildHasher>(
    rt: &impl Abort,
    table: &mut Table<EmptyStaticAtomSet, H>,
    text: &str,
    number: usize,
) -> u64 {
    let word = table.intern(text).expect(rt, "a word");
    if number % 3 == 0 {
        table.release(word);
    }
    word
}

/// The words of 1,000 texts, twice.
fn words_in<H: BuildHasher>(
    rt: &impl Abort,
    alloc: Global,
    table: &mut Table<EmptyStaticAtomSet, H>,
) -> Vec<u64> {
    let mut words = Vec::new(alloc);
    for number in 0..2_000 {
        let text = numbered_text(rt, alloc, "the text ", number % 1_000);
        words
            .push(word_of(rt, table, &text, number))
            .expect(rt, "room");
    }
    words
}

/// The words that a new table with this hasher gives them.
fn words_of<H: BuildHasher + Drop>(rt: &impl Abort, alloc: Global, hasher: H) -> Vec<u64> {
    let table: Result<Table<EmptyStaticAtomSet, H>, _> = Table::new(alloc, hasher);
    words_in(rt, alloc, &mut table.expect(rt, "a table"))
}

/// Whether a new table with this hasher gives them these words.
fn gives_words<H: BuildHasher + Drop>(
    rt: &impl Abort,
    alloc: Global,
    hasher: H,
    words: &[u64],
) -> bool {
    words_of(rt, alloc, hasher).as_slice() == words
}

#[test]
fn words_are_the_same_with_each_hasher(rt: HostRuntime) {
    let words = words_of(&rt, rt.alloc(), keys_of(&rt, 1));
    assert_that(&rt, gives_words(&rt, rt.alloc(), keys_of(&rt, 2), &words));
    assert_that(&rt, gives_words(&rt, rt.alloc(), SipKey::new(1, 2), &words));
    assert_that(&rt, gives_words(&rt, rt.alloc(), TrustedTexts, &words));
    assert_that(&rt, gives_words(&rt, rt.alloc(), Alike, &words));
}

/// Bytes, one of which is 1 and the others 0.
#[derive(Drop)]
struct One {
    at: usize,
}

impl RandomSource for One {
    fn fill_bytes(&self, buf: &mut [u8]) -> io::Result<()> {
        for (at, byte) in buf.iter_mut().enumerate() {
            *byte = u8::from(at == self.at);
        }
        Ok(())
    }
}

/// The hash of a text under these keys.
fn hash_of<H: BuildHasher>(keys: &H, text: &str) -> u64 {
    keys.hash_one(text)
}

/// Whether two numbers have keys of their own.
fn have_other_keys(rt: &impl Abort, one: u64, other: u64) -> bool {
    hash_of(&keys_of(rt, one), "interned") != hash_of(&keys_of(rt, other), "interned")
}

#[test]
fn keys_differ(rt: HostRuntime) {
    assert_that(&rt, have_other_keys(&rt, 1, 2));
}

/// The hash of a text under the key of which this byte is 1.
fn hash_with(rt: &impl Abort, at: usize, text: &str) -> u64 {
    hash_of(&RandomState::new(&One { at }).expect(rt, "keys"), text)
}

/// How many of the hashes under keys with one byte each, and under none, are that of byte `at`.
fn times(rt: &impl Abort, at: usize) -> usize {
    let own = hash_with(rt, at, "interned");
    (0..=16)
        .filter(|other| hash_with(rt, *other, "interned") == own)
        .count()
}

#[test]
fn each_byte_of_a_key_counts(rt: HostRuntime) {
    for at in 0..=16 {
        assert_for(&rt, times(&rt, at) == 1, &at);
    }
}
