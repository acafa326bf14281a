//! The bytes that a table takes. `clients/c/tests/counted.c` compares those of tables for C with what the allocator is asked for.

use crate::hashers::{Alike, keys_of};
use crate::rows::{Plain, plain, releases, reserves};
use crate::texts::numbered_text;
use crate::{assert_for, assert_that};
use std::alloc::Global;
use std::process::Abort;
use string_cache_core::static_sets::EmptyStaticAtomSet;
use string_cache_core::table::{Call, Names, Table};
use string_cache_core::word::{Buckets, Limits};

/// The bytes of a bucket's last serial, and those of a group of nine places of both maps.
const BUCKET: u128 = 8;

const GROUP: u128 = 496 + 208;

/// The byte that is requested as the block of values without bytes, next to tickets.
const UNITS: u128 = 1;

/// A table of one bucket.
pub fn one_bucket(rt: &impl Abort, alloc: Global) -> Plain {
    let buckets = Buckets::new(0).expect(rt, "bits");
    Table::with_buckets(alloc, keys_of(rt, 1), Limits::greatest(), buckets).expect(rt, "a table")
}

fn takes(table: &Plain, bytes: u128) -> bool {
    table.memory() == bytes
}

fn interns(table: &mut Plain, text: &str) -> bool {
    table.intern(text).is_ok()
}

fn word_of(table: &Plain, text: &str) -> Option<u64> {
    table.get(text)
}

/// Whether the text has a word and a holder of it can be taken.
fn loses(table: &mut Plain, text: &str) -> bool {
    match word_of(table, text) {
        Some(word) => releases(table, word),
        None => false,
    }
}

/// Whether all texts, which are separated by spaces, are interned.
fn are_interned(table: &mut Plain, texts: &str) -> bool {
    for text in texts.split(' ') {
        if !interns(table, text) {
            return false;
        }
    }
    true
}

/// Ten bytes, with which a numbered text has 15.
const TEXT: &str = "the text 0";

/// Whether as many texts are interned.
pub fn interns_numbered(rt: &impl Abort, alloc: Global, table: &mut Plain, number: usize) -> bool {
    for n in 0..number {
        if !interns(table, &numbered_text(rt, alloc, TEXT, n)) {
            return false;
        }
    }
    true
}

/// Whether as many texts are held, and let go.
fn loses_numbered(rt: &impl Abort, alloc: Global, table: &mut Plain, number: usize) -> bool {
    for n in 0..number {
        if !loses(table, &numbered_text(rt, alloc, TEXT, n)) {
            return false;
        }
    }
    true
}

/// Texts, and the bytes of a table of one bucket that holds them. A short text has none, and ten texts have a second group.
static TEXTS: [(&str, u128); 6] = [
    ("", BUCKET),
    ("short", BUCKET),
    ("interned", BUCKET + GROUP + UNITS + 8),
    ("tokenised", BUCKET + GROUP + UNITS + 9),
    ("interned interned", BUCKET + GROUP + UNITS + 8),
    (
        "the-text-0 the-text-1 the-text-2 the-text-3 the-text-4 the-text-5 the-text-6 the-text-7 the-text-8 the-text-9",
        BUCKET + 2 * GROUP + UNITS + 100,
    ),
];

fn has_memory(rt: &impl Abort, alloc: Global, texts: &str, bytes: u128) -> bool {
    let mut table = one_bucket(rt, alloc);
    let is_right = are_interned(&mut table, texts) && takes(&table, bytes);
    drop(table);
    is_right
}

#[test]
fn memory_of_texts(rt: HostRuntime) {
    for (texts, bytes) in &TEXTS {
        assert_for(&rt, has_memory(&rt, rt.alloc(), texts, *bytes), texts);
    }
}

fn takes_as_made(rt: &impl Abort, alloc: Global, bytes: u128) -> bool {
    let table = plain(rt, alloc);
    let is_right = takes(&table, bytes);
    drop(table);
    is_right
}

#[test]
fn memory_of_a_table_as_it_is_made(rt: HostRuntime) {
    assert_that(&rt, takes_as_made(&rt, rt.alloc(), 4096 * BUCKET));
}

/// Numbers of texts, and the groups that a table has for them: twice as many each time. With room for 576, it doesn't ask for more until then.
static GROUPS: [(usize, u32); 6] = [
    (1, 1),
    (9, 1),
    (10, 2),
    (576, 64),
    (577, 128),
    (5_000, 1_024),
];

/// The bytes of a table with this many buckets and groups and no texts.
fn empty_bytes(buckets: u32, groups: u32) -> u128 {
    u128::from(buckets) * BUCKET + u128::from(groups) * GROUP + UNITS
}

/// Whether a table that takes this many bytes without texts takes them and those of as many more texts once these are interned.
fn takes_numbered(
    rt: &impl Abort,
    alloc: Global,
    table: &mut Plain,
    number: usize,
    empty: u128,
) -> bool {
    interns_numbered(rt, alloc, table, number)
        && takes(table, empty.saturating_add(15 * number as u128))
}

/// Whether a table has this many groups with this many texts, once they are gone, and with a text again.
fn keeps_groups(rt: &impl Abort, alloc: Global, number: usize, groups: u32) -> bool {
    let mut table = one_bucket(rt, alloc);
    let empty = empty_bytes(1, groups);
    let is_right = takes_numbered(rt, alloc, &mut table, number, empty)
        && loses_numbered(rt, alloc, &mut table, number)
        && takes(&table, empty)
        && interns(&mut table, "tokenised")
        && takes(&table, empty.saturating_add(9));
    drop(table);
    is_right
}

#[test]
fn memory_stays_when_texts_go(rt: HostRuntime) {
    for (number, groups) in &GROUPS {
        assert_for(&rt, keeps_groups(&rt, rt.alloc(), *number, *groups), number);
    }
}

/// Whether the table, which was made with room for this many texts, takes this many bytes, also with texts in it and after `clear`.
fn keeps_room(
    rt: &impl Abort,
    alloc: Global,
    table: &mut Plain,
    number: usize,
    empty: u128,
) -> bool {
    let is_right = takes(table, empty) && takes_numbered(rt, alloc, table, number, empty);
    table.clear();
    is_right && takes(table, empty)
}

/// Whether a table that is made with room for this many texts has this many groups.
fn has_room(rt: &impl Abort, alloc: Global, number: usize, groups: u32) -> bool {
    let mut table = Plain::with_capacity(alloc, keys_of(rt, 1), number).expect(rt, "a table");
    let is_right = keeps_room(rt, alloc, &mut table, number, empty_bytes(4096, groups));
    drop(table);
    is_right
}

#[test]
fn memory_of_room(rt: HostRuntime) {
    for (number, groups) in &GROUPS {
        assert_for(&rt, has_room(&rt, rt.alloc(), *number, *groups), number);
    }
}

/// Whether a table with a text takes the first number of bytes once it has room for as many more, and the second once the text is gone.
fn takes_with_room(table: &mut Plain, number: usize, filled: u128, empty: u128) -> bool {
    interns(table, "interned")
        && reserves(table, number, Ok(()))
        && takes(table, filled)
        && loses(table, "interned")
        && takes(table, empty)
}

fn one_bucket_takes_with_room(rt: &impl Abort, alloc: Global, number: usize, groups: u32) -> bool {
    let mut table = one_bucket(rt, alloc);
    let empty = empty_bytes(1, groups);
    let is_right = takes_with_room(&mut table, number, empty.saturating_add(8), empty);
    drop(table);
    is_right
}

/// Room for 1000 texts in a table with one, which is 128 groups, and for 150,000.
#[test]
fn memory_of_room_beside_texts(rt: HostRuntime) {
    let alloc = rt.alloc();
    assert_that(&rt, one_bucket_takes_with_room(&rt, alloc, 1_000, 128));
    assert_that(&rt, one_bucket_takes_with_room(&rt, alloc, 150_000, 32_768));
}

/// Whether a table of this many texts, which may be full of them, has this many groups once it has room for one more, and also, once they are gone,
/// when room for no text is made.
fn full_table_has_room(rt: &impl Abort, alloc: Global, number: usize, groups: u32) -> bool {
    let mut table = one_bucket(rt, alloc);
    let empty = empty_bytes(1, groups);
    let is_right = interns_numbered(rt, alloc, &mut table, number)
        && reserves(&mut table, 1, Ok(()))
        && takes(&table, empty.saturating_add(15 * number as u128))
        && loses_numbered(rt, alloc, &mut table, number)
        && reserves(&mut table, 0, Ok(()))
        && takes(&table, empty);
    drop(table);
    is_right
}

#[test]
fn memory_of_room_beside_a_full_table(rt: HostRuntime) {
    assert_that(&rt, full_table_has_room(&rt, rt.alloc(), 576, 128));
    assert_that(&rt, full_table_has_room(&rt, rt.alloc(), 577, 128));
}

/// A table in which all texts have one hash, so that they lie side by side, and leave places that the index doesn't report.
type AlikeTable = Table<EmptyStaticAtomSet, Alike>;

/// Whether as many texts come, and go.
fn come_and_go(rt: &impl Abort, alloc: Global, table: &mut AlikeTable, number: usize) -> bool {
    for n in 0..number {
        if table.intern(&numbered_text(rt, alloc, TEXT, n)).is_err() {
            return false;
        }
    }
    for n in 0..number {
        let word = table.get(&numbered_text(rt, alloc, TEXT, n)).unwrap_or(0);
        if !releases(table, word) {
            return false;
        }
    }
    true
}

/// Whether a table with room for this many texts has this many groups once 40 have come and gone.
fn keeps_groups_of_alike(rt: &impl Abort, alloc: Global, room: usize, groups: u32) -> bool {
    let buckets = Buckets::new(0).expect(rt, "bits");
    let mut table: AlikeTable = Table::with_buckets(
        alloc,
        Alike,
        Limits::greatest(),
        buckets,
    ).expect(rt, "a table");
    let is_right = reserves(&mut table, room, Ok(()))
        && come_and_go(rt, alloc, &mut table, 40)
        && table.memory() == empty_bytes(1, groups);
    drop(table);
    is_right
}

#[test]
fn memory_stays_when_texts_of_one_hash_go(rt: HostRuntime) {
    assert_that(&rt, keeps_groups_of_alike(&rt, rt.alloc(), 150_000, 32_768));
}

/// Whether a table that is full of this many texts has as many groups once each has a second holder.
fn takes_no_more_for_second_holders(
    rt: &impl Abort,
    alloc: Global,
    number: usize,
    groups: u32,
) -> bool {
    let mut table = one_bucket(rt, alloc);
    let empty = empty_bytes(1, groups);
    let is_right = takes_numbered(rt, alloc, &mut table, number, empty)
        && takes_numbered(rt, alloc, &mut table, number, empty);
    drop(table);
    is_right
}

#[test]
fn memory_of_second_holders(rt: HostRuntime) {
    assert_that(
        &rt,
        takes_no_more_for_second_holders(&rt, rt.alloc(), 576, 64),
    );
}

fn clones(table: &mut Plain, word: u64) -> bool {
    table.clone_held(word) == Ok(Some(word))
}

/// Whether a run clones the word.
fn runs_a_clone(table: &mut Plain, word: u64) -> bool {
    let calls = [Call::Clone(word)];
    table.run(&calls).is_ok()
}

/// Whether the word can be cloned, by itself and in a run, and the table takes this many bytes after each.
fn takes_as_it_clones(table: &mut Plain, word: u64, bytes: u128) -> bool {
    clones(table, word) && takes(table, bytes) && runs_a_clone(table, word) && takes(table, bytes)
}

/// Whether a table that lost this many texts takes as much as before as the word of another one is cloned.
fn cloning_keeps_room(rt: &impl Abort, alloc: Global, number: usize, groups: u32) -> bool {
    let mut table = one_bucket(rt, alloc);
    let bytes = empty_bytes(1, groups).saturating_add(9);
    let is_right = interns_numbered(rt, alloc, &mut table, number)
        && loses_numbered(rt, alloc, &mut table, number)
        && interns(&mut table, "tokenised");
    let word = word_of(&table, "tokenised").unwrap_or(0);
    let is_right = is_right && takes_as_it_clones(&mut table, word, bytes);
    drop(table);
    is_right
}

#[test]
fn memory_stays_when_words_are_cloned(rt: HostRuntime) {
    assert_that(&rt, cloning_keeps_room(&rt, rt.alloc(), 576, 64));
}

/// Whether room for no text can be made in a table, which then takes this many bytes.
fn takes_no_more(table: &mut Plain, bytes: u128) -> bool {
    reserves(table, 0, Ok(())) && takes(table, bytes)
}

/// Whether room for this many texts can be made in a table without any, which then has this many groups.
fn grows(table: &mut Plain, number: usize, groups: u32) -> bool {
    reserves(table, number, Ok(())) && takes(table, empty_bytes(1, groups))
}

/// Whether a table that lost all of this many texts has as many groups as before when room for no text is made, and twice as many when room for one
/// text more than these is.
fn emptied_table_keeps_groups(rt: &impl Abort, alloc: Global, number: usize, groups: u32) -> bool {
    let mut table = one_bucket(rt, alloc);
    let is_right = interns_numbered(rt, alloc, &mut table, number)
        && loses_numbered(rt, alloc, &mut table, number)
        && takes_no_more(&mut table, empty_bytes(1, groups))
        && grows(
            &mut table,
            number.saturating_add(1),
            groups.saturating_mul(2),
        );
    drop(table);
    is_right
}

#[test]
fn memory_stays_when_room_for_no_text_is_made(rt: HostRuntime) {
    assert_that(&rt, emptied_table_keeps_groups(&rt, rt.alloc(), 576, 64));
}

/// Whether a table that is made with room for no text takes what its buckets do, and one more text its own group.
fn takes_no_room(rt: &impl Abort, alloc: Global) -> bool {
    let mut table = Plain::with_capacity(alloc, keys_of(rt, 1), 0).expect(rt, "a table");
    let is_right = takes_no_more(&mut table, 4096 * BUCKET)
        && interns(&mut table, "interned")
        && takes_no_more(&mut table, empty_bytes(4096, 1).saturating_add(8));
    drop(table);
    is_right
}

#[test]
fn room_for_no_text_takes_none(rt: HostRuntime) {
    assert_that(&rt, takes_no_room(&rt, rt.alloc()));
}

/// Whether a table that had the first number of texts, and lost the second, has this many groups once it is cleared, and twice as many once it has
/// room for one text more than it had.
fn keeps_cleared_groups(
    rt: &impl Abort,
    alloc: Global,
    number: usize,
    lost: usize,
    groups: u32,
) -> bool {
    let mut table = one_bucket(rt, alloc);
    let is_right = interns_numbered(rt, alloc, &mut table, number)
        && loses_numbered(rt, alloc, &mut table, lost);
    table.clear();
    let is_right = is_right
        && takes(&table, empty_bytes(1, groups))
        && grows(
            &mut table,
            number.saturating_add(1),
            groups.saturating_mul(2),
        );
    drop(table);
    is_right
}

/// Of a table that is full, that lost some texts, and that lost all.
static CLEARED: [(usize, usize, u32); 5] = [
    (9, 0, 1),
    (9, 9, 1),
    (576, 0, 64),
    (576, 300, 64),
    (576, 576, 64),
];

#[test]
fn memory_stays_when_a_full_table_is_cleared(rt: HostRuntime) {
    for (number, lost, groups) in &CLEARED {
        let is_kept = keeps_cleared_groups(&rt, rt.alloc(), *number, *lost, *groups);
        assert_for(&rt, is_kept, &(number, lost));
    }
}

/// The kind of the names below.
#[derive(Drop)]
struct Files;

/// Whether the text has a name and a holder of it can be taken.
fn loses_name(names: &mut Names<Files>, text: &str) -> bool {
    match names.get(text) {
        Some(name) => names.release(name),
        None => false,
    }
}

/// Whether as many texts have a name, and lose it.
fn loses_names(rt: &impl Abort, alloc: Global, names: &mut Names<Files>, number: usize) -> bool {
    for n in 0..number {
        if !loses_name(names, &numbered_text(rt, alloc, TEXT, n)) {
            return false;
        }
    }
    true
}

/// Whether names take this many bytes, and a new one then its own in addition.
fn names_take(names: &mut Names<Files>, bytes: u128) -> bool {
    takes(names.table(), bytes)
        && names.intern("tokenised").is_ok()
        && takes(names.table(), bytes.saturating_add(9))
}

/// Whether as many texts get a name.
fn interns_names(rt: &impl Abort, alloc: Global, names: &mut Names<Files>, number: usize) -> bool {
    for n in 0..number {
        if names.intern(&numbered_text(rt, alloc, TEXT, n)).is_err() {
            return false;
        }
    }
    true
}

/// Whether names take this many bytes once they are cleared.
fn names_stay(names: &mut Names<Files>, bytes: u128) -> bool {
    names.clear();
    takes(names.table(), bytes)
}

/// Whether names of as many texts take this many bytes once they are cleared.
fn cleared_names_keep_room(rt: &impl Abort, alloc: Global, number: usize, empty: u128) -> bool {
    let mut names = Names::of_table(one_bucket(rt, alloc));
    let is_right = interns_names(rt, alloc, &mut names, number) && names_stay(&mut names, empty);
    drop(names);
    is_right
}

/// Whether names of as many texts take this many bytes once all are gone, and with a new one then.
fn names_keep_room(rt: &impl Abort, alloc: Global, number: usize, empty: u128) -> bool {
    let mut names = Names::of_table(one_bucket(rt, alloc));
    let is_right = interns_names(rt, alloc, &mut names, number)
        && loses_names(rt, alloc, &mut names, number)
        && names_take(&mut names, empty);
    drop(names);
    is_right
}

#[test]
fn memory_stays_when_names_go(rt: HostRuntime) {
    assert_that(
        &rt,
        names_keep_room(&rt, rt.alloc(), 576, empty_bytes(1, 64)),
    );
    assert_that(
        &rt,
        cleared_names_keep_room(&rt, rt.alloc(), 576, empty_bytes(1, 64)),
    );
}
