//! What a table returns for words and for texts, and its holders by words, with values from outside.

use crate::hashers::keys_of;
use crate::rows::{
    FIRST, Plain, Row, SECOND, Told, check, check_plain, check_with, check_with_room, finds,
    has_holders, is_text_of, keeps, lists, plain, releases,
};
use crate::{assert_for, assert_that};
use std::alloc::{AllocError, Global};
use std::collections::HashMap;
use std::process::Abort;
use string_cache_core::Fault;
use string_cache_core::table::{Name, Names, WordText};
use string_cache_core::word::{Buckets, Limits};
use test_samples::One;

/// Words of texts of up to 7 bytes, as the layout has them. No holders of them are counted.
static INLINE: [Row; 16] = [
    Row::Tell(Told::TextOf(0x1, "")),
    Row::Tell(Told::Found("", Some(0x1))),
    Row::Tell(Told::Holders(0x1, None)),
    Row::Tell(Told::TextOf(0x11, "\0")),
    Row::Tell(Told::Found("\0", Some(0x11))),
    Row::Tell(Told::Holders(0x11, None)),
    Row::Tell(Told::TextOf(0x6111, "a")),
    Row::Tell(Told::Found("a", Some(0x6111))),
    Row::Tell(Told::Holders(0x6111, None)),
    Row::Tell(Told::TextOf(0xa9_c321, "é")),
    Row::Tell(Told::Found("é", Some(0xa9_c321))),
    Row::Tell(Told::Holders(0xa9_c321, None)),
    Row::Tell(Told::TextOf(0x6766_6564_6362_6171, "abcdefg")),
    Row::Tell(Told::Found("abcdefg", Some(0x6766_6564_6362_6171))),
    Row::Tell(Told::Holders(0x6766_6564_6362_6171, None)),
    Row::Tell(Told::Keeps(0, 0)),
];

#[test]
fn inline_words_have_texts_of_their_own(rt: HostRuntime) {
    check_plain(&rt, rt.alloc(), &INLINE);
}

/// A holder of the static word comes and goes. No text has the next word.
static STATIC: [Row; 8] = [
    Row::Tell(Told::TextOf(2, "sentence")),
    Row::Tell(Told::Found("sentence", Some(2))),
    Row::Tell(Told::Holders(2, None)),
    Row::CloneHeld(2, Ok(Some(2))),
    Row::Release(2, true),
    Row::Tell(Told::NoTextOf(0x1_0000_0002)),
    Row::Release(0x1_0000_0002, false),
    Row::Tell(Told::Keeps(0, 0)),
];

#[test]
fn static_words_have_texts_in_tables(rt: HostRuntime) {
    check::<One>(&rt, rt.alloc(), &STATIC);
}

/// Neither the text nor the word is there before, and neither is after.
static DYNAMIC: [Row; 11] = [
    Row::Tell(Told::Found("interned", None)),
    Row::Tell(Told::NoTextOf(FIRST)),
    Row::Tell(Told::Holders(FIRST, None)),
    Row::Intern("interned", Ok(FIRST)),
    Row::Tell(Told::Found("interned", Some(FIRST))),
    Row::Tell(Told::TextOf(FIRST, "interned")),
    Row::Tell(Told::Holders(FIRST, Some(1))),
    Row::Release(FIRST, true),
    Row::Tell(Told::Found("interned", None)),
    Row::Tell(Told::NoTextOf(FIRST)),
    Row::Tell(Told::Holders(FIRST, None)),
];

#[test]
fn a_dynamic_text_has_a_word_while_it_is_held(rt: HostRuntime) {
    check_plain(&rt, rt.alloc(), &DYNAMIC);
}

/// A word that isn't held, such as those of nothing and that of a ticket that no bucket gave, gets no holder and loses none.
static HOLDERS: [Row; 21] = [
    Row::CloneHeld(FIRST, Ok(None)),
    Row::Release(FIRST, false),
    Row::Intern("interned", Ok(FIRST)),
    Row::CloneHeld(FIRST, Ok(Some(FIRST))),
    Row::Tell(Told::Holders(FIRST, Some(2))),
    Row::Release(FIRST, true),
    Row::Tell(Told::Keeps(1, 8)),
    Row::Release(FIRST, true),
    Row::Tell(Told::Keeps(0, 0)),
    Row::CloneHeld(FIRST, Ok(None)),
    Row::Release(FIRST, false),
    Row::CloneHeld(0, Ok(None)),
    Row::Release(0, false),
    Row::CloneHeld(3, Ok(None)),
    Row::Release(3, false),
    Row::CloneHeld(0x81, Ok(None)),
    Row::Release(0x81, false),
    Row::CloneHeld(SECOND, Ok(None)),
    Row::Release(SECOND, false),
    Row::CloneHeld(u64::MAX, Ok(None)),
    Row::Release(u64::MAX, false),
];

#[test]
fn holders_come_and_go_by_words(rt: HostRuntime) {
    check_plain(&rt, rt.alloc(), &HOLDERS);
}

static FULL: [Row; 6] = [
    Row::Intern("interned", Ok(FIRST)),
    Row::CloneHeld(FIRST, Ok(Some(FIRST))),
    Row::Tell(Told::Holders(FIRST, Some(2))),
    Row::CloneHeld(FIRST, Err(Fault::FullCount)),
    Row::Tell(Told::Holders(FIRST, Some(2))),
    Row::CloneHeld(0x6111, Ok(Some(0x6111))),
];

#[test]
fn a_full_text_is_not_cloned(rt: HostRuntime) {
    let limits = Limits::new(2, 9).expect(&rt, "limits");
    check_with(&rt, rt.alloc(), limits, Buckets::usual(), &FULL);
}

/// Five texts, one of which is short, and one of which is interned twice. Once the first one is gone, the last one has its place. Their buckets by
/// OpenSSL's SipHash are 0x2ec, 0x20a, 0x760 and 0xf21.
static ORDER: [Row; 12] = [
    Row::Tell(Told::Lists(&[])),
    Row::Intern("the first", Ok(0x1_0bb0)),
    Row::Intern("short", Ok(0x7472_6f68_7351)),
    Row::Intern("the second", Ok(0x1_0828)),
    Row::Intern("the third", Ok(0x1_1d80)),
    Row::Intern("the second", Ok(0x1_0828)),
    Row::Intern("Straße 1", Ok(0x1_3c84)),
    Row::Tell(Told::Lists(&[
        ("the first", 1),
        ("the second", 2),
        ("the third", 1),
        ("Straße 1", 1),
    ])),
    Row::Intern("the first", Ok(0x1_0bb0)),
    Row::Release(0x1_0bb0, true),
    Row::Release(0x1_0bb0, true),
    Row::Tell(Told::Lists(&[("Straße 1", 1), ("the second", 2), ("the third", 1)])),
];

#[test]
fn texts_come_in_their_order(rt: HostRuntime) {
    check_plain(&rt, rt.alloc(), &ORDER);
}

/// Texts at the places of a table, also after the first one is gone.
static PLACES: [Row; 8] = [
    Row::Intern("interned", Ok(FIRST)),
    Row::Intern("tokenised", Ok(0x1_39dc)),
    Row::Intern("abcdefgh", Ok(0x1_0b14)),
    Row::Intern("interned", Ok(FIRST)),
    Row::Tell(Told::Stand(&[("interned", 2), ("tokenised", 1), ("abcdefgh", 1)])),
    Row::Release(FIRST, true),
    Row::Release(FIRST, true),
    Row::Tell(Told::Stand(&[("abcdefgh", 1), ("tokenised", 1)])),
];

#[test]
fn texts_stand_at_places(rt: HostRuntime) {
    check_plain(&rt, rt.alloc(), &PLACES);
}

static ITERATED: [Row; 5] = [
    Row::Intern("interned", Ok(FIRST)),
    Row::Intern("tokenised", Ok(0x1_39dc)),
    Row::Intern("abcdefgh", Ok(0x1_0b14)),
    Row::Tell(Told::Three),
    Row::Tell(Told::HeldOnce),
];

#[test]
fn an_iterator_knows_what_is_left(rt: HostRuntime) {
    check_plain(&rt, rt.alloc(), &ITERATED);
}

/// Nothing is left of a text once the table is cleared.
static CLEARED: [Row; 9] = [
    Row::Intern("interned", Ok(FIRST)),
    Row::Clear,
    Row::Tell(Told::Keeps(0, 0)),
    Row::Tell(Told::Lists(&[])),
    Row::Tell(Told::NoTextOf(FIRST)),
    Row::Release(FIRST, false),
    Row::Tell(Told::TextOf(0x6111, "a")),
    Row::Intern("interned", Ok(SECOND)),
    Row::Tell(Told::Keeps(1, 8)),
];

#[test]
fn a_cleared_table_gives_no_ticket_again(rt: HostRuntime) {
    check_plain(&rt, rt.alloc(), &CLEARED);
}

/// Two kinds of names, which have no values.
enum File {}

enum Function {}

fn new_names<K>(rt: &impl Abort, alloc: Global) -> Names<K> {
    Names::new(alloc, keys_of(rt, 1)).expect(rt, "names")
}

fn name_of<K>(rt: &impl Abort, names: &mut Names<K>, text: &str) -> Name<K> {
    names.intern(text).expect(rt, "a name")
}

fn names<K>(names: &Names<K>, name: Name<K>, text: &str) -> bool {
    match names.text_of(name) {
        Some(own) => own.as_str() == text,
        None => false,
    }
}

/// Whether the text is interned as this name.
fn interns_as<K>(names: &mut Names<K>, text: &str, name: Name<K>) -> bool {
    names.intern(text) == Ok(name)
}

/// Whether two holders of the name can be taken, and no third one, and it then no longer has this text.
fn loses_both<K>(kind: &mut Names<K>, name: Name<K>, text: &str) -> bool {
    kind.release(name) && kind.release(name) && !kind.release(name) && !names(kind, name, text)
}

/// Whether the name is found by its text, and by its word.
fn finds_name<K>(names: &Names<K>, text: &str, name: Name<K>) -> bool {
    names.get(text) == Some(name) && names.name_of(name.word()) == Some(name)
}

/// Whether no name has this text, and none this word.
fn finds_none<K>(names: &Names<K>, text: &str, word: u64) -> bool {
    names.name_of(word).is_none() && names.get(text).is_none()
}

/// Whether no more holders of a name can be had.
fn is_full<K>(names: &mut Names<K>, name: Name<K>, text: &str) -> bool {
    names.intern(text) == Err(Fault::FullCount) && names.clone_held(name) == Err(Fault::FullCount)
}

/// Whether the name of a text, interned twice and no more, has the text until both holders are gone.
fn is_named_till_the_last(rt: &impl Abort, files: &mut Names<File>, text: &str) -> bool {
    let name = name_of(rt, files, text);
    names(files, name, text)
        && interns_as(files, text, name)
        && is_full(files, name, text)
        && loses_both(files, name, text)
}

/// Whether the name of a text has it, and is found.
fn is_named_and_found(rt: &impl Abort, functions: &mut Names<Function>, text: &str) -> bool {
    let name = name_of(rt, functions, text);
    names(functions, name, text) && finds_name(functions, text, name)
}

/// Names that may have two holders each.
fn names_of_two<K>(rt: &impl Abort, alloc: Global) -> Names<K> {
    let limits = Limits::new(2, 9).expect(rt, "limits");
    let table = Plain::with_limits(alloc, keys_of(rt, 1), limits).expect(rt, "a table");
    Names::of_table(table)
}

fn are_files(rt: &impl Abort, alloc: Global) -> bool {
    let mut files = names_of_two(rt, alloc);
    let is_right = is_named_till_the_last(rt, &mut files, "source/main.rt");
    drop(files);
    is_right
}

/// Names that a file or a tool may have as well: with controls, of two lines, and of white space alone.
static ODD: [&str; 3] = ["a name\0\t\x1b[0m\x7f", "two\r\nlines", "          "];

fn are_odd_named(rt: &impl Abort, functions: &mut Names<Function>) -> bool {
    for text in &ODD {
        if !is_named_and_found(rt, functions, text) {
            return false;
        }
    }
    true
}

/// Whether functions are found by their names, the longest of which is this one.
fn are_functions(rt: &impl Abort, alloc: Global, long: &str) -> bool {
    let mut functions = new_names(rt, alloc);
    let is_right = is_named_and_found(rt, &mut functions, "hauptgr\u{f6}\u{df}e")
        && are_odd_named(rt, &mut functions)
        && is_named_and_found(rt, &mut functions, long)
        && finds_none(&functions, "another_name", 0);
    drop(functions);
    is_right
}

#[test]
fn names_are_of_kinds(rt: HostRuntime) {
    let long = "é".repeat(rt.alloc(), 10_000).expect(&rt, "a text");
    assert_that(
        &rt,
        are_files(&rt, rt.alloc()) && are_functions(&rt, rt.alloc(), &long),
    );
}

/// A text of 2,000,000 bytes, two of each letter.
fn large_text(rt: &impl Abort, alloc: Global) -> String {
    "é".repeat(alloc, 1_000_000).expect(rt, "a text")
}

/// Whether the table gives this text alone, with this word and one holder.
fn is_found_alone(table: &Plain, text: &str, word: u64) -> bool {
    finds(table, text, Some(word))
        && is_text_of(table, word, text)
        && has_holders(table, word, Some(1))
        && lists(table, &[(text, 1)])
}

/// Whether the text is found once it is interned, gets a second holder, and is gone with it.
fn is_looked_up(table: &mut Plain, text: &str) -> bool {
    let is_new = finds(table, text, None);
    let Ok(word) = table.intern(text) else {
        return false;
    };
    is_new
        && is_found_alone(table, text, word)
        && clones(table, word)
        && releases(table, word)
        && releases(table, word)
        && keeps(table, 0, 0)
}

fn clones(table: &mut Plain, word: u64) -> bool {
    table.clone_held(word) == Ok(Some(word))
}

fn is_looked_up_in_a_new_table(rt: &impl Abort, alloc: Global, text: &str) -> bool {
    let mut table = plain(rt, alloc);
    let is_right = is_looked_up(&mut table, text);
    drop(table);
    is_right
}

#[test]
fn a_large_text_is_looked_up(rt: HostRuntime) {
    let text = large_text(&rt, rt.alloc());
    assert_that(&rt, is_looked_up_in_a_new_table(&rt, rt.alloc(), &text));
}

/// What is printed for a word's text in a width of six, for the same in quotes, and for its name.
fn printed(alloc: Global, text: &WordText<'_>, name: Name<File>) -> Result<String, AllocError> {
    format!(in alloc; "{text:>6}|{text:?}|{name:?}")
}

/// Whether this is printed for a name and its text.
fn prints(alloc: Global, names: &Names<File>, name: Name<File>, wanted: &str) -> bool {
    let Some(text) = names.text_of(name) else {
        return false;
    };
    match printed(alloc, &text, name) {
        Ok(printed) => printed.as_str() == wanted,
        Err(_) => false,
    }
}

fn print(rt: &impl Abort, alloc: Global, text: &str, wanted: &str) -> bool {
    let mut files = new_names(rt, alloc);
    let name = name_of(rt, &mut files, text);
    let is_right = prints(alloc, &files, name, wanted);
    drop(files);
    is_right
}

/// An inline text and a dynamic one, whose bucket is 0x63c, and what is printed for them.
static PRINTED: [(&str, &str); 2] = [
    ("é\"j", "   é\"j|\"é\\\"j\"|Name(0x6a22a9c341)"),
    ("öä\"üß", " öä\"üß|\"öä\\\"üß\"|Name(0x118f0)"),
];

#[test]
fn names_print(rt: HostRuntime) {
    for (text, wanted) in &PRINTED {
        assert_for(&rt, print(&rt, rt.alloc(), text, wanted), text);
    }
}

/// Whether the first name is before the second.
fn are_ordered(first: Name<File>, second: Name<File>) -> bool {
    first < second && first != second && first.cmp(&first).is_eq()
}

/// Whether a map with a line of the first name has none of the second.
fn have_hashes(alloc: Global, first: Name<File>, second: Name<File>) -> bool {
    let mut lines = HashMap::new(alloc);
    let room: Result<_, _> = lines.insert(first, 7);
    let is_right = room.is_ok() && lines.get(&first) == Some(&7) && lines.get(&second).is_none();
    drop(lines);
    is_right
}

fn order_and_hash(rt: &impl Abort, alloc: Global) -> bool {
    let mut files = new_names(rt, alloc);
    let first = name_of(rt, &mut files, "a");
    let second = name_of(rt, &mut files, "b");
    let is_right = are_ordered(first, second) && have_hashes(alloc, first, second);
    drop(files);
    is_right
}

#[test]
fn names_order_and_hash_as_words(rt: HostRuntime) {
    assert_that(&rt, order_and_hash(&rt, rt.alloc()));
}

static ROOM: [Row; 5] = [
    Row::Tell(Told::Keeps(0, 0)),
    Row::Intern("interned", Ok(FIRST)),
    Row::Reserve(1_000_000, Ok(())),
    Row::Reserve(usize::MAX, Err(Fault::Memory)),
    Row::Tell(Told::Keeps(1, 8)),
];

#[test]
fn room_is_made_for_many_texts(rt: HostRuntime) {
    check_with_room(&rt, rt.alloc(), 1_000_000, &ROOM);
}
