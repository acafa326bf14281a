//! Texts of hundreds of kilobytes, and of two megabytes beyond ASCII. Their hashes are from OpenSSL's SipHash.

use crate::assert_that;
use crate::begun::{intern, new_set, new_table};
use serde_json::Value;
use std::alloc::{AllocError, Global};
use std::process::Abort;
use std::sync::Wait;
use string_cache::dynamic_set::Set;
use string_cache::table::Table;
use string_cache::{DefaultAtom, EmptyStaticAtomSet};
use test_calls::{has_word, interned_owned, is_of, json_of, raised, read_json};

/// A text of 2,097,160 bytes: letters of one, two, three and four bytes.
fn long_text(alloc: Global) -> Result<String, AllocError> {
    "aé漢🎉".repeat(alloc, 209_716)
}

/// The long text in upper case.
fn upper_text(alloc: Global) -> Result<String, AllocError> {
    "Aé漢🎉".repeat(alloc, 209_716)
}

const LONG_TICKET: u64 = 0x1_1134;

const UPPER_TICKET: u64 = 0x1_0aec;

/// Whether the atom has this ticket, this text and this hash.
fn is_hashed(atom: &DefaultAtom<'_>, word: u64, text: &str, hash: u64) -> bool {
    is_of(atom, word, text) && atom.get_hash() == hash
}

#[test]
fn quarter_of_a_megabyte(rt: HostRuntime) {
    let set = new_set(&rt, rt.alloc());
    let text = "a".repeat(rt.alloc(), 262_144).expect(&rt, "a text");
    let atom = intern(&rt, &set, &text);
    assert_that(
        &rt,
        is_hashed(&atom, 0x1_23ac, &text, 0x4e63_c3f9_5272_f8eb),
    );
}

/// Whether the atom of the owned text in a set of its own is equal to this one.
fn is_owned_again<R: Wait + Abort>(
    rt: &R,
    alloc: Global,
    atom: &DefaultAtom<'_>,
    text: String,
) -> bool {
    let set: Set<EmptyStaticAtomSet> = new_set(rt, alloc);
    interned_owned(rt, &set, text).expect(rt, "an atom") == *atom
}

/// Whether the atom prints its text, and for debugging 21 bytes more: those of `Atom('` and `' type=dynamic)`.
fn prints_itself<R: Abort>(rt: &R, alloc: Global, atom: &DefaultAtom<'_>) -> bool {
    let printed = format!(in alloc; "{atom}").expect(rt, "a text");
    let shown = format!(in alloc; "{atom:?}").expect(rt, "a text");
    atom.eq_str(&printed) && shown.len() == printed.len().saturating_add(21)
}

#[test]
fn long_text_is_an_atom(rt: HostRuntime) {
    let text = long_text(rt.alloc()).expect(&rt, "a text");
    let set = new_set(&rt, rt.alloc());
    let atom = intern(&rt, &set, &text);
    assert_that(
        &rt,
        is_hashed(&atom, LONG_TICKET, &text, 0xcb0c_ec29_045a_244d),
    );
    assert_that(&rt, prints_itself(&rt, rt.alloc(), &atom));
    assert_that(&rt, is_owned_again(&rt, rt.alloc(), &atom, text));
}

/// Whether the atom in upper case is another one, and has the wanted text.
fn changes_case<R: Wait + Abort>(
    rt: &R,
    set: &Set<EmptyStaticAtomSet>,
    atom: &DefaultAtom<'_>,
    wanted: &str,
) -> bool {
    let upper = raised(rt, set, atom).expect(rt, "an atom");
    is_of(&upper, UPPER_TICKET, wanted) && upper != *atom
}

#[test]
fn long_text_changes_case(rt: HostRuntime) {
    let text = long_text(rt.alloc()).expect(&rt, "a text");
    let wanted = upper_text(rt.alloc()).expect(&rt, "a text");
    let set = new_set(&rt, rt.alloc());
    assert_that(
        &rt,
        changes_case(&rt, &set, &intern(&rt, &set, &text), &wanted),
    );
}

/// Whether the atom of the JSON value in a set of its own has the long text's ticket and is equal to this one.
fn is_read<R: Wait + Abort>(rt: &R, alloc: Global, json: &Value, atom: &DefaultAtom<'_>) -> bool {
    let set: Set<EmptyStaticAtomSet> = new_set(rt, alloc);
    let again = read_json(rt, &set, json).expect(rt, "an atom");
    has_word(&again, LONG_TICKET) && again == *atom
}

/// Whether the atom is sent as a JSON value of this text, and read from it.
fn is_sent<R: Wait + Abort>(rt: &R, alloc: Global, atom: &DefaultAtom<'_>, text: &str) -> bool {
    let json = json_of(atom, alloc).expect(rt, "a value");
    json.as_str() == Some(text) && is_read(rt, alloc, &json, atom)
}

#[test]
fn long_text_is_sent_as_json(rt: HostRuntime) {
    let text = long_text(rt.alloc()).expect(&rt, "a text");
    let set = new_set(&rt, rt.alloc());
    assert_that(
        &rt,
        is_sent(&rt, rt.alloc(), &intern(&rt, &set, &text), &text),
    );
}

/// Whether the table holds this many texts, of this many bytes.
fn holds(table: &Table<EmptyStaticAtomSet>, texts: usize, bytes: u128) -> bool {
    table.entries() == texts && table.text_bytes() == bytes
}

/// Whether this is the long text's ticket, and the table holds no other text.
fn is_held(table: &Table<EmptyStaticAtomSet>, word: u64, text: &str) -> bool {
    word == LONG_TICKET && table.text(word) == Some(text) && holds(table, 1, 2_097_160)
}

/// Whether the table holds the long text, and nothing once it is given.
fn comes_and_goes<R: Abort>(rt: &R, table: &mut Table<EmptyStaticAtomSet>, text: &str) -> bool {
    let word = table.intern(text).expect(rt, "a word");
    let is_held = is_held(table, word, text);
    table.give(word);
    is_held && holds(table, 0, 0)
}

#[test]
fn long_text_lies_in_a_table(rt: HostRuntime) {
    let text = long_text(rt.alloc()).expect(&rt, "a text");
    assert_that(
        &rt,
        comes_and_goes(&rt, &mut new_table(&rt, rt.alloc()), &text),
    );
}
