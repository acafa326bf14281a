//! What atoms of each form tell, print and lend, and those that are made without a set.

use crate::samples::intern;
use crate::sets::{self, USUAL, ask};
use crate::{assert_for, assert_that};
use std::alloc::Global;
use std::cmp::Ordering;
use std::convert::{AsSlice, AsStr};
use std::fmt::{Debug, Display};
use std::process::Abort;
use std::sync::Wait;
use string_cache::atom::AtomOf;
use string_cache::trivial_impls::PrecomputedHash;
use string_cache::{AtomKind, SetAtom, SharedSet};
use test_calls::{are_one, has_text, has_word};

/// A text, its 32-bit hash, what its atom prints as, for readers and for debugging, and the JSON that it is written as.
type Row = (&'static str, u32, &'static str, &'static str);

/// Texts that are inline, static and dynamic. The last three hashes are of the texts' entries, as OpenSSL's SipHash gives them.
static ROWS: [Row; 7] = [
    ("", 1, ", Atom('' type=inline)", "\"\""),
    (
        "foo",
        0x6f6f_6631,
        "foo, Atom('foo' type=inline)",
        "\"foo\"",
    ),
    (
        "été",
        0x74a9_6a92,
        "été, Atom('été' type=inline)",
        "\"été\"",
    ),
    (
        "sentence",
        0x4444_44cc,
        "sentence, Atom('sentence' type=static)",
        "\"sentence\"",
    ),
    (
        "interned",
        0x53ce_1faa,
        "interned, Atom('interned' type=dynamic)",
        "\"interned\"",
    ),
    (
        "Stück \"Größe\" \\",
        0x3d3b_6e14,
        "Stück \"Größe\" \\, Atom('Stück \"Größe\" \\' type=dynamic)",
        "\"Stück \\\"Größe\\\" \\\\\"",
    ),
    (
        "line\n\0\u{1}\u{7f}!",
        0xa132_370a,
        "line\n\0\u{1}\u{7f}!, Atom('line\n\0\u{1}\u{7f}!' type=dynamic)",
        "\"line\\n\\u0000\\u0001\u{7f}!\"",
    ),
];

fn is_lent<A: AsStr + AsSlice<u8> + PrecomputedHash>(atom: &A, text: &str, hash: u32) -> bool {
    atom.as_str() == text && atom.as_slice() == text.as_bytes() && atom.precomputed_hash() == hash
}

/// What an atom prints as, for readers and for debugging.
fn printed<A: Display + Debug>(rt: &impl Abort, alloc: Global, atom: &A) -> String {
    format!(in alloc; "{atom}, {atom:?}").expect(rt, "a text")
}

fn prints<A: Display + Debug>(rt: &impl Abort, alloc: Global, atom: &A, shown: &str) -> bool {
    printed(rt, alloc, atom).as_str() == shown
}

/// Whether the atom is written as this JSON.
fn is_written<H: AtomKind>(rt: &impl Abort, alloc: Global, atom: &SetAtom<H>, json: &str) -> bool {
    let text = serde_json::to_string(alloc, atom).expect(rt, "a text");
    text.as_str() == json
}

/// Whether the atom tells what the row says.
fn tells<H: AtomKind>(rt: &impl Abort, alloc: Global, atom: &SetAtom<H>, row: &Row) -> bool {
    let (text, hash, shown, json) = row;
    is_lent(atom, text, *hash)
        && prints(rt, alloc, atom, shown)
        && is_written(rt, alloc, atom, json)
}

/// Whether the text's atom does.
fn is_told<S: SharedSet, R: Wait + Abort>(rt: &R, set: S, row: &Row) -> bool {
    tells(rt, set.allocator(), &intern(rt, set, row.0), row)
}

/// Whether the atom of the static text that a call gave is the one of the set.
fn is_sentence<H: AtomKind>(atom: Option<SetAtom<H>>, own: &SetAtom<H>) -> bool {
    match atom {
        Some(atom) => {
            atom.is_static() && has_word(&atom, 2) && are_one(&atom, own) && atom == *own
        }
        None => false,
    }
}

/// Whether each call that makes the static text's atom does.
fn is_listed<H: AtomKind>(own: &SetAtom<H>) -> bool {
    is_sentence(AtomOf::try_static("sentence"), own) && is_sentence(AtomOf::pack_static(0), own)
}

/// Whether a text isn't static, and an index isn't listed.
fn is_not_listed<H: AtomKind>(text: &str, index: u32) -> bool {
    SetAtom::<H>::try_static(text).is_none() && SetAtom::<H>::pack_static(index).is_none()
}

/// Whether the number and the length make the atom of this text.
fn is_packed<H: AtomKind>(n: u64, len: u8, text: &str) -> bool {
    match SetAtom::<H>::pack_inline(n, len) {
        Some(atom) => {
            has_text(&atom, text)
                && has_word(&atom, n.wrapping_add(16 * u64::from(len)).wrapping_add(1))
        }
        None => false,
    }
}

fn is_not_packed<H: AtomKind>(n: u64, len: u8) -> bool {
    SetAtom::<H>::pack_inline(n, len).is_none()
}

/// Numbers and lengths that make atoms, and their texts.
static PACKED: [(u64, u8, &str); 3] = [(0xa9_c300, 2, "é"), (0, 1, "\0"), (0, 0, "")];

/// Numbers and lengths that make none.
static NOT_PACKED: [(u64, u8); 6] = [
    (0xc300, 1),
    (0x62_6100, 1),
    (0, 8),
    (1, 0),
    (0, u8::MAX),
    (u64::MAX, 7),
];

fn check_packed<H: AtomKind>(rt: &impl Abort) {
    for (n, len, text) in &PACKED {
        assert_for(rt, is_packed::<H>(*n, *len, text), text);
    }
    for (n, len) in &NOT_PACKED {
        assert_for(rt, is_not_packed::<H>(*n, *len), &(n, len));
    }
}

/// Whether the atom without a text is empty, as the default one is.
fn is_empty<H: AtomKind>(atom: &SetAtom<H>) -> bool {
    has_word(atom, 1) && has_text(atom, "") && *atom == SetAtom::<H>::default()
}

/// Whether the first of two atoms comes after the other.
fn stands_behind<H: AtomKind>(atom: &SetAtom<H>, other: &SetAtom<H>) -> bool {
    atom.cmp(other) == Ordering::Greater && other.partial_cmp(atom) == Some(Ordering::Less)
}

fn is_in_order<S: SharedSet, R: Wait + Abort>(rt: &R, set: S) -> bool {
    stands_behind(&intern(rt, set, "tokenised"), &intern(rt, set, "interned"))
}

/// Asks a set.
pub fn check<S: SharedSet, R: Wait + Abort>(rt: &R, set: S) {
    for row in &ROWS {
        assert_for(rt, is_told(rt, set, row), &row.0);
    }
    assert_that(rt, is_listed(&intern(rt, set, "sentence")));
    assert_that(rt, is_not_listed::<S::Held>("sentencf", 1));
    assert_that(rt, is_not_listed::<S::Held>("", u32::MAX));
    assert_that(rt, is_empty(&intern(rt, set, "")) && is_in_order(rt, set));
    check_packed::<S::Held>(rt);
}

#[test]
fn atoms_tell_what_they_are(rt: HostRuntime) {
    ask(&rt, rt.alloc(), USUAL, sets::Question::Told);
}
