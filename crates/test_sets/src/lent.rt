//! Atoms used where any text or any bytes are asked for, and atoms in structs that are written as JSON.

use crate::assert_for;
use crate::samples::{intern, new_set};
use serde::Serialize;
use std::convert::{AsSlice, AsStr};
use std::process::Abort;
use std::sync::Wait;
use string_cache::Atom;
use string_cache::dynamic_set::Set;
use test_samples::One;

fn is_lent<T: AsStr>(value: &T, text: &str) -> bool {
    value.as_str() == text
}

fn lends_bytes<T: AsSlice<u8>>(value: &T, bytes: &[u8]) -> bool {
    value.as_slice() == bytes
}

/// Whether the atom is lent as its text, and as the text's bytes.
fn lends(atom: &Atom<'_, One>, text: &str) -> bool {
    is_lent(atom, text) && lends_bytes(atom, text.as_bytes())
}

/// Texts that are inline, static and dynamic.
static TEXTS: [&str; 4] = ["", "été", "sentence", "tokenised"];

#[test]
fn texts_are_lent(rt: HostRuntime) {
    let set = new_set::<One>(&rt, rt.alloc());
    for text in &TEXTS {
        assert_for(&rt, lends(&intern(&rt, &set, text), text), text);
    }
}

/// A price that has a name.
#[derive(Drop, Serialize)]
struct Price<'s> {
    name: Atom<'s, One>,
    kinds: Vec<Atom<'s, One>>,
    pence: u64,
}

/// A price of one kind.
fn price_of<'s, R: Wait + Abort>(rt: &R, set: &'s Set<One>, name: &str, kind: &str) -> Price<'s> {
    let mut kinds = Vec::new(set.allocator());
    kinds.push(intern(rt, set, kind)).expect(rt, "room");
    Price {
        name: intern(rt, set, name),
        kinds,
        pence: 40,
    }
}

fn is_written<R: Wait + Abort>(rt: &R, set: &Set<One>, name: &str, kind: &str, json: &str) -> bool {
    let price = price_of(rt, set, name, kind);
    let written = serde_json::to_string(set.allocator(), &price).expect(rt, "a text");
    written.as_str() == json
}

/// Names and kinds, and the JSON texts of such prices.
static PRICES: [(&str, &str, &str); 3] = [
    (
        "foo",
        "sentence",
        r#"{"name":"foo","kinds":["sentence"],"pence":40}"#,
    ),
    (
        "tokenised",
        "",
        r#"{"name":"tokenised","kinds":[""],"pence":40}"#,
    ),
    (
        "a\"b\\",
        "été",
        r#"{"name":"a\"b\\","kinds":["été"],"pence":40}"#,
    ),
];

#[test]
fn prices_are_written(rt: HostRuntime) {
    let set = new_set::<One>(&rt, rt.alloc());
    for (name, kind, json) in &PRICES {
        assert_for(&rt, is_written(&rt, &set, name, kind, json), name);
    }
}
