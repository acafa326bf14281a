//! What atoms tell and print, with values from outside, and atoms of JSON texts.

use crate::samples::{intern, new_set};
use crate::{assert_for, assert_that};
use serde_json::Value;
use std::alloc::Global;
use std::borrow::CowStr;
use std::fmt::Display;
use std::process::Abort;
use std::sync::Wait;
use string_cache::dynamic_set::Set;
use string_cache::static_sets::EmptyStaticAtomSet;
use string_cache::trivial_impls::PrecomputedHash;
use string_cache::{Atom, DefaultAtom, Fault};
use test_calls::{are_one, interned_cow, interned_owned, json_of, raised, read_json};
use test_samples::One;

/// The hash of anything that has one.
fn precomputed_of<T: PrecomputedHash>(value: &T) -> u32 {
    value.precomputed_hash()
}

#[test]
fn default_atom(rt: HostRuntime) {
    let atom = DefaultAtom::default();
    assert_that(&rt, precomputed_of(&atom) == 1);
    let printed = format!(in rt.alloc(); "{atom:?}").expect(&rt, "a text");
    check_text(&rt, &printed, "Atom('' type=inline)");
}

/// Whether two atoms are equal.
fn are_equal<A: PartialEq>(one: &A, other: &A) -> bool {
    *one == *other
}

/// Prints the text if it isn't the one that is wanted.
fn check_text(rt: &impl Abort, text: &str, wanted: &str) {
    assert_for(rt, text == wanted, &text);
}

#[test]
fn text_of_a_zero_byte(rt: HostRuntime) {
    let set = new_set::<EmptyStaticAtomSet>(&rt, rt.alloc());
    let is_one = are_equal(&intern(&rt, &set, "\0"), &intern(&rt, &set, ""));
    assert_that(&rt, !is_one);
}

#[test]
fn upper_case_of_a_static_text(rt: HostRuntime) {
    let set = new_set::<One>(&rt, rt.alloc());
    let atom = intern(&rt, &set, "sentence");
    let upper = raised(&rt, &set, &atom).expect(&rt, "an atom");
    let is_wanted = are_equal(&upper, &intern(&rt, &set, "SENTENCE"));
    assert_that(&rt, is_wanted && !are_equal(&upper, &atom));
}

/// Writes a value under widths.
fn write_aligned<D: Display>(out: &mut String, value: &D) -> Result<(), Fault> {
    write!(out, "{value}|{value:>6}|{value:<6}|{value:^6}|")?;
    Ok(())
}

/// Writes a value under precisions, and a minimum width.
fn write_cut<D: Display>(out: &mut String, value: &D) -> Result<(), Fault> {
    write!(out, "{value:*^9.2}|{value:.1}|{value:2}")?;
    Ok(())
}

/// Writes a value with a sign, in the other form, and with zeros: a text has none of these, and is padded with spaces. With a precision of 0 nothing
/// is left of it.
fn write_flagged<D: Display>(out: &mut String, value: &D) -> Result<(), Fault> {
    write!(
        out,
        "|{value:+}|{value:#}|{value:04}|{value:.0}|{value:3.0}"
    )?;
    Ok(())
}

/// A value under options that apply to a text, and others.
fn styled<D: Display>(alloc: Global, value: &D) -> Result<String, Fault> {
    let mut out = String::new(alloc);
    write_aligned(&mut out, value)?;
    write_cut(&mut out, value)?;
    write_flagged(&mut out, value)?;
    Ok(out)
}

/// The atom of a text and the text itself are this under these options.
fn check_styled<R: Wait + Abort>(rt: &R, set: &Set<One>, text: &str, wanted: &str) {
    let of_atom = styled(set.allocator(), &intern(rt, set, text)).expect(rt, "a text");
    check_text(rt, &of_atom, wanted);
    let of_text = styled(set.allocator(), &text).expect(rt, "a text");
    check_text(rt, &of_text, wanted);
}

/// Texts, and what they are under the options of `styled`.
static STYLES: [(&str, &str); 6] = [
    (
        "foo",
        "foo|   foo|foo   | foo  |***fo****|f|foo|foo|foo|foo ||   ",
    ),
    (
        "été",
        "été|   été|été   | été  |***ét****|é|été|été|été|été ||   ",
    ),
    ("", "|      |      |      |*********||  |||    ||   "),
    (
        "長さ",
        "長さ|    長さ|長さ    |  長さ  |***長さ****|長|長さ|長さ|長さ|長さ  ||   ",
    ),
    (
        "sentence",
        "sentence|sentence|sentence|sentence|***se****|s|sentence|sentence|sentence|sentence||   ",
    ),
    (
        "interned",
        "interned|interned|interned|interned|***in****|i|interned|interned|interned|interned||   ",
    ),
];

#[test]
fn widths_and_precisions(rt: HostRuntime) {
    let set = new_set(&rt, rt.alloc());
    for (text, wanted) in &STYLES {
        check_styled(&rt, &set, text, wanted);
    }
}

/// Whether the atom of a text of 65,000 letters fills more places, and is cut to fewer letters.
fn is_long_styled(rt: &impl Abort, alloc: Global, atom: &DefaultAtom<'_>) -> bool {
    let filled = format!(in alloc; "{atom:>65003}").expect(rt, "a text");
    let cut = format!(in alloc; "{atom:.64999}").expect(rt, "a text");
    filled.len() == 65_003 && filled.ends_with(atom.as_str()) && cut.len() == 64_999
}

#[test]
fn widths_and_precisions_of_a_long_text(rt: HostRuntime) {
    let set = new_set(&rt, rt.alloc());
    let text = "a".repeat(rt.alloc(), 65_000).expect(&rt, "a text");
    assert_that(
        &rt,
        is_long_styled(&rt, rt.alloc(), &intern(&rt, &set, &text)),
    );
}

/// Neither on the whole nor on the text within it.
#[test]
fn no_width_acts_on_debug(rt: HostRuntime) {
    let set = new_set::<EmptyStaticAtomSet>(&rt, rt.alloc());
    let atom = intern(&rt, &set, "foo");
    let printed = format!(in rt.alloc(); "{atom:>40?}|{atom:.1?}|{atom:#?}").expect(&rt, "a text");
    let wanted = "Atom('foo' type=inline)|Atom('foo' type=inline)|Atom('foo' type=inline)";
    check_text(&rt, &printed, wanted);
}

/// The JSON text of the atom.
fn json_text(rt: &impl Abort, alloc: Global, atom: &Atom<'_, One>) -> String {
    let value = json_of(atom, alloc).expect(rt, "an answer");
    value.to_string(alloc).expect(rt, "an answer")
}

fn parsed(rt: &impl Abort, alloc: Global, json: &str) -> Value {
    Value::from_str(alloc, json).expect(rt, "an answer")
}

/// The atom of a JSON text.
fn atom_of_json<'s, R: Wait + Abort>(rt: &R, set: &'s Set<One>, json: &str) -> Atom<'s, One> {
    read_json(rt, set, &parsed(rt, set.allocator(), json)).expect(rt, "an atom")
}

/// The text's atom is this JSON text, and the JSON text's atom is the text's.
fn check_json<R: Wait + Abort>(rt: &R, set: &Set<One>, text: &str, json: &str) {
    let atom = intern(rt, set, text);
    check_text(rt, &json_text(rt, set.allocator(), &atom), json);
    let again = atom_of_json(rt, set, json);
    assert_that(rt, are_equal(&again, &atom) && are_one(&again, &atom));
}

/// Texts, and the JSON texts of their atoms.
static JSON_TEXTS: [(&str, &str); 5] = [
    ("foo", "\"foo\""),
    ("", "\"\""),
    ("a\"b\\", "\"a\\\"b\\\\\""),
    ("sentence", "\"sentence\""),
    ("tokenised", "\"tokenised\""),
];

#[test]
fn json_texts(rt: HostRuntime) {
    let set = new_set(&rt, rt.alloc());
    for (text, json) in &JSON_TEXTS {
        check_json(&rt, &set, text, json);
    }
    assert_that(&rt, set.linked(&rt) == 0);
}

/// It is dynamic, and the atom of "interned".
fn check_interned<R: Wait + Abort>(
    rt: &R,
    set: &Set<EmptyStaticAtomSet>,
    atom: Result<DefaultAtom<'_>, Fault>,
) {
    let atom = atom.expect(rt, "an atom");
    let is_interned = are_equal(&atom, &intern(rt, set, "interned"));
    assert_that(rt, atom.is_dynamic() && is_interned);
}

fn interned_text(rt: &impl Abort, alloc: Global) -> String {
    String::from_str(alloc, "interned").expect(rt, "a text")
}

/// By each call that takes a text which may be owned.
#[test]
fn atoms_of_one_text(rt: HostRuntime) {
    let alloc = rt.alloc();
    let set = new_set(&rt, alloc);
    let value = Value::String(interned_text(&rt, alloc));
    check_interned(&rt, &set, read_json(&rt, &set, &value));
    check_interned(
        &rt,
        &set,
        interned_owned(&rt, &set, interned_text(&rt, alloc)),
    );
    let text = CowStr::Borrowed("interned");
    check_interned(&rt, &set, interned_cow(&rt, &set, text));
}

/// Why a JSON text is refused.
fn fault_of<R: Wait + Abort>(rt: &R, set: &Set<EmptyStaticAtomSet>, json: &str) -> Fault {
    let value = parsed(rt, set.allocator(), json);
    read_json(rt, set, &value).err().expect(rt, "a fault")
}

/// Whether a JSON text is refused as no text, under the number 4.
fn is_refused<R: Wait + Abort>(rt: &R, set: &Set<EmptyStaticAtomSet>, json: &str) -> bool {
    let fault = fault_of(rt, set, json);
    fault == Fault::NotText && fault.number() == 4
}

/// JSON values that are no texts.
static NO_TEXTS: [&str; 6] = ["null", "true", "7", "[]", "{}", "[\"interned\"]"];

#[test]
fn json_without_text(rt: HostRuntime) {
    let set = new_set(&rt, rt.alloc());
    for json in &NO_TEXTS {
        assert_for(&rt, is_refused(&rt, &set, json), json);
    }
}
