//! Orders, hashes and cases with values that come from outside, and atoms as keys of maps.

mod keys;

use crate::samples::{clone_of, intern, is_one, owned};
use crate::sets::{self, USUAL, ask};
use crate::{assert_for, assert_that};
use std::alloc::Global;
use std::borrow::CowStr;
use std::cmp::Ordering;
use std::process::Abort;
use std::sync::Wait;
use std::thread::Threads;
use std::time::Clock;
use string_cache::{AtomKind, DefaultAtom, SetAtom, SharedSet};
use test_calls::{
    are_one, copied, has_text, has_word, interned_cow, interned_owned, json_of, lowered, raised,
    read_json,
};

/// What is asked of a new set.
#[derive(Clone, Copy)]
pub enum Question {
    Hashes,
    Orders,
    Equalities,
    EqualTexts,
    Clones,
    Owners,
    Cases,
    StaticCases,
    Keys,
    LongText,
}

/// Asks it of a set.
pub fn check<S: SharedSet, R: Wait + Abort>(rt: &R, set: S, question: Question) {
    match question {
        Question::Hashes => check_hashes(rt, set),
        Question::Orders => check_orders(rt, set),
        Question::Equalities => check_equalities(rt, set),
        Question::EqualTexts => check_equal_texts(rt, &intern(rt, set, "Foo")),
        Question::Clones => check_clones(rt, set),
        Question::Owners => check_owners(rt, set, &intern(rt, set, "interned")),
        Question::Cases => check_cases(rt, set),
        Question::StaticCases => check_static_cases(rt, set),
        Question::Keys => keys::check_keys(rt, set),
        Question::LongText => check_long_text(rt, set),
    }
}

/// Asks it of a new set of each kind.
fn check_both<R: Threads + Clock + Wait + Abort + Sync>(rt: &R, alloc: Global, question: Question) {
    ask(rt, alloc, USUAL, sets::Question::Texts(question));
}

#[test]
fn default_atom(rt: HostRuntime) {
    let atom = DefaultAtom::default();
    assert_that(&rt, atom.unsafe_data() == 1);
    assert_that(&rt, atom.as_str().is_empty());
}

fn hash_of_text<S: SharedSet, R: Wait + Abort>(rt: &R, set: S, text: &str) -> u64 {
    intern(rt, set, text).get_hash()
}

/// Texts, and the numbers that their atoms hash as. The last is g and f1 of the text, as OpenSSL's SipHash gives them.
static HASHES: [(&str, u64); 4] = [
    ("", 1),
    ("foo", 0x6f6f_6631),
    ("sentence", 0x1122_3344_5566_7788),
    ("interned", 0x556a_6dba_06a4_7210),
];

fn check_hashes<S: SharedSet, R: Wait + Abort>(rt: &R, set: S) {
    for (text, number) in &HASHES {
        assert_for(rt, hash_of_text(rt, set, text) == *number, text);
    }
}

#[test]
fn hash_numbers(rt: HostRuntime) {
    check_both(&rt, rt.alloc(), Question::Hashes);
}

/// The order of the atoms of two texts, of which "sentence" is static.
fn order<S: SharedSet, R: Wait + Abort>(rt: &R, set: S, left: &str, right: &str) -> Ordering {
    let left = intern(rt, set, left);
    left.cmp(&intern(rt, set, right))
}

/// Two texts, and the order of their atoms. By their words "b" would come before "aa", and "sentence" before "interned".
static ORDERS: [(&str, &str, Ordering); 6] = [
    ("é", "z", Ordering::Greater),
    ("aa", "b", Ordering::Less),
    ("", "\0", Ordering::Less),
    ("interned", "sentence", Ordering::Less),
    ("interned", "inter", Ordering::Greater),
    ("interned", "interned", Ordering::Equal),
];

fn check_orders<S: SharedSet, R: Wait + Abort>(rt: &R, set: S) {
    for (left, right, wanted) in &ORDERS {
        assert_for(rt, order(rt, set, left, right) == *wanted, &(left, right));
    }
}

#[test]
fn orders(rt: HostRuntime) {
    check_both(&rt, rt.alloc(), Question::Orders);
}

/// Whether atoms of two texts are equal as they are, and without case, exactly if these are true.
fn have_equalities<S: SharedSet, R: Wait + Abort>(
    rt: &R,
    set: S,
    left: &str,
    right: &str,
    (equal, without_case): (bool, bool),
) -> bool {
    let (left, right) = (intern(rt, set, left), intern(rt, set, right));
    (left == right) == equal && left.eq_ignore_ascii_case(&right) == without_case
}

/// Whether the atom equals a text as it is, and without case, exactly if these are true.
fn equals_text<H: AtomKind>(
    atom: &SetAtom<H>,
    text: &str,
    equal: bool,
    without_case: bool,
) -> bool {
    atom.eq_str(text) == equal && atom.eq_str_ignore_ascii_case(text) == without_case
}

/// Two texts, and whether they are equal: as they are, and without case.
static EQUALITIES: [(&str, &str, bool, bool); 5] = [
    ("FOO", "foo", false, true),
    ("É", "é", false, false),
    ("Interned", "iNTERNED", false, true),
    ("[", "{", false, false),
    ("foo", "foo", true, true),
];

fn check_equalities<S: SharedSet, R: Wait + Abort>(rt: &R, set: S) {
    for (left, right, equal, without_case) in &EQUALITIES {
        assert_that(
            rt,
            have_equalities(rt, set, left, right, (*equal, *without_case)),
        );
    }
}

#[test]
fn without_case(rt: HostRuntime) {
    check_both(&rt, rt.alloc(), Question::Equalities);
}

/// Texts, and whether the atom of "Foo" equals them: as they are, and without case.
static EQUAL_TEXTS: [(&str, bool, bool); 4] = [
    ("Foo", true, true),
    ("fOO", false, true),
    ("foo", false, true),
    ("fo", false, false),
];

fn check_equal_texts<H: AtomKind>(rt: &impl Abort, atom: &SetAtom<H>) {
    for (text, equal, without_case) in &EQUAL_TEXTS {
        assert_for(rt, equals_text(atom, text, *equal, *without_case), text);
    }
}

#[test]
fn without_case_of_a_text(rt: HostRuntime) {
    check_both(&rt, rt.alloc(), Question::EqualTexts);
}

/// Whether the clone, which goes, has the atom's word, and this text.
fn is_clone<H: AtomKind>(clone: SetAtom<H>, atom: &SetAtom<H>, text: &str) -> bool {
    let is_clone = are_one(&clone, atom) && has_text(&clone, text);
    drop(clone);
    is_clone
}

/// Whether both calls clone the atom of the text.
pub fn is_cloned<S: SharedSet, R: Wait + Abort>(rt: &R, set: S, text: &str) -> bool {
    let atom = intern(rt, set, text);
    is_clone(clone_of(rt, &atom), &atom, text)
        && is_clone(copied(rt, &atom).expect(rt, "an atom"), &atom, text)
}

/// Texts that are inline, static and dynamic.
static CLONED: [&str; 3] = ["foo", "sentence", "interned"];

fn check_clones<S: SharedSet, R: Wait + Abort>(rt: &R, set: S) {
    for text in &CLONED {
        assert_for(rt, is_cloned(rt, set, text), text);
    }
}

#[test]
fn clones(rt: HostRuntime) {
    check_both(&rt, rt.alloc(), Question::Clones);
}

/// Whether the other, which goes, is dynamic as the atom is, and equal to it.
pub fn is_same<H: AtomKind>(atom: &SetAtom<H>, other: SetAtom<H>) -> bool {
    let is_same = other.is_dynamic() && is_one(&other, atom);
    drop(other);
    is_same
}

fn is_owned<S: SharedSet, R: Wait + Abort>(
    rt: &R,
    set: S,
    atom: &SetAtom<S::Held>,
    text: &str,
) -> bool {
    let own = owned(rt, set.allocator(), text);
    match interned_owned(rt, set, own) {
        Ok(other) => is_same(atom, other),
        Err(_) => false,
    }
}

fn is_cow<S: SharedSet, R: Wait>(
    rt: &R,
    set: S,
    atom: &SetAtom<S::Held>,
    text: CowStr<'_>,
) -> bool {
    match interned_cow(rt, set, text) {
        Ok(other) => is_same(atom, other),
        Err(_) => false,
    }
}

/// Whether each call that takes a text which may be owned gives the atom.
pub fn is_of_each_owner<S: SharedSet, R: Wait + Abort>(
    rt: &R,
    set: S,
    atom: &SetAtom<S::Held>,
    text: &str,
) -> bool {
    let own = owned(rt, set.allocator(), text);
    is_owned(rt, set, atom, text)
        && is_cow(rt, set, atom, CowStr::Borrowed(text))
        && is_cow(rt, set, atom, CowStr::Owned(own))
}

fn check_owners<S: SharedSet, R: Wait + Abort>(rt: &R, set: S, atom: &SetAtom<S::Held>) {
    assert_that(rt, is_of_each_owner(rt, set, atom, "interned"));
}

#[test]
fn owned_texts(rt: HostRuntime) {
    check_both(&rt, rt.alloc(), Question::Owners);
}

pub fn upper_of<S: SharedSet, R: Wait + Abort>(
    rt: &R,
    set: S,
    atom: &SetAtom<S::Held>,
) -> SetAtom<S::Held> {
    raised(rt, set, atom).expect(rt, "an atom")
}

pub fn lower_of<S: SharedSet, R: Wait + Abort>(
    rt: &R,
    set: S,
    atom: &SetAtom<S::Held>,
) -> SetAtom<S::Held> {
    lowered(rt, set, atom).expect(rt, "an atom")
}

/// Whether the text has these cases.
fn has_cases<S: SharedSet, R: Wait + Abort>(
    rt: &R,
    set: S,
    text: &str,
    upper: &str,
    lower: &str,
) -> bool {
    let atom = intern(rt, set, text);
    has_text(&upper_of(rt, set, &atom), upper) && has_text(&lower_of(rt, set, &atom), lower)
}

fn repeated(rt: &impl Abort, alloc: Global, text: &str, times: usize) -> String {
    text.repeat(alloc, times).expect(rt, "a text")
}

/// Whether a text of this many letters has these cases.
fn has_long_cases<S: SharedSet, R: Wait + Abort>(rt: &R, set: S, letters: usize) -> bool {
    let lower = repeated(rt, set.allocator(), "a", letters);
    let upper = repeated(rt, set.allocator(), "A", letters);
    has_cases(rt, set, &lower, &upper, &lower)
}

/// Texts, in upper case and in lower case.
static CASES: [(&str, &str, &str); 5] = [
    ("é", "é", "é"),
    ("École", "ÉCOLE", "École"),
    ("Interned", "INTERNED", "interned"),
    ("@[`{09", "@[`{09", "@[`{09"),
    ("azAZ", "AZAZ", "azaz"),
];

fn check_cases<S: SharedSet, R: Wait + Abort>(rt: &R, set: S) {
    for (text, upper, lower) in &CASES {
        assert_that(rt, has_cases(rt, set, text, upper, lower));
    }
    for letters in 60..=130usize {
        assert_for(rt, has_long_cases(rt, set, letters), &letters);
    }
}

#[test]
fn cases(rt: HostRuntime) {
    check_both(&rt, rt.alloc(), Question::Cases);
}

/// Whether the atom, which goes, is that of the static text.
fn is_sentence<H: AtomKind>(atom: SetAtom<H>) -> bool {
    atom.is_static() && has_word(&atom, 2)
}

/// Whether the atom in upper case is dynamic, and the static one again in lower case.
fn has_static_lower<S: SharedSet, R: Wait + Abort>(
    rt: &R,
    set: S,
    upper: &SetAtom<S::Held>,
) -> bool {
    has_text(upper, "SENTENCE") && upper.is_dynamic() && is_sentence(lower_of(rt, set, upper))
}

fn check_static_cases<S: SharedSet, R: Wait + Abort>(rt: &R, set: S) {
    let upper = upper_of(rt, set, &intern(rt, set, "sentence"));
    assert_that(rt, has_static_lower(rt, set, &upper));
}

#[test]
fn cases_of_a_static_text(rt: HostRuntime) {
    check_both(&rt, rt.alloc(), Question::StaticCases);
}

#[test]
fn keys_of_maps(rt: HostRuntime) {
    check_both(&rt, rt.alloc(), Question::Keys);
}

/// The atom, there and back as JSON.
pub fn json_copy<S: SharedSet, R: Wait + Abort>(
    rt: &R,
    set: S,
    atom: &SetAtom<S::Held>,
) -> SetAtom<S::Held> {
    let value = json_of(atom, set.allocator()).expect(rt, "an answer");
    read_json(rt, set, &value).expect(rt, "an atom")
}

fn has_length<H: AtomKind>(atom: &SetAtom<H>, bytes: usize) -> bool {
    atom.as_bytes().len() == bytes
}

/// Checks the other case of an atom that has lower-case letters and none beyond ASCII to change.
fn check_upper<S: SharedSet, R: Wait + Abort>(rt: &R, set: S, atom: &SetAtom<S::Held>) {
    let upper = upper_of(rt, set, atom);
    assert_that(
        rt,
        has_length(&upper, 2_100_000) && upper != *atom && upper.eq_ignore_ascii_case(atom),
    );
}

/// Checks the atom of a long text, its other case, and its copies.
fn check_long_atom<S: SharedSet, R: Wait + Abort>(
    rt: &R,
    set: S,
    atom: &SetAtom<S::Held>,
    text: &str,
) {
    assert_that(rt, has_length(atom, 2_100_000));
    assert_that(rt, is_same(atom, json_copy(rt, set, atom)));
    assert_that(rt, is_owned(rt, set, atom, text));
    check_upper(rt, set, atom);
}

/// A text of two megabytes, not all of it ASCII, interned, put into another case, and there and back as JSON.
fn check_long_text<S: SharedSet, R: Wait + Abort>(rt: &R, set: S) {
    let text = repeated(rt, set.allocator(), "aé", 700_000);
    check_long_atom(rt, set, &intern(rt, set, &text), &text);
}

#[test]
fn long_text(rt: HostRuntime) {
    check_both(&rt, rt.alloc(), Question::LongText);
}
