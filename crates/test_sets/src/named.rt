//! What only a set with a name has: atoms that are compared by their words, and keys by words. All else is asked of sets of both kinds.
ghost use Rattle.std.specs.Prelude.{◌≡◌};

mod keys;

use crate::samples::buckets_of;
use crate::{assert_for, assert_that};
use keys::{are_keys, is_key};
use named_set::{FreshName, NamedSet, SetName};
use std::alloc::Global;
use std::marker::Brand;
use std::mem::size_of;
use std::process::Abort;
use std::sync::Wait;
use std::thread::{self, Threads};
use string_cache::word::Limits;
use string_cache::{NamedAtom, NamedAtomList};
use test_calls::{are_one, cloned, has_text, interned, links};
use test_samples::One;

/// A set with this name.
type Named<N> = NamedSet<One, N>;

/// An atom of the set with this name.
type Word<'s, N> = NamedAtom<'s, One, N>;

/// What is asked of a set with a name.
#[derive(Clone, Copy)]
enum Question {
    /// Which atoms are the same.
    Same,
    /// Keys by words.
    Keys,
    /// What threads are given, and give each other.
    Threads,
}

/// Asks it of the set, which has no text afterwards.
fn asked<N: SetName + Send + Sync, R: Threads + Wait + Abort + Sync>(
    rt: &R,
    set: &Named<N>,
    question: Question,
) {
    match question {
        Question::Same => check_same(rt, set),
        Question::Keys => check_keys(rt, set),
        Question::Threads => share::<N, R>(rt, set),
    }
    assert_that(rt, links(rt, set, 0));
}

/// Asks it of a new set with this name.
fn ask_as<N: SetName + Send + Sync, R: Threads + Wait + Abort + Sync>(
    rt: &R,
    alloc: Global,
    name: FreshName,
    question: Question,
)
    requires { N.logs ≡ name.logs }
{
    let set = NamedSet::new(alloc, name, Limits::greatest()).expect(rt, "a set");
    asked::<N, R>(rt, &set, question);
}

/// Asks it of a new set of one bucket.
fn ask<R: Threads + Wait + Abort + Sync>(rt: &R, alloc: Global, question: Question) {
    let name = FreshName::new(alloc, buckets_of(rt, 0)).expect(rt, "a name");
    ask_as::<Brand, R>(rt, alloc, name, question);
}

/// The atom of a text.
fn intern<'s, N: SetName, R: Wait + Abort>(rt: &R, set: &'s Named<N>, text: &str) -> Word<'s, N> {
    interned(rt, set, text).expect(rt, "an atom")
}

fn clone_of<'s, N: SetName, R: Wait + Abort>(rt: &R, atom: &Word<'s, N>) -> Word<'s, N> {
    cloned(rt, atom).expect(rt, "an atom")
}

/// Whether two atoms are the same, and of this text.
fn are_one_of<N: SetName>(atom: &Word<'_, N>, other: &Word<'_, N>, text: &str) -> bool {
    let is_equal = atom == other;
    let is_one = are_one(atom, other);
    let has_text = has_text(other, text);
    is_equal && is_one && has_text
}

/// Whether two atoms are different.
fn are_two<N: SetName>(atom: &Word<'_, N>, other: &Word<'_, N>) -> bool {
    atom != other && !are_one(atom, other)
}

/// Whether an atom of the text, one more, and a clone are the same.
fn is_one<N: SetName, R: Wait + Abort>(rt: &R, set: &Named<N>, text: &str) -> bool {
    let atom = intern(rt, set, text);
    let is_cloned = are_one_of(&atom, &clone_of(rt, &atom), text);
    is_cloned && are_one_of(&atom, &intern(rt, set, text), text)
}

/// Whether the atoms of two texts are different.
fn is_apart<N: SetName, R: Wait + Abort>(rt: &R, set: &Named<N>, text: &str, other: &str) -> bool {
    are_two(&intern(rt, set, text), &intern(rt, set, other))
}

/// Texts that are inline, static and dynamic.
static TEXTS: [&str; 6] = ["", "été", "sentence", "tokenised", "sentences", "長さ、大きさ"];

fn check_same<N: SetName, R: Wait + Abort>(rt: &R, set: &Named<N>) {
    for (at, text) in TEXTS.iter().enumerate() {
        assert_for(rt, is_one(rt, set, text), text);
        for other in &TEXTS[..at] {
            assert_for(rt, is_apart(rt, set, text, other), &(text, other));
        }
    }
}

/// Atoms are the same exactly if their texts are, in any of the forms.
#[test]
fn atoms_are_the_same_by_their_words(rt: HostRuntime) {
    ask(&rt, rt.alloc(), Question::Same);
    assert_that(&rt, size_of::<NamedAtom<'_, One, Brand>>() == 32);
}

fn check_keys<N: SetName, R: Wait + Abort>(rt: &R, set: &Named<N>) {
    assert_that(
        rt,
        is_key(rt, set, "tokenised") && is_key(rt, set, "sentence"),
    );
    assert_that(rt, are_keys(rt, set));
}

#[test]
fn keys_by_words(rt: HostRuntime) {
    ask(&rt, rt.alloc(), Question::Keys);
}

/// A long text beyond ASCII, of more than 300,000 bytes.
fn long_text(rt: &impl Abort, alloc: Global) -> String {
    "Größe, 長さ, 🦀".repeat(alloc, 15_000).expect(rt, "a text")
}

/// Whether the atoms that two threads get for a text are the same.
fn is_one_in_two<N: SetName + Send + Sync, R: Threads + Wait + Abort + Sync>(
    rt: &R,
    set: &Named<N>,
    text: &str,
) -> bool {
    let both = thread::join(rt, || intern(rt, set, text), || intern(rt, set, text));
    are_one_of(&both.0, &both.1, text)
}

/// Compiles only for what threads may share and send.
fn crosses<T: Send + Sync>(_value: &T) {}

/// Ends a list in another thread than the one that filled it.
fn end_in_another<N: SetName + Send + Sync, R: Threads + Wait + Abort + Sync>(
    rt: &R,
    set: &Named<N>,
) {
    let mut list = NamedAtomList::new(set);
    list.push_str(rt, "interned").expect(rt, "a place");
    crosses(&list);
    thread::join(rt, move || drop(list), || set.sweep(rt));
    set.sweep(rt);
}

fn share<N: SetName + Send + Sync, R: Threads + Wait + Abort + Sync>(rt: &R, set: &Named<N>) {
    assert_that(rt, is_one_in_two::<N, R>(rt, set, "sentence"));
    assert_that(
        rt,
        is_one_in_two::<N, R>(rt, set, &long_text(rt, set.allocator())),
    );
    end_in_another::<N, R>(rt, set);
}

#[test]
fn threads_share_a_set_with_a_name(rt: HostRuntime) {
    ask(&rt, rt.alloc(), Question::Threads);
}
