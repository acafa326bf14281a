//! Dynamic texts of each sort in each call that takes one, in what the set tells about them, and in each way in which they go.

use crate::samples::{clone_of, end, intern, is_absent};
use crate::sets::{self, ONE_BUCKET, Size, ask};
use crate::texts::{is_cloned, is_of_each_owner, is_same, json_copy, lower_of, upper_of};
use crate::{assert_for, assert_that};
use std::alloc::Global;
use std::process::Abort;
use std::sync::Wait;
use std::thread::Threads;
use std::time::Clock;
use string_cache::{SetAtom, SharedSet};
use test_calls::{has_text, links, look_up};

/// Texts: a short one, one of NUL and others, one of more than a line with what JSON escapes, and two beyond ASCII.
static TEXTS: [&str; 5] = [
    "tokenised",
    "a text\0with NUL",
    "a \"text\"\nof\ttwo\\lines\u{1}",
    "größenordnung",
    "長さ、大きさ (m)",
];

/// The usual buckets, in which a text may have two holders.
const NARROW: Size = Size {
    bits: 12,
    limits: Some((2, 1 << 40)),
};

/// The same with one bucket.
const ONE_NARROW: Size = Size {
    bits: 0,
    limits: Some((2, 1 << 40)),
};

/// Whether the text is found as the atom.
fn is_found_as<S: SharedSet, R: Wait>(rt: &R, set: S, atom: &SetAtom<S::Held>, text: &str) -> bool {
    match look_up(rt, set, text) {
        Ok(Some(found)) => has_text(&found, text) && is_same(atom, found),
        _ => false,
    }
}

/// Whether each call that is given the text gives the atom.
fn is_given<S: SharedSet, R: Wait + Abort>(
    rt: &R,
    set: S,
    atom: &SetAtom<S::Held>,
    text: &str,
) -> bool {
    has_text(atom, text)
        && is_of_each_owner(rt, set, atom, text)
        && is_found_as(rt, set, atom, text)
        && is_same(atom, json_copy(rt, set, atom))
}

/// Whether each call gives an atom of the text.
fn comes<S: SharedSet, R: Wait + Abort>(rt: &R, set: S, text: &str) -> bool {
    is_given(rt, set, &intern(rt, set, text), text) && is_cloned(rt, set, text)
}

/// Whether the small atom has this text, and is turned into the other, whose text is in upper case.
fn is_raised<S: SharedSet, R: Wait + Abort>(
    rt: &R,
    set: S,
    atom: &SetAtom<S::Held>,
    small: &SetAtom<S::Held>,
    lower: &str,
) -> bool {
    has_text(small, lower)
        && atom.eq_ignore_ascii_case(small)
        && is_same(atom, upper_of(rt, set, small))
}

/// Whether the atom, whose text is in upper case, stays as it is in upper case, and is turned into lower case and back.
fn is_in_cases<S: SharedSet, R: Wait + Abort>(
    rt: &R,
    set: S,
    atom: &SetAtom<S::Held>,
    lower: &str,
) -> bool {
    is_same(atom, upper_of(rt, set, atom))
        && is_raised(rt, set, atom, &lower_of(rt, set, atom), lower)
}

/// Whether the text is put into upper case and into lower case.
fn changes<S: SharedSet, R: Wait + Abort>(rt: &R, set: S, text: &str) -> bool {
    let alloc = set.allocator();
    let upper = text.to_ascii_uppercase(alloc).expect(rt, "a text");
    let lower = text.to_ascii_lowercase(alloc).expect(rt, "a text");
    is_in_cases(rt, set, &intern(rt, set, &upper), &lower)
}

/// What a visit tells about one text: how often it was visited, with how many holders, and how many others were.
#[derive(Clone, Copy, PartialEq, Eq)]
struct Seen {
    times: u64,
    holders: u64,
    others: u64,
}

impl Seen {
    /// Notes the next text that is visited, which has this many holders.
    fn note(&mut self, text: &str, next: &str, holders: u64) {
        if next == text {
            self.times = self.times.saturating_add(1);
            self.holders = self.holders.saturating_add(holders);
        } else {
            self.others = self.others.saturating_add(1);
        }
    }
}

fn seen_of<S: SharedSet, R: Wait>(rt: &R, set: S, text: &str) -> Seen {
    let mut seen = Seen {
        times: 0,
        holders: 0,
        others: 0,
    };
    set.for_each(rt, |next, holders| seen.note(text, next, holders));
    seen
}

/// Whether the text alone is linked, and visited once, with this many holders.
fn is_seen_with<S: SharedSet, R: Wait>(rt: &R, set: S, text: &str, holders: u64) -> bool {
    let seen = seen_of(rt, set, text);
    seen.times == 1 && seen.holders == holders && seen.others == 0 && links(rt, set, 1)
}

/// Whether it is visited with its holders, of which there are one and then two.
fn is_seen<S: SharedSet, R: Wait + Abort>(rt: &R, set: S, text: &str) -> bool {
    let atom = intern(rt, set, text);
    let is_seen = is_seen_with(rt, set, text, 1);
    let _second = clone_of(rt, &atom);
    is_seen && is_seen_with(rt, set, text, 2)
}

/// Lets the text's atom go while a visit has its bucket's lock. Returns whether the text is then still linked, without a holder.
fn is_dying<S: SharedSet, R: Wait + Abort>(rt: &R, set: S, text: &str) -> bool {
    let mut last = Some(intern(rt, set, text));
    set.for_each(rt, |_, _| end(&mut last));
    is_seen_with(rt, set, text, 0)
}

/// Whether a text that died goes with a sweep, and with a look-up, which doesn't find it.
fn goes<S: SharedSet, R: Wait + Abort>(rt: &R, set: S, text: &str) -> bool {
    let was_dying = is_dying(rt, set, text);
    set.sweep(rt);
    let is_swept = was_dying && links(rt, set, 0);
    is_swept && is_dying(rt, set, text) && is_absent(rt, set, text) && links(rt, set, 0)
}

/// Whether one that died makes room for a new one of the same text.
fn comes_again<S: SharedSet, R: Wait + Abort>(rt: &R, set: S, text: &str) -> bool {
    let was_dying = is_dying(rt, set, text);
    let again = intern(rt, set, text);
    was_dying && has_text(&again, text) && is_seen_with(rt, set, text, 1)
}

/// The bytes of the text's cell: those of its numbers, and those of the text, rounded up to eights.
fn bytes_of(text: &str, numbers: u128) -> u128 {
    (text.len() as u128)
        .div_ceil(8)
        .saturating_mul(8)
        .saturating_add(numbers)
}

/// How many more bytes the set has while the text is held.
fn memory_of<S: SharedSet, R: Wait + Abort>(rt: &R, set: S, text: &str) -> u128 {
    let before = set.memory(rt);
    let _atom = intern(rt, set, text);
    set.memory(rt).saturating_sub(before)
}

/// Whether the text's bytes are counted next to another text, for which its bucket has made room.
fn is_counted<S: SharedSet, R: Wait + Abort>(rt: &R, set: S, text: &str, numbers: u128) -> bool {
    let _other = intern(rt, set, "interned");
    let before = set.memory(rt);
    memory_of(rt, set, text) == bytes_of(text, numbers) && set.memory(rt) == before
}

/// All that is asked of a text: it is as if nothing had been asked.
fn is_all<S: SharedSet, R: Wait + Abort>(rt: &R, set: S, text: &str) -> bool {
    comes(rt, set, text)
        && changes(rt, set, text)
        && is_seen(rt, set, text)
        && goes(rt, set, text)
        && comes_again(rt, set, text)
        && links(rt, set, 0)
}

/// A text of two megabytes, not all ASCII.
fn long_text(rt: &impl Abort, alloc: Global) -> String {
    "Größe, 長さ, 🦀".repeat(alloc, 100_000).expect(rt, "a text")
}

/// What is asked of a set.
#[derive(Clone, Copy)]
pub enum Question {
    Calls,
    /// How many bytes the numbers of a cell take.
    Bytes(u128),
}

/// Whether the set of a text is as it should be.
fn is_so<S: SharedSet, R: Wait + Abort>(rt: &R, set: S, question: Question, text: &str) -> bool {
    match question {
        Question::Calls => is_all(rt, set, text),
        Question::Bytes(numbers) => is_counted(rt, set, text, numbers) && links(rt, set, 0),
    }
}

/// Asks a set about each text.
pub fn check<S: SharedSet, R: Wait + Abort>(rt: &R, set: S, question: Question) {
    for text in &TEXTS {
        assert_for(rt, is_so(rt, set, question, text), text);
    }
    let long = long_text(rt, set.allocator());
    assert_that(rt, is_so(rt, set, question, &long));
}

/// Each text is interned, found, cloned, changed, read from JSON and visited, dies, is interned again and goes.
#[test]
fn texts_of_each_sort(rt: HostRuntime) {
    ask(
        &rt,
        rt.alloc(),
        NARROW,
        sets::Question::Forms(Question::Calls),
    );
}

/// A set counts each text's bytes, and those of its numbers: 32, and eight more for a limit of holders that isn't the greatest.
#[test]
fn texts_are_counted(rt: HostRuntime) {
    for (size, numbers) in &[(ONE_BUCKET, 32), (ONE_NARROW, 40)] {
        ask(
            &rt,
            rt.alloc(),
            *size,
            sets::Question::Forms(Question::Bytes(*numbers)),
        );
    }
}
