//! `find_held`: whoever holds a word gets it once more by a look-up of its text, whatever the text is, in each bucket, and as often as the limits
//! allow.
ghost use Rattle.std.specs.Prelude.{◌≡◌};

use crate::calls::{are_one, has_text, interned, links};
use crate::{assert_for, assert_that};
use named_set::{FreshName, Held, NamedSet, SetName};
use std::alloc::Global;
use std::marker::Brand;
use std::process::Abort;
use std::sync::Wait;
use text_forms::Fault;
use text_forms::static_sets::EmptyStaticAtomSet;
use text_forms::word::{Buckets, Limits};

type Named<N> = NamedSet<EmptyStaticAtomSet, N>;

type Word<'s, N> = Held<'s, EmptyStaticAtomSet, N>;

/// What is asked of a set.
#[derive(Clone, Copy)]
enum Question<'q> {
    /// A text that is held, and then isn't.
    Text(&'q str),
    /// So many texts, all held.
    Texts(usize),
    /// One text, held so often.
    Often(usize),
    /// One text, held by as many as may hold it, which are two.
    Full,
}

impl Question<'_> {
    /// Of a set with these limits.
    fn limits(self) -> Option<Limits> {
        match self {
            Question::Full => Limits::new(2, 20),
            _ => Some(Limits::greatest()),
        }
    }

    /// And so many buckets, by their bits.
    fn bits(self) -> u8 {
        match self {
            Question::Texts(_) => 8,
            _ => 0,
        }
    }
}

/// The word once more, unless it is refused.
fn again<'s, N: SetName, R: Wait>(
    rt: &R,
    set: &'s Named<N>,
    held: &Word<'_, N>,
) -> Result<Word<'s, N>, Fault> {
    set.find_held(rt, held)
}

/// Whether the word is found by its text.
fn is_found<N: SetName, R: Wait>(rt: &R, set: &Named<N>, held: &Word<'_, N>) -> bool {
    match again(rt, set, held) {
        Ok(found) => are_one(&found, held) && has_text(&found, held.text()),
        Err(_) => false,
    }
}

/// Whether the text is found while it is held.
fn is_found_held<N: SetName, R: Wait>(rt: &R, set: &Named<N>, text: &str) -> bool {
    match interned(rt, set, text) {
        Ok(held) => is_found(rt, set, &held) && links(rt, set, 1),
        Err(_) => false,
    }
}

/// Holds the texts of so many numbers, from 0.
fn hold<'s, N: SetName, R: Wait + Abort>(
    rt: &R,
    set: &'s Named<N>,
    count: usize,
) -> Vec<Word<'s, N>> {
    let mut words = Vec::new(set.allocator());
    for number in 0..count {
        let text = format!(in set.allocator(); "w{number:07}").expect(rt, "a text");
        let word = interned(rt, set, text.as_str()).expect(rt, "a word");
        words.push(word).expect(rt, "room");
    }
    words
}

/// Whether each is found.
fn are_found<N: SetName, R: Wait + Abort>(rt: &R, set: &Named<N>, count: usize) -> bool {
    let words = hold(rt, set, count);
    for word in words.iter() {
        if !is_found(rt, set, word) {
            return false;
        }
    }
    links(rt, set, count as u128)
}

/// Whether the one linked cell has so many shares.
fn has_shares<N: SetName, R: Wait>(rt: &R, set: &Named<N>, count: u64) -> bool {
    let mut is_so = false;
    set.for_each(rt, |_, shares| is_so = shares == count);
    is_so
}

/// Holds the word so often once more.
fn hold_often<'s, N: SetName, R: Wait + Abort>(
    rt: &R,
    set: &'s Named<N>,
    held: &Word<'s, N>,
    count: usize,
) -> Vec<Word<'s, N>> {
    let mut words = Vec::new(set.allocator());
    for _ in 0..count {
        let word = again(rt, set, held).expect(rt, "the word");
        words.push(word).expect(rt, "room");
    }
    words
}

/// Whether each gives one share more, and takes it along.
fn is_held_often<N: SetName, R: Wait + Abort>(rt: &R, set: &Named<N>, count: usize) -> bool {
    let held = interned(rt, set, "interned").expect(rt, "a word");
    let words = hold_often(rt, set, &held, count);
    let are_held = has_shares(rt, set, (count as u64).saturating_add(1));
    drop(words);
    are_held && has_shares(rt, set, 1)
}

/// Whether a third is refused.
fn is_refused<N: SetName, R: Wait>(rt: &R, set: &Named<N>, held: &Word<'_, N>) -> bool {
    match again(rt, set, held) {
        Ok(_second) => matches!(again(rt, set, held), Err(Fault::FullCount)),
        Err(_) => false,
    }
}

/// Whether a third is refused, and a second isn't once it has gone.
fn is_full<N: SetName, R: Wait + Abort>(rt: &R, set: &Named<N>) -> bool {
    let held = interned(rt, set, "interned").expect(rt, "a word");
    is_refused(rt, set, &held) && is_found(rt, set, &held)
}

fn is_answered<N: SetName, R: Wait + Abort>(
    rt: &R,
    set: &Named<N>,
    question: Question<'_>,
) -> bool {
    match question {
        Question::Text(text) => is_found_held(rt, set, text),
        Question::Texts(count) => are_found(rt, set, count),
        Question::Often(count) => is_held_often(rt, set, count),
        Question::Full => is_full(rt, set),
    }
}

/// Whether it is so, and nothing is linked afterwards.
fn is_so_as<N: SetName, R: Wait + Abort>(
    rt: &R,
    alloc: Global,
    name: FreshName,
    question: Question<'_>,
) -> bool
    requires { N.logs ≡ name.logs }
{
    let limits = question.limits().expect(rt, "limits");
    let set = Named::<N>::new(alloc, name, limits).expect(rt, "a set");
    is_answered::<N, R>(rt, &set, question) && links(rt, &set, 0)
}

/// Whether it is so of a new set.
fn is_so<R: Wait + Abort>(rt: &R, alloc: Global, question: Question<'_>) -> bool {
    let count = Buckets::new(question.bits()).expect(rt, "a number");
    let name = FreshName::new(alloc, count).expect(rt, "a name");
    is_so_as::<Brand, R>(rt, alloc, name, question)
}

static TEXTS: [&str; 7] = ["", "a", "interned", "été", "長さ、大きさ", "a\0NUL", "two\nlines"];

#[test]
fn held_texts_are_found(rt: HostRuntime) {
    for text in &TEXTS {
        assert_for(&rt, is_so(&rt, rt.alloc(), Question::Text(text)), text);
    }
}

/// A text of two megabytes beyond ASCII.
#[test]
fn held_text_of_megabytes_is_found(rt: HostRuntime) {
    let long = "Größe, 長さ, 🦀".repeat(rt.alloc(), 100_000);
    let long = long.expect(&rt, "a text");
    assert_that(&rt, is_so(&rt, rt.alloc(), Question::Text(long.as_str())));
}

/// Each of the usual buckets has some of them.
#[test]
fn held_texts_of_each_bucket_are_found(rt: HostRuntime) {
    assert_that(&rt, is_so(&rt, rt.alloc(), Question::Texts(5_000)));
}

#[test]
fn held_text_is_found_seventy_thousand_times(rt: HostRuntime) {
    assert_that(&rt, is_so(&rt, rt.alloc(), Question::Often(70_000)));
}

#[test]
fn held_text_is_found_as_often_as_it_may_be_held(rt: HostRuntime) {
    assert_that(&rt, is_so(&rt, rt.alloc(), Question::Full));
}
