//! Texts that an outsider chose: in the index of a bucket that hashes under no key, or under one that the outsider knows, they all belong at one
//! place, the lowest of all. There are eight places below it. If more texts belong there, they lie beside the index, which doesn't grow then. Under
//! another key they are texts like any others.
ghost use Rattle.std.specs.Prelude.{◌≡◌};

use crate::calls::{interned, links};
use crate::named_cells::{
    Named, Order, Words, are_found, bytes_of, keep, leave, let_go_at, let_go_to, sweep, takes,
    text_of,
};
use crate::{assert_for, assert_that};
use named_set::{FreshName, SetName};
use std::alloc::Global;
use std::hash::BuildHasher;
use std::marker::Brand;
use std::process::Abort;
use std::sync::Wait;
use text_forms::SipKey;
use text_forms::static_sets::{EmptyStaticAtomSet, StaticTables};
use text_forms::word::{Buckets, Limits};

/// So many texts are chosen. There are 34 places for them.
const COUNT: usize = 20;

/// Or so many, if many are to lie beside an index.
const MANY: usize = 120;

/// So many of these places aren't below all where texts belong.
const UPPER: u64 = 34 - 8;

/// The bytes that the places of texts may take.
type Bytes = [u128; 3];

/// What is asked of a set about texts that were chosen.
#[derive(Clone, Copy)]
enum Question {
    /// Their places take these bytes.
    Takes(Bytes),
    /// Those that lie beside an index go, are looked at, visited and swept, as those in it are.
    Beside,
    /// Many can lie there.
    ManyBeside,
}

impl Question {
    /// How many texts are chosen for it.
    fn count(self) -> usize {
        match self {
            Question::ManyBeside => MANY,
            _ => COUNT,
        }
    }
}

/// An index is laid out over 34 places for the seventeenth text, or over 36 for the eighteenth if one lay beside the first index. If too many of them
/// had a cell that went, it is laid out once more, over 40 for twenty.
const AS_OTHERS: Question = Question::Takes([34 * 16, 36 * 16, 40 * 16]);

/// An index of 18 places with sixteen beside it, of which eleven have a cell.
const BESIDE: Question = Question::Takes([18 * 16 + 16 * 8; 3]);

/// Of seventeen texts nine are in the index, and so many lie beside it.
const OUTSIDE: usize = 8;

/// The odd number nearest to 2^64 divided by the golden ratio, with which an index multiplies hashes under no key.
const OPEN: u64 = 0x9E37_79B9_7F4A_7C15;

/// The hash by which a text's bucket is found, and by which the index has it.
fn hash_of(text: &str) -> u64 {
    let (_, hash) = EmptyStaticAtomSet::look_up(text);
    hash
}

/// At which of the upper places a hash belongs under no key, or under this one.
fn place_of(hash: u64, key: Option<SipKey>) -> u64 {
    let multiplier = match key {
        Some(key) => key.hash_one(0u64) | 1,
        None => OPEN,
    };
    ((hash.wrapping_mul(multiplier) >> 32) * UPPER) >> 32
}

/// Which texts are chosen: of a bucket of two, and for a set under no key, or under this one.
#[derive(Clone, Copy)]
struct Choice {
    bucket: u16,
    key: Option<SipKey>,
}

/// Whether a text is of the bucket, and belongs at the lowest of the upper places.
fn is_chosen(choice: Choice, two: Buckets, text: &str) -> bool {
    let hash = hash_of(text);
    two.bucket_of(hash) == choice.bucket && place_of(hash, choice.key) == 0
}

/// So many texts that are chosen. One of some fifty is.
fn chosen(
    rt: &impl Abort,
    alloc: Global,
    choice: Choice,
    two: Buckets,
    count: usize,
) -> Vec<String> {
    let mut texts = Vec::new(alloc);
    for number in 0..count.saturating_mul(100) {
        let text = text_of(rt, alloc, number);
        if texts.len() < count && is_chosen(choice, two, text.as_str()) {
            texts.push(text).expect(rt, "room");
        }
    }
    texts
}

/// Holds each of the texts, or so many.
fn hold<'s, N: SetName, R: Wait + Abort>(
    rt: &R,
    set: &'s Named<N>,
    texts: &[String],
    count: usize,
) -> Words<'s, N> {
    let mut words = Vec::new(set.allocator());
    for text in texts.iter().take(count) {
        let word = interned(rt, set, text.as_str()).expect(rt, "a word");
        words.push(word).expect(rt, "room");
    }
    words
}

/// Each of the texts goes and comes again, in their order.
fn come_again<'s, N: SetName, R: Wait + Abort>(
    rt: &R,
    set: &'s Named<N>,
    texts: &[String],
    words: &mut Words<'s, N>,
) {
    for text in texts {
        let_go_at(words, 0);
        let word = interned(rt, set, text.as_str()).expect(rt, "a word");
        words.push(word).expect(rt, "room");
    }
}

/// Whether the set takes one of these numbers of bytes more than this.
fn takes_one<N: SetName, R: Wait>(rt: &R, set: &Named<N>, empty: u128, bytes: &Bytes) -> bool {
    for more in bytes {
        if takes(rt, set, empty, *more) {
            return true;
        }
    }
    false
}

/// Whether the places of the texts take these bytes, at first and once they went and came again twice.
fn stays_at<N: SetName, R: Wait + Abort>(
    rt: &R,
    set: &Named<N>,
    texts: &[String],
    bytes: &Bytes,
) -> bool {
    let cells = bytes_of(0, COUNT as u128).saturating_sub(bytes_of(0, 0));
    let empty = set.memory(rt).saturating_add(cells);
    let mut words = hold(rt, set, texts, COUNT);
    let are_there = takes_one(rt, set, empty, bytes);
    come_again(rt, set, texts, &mut words);
    come_again(rt, set, texts, &mut words);
    are_there && takes_one(rt, set, empty, bytes)
}

/// Nine texts, which stand at the lowest places of the index, and those beside it.
fn hold_beside<'s, N: SetName, R: Wait + Abort>(
    rt: &R,
    set: &'s Named<N>,
    texts: &[String],
) -> Words<'s, N> {
    hold(rt, set, texts, 9 + OUTSIDE)
}

/// How many cells a visit meets.
fn visited<N: SetName, R: Wait>(rt: &R, set: &Named<N>) -> usize {
    let mut count = 0usize;
    set.for_each(rt, |_, _| count = count.saturating_add(1));
    count
}

/// Whether those beside the index are counted and visited, and each goes with its last holder.
fn go_beside<N: SetName, R: Wait + Abort>(
    rt: &R,
    set: &Named<N>,
    empty: u128,
    texts: &[String],
) -> bool {
    let mut words = hold_beside(rt, set, texts);
    let bytes = bytes_of(18, 17).saturating_add(8 * 8);
    let are_all = takes(rt, set, empty, bytes) && visited(rt, set) == 17;
    are_all && let_go_to(rt, set, &mut words, Order::Last, 9)
}

/// Lets those beside the index go while a visit has the lock.
fn leave_beside<N: SetName, R: Wait>(rt: &R, set: &Named<N>, words: &mut Words<'_, N>) -> bool {
    leave(rt, set, words, Order::Last, 9);
    links(rt, set, 17)
}

/// Whether calls take them out: the first two of nine look at all of the 26 places.
fn are_looked_at_beside<N: SetName, R: Wait + Abort>(
    rt: &R,
    set: &Named<N>,
    texts: &[String],
) -> bool {
    let mut words = hold_beside(rt, set, texts);
    let are_left = leave_beside(rt, set, &mut words);
    are_left && are_found(rt, set, words.as_slice()) && links(rt, set, 9)
}

/// Whether they are out once they are swept.
fn are_swept_beside<N: SetName, R: Wait + Abort>(rt: &R, set: &Named<N>, texts: &[String]) -> bool {
    let mut words = hold_beside(rt, set, texts);
    let are_left = leave_beside(rt, set, &mut words);
    sweep(rt, set);
    are_left && links(rt, set, 9) && are_found(rt, set, words.as_slice())
}

/// Whether a sweep gives an index back of which only cells beside it are left: eight need none.
fn need_no_index<N: SetName, R: Wait + Abort>(
    rt: &R,
    set: &Named<N>,
    empty: u128,
    texts: &[String],
) -> bool {
    let mut words = hold_beside(rt, set, texts);
    keep(&mut words, Order::First, OUTSIDE);
    sweep(rt, set);
    takes(rt, set, empty, bytes_of(0, 8)) && are_found(rt, set, words.as_slice())
}

/// Whether so many are there, each is found, and each goes with its last holder.
fn many_lie_beside<N: SetName, R: Wait + Abort>(rt: &R, set: &Named<N>, texts: &[String]) -> bool {
    let mut words = hold(rt, set, texts, MANY);
    let are_there = links(rt, set, MANY as u128) && are_found(rt, set, words.as_slice());
    are_there && let_go_to(rt, set, &mut words, Order::Last, 9)
}

/// Whether cells beside an index are treated as those in it.
fn lie_beside<N: SetName, R: Wait + Abort>(rt: &R, set: &Named<N>, texts: &[String]) -> bool {
    let empty = set.memory(rt);
    go_beside(rt, set, empty, texts)
        && are_looked_at_beside(rt, set, texts)
        && are_swept_beside(rt, set, texts)
        && need_no_index(rt, set, empty, texts)
}

fn is_answered<N: SetName, R: Wait + Abort>(
    rt: &R,
    set: &Named<N>,
    texts: &[String],
    question: Question,
) -> bool {
    match question {
        Question::Takes(bytes) => stays_at(rt, set, texts, &bytes),
        Question::Beside => lie_beside(rt, set, texts),
        Question::ManyBeside => many_lie_beside(rt, set, texts),
    }
}

fn is_so_as<N: SetName, R: Wait + Abort>(
    rt: &R,
    alloc: Global,
    name: FreshName,
    texts: &[String],
    question: Question,
) -> bool
    requires { N.logs ≡ name.logs }
{
    let set = Named::<N>::new(alloc, name, Limits::greatest()).expect(rt, "a set");
    is_answered::<N, R>(rt, &set, texts, question)
}

/// Whether it is so of a new set of two buckets under this key.
fn is_so<R: Wait + Abort>(
    rt: &R,
    alloc: Global,
    choice: Choice,
    key: Option<SipKey>,
    question: Question,
) -> bool {
    let two = Buckets::new(1).expect(rt, "a number");
    let texts = chosen(rt, alloc, choice, two, question.count());
    let open = FreshName::new(alloc, two).expect(rt, "a name");
    let name = match key {
        Some(key) => open.under(key),
        None => open,
    };
    is_so_as::<Brand, R>(rt, alloc, name, texts.as_slice(), question)
}

/// Whether it is so of texts that are chosen for one key, or for none, in either bucket under another, or under none.
fn are_so<R: Wait + Abort>(
    rt: &R,
    alloc: Global,
    chosen_for: Option<SipKey>,
    key: Option<SipKey>,
    question: Question,
) -> bool {
    for bucket in &[0u16, 1] {
        let choice = Choice {
            bucket: *bucket,
            key: chosen_for,
        };
        if !is_so(rt, alloc, choice, key, question) {
            return false;
        }
    }
    true
}

fn key_of(low: u64, high: u64) -> Option<SipKey> {
    Some(SipKey::new(low, high))
}

#[test]
fn chosen_texts_lie_beside_an_index(rt: HostRuntime) {
    assert_that(&rt, are_so(&rt, rt.alloc(), None, None, BESIDE));
    assert_that(&rt, are_so(&rt, rt.alloc(), None, None, Question::Beside));
    assert_that(
        &rt,
        are_so(&rt, rt.alloc(), None, None, Question::ManyBeside),
    );
    let known = key_of(3, 4);
    assert_that(&rt, are_so(&rt, rt.alloc(), known, known, BESIDE));
}

#[test]
fn chosen_texts_are_as_others_under_a_key(rt: HostRuntime) {
    assert_that(&rt, are_so(&rt, rt.alloc(), None, key_of(3, 4), AS_OTHERS));
    for (low, high) in &[(3, 5), (2, 4), (4, 3), (0, 0), (u64::MAX, u64::MAX)] {
        let other = are_so(
            &rt,
            rt.alloc(),
            key_of(3, 4),
            key_of(*low, *high),
            AS_OTHERS,
        );
        assert_for(&rt, other, &(low, high));
    }
}
