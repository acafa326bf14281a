//! What no contract says about the words: the worked examples, what is interned and held.

ghost use Rattle.std.specs.Prelude.{◌≡◌, None, false};

use crate::memory::{Bytes, Outcome, Streams};
use crate::{assert_for, assert_that};
use commands::count::count_command;
use commands::words::{words, words_alone};
use std::alloc::Global;
use std::hash::RandomState;
use std::process::Abort;
use std::sync::Wait;
use std::thread::Threads;
use std::{io, str};
use string_cache::dynamic_set::Set;
use string_cache::word::{Buckets, Limits};
use string_cache::{Atom, DefaultAtom, EmptyStaticAtomSet, Fault};
use test_samples::{EXAMPLE, keys};
use text_streams::faults::AppFault;
use text_streams::streams::{Io, Sink};

pub const EXAMPLE_LINES: &[u8] = b"Not seen the word \"here\" before
Not seen the word \"is\" before
Not seen the word \"a\" before
Not seen the word \"sentence\" before
Not seen the word \"of\" before
Not seen the word \"text\" before
Not seen the word \"that\" before
Not seen the word \"will\" before
Not seen the word \"be\" before
Not seen the word \"tokenised\" before
Not seen the word \"and\" before
Not seen the word \"interned\" before
Seen the word \"and\" 1 times
Not seen the word \"some\" before
Not seen the word \"repeated\" before
Not seen the word \"tokens\" before
Seen the word \"is\" 1 times
Seen the word \"of\" 1 times
Seen the word \"text\" 1 times
Seen the word \"and\" 2 times
";

/// A set of the usual limits.
pub fn new_set(rt: &impl Abort, alloc: Global) -> Set<EmptyStaticAtomSet> {
    Set::new(alloc).expect(rt, "a set")
}

/// What `words` returns and writes over these streams and this set, under these keys.
pub fn told_under<R: Wait>(
    rt: &R,
    set: &Set<EmptyStaticAtomSet>,
    keys: Option<RandomState>,
    streams: &Streams,
) -> Outcome {
    let mut page = streams.writer();
    let answer = match keys {
        Some(keys) => words(rt, set, keys, &mut streams.reader(), &mut page),
        None => Err(AppFault::Keys),
    };
    Outcome { answer, page }
}

/// The same under one number's keys.
pub fn told_in<R: Wait>(rt: &R, set: &Set<EmptyStaticAtomSet>, streams: &Streams) -> Outcome {
    told_under(rt, set, keys(1), streams)
}

/// The same over a new set.
pub fn told_in_new_set<R: Wait>(rt: &R, alloc: Global, streams: &Streams) -> Outcome {
    match Set::<EmptyStaticAtomSet>::new(alloc) {
        Ok(set) => told_in(rt, &set, streams),
        Err(fault) => Outcome {
            answer: Err(AppFault::Intern(fault)),
            page: streams.writer(),
        },
    }
}

/// What `words_alone` returns and writes over these streams, under these keys.
pub fn told_alone_under(alloc: Global, keys: Option<RandomState>, streams: &Streams) -> Outcome {
    let mut page = streams.writer();
    let answer = match keys {
        Some(keys) => words_alone(alloc, keys, &mut streams.reader(), &mut page),
        None => Err(AppFault::Keys),
    };
    Outcome { answer, page }
}

/// The same under one number's keys.
pub fn told_alone(alloc: Global, streams: &Streams) -> Outcome {
    told_alone_under(alloc, keys(1), streams)
}

/// What `words_alone` returns, and writes to a writer of any kind.
pub fn tell_alone<K: Sink>(alloc: Global, text: &str, writer: &mut K) -> Result<(), AppFault>
    requires { K.has_failed writer.old ≡ false }
{
    let keys = keys(1).ok_or(AppFault::Keys)?;
    words_alone(alloc, keys, &mut Bytes::whole(text.as_bytes()), writer)
}

/// What `words` returns, and writes to a writer of any kind.
fn tell_in<R: Wait, K: Sink>(
    rt: &R,
    set: &Set<EmptyStaticAtomSet>,
    text: &str,
    writer: &mut K,
) -> Result<(), AppFault>
    requires { K.has_failed writer.old ≡ false }
{
    let keys = keys(1).ok_or(AppFault::Keys)?;
    words(rt, set, keys, &mut Bytes::whole(text.as_bytes()), writer)
}

/// Texts with their lines.
pub static TEXTS: [(&[u8], &[u8]); 5] = [
    (EXAMPLE, EXAMPLE_LINES),
    (
        b"\x61\xc2\xa0\x61",
        b"Not seen the word \"a\" before\nSeen the word \"a\" 1 times\n",
    ),
    (b"", b""),
    (b" \t\r\n\x0b\x0c", b""),
    (b"\x1c", b"Not seen the word \"\x1c\" before\n"),
];

/// Whether a set and a table give this answer and these lines of the text.
fn are_told<R: Wait>(
    rt: &R,
    alloc: Global,
    text: &[u8],
    answer: Result<(), AppFault>,
    lines: &[u8],
) -> bool {
    let streams = Streams::ample(text);
    told_alone(alloc, &streams).is(answer, lines)
        && told_in_new_set(rt, alloc, &streams).is(answer, lines)
}

#[test]
fn words_of_texts(rt: HostRuntime) {
    for (text, lines) in &TEXTS {
        assert_for(&rt, are_told(&rt, rt.alloc(), text, Ok(()), lines), text);
    }
}

#[test]
fn not_a_text(rt: HostRuntime) {
    assert_that(
        &rt,
        are_told(&rt, rt.alloc(), b"\xff", Err(AppFault::Text), b""),
    );
}

/// What comes before and after a word: in a text, and in the line about it.
const IN_TEXT: (&str, &str) = ("", " ");

const IN_LINE: (&str, &str) = ("Not seen the word \"", "\" before\n");

/// This many different words, each a number of six digits after the same beginning, between these.
fn numbered<R: Abort>(
    rt: &R,
    alloc: Global,
    front: &str,
    count: u32,
    (before, behind): (&str, &str),
) -> String {
    let mut text = String::new(alloc);
    for n in 0..count {
        write!(text, "{before}{front}{n:06}{behind}").expect(rt, "room");
    }
    text
}

/// Whether the lines of a text are written, of any size.
pub fn are_lines(alloc: Global, text: &str, lines: &str) -> bool {
    let mut writer = Io::new(Vec::new(alloc));
    let answer = tell_alone(alloc, text, &mut writer);
    answer == Ok(()) && writer.into_inner().as_slice() == lines.as_bytes()
}

/// The same of a set.
fn are_lines_in<R: Wait>(rt: &R, set: &Set<EmptyStaticAtomSet>, text: &str, lines: &str) -> bool {
    let mut writer = Io::new(Vec::new(set.allocator()));
    let answer = tell_in(rt, set, text, &mut writer);
    answer == Ok(()) && writer.into_inner().as_slice() == lines.as_bytes()
}

/// Whether the lines of the text are too many for a page.
fn overflow(alloc: Global, text: &str) -> bool {
    told_alone(alloc, &Streams::ample(text.as_bytes())).answer == Err(AppFault::Write)
}

/// Many lines take several writes, a later one of which fails.
#[test]
fn more_than_one_piece(rt: HostRuntime) {
    let text = numbered(&rt, rt.alloc(), "word", 3000, IN_TEXT);
    let lines = numbered(&rt, rt.alloc(), "word", 3000, IN_LINE);
    assert_that(&rt, are_lines(rt.alloc(), &text, &lines));
    assert_that(&rt, overflow(rt.alloc(), &text));
}

/// Takes all bytes, and notes how many there are in each of the first two writes, and how many writes there are.
#[derive(Drop)]
struct Sizes {
    writes: u64,
    first: usize,
    second: usize,
}

impl Sink for Sizes {
    ghost contents = { λ _. None };

    ghost has_failed = { λ _. false };

    fn write(&mut self, buf: &[u8]) -> io::Result<usize> {
        match self.writes {
            0 => self.first = buf.len(),
            1 => self.second = buf.len(),
            _ => {}
        }
        self.writes = self.writes.saturating_add(1);
        Ok(buf.len())
    }

    fn failed(&self) -> bool {
        false
    }
}

impl Sizes {
    fn none() -> Sizes {
        Sizes {
            writes: 0,
            first: 0,
            second: 0,
        }
    }
}

/// How many writes the lines of a text take, and the bytes of the first two.
fn sizes_of(alloc: Global, text: &str) -> Result<(u64, usize, usize), AppFault> {
    let mut sizes = Sizes::none();
    tell_alone(alloc, text, &mut sizes)?;
    Ok((sizes.writes, sizes.first, sizes.second))
}

/// The same of the lines of its counts.
fn sizes_of_counts<R: Threads + Wait + Sync>(
    rt: &R,
    alloc: Global,
    text: &str,
) -> Result<(u64, usize, usize), AppFault> {
    let mut sizes = Sizes::none();
    let keys = keys(1).ok_or(AppFault::Keys)?;
    let reader = &mut Bytes::whole(text.as_bytes());
    count_command(rt, alloc, keys, 1, reader, &mut sizes)?;
    Ok((sizes.writes, sizes.first, sizes.second))
}

/// Three pieces, of which the first two have 65,536 bytes.
const PIECES: Result<(u64, usize, usize), AppFault> = Ok((3, 65_536, 65_536));

/// A piece is written once the lines have 65,536 bytes, as those of 1,024 words have here: each line has 64, in 60 characters, or in 56 for a count.
#[test]
fn lines_come_in_pieces(rt: HostRuntime) {
    let text = numbered(&rt, rt.alloc(), "smörgåsbordsmörgåsbordbord", 3000, IN_TEXT);
    assert_that(&rt, sizes_of(rt.alloc(), &text) == PIECES);
    let front = "smörgåsbordsmörgåsbordsmörgåsbordsmörgåsbordbor";
    let text = numbered(&rt, rt.alloc(), front, 3000, IN_TEXT);
    assert_that(&rt, sizes_of_counts(&rt, rt.alloc(), &text) == PIECES);
}

/// Whether the lines of 550 words with this beginning, which have more than a megabyte, are written over the set.
fn are_large<R: Wait + Abort>(rt: &R, set: &Set<EmptyStaticAtomSet>, front: &str) -> bool {
    let text = numbered(rt, set.allocator(), front, 550, IN_TEXT);
    let lines = numbered(rt, set.allocator(), front, 550, IN_LINE);
    text.len() > 1_100_000 && are_lines_in(rt, set, &text, &lines)
}

/// More than a megabyte of long words.
#[test]
fn large_text(rt: HostRuntime) {
    let front = "abcdefghijklmnopqrst"
        .repeat(rt.alloc(), 100)
        .expect(&rt, "room");
    let set = new_set(&rt, rt.alloc());
    assert_that(&rt, are_large(&rt, &set, &front));
}

/// Whether the line of a text that is one word is written.
fn is_listed_alone(rt: &impl Abort, alloc: Global, text: &str) -> bool {
    let line = format!(in alloc; "Not seen the word \"{text}\" before\n").expect(rt, "room");
    are_lines(alloc, text, &line)
}

/// A word of 208,000 bytes, with NUL.
#[test]
fn one_long_word_is_listed(rt: HostRuntime) {
    let text = "\0字".repeat(rt.alloc(), 52_000).expect(&rt, "room");
    assert_that(&rt, is_listed_alone(&rt, rt.alloc(), &text));
}

/// The atom of a text.
pub fn intern<'s, R: Wait + Abort>(
    rt: &R,
    set: &'s Set<EmptyStaticAtomSet>,
    text: &str,
) -> DefaultAtom<'s> {
    Atom::from_str_in(rt, set, text).expect(rt, "an atom")
}

/// Whether the atom of a text is dynamic.
fn is_dynamic<R: Wait + Abort>(rt: &R, set: &Set<EmptyStaticAtomSet>, text: &str) -> bool {
    intern(rt, set, text).is_dynamic()
}

/// Whether a word of the example is too long for an inline atom.
fn is_long(word: &str) -> bool {
    ["sentence", "tokenised", "interned", "repeated"].contains(&word)
}

#[test]
fn dynamic_words_of_the_example(rt: HostRuntime) {
    let set = new_set(&rt, rt.alloc());
    let text = str::from_utf8(EXAMPLE).expect(&rt, "a text");
    for word in text.split_whitespace() {
        assert_for(&rt, is_dynamic(&rt, &set, word) == is_long(word), &word);
    }
}

/// Takes all bytes. At each write it notes how many entries are linked in the set, and what interning a text there returns.
#[derive(Drop)]
struct Watcher<'w, R: Wait> {
    rt: &'w R,
    set: &'w Set<EmptyStaticAtomSet>,
    text: &'static str,
    linked: u128,
    answer: Result<(), Fault>,
}

impl<'w, R: Wait> Watcher<'w, R> {
    fn new(rt: &'w R, set: &'w Set<EmptyStaticAtomSet>, text: &'static str) -> Watcher<'w, R> {
        Watcher {
            rt,
            set,
            text,
            linked: 0,
            answer: Ok(()),
        }
    }
}

impl<R: Wait> Sink for Watcher<'_, R> {
    ghost contents = { λ _. None };

    ghost has_failed = { λ _. false };

    fn write(&mut self, buf: &[u8]) -> io::Result<usize> {
        self.linked = self.set.linked(self.rt);
        self.answer = match Atom::from_str_in(self.rt, self.set, self.text) {
            Ok(_) => Ok(()),
            Err(fault) => Err(fault),
        };
        Ok(buf.len())
    }

    fn failed(&self) -> bool {
        false
    }
}

/// Whether this many entries are linked while the lines of the text are written, and none after it.
fn are_held<R: Wait>(rt: &R, set: &Set<EmptyStaticAtomSet>, text: &str, linked: u128) -> bool {
    let mut writer = Watcher::new(rt, set, "");
    let answer = tell_in(rt, set, text, &mut writer);
    answer == Ok(()) && writer.linked == linked && set.linked(rt) == 0
}

/// Each dynamic word is linked once while the lines are written, and goes with the last of its atoms.
#[test]
fn words_are_held_to_the_end(rt: HostRuntime) {
    let set = new_set(&rt, rt.alloc());
    assert_that(
        &rt,
        are_held(&rt, &set, "interned tokenised interned short", 2),
    );
    let many = numbered(&rt, rt.alloc(), "word", 20_000, IN_TEXT);
    assert_that(&rt, are_held(&rt, &set, &many, 20_000));
}

/// Whether nothing is written of a text, of whose words the last one finds no ticket in the only bucket.
fn is_untold<R: Wait + Abort>(rt: &R, alloc: Global, text: &str, tickets: u64) -> bool {
    let limits = Limits::new(9, tickets).expect(rt, "limits");
    let buckets = Buckets::new(0).expect(rt, "bits");
    let set = Set::<EmptyStaticAtomSet>::with_buckets(alloc, limits, buckets).expect(rt, "a set");
    let mut writer = Io::new(Vec::new(alloc));
    tell_in(rt, &set, text, &mut writer) == Err(AppFault::Intern(Fault::TicketsSpent))
        && writer.into_inner().is_empty()
}

/// The lines of 1,024 words are a piece of 65,536 bytes, that of the last one among them, which is refused.
#[test]
fn words_are_interned_before_they_are_told(rt: HostRuntime) {
    let text = numbered(
        &rt,
        rt.alloc(),
        "smörgåsbordsmörgåsbordbord",
        1_024,
        IN_TEXT,
    );
    assert_that(&rt, is_untold(&rt, rt.alloc(), &text, 1_023));
}

/// Whether interning this text gives this answer while the lines of others are written.
fn is_answer_meanwhile<R: Wait>(
    rt: &R,
    set: &Set<EmptyStaticAtomSet>,
    text: &'static str,
    answer: Result<(), Fault>,
) -> bool {
    let mut writer = Watcher::new(rt, set, text);
    tell_in(rt, set, "interned tokenised", &mut writer) == Ok(()) && writer.answer == answer
}

/// A new set with these limits.
pub fn set_with(
    rt: &impl Abort,
    alloc: Global,
    holders: u64,
    serials: u64,
) -> Set<EmptyStaticAtomSet> {
    let limits = Limits::new(holders, serials).expect(rt, "limits");
    Set::with_limits(alloc, limits).expect(rt, "a set")
}

/// If an entry may have at most one holder, a word of the text is refused to others while the lines are written, and another text isn't.
#[test]
fn words_are_interned_themselves(rt: HostRuntime) {
    let set = set_with(&rt, rt.alloc(), 1, 9);
    let full = Err(Fault::FullCount);
    assert_that(&rt, is_answer_meanwhile(&rt, &set, "interned", full));
    assert_that(&rt, is_answer_meanwhile(&rt, &set, "tokenised", full));
    assert_that(&rt, is_answer_meanwhile(&rt, &set, "repeated", Ok(())));
}

/// Whether this is the answer to the text, and nothing stays linked.
fn is_answer<R: Wait>(
    rt: &R,
    set: &Set<EmptyStaticAtomSet>,
    text: &[u8],
    answer: Result<(), AppFault>,
) -> bool {
    told_in(rt, set, &Streams::ample(text)).answer == answer && set.linked(rt) == 0
}

/// Each place of a word is a holder, even of one that occurred before.
#[test]
fn holders_are_full(rt: HostRuntime) {
    let set = set_with(&rt, rt.alloc(), 2, 9);
    assert_that(&rt, is_answer(&rt, &set, b"interned. interned.", Ok(())));
    let full = Err(AppFault::Intern(Fault::FullCount));
    assert_that(
        &rt,
        is_answer(&rt, &set, b"interned. interned. interned.", full),
    );
}

/// Whether this is returned, and these lines are written, for the text "interned".
fn is_told_in<R: Wait>(
    rt: &R,
    set: &Set<EmptyStaticAtomSet>,
    answer: Result<(), AppFault>,
    lines: &[u8],
) -> bool {
    told_in(rt, set, &Streams::ample(b"interned")).is(answer, lines)
}

/// A ticket isn't given again to a word whose atoms are gone.
#[test]
fn tickets_are_spent(rt: HostRuntime) {
    let set = set_with(&rt, rt.alloc(), 9, 1);
    assert_that(
        &rt,
        is_told_in(
            &rt,
            &set,
            Ok(()),
            b"Not seen the word \"interned\" before\n",
        ),
    );
    let spent = Err(AppFault::Intern(Fault::TicketsSpent));
    assert_that(&rt, is_told_in(&rt, &set, spent, b""));
}
