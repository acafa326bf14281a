//! The program's calls over readers, writers and texts. Until one is refused, what it wrote is a beginning of its output.

ghost use Rattle.std.specs.Prelude.{◌≤◌};

use crate::counting::counted;
use crate::memory::{Lost, Outcome, Streams};
use crate::program::{
    Answer, COUNT_LINE, COUNT_WORDS, NO_MEMORY, NO_WORKER, answer_of, are_words, arguments_of,
    words_of_line,
};
use crate::replay::{DYING_ENTRY, LIMITS, NO_ROOM, replayed};
use crate::words::{EXAMPLE_LINES, new_set, tell_alone, told_alone, told_in};
use crate::{assert_that, program};
use std::alloc::Global;
use std::io::Print;
use std::process::Abort;
use std::str;
use std::sync::Wait;
use std::thread::Threads;
use string_cache::dynamic_set::Set;
use string_cache::{DefaultAtom, EmptyStaticAtomSet};
use test_refusals::{End, are, at_last, begin, finish};
use test_samples::{EXAMPLE, EXAMPLE_COUNTS};
use text_streams::faults::AppFault;
use text_streams::streams::{Io, read_text};
use word_counts::count::{Open, WordCounts};

/// Whether a call wrote its output, or a beginning of these lines until it was refused.
fn is_right(first: &Outcome, lines: &[u8], output: &[u8]) -> bool {
    match End::of(&first.answer) {
        End::Given => first.is(Ok(()), output),
        _ => lines.starts_with(first.page.written()),
    }
}

/// Whether the words of the example are listed over the set, in a watched call and in another.
fn are_told_in<R: Wait + Print>(rt: &R, set: &Set<EmptyStaticAtomSet>) -> bool {
    let streams = Streams::ample(EXAMPLE);
    begin(rt);
    let first = told_in(rt, set, &streams);
    finish(rt, End::of(&first.answer));
    is_right(&first, EXAMPLE_LINES, EXAMPLE_LINES)
        && set.linked(rt) == 0
        && told_in(rt, set, &streams).is(Ok(()), EXAMPLE_LINES)
}

#[test]
fn words_in_a_set(rt: HostRuntime) {
    assert_that(&rt, are_told_in(&rt, &new_set(&rt, rt.alloc())));
}

/// Whether they are listed in a table, in a watched call and in another.
fn are_told_alone(rt: &impl Print, alloc: Global) -> bool {
    let streams = Streams::ample(EXAMPLE);
    begin(rt);
    let first = told_alone(alloc, &streams);
    finish(rt, End::of(&first.answer));
    is_right(&first, EXAMPLE_LINES, EXAMPLE_LINES)
        && told_alone(alloc, &streams).is(Ok(()), EXAMPLE_LINES)
}

#[test]
fn words_in_a_table(rt: HostRuntime) {
    assert_that(&rt, are_told_alone(&rt, rt.alloc()));
}

/// This many words of eight bytes, the first 1,024 of which are different and recur in turn.
pub fn numbered_words<R: Abort>(rt: &R, alloc: Global, count: u32) -> String {
    let mut text = String::new(alloc);
    for n in 0..count {
        write!(text, "word{:04} ", n % 1_024).expect(rt, "room");
    }
    text
}

/// 100 different words of eight bytes, each of which the table holds with bytes of its own.
#[test]
fn many_words_in_a_table(rt: HostRuntime) {
    let alloc = rt.alloc();
    let text = numbered_words(&rt, alloc, 100);
    let answer = at_last(&rt, || tell_alone(alloc, &text, &mut Lost));
    assert_that(&rt, answer == Ok(()));
}

/// How many bytes are read of the text.
fn bytes_read(alloc: Global, text: &str) -> Result<usize, AppFault> {
    let read = read_text(alloc, &mut Io::new(text.as_bytes()))?;
    Ok(read.len())
}

/// A text of three pieces and a part of one, which is read piece by piece.
#[test]
fn text_of_many_pieces_is_read(rt: HostRuntime) {
    let alloc = rt.alloc();
    let text = "a".repeat(alloc, 200_000).expect(&rt, "room");
    let answer = at_last(&rt, || bytes_read(alloc, &text));
    assert_that(&rt, answer == Ok(200_000));
}

/// Whether a worked script prints its output, in a watched call and in another. If the first is refused, it prints nothing.
fn is_replayed(rt: &impl Print, alloc: Global, (script, output): (&[u8], &[u8])) -> bool {
    let streams = Streams::ample(script);
    begin(rt);
    let first = replayed(alloc, &streams);
    finish(rt, End::of(&first.answer));
    is_right(&first, b"", output) && replayed(alloc, &streams).is(Ok(()), output)
}

#[test]
fn script_with_a_dying_entry_is_replayed(rt: HostRuntime) {
    assert_that(&rt, is_replayed(&rt, rt.alloc(), DYING_ENTRY));
}

#[test]
fn script_with_limits_is_replayed(rt: HostRuntime) {
    assert_that(&rt, is_replayed(&rt, rt.alloc(), LIMITS));
}

#[test]
fn script_without_room_is_replayed(rt: HostRuntime) {
    assert_that(&rt, is_replayed(&rt, rt.alloc(), NO_ROOM));
}

/// Whether the example has its counts by this many workers.
fn are_counted<R: Threads + Wait + Sync>(
    rt: &R,
    set: &Set<EmptyStaticAtomSet>,
    text: &str,
    n: u32,
) -> Result<bool, AppFault>
    requires low { 1 ≤ n }
    requires high { n ≤ 64 }
{
    let counts = counted(rt, set, text, n, &Open)?;
    Ok(are(&counts, &EXAMPLE_COUNTS))
}

/// Whether a watched answer is yes, or a refusal.
fn is_yes(first: &Result<bool, AppFault>) -> bool {
    match End::of(first) {
        End::Given => *first == Ok(true),
        _ => true,
    }
}

/// Counts the example over the set, and returns the fault.
fn example_is_counted_in<R: Threads + Wait + Sync + Print + Abort>(
    rt: &R,
    set: &Set<EmptyStaticAtomSet>,
    n: u32,
) -> Option<AppFault>
    requires low { 1 ≤ n }
    requires high { n ≤ 64 }
{
    let text = str::from_utf8(EXAMPLE).expect(rt, "a text");
    begin(rt);
    let first = are_counted(rt, set, text, n);
    finish(rt, End::of(&first));
    assert_that(rt, is_yes(&first) && set.linked(rt) == 0);
    assert_that(
        rt,
        are_counted(rt, set, text, n) == Ok(true) && set.linked(rt) == 0,
    );
    first.err()
}

/// Counts the example by this many workers, and returns the fault. After it nothing stays linked, and the call made again gives the counts.
pub fn example_is_counted<R: Threads + Wait + Sync + Print + Abort>(
    rt: &R,
    alloc: Global,
    n: u32,
) -> Option<AppFault>
    requires low { 1 ≤ n }
    requires high { n ≤ 64 }
{
    example_is_counted_in(rt, &new_set(rt, alloc), n)
}

#[test]
fn counts_by_one(rt: HostRuntime) {
    let _ = example_is_counted(&rt, rt.alloc(), 1);
}

#[test]
fn counts_by_two(rt: HostRuntime) {
    let _ = example_is_counted(&rt, rt.alloc(), 2);
}

#[test]
fn counts_by_three(rt: HostRuntime) {
    let _ = example_is_counted(&rt, rt.alloc(), 3);
}

#[test]
fn counts_by_sixty_four(rt: HostRuntime) {
    let _ = example_is_counted(&rt, rt.alloc(), 64);
}

/// Adds the word at this place of a text: the numbers below 1,024, each once, and then the word "a".
fn add_word_at<R: Abort>(rt: &R, text: &mut String, n: u32) {
    if n < 1_024 {
        write!(text, "{n} ").expect(rt, "room");
    } else {
        text.push_str("a ").expect(rt, "room");
    }
}

/// A text of 1,024 numbers, and then the word "a" 3,072 times.
fn text_of_many<R: Abort>(rt: &R, alloc: Global) -> String {
    let mut text = String::new(alloc);
    for n in 0..4_096 {
        add_word_at(rt, &mut text, n);
    }
    text
}

/// Whether these are the counts of that text.
fn are_many(counts: &WordCounts<DefaultAtom<'_>>) -> bool {
    match counts.last() {
        Some((atom, n)) => counts.len() == 1_025 && *n == 3_072 && atom.eq_str("a"),
        None => false,
    }
}

/// Whether that text has its counts by this many workers.
fn many_are_right<R: Threads + Wait + Sync>(
    rt: &R,
    set: &Set<EmptyStaticAtomSet>,
    text: &str,
    n: u32,
) -> Result<bool, AppFault>
    requires low { 1 ≤ n }
    requires high { n ≤ 64 }
{
    let counts = counted(rt, set, text, n, &Open)?;
    Ok(are_many(&counts))
}

/// Counts that text over the set, and returns the fault.
fn many_are_counted_in<R: Threads + Wait + Sync + Print + Abort>(
    rt: &R,
    set: &Set<EmptyStaticAtomSet>,
    text: &str,
    n: u32,
) -> Option<AppFault>
    requires low { 1 ≤ n }
    requires high { n ≤ 64 }
{
    begin(rt);
    let answer = many_are_right(rt, set, text, n);
    finish(rt, End::of(&answer));
    assert_that(rt, is_yes(&answer));
    answer.err()
}

/// Counts a text of so many words that lists of them are worth a thread, by this many workers, and returns the fault.
pub fn many_are_counted<R: Threads + Wait + Sync + Print + Abort>(
    rt: &R,
    alloc: Global,
    n: u32,
) -> Option<AppFault>
    requires low { 1 ≤ n }
    requires high { n ≤ 64 }
{
    let set = new_set(rt, alloc);
    many_are_counted_in(rt, &set, &text_of_many(rt, alloc), n)
}

#[test]
fn counts_of_many_by_four(rt: HostRuntime) {
    let _ = many_are_counted(&rt, rt.alloc(), 4);
}

/// Whether the program wrote its output or, if it was refused, a line of these faults and a beginning of the output.
fn is_answer(answer: &Answer, output: &[u8], refusals: &[&[u8]]) -> bool {
    if answer.status == 1 {
        refusals.contains(&answer.faults.written()) && output.starts_with(answer.output.written())
    } else {
        answer.is(0, output, b"")
    }
}

/// How the program ended.
fn end_of(answer: &Answer) -> End {
    if answer.status == 1 {
        End::Refused
    } else {
        End::Given
    }
}

/// Whether that is the answer of a watched call.
fn is_answered<R: Threads + Wait + Sync + Print>(
    rt: &R,
    alloc: Global,
    args: Vec<String>,
    (input, output): (&[u8], &[u8]),
    refusals: &[&[u8]],
) -> bool {
    let streams = Streams::ample(input);
    begin(rt);
    let answer = answer_of(rt, alloc, args, &streams);
    finish(rt, end_of(&answer));
    is_answer(&answer, output, refusals)
}

/// The whole program over a line of arguments, an input and the output that it has. If it is refused, one of these lines reports the fault.
pub fn line_is_run<R: Threads + Wait + Sync + Print + Abort>(
    rt: &R,
    alloc: Global,
    line: &str,
    texts: (&[u8], &[u8]),
    refusals: &[&[u8]],
) {
    let args = words_of_line(rt, alloc, line);
    assert_that(rt, is_answered(rt, alloc, args, texts, refusals));
}

#[test]
fn program_lists_words(rt: HostRuntime) {
    line_is_run(
        &rt,
        rt.alloc(),
        "words",
        (EXAMPLE, EXAMPLE_LINES),
        &[NO_MEMORY],
    );
}

#[test]
fn program_counts_words(rt: HostRuntime) {
    line_is_run(
        &rt,
        rt.alloc(),
        "count 2",
        (EXAMPLE, program::EXAMPLE_COUNTS),
        &[NO_MEMORY, NO_WORKER],
    );
}

/// The hash is that of OpenSSL's SipHash.
static TABLE_TEXT: &[u8] = b"key 0\ndisp 0 0\natom ed02e6f16c03c165 sentence\n";

#[test]
fn program_makes_tables(rt: HostRuntime) {
    line_is_run(
        &rt,
        rt.alloc(),
        "generate 0 1",
        (b"sentence\n", TABLE_TEXT),
        &[NO_MEMORY],
    );
}

#[test]
fn program_checks_tables(rt: HostRuntime) {
    line_is_run(
        &rt,
        rt.alloc(),
        "check",
        (TABLE_TEXT, b"yes\n"),
        &[NO_MEMORY],
    );
}

/// Whether the arguments of a line are finally given.
fn are_read(rt: &impl Print, alloc: Global) -> bool {
    match at_last(rt, || arguments_of(alloc, COUNT_LINE)) {
        Ok(Some(args)) => are_words(&args, COUNT_WORDS),
        _ => false,
    }
}

#[test]
fn arguments_are_read(rt: HostRuntime) {
    assert_that(&rt, are_read(&rt, rt.alloc()));
}
