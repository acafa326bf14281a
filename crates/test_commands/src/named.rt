//! Words and counts over a set with a name, which holds each place of a word, as a set without one does.

ghost use Rattle.std.specs.Prelude.{◌≡◌, ◌≤◌};

use crate::counting::words_before;
use crate::gates::{NamedInTurn, Together};
use crate::memory::{Outcome, Streams};
use crate::{assert_for, assert_that};
use commands::words::words_named;
use std::alloc::Global;
use std::marker::Brand;
use std::process::Abort;
use std::str;
use std::sync::Wait;
use std::thread::Threads;
use string_cache::word::{Buckets, Limits};
use string_cache::{EmptyStaticAtomSet, Fault, FreshName, NamedSet, SetName};
use test_refusals::are;
use test_samples::{EXAMPLE, EXAMPLE_COUNTS, keys};
use text_streams::faults::AppFault;
use word_counts::count::{Open, count_named};

type Named<N> = NamedSet<EmptyStaticAtomSet, N>;

const TWICE: &str = "zusammenhängend zusammenhängend";

const LINES: &str = "Not seen the word \"zusammenhängend\" before
Seen the word \"zusammenhängend\" 1 times
";

const THRICE: &str = "zusammenhängend zusammenhängend zusammenhängend";

const FULL: AppFault = AppFault::Intern(Fault::FullCount);

/// What listing the words of these streams returns and writes.
fn told<N: SetName, R: Wait>(rt: &R, set: &Named<N>, streams: &Streams) -> Outcome {
    let mut page = streams.writer();
    let answer = match keys(1) {
        Some(keys) => words_named(rt, set, keys, &mut streams.reader(), &mut page),
        None => Err(AppFault::Keys),
    };
    Outcome { answer, page }
}

/// What counting by this many workers is refused for, unless the word is counted twice.
fn counted<N: SetName + Send + Sync, R: Threads + Wait + Sync>(
    rt: &R,
    set: &Named<N>,
    text: &str,
    n: u32,
) -> Option<AppFault>
    requires low { 1 ≤ n }
    requires high { n ≤ 64 }
{
    let keys = keys(1)?;
    match count_named(rt, set, keys, text, n, &Open) {
        Ok(counts) if are(&counts, &[("zusammenhängend", 2)]) => None,
        Ok(_) => Some(AppFault::Write),
        Err(fault) => Some(fault),
    }
}

/// Whether each place is held until the end of the call, or of the counts: a word with this name's set may be held twice.
fn are_held<N: SetName + Send + Sync, R: Threads + Wait + Sync + Abort>(
    rt: &R,
    alloc: Global,
    name: FreshName,
    n: u32,
) -> bool
    requires name { N.logs ≡ name.logs }
    requires low { 1 ≤ n }
    requires high { n ≤ 64 }
{
    let limits = Limits::new(2, 9).expect(rt, "limits");
    let set = NamedSet::<EmptyStaticAtomSet, N>::new(alloc, name, limits).expect(rt, "a set");
    told(rt, &set, &Streams::ample(TWICE.as_bytes())).is(Ok(()), LINES.as_bytes())
        && told(rt, &set, &Streams::ample(THRICE.as_bytes())).answer == Err(FULL)
        && counted(rt, &set, TWICE, n) == None
        && counted(rt, &set, THRICE, 1) == Some(FULL)
        && set.linked(rt) == 0
}

/// The same in a set of its own.
fn are_held_by<R: Threads + Wait + Sync + Abort>(rt: &R, alloc: Global, n: u32) -> bool
    requires low { 1 ≤ n }
    requires high { n ≤ 64 }
{
    let buckets = Buckets::new(1).unwrap_or(Buckets::usual());
    let name = FreshName::new(alloc, buckets).expect(rt, "a name");
    are_held::<Brand, R>(rt, alloc, name, n)
}

#[test]
fn places_are_held_in_a_set_with_a_name(rt: HostRuntime) {
    for n in [1, 2, 64] {
        assert_for(&rt, are_held_by(&rt, rt.alloc(), n), &n);
    }
}

/// Whether this many workers count the example in the set with this name, all at once.
fn meet<N: SetName + Send + Sync, R: Threads + Wait + Sync + Abort>(
    rt: &R,
    alloc: Global,
    name: FreshName,
    n: u32,
) -> bool
    requires name { N.logs ≡ name.logs }
    requires low { 1 ≤ n }
    requires high { n ≤ 64 }
{
    let set = NamedSet::<EmptyStaticAtomSet, N>::new(alloc, name, Limits::greatest());
    let set = set.expect(rt, "a set");
    let text = str::from_utf8(EXAMPLE).unwrap_or("");
    let gate = Together::of(n);
    let keys = keys(1).expect(rt, "keys");
    match count_named(rt, &set, keys, text, n, &gate) {
        Ok(counts) => are(&counts, &EXAMPLE_COUNTS) && gate.met(),
        Err(_) => false,
    }
}

/// The same in a set of its own.
fn meet_by<R: Threads + Wait + Sync + Abort>(rt: &R, alloc: Global, n: u32) -> bool
    requires low { 1 ≤ n }
    requires high { n ≤ 64 }
{
    let name = FreshName::usual(alloc).expect(rt, "a name");
    meet::<Brand, R>(rt, alloc, name, n)
}

#[test]
fn workers_run_at_once_in_a_set_with_a_name(rt: HostRuntime) {
    for n in 2..65u32 {
        assert_for(&rt, meet_by(&rt, rt.alloc(), n), &n);
    }
}

/// Of 20 words, piece i of 8 ends at word 20 * i / 8.
static ENDS: [u64; 8] = [2, 5, 7, 10, 12, 15, 17, 20];

/// Whether eight workers count 20 words in the set with this name, so many of which are linked as each piece ends.
fn end_at<N: SetName + Send + Sync, R: Threads + Wait + Sync + Abort>(
    rt: &R,
    alloc: Global,
    name: FreshName,
    text: &String,
) -> bool
    requires name { N.logs ≡ name.logs }
{
    let set = NamedSet::<EmptyStaticAtomSet, N>::new(alloc, name, Limits::greatest());
    let set = set.expect(rt, "a set");
    let gate = NamedInTurn::new(&set, &ENDS);
    let keys = keys(1).expect(rt, "keys");
    match count_named(rt, &set, keys, text.as_str(), 8, &gate) {
        Ok(counts) => counts.len() == 20 && gate.right() == Some(8),
        Err(_) => false,
    }
}

/// The same in a set of its own.
fn end_in_turn<R: Threads + Wait + Sync + Abort>(rt: &R, alloc: Global, text: &String) -> bool {
    let name = FreshName::usual(alloc).expect(rt, "a name");
    end_at::<Brand, R>(rt, alloc, name, text)
}

#[test]
fn pieces_in_a_set_with_a_name(rt: HostRuntime) {
    let text = words_before(&rt, rt.alloc(), 20, 8, ' ');
    assert_that(&rt, end_in_turn(&rt, rt.alloc(), &text));
}

/// What two workers are refused for, of whom the first meets a word that is held as often as may be, and the second one whose bucket has given its
/// last ticket; and the other way round.
fn lowest<N: SetName + Send + Sync, R: Threads + Wait + Sync + Abort>(
    rt: &R,
    alloc: Global,
    name: FreshName,
) -> (Option<AppFault>, Option<AppFault>)
    requires { N.logs ≡ name.logs }
{
    let limits = Limits::new(1, 1).expect(rt, "limits");
    let set = NamedSet::<EmptyStaticAtomSet, N>::new(alloc, name, limits).expect(rt, "a set");
    let held = set.intern(rt, "interned").ok();
    drop(set.intern(rt, "tokenised").ok());
    let faults = (
        counted(rt, &set, "interned tokenised", 2),
        counted(rt, &set, "tokenised interned", 2),
    );
    drop(held);
    faults
}

/// The same in a set of its own, in which these words lie in two buckets.
fn lowest_of_two<R: Threads + Wait + Sync + Abort>(
    rt: &R,
    alloc: Global,
) -> (Option<AppFault>, Option<AppFault>) {
    let name = FreshName::new(alloc, Buckets::usual()).expect(rt, "a name");
    lowest::<Brand, R>(rt, alloc, name)
}

const SPENT: AppFault = AppFault::Intern(Fault::TicketsSpent);

/// If two workers are refused, the fault of the first piece is returned.
#[test]
fn lowest_fault_in_a_set_with_a_name(rt: HostRuntime) {
    assert_that(
        &rt,
        lowest_of_two(&rt, rt.alloc()) == (Some(FULL), Some(SPENT)),
    );
}

/// Whether three workers are refused a text whose first word, or last, is held as often as may be, and nothing of what the others interned stays.
fn let_go<N: SetName + Send + Sync, R: Threads + Wait + Sync + Abort>(
    rt: &R,
    alloc: Global,
    name: FreshName,
) -> bool
    requires { N.logs ≡ name.logs }
{
    let limits = Limits::new(1, 9).expect(rt, "limits");
    let set = NamedSet::<EmptyStaticAtomSet, N>::new(alloc, name, limits).expect(rt, "a set");
    let held = set.intern(rt, "interned").ok();
    let are_gone = counted(rt, &set, "interned tokenised repeated", 3) == Some(FULL)
        && counted(rt, &set, "repeated tokenised interned", 3) == Some(FULL)
        && set.linked(rt) == 1;
    drop(held);
    are_gone
}

/// The same in a set of its own, in which these words lie in three buckets.
fn let_go_of_all<R: Threads + Wait + Sync + Abort>(rt: &R, alloc: Global) -> bool {
    let name = FreshName::new(alloc, Buckets::usual()).expect(rt, "a name");
    let_go::<Brand, R>(rt, alloc, name)
}

/// What other workers interned is gone after a refusal.
#[test]
fn refusals_let_go_in_a_set_with_a_name(rt: HostRuntime) {
    assert_that(&rt, let_go_of_all(&rt, rt.alloc()));
}
