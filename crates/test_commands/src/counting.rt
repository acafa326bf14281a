//! That workers run at once, intern every place themselves and hold their atoms; and which fault is returned.

ghost use Rattle.std.specs.Prelude.{◌≤◌};

use crate::gates::{BothLeave, InTurn, Together, Watch};
use crate::words::{intern, new_set, set_with};
use crate::{assert_for, assert_that};
use std::alloc::Global;
use std::process::Abort;
use std::sync::Wait;
use std::thread::Threads;
use std::{str, thread};
use string_cache::dynamic_set::Set;
use string_cache::{Atom, DefaultAtom, EmptyStaticAtomSet, Fault};
use test_refusals::are;
use test_samples::{EXAMPLE, EXAMPLE_COUNTS, keys};
use text_streams::faults::AppFault;
use word_counts::count::{Gate, Open, WordCounts, count, sections};

/// A set without static texts.
type DefaultSet = Set<EmptyStaticAtomSet>;

/// What this many workers count.
pub fn counted<'s, R: Threads + Wait + Sync, G: Gate>(
    rt: &'s R,
    set: &'s DefaultSet,
    text: &'s str,
    n: u32,
    gate: &'s G,
) -> Result<WordCounts<DefaultAtom<'s>>, AppFault>
    requires low { 1 ≤ n }
    requires high { n ≤ 64 }
{
    count(rt, set, keys(1).ok_or(AppFault::Keys)?, text, n, gate)
}

/// Whether this many workers count these words through the gate.
fn are_counted<R: Threads + Wait + Sync, G: Gate>(
    rt: &R,
    set: &DefaultSet,
    text: &str,
    n: u32,
    gate: &G,
    wanted: &[(&str, u64)],
) -> bool
    requires low { 1 ≤ n }
    requires high { n ≤ 64 }
{
    match counted(rt, set, text, n, gate) {
        Ok(counts) => are(&counts, wanted),
        Err(_) => false,
    }
}

/// Why this many workers are refused.
fn fault_of<R: Threads + Wait + Sync, G: Gate>(
    rt: &R,
    set: &DefaultSet,
    text: &str,
    n: u32,
    gate: &G,
) -> Option<AppFault>
    requires low { 1 ≤ n }
    requires high { n ≤ 64 }
{
    counted(rt, set, text, n, gate).err()
}

#[test]
fn counts_of_the_example(rt: HostRuntime) {
    let set = new_set(&rt, rt.alloc());
    let text = str::from_utf8(EXAMPLE).expect(&rt, "a text");
    for n in [1, 2, 3, 64] {
        let are_right = are_counted(&rt, &set, text, n, &Open, &EXAMPLE_COUNTS);
        assert_for(&rt, are_right, &n);
    }
    assert_that(&rt, set.linked(&rt) == 0);
}

/// Whether four workers count both words of the long text, the longer of which is linked in the meantime.
fn is_long_counted<R: Threads + Wait + Sync>(rt: &R, set: &DefaultSet, text: &str) -> bool {
    match counted(rt, set, text, 4, &Open) {
        Ok(counts) => {
            are(&counts, &[("a", 20_000), ("interned", 20_000)]) && set.linked(rt) == 1
        }
        Err(_) => false,
    }
}

/// A text of several sections, so that workers begin at different ones.
#[test]
fn counts_of_a_long_text(rt: HostRuntime) {
    let text = "interned a\n"
        .repeat(rt.alloc(), 20_000)
        .expect(&rt, "room");
    let set = new_set(&rt, rt.alloc());
    assert_that(&rt, is_long_counted(&rt, &set, &text));
}

/// Whether this many workers count this many words in the set, each twice.
fn come_twice_in<R: Threads + Wait + Sync>(
    rt: &R,
    set: &DefaultSet,
    text: &str,
    words: usize,
    n: u32,
) -> bool
    requires low { 1 ≤ n }
    requires high { n ≤ 64 }
{
    match counted(rt, set, text, n, &Open) {
        Ok(counts) => counts.len() == words && counts.iter().all(|(_, places)| *places == 2),
        Err(_) => false,
    }
}

/// The same in a new set, and whether nothing stays linked once the counts are gone.
fn come_twice<R: Threads + Wait + Sync + Abort>(
    rt: &R,
    alloc: Global,
    text: &str,
    words: usize,
    n: u32,
) -> bool
    requires low { 1 ≤ n }
    requires high { n ≤ 64 }
{
    let set = new_set(rt, alloc);
    come_twice_in(rt, &set, text, words, n) && set.linked(rt) == 0
}

/// This many different words, and again in the same order.
fn words_twice<R: Abort>(rt: &R, alloc: Global, count: u32) -> String {
    let words = words_before(rt, alloc, count, 8, ' ');
    words.repeat(alloc, 2).expect(rt, "room")
}

/// Lists of many words, which halves of them share, and so many lists that some are left over; and four lists of 12,000 words.
#[test]
fn halves_of_lists_are_merged(rt: HostRuntime) {
    let text = words_twice(&rt, rt.alloc(), 8_192);
    for n in [4, 5, 6, 7, 8, 9, 16, 64] {
        assert_for(&rt, come_twice(&rt, rt.alloc(), &text, 8_192, n), &n);
    }
    let text = words_twice(&rt, rt.alloc(), 24_000);
    assert_that(&rt, come_twice(&rt, rt.alloc(), &text, 24_000, 4));
}

/// Whether this many workers are all in their pieces of the example at once, and each goes in once and out once.
fn meet<R: Threads + Wait + Sync + Abort>(rt: &R, alloc: Global, n: u32) -> bool
    requires low { 1 ≤ n }
    requires high { n ≤ 64 }
{
    let set = new_set(rt, alloc);
    let text = str::from_utf8(EXAMPLE).unwrap_or("");
    let gate = Together::of(n);
    are_counted(rt, &set, text, n, &gate, &EXAMPLE_COUNTS) && gate.met()
}

/// Each number that there may be. If there are many, some have no word.
#[test]
fn workers_run_at_once(rt: HostRuntime) {
    for n in 1..65u32 {
        assert_for(&rt, meet(&rt, rt.alloc(), n), &n);
    }
}

/// One worker holds a word that occurred twice, until the counts are dropped.
#[test]
fn repeated_word_goes_with_its_counts(rt: HostRuntime) {
    assert_that(&rt, come_twice(&rt, rt.alloc(), "interned interned", 1, 1));
}

/// This many different words, each of `long` letters or more and followed by this white space.
pub fn words_before<R: Abort>(
    rt: &R,
    alloc: Global,
    count: u32,
    long: usize,
    white: char,
) -> String {
    let letters = "a".repeat(alloc, long).expect(rt, "room");
    let mut text = String::new(alloc);
    for n in 0..count {
        write!(text, "{letters}{n}{white}").expect(rt, "room");
    }
    text
}

/// How many different words this many workers count through the gate.
fn words_counted<R: Threads + Wait + Sync, G: Gate>(
    rt: &R,
    set: &DefaultSet,
    text: &str,
    n: u32,
    gate: &G,
) -> Option<usize>
    requires low { 1 ≤ n }
    requires high { n ≤ 64 }
{
    match counted(rt, set, text, n, gate) {
        Ok(counts) => Some(counts.len()),
        Err(_) => None,
    }
}

/// Whether this many different words are counted by this many workers, and this many are linked as each piece ends.
fn end_at<R: Threads + Wait + Sync + Abort>(
    rt: &R,
    alloc: Global,
    text: &str,
    words: usize,
    n: u32,
    wanted: &[u64],
) -> bool
    requires low { 1 ≤ n }
    requires high { n ≤ 64 }
{
    let set = new_set(rt, alloc);
    let gate = InTurn::new(&set, wanted);
    words_counted(rt, &set, text, n, &gate) == Some(words) && gate.right() == Some(u64::from(n))
}

/// Of 20 different words, piece i of 8 ends at word 20 * i / 8.
#[test]
fn pieces_of_twenty_words(rt: HostRuntime) {
    let text = words_before(&rt, rt.alloc(), 20, 8, ' ');
    let wanted = [2, 5, 7, 10, 12, 15, 17, 20];
    assert_that(&rt, end_at(&rt, rt.alloc(), &text, 20, 8, &wanted));
}

/// Of 20 different words, piece i of 3 ends at word 20 * i / 3, and piece i of 7 at word 20 * i / 7.
#[test]
fn odd_pieces_of_twenty_words(rt: HostRuntime) {
    let text = words_before(&rt, rt.alloc(), 20, 8, ' ');
    assert_that(&rt, end_at(&rt, rt.alloc(), &text, 20, 3, &[6, 13, 20]));
    let wanted = [2, 5, 8, 11, 14, 17, 20];
    assert_that(&rt, end_at(&rt, rt.alloc(), &text, 20, 7, &wanted));
}

/// Of 402 different words, over several sections of the text, piece i of 4 ends at word 402 * i / 4.
#[test]
fn pieces_of_a_long_text(rt: HostRuntime) {
    let text = words_before(&rt, rt.alloc(), 402, 1_000, ' ');
    assert_that(
        &rt,
        end_at(&rt, rt.alloc(), &text, 402, 4, &[100, 201, 301, 402]),
    );
}

/// Of 402 different words separated by tabs, over several sections of the text, piece i of 4 ends at word 402 * i / 4.
#[test]
fn pieces_of_a_text_with_tabs(rt: HostRuntime) {
    let text = words_before(&rt, rt.alloc(), 402, 1_000, '\t');
    assert_that(
        &rt,
        end_at(&rt, rt.alloc(), &text, 402, 4, &[100, 201, 301, 402]),
    );
}

/// The number of sections that a text has, unless memory is refused.
fn sections_of(alloc: Global, text: &str) -> Option<usize> {
    match sections(alloc, text) {
        Ok(sections) => Some(sections.len()),
        Err(_) => None,
    }
}

/// A text of some 132,000 bytes has three sections, whatever white space is between its words. One of 70 words, each longer than the bytes of a
/// section, has one for each, and one for the white space behind them. One word about as long as a section is one.
#[test]
fn sections_are_cut_at_all_white_space(rt: HostRuntime) {
    for white in [' ', '\t', '\n', '\x0c', '\r'] {
        let text = words_before(&rt, rt.alloc(), 132, 1_000, white);
        assert_for(&rt, sections_of(rt.alloc(), &text) == Some(3), &white);
    }
    let text = words_before(&rt, rt.alloc(), 70, 66_000, ' ');
    assert_that(&rt, sections_of(rt.alloc(), &text) == Some(71));
    for bytes in [65_535, 65_536, 65_537] {
        let text = "a".repeat(rt.alloc(), bytes).expect(&rt, "room");
        assert_for(&rt, sections_of(rt.alloc(), &text) == Some(1), &bytes);
    }
}

/// Whether two workers meet over one word, of which the first piece has none.
fn meet_over_one_word<R: Threads + Wait + Sync>(rt: &R, set: &DefaultSet) -> bool {
    let gate = Together::of(2);
    are_counted(rt, set, "a", 2, &gate, &[("a", 1)]) && gate.met()
}

/// Whether each of 64 workers that have no word comes and goes.
fn come_and_go<R: Threads + Wait + Sync>(rt: &R, set: &DefaultSet) -> bool {
    let watch = Watch::new(set);
    are_counted(rt, set, "", 64, &watch, &[]) && watch.passed() == (64, 64)
}

#[test]
fn empty_pieces(rt: HostRuntime) {
    let set = new_set(&rt, rt.alloc());
    assert_that(&rt, meet_over_one_word(&rt, &set));
    assert_that(&rt, come_and_go(&rt, &set));
}

/// Two workers that hold the same text hold one entry, beyond `leave`.
#[test]
fn workers_share_entries(rt: HostRuntime) {
    let set = new_set(&rt, rt.alloc());
    let gate = BothLeave::new(&set);
    assert_that(
        &rt,
        are_counted(&rt, &set, "interned interned", 2, &gate, &[("interned", 2)]),
    );
    assert_that(&rt, !gate.was_missed() && gate.linked() == 1);
}

/// A worker interns between `enter` and `leave`, and still holds its atoms in `leave`.
#[test]
fn workers_intern_between_the_calls(rt: HostRuntime) {
    let set = new_set(&rt, rt.alloc());
    let watch = Watch::new(&set);
    assert_that(
        &rt,
        are_counted(&rt, &set, "interned", 1, &watch, &[("interned", 1)]),
    );
    assert_that(&rt, watch.linked() == (0, 1));
}

const FULL: Option<AppFault> = Some(AppFault::Intern(Fault::FullCount));

/// A refused worker still holds what it interned in `leave`.
#[test]
fn refused_workers_hold_their_atoms(rt: HostRuntime) {
    let set = set_with(&rt, rt.alloc(), 2, 9);
    let watch = Watch::new(&set);
    assert_that(
        &rt,
        fault_of(&rt, &set, "interned interned interned", 1, &watch) == FULL,
    );
    assert_that(&rt, watch.linked() == (0, 1) && set.linked(&rt) == 0);
}

/// Each place is a holder, even of a word that occurred before, and each call takes one ticket for the word.
#[test]
fn every_place_is_interned(rt: HostRuntime) {
    let set = set_with(&rt, rt.alloc(), 2, 2);
    assert_that(
        &rt,
        are_counted(&rt, &set, "interned interned", 1, &Open, &[("interned", 2)]),
    );
    assert_that(
        &rt,
        fault_of(&rt, &set, "interned interned interned", 1, &Open) == FULL,
    );
}

const SPENT: Option<AppFault> = Some(AppFault::Intern(Fault::TicketsSpent));

/// Whether two workers are refused for a word that is full in the first piece, and for one whose tickets are spent there.
fn are_refused_in_turn<R: Threads + Wait + Sync>(
    rt: &R,
    set: &DefaultSet,
    held: &DefaultAtom<'_>,
) -> bool {
    fault_of(rt, set, "interned tokenised", 2, &Open) == FULL
        && fault_of(rt, set, "tokenised interned", 2, &Open) == SPENT
        && set.linked(rt) == 1
        && held.eq_str("interned")
}

/// If two workers are refused, the fault of the first piece is returned, and no atom stays.
#[test]
fn lowest_fault_is_answered(rt: HostRuntime) {
    let set = set_with(&rt, rt.alloc(), 1, 1);
    let held = intern(&rt, &set, "interned");
    drop(intern(&rt, &set, "tokenised"));
    assert_that(&rt, are_refused_in_turn(&rt, &set, &held));
}

/// Whether three workers are refused the text, and one entry is left.
fn let_go<R: Threads + Wait + Sync>(rt: &R, set: &DefaultSet, text: &str) -> bool {
    fault_of(rt, set, text, 3, &Open) == FULL && set.linked(rt) == 1
}

/// Checks that they are refused a text whose first word, or last, is full.
fn check_let_go<R: Threads + Wait + Sync + Abort>(rt: &R, set: &DefaultSet) {
    for text in &["interned tokenised repeated", "repeated tokenised interned"] {
        assert_for(rt, let_go(rt, set, text), text);
    }
}

/// What other workers interned is gone after a refusal.
#[test]
fn refusals_let_go_of_all(rt: HostRuntime) {
    let set = set_with(&rt, rt.alloc(), 1, 9);
    let held = intern(&rt, &set, "interned");
    check_let_go(&rt, &set);
    assert_that(&rt, held.eq_str("interned"));
}

/// Clones a borrowed atom, compares its text, and drops the clone.
fn is_cloned<R: Wait>(rt: &R, atom: &Atom<EmptyStaticAtomSet>) -> bool {
    match atom.clone_atom(rt) {
        Ok(clone) => clone.eq_str("interned"),
        Err(_) => false,
    }
}

/// Whether so many places of a word are counted, each of which is a holder, and one more is refused.
fn are_all_held<R: Threads + Wait + Sync + Abort>(rt: &R, alloc: Global, places: u64) -> bool {
    let set = set_with(rt, alloc, places, 9);
    let text = "interned "
        .repeat(alloc, places as usize)
        .expect(rt, "room");
    let more = format!(in alloc; "{text}interned").expect(rt, "room");
    are_counted(rt, &set, &text, 1, &Open, &[("interned", places)])
        && fault_of(rt, &set, &more, 1, &Open) == FULL
}

#[test]
fn each_of_many_places_is_held(rt: HostRuntime) {
    assert_that(&rt, are_all_held(&rt, rt.alloc(), 5_000));
}

/// Whether workers count a text of one long word, in which no other begins.
fn is_one_word<R: Threads + Wait + Sync + Abort>(rt: &R, alloc: Global, n: u32) -> bool
    requires low { 1 ≤ n }
    requires high { n ≤ 64 }
{
    let set = new_set(rt, alloc);
    let text = "\0字".repeat(alloc, 52_000).expect(rt, "room");
    are_counted(rt, &set, &text, n, &Open, &[(text.as_str(), 1)])
}

/// A text of 208,000 bytes without white space, and with NUL.
#[test]
fn one_long_word_is_counted(rt: HostRuntime) {
    for n in [1, 2, 64] {
        assert_for(&rt, is_one_word(&rt, rt.alloc(), n), &n);
    }
}

/// What two workers that borrow an atom interned by a third one return.
fn lent_to_two<'e, R: Threads + Wait + Sync>(
    rt: &'e R,
    atom: &'e Atom<'e, EmptyStaticAtomSet>,
) -> Option<(bool, bool)> {
    thread::scope(thread::scope_env::<'e>(), rt, |scope| {
        let first = scope.spawn(move || is_cloned(rt, atom)).ok()?;
        let second = scope.spawn(move || is_cloned(rt, atom)).ok()?;
        Some((first.join(rt), second.join(rt)))
    })
}

/// The atom of "interned" that a worker returns.
fn interned_by_worker<'e, R: Threads + Wait + Sync>(
    rt: &'e R,
    set: &'e Set<EmptyStaticAtomSet>,
) -> Option<Atom<'e, EmptyStaticAtomSet>> {
    thread::scope(thread::scope_env::<'e>(), rt, |scope| {
        let worker = scope
            .spawn(move || Atom::from_str_in(rt, set, "interned"))
            .ok()?;
        worker.join(rt).ok()
    })
}

#[test]
fn atoms_cross_threads(rt: HostRuntime) {
    let set = new_set(&rt, rt.alloc());
    let atom = interned_by_worker(&rt, &set).expect(&rt, "an atom");
    assert_that(&rt, lent_to_two(&rt, &atom) == Some((true, true)));
    assert_that(&rt, atom.eq_str("interned"));
    drop(atom);
    assert_that(&rt, set.linked(&rt) == 0);
}
