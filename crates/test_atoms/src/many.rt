//! More holders, entries and serials of one bucket than 16 bits count, and many texts of one bucket that die.

mod going;

use crate::assert_that;
use crate::samples::{check_linked, clone_of, end, intern, word_of};
use crate::sets::{self, Kind, ONE_BUCKET, ask};
use std::alloc::Global;
use std::ops::Range;
use std::process::Abort;
use std::sync::Wait;
use std::thread::Threads;
use std::time::Clock;
use string_cache::{AtomKind, SetAtom, SharedSet};
use test_calls::{is_found, links, look_up, numbered, shown};

const MANY: u32 = 70_000;

/// What there is this many of in the only bucket of a new set.
#[derive(Clone, Copy)]
pub enum Question {
    Holders,
    Serials,
    Texts,
    Dying,
    /// Texts that go one by one.
    Going,
}

/// Asks it of a set, which has no text afterwards.
pub fn check<S: SharedSet, R: Wait + Abort>(rt: &R, set: S, kind: Kind, question: Question) {
    match question {
        Question::Holders => hold_by_many(rt, set),
        Question::Serials => come_many_times(rt, set),
        Question::Texts => hold_many(rt, set, kind),
        Question::Dying => let_many_die(rt, set, kind),
        Question::Going => going::check(rt, set),
    }
    check_linked(rt, set, 0);
}

/// Asks it of a new set of one bucket, of each kind.
fn check_both<R: Threads + Clock + Wait + Abort + Sync>(rt: &R, alloc: Global, question: Question) {
    ask(rt, alloc, ONE_BUCKET, sets::Question::Many(question));
}

/// The number of texts that a visit shows, and of the holders that they have together.
fn visited<S: SharedSet, R: Wait>(rt: &R, set: S) -> (u64, u64) {
    let shown = shown(rt, set);
    (shown.entries, shown.holders)
}

/// This many clones of an atom.
fn clones_of<H: AtomKind, R: Wait + Abort>(
    rt: &R,
    alloc: Global,
    atom: &SetAtom<H>,
) -> Vec<SetAtom<H>> {
    let mut clones = Vec::new(alloc);
    for _ in 0..MANY {
        clones.push(clone_of(rt, atom)).expect(rt, "room");
    }
    clones
}

/// This many atoms of one text.
fn atoms_of<S: SharedSet, R: Wait + Abort>(rt: &R, set: S, text: &str) -> Vec<SetAtom<S::Held>> {
    clones_of(rt, set.allocator(), &intern(rt, set, text))
}

fn hold_by_many<S: SharedSet, R: Wait + Abort>(rt: &R, set: S) {
    let clones = atoms_of(rt, set, "interned");
    assert_that(rt, visited(rt, set) == (1, 70_000));
    drop(clones);
    assert_that(rt, visited(rt, set) == (0, 0));
}

#[test]
fn one_text_has_many_holders(rt: HostRuntime) {
    check_both(&rt, rt.alloc(), Question::Holders);
}

/// Whether the text gets this serial. It goes at once.
fn comes_with<S: SharedSet, R: Wait + Abort>(rt: &R, set: S, serial: u64) -> bool {
    word_of(rt, set, "interned") >> 16 == serial
}

fn come_many_times<S: SharedSet, R: Wait + Abort>(rt: &R, set: S) {
    for n in 0..u64::from(MANY) {
        assert_that(rt, comes_with(rt, set, n + 1));
    }
}

/// Each time it has the next serial.
#[test]
fn one_text_comes_many_times(rt: HostRuntime) {
    check_both(&rt, rt.alloc(), Question::Serials);
}

/// How many texts one bucket holds here: in a set without a name each call walks over all of them.
fn texts_of(kind: Kind) -> usize {
    match kind {
        Kind::Plain => 2_500,
        Kind::Named => 70_000,
    }
}

/// Atoms of the texts of these numbers.
fn numbered_atoms<S: SharedSet, R: Wait + Abort>(
    rt: &R,
    set: S,
    numbers: Range<usize>,
) -> Vec<SetAtom<S::Held>> {
    let mut atoms = Vec::new(set.allocator());
    for n in numbers {
        let atom = intern(rt, set, &numbered(set.allocator(), n).expect(rt, "a text"));
        atoms.push(atom).expect(rt, "room");
    }
    atoms
}

/// Whether the text of a number is found with the serial behind it.
fn is_found_at<S: SharedSet, R: Wait + Abort>(rt: &R, set: S, n: usize) -> bool {
    let text = numbered(set.allocator(), n).expect(rt, "a text");
    is_found(
        rt,
        set,
        &text,
        (n as u64).saturating_add(1).saturating_mul(0x1_0000),
    )
}

/// The bytes of so many. A set without a name has a bucket, and a node for each four; one with a name, whose index is given two places for each of
/// 47,642, has as many places for more, up to an eighth that stays empty.
fn bytes_of_texts(kind: Kind) -> u128 {
    match kind {
        Kind::Plain => 32 + 625 * 48 + 2_500 * 40,
        Kind::Named => 112 + 95_284 * 16 + 70_000 * 40,
    }
}

/// Whether the set shows this many of them, with the oldest and the newest found.
fn shows_texts<S: SharedSet, R: Wait + Abort>(rt: &R, set: S, texts: usize) -> bool {
    links(rt, set, texts as u128)
        && visited(rt, set) == (texts as u64, texts as u64)
        && is_found_at(rt, set, 0)
        && is_found_at(rt, set, texts.saturating_sub(1))
}

/// Lets all of them go while a visit has the lock of their bucket.
fn end_visited<S: SharedSet, R: Wait>(rt: &R, set: S, atoms: Vec<SetAtom<S::Held>>) {
    let mut last = Some(atoms);
    set.for_each(rt, |_, _| end(&mut last));
}

fn hold_many<S: SharedSet, R: Wait + Abort>(rt: &R, set: S, kind: Kind) {
    let texts = texts_of(kind);
    let mut atoms = numbered_atoms(rt, set, 0..texts);
    assert_that(
        rt,
        shows_texts(rt, set, texts) && set.memory(rt) == bytes_of_texts(kind),
    );
    drop(atoms.pop());
    assert_that(rt, links(rt, set, (texts as u128).saturating_sub(1)));
    end_visited(rt, set, atoms);
    set.sweep(rt);
}

#[test]
fn one_bucket_has_thousands_of_texts(rt: HostRuntime) {
    check_both(&rt, rt.alloc(), Question::Texts);
}

/// Lets 300 texts die while a visit has the lock of their bucket, in which this many others are held.
fn let_die<S: SharedSet, R: Wait + Abort>(rt: &R, set: S, held: u64) {
    end_visited(rt, set, numbered_atoms(rt, set, 0..300));
    assert_that(rt, visited(rt, set) == (held.saturating_add(300), held));
}

/// In a set with a name, looks up a text that isn't there as often as it takes to look at all places of 450 cells of a bucket, at sixteen a call: they
/// are at most 751.
fn look_on<S: SharedSet, R: Wait + Abort>(rt: &R, set: S, kind: Kind) {
    if let Kind::Named = kind {
        for _ in 0..47u32 {
            assert_that(rt, matches!(look_up(rt, set, "geometric"), Ok(None)));
        }
    }
}

/// They go with the next sweep, with a text that is then interned or looked for, and with the end of a text's last atom: by that call, or in a set
/// with a name by those after it. The others stay.
fn let_go_beside<S: SharedSet, R: Wait + Abort>(rt: &R, set: S, kind: Kind, held: u64) {
    let left = u128::from(held);
    let_die(rt, set, held);
    set.sweep(rt);
    check_linked(rt, set, left);
    let_die(rt, set, held);
    let atom = intern(rt, set, "interned");
    look_on(rt, set, kind);
    check_linked(rt, set, left.saturating_add(1));
    let_die(rt, set, held.saturating_add(1));
    drop(atom);
    look_on(rt, set, kind);
    check_linked(rt, set, left);
    let_die(rt, set, held);
    assert_that(rt, matches!(look_up(rt, set, "interned"), Ok(None)));
    look_on(rt, set, kind);
    check_linked(rt, set, left);
}

/// They go in a bucket of their own, and in one that had 150 texts before, which are held.
fn let_many_die<S: SharedSet, R: Wait + Abort>(rt: &R, set: S, kind: Kind) {
    let_go_beside(rt, set, kind, 0);
    let _held = numbered_atoms(rt, set, 1_000..1_150);
    let_go_beside(rt, set, kind, 150);
}

#[test]
fn many_dying_texts_of_a_bucket_go(rt: HostRuntime) {
    check_both(&rt, rt.alloc(), Question::Dying);
}

#[test]
fn texts_of_a_bucket_go_one_by_one(rt: HostRuntime) {
    check_both(&rt, rt.alloc(), Question::Going);
}
