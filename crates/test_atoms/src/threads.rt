//! Threads at work on one set, and on one text.

use crate::assert_that;
use crate::samples::{are_equal, check_linked, clone_of, intern};
use crate::sets::{self, Size, USUAL, ask, within};
use crate::together::Together;
use std::alloc::Global;
use std::process::Abort;
use std::sync::Wait;
use std::sync::atomic::{AtomicU64, Ordering};
use std::thread::{self, Threads};
use std::time::Clock;
use string_cache::{AtomKind, Fault, SetAtom, SharedSet};
use test_calls::{cloned, has_text};

/// What threads do with a new set.
#[derive(Clone, Copy)]
pub enum Scene {
    AtWork,
    Clones,
    OneText,
}

/// Plays the scene in a set, which has no text afterwards.
pub fn play<S: SharedSet + Together + Send + Sync, R: Threads + Wait + Abort + Sync>(
    rt: &R,
    set: S,
    scene: Scene,
) {
    match scene {
        Scene::AtWork => work_in_two(rt, set),
        Scene::Clones => clone_one_text(rt, set),
        Scene::OneText => meet_at_one_text(rt, set),
    }
    check_linked(rt, set, 0);
}

/// Plays it in a new set of this size, of each kind.
fn play_both<R: Threads + Clock + Wait + Abort + Sync>(
    rt: &R,
    alloc: Global,
    size: Size,
    scene: Scene,
) {
    ask(rt, alloc, size, sets::Question::Threads(scene));
}

/// Whether a clone is equal to its atom, and has the text.
fn is_clone<H: AtomKind>(clone: &SetAtom<H>, atom: &SetAtom<H>, text: &str) -> bool {
    are_equal(clone, atom) && has_text(clone, text)
}

/// Interns, clones and drops a text. Returns whether both atoms were equal, and had it.
fn comes_and_goes<S: SharedSet, R: Wait + Abort>(rt: &R, set: S, text: &str) -> bool {
    let atom = intern(rt, set, text);
    is_clone(&clone_of(rt, &atom), &atom, text)
}

/// Does so with each of the texts, again and again.
pub fn turn_over<S: SharedSet, R: Wait + Abort>(rt: &R, set: S) -> bool {
    let mut is_same = true;
    for _ in 0..100 {
        for text in "interned tokenised document repeated".split_whitespace() {
            is_same = is_same && comes_and_goes(rt, set, text);
        }
    }
    is_same
}

fn work_in_two<S: SharedSet + Together + Send + Sync, R: Threads + Wait + Abort + Sync>(
    rt: &R,
    set: S,
) {
    let (left, right) = thread::join(rt, || set.turn_over(rt), || set.turn_over(rt));
    assert_that(rt, left && right);
    set.sweep(rt);
}

#[test]
fn threads_at_work(rt: HostRuntime) {
    play_both(&rt, rt.alloc(), USUAL, Scene::AtWork);
}

/// Clones and drops an atom of its own, again and again.
pub fn clone_and_drop<S: SharedSet, R: Wait + Abort>(rt: &R, set: S) {
    let atom = intern(rt, set, "interned");
    for _ in 0..30_000 {
        drop(clone_of(rt, &atom));
    }
}

fn takes_no_more<H: AtomKind, R: Wait>(rt: &R, atom: &SetAtom<H>) -> bool {
    matches!(cloned(rt, atom), Err(Fault::FullCount))
}

/// Whether the atom takes just two more in addition to its two.
fn takes_two_more<H: AtomKind, R: Wait + Abort>(rt: &R, atom: &SetAtom<H>) -> bool {
    let _third = clone_of(rt, atom);
    let _fourth = clone_of(rt, atom);
    takes_no_more(rt, atom)
}

/// Whether the text, of which there is one holder, takes just three more.
fn takes_three_more<H: AtomKind, R: Wait + Abort>(rt: &R, atom: &SetAtom<H>) -> bool {
    let second = clone_of(rt, atom);
    takes_two_more(rt, &second)
}

fn clone_in_two<S: SharedSet + Together + Send + Sync, R: Threads + Wait + Abort + Sync>(
    rt: &R,
    set: S,
) {
    thread::join(rt, || set.clone_and_drop(rt), || set.clone_and_drop(rt));
}

/// Two threads clone atoms of one text. Each has one, so there are at most four holders.
fn clone_one_text<S: SharedSet + Together + Send + Sync, R: Threads + Wait + Abort + Sync>(
    rt: &R,
    set: S,
) {
    clone_in_two(rt, set);
    set.sweep(rt);
    let atom = intern(rt, set, "interned");
    assert_that(
        rt,
        has_text(&atom, "interned") && takes_three_more(rt, &atom),
    );
}

/// No share is lost or left over, and none is refused, even though both threads change one count.
#[test]
fn two_threads_clone_one_text(rt: HostRuntime) {
    play_both(&rt, rt.alloc(), within(4, 9), Scene::Clones);
}

/// Waits until two threads have come here this often.
fn meet<R: Wait>(rt: &R, gate: &AtomicU64, times: u64) {
    let _ = gate.fetch_add(1, Ordering::SeqCst);
    for _ in rt.forever() {
        if gate.load(Ordering::SeqCst) >= times.saturating_mul(2) {
            return;
        }
        thread::yield_now();
    }
}

/// In each of 2,000 rounds, interns a text that nobody held before, at the same time as another thread does. Returns in how many both had the same
/// word.
pub fn intern_beside<S: SharedSet, R: Wait + Abort>(
    rt: &R,
    set: S,
    gate: &AtomicU64,
    mine: &AtomicU64,
    other: &AtomicU64,
) -> u64 {
    let mut same = 0u64;
    for round in 0..2_000u64 {
        meet(rt, gate, 3 * round + 1);
        let atom = intern(rt, set, "interned");
        let word = atom.unsafe_data();
        mine.store(word, Ordering::SeqCst);
        meet(rt, gate, 3 * round + 2);
        same = same.saturating_add(u64::from(other.load(Ordering::SeqCst) == word));
        meet(rt, gate, 3 * round + 3);
    }
    same
}

/// Where two threads wait for each other, and the words that they were given.
#[derive(Drop)]
struct Meeting {
    gate: AtomicU64,
    one: AtomicU64,
    two: AtomicU64,
}

impl Meeting {
    fn new() -> Self {
        Meeting {
            gate: AtomicU64::new(0),
            one: AtomicU64::new(0),
            two: AtomicU64::new(0),
        }
    }
}

fn intern_in_two<S: SharedSet + Together + Send + Sync, R: Threads + Wait + Abort + Sync>(
    rt: &R,
    set: S,
    at: &Meeting,
) {
    let (left, right) = thread::join(
        rt,
        || set.intern_beside(rt, &at.gate, &at.one, &at.two),
        || set.intern_beside(rt, &at.gate, &at.two, &at.one),
    );
    assert_that(rt, left == 2_000 && right == 2_000);
    set.sweep(rt);
}

fn meet_at_one_text<S: SharedSet + Together + Send + Sync, R: Threads + Wait + Abort + Sync>(
    rt: &R,
    set: S,
) {
    intern_in_two(rt, set, &Meeting::new());
}

/// Of two threads that find a text absent one links it, and the other finds that entry.
#[test]
fn two_threads_at_one_new_text(rt: HostRuntime) {
    play_both(&rt, rt.alloc(), USUAL, Scene::OneText);
}
