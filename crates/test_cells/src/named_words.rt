//! Words of a set with a name: found again while a cell is left, cloned in a visit, in buckets beyond the first 255, and by a single try.
ghost use Rattle.std.specs.Prelude.{◌≡◌, true};

use crate::assert_that;
use crate::calls::{are_one, cloned, found, interned, links};
use crate::named_cells::{Named, Order, hold, leave, text_of};
use named_set::{FreshName, Held, SetName};
use std::alloc::Global;
use std::marker::Brand;
use std::process::Abort;
use std::sync::Wait;
use text_forms::Fault;
use text_forms::static_sets::{EmptyStaticAtomSet, StaticTables};
use text_forms::word::{Buckets, Limits};

type Word<'s, N> = Held<'s, EmptyStaticAtomSet, N>;

/// What is asked of a set.
#[derive(Clone, Copy)]
enum Question {
    /// A cell that was left goes as another's text is looked up by its word.
    FoundBeside,
    /// A word is cloned while a visit has the lock of its bucket, and is refused a third holder there.
    Cloned,
    /// A word of each of many buckets is found again, and cloned.
    Late,
    /// A single try where there is no limit.
    Tried,
}

impl Question {
    fn bits(self) -> u8 {
        match self {
            Question::Late => 14,
            _ => 0,
        }
    }

    fn limits(self) -> Option<Limits> {
        match self {
            Question::Cloned => Limits::new(2, 20),
            _ => Some(Limits::greatest()),
        }
    }
}

fn is_again<N: SetName, R: Wait>(rt: &R, set: &Named<N>, held: &Word<'_, N>) -> bool {
    match set.find_held(rt, held) {
        Ok(again) => are_one(&again, held),
        Err(_) => false,
    }
}

/// The look-up of a word that is held takes out the cell that was left.
fn found_beside<N: SetName, R: Wait + Abort>(rt: &R, set: &Named<N>) -> bool {
    let mut words = hold(rt, set, 40);
    leave(rt, set, &mut words, Order::First, 39);
    let is_linked = links(rt, set, 40);
    let is_again = match words.get(0) {
        Some(word) => is_again(rt, set, word),
        None => false,
    };
    is_linked && is_again && links(rt, set, 39)
}

/// Whether there is a second holder, and no third.
fn has_two<N: SetName, R: Wait>(rt: &R, held: &Word<'_, N>) -> bool {
    match cloned(rt, held) {
        Ok(second) => matches!(cloned(rt, &second), Err(Fault::FullCount)),
        Err(_) => false,
    }
}

/// A clone takes no lock, also one that is refused.
fn clones_in_a_visit<N: SetName, R: Wait + Abort>(rt: &R, set: &Named<N>) -> bool {
    let held = interned(rt, set, "interned").expect(rt, "a word");
    let mut is_cloned = false;
    set.for_each(rt, |_, _| is_cloned = has_two(rt, &held));
    is_cloned
}

fn is_cloned<N: SetName, R: Wait>(rt: &R, held: &Word<'_, N>) -> bool {
    match cloned(rt, held) {
        Ok(clone) => are_one(&clone, held),
        Err(_) => false,
    }
}

/// Each of so many words is found again, and cloned.
fn are_late<N: SetName, R: Wait + Abort>(rt: &R, set: &Named<N>) -> bool {
    let words = hold(rt, set, 2_000);
    for word in words.iter() {
        if !(is_again(rt, set, word) && is_cloned(rt, word)) {
            return false;
        }
    }
    true
}

/// A single try gives a second holder.
fn is_tried<N: SetName, R: Wait + Abort>(rt: &R, set: &Named<N>) -> bool {
    let held = interned(rt, set, "interned").expect(rt, "a word");
    let (_, cell) = held.into_parts();
    cell.try_clone_held(cell.permit()).is_ok()
}

fn is_answered<N: SetName, R: Wait + Abort>(rt: &R, set: &Named<N>, question: Question) -> bool {
    match question {
        Question::FoundBeside => found_beside(rt, set),
        Question::Cloned => clones_in_a_visit(rt, set),
        Question::Late => are_late(rt, set),
        Question::Tried => is_tried(rt, set),
    }
}

fn is_so_as<N: SetName, R: Wait + Abort>(
    rt: &R,
    alloc: Global,
    name: FreshName,
    question: Question,
) -> bool
    requires { N.logs ≡ name.logs }
{
    let limits = question.limits().expect(rt, "limits");
    let set = Named::<N>::new(alloc, name, limits).expect(rt, "a set");
    is_answered::<N, R>(rt, &set, question)
}

/// Whether it is so of a new set.
fn is_so<R: Wait + Abort>(rt: &R, alloc: Global, question: Question) -> bool {
    let count = Buckets::new(question.bits()).expect(rt, "a number");
    let name = FreshName::new(alloc, count).expect(rt, "a name");
    is_so_as::<Brand, R>(rt, alloc, name, question)
}

#[test]
fn cell_that_was_left_goes_as_another_is_found_again(rt: HostRuntime) {
    assert_that(&rt, is_so(&rt, rt.alloc(), Question::FoundBeside));
}

#[test]
fn words_are_cloned_in_a_visit(rt: HostRuntime) {
    assert_that(&rt, is_so(&rt, rt.alloc(), Question::Cloned));
}

#[test]
fn words_of_late_buckets_are_found_again(rt: HostRuntime) {
    assert_that(&rt, is_so(&rt, rt.alloc(), Question::Late));
}

#[test]
fn single_try_without_a_limit(rt: HostRuntime) {
    assert_that(&rt, is_so(&rt, rt.alloc(), Question::Tried));
}
