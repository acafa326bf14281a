//! Cells of a bucket that were left, since their last holders ended while another had its lock: each call that has it then takes out one of them,
//! or looks at sixteen places if several were left.
use crate::calls::{interned, links};
use crate::named_cells::{
    Named, Order, Words, are_found, hold, keep, leave, let_go_at, look, sweep, text_of,
};
use named_set::SetName;
use std::process::Abort;
use std::sync::Wait;

/// A cell that was left is linked still, and the next look takes it out, and no other.
pub fn one_is_left<N: SetName, R: Wait + Abort>(
    rt: &R,
    set: &Named<N>,
    count: usize,
    order: Order,
) -> bool {
    let mut words = hold(rt, set, count);
    let rest = count.saturating_sub(1);
    leave(rt, set, &mut words, order, rest);
    let is_linked = links(rt, set, count as u128);
    let is_out = look(rt, set, 1) && links(rt, set, rest as u128);
    is_linked && is_out && are_found(rt, set, words.as_slice())
}

/// The text of a cell that was left gets another cell.
pub fn left_comes_again<N: SetName, R: Wait + Abort>(rt: &R, set: &Named<N>) -> bool {
    let mut words = hold(rt, set, 40);
    leave(rt, set, &mut words, Order::First, 39);
    let again = hold(rt, set, 40);
    links(rt, set, 40) && are_found(rt, set, again.as_slice())
}

/// The end of another word takes out its own cell, and the next interning the one that was left.
pub fn one_goes_beside<N: SetName, R: Wait + Abort>(rt: &R, set: &Named<N>) -> bool {
    let mut words = hold(rt, set, 40);
    leave(rt, set, &mut words, Order::First, 39);
    keep(&mut words, Order::Last, 38);
    let is_linked = links(rt, set, 39);
    let held = interned(rt, set, "was never there").is_ok();
    is_linked && held && links(rt, set, 38)
}

/// Cells that two visits left are out once four calls have looked at sixteen places each, since there are 62.
pub fn two_are_left<N: SetName, R: Wait + Abort>(rt: &R, set: &Named<N>) -> bool {
    let mut words = hold(rt, set, 40);
    leave(rt, set, &mut words, Order::First, 39);
    leave(rt, set, &mut words, Order::Last, 38);
    let are_linked = links(rt, set, 40);
    let are_out = look(rt, set, 4) && links(rt, set, 38);
    are_linked && are_out && are_found(rt, set, words.as_slice())
}

fn has_at_least<N: SetName, R: Wait>(rt: &R, set: &Named<N>, count: u128) -> bool {
    set.linked(rt) >= count
}

/// Each call looks at sixteen of their 62 places, so that four see all.
pub fn many_are_left<N: SetName, R: Wait + Abort>(rt: &R, set: &Named<N>, order: Order) -> bool {
    let mut words = hold(rt, set, 40);
    leave(rt, set, &mut words, order, 20);
    let are_linked = links(rt, set, 40);
    let are_some_out = look(rt, set, 1) && has_at_least(rt, set, 24);
    let are_out = look(rt, set, 3) && links(rt, set, 20);
    are_linked && are_some_out && are_out && are_found(rt, set, words.as_slice())
}

/// Wherever one stands, so many calls take it out: one of 8 places, two of 18, and four of 62.
pub fn all_are_left<N: SetName, R: Wait + Abort>(
    rt: &R,
    set: &Named<N>,
    count: usize,
    calls: usize,
) -> bool {
    let mut words = hold(rt, set, count);
    leave(rt, set, &mut words, Order::First, 0);
    let are_linked = links(rt, set, count as u128);
    are_linked && look(rt, set, calls) && links(rt, set, 0)
}

/// Two calls have looked at the upper half of 62 places as more are left. Four look at all of them from there on.
pub fn are_left_anew<N: SetName, R: Wait + Abort>(rt: &R, set: &Named<N>) -> bool {
    let mut words = hold(rt, set, 40);
    leave(rt, set, &mut words, Order::First, 20);
    let is_begun = look(rt, set, 2);
    leave(rt, set, &mut words, Order::Between, 10);
    is_begun && look(rt, set, 4) && links(rt, set, 10) && are_found(rt, set, words.as_slice())
}

/// One text more.
fn hold_more<'s, N: SetName, R: Wait + Abort>(
    rt: &R,
    set: &'s Named<N>,
    words: &mut Words<'s, N>,
    text: &str,
) {
    let word = interned(rt, set, text).expect(rt, "a word");
    words.push(word).expect(rt, "room");
}

/// So many times two more texts come and are left.
fn leave_in_turns<'s, N: SetName, R: Wait + Abort>(
    rt: &R,
    set: &'s Named<N>,
    words: &mut Words<'s, N>,
    times: usize,
) {
    let count = words.len();
    for turn in 0..times {
        let text = text_of(rt, set.allocator(), turn.saturating_add(1_000));
        hold_more(rt, set, words, text.as_str());
        hold_more(rt, set, words, "comes again");
        leave(rt, set, words, Order::Last, count);
    }
}

/// However often two are left, each place has its turn, so that few more are linked than those that are held.
pub fn are_left_in_turns<N: SetName, R: Wait + Abort>(rt: &R, set: &Named<N>) -> bool {
    let mut words = hold(rt, set, 40);
    leave_in_turns(rt, set, &mut words, 500);
    let are_few = set.linked(rt) <= 50;
    are_few && are_found(rt, set, words.as_slice())
}

/// Cells that go meanwhile are no more to be looked at.
pub fn many_are_left_alone<N: SetName, R: Wait + Abort>(
    rt: &R,
    set: &Named<N>,
    order: Order,
) -> bool {
    let mut words = hold(rt, set, 40);
    leave(rt, set, &mut words, order, 20);
    let is_begun = look(rt, set, 1) && has_at_least(rt, set, 24);
    keep(&mut words, order, 0);
    is_begun && look(rt, set, 3) && links(rt, set, 0)
}

/// A sweep takes out all that were left.
pub fn many_are_swept<N: SetName, R: Wait + Abort>(rt: &R, set: &Named<N>, order: Order) -> bool {
    let mut words = hold(rt, set, 150);
    leave(rt, set, &mut words, order, 75);
    sweep(rt, set);
    links(rt, set, 75) && are_found(rt, set, words.as_slice())
}

/// Five texts more.
fn hold_five<'s, N: SetName, R: Wait + Abort>(rt: &R, set: &'s Named<N>) -> Words<'s, N> {
    let mut words = Vec::new(set.allocator());
    for text in &["first", "second", "third", "fourth", "fifth"] {
        hold_more(rt, set, &mut words, text);
    }
    words
}

/// With one more than 2,900 texts an index of 3,314 places is laid out over 5,802, while a call has looked at sixteen. Those behind it look at all
/// of these: 363 have sixteen each.
pub fn are_left_as_it_grows<N: SetName, R: Wait + Abort>(rt: &R, set: &Named<N>) -> bool {
    let mut words = hold(rt, set, 2_900);
    leave(rt, set, &mut words, Order::First, 2_700);
    let more = hold_five(rt, set);
    let are_out = look(rt, set, 363) && links(rt, set, 2_705);
    drop(more);
    are_out && are_found(rt, set, words.as_slice())
}

/// The first of the words goes, and the text of this number comes.
fn one_comes<'s, N: SetName, R: Wait + Abort>(
    rt: &R,
    set: &'s Named<N>,
    words: &mut Words<'s, N>,
    number: usize,
) {
    let text = text_of(rt, set.allocator(), number);
    let_go_at(words, 0);
    hold_more(rt, set, words, text.as_str());
}

/// So many texts come as others go, in turn.
pub fn take_turns<'s, N: SetName, R: Wait + Abort>(
    rt: &R,
    set: &'s Named<N>,
    words: &mut Words<'s, N>,
    times: usize,
) {
    for turn in 0..times {
        one_comes(rt, set, words, turn.saturating_add(20));
    }
}

/// An index has marks at some of its 34 or 40 places, once so many texts came as others went. As ten of twenty are left then, a call looks at the last
/// places. If the next one has the index laid out for its text, cells that weren't seen may stand where it had looked. Three calls look at all places.
pub fn are_left_as_it_is_laid_out<N: SetName, R: Wait + Abort>(
    rt: &R,
    set: &Named<N>,
    turns: usize,
) -> bool {
    let mut words = hold(rt, set, 20);
    take_turns(rt, set, &mut words, turns);
    leave(rt, set, &mut words, Order::First, 10);
    let is_begun = look(rt, set, 1);
    hold_more(rt, set, &mut words, "the next text");
    is_begun && look(rt, set, 3) && links(rt, set, 11) && are_found(rt, set, words.as_slice())
}

/// Behind the lowest places the same call looks at the highest ones: of 18 places two calls leave two.
pub fn looks_go_round<N: SetName, R: Wait + Abort>(rt: &R, set: &Named<N>) -> bool {
    let mut words = hold(rt, set, 16);
    leave(rt, set, &mut words, Order::First, 8);
    let is_begun = look(rt, set, 1);
    leave(rt, set, &mut words, Order::First, 0);
    is_begun && look(rt, set, 1) && set.linked(rt) <= 2
}
