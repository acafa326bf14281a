//! Texts of one bucket that go one by one, however many there are: each takes its entry along at once.

use super::numbered_atoms;
use crate::assert_for;
use std::process::Abort;
use std::sync::Wait;
use string_cache::{AtomKind, SetAtom, SharedSet};
use test_calls::links;

/// The order in which they go.
#[derive(Clone, Copy)]
enum Order {
    First,
    Last,
    Between,
}

/// How many there are: as nodes of four entries are filled, and as an index is made and laid out.
static COUNTS: [usize; 12] = [1, 2, 4, 5, 8, 9, 12, 13, 17, 33, 64, 130];

fn let_one_go<H: AtomKind>(atoms: &mut Vec<SetAtom<H>>, order: Order) {
    let count = atoms.len();
    if count > 0 {
        let at = match order {
            Order::First => 0,
            Order::Last => count - 1,
            Order::Between => count / 2,
        };
        drop(atoms.remove(at));
    }
}

/// Whether each takes its entry along.
fn go_one_by_one<S: SharedSet, R: Wait>(
    rt: &R,
    set: S,
    atoms: &mut Vec<SetAtom<S::Held>>,
    order: Order,
) -> bool {
    for _ in 0..atoms.len() {
        let_one_go(atoms, order);
        if !links(rt, set, atoms.len() as u128) {
            return false;
        }
    }
    atoms.is_empty()
}

/// Whether so many come and go in this order.
fn come_and_go<S: SharedSet, R: Wait + Abort>(rt: &R, set: S, count: usize, order: Order) -> bool {
    let mut atoms = numbered_atoms(rt, set, 0..count);
    links(rt, set, count as u128) && go_one_by_one(rt, set, &mut atoms, order)
}

/// They come and go in each order.
pub fn check<S: SharedSet, R: Wait + Abort>(rt: &R, set: S) {
    for count in &COUNTS {
        let count = *count;
        assert_for(rt, come_and_go(rt, set, count, Order::First), &count);
        assert_for(rt, come_and_go(rt, set, count, Order::Last), &count);
        assert_for(rt, come_and_go(rt, set, count, Order::Between), &count);
    }
}
