//! Long texts beyond ASCII in the index of a bucket: each is found there, and goes with its last holder, as a short one does.
use crate::calls::interned;
use crate::named_cells::{Named, Order, Words, are_found, bytes_of_places, let_go_to, takes};
use named_set::SetName;
use std::alloc::Global;
use std::process::Abort;
use std::sync::Wait;

/// The bytes of a cell with such a text: 32 before it, and 2,107 of the text, rounded up to eights.
const LONG_CELL: u128 = 32 + 2_112;

/// A text of 2,100 bytes and seven digits.
fn long_text_of(rt: &impl Abort, alloc: Global, number: usize) -> String {
    let start = "Größe, 長さ, 🦀".repeat(alloc, 100).expect(rt, "a text");
    format!(in alloc; "{start}{number:07}").expect(rt, "a text")
}

fn hold_long<'s, N: SetName, R: Wait + Abort>(
    rt: &R,
    set: &'s Named<N>,
    count: usize,
) -> Words<'s, N> {
    let mut words = Vec::new(set.allocator());
    for number in 0..count {
        let text = long_text_of(rt, set.allocator(), number);
        let word = interned(rt, set, text.as_str()).expect(rt, "a word");
        words.push(word).expect(rt, "room");
    }
    words
}

/// Whether so many are in an index of so many places, and each takes its cell along.
pub fn long_texts_come_and_go<N: SetName, R: Wait + Abort>(
    rt: &R,
    set: &Named<N>,
    count: usize,
    places: u128,
    order: Order,
) -> bool {
    let empty = set.memory(rt);
    let mut words = hold_long(rt, set, count);
    let cells = (count as u128).saturating_mul(LONG_CELL);
    let bytes = bytes_of_places(places).saturating_add(cells);
    let are_there = takes(rt, set, empty, bytes) && are_found(rt, set, words.as_slice());
    are_there && let_go_to(rt, set, &mut words, order, 0)
}
