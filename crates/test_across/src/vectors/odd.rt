//! Words that are odd, or of nothing, and tables that are odd.

use crate::begun::{intern, new_set, new_table};
use crate::{assert_for, assert_that};
use std::alloc::Global;
use string_cache::dynamic_set::Set;
use string_cache::static_sets::StaticAtomSet;
use string_cache::steps::World;
use string_cache::table::Table;
use string_cache::word::{Form, InlineText, Limits, form_of, ticket_word};
use string_cache::{Atom, DefaultAtom, EmptyStaticAtomSet, Fault};
use test_calls::has_word;
use test_samples::{Short, Twice};

/// Words with tags that no form has, a length above 7, bytes after the text, bytes that aren't UTF-8, low bits next to a static tag, and a ticket
/// without a serial.
static NO_WORDS: [u64; 11] = [
    0,
    3,
    6,
    0x05,
    0x81,
    0xff11,
    0x80_c021,
    0x80a0_ed31,
    0x3ffc,
    0x4000,
    0x7ffc,
];

/// Numbers and lengths that make no inline word.
static NOT_PACKED: [(u64, u8); 2] = [(0x80_c000, 2), (0xff00, 1)];

fn is_no_word(word: u64) -> bool {
    form_of(word).is_none()
}

fn is_not_packed(n: u64, len: u8) -> bool {
    DefaultAtom::pack_inline(n, len).is_none()
}

#[test]
fn words_of_nothing(rt: HostRuntime) {
    for word in &NO_WORDS {
        assert_for(&rt, is_no_word(*word), word);
    }
    for (n, len) in &NOT_PACKED {
        assert_for(&rt, is_not_packed(*n, *len), n);
    }
}

/// Whether the word is that of this inline text.
fn is_inline(word: u64, text: &str) -> bool {
    match InlineText::new(text) {
        Some(text) => form_of(word) == Some(Form::Inline(text)),
        None => false,
    }
}

fn is_static(word: u64, index: u32) -> bool {
    form_of(word) == Some(Form::Static(index))
}

fn is_ticket(word: u64, serial: u64, bucket: u16) -> bool {
    form_of(word) == Some(Form::Dynamic { serial, bucket })
}

#[test]
fn words_of_each_form(rt: HostRuntime) {
    assert_that(&rt, is_inline(0x1, "") && is_inline(0x71, "\0\0\0\0\0\0\0"));
    assert_that(&rt, is_static(0x2, 0));
    assert_that(
        &rt,
        is_ticket(0x1_0000, 1, 0) && is_ticket(0x1_fffc, 1, 16383),
    );
    assert_that(&rt, ticket_word(1, 4095) == 0x1_3ffc);
    assert_that(&rt, ticket_word(1, 16383) == 0x1_fffc);
    assert_that(
        &rt,
        ticket_word((1 << 48) - 1, 16383) == 0xffff_ffff_ffff_fffc,
    );
}

/// Holders and serials that limits can't have.
static OUT_OF_RANGE: [(u64, u64); 6] = [
    (0, 1),
    (1, 0),
    (1 << 63, 1),
    (1, 1 << 48),
    (1, 1 << 50),
    ((1 << 63) - 1, (1 << 50) - 1),
];

/// Holders and serials that limits can have.
static IN_RANGE: [(u64, u64); 3] = [(1, 1), (1, (1 << 48) - 1), ((1 << 63) - 1, (1 << 48) - 1)];

/// The holders and serials of limits that are made of these.
fn made_of(holders: u64, serials: u64) -> Option<(u64, u64)> {
    let limits = Limits::new(holders, serials)?;
    Some((limits.holders(), limits.serials()))
}

#[test]
fn limits_in_range(rt: HostRuntime) {
    for (holders, serials) in &OUT_OF_RANGE {
        assert_for(
            &rt,
            made_of(*holders, *serials).is_none(),
            &(holders, serials),
        );
    }
    for pair in &IN_RANGE {
        assert_for(&rt, made_of(pair.0, pair.1) == Some(*pair), pair);
    }
}

/// Whether the static text at this place has this atom.
fn is_packed<S: StaticAtomSet>(index: u32, atom: &Atom<'_, S>) -> bool {
    match Atom::<S>::pack_static(index) {
        Some(packed) => packed == *atom,
        None => false,
    }
}

/// Whether there is no atom of a static text at this place.
fn is_no_place<S: StaticAtomSet>(index: u32) -> bool {
    Atom::<S>::pack_static(index).is_none()
}

fn is_not_static<S: StaticAtomSet>(text: &str) -> bool {
    Atom::<S>::try_static(text).is_none()
}

/// Whether the atom is that of the static text at the first place, whose hash is 1.
fn is_at_first<S: StaticAtomSet>(atom: &Atom<'_, S>) -> bool {
    atom.is_static() && atom.unsafe_data() == 2 && atom.get_hash() == 1 && is_packed(0, atom)
}

/// By OpenSSL's SipHash f2 of "sentence" is 0x56e93a5c, so its place among two is 0.
#[test]
fn text_listed_twice(rt: HostRuntime) {
    let set: Set<Twice> = new_set(&rt, rt.alloc());
    assert_that(&rt, is_at_first(&intern(&rt, &set, "sentence")));
    assert_that(&rt, is_no_place::<Twice>(1));
}

#[test]
fn short_text_in_tables(rt: HostRuntime) {
    let set: Set<Short> = new_set(&rt, rt.alloc());
    assert_that(&rt, has_word(&intern(&rt, &set, "short"), 0x7472_6f68_7351));
    assert_that(
        &rt,
        is_not_static::<Short>("short") && is_no_place::<Short>(0),
    );
}

/// The number of replies that the table gives to no calls.
fn replies_to_none(table: &mut Table<EmptyStaticAtomSet>) -> Option<usize> {
    match table.run(&[]) {
        Ok(replies) => Some(replies.len()),
        Err(_) => None,
    }
}

/// The number of replies that a new world appends for no steps.
fn replies_of_world(alloc: Global) -> Result<usize, Fault> {
    let mut world = World::<EmptyStaticAtomSet>::new(alloc, Limits::greatest())?;
    let mut replies = Vec::new(alloc);
    world.run(&[], &mut replies)?;
    Ok(replies.len())
}

#[test]
fn empty_lists(rt: HostRuntime) {
    assert_that(
        &rt,
        replies_to_none(&mut new_table(&rt, rt.alloc())) == Some(0),
    );
    assert_that(&rt, replies_of_world(rt.alloc()) == Ok(0));
}
