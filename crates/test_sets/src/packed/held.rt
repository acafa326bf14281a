//! Sets, tables and worlds of packed static types.

use crate::assert_that;
use crate::samples::{has_linked, intern, new_set};
use std::alloc::Global;
use std::process::Abort;
use std::sync::Wait;
use string_cache::Fault;
use string_cache::static_sets::StaticTables;
use string_cache::steps::{Step, StepReply, World};
use string_cache::table::Table;
use string_cache::word::{Limits, static_word};
use test_calls::has_text;
use test_packed::dishes::Dishes;
use test_packed::elements::Elements;
use test_packed::misplaced::Misplaced;
use test_samples::keys;

// These say nothing about what they do, so that each test is proved in a moment. They take any static type, since the borrow checker doesn't cover a
// function that names a set, an atom or a table of a packed type.

/// Whether an atom of the text is static, and links nothing in a set of its own.
fn is_static<S: StaticTables>(rt: &(impl Wait + Abort), alloc: Global, text: &str) -> bool {
    let set = new_set::<S>(rt, alloc);
    let atom = intern(rt, &set, text);
    atom.is_static() && has_text(&atom, text) && has_linked(rt, &set, 0)
}

/// Whether an atom of the text is dynamic, and the one that its set links.
fn is_linked<S: StaticTables>(rt: &(impl Wait + Abort), alloc: Global, text: &str) -> bool {
    let set = new_set::<S>(rt, alloc);
    let atom = intern(rt, &set, text);
    atom.is_dynamic() && has_text(&atom, text) && has_linked(rt, &set, 1)
}

#[test]
fn sets_link_what_is_not_listed(rt: HostRuntime) {
    let alloc = rt.alloc();
    assert_that(
        &rt,
        is_static::<Elements>(&rt, alloc, "name_of_element_999"),
    );
    assert_that(
        &rt,
        is_linked::<Elements>(&rt, alloc, "name_of_element_1000"),
    );
    assert_that(&rt, is_static::<Dishes>(&rt, alloc, "שקשוקה"));
    assert_that(&rt, is_linked::<Misplaced>(&rt, alloc, "sentence"));
}

fn new_table<Static: StaticTables>(rt: &impl Abort, alloc: Global) -> Table<Static> {
    let keys = keys(1).expect(rt, "keys");
    Table::new(alloc, keys).expect(rt, "a table")
}

/// Whether the table interns the text as this word, has it as the word's text, and holds nothing.
fn interns<S: StaticTables>(table: &mut Table<S>, text: &str, word: u64) -> bool {
    if table.intern(text) != Ok(word) {
        return false;
    }
    match table.text(word) {
        Some(own) => own == text && table.entries() == 0,
        None => false,
    }
}

/// Whether a table of its own gives the text this word, and holds nothing.
fn gives<S: StaticTables>(rt: &impl Abort, alloc: Global, text: &str, word: u64) -> bool {
    interns(&mut new_table::<S>(rt, alloc), text, word)
}

/// Whether the table holds this many texts once it has this one.
fn has_then<S: StaticTables>(table: &mut Table<S>, text: &str, number: usize) -> bool {
    table.intern(text).is_ok() && table.entries() == number
}

/// Whether a table of its own then holds this many.
fn holds<S: StaticTables>(rt: &impl Abort, alloc: Global, text: &str, number: usize) -> bool {
    has_then(&mut new_table::<S>(rt, alloc), text, number)
}

#[test]
fn tables_hold_what_is_not_listed(rt: HostRuntime) {
    let alloc = rt.alloc();
    assert_that(&rt, gives::<Dishes>(&rt, alloc, "味噌汁", static_word(1)));
    assert_that(&rt, holds::<Dishes>(&rt, alloc, "味噌汁", 0));
    assert_that(&rt, holds::<Dishes>(&rt, alloc, "minestrones", 1));
    assert_that(&rt, holds::<Misplaced>(&rt, alloc, "sentence", 1));
}

/// What a world replies to a party that would intern the text.
fn starts<S: StaticTables>(alloc: Global, text: &str) -> Result<StepReply, Fault> {
    let mut world = World::<S>::new(alloc, Limits::greatest())?;
    world.step(0, Step::TakeIntern(String::from_str(alloc, text)?))
}

#[test]
fn worlds_intern_what_is_not_listed(rt: HostRuntime) {
    assert_that(
        &rt,
        starts::<Dishes>(rt.alloc(), "minestrone") == Ok(StepReply::No),
    );
    assert_that(
        &rt,
        starts::<Dishes>(rt.alloc(), "minestrones") == Ok(StepReply::Taken),
    );
    assert_that(
        &rt,
        starts::<Misplaced>(rt.alloc(), "sentence") == Ok(StepReply::Taken),
    );
}
