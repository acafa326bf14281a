//! Texts of packed static types that are found, and others. The places and hashes of names are those of a separate program, which was written in
//! Python from the definitions.

use crate::{assert_for, assert_that};
use std::alloc::{AllocError, Global};
use std::process::Abort;
use string_cache::Atom;
use string_cache::static_sets::{StaticTables, are_perfect, static_text};
use string_cache::word::static_word;
use test_packed::dishes::Dishes;
use test_packed::elements::Elements;
use test_packed::misplaced::Misplaced;

// These say nothing about what they do, so that each test is proved in a moment.

/// Whether the text is static, at this index.
fn is_at<S: StaticTables>(text: &str, index: u32) -> bool {
    match Atom::<S>::try_static(text) {
        Some(atom) => atom.unsafe_data() == static_word(index) && atom.as_str() == text,
        None => false,
    }
}

fn is_static<S: StaticTables>(text: &str) -> bool {
    Atom::<S>::try_static(text).is_some()
}

/// Whether the atom at this index has the text and the hash.
fn lists<S: StaticTables>(index: u32, text: &str, hash: u64) -> bool {
    match Atom::<S>::pack_static(index) {
        Some(atom) => atom.as_str() == text && atom.get_hash() == hash,
        None => false,
    }
}

fn has_text<S: StaticTables>(index: u32) -> bool {
    static_text::<S>(index).is_some()
}

/// Checks that a static type is perfect, has this many texts, and those of the rows at their indices, with their hashes.
fn check_listed<S: StaticTables>(rt: &impl Abort, count: u32, rows: &[(u32, &str, u64)]) {
    assert_that(rt, are_perfect::<S>() && S::count() == count);
    for (index, text, hash) in rows {
        assert_for(
            rt,
            is_at::<S>(text, *index) && lists::<S>(*index, text, *hash),
            text,
        );
    }
}

static DISHES: [(u32, &str, u64); 5] = [
    (0, "minestrone", 0x89ec_7cae_c7b8_7cfe),
    (1, "味噌汁", 0xa6f9_169d_0958_f636),
    (2, "soup \"du jour\" \\ bread", 0xa88f_6f8b_8dd4_70e4),
    (3, "שקשוקה", 0xb0b2_6c73_dee3_0b7c),
    (4, "café au lait", 0x8112_8fc1_8b9c_cd76),
];

/// Names in several scripts.
#[test]
fn dishes_are_static(rt: HostRuntime) {
    check_listed::<Dishes>(&rt, 5, &DISHES);
    assert_that(
        &rt,
        !is_static::<Dishes>("minestrones") && !is_static::<Dishes>("味噌"),
    );
    assert_that(&rt, !is_static::<Dishes>("") && !has_text::<Dishes>(5));
}

/// Whether the name of an element with this number is static.
fn is_element(alloc: Global, number: u32) -> Result<bool, AllocError> {
    let name = format!(in alloc; "name_of_element_{number}")?;
    Ok(is_static::<Elements>(name.as_str()))
}

static ELEMENTS: [(u32, &str, u64); 3] = [
    (0, "name_of_element_756", 0xbc35_0901_271a_74f3),
    (500, "name_of_element_932", 0x1fdb_45ed_82b7_507a),
    (999, "name_of_element_232", 0xb9c3_8e80_b32b_6760),
];

/// A thousand names.
#[test]
fn elements_are_static(rt: HostRuntime) {
    check_listed::<Elements>(&rt, 1_000, &ELEMENTS);
    for number in 0..1_001 {
        assert_for(
            &rt,
            is_element(rt.alloc(), number) == Ok(number < 1_000),
            &number,
        );
    }
}

/// Texts that are at each other's place are listed, and not static.
#[test]
fn misplaced_texts_are_not_static(rt: HostRuntime) {
    assert_that(&rt, !are_perfect::<Misplaced>());
    assert_that(
        &rt,
        !is_static::<Misplaced>("sentence") && !is_static::<Misplaced>("interned"),
    );
    assert_that(&rt, !has_text::<Misplaced>(0) && !has_text::<Misplaced>(1));
}
