//! Lists of many places.

use super::{Scene, has_at, play_both};
use crate::assert_that;
use crate::sets::USUAL;
use std::alloc::Global;
use std::process::Abort;
use std::sync::Wait;
use string_cache::{Fault, ListOf, SetList, SharedSet};
use test_calls::{cloned_at, has_text, links, push};

/// Pushes the text of a number, made in `out`: dynamic, each with a letter beyond ASCII.
fn push_number<S: SharedSet, R: Wait>(
    rt: &R,
    list: &mut SetList<S>,
    out: &mut String,
    number: u32,
) -> Result<(), Fault> {
    out.clear();
    write!(out, "Nummer für {number}")?;
    push(rt, list, out)
}

/// Pushes the texts of these numbers.
fn push_numbers<S: SharedSet, R: Wait + Abort>(rt: &R, list: &mut SetList<S>, alloc: Global) {
    let mut text = String::new(alloc);
    for number in 0..MANY {
        push_number(rt, list, &mut text, number).expect(rt, "a place");
    }
}

/// More places than 16 bits count.
const MANY: u32 = 70_001;

/// A list of the texts of numbers.
fn long_list<S: SharedSet, R: Wait + Abort>(rt: &R, set: S) -> SetList<S> {
    let mut list = ListOf::new(set);
    push_numbers(rt, &mut list, set.allocator());
    list
}

/// Whether the list has this text at this place, and a clone of it does.
fn has_and_clones<S: SharedSet, R: Wait>(rt: &R, list: &SetList<S>, at: usize, text: &str) -> bool {
    match cloned_at(rt, list, at) {
        Ok(Some(atom)) => has_text(&atom, text) && has_at(list, at, text),
        _ => false,
    }
}

/// Whether the list's texts tell how many they are.
fn tells_many<S: SharedSet>(list: &SetList<S>) -> bool {
    list.iter().len() == 70_001 && list.iter().size_hint() == (70_001, Some(70_001))
}

/// Whether a list of many texts has the last of them and one between.
fn is_long<S: SharedSet, R: Wait>(rt: &R, list: &SetList<S>) -> bool {
    has_and_clones(rt, list, 65_536, "Nummer für 65536")
        && has_and_clones(rt, list, 70_000, "Nummer für 70000")
        && list.iter().last() == Some("Nummer für 70000")
}

pub fn find_in_long_list<S: SharedSet, R: Wait + Abort>(rt: &R, set: S) {
    let list = long_list(rt, set);
    assert_that(rt, list.len() == 70_001 && links(rt, set, 70_001));
    assert_that(rt, is_long(rt, &list) && tells_many(&list));
}

#[test]
fn long_list_gives_all_back(rt: HostRuntime) {
    play_both(&rt, rt.alloc(), USUAL, Scene::LongList);
}

pub fn clear_long_list<S: SharedSet, R: Wait + Abort>(rt: &R, set: S) {
    let mut list = long_list(rt, set);
    list.clear();
    assert_that(rt, list.is_empty() && links(rt, set, 0));
    push(rt, &mut list, "interned").expect(rt, "a place");
    assert_that(rt, has_at(&list, 0, "interned") && list.len() == 1);
}

#[test]
fn long_list_is_cleared(rt: HostRuntime) {
    play_both(&rt, rt.alloc(), USUAL, Scene::LongListCleared);
}

/// More places than 20 bits count.
const MILLION: usize = 1_050_000;

/// A list of one inline text at many places.
fn list_of_places<S: SharedSet, R: Wait + Abort>(rt: &R, set: S) -> SetList<S> {
    let mut list = ListOf::new(set);
    for _ in 0..MILLION {
        push(rt, &mut list, "a").expect(rt, "a place");
    }
    list
}

pub fn fill_million_places<S: SharedSet, R: Wait + Abort>(rt: &R, set: S) {
    let mut list = list_of_places(rt, set);
    assert_that(rt, list.len() == MILLION && has_at(&list, MILLION - 1, "a"));
    list.truncate(1);
    assert_that(rt, list.len() == 1);
}

#[test]
fn million_places_are_filled(rt: HostRuntime) {
    play_both(&rt, rt.alloc(), USUAL, Scene::MillionPlaces);
}
