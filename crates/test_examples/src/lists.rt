//! Names in a list of a set's atoms.

use crate::assert_that;
use example_sets::list_names;
use std::process::Abort;
use std::sync::Wait;
use string_cache::dynamic_set::Set;
use string_cache::static_sets::EmptyStaticAtomSet;

/// Whether names are listed in order, one of them twice, and the set meanwhile has each of the two long ones once.
fn are_listed<R: Wait + Abort>(rt: &R, set: &Set<EmptyStaticAtomSet>) -> bool {
    let names = ["blockquote", "p", "Überschrift", "blockquote"];
    let list = list_names(rt, set, &names).expect(rt, "a list");
    list.len() == 4 && list.iter().eq(names.iter().copied()) && set.linked(rt) == 2
}

/// Whether this many names are listed.
fn is_listed<R: Wait + Abort>(rt: &R, set: &Set<EmptyStaticAtomSet>, names: &[&str]) -> bool {
    list_names(rt, set, names).expect(rt, "a list").len() == names.len()
}

#[test]
fn names_are_listed(rt: HostRuntime) {
    let set = Set::new(rt.alloc()).expect(&rt, "a set");
    assert_that(&rt, are_listed(&rt, &set));
    assert_that(&rt, is_listed(&rt, &set, &[]));
    assert_that(&rt, is_listed(&rt, &set, &["blockquote"; 70]));
    assert_that(&rt, set.linked(&rt) == 0);
}
