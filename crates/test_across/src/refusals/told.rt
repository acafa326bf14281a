//! Calls whose bytes a set reports: `gate/refusals/refused.py` compares what each of these tests prints with what the call asked for.

use crate::assert_that;
use crate::begun::new_set;
use std::alloc::Global;
use std::io::Print;
use std::process::Abort;
use std::sync::Wait;
use string_cache::dynamic_set::Set;
use string_cache::word::{Buckets, Limits};
use string_cache::{AtomList, EmptyStaticAtomSet, Fault};
use test_calls::{has_text, interned};
use test_refusals::{End, begin, finish};

/// A set without static texts.
type DefaultSet = Set<EmptyStaticAtomSet>;

/// Prints how many bytes the call asked for, as the set reports.
fn tell<R: Print>(rt: &R, bytes: u128) {
    let _ = println!(rt; "-- {bytes} bytes");
}

/// A set of 2 to the power of this many buckets is made.
fn make<R: Wait + Print + Abort>(rt: &R, alloc: Global, bits: u8) -> DefaultSet {
    let buckets = Buckets::new(bits).expect(rt, "bits");
    begin(rt);
    let set = Set::with_buckets(alloc, Limits::greatest(), buckets);
    finish(rt, End::Given);
    set.expect(rt, "a set")
}

#[test]
fn set_of_one_bucket(rt: HostRuntime) {
    let set = make(&rt, rt.alloc(), 0);
    tell(&rt, set.memory(&rt));
}

#[test]
fn set_of_most_buckets(rt: HostRuntime) {
    let set = make(&rt, rt.alloc(), 14);
    tell(&rt, set.memory(&rt));
}

/// The text is interned, and the set reports its bytes.
fn intern<R: Wait + Print + Abort>(rt: &R, set: &DefaultSet, text: &str) {
    let before = set.memory(rt);
    begin(rt);
    let atom = interned(rt, set, text);
    finish(rt, End::Given);
    tell(rt, set.memory(rt).saturating_sub(before));
    assert_that(rt, has_text(&atom.expect(rt, "an atom"), text));
}

#[test]
fn text_of_eight_bytes(rt: HostRuntime) {
    intern(&rt, &new_set(&rt, rt.alloc()), "interned");
}

#[test]
fn text_of_a_hundred_bytes(rt: HostRuntime) {
    let text = "a".repeat(rt.alloc(), 100).expect(&rt, "a text");
    intern(&rt, &new_set(&rt, rt.alloc()), &text);
}

/// The second text of a bucket has room in its node.
#[test]
fn second_text_of_a_node(rt: HostRuntime) {
    let set: DefaultSet = new_set(&rt, rt.alloc());
    let _first = interned(&rt, &set, "forgotten").expect(&rt, "an atom");
    intern(&rt, &set, "magnitude");
}

#[test]
fn short_text(rt: HostRuntime) {
    intern(&rt, &new_set(&rt, rt.alloc()), "short");
}

/// Pushes an inline text and a dynamic one that is there, in turn, up to four places.
fn push_four<R: Wait>(rt: &R, list: &mut AtomList<'_, EmptyStaticAtomSet>) -> Result<(), Fault> {
    for text in ["ab", "interned", "", "interned"] {
        list.push_str(rt, text)?;
    }
    Ok(())
}

/// Whether the list has four places once they are pushed. It asks for 16 bytes each.
fn has_four_places<R: Wait + Print>(rt: &R, list: &mut AtomList<'_, EmptyStaticAtomSet>) -> bool {
    begin(rt);
    let answer = push_four(rt, list);
    finish(rt, End::Given);
    tell(rt, 4 * 16);
    answer == Ok(()) && list.len() == 4
}

#[test]
fn list_of_four_places(rt: HostRuntime) {
    let set = new_set(&rt, rt.alloc());
    let atom = interned(&rt, &set, "interned").expect(&rt, "an atom");
    let mut list = AtomList::new(&set);
    assert_that(
        &rt,
        has_four_places(&rt, &mut list) && has_text(&atom, "interned"),
    );
}
