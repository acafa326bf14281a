//! What the programs that compare two texts over a set with a name say, even about long ones, and how many tickets they spend.
ghost use Rattle.std.specs.Prelude.{◌≡◌};

use crate::assert_that;
use example_named::{are_one_name, are_one_word};
use named_set::{FreshName, NamedSet, SetName};
use std::alloc::Global;
use std::marker::Brand;
use std::process::Abort;
use std::sync::Wait;
use test_samples::One;
use text_forms::Fault;
use text_forms::word::{Buckets, Limits};

/// Threads get one word for one text, and two for two.
#[test]
fn threads_agree(rt: HostRuntime) {
    let long = "Größe, 長さ 🦀"
        .repeat(rt.alloc(), 100_000)
        .expect(&rt, "a text");
    let short = String::from_str(rt.alloc(), "Größe").expect(&rt, "a text");
    assert_that(
        &rt,
        are_one_word(&rt, rt.alloc(), &long, &long).expect(&rt, "an answer"),
    );
    assert_that(
        &rt,
        !are_one_word(&rt, rt.alloc(), &long, &short).expect(&rt, "an answer"),
    );
    assert_that(
        &rt,
        are_one_word(&rt, rt.alloc(), &short, &short).expect(&rt, "an answer"),
    );
}

/// Whether the names are said to be one, or two, and nothing of them stays.
fn says<N: SetName, R: Wait>(
    rt: &R,
    set: &NamedSet<One, N>,
    left: &str,
    right: &str,
    wanted: bool,
) -> bool {
    are_one_name(rt, set, left, right) == Ok(wanted) && set.linked(rt) == 0
}

/// More than 64 bytes.
const LONG: &str = "Größenordnungen, über die niemand spricht, und solche, über die einer spricht";

/// Asks it of a set whose only bucket has two tickets.
fn ask<N: SetName, R: Wait + Abort>(rt: &R, set: &NamedSet<One, N>) {
    assert_that(rt, says(rt, set, "foo", "sentence", false));
    assert_that(rt, says(rt, set, "sentence", "sentence", true));
    assert_that(rt, says(rt, set, LONG, LONG, true));
    assert_that(rt, says(rt, set, "foo", "tokenised", false));
    assert_that(rt, says(rt, set, "Öl", "Öl", true));
    assert_that(rt, says(rt, set, "Öl", "", false));
    assert_that(
        rt,
        are_one_name(rt, set, "interned", "foo") == Err(Fault::TicketsSpent),
    );
}

/// The same, for the set with this name.
fn ask_as<N: SetName, R: Wait + Abort>(rt: &R, alloc: Global, name: FreshName)
    requires { N.logs ≡ name.logs }
{
    let limits = Limits::new(2, 2).expect(rt, "limits");
    let set = NamedSet::new(alloc, name, limits).expect(rt, "a set");
    ask::<N, R>(rt, &set);
}

/// The same, for a new set.
fn ask_new<R: Wait + Abort>(rt: &R, alloc: Global) {
    let buckets = Buckets::new(0).expect(rt, "bits");
    let name = FreshName::new(alloc, buckets).expect(rt, "a name");
    ask_as::<Brand, R>(rt, alloc, name);
}

/// Each text is interned once: of a bucket's two tickets, the first goes to one text twice, and the second to one next to a short one.
#[test]
fn names_spend_one_ticket(rt: HostRuntime) {
    ask_new(&rt, rt.alloc());
}
