//! Shares with their set that are cloned by a single try.

ghost use Rattle.std.specs.Prelude.{◌≡◌, true};

use crate::assert_that;
use crate::samples::{default_set, limited_set};
use std::process::Abort;
use std::sync::Wait;
use string_cache::dynamic_set;
use string_cache::static_sets::EmptyStaticAtomSet;
use test_calls::{DefaultSet, hash_of, links};

/// A share of a text's entry, with its set.
type Held<'s> = dynamic_set::Held<'s, EmptyStaticAtomSet>;

/// Whether the third share is of the text and the first one's entry, and a single try gives no further one exactly if there may be three.
fn is_third(first: &Held<'_>, third: &Held<'_>, text: &str, is_full: bool) -> bool
    requires { first.now.name.grows ≡ true }
{
    first.try_clone_share(first.permit()).is_err() == is_full
        && third.text() == text
        && third.ticket() == first.ticket()
}

/// Whether a single try gives a third share after the first and the second, and then none if there may be three.
fn has_third(first: &Held<'_>, second: &Held<'_>, text: &str, is_full: bool) -> bool
    requires { (first.now.name.grows ≡ true) × (second.now.name.grows ≡ true) }
{
    match second.try_clone_share(second.permit()) {
        Ok(third) => is_third(first, &third, text, is_full),
        Err(_) => false,
    }
}

fn has_second(first: &Held<'_>, text: &str, is_full: bool) -> bool
    requires { first.now.name.grows ≡ true }
{
    match first.try_clone_share(first.permit()) {
        Ok(second) => has_third(first, &second, text, is_full),
        Err(_) => false,
    }
}

/// Whether a single try gives a share of the text's entry while it has fewer than three holders, and then none if it may have three.
fn tries<R: Wait>(rt: &R, set: &DefaultSet, text: &str, is_full: bool) -> bool {
    match set.intern_hashed(rt, text, hash_of::<EmptyStaticAtomSet>(text)) {
        Ok(first) => has_second(&first, text, is_full),
        Err(_) => false,
    }
}

fn tries_long<R: Wait + Abort>(rt: &R, set: &DefaultSet, is_full: bool) -> bool {
    let long = "interned ".repeat(set.allocator(), 30_000);
    tries(rt, set, &long.expect(rt, "a text"), is_full)
}

/// Single tries in a set, of which nothing stays.
fn check_tries<R: Wait + Abort>(rt: &R, set: &DefaultSet, is_full: bool) {
    assert_that(rt, tries(rt, set, "interned", is_full));
    assert_that(rt, tries(rt, set, "tokenised ü", is_full));
    assert_that(rt, tries_long(rt, set, is_full));
    assert_that(rt, links(rt, set, 0));
}

/// While no other thread changes the count, a single try succeeds below the limit, and each share that it gives goes.
#[test]
fn single_tries_of_held_shares(rt: HostRuntime) {
    check_tries(&rt, &limited_set(&rt, rt.alloc(), 3, 10), true);
    check_tries(&rt, &default_set(&rt, rt.alloc()), false);
}
