//! Sets and their atoms: a call that is made again gives the ticket that it would have given the first time.

use crate::assert_that;
use crate::begun::{intern, intern_all, new_set};
use serde_json::Value;
use std::alloc::Global;
use std::borrow::CowStr;
use std::io::Print;
use std::process::Abort;
use std::sync::Wait;
use string_cache::dynamic_set::Set;
use string_cache::word::{Buckets, Limits};
use string_cache::{DefaultAtom, EmptyStaticAtomSet, Fault};
use test_calls::{
    interned, interned_cow, interned_owned, is_of, json_of, links, lowered, raised, read_json,
};
use test_refusals::{at_last, begin, finishes_refused};

/// The first ticket of "interned": its bucket is 0x210, the low bits of its SipHash by OpenSSL.
const FIRST: u64 = 0x1_0840;

fn has_greatest_limits(set: &Set<EmptyStaticAtomSet>) -> bool {
    set.limits() == Limits::greatest()
}

#[test]
fn set_is_made(rt: HostRuntime) {
    let alloc = rt.alloc();
    let set: Set<EmptyStaticAtomSet> = at_last(&rt, || Set::new(alloc)).expect(&rt, "an answer");
    assert_that(&rt, has_greatest_limits(&set));
    assert_that(&rt, links(&rt, &set, 0));
    assert_that(
        &rt,
        is_of(&intern(&rt, &set, "interned"), FIRST, "interned"),
    );
}

/// The atom of a text. A call that is refused memory is made again.
fn interned_at_last<'s, R: Wait + Print>(
    rt: &R,
    set: &'s Set<EmptyStaticAtomSet>,
    text: &str,
) -> Result<DefaultAtom<'s>, Fault> {
    begin(rt);
    let answer = interned(rt, set, text);
    if finishes_refused(rt, &answer) {
        return interned(rt, set, text);
    }
    answer
}

/// Texts that are in the bucket of one that goes.
static OTHERS: [&str; 4] = ["tokenised", "sentence", "repeated", "forgotten"];

fn set_of_one_bucket<R: Abort>(rt: &R, alloc: Global) -> Set<EmptyStaticAtomSet> {
    let buckets = Buckets::new(0).expect(rt, "bits");
    Set::with_buckets(alloc, Limits::greatest(), buckets).expect(rt, "a set")
}

/// The atoms of the others, whose bucket's oldest text came before them and is gone.
fn behind_the_oldest<'s, R: Wait + Abort>(
    rt: &R,
    set: &'s Set<EmptyStaticAtomSet>,
) -> Vec<DefaultAtom<'s>> {
    let _oldest = intern(rt, set, "interned");
    intern_all(rt, set, &OTHERS)
}

/// Whether a sixth text has its ticket in addition to the others.
fn finds_room<R: Wait + Print + Abort>(
    rt: &R,
    set: &Set<EmptyStaticAtomSet>,
    others: &[DefaultAtom<'_>],
) -> bool {
    let atom = interned_at_last(rt, set, "magnitude").expect(rt, "an answer");
    is_of(&atom, 0x6_0000, "magnitude") && links(rt, set, 5) && others.len() == 4
}

/// In a set of one bucket: five texts are in two nodes, and once the oldest is gone the newer node has room for a sixth.
#[test]
fn text_finds_room_in_a_node(rt: HostRuntime) {
    let set = set_of_one_bucket(&rt, rt.alloc());
    let others = behind_the_oldest(&rt, &set);
    assert_that(&rt, finds_room(&rt, &set, &others));
}

fn owned<R: Abort>(rt: &R, alloc: Global, text: &str) -> String {
    String::from_str(alloc, text).expect(rt, "a text")
}

/// The atom of an owned text, made from a second one if the call for the first is refused memory.
fn owned_at_last<'s, R: Wait + Print + Abort>(
    rt: &R,
    set: &'s Set<EmptyStaticAtomSet>,
    first: String,
    second: &str,
) -> Result<DefaultAtom<'s>, Fault> {
    begin(rt);
    let answer = interned_owned(rt, set, first);
    if finishes_refused(rt, &answer) {
        return interned_owned(rt, set, owned(rt, set.allocator(), second));
    }
    answer
}

/// The atom of a text that may be owned, made from a borrowed one if the call for the first is refused memory.
fn cow_at_last<'s, R: Wait + Print>(
    rt: &R,
    set: &'s Set<EmptyStaticAtomSet>,
    first: CowStr<'_>,
    second: &str,
) -> Result<DefaultAtom<'s>, Fault> {
    begin(rt);
    let answer = interned_cow(rt, set, first);
    if finishes_refused(rt, &answer) {
        return interned_cow(rt, set, CowStr::Borrowed(second));
    }
    answer
}

/// The atom of the text in upper case. A call that is refused memory is made again.
fn upper_at_last<'s, R: Wait + Print>(
    rt: &R,
    set: &'s Set<EmptyStaticAtomSet>,
    atom: &DefaultAtom<'s>,
) -> Result<DefaultAtom<'s>, Fault> {
    begin(rt);
    let answer = raised(rt, set, atom);
    if finishes_refused(rt, &answer) {
        return raised(rt, set, atom);
    }
    answer
}

/// Whether the atom in lower case is this other one.
fn is_lowered<R: Wait>(
    rt: &R,
    set: &Set<EmptyStaticAtomSet>,
    upper: &DefaultAtom<'_>,
    atom: &DefaultAtom<'_>,
) -> bool {
    match lowered(rt, set, upper) {
        Ok(lower) => lower == *atom,
        Err(_) => false,
    }
}

/// Whether the atom of a text in upper case has this word and this text, and both are linked. In lower case it is again that of the text.
fn is_put_into_upper_case<R: Wait + Print + Abort>(
    rt: &R,
    set: &Set<EmptyStaticAtomSet>,
    text: &str,
    word: u64,
    wanted: &str,
) -> bool {
    let atom = intern(rt, set, text);
    let upper = upper_at_last(rt, set, &atom).expect(rt, "an atom");
    is_of(&upper, word, wanted) && is_lowered(rt, set, &upper, &atom) && links(rt, set, 2)
}

/// By OpenSSL's SipHash the bucket of "INTERNED" is 0xae6.
#[test]
fn text_is_put_into_upper_case(rt: HostRuntime) {
    let set = new_set(&rt, rt.alloc());
    assert_that(
        &rt,
        is_put_into_upper_case(&rt, &set, "interned", 0x1_2b98, "INTERNED"),
    );
}

/// By OpenSSL the bucket of 65 letters `A` is 0x9a0.
#[test]
fn long_text_is_put_into_upper_case(rt: HostRuntime) {
    let set = new_set(&rt, rt.alloc());
    let text = "a".repeat(rt.alloc(), 65).expect(&rt, "a text");
    let wanted = "A".repeat(rt.alloc(), 65).expect(&rt, "a text");
    assert_that(
        &rt,
        is_put_into_upper_case(&rt, &set, &text, 0x1_2680, &wanted),
    );
}

/// The JSON value of an atom. A call that is refused memory is made again.
fn json_at_last<R: Print>(rt: &R, alloc: Global, atom: &DefaultAtom<'_>) -> Result<Value, Fault> {
    begin(rt);
    let answer = json_of(atom, alloc);
    if finishes_refused(rt, &answer) {
        return json_of(atom, alloc);
    }
    answer
}

/// Whether the atom's JSON value is this text.
fn has_json<R: Print + Abort>(rt: &R, alloc: Global, atom: &DefaultAtom<'_>, text: &str) -> bool {
    let value = json_at_last(rt, alloc, atom).expect(rt, "an answer");
    value.as_str() == Some(text)
}

#[test]
fn json_is_made(rt: HostRuntime) {
    let set = new_set(&rt, rt.alloc());
    assert_that(
        &rt,
        has_json(&rt, rt.alloc(), &intern(&rt, &set, "interned"), "interned"),
    );
}

/// The JSON value of a text, from a set of its own.
fn value_of<R: Wait + Abort>(rt: &R, alloc: Global, text: &str) -> Value {
    let set: Set<EmptyStaticAtomSet> = new_set(rt, alloc);
    let atom = intern(rt, &set, text);
    json_of(&atom, alloc).expect(rt, "an answer")
}

/// The atom of a JSON value. A call that is refused memory is made again.
fn read_at_last<'s, R: Wait + Print>(
    rt: &R,
    set: &'s Set<EmptyStaticAtomSet>,
    value: &Value,
) -> Result<DefaultAtom<'s>, Fault> {
    begin(rt);
    let answer = read_json(rt, set, value);
    if finishes_refused(rt, &answer) {
        return read_json(rt, set, value);
    }
    answer
}

/// The forms in which a text is handed in.
#[derive(Clone, Copy)]
enum Form {
    Borrowed,
    Owned,
    MayBeOwned,
    Json,
}

/// The atom of a text that is handed in like this. A call that is refused memory is made again.
fn atom_at_last<'s, R: Wait + Print + Abort>(
    rt: &R,
    alloc: Global,
    set: &'s Set<EmptyStaticAtomSet>,
    form: Form,
    text: &str,
) -> Result<DefaultAtom<'s>, Fault> {
    match form {
        Form::Borrowed => interned_at_last(rt, set, text),
        Form::Owned => owned_at_last(rt, set, owned(rt, alloc, text), text),
        Form::MayBeOwned => cow_at_last(rt, set, CowStr::Owned(owned(rt, alloc, text)), text),
        Form::Json => read_at_last(rt, set, &value_of(rt, alloc, text)),
    }
}

/// Whether this is the first atom of a new set, of "interned".
fn is_first<R: Wait>(rt: &R, set: &Set<EmptyStaticAtomSet>, atom: &DefaultAtom<'_>) -> bool {
    is_of(atom, FIRST, "interned") && links(rt, set, 1)
}

/// Checks that "interned", handed in like this, is the first atom of a new set.
fn check_first<R: Wait + Print + Abort>(rt: &R, alloc: Global, form: Form) {
    let set = new_set(rt, alloc);
    let atom = atom_at_last(rt, alloc, &set, form, "interned").expect(rt, "an answer");
    assert_that(rt, is_first(rt, &set, &atom));
}

#[test]
fn text_is_interned(rt: HostRuntime) {
    check_first(&rt, rt.alloc(), Form::Borrowed);
}

#[test]
fn owned_text_is_interned(rt: HostRuntime) {
    check_first(&rt, rt.alloc(), Form::Owned);
}

#[test]
fn text_that_may_be_owned_is_interned(rt: HostRuntime) {
    check_first(&rt, rt.alloc(), Form::MayBeOwned);
}

#[test]
fn json_text_is_interned(rt: HostRuntime) {
    check_first(&rt, rt.alloc(), Form::Json);
}
