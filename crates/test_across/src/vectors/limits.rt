//! Sets with small limits, and no other thread.

use crate::begun::intern;
use crate::{assert_for, assert_that};
use std::alloc::Global;
use std::borrow::CowStr;
use std::process::Abort;
use std::sync::Wait;
use string_cache::dynamic_set::Set;
use string_cache::word::{Buckets, Limits};
use string_cache::{DefaultAtom, EmptyStaticAtomSet, Fault};
use test_calls::{
    are_one, cloned, copied, has_word, interned_cow, interned_owned, is_of, json_of, links,
    lowered, read_json,
};

/// The first ticket of "interned", and how far apart two tickets are that a bucket gives one after the other.
const FIRST: u64 = 0x1_0840;

const TICKET_UNIT: u64 = 65536;

/// A set with these limits, about which nothing else is known.
fn limited<R: Abort>(rt: &R, alloc: Global, holders: u64, serials: u64) -> Set<EmptyStaticAtomSet> {
    let limits = Limits::new(holders, serials).expect(rt, "limits");
    Set::with_limits(alloc, limits).expect(rt, "a set")
}

/// The atom of "interned" in the set, if it has this word.
fn interned<'s, R: Wait>(
    rt: &R,
    set: &'s Set<EmptyStaticAtomSet>,
    word: u64,
) -> Option<DefaultAtom<'s>> {
    let atom = test_calls::interned(rt, set, "interned").ok()?;
    if atom.unsafe_data() != word {
        return None;
    }
    Some(atom)
}

/// Why "interned" is refused.
fn refused<R: Wait>(rt: &R, set: &Set<EmptyStaticAtomSet>) -> Option<Fault> {
    test_calls::interned(rt, set, "interned").err()
}

/// Why it is refused, passed as an owned text, and as one that may be owned.
fn refused_as_owned<R: Wait + Abort>(rt: &R, set: &Set<EmptyStaticAtomSet>) -> Option<Fault> {
    let own = String::from_str(set.allocator(), "interned").expect(rt, "a text");
    interned_owned(rt, set, own).err()
}

fn refused_as_cow<R: Wait>(rt: &R, set: &Set<EmptyStaticAtomSet>) -> Option<Fault> {
    interned_cow(rt, set, CowStr::Borrowed("interned")).err()
}

/// Whether "interned" is refused like this, as a borrowed text and as an owned one.
fn is_refused<R: Wait + Abort>(rt: &R, set: &Set<EmptyStaticAtomSet>, fault: Fault) -> bool {
    let wanted = Some(fault);
    refused(rt, set) == wanted
        && refused_as_owned(rt, set) == wanted
        && refused_as_cow(rt, set) == wanted
}

/// Why the text of the atom is refused, passed as a JSON value.
fn refused_as_json<R: Wait + Abort>(
    rt: &R,
    set: &Set<EmptyStaticAtomSet>,
    atom: &DefaultAtom<'_>,
) -> Option<Fault> {
    let json = json_of(atom, set.allocator()).expect(rt, "a value");
    read_json(rt, set, &json).err()
}

/// Whether the atom's text is refused one more holder, in each way to pass it.
fn is_full<R: Wait + Abort>(rt: &R, set: &Set<EmptyStaticAtomSet>, atom: &DefaultAtom<'_>) -> bool {
    let full = Some(Fault::FullCount);
    is_refused(rt, set, Fault::FullCount)
        && refused_as_json(rt, set, atom) == full
        && lowered(rt, set, atom).err() == full
}

/// Whether "interned" has one holder of its first ticket, and no second one.
fn has_one_holder<R: Wait + Abort>(rt: &R, set: &Set<EmptyStaticAtomSet>) -> bool {
    let atom = interned(rt, set, FIRST).expect(rt, "an atom");
    is_full(rt, set, &atom)
}

#[test]
fn one_holder_and_one_serial(rt: HostRuntime) {
    let set = limited(&rt, rt.alloc(), 1, 1);
    assert_that(&rt, has_one_holder(&rt, &set));
    assert_that(&rt, is_refused(&rt, &set, Fault::TicketsSpent));
    assert_that(&rt, is_of(&intern(&rt, &set, "abc"), 0x6362_6131, "abc"));
}

/// Whether "interned" has this word.
fn is_interned<R: Wait>(rt: &R, set: &Set<EmptyStaticAtomSet>, word: u64) -> bool {
    interned(rt, set, word).is_some()
}

/// Whether "interned" has two holders of its first ticket, and no third one.
fn has_two_holders<R: Wait + Abort>(rt: &R, set: &Set<EmptyStaticAtomSet>) -> bool {
    let _first = interned(rt, set, FIRST).expect(rt, "an atom");
    let _second = interned(rt, set, FIRST).expect(rt, "an atom");
    refused(rt, set) == Some(Fault::FullCount)
}

#[test]
fn two_holders_and_two_serials(rt: HostRuntime) {
    let set = limited(&rt, rt.alloc(), 2, 2);
    assert_that(&rt, has_two_holders(&rt, &set));
    assert_that(&rt, is_interned(&rt, &set, FIRST + TICKET_UNIT));
    assert_that(&rt, refused(&rt, &set) == Some(Fault::TicketsSpent));
}

/// Whether a clone of the atom has its word.
fn is_cloned<R: Wait + Abort>(rt: &R, atom: &DefaultAtom<'_>) -> bool {
    are_one(&cloned(rt, atom).expect(rt, "a clone"), atom)
}

/// Whether the one entry is full, and the atom can't be cloned.
fn is_not_cloned<R: Wait>(rt: &R, set: &Set<EmptyStaticAtomSet>, atom: &DefaultAtom<'_>) -> bool {
    links(rt, set, 1)
        && refused(rt, set) == Some(Fault::FullCount)
        && cloned(rt, atom).err() == Some(Fault::FullCount)
}

/// Whether the atom can't be cloned while there is a second one, and can once that one is gone.
fn is_cloned_alone<R: Wait + Abort>(
    rt: &R,
    set: &Set<EmptyStaticAtomSet>,
    first: &DefaultAtom<'_>,
) -> bool {
    let second = interned(rt, set, FIRST).expect(rt, "an atom");
    let is_full = is_not_cloned(rt, set, first);
    drop(second);
    is_full && is_cloned(rt, first)
}

/// Whether a copy of the atom, which goes first, has its word.
fn is_copied<R: Wait + Abort>(rt: &R, first: DefaultAtom<'_>) -> bool {
    let copy = copied(rt, &first).expect(rt, "a copy");
    drop(first);
    has_word(&copy, FIRST)
}

/// Holders come and go below their limit, and have the same word as long as one of them is left.
#[test]
fn holders_come_and_go(rt: HostRuntime) {
    let set = limited(&rt, rt.alloc(), 2, 9);
    let first = interned(&rt, &set, FIRST).expect(&rt, "an atom");
    assert_that(&rt, is_cloned_alone(&rt, &set, &first));
    assert_that(&rt, is_copied(&rt, first));
    assert_that(&rt, links(&rt, &set, 0));
    assert_that(&rt, is_interned(&rt, &set, FIRST + TICKET_UNIT));
}

/// A set of one bucket.
fn one_bucket<R: Abort>(rt: &R, alloc: Global) -> Set<EmptyStaticAtomSet> {
    let buckets = Buckets::new(0).expect(rt, "bits");
    Set::with_buckets(alloc, Limits::greatest(), buckets).expect(rt, "a set")
}

/// Adds the atom of a text that this number makes.
fn add_numbered<'s, R: Wait + Abort>(
    rt: &R,
    set: &'s Set<EmptyStaticAtomSet>,
    atoms: &mut Vec<DefaultAtom<'s>>,
    number: u32,
) {
    let text = format!(in set.allocator(); "the text {number}").expect(rt, "a text");
    atoms.push(intern(rt, set, &text)).expect(rt, "room");
}

/// The atoms of this many texts.
fn numbered<'s, R: Wait + Abort>(
    rt: &R,
    set: &'s Set<EmptyStaticAtomSet>,
    number: u32,
) -> Vec<DefaultAtom<'s>> {
    let mut atoms = Vec::new(set.allocator());
    for n in 0..number {
        add_numbered(rt, set, &mut atoms, n);
    }
    atoms
}

/// Whether, of this many texts of the bucket, the last goes with its atom, and so do the others.
fn go_with_their_atoms<R: Wait + Abort>(
    rt: &R,
    set: &Set<EmptyStaticAtomSet>,
    number: u32,
) -> bool {
    let mut atoms = numbered(rt, set, number);
    let are_held = links(rt, set, u128::from(number));
    drop(atoms.pop());
    let is_gone = links(rt, set, u128::from(number.saturating_sub(1)));
    drop(atoms);
    are_held && is_gone && links(rt, set, 0)
}

fn go_from_a_new_set<R: Wait + Abort>(rt: &R, alloc: Global, number: u32) -> bool {
    go_with_their_atoms(rt, &one_bucket(rt, alloc), number)
}

/// The last of many texts of one bucket goes with its only atom, while the others are held.
#[test]
fn one_text_of_many_goes_with_its_atom(rt: HostRuntime) {
    for number in [2, 17, 300] {
        assert_for(&rt, go_from_a_new_set(&rt, rt.alloc(), number), &number);
    }
}
