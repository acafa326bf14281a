//! Sets with a name and their atoms: a call that is made again gives the ticket that it would have given the first time.
ghost use Rattle.std.specs.Prelude.{◌≡◌};

use crate::assert_that;
use named_set::{FreshName, NamedSet, SetName};
use serde_json::Value;
use std::alloc::Global;
use std::borrow::CowStr;
use std::io::Print;
use std::marker::Brand;
use std::process::Abort;
use std::sync::Wait;
use string_cache::word::{Buckets, Limits};
use string_cache::{EmptyStaticAtomSet, Fault, ListOf, NamedAtom, SetList, SharedSet};
use test_calls::{cloned_at, links, pop, push, shown};
use test_refusals::{End, at_last, begin, finish, finishes_refused};

type Named<N> = NamedSet<EmptyStaticAtomSet, N>;

type Word<'s, N> = NamedAtom<'s, EmptyStaticAtomSet, N>;

/// The first two tickets of a set of one bucket.
const FIRST: u64 = 0x1_0000;

const SECOND: u64 = 0x2_0000;

/// A text of 65 letters, and what it is in upper case.
const SMALL: &str = "aaaaaaaaaaaaaaaaaaaaaaaaaaaaaaaaaaaaaaaaaaaaaaaaaaaaaaaaaaaaaaaaa";

const CAPITALS: &str = "AAAAAAAAAAAAAAAAAAAAAAAAAAAAAAAAAAAAAAAAAAAAAAAAAAAAAAAAAAAAAAAAA";

/// A call that may ask for memory, or those that may not.
#[derive(Clone, Copy)]
pub enum Call {
    /// What makes the set.
    Set,
    /// What interns a text, which is passed in one of these forms.
    Borrowed,
    Owned,
    MayBeOwned,
    Json,
    /// What puts an atom's text into upper case.
    Upper,
    /// What makes an atom's JSON value.
    ToJson,
    /// What interns a long text.
    Long,
    /// What may not.
    Unasked,
    /// The same of a list.
    Listed,
    /// What is refused once the tickets are spent.
    Spent,
    /// What interns a text beside so many, for which there is no room.
    Beside(u64),
}

fn owned(rt: &impl Abort, alloc: Global, text: &str) -> String {
    String::from_str(alloc, text).expect(rt, "a text")
}

/// Prints the line after a call that interns, and returns whether it was refused memory: its bucket may keep the room that it made for a cell.
fn ends_refused<T>(rt: &impl Print, answer: &Result<T, Fault>) -> bool {
    let is_refused = matches!(answer, Err(Fault::Memory));
    finish(
        rt,
        if is_refused {
            End::RefusedMidway
        } else {
            End::Given
        },
    );
    is_refused
}

/// The atom of a text. A call that is refused memory is made again, here and below.
fn interned_at_last<'s, N: SetName, R: Wait + Print>(
    rt: &R,
    set: &'s Named<N>,
    text: &str,
) -> Result<Word<'s, N>, Fault> {
    begin(rt);
    let answer = NamedAtom::from_str_in(rt, set, text);
    if ends_refused(rt, &answer) {
        return NamedAtom::from_str_in(rt, set, text);
    }
    answer
}

/// The atom of an owned text, made from a borrowed one the second time.
fn owned_at_last<'s, N: SetName, R: Wait + Print>(
    rt: &R,
    set: &'s Named<N>,
    first: String,
    second: &str,
) -> Result<Word<'s, N>, Fault> {
    begin(rt);
    let answer = NamedAtom::from_string_in(rt, set, first);
    if ends_refused(rt, &answer) {
        return NamedAtom::from_str_in(rt, set, second);
    }
    answer
}

/// The atom of a text that may be owned, made from a borrowed one the second time.
fn cow_at_last<'s, N: SetName, R: Wait + Print>(
    rt: &R,
    set: &'s Named<N>,
    first: CowStr<'_>,
    second: &str,
) -> Result<Word<'s, N>, Fault> {
    begin(rt);
    let answer = NamedAtom::from_cow_in(rt, set, first);
    if ends_refused(rt, &answer) {
        return NamedAtom::from_cow_in(rt, set, CowStr::Borrowed(second));
    }
    answer
}

/// The atom of a JSON value.
fn read_at_last<'s, N: SetName, R: Wait + Print>(
    rt: &R,
    set: &'s Named<N>,
    value: &Value,
) -> Result<Word<'s, N>, Fault> {
    begin(rt);
    let answer = NamedAtom::from_json_in(rt, set, value);
    if ends_refused(rt, &answer) {
        return NamedAtom::from_json_in(rt, set, value);
    }
    answer
}

/// The atom of the text in upper case.
fn upper_at_last<'s, N: SetName, R: Wait + Print>(
    rt: &R,
    set: &'s Named<N>,
    atom: &Word<'s, N>,
) -> Result<Word<'s, N>, Fault> {
    begin(rt);
    let answer = atom.to_ascii_uppercase_in(rt, set);
    if ends_refused(rt, &answer) {
        return atom.to_ascii_uppercase_in(rt, set);
    }
    answer
}

/// The JSON value of an atom.
fn json_at_last<N: SetName, R: Print>(
    rt: &R,
    alloc: Global,
    atom: &Word<'_, N>,
) -> Result<Value, Fault> {
    begin(rt);
    let answer = atom.to_json(alloc);
    if finishes_refused(rt, &answer) {
        return atom.to_json(alloc);
    }
    answer
}

fn is_of<N: SetName>(atom: &Word<'_, N>, word: u64, text: &str) -> bool {
    atom.unsafe_data() == word && atom.as_str() == text
}

/// Whether this is the first atom of a set, and the only one.
fn is_first<'s, N: SetName, R: Wait + Abort>(
    rt: &R,
    set: &'s Named<N>,
    answer: Result<Word<'s, N>, Fault>,
) -> bool {
    let atom = answer.expect(rt, "an atom");
    is_of(&atom, FIRST, SMALL) && set.linked(rt) == 1
}

fn intern<'s, N: SetName, R: Wait + Abort>(rt: &R, set: &'s Named<N>) -> Word<'s, N> {
    NamedAtom::from_str_in(rt, set, SMALL).expect(rt, "an atom")
}

/// Whether the text in upper case comes second.
fn is_put_into_capitals<N: SetName, R: Wait + Print + Abort>(rt: &R, set: &Named<N>) -> bool {
    let upper = upper_at_last(rt, set, &intern(rt, set)).expect(rt, "an atom");
    is_of(&upper, SECOND, CAPITALS) && set.linked(rt) == 1
}

fn has_json<N: SetName, R: Wait + Print + Abort>(rt: &R, set: &Named<N>) -> bool {
    let value = json_at_last(rt, set.allocator(), &intern(rt, set)).expect(rt, "a value");
    value.as_str() == Some(SMALL)
}

/// Whether a long text, of 350,000 bytes beyond ASCII, comes first, and is given back.
fn is_long_given<N: SetName, R: Wait + Print + Abort>(rt: &R, set: &Named<N>) -> bool {
    let long = "Größe".repeat(set.allocator(), 50_000).expect(rt, "a text");
    let atom = interned_at_last(rt, set, &long).expect(rt, "an atom");
    is_of(&atom, FIRST, &long)
}

/// Whether the answer, which goes, is the atom.
fn is_same<N: SetName>(answer: Result<Word<'_, N>, Fault>, atom: &Word<'_, N>) -> bool {
    match answer {
        Ok(other) => other == *atom,
        Err(_) => false,
    }
}

/// Whether the atom is found by its text.
fn is_found<N: SetName, R: Wait>(rt: &R, set: &Named<N>, atom: &Word<'_, N>) -> bool {
    match NamedAtom::get_in(rt, set, SMALL) {
        Ok(Some(found)) => found == *atom,
        _ => false,
    }
}

fn is_absent<N: SetName, R: Wait>(rt: &R, set: &Named<N>) -> bool {
    matches!(NamedAtom::get_in(rt, set, CAPITALS), Ok(None))
}

/// Whether the set shows one text with one holder, which a sweep leaves.
fn shows_one<S: SharedSet, R: Wait>(rt: &R, set: S) -> bool {
    set.sweep(rt);
    shown(rt, set).holders == 1 && set.memory(rt) > 0 && links(rt, set, 1)
}

/// Whether the atom is given again by each call, and shown, and goes.
fn is_given_again<N: SetName, R: Wait + Print>(rt: &R, set: &Named<N>, atom: Word<'_, N>) -> bool {
    begin(rt);
    let is_given = is_same(NamedAtom::from_str_in(rt, set, SMALL), &atom);
    let is_cloned = is_same(atom.clone_atom(rt), &atom);
    let is_right = is_found(rt, set, &atom) && is_absent(rt, set) && shows_one(rt, set);
    drop(atom);
    finish(rt, End::Given);
    is_given && is_cloned && is_right && set.linked(rt) == 0
}

/// Whether the list has an atom at this place.
fn has_atom<S: SharedSet, R: Wait>(rt: &R, list: &SetList<S>, at: usize) -> bool {
    matches!(cloned_at(rt, list, at), Ok(Some(_)))
}

/// Whether the list's texts are read and cloned, the last one is taken out, and all are.
fn is_read_and_cleared<S: SharedSet, R: Wait + Print>(rt: &R, list: &mut SetList<S>) -> bool {
    begin(rt);
    let is_read = list.get(0) == Some(SMALL) && has_atom(rt, list, 0) && has_atom(rt, list, 1);
    let goes = pop(list).is_some();
    list.clear();
    finish(rt, End::Given);
    is_read && goes && list.is_empty()
}

/// Whether that is so of a list of three places.
pub fn is_listed<S: SharedSet, R: Wait + Print + Abort>(rt: &R, set: S) -> bool {
    let mut list = ListOf::new(set);
    for text in [SMALL, "ab", SMALL] {
        push(rt, &mut list, text).expect(rt, "a place");
    }
    is_read_and_cleared(rt, &mut list)
}

/// What the set returns for the text, in each way to pass it.
fn refused_thrice<N: SetName, R: Wait>(
    rt: &R,
    set: &Named<N>,
    text: String,
    value: &Value,
) -> [Option<Fault>; 3] {
    [
        NamedAtom::from_str_in(rt, set, SMALL).err(),
        NamedAtom::from_string_in(rt, set, text).err(),
        NamedAtom::from_json_in(rt, set, value).err(),
    ]
}

/// Whether the text is refused, without a request, once another has had the one ticket.
fn is_spent<N: SetName, R: Wait + Print + Abort>(rt: &R, set: &Named<N>) -> bool {
    let text = owned(rt, set.allocator(), SMALL);
    let value = Value::String(owned(rt, set.allocator(), SMALL));
    drop(numbered(rt, set, 0));
    begin(rt);
    let refused = refused_thrice(rt, set, text, &value);
    finish(rt, End::Given);
    refused == [Some(Fault::TicketsSpent); 3] && set.linked(rt) == 0
}

/// The atom of a number's text.
fn numbered<'s, N: SetName, R: Wait + Abort>(
    rt: &R,
    set: &'s Named<N>,
    number: u64,
) -> Word<'s, N> {
    let text = format!(in set.allocator(); "numbered {number}").expect(rt, "a text");
    NamedAtom::from_str_in(rt, set, text.as_str()).expect(rt, "an atom")
}

/// So many atoms.
fn hold<'s, N: SetName, R: Wait + Abort>(
    rt: &R,
    set: &'s Named<N>,
    count: u64,
) -> Vec<Word<'s, N>> {
    let mut atoms = Vec::new(set.allocator());
    for number in 0..count {
        atoms.push(numbered(rt, set, number)).expect(rt, "room");
    }
    atoms
}

/// The atom of a text for which an index is laid out. What was made for it goes if that is refused.
fn indexed_at_last<'s, N: SetName, R: Wait + Print>(
    rt: &R,
    set: &'s Named<N>,
    text: &str,
) -> Result<Word<'s, N>, Fault> {
    begin(rt);
    let answer = NamedAtom::from_str_in(rt, set, text);
    if finishes_refused(rt, &answer) {
        return NamedAtom::from_str_in(rt, set, text);
    }
    answer
}

/// Whether a text comes next beside so many, which are there.
fn comes_beside<N: SetName, R: Wait + Print + Abort>(rt: &R, set: &Named<N>, count: u64) -> bool {
    let atoms = hold(rt, set, count);
    let next = indexed_at_last(rt, set, SMALL).expect(rt, "an atom");
    let are_linked = set.linked(rt) == u128::from(count) + 1;
    drop(atoms);
    are_linked && is_of(&next, count.saturating_add(1) << 16, SMALL)
}

/// Whether the call, made in a new set, gives what it must.
fn is_made_in<N: SetName, R: Wait + Print + Abort>(rt: &R, set: &Named<N>, call: Call) -> bool {
    let alloc = set.allocator();
    let answer = match call {
        Call::Set => NamedAtom::from_str_in(rt, set, SMALL),
        Call::Borrowed => interned_at_last(rt, set, SMALL),
        Call::Owned => owned_at_last(rt, set, owned(rt, alloc, SMALL), SMALL),
        Call::MayBeOwned => cow_at_last(rt, set, CowStr::Owned(owned(rt, alloc, SMALL)), SMALL),
        Call::Json => read_at_last(rt, set, &Value::String(owned(rt, alloc, SMALL))),
        Call::Upper => return is_put_into_capitals(rt, set),
        Call::ToJson => return has_json(rt, set),
        Call::Long => return is_long_given(rt, set) && set.linked(rt) == 0,
        Call::Unasked => return is_given_again(rt, set, intern(rt, set)),
        Call::Listed => return is_listed(rt, set) && set.linked(rt) == 0,
        Call::Spent => return is_spent(rt, set),
        Call::Beside(count) => return comes_beside(rt, set, count) && set.linked(rt) == 0,
    };
    is_first(rt, set, answer)
}

fn one_bucket(rt: &impl Abort) -> Buckets {
    Buckets::new(0).expect(rt, "a number of buckets")
}

/// A new name for a set of one bucket.
fn new_name(rt: &impl Abort, alloc: Global) -> FreshName {
    FreshName::new(alloc, one_bucket(rt)).expect(rt, "a name")
}

/// The limits of the set in which the call is made: there is one ticket if tickets are to be spent.
fn limits_for(rt: &impl Abort, call: Call) -> Limits {
    match call {
        Call::Spent => Limits::new(9, 1).expect(rt, "limits"),
        _ => Limits::greatest(),
    }
}

/// Whether the call gives what it must in a new set with this name.
fn is_made<N: SetName, R: Wait + Print + Abort>(
    rt: &R,
    alloc: Global,
    name: FreshName,
    call: Call,
) -> bool
    requires { N.logs ≡ name.logs }
{
    let set: Named<N> = NamedSet::new(alloc, name, limits_for(rt, call)).expect(rt, "a set");
    is_made_in(rt, &set, call)
}

/// Whether it does in a new set with a name that no set has.
fn is_made_with<R: Wait + Print + Abort>(
    rt: &R,
    alloc: Global,
    name: FreshName,
    call: Call,
) -> bool {
    is_made::<Brand, R>(rt, alloc, name, call)
}

/// Whether a set is made with this name or, if the call is refused memory, with another one, and then has a text.
fn is_set_made<N: SetName, R: Wait + Print + Abort>(rt: &R, alloc: Global, name: FreshName) -> bool
    requires { N.logs ≡ name.logs }
{
    begin(rt);
    let answer: Result<Named<N>, Fault> = NamedSet::new(alloc, name, Limits::greatest());
    if finishes_refused(rt, &answer) {
        return is_made_with(rt, alloc, new_name(rt, alloc), Call::Set);
    }
    is_made_in(rt, &answer.expect(rt, "a set"), Call::Set)
}

fn is_set_made_with<R: Wait + Print + Abort>(rt: &R, alloc: Global, name: FreshName) -> bool {
    is_set_made::<Brand, R>(rt, alloc, name)
}

pub fn check<R: Wait + Print + Abort>(rt: &R, alloc: Global, call: Call) {
    assert_that(rt, is_made_with(rt, alloc, new_name(rt, alloc), call));
}

#[test]
fn name_is_made(rt: HostRuntime) {
    let alloc = rt.alloc();
    let count = one_bucket(&rt);
    let name = at_last(&rt, || FreshName::new(alloc, count)).expect(&rt, "a name");
    assert_that(&rt, is_made_with(&rt, alloc, name, Call::Set));
}

#[test]
fn set_with_a_name_is_made(rt: HostRuntime) {
    let name = new_name(&rt, rt.alloc());
    assert_that(&rt, is_set_made_with(&rt, rt.alloc(), name));
}

#[test]
fn text_is_interned(rt: HostRuntime) {
    check(&rt, rt.alloc(), Call::Borrowed);
}

#[test]
fn owned_text_is_interned(rt: HostRuntime) {
    check(&rt, rt.alloc(), Call::Owned);
}

#[test]
fn text_that_may_be_owned_is_interned(rt: HostRuntime) {
    check(&rt, rt.alloc(), Call::MayBeOwned);
}

#[test]
fn json_text_is_interned(rt: HostRuntime) {
    check(&rt, rt.alloc(), Call::Json);
}

#[test]
fn long_text_is_put_into_capitals(rt: HostRuntime) {
    check(&rt, rt.alloc(), Call::Upper);
}

#[test]
fn json_is_made(rt: HostRuntime) {
    check(&rt, rt.alloc(), Call::ToJson);
}

/// With the ninth text an index is made.
#[test]
fn ninth_text_is_interned(rt: HostRuntime) {
    check(&rt, rt.alloc(), Call::Beside(8));
}

/// With the seventeenth it is laid out anew.
#[test]
fn seventeenth_text_is_interned(rt: HostRuntime) {
    check(&rt, rt.alloc(), Call::Beside(16));
}

#[test]
fn long_text_is_interned(rt: HostRuntime) {
    check(&rt, rt.alloc(), Call::Long);
}
