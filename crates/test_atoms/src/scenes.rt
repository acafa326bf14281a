//! Scenes over one set of either kind as data: what is done there, and what must then be so. One function plays them, and keeps the atoms, so that a
//! test has none of its own.

use crate::assert_for;
use crate::samples::{intern, is_absent, is_one, owned};
use crate::sets::Kind;
use serde_json::Value;
use std::borrow::CowStr;
use std::process::Abort;
use std::sync::Wait;
use string_cache::{AtomKind, Fault, SetAtom, SharedSet, TextSet};
use test_calls::{
    cloned, copied, has_text, has_word, interned, interned_cow, interned_owned, is_of, json_of,
    links, look_up, lowered, raised, read_json,
};

/// A step of a scene: what is done, or what must be so. Its atoms have numbers, in the order in which they are made: 0 is the first.
#[derive(Drop)]
pub enum Step {
    /// The text is interned, and its atom kept.
    Intern(&'static str),
    /// The call gives an atom, which is kept.
    Make(Call),
    /// These calls are made this often, one after another, and their atoms kept.
    Repeat(&'static [Call], usize),
    /// The atom goes.
    Drop(usize),
    /// All atoms go but the first ones, this many.
    Keep(usize),
    /// All atoms of the text go while a visit has the lock of its bucket, so that it stays linked.
    Die(&'static str),
    Sweep,
    /// The atom has this text and this word.
    Is(usize, &'static str, u64),
    /// Both atoms have the same word, and are equal.
    One(usize, usize),
    /// Each atom has this word.
    AllAre(u64),
    /// The call is refused with this fault.
    Refused(Call, Fault),
    /// The text has no atom.
    Absent(&'static str),
    /// The text is interned with this word, and its atom goes.
    Word(&'static str, u64),
    /// This many texts are linked.
    Linked(u128),
    /// These are the texts that are linked, each with the number of its holders: in a set without a name, and in one with a name.
    Visits(&'static str, &'static str),
    /// The set takes this many bytes: one without a name, and one with a name.
    Memory(u128, u128),
}

/// A call that gives an atom, or is refused.
#[derive(Drop)]
pub enum Call {
    Intern(&'static str),
    /// The text is interned as one that is owned, as one that may be, or from a JSON text.
    Own(&'static str),
    Cow(&'static str),
    Json(&'static str),
    /// The text is looked up, and must be found unless that is refused.
    Find(&'static str),
    Clone(usize),
    Copy(usize),
    Lower(usize),
    Upper(usize),
    /// The atom, there and back as JSON.
    Again(usize),
}

/// What a scene keeps: its atoms, with those that have gone replaced by that of the empty text.
type Atoms<S> = Vec<SetAtom<<S as TextSet>::Held>>;

// These say nothing about what they do, so that their callers are proved in a moment.

/// The atom of a number.
fn atom_at<'a, H: AtomKind>(
    rt: &impl Abort,
    atoms: &'a Vec<SetAtom<H>>,
    at: usize,
) -> &'a SetAtom<H> {
    atoms.get(at).expect(rt, "an atom's number")
}

/// The atom of a text that has one, unless the look-up is refused.
fn found<S: SharedSet, R: Wait + Abort>(
    rt: &R,
    set: S,
    text: &str,
) -> Result<SetAtom<S::Held>, Fault> {
    let atom = look_up(rt, set, text)?;
    Ok(atom.expect(rt, "an atom"))
}

/// The atom of a JSON text.
fn read<S: SharedSet, R: Wait + Abort>(
    rt: &R,
    set: S,
    text: &str,
) -> Result<SetAtom<S::Held>, Fault> {
    let value = Value::String(owned(rt, set.allocator(), text));
    let atom = read_json(rt, set, &value);
    drop(value);
    atom
}

/// The atom, there and back as JSON.
fn again<S: SharedSet, R: Wait + Abort>(
    rt: &R,
    set: S,
    atom: &SetAtom<S::Held>,
) -> Result<SetAtom<S::Held>, Fault> {
    let value = json_of(atom, set.allocator()).expect(rt, "a value");
    let again = read_json(rt, set, &value);
    drop(value);
    again
}

/// What a call that takes a text returns, or why it is refused.
fn called_with<S: SharedSet, R: Wait + Abort>(
    rt: &R,
    set: S,
    call: &Call,
) -> Result<SetAtom<S::Held>, Fault> {
    match call {
        Call::Own(text) => interned_owned(rt, set, owned(rt, set.allocator(), text)),
        Call::Cow(text) => interned_cow(rt, set, CowStr::Borrowed(text)),
        Call::Json(text) => read(rt, set, text),
        Call::Find(text) => found(rt, set, text),
        Call::Intern(text) => interned(rt, set, text),
        _ => Err(Fault::NotText),
    }
}

/// What a call returns, or why it is refused.
fn called<S: SharedSet, R: Wait + Abort>(
    rt: &R,
    set: S,
    atoms: &Atoms<S>,
    call: &Call,
) -> Result<SetAtom<S::Held>, Fault> {
    match call {
        Call::Clone(at) => cloned(rt, atom_at(rt, atoms, *at)),
        Call::Copy(at) => copied(rt, atom_at(rt, atoms, *at)),
        Call::Lower(at) => lowered(rt, set, atom_at(rt, atoms, *at)),
        Call::Upper(at) => raised(rt, set, atom_at(rt, atoms, *at)),
        Call::Again(at) => again(rt, set, atom_at(rt, atoms, *at)),
        _ => called_with(rt, set, call),
    }
}

fn make<S: SharedSet, R: Wait + Abort>(rt: &R, set: S, atoms: &mut Atoms<S>, call: &Call) {
    let atom = called(rt, set, atoms, call).expect(rt, "an atom");
    atoms.push(atom).expect(rt, "room");
}

fn make_each<S: SharedSet, R: Wait + Abort>(rt: &R, set: S, atoms: &mut Atoms<S>, calls: &[Call]) {
    for call in calls {
        make(rt, set, atoms, call);
    }
}

/// Makes these calls this often.
fn repeat<S: SharedSet, R: Wait + Abort>(
    rt: &R,
    set: S,
    atoms: &mut Atoms<S>,
    calls: &[Call],
    times: usize,
) {
    for _ in 0..times {
        make_each(rt, set, atoms, calls);
    }
}

fn let_go<H: AtomKind>(rt: &impl Abort, atoms: &mut Vec<SetAtom<H>>, at: usize) {
    *atoms.get_mut(at).expect(rt, "an atom's number") = SetAtom::<H>::default();
}

/// Lets all atoms of the text go.
fn let_all_go<H: AtomKind>(atoms: &mut Vec<SetAtom<H>>, text: &str) {
    for atom in atoms.iter_mut() {
        if has_text(atom, text) {
            *atom = SetAtom::<H>::default();
        }
    }
}

/// Lets them go if it is this text that is visited.
fn let_visited_go<H: AtomKind>(atoms: &mut Vec<SetAtom<H>>, text: &str, visited: &str) {
    if text == visited {
        let_all_go(atoms, text);
    }
}

/// Lets all atoms of the text go while a visit has the lock of its bucket.
fn let_die<S: SharedSet, R: Wait>(rt: &R, set: S, atoms: &mut Atoms<S>, text: &str) {
    set.for_each(rt, |visited, _| let_visited_go(atoms, text, visited));
}

fn keep_first<H: AtomKind>(atoms: &mut Vec<SetAtom<H>>, number: usize) {
    atoms.truncate(number);
}

fn sweep<S: SharedSet, R: Wait>(rt: &R, set: S) {
    set.sweep(rt);
}

fn have_word<H: AtomKind>(atoms: &[SetAtom<H>], word: u64) -> bool {
    for atom in atoms {
        if !has_word(atom, word) {
            return false;
        }
    }
    true
}

fn is_refused<S: SharedSet, R: Wait + Abort>(
    rt: &R,
    set: S,
    atoms: &Atoms<S>,
    call: &Call,
    fault: Fault,
) -> bool {
    called(rt, set, atoms, call).err() == Some(fault)
}

fn gets_word<S: SharedSet, R: Wait + Abort>(rt: &R, set: S, text: &str, word: u64) -> bool {
    let atom = intern(rt, set, text);
    let is_right = is_of(&atom, word, text);
    drop(atom);
    is_right
}

/// The texts that are linked, each with the number of its holders.
fn visited<S: SharedSet, R: Wait>(rt: &R, set: S) -> String {
    let mut seen = String::new(set.allocator());
    set.for_each(rt, |text, holders| {
        let _ = write!(seen, "{text} {holders};");
    });
    seen
}

fn visits<S: SharedSet, R: Wait>(rt: &R, set: S, wanted: &str) -> bool {
    visited(rt, set).as_str() == wanted
}

fn takes<S: SharedSet, R: Wait>(rt: &R, set: S, bytes: u128) -> bool {
    set.memory(rt) == bytes
}

/// Whether the set of this kind tells about its texts what the step says.
fn is_told<S: SharedSet, R: Wait>(rt: &R, set: S, kind: Kind, step: &Step) -> bool {
    match (step, kind) {
        (Step::Visits(wanted, _), Kind::Plain) => visits(rt, set, wanted),
        (Step::Visits(_, wanted), Kind::Named) => visits(rt, set, wanted),
        (Step::Memory(bytes, _), Kind::Plain) => takes(rt, set, *bytes),
        (Step::Memory(_, bytes), Kind::Named) => takes(rt, set, *bytes),
        (Step::Linked(count), _) => links(rt, set, *count),
        _ => false,
    }
}

/// Whether it is as the step says, which does nothing.
fn is_so<S: SharedSet, R: Wait + Abort>(
    rt: &R,
    set: S,
    kind: Kind,
    atoms: &Atoms<S>,
    step: &Step,
) -> bool {
    match step {
        Step::Is(at, text, word) => is_of(atom_at(rt, atoms, *at), *word, text),
        Step::One(one, other) => is_one(atom_at(rt, atoms, *one), atom_at(rt, atoms, *other)),
        Step::AllAre(word) => have_word(atoms, *word),
        Step::Refused(call, fault) => is_refused(rt, set, atoms, call, *fault),
        Step::Absent(text) => is_absent(rt, set, text),
        Step::Word(text, word) => gets_word(rt, set, text, *word),
        _ => is_told(rt, set, kind, step),
    }
}

/// Takes a step, and returns whether what it says was so.
fn is_taken<S: SharedSet, R: Wait + Abort>(
    rt: &R,
    set: S,
    kind: Kind,
    atoms: &mut Atoms<S>,
    step: &Step,
) -> bool {
    match step {
        Step::Intern(text) => make(rt, set, atoms, &Call::Intern(text)),
        Step::Make(call) => make(rt, set, atoms, call),
        Step::Repeat(calls, times) => repeat(rt, set, atoms, calls, *times),
        Step::Drop(at) => let_go(rt, atoms, *at),
        Step::Keep(number) => keep_first(atoms, *number),
        Step::Die(text) => let_die(rt, set, atoms, text),
        Step::Sweep => sweep(rt, set),
        _ => return is_so(rt, set, kind, atoms, step),
    }
    true
}

/// Takes the steps, one after another.
fn take_each<S: SharedSet, R: Wait + Abort>(
    rt: &R,
    set: S,
    kind: Kind,
    atoms: &mut Atoms<S>,
    steps: &[Step],
) {
    for (at, step) in steps.iter().enumerate() {
        assert_for(rt, is_taken(rt, set, kind, atoms, step), &at);
    }
}

/// Plays the scenes in a set of this kind, each from where the one before it ends.
pub fn play<S: SharedSet, R: Wait + Abort>(rt: &R, set: S, kind: Kind, scenes: &[&[Step]]) {
    let mut atoms = Vec::new(set.allocator());
    for steps in scenes {
        take_each(rt, set, kind, &mut atoms, steps);
    }
}
