//! What the programs over a set with a name return: a crew of eight threads, symbols that are found, and what eight readers of one map are told.
ghost use Rattle.std.specs.Prelude.{◌≡◌};

use crate::assert_that;
use example_named::{
    Symbols, Texts, Told, crew_agrees, declare_and_look_up, declare_and_look_up_all,
    declare_and_look_up_by_threads, look_up_all,
};
use named_set::{FreshName, NamedSet, SetName};
use std::alloc::Global;
use std::marker::Brand;
use std::process::Abort;
use std::sync::Wait;
use std::thread::Threads;
use test_samples::keys;
use text_forms::Fault;
use text_forms::word::Limits;

/// A text of 300,000 bytes, beyond ASCII.
fn long_text<R: Abort>(rt: &R, alloc: Global) -> String {
    "Größe, 長さ 🦀".repeat(alloc, 15_000).expect(rt, "room")
}

/// Adds a copy of a text.
fn add_copy<R: Abort>(rt: &R, alloc: Global, copies: &mut Vec<String>, text: &str) {
    let copy = String::from_str(alloc, text).expect(rt, "room");
    copies.push(copy).expect(rt, "room");
}

/// Copies of these texts.
fn copies<R: Abort>(rt: &R, alloc: Global, texts: &[&str]) -> Vec<String> {
    let mut copies = Vec::new(alloc);
    for text in texts {
        add_copy(rt, alloc, &mut copies, text);
    }
    copies
}

/// What a crew of eight says about the long text, if the last has another.
fn crew_says<R: Threads + Wait + Sync + Abort>(rt: &R, alloc: Global, last: &str) -> bool {
    let long = long_text(rt, alloc);
    let long = long.as_str();
    let last = if last.is_empty() { long } else { last };
    let texts = copies(rt, alloc, &[long, long, long, long, long, long, long, last]);
    crew_agrees(rt, alloc, &texts).expect(rt, "an answer")
}

/// What a crew of this many says about one text.
fn crew_of_says<R: Threads + Wait + Sync + Abort>(rt: &R, alloc: Global, number: usize) -> bool {
    let mut texts = Vec::new(alloc);
    for _ in 0..number {
        add_copy(rt, alloc, &mut texts, "eine Größe");
    }
    crew_agrees(rt, alloc, &texts).expect(rt, "an answer")
}

/// What a crew of two says about these texts.
fn crew_of_two_says<R: Threads + Wait + Sync + Abort>(
    rt: &R,
    alloc: Global,
    one: &str,
    other: &str,
) -> bool {
    let texts = copies(rt, alloc, &[one, other]);
    crew_agrees(rt, alloc, &texts).expect(rt, "an answer")
}

/// Eight threads agree if all have one text, and not if the last has another. So do none, one, 70, and two with short texts.
#[test]
fn crews_agree(rt: HostRuntime) {
    assert_that(&rt, crew_says(&rt, rt.alloc(), ""));
    assert_that(&rt, !crew_says(&rt, rt.alloc(), "Größe"));
    assert_that(&rt, crew_of_says(&rt, rt.alloc(), 0));
    assert_that(&rt, crew_of_says(&rt, rt.alloc(), 1));
    assert_that(&rt, crew_of_says(&rt, rt.alloc(), 70));
    assert_that(&rt, crew_of_two_says(&rt, rt.alloc(), "Öl", "Öl"));
    assert_that(&rt, !crew_of_two_says(&rt, rt.alloc(), "", "Öl"));
}

/// Who looks up a text that was declared.
#[derive(Clone, Copy)]
enum Crew {
    One,
    Two,
}

/// What is found for a text if the long one was declared.
fn found<R: Threads + Wait + Sync + Abort>(
    rt: &R,
    alloc: Global,
    crew: Crew,
    long: &String,
    asked: &String,
) -> Option<u32> {
    let keys = keys(1).expect(rt, "keys");
    let found = match crew {
        Crew::One => declare_and_look_up(rt, alloc, keys, long, 7, asked),
        Crew::Two => declare_and_look_up_by_threads(rt, alloc, keys, long, 7, asked),
    };
    found.expect(rt, "an answer")
}

/// What is found for a short text.
fn found_short<R: Threads + Wait + Sync + Abort>(
    rt: &R,
    alloc: Global,
    crew: Crew,
    long: &String,
) -> Option<u32> {
    let short = String::from_str(alloc, "Größe").expect(rt, "room");
    found(rt, alloc, crew, long, &short)
}

/// What is found for a short text if it was declared.
fn found_itself<R: Threads + Wait + Sync + Abort>(
    rt: &R,
    alloc: Global,
    crew: Crew,
) -> Option<u32> {
    let short = String::from_str(alloc, "Größe").expect(rt, "room");
    found_short(rt, alloc, crew, &short)
}

/// Whether the crew finds the long text, which was declared, and not another, and a short one.
fn do_find<R: Threads + Wait + Sync + Abort>(rt: &R, alloc: Global, crew: Crew) -> bool {
    let long = long_text(rt, alloc);
    found(rt, alloc, crew, &long, &long) == Some(7)
        && found_short(rt, alloc, crew, &long).is_none()
        && found_itself(rt, alloc, crew) == Some(7)
}

/// Whether the same was found as is wanted.
fn are_same(found: &[Option<u32>], wanted: &[Option<u32>]) -> bool {
    found == wanted
}

/// Whether eight threads do, every other one of which asks for the long text.
fn eight_find<R: Threads + Wait + Sync + Abort>(rt: &R, alloc: Global) -> bool {
    let long = long_text(rt, alloc);
    let asked = long.as_str();
    let texts = copies(
        rt,
        alloc,
        &[asked, "", asked, "Größe", asked, "長さ", asked, "🦀"],
    );
    let keys = keys(1).expect(rt, "keys");
    let found = declare_and_look_up_all(rt, alloc, keys, &long, 7, &texts).expect(rt, "an answer");
    let wanted = [Some(7), None, Some(7), None, Some(7), None, Some(7), None];
    are_same(found.as_slice(), &wanted)
}

/// How many of this many threads find the declared text, for which each asks.
fn finds_of<R: Threads + Wait + Sync + Abort>(rt: &R, alloc: Global, number: usize) -> usize {
    let mut texts = Vec::new(alloc);
    for _ in 0..number {
        add_copy(rt, alloc, &mut texts, "eine Größe");
    }
    let declared = String::from_str(alloc, "eine Größe").expect(rt, "room");
    let keys = keys(1).expect(rt, "keys");
    let found = declare_and_look_up_all(rt, alloc, keys, &declared, 7, &texts).expect(
        rt,
        "an answer",
    );
    found.iter().filter(|it| **it == Some(7)).count()
}

/// How many answers there are if nobody asks.
fn answers_to_none<R: Threads + Wait + Sync + Abort>(rt: &R, alloc: Global) -> usize {
    let declared = String::from_str(alloc, "eine Größe").expect(rt, "room");
    let texts = Vec::new(alloc);
    let keys = keys(1).expect(rt, "keys");
    declare_and_look_up_all(rt, alloc, keys, &declared, 7, &texts)
        .expect(rt, "an answer")
        .len()
}

/// A text that was declared is found, and another isn't.
#[test]
fn declared_texts_are_found(rt: HostRuntime) {
    assert_that(&rt, do_find(&rt, rt.alloc(), Crew::One));
    assert_that(&rt, do_find(&rt, rt.alloc(), Crew::Two));
    assert_that(&rt, eight_find(&rt, rt.alloc()));
    assert_that(&rt, answers_to_none(&rt, rt.alloc()) == 0);
    assert_that(&rt, finds_of(&rt, rt.alloc(), 70) == 70);
}

/// Declares these names in turn.
fn declare_all<'s, N: SetName, R: Wait>(
    rt: &R,
    set: &'s Texts<N>,
    symbols: &mut Symbols<'s, N>,
    names: &[(&str, u32)],
) -> Result<(), Fault> {
    for (name, number) in names {
        symbols.declare(set.intern(rt, name)?, *number)?;
    }
    Ok(())
}

/// Whether readers were told these numbers.
fn are_told<N: SetName>(all: &[Told<N>], wanted: &[Option<u32>]) -> bool {
    for (told, number) in all.iter().zip(wanted) {
        if told.number != *number {
            return false;
        }
    }
    all.len() == wanted.len()
}

/// Whether eight readers are told what the map has for these texts.
fn are_told_of<N: SetName + Send + Sync, R: Threads + Wait + Sync + Abort>(
    rt: &R,
    alloc: Global,
    set: &Texts<N>,
    symbols: &Symbols<N>,
    texts: &[String],
) -> bool {
    let told = look_up_all(rt, alloc, set, symbols, texts).expect(rt, "answers");
    let wanted = [
        Some(300),
        Some(3),
        Some(2),
        None,
        None,
        Some(300),
        Some(3),
        None,
    ];
    are_told(told.as_slice(), &wanted)
}

/// The same for copies of the texts, the long one among them.
fn are_told_of_copies<N: SetName + Send + Sync, R: Threads + Wait + Sync + Abort>(
    rt: &R,
    alloc: Global,
    set: &Texts<N>,
    symbols: &Symbols<N>,
    long: &str,
) -> bool {
    let texts = copies(
        rt,
        alloc,
        &[long, "Größe", "長さ", "größe", "", long, "Größe", "長"],
    );
    are_told_of::<N, R>(rt, alloc, set, symbols, texts.as_slice())
}

/// Whether four readers of the long text, which the map and two others may hold, are refused as they should be.
fn are_full<N: SetName + Send + Sync, R: Threads + Wait + Sync + Abort>(
    rt: &R,
    alloc: Global,
    set: &Texts<N>,
    symbols: &Symbols<N>,
    long: &str,
) -> bool {
    let texts = copies(rt, alloc, &[long, long, long, long]);
    let told = look_up_all(rt, alloc, set, symbols, texts.as_slice());
    matches!(told, Err(Fault::FullCount))
}

/// Whether this many readers of a short text are told its number.
fn are_told_of_short<N: SetName + Send + Sync, R: Threads + Wait + Sync + Abort>(
    rt: &R,
    alloc: Global,
    set: &Texts<N>,
    symbols: &Symbols<N>,
    number: usize,
) -> bool {
    let mut texts = Vec::new(alloc);
    for _ in 0..number {
        add_copy(rt, alloc, &mut texts, "g");
    }
    let told = look_up_all(rt, alloc, set, symbols, texts.as_slice()).expect(rt, "answers");
    told.len() == number && told.iter().all(|it| it.number == Some(10))
}

/// What is declared beside the long text. One name is declared twice.
static DECLARED: [(&str, u32); 18] = [
    ("h", 0),
    ("i", 12),
    ("j", 13),
    ("k", 14),
    ("l", 15),
    ("m", 16),
    ("n", 17),
    ("o", 18),
    ("Größe", 1),
    ("長さ", 2),
    ("Größe", 3),
    ("a", 4),
    ("b", 5),
    ("c", 6),
    ("d", 7),
    ("e", 8),
    ("f", 9),
    ("g", 10),
];

/// Eight readers of a map, and four that are too many.
fn eight_are_told<N: SetName + Send + Sync, R: Threads + Wait + Sync + Abort>(
    rt: &R,
    alloc: Global,
    set: &Texts<N>,
) -> bool {
    let long = long_text(rt, alloc);
    let long = long.as_str();
    let mut symbols = Symbols::new(alloc, keys(1).expect(rt, "keys"));
    declare_all(rt, set, &mut symbols, &[(long, 300)]).expect(rt, "room");
    declare_all(rt, set, &mut symbols, &DECLARED).expect(rt, "room");
    are_told_of_copies::<N, R>(rt, alloc, set, &symbols, long)
        && are_full::<N, R>(rt, alloc, set, &symbols, long)
        && are_told_of_short::<N, R>(rt, alloc, set, &symbols, 0)
}

/// The same, in the set with this name.
fn readers_are_told<N: SetName + Send + Sync, R: Threads + Wait + Sync + Abort>(
    rt: &R,
    alloc: Global,
    name: FreshName,
) -> bool
    requires { N.logs ≡ name.logs }
{
    let limits = Limits::new(3, 9).expect(rt, "limits");
    let set = NamedSet::new(alloc, name, limits).expect(rt, "a set");
    eight_are_told::<N, R>(rt, alloc, &set)
}

/// Each of eight readers is told what was declared last for its text, or nothing if it wasn't declared. A reader's refusal is told.
#[test]
fn readers_are_told_what_was_declared(rt: HostRuntime) {
    let name = FreshName::usual(rt.alloc()).expect(&rt, "a name");
    assert_that(&rt, readers_are_told::<Brand, _>(&rt, rt.alloc(), name));
}
