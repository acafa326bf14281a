//! Names of two kinds, and a table that two threads read.

use super::kept::filled;
use crate::assert_that;
use example_tables::{Function, Program, lengths_of_both};
use interner_table::table::Name;
use std::alloc::Global;
use std::process::Abort;
use test_samples::keys;

/// The first ticket of "interned" in a table of 4096 buckets.
const FIRST: u64 = 0x1_0840;

/// The inline word of "abcdefg".
const SHORT: u64 = 0x6766_6564_6362_6171;

#[test]
fn a_table_is_read_by_two_threads(rt: HostRuntime) {
    let table = filled(&rt, rt.alloc(), &["interned"]);
    assert_that(
        &rt,
        lengths_of_both(&rt, &table, FIRST, SHORT) == (Some(8), Some(7)),
    );
    assert_that(
        &rt,
        lengths_of_both(&rt, &table, 0, SHORT) == (None, Some(7)),
    );
}

/// A new program, unless it is refused.
fn new_program(alloc: Global) -> Option<Program> {
    let keys = keys(1)?;
    Program::new(alloc, keys).ok()
}

/// Whether a new program passes the question.
fn of_program<F: Fn(&mut Program) -> bool>(alloc: Global, ask: F) -> bool
    requires { F.IsAlwaysCallable ask }
{
    match new_program(alloc) {
        Some(mut program) => ask(&mut program),
        None => false,
    }
}

/// The name of a function that is declared.
fn declared(program: &mut Program, function: &str) -> Option<Name<Function>> {
    match program.declare("source/main.rt", function) {
        Ok((_, name)) => Some(name),
        Err(_) => None,
    }
}

/// Whether a text has the name of this function, or of none.
fn is_named(program: &Program, text: &str, name: Option<Name<Function>>) -> bool {
    program.function(text) == name
}

/// Whether a function is found by its text, and no other function and no file.
fn finds_functions(program: &mut Program) -> bool {
    let name = declared(program, "main_function");
    name.is_some()
        && is_named(program, "main_function", name)
        && is_named(program, "other_function", None)
        && is_named(program, "source/main.rt", None)
}

#[test]
fn functions_are_declared(rt: HostRuntime) {
    assert_that(&rt, of_program(rt.alloc(), finds_functions));
}

/// The word of the function whose word this is.
fn word_of(program: &Program, word: u64) -> Option<u64> {
    Some(Program::word_of(program.function_of_word(word)?))
}

/// Whether a function is found by its word, and none by another number.
fn finds_words(program: &mut Program) -> bool {
    declared(program, "interned").is_some()
        && word_of(program, FIRST) == Some(FIRST)
        && word_of(program, 0).is_none()
}

#[test]
fn functions_are_saved_by_word(rt: HostRuntime) {
    assert_that(&rt, of_program(rt.alloc(), finds_words));
}

/// The length of the name of a function that is declared.
fn length(program: &mut Program, function: &str) -> Option<usize> {
    let name = declared(program, function)?;
    program.length_of(name)
}

static FUNCTIONS: [&str; 5] = [
    "function_1",
    "function_2",
    "function_3",
    "function_4",
    "function_5",
];

/// Whether a program takes these functions of a file beyond ASCII.
fn takes_functions(program: &mut Program) -> bool {
    for name in &FUNCTIONS {
        if program.declare("quelle/größe.rt", name).is_err() {
            return false;
        }
    }
    program.functions() == 5
}

#[test]
fn many_functions_are_declared(rt: HostRuntime) {
    assert_that(&rt, of_program(rt.alloc(), takes_functions));
}

fn tells_lengths(program: &mut Program) -> bool {
    length(program, "main_function") == Some(13) && length(program, "m\u{f6}glich") == Some(8)
}

#[test]
fn functions_have_lengths(rt: HostRuntime) {
    assert_that(&rt, of_program(rt.alloc(), tells_lengths));
}

/// Whether a function that is declared was there.
fn declares_again(program: &mut Program, name: Name<Function>) -> Option<bool> {
    program.declare_again(name).ok()
}

/// Whether a function is forgotten that was there.
fn forgets(program: &mut Program, name: Name<Function>) -> bool {
    program.forget(name)
}

/// Whether a function that is declared twice is forgotten twice, and then isn't there.
fn forgets_as_often(program: &mut Program) -> bool {
    let Some(name) = declared(program, "main_function") else {
        return false;
    };
    declares_again(program, name) == Some(true)
        && forgets(program, name)
        && forgets(program, name)
        && !forgets(program, name)
        && declares_again(program, name) == Some(false)
}

#[test]
fn functions_are_forgotten_as_often_as_declared(rt: HostRuntime) {
    assert_that(&rt, of_program(rt.alloc(), forgets_as_often));
}

/// A program of two tables, with two functions.
fn of_tables<R: Abort>(rt: &R, alloc: Global) -> Program {
    let files = filled(rt, alloc, &["source/main.rt"]);
    Program::of_tables(
        files,
        filled(rt, alloc, &["main_function", "other_function"]),
    )
}

/// Whether it has two functions, and none once all are forgotten.
fn forgets_two(program: &mut Program) -> bool {
    let before = program.functions();
    program.forget_all();
    before == 2 && program.functions() == 0
}

#[test]
fn functions_are_all_forgotten(rt: HostRuntime) {
    let mut program = of_tables(&rt, rt.alloc());
    assert_that(&rt, forgets_two(&mut program));
}
