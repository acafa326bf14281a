//! What the commands print and return, for single texts and for a real vocabulary.

use crate::assert_that;
use crate::program::{NOT_TEXT, Run, try_lines, try_runs};
use commands::generate::{check_command, generate_command};
use std::alloc::Global;
use std::process::Abort;
use std::sync::Wait;
use std::thread::Threads;
use string_cache::phf::hash;
use test_samples::NAMES;
use text_streams::streams::Io;

/// Tables of one text under a key: its hash is the library's own.
fn tables_of<R: Abort>(rt: &R, alloc: Global, key: u64, text: &str) -> String {
    let hashes = hash(text, key);
    format!(in alloc;
        "key {key}\ndisp 0 0\natom {:08x}{:08x} {text}\n",
        hashes.g, hashes.f1
    )
    .expect(rt, "room")
}

/// Whether the program makes the tables of this text, under this key.
fn are_made<R: Threads + Wait + Sync + Abort>(
    rt: &R,
    alloc: Global,
    line: &str,
    input: &[u8],
    (key, text): (u64, &str),
) -> bool {
    let tables = tables_of(rt, alloc, key, text);
    Run::Given(line, input, tables.as_bytes()).is_right(rt, alloc)
}

/// An empty line is the empty text, and the last line feed may be missing.
#[test]
fn one_text(rt: HostRuntime) {
    let alloc = rt.alloc();
    assert_that(
        &rt,
        are_made(&rt, alloc, "generate 0 1", b"sentence", (0, "sentence")),
    );
    assert_that(
        &rt,
        are_made(&rt, alloc, "generate 0 1", b"sentence\n", (0, "sentence")),
    );
    assert_that(&rt, are_made(&rt, alloc, "generate 7 1", b"\n", (7, "")));
}

static REFUSED: [Run; 6] = [
    Run::Refused("generate 0 1", b"", b"atoms: no texts\n"),
    Run::Refused(
        "generate 0 1",
        b"same\nsame\n",
        b"atoms: text listed twice\n",
    ),
    Run::Refused(
        "generate 0 1",
        b"same\n\nsame\n",
        b"atoms: text listed twice\n",
    ),
    Run::Refused(
        "generate 0 0",
        b"sentence",
        b"atoms: no tables within the bound\n",
    ),
    Run::Refused("generate 0 1", b"\xff", NOT_TEXT),
    Run::Refused("check", b"\xff", NOT_TEXT),
];

/// Whether a list that has one text so often is refused for that.
fn is_double_told<R: Threads + Wait + Sync + Abort>(rt: &R, alloc: Global, times: usize) -> bool {
    let input = "same\n".repeat(alloc, times).expect(rt, "room");
    let fault = b"atoms: text listed twice\n";
    Run::Refused("generate 0 1", input.as_bytes(), fault).is_right(rt, alloc)
}

#[test]
fn refused_lists(rt: HostRuntime) {
    try_runs(&rt, rt.alloc(), &REFUSED);
    assert_that(&rt, is_double_told(&rt, rt.alloc(), 70_000));
}

/// Lines of no command.
static OTHER_LINES: [&str; 11] = [
    "generate",
    "generate 0",
    "generate 00 1",
    "generate 0 01",
    "generate +0 1",
    "generate 0 4294967296",
    "generate 18446744073709551616 1",
    "generate 0 1 2",
    "Generate 0 1",
    "check 1",
    "check check",
];

#[test]
fn other_arguments(rt: HostRuntime) {
    try_lines(&rt, rt.alloc(), &OTHER_LINES);
}

static CHECKED: [Run; 3] = [
    Run::Given(
        "check",
        b"key 0\ndisp 0 0\natom 1122334455667788 sentence\n",
        b"yes\n",
    ),
    Run::Given(
        "check",
        b"key 00\ndisp 0 0\natom 1122334455667788 sentence\n",
        b"no\n",
    ),
    Run::Given("check", b"", b"no\n"),
];

#[test]
fn checked_texts(rt: HostRuntime) {
    try_runs(&rt, rt.alloc(), &CHECKED);
}

static STREAM_FAULTS: [Run; 4] = [
    Run::Unread("generate 0 1", b"a longer sentence"),
    Run::Unwritten("generate 0 1", b"a longer sentence"),
    Run::Unread("check", b"a longer sentence"),
    Run::Unwritten("check", b"a longer sentence"),
];

#[test]
fn failing_streams(rt: HostRuntime) {
    try_runs(&rt, rt.alloc(), &STREAM_FAULTS);
}

/// What is printed for the names' tables under this key, if there are any.
fn names_under(alloc: Global, key: u64) -> Option<Vec<u8>> {
    let mut made = Io::new(Vec::new(alloc));
    match generate_command(alloc, key, 1024, &mut Io::new(NAMES.as_bytes()), &mut made) {
        Ok(()) => Some(made.into_inner()),
        Err(_) => None,
    }
}

/// Whether what was printed is checked, with the answer yes.
fn is_checked(alloc: Global, table: &[u8]) -> bool {
    let mut answer = Io::new(Vec::new(alloc));
    let outcome = check_command(alloc, &mut Io::new(table), &mut answer);
    outcome == Ok(()) && answer.into_inner().as_slice() == b"yes\n".as_slice()
}

/// Whether what is printed for the names is checked, under the first key of ten that places them.
fn are_names_checked(alloc: Global) -> bool {
    for key in 0..10 {
        if let Some(table) = names_under(alloc, key) {
            return is_checked(alloc, &table);
        }
    }
    false
}

/// Several hundred names are placed, and what is printed for them is checked.
#[test]
fn vocabulary(rt: HostRuntime) {
    assert_that(&rt, NAMES.lines().count() > 300);
    assert_that(&rt, are_names_checked(rt.alloc()));
}
