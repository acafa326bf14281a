//! What the program prints and returns, by its arguments and its input.

mod texts;

use crate::memory::{Page, Streams};
use crate::words::EXAMPLE_LINES;
use crate::{assert_for, assert_that};
use commands::program::{arguments, program, refuse, run};
use std::alloc::Global;
use std::env::FillError;
use std::hash::RandomState;
use std::process::Abort;
use std::rt::Env;
use std::sync::Wait;
use std::thread::Threads;
use string_cache::Fault;
use table_generator::tables::GenFault;
use test_samples::{EXAMPLE, keys};
use text_streams::faults::AppFault;

pub const USAGE: &[u8] = b"usage: atoms words | count N | replay | generate KEY BOUND | check\n";

pub const NO_MEMORY: &[u8] = b"atoms: no memory\n";

pub const NOT_TEXT: &[u8] = b"atoms: input is not UTF-8\n";

const READ_FAILED: &[u8] = b"atoms: read failed\n";

const WRITE_FAILED: &[u8] = b"atoms: write failed\n";

/// What the program returns and writes.
#[derive(Drop)]
pub struct Answer {
    pub status: u8,
    pub output: Page,
    pub faults: Page,
}

impl Answer {
    /// Whether it is this status, with this output and this line of a fault.
    pub fn is(&self, status: u8, output: &[u8], faults: &[u8]) -> bool {
        self.status == status && self.output.written() == output && self.faults.written() == faults
    }
}

/// What is run for an outcome of drawing the keys and reading the arguments, as `main` does.
pub fn ran<R: Threads + Wait + Sync>(
    rt: &R,
    alloc: Global,
    keys: Option<RandomState>,
    args: Result<Option<Vec<String>>, AppFault>,
    streams: &Streams,
) -> Answer {
    let mut output = streams.writer();
    let mut faults = Page::new(3, 0);
    let status = run(
        rt,
        alloc,
        keys,
        args,
        &mut streams.reader(),
        &mut output,
        &mut faults,
    );
    Answer {
        status,
        output,
        faults,
    }
}

/// What is run for these arguments.
pub fn answer_of<R: Threads + Wait + Sync>(
    rt: &R,
    alloc: Global,
    args: Vec<String>,
    streams: &Streams,
) -> Answer {
    ran(rt, alloc, keys(1), Ok(Some(args)), streams)
}

/// Adds a word to the arguments.
fn add_word<R: Abort>(rt: &R, alloc: Global, args: &mut Vec<String>, word: &str) {
    let word = String::from_str(alloc, word).expect(rt, "room");
    args.push(word).expect(rt, "room");
}

/// The arguments of a line, separated by single spaces.
pub fn words_of_line<R: Abort>(rt: &R, alloc: Global, line: &str) -> Vec<String> {
    let mut args = Vec::new(alloc);
    for word in line.split(' ') {
        add_word(rt, alloc, &mut args, word);
    }
    args
}

/// A run of the program: its line of arguments and its input, and the outcome that it must have.
#[derive(Drop)]
pub enum Run<'r> {
    /// It writes this output, and no fault.
    Given(&'r str, &'r [u8], &'r [u8]),
    /// It writes this fault's line, and no output.
    Refused(&'r str, &'r [u8], &'r [u8]),
    /// The second read fails, which is reported, and there is no output.
    Unread(&'r str, &'r [u8]),
    /// The writer takes nothing, which is reported.
    Unwritten(&'r str, &'r [u8]),
    /// The arguments are those of no command.
    OfNoCommand(&'r str, &'r [u8]),
}

/// Whether a line of arguments over these streams gives this status, this output and this line of a fault.
fn comes<R: Threads + Wait + Sync + Abort>(
    rt: &R,
    alloc: Global,
    line: &str,
    streams: &Streams,
    status: u8,
    output: &[u8],
    faults: &[u8],
) -> bool {
    let args = words_of_line(rt, alloc, line);
    answer_of(rt, alloc, args, streams).is(status, output, faults)
}

impl Run<'_> {
    /// Whether it has that outcome.
    pub fn is_right<R: Threads + Wait + Sync + Abort>(&self, rt: &R, alloc: Global) -> bool {
        match self {
            Run::Given(line, input, output) => {
                comes(rt, alloc, line, &Streams::ample(input), 0, output, b"")
            }
            Run::Refused(line, input, faults) => {
                comes(rt, alloc, line, &Streams::ample(input), 1, b"", faults)
            }
            Run::Unread(line, input) => {
                comes(
                    rt,
                    alloc,
                    line,
                    &Streams::reading(input, 2),
                    1,
                    b"",
                    READ_FAILED,
                )
            }
            Run::Unwritten(line, input) => {
                comes(
                    rt,
                    alloc,
                    line,
                    &Streams::writing(input, 0, 0),
                    1,
                    b"",
                    WRITE_FAILED,
                )
            }
            Run::OfNoCommand(line, input) => {
                comes(rt, alloc, line, &Streams::ample(input), 2, b"", USAGE)
            }
        }
    }
}

/// Each of these runs must be right.
pub fn try_runs<R: Threads + Wait + Sync + Abort>(rt: &R, alloc: Global, runs: &[Run]) {
    for (at, run) in runs.iter().enumerate() {
        assert_for(rt, run.is_right(rt, alloc), &at);
    }
}

/// Whether the arguments are those of no command.
fn are_of_no_command<R: Threads + Wait + Sync>(rt: &R, alloc: Global, args: Vec<String>) -> bool {
    answer_of(rt, alloc, args, &Streams::ample(EXAMPLE)).is(2, b"", USAGE)
}

#[test]
fn no_arguments(rt: HostRuntime) {
    assert_that(
        &rt,
        are_of_no_command(&rt, rt.alloc(), Vec::new(rt.alloc())),
    );
}

/// Lines of arguments that are those of no command.
pub fn try_lines<R: Threads + Wait + Sync + Abort>(rt: &R, alloc: Global, lines: &[&'static str]) {
    for line in lines {
        assert_for(
            rt,
            Run::OfNoCommand(line, EXAMPLE).is_right(rt, alloc),
            line,
        );
    }
}
/// Lines of no command.
static OTHER_LINES: [&str; 15] = [
    "",
    "jump",
    "Words",
    "words words",
    "words ",
    "count",
    "count ",
    "count 0",
    "count 65",
    "count 01",
    "count +1",
    "count -1",
    "count 1 2",
    "Count 1",
    "replay replay",
];

#[test]
fn other_arguments(rt: HostRuntime) {
    try_lines(&rt, rt.alloc(), &OTHER_LINES);
}

/// An argument that begins with a space is no number.
#[test]
fn other_number_of_workers(rt: HostRuntime) {
    let mut args = words_of_line(&rt, rt.alloc(), "count");
    add_word(&rt, rt.alloc(), &mut args, " 1");
    assert_that(&rt, are_of_no_command(&rt, rt.alloc(), args));
}

pub const EXAMPLE_COUNTS: &[u8] = b"1 a
3 and
1 be
1 here
1 interned
2 is
2 of
1 repeated
1 sentence
1 some
2 text
1 that
1 tokenised
1 tokens
1 will
";

pub const NO_WORKER: &[u8] = b"atoms: worker not started\n";

pub const NO_KEYS: &[u8] = b"atoms: no random keys\n";

static COUNT_RUNS: [Run; 6] = [
    Run::Given("count 1", EXAMPLE, EXAMPLE_COUNTS),
    Run::Given("count 2", EXAMPLE, EXAMPLE_COUNTS),
    Run::Given("count 64", EXAMPLE, EXAMPLE_COUNTS),
    Run::Given("count 2", b"a", b"1 a\n"),
    Run::Given("count 3", b"", b""),
    Run::Refused("count 2", b"\xff", NOT_TEXT),
];

#[test]
fn program_of_counts(rt: HostRuntime) {
    try_runs(&rt, rt.alloc(), &COUNT_RUNS);
}

static WORD_RUNS: [Run; 6] = [
    Run::Given("words", EXAMPLE, EXAMPLE_LINES),
    Run::Given("words", b"", b""),
    Run::Given("words", b"\0\n", b"Not seen the word \"\0\" before\n"),
    Run::Refused("words", b"interned \xe5\xad", NOT_TEXT),
    Run::Refused("words", b"interned \xe5\xad interned", NOT_TEXT),
    Run::Refused("words", b"\xff", NOT_TEXT),
];

#[test]
fn program_of_words(rt: HostRuntime) {
    try_runs(&rt, rt.alloc(), &WORD_RUNS);
}

static STREAM_FAULTS: [Run; 6] = [
    Run::Unread("words", EXAMPLE),
    Run::Unwritten("words", EXAMPLE),
    Run::Unread("count 3", EXAMPLE),
    Run::Unwritten("count 3", EXAMPLE),
    Run::Unread("replay", b"1 link\n1 leave\n"),
    Run::Unwritten("replay", b"1 link\n1 leave\n"),
];

#[test]
fn program_fails_at_its_streams(rt: HostRuntime) {
    try_runs(&rt, rt.alloc(), &STREAM_FAULTS);
}

/// The program's status for input that is no text, if nothing can be written to standard error.
fn unsaid_status<R: Threads + Wait + Sync + Abort>(rt: &R, alloc: Global, line: &str) -> u8 {
    let args = words_of_line(rt, alloc, line);
    let streams = Streams::ample(b"\xff");
    program(
        rt,
        alloc,
        keys(1),
        &args,
        &mut streams.reader(),
        &mut streams.writer(),
        &mut Page::new(0, 0),
    )
}

/// What can't be written to standard error changes no status.
#[test]
fn faults_fail(rt: HostRuntime) {
    assert_that(&rt, unsaid_status(&rt, rt.alloc(), "words") == 1);
    assert_that(&rt, unsaid_status(&rt, rt.alloc(), "jump") == 2);
}

/// Faults, and the lines that report them.
static FAULTS: [(AppFault, &[u8]); 11] = [
    (AppFault::Read, READ_FAILED),
    (AppFault::Write, WRITE_FAILED),
    (AppFault::Text, NOT_TEXT),
    (AppFault::Script(12), b"atoms: line 12: not a step\n"),
    (AppFault::Worker, NO_WORKER),
    (AppFault::Keys, NO_KEYS),
    (AppFault::Intern(Fault::Memory), NO_MEMORY),
    (
        AppFault::Intern(Fault::FullCount),
        b"atoms: count is full\n",
    ),
    (
        AppFault::Intern(Fault::TicketsSpent),
        b"atoms: tickets are spent\n",
    ),
    (AppFault::Intern(Fault::NotText), b"atoms: not a text\n"),
    (AppFault::Gen(GenFault::Memory), NO_MEMORY),
];

/// Whether the fault is reported in this line, with the status 1.
fn is_told(fault: AppFault, line: &[u8]) -> bool {
    let mut faults = Page::wide();
    refuse(&mut faults, fault) == 1 && faults.written() == line
}

#[test]
fn printed_faults(rt: HostRuntime) {
    for (fault, line) in &FAULTS {
        assert_for(&rt, is_told(*fault, line), fault);
    }
}

/// The words of a command line, the program's name first.
pub type CommandLine = &'static [&'static [u8]];

/// A process that was given a command line.
#[derive(Drop)]
struct Given {
    line: CommandLine,
}

impl Env for Given {
    fn arg(&self, i: usize, buf: &mut [u8]) -> Result<usize, FillError> {
        let Some(arg) = self.line.get(i) else {
            return Err(FillError::NotPresent);
        };
        let len = arg.len();
        if len > buf.len() {
            return Err(FillError::TooLong);
        }
        buf[..len].copy_from_slice(arg);
        Ok(len)
    }

    fn var(&self, _name: &str, _buf: &mut [u8]) -> Result<usize, FillError> {
        Err(FillError::NotPresent)
    }

    fn var_at(&self, _i: usize, _buf: &mut [u8]) -> Result<usize, FillError> {
        Err(FillError::NotPresent)
    }
}

/// The arguments of a command line.
pub fn arguments_of(alloc: Global, line: CommandLine) -> Result<Option<Vec<String>>, AppFault> {
    arguments(&(Given { line }, alloc))
}

pub const COUNT_LINE: CommandLine = &[b"atoms", b"count", b"3"];

pub const COUNT_WORDS: &[&str] = &["count", "3"];

const BYTES_LINE: CommandLine = &[b"atoms", b"words", b"\xff"];

/// Lines with the arguments that they give.
static WORD_LINES: [(CommandLine, &[&str]); 9] = [
    (COUNT_LINE, COUNT_WORDS),
    (
        &[
            b"atoms",
            b"a longer argument than any that a command takes",
            b"zw\xc3\xb6lf",
            b"1",
            b"2",
            b"3",
            b"4",
        ],
        &[
            "a longer argument than any that a command takes",
            "zwölf",
            "1",
            "2",
            "3",
            "4",
        ],
    ),
    (
        &[b"atoms", b"generate", b"0", b"1", b"x"],
        &["generate", "0", "1", "x"],
    ),
    (&[b"atoms", b"", b"words"], &["", "words"]),
    (
        &[b"atoms", b" Words\t", b"-1", b"-1", b""],
        &[" Words\t", "-1", "-1", ""],
    ),
    (
        &[
            b"atoms", b"1", b"1", b"1", b"1", b"1", b"1", b"1", b"1", b"1", b"1", b"1", b"1", b"1",
            b"1", b"1", b"1", b"1",
        ],
        &[
            "1", "1", "1", "1", "1", "1", "1", "1", "1", "1", "1", "1", "1", "1", "1", "1", "1",
        ],
    ),
    (
        &[
            b"atoms",
            b"abcdefghijklmnopqrstuvwxyzabcdefghijklmnopqrstuvwxyzabcdefghijklmnopqrstuvwxyz\n\
            abcdefghijklmnopqrstuvwxyzabcdefghijklmnopqrstuvwxyzabcdefghijklmnopqrstuvwxyz\
            abcdefghijklmnopqrstuvwxyzabcdefghijklmnopqrstuvwxyzabcdefghijklmnopqrstuvwxyz\
            abcdefghijklmnopqrstuvwxyzabcdefghijklmnopqrstuvwxyzabcdefghijklmnopqrstuvwxyz",
        ],
        &[
            "abcdefghijklmnopqrstuvwxyzabcdefghijklmnopqrstuvwxyzabcdefghijklmnopqrstuvwxyz\n\
            abcdefghijklmnopqrstuvwxyzabcdefghijklmnopqrstuvwxyzabcdefghijklmnopqrstuvwxyz\
            abcdefghijklmnopqrstuvwxyzabcdefghijklmnopqrstuvwxyzabcdefghijklmnopqrstuvwxyz\
            abcdefghijklmnopqrstuvwxyzabcdefghijklmnopqrstuvwxyzabcdefghijklmnopqrstuvwxyz",
        ],
    ),
    (&[], &[]),
    (&[b"atoms"], &[]),
];

/// Whether the arguments are these words.
pub fn are_words(args: &[String], words: &[&str]) -> bool {
    for (arg, word) in args.iter().zip(words) {
        if arg.as_str() != *word {
            return false;
        }
    }
    args.len() == words.len()
}

/// Whether the line gives these arguments.
fn gives(alloc: Global, line: CommandLine, words: &[&str]) -> bool {
    match arguments_of(alloc, line) {
        Ok(Some(args)) => are_words(&args, words),
        _ => false,
    }
}

#[test]
fn arguments_without_the_name(rt: HostRuntime) {
    for (line, words) in &WORD_LINES {
        assert_for(&rt, gives(rt.alloc(), line, words), words);
    }
    assert_that(
        &rt,
        matches!(arguments_of(rt.alloc(), BYTES_LINE), Ok(None)),
    );
}

/// Whether nothing is written but this line of a fault, with this status, over input that is no text.
fn ends<R: Threads + Wait + Sync>(
    rt: &R,
    alloc: Global,
    args: Result<Option<Vec<String>>, AppFault>,
    status: u8,
    faults: &[u8],
) -> bool {
    ran(rt, alloc, keys(1), args, &Streams::ample(b"\xff")).is(status, b"", faults)
}

/// Outcomes that are arguments.
static WORDS_OR_NONE: [Run; 2] = [
    Run::Refused("words", b"\xff", NOT_TEXT),
    Run::OfNoCommand("jump", b"\xff"),
];

#[test]
fn outcomes_of_arguments(rt: HostRuntime) {
    try_runs(&rt, rt.alloc(), &WORDS_OR_NONE);
    assert_that(&rt, ends(&rt, rt.alloc(), Ok(None), 2, USAGE));
    let no_room = Err(AppFault::Intern(Fault::Memory));
    assert_that(&rt, ends(&rt, rt.alloc(), no_room, 1, NO_MEMORY));
}
