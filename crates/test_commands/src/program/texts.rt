//! What each command writes for texts beyond ASCII, for large ones, and for a long word that occurs again.

use super::words_of_line;
use crate::memory::Page;
use crate::refusals::numbered_words;
use crate::under_keys::NUMBERS;
use crate::words::are_lines;
use crate::{assert_for, assert_that};
use commands::program::program;
use std::alloc::Global;
use std::hash::RandomState;
use std::process::Abort;
use std::sync::Wait;
use std::thread::Threads;
use test_samples::keys;
use text_streams::streams::Io;

/// What the program writes for an input of any size under these keys, without a fault.
fn output_of<R: Threads + Wait + Sync + Abort>(
    rt: &R,
    alloc: Global,
    keys: Option<RandomState>,
    line: &str,
    input: &[u8],
) -> Option<Vec<u8>> {
    let args = words_of_line(rt, alloc, line);
    let mut output = Io::new(Vec::new(alloc));
    let mut faults = Page::wide();
    let input = &mut Io::new(input);
    if program(rt, alloc, keys, &args, input, &mut output, &mut faults) == 0
        && faults.written().is_empty()
    {
        return Some(output.into_inner());
    }
    None
}

/// Whether the program writes this output under these keys, and no fault.
fn writes_under<R: Threads + Wait + Sync + Abort>(
    rt: &R,
    alloc: Global,
    keys: Option<RandomState>,
    (line, input): (&str, &[u8]),
    output: &[u8],
) -> bool {
    match output_of(rt, alloc, keys, line, input) {
        Some(written) => written.as_slice() == output,
        None => false,
    }
}

/// The same under one number's keys.
fn writes<R: Threads + Wait + Sync + Abort>(
    rt: &R,
    alloc: Global,
    line: &str,
    input: &[u8],
    output: &[u8],
) -> bool {
    writes_under(rt, alloc, keys(1), (line, input), output)
}

/// A command, its input and its output.
type Row = (&'static str, &'static str, &'static str);

const WORDS_BEYOND_ASCII: &str = "naïveté ετυμολογία\u{2003}naïveté\u{3000}字 naïveté 字\n";

const TABLE_BEYOND_ASCII: &str = "key 0\ndisp 0 0\natom 81128fc18b9ccd76 café au lait\n";

/// With NUL, carriage returns, and characters of four bytes.
const ODD: &str = "a\0b\r\na\0b 🦀🦀\r\n";

const ODD_TABLE: &str = "key 0\ndisp 0 0\natom bac472592057768e a\0b 🦀🦀\r\n";

/// White space, some of it beyond ASCII.
const BLANK: &str = " \t\r\n\u{2003}\r\n";

/// Each table text after the first row of `check` differs in one place from one for which the answer is yes.
static ROWS: [Row; 21] = [
    (
        "words",
        ODD,
        "Not seen the word \"a\0b\" before
Seen the word \"a\0b\" 1 times
Not seen the word \"🦀🦀\" before
",
    ),
    ("words", BLANK, ""),
    ("count 1", ODD, "2 a\0b\n1 🦀🦀\n"),
    ("count 3", ODD, "2 a\0b\n1 🦀🦀\n"),
    ("count 3", BLANK, ""),
    (
        "replay",
        "1 intern a\0b 🦀🦀\r\n1 link\n1 leave\n",
        "taken\nlinked e1 serial 1\nleft\nheld e1 1\n",
    ),
    ("generate 0 1", "a\0b 🦀🦀\r\n", ODD_TABLE),
    ("check", ODD_TABLE, "yes\n"),
    (
        "generate 18446744073709551615 4294967295",
        "sentence\n",
        "key 18446744073709551615\ndisp 0 0\natom aa225b84bf184531 sentence\n",
    ),
    (
        "words",
        WORDS_BEYOND_ASCII,
        "Not seen the word \"naïveté\" before
Not seen the word \"ετυμολογία\" before
Seen the word \"naïveté\" 1 times
Not seen the word \"字\" before
Seen the word \"naïveté\" 2 times
Seen the word \"字\" 1 times
",
    ),
    (
        "words",
        "interned interned\u{a0}interned",
        "Not seen the word \"interned\" before
Seen the word \"interned\" 1 times
Seen the word \"interned\" 2 times
",
    ),
    (
        "count 1",
        WORDS_BEYOND_ASCII,
        "3 naïveté\n1 ετυμολογία\n2 字\n",
    ),
    (
        "count 3",
        WORDS_BEYOND_ASCII,
        "3 naïveté\n1 ετυμολογία\n2 字\n",
    ),
    ("count 1", "interned interned interned", "3 interned\n"),
    ("count 3", "interned interned interned", "3 interned\n"),
    (
        "replay",
        "1 intern café au lait\n1 link\n2 clone e1\n1 leave\n1 intern ετυμολογία\n1 link\n1 leave\n1 intern 字字\n",
        "taken\nlinked e1 serial 1\ncloned 2\nleft\ntaken\nlinked e2 serial 1\nleft\nno\nheld e1 2\nheld e2 1\n",
    ),
    ("generate 0 1", "café au lait\n", TABLE_BEYOND_ASCII),
    ("check", TABLE_BEYOND_ASCII, "yes\n"),
    (
        "check",
        "key 0\ndisp 0 0\natom 81128fc18b9ccd76 café au lait",
        "no\n",
    ),
    (
        "check",
        "\u{feff}key 0\ndisp 0 0\natom 81128fc18b9ccd76 café au lait\n",
        "no\n",
    ),
    (
        "check",
        "key 0\ndisp 0 0\natom 81128fc18b9ccd76\u{a0}café au lait\n",
        "no\n",
    ),
];

/// Whether a row is right without keys: commands that hash words are refused, and others write their outputs.
fn is_right_without<R: Threads + Wait + Sync + Abort>(rt: &R, alloc: Global, row: &Row) -> bool {
    let (line, input, output) = *row;
    if line.starts_with("words") || line.starts_with("count") {
        output_of(rt, alloc, None, line, input.as_bytes()).is_none()
    } else {
        writes_under(rt, alloc, None, (line, input.as_bytes()), output.as_bytes())
    }
}

#[test]
fn beyond_ascii_without_keys(rt: HostRuntime) {
    for row in &ROWS {
        assert_for(&rt, is_right_without(&rt, rt.alloc(), row), &(row.0, row.1));
    }
}

/// Whether a row is right under the keys of each number.
fn is_right_under_any<R: Threads + Wait + Sync + Abort>(rt: &R, alloc: Global, row: &Row) -> bool {
    let (line, input, output) = *row;
    is_written_under_any(rt, alloc, (line, input.as_bytes()), output.as_bytes())
}

/// Whether the program writes this output under the keys of each number.
fn is_written_under_any<R: Threads + Wait + Sync + Abort>(
    rt: &R,
    alloc: Global,
    (line, input): (&str, &[u8]),
    output: &[u8],
) -> bool {
    for n in &NUMBERS {
        if !writes_under(rt, alloc, keys(*n), (line, input), output) {
            return false;
        }
    }
    true
}

#[test]
fn beyond_ascii_under_any_keys(rt: HostRuntime) {
    for row in &ROWS {
        assert_for(
            &rt,
            is_right_under_any(&rt, rt.alloc(), row),
            &(row.0, row.1),
        );
    }
}

/// Whether this line writes the same for the text, and not nothing, under the keys of each number.
fn is_same_under_any<R: Threads + Wait + Sync + Abort>(
    rt: &R,
    alloc: Global,
    line: &str,
    text: &str,
) -> bool {
    match output_of(rt, alloc, keys(1), line, text.as_bytes()) {
        Some(first) => {
            !first.is_empty() && is_written_under_any(rt, alloc, (line, text.as_bytes()), &first)
        }
        None => false,
    }
}

/// 1,024 different words, each of which occurs twice.
#[test]
fn many_words_under_any_keys(rt: HostRuntime) {
    let text = numbered_words(&rt, rt.alloc(), 2_048);
    for line in &["words", "count 1", "count 4"] {
        assert_for(&rt, is_same_under_any(&rt, rt.alloc(), line, &text), line);
    }
}

#[test]
fn beyond_ascii(rt: HostRuntime) {
    for (line, input, output) in &ROWS {
        let is_written = writes(&rt, rt.alloc(), line, input.as_bytes(), output.as_bytes());
        assert_for(&rt, is_written, &(line, input));
    }
}

fn owned<R: Abort>(rt: &R, alloc: Global, text: &str) -> String {
    String::from_str(alloc, text).expect(rt, "room")
}

/// A text with the lines that `words` and `count` write for it.
#[derive(Drop)]
struct Told {
    text: String,
    words: String,
    counts: String,
}

impl Told {
    /// The one word "interned", which will occur this many times.
    fn of_interned<R: Abort>(rt: &R, alloc: Global, times: u32) -> Told {
        Told {
            text: owned(rt, alloc, "interned"),
            words: owned(rt, alloc, "Not seen the word \"interned\" before\n"),
            counts: format!(in alloc; "{times} interned\n").expect(rt, "room"),
        }
    }

    /// Goes on with a new word, the same word again, and "interned", which occurred `n` times before.
    fn go_on<R: Abort>(&mut self, rt: &R, word: &str, n: u32) {
        write!(self.text, " {word}{n:05}\n{word}{n:05} interned").expect(rt, "room");
        write!(
            self.words,
            "Not seen the word \"{word}{n:05}\" before\nSeen the word \"{word}{n:05}\" 1 times\nSeen the word \"interned\" {n} times\n"
        )
        .expect(rt, "room");
        writeln!(self.counts, "2 {word}{n:05}").expect(rt, "room");
    }
}

/// A text in which each of this many words with one beginning occurs twice, and between them the same word.
fn told_of<R: Abort>(rt: &R, alloc: Global, word: &str, count: u32) -> Told {
    let mut told = Told::of_interned(rt, alloc, count.saturating_add(1));
    for n in 1..=count {
        told.go_on(rt, word, n);
    }
    told
}

/// Whether the program writes this output for the text.
fn is_told<R: Threads + Wait + Sync + Abort>(
    rt: &R,
    alloc: Global,
    line: &str,
    text: &str,
    output: &str,
) -> bool {
    writes(rt, alloc, line, text.as_bytes(), output.as_bytes())
}

/// Whether the words are listed, also alone, and counted by one worker and by three.
fn are_told<R: Threads + Wait + Sync + Abort>(rt: &R, alloc: Global, told: &Told) -> bool {
    are_lines(alloc, &told.text, &told.words)
        && is_told(rt, alloc, "words", &told.text, &told.words)
        && is_told(rt, alloc, "count 1", &told.text, &told.counts)
        && is_told(rt, alloc, "count 3", &told.text, &told.counts)
}

/// Whether that is so for a text of at least this many bytes.
fn are_many_told<R: Threads + Wait + Sync + Abort>(
    rt: &R,
    alloc: Global,
    (word, count): (&str, u32),
    bytes: usize,
) -> bool {
    let told = told_of(rt, alloc, word, count);
    told.text.len() >= bytes && are_told(rt, alloc, &told)
}

/// Of 350 long words, and of 5,000 short ones.
#[test]
fn two_megabytes_of_words(rt: HostRuntime) {
    let long = "字".repeat(rt.alloc(), 1_000).expect(&rt, "room");
    let long = (long.as_str(), 350);
    assert_that(&rt, are_many_told(&rt, rt.alloc(), long, 2_000_000));
    assert_that(
        &rt,
        are_many_told(&rt, rt.alloc(), ("word", 70_000), 1_000_000),
    );
}

/// Whether the text is interned by a script.
fn is_interned<R: Threads + Wait + Sync + Abort>(rt: &R, alloc: Global, text: &str) -> bool {
    let script = format!(in alloc; "1 intern {text}\n1 link\n1 leave\n").expect(rt, "room");
    let replies = "taken\nlinked e1 serial 1\nleft\nheld e1 1\n";
    is_told(rt, alloc, "replay", &script, replies)
}

/// Whether the text's table has this hash under the key 5, and is checked.
fn is_placed<R: Threads + Wait + Sync + Abort>(
    rt: &R,
    alloc: Global,
    text: &str,
    hash: &str,
) -> bool {
    let table = format!(in alloc; "key 5\ndisp 0 0\natom {hash} {text}\n").expect(rt, "room");
    is_told(rt, alloc, "generate 5 1", text, &table) && is_told(rt, alloc, "check", &table, "yes\n")
}

/// One text of more than two megabytes. Its hash was worked out by another program.
#[test]
fn two_megabytes_in_a_line(rt: HostRuntime) {
    let text = "字".repeat(rt.alloc(), 700_000).expect(&rt, "room");
    assert_that(&rt, text.len() > 2_000_000);
    assert_that(&rt, is_interned(&rt, rt.alloc(), &text));
    assert_that(&rt, is_placed(&rt, rt.alloc(), &text, "cbd6f7cf3f1ece22"));
}

/// A list of 1,000 names.
fn thousand<R: Abort>(rt: &R, alloc: Global) -> String {
    let mut names = String::new(alloc);
    for n in 1000..2000 {
        writeln!(names, "{n} 字字字字字字字字字字字字字字字字字字字字字字字字字").expect(rt, "room");
    }
    names
}

/// Whether the names have a table text of more than 100,000 bytes, which is checked.
fn have_table<R: Threads + Wait + Sync + Abort>(rt: &R, alloc: Global, names: &str) -> bool {
    match output_of(rt, alloc, keys(1), "generate 0 2048", names.as_bytes()) {
        Some(table) => table.len() > 100_000 && writes(rt, alloc, "check", &table, b"yes\n"),
        None => false,
    }
}

/// A list of 1,000 names, and its table text of more than 100,000 bytes.
#[test]
fn thousand_names(rt: HostRuntime) {
    let names = thousand(&rt, rt.alloc());
    assert_that(&rt, have_table(&rt, rt.alloc(), &names));
}
