//! The worked scripts, large scripts, and texts that are no scripts.

use crate::memory::{Outcome, Streams};
use crate::program::{NOT_TEXT, Run, try_runs};
use crate::{assert_for, assert_that};
use commands::replay::replay;
use std::alloc::Global;
use std::process::Abort;
use text_streams::faults::AppFault;
use text_streams::streams::Io;

/// What `replay` returns and writes over these streams.
pub fn replayed(alloc: Global, streams: &Streams) -> Outcome {
    let mut page = streams.writer();
    let answer = replay(alloc, &mut streams.reader(), &mut page);
    Outcome { answer, page }
}

/// A script with what it prints: an entry dies before another party adds a holder.
pub const DYING_ENTRY: (&[u8], &[u8]) = (
    b"1 intern tokenised
1 link
1 leave
2 intern tokenised
1 give e1
2 add e1
2 link
2 unlink e1
2 leave
2 free e1
2 free e1
",
    b"taken
linked e1 serial 1
left
taken
given 0
dying
linked e2 serial 2
unlinked
left
freed
no
held e2 1
",
);

/// One with limits that are met.
pub const LIMITS: (&[u8], &[u8]) = (
    b"limits 1 1
1 intern tokenised
1 link
1 leave
1 clone e1
2 intern tokenised
2 leave
2 add e1
2 leave
1 give e1
2 intern tokenised
2 add e1
2 link
2 leave
2 unlink e1
2 leave
2 free e1
",
    b"taken
linked e1 serial 1
left
full
taken
no
full
left
given 0
taken
dying
spent
no
unlinked
left
freed
",
);

/// One whose link finds no room.
pub const NO_ROOM: (&[u8], &[u8]) = (
    b"1 intern interned
1 link noroom
1 leave
1 link
1 intern short
",
    b"taken
memory
left
no
no
",
);

/// Scripts with what they print, worked out by hand from the table of steps.
static WORKED: [(&[u8], &[u8]); 9] = [
    DYING_ENTRY,
    LIMITS,
    NO_ROOM,
    (
        b"1 intern interned
1 link
2 clone e1
1 leave
2 give e1
",
        b"taken
linked e1 serial 1
cloned 2
left
given 1
held e1 1
",
    ),
    (
        b"1 intern interned
1 link
1 leave
1 intern interned
2 intern interned
1 unlink e1
1 leave
1 add e1
1 leave
",
        b"taken
linked e1 serial 1
left
taken
no
kept
no
added 2
left
held e1 2
",
    ),
    (
        b"1 sweep 4095
1 leave
1 sweep 4096
1 give e1
",
        b"taken
left
no
no
",
    ),
    (
        b"buckets 0
1 intern interned
1 link
1 leave
2 intern tokenised
2 link
2 leave
2 unlink e1
2 leave
1 sweep 1
",
        b"taken
linked e1 serial 1
left
taken
linked e2 serial 2
no
kept
left
no
held e1 1
held e2 1
",
    ),
    (
        b"limits 1 1
buckets 14
1 sweep 16383
1 leave
1 sweep 16384
",
        b"taken
left
no
",
    ),
    (
        b"limits 2 2
1 intern interned
1 link
1 leave
2 intern interned
2 add e1
2 leave
3 clone e1
3 give e1
3 give e1
3 give e1
1 intern interned
1 link
1 add e1
1 link
1 leave
1 unlink e1
1 leave
2 free e1
1 free e1
1 give e2
1 intern interned
1 add e2
1 link
1 unlink e2
1 leave
1 free e2
",
        b"taken
linked e1 serial 1
left
taken
added 2
left
full
given 1
given 0
no
taken
no
dying
linked e2 serial 2
no
unlinked
left
no
freed
given 0
taken
dying
spent
unlinked
left
freed
",
    ),
];

#[test]
fn worked_scripts(rt: HostRuntime) {
    for (script, output) in &WORKED {
        let run = Run::Given("replay", script, output);
        assert_for(&rt, run.is_right(&rt, rt.alloc()), script);
    }
}

/// Whether the script is refused as no text, and nothing is written.
fn is_no_text(alloc: Global, script: &[u8]) -> bool {
    replayed(alloc, &Streams::ample(script)).is(Err(AppFault::Text), b"")
}

#[test]
fn not_a_text(rt: HostRuntime) {
    assert_that(&rt, is_no_text(rt.alloc(), b"\xff"));
    assert_that(&rt, is_no_text(rt.alloc(), b"1 jump\n\xff"));
}

pub const SCRIPT: &[u8] = b"1 intern interned\n1 link\n2 clone e1\n1 leave\n2 give e1\n";

pub const OUTPUT: &[u8] = b"taken\nlinked e1 serial 1\ncloned 2\nleft\ngiven 1\nheld e1 1\n";

/// Whether the script is replayed with these lines, of any size.
fn prints(alloc: Global, script: &str, lines: &str) -> bool {
    let mut writer = Io::new(Vec::new(alloc));
    let answer = replay(alloc, &mut Io::new(script.as_bytes()), &mut writer);
    answer == Ok(()) && writer.into_inner().as_slice() == lines.as_bytes()
}

/// A sweep of each bucket below 20,000.
fn script_of_sweeps<R: Abort>(rt: &R, alloc: Global) -> String {
    let mut script = String::new(alloc);
    for bucket in 0..20_000u32 {
        write!(script, "1 sweep {bucket}\n1 leave\n").expect(rt, "room");
    }
    script
}

/// A text this many times, followed by another one this many times.
fn lines_of<R: Abort>(
    rt: &R,
    alloc: Global,
    (first, times): (&str, usize),
    (then, more): (&str, usize),
) -> String {
    let mut lines = first.repeat(alloc, times).expect(rt, "room");
    for _ in 0..more {
        lines.push_str(then).expect(rt, "room");
    }
    lines
}

/// Whether what the script prints is too much for a page.
fn overflows(alloc: Global, script: &str) -> bool {
    replayed(alloc, &Streams::ample(script.as_bytes())).answer == Err(AppFault::Write)
}

/// A script that takes several reads, and an output of more than one piece, which takes several writes, a later one of which may fail. There are 4096
/// buckets.
#[test]
fn more_than_one_piece(rt: HostRuntime) {
    let script = script_of_sweeps(&rt, rt.alloc());
    let lines = lines_of(
        &rt,
        rt.alloc(),
        ("taken\nleft\n", 4096),
        ("no\nno\n", 15_904),
    );
    assert_that(&rt, prints(rt.alloc(), &script, &lines));
    assert_that(&rt, overflows(rt.alloc(), &script));
}

/// A pass over a bucket, followed by 550 steps that aren't enabled, each of this text.
fn large_script_of<R: Abort>(rt: &R, alloc: Global, text: &str) -> String {
    let mut script = String::from_str(alloc, "1 sweep 0\n").expect(rt, "room");
    for _ in 0..550 {
        writeln!(script, "1 intern {text}").expect(rt, "room");
    }
    script
}

/// More than a megabyte of long lines: each text has 2,000 bytes.
#[test]
fn large_script(rt: HostRuntime) {
    let text = "abcdefghijklmnopqrst"
        .repeat(rt.alloc(), 100)
        .expect(&rt, "room");
    let script = large_script_of(&rt, rt.alloc(), &text);
    let lines = lines_of(&rt, rt.alloc(), ("taken\n", 1), ("no\n", 550));
    assert_that(&rt, script.len() > 1_100_000);
    assert_that(&rt, prints(rt.alloc(), &script, &lines));
}

static RUNS: [Run; 5] = [
    Run::Given("replay", SCRIPT, OUTPUT),
    Run::Given("replay", b"", b""),
    Run::Refused("replay", b"1 jump", b"atoms: line 1: not a step\n"),
    Run::Refused(
        "replay",
        b"1 link\n1 jump\n1 jump\n",
        b"atoms: line 2: not a step\n",
    ),
    Run::Refused("replay", b"\xff", NOT_TEXT),
];

#[test]
fn program_of_scripts(rt: HostRuntime) {
    try_runs(&rt, rt.alloc(), &RUNS);
}
