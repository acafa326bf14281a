//! Lines that the grammar allows, and lines that it doesn't; scripts of many steps, and what a fault prints.

use crate::texts::is_printed_as;
use crate::{assert_for, assert_that};
use replay_script::{ScriptFault, next_line, replay_text};
use std::alloc::{AllocError, Global};

/// As `replay_text`. If memory was refused, the call is made once more.
fn replayed(alloc: Global, script: &str) -> Result<String, ScriptFault> {
    match replay_text(alloc, script) {
        Err(ScriptFault::Memory) => replay_text(alloc, script),
        first => first,
    }
}

/// Whether the script is replayed, with this output.
fn gives(alloc: Global, script: &str, output: &str) -> bool {
    match replayed(alloc, script) {
        Ok(written) => written.as_str() == output,
        Err(_) => false,
    }
}

/// Whether the script's first bad line is this one.
fn is_bad_at(alloc: Global, script: &str, line: u64) -> bool {
    match replayed(alloc, script) {
        Err(ScriptFault::NotAStep(bad)) => bad == line,
        _ => false,
    }
}

/// A text is the rest of its line as it is, the last line may lack its line feed, and numbers reach their bounds. A text of 7 bytes is inline and
/// takes no bucket, so a byte that got lost would show.
static GOOD: [(&str, &str); 19] = [
    ("", ""),
    ("limits 1 1", ""),
    ("limits 9223372036854775807 281474976710655\n", ""),
    ("buckets 0", ""),
    ("limits 1 1\nbuckets 14\n", ""),
    ("1 link", "no\n"),
    (
        "4294967295 sweep 4294967295\n1 sweep 0\n1 leave\n1 add e18446744073709551615\n1 free e10",
        "no\ntaken\nleft\nno\nno\n",
    ),
    ("4294967295 intern \u{feff}interned\u{3000}", "taken\n"),
    ("1 intern  a", "no\n"),
    ("1 intern a b", "no\n"),
    ("1 intern  ", "no\n"),
    ("1 intern a\r\n", "no\n"),
    ("1 intern  234567", "no\n"),
    ("1 intern  2345678", "taken\n"),
    ("1 intern 1234567 ", "taken\n"),
    ("1 intern 1234567\r\n", "taken\n"),
    ("1 intern 123456\0", "no\n"),
    (
        "1 intern 1234567\0\n1 link\n2 intern 長さ、大きさ\n2 link",
        "taken\nlinked e1 serial 1\ntaken\nlinked e2 serial 1\nheld e1 1\nheld e2 1\n",
    ),
    (
        "1 intern interned\r\n1 link\n1 leave\n1 intern interned\n1 add e1\n",
        "taken\nlinked e1 serial 1\nleft\ntaken\nno\nheld e1 1\n",
    ),
];

#[test]
fn good_lines(rt: HostRuntime) {
    for (script, output) in &GOOD {
        assert_for(&rt, gives(rt.alloc(), script, output), script);
    }
}

/// Lines that spell no step, no limits and no number of buckets, between line feeds.
const BAD_LINES: &str = "
1 jump
1 jump \
    abcdefghijklmnopqrstuvwxyzabcdefghijklmnopqrstuvwxyzabcdefghijklmnopqrstuvwxyzabcdefghijklmnopqrstuvwxyz\
    abcdefghijklmnopqrstuvwxyzabcdefghijklmnopqrstuvwxyzabcdefghijklmnopqrstuvwxyzabcdefghijklmnopqrstuvwxyz\
    abcdefghijklmnopqrstuvwxyzabcdefghijklmnopqrstuvwxyzabcdefghijklmnopqrstuvwxyzabcdefghijklmnopqrstuvwxyz
\u{feff}1 link
1\u{a0}link
1 link\u{3000}
１ link
link
1
1\x20
 1 link
1  link
1 link\x20
1 link  noroom
1 link noroom\x20
1 link room
1 Link
1 link\r
1 leave now
1\tlink
1 intern
1 intern\x20
1 sweep
1 sweep\x20
1 sweep  1
1 sweep 1\x20
1 sweep x
1 sweep 1x
1 sweep +1
1 sweep -1
1 sweep 01
1 sweep 00
1 sweep 4294967296
1 add
1 add 1
1 add e
1 add e0
1 add e01
1 add e+1
1 add e-1
1 add  e1
1 add e 1
1 add E1
1 add e18446744073709551616
1 clone e0
1 give e0
1 unlink e0
1 free e0
1 free e1\x20
0 link
00 link
01 link
+1 link
-1 link
4294967296 link
18446744073709551617 link
limits
limits\x20
limits 1
limits 1\x20
limits 1 1\x20
limits 1 1\r
limits  1 1
limits 1  1
limits 0 1
limits 1 0
limits 01 1
limits 1 01
limits +1 1
limits 1 +1
limits -1 1
limits 9223372036854775808 1
limits 1 281474976710656
limits 1 1125899906842623
Limits 1 1
buckets
buckets\x20
buckets 15
buckets 012
buckets 00
buckets  1
buckets 1\x20
buckets +1
buckets -1
buckets 256
buckets 268
buckets 18446744073709551616
buckets 1 1
Buckets 1";

#[test]
fn bad_lines(rt: HostRuntime) {
    for line in BAD_LINES.split('\n').skip(1) {
        assert_for(&rt, is_bad_at(rt.alloc(), line, 1), &line);
    }
}

/// The first bad line is named.
static NAMED: [(&str, u64); 21] = [
    ("\n", 1),
    ("\n\n", 1),
    ("\n1 link", 1),
    ("1 link\n\n", 2),
    ("limits 1 1\n\n", 2),
    ("1 jump\n1 jump", 1),
    ("1 sweep 1\n1 leave\n1 jump\n1 link\n1 jump\n", 3),
    ("limits 1 1\nlimits 1 1\n", 2),
    ("1 link\nlimits 1 1\n", 2),
    ("1 link\n1 link\r\n1 link\n", 2),
    ("1 link\n1 link\0\n1 link\n", 2),
    ("1 intern 123456\0\n1 intern 長さ、大きさ\n1 jump", 3),
    ("limits 1 1\n1 link\n0 link", 3),
    ("buckets 1\nbuckets 1\n", 2),
    ("1 link\nbuckets 1\n", 2),
    ("buckets 1\nlimits 1 1\n", 2),
    ("limits 1 1\nbuckets 15\n", 2),
    ("limits 1 1\nbuckets 1\nbuckets 1\n", 3),
    ("limits 1 1\nbuckets 1\nlimits 1 1\n", 3),
    ("limits 1 1\n1 link\nbuckets 1\n", 3),
    ("limits 1 1\nbuckets 1\n1 link\n0 link", 4),
];

#[test]
fn bad_line_is_named(rt: HostRuntime) {
    for (script, line) in &NAMED {
        assert_for(&rt, is_bad_at(rt.alloc(), script, *line), script);
    }
}

/// Whether so many steps, none of which is enabled, print as many lines.
fn are_all_replied(alloc: Global, steps: usize) -> Result<bool, AllocError> {
    let script = "1 leave\n".repeat(alloc, steps)?;
    let lines = "no\n".repeat(alloc, steps)?;
    Ok(gives(alloc, &script, &lines))
}

/// More steps than are kept before they are made, which are 4,096, and as many, once and twice.
static MANY: [usize; 3] = [4_096, 5_000, 8_192];

#[test]
fn many_steps(rt: HostRuntime) {
    for steps in &MANY {
        assert_for(&rt, are_all_replied(rt.alloc(), *steps) == Ok(true), steps);
    }
}

/// As many lines of output as there are steps, and a script of 808,000 bytes.
#[test]
fn many_lines_of_output(rt: HostRuntime) {
    assert_that(&rt, are_all_replied(rt.alloc(), 101_000) == Ok(true));
}

/// Adds the steps of a pass that links an entry of this number, and looks at those before it, in the only bucket.
fn add_pass(script: &mut String, n: u64) -> Result<(), AllocError> {
    write!(script, "1 intern interned{n}\n1 link\n")?;
    for entry in 1..n {
        writeln!(script, "1 unlink e{entry}")?;
    }
    script.push_str("1 leave\n")
}

/// The steps that link this many entries, clone the last of them as often, and have another party find it.
fn script_of_entries(alloc: Global, count: u64) -> Result<String, AllocError> {
    let mut script = String::from_str(alloc, "buckets 0\n")?;
    for n in 1..=count {
        add_pass(&mut script, n)?;
    }
    for _ in 0..count {
        writeln!(script, "1 clone e{count}")?;
    }
    write!(
        script,
        "1 give e{count}\n2 intern interned{count}\n2 add e{count}\n"
    )?;
    Ok(script)
}

/// Adds what is printed of such a pass.
fn add_replies(lines: &mut String, n: u64) -> Result<(), AllocError> {
    write!(lines, "taken\nlinked e{n} serial {n}\n")?;
    for _ in 1..n {
        lines.push_str("kept\n")?;
    }
    lines.push_str("left\n")
}

/// What is printed of them: the numbers of entries and serials, and those of holders, one of which goes, and one comes.
fn lines_of_entries(alloc: Global, count: u64) -> Result<String, AllocError> {
    let mut lines = String::new(alloc);
    for n in 1..=count {
        add_replies(&mut lines, n)?;
    }
    for n in 1..=count {
        writeln!(lines, "cloned {}", n.saturating_add(1))?;
    }
    let found = count.saturating_add(1);
    write!(lines, "given {count}\ntaken\nadded {found}\n")?;
    for n in 1..count {
        writeln!(lines, "held e{n} 1")?;
    }
    writeln!(lines, "held e{count} {found}")?;
    Ok(lines)
}

/// Whether they are printed like that.
fn are_entries_held(alloc: Global, count: u64) -> Result<bool, AllocError> {
    let script = script_of_entries(alloc, count)?;
    let lines = lines_of_entries(alloc, count)?;
    Ok(gives(alloc, &script, &lines))
}

#[test]
fn many_entries_are_held(rt: HostRuntime) {
    assert_that(&rt, are_entries_held(rt.alloc(), 300) == Ok(true));
}

/// A script of this many good lines and a bad one.
fn script_with_bad_line(alloc: Global, good: usize) -> Result<String, AllocError> {
    let mut script = "1 leave\n".repeat(alloc, good)?;
    script.push_str("1 jump\n")?;
    Ok(script)
}

/// Whether the bad line is reported as the one after this many.
fn is_bad_behind(alloc: Global, good: u16) -> Result<bool, AllocError> {
    let script = script_with_bad_line(alloc, usize::from(good))?;
    Ok(is_bad_at(alloc, &script, u64::from(good).saturating_add(1)))
}

#[test]
fn bad_line_is_named_behind_many(rt: HostRuntime) {
    for good in 0..200u16 {
        assert_for(&rt, is_bad_behind(rt.alloc(), good) == Ok(true), &good);
    }
    assert_that(&rt, is_bad_behind(rt.alloc(), 65_535) == Ok(true));
}

#[test]
fn lines_one_by_one(rt: HostRuntime) {
    assert_that(
        &rt,
        next_line("1 link\n1 leave") == Some(("1 link", "1 leave")),
    );
    assert_that(&rt, next_line("1 leave\n") == Some(("1 leave", "")));
    assert_that(&rt, next_line("\n1 leave") == Some(("", "1 leave")));
    assert_that(&rt, next_line("").is_none());
}

#[test]
fn printed_faults(rt: HostRuntime) {
    let bad = ScriptFault::NotAStep(12);
    assert_that(&rt, is_printed_as(rt.alloc(), &bad, "line 12: not a step"));
    assert_that(
        &rt,
        is_printed_as(rt.alloc(), &ScriptFault::Memory, "no memory"),
    );
}
