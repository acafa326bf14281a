//! Calls over 1,024 different dynamic words, each of which occurs twice, some with a writer that takes nothing: `gate/refusals/refused.py` checks
//! that no block is left of what they took.

ghost use Rattle.std.specs.Prelude.{◌≡◌, false};

use super::programs::numbered_words;
use crate::assert_that;
use crate::memory::{Bytes, Lost, Page, Streams};
use crate::replay::{SCRIPT, replayed};
use commands::count::count_command;
use commands::generate::generate_command;
use commands::words::words_command;
use std::alloc::Global;
use std::io::Print;
use std::sync::Wait;
use std::thread::Threads;
use test_refusals::{End, begin, finish};
use test_samples::keys;
use text_streams::faults::AppFault;
use text_streams::streams::Sink;

/// Lists the words of a text.
fn tell<R: Wait, K: Sink>(rt: &R, alloc: Global, text: &str, writer: &mut K) -> Result<(), AppFault>
    requires { K.has_failed writer.old ≡ false }
{
    let keys = keys(1).ok_or(AppFault::Keys)?;
    words_command(rt, alloc, keys, &mut Bytes::whole(text.as_bytes()), writer)
}

/// Counts them by two workers.
pub fn count_by_two<R: Threads + Wait + Sync, K: Sink>(
    rt: &R,
    alloc: Global,
    text: &str,
    writer: &mut K,
) -> Result<(), AppFault>
    requires { K.has_failed writer.old ≡ false }
{
    let keys = keys(1).ok_or(AppFault::Keys)?;
    let reader = &mut Bytes::whole(text.as_bytes());
    count_command(rt, alloc, keys, 2, reader, writer)
}

/// Whether a watched call lists the words of the text.
fn are_told<R: Wait + Print>(rt: &R, alloc: Global, text: &str) -> bool {
    begin(rt);
    let answer = tell(rt, alloc, text, &mut Lost);
    finish(rt, End::of(&answer));
    answer == Ok(())
}

#[test]
fn words_are_told(rt: HostRuntime) {
    let text = numbered_words(&rt, rt.alloc(), 2_048);
    assert_that(&rt, are_told(&rt, rt.alloc(), &text));
}

/// Whether two workers count them in a watched call.
fn are_counted<R: Threads + Wait + Sync + Print>(rt: &R, alloc: Global, text: &str) -> bool {
    begin(rt);
    let answer = count_by_two(rt, alloc, text, &mut Lost);
    finish(rt, End::of(&answer));
    answer == Ok(())
}

#[test]
fn words_are_counted(rt: HostRuntime) {
    let text = numbered_words(&rt, rt.alloc(), 2_048);
    assert_that(&rt, are_counted(&rt, rt.alloc(), &text));
}

/// What makes the tables of a text returns, if nothing can be written.
fn make_unwritten(alloc: Global) -> Result<(), AppFault> {
    let reader = &mut Bytes::whole(b"interned");
    generate_command(alloc, 0, 1, reader, &mut Page::new(0, 0))
}

/// Whether each watched call says that nothing can be written.
fn are_unwritten<R: Threads + Wait + Sync + Print>(rt: &R, alloc: Global, text: &str) -> bool {
    begin(rt);
    let told = tell(rt, alloc, text, &mut Page::new(0, 0));
    let counted = count_by_two(rt, alloc, text, &mut Page::new(0, 0));
    let replayed = replayed(alloc, &Streams::writing(SCRIPT, 0, 0)).answer;
    let made = make_unwritten(alloc);
    finish(rt, End::of(&told));
    let unwritten = Err(AppFault::Write);
    told == unwritten && counted == unwritten && replayed == unwritten && made == unwritten
}

#[test]
fn unwritten_lines_leave_nothing(rt: HostRuntime) {
    let text = numbered_words(&rt, rt.alloc(), 2_048);
    assert_that(&rt, are_unwritten(&rt, rt.alloc(), &text));
}
