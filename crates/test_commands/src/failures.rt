//! A reader that fails at one of its reads, and a writer that fails at one of its writes, each in turn.

use crate::assert_for;
use crate::memory::{GIVES, Outcome, Streams};
use crate::program::EXAMPLE_COUNTS;
use crate::replay::{OUTPUT, SCRIPT, replayed};
use crate::words::{EXAMPLE_LINES, told_alone, told_in_new_set};
use commands::count::count_command;
use std::alloc::Global;
use std::process::Abort;
use std::sync::Wait;
use std::thread::Threads;
use test_samples::{EXAMPLE, keys};
use text_streams::faults::AppFault;

/// A call that reads all and writes.
#[derive(Clone, Copy, Debug)]
enum Call {
    Words,
    WordsAlone,
    CountByTwo,
    Replay,
}

static CALLS: [Call; 4] = [
    Call::Words,
    Call::WordsAlone,
    Call::CountByTwo,
    Call::Replay,
];

impl Call {
    /// What it reads, and what it writes of that.
    fn texts(self) -> (&'static [u8], &'static [u8]) {
        match self {
            Call::Words | Call::WordsAlone => (EXAMPLE, EXAMPLE_LINES),
            Call::CountByTwo => (EXAMPLE, EXAMPLE_COUNTS),
            Call::Replay => (SCRIPT, OUTPUT),
        }
    }

    /// What it returns and writes over these streams.
    fn make<R: Threads + Wait + Sync>(self, rt: &R, alloc: Global, streams: &Streams) -> Outcome {
        match self {
            Call::Words => told_in_new_set(rt, alloc, streams),
            Call::WordsAlone => told_alone(alloc, streams),
            Call::CountByTwo => counted_by_two(rt, alloc, streams),
            Call::Replay => replayed(alloc, streams),
        }
    }

    /// Whether that is this answer, and these lines.
    fn gives<R: Threads + Wait + Sync>(
        self,
        rt: &R,
        alloc: Global,
        streams: &Streams,
        answer: Result<(), AppFault>,
        lines: &[u8],
    ) -> bool {
        self.make(rt, alloc, streams).is(answer, lines)
    }

    /// The number of reads that it makes, the last of which gives no bytes.
    fn reads(self) -> u64 {
        let (input, _) = self.texts();
        input.len().div_ceil(GIVES) as u64 + 1
    }
}

fn counted_by_two<R: Threads + Wait + Sync>(rt: &R, alloc: Global, streams: &Streams) -> Outcome {
    let mut page = streams.writer();
    let answer = match keys(1) {
        Some(keys) => count_command(rt, alloc, keys, 2, &mut streams.reader(), &mut page),
        None => Err(AppFault::Keys),
    };
    Outcome { answer, page }
}

/// Whether a read that fails is reported, and then nothing is written, or there is no such read.
fn is_read_told<R: Threads + Wait + Sync>(rt: &R, alloc: Global, call: Call, at: u64) -> bool {
    let (input, output) = call.texts();
    let streams = Streams::reading(input, at);
    if at > call.reads() {
        call.gives(rt, alloc, &streams, Ok(()), output)
    } else {
        call.gives(rt, alloc, &streams, Err(AppFault::Read), b"")
    }
}

/// Each read fails in turn, including the one that would reach the end: then nothing is written.
#[test]
fn each_read_fails(rt: HostRuntime) {
    for call in &CALLS {
        for at in 1..=call.reads().saturating_add(1) {
            assert_for(&rt, is_read_told(&rt, rt.alloc(), *call, at), &(call, at));
        }
    }
}

/// Whether all is written if each read gives one byte.
fn reads_all<R: Threads + Wait + Sync>(rt: &R, alloc: Global, call: Call) -> bool {
    let (input, output) = call.texts();
    call.gives(rt, alloc, &Streams::dripping(input), Ok(()), output)
}

#[test]
fn each_read_gives_one_byte(rt: HostRuntime) {
    for call in &CALLS {
        assert_for(&rt, reads_all(&rt, rt.alloc(), *call), call);
    }
}

/// Whether a write that fails is reported, and exactly these bytes are written before it.
fn is_write_told<R: Threads + Wait + Sync>(
    rt: &R,
    alloc: Global,
    call: Call,
    (takes, at): (usize, u64),
    before: &[u8],
) -> bool {
    let (input, _) = call.texts();
    let streams = Streams::writing(input, takes, at);
    call.gives(rt, alloc, &streams, Err(AppFault::Write), before)
}

/// Whether everything is written if each write takes at most `takes` bytes.
fn writes_all<R: Threads + Wait + Sync>(rt: &R, alloc: Global, call: Call, takes: usize) -> bool {
    let (input, output) = call.texts();
    let streams = Streams::writing(input, takes, 0);
    call.gives(rt, alloc, &streams, Ok(()), output)
}

/// Each write of at most `takes` bytes fails in turn: then exactly what was taken before is written.
fn fail_each_write<R: Threads + Wait + Sync + Abort>(
    rt: &R,
    alloc: Global,
    call: Call,
    takes: usize,
) {
    let (_, output) = call.texts();
    let mut before = 0usize;
    for at in 1..=output.len() as u64 {
        if before >= output.len() {
            break;
        }
        assert_for(
            rt,
            is_write_told(rt, alloc, call, (takes, at), &output[..before]),
            &(call, at),
        );
        before = before.saturating_add(takes);
    }
    assert_for(rt, writes_all(rt, alloc, call, takes), &call);
}

#[test]
fn each_write_fails(rt: HostRuntime) {
    for call in &CALLS {
        for takes in [1, 7] {
            fail_each_write(&rt, rt.alloc(), *call, takes);
        }
    }
}

/// A writer that takes one byte per call and fails at call 41, and one that takes none.
#[test]
fn writes_of_the_example_fail(rt: HostRuntime) {
    let before = b"Not seen the word \"here\" before\nNot seen";
    for call in &[Call::Words, Call::WordsAlone] {
        assert_for(
            &rt,
            is_write_told(&rt, rt.alloc(), *call, (1, 41), before),
            call,
        );
        assert_for(
            &rt,
            is_write_told(&rt, rt.alloc(), *call, (0, 0), b""),
            call,
        );
    }
}
