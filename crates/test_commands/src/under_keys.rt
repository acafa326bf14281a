//! That no output depends on the keys under which words are hashed, which commands need keys, and how keys are drawn.

use crate::memory::Streams;
use crate::program::{EXAMPLE_COUNTS, NO_KEYS, NO_MEMORY, USAGE, ran, words_of_line};
use crate::words::{EXAMPLE_LINES, TEXTS, new_set, told_alone_under, told_under};
use crate::{assert_for, assert_that};
use commands::program::random_keys;
use std::alloc::Global;
use std::cell::Cell;
use std::hash::{BuildHasher, RandomState};
use std::io;
use std::process::Abort;
use std::random::RandomSource;
use std::sync::Wait;
use std::thread::Threads;
use string_cache::dynamic_set::Set;
use string_cache::{EmptyStaticAtomSet, Fault};
use test_samples::{EXAMPLE, Refusing, keys};
use text_streams::faults::AppFault;

/// Numbers that stand for keys, all of whose bytes differ.
pub static NUMBERS: [u64; 4] = [0, 2, 0x0123_4567_89ab_cdef, u64::MAX];

/// What the commands that hash words write for the example.
static OUTPUTS: [(&str, &[u8]); 3] = [
    ("words", EXAMPLE_LINES),
    ("count 1", EXAMPLE_COUNTS),
    ("count 4", EXAMPLE_COUNTS),
];

/// Whether the program writes this for the example under a number's keys.
fn is_written<R: Threads + Wait + Sync + Abort>(
    rt: &R,
    alloc: Global,
    n: u64,
    (line, output): (&str, &[u8]),
) -> bool {
    let args = words_of_line(rt, alloc, line);
    ran(rt, alloc, keys(n), Ok(Some(args)), &Streams::ample(EXAMPLE)).is(0, output, b"")
}

#[test]
fn example_under_any_keys(rt: HostRuntime) {
    for n in &NUMBERS {
        for row in &OUTPUTS {
            assert_for(&rt, is_written(&rt, rt.alloc(), *n, *row), &(n, row));
        }
    }
}

/// Whether a set and a table give these lines of the text under a number's keys.
fn are_told<R: Wait>(
    rt: &R,
    set: &Set<EmptyStaticAtomSet>,
    n: u64,
    (text, lines): (&[u8], &[u8]),
) -> bool {
    let streams = Streams::ample(text);
    told_alone_under(set.allocator(), keys(n), &streams).is(Ok(()), lines)
        && told_under(rt, set, keys(n), &streams).is(Ok(()), lines)
}

#[test]
fn texts_under_any_keys(rt: HostRuntime) {
    let set = new_set(&rt, rt.alloc());
    for n in &NUMBERS {
        for row in &TEXTS {
            assert_for(&rt, are_told(&rt, &set, *n, *row), &(n, row));
        }
    }
}

/// Whether the program without keys writes this line of a fault and nothing else, and ends with this status. Its first read would fail.
fn ends_without<R: Threads + Wait + Sync>(
    rt: &R,
    alloc: Global,
    args: Result<Option<Vec<String>>, AppFault>,
    status: u8,
    line: &[u8],
) -> bool {
    ran(rt, alloc, None, args, &Streams::reading(EXAMPLE, 1)).is(status, b"", line)
}

/// Whether a line of arguments has that outcome.
fn line_ends_without<R: Threads + Wait + Sync + Abort>(
    rt: &R,
    alloc: Global,
    words: &str,
    status: u8,
    line: &[u8],
) -> bool {
    let args = words_of_line(rt, alloc, words);
    ends_without(rt, alloc, Ok(Some(args)), status, line)
}

#[test]
fn words_and_counts_need_keys(rt: HostRuntime) {
    for line in &["words", "count 1", "count 64"] {
        assert_for(
            &rt,
            line_ends_without(&rt, rt.alloc(), line, 1, NO_KEYS),
            line,
        );
    }
}

/// Arguments of no command, and those for which there was no room, are reported in the same way with keys and without.
#[test]
fn no_command_needs_keys(rt: HostRuntime) {
    assert_that(&rt, line_ends_without(&rt, rt.alloc(), "jump", 2, USAGE));
    assert_that(&rt, ends_without(&rt, rt.alloc(), Ok(None), 2, USAGE));
    let no_room = Err(AppFault::Intern(Fault::Memory));
    assert_that(&rt, ends_without(&rt, rt.alloc(), no_room, 1, NO_MEMORY));
}

#[test]
fn no_keys_are_drawn(rt: HostRuntime) {
    assert_that(&rt, random_keys(&Refusing).is_none());
}

#[test]
fn system_gives_keys(rt: HostRuntime) {
    assert_that(&rt, random_keys(&rt).is_some());
}

/// Gives a byte of 1 at this place, zeros at all others, and counts how often it is asked.
#[derive(Drop)]
struct OneByte {
    place: usize,
    asked: Cell<u64>,
}

impl RandomSource for OneByte {
    fn fill_bytes(&self, buf: &mut [u8]) -> io::Result<()> {
        for (at, byte) in buf.iter_mut().enumerate() {
            *byte = if at == self.place { 1 } else { 0 };
        }
        self.asked.set(self.asked.get().wrapping_add(1));
        Ok(())
    }
}

/// The hash of the number 7 under these keys.
fn hash_under(keys: Option<RandomState>) -> Option<u64> {
    match keys {
        Some(keys) => Some(keys.hash_one(7u64)),
        None => None,
    }
}

/// Whether 7 has this hash under the keys that are drawn from such a source, which is asked once.
fn is_drawn(place: usize, hash: u64) -> bool {
    let source = OneByte {
        place,
        asked: Cell::new(0),
    };
    hash_under(random_keys(&source)) == Some(hash) && source.asked.get() == 1
}

/// SipHash-1-3 of the eight bytes of 7, under a key of 16 bytes, this one 1 and the others 0, as another program worked it out.
static HASHES: [u64; 16] = [
    0x0735_0c57_b431_0903,
    0x14b2_9fd2_56c4_ffd3,
    0xe7ad_0d28_a522_f4dd,
    0xf3da_1e3f_4b89_8b56,
    0xce04_81bd_a532_f77c,
    0x5fd6_2aa4_8434_f868,
    0xe867_79e3_ffe8_3a55,
    0xc018_32fa_ae0b_6337,
    0xae78_c52b_9387_90ff,
    0x54b5_639c_57c3_7a09,
    0xc20b_aa42_8bf9_d56d,
    0x3447_2c39_9b64_f2b9,
    0x3040_412b_a1c5_ab61,
    0x9b15_aabd_4e4e_7e98,
    0xd33b_86f1_63cc_9288,
    0x4ab4_1e3d_b77b_c6de,
];

/// The same if all bytes are 0, which is what Rust's `DefaultHasher` gives.
const PLAIN_HASH: u64 = 0x6634_b0bd_a4fe_8a7b;

/// Each of the 16 bytes that the source gives goes into the keys, and it is asked once.
#[test]
fn keys_are_drawn_once_and_whole(rt: HostRuntime) {
    for (place, hash) in HASHES.iter().enumerate() {
        assert_for(&rt, is_drawn(place, *hash), &place);
    }
    assert_that(&rt, is_drawn(16, PLAIN_HASH));
}
