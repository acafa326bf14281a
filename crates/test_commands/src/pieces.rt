//! Pieces of what is pending: when they are written, and what stays if they can't be; and that texts of as many bytes are read.

use crate::memory::{Page, Streams};
use crate::{assert_for, assert_that};
use std::alloc::Global;
use std::process::Abort;
use text_streams::faults::AppFault;
use text_streams::streams::{Io, read_all, read_text, write_full, write_whole};

/// This many bytes of pending text.
fn pending(rt: &impl Abort, alloc: Global, number: usize) -> String {
    "a".repeat(alloc, number).expect(rt, "room")
}

/// Whether the text is read as it is.
fn is_read(alloc: Global, text: &str) -> bool {
    match read_text(alloc, &mut Io::new(text.as_bytes())) {
        Ok(read) => read.as_str() == text,
        Err(_) => false,
    }
}

/// Whether the bytes are refused as no text.
fn is_no_text(alloc: Global, bytes: &[u8]) -> bool {
    read_text(alloc, &mut Io::new(bytes)).err() == Some(AppFault::Text)
}

/// Half of a pair of surrogates, a letter of Latin-1, more bytes than a character takes, a number above those of characters, and a byte that goes on
/// with nothing.
static NO_TEXTS: [&[u8]; 5] = [
    b"\xed\xa0\x80",
    b"caf\xe9 au lait",
    b"\xc0\x80",
    b"\xf4\x90\x80\x80",
    b"\x80",
];

#[test]
fn bytes_that_are_no_text(rt: HostRuntime) {
    for bytes in &NO_TEXTS {
        assert_for(&rt, is_no_text(rt.alloc(), bytes), bytes);
    }
}

/// The text with a byte behind it that is none of a text.
fn with_bad_end(rt: &impl Abort, alloc: Global, text: &str) -> Vec<u8> {
    let mut bytes = Vec::new(alloc);
    bytes.extend_from_slice(text.as_bytes()).expect(rt, "room");
    bytes.push(0xff).expect(rt, "room");
    bytes
}

/// Whether a text of the first number of bytes is read, and, once it is pending, the second number of them is written, and the others stay pending.
fn moves(rt: &impl Abort, alloc: Global, number: usize, written: usize) -> bool {
    let mut pending = pending(rt, alloc, number);
    let is_read = is_read(alloc, &pending);
    let bytes = with_bad_end(rt, alloc, &pending);
    let mut writer = Io::new(Vec::new(alloc));
    let answer = write_full(&mut writer, &mut pending);
    is_read
        && is_no_text(alloc, &bytes)
        && answer == Ok(())
        && pending.len() == number.saturating_sub(written)
        && writer.into_inner().len() == written
}

/// How many bytes are pending, and how many of them are written: all, once they are a piece of 65,536 bytes.
static PIECES: [(usize, usize); 8] = [
    (0, 0),
    (1, 0),
    (65_535, 0),
    (65_536, 65_536),
    (65_537, 65_537),
    (131_072, 131_072),
    (200_000, 200_000),
    (1_200_000, 1_200_000),
];

#[test]
fn a_piece_is_written_once_it_is_full(rt: HostRuntime) {
    for (number, written) in &PIECES {
        assert_for(&rt, moves(&rt, rt.alloc(), *number, *written), number);
    }
}

/// Whether this many bytes stay pending if the page fails, or has no room for all.
fn stay_pending(rt: &impl Abort, alloc: Global, number: usize, fails_at: u64) -> bool {
    let mut pending = pending(rt, alloc, number);
    let answer = write_full(&mut Page::new(usize::MAX, fails_at), &mut pending);
    answer == Err(AppFault::Write) && pending.len() == number
}

#[test]
fn a_piece_that_is_refused_stays_pending(rt: HostRuntime) {
    for fails_at in 0..3u64 {
        assert_for(
            &rt,
            stay_pending(&rt, rt.alloc(), 65_536, fails_at),
            &fails_at,
        );
    }
}

/// How often streams are read, and whether all of them was.
fn reads(alloc: Global, streams: &Streams) -> (u64, bool) {
    let mut reader = streams.reader();
    let is_read = match read_all(alloc, &mut reader) {
        Ok(bytes) => bytes.as_slice() == streams.text,
        Err(_) => false,
    };
    (reader.calls(), is_read)
}

/// A text of three pieces and a part of one takes four reads and the one at which it ends; behind a read that fails there is no other; and there may
/// be thousands.
#[test]
fn reads_are_counted(rt: HostRuntime) {
    let text = pending(&rt, rt.alloc(), 200_000);
    let bytes = text.as_bytes();
    assert_that(&rt, reads(rt.alloc(), &Streams::ample(bytes)) == (5, true));
    assert_that(
        &rt,
        reads(rt.alloc(), &Streams::reading(bytes, 2)) == (2, false),
    );
    assert_that(
        &rt,
        reads(rt.alloc(), &Streams::dripping(bytes)) == (200_001, true),
    );
}

/// How often a text is written to a page that takes this many bytes at a time and fails at this call, and whether it is written.
fn writes(text: &str, takes: usize, fails_at: u64) -> (u64, bool) {
    let mut page = Page::new(takes, fails_at);
    let answer = write_whole(&mut page, text.as_bytes());
    (page.calls(), answer == Ok(()))
}

/// An empty text takes no write, which might fail; a short one takes one; and behind a write that fails, or takes nothing, there is no other.
#[test]
fn writes_are_counted(rt: HostRuntime) {
    assert_that(&rt, writes("", usize::MAX, 1) == (0, true));
    assert_that(&rt, writes("word", usize::MAX, 0) == (1, true));
    assert_that(&rt, writes("word", usize::MAX, 1) == (1, false));
    assert_that(&rt, writes("word", 0, 0) == (1, false));
}
