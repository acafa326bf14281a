//! A reader and a writer over memory, for tests: they give or take few bytes per call, fail at a chosen call, and take no memory themselves. What a
//! call over them returns and writes is an `Outcome`.

ghost use Rattle.std.specs.Prelude.{◌≡◌, ◌<◌, ◌≤◌, None, Some, false};

use std::io;
use text_streams::faults::AppFault;
use text_streams::streams::{Sink, Source};

/// Gives at most `most` bytes per call, and fails at call `fails_at`, counted from 1 (0: never).
#[derive(Drop)]
pub struct Bytes<'b> {
    rest: &'b [u8],
    most: usize,
    fails_at: u64,
    calls: u64,
    failed: bool,
    ended: bool,
    ghost some: { 0 < most },
}

impl<'b> Bytes<'b> {
    pub fn new(rest: &'b [u8], most: usize, fails_at: u64) -> Bytes<'b>
        requires { 0 < most }
        ensures { result.failed ≡ false }
    {
        Bytes {
            rest,
            most,
            fails_at,
            calls: 0,
            failed: false,
            ended: false,
        }
    }

    /// All of the bytes at once.
    pub fn whole(rest: &'b [u8]) -> Bytes<'b>
        ensures { result.failed ≡ false }
    {
        Bytes::new(rest, usize::MAX, 0)
    }

    /// How often it was read.
    pub fn calls(&self) -> u64 {
        self.calls
    }
}

impl Source for Bytes<'_> {
    ghost remaining = { λ s. Some s.rest.now };

    ghost has_failed = { λ s. s.failed };

    ghost has_ended = { λ s. s.ended };

    fn read(&mut self, buf: &mut [u8]) -> io::Result<usize> {
        self.calls = self.calls.wrapping_add(1);
        if self.calls == self.fails_at {
            self.failed = true;
            return Err(io::Error::from(io::ErrorKind::Other));
        }
        let room = buf.len();
        let n = self.rest.len().min(room).min(self.most);
        let (given, rest) = self.rest.split_at(n);
        buf[..n].copy_from_slice(given);
        self.rest = rest;
        if n == 0 && room > 0 {
            self.ended = true;
        }
        Ok(n)
    }

    fn failed(&self) -> bool {
        self.failed
    }

    fn ended(&self) -> bool {
        self.ended
    }
}

/// The most bytes of a read if one fails.
pub const GIVES: usize = 10;

/// How a reader and a writer behave.
#[derive(Clone, Copy)]
pub struct Streams<'b> {
    /// What there is to read.
    pub text: &'b [u8],
    /// The most bytes that a read gives.
    pub gives: usize,
    /// The read that fails, counted from 1 (0: none).
    pub read_fails_at: u64,
    /// The most bytes that a write takes.
    pub takes: usize,
    /// The write that fails, counted from 1 (0: none).
    pub write_fails_at: u64,
    ghost some: { 0 < gives },
}

impl<'b> Streams<'b> {
    /// All bytes at once, and no failure.
    pub fn ample(text: &'b [u8]) -> Streams<'b> {
        Streams {
            text,
            gives: usize::MAX,
            read_fails_at: 0,
            takes: usize::MAX,
            write_fails_at: 0,
        }
    }

    /// One byte per read.
    pub fn dripping(text: &'b [u8]) -> Streams<'b> {
        Streams {
            text,
            gives: 1,
            read_fails_at: 0,
            takes: usize::MAX,
            write_fails_at: 0,
        }
    }

    /// Some bytes per read, one of which fails, counted from 1 (0: none).
    pub fn reading(text: &'b [u8], read_fails_at: u64) -> Streams<'b> {
        Streams {
            text,
            gives: GIVES,
            read_fails_at,
            takes: usize::MAX,
            write_fails_at: 0,
        }
    }

    /// At most `takes` bytes per write, one of which fails, counted from 1 (0: none).
    pub fn writing(text: &'b [u8], takes: usize, write_fails_at: u64) -> Streams<'b> {
        Streams {
            text,
            gives: usize::MAX,
            read_fails_at: 0,
            takes,
            write_fails_at,
        }
    }

    pub fn reader(&self) -> Bytes<'b>
        ensures { result.failed ≡ false }
    {
        Bytes::new(self.text, self.gives, self.read_fails_at)
    }

    pub fn writer(&self) -> Page
        ensures { result.failed ≡ false }
    {
        Page::new(self.takes, self.write_fails_at)
    }
}

const ROOM: usize = 1024;

/// Takes at most `most` bytes per call, fails at call `fails_at`, counted from 1 (0: never), and has room for 1024 bytes.
#[derive(Drop)]
pub struct Page {
    bytes: [u8; ROOM],
    len: usize,
    most: usize,
    fails_at: u64,
    calls: u64,
    failed: bool,
    ghost within: { len ≤ 1024 },
}

impl Page {
    pub fn new(most: usize, fails_at: u64) -> Page
        ensures { result.failed ≡ false }
    {
        Page {
            bytes: [0; ROOM],
            len: 0,
            most,
            fails_at,
            calls: 0,
            failed: false,
        }
    }

    /// One that takes all of the bytes at once.
    pub fn wide() -> Page
        ensures { result.failed ≡ false }
    {
        Page::new(usize::MAX, 0)
    }

    /// How often it was written to.
    pub fn calls(&self) -> u64 {
        self.calls
    }

    /// What was written.
    pub fn written(&self) -> &[u8] {
        &self.bytes[..self.len]
    }
}

impl Sink for Page {
    ghost use Rattle.std.specs.Prelude.{take};

    ghost contents = { λ s. Some (take s.len s.bytes) };

    ghost has_failed = { λ s. s.failed };

    fn write(&mut self, buf: &[u8]) -> io::Result<usize> {
        self.calls = self.calls.wrapping_add(1);
        if self.calls == self.fails_at {
            self.failed = true;
            return Err(io::Error::from(io::ErrorKind::Other));
        }
        let len = self.len;
        let n = buf.len().min(ROOM - len).min(self.most);
        self.bytes[len..len + n].copy_from_slice(&buf[..n]);
        self.len = len + n;
        if n == 0 && !buf.is_empty() {
            self.failed = true;
        }
        Ok(n)
    }

    fn failed(&self) -> bool {
        self.failed
    }
}

/// What a call returns, and what it writes.
#[derive(Drop)]
pub struct Outcome {
    pub answer: Result<(), AppFault>,
    pub page: Page,
}

impl Outcome {
    /// Whether it is this answer, and these lines are written.
    pub fn is(&self, answer: Result<(), AppFault>, lines: &[u8]) -> bool {
        self.answer == answer && self.page.written() == lines
    }
}

/// Takes all bytes, and keeps none.
#[derive(Drop)]
pub struct Lost;

impl Sink for Lost {
    ghost contents = { λ _. None };

    ghost has_failed = { λ _. false };

    fn write(&mut self, buf: &[u8]) -> io::Result<usize> {
        Ok(buf.len())
    }

    fn failed(&self) -> bool {
        false
    }
}
