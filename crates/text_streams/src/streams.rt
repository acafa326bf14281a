//! Readers and writers that remember that they failed or ended.

ghost use Rattle.std.specs.Prelude.{◌≡◌, ◌↔◌, ◌||◌, ℕ, List, Bool, Option, is_err, length, false, true, string_bytes, IfOk, IfErr, IfSome, OnOk, OnErr};
ghost use Rattle.std.specs.Str.{IsUtf8};
ghost use Rattle.std.specs.Io.{ReadsAtMost, WritesAtMost};
ghost use Rattle.std.specs.Io.KnownBytes.{ReadConsumes, WriteAppends, Appends, Consumes, IsAtEnd};
ghost use Rattle.text_streams.specs.Faults.{IsReadingFault, IsTextFault};
ghost use Rattle.text_streams.specs.Streams.{took_none, write_refused, AppendsBeginning, Moves};

use crate::faults::AppFault;
use std::alloc::Global;
use std::io;
use std::io::{Read, Write};

/// The most bytes that one read asks for, and about as many as one write passes on.
pub const PIECE: usize = 65536;

/// A reader that remembers whether it failed, and whether it ended.
pub trait Source {
    // The bytes that reads give from here on, if they are known.
    ghost remaining: { Self → Option (List ℕ) };

    ghost has_failed: { Self → Bool };

    ghost has_ended: { Self → Bool };

    /// Reads as `std::io::Read` does. An `Err` is remembered as a failure, and a read for at least one byte that gave none is remembered as the end.
    fn read(&mut self, buf: &mut [u8]) -> io::Result<usize>
        ensures bound { ReadsAtMost result buf.new }
        ensures bytes { ReadConsumes (remaining self.old) (remaining self.new) result buf.new }
        ensures failed { has_failed self.new ≡ has_failed self.old || is_err result }
        ensures ended { has_ended self.new ≡ has_ended self.old || took_none result (length buf.old) };

    /// Whether a read failed.
    fn failed(&self) -> bool
        ensures { result ≡ has_failed self.now };

    /// Whether a read reached the end.
    fn ended(&self) -> bool
        ensures { result ≡ has_ended self.now };
}

/// A writer that remembers whether it failed.
pub trait Sink {
    // The bytes that the writer holds, if they are known.
    ghost contents: { Self → Option (List ℕ) };

    ghost has_failed: { Self → Bool };

    /// Writes as `std::io::Write` does. An `Err`, or a write of at least one byte that took none, is remembered as a
    /// failure.
    fn write(&mut self, buf: &[u8]) -> io::Result<usize>
        ensures bound { WritesAtMost result buf.now }
        ensures bytes { WriteAppends (contents self.old) (contents self.new) result buf.now }
        ensures failed { has_failed self.new ≡ has_failed self.old || write_refused result (length buf.now) };

    /// Whether a write failed.
    fn failed(&self) -> bool
        ensures { result ≡ has_failed self.now };
}

/// One of std's readers or writers, as a source or a sink.
#[derive(Drop)]
pub struct Io<T> {
    inner: T,
    failed: bool,
    ended: bool,
}

impl<T> Io<T> {
    /// A source or a sink that hasn't failed or ended.
    pub fn new(inner: T) -> Io<T>
        ensures inner { result.inner ≡ inner }
        ensures sound { result.failed ≡ false }
        ensures open { result.ended ≡ false }
    {
        Io {
            inner,
            failed: false,
            ended: false,
        }
    }

    /// The reader or writer itself.
    pub fn into_inner(self) -> T
        ensures { result ≡ self.inner }
    {
        let Io { inner, .. } = self;
        inner
    }
}

impl<R: Read> Source for Io<R> {
    ghost remaining = { λ s. R.remaining s.inner };

    ghost has_failed = { λ s. s.failed };

    ghost has_ended = { λ s. s.ended };

    fn read(&mut self, buf: &mut [u8]) -> io::Result<usize> {
        let room = buf.len();
        let result = self.inner.read(buf);
        match &result {
            Ok(n) => {
                if *n == 0 && room > 0 {
                    self.ended = true;
                }
            }
            Err(_) => self.failed = true,
        }
        result
    }

    fn failed(&self) -> bool {
        self.failed
    }

    fn ended(&self) -> bool {
        self.ended
    }
}

impl<W: Write> Sink for Io<W> {
    ghost contents = { λ s. W.contents s.inner };

    ghost has_failed = { λ s. s.failed };

    fn write(&mut self, buf: &[u8]) -> io::Result<usize> {
        let result = self.inner.write(buf);
        match &result {
            Ok(n) => {
                if *n == 0 && !buf.is_empty() {
                    self.failed = true;
                }
            }
            Err(_) => self.failed = true,
        }
        result
    }

    fn failed(&self) -> bool {
        self.failed
    }
}

/// All bytes that the reader has left. `Read` if it failed, and `Intern(Memory)` if there is no room for them.
pub fn read_all<S: Source>(alloc: Global, reader: &mut S) -> Result<Vec<u8>, AppFault>
    requires { S.has_failed reader.old ≡ false }
    ensures ended { OnOk result (S.has_ended reader.new ≡ true) }
    ensures end { OnOk result (IsAtEnd (S.remaining reader.new)) }
    ensures bytes { IfOk result (λ v. Consumes (S.remaining reader.old) (S.remaining reader.new) v.items) }
    ensures fault { IfErr result IsReadingFault }
    ensures failed { (result ≡ Err AppFault.Read) ↔ (S.has_failed reader.new ≡ true) }
{
    let mut all = Vec::new(alloc);
    let mut piece = [0u8; PIECE];
    loop {
        let Ok(n) = reader.read(&mut piece) else {
            return Err(AppFault::Read);
        };
        if n == 0 {
            return Ok(all);
        }
        all.extend_from_slice(&piece[..n])?;
    }
}

/// All that the reader has left, as a text. `Text` if it isn't UTF-8, and otherwise the errors of `read_all`.
pub fn read_text<S: Source>(alloc: Global, reader: &mut S) -> Result<String, AppFault>
    requires { S.has_failed reader.old ≡ false }
    ensures ended { OnOk result (S.has_ended reader.new ≡ true × IsAtEnd (S.remaining reader.new)) }
    ensures bytes { IfOk result (λ text. IfSome (S.remaining reader.old) (λ bytes. bytes ≡ string_bytes text)) }
    ensures utf8 { OnOk result (IfSome (S.remaining reader.old) IsUtf8) }
    ensures fault { IfErr result IsTextFault }
    ensures reading { IfErr result (λ fault. S.has_ended reader.new ≡ false → IsReadingFault fault) }
    ensures text { result ≡ Err AppFault.Text → S.has_ended reader.new ≡ true
        × IfSome (S.remaining reader.old) (λ bytes. ¬ (IsUtf8 bytes)) }
    ensures failed { (result ≡ Err AppFault.Read) ↔ (S.has_failed reader.new ≡ true) }
{
    let bytes = read_all(alloc, reader)?;
    match String::from_utf8(bytes) {
        Ok(text) => Ok(text),
        Err(_) => Err(AppFault::Text),
    }
}

/// Writes all the bytes. `Write` if the writer failed; it then has a beginning of them.
pub fn write_whole<K: Sink>(writer: &mut K, bytes: &[u8]) -> Result<(), AppFault>
    requires { K.has_failed writer.old ≡ false }
    ensures ok { OnOk result (Appends (K.contents writer.old) (K.contents writer.new) bytes.now) }
    ensures sound { OnOk result (K.has_failed writer.new ≡ false) }
    ensures err { OnErr result (AppendsBeginning (K.contents writer.old) (K.contents writer.new) bytes.now) }
    ensures fault { IfErr result (λ e. e ≡ AppFault.Write) }
    ensures failed { OnErr result (K.has_failed writer.new ≡ true) }
{
    let mut at = 0;
    while at < bytes.len() {
        let Ok(n) = writer.write(&bytes[at..]) else {
            return Err(AppFault::Write);
        };
        if n == 0 {
            return Err(AppFault::Write);
        }
        at += n;
    }
    Ok(())
}

/// Writes what is pending once that has the bytes of a piece, and then nothing is pending. `Write` if the writer failed; it then has a beginning of
/// that.
pub fn write_full<K: Sink>(writer: &mut K, pending: &mut String) -> Result<(), AppFault>
    requires { K.has_failed writer.old ≡ false }
    ensures ok { OnOk result (Moves (K.contents writer.old) (K.contents writer.new) (string_bytes pending.old) (string_bytes pending.new)) }
    ensures sound { OnOk result (K.has_failed writer.new ≡ false) }
    ensures err { OnErr result (AppendsBeginning (K.contents writer.old) (K.contents writer.new) (string_bytes pending.old)) }
    ensures fault { IfErr result (λ e. e ≡ AppFault.Write) }
    ensures failed { OnErr result (K.has_failed writer.new ≡ true) }
{
    if pending.len() >= PIECE {
        write_whole(writer, pending.as_bytes())?;
        pending.clear();
    }
    Ok(())
}
