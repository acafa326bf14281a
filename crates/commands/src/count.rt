//! The words of a text, counted by several workers, and the lines of their counts.

ghost use Rattle.std.specs.Prelude.{◌≡◌, ◌↔◌, ◌≤◌, ◌++◌, false, true, string_bytes, IfErr, OnOk, OnErr};
ghost use Rattle.std.specs.Io.KnownBytes.{Appends};
ghost use Rattle.std.specs.List.{flat_map};
ghost use Rattle.commands.specs.CountLines.{AreCountLines, count_line, count_lines};
ghost use Rattle.commands.specs.Faults.{IsCountCommandFault, IsUnwrittenFault, IsWritingCountsFault, IsWritingFault};
ghost use Rattle.text_streams.specs.Streams.{AppendsBeginning};
ghost use Rattle.commands.specs.Told.{Tells};
ghost use Rattle.word_counts.specs.WordCounts.{counted_texts};

use crate::set_names::name_under;
use std::alloc::{AllocError, Global};
use std::hash::RandomState;
use std::marker::Brand;
use std::sync::Wait;
use std::thread::{Threads, for_each_mut};
use string_cache::word::Limits;
use string_cache::{EmptyStaticAtomSet, FreshName, NamedAtom, NamedSet, SetName};
use text_streams::faults::AppFault;
use text_streams::streams::{Sink, Source, read_text, write_full, write_whole};
use word_counts::count::MANY;
pub use word_counts::count::{Gate, Open, WordCounts, count, count_named};

/// An atom of a word, of the set with this name, and how often the word occurred.
type Counted<'s, N> = (NamedAtom<'s, EmptyStaticAtomSet, N>, u64);

/// Appends the line of a word and its number.
fn append_count(out: &mut String, word: &str, n: u64) -> Result<(), AllocError>
    ensures { OnOk result (string_bytes out.new ≡ string_bytes out.old ++ count_line (word.now, n)) }
{
    writeln!(out, "{n} {word}")
}

/// Writes a line for each word, in order.
fn write_lines<N: SetName, K: Sink>(
    alloc: Global,
    counts: &[Counted<'_, N>],
    writer: &mut K,
) -> Result<(), AppFault>
    requires { K.has_failed writer.old ≡ false }
    ensures ok { OnOk result (Appends (K.contents writer.old) (K.contents writer.new) (flat_map count_line (counted_texts counts.now))) }
    ensures err { OnErr result (AppendsBeginning (K.contents writer.old) (K.contents writer.new) (flat_map count_line (counted_texts counts.now))) }
    ensures fault { IfErr result IsWritingFault }
    ensures failed { (result ≡ Err AppFault.Write) ↔ (K.has_failed writer.new ≡ true) }
{
    let mut pending = String::new(alloc);
    for (atom, n) in counts {
        append_count(&mut pending, atom.as_str(), *n)?;
        write_full(writer, &mut pending)?;
    }
    write_whole(writer, pending.as_bytes())
}

/// Lets the atoms go, in at most `threads` threads if they are many: each is the last of its text, and so asks its bucket.
fn let_go<R: Threads + Sync, N: SetName + Send + Sync>(
    rt: &R,
    counts: &mut [Counted<'_, N>],
    threads: u32,
)
    requires { 1 ≤ threads }
{
    if counts.len() < MANY {
        return;
    }
    for_each_mut(
        rt,
        counts,
        threads as usize,
        &|_, pair| { pair.0 = NamedAtom::default() },
    );
}

/// Writes a line for each word, in order, and lets the atoms go, in at most `threads` threads if they are many.
fn write_all<R: Threads + Sync, N: SetName + Send + Sync, K: Sink>(
    rt: &R,
    alloc: Global,
    counts: &mut [Counted<'_, N>],
    threads: u32,
    writer: &mut K,
) -> Result<(), AppFault>
    requires threads { 1 ≤ threads }
    requires writer { K.has_failed writer.old ≡ false }
    ensures ok { OnOk result (Appends (K.contents writer.old) (K.contents writer.new) (flat_map count_line (counted_texts counts.old))) }
    ensures err { OnErr result (AppendsBeginning (K.contents writer.old) (K.contents writer.new) (flat_map count_line (counted_texts counts.old))) }
    ensures fault { IfErr result IsWritingFault }
    ensures failed { (result ≡ Err AppFault.Write) ↔ (K.has_failed writer.new ≡ true) }
{
    let outcome = write_lines(alloc, counts, writer);
    let_go(rt, counts, threads);
    outcome
}

/// Counts the words of the text by `n` workers in the set, and writes a line for each distinct one.
fn write_counts_in<N: SetName + Send + Sync, R: Threads + Wait + Sync, K: Sink>(
    rt: &R,
    set: &NamedSet<EmptyStaticAtomSet, N>,
    keys: RandomState,
    n: u32,
    text: &str,
    writer: &mut K,
) -> Result<(), AppFault>
    requires low { 1 ≤ n }
    requires high { n ≤ 64 }
    requires writer { K.has_failed writer.old ≡ false }
    ensures ok { OnOk result (Appends (K.contents writer.old) (K.contents writer.new) (count_lines text.now)) }
    ensures err { OnErr result (AppendsBeginning (K.contents writer.old) (K.contents writer.new) (count_lines text.now)) }
    ensures fault { IfErr result IsWritingCountsFault }
    ensures failed { (result ≡ Err AppFault.Write) ↔ (K.has_failed writer.new ≡ true) }
{
    let mut counts = count_named(rt, set, keys, text, n, &Open)?;
    write_all(rt, set.allocator(), &mut counts, n, writer)
}

/// The same in the set with this name. (It can't be picked at a call with a `&str`.)
fn write_counts_named<N: SetName + Send + Sync, R: Threads + Wait + Sync, K: Sink>(
    rt: &R,
    alloc: Global,
    name: FreshName,
    keys: RandomState,
    n: u32,
    text: &String,
    writer: &mut K,
) -> Result<(), AppFault>
    requires name { N.logs ≡ name.logs }
    requires low { 1 ≤ n }
    requires high { n ≤ 64 }
    requires writer { K.has_failed writer.old ≡ false }
    ensures ok { OnOk result (Appends (K.contents writer.old) (K.contents writer.new) (count_lines (string_bytes text.now))) }
    ensures err { OnErr result (AppendsBeginning (K.contents writer.old) (K.contents writer.new) (count_lines (string_bytes text.now))) }
    ensures fault { IfErr result IsWritingCountsFault }
    ensures failed { (result ≡ Err AppFault.Write) ↔ (K.has_failed writer.new ≡ true) }
{
    let set = NamedSet::new(alloc, name, Limits::greatest())?;
    write_counts_in::<N, R, K>(rt, &set, keys, n, text.as_str(), writer)
}

/// The same in this call's own set, which finds its texts under these keys.
fn write_counts<R: Threads + Wait + Sync, K: Sink>(
    rt: &R,
    alloc: Global,
    keys: RandomState,
    n: u32,
    text: &String,
    writer: &mut K,
) -> Result<(), AppFault>
    requires low { 1 ≤ n }
    requires high { n ≤ 64 }
    requires writer { K.has_failed writer.old ≡ false }
    ensures ok { OnOk result (Appends (K.contents writer.old) (K.contents writer.new) (count_lines (string_bytes text.now))) }
    ensures err { OnErr result (AppendsBeginning (K.contents writer.old) (K.contents writer.new) (count_lines (string_bytes text.now))) }
    ensures fault { IfErr result IsWritingCountsFault }
    ensures failed { (result ≡ Err AppFault.Write) ↔ (K.has_failed writer.new ≡ true) }
{
    let name = name_under(alloc, keys, text.len())?;
    write_counts_named::<Brand, R, K>(rt, alloc, name, keys, n, text, writer)
}

/// Reads all the input, counts its words by `n` workers, and writes a line for each distinct one. They are interned in this call's own set, whose
/// number of buckets fits the input. Words are hashed under these keys, in the set too, which affect only the time that it takes: under random ones,
/// words that were chosen for one bucket are found as fast as others are.
///
/// `Read` and `Text` (the input isn't UTF-8) are returned before anything is written, and so is `Intern(Memory)` while the input is read. After
/// another fault, a beginning of the lines may have been written.
pub fn count_command<R: Threads + Wait + Sync, S: Source, K: Sink>(
    rt: &R,
    alloc: Global,
    keys: RandomState,
    n: u32,
    reader: &mut S,
    writer: &mut K,
) -> Result<(), AppFault>
    requires low { 1 ≤ n }
    requires high { n ≤ 64 }
    requires reader { S.has_failed reader.old ≡ false }
    requires writer { K.has_failed writer.old ≡ false }
    ensures { Tells S.Source K.Sink AreCountLines IsUnwrittenFault IsCountCommandFault reader.old reader.new writer.old writer.new result }
{
    let text = read_text(alloc, reader)?;
    write_counts(rt, alloc, keys, n, &text, writer)
}
