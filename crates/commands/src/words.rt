//! Writes, for each word of a text, a line that tells how often it occurred before.

ghost use Rattle.std.specs.HashMap.{hasher_of, IsEmpty};
ghost use Rattle.std.specs.Prelude.{◌≡◌, ◌↔◌, ◌+◌, ◌^◌, ◌<◌, ◌++◌, IfOk, IfSome, OnOk, OnErr, IfErr, false, true, string_bytes};
ghost use Rattle.std.specs.Io.KnownBytes.{Appends};
ghost use Rattle.std.specs.Str.{IsUtf8};
ghost use Rattle.string_cache.specs.Faults.{IsInternFault};
ghost use Rattle.commands.specs.TimesSeen.{count_of, CountsOneMore};
ghost use Rattle.text_streams.specs.Streams.{AppendsBeginning};
ghost use Rattle.commands.specs.Told.{Tells};
ghost use Rattle.commands.specs.Faults.{IsUnwrittenFault, IsWordsFault, IsWritingFault};
ghost use Rattle.commands.specs.WordLines.{AreWordLines, seen_line, word_lines};

use crate::set_names::name_under;
use std::alloc::{AllocError, Global};
use std::collections::HashMap;
use std::hash::RandomState;
use std::marker::Brand;
use std::sync::Wait;
use string_cache::dynamic_set::Set;
use string_cache::table::Table;
use string_cache::word::{InlineText, Limits};
use string_cache::{
    AtomList, EmptyStaticAtomSet, Fault, FreshName, NamedAtomList, NamedSet, SetName, StaticTables,
};
use text_streams::faults::AppFault;
use text_streams::streams::{Sink, Source, read_text, write_full, write_whole};

/// What words are interned in, and what keeps them until its end.
trait Interner {
    fn intern(&mut self, word: &str) -> Result<(), Fault>
        ensures { IfErr result IsInternFault };
}

impl Interner for Table<EmptyStaticAtomSet> {
    fn intern(&mut self, word: &str) -> Result<(), Fault> {
        self.intern(word)?;
        Ok(())
    }
}

/// Interns words in a set, and holds the atom of each place of a word in a list. That of an inline word would hold nothing of the set, so it isn't
/// kept.
#[derive(Drop)]
struct Holder<'r, R: Wait, Atoms> {
    rt: &'r R,
    atoms: Atoms,
}

impl<R: Wait, Static: StaticTables> Interner for Holder<'_, R, AtomList<'_, Static>> {
    fn intern(&mut self, word: &str) -> Result<(), Fault> {
        if InlineText::new(word).is_none() {
            self.atoms.push_str(self.rt, word)?;
        }
        Ok(())
    }
}

impl<R: Wait, Static: StaticTables, N: SetName> Interner
    for Holder<'_, R, NamedAtomList<'_, Static, N>> {
    fn intern(&mut self, word: &str) -> Result<(), Fault> {
        if InlineText::new(word).is_some() {
            return Ok(());
        }
        self.atoms.push_str(self.rt, word)
    }
}

/// How often each word occurred, found by the word as it is in the text. Words are hashed under random keys, so that nobody can choose words that
/// collide.
type TimesSeen<'t> = HashMap<&'t str, u64, RandomState>;

/// No words seen yet. Words will be hashed under these keys.
fn none_seen<'t>(alloc: Global, keys: RandomState) -> TimesSeen<'t>
    ensures empty { IsEmpty result }
    ensures keys { hasher_of result ≡ keys }
{
    HashMap::with_hasher(alloc, keys)
}

/// Counts the word once more, and returns how often it was counted before.
fn count_word<'t>(counts: &mut TimesSeen<'t>, word: &'t str) -> Result<u64, AllocError>
    requires { count_of counts.old word.now + 1 < 2 ^ 64 }
    ensures before { IfOk result (λ n. n ≡ count_of counts.old word.now) }
    ensures counted { OnOk result (CountsOneMore counts.old counts.new word.now) }
{
    let number = counts.entry(word)?.or_insert(0);
    let n = *number;
    *number += 1;
    Ok(n)
}

/// Appends the line of a word with `n` equal words before it.
fn append_line(out: &mut String, word: &str, n: u64) -> Result<(), AllocError>
    ensures { OnOk result (string_bytes out.new ≡ string_bytes out.old ++ seen_line word.now n) }
{
    if n > 0 {
        writeln!(out, "Seen the word \"{word}\" {n} times")
    } else {
        writeln!(out, "Not seen the word \"{word}\" before")
    }
}

/// Counts the word once more, and appends its line.
fn tell_word<'t>(
    counts: &mut TimesSeen<'t>,
    out: &mut String,
    word: &'t str,
) -> Result<(), AllocError>
    requires { count_of counts.old word.now + 1 < 2 ^ 64 }
    ensures counted { OnOk result (CountsOneMore counts.old counts.new word.now) }
    ensures line { OnOk result (string_bytes out.new ≡ string_bytes out.old ++ seen_line word.now (count_of counts.old word.now)) }
{
    let n = count_word(counts, word)?;
    append_line(out, word, n)
}

/// Interns the words of the text in order, and writes a line for each once it is interned.
fn write_words<I: Interner, K: Sink>(
    alloc: Global,
    keys: RandomState,
    interner: &mut I,
    text: &str,
    writer: &mut K,
) -> Result<(), AppFault>
    requires { K.has_failed writer.old ≡ false }
    ensures ok { OnOk result (Appends (K.contents writer.old) (K.contents writer.new) (word_lines text.now)) }
    ensures err { OnErr result (AppendsBeginning (K.contents writer.old) (K.contents writer.new) (word_lines text.now)) }
    ensures fault { IfErr result IsWritingFault }
    ensures failed { (result ≡ Err AppFault.Write) ↔ (K.has_failed writer.new ≡ true) }
{
    let mut counts = none_seen(alloc, keys);
    let mut pending = String::new(alloc);
    for word in text.split_whitespace() {
        interner.intern(word)?;
        tell_word(&mut counts, &mut pending, word)?;
        write_full(writer, &mut pending)?;
    }
    write_whole(writer, pending.as_bytes())
}

/// Reads all the input, interns its words in order, and writes a line for each.
fn list_words<I: Interner, S: Source, K: Sink>(
    alloc: Global,
    keys: RandomState,
    interner: &mut I,
    reader: &mut S,
    writer: &mut K,
) -> Result<(), AppFault>
    requires reader { S.has_failed reader.old ≡ false }
    requires writer { K.has_failed writer.old ≡ false }
    ensures { Tells S.Source K.Sink AreWordLines IsUnwrittenFault IsWordsFault reader.old reader.new writer.old writer.new result }
{
    let text = read_text(alloc, reader)?;
    write_words(alloc, keys, interner, &text, writer)
}

/// Writes, for each word that the reader gives, a line that tells how often it occurred before. The words are interned in the set, repeated ones
/// again, and the atom of each place is held until the end of the call; inline words, which would hold nothing of the set, aren't. To tell how often
/// they occurred, words are hashed under these keys, which affect only the time that it takes: under random ones, as `RandomState::new` draws them,
/// nobody can choose words that collide there.
///
/// `Read` and `Text` (the input isn't UTF-8) are returned before anything is written, and so is `Intern(Memory)` while the input is read. After
/// another fault, a beginning of the lines may have been written.
pub fn words<R: Wait, Static: StaticTables, S: Source, K: Sink>(
    rt: &R,
    set: &Set<Static>,
    keys: RandomState,
    reader: &mut S,
    writer: &mut K,
) -> Result<(), AppFault>
    requires reader { S.has_failed reader.old ≡ false }
    requires writer { K.has_failed writer.old ≡ false }
    ensures { Tells S.Source K.Sink AreWordLines IsUnwrittenFault IsWordsFault reader.old reader.new writer.old writer.new result }
{
    let alloc = set.allocator();
    let atoms = AtomList::new(set);
    list_words(alloc, keys, &mut Holder { rt, atoms }, reader, writer)
}

/// As `words`, in a set with a name. If its name has a random key as well (`FreshName::under`), words that were chosen for one bucket are found there
/// as fast as others are. Words that have one 64-bit hash are still walked.
pub fn words_named<R: Wait, Static: StaticTables, N: SetName, S: Source, K: Sink>(
    rt: &R,
    set: &NamedSet<Static, N>,
    keys: RandomState,
    reader: &mut S,
    writer: &mut K,
) -> Result<(), AppFault>
    requires reader { S.has_failed reader.old ≡ false }
    requires writer { K.has_failed writer.old ≡ false }
    ensures { Tells S.Source K.Sink AreWordLines IsUnwrittenFault IsWordsFault reader.old reader.new writer.old writer.new result }
{
    let atoms = NamedAtomList::new(set);
    let mut holder = Holder { rt, atoms };
    list_words(set.allocator(), keys, &mut holder, reader, writer)
}

/// Interns the words of the text in the set with this name, in order, and writes a line for each once it is interned. (The name can't be picked at a
/// call with a `&str`.)
fn write_words_named<N: SetName, R: Wait, K: Sink>(
    rt: &R,
    alloc: Global,
    name: FreshName,
    keys: RandomState,
    text: &String,
    writer: &mut K,
) -> Result<(), AppFault>
    requires name { N.logs ≡ name.logs }
    requires writer { K.has_failed writer.old ≡ false }
    ensures ok { OnOk result (Appends (K.contents writer.old) (K.contents writer.new) (word_lines (string_bytes text.now))) }
    ensures err { OnErr result (AppendsBeginning (K.contents writer.old) (K.contents writer.new) (word_lines (string_bytes text.now))) }
    ensures fault { IfErr result IsWritingFault }
    ensures failed { (result ≡ Err AppFault.Write) ↔ (K.has_failed writer.new ≡ true) }
{
    let set = NamedSet::<EmptyStaticAtomSet, N>::new(alloc, name, Limits::greatest())?;
    let atoms = NamedAtomList::new(&set);
    write_words(
        alloc,
        keys,
        &mut Holder { rt, atoms },
        text.as_str(),
        writer,
    )
}

/// The same in this call's own set, which finds its texts under these keys.
fn write_words_under<R: Wait, K: Sink>(
    rt: &R,
    alloc: Global,
    keys: RandomState,
    text: &String,
    writer: &mut K,
) -> Result<(), AppFault>
    requires { K.has_failed writer.old ≡ false }
    ensures ok { OnOk result (Appends (K.contents writer.old) (K.contents writer.new) (word_lines (string_bytes text.now))) }
    ensures err { OnErr result (AppendsBeginning (K.contents writer.old) (K.contents writer.new) (word_lines (string_bytes text.now))) }
    ensures fault { IfErr result IsWritingFault }
    ensures failed { (result ≡ Err AppFault.Write) ↔ (K.has_failed writer.new ≡ true) }
{
    let name = name_under(alloc, keys, text.len())?;
    write_words_named::<Brand, R, K>(rt, alloc, name, keys, text, writer)
}

/// As `words`, in this call's own set, whose number of buckets fits the input. It finds words under these keys, too: if they are random, words that
/// were chosen for one bucket are found as fast as others are.
pub fn words_command<R: Wait, S: Source, K: Sink>(
    rt: &R,
    alloc: Global,
    keys: RandomState,
    reader: &mut S,
    writer: &mut K,
) -> Result<(), AppFault>
    requires reader { S.has_failed reader.old ≡ false }
    requires writer { K.has_failed writer.old ≡ false }
    ensures { Tells S.Source K.Sink AreWordLines IsUnwrittenFault IsWordsFault reader.old reader.new writer.old writer.new result }
{
    let text = read_text(alloc, reader)?;
    write_words_under(rt, alloc, keys, &text, writer)
}

/// The same lines and faults as those of `words`. The words are interned in this call's own table, which ends with it, so that no lock is taken.
pub fn words_alone<S: Source, K: Sink>(
    alloc: Global,
    keys: RandomState,
    reader: &mut S,
    writer: &mut K,
) -> Result<(), AppFault>
    requires reader { S.has_failed reader.old ≡ false }
    requires writer { K.has_failed writer.old ≡ false }
    ensures { Tells S.Source K.Sink AreWordLines IsUnwrittenFault IsWordsFault reader.old reader.new writer.old writer.new result }
{
    let mut table = Table::new(alloc, keys)?;
    list_words(alloc, keys, &mut table, reader, writer)
}
