//! The workers over a set with a name, which do what those over one without do. What starts a thread is written for each kind of set, since this kit
//! proves no code that hands a thread what is known of a type parameter alone.

ghost use Rattle.std.specs.Prelude.{◌≡◌, ◌≤◌, ◌<◌, ◌^◌, IfOk, IfErr, length, map};
ghost use Rattle.word_counts.specs.Faults.{IsCountFault};
ghost use Rattle.word_counts.specs.Parts.{words_of_part};
ghost use Rattle.word_counts.specs.WordCounts.{counted_texts, word_counts};
ghost use Rattle.word_counts.specs.Words.{words};

use super::merge::merge_here;
use super::parts::{Part, parts};
use super::workers::{count_part, fault_above, with_last};
use super::{Gate, WordCounts};
use std::collections::VecDeque;
use std::hash::RandomState;
use std::sync::Wait;
use std::thread::{Scope, Threads};
use string_cache::{NamedAtom, NamedSet, SetName, StaticTables};
use text_streams::faults::AppFault;

/// Starts a worker for each part, from the last down, and joins them all: the counts of each, in order. A fault is that of the lowest piece.
fn counts_of_each<
    'x,
    'e: 'x,
    R: Threads + Wait + Sync,
    Static: StaticTables + Send + Sync,
    N: SetName + Send + Sync,
    G: Gate,
>(
    scope: &Scope<'x, &'e ()>,
    rt: &'e R,
    set: &'e NamedSet<Static, N>,
    keys: RandomState,
    gate: &'e G,
    parts: &[Part<'e>],
) -> Result<VecDeque<WordCounts<NamedAtom<'e, Static, N>>>, AppFault>
    requires { length parts.now < 2 ^ 32 }
    ensures counts { IfOk result (λ lists. map (λ list. counted_texts list.items) lists.items ≡ map (λ part. word_counts (words_of_part part)) parts.now) }
    ensures fault { IfErr result IsCountFault }
{
    let Some((part, lower)) = parts.split_last() else {
        return Ok(VecDeque::new(set.allocator()));
    };
    let Part { text, from, to } = *part;
    let piece = parts.len() as u32;
    let started = scope.spawn_with(*part, move || {
        count_part(rt, set, keys, gate, Part { text, from, to }, piece)
    });
    let below = counts_of_each(scope, rt, set, keys, gate, lower);
    let Ok(worker) = started else {
        return Err(fault_above(below));
    };
    let own = worker.join(rt);
    with_last(below, own)
}

/// The counts of the words of the text, by `n` workers of the scope, each of which hashes words under these keys. This thread merges them.
pub fn counts_in<
    'x,
    'e: 'x,
    R: Threads + Wait + Sync,
    Static: StaticTables + Send + Sync,
    N: SetName + Send + Sync,
    G: Gate,
>(
    scope: &Scope<'x, &'e ()>,
    rt: &'e R,
    set: &'e NamedSet<Static, N>,
    keys: RandomState,
    gate: &'e G,
    text: &'e str,
    n: u32,
) -> Result<WordCounts<NamedAtom<'e, Static, N>>, AppFault>
    requires { 1 ≤ n }
    ensures counts { IfOk result (λ counts. counted_texts counts.items ≡ word_counts (words text.now)) }
    ensures fault { IfErr result IsCountFault }
{
    let parts = parts(rt, set.allocator(), text, n)?;
    let lists = counts_of_each(scope, rt, set, keys, gate, &parts)?;
    let counts = merge_here(set.allocator(), lists)?;
    Ok(counts)
}
