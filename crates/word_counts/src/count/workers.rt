//! The workers: each interns and counts the words of its part in a thread of its own.

ghost use Rattle.std.specs.Prelude.{◌≡◌, ◌+◌, ◌≤◌, ◌<◌, ◌^◌, [], ◌∷◌, ◌++◌, IfOk, IfErr, IsOkAnd, OnOk, length, map};
ghost use Rattle.string_cache.specs.Faults.{IsInternFault};
ghost use Rattle.word_counts.specs.Faults.{IsCountFault};
ghost use Rattle.word_counts.specs.Parts.{words_of_part};
ghost use Rattle.word_counts.specs.Tally.{AddsTo, IsLabelled, IsTallyOf, number_of};
ghost use Rattle.word_counts.specs.WordCounts.{counted_texts, word_counts};
ghost use Rattle.word_counts.specs.Words.{words};

use super::merge::merge_all;
use super::parts::{Part, parts};
use super::tally::{Tally, count_again, count_first, into_pairs, of_no_words};
use super::{Gate, WordCounts};
use std::collections::VecDeque;
use std::hash::RandomState;
use std::sync::Wait;
use std::thread::{Promise, Scope, Threads};
use string_cache::dynamic_set::Set;
use string_cache::{Atom, AtomKind, Fault, SetAtom, SetList, SharedSet, StaticTables};
use text_streams::faults::AppFault;

/// A worker promises the counts of the words of its part, unless it is refused.
impl<'e, H: AtomKind> Promise<Result<WordCounts<SetAtom<H>>, Fault>> for Part<'e> {
    ghost kept_by = { λ part result.
        IfOk result (λ counts. counted_texts counts.items ≡ word_counts (words_of_part part)) × IfErr result IsInternFault };
}

/// Interns a place of a word and counts it. The atom of a further place is held in addition to those of the tally if it is dynamic: others hold
/// nothing of the set.
fn intern_place<'e, R: Wait, S: SharedSet>(
    rt: &R,
    set: S,
    word: &'e str,
    tally: &mut Tally<'e, S::Held>,
    further: &mut SetList<S>,
) -> Result<(), Fault>
    requires fits { number_of tally.old word.now + 1 < 2 ^ 64 }
    requires labelled { IsLabelled tally.old }
    ensures numbers { OnOk result (AddsTo tally.old tally.new word.now 1) }
    ensures labelled { OnOk result (IsLabelled tally.new) }
    ensures refused { IfErr result IsInternFault }
{
    if let Some(is_dynamic) = count_again(tally, word) {
        if is_dynamic {
            further.push_str(rt, word)?;
        }
        return Ok(());
    }
    let atom = SetAtom::from_str_in(rt, set, word)?;
    count_first(tally, word, atom)?;
    Ok(())
}

/// Interns the words of the part in order and counts them. The atoms of further places are held in addition to those of the tally.
fn intern_words<'e, R: Wait, S: SharedSet>(
    rt: &R,
    set: S,
    part: Part<'e>,
    tally: &mut Tally<'e, S::Held>,
    further: &mut SetList<S>,
) -> Result<(), Fault>
    requires { IsTallyOf [] tally.old }
    ensures tally { OnOk result (IsTallyOf (words_of_part part.entry) tally.new) }
    ensures refused { IfErr result IsInternFault }
{
    let mut index = 0;
    for word in part.text.split_whitespace() {
        if index >= part.to {
            break;
        }
        if index >= part.from {
            intern_place(rt, set, word, tally, further)?;
        }
        index += 1;
    }
    Ok(())
}

/// What a worker does: it interns its words between the gate's two calls, and holds, beyond both, an atom of each word and of each place of a dynamic
/// one.
pub fn count_part<'e, R: Wait, S: SharedSet, G: Gate>(
    rt: &R,
    set: S,
    keys: RandomState,
    gate: &G,
    part: Part<'e>,
    piece: u32,
) -> Result<WordCounts<SetAtom<S::Held>>, Fault>
    ensures counts { IfOk result (λ counts. counted_texts counts.items ≡ word_counts (words_of_part part.entry)) }
    ensures refused { IfErr result IsInternFault }
{
    let mut tally = of_no_words(set.allocator(), keys);
    let mut further = SetList::<S>::new(set);
    gate.enter(rt, piece);
    let outcome = intern_words(rt, set, part, &mut tally, &mut further);
    gate.leave(rt, piece);
    outcome?;
    let counts = into_pairs(set.allocator(), tally)?;
    Ok(counts)
}

/// The fault if a worker couldn't be started: that of the pieces below it takes precedence over its own.
pub fn fault_above<H: AtomKind>(
    below: Result<VecDeque<WordCounts<SetAtom<H>>>, AppFault>,
) -> AppFault
    requires { IfErr below IsCountFault }
    ensures { IsCountFault result }
{
    below.err().unwrap_or(AppFault::Worker)
}

/// The lists with another one after them. Their fault takes precedence over its own.
pub fn with_last<H: AtomKind>(
    lists: Result<VecDeque<WordCounts<SetAtom<H>>>, AppFault>,
    last: Result<WordCounts<SetAtom<H>>, Fault>,
) -> Result<VecDeque<WordCounts<SetAtom<H>>>, AppFault>
    requires lists { IfErr lists IsCountFault }
    requires last { IfErr last IsInternFault }
    ensures lists { IfOk result (λ all. IsOkAnd lists (λ lists. IsOkAnd last (λ counts. all.items ≡ lists.items ++ (counts ∷ [])))) }
    ensures fault { IfErr result IsCountFault }
{
    let mut lists = lists?;
    lists.push_back(last?)?;
    Ok(lists)
}

/// Starts a worker for each part, from the last down, and joins them all: the counts of each, in order. A fault is that of the
/// lowest piece.
fn counts_of_each<
    'x,
    'e: 'x,
    R: Threads + Wait + Sync,
    Static: StaticTables + Send + Sync,
    G: Gate,
>(
    scope: &Scope<'x, &'e ()>,
    rt: &'e R,
    set: &'e Set<Static>,
    keys: RandomState,
    gate: &'e G,
    parts: &[Part<'e>],
) -> Result<VecDeque<WordCounts<Atom<'e, Static>>>, AppFault>
    requires { length parts.now < 2 ^ 32 }
    ensures counts { IfOk result (λ lists. map (λ list. counted_texts list.items) lists.items ≡ map (λ part. word_counts (words_of_part part)) parts.now) }
    ensures fault { IfErr result IsCountFault }
{
    let Some((part, lower)) = parts.split_last() else {
        return Ok(VecDeque::new(set.allocator()));
    };
    let Part { text, from, to } = *part;
    let piece = parts.len() as u32;
    let started = scope.spawn_with(*part, move || {
        count_part(rt, set, keys, gate, Part { text, from, to }, piece)
    });
    let below = counts_of_each(scope, rt, set, keys, gate, lower);
    let Ok(worker) = started else {
        return Err(fault_above(below));
    };
    let own = worker.join(rt);
    with_last(below, own)
}

/// The counts of the words of the text, by `n` workers of the scope, each of which hashes words under these keys.
pub fn counts_in<'x, 'e: 'x, R: Threads + Wait + Sync, Static: StaticTables + Send + Sync, G: Gate>(
    scope: &Scope<'x, &'e ()>,
    rt: &'e R,
    set: &'e Set<Static>,
    keys: RandomState,
    gate: &'e G,
    text: &'e str,
    n: u32,
) -> Result<WordCounts<Atom<'e, Static>>, AppFault>
    requires { 1 ≤ n }
    ensures counts { IfOk result (λ counts. counted_texts counts.items ≡ word_counts (words text.now)) }
    ensures fault { IfErr result IsCountFault }
{
    let parts = parts(rt, set.allocator(), text, n)?;
    let lists = counts_of_each(scope, rt, set, keys, gate, &parts)?;
    let counts = merge_all(rt, set.allocator(), lists)?;
    Ok(counts)
}
