//! Counts the words of a text by several workers at once.

ghost use Rattle.std.specs.Prelude.{◌≡◌, ◌≤◌, IfOk, IfErr};
ghost use Rattle.word_counts.specs.Faults.{IsCountFault};
ghost use Rattle.word_counts.specs.WordCounts.{AreWordCounts, counted_texts, word_counts};
ghost use Rattle.word_counts.specs.Words.{words};

mod merge;
mod named_workers;
mod parts;
mod tally;
mod workers;

pub use merge::MANY;
// For the tests above.
#[doc(hidden)]
pub use parts::sections;
use std::hash::RandomState;
use std::sync::Wait;
use std::thread;
use std::thread::Threads;
use string_cache::dynamic_set::Set;
use string_cache::{Atom, NamedAtom, NamedSet, SetName, StaticTables};
use text_streams::faults::AppFault;
use workers::counts_in;

/// Lets the workers of `count` in to their pieces, numbered from 1, and out of them.
pub trait Gate: Sync {
    /// Called by a worker before it interns the words of its piece.
    fn enter<R: Wait>(&self, rt: &R, piece: u32);

    /// Called by a worker once it has done so or was refused, while it holds an atom of each of its words and of each place of a dynamic one.
    fn leave<R: Wait>(&self, rt: &R, piece: u32);
}

/// A gate that holds nobody up.
pub struct Open;

impl Gate for Open {
    fn enter<R: Wait>(&self, _rt: &R, _piece: u32) {}

    fn leave<R: Wait>(&self, _rt: &R, _piece: u32) {}
}

/// An atom of each word and how often the word occurred, in the order of texts.
pub type WordCounts<A> = Vec<(A, u64)>;

/// Each distinct word of the text once, in the order of bytes, with the number of its places.
///
/// The words are cut into `n` pieces, in order and about equally long, and each goes to a worker with a thread of its own.
/// It interns every word of its piece in the set, and a dynamic one at each of its places again, between the gate's two calls.
///
/// Words are hashed under `keys` while they are counted. What is returned doesn't depend on them. If they are random, as `RandomState::new` draws
/// them, nobody can choose words that collide there. In which bucket of the set a word is follows from the word alone, so whoever writes the text can
/// have many in one, which slows down their interning; `count_named` finds them under the key of the set's name.
///
/// `Worker` if a worker's thread couldn't be started, and `Intern` if interning or memory was refused. If several workers are refused, the fault is
/// that of the lowest piece. After a fault no worker is left running, and none of their atoms is held.
pub fn count<'s, R: Threads + Wait + Sync, Static: StaticTables + Send + Sync, G: Gate>(
    rt: &'s R,
    set: &'s Set<Static>,
    keys: RandomState,
    text: &'s str,
    n: u32,
    gate: &'s G,
) -> Result<WordCounts<Atom<'s, Static>>, AppFault>
    requires low { 1 ≤ n }
    requires high { n ≤ 64 }
    ensures counts { IfOk result (λ counts. counted_texts counts.items ≡ word_counts (words text.now)) }
    ensures law { IfOk result (λ counts. AreWordCounts (words text.now) (counted_texts counts.items)) }
    ensures fault { IfErr result IsCountFault }
{
    thread::scope(
        thread::scope_env::<'s>(),
        rt,
        move |scope| -> Result<WordCounts<Atom<'_, Static>>, AppFault>
            requires { 1 ≤ n }
            ensures counts { IfOk result (λ counts. counted_texts counts.items ≡ word_counts (words text.entry.now)) }
            ensures fault { IfErr result IsCountFault }
        { counts_in(scope, rt, set, keys, gate, text, n) },
    )
}

/// As `count`, in a set with a name. If its name has a random key as well (`FreshName::under`), words that were chosen for one bucket are found there
/// as fast as others are, though all workers then meet at one lock. Words that have one 64-bit hash are still walked.
pub fn count_named<
    's,
    R: Threads + Wait + Sync,
    Static: StaticTables + Send + Sync,
    N: SetName + Send + Sync,
    G: Gate,
>(
    rt: &'s R,
    set: &'s NamedSet<Static, N>,
    keys: RandomState,
    text: &'s str,
    n: u32,
    gate: &'s G,
) -> Result<WordCounts<NamedAtom<'s, Static, N>>, AppFault>
    requires low { 1 ≤ n }
    requires high { n ≤ 64 }
    ensures counts { IfOk result (λ counts. counted_texts counts.items ≡ word_counts (words text.now)) }
    ensures law { IfOk result (λ counts. AreWordCounts (words text.now) (counted_texts counts.items)) }
    ensures fault { IfErr result IsCountFault }
{
    thread::scope(
        thread::scope_env::<'s>(),
        rt,
        move |scope| -> Result<WordCounts<NamedAtom<'_, Static, N>>, AppFault>
            requires { 1 ≤ n }
            ensures counts { IfOk result (λ counts. counted_texts counts.items ≡ word_counts (words text.entry.now)) }
            ensures fault { IfErr result IsCountFault }
        { named_workers::counts_in(scope, rt, set, keys, gate, text, n) },
    )
}
