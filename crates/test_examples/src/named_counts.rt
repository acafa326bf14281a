//! How often texts occur, by their words: several threads intern the words of one text in one set with a name, each in a map of its own, and the maps
//! are added up without reading a text.
ghost use Rattle.std.specs.Prelude.{◌≡◌};

use crate::assert_that;
use named_set::{FreshName, NamedSet, SetName};
use set_atoms::{ByWord, NamedAtom};
use std::alloc::Global;
use std::collections::HashMap;
use std::marker::Brand;
use std::process::Abort;
use std::sync::Wait;
use std::thread::{self, Threads};
use string_cache::Fault;
use string_cache::word::Limits;
use test_samples::One;

type Named<N> = NamedSet<One, N>;

/// How often texts occurred, by their words.
type Counts<'s, N> = HashMap<ByWord<'s, One, N>, u64>;

/// Nine words: of a static text, of an inline one, and of dynamic ones, one of which is beyond ASCII.
const LINE: &str =
    "tokenised Größenordnung sentence été Größenordnung tokenised interned Größenordnung sentence\n";

/// How often each of its texts occurs.
static TIMES: [(&str, u64); 5] = [
    ("Größenordnung", 3),
    ("été", 1),
    ("interned", 1),
    ("sentence", 2),
    ("tokenised", 2),
];

const LINES: usize = 800;

const WORKERS: usize = 8;

/// How the words are shared out.
#[derive(Clone, Copy)]
enum Shares {
    /// A hundred lines to each worker.
    Blocks,
    /// Every eighth word to each worker, so that each has words of all texts.
    Turns,
    /// Half of the lines to the first worker, and the rest in turn.
    Halves,
}

impl Shares {
    /// Which worker has this word.
    fn worker_of(self, at: usize) -> usize {
        match self {
            Shares::Blocks => at / 900,
            Shares::Turns => at % WORKERS,
            Shares::Halves => { if at < 3_600 { 0 } else { at % WORKERS } }
        }
    }
}

/// Adds this many to what the word has.
fn add<'s, N: SetName>(
    counts: &mut Counts<'s, N>,
    word: ByWord<'s, One, N>,
    times: u64,
) -> Result<(), Fault> {
    match counts.get_mut(&word) {
        Some(count) => *count = count.saturating_add(times),
        None => {
            counts.insert(word, times)?;
        }
    }
    Ok(())
}

/// Interns a text, and counts its word.
fn count_one<'s, N: SetName, R: Wait>(
    rt: &R,
    set: &'s Named<N>,
    counts: &mut Counts<'s, N>,
    text: &str,
) -> Result<(), Fault> {
    let atom = NamedAtom::from_str_in(rt, set, text)?;
    add(counts, ByWord::new(atom), 1)
}

/// The counts of one worker's words.
fn counts_of<'s, N: SetName, R: Wait + Abort>(
    rt: &R,
    set: &'s Named<N>,
    text: &str,
    shares: Shares,
    worker: usize,
) -> Counts<'s, N> {
    let mut counts = HashMap::new(set.allocator());
    for (at, word) in text.split_whitespace().enumerate() {
        if shares.worker_of(at) == worker {
            count_one(rt, set, &mut counts, word).expect(rt, "room");
        }
    }
    counts
}

/// The counts of each of the workers, which count at once.
fn count_each<'s, N: SetName + Send + Sync, R: Threads + Wait + Sync + Abort>(
    rt: &R,
    set: &'s Named<N>,
    text: &str,
    shares: Shares,
) -> Vec<Counts<'s, N>> {
    thread::map_indices(
        rt,
        set.allocator(),
        WORKERS,
        &|worker| counts_of(rt, set, text, shares, worker),
    )
    .expect(rt, "workers")
}

/// Adds what one worker counted.
fn add_all<'s, N: SetName, R: Abort>(rt: &R, totals: &mut Counts<'s, N>, counts: Counts<'s, N>) {
    for (word, times) in counts {
        add(totals, word, times).expect(rt, "room");
    }
}

/// What all workers counted together.
fn totals_of<'s, N: SetName, R: Abort>(
    rt: &R,
    alloc: Global,
    each: Vec<Counts<'s, N>>,
) -> Counts<'s, N> {
    let mut totals = HashMap::new(alloc);
    for counts in each {
        add_all(rt, &mut totals, counts);
    }
    totals
}

/// Whether this is what the map has under the word of a text.
fn is_total<N: SetName, R: Wait + Abort>(
    rt: &R,
    set: &Named<N>,
    totals: &Counts<N>,
    text: &str,
    wanted: u64,
) -> bool {
    let atom = NamedAtom::from_str_in(rt, set, text).expect(rt, "an atom");
    totals.get(&ByWord::new(atom)).copied() == Some(wanted)
}

/// Whether each text has its total, and there is no other word.
fn are_totals<N: SetName, R: Wait + Abort>(rt: &R, set: &Named<N>, totals: &Counts<N>) -> bool {
    for (text, times) in &TIMES {
        if !is_total(rt, set, totals, text, times.saturating_mul(LINES as u64)) {
            return false;
        }
    }
    totals.len() == TIMES.len()
}

/// Counts the text, and asks for the totals. While they are held, the three dynamic texts are linked.
fn are_counted<N: SetName + Send + Sync, R: Threads + Wait + Sync + Abort>(
    rt: &R,
    set: &Named<N>,
    text: &str,
    shares: Shares,
) -> bool {
    let each = count_each(rt, set, text, shares);
    let totals = totals_of(rt, set.allocator(), each);
    are_totals(rt, set, &totals) && set.linked(rt) == 3
}

/// Whether the totals are right for each way to share the words out, and whether nothing is left linked.
fn are_all_counted<N: SetName + Send + Sync, R: Threads + Wait + Sync + Abort>(
    rt: &R,
    set: &Named<N>,
) -> bool {
    let text = LINE.repeat(set.allocator(), LINES).expect(rt, "room");
    for shares in &[Shares::Blocks, Shares::Turns, Shares::Halves] {
        if !are_counted(rt, set, &text, *shares) {
            return false;
        }
    }
    set.linked(rt) == 0
}

/// The same, in the set with this name.
fn are_all_counted_named<N: SetName + Send + Sync, R: Threads + Wait + Sync + Abort>(
    rt: &R,
    alloc: Global,
    name: FreshName,
) -> bool
    requires { N.logs ≡ name.logs }
{
    let set = NamedSet::new(alloc, name, Limits::greatest()).expect(rt, "a set");
    are_all_counted::<N, R>(rt, &set)
}

/// However the words of a text are shared out to eight threads, the total under each word is how often its text occurs.
#[test]
fn totals_are_those_of_texts(rt: HostRuntime) {
    let name = FreshName::usual(rt.alloc()).expect(&rt, "a name");
    assert_that(
        &rt,
        are_all_counted_named::<Brand, _>(&rt, rt.alloc(), name),
    );
}
