//! What no clause says about threads at one set with a name: that two at one new text get the same word, and that many at the texts of one bucket
//! each get theirs and leave nothing.
ghost use Rattle.std.specs.Prelude.{◌≡◌};

use crate::calls::{cloned, has_text, interned, is_found_as, links};
use crate::{assert_for, assert_that};
use named_set::{FreshName, Held, NamedSet, SetName};
use std::alloc::Global;
use std::marker::Brand;
use std::sync::Wait;
use std::sync::atomic::{AtomicU64, Ordering};
use std::thread::{self, Threads};
use text_forms::Fault;
use text_forms::static_sets::{EmptyStaticAtomSet, StaticTables};
use text_forms::word::{Buckets, Limits};

type Named<N> = NamedSet<EmptyStaticAtomSet, N>;

/// What threads do at once in one set.
#[derive(Clone, Copy)]
enum Race {
    /// Two intern one new text.
    OneText,
    /// Many intern, find, clone and drop the texts of one bucket.
    OneBucket,
}

/// Whether it ends as it must, in a new set of 2 to the power of `bits` buckets.
fn is_won<R: Threads + Wait + Sync>(
    rt: &R,
    alloc: Global,
    bits: u8,
    race: Race,
) -> Result<bool, Fault> {
    let count = match Buckets::new(bits) {
        Some(count) => count,
        None => Buckets::usual(),
    };
    let name = FreshName::new(alloc, count)?;
    is_won_named::<Brand, R>(rt, alloc, name, count, race)
}

fn is_won_named<N: SetName + Send + Sync, R: Threads + Wait + Sync>(
    rt: &R,
    alloc: Global,
    name: FreshName,
    count: Buckets,
    race: Race,
) -> Result<bool, Fault>
    requires { N.logs ≡ name.logs }
{
    let set = NamedSet::new(alloc, name, Limits::greatest())?;
    match race {
        Race::OneText => Ok(two_at_one_text::<N, R>(rt, &set)),
        Race::OneBucket => many_at_one_bucket::<N, R>(rt, alloc, &set, count),
    }
}

/// How often two threads meet at one text.
const ROUNDS: u64 = 2_000;

/// Where two threads wait for each other, and the words that they were given.
#[derive(Drop)]
struct Meeting {
    gate: AtomicU64,
    one: AtomicU64,
    two: AtomicU64,
}

/// Waits until two threads have come here this often.
fn meet<R: Wait>(rt: &R, gate: &AtomicU64, times: u64) {
    let _ = gate.fetch_add(1, Ordering::SeqCst);
    for _ in rt.forever() {
        if gate.load(Ordering::SeqCst) >= times.saturating_mul(2) {
            return;
        }
        thread::yield_now();
    }
}

/// Interns a text that nobody held before, at the same time as another thread does, in each round. Returns in how many both had the same word. If it
/// is refused, the other needn't wait any more.
fn intern_beside<N: SetName, R: Wait>(
    rt: &R,
    set: &Named<N>,
    gate: &AtomicU64,
    mine: &AtomicU64,
    other: &AtomicU64,
) -> Result<u64, Fault> {
    let mut same = 0u64;
    for round in 0..ROUNDS {
        meet(rt, gate, 3 * round + 1);
        let held = match set.intern(rt, "Größenordnung") {
            Ok(held) => held,
            Err(fault) => {
                gate.store(u64::MAX / 2, Ordering::SeqCst);
                return Err(fault);
            }
        };
        let word = held.word();
        mine.store(word, Ordering::SeqCst);
        meet(rt, gate, 3 * round + 2);
        same = same.saturating_add(u64::from(other.load(Ordering::SeqCst) == word));
        meet(rt, gate, 3 * round + 3);
    }
    Ok(same)
}

/// What two threads at one new text say about their rounds.
fn intern_at_once<N: SetName + Send + Sync, R: Threads + Wait + Sync>(
    rt: &R,
    set: &Named<N>,
) -> (Result<u64, Fault>, Result<u64, Fault>) {
    let at = Meeting {
        gate: AtomicU64::new(0),
        one: AtomicU64::new(0),
        two: AtomicU64::new(0),
    };
    thread::join(
        rt,
        || intern_beside(rt, set, &at.gate, &at.one, &at.two),
        || intern_beside(rt, set, &at.gate, &at.two, &at.one),
    )
}

/// Two threads at one new text. Returns whether both had the same word in each round, and nothing stayed.
fn two_at_one_text<N: SetName + Send + Sync, R: Threads + Wait + Sync>(
    rt: &R,
    set: &Named<N>,
) -> bool {
    let (left, right) = intern_at_once::<N, R>(rt, set);
    left == Ok(ROUNDS) && right == Ok(ROUNDS) && links(rt, set, 0)
}

/// Of two threads that find a text absent one links it, and the other is given the same word.
#[test]
fn two_threads_at_one_new_text(rt: HostRuntime) {
    assert_that(
        &rt,
        is_won(&rt, rt.alloc(), 12, Race::OneText).expect(&rt, "an answer"),
    );
}

/// Whether the text is one of the first bucket.
fn is_mate(count: Buckets, text: &str) -> bool {
    let (_, hash) = EmptyStaticAtomSet::look_up(text);
    count.bucket_of(hash) == 0
}

/// Eleven texts beyond ASCII of the first bucket.
fn bucket_mates(alloc: Global, count: Buckets) -> Result<Vec<String>, Fault> {
    let mut mates = Vec::new(alloc);
    for n in 0..100_000u32 {
        let text = format!(in alloc; "Wörter{n}")?;
        if is_mate(count, text.as_str()) {
            mates.push(text)?;
        }
        if mates.len() == 11 {
            break;
        }
    }
    Ok(mates)
}

/// A second holder of the text's word, once the first has gone, unless it is refused.
fn second_holder<'s, S: StaticTables, N: SetName, R: Wait>(
    rt: &R,
    set: &'s NamedSet<S, N>,
    text: &str,
) -> Result<Held<'s, S, N>, Fault> {
    match interned(rt, set, text) {
        Ok(first) => cloned(rt, &first),
        Err(fault) => Err(fault),
    }
}

/// Whether a text that is held twice, and then once, is found under its word.
fn is_given<S: StaticTables, N: SetName, R: Wait>(
    rt: &R,
    set: &NamedSet<S, N>,
    text: &str,
) -> bool {
    match second_holder(rt, set, text) {
        Ok(held) => is_found_as(rt, set, &held, text) && has_text(&held, text),
        Err(_) => false,
    }
}

/// Whether each of the texts is.
fn are_given<N: SetName, R: Wait>(rt: &R, set: &Named<N>, texts: &[String]) -> bool {
    for text in texts {
        if !is_given(rt, set, text) {
            return false;
        }
    }
    true
}

/// Whether they are, again and again.
fn turn_over<N: SetName, R: Wait>(rt: &R, set: &Named<N>, texts: &[String]) -> bool {
    for _ in 0..100 {
        if !are_given(rt, set, texts) {
            return false;
        }
    }
    true
}

/// 64 workers at texts of one bucket. Returns whether each was given its texts, and whether none is left linked.
fn many_at_one_bucket<N: SetName + Send + Sync, R: Threads + Wait + Sync>(
    rt: &R,
    alloc: Global,
    set: &Named<N>,
    count: Buckets,
) -> Result<bool, Fault> {
    let mates = bucket_mates(alloc, count)?;
    let texts = mates.as_slice();
    let turns = thread::map_indices(rt, alloc, 64, &|_| turn_over(rt, set, texts))?;
    set.sweep(rt);
    let all = turns.len() == 64 && turns.iter().all(|turn| *turn);
    Ok(all && texts.len() == 11 && links(rt, set, 0))
}

/// Each of 64 workers is given its texts, and nothing stays.
#[test]
fn many_workers_at_one_bucket(rt: HostRuntime) {
    for bits in [0, 12] {
        let won = is_won(&rt, rt.alloc(), bits, Race::OneBucket);
        assert_for(&rt, won.expect(&rt, "an answer"), &bits);
    }
}
