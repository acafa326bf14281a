//! Workers whose threads can't be started: `gate/refusals/refused.py` refuses each start of the call in turn. For a short text `count` starts one
//! thread for each piece, from the last piece down, and no other; for one of many words, from four pieces on, another for half of the lists, which it
//! can do without. With every start granted these pass as any test does.

ghost use Rattle.std.specs.Prelude.{◌≡◌};

use super::programs::{example_is_counted, line_is_run, many_are_counted, numbered_words};
use super::whole::count_by_two;
use crate::assert_that;
use crate::counting::counted;
use crate::memory::Lost;
use crate::program::{EXAMPLE_COUNTS, NO_WORKER};
use crate::words::{intern, set_with};
use std::alloc::Global;
use std::io::Print;
use std::marker::Brand;
use std::process::Abort;
use std::sync::Wait;
use std::sync::atomic::{AtomicU64, Ordering};
use std::thread::Threads;
use string_cache::dynamic_set::Set;
use string_cache::word::Limits;
use string_cache::{DefaultAtom, EmptyStaticAtomSet, Fault, FreshName, NamedSet, SetName};
use test_refusals::{End, begin, finish};
use test_samples::{EXAMPLE, keys};
use text_streams::faults::AppFault;
use word_counts::count::{Gate, count_named};

/// Counts how often the first worker and the second enter.
#[derive(Drop)]
struct Entries {
    first: AtomicU64,
    second: AtomicU64,
}

impl Entries {
    fn new() -> Entries {
        Entries {
            first: AtomicU64::new(0),
            second: AtomicU64::new(0),
        }
    }

    /// How often each did.
    fn counts(&self) -> (u64, u64) {
        (
            self.first.load(Ordering::SeqCst),
            self.second.load(Ordering::SeqCst),
        )
    }

    /// How a call ended, of which both would have to be started.
    fn end(&self) -> End {
        if self.counts() == (1, 1) {
            End::Given
        } else {
            End::Refused
        }
    }

    /// The fault of two workers, the first of which is refused a holder if it is started.
    fn fault(&self) -> AppFault {
        if self.counts().0 == 1 {
            AppFault::Intern(Fault::FullCount)
        } else {
            AppFault::Worker
        }
    }
}

impl Gate for Entries {
    fn enter<R: Wait>(&self, _rt: &R, piece: u32) {
        let entries = if piece == 1 {
            &self.first
        } else {
            &self.second
        };
        entries.fetch_add(1, Ordering::SeqCst);
    }

    fn leave<R: Wait>(&self, _rt: &R, _piece: u32) {}
}

#[test]
fn counts_by_two(rt: HostRuntime) {
    let fault = example_is_counted(&rt, rt.alloc(), 2);
    assert_that(&rt, matches!(fault, None | Some(AppFault::Worker)));
}

#[test]
fn counts_by_three(rt: HostRuntime) {
    let fault = example_is_counted(&rt, rt.alloc(), 3);
    assert_that(&rt, matches!(fault, None | Some(AppFault::Worker)));
}

#[test]
fn counts_by_eight(rt: HostRuntime) {
    let fault = example_is_counted(&rt, rt.alloc(), 8);
    assert_that(&rt, matches!(fault, None | Some(AppFault::Worker)));
}

#[test]
fn counts_of_many_by_three(rt: HostRuntime) {
    let fault = many_are_counted(&rt, rt.alloc(), 3);
    assert_that(&rt, matches!(fault, None | Some(AppFault::Worker)));
}

/// If the thread for half of the lists can't be started, the counts are returned all the same.
#[test]
fn counts_of_many_by_four(rt: HostRuntime) {
    let fault = many_are_counted(&rt, rt.alloc(), 4);
    assert_that(&rt, matches!(fault, None | Some(AppFault::Worker)));
}

#[test]
fn program_counts(rt: HostRuntime) {
    line_is_run(
        &rt,
        rt.alloc(),
        "count 2",
        (EXAMPLE, EXAMPLE_COUNTS),
        &[NO_WORKER],
    );
}

#[test]
fn program_counts_by_seven(rt: HostRuntime) {
    line_is_run(
        &rt,
        rt.alloc(),
        "count 7",
        (EXAMPLE, EXAMPLE_COUNTS),
        &[NO_WORKER],
    );
}

/// Whether two workers count the words of a text in a watched call, or one isn't started.
fn are_counted<R: Threads + Wait + Sync + Print>(rt: &R, alloc: Global, text: &str) -> bool {
    begin(rt);
    let answer = count_by_two(rt, alloc, text, &mut Lost);
    finish(rt, End::of(&answer));
    matches!(answer, Ok(()) | Err(AppFault::Worker))
}

/// 1,024 different words in a text of 73,728 bytes: the words of its second section are counted in another thread, and the atoms of half of the words
/// go in another. The call can do without both.
#[test]
fn counts_of_a_long_text(rt: HostRuntime) {
    let text = numbered_words(&rt, rt.alloc(), 8_192);
    assert_that(&rt, are_counted(&rt, rt.alloc(), &text));
}

/// The fault of two workers.
fn fault_of_two<R: Threads + Wait + Sync>(
    rt: &R,
    set: &Set<EmptyStaticAtomSet>,
    gate: &Entries,
) -> Option<AppFault> {
    counted(rt, set, "interned tokenised", 2, gate).err()
}

/// Whether the fault is that of the first worker or, if that wasn't started, says so.
fn is_lower_fault<R: Threads + Wait + Sync + Print>(
    rt: &R,
    set: &Set<EmptyStaticAtomSet>,
    gate: &Entries,
) -> bool {
    begin(rt);
    let fault = fault_of_two(rt, set, gate);
    finish(rt, gate.end());
    fault == Some(gate.fault())
}

/// Whether that is so, and only the atom of "interned" stays linked.
fn lower_fault_is_told<R: Threads + Wait + Sync + Print>(
    rt: &R,
    set: &Set<EmptyStaticAtomSet>,
    held: &DefaultAtom<'_>,
) -> bool {
    is_lower_fault(rt, set, &Entries::new()) && set.linked(rt) == 1 && held.eq_str("interned")
}

/// The first worker is refused a holder, since its word has its only one. Its fault is returned if it was started, whether or not the second was.
#[test]
fn lower_fault_is_answered(rt: HostRuntime) {
    let set = set_with(&rt, rt.alloc(), 1, 9);
    assert_that(
        &rt,
        lower_fault_is_told(&rt, &set, &intern(&rt, &set, "interned")),
    );
}

/// The fault of two workers in a set with a name.
fn named_fault_of_two<N: SetName + Send + Sync, R: Threads + Wait + Sync + Abort>(
    rt: &R,
    set: &NamedSet<EmptyStaticAtomSet, N>,
    gate: &Entries,
) -> Option<AppFault> {
    let keys = keys(1).expect(rt, "keys");
    count_named(rt, set, keys, "interned tokenised", 2, gate).err()
}

/// Whether the fault is right in the set with this name, in which a text may have one holder.
fn is_lower_in<N: SetName + Send + Sync, R: Threads + Wait + Sync + Print + Abort>(
    rt: &R,
    alloc: Global,
    name: FreshName,
) -> bool
    requires { N.logs ≡ name.logs }
{
    let limits = Limits::new(1, 9).expect(rt, "limits");
    let set = NamedSet::<EmptyStaticAtomSet, N>::new(alloc, name, limits).expect(rt, "a set");
    let held = set.intern(rt, "interned").ok();
    drop(set.intern(rt, "tokenised").ok()); // so that its bucket has room for it
    let gate = Entries::new();
    begin(rt);
    let fault = named_fault_of_two(rt, &set, &gate);
    finish(rt, gate.end());
    drop(held);
    fault == Some(gate.fault()) && set.linked(rt) == 0
}

/// The same in a set of its own.
fn is_lower_by_name<R: Threads + Wait + Sync + Print + Abort>(rt: &R, alloc: Global) -> bool {
    let name = FreshName::usual(alloc).expect(rt, "a name");
    is_lower_in::<Brand, R>(rt, alloc, name)
}

#[test]
fn lower_fault_in_a_set_with_a_name(rt: HostRuntime) {
    assert_that(&rt, is_lower_by_name(&rt, rt.alloc()));
}
