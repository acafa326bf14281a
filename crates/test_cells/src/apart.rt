//! Calls that go over all buckets of a set with a name: while one waits for the second bucket, it has the lock of the first one no more.
ghost use Rattle.std.specs.Prelude.{◌≡◌};

use crate::assert_for;
use crate::calls::{interned, links};
use named_set::{FreshName, NamedSet, SetName};
use std::alloc::Global;
use std::marker::Brand;
use std::process::Abort;
use std::sync::Wait;
use std::sync::atomic::{AtomicBool, Ordering};
use std::thread::{self, Threads};
use std::time::{Clock, Duration};
use text_forms::static_sets::EmptyStaticAtomSet;
use text_forms::word::{Buckets, Limits};

type Named<N> = NamedSet<EmptyStaticAtomSet, N>;

/// A call that goes over all buckets.
#[derive(Clone, Copy, Debug)]
enum Walk {
    Sweep,
    Linked,
    Memory,
    Visits,
}

fn make<N: SetName, R: Wait>(rt: &R, set: &Named<N>, walk: Walk) {
    match walk {
        Walk::Sweep => set.sweep(rt),
        Walk::Linked => {
            let _ = set.linked(rt);
        }
        Walk::Memory => {
            let _ = set.memory(rt);
        }
        Walk::Visits => set.for_each(rt, |_, _| {}),
    }
}

/// Makes the call once the visit of the other thread has the second bucket, or ten seconds have gone.
fn walk_late<N: SetName, R: Clock + Wait>(rt: &R, set: &Named<N>, at: &AtomicBool, of: Walk) {
    for _ in 0..10_000 {
        if at.load(Ordering::SeqCst) {
            break;
        }
        thread::sleep(rt, Duration::from_millis(1));
    }
    make(rt, set, of);
}

/// Tells that the visit is there, and gives the call time to go over the first bucket.
fn stay<R: Clock>(rt: &R, at: &AtomicBool) {
    at.store(true, Ordering::SeqCst);
    thread::sleep(rt, Duration::from_millis(500));
}

/// Lets the last holder of a text of the first bucket go while a visit has the second. Returns whether its cell went with it. By OpenSSL's SipHash
/// "afterwards" is in the first of two buckets, and "geometric" in the second.
fn goes_at_once<N: SetName, R: Clock + Wait + Abort>(
    rt: &R,
    set: &Named<N>,
    at: &AtomicBool,
) -> bool {
    let mut first = Some(interned(rt, set, "afterwards").expect(rt, "a word"));
    let _second = interned(rt, set, "geometric").expect(rt, "a word");
    set.for_each(rt, |text, _| {
        if text == "geometric" {
            stay(rt, at);
            first = None;
        }
    });
    links(rt, set, 1)
}

/// Whether it goes at once while the call waits for the second bucket.
fn goes_beside<N: SetName + Send + Sync, R: Threads + Clock + Wait + Abort + Sync>(
    rt: &R,
    set: &Named<N>,
    of: Walk,
) -> bool {
    let at = AtomicBool::new(false);
    let (goes, ()) = thread::join(
        rt,
        || goes_at_once(rt, set, &at),
        || walk_late(rt, set, &at, of),
    );
    goes
}

fn is_so_as<N: SetName + Send + Sync, R: Threads + Clock + Wait + Abort + Sync>(
    rt: &R,
    alloc: Global,
    name: FreshName,
    of: Walk,
) -> bool
    requires { N.logs ≡ name.logs }
{
    let set = Named::<N>::new(alloc, name, Limits::greatest()).expect(rt, "a set");
    goes_beside::<N, R>(rt, &set, of)
}

/// Whether it is so of a new set of two buckets.
fn is_so<R: Threads + Clock + Wait + Abort + Sync>(rt: &R, alloc: Global, of: Walk) -> bool {
    let two = Buckets::new(1).expect(rt, "a number");
    let name = FreshName::new(alloc, two).expect(rt, "a name");
    is_so_as::<Brand, R>(rt, alloc, name, of)
}

#[test]
fn calls_over_all_buckets_hold_one_lock(rt: HostRuntime) {
    for of in &[Walk::Sweep, Walk::Linked, Walk::Memory, Walk::Visits] {
        assert_for(&rt, is_so(&rt, rt.alloc(), *of), of);
    }
}
