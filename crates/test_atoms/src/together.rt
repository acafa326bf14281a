//! What threads do with one set side by side. These are calls of a trait whose bounds name no atom: in a thread, the checker accepts no generic
//! function over a set whose atoms are bounded.

use crate::sets::Kind;
use crate::waits::{Call, Meeting};
use crate::{crowds, lists, threads, waits};
use named_set::{NamedSet, SetName};
use std::process::Abort;
use std::sync::Wait;
use std::sync::atomic::AtomicU64;
use std::time::Clock;
use string_cache::dynamic_set::Set;
use test_samples::One;

/// A borrowed set, with what a thread does.
pub trait Together: Copy {
    /// As `threads::turn_over`.
    fn turn_over<R: Wait + Abort>(self, rt: &R) -> bool;

    /// As `threads::clone_and_drop`.
    fn clone_and_drop<R: Wait + Abort>(self, rt: &R);

    /// As `threads::intern_beside`.
    fn intern_beside<R: Wait + Abort>(
        self,
        rt: &R,
        gate: &AtomicU64,
        mine: &AtomicU64,
        other: &AtomicU64,
    ) -> u64;

    /// As `crowds::turn_over`.
    fn turn_over_all<R: Wait + Abort>(self, rt: &R, rounds: usize, texts: &[String]) -> bool;

    /// As `lists::fills_and_goes`.
    fn fill<R: Wait>(self, rt: &R, texts: [&str; 4]) -> bool;

    /// As `waits::works_beside`.
    fn call<R: Clock + Wait + Abort>(self, rt: &R, kind: Kind, at: &Meeting, call: Call) -> bool;

    /// As `waits::visits_long`.
    fn visit_long<R: Clock + Wait>(self, rt: &R, at: &Meeting, text: &str, most: u32) -> bool;
}

impl<'s> Together for &'s Set<One> {
    fn turn_over<R: Wait + Abort>(self, rt: &R) -> bool {
        threads::turn_over(rt, self)
    }

    fn clone_and_drop<R: Wait + Abort>(self, rt: &R) {
        threads::clone_and_drop(rt, self)
    }

    fn intern_beside<R: Wait + Abort>(
        self,
        rt: &R,
        gate: &AtomicU64,
        mine: &AtomicU64,
        other: &AtomicU64,
    ) -> u64 {
        threads::intern_beside(rt, self, gate, mine, other)
    }

    fn turn_over_all<R: Wait + Abort>(self, rt: &R, rounds: usize, texts: &[String]) -> bool {
        crowds::turn_over(rt, self, rounds, texts)
    }

    fn fill<R: Wait>(self, rt: &R, texts: [&str; 4]) -> bool {
        lists::fills_and_goes(rt, self, texts)
    }

    fn call<R: Clock + Wait + Abort>(self, rt: &R, kind: Kind, at: &Meeting, call: Call) -> bool {
        waits::works_beside(rt, self, kind, at, call)
    }

    fn visit_long<R: Clock + Wait>(self, rt: &R, at: &Meeting, text: &str, most: u32) -> bool {
        waits::visits_long(rt, self, at, text, most)
    }
}

impl<'s, N: SetName> Together for &'s NamedSet<One, N> {
    fn turn_over<R: Wait + Abort>(self, rt: &R) -> bool {
        threads::turn_over(rt, self)
    }

    fn clone_and_drop<R: Wait + Abort>(self, rt: &R) {
        threads::clone_and_drop(rt, self)
    }

    fn intern_beside<R: Wait + Abort>(
        self,
        rt: &R,
        gate: &AtomicU64,
        mine: &AtomicU64,
        other: &AtomicU64,
    ) -> u64 {
        threads::intern_beside(rt, self, gate, mine, other)
    }

    fn turn_over_all<R: Wait + Abort>(self, rt: &R, rounds: usize, texts: &[String]) -> bool {
        crowds::turn_over(rt, self, rounds, texts)
    }

    fn fill<R: Wait>(self, rt: &R, texts: [&str; 4]) -> bool {
        lists::fills_and_goes(rt, self, texts)
    }

    fn call<R: Clock + Wait + Abort>(self, rt: &R, kind: Kind, at: &Meeting, call: Call) -> bool {
        waits::works_beside(rt, self, kind, at, call)
    }

    fn visit_long<R: Clock + Wait>(self, rt: &R, at: &Meeting, text: &str, most: u32) -> bool {
        waits::visits_long(rt, self, at, text, most)
    }
}
