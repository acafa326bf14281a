//! A set of each kind, with a name and without, and what is asked of both.
//!
//! The name of a set is a type parameter that a caller picks, so what makes the set and what is asked of it are one function, and an enum says
//! what that is.

ghost use Rattle.std.specs.Prelude.{◌≡◌};

use crate::samples::buckets_of;
use crate::scenes::{self, Step};
use crate::together::Together;
use crate::{
    assert_that, bits, crowds, every_bucket, forms, lists, many, texts, threads, told, waits,
};
use named_set::{FreshName, NamedSet, SetName};
use std::alloc::Global;
use std::marker::Brand;
use std::process::Abort;
use std::sync::Wait;
use std::thread::Threads;
use std::time::Clock;
use string_cache::SharedSet;
use string_cache::dynamic_set::Set;
use string_cache::word::Limits;
use test_samples::One;

/// The kind of a set.
#[derive(Clone, Copy)]
pub enum Kind {
    /// Without a name.
    Plain,
    /// With a name.
    Named,
}

/// How large a set is: the bits of its buckets, and how many holders and serials there may be, if not as many as can be.
#[derive(Clone, Copy)]
pub struct Size {
    pub bits: u8,
    pub limits: Option<(u64, u64)>,
}

/// The usual number of buckets, and the greatest limits.
pub const USUAL: Size = Size {
    bits: 12,
    limits: None,
};

/// One bucket, and the greatest limits.
pub const ONE_BUCKET: Size = Size {
    bits: 0,
    limits: None,
};

/// The usual number of buckets, and limits of holders and serials.
pub fn within(holders: u64, serials: u64) -> Size {
    Size {
        bits: 12,
        limits: Some((holders, serials)),
    }
}

/// What is asked of a set.
#[derive(Clone, Copy)]
pub enum Question<'q> {
    /// Scenes, each from where the one before it ends.
    Scenes(&'q [&'q [Step]]),
    Texts(texts::Question),
    Forms(forms::Question),
    Told,
    Lists(lists::Scene),
    Many(many::Question),
    /// One text in each bucket; these are the texts.
    EveryBucket(&'q [String]),
    Threads(threads::Scene),
    Crowds(crowds::Question<'q>),
    /// A call during a visit.
    Waits(waits::Call),
    /// The first word of "interned".
    FirstWord(u64),
}

/// Asks it of a set that must have these limits.
fn asked<S: SharedSet + Together + Send + Sync, R: Threads + Clock + Wait + Abort + Sync>(
    rt: &R,
    set: S,
    kind: Kind,
    limits: Limits,
    question: Question<'_>,
) {
    assert_that(rt, set.limits() == limits);
    match question {
        Question::Scenes(of) => scenes::play(rt, set, kind, of),
        Question::Texts(of) => texts::check(rt, set, of),
        Question::Forms(of) => forms::check(rt, set, of),
        Question::Told => told::check(rt, set),
        Question::Lists(of) => lists::play(rt, set, of),
        Question::Many(of) => many::check(rt, set, kind, of),
        Question::EveryBucket(texts) => every_bucket::check(rt, set, kind, texts),
        Question::Threads(of) => threads::play(rt, set, of),
        Question::Crowds(of) => crowds::check(rt, set, of),
        Question::Waits(of) => waits::play(rt, set, kind, of),
        Question::FirstWord(word) => bits::check(rt, set, word),
    }
}

fn limits_of(rt: &impl Abort, size: Size) -> Limits {
    match size.limits {
        Some((holders, serials)) => Limits::new(holders, serials).expect(rt, "limits"),
        None => Limits::greatest(),
    }
}

fn ask_plain<R: Threads + Clock + Wait + Abort + Sync>(
    rt: &R,
    alloc: Global,
    size: Size,
    question: Question<'_>,
) {
    let (count, limits) = (buckets_of(rt, size.bits), limits_of(rt, size));
    let set = Set::<One>::with_buckets(alloc, limits, count).expect(rt, "a set");
    asked(rt, &set, Kind::Plain, limits, question);
}

/// Asks it of the set with this name.
fn ask_named_as<N: SetName + Send + Sync, R: Threads + Clock + Wait + Abort + Sync>(
    rt: &R,
    alloc: Global,
    name: FreshName,
    limits: Limits,
    question: Question<'_>,
)
    requires { N.logs ≡ name.logs }
{
    let set = NamedSet::<One, N>::new(alloc, name, limits).expect(rt, "a set");
    asked(rt, &set, Kind::Named, limits, question);
}

fn ask_named<R: Threads + Clock + Wait + Abort + Sync>(
    rt: &R,
    alloc: Global,
    size: Size,
    question: Question<'_>,
) {
    let name = FreshName::new(alloc, buckets_of(rt, size.bits)).expect(rt, "a name");
    ask_named_as::<Brand, R>(rt, alloc, name, limits_of(rt, size), question);
}

/// Asks it of a new set of this size, of each kind, with the static text "sentence".
pub fn ask<R: Threads + Clock + Wait + Abort + Sync>(
    rt: &R,
    alloc: Global,
    size: Size,
    question: Question<'_>,
) {
    ask_plain(rt, alloc, size, question);
    ask_named(rt, alloc, size, question);
}

/// Plays scenes in a new set of this size, of each kind, each scene from where the one before it ends.
pub fn play<R: Threads + Clock + Wait + Abort + Sync>(
    rt: &R,
    alloc: Global,
    size: Size,
    of: &[&[Step]],
) {
    ask(rt, alloc, size, Question::Scenes(of));
}
