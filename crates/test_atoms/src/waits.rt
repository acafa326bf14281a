//! Calls during another thread's visit, which has a bucket's lock: which of them wait for it, and what they then tell. By OpenSSL's SipHash the
//! bucket of "afterwards" is 0, of "geometric" 0xfff, and of "interned" 0x210.

use crate::assert_for;
use crate::samples::{check_linked, clone_of, intern, owned};
use crate::scenes::{self, Step};
use crate::sets::{self, Kind, ONE_BUCKET, Size, USUAL, ask};
use crate::texts::json_copy;
use crate::together::Together;
use serde_json::Value;
use std::process::Abort;
use std::sync::Wait;
use std::sync::atomic::{AtomicBool, Ordering};
use std::thread::{self, Threads};
use std::time::{Clock, Duration};
use string_cache::{Fault, SetAtom, SharedSet};
use test_calls::{
    cloned, has_text, has_word, interned, interned_owned, look_up, lowered, read_json, shown,
};

/// What is done during the visit.
#[derive(Clone, Copy, Debug)]
pub enum Call {
    /// What takes the lock of each bucket.
    Linked,
    Visits,
    Memory,
    Sweep,
    /// Interning and looking up in the bucket of the lock, and in others.
    SameBucket,
    OtherBucket,
    /// Looking up a text that is held, in the bucket of the lock.
    LookUp,
    /// What takes no lock.
    Unlocked,
    /// Interning and looking up a text of the first of two buckets until each is refused, while a visit has the lock of the second, and the reverse.
    FirstOfTwo,
    SecondOfTwo,
}

impl Call {
    /// Whether it ends without the lock.
    fn needs_none(self) -> bool {
        matches!(
            self,
            Call::OtherBucket | Call::Unlocked | Call::FirstOfTwo | Call::SecondOfTwo
        )
    }

    /// The text at which the visit stays.
    fn stays_at(self) -> &'static str {
        match self {
            Call::SecondOfTwo => "afterwards",
            _ => "geometric",
        }
    }
}

/// Where the visit and the call wait for each other.
#[derive(Drop)]
pub struct Meeting {
    is_ready: AtomicBool,
    is_locked: AtomicBool,
    has_ended: AtomicBool,
}

/// Waits until this is so, for at most this many milliseconds. Returns whether it is.
fn waits_for<R: Clock>(rt: &R, is_so: &AtomicBool, most: u32) -> bool {
    for _ in 0..most {
        if is_so.load(Ordering::SeqCst) {
            return true;
        }
        thread::sleep(rt, Duration::from_millis(1));
    }
    is_so.load(Ordering::SeqCst)
}

impl Meeting {
    fn new() -> Self {
        Meeting {
            is_ready: AtomicBool::new(false),
            is_locked: AtomicBool::new(false),
            has_ended: AtomicBool::new(false),
        }
    }

    /// Lets the visit begin, and waits until it has the lock.
    fn meet<R: Clock>(&self, rt: &R) {
        self.is_ready.store(true, Ordering::SeqCst);
        let _ = waits_for(rt, &self.is_locked, 10_000);
    }

    /// Keeps the lock until the call has ended, for at most this many milliseconds. Returns whether it has.
    fn keep<R: Clock>(&self, rt: &R, most: u32) -> bool {
        self.is_locked.store(true, Ordering::SeqCst);
        waits_for(rt, &self.has_ended, most)
    }

    fn end(&self) {
        self.has_ended.store(true, Ordering::SeqCst);
    }
}

/// Visits the set, and stays at the text. Returns whether the call ended in the meantime.
pub fn visits_long<S: SharedSet, R: Clock + Wait>(
    rt: &R,
    set: S,
    at: &Meeting,
    text: &str,
    most: u32,
) -> bool {
    let _ = waits_for(rt, &at.is_ready, 10_000);
    let mut has_ended = false;
    set.for_each(rt, |next, _| {
        if next == text {
            has_ended = at.keep(rt, most);
        }
    });
    has_ended
}

/// The bytes of the usual buckets that have two texts of 16 bytes, each of its own bucket.
fn bytes_of(kind: Kind) -> u128 {
    match kind {
        Kind::Plain => 4096 * 32 + 2 * (48 + 32 + 16),
        Kind::Named => 4096 * 112 + 2 * (32 + 32 + 16),
    }
}

/// Whether the set shows two texts with one holder each.
fn tells_two<S: SharedSet, R: Wait>(rt: &R, set: S, kind: Kind, call: Call) -> bool {
    match call {
        Call::Linked => set.linked(rt) == 2,
        Call::Visits => shown(rt, set).holders == 2,
        Call::Memory => set.memory(rt) == bytes_of(kind),
        _ => false,
    }
}

/// Whether a sweep leaves none of two dying texts.
fn sweeps<S: SharedSet, R: Wait>(rt: &R, set: S) -> bool {
    set.sweep(rt);
    set.linked(rt) == 0
}

/// Whether the text is interned, and found as itself.
fn is_found<S: SharedSet, R: Wait + Abort>(rt: &R, set: S, text: &str) -> bool {
    let atom = intern(rt, set, text);
    match look_up(rt, set, text) {
        Ok(Some(found)) => found == atom,
        _ => false,
    }
}

/// Whether the text is found.
fn is_there<S: SharedSet, R: Wait>(rt: &R, set: S, text: &str) -> bool {
    match look_up(rt, set, text) {
        Ok(Some(found)) => {
            let is_there = has_text(&found, text);
            drop(found);
            is_there
        }
        _ => false,
    }
}

/// Whether this is a text's first word, and it is found as itself.
fn is_first<S: SharedSet, R: Wait + Abort>(rt: &R, set: S, text: &str, word: u64) -> bool {
    let atom = intern(rt, set, text);
    has_word(&atom, word) && is_found(rt, set, text)
}

/// Whether a clone's text in lower case is this one, and not dynamic.
fn lowers_to<S: SharedSet, R: Wait + Abort>(
    rt: &R,
    set: S,
    atom: &SetAtom<S::Held>,
    text: &str,
) -> bool {
    let lower = lowered(rt, set, &clone_of(rt, atom)).expect(rt, "an atom");
    has_text(&lower, text) && !lower.is_dynamic()
}

/// Whether the text as an owned one, and as JSON, is given the atom.
fn is_given<S: SharedSet, R: Wait + Abort>(
    rt: &R,
    set: S,
    atom: &SetAtom<S::Held>,
    text: &str,
) -> bool {
    let own = owned(rt, set.allocator(), text);
    match interned_owned(rt, set, own) {
        Ok(other) => other == *atom && json_copy(rt, set, atom) == *atom,
        Err(_) => false,
    }
}

/// Whether a text that isn't dynamic is interned, also as an owned one and from JSON, cloned, looked up and put into lower case.
fn keeps_fixed<S: SharedSet, R: Wait + Abort>(rt: &R, set: S, text: &str) -> bool {
    let atom = intern(rt, set, text);
    lowers_to(rt, set, &atom, text) && is_given(rt, set, &atom, text) && is_found(rt, set, text)
}

/// Whether the atom, whose text is in lower case, is given again in lower case.
fn stays_lower<S: SharedSet, R: Wait>(rt: &R, set: S, atom: &SetAtom<S::Held>) -> bool {
    match lowered(rt, set, atom) {
        Ok(lower) => lower == *atom,
        Err(_) => false,
    }
}

/// Whether a JSON value is refused as no text.
fn refuses<S: SharedSet, R: Wait + Abort>(rt: &R, set: S, json: &str) -> bool {
    let value = Value::from_str(set.allocator(), json).expect(rt, "a value");
    matches!(read_json(rt, set, &value), Err(Fault::NotText))
}

/// JSON values that are no texts.
static NO_TEXTS: [&str; 5] = ["null", "true", "7", "[\"geometric\"]", "{}"];

fn refuses_all<S: SharedSet, R: Wait + Abort>(rt: &R, set: S) -> bool {
    for json in &NO_TEXTS {
        if !refuses(rt, set, json) {
            return false;
        }
    }
    true
}

/// Works with an inline and a static text, a dynamic atom, and JSON values. Returns whether each was as it should be.
fn works_unlocked<S: SharedSet, R: Clock + Wait + Abort>(rt: &R, set: S, at: &Meeting) -> bool {
    let dynamic = intern(rt, set, "interned");
    at.meet(rt);
    drop(clone_of(rt, &dynamic));
    let is_right = keeps_fixed(rt, set, "foo") && keeps_fixed(rt, set, "sentence");
    let is_right = is_right && lowers_to(rt, set, &intern(rt, set, "FOO"), "foo");
    let is_right = is_right && stays_lower(rt, set, &dynamic);
    let is_right = is_right && refuses_all(rt, set) && has_text(&dynamic, "interned");
    at.end();
    is_right
}

/// Whether each call that would add a holder is refused.
fn is_full<S: SharedSet, R: Wait>(rt: &R, set: S, atom: &SetAtom<S::Held>, text: &str) -> bool {
    let full = Some(Fault::FullCount);
    cloned(rt, atom).err() == full
        && interned(rt, set, text).err() == full
        && look_up(rt, set, text).err() == full
}

/// Whether a text whose bucket has one ticket left, and which may have one holder, is refused a second one, and then a ticket.
fn is_refused<S: SharedSet, R: Wait + Abort>(rt: &R, set: S, text: &str) -> bool {
    let atom = intern(rt, set, text);
    let is_full = is_full(rt, set, &atom, text);
    drop(atom);
    is_full && interned(rt, set, text).err() == Some(Fault::TicketsSpent)
}

/// What the call tells once the visit has the lock.
fn works<S: SharedSet, R: Clock + Wait + Abort>(
    rt: &R,
    set: S,
    kind: Kind,
    at: &Meeting,
    call: Call,
) -> bool {
    at.meet(rt);
    let is_right = match call {
        Call::Sweep => sweeps(rt, set),
        Call::SameBucket => is_found(rt, set, "geometric"),
        Call::LookUp => is_there(rt, set, "geometric"),
        Call::OtherBucket => is_first(rt, set, "interned", 0x1_0840),
        Call::FirstOfTwo => is_refused(rt, set, "interned"),
        Call::SecondOfTwo => is_refused(rt, set, "tokenised"),
        _ => tells_two(rt, set, kind, call),
    };
    at.end();
    is_right
}

/// What the call in which a thread meets the visit tells.
pub fn works_beside<S: SharedSet, R: Clock + Wait + Abort>(
    rt: &R,
    set: S,
    kind: Kind,
    at: &Meeting,
    call: Call,
) -> bool {
    match call {
        Call::Unlocked => works_unlocked(rt, set, at),
        _ => works(rt, set, kind, at, call),
    }
}

/// Whether the call tells what it must, and whether it ended while a visit had the last bucket's lock.
fn beside<S: SharedSet + Together + Send + Sync, R: Threads + Clock + Wait + Abort + Sync>(
    rt: &R,
    set: S,
    kind: Kind,
    call: Call,
) -> (bool, bool) {
    let at = Meeting::new();
    let most = if call.needs_none() { 10_000 } else { 500 };
    thread::join(
        rt,
        || set.call(rt, kind, &at, call),
        || set.visit_long(rt, &at, call.stays_at(), most),
    )
}

/// Texts of the first bucket and the last one that die.
static BOTH_DIE: [Step; 5] = [
    Step::Intern("afterwards"),
    Step::Intern("geometric"),
    Step::Die("afterwards"),
    Step::Die("geometric"),
    Step::Linked(2),
];

/// Makes the call during a visit of two texts.
fn call_beside<S: SharedSet + Together + Send + Sync, R: Threads + Clock + Wait + Abort + Sync>(
    rt: &R,
    set: S,
    kind: Kind,
    call: Call,
) {
    let (is_right, ended) = beside(rt, set, kind, call);
    assert_for(rt, is_right, &call);
    assert_for(rt, ended == call.needs_none(), &call);
}

/// Plays it in a set, which has no text afterwards.
pub fn play<S: SharedSet + Together + Send + Sync, R: Threads + Clock + Wait + Abort + Sync>(
    rt: &R,
    set: S,
    kind: Kind,
    call: Call,
) {
    if matches!(call, Call::Sweep) {
        scenes::play(rt, set, kind, &[&BOTH_DIE]);
        call_beside(rt, set, kind, call);
    } else {
        let _first = intern(rt, set, "afterwards");
        let _last = intern(rt, set, "geometric");
        call_beside(rt, set, kind, call);
    }
    check_linked(rt, set, 0);
}

#[test]
fn linked_waits_for_each_lock(rt: HostRuntime) {
    ask(&rt, rt.alloc(), USUAL, sets::Question::Waits(Call::Linked));
}

#[test]
fn visits_wait_for_each_lock(rt: HostRuntime) {
    ask(&rt, rt.alloc(), USUAL, sets::Question::Waits(Call::Visits));
}

#[test]
fn memory_waits_for_each_lock(rt: HostRuntime) {
    ask(&rt, rt.alloc(), USUAL, sets::Question::Waits(Call::Memory));
}

#[test]
fn sweep_waits_for_each_lock(rt: HostRuntime) {
    ask(&rt, rt.alloc(), USUAL, sets::Question::Waits(Call::Sweep));
}

#[test]
fn texts_wait_for_the_lock_of_their_bucket(rt: HostRuntime) {
    ask(
        &rt,
        rt.alloc(),
        USUAL,
        sets::Question::Waits(Call::SameBucket),
    );
}

#[test]
fn look_ups_wait_for_the_lock_of_their_bucket(rt: HostRuntime) {
    ask(&rt, rt.alloc(), USUAL, sets::Question::Waits(Call::LookUp));
}

#[test]
fn texts_of_other_buckets_wait_for_none(rt: HostRuntime) {
    ask(
        &rt,
        rt.alloc(),
        USUAL,
        sets::Question::Waits(Call::OtherBucket),
    );
}

/// By OpenSSL's SipHash "interned" and "afterwards" are in the first of two buckets, "tokenised" and "geometric" in the second.
const TWO: Size = Size {
    bits: 1,
    limits: Some((1, 2)),
};

#[test]
fn refused_texts_wait_for_no_other_bucket(rt: HostRuntime) {
    for call in &[Call::FirstOfTwo, Call::SecondOfTwo] {
        ask(&rt, rt.alloc(), TWO, sets::Question::Waits(*call));
    }
}

/// In a set of one bucket, which is the one of the lock.
#[test]
fn calls_that_take_no_lock(rt: HostRuntime) {
    ask(
        &rt,
        rt.alloc(),
        ONE_BUCKET,
        sets::Question::Waits(Call::Unlocked),
    );
}
