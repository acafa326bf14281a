//! Buckets' locks that are held in the meantime, and what stays linked. By OpenSSL's SipHash the bucket of "afterwards" is 0, of "geometric" 0xfff,
//! and of "forgotten" and "magnitude" 0x72f.

use crate::assert_that;
use crate::samples::{check_linked, default_set, intern, lock_of, locks_but};
use std::alloc::Global;
use std::process::Abort;
use std::sync::atomic::{AtomicBool, Ordering};
use std::sync::{Mutex, MutexGuard, Wait};
use std::thread::{self, Threads};
use std::time::{Clock, Duration};
use string_cache::dynamic_set::{Bucket, Set};
use string_cache::static_sets::{EmptyStaticAtomSet, StaticTables};
use string_cache::{Atom, DefaultAtom};
use test_calls::{DefaultSet, has_word, look_up, shown};

/// What is done with a new set while another thread is there.
#[derive(Clone, Copy)]
enum Scene {
    OneBucket,
    SweepGoesOn,
    OneLock,
}

/// Plays the scene in a set.
fn play_in<R: Threads + Clock + Wait + Abort + Sync>(rt: &R, set: &DefaultSet, scene: Scene) {
    match scene {
        Scene::OneBucket => intern_beside(rt, set),
        Scene::SweepGoesOn => sweep_on(rt, set),
        Scene::OneLock => hold_one(rt, set),
    }
}

/// Plays it in a new set.
fn play<R: Threads + Clock + Wait + Abort + Sync>(rt: &R, alloc: Global, scene: Scene) {
    play_in(rt, &default_set(rt, alloc), scene);
}

/// The word of "interned", which is the first text.
const INTERNED: u64 = 0x1_0840;

fn is_free(bucket: &Mutex<Bucket<EmptyStaticAtomSet>>) -> bool {
    bucket.try_lock().is_some()
}

/// Whether each lock is free but this bucket's, which is held, or all are if there is no such bucket.
fn are_free(set: &DefaultSet, held: usize) -> bool {
    for (at, bucket) in set.buckets().iter().enumerate() {
        if is_free(bucket) == (at == held) {
            return false;
        }
    }
    true
}

/// Lets a text's atom go while its bucket's lock is held. The other buckets' locks are free meanwhile, and the drop returns.
fn die_under_lock<R: Wait + Abort>(rt: &R, set: &DefaultSet) {
    let atom = intern(rt, set, "interned");
    let held = lock_of(rt, set, 0x210);
    assert_that(rt, are_free(set, 0x210));
    drop(atom);
    drop(held);
    check_linked(rt, set, 1);
}

#[test]
fn last_drop_under_a_held_lock(rt: HostRuntime) {
    let set = default_set(&rt, rt.alloc());
    die_under_lock(&rt, &set);
    set.sweep(&rt);
    check_linked(&rt, &set, 0);
}

/// A last drop keeps no lock, and prunes only its own bucket.
#[test]
fn last_drop_keeps_no_lock(rt: HostRuntime) {
    let set = default_set(&rt, rt.alloc());
    die_under_lock(&rt, &set);
    drop(intern(&rt, &set, "afterwards"));
    assert_that(&rt, are_free(&set, usize::MAX));
    check_linked(&rt, &set, 1);
}

/// The atoms of two texts.
fn two_atoms<'s, R: Wait + Abort>(
    rt: &R,
    set: &'s DefaultSet,
    first: &str,
    second: &str,
) -> (DefaultAtom<'s>, DefaultAtom<'s>) {
    (intern(rt, set, first), intern(rt, set, second))
}

/// What the call returns, and whether it ended while this thread had the locks. They are released after `most` milliseconds at the latest.
fn beside<R: Threads + Clock, L: Drop, T: Send, F: FnOnce() -> T + Send>(
    rt: &R,
    most: u32,
    locks: L,
    call: F,
) -> (T, bool)
    requires { F.pre call }
{
    let has_ended = AtomicBool::new(false);
    let ended = &has_ended;
    thread::join(
        rt,
        move || {
            let given = call();
            ended.store(true, Ordering::SeqCst);
            given
        },
        move || {
            for _ in 0..most {
                if ended.load(Ordering::SeqCst) {
                    break;
                }
                thread::sleep(rt, Duration::from_millis(1));
            }
            let before = ended.load(Ordering::SeqCst);
            drop(locks);
            before
        },
    )
}

/// Whether the set has the atom of the text.
fn has_found<R: Wait, Static: StaticTables>(
    rt: &R,
    set: &Set<Static>,
    text: &str,
    atom: &Atom<'_, Static>,
) -> bool {
    match look_up(rt, set, text) {
        Ok(Some(found)) => found == *atom,
        _ => false,
    }
}

/// Interns a text that is already held, and looks it up.
fn intern_again<R: Wait + Abort>(rt: &R, set: &DefaultSet) -> bool {
    let second = intern(rt, set, "interned");
    has_word(&second, INTERNED) && has_found(rt, set, "interned", &second)
}

/// Interns a text twice, looks it up, and drops the atoms. Returns whether their words were the first ticket's.
fn intern_twice<R: Wait + Abort>(rt: &R, set: &DefaultSet) -> bool {
    let first = intern(rt, set, "interned");
    has_word(&first, INTERNED) && intern_again(rt, set)
}

fn intern_beside<R: Threads + Clock + Wait + Abort + Sync>(rt: &R, set: &DefaultSet) {
    let held = locks_but(rt, set, 0x210);
    let (is_first, ended) = beside(rt, 10_000, held, || intern_twice(rt, set));
    assert_that(rt, ended && is_first);
    check_linked(rt, set, 0);
}

#[test]
fn interning_takes_the_lock_of_one_bucket(rt: HostRuntime) {
    play(&rt, rt.alloc(), Scene::OneBucket);
}

/// A call that takes each lock of a set.
#[derive(Clone, Copy)]
enum Call {
    Linked,
    Visits,
    Memory,
    Sweep,
}

/// What the call tells: how many entries are linked, how many holders they have, or the bytes of the set. A sweep tells nothing.
fn told<R: Wait>(rt: &R, set: &DefaultSet, call: Call) -> u128 {
    match call {
        Call::Linked => set.linked(rt),
        Call::Visits => u128::from(shown(rt, set).holders),
        Call::Memory => set.memory(rt),
        Call::Sweep => {
            set.sweep(rt);
            0
        }
    }
}

/// Whether the bucket is empty within ten seconds.
fn is_emptied<R: Wait + Clock>(rt: &R, bucket: &Mutex<Bucket<EmptyStaticAtomSet>>) -> bool {
    for _ in 0..10_000 {
        if bucket.lock(rt).len() == 0 {
            return true;
        }
        thread::sleep(rt, Duration::from_millis(1));
    }
    false
}

/// Lets entries of the first bucket and the last one die under their locks, and keeps the last one's.
fn let_ends_die<'s, R: Wait + Abort>(
    rt: &R,
    set: &'s DefaultSet,
) -> MutexGuard<'s, Bucket<EmptyStaticAtomSet>> {
    let atoms = two_atoms(rt, set, "afterwards", "geometric");
    let first = lock_of(rt, set, 0);
    let last = lock_of(rt, set, 0xfff);
    drop(atoms);
    drop(first);
    last
}

fn sweep_on<R: Threads + Clock + Wait + Abort + Sync>(rt: &R, set: &DefaultSet) {
    let first = set.buckets().get(0).expect(rt, "a bucket");
    let of_last = let_ends_die(rt, set);
    let ((), is_first_swept) = thread::join(
        rt,
        || set.sweep(rt),
        move || {
            let is_swept = is_emptied(rt, first);
            thread::sleep(rt, Duration::from_millis(100));
            drop(of_last);
            is_swept
        },
    );
    assert_that(rt, is_first_swept);
    check_linked(rt, set, 0);
}

/// The first bucket is swept while the last one's lock is held, and the last one once that is let go.
#[test]
fn sweep_goes_on_to_the_last_bucket(rt: HostRuntime) {
    play(&rt, rt.alloc(), Scene::SweepGoesOn);
}

/// Whether the call holds no other lock once it waits for the last bucket's.
fn waits_alone<R: Threads + Clock + Wait + Abort + Sync>(
    rt: &R,
    set: &DefaultSet,
    call: Call,
) -> bool {
    let held = lock_of(rt, set, 0xfff);
    let (_, is_alone) = thread::join(
        rt,
        || told(rt, set, call),
        move || {
            let mut is_alone = false;
            for _ in 0..100 {
                thread::sleep(rt, Duration::from_millis(100));
                is_alone = are_free(set, 0xfff);
                if is_alone {
                    break;
                }
            }
            drop(held);
            is_alone
        },
    );
    is_alone
}

fn hold_one<R: Threads + Clock + Wait + Abort + Sync>(rt: &R, set: &DefaultSet) {
    assert_that(rt, waits_alone(rt, set, Call::Sweep));
    assert_that(rt, waits_alone(rt, set, Call::Linked));
    assert_that(rt, waits_alone(rt, set, Call::Memory));
    assert_that(rt, waits_alone(rt, set, Call::Visits));
}

#[test]
fn one_lock_is_held_at_a_time(rt: HostRuntime) {
    play(&rt, rt.alloc(), Scene::OneLock);
}
