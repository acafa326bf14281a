//! A set that threads share.

ghost use Rattle.std.specs.Prelude.{◌≡◌, ◌↔◌, IfOk, IsTrue};

use std::alloc::Global;
use std::sync::Wait;
use std::thread;
use std::thread::{Promise, Threads};
use string_cache::dynamic_set::Set;
use string_cache::{DefaultAtom, EmptyStaticAtomSet, Fault};

/// Whether the atoms that two threads make of two texts in one set are equal: exactly if the texts are.
pub fn agree<R: Threads + Wait + Sync>(
    rt: &R,
    alloc: Global,
    left: &str,
    right: &str,
) -> Result<bool, Fault>
    ensures { IfOk result (λ same. IsTrue same ↔ (left.now ≡ right.now)) }
{
    let set = Set::new(alloc)?;
    let (left, right) = thread::join(
        rt,
        || DefaultAtom::from_str_in(rt, &set, left),
        || DefaultAtom::from_str_in(rt, &set, right),
    );
    Ok(left? == right?)
}

/// What a thread does: it interns the text, and goes on with a clone of the atom.
fn intern<'s, R: Wait>(
    rt: &R,
    set: &'s Set<EmptyStaticAtomSet>,
    text: &str,
) -> Result<DefaultAtom<'s>, Fault>
    ensures { IfOk result (λ atom. atom.text ≡ text.now) }
{
    let first = DefaultAtom::from_str_in(rt, set, text)?;
    let second = first.clone_atom(rt)?;
    drop(first);
    Ok(second)
}

/// What a worker promises: an atom of this text, unless it is refused.
#[derive(Clone, Copy)]
struct AtomOf<'t>(&'t str);

impl<'t, 's> Promise<Result<DefaultAtom<'s>, Fault>> for AtomOf<'t> {
    ghost kept_by = { λ promise result. IfOk result (λ atom. atom.text ≡ promise.0.now) };
}

/// Whether the atom that a worker makes of a text is equal to one that this thread makes of another.
pub fn agree_in_scope<'s, R: Threads + Wait + Sync>(
    rt: &'s R,
    set: &'s Set<EmptyStaticAtomSet>,
    left: &'s str,
    right: &'s str,
) -> Result<bool, Fault>
    ensures { IfOk result (λ same. IsTrue same ↔ (left.now ≡ right.now)) }
{
    thread::scope(
        thread::scope_env::<'s>(),
        rt,
        |scope| -> Result<bool, Fault>
            ensures { IfOk result (λ same. IsTrue same ↔ (left.entry.now ≡ right.entry.now)) }
        {
            let started = scope.spawn_with(AtomOf(left), || intern(rt, set, left));
            let right = intern(rt, set, right);
            let left = match started {
                Ok(worker) => worker.join(rt),
                Err(_) => intern(rt, set, left), // no thread could be started
            };
            Ok(left? == right?)
        },
    )
}
