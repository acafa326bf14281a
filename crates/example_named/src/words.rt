//! How the name of a set is picked, and what two threads know of their words.

ghost use Rattle.std.specs.Prelude.{◌≡◌, ◌↔◌, IfOk, IsTrue, string_bytes};

use named_set::{FreshName, NamedSet, SetName};
use std::alloc::Global;
use std::marker::Brand;
use std::sync::Wait;
use std::thread::{self, Threads};
use text_forms::Fault;
use text_forms::static_sets::EmptyStaticAtomSet;
use text_forms::word::Limits;

/// Whether the words that two threads get for two texts in one set are equal: exactly if the texts are.
pub fn are_one_word<R: Threads + Wait + Sync>(
    rt: &R,
    alloc: Global,
    left: &String,
    right: &String,
) -> Result<bool, Fault>
    ensures { IfOk result (λ same. IsTrue same ↔ (string_bytes left.now ≡ string_bytes right.now)) }
{
    let name = FreshName::usual(alloc)?;
    are_one_word_named::<Brand, R>(rt, alloc, name, left, right)
}

// The same, in the set with this name.
fn are_one_word_named<N: SetName + Send + Sync, R: Threads + Wait + Sync>(
    rt: &R,
    alloc: Global,
    name: FreshName,
    left: &String,
    right: &String,
) -> Result<bool, Fault>
    requires { N.logs ≡ name.logs }
    ensures { IfOk result (λ same. IsTrue same ↔ (string_bytes left.now ≡ string_bytes right.now)) }
{
    let set = NamedSet::new(alloc, name, Limits::greatest())?;
    are_one_word_in::<N, R>(rt, &set, left.as_str(), right.as_str())
}

// The same, in this set.
fn are_one_word_in<N: SetName + Send + Sync, R: Threads + Wait + Sync>(
    rt: &R,
    set: &NamedSet<EmptyStaticAtomSet, N>,
    left: &str,
    right: &str,
) -> Result<bool, Fault>
    ensures { IfOk result (λ same. IsTrue same ↔ (left.now ≡ right.now)) }
{
    let (left, right) = thread::join(rt, || set.intern(rt, left), || set.intern(rt, right));
    Ok(left? == right?)
}
