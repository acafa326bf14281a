//! Two threads intern one word in a set with a name. Their atoms are equal, as a single comparison of two numbers shows.
#![tactic(auto)]

ghost use Rattle.std.specs.Prelude.{◌≡◌, IfOk, IsTrue};

use named_set::{FreshName, NamedSet, SetName};
use set_atoms::NamedAtom;
use std::alloc::Global;
use std::marker::Brand;
use std::sync::Wait;
use std::thread::{self, Threads};
use text_forms::Fault;
use text_forms::static_sets::EmptyStaticAtomSet;
use text_forms::word::Limits;

fn main(rt: HostRuntime) -> Result<(), anyhow::Error> {
    let same = meet(&rt, rt.alloc())?;
    println!(rt; "{}", if same { "one word" } else { "two words" })?;
    Ok(())
}

/// Whether two threads get the same word for the same text, in a set that is made for it.
fn meet<R: Threads + Wait + Sync>(rt: &R, alloc: Global) -> Result<bool, Fault>
    ensures { IfOk result (λ same. IsTrue same) }
{
    let name = FreshName::usual(alloc)?;
    meet_named::<Brand, R>(rt, alloc, name)
}

/// The same, in the set with this name.
fn meet_named<N: SetName + Send + Sync, R: Threads + Wait + Sync>(
    rt: &R,
    alloc: Global,
    name: FreshName,
) -> Result<bool, Fault>
    requires { N.logs ≡ name.logs }
    ensures { IfOk result (λ same. IsTrue same) }
{
    let set = NamedSet::new(alloc, name, Limits::greatest())?;
    meet_in::<N, R>(rt, &set)
}

/// The same, in this set.
fn meet_in<N: SetName + Send + Sync, R: Threads + Wait + Sync>(
    rt: &R,
    set: &NamedSet<EmptyStaticAtomSet, N>,
) -> Result<bool, Fault>
    ensures { IfOk result (λ same. IsTrue same) }
{
    let (one, two) = thread::join(
        rt,
        || NamedAtom::from_str_in(rt, set, "interned"),
        || NamedAtom::from_str_in(rt, set, "interned"),
    );
    Ok(one? == two?)
}
