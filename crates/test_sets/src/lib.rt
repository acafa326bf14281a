//! Rows with worked values of sets and their atoms, each of one kind of set: its buckets one by one, its locks, single tries, atoms of packed static
//! types, printed and lent atoms, and a set with a name. What is asked of both kinds is in `test_atoms`.
#![tactic(auto)]

ghost use Rattle.std.specs.Prelude.{IsTrue};

#[cfg(test)]
mod buckets;
#[cfg(test)]
mod lent;
#[cfg(test)]
mod locks;
#[cfg(test)]
mod named;
#[cfg(test)]
mod packed;
#[cfg(test)]
mod printed;
#[cfg(test)]
mod samples;
#[cfg(test)]
mod single_tries;
#[cfg(test)]
mod sweeps;

/// Ends the test unless this is so: one call, where `assert!` writes its message and its ways out into the function that asks.
#[cfg(test)]
fn assert_that(rt: &impl std::process::Abort, is_so: bool)
    ensures { IsTrue is_so }
{
    assert!(rt; is_so);
}

/// Ends the test unless this is so for a value, which it prints.
#[cfg(test)]
fn assert_for<T: std::fmt::Debug>(rt: &impl std::process::Abort, is_so: bool, value: &T)
    ensures { IsTrue is_so }
{
    assert!(rt; is_so, "of {value:?}");
}
