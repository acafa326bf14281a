//! Rows with worked values of sets and their atoms, asked of a set with a name and of one without: the atoms' words, texts, orders, cases and JSON
//! texts, how many may hold one, lists, and what no contract says of them: which locks are taken, what is counted, and what threads see of each
//! other. They are apart from those crates, since a crate with tests is proved twice; what concerns one kind of set is in `test_sets`.
#![tactic(auto)]

ghost use Rattle.std.specs.Prelude.{IsTrue};

#[cfg(test)]
mod atoms;
#[cfg(test)]
mod bits;
#[cfg(test)]
mod crowds;
#[cfg(test)]
mod dying;
#[cfg(test)]
mod every_bucket;
#[cfg(test)]
mod forms;
#[cfg(test)]
mod found;
#[cfg(test)]
mod holders;
#[cfg(test)]
mod lists;
#[cfg(test)]
mod many;
#[cfg(test)]
mod samples;
#[cfg(test)]
mod scenes;
#[cfg(test)]
mod sets;
#[cfg(test)]
mod texts;
#[cfg(test)]
mod threads;
#[cfg(test)]
mod together;
#[cfg(test)]
mod told;
#[cfg(test)]
mod visits;
#[cfg(test)]
mod waits;

/// Ends the test unless this is so: one call, where `assert!` writes its message and its ways out into the function that asks.
#[cfg(test)]
fn assert_that(rt: &impl std::process::Abort, is_so: bool)
    ensures { IsTrue is_so }
{
    assert!(rt; is_so);
}

/// Ends the test unless this is so for a value, which it prints.
#[cfg(test)]
fn assert_for<T: std::fmt::Debug>(rt: &impl std::process::Abort, is_so: bool, value: &T)
    ensures { IsTrue is_so }
{
    assert!(rt; is_so, "of {value:?}");
}
