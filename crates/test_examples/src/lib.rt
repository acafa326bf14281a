//! What the small programs of `example_sets`, `example_named` and `example_tables` return, with worked values, and what threads count by the words of
//! a set with a name. A test asks helpers that have no contract, so that it is proved in a moment.
#![tactic(auto)]

ghost use Rattle.std.specs.Prelude.{IsTrue};

#[cfg(test)]
mod lists;
#[cfg(test)]
mod named;
#[cfg(test)]
mod named_counts;
#[cfg(test)]
mod named_texts;
#[cfg(test)]
mod sets;
#[cfg(test)]
mod tables;

/// Ends the test unless this is so: one call, where `assert!` writes its message and its ways out into the function that asks.
#[cfg(test)]
fn assert_that(rt: &impl std::process::Abort, is_so: bool)
    ensures { IsTrue is_so }
{
    assert!(rt; is_so);
}

/// Ends the test unless this is so for a value, which it prints.
#[cfg(test)]
fn assert_for<T: std::fmt::Debug>(rt: &impl std::process::Abort, is_so: bool, value: &T)
    ensures { IsTrue is_so }
{
    assert!(rt; is_so, "of {value:?}");
}
