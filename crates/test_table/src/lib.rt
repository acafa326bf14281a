//! Rows with worked values of the crates that take no handle: words and hashes, the table for one thread, static tables that are made, the core of
//! atomic steps, and scripts. They are apart from those crates, since a crate with tests is proved twice, and in one crate, since a check of tests
//! reads all that is below it.
#![tactic(auto)]

ghost use Rattle.std.specs.Prelude.{IsTrue};

#[cfg(test)]
mod forms;
#[cfg(test)]
mod generated;
#[cfg(test)]
mod hashers;
#[cfg(test)]
mod memory;
#[cfg(test)]
mod numbers;
#[cfg(test)]
mod rows;
#[cfg(test)]
mod runs;
#[cfg(test)]
mod scripts;
#[cfg(test)]
mod sip_keys;
#[cfg(test)]
mod steps;
#[cfg(test)]
mod table;
#[cfg(test)]
mod texts;
#[cfg(test)]
mod words;

/// Ends the test unless this is so: one call, where `assert!` writes its message and its ways out into the function that asks.
#[cfg(test)]
fn assert_that(rt: &impl std::process::Abort, is_so: bool)
    ensures { IsTrue is_so }
{
    assert!(rt; is_so);
}

/// Ends the test unless this is so for a value, which it tells.
#[cfg(test)]
fn assert_for<T: std::fmt::Debug>(rt: &impl std::process::Abort, is_so: bool, value: &T)
    ensures { IsTrue is_so }
{
    assert!(rt; is_so, "of {value:?}");
}
