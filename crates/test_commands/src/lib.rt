//! Tests of the program's commands, of the program over lines of arguments, and of counting by workers, and nothing else.
#![tactic(auto)]

ghost use Rattle.std.specs.Prelude.{IsTrue};

#[cfg(test)]
mod counting;
#[cfg(test)]
mod failures;
#[cfg(test)]
mod gates;
#[cfg(test)]
mod generate;
#[cfg(test)]
mod memory;
#[cfg(test)]
mod named;
#[cfg(test)]
mod packed;
#[cfg(test)]
mod pieces;
#[cfg(test)]
mod program;
#[cfg(test)]
mod refusals;
#[cfg(test)]
mod replay;
#[cfg(test)]
mod set_names;
#[cfg(test)]
mod under_keys;
#[cfg(test)]
mod words;

/// Ends the test unless this is so: one call, where `assert!` writes its message and its ways out into the function that asks.
#[cfg(test)]
fn assert_that(rt: &impl std::process::Abort, is_so: bool)
    ensures { IsTrue is_so }
{
    assert!(rt; is_so);
}

/// Ends the test unless this is so for a value, which it prints.
#[cfg(test)]
fn assert_for<T: std::fmt::Debug>(rt: &impl std::process::Abort, is_so: bool, value: &T)
    ensures { IsTrue is_so }
{
    assert!(rt; is_so, "of {value:?}");
}
