//! Tests of chains, packs and counted cells, with a caller of cells, and nothing else.
#![tactic(auto)]

ghost use Rattle.std.specs.Prelude.{IsTrue};

#[cfg(test)]
mod again;
#[cfg(test)]
mod apart;
#[cfg(test)]
mod calls;
#[cfg(test)]
mod cells;
#[cfg(test)]
mod chains;
#[cfg(test)]
mod keyed;
#[cfg(test)]
mod named;
#[cfg(test)]
mod named_cells;
#[cfg(test)]
mod named_left;
#[cfg(test)]
mod named_long;
#[cfg(test)]
mod named_threads;
#[cfg(test)]
mod named_words;
pub mod receipts;

/// Ends the test unless this is so: one call, where `assert!` writes its message and its ways out into the function that asks.
#[cfg(test)]
fn assert_that(rt: &impl std::process::Abort, is_so: bool)
    ensures { IsTrue is_so }
{
    assert!(rt; is_so);
}

/// Ends the test unless this is so for a value, which it prints.
#[cfg(test)]
fn assert_for<T: std::fmt::Debug>(rt: &impl std::process::Abort, is_so: bool, value: &T)
    ensures { IsTrue is_so }
{
    assert!(rt; is_so, "of {value:?}");
}
