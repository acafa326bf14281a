//! What many calls returned.

ghost use Rattle.std.specs.Prelude.{◌≡◌, IfOk};
ghost use Rattle.example_named.specs.Results.{oks};

use std::alloc::Global;
use text_forms::Fault;

/// The values of these results, in order, or the first fault among them.
pub(crate) fn all_ok<T: Drop>(
    alloc: Global,
    results: Vec<Result<T, Fault>>,
) -> Result<Vec<T>, Fault>
    ensures { IfOk result (λ values. results.items ≡ oks values.items) }
{
    let mut values = Vec::with_capacity(alloc, results.len())?;
    for item in results {
        let value = item?;
        values.push(value)?;
    }
    Ok(values)
}
