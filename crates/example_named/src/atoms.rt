//! Two names as atoms.

ghost use Rattle.std.specs.Prelude.{◌≡◌, ◌↔◌, IfOk, IsTrue};

use set_atoms::{SetAtom, TextSet};
use std::sync::Wait;
use text_forms::Fault;

/// Whether two names are the same, by atoms of a borrowed set of either kind. Once they are interned in a set with a name, neither text is read.
pub fn are_one_name<S: TextSet, R: Wait>(
    rt: &R,
    set: S,
    left: &str,
    right: &str,
) -> Result<bool, Fault>
    ensures { IfOk result (λ same. IsTrue same ↔ (left.now ≡ right.now)) }
{
    let left = SetAtom::<S::Held>::from_str_in(rt, set, left)?;
    let right = SetAtom::<S::Held>::from_str_in(rt, set, right)?;
    Ok(left == right)
}
