//! Calls of one bucket behind its lock. They are stated for every grant, so none can add any share but the one that it returns.

ghost use Rattle.std.specs.Prelude.{◌≡◌, IfOk, IfErr};
ghost use Rattle.text_forms.specs.Faults.{IsInternFault};
ghost use Rattle.text_forms.specs.Tables.{entry_hash};
ghost use Rattle.counted_set.specs.Chain.{IsRight};
ghost use Rattle.counted_set.specs.Counted.{IfFound, found_by};

use super::bucket::Bucket;
use super::counts::{OwnCounts, Pass};
use super::share::Share;
use counted_cell::Grant;
use std::sync::{Mutex, Wait};
use text_forms::Fault;
use text_forms::static_sets::StaticTables;
use text_forms::word::Limits;

/// A share of the entry of a text with this hash, which is linked within these limits if there is none. A refusal hands the grant back.
pub(super) fn intern_behind<Static: StaticTables, G: Grant, R: Wait>(
    rt: &R,
    lock: &Mutex<Bucket<Static, G>>,
    text: &str,
    hash: u64,
    limits: &Limits,
    grant: G,
) -> Result<Share, (Fault, G)>
    requires { hash ≡ entry_hash Static.tables text.now }
    ensures text { IfOk result (λ share. share.text ≡ text.now) }
    ensures right { IfOk result (IsRight Static.tables) }
    ensures may { IfOk result (λ share. G.may share.name) }
    ensures refused { IfErr result (λ refused. IsInternFault refused.0) }
{
    let mut bucket = lock.lock(rt);
    bucket.intern(rt, text, hash, limits, &mut OwnCounts, grant)
}

/// A share of the entry of a text with this hash, if one is linked that isn't dying. Any other answer hands the grant back.
pub(super) fn find_behind<Static: StaticTables, G: Grant, R: Wait>(
    rt: &R,
    lock: &Mutex<Bucket<Static, G>>,
    text: &str,
    hash: u64,
    grant: G,
) -> Pass<Share, G>
    requires { hash ≡ entry_hash Static.tables text.now }
    ensures text { IfFound (found_by result) (λ share. share.text ≡ text.now) }
    ensures right { IfFound (found_by result) (IsRight Static.tables) }
    ensures may { IfFound (found_by result) (λ share. G.may share.name) }
{
    lock.lock(rt).find(rt, text, hash, &mut OwnCounts, grant)
}
