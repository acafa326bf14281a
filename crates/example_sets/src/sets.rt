//! Sets of other sizes.

ghost use Rattle.std.specs.Prelude.{◌≡◌, ◌-◌, IfOk};
ghost use Rattle.text_forms.specs.Layout.{holder_bound, serial_bound};

use std::alloc::Global;
use string_cache::dynamic_set::Set;
use string_cache::word::{Buckets, Limits};
use string_cache::{EmptyStaticAtomSet, Fault};

/// A set for many texts.
pub fn large_set(alloc: Global) -> Result<Set<EmptyStaticAtomSet>, Fault>
    ensures bits { IfOk result (λ set. set.bits ≡ 14) }
    ensures limits { IfOk result (λ set. set.limits ≡ record { holders = holder_bound - 1; serials = serial_bound - 1 }) }
{
    let buckets = Buckets::new(14).unwrap_or(Buckets::usual());
    Set::with_buckets(alloc, Limits::greatest(), buckets)
}
