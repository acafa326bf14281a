//! What a set that threads share tells about itself, whether it has a name or not.

ghost use Rattle.std.specs.Prelude.{◌≡◌};

use crate::held::{ListedSet, TextSet};
use counted_set::dynamic_set::Set;
use named_set::{NamedSet, SetName};
use std::sync::Wait;
use text_forms::static_sets::StaticTables;
use text_forms::word::Limits;

/// A borrowed set that threads share, of either kind: it interns and finds texts, and tells what it has. Code that doesn't depend on the kind is
/// written over it once.
pub trait SharedSet: TextSet + ListedSet<<Self as TextSet>::Bare> {
    ghost use Rattle.text_forms.specs.Bounds.{Bounds};

    /// Its limits, as clauses see them.
    ghost bounds: { Self → Bounds };

    /// The limits on its texts' holders and its buckets' serials.
    fn limits(self) -> Limits
        ensures { result ≡ bounds self };

    /// Goes over each bucket once, from the first to the last: texts that nobody holds are taken out.
    fn sweep<R: Wait>(self, rt: &R);

    /// The number of texts that are linked: the sum over the buckets, each read under its lock. While other threads use the set, nothing is said
    /// about it.
    fn linked<R: Wait>(self, rt: &R) -> u128;

    /// Calls `visit` once for each text that is linked, with the number of its holders as one look at its count reads it: bucket by bucket, from the
    /// first to the last, each under its lock. The set says in which order those of a bucket are visited.
    ///
    /// A `visit` that waits for a lock of the set, as one that interns a text may, can wait forever, and others with it; it may clone and drop atoms.
    fn for_each<R: Wait, F: FnMut(&str, u64)>(self, rt: &R, visit: F)
        requires { F.IsAlwaysCallable visit };

    /// The bytes that the set has asked for and still holds, each bucket read under its lock. While other threads use the set, nothing is said about
    /// it.
    fn memory<R: Wait>(self, rt: &R) -> u128;
}

/// Within a bucket the newest text is visited first.
impl<'s, Static: StaticTables> SharedSet for &'s Set<Static> {
    ghost bounds = { λ set. set.now.limits };

    fn limits(self) -> Limits {
        Set::limits(self)
    }

    fn sweep<R: Wait>(self, rt: &R) {
        Set::sweep(self, rt);
    }

    fn linked<R: Wait>(self, rt: &R) -> u128 {
        Set::linked(self, rt)
    }

    fn for_each<R: Wait, F: FnMut(&str, u64)>(self, rt: &R, visit: F) {
        Set::for_each(self, rt, visit);
    }

    fn memory<R: Wait>(self, rt: &R) -> u128 {
        Set::memory(self, rt)
    }
}

/// In which order the texts of a bucket are visited isn't said.
impl<'s, Static: StaticTables, N: SetName> SharedSet for &'s NamedSet<Static, N> {
    ghost bounds = { λ set. set.now.limits };

    fn limits(self) -> Limits {
        NamedSet::limits(self)
    }

    fn sweep<R: Wait>(self, rt: &R) {
        NamedSet::sweep(self, rt);
    }

    fn linked<R: Wait>(self, rt: &R) -> u128 {
        NamedSet::linked(self, rt)
    }

    fn for_each<R: Wait, F: FnMut(&str, u64)>(self, rt: &R, visit: F) {
        NamedSet::for_each(self, rt, visit);
    }

    fn memory<R: Wait>(self, rt: &R) -> u128 {
        NamedSet::memory(self, rt)
    }
}
