//! Names in lower case.

ghost use Rattle.std.specs.Prelude.{◌≡◌, IfOk};
ghost use Rattle.std.specs.Str.{str_to_ascii_lowercase};

use std::sync::Wait;
use string_cache::dynamic_set::Set;
use string_cache::{DefaultAtom, EmptyStaticAtomSet, Fault};

/// The name of a header as it is looked up: in lower case.
pub fn header_name<'s, R: Wait>(
    rt: &R,
    set: &'s Set<EmptyStaticAtomSet>,
    name: &str,
) -> Result<DefaultAtom<'s>, Fault>
    ensures { IfOk result (λ atom. atom.text ≡ str_to_ascii_lowercase name.now) }
{
    DefaultAtom::from_str_in(rt, set, name)?.to_ascii_lowercase_in(rt, set)
}
