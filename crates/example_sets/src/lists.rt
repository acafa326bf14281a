//! Many atoms of one set.

ghost use Rattle.std.specs.Prelude.{◌≡◌, map, IfOk};
ghost use Rattle.string_cache.specs.AtomList.{texts_of};

use std::sync::Wait;
use string_cache::dynamic_set::Set;
use string_cache::{AtomList, EmptyStaticAtomSet, Fault};

/// The atoms of these names, in order.
pub fn list_names<'s, R: Wait>(
    rt: &R,
    set: &'s Set<EmptyStaticAtomSet>,
    names: &[&str],
) -> Result<AtomList<'s, EmptyStaticAtomSet>, Fault>
    ensures { IfOk result (λ list. texts_of list ≡ map (λ name. name.now) names.now) }
{
    let mut list = AtomList::new(set);
    for name in names {
        list.push_str(rt, name)?;
    }
    Ok(list)
}
