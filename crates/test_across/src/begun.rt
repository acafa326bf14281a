//! Sets and tables that tests begin with, and calls of them. Nothing is known about these but their types, so that a test's proof has less to read.

use std::alloc::Global;
use std::hash::RandomState;
use std::process::Abort;
use std::sync::Wait;
use string_cache::dynamic_set::Set;
use string_cache::static_sets::StaticTables;
use string_cache::table::Table;
use string_cache::{Atom, DefaultAtom, EmptyStaticAtomSet, Fault};
use test_calls::interned;
use test_samples::keys;

/// A set of the usual limits.
pub fn new_set<Static: StaticTables>(rt: &impl Abort, alloc: Global) -> Set<Static> {
    Set::new(alloc).expect(rt, "a set")
}

/// The atom of a text.
pub fn intern<'s, R: Wait + Abort, Static: StaticTables>(
    rt: &R,
    set: &'s Set<Static>,
    text: &str,
) -> Atom<'s, Static> {
    interned(rt, set, text).expect(rt, "an atom")
}

/// Interns a text, and adds its atom.
fn add_atom<'s, R: Wait + Abort>(
    rt: &R,
    set: &'s Set<EmptyStaticAtomSet>,
    atoms: &mut Vec<DefaultAtom<'s>>,
    text: &str,
) {
    atoms.push(intern(rt, set, text)).expect(rt, "room");
}

/// The atoms of these texts.
pub fn intern_all<'s, R: Wait + Abort>(
    rt: &R,
    set: &'s Set<EmptyStaticAtomSet>,
    texts: &[&str],
) -> Vec<DefaultAtom<'s>> {
    let mut atoms = Vec::new(set.allocator());
    for text in texts {
        add_atom(rt, set, &mut atoms, text);
    }
    atoms
}

/// Keys for tables, the same in each run.
pub fn table_keys(rt: &impl Abort) -> RandomState {
    keys(1).expect(rt, "keys")
}

pub fn new_table<R: Abort, Static: StaticTables>(rt: &R, alloc: Global) -> Table<Static> {
    Table::new(alloc, table_keys(rt)).expect(rt, "a table")
}

/// The word of a text in a table, unless it is refused.
pub fn word_in<Static: StaticTables>(table: &mut Table<Static>, text: &str) -> Result<u64, Fault> {
    table.intern(text)
}
