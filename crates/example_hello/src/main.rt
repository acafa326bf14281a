//! Interns a word, and prints its atom.
#![tactic(auto)]

use counted_set::dynamic_set::Set;
use set_atoms::DefaultAtom;

fn main(rt: HostRuntime) -> Result<(), anyhow::Error> {
    let set = Set::new(rt.alloc())?;
    let name = DefaultAtom::from_str_in(&rt, &set, "interned")?;
    println!(rt; "{name:?}")?;
    Ok(())
}
