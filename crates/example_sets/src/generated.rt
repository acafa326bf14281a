//! Static tables that are made while a program runs.

ghost use Rattle.std.specs.Prelude.{◌≡◌, ◌<◌, ℕ, IfOk, IsTrue};
ghost use Rattle.table_generator.specs.Generated.{TellsTables, texts_of};

use std::alloc::Global;
use table_generator::check::check_tables;
use table_generator::generate::generate;
use table_generator::tables::{GenFault, Tables};

/// Tables of the names, under the first of a hundred keys for which there are some.
pub fn tables_of_names(alloc: Global, names: &[&str]) -> Result<Tables, GenFault>
    ensures { (key : ℕ) × (key < 100) × TellsTables (texts_of names.now) key 1024 result }
{
    for key in 0..99u64 {
        match generate(alloc, names, key, 1024) {
            Err(GenFault::NotPlaced) => {}
            answer => return answer,
        }
    }
    generate(alloc, names, 99, 1024)
}

/// Whether the printed tables of some names are accepted: they are, unless memory runs out.
pub fn prints_well(alloc: Global, names: &[&str], key: u64) -> Result<bool, GenFault>
    ensures { IfOk result (λ yes. IsTrue yes) }
{
    let tables = generate(alloc, names, key, 1024)?;
    let text = format!(in alloc; "{tables}")?;
    match check_tables(alloc, &text) {
        Ok(yes) => Ok(yes),
        Err(_) => Err(GenFault::Memory),
    }
}
