//! Room for texts to come.

ghost use Rattle.std.specs.Prelude.{◌≡◌, ◌-◌, IfErr, IfOk};
ghost use Rattle.text_forms.specs.declared.faults.Fault.TheVariants.{Memory};
ghost use Rattle.text_forms.specs.Layout.{holder_bound, serial_bound, usual_buckets};
ghost use Rattle.text_forms.specs.Map.{empty_map};

use super::Table;
use std::alloc::Global;
use std::hash::BuildHasher;
use text_forms::Fault;
use text_forms::static_sets::StaticTables;

impl<S: StaticTables, H: BuildHasher + Drop> Table<S, H> {
    ghost use Rattle.interner_table.specs.Kept.{map_of};

    /// A table as `new` makes it, with room for this many dynamic texts. `Memory` if there is none.
    pub fn with_capacity(alloc: Global, hasher: H, texts: usize) -> Result<Self, Fault>
        ensures empty { IfOk result (λ table. map_of table ≡ empty_map usual_buckets) }
        ensures limits { IfOk result (λ table. table.limits ≡ record { holders = holder_bound - 1; serials = serial_bound - 1 }) }
        ensures fault { IfErr result (λ fault. fault ≡ Memory) }
    {
        let mut table = Table::new(alloc, hasher)?;
        table.reserve(texts)?;
        Ok(table)
    }
}

impl<S: StaticTables, H: BuildHasher> Table<S, H> {
    /// Makes room for this many more dynamic texts: each of them then takes no memory but that of its bytes. `Memory` if there is none, and the table
    /// may have got a part of it then, which it keeps. What is held stays in either case.
    pub fn reserve(&mut self, more: usize) -> Result<(), Fault>
        ensures same { self.new ≡ self.old }
        ensures fault { IfErr result (λ fault. fault ≡ Memory) }
    {
        self.entries.reserve(more)?;
        self.tickets.reserve(more)?;
        Ok(())
    }
}
