//! A log of cells, which only grows and takes no memory: who may add to it, and what was seen of it.
//!
//! None of it exists when a program runs. A function that enters a cell, or looks at a log, only lets clauses know about it.
ghost use Rattle.std.specs.Prelude.{◌≡◌, ◌≢◌, ℕ, List, [], ◌∷◌, ◌++◌};
ghost use Rattle.std.specs.Coded.{coded_list};
ghost use Rattle.std.specs.List.{AllByRecursion};
ghost use mathlib.Core.List.{IsPrefix};
ghost use denote.Sharing.{said};
ghost use Rattle.counted_cell.specs.Counting.{CellName, cell_name_coded, share_right};
ghost use Rattle.counted_cell.specs.CellLog.{Entry, entry_coded, log_owns, seen_owns};

use crate::cell_ref::{CellRef, Reading};
use crate::content::Content;
use std::marker::{Model, PhantomData};

/// The right to add to a log, some of whose cells are known to have no share left. There is one for each log. It takes no space. In a clause it is
/// the log's name, its entries in the order in which they were added, and the names of the cells that are gone.
#[derive(Drop)]
pub struct CellLog {
    mark: PhantomData<()>,
    pub ghost name: { ℕ },
    pub ghost entries: { List Entry } by { coded_list entry_coded },
    pub ghost gone: { List CellName } by { coded_list cell_name_coded },
}

impl Model for CellLog {
    ghost also_owns = { λ l. log_owns l.name l.entries l.gone };
}

unsafe impl Send for CellLog {}

/// Shows that a log begins with these entries, and that the cells that are gone have no share left. That stays true, whatever is added. It takes no
/// space.
#[derive(Drop)]
pub struct LogSeen {
    mark: PhantomData<()>,
    pub ghost name: { ℕ },
    pub ghost entries: { List Entry } by { coded_list entry_coded },
    pub ghost gone: { List CellName } by { coded_list cell_name_coded },
}

impl Model for LogSeen {
    ghost also_owns = { λ s. seen_owns s.name s.entries s.gone };

    ghost also_shares = { λ s _ κ. said (seen_owns s.name s.entries s.gone) κ };
}

unsafe impl Send for LogSeen {}

unsafe impl Sync for LogSeen {}

impl CellLog {
    ghost use Rattle.counted_cell.specs.Cell.{cell_of};
    ghost use Rattle.counted_cell.specs.CellEntry.{entry_of};

    /// A log without entries, whose name no other log has.
    pub fn new() -> CellLog
        ensures { (result.entries ≡ []) × (result.gone ≡ []) }
    {
        CellLog { mark: PhantomData }
    }

    /// Adds an entry after the others: the cell of the share.
    pub(crate) fn add(&mut self, share: &CellRef<Content>)
        ensures { (self.new.name ≡ self.old.name) × (self.new.entries ≡ self.old.entries ++ entry_of (cell_of share.now) ∷ []) × (self.new.gone ≡ self.old.gone) }
    {
        let _ = share;
    }

    /// Records that a cell has no share left, and never will.
    pub(crate) fn bury(&mut self, reading: Reading)
        requires { reading.count ≡ 0 }
        ensures { (self.new.name ≡ self.old.name) × (self.new.entries ≡ self.old.entries) × (self.new.gone ≡ reading.name ∷ self.old.gone) }
    {
        let Reading { marker: _ } = reading;
    }

    /// What the log is now.
    pub fn seen(&mut self) -> LogSeen
        ensures { (self.new.name ≡ self.old.name) × (self.new.entries ≡ self.old.entries) × (self.new.gone ≡ self.old.gone) × (result.name ≡ self.old.name) × (result.entries ≡ self.old.entries) × (result.gone ≡ self.old.gone) }
    {
        LogSeen { mark: PhantomData }
    }

    /// A law: a log begins with what was seen of it.
    pub fn begins(&mut self, seen: &LogSeen)
        ensures { (self.new ≡ self.old) × (seen.now.name ≡ self.old.name → IsPrefix seen.now.entries self.old.entries) }
    {
        let _ = seen;
    }
}

impl LogSeen {
    /// The same again.
    pub fn again(&self) -> LogSeen
        ensures { result ≡ self.now }
    {
        LogSeen { mark: PhantomData }
    }

    /// A law: what was seen of one log at two times are beginnings of one list of entries.
    pub fn meet(&self, other: &LogSeen)
        ensures { other.now.name ≡ self.now.name → (all : List Entry) × IsPrefix self.now.entries all × IsPrefix other.now.entries all }
    {
        let _ = other;
    }
}

/// A law: a cell that has a share is none of those that are gone.
pub(crate) fn lives<T>(seen: &LogSeen, share: &CellRef<T>)
    requires { share.now.right ≡ share_right }
    ensures { AllByRecursion (λ t. t ≢ share.now.name) seen.now.gone }
{
    let _ = share;
}
