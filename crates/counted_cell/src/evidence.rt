//! What was read from a cell's count, as values that only a step on the count makes.
use crate::cell_log::CellLog;
use crate::cell_ref::{Reading, is_counted};
use crate::share::CellShare;
use std::marker::Model;

/// Shows that the count of a cell was read as 0: no share of the cell is left, and none ever will be. In a clause it is the cell's name.
#[derive(Drop)]
pub struct NoShares {
    pub(crate) reading: Reading,
}

impl Model for NoShares {
    ghost use Rattle.std.specs.Prelude.{◌≡◌};
    ghost use Rattle.counted_cell.specs.Counting.{CellName};

    ghost Value = { CellName };

    ghost view = { λ n. n.reading.name };

    ghost invariant = { λ n. n.reading.count ≡ 0 };
}

impl NoShares {
    ghost use Rattle.std.specs.Prelude.{◌≡◌, ◌∷◌};

    /// What was read.
    pub fn reading(self) -> Reading
        ensures { (result.name ≡ self) × (result.count ≡ 0) }
    {
        let Self { reading } = self;
        reading
    }

    /// Records in a log that no share of the cell is left.
    pub fn bury(self, log: &mut CellLog)
        ensures { (log.new.name ≡ log.old.name) × (log.new.entries ≡ log.old.entries) × (log.new.gone ≡ self ∷ log.old.gone) }
    {
        let Self { reading } = self;
        log.bury(reading)
    }

    /// A law: it never exists together with a share of the same cell.
    pub fn excludes(self, share: &CellShare)
        requires { share.now.cell.name ≡ self }
        ensures { ⊥ }
    {
        let Self { reading } = self;
        is_counted(reading, share.as_ref())
    }
}

/// Shows that the count of a cell was read as its limit. In a clause it is the cell's name.
#[derive(Drop)]
pub struct AtLimit {
    pub(crate) reading: Reading,
}

impl Model for AtLimit {
    ghost use Rattle.std.specs.Prelude.{◌≤◌};
    ghost use Rattle.counted_cell.specs.Counting.{CellName};

    ghost Value = { CellName };

    ghost view = { λ a. a.reading.name };

    ghost invariant = { λ a. a.reading.name.limit ≤ a.reading.count };
}

impl AtLimit {
    ghost use Rattle.std.specs.Prelude.{◌≡◌, ◌≤◌};

    /// What was read.
    pub fn reading(self) -> Reading
        ensures { (result.name ≡ self) × (self.limit ≤ result.count) }
    {
        let Self { reading } = self;
        reading
    }
}

/// What was read from the count of a cell. Nothing else makes one. In a clause it is the cell's name and the count.
#[derive(Drop)]
pub struct CountSeen {
    pub(crate) seen: u64,
    pub(crate) reading: Reading,
}

impl Model for CountSeen {
    ghost use Rattle.std.specs.Prelude.{◌≡◌};
    ghost use Rattle.counted_cell.specs.Counting.{Count};

    ghost Value = { Count };

    ghost view = { λ c. record { name = c.reading.name; count = c.reading.count } };

    ghost invariant = { λ c. c.reading.count ≡ c.seen };
}

impl CountSeen {
    ghost use Rattle.std.specs.Prelude.{◌≡◌};

    /// The number of shares that the cell had.
    pub fn shares(&self) -> u64
        ensures { result ≡ self.now.count }
    {
        self.seen
    }
}

/// Shows that the count of a cell was read as 1 or more. In a clause it is the cell's name.
#[derive(Drop)]
pub struct SharesLeft {
    pub(crate) reading: Reading,
}

impl Model for SharesLeft {
    ghost use Rattle.std.specs.Prelude.{◌<◌};
    ghost use Rattle.counted_cell.specs.Counting.{CellName};

    ghost Value = { CellName };

    ghost view = { λ s. s.reading.name };

    ghost invariant = { λ s. 0 < s.reading.count };
}

impl SharesLeft {
    ghost use Rattle.std.specs.Prelude.{◌≡◌, ◌<◌};

    /// What was read.
    pub fn reading(self) -> Reading
        ensures { (result.name ≡ self) × (0 < result.count) }
    {
        let Self { reading } = self;
        reading
    }
}
