//! The shares of a cell.
ghost use Rattle.std.specs.Prelude.{◌≡◌, ◌≢◌, true, ◌<◌, ◌++◌, ◌∷◌, [], IfErr, IfOk};
ghost use Rattle.std.specs.List.{AllByRecursion};

use crate::cell_log::{CellLog, LogSeen, lives};
use crate::cell_ref::{CellRef, Permit, Reading, Receipt, is_counted};
use crate::content::{Content, limit_of};
use crate::evidence::{AtLimit, NoShares};
use crate::reply::ShareReply;
use std::marker::Model;
use std::sync::Wait;

/// One of the shares that the count counts. It has no drop, so that it can be neither dropped nor forgotten by itself: only `give` spends it. A
/// caller's struct that holds one and has a drop of its own can be forgotten, and the share with it: then the count never gets to 0 and the cell's
/// block is never freed, which is a leak and no more. In a clause it is its cell and its number.
pub struct CellShare {
    cell: CellRef<Content>,
}

impl Model for CellShare {
    ghost use Rattle.std.specs.Prelude.{◌≡◌};
    ghost use Rattle.counted_cell.specs.Cell.{OneShare, IsBehind, IsLimited, share_of};
    ghost use Rattle.counted_cell.specs.Counting.{share_right};

    ghost Value = { OneShare };

    ghost view = { λ s. share_of s.cell };

    ghost invariant = { λ s. (s.cell.right ≡ share_right) × IsLimited s.cell × IsBehind s.cell };
}

impl CellShare {
    ghost use Rattle.counted_cell.specs.Counting.{CanRead, share_right};
    ghost use Rattle.counted_cell.specs.Cell.{IsBehind, IsLimited, cell_of, share_of};
    ghost use Rattle.counted_cell.specs.CellEntry.{entry_of};

    /// The share whose right this is.
    pub(crate) fn of_ref(cell: CellRef<Content>) -> CellShare
        requires { (cell.right ≡ share_right) × IsLimited cell × IsBehind cell }
        ensures { result ≡ share_of cell }
    {
        CellShare { cell }
    }

    /// The right of the share.
    pub(crate) fn as_ref(&self) -> &CellRef<Content>
        ensures { (result.now.right ≡ share_right) × (share_of result.now ≡ self.now) }
    {
        &self.cell
    }

    /// The hash of its cell's text.
    #[inline]
    pub fn hash(&self) -> u64
        ensures { result ≡ self.now.cell.label.hash }
    {
        self.cell.get().hash
    }

    /// The number under which its cell's text is known.
    #[inline]
    pub fn ticket(&self) -> u64
        ensures { result ≡ self.now.cell.label.ticket }
    {
        self.cell.get().ticket
    }

    /// The most shares that its cell may have at a time.
    #[inline]
    pub fn limit(&self) -> u64
        ensures { result ≡ self.now.cell.label.limit }
    {
        limit_of(&self.cell)
    }

    /// The text of its cell.
    pub fn text(&self) -> &str
        ensures { result.now ≡ self.now.cell.text }
    {
        self.cell.get().text.as_str(self.cell.end())
    }

    /// A permit. The cell must get more shares, as each that `Owner::new` makes for free grants does. It does nothing when it runs.
    #[inline]
    pub fn permit(&self) -> Permit
        requires { self.now.cell.name.grows ≡ true }
        ensures { result.name ≡ self.now.cell.name }
    {
        self.cell.free()
    }

    /// Adds a share of the same cell, for the permit. If the cell has as many as it may have, the permit is handed back.
    #[inline]
    pub fn add<R: Wait>(&self, rt: &R, permit: Permit) -> Result<CellShare, (AtLimit, Permit)>
        requires { permit.name ≡ self.now.cell.name }
        ensures added { IfOk result (λ share. share.cell ≡ self.now.cell) }
        ensures full { IfErr result (λ full. (full.0 ≡ self.now.cell.name) × (full.1.name ≡ self.now.cell.name) × (full.1.number ≡ permit.number)) }
    {
        match ShareReply::one_more(rt, &self.cell, permit) {
            ShareReply::Added(share, _) => Ok(share),
            ShareReply::Full(full, left) => Err((full, left)),
            ShareReply::Dying(none, _) => {
                none.excludes(self);
                unreachable!()
            }
        }
    }

    /// Adds a share of the same cell, for the permit, by a single try that waits for nothing. The permit is handed back if another step on the count
    /// came between, or the cell has as many as it may have. `add` keeps trying, and reports a full count.
    #[inline]
    pub fn try_add(&self, permit: Permit) -> Result<CellShare, Permit>
        requires { permit.name ≡ self.now.cell.name }
        ensures added { IfOk result (λ share. share.cell ≡ self.now.cell) }
        ensures left { IfErr result (λ left. (left.name ≡ self.now.cell.name) × (left.number ≡ permit.number)) }
    {
        let (seen, reading) = self.cell.load();
        is_counted(reading, &self.cell);
        CellShare::tried(&self.cell, seen, permit)
    }

    /// Adds a share of the cell, by an exchange, if the count is still `seen`, which is above 0, and that is below the limit.
    #[inline]
    pub(crate) fn tried(
        cell: &CellRef<Content>,
        seen: u64,
        permit: Permit,
    ) -> Result<CellShare, Permit>
        requires reads { CanRead cell.now.right }
        requires permit { permit.name ≡ cell.now.name }
        requires shares { 0 < seen }
        requires limit { IsLimited cell.now }
        requires place { IsBehind cell.now }
        ensures added { IfOk result (λ share. share.cell ≡ cell_of cell.now) }
        ensures left { IfErr result (λ left. (left.name ≡ cell.now.name) × (left.number ≡ permit.number)) }
    {
        if cell.get().text.is_far_above(seen) {
            CellShare::exchanged(cell, seen, permit)
        } else {
            CellShare::tried_apart(cell, seen, permit)
        }
    }

    // The same, apart, so that the usual way stays short.
    #[cold]
    #[inline(never)]
    fn tried_apart(cell: &CellRef<Content>, seen: u64, permit: Permit) -> Result<CellShare, Permit>
        requires reads { CanRead cell.now.right }
        requires permit { permit.name ≡ cell.now.name }
        requires shares { 0 < seen }
        requires limit { IsLimited cell.now }
        requires place { IsBehind cell.now }
        ensures added { IfOk result (λ share. share.cell ≡ cell_of cell.now) }
        ensures left { IfErr result (λ left. (left.name ≡ cell.now.name) × (left.number ≡ permit.number)) }
    {
        if seen >= limit_of(cell) {
            return Err(permit);
        }
        CellShare::exchanged(cell, seen, permit)
    }

    // The same if `seen` is below the limit.
    #[inline]
    fn exchanged(cell: &CellRef<Content>, seen: u64, permit: Permit) -> Result<CellShare, Permit>
        requires reads { CanRead cell.now.right }
        requires permit { permit.name ≡ cell.now.name }
        requires shares { (0 < seen) × (seen < cell.now.name.limit) }
        requires limit { IsLimited cell.now }
        requires place { IsBehind cell.now }
        ensures added { IfOk result (λ share. share.cell ≡ cell_of cell.now) }
        ensures left { IfErr result (λ left. (left.name ≡ cell.now.name) × (left.number ≡ permit.number)) }
    {
        let (found, _, more) = cell.increment(seen, permit);
        if found == seen {
            return Ok(CellShare::of_ref(more));
        }
        Err(more.unspent())
    }

    /// Enters its cell in a log.
    pub fn enter(&self, log: &mut CellLog)
        ensures { (log.new.name ≡ log.old.name) × (log.new.entries ≡ log.old.entries ++ entry_of self.now.cell ∷ []) × (log.new.gone ≡ log.old.gone) }
    {
        log.add(&self.cell)
    }

    /// A law: its cell is none of those that are gone.
    pub fn outlives(&self, seen: &LogSeen)
        ensures { AllByRecursion (λ t. t ≢ self.now.cell.name) seen.now.gone }
    {
        lives(seen, &self.cell)
    }

    /// Takes the share off the count, and returns what that left.
    #[inline]
    pub fn give(self) -> Given
        ensures receipt { (result.name ≡ self.cell.name) × (result.number ≡ self.number) }
    {
        let Self { cell } = self;
        let (found, reading, receipt) = cell.decrement();
        Given {
            left: found - 1,
            reading,
            receipt,
        }
    }
}

/// Shows that a share was taken off its cell's count, and what that left. Nothing else makes one. In a clause it is the cell's name,
/// the share's number and the count that was left.
#[derive(Drop)]
pub struct Given {
    left: u64,
    reading: Reading,
    receipt: Receipt,
}

impl Model for Given {
    ghost use Rattle.std.specs.Prelude.{◌≡◌};
    ghost use Rattle.counted_cell.specs.Counting.{Giving};

    ghost Value = { Giving };

    ghost view = { λ g. record { name = g.receipt.name; number = g.receipt.number; count = g.reading.count } };

    ghost invariant = { λ g. (g.reading.count ≡ g.left) × (g.reading.name ≡ g.receipt.name) };
}

impl Given {
    ghost use Rattle.std.specs.Prelude.{◌≡◌};
    ghost use Rattle.counted_cell.specs.Counting.{if_none_left};

    /// The share's receipt and, if the share was the last one, what shows that no share is left.
    #[inline]
    pub fn parts(self) -> (Receipt, Option<NoShares>)
        ensures receipt { (result.0.name ≡ self.name) × (result.0.number ≡ self.number) }
        ensures last { result.1 ≡ if_none_left self }
    {
        let Self {
            left,
            reading,
            receipt,
        } = self;
        if left == 0 {
            (receipt, Some(NoShares { reading }))
        } else {
            (receipt, None)
        }
    }

    /// If the share was the last one, what shows that no share is left. `None` otherwise.
    pub fn last(self) -> Option<NoShares>
        ensures { result ≡ if_none_left self }
    {
        let (_, last) = self.parts();
        last
    }
}
