//! A share with its set: what a dynamic atom holds.

ghost use Rattle.std.specs.Prelude.{◌≡◌, true, IfErr, IfOk};
ghost use Rattle.counted_cell.specs.Counting.{receipt_owns};
ghost use types.Logic.{sem};

use super::set::Set;
use super::share::Share;
use counted_cell::{AtLimit, CellShare, Permit, Receipt};
use std::marker::{Model, PhantomData};
use std::sync::Wait;
use text_forms::static_sets::StaticTables;

/// One share of a cell, with its set. Its drop takes it off the count: this very share, as its number shows, and no other. In a clause it is its cell
/// and its number.
struct SetShare<'s, Static: StaticTables> {
    share: CellShare,
    set: &'s Set<Static>,
}

impl<'s, Static: StaticTables> Model for SetShare<'s, Static> {
    ghost use Rattle.counted_cell.specs.Cell.{OneShare};

    ghost Value = { OneShare };

    ghost view = { λ h. h.share };
}

impl<'s, Static: StaticTables> Drop for SetShare<'s, Static> {
    #[inline]
    fn drop(self)
        ensures* given { sem 𝓛 (receipt_owns self.entry.cell.name self.entry.number) }
    {
        let _ = self.give();
    }
}

impl<'s, Static: StaticTables> SetShare<'s, Static> {
    /// Takes the share off the count, and tries the bucket's lock if it was the last.
    #[inline]
    fn give(self) -> Receipt
        ensures { (result.name ≡ self.entry.cell.name) × (result.number ≡ self.entry.number) }
    {
        let Self { share, set } = self;
        set.give_back(share)
    }

    /// The share alone, which has no drop.
    #[inline]
    fn into_counted(self) -> CellShare
        ensures { result ≡ self.entry }
    {
        let Self { share, set: _ } = self;
        share
    }
}

/// One share of an entry, with its set.
///
/// Its drop, which is that of its `SetShare`, subtracts one and never waits. If it was the entry's last share, the bucket's lock is tried once; if
/// that was free, dying entries are taken out of the bucket, and otherwise the next pass over the bucket does that.
#[derive(Drop)]
pub struct Held<'s, Static: StaticTables> {
    own: SetShare<'s, Static>,
}

impl<'s, Static: StaticTables> Model for Held<'s, Static> {
    ghost use Rattle.counted_set.specs.Chain.{IsRight, Linked};

    ghost Value = { Linked };

    ghost use Rattle.counted_set.specs.Share.{linked_of};

    ghost view = { λ h. linked_of h.own.cell };

    ghost invariant = { λ h. IsRight Static.tables (linked_of h.own.cell) };
}

impl<'s, Static: StaticTables> Held<'s, Static> {
    ghost use Rattle.counted_set.specs.Chain.{IsRight};
    ghost use Rattle.counted_set.specs.Share.{linked_of};

    pub(super) fn new(share: Share, set: &'s Set<Static>) -> Held<'s, Static>
        requires { IsRight Static.tables share }
        ensures { result ≡ share }
    {
        Held {
            own: SetShare {
                share: share.into_counted(),
                set,
            },
        }
    }

    /// The share alone. `of_share` turns it back into the same, with the same set.
    #[doc(hidden)]
    #[inline]
    pub fn into_share(self) -> HeldShare<Static>
        ensures { result ≡ self.entry }
    {
        let Self { own } = self;
        HeldShare {
            counted: own.into_counted(),
            of: PhantomData,
        }
    }

    /// The share with its set again, which is the one that it was taken from.
    #[doc(hidden)]
    #[inline]
    pub fn of_share(share: HeldShare<Static>, set: &'s Set<Static>) -> Held<'s, Static>
        ensures { result ≡ share }
    {
        let HeldShare { counted, of: _ } = share;
        Held {
            own: SetShare {
                share: counted,
                set,
            },
        }
    }

    /// The entry's ticket.
    #[doc(hidden)]
    pub fn ticket(&self) -> u64
        ensures { result ≡ self.now.ticket }
    {
        self.own.share.ticket()
    }

    /// The entry's text.
    pub fn text(&self) -> &str
        ensures { result.now ≡ self.now.text }
    {
        self.own.share.text()
    }

    /// The hash of the entry's text.
    #[doc(hidden)]
    pub fn text_hash(&self) -> u64
        ensures { result ≡ self.now.hash }
    {
        self.own.share.hash()
    }

    /// A permit for one more share. The entry's cell must get more, as each that a set interned does. It does nothing when it runs.
    #[inline]
    pub fn permit(&self) -> Permit
        requires { self.now.name.grows ≡ true }
        ensures { result.name ≡ self.now.name }
    {
        self.own.share.permit()
    }

    /// Adds a share of the same entry, for the permit, by a single try that waits for nothing. The permit is handed back if another step on the count
    /// came between, or the entry has as many as it may have: then nothing has changed. `clone_share` keeps trying, and reports a full count.
    #[inline]
    pub fn try_clone_share(&self, permit: Permit) -> Result<Held<'s, Static>, Permit>
        requires { permit.name ≡ self.now.name }
        ensures same { IfOk result (λ held. held ≡ self.now) }
        ensures left { IfErr result (λ left. (left.name ≡ self.now.name) × (left.number ≡ permit.number)) }
    {
        match self.own.share.try_add(permit) {
            Ok(share) => Ok(self.with(share)),
            Err(permit) => Err(permit),
        }
    }

    /// Adds a share of the same entry, for the permit. It is refused only if the entry has as many as it may have, as the error shows: then the
    /// permit is handed back, and nothing has changed.
    #[cold]
    #[inline(never)]
    pub fn clone_share<R: Wait>(
        &self,
        rt: &R,
        permit: Permit,
    ) -> Result<Held<'s, Static>, (AtLimit, Permit)>
        requires { permit.name ≡ self.now.name }
        ensures same { IfOk result (λ held. held ≡ self.now) }
        ensures full { IfErr result (λ full. (full.0 ≡ self.now.name) × (full.1.name ≡ self.now.name) × (full.1.number ≡ permit.number)) }
    {
        match self.own.share.add(rt, permit) {
            Ok(share) => Ok(self.with(share)),
            Err(full) => Err(full),
        }
    }

    /// Another share of the same cell, with the set.
    #[inline]
    fn with(&self, share: CellShare) -> Held<'s, Static>
        requires { linked_of share.cell ≡ self.now }
        ensures { result ≡ self.now }
    {
        Held {
            own: SetShare {
                share,
                set: self.own.set,
            },
        }
    }
}

/// One share of an entry, without its set, for holders of many shares of one set.
///
/// It has no drop, so that none can be lost or given twice: it ends as a `Held`, into which `Held::of_share` turns it.
#[doc(hidden)]
pub struct HeldShare<Static: StaticTables> {
    counted: CellShare,
    of: PhantomData<Static>,
}

impl<Static: StaticTables> Model for HeldShare<Static> {
    ghost use Rattle.counted_set.specs.Chain.{IsRight, Linked};

    ghost Value = { Linked };

    ghost use Rattle.counted_set.specs.Share.{linked_of};

    ghost view = { λ h. linked_of h.counted.cell };

    ghost invariant = { λ h. IsRight Static.tables (linked_of h.counted.cell) };
}

impl<Static: StaticTables> HeldShare<Static> {
    /// The entry's text.
    pub fn text(&self) -> &str
        ensures { result.now ≡ self.now.text }
    {
        self.counted.text()
    }

    /// A permit for one more share, as `Held::permit` gives it.
    #[inline]
    pub fn permit(&self) -> Permit
        requires { self.now.name.grows ≡ true }
        ensures { result.name ≡ self.now.name }
    {
        self.counted.permit()
    }

    /// Adds a share of the same entry, for the permit, with its set, which is the one that this share was taken from. It is refused as
    /// `Held::clone_share` is.
    pub fn clone_held<'s, R: Wait>(
        &self,
        rt: &R,
        set: &'s Set<Static>,
        permit: Permit,
    ) -> Result<Held<'s, Static>, (AtLimit, Permit)>
        requires { permit.name ≡ self.now.name }
        ensures same { IfOk result (λ held. held ≡ self.now) }
        ensures full { IfErr result (λ full. (full.0 ≡ self.now.name) × (full.1.name ≡ self.now.name) × (full.1.number ≡ permit.number)) }
    {
        // Another step seldom comes between, so nothing has to wait.
        let share = match self.counted.try_add(permit) {
            Ok(share) => share,
            Err(permit) => self.counted.add(rt, permit)?,
        };
        Ok(Held {
            own: SetShare { share, set },
        })
    }
}
