//! A held word: a share of a text's cell with its set, and the number beside it.

ghost use Rattle.std.proofs.Common.{rules};
ghost use Rattle.std.specs.Cmp.Rules.{comparing, hashing};
ghost use Rattle.std.specs.Hash as fed;
ghost use Rattle.std.specs.List.{AllByRecursion};
ghost use Rattle.std.specs.Prelude.{◌≡◌, ◌≢◌, ◌↔◌, ◌==◌, true, length, IfErr, IfOk, IsTrue};
ghost use Rattle.counted_cell.specs.Counting.{receipt_owns};
ghost use Rattle.text_forms.specs.Tables.{entry_hash};
ghost use Rattle.text_forms.specs.declared.faults.Fault.TheVariants.{FullCount};
ghost use Rattle.named_set.specs.Logged.{IsSeen};
ghost use Rattle.named_set.specs.Words.{AreOneToOne, IsTicketOf, held_word};
ghost use types.Logic.{sem};

use crate::name::SetName;
use crate::set::NamedSet;
use counted_cell::{AtLimit, CellShare, LogSeen, Permit, Receipt};
use std::hash::{Hash, Hasher};
use std::marker::{Model, PhantomData};
use std::sync::Wait;
use text_forms::Fault;
use text_forms::static_sets::StaticTables;

/// One share of a cell, with the set that it is of. Its drop takes it off the count: this very share, as its number shows, and no other
/// one. In a clause it is its cell, and its number.
struct SetShare<'s, Static: StaticTables, N: SetName> {
    share: CellShare,
    set: &'s NamedSet<Static, N>,
}

impl<'s, Static: StaticTables, N: SetName> Model for SetShare<'s, Static, N> {
    ghost use Rattle.counted_cell.specs.Cell.{OneShare};

    ghost Value = { OneShare };

    ghost view = { λ h. h.share };
}

impl<'s, Static: StaticTables, N: SetName> Drop for SetShare<'s, Static, N> {
    #[inline]
    fn drop(self)
        ensures* given { sem 𝓛 (receipt_owns self.entry.cell.name self.entry.number) }
    {
        let _ = self.give();
    }
}

impl<'s, Static: StaticTables, N: SetName> SetShare<'s, Static, N> {
    /// Takes the share off the cell's count, and tries the bucket's lock if it was the last.
    #[inline]
    fn give(self) -> Receipt
        ensures { (result.name ≡ self.entry.cell.name) × (result.number ≡ self.entry.number) }
    {
        let Self { share, set } = self;
        set.give_back(share)
    }

    /// The share alone, which has no drop.
    #[inline]
    fn into_counted(self) -> CellShare
        ensures { result ≡ self.entry }
    {
        let Self { share, set: _ } = self;
        share
    }

    /// A law: its cell is none of those that are gone.
    #[inline]
    fn outlives(&self, seen: &LogSeen)
        ensures { AllByRecursion (λ t. t ≢ self.now.cell.name) seen.now.gone }
    {
        self.share.outlives(seen)
    }
}

/// A cell of the set with this name, which is held: one share of it.
///
/// It is what a `Held` is without its word, for those who keep the word elsewhere, and has 16 bytes. Its drop, which is that of its
/// `SetShare`, subtracts one from the cell's count and never waits. If it was the last, the lock of the bucket is tried once; if that was
/// free, the cell is taken out of the bucket, and otherwise a later call does that. In a clause it is its word, its text and the cell's
/// name.
#[derive(Drop)]
pub struct HeldCell<'s, Static: StaticTables, N: SetName> {
    own: SetShare<'s, Static, N>,
    seen: LogSeen,
}

impl<'s, Static: StaticTables, N: SetName> Model for HeldCell<'s, Static, N> {
    ghost use Rattle.named_set.specs.Logged.{IsSeen};
    ghost use Rattle.named_set.specs.Words.{HeldWord, held_word};

    ghost Value = { HeldWord };

    ghost view = { λ h. held_word h.own.cell };

    ghost invariant = { λ h. IsSeen Static.tables N.logs h.seen h.own.cell };
}

impl<'s, Static: StaticTables, N: SetName> HeldCell<'s, Static, N> {
    /// The text.
    pub fn text(&self) -> &str
        ensures { result.now ≡ self.now.text }
    {
        self.own.share.text()
    }

    /// The hash of the text, which lies in its cell.
    pub fn text_hash(&self) -> u64
        ensures { result ≡ entry_hash Static.tables self.now.text }
    {
        self.own.share.hash()
    }

    /// A permit for one more, if the cell gets more, as each does that a set interned. It does nothing when it runs.
    #[inline]
    pub fn permit(&self) -> Permit
        requires { self.now.name.grows ≡ true }
        ensures { result.name ≡ self.now.name }
    {
        self.own.share.permit()
    }

    /// The word: the ticket that lies in the cell.
    #[inline]
    pub fn word(&self) -> u64
        ensures { result ≡ self.now.word }
    {
        self.own.share.ticket()
    }

    /// The share alone. `of_share` makes the same of it again, with the same set.
    #[doc(hidden)]
    #[inline]
    pub fn into_share(self) -> HeldShare<Static, N>
        ensures { result ≡ self.entry }
    {
        let Self { own, seen } = self;
        HeldShare {
            counted: own.into_counted(),
            seen,
            of: PhantomData,
        }
    }

    /// The share with its set, which is the one that it was taken from.
    #[doc(hidden)]
    #[inline]
    pub fn of_share(
        share: HeldShare<Static, N>,
        set: &'s NamedSet<Static, N>,
    ) -> HeldCell<'s, Static, N>
        ensures { result ≡ share }
    {
        let HeldShare {
            counted,
            seen,
            of: _,
        } = share;
        HeldCell {
            own: SetShare {
                share: counted,
                set,
            },
            seen,
        }
    }

    /// One more that holds the same cell, for the permit, by a single try that waits for nothing. The permit is handed back if another step
    /// on the count came between, or if there are as many as there may be: then nothing has changed.
    #[inline]
    pub fn try_clone_held(&self, permit: Permit) -> Result<HeldCell<'s, Static, N>, Permit>
        requires { permit.name ≡ self.now.name }
        ensures same { IfOk result (λ held. held ≡ self.now) }
        ensures left { IfErr result (λ left. (left.name ≡ self.now.name) × (left.number ≡ permit.number)) }
    {
        match self.own.share.try_add(permit) {
            Ok(share) => Ok(HeldCell {
                own: SetShare {
                    share,
                    set: self.own.set,
                },
                seen: self.seen.again(),
            }),
            Err(permit) => Err(permit),
        }
    }

    /// One more that holds the same cell, for the permit. It is refused only if there are as many as there may be, as the error shows:
    /// then the permit is there again, and nothing has changed.
    pub fn clone_held<R: Wait>(
        &self,
        rt: &R,
        permit: Permit,
    ) -> Result<HeldCell<'s, Static, N>, (AtLimit, Permit)>
        requires { permit.name ≡ self.now.name }
        ensures same { IfOk result (λ held. held ≡ self.now) }
        ensures full { IfErr result (λ full. (full.0 ≡ self.now.name) × (full.1.name ≡ self.now.name) × (full.1.number ≡ permit.number)) }
    {
        // Another step seldom comes between, so nothing has to wait.
        let share = match self.own.share.try_add(permit) {
            Ok(share) => share,
            Err(permit) => self.own.share.add(rt, permit)?,
        };
        Ok(HeldCell {
            own: SetShare {
                share,
                set: self.own.set,
            },
            seen: self.seen.again(),
        })
    }

    /// The share, and what was seen of its log, which show that the cell is linked.
    #[inline]
    fn evidence(&self) -> (&CellShare, &LogSeen)
        ensures cell { held_word result.0.now.cell ≡ self.now }
        ensures seen { IsSeen Static.tables N.logs result.1.now result.0.now.cell }
    {
        (&self.own.share, &self.seen)
    }

    /// A law: two that are held have one word exactly if they have one text. It does nothing when it runs.
    #[inline]
    pub fn agree<'t>(&self, other: &HeldCell<'t, Static, N>)
        ensures { AreOneToOne self.now.word other.now.word self.now.text other.now.text }
    {
        self.seen.meet(&other.seen);
        self.own.outlives(&other.seen);
        other.own.outlives(&self.seen);
    }
}

/// One share of a cell, without its set, for who holds many shares of one set.
///
/// It has no drop, so that none can be lost or given twice: it ends as a `HeldCell`, which `HeldCell::of_share` makes of it.
#[doc(hidden)]
pub struct HeldShare<Static: StaticTables, N: SetName> {
    counted: CellShare,
    seen: LogSeen,
    of: PhantomData<(Static, N)>,
}

impl<Static: StaticTables, N: SetName> Model for HeldShare<Static, N> {
    ghost use Rattle.named_set.specs.Logged.{IsSeen};
    ghost use Rattle.named_set.specs.Words.{HeldWord, held_word};

    ghost Value = { HeldWord };

    ghost view = { λ h. held_word h.counted.cell };

    ghost invariant = { λ h. IsSeen Static.tables N.logs h.seen h.counted.cell };
}

impl<Static: StaticTables, N: SetName> HeldShare<Static, N> {
    /// The text.
    pub fn text(&self) -> &str
        ensures { result.now ≡ self.now.text }
    {
        self.counted.text()
    }

    /// A permit for one share more, as `HeldCell::permit` gives it.
    #[inline]
    pub fn permit(&self) -> Permit
        requires { self.now.name.grows ≡ true }
        ensures { result.name ≡ self.now.name }
    {
        self.counted.permit()
    }

    /// One share more of the same cell, for the permit, with its set, which is the one that this share was taken from. It is refused as
    /// `HeldCell::clone_held` is.
    pub fn clone_held<'s, R: Wait>(
        &self,
        rt: &R,
        set: &'s NamedSet<Static, N>,
        permit: Permit,
    ) -> Result<HeldCell<'s, Static, N>, (AtLimit, Permit)>
        requires { permit.name ≡ self.now.name }
        ensures same { IfOk result (λ held. held ≡ self.now) }
        ensures full { IfErr result (λ full. (full.0 ≡ self.now.name) × (full.1.name ≡ self.now.name) × (full.1.number ≡ permit.number)) }
    {
        // Another step seldom comes between, so nothing has to wait.
        let share = match self.counted.try_add(permit) {
            Ok(share) => share,
            Err(permit) => self.counted.add(rt, permit)?,
        };
        Ok(HeldCell {
            own: SetShare { share, set },
            seen: self.seen.again(),
        })
    }
}

/// A word of the set with this name, which is held: one share of its text's cell, and the word beside it.
///
/// Two that are held are equal exactly if their texts are, whichever threads made them, and `==` compares two numbers. It has 24 bytes.
/// Its drop is that of its `HeldCell`, and never waits. In a clause it is its word, its text and the name of its cell.
#[derive(Drop)]
pub struct Held<'s, Static: StaticTables, N: SetName> {
    word: u64,
    cell: HeldCell<'s, Static, N>,
}

impl<'s, Static: StaticTables, N: SetName> Model for Held<'s, Static, N> {
    ghost use Rattle.std.specs.Prelude.{◌≡◌, true, length};
    ghost use Rattle.named_set.specs.Words.{HeldWord, IsTicketOf};

    ghost Value = { HeldWord };

    ghost view = { λ h. h.cell };

    ghost invariant = { λ h. (h.word ≡ h.cell.word) × IsTicketOf Static.tables (length N.logs) h.cell.text h.cell.word × (h.cell.name.grows ≡ true) };
}

impl<'s, Static: StaticTables, N: SetName> Held<'s, Static, N> {
    #[tactic(auto, using(crate::proofs::Agreeing::ticket_seen))]
    pub(crate) fn new(
        share: CellShare,
        seen: LogSeen,
        set: &'s NamedSet<Static, N>,
    ) -> Held<'s, Static, N>
        requires seen { IsSeen Static.tables N.logs seen share.cell }
        requires grows { share.cell.name.grows ≡ true }
        ensures text { result.text ≡ share.cell.text }
        ensures ticket { IsTicketOf Static.tables (length N.logs) result.text result.word }
    {
        Held {
            word: share.ticket(),
            cell: HeldCell {
                own: SetShare { share, set },
                seen,
            },
        }
    }

    /// The word: a ticket of the text's bucket, and a number that no other text's word has while both are held.
    #[inline]
    pub fn word(&self) -> u64
        ensures word { result ≡ self.now.word }
        ensures ticket { IsTicketOf Static.tables (length N.logs) self.now.text result }
    {
        self.word
    }

    /// The text.
    pub fn text(&self) -> &str
        ensures { result.now ≡ self.now.text }
    {
        self.cell.text()
    }

    /// The hash of the text, which lies in its cell.
    pub fn text_hash(&self) -> u64
        ensures { result ≡ entry_hash Static.tables self.now.text }
    {
        self.cell.text_hash()
    }

    /// The share of its cell, and what was seen of its log, which show that the cell is linked.
    #[inline]
    pub(crate) fn evidence(&self) -> (&CellShare, &LogSeen)
        ensures cell { held_word result.0.now.cell ≡ self.now }
        ensures seen { IsSeen Static.tables N.logs result.1.now result.0.now.cell }
    {
        self.cell.evidence()
    }

    /// The word, and the cell that is held.
    #[inline]
    pub fn into_parts(self) -> (u64, HeldCell<'s, Static, N>)
        ensures word { result.0 ≡ self.entry.word }
        ensures cell { result.1 ≡ self.entry }
        ensures ticket { IsTicketOf Static.tables (length N.logs) self.entry.text result.0 }
        ensures grows { result.1.name.grows ≡ true }
    {
        let Self { word, cell } = self;
        (word, cell)
    }

    /// One more that holds the same word. It is refused for `FullCount` alone, if there are as many as there may be.
    pub fn clone_held<R: Wait>(&self, rt: &R) -> Result<Held<'s, Static, N>, Fault>
        ensures same { IfOk result (λ held. held ≡ self.now) }
        ensures full { IfErr result (λ fault. fault ≡ FullCount) }
    {
        match self.cell.clone_held(rt, self.cell.permit()) {
            Ok(cell) => Ok(Held {
                word: self.word,
                cell,
            }),
            Err(_) => Err(Fault::FullCount),
        }
    }

    /// A law: two that are held have one word exactly if they have one text. It does nothing when it runs.
    #[inline]
    pub fn agree<'t>(&self, other: &Held<'t, Static, N>)
        ensures { AreOneToOne self.now.word other.now.word self.now.text other.now.text }
    {
        self.cell.agree(&other.cell);
    }
}

/// By one comparison of two numbers, which reads no text and yet tells whether the texts are the same.
impl<'s, Static: StaticTables, N: SetName> PartialEq for Held<'s, Static, N> {
    ghost eq = { λ a b. a.word == b.word };

    ghost laws = { Prim.search (comparing, rules) };

    #[inline]
    fn eq(&self, other: &Self) -> bool
        ensures word { result ≡ (self.now.word == other.now.word) }
        ensures text { IsTrue result ↔ (self.now.text ≡ other.now.text) }
    {
        self.agree(other);
        self.word == other.word
    }
}

impl<'s, Static: StaticTables, N: SetName> Eq for Held<'s, Static, N> {
    ghost laws = { Prim.search (comparing, rules) };
}

/// By the word, which is read from the value itself.
impl<'s, Static: StaticTables, N: SetName> Hash for Held<'s, Static, N> {
    ghost hash_input = { λ a. fed.u64 a.word };

    ghost respects_eq = { Prim.search (hashing, rules) };

    #[inline]
    fn hash<H: Hasher>(&self, state: &mut H) {
        state.write_u64(self.word);
    }
}
