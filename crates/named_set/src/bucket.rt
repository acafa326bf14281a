//! A bucket: what one lock holds.

ghost use Rattle.std.specs.Prelude.{◌≡◌, ◌+◌, ◌<◌, ◌≤◌, ℕ, true, length, slice_index_or, IfErr, IfOk};
ghost use Rattle.text_forms.specs.Faults.{IsInternFault};
ghost use Rattle.text_forms.specs.Layout.{most_buckets};
ghost use Rattle.text_forms.specs.Tables.{bucket_of, entry_hash};
ghost use Rattle.text_forms.specs.Word.{IsTicket, ticket_of};
ghost use Rattle.counted_cell.specs.Cell.{Cell};
ghost use Rattle.counted_cell.specs.Reply.{IsReply};
ghost use Rattle.named_set.specs.Answers.{IfAbsent, IfFull, IfHeld};
ghost use Rattle.named_set.specs.Logged.{IsSeen, LinksNoMore};
ghost use Rattle.named_set.specs.Places.{cells_in, FoundAt, HasCell, IsNew};
ghost use Rattle.named_set.specs.Names.{IsEmpty};

use crate::cells::Cells;
use crate::index_key::IndexKey;
use crate::name::SetName;
use counted_cell::{
    AtLimit, CellLog, CellShare, Grant, Label, LogSeen, NoShares, Owner, ShareReply,
};
use std::alloc::{AllocError, Global};
use std::marker::{Model, PhantomData};
use std::sync::Wait;
use text_forms::Fault;
use text_forms::static_sets::StaticTables;
use text_forms::word::{Limits, ticket_word};

/// So many places are looked at by a call, if several were left.
const SOME: usize = 16;

/// What one lock of a set holds: the cells that are linked, and the log of all that ever were, which takes no memory. A share may be added
/// to each cell by a grant of the last type.
#[derive(Drop)]
pub struct Bucket<Static: StaticTables, N: SetName, G: Grant> {
    owners: Cells,
    log: CellLog,
    last: u64,
    number: u16,
    alloc: Global,
    of: PhantomData<(Static, N, G)>,
}

impl<Static: StaticTables, N: SetName, G: Grant> Model for Bucket<Static, N, G> {
    ghost use Rattle.std.specs.Prelude.{◌≡◌, ◌<◌, length, slice_index_or};
    ghost use Rattle.std.specs.List.{AllByRecursion};
    ghost use Rattle.text_forms.specs.Layout.{most_buckets};
    ghost use Rattle.named_set.specs.Answers.{IfAbsent, IfFull, IfHeld};
    ghost use Rattle.named_set.specs.Logged.{Kept, IsKept, IsOf};
    ghost use Rattle.named_set.specs.Places.{cells_in};

    ghost Value = { Kept };

    ghost view = { λ b. record { number = b.number; places = b.owners; entries = b.log.entries; gone = b.log.gone } };

    ghost invariant = { λ b. (b.log.name ≡ slice_index_or N.logs b.number 0) × (b.last ≡ length b.log.entries) × (b.number < most_buckets)
        × IsKept b.number (cells_in b.owners) b.log.entries b.log.gone × AllByRecursion (IsOf Static.tables G.may (length N.logs) b.number) (cells_in b.owners) };
}

/// What a bucket answers that was asked for a share. Where it added none, the grant is there.
pub(crate) enum Answer<G> {
    /// A share, which is of a cell of the bucket, and what was seen of the bucket's log.
    Held(CellShare, LogSeen),
    /// The cell has as many shares as it may have.
    Full(AtLimit, G),
    /// There is no cell that has a share.
    Absent(G),
}

impl<Static: StaticTables, N: SetName, G: Grant> Bucket<Static, N, G> {
    /// A bucket without entries, of this number, with a log without any, whose index hashes under this key.
    pub(crate) fn new(alloc: Global, number: u16, log: CellLog, key: IndexKey) -> Self
        requires name { log.name ≡ slice_index_or N.logs number 0 }
        requires number { number < most_buckets }
        requires empty { IsEmpty log }
    {
        Bucket {
            owners: Cells::new(alloc, key),
            log,
            last: 0,
            number,
            alloc,
            of: PhantomData,
        }
    }

    /// Which bucket of its set it is.
    pub(crate) fn number(&self) -> u16
        ensures { result ≡ self.now.number }
    {
        self.number
    }

    /// How many cells are linked.
    pub(crate) fn len(&self) -> usize
        ensures { result ≡ length (cells_in self.now.places) }
    {
        self.owners.len()
    }

    /// A share of the text's cell, which is linked if none is, and what was seen of the log, which shows that no other cell of the text
    /// is held. `hash` is that of the text. A refusal hands the grant back.
    pub(crate) fn intern<R: Wait>(
        &mut self,
        rt: &R,
        text: &str,
        hash: u64,
        limits: &Limits,
        grant: G,
    ) -> Result<(CellShare, LogSeen), (Fault, G)>
        requires hash { hash ≡ entry_hash Static.tables text.now }
        requires here { bucket_of Static.tables (length N.logs) text.now ≡ self.old.number }
        ensures text { IfOk result (λ made. made.0.cell.text ≡ text.now) }
        ensures seen { IfOk result (λ made. IsSeen Static.tables N.logs made.1 made.0.cell) }
        ensures may { IfOk result (λ made. G.may made.0.cell.name) }
        ensures refused { IfErr result (λ refused. IsInternFault refused.0) }
    {
        match self.find(rt, text, hash, grant) {
            Answer::Held(share, seen) => Ok((share, seen)),
            Answer::Full(_, grant) => Err((Fault::FullCount, grant)),
            Answer::Absent(grant) => self.link(text, hash, limits, grant),
        }
    }

    /// A share of the text's cell, if one is linked that has a share. One that has none is taken out.
    pub(crate) fn find<R: Wait>(&mut self, rt: &R, text: &str, hash: u64, grant: G) -> Answer<G>
        requires hash { hash ≡ entry_hash Static.tables text.now }
        requires here { bucket_of Static.tables (length N.logs) text.now ≡ self.old.number }
        ensures text { IfHeld result (λ share _. share.cell.text ≡ text.now) }
        ensures seen { IfHeld result (λ share seen. IsSeen Static.tables N.logs seen share.cell) }
        ensures may { IfHeld result (λ share _. G.may share.cell.name) }
        ensures absent { IfAbsent result (IsNew text.now (cells_in self.new.places)) }
        ensures same { self.new.number ≡ self.old.number }
    {
        let mut unspent = grant;
        while let Some(at) = self.position(text, hash) {
            match self.share_at(rt, at, unspent) {
                Answer::Absent(grant) => unspent = grant,
                answer => return answer,
            }
        }
        Answer::Absent(unspent)
    }

    /// `find` of the text of a cell that is held: its share, and what was seen of the log with it, show that the cell is linked.
    pub(crate) fn find_held<R: Wait>(
        &mut self,
        rt: &R,
        held: &CellShare,
        seen: &LogSeen,
        grant: G,
    ) -> Answer<G>
        requires seen { IsSeen Static.tables N.logs seen.now held.now.cell }
        requires here { bucket_of Static.tables (length N.logs) held.now.cell.text ≡ self.old.number }
        ensures text { IfHeld result (λ share _. share.cell.text ≡ held.now.cell.text) }
        ensures seen { IfHeld result (λ share seen. IsSeen Static.tables N.logs seen share.cell) }
        ensures may { IfHeld result (λ share _. G.may share.cell.name) }
        ensures there { IfAbsent result ⊥ }
    {
        let answer = self.find(rt, held.text(), held.hash(), grant);
        self.has(held, seen);
        answer
    }

    // A law: a cell that is held is linked in the bucket in whose log it was seen.
    fn has(&mut self, held: &CellShare, seen: &LogSeen)
        requires seen { IsSeen Static.tables N.logs seen.now held.now.cell }
        requires here { bucket_of Static.tables (length N.logs) held.now.cell.text ≡ self.old.number }
        ensures same { self.new ≡ self.old }
        ensures linked { IsNew held.now.cell.text (cells_in self.old.places) → ⊥ }
    {
        let now = self.log.seen();
        self.log.begins(seen);
        held.outlives(&now);
    }

    /// Takes out all cells that have no share left, and gives back memory if few are linked.
    pub(crate) fn sweep(&mut self)
        ensures { self.new.number ≡ self.old.number }
    {
        let end = self.owners.places();
        self.prune(0, end);
        self.owners.end_look();
        self.shrink();
    }

    // Gives back memory if few cells are linked.
    fn shrink(&mut self)
        ensures { self.new.number ≡ self.old.number }
    {
        self.owners.shrink();
    }

    /// Takes out the cell that the index has at this hash, if it has no share left, and all such cells that lie beside the index.
    pub(crate) fn take_left(&mut self, hash: u64)
        ensures { self.new.number ≡ self.old.number }
    {
        if let Some((at, none)) = self.owners.dying(hash) {
            self.take_out(at, none);
        }
        self.prune_beside();
    }

    // Takes out all cells beside the index that have no share left.
    fn prune_beside(&mut self)
        ensures { self.new.number ≡ self.old.number }
    {
        let first = self.owners.first_beside();
        let end = self.owners.places();
        self.prune(first, end);
    }

    /// Begins a look at all cells, since several were left. `look_on` goes on with it.
    pub(crate) fn look_at_all(&mut self)
        ensures { self.new ≡ self.old }
    {
        self.owners.look_at_all();
    }

    /// Looks at some of the places that are still to be looked at, and takes out the cells there that have no share left.
    #[inline]
    pub(crate) fn look_on(&mut self)
        ensures { self.new.number ≡ self.old.number }
    {
        if self.owners.has_unseen() {
            self.look_at_some();
        }
    }

    // The same, apart, so that a call that has none to look at stays short.
    #[cold]
    #[inline(never)]
    fn look_at_some(&mut self)
        ensures { self.new.number ≡ self.old.number }
    {
        let (first, end) = self.owners.next_unseen(SOME);
        self.prune(first, end);
        // Behind the first place the last ones are next.
        let rest = SOME.saturating_sub(end.saturating_sub(first));
        let (first, end) = self.owners.next_unseen(rest);
        self.prune(first, end);
    }

    // Takes out all cells that have no share left and stand from one place on, before another.
    fn prune(&mut self, first: usize, end: usize)
        requires { end ≤ length self.old.places }
        ensures same { self.new.number ≡ self.old.number }
        ensures less { LinksNoMore (cells_in self.old.places) (cells_in self.new.places) }
    {
        let mut at = end;
        while at > first {
            at -= 1;
            self.prune_at(at);
        }
    }

    // Takes out the cell that stands there, if it has no share left.
    fn prune_at(&mut self, at: usize)
        requires { at < length self.old.places }
        ensures same { self.new.number ≡ self.old.number }
        ensures less { LinksNoMore (cells_in self.old.places) (cells_in self.new.places) }
        ensures before { at ≤ length self.new.places }
    {
        let Some(owner) = self.owners.at(at) else {
            return;
        };
        if let Ok(none) = owner.dying() {
            self.take_out(at, none);
        }
    }

    /// Calls `visit` once for each cell that is linked, with its text and the number of its shares as one look at its count reads it.
    pub(crate) fn for_each<F: FnMut(&str, u64)>(&self, visit: &mut F)
        requires { F.IsAlwaysCallable visit.old }
        ensures { F.IsAlwaysCallable visit.new }
    {
        for at in 0..self.owners.places() {
            if let Some(owner) = self.owners.at(at) {
                visit(owner.text(), owner.count().shares());
            }
        }
    }

    /// How many bytes it has asked for and still holds: its places for cells, and the cells with their texts.
    pub(crate) fn memory(&self) -> u128 {
        let mut sum = self.owners.memory();
        for at in 0..self.owners.places() {
            if let Some(owner) = self.owners.at(at) {
                sum = sum.saturating_add(owner.block_size() as u128);
            }
        }
        sum
    }

    // What its log is now, which shows of each linked cell that it stands there.
    fn seen(&mut self) -> LogSeen
        ensures same { self.new ≡ self.old }
        ensures seen { (at : ℕ) (c : Cell) → HasCell self.old.places at c → IsSeen Static.tables N.logs result c }
    {
        self.log.seen()
    }

    // Where a cell of the text is linked.
    fn position(&self, text: &str, hash: u64) -> Option<usize>
        requires { hash ≡ entry_hash Static.tables text.now }
        ensures { FoundAt self.now.places text.now result }
    {
        self.owners.position(text, hash)
    }

    // A share of the cell that is linked there, and what was seen of the log. If the cell has none left, it is taken out.
    fn share_at<R: Wait>(&mut self, rt: &R, at: usize, grant: G) -> Answer<G>
        requires { (c : Cell) × HasCell self.old.places at c }
        ensures cell { IfHeld result (λ share _. HasCell self.old.places at share.cell) }
        ensures seen { IfHeld result (λ share seen. IsSeen Static.tables N.logs seen share.cell) }
        ensures may { IfHeld result (λ share _. G.may share.cell.name) }
        ensures full { IfFull result (λ full. (c : Cell) × HasCell self.old.places at c × (full ≡ c.name)) }
        ensures one { IfAbsent result (length (cells_in self.new.places) + 1 ≡ length (cells_in self.old.places)) }
        ensures same { self.new.number ≡ self.old.number }
    {
        let owner = self.owner_at(at);
        // Another step seldom comes between, so nothing has to wait.
        match owner.try_add(grant.permit(owner)) {
            Ok(share) => Answer::Held(share, self.seen()),
            Err(permit) => {
                let reply = owner.add(rt, permit);
                self.share_by(at, reply)
            }
        }
    }

    // The same, by a reply of the cell that is linked there, which has a permit of the grant if nothing was added.
    fn share_by(&mut self, at: usize, reply: ShareReply) -> Answer<G>
        requires { (c : Cell) × (permit : ℕ) × HasCell self.old.places at c × G.may c.name × G.permits c.name permit × IsReply c permit reply }
        ensures cell { IfHeld result (λ share _. HasCell self.old.places at share.cell) }
        ensures seen { IfHeld result (λ share seen. IsSeen Static.tables N.logs seen share.cell) }
        ensures may { IfHeld result (λ share _. G.may share.cell.name) }
        ensures full { IfFull result (λ full. (c : Cell) × HasCell self.old.places at c × (full ≡ c.name)) }
        ensures one { IfAbsent result (length (cells_in self.new.places) + 1 ≡ length (cells_in self.old.places)) }
        ensures same { self.new.number ≡ self.old.number }
    {
        match reply {
            ShareReply::Added(share, _) => Answer::Held(share, self.seen()),
            ShareReply::Full(full, permit) => Answer::Full(full, G::of_permit(permit)),
            ShareReply::Dying(no_shares, permit) => {
                self.take_out(at, no_shares);
                Answer::Absent(G::of_permit(permit))
            }
        }
    }

    // The owner of the cell that is linked there.
    #[inline]
    fn owner_at(&self, at: usize) -> &Owner<Global>
        requires { (c : Cell) × HasCell self.now.places at c }
        ensures cell { HasCell self.now.places at result.now }
        ensures may { G.may result.now.name }
    {
        match self.owners.at(at) {
            Some(owner) => owner,
            None => unreachable!(),
        }
    }

    // Takes out a cell that has no share left, and keeps that in the log.
    fn take_out(&mut self, at: usize, none: NoShares)
        requires { (c : Cell) × HasCell self.old.places at c × (none ≡ c.name) }
        ensures same { self.new.number ≡ self.old.number }
        ensures one { length (cells_in self.new.places) + 1 ≡ length (cells_in self.old.places) }
        ensures less { LinksNoMore (cells_in self.old.places) (cells_in self.new.places) }
        ensures before { at ≤ length self.new.places }
    {
        none.bury(&mut self.log);
        drop(self.owners.take_out(at));
    }

    // Links a cell of a text of which none is linked, and enters it in the log. A refusal hands the grant back.
    fn link(
        &mut self,
        text: &str,
        hash: u64,
        limits: &Limits,
        grant: G,
    ) -> Result<(CellShare, LogSeen), (Fault, G)>
        requires new { IsNew text.now (cells_in self.old.places) }
        requires hash { hash ≡ entry_hash Static.tables text.now }
        requires here { bucket_of Static.tables (length N.logs) text.now ≡ self.old.number }
        ensures text { IfOk result (λ made. made.0.cell.text ≡ text.now) }
        ensures seen { IfOk result (λ made. IsSeen Static.tables N.logs made.1 made.0.cell) }
        ensures may { IfOk result (λ made. G.may made.0.cell.name) }
        ensures refused { IfErr result (λ refused. IsInternFault refused.0) }
    {
        match self.link_next(text, hash, limits) {
            Ok(made) => Ok(made),
            Err(fault) => Err((fault, grant)),
        }
    }

    // The same without a grant.
    fn link_next(
        &mut self,
        text: &str,
        hash: u64,
        limits: &Limits,
    ) -> Result<(CellShare, LogSeen), Fault>
        requires new { IsNew text.now (cells_in self.old.places) }
        requires hash { hash ≡ entry_hash Static.tables text.now }
        requires here { bucket_of Static.tables (length N.logs) text.now ≡ self.old.number }
        ensures text { IfOk result (λ made. made.0.cell.text ≡ text.now) }
        ensures seen { IfOk result (λ made. IsSeen Static.tables N.logs made.1 made.0.cell) }
        ensures may { IfOk result (λ made. G.may made.0.cell.name) }
        ensures refused { IfErr result IsInternFault }
    {
        if self.last >= limits.serials() {
            return Err(Fault::TicketsSpent);
        }
        let serial = self.last + 1;
        let (owner, share) = new_cell::<G>(self.alloc, serial, self.number, text, hash, limits)?;
        if let Err(owner) = self.owners.add(owner) {
            let _ = share.give();
            drop(owner);
            return Err(Fault::Memory);
        }
        share.enter(&mut self.log);
        self.last = serial;
        let seen = self.seen();
        Ok((share, seen))
    }
}

// A cell of this text and its hash, which has the ticket of this serial in the bucket of this number, and its first share. Each further
// share is by a grant.
fn new_cell<G: Grant>(
    alloc: Global,
    serial: u64,
    number: u16,
    text: &str,
    hash: u64,
    limits: &Limits,
) -> Result<(Owner<Global>, CellShare), AllocError>
    requires { IsTicket serial number }
    ensures text { IfOk result (λ made. made.0.text ≡ text.now) }
    ensures hash { IfOk result (λ made. made.0.label.hash ≡ hash) }
    ensures ticket { IfOk result (λ made. made.0.label.ticket ≡ ticket_of serial number) }
    ensures may { IfOk result (λ made. G.may made.0.name) }
    ensures share { IfOk result (λ made. made.1.cell ≡ made.0) }
{
    let label = Label {
        hash,
        ticket: ticket_word(serial, number),
        limit: limits.holders(),
    };
    Owner::new::<G>(alloc, label, 0, text)
}
