//! Counted entries, and their shares.

ghost use Rattle.std.specs.Prelude.{◌≡◌, true, ◌≤◌, ◌<◌, ◌^◌, ◌↔◌, length, IsTrue, IfOk, IfSome};
ghost use Rattle.text_forms.specs.Layout.{holder_bound};
ghost use Rattle.counted_cell.specs.Cell.{block_size};
ghost use Rattle.counted_cell.specs.Counting.{receipt_owns};
ghost use Rattle.counted_set.specs.Counted.{IfAdded, IfDying, IfFull, reply_of};
ghost use types.Logic.{sem};

use super::counts::CountReply;
use counted_cell::{
    AtLimit, CellShare, Grant, Label, NoShares, Owner, Permit, Receipt, ShareReply,
};
use std::alloc::{AllocError, Global};
use std::marker::Model;
use std::sync::Wait;
use text_forms::word::Buckets;

/// An entry of a bucket: the one owner of a counted cell, which has the text, its hash, the ticket and the count of the entry's shares in one block.
/// The count goes up only from one or more and below the entry's limit of holders: an entry without shares is dying, and never gets any again.
///
/// Its end frees the block if the count reads 0, and leaves it forever otherwise. It is one pointer: a pass over a bucket asks each entry's count,
/// which is next to the hash.
#[derive(Drop)]
pub struct Entry {
    owner: Owner<Global>,
}

impl Model for Entry {
    ghost use Rattle.counted_set.specs.Chain.{Linked};
    ghost use Rattle.counted_set.specs.Share.{linked_of};

    ghost Value = { Linked };

    ghost view = { λ e. linked_of e.owner };
}

impl Entry {
    ghost use Rattle.counted_set.specs.Share.{linked_of};

    /// An entry of this text in one of this many buckets, and its first share. It copies the text. There may be up to `holders` shares, each by a
    /// grant.
    pub(super) fn new<G: Grant>(
        alloc: Global,
        buckets: Buckets,
        ticket: u64,
        text: &str,
        hash: u64,
        holders: u64,
    ) -> Result<(Entry, Share), AllocError>
        requires { (1 ≤ holders) × (holders < holder_bound) }
        ensures entry { IfOk result (λ made. made.0 ≡ record { ticket = ticket; text = text.now; hash = hash; bits = buckets; limit = holders; name = made.0.name }) }
        ensures may { IfOk result (λ made. G.may made.0.name) }
        ensures share { IfOk result (λ made. made.1 ≡ made.0) }
    {
        let label = Label {
            hash,
            ticket,
            limit: holders,
        };
        let bits = u64::from(buckets.bits());
        let (owner, share) = Owner::new::<G>(alloc, label, bits, text)?;
        Ok((Entry { owner }, Share::of_cell(share)))
    }

    /// The ticket.
    pub fn ticket(&self) -> u64
        ensures { result ≡ self.now.ticket }
    {
        self.owner.ticket()
    }

    /// The text.
    pub(super) fn text(&self) -> &str
        ensures { result.now ≡ self.now.text }
    {
        self.owner.text()
    }

    /// The bytes of its cell, including the text.
    pub(super) fn cell_size(&self) -> usize
        ensures exact { result ≡ block_size self.now.limit (length self.now.text) }
        ensures few { result < 2 ^ 63 }
    {
        self.owner.block_size()
    }

    /// The number of shares, as one look at the count reads it.
    pub(super) fn holders(&self) -> u64 {
        self.owner.count().shares()
    }

    /// Whether this is the hash of its text.
    pub(super) fn has_hash(&self, hash: u64) -> bool
        ensures { IsTrue result ↔ (self.now.hash ≡ hash) }
    {
        self.owner.hash() == hash
    }

    /// Whether it is the entry of a text with this hash.
    pub(super) fn is_of(&self, text: &str, hash: u64) -> bool
        ensures { IsTrue result ↔ ((self.now.hash ≡ hash) × (self.now.text ≡ text.now)) }
    {
        self.has_hash(hash) && self.owner.text() == text
    }

    /// Adds a share, unless the entry is dying or has as many as it may have: returns what its cell answers. It spends the grant, or hands it back.
    ///
    /// `Added` gives a share of this entry. `Dying` is returned only if the count was read as 0, so that no share is left and none ever will be, and
    /// `Full` only if it was read as the entry's limit; both change nothing.
    pub fn add<R: Wait, G: Grant>(
        &self,
        rt: &R,
        grant: G,
    ) -> CountReply<Share, NoShares, AtLimit, G>
        requires { G.may self.now.name }
        ensures added { IfAdded (reply_of result) (λ share. share ≡ self.now) }
        ensures dying { IfDying result (λ none. none ≡ self.now.name) }
        ensures full { IfFull result (λ full. full ≡ self.now.name) }
    {
        self.asked(rt, grant.permit(&self.owner))
    }

    /// The owner of its cell, which adds shares.
    #[inline]
    pub(super) fn owner(&self) -> &Owner<Global>
        ensures { linked_of result.now ≡ self.now }
    {
        &self.owner
    }

    /// What `add` answers, by a permit of the grant.
    #[cold]
    #[inline(never)]
    pub(super) fn asked<R: Wait, G: Grant>(
        &self,
        rt: &R,
        permit: Permit,
    ) -> CountReply<Share, NoShares, AtLimit, G>
        requires { (permit.name ≡ self.now.name) × G.permits permit.name permit.number }
        ensures added { IfAdded (reply_of result) (λ share. share ≡ self.now) }
        ensures dying { IfDying result (λ none. none ≡ self.now.name) }
        ensures full { IfFull result (λ full. full ≡ self.now.name) }
    {
        match self.owner.add(rt, permit) {
            ShareReply::Added(share, _) => CountReply::Added(Share::of_cell(share)),
            ShareReply::Dying(none, left) => CountReply::Dying(none, G::of_permit(left)),
            ShareReply::Full(full, left) => CountReply::Full(full, G::of_permit(left)),
        }
    }

    /// What shows that no share is left, if none is. Then none ever will be.
    pub fn dying(&self) -> Option<NoShares>
        ensures { IfSome result (λ none. none ≡ self.now.name) }
    {
        self.owner.dying().ok()
    }
}

/// One share of a cell. Its drop takes it off the count: this very share, as its number shows, and no other. In a clause it is its cell and its
/// number.
struct OwnShare {
    share: CellShare,
}

impl Model for OwnShare {
    ghost use Rattle.counted_cell.specs.Cell.{OneShare};

    ghost Value = { OneShare };

    ghost view = { λ s. s.share };
}

impl Drop for OwnShare {
    fn drop(self)
        ensures* given { sem 𝓛 (receipt_owns self.cell.name self.number) }
    {
        let _ = self.give();
    }
}

impl OwnShare {
    /// Takes the share off the count.
    fn give(self) -> Receipt
        ensures { (result.name ≡ self.cell.name) × (result.number ≡ self.number) }
    {
        let (receipt, _) = self.into_counted().give().parts();
        receipt
    }

    /// The same without a drop.
    fn into_counted(self) -> CellShare
        ensures { result ≡ self }
    {
        let Self { share } = self;
        share
    }
}

/// One share of an entry. Its drop is that of its `OwnShare`: it takes the share off the entry's count, and tries no lock.
#[derive(Drop)]
pub struct Share {
    own: OwnShare,
}

impl Model for Share {
    ghost use Rattle.counted_set.specs.Chain.{Linked};
    ghost use Rattle.counted_set.specs.Share.{linked_of};

    ghost Value = { Linked };

    ghost view = { λ s. linked_of s.own.cell };
}

impl Share {
    ghost use Rattle.counted_set.specs.Share.{linked_of};

    /// The share of an entry's cell.
    pub(super) fn of_cell(share: CellShare) -> Share
        ensures { result ≡ linked_of share.cell }
    {
        Share {
            own: OwnShare { share },
        }
    }

    /// The entry's ticket.
    pub fn ticket(&self) -> u64
        ensures { result ≡ self.now.ticket }
    {
        self.own.share.ticket()
    }

    /// The entry's text.
    pub fn text(&self) -> &str
        ensures { result.now ≡ self.now.text }
    {
        self.own.share.text()
    }

    /// The share of the entry's cell, which has no drop: it is given back.
    pub(super) fn into_counted(self) -> CellShare
        ensures { linked_of result.cell ≡ self }
    {
        let Self { own } = self;
        own.into_counted()
    }
}
