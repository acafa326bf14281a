//! The owner of a cell.
ghost use Rattle.std.specs.Prelude.{◌≡◌, true, ◌^◌, ◌<◌, ◌≤◌, length, IfErr, IfOk};
ghost use Rattle.counted_cell.specs.Cell.{block_size, most_behind, padded_size};

use crate::block::{FreeRight, allocate, deallocate};
use crate::block_right::{BlockRight, begin, reclaim};
use crate::cell_ref::{CellRef, Permit};
use crate::content::Content;
use crate::ending::Ending;
use crate::evidence::{CountSeen, NoShares, SharesLeft};
use crate::grant::Grant;
use crate::header::Header;
use crate::label::Label;
use crate::note::Note;
use crate::placed::{fill, take};
use crate::reply::ShareReply;
use crate::share::CellShare;
use crate::text::{Text, limit_size};
use std::alloc::{AllocError, Allocator};
use std::marker::Model;
use std::mem::{align_of, size_of};
use std::sync::Wait;

/// The owner of a cell. Its end frees the block if the count is 0, and leaves it otherwise, for the shares that are left. In a clause it is its cell.
pub struct Owner<A: Allocator> {
    cell: CellRef<Content>,
    block: BlockRight<Content>,
    free: FreeRight<Header<Content>, A>,
    alloc: A,
}

impl<A: Allocator> Model for Owner<A> {
    ghost use Rattle.std.specs.Prelude.{◌≡◌, ◌^◌, ◌<◌, ◌≤◌, length};
    ghost use Rattle.counted_cell.specs.Cell.{Cell, IsBehind, IsLimited, cell_of, most_behind};
    ghost use Rattle.counted_cell.specs.Counting.{owner_right};

    ghost Value = { Cell };

    ghost view = { λ o. cell_of o.cell };

    ghost invariant = { λ o. (o.cell.right ≡ owner_right) × IsLimited o.cell
        × ((o.block.name ≡ o.cell.name) × (o.block.value ≡ o.cell.value) × (o.block.ptr ≡ o.free.at) × (o.cell.ptr ≡ o.block.ptr))
        × ((o.free.alloc ≡ o.alloc) × IsBehind o.cell × (length o.block.value.text.places.slots ≡ o.free.len) × (o.free.len ≤ most_behind)) };
}

impl<A: Allocator> Drop for Owner<A> {
    fn drop(self) {
        let _ = self.finish();
    }
}

/// The longest text that a cell takes, in bytes. A longer one is refused as if there were no memory for it.
const MOST_BYTES: usize = (1 << 62) - 1;

const ALIGN: usize = align_of::<Header<Content>>();

/// The bytes of a block that has so many behind its header: the header, these, and padding up to the alignment.
fn size_for(len: usize) -> usize
    requires { len ≤ most_behind }
    ensures exact { result ≡ padded_size len }
    ensures few { result < 2 ^ 63 }
{
    let end = size_of::<Header<Content>>() + len;
    end + (ALIGN - end % ALIGN) % ALIGN
}

impl<A: Allocator> Owner<A> {
    ghost use Rattle.counted_cell.specs.Cell.{cell_of};
    ghost use Rattle.counted_cell.specs.Reply.{IsReply};
    ghost use Rattle.counted_cell.specs.Ending.{IsEnding};

    /// A cell with a copy of the text, and its first share. Without memory, nothing is made. The note is for clauses only, and takes no memory. The
    /// grant says whether the cell gets more shares freely: a caller that is generic over it can add none here.
    pub fn new<G: Grant>(
        alloc: A,
        label: Label,
        note: u64,
        text: &str,
    ) -> Result<(Owner<A>, CellShare), AllocError>
        requires { (1 ≤ label.limit) × (label.limit < 2 ^ 63) }
        ensures owner { IfOk result (λ made. (made.0.label ≡ label) × (made.0.note ≡ note) × (made.0.text ≡ text.now)) }
        ensures limit { IfOk result (λ made. made.0.name.limit ≡ label.limit) }
        ensures grows { IfOk result (λ made. made.0.name.grows ≡ G.grows) }
        ensures share { IfOk result (λ made. made.1.cell ≡ made.0) }
    {
        if text.len() > MOST_BYTES {
            return Err(AllocError);
        }
        let Label {
            hash,
            ticket,
            limit,
        } = label;
        let len = text.len() + limit_size(limit);
        let (room, ptr, places, free) = allocate(&alloc, len, size_for(len), ALIGN)?;
        let value = Content {
            hash,
            ticket,
            note: Note::new(note),
            text: Text::write(ptr, places, text, limit),
        };
        let (block, owner, share) = begin(fill(room, Header { count: 1, value }));
        let owner = Owner {
            cell: owner,
            block,
            free,
            alloc,
        };
        Ok((owner, CellShare::of_ref(share)))
    }

    /// The hash of the text.
    #[inline]
    pub fn hash(&self) -> u64
        ensures { result ≡ self.now.label.hash }
    {
        self.cell.get().hash
    }

    /// The number under which the text is known.
    #[inline]
    pub fn ticket(&self) -> u64
        ensures { result ≡ self.now.label.ticket }
    {
        self.cell.get().ticket
    }

    /// The text of the cell.
    pub fn text(&self) -> &str
        ensures { result.now ≡ self.now.text }
    {
        self.cell.get().text.as_str(self.cell.end())
    }

    /// The bytes of its block: those before the text, the text, a limit of its own, and padding up to the alignment.
    pub fn block_size(&self) -> usize
        ensures exact { result ≡ block_size self.now.name.limit (length self.now.text) }
        ensures few { result < 2 ^ 63 }
    {
        size_for(self.cell.get().text.size())
    }

    /// What the count reads.
    pub fn count(&self) -> CountSeen
        ensures { result.name ≡ self.now.name }
    {
        let (seen, reading) = self.cell.load();
        CountSeen { seen, reading }
    }

    /// A permit. The cell must get more shares, as each that `new` makes for free grants does. It does nothing when it runs.
    #[inline]
    pub fn permit(&self) -> Permit
        requires { self.now.name.grows ≡ true }
        ensures { result.name ≡ self.now.name }
    {
        self.cell.free()
    }

    /// Adds a share of the cell, for the permit.
    #[inline]
    pub fn add<R: Wait>(&self, rt: &R, permit: Permit) -> ShareReply
        requires { permit.name ≡ self.now.name }
        ensures { IsReply self.now permit.number result }
    {
        ShareReply::one_more(rt, &self.cell, permit)
    }

    /// Adds a share of the cell, for the permit, by a single try that waits for nothing. The permit is handed back if another step on the count came
    /// between, or the cell has no share, or as many as it may have. `add` keeps trying, and tells which.
    #[inline]
    pub fn try_add(&self, permit: Permit) -> Result<CellShare, Permit>
        requires { permit.name ≡ self.now.name }
        ensures added { IfOk result (λ share. share.cell ≡ self.now) }
        ensures left { IfErr result (λ left. (left.name ≡ self.now.name) × (left.number ≡ permit.number)) }
    {
        let (seen, _) = self.cell.load();
        if seen == 0 {
            return Err(permit);
        }
        CellShare::tried(&self.cell, seen, permit)
    }

    /// If the count reads 0, what shows that no share is left. If it reads 1 or more, what shows that one was.
    pub fn dying(&self) -> Result<NoShares, SharesLeft>
        ensures dying { IfOk result (λ none. none ≡ self.now.name) }
        ensures held { IfErr result (λ some. some ≡ self.now.name) }
    {
        let (seen, reading) = self.cell.load();
        if seen == 0 {
            Ok(NoShares { reading })
        } else {
            Err(SharesLeft { reading })
        }
    }

    /// Ends the cell, by one load of the count: the block is freed if that is 0, and stays otherwise. It waits for nothing.
    pub fn finish(self) -> Ending
        ensures { IsEnding self.name result }
    {
        let Self {
            cell,
            block,
            free,
            alloc,
        } = self;
        let (found, reading, sole) = cell.close();
        if found == 0 {
            let (room, header) = take(reclaim(block, sole));
            let Header { count: _, value } = header;
            let Content {
                hash: _,
                ticket: _,
                note: _,
                text,
            } = value;
            let (len, places) = text.into_bytes();
            deallocate(&alloc, room, places, free, size_for(len), ALIGN);
            Ending::Freed(NoShares { reading })
        } else {
            sole.done();
            Ending::Left(SharesLeft { reading })
        }
    }
}
