//! The entries of a bucket, with a place in them. Only this file knows how they are kept.

ghost use Rattle.std.specs.Prelude.{◌≡◌, ◌+◌, ◌<◌, ◌≤◌, ◌↔◌, ◌∷◌, ◌++◌, [], length, IsTrue, IfOk, IfErr};
ghost use Rattle.counted_set.specs.Counted.{ShowsFirst};
ghost use Rattle.counted_set.specs.Quiet.{PassesQuiet};
ghost use Rattle.counted_set.specs.Stored.{AreStored};
ghost use Rattle.node_chain.specs.Packs.{joined};
ghost use Rattle.node_chain.specs.Walked.{IsNext, at_start, passed_by, taken_out};

use super::counts::Counts;
use super::quiet::{Met, meet_from};
use super::share::Entry;
use counted_cell::Grant;
use node_chain::{Node, NodeChain, Pack, StoredChain};
use std::alloc::{AllocFailed, Global};
use std::marker::Model;
use std::mem::size_of;

/// The bytes of a node.
pub(super) const NODE_SIZE: usize = size_of::<Node<Pack<Entry>>>();

/// Each node has one entry or more, and the place is before the entry `at` of the first node that is left.
#[derive(Drop)]
pub(super) struct Entries {
    chain: NodeChain<Pack<Entry>>,
    at: usize,
}

impl Model for Entries {
    ghost use Rattle.counted_set.specs.Chain.{Linked};
    ghost use Rattle.node_chain.specs.Walked.{Walked};
    ghost use Rattle.node_chain.specs.Packs.{items_at, ArePacked};

    ghost Value = { Walked Linked };

    ghost view = { λ e. items_at e.at e.chain };

    ghost invariant = { λ e. ArePacked e.at e.chain };
}

impl Entries {
    /// The entries of nodes at rest, of which there are this many. All of them are left.
    pub(super) fn open(nodes: StoredChain<Pack<Entry>>, number: u32, alloc: Global) -> Entries
        requires { AreStored number nodes }
        ensures { result ≡ at_start (joined nodes) }
    {
        Entries {
            chain: nodes.open(number, alloc),
            at: 0,
        }
    }

    /// Puts them to rest, from the first on. Returns their nodes and the number of these.
    pub(super) fn store(mut self) -> (StoredChain<Pack<Entry>>, u32)
        ensures entries { joined result.0 ≡ self.passed ++ self.left }
        ensures stored { AreStored result.1 result.0 }
    {
        self.rewind();
        let Entries { chain, at: _ } = self;
        chain.store()
    }

    /// The number of nodes that have an entry left.
    pub(super) fn nodes_left(&self) -> usize
        ensures few { result ≤ length self.now.left }
        ensures some { 0 < length self.now.left → 0 < result }
    {
        self.chain.remaining()
    }

    /// Whether there is an entry after the next.
    #[inline]
    pub(super) fn has_more(&self) -> bool
        ensures { IsTrue result ↔ (1 < length self.now.left) }
    {
        let count = match self.chain.look() {
            Some(pack) => pack.len(),
            None => return false,
        };
        self.at + 1 < count || self.chain.remaining() > 1
    }

    /// The next entry.
    pub(super) fn look(&self) -> Option<&Entry>
        ensures { IsNext self.now.left result }
    {
        match self.chain.look() {
            Some(pack) => pack.get(self.at),
            None => None,
        }
    }

    /// Passes the next entry.
    pub(super) fn keep(&mut self)
        requires { 0 < length self.old.left }
        ensures { self.new ≡ passed_by self.old self.old.left }
    {
        let count = match self.chain.look() {
            Some(pack) => pack.len(),
            None => unreachable!(),
        };
        if self.at + 1 < count {
            self.at += 1;
        } else {
            self.chain.keep();
            self.at = 0;
        }
    }

    /// Asks the entries that are left of the first node whether they are dying, in order, and passes those that aren't, until one is or has the
    /// wanted hash: that one is then the next. `None` if no entry is left.
    #[inline(always)] // so that what is wanted is known in its loops
    pub(super) fn keep_quiet<G: Grant, C: Counts<G>>(
        &mut self,
        wanted: Option<u64>,
        counts: &mut C,
    ) -> Option<Met<C::Gone>>
        ensures { PassesQuiet C.gives C.shows_gone wanted counts.old self.old result counts.new self.new }
    {
        let node = self.chain.look()?;
        match meet_from(node, self.at, wanted, counts) {
            Met::Nothing => {
                self.chain.keep();
                self.at = 0;
                Some(Met::Nothing)
            }
            Met::Dying(place, gone) => {
                self.at = place;
                Some(Met::Dying(place, gone))
            }
            Met::Alike(place) => {
                self.at = place;
                Some(Met::Alike(place))
            }
        }
    }

    /// Takes out the next entry, which has no share left, as the counts show, and frees it, and its node too if that has no other.
    pub(super) fn take_out<G: Grant, C: Counts<G>>(&mut self, _gone: C::Gone)
        requires { ShowsFirst C.shows_gone _gone self.old.left }
        ensures { self.new ≡ taken_out self.old self.old.left }
    {
        self.remove_next();
    }

    /// The same without what shows it.
    #[inline]
    fn remove_next(&mut self)
        requires { 0 < length self.old.left }
        ensures { self.new ≡ taken_out self.old self.old.left }
    {
        let mut node = self.chain.unlink();
        let count = node.item.len();
        if count == 1 {
            drop(node);
        } else {
            let entry = node.item.remove(self.at);
            self.chain.link(node);
            if self.at + 1 == count {
                self.chain.keep();
                self.at = 0;
            }
            drop(entry);
        }
    }

    /// Goes back to the first entry.
    pub(super) fn rewind(&mut self)
        ensures { self.new ≡ at_start (self.old.passed ++ self.old.left) }
    {
        self.chain.rewind();
        self.at = 0;
    }

    /// Adds an entry as the first: to the first node if that has room, otherwise in a new node. A refusal changes nothing, and gives the entry back.
    pub(super) fn add_head(&mut self, entry: Entry) -> Result<(), AllocFailed<Entry>>
        requires { self.old.passed ≡ [] }
        ensures added { IfOk result (λ _. self.new ≡ at_start (entry ∷ self.old.left)) }
        ensures refused { IfErr result (λ e. (e.value ≡ entry) × (self.new ≡ self.old)) }
    {
        let has_room = match self.chain.look() {
            Some(pack) => pack.has_room(),
            None => false,
        };
        if has_room {
            let mut node = self.chain.unlink();
            node.item.add(entry);
            self.chain.link(node);
        } else if let Err(AllocFailed { value }) = self.chain.add_head(Pack::new(entry)) {
            return Err(AllocFailed {
                value: value.into_item(),
            });
        }
        Ok(())
    }
}
