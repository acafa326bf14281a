//! The chain: counts over the nodes, and the memory of each.

ghost use Rattle.std.specs.Prelude.{◌≡◌, ◌+◌, ◌<◌, ◌^◌, List, [], ◌∷◌, ◌++◌, length, IfOk, IfErr};
ghost use Rattle.node_chain.specs.Walked.{IsNext, at_start, linked, passed_by, taken_out};

use crate::nodes::{Node, Nodes, RawBox, StoredNodes};
use std::alloc::{AllocFailed, Global};
use std::marker::Model;
use std::ptr::null_mut;

/// A list of items with a place in it: those that were passed, and those that are left. Contracts see both.
///
/// Each item is in a node of its own on the heap, which leads to the next. The drop frees all nodes and drops their items, first to last, in a loop.
pub struct NodeChain<T> {
    nodes: Nodes<T>,
    len: u32,
    passed: u32,
    alloc: Global,
}

impl<T> Model for NodeChain<T> {
    ghost use Rattle.std.specs.Prelude.{◌≡◌, ◌+◌, length, reverse};
    ghost use Rattle.node_chain.specs.Walked.{Walked};

    ghost Value = { Walked T };

    ghost view = { λ c. record { passed = reverse c.nodes.passed; left = c.nodes.left } };

    ghost invariant = { λ c. (c.len ≡ length c.nodes.passed + length c.nodes.left) × (c.passed ≡ length c.nodes.passed) };
}

impl<T> NodeChain<T> {
    /// An empty chain. It takes no memory.
    pub fn new(alloc: Global) -> NodeChain<T>
        ensures { result ≡ at_start [] }
    {
        NodeChain {
            nodes: Nodes::new(),
            len: 0,
            passed: 0,
            alloc,
        }
    }

    /// The number of items that are left.
    pub fn remaining(&self) -> usize
        ensures { result ≡ length self.now.left }
    {
        (self.len - self.passed) as usize
    }

    /// The next item: the first that is left, or `None` if there is none.
    pub fn look(&self) -> Option<&T>
        ensures { IsNext self.now.left result }
    {
        if self.passed < self.len {
            Some(self.nodes.next_item())
        } else {
            None
        }
    }

    /// Passes the next item. `look` tells whether there is one.
    pub fn keep(&mut self)
        requires { 0 < length self.old.left }
        ensures { self.new ≡ passed_by self.old self.old.left }
    {
        self.nodes.keep();
        self.passed += 1;
    }

    /// Goes back to the first item, so that all of them are left.
    pub fn rewind(&mut self)
        ensures { self.new ≡ at_start (self.old.passed ++ self.old.left) }
    {
        self.nodes.rewind();
        self.passed = 0;
    }

    /// Puts the chain to rest, and returns its items and their number. No item may have been passed.
    pub fn store(self) -> (StoredChain<T>, u32)
        requires { self.passed ≡ [] }
        ensures items { result.0 ≡ self.left }
        ensures number { result.1 ≡ length self.left }
    {
        let NodeChain {
            nodes,
            len,
            passed: _,
            alloc: _,
        } = self;
        let stored = StoredChain {
            nodes: nodes.store(),
        };
        (stored, len)
    }
}

/// A chain at rest: its items behind one pointer. Contracts see their list.
///
/// Their number is kept beside it: `open` makes a chain of both. Its drop frees no node and drops no item, so open it before it ends.
#[derive(Drop)]
pub struct StoredChain<T> {
    nodes: StoredNodes<T>,
}

impl<T> Model for StoredChain<T> {
    ghost use Rattle.std.specs.Prelude.{List};
    ghost use Rattle.std.specs.Coded.{coded_list};

    ghost Value = { List T };

    ghost coded = { coded_list T.code };

    ghost view = { λ c. c.nodes.items };
}

impl<T> StoredChain<T> {
    /// An empty one.
    pub fn new() -> StoredChain<T>
        ensures { result ≡ [] }
    {
        StoredChain {
            nodes: StoredNodes::new(),
        }
    }

    /// The chain of these items, all of which are left. `number` must be right. It takes its memory from `alloc`.
    pub fn open(self, number: u32, alloc: Global) -> NodeChain<T>
        requires { number ≡ length self }
        ensures { result ≡ at_start self }
    {
        let StoredChain { nodes } = self;
        NodeChain {
            nodes: nodes.open(),
            len: number,
            passed: 0,
            alloc,
        }
    }
}

impl<T: Drop> NodeChain<T> {
    /// Adds an item before all others. None may have been passed.
    ///
    /// It is refused if there is no memory, or at 2^32 - 1 items. A refusal gives the item back, and leaves the chain as it was.
    pub fn add_head(&mut self, item: T) -> Result<(), AllocFailed<T>>
        requires { self.old.passed ≡ [] }
        ensures added { IfOk result (λ _. self.new ≡ at_start (item ∷ self.old.left)) }
        ensures refused { IfErr result (λ e. (e.value ≡ item) × (self.new ≡ self.old)) }
    {
        let Some(len) = self.len.checked_add(1) else {
            return Err(AllocFailed { value: item });
        };
        let node = Node {
            next: null_mut(),
            item,
        };
        match Box::new(self.alloc, node) {
            Ok(node) => {
                self.nodes.add_head(RawBox::from_box(node));
                self.len = len;
                Ok(())
            }
            Err(AllocFailed { value }) => {
                let Node { next: _, item } = value;
                Err(AllocFailed { value: item })
            }
        }
    }

    /// Takes out and returns the next item, and frees its node. `look` tells whether there is one.
    pub fn take_out(&mut self) -> T
        requires { 0 < length self.old.left }
        ensures taken { (rest : List T) × (self.old.left ≡ result ∷ rest) }
        ensures rest { self.new ≡ taken_out self.old self.old.left }
    {
        let Node { next: _, item } = Box::into_inner(self.unlink());
        item
    }

    /// Takes out the node of the next item, and returns it with its item. `look` tells whether there is one.
    pub fn unlink(&mut self) -> Box<Node<T>, Global>
        requires { 0 < length self.old.left }
        ensures taken { self.old.left ≡ result.value.item ∷ self.new.left }
        ensures passed { self.new.passed ≡ self.old.passed }
        ensures room { length self.new.passed + length self.new.left + 1 < 2 ^ 32 }
    {
        let node = if self.passed == 0 {
            self.nodes.take_head(self.alloc)
        } else {
            self.nodes.take_next(self.alloc)
        };
        self.len -= 1;
        node.into_box()
    }

    /// Puts a node before the items that are left, so that its item is the next. It takes no memory.
    pub fn link(&mut self, node: Box<Node<T>, Global>)
        requires { length self.old.passed + length self.old.left + 1 < 2 ^ 32 }
        ensures { self.new ≡ linked self.old node.value.item }
    {
        let node = RawBox::from_box(node);
        if self.passed == 0 {
            self.nodes.add_head(node);
        } else {
            self.nodes.add_next(node);
        }
        self.len += 1;
    }
}

impl<T: Drop> Drop for NodeChain<T> {
    fn drop(mut self) {
        self.rewind();
        while self.remaining() > 0 {
            drop(self.take_out());
        }
        let Self {
            nodes: _,
            len: _,
            passed: _,
            alloc: _,
        } = self;
    }
}
