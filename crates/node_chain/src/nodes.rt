//! Nodes that lead from one to the next, with a place among them. Only this file follows pointers.

ghost use Rattle.std.specs.Prelude.{◌≡◌, ◌<◌, List, [], ◌∷◌, ◌++◌, length, reverse};
ghost use denote.RawPtr.{Ptr};
ghost use Rattle.std_alloc.specs.Box.Ownership.{box_owns};
ghost use Rattle.node_chain.specs.Nodes.{both_own, next_lent, nodes_own};

use std::alloc::{Allocator, Global};
use std::marker::Model;
use std::ptr::null_mut;

/// A node of a chain, which holds an item. The last node leads nowhere.
#[derive(Drop)]
pub struct Node<T> {
    pub(crate) next: *mut Node<T>,
    /// The item.
    pub item: T,
}

/// A box as its pointer.
pub(crate) struct RawBox<T, A: Allocator> {
    at: *mut T,
    alloc: A,
    pub(crate) ghost value: { T },
}

impl<T, A: Allocator> Model for RawBox<T, A> {
    ghost also_owns = { λ b. box_owns (A.dealloc_token b.alloc) T.row b.at b.value };
}

impl<T: Drop, A: Allocator> RawBox<T, A> {
    pub(crate) fn from_box(boxed: Box<T, A>) -> RawBox<T, A>
        ensures { result.value ≡ boxed.value }
    {
        let (at, alloc) = Box::into_raw_with_allocator(boxed);
        RawBox { at, alloc }
    }

    pub(crate) fn into_box(self) -> Box<T, A>
        ensures { result.value ≡ self.value }
    {
        let RawBox { at, alloc } = self;
        unsafe { Box::from_raw(alloc, at) }
    }
}

/// Nodes that were passed, and nodes that are left. `head` leads to the first of all, `previous` to the one that was passed last, and `next` to the
/// first that is left; each leads nowhere if there is no such node.
///
/// `passed` are the items that were passed, the last one first, and `priors` the pointers to the node before each; `left` are the items that are
/// left, and `nexts` is where their nodes lead.
///
/// Its drop frees nothing.
#[derive(Drop)]
pub(crate) struct Nodes<T> {
    head: *mut Node<T>,
    previous: *mut Node<T>,
    next: *mut Node<T>,
    ghost priors: { List Ptr },
    ghost passed: { List T },
    ghost nexts: { List Ptr },
    ghost left: { List T },
}

impl<T> Model for Nodes<T> {
    ghost also_owns = { λ s. both_own T.row s.head s.previous s.next s.priors s.passed s.nexts s.left };

    ghost also_shares = { λ s _ κ. next_lent T.row s.next s.nexts s.left κ };
}

unsafe impl<T: Send> Send for Nodes<T> {}

unsafe impl<T: Sync> Sync for Nodes<T> {}

/// Nodes at rest: `head` leads to the first of them. `items` are their items, and `nexts` is where each node leads.
///
/// Its drop frees nothing.
#[derive(Drop)]
pub(crate) struct StoredNodes<T> {
    head: *mut Node<T>,
    ghost nexts: { List Ptr },
    ghost items: { List T },
}

impl<T> Model for StoredNodes<T> {
    ghost also_owns = { λ s. nodes_own T.row s.head s.nexts s.items };
}

unsafe impl<T: Send> Send for StoredNodes<T> {}

impl<T> StoredNodes<T> {
    /// No nodes.
    pub(crate) fn new() -> StoredNodes<T>
        ensures { result.items ≡ [] }
    {
        StoredNodes { head: null_mut() }
    }

    /// The same nodes, all of which are left.
    pub(crate) fn open(self) -> Nodes<T>
        ensures { (result.passed ≡ []) × (result.left ≡ self.items) }
    {
        let StoredNodes { head } = self;
        Nodes {
            head,
            previous: null_mut(),
            next: head,
        }
    }
}

impl<T> Nodes<T> {
    /// No nodes.
    pub(crate) fn new() -> Nodes<T>
        ensures { (result.passed ≡ []) × (result.left ≡ []) }
    {
        Nodes {
            head: null_mut(),
            previous: null_mut(),
            next: null_mut(),
        }
    }

    /// Puts the node before all others. None may have been passed.
    pub(crate) fn add_head(&mut self, node: RawBox<Node<T>, Global>)
        requires { self.old.passed ≡ [] }
        ensures { (self.new.passed ≡ []) × (self.new.left ≡ node.value.item ∷ self.old.left) }
    {
        let RawBox { at, alloc: _ } = node;
        unsafe {
            (*at).next = self.next;
        }
        self.next = at;
        self.head = at;
    }

    /// Puts the node before those that are left. Some must have been passed: the last of them then leads to it.
    pub(crate) fn add_next(&mut self, node: RawBox<Node<T>, Global>)
        requires { 0 < length self.old.passed }
        ensures { (self.new.passed ≡ self.old.passed) × (self.new.left ≡ node.value.item ∷ self.old.left) }
    {
        let RawBox { at, alloc: _ } = node;
        unsafe {
            (*at).next = self.next;
            (*self.previous).next = at;
        }
        self.next = at;
    }

    /// What the first node that is left holds.
    pub(crate) fn next_item(&self) -> &T
        requires { 0 < length self.now.left }
        ensures { (rest : List T) × (self.now.left ≡ result.now ∷ rest) }
    {
        unsafe { &(*self.next).item }
    }

    /// Passes the first node that is left.
    pub(crate) fn keep(&mut self)
        requires { 0 < length self.old.left }
        ensures { (x : T) × (self.old.left ≡ x ∷ self.new.left) × (self.new.passed ≡ x ∷ self.old.passed) }
    {
        let at = self.next;
        self.previous = at;
        unsafe {
            self.next = (*at).next;
        }
    }

    /// Goes back to the first node of all.
    pub(crate) fn rewind(&mut self)
        ensures { (self.new.passed ≡ []) × (self.new.left ≡ reverse self.old.passed ++ self.old.left) }
    {
        self.next = self.head;
    }

    /// The same nodes at rest. None may have been passed.
    pub(crate) fn store(self) -> StoredNodes<T>
        requires { self.passed ≡ [] }
        ensures { result.items ≡ self.left }
    {
        let Nodes {
            head: _,
            previous: _,
            next,
        } = self;
        StoredNodes { head: next }
    }

    /// Takes out the first node of all. None may have been passed.
    pub(crate) fn take_head(&mut self, alloc: Global) -> RawBox<Node<T>, Global>
        requires { (self.old.passed ≡ []) × (0 < length self.old.left) }
        ensures { (self.old.left ≡ result.value.item ∷ self.new.left) × (self.new.passed ≡ []) }
    {
        let at = self.next;
        unsafe {
            self.next = (*at).next;
        }
        self.head = self.next;
        RawBox { at, alloc }
    }

    /// Takes out the first node that is left. Some must have been passed: the last of them then leads to the one after it.
    pub(crate) fn take_next(&mut self, alloc: Global) -> RawBox<Node<T>, Global>
        requires { (0 < length self.old.passed) × (0 < length self.old.left) }
        ensures { (self.old.left ≡ result.value.item ∷ self.new.left) × (self.new.passed ≡ self.old.passed) }
    {
        let at = self.next;
        unsafe {
            self.next = (*at).next;
            (*self.previous).next = self.next;
        }
        RawBox { at, alloc }
    }
}
