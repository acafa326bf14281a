//! Gates that hold workers until others have come or gone, and note what is linked then.

use std::sync::Wait;
use std::sync::atomic::{AtomicU64, Ordering};
use std::thread::yield_now;
use string_cache::dynamic_set::Set;
use string_cache::{EmptyStaticAtomSet, NamedSet, SetName};
use word_counts::count::Gate;

/// How often a worker that waits for the other looks again, yielding each time.
const TURNS: u64 = 1_000_000;

/// Where the pieces up to a number meet.
#[derive(Drop)]
struct Meeting {
    pieces: u32,
    come: AtomicU64,
    missed: AtomicU64,
}

impl Meeting {
    fn of(pieces: u32) -> Meeting {
        Meeting {
            pieces,
            come: AtomicU64::new(0),
            missed: AtomicU64::new(0),
        }
    }

    /// Holds each of these pieces until all have come. After the last turn it lets go, and notes that.
    fn meet(&self, piece: u32) {
        if piece > self.pieces {
            return;
        }
        self.come.fetch_add(1, Ordering::SeqCst);
        for _ in 0..TURNS {
            if self.come.load(Ordering::SeqCst) >= u64::from(self.pieces) {
                return;
            }
            yield_now();
        }
        self.missed.fetch_add(1, Ordering::SeqCst);
    }

    fn was_missed(&self) -> bool {
        self.missed.load(Ordering::SeqCst) > 0
    }
}

/// A piece's own bit, the first piece's to the right.
fn bit(piece: u32) -> u64 {
    match piece {
        1..=64 => 1 << (piece - 1),
        _ => 0,
    }
}

/// The pieces that came by. As many calls as bits add up to all of these bits only if each piece came once.
#[derive(Drop)]
struct Passed {
    calls: AtomicU64,
    bits: AtomicU64,
}

impl Passed {
    fn new() -> Passed {
        Passed {
            calls: AtomicU64::new(0),
            bits: AtomicU64::new(0),
        }
    }

    fn note(&self, piece: u32) {
        self.calls.fetch_add(1, Ordering::SeqCst);
        self.bits.fetch_add(bit(piece), Ordering::SeqCst);
    }

    /// Whether each of this many pieces came once, and no other.
    fn are_all(&self, pieces: u32) -> bool {
        self.calls.load(Ordering::SeqCst) == u64::from(pieces)
            && self.bits.load(Ordering::SeqCst) == bit(pieces) | bit(pieces).wrapping_sub(1)
    }
}

/// Holds each piece up to a number in `enter` until all of them have come, and notes which enter and leave.
#[derive(Drop)]
pub struct Together {
    meeting: Meeting,
    entered: Passed,
    left: Passed,
}

impl Together {
    pub fn of(pieces: u32) -> Together {
        Together {
            meeting: Meeting::of(pieces),
            entered: Passed::new(),
            left: Passed::new(),
        }
    }

    /// Whether the pieces met, and each of them entered once and left once.
    pub fn met(&self) -> bool {
        let pieces = self.meeting.pieces;
        !self.meeting.was_missed() && self.entered.are_all(pieces) && self.left.are_all(pieces)
    }
}

impl Gate for Together {
    fn enter<R: Wait>(&self, _rt: &R, piece: u32) {
        self.entered.note(piece);
        self.meeting.meet(piece);
    }

    fn leave<R: Wait>(&self, _rt: &R, piece: u32) {
        self.left.note(piece);
    }
}

/// Lets the pieces in one after another, in order, and notes if the entries that are linked as one leaves aren't as many as wanted: its words and
/// those of the pieces before it, all of which are still held.
#[derive(Drop)]
struct Order<'s> {
    wanted: &'s [u64],
    left: AtomicU64,
    missed: AtomicU64,
    others: AtomicU64,
}

impl<'s> Order<'s> {
    fn new(wanted: &'s [u64]) -> Order<'s> {
        Order {
            wanted,
            left: AtomicU64::new(0),
            missed: AtomicU64::new(0),
            others: AtomicU64::new(0),
        }
    }

    /// Lets a piece in once those before it have left.
    fn enter(&self, piece: u32) {
        for _ in 0..TURNS {
            if self.left.load(Ordering::SeqCst).saturating_add(1) == u64::from(piece) {
                return;
            }
            yield_now();
        }
        self.missed.fetch_add(1, Ordering::SeqCst);
    }

    /// Notes that a piece leaves with so many entries linked.
    fn leave(&self, piece: u32, linked: u64) {
        let wanted = piece
            .checked_sub(1)
            .and_then(|i| self.wanted.get(i as usize));
        if wanted != Some(&linked) {
            self.others.fetch_add(1, Ordering::SeqCst);
        }
        self.left.fetch_add(1, Ordering::SeqCst);
    }

    /// The number of pieces that left, each after those before it, with as many entries linked as are wanted.
    fn right(&self) -> Option<u64> {
        if self.missed.load(Ordering::SeqCst) > 0 || self.others.load(Ordering::SeqCst) > 0 {
            return None;
        }
        Some(self.left.load(Ordering::SeqCst))
    }
}

/// The pieces in order, over a set.
#[derive(Drop)]
pub struct InTurn<'s> {
    set: &'s Set<EmptyStaticAtomSet>,
    order: Order<'s>,
}

impl<'s> InTurn<'s> {
    /// With the number that is wanted as each piece leaves.
    pub fn new(set: &'s Set<EmptyStaticAtomSet>, wanted: &'s [u64]) -> InTurn<'s> {
        InTurn {
            set,
            order: Order::new(wanted),
        }
    }

    pub fn right(&self) -> Option<u64> {
        self.order.right()
    }
}

impl Gate for InTurn<'_> {
    fn enter<R: Wait>(&self, _rt: &R, piece: u32) {
        self.order.enter(piece);
    }

    fn leave<R: Wait>(&self, rt: &R, piece: u32) {
        self.order.leave(piece, linked(rt, self.set));
    }
}

/// The same over a set with a name.
#[derive(Drop)]
pub struct NamedInTurn<'s, N: SetName + Send + Sync> {
    set: &'s NamedSet<EmptyStaticAtomSet, N>,
    order: Order<'s>,
}

impl<'s, N: SetName + Send + Sync> NamedInTurn<'s, N> {
    pub fn new(set: &'s NamedSet<EmptyStaticAtomSet, N>, wanted: &'s [u64]) -> NamedInTurn<'s, N> {
        NamedInTurn {
            set,
            order: Order::new(wanted),
        }
    }

    pub fn right(&self) -> Option<u64> {
        self.order.right()
    }
}

impl<N: SetName + Send + Sync> Gate for NamedInTurn<'_, N> {
    fn enter<R: Wait>(&self, _rt: &R, piece: u32) {
        self.order.enter(piece);
    }

    fn leave<R: Wait>(&self, rt: &R, piece: u32) {
        let linked = u64::try_from(self.set.linked(rt)).unwrap_or(u64::MAX);
        self.order.leave(piece, linked);
    }
}

/// Holds each of pieces 1 and 2 in `leave` until both have come, and then notes how many entries are
/// linked.
#[derive(Drop)]
pub struct BothLeave<'s> {
    set: &'s Set<EmptyStaticAtomSet>,
    meeting: Meeting,
    linked: AtomicU64,
}

impl<'s> BothLeave<'s> {
    pub fn new(set: &'s Set<EmptyStaticAtomSet>) -> BothLeave<'s> {
        BothLeave {
            set,
            meeting: Meeting::of(2),
            linked: AtomicU64::new(0),
        }
    }

    pub fn was_missed(&self) -> bool {
        self.meeting.was_missed()
    }

    pub fn linked(&self) -> u64 {
        self.linked.load(Ordering::SeqCst)
    }
}

impl Gate for BothLeave<'_> {
    fn enter<R: Wait>(&self, _rt: &R, _piece: u32) {}

    fn leave<R: Wait>(&self, rt: &R, piece: u32) {
        self.meeting.meet(piece);
        self.linked.store(linked(rt, self.set), Ordering::SeqCst);
    }
}

/// Notes how many entries are linked as a worker enters, and as one leaves, and how often they do.
#[derive(Drop)]
pub struct Watch<'s> {
    set: &'s Set<EmptyStaticAtomSet>,
    entered: AtomicU64,
    linked_in: AtomicU64,
    left: AtomicU64,
    linked_out: AtomicU64,
}

impl<'s> Watch<'s> {
    pub fn new(set: &'s Set<EmptyStaticAtomSet>) -> Watch<'s> {
        Watch {
            set,
            entered: AtomicU64::new(0),
            linked_in: AtomicU64::new(0),
            left: AtomicU64::new(0),
            linked_out: AtomicU64::new(0),
        }
    }

    /// How often workers entered and left.
    pub fn passed(&self) -> (u64, u64) {
        (
            self.entered.load(Ordering::SeqCst),
            self.left.load(Ordering::SeqCst),
        )
    }

    /// How many entries were linked when the last worker entered, and when the last one left.
    pub fn linked(&self) -> (u64, u64) {
        (
            self.linked_in.load(Ordering::SeqCst),
            self.linked_out.load(Ordering::SeqCst),
        )
    }
}

impl Gate for Watch<'_> {
    fn enter<R: Wait>(&self, rt: &R, _piece: u32) {
        self.entered.fetch_add(1, Ordering::SeqCst);
        self.linked_in.store(linked(rt, self.set), Ordering::SeqCst);
    }

    fn leave<R: Wait>(&self, rt: &R, _piece: u32) {
        self.left.fetch_add(1, Ordering::SeqCst);
        self.linked_out
            .store(linked(rt, self.set), Ordering::SeqCst);
    }
}

fn linked<R: Wait>(rt: &R, set: &Set<EmptyStaticAtomSet>) -> u64 {
    u64::try_from(set.linked(rt)).unwrap_or(u64::MAX)
}
