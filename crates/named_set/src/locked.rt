//! A bucket with its lock, and beside the lock a note of the cells that couldn't be taken out while another had it.
//!
//! Calls behind the lock are stated for every grant, so none can add a share but the one that it gives. A bucket is asked for its number
//! first. It always has the number by which it is asked, but no type tells which value lies behind which lock.

ghost use Rattle.std.specs.Prelude.{◌≡◌, length, IfErr, IfOk};
ghost use Rattle.text_forms.specs.Faults.{IsInternFault};
ghost use Rattle.text_forms.specs.Tables.{bucket_of, entry_hash};
ghost use Rattle.text_forms.specs.declared.faults.Fault.TheVariants.{Memory};
ghost use Rattle.named_set.specs.Answers.{IfAbsent, IfHeld};
ghost use Rattle.named_set.specs.Logged.{IsSeen};

use crate::bucket::{Answer, Bucket};
use crate::name::SetName;
use counted_cell::{CellShare, Grant, LogSeen};
use std::sync::atomic::{AtomicU64, Ordering};
use std::sync::{Mutex, MutexGuard, Wait};
use text_forms::Fault;
use text_forms::static_sets::StaticTables;
use text_forms::word::Limits;

/// That no cell was left.
const NOTHING: u64 = 0;

/// That more than one cell was left, or one whose hash is one of these two numbers.
const SEVERAL: u64 = u64::MAX;

/// A bucket with its lock.
///
/// A last holder's end that finds the lock taken leaves its cell linked, and notes the hash of its text. The next interning or look-up that
/// has the lock takes that cell out. If several were left meanwhile, it and those after it look at some places each, until all were seen.
#[derive(Drop)]
pub struct LockedBucket<Static: StaticTables, N: SetName, G: Grant> {
    bucket: Mutex<Bucket<Static, N, G>>,
    left: AtomicU64, // `NOTHING`, `SEVERAL`, or the hash of the text whose cell was left
}

impl<Static: StaticTables, N: SetName, G: Grant> LockedBucket<Static, N, G> {
    pub(crate) fn new(bucket: Bucket<Static, N, G>) -> Self {
        LockedBucket {
            bucket: Mutex::new(bucket),
            left: AtomicU64::new(NOTHING),
        }
    }

    /// The bucket behind its lock, as it is.
    pub(crate) fn lock<'b, R: Wait>(&'b self, rt: &R) -> MutexGuard<'b, Bucket<Static, N, G>> {
        self.bucket.lock(rt)
    }

    /// A share of the cell of a text with this hash, whose bucket has this number. It is linked within these limits if there is none. A
    /// refusal hands the grant back.
    pub(crate) fn intern<R: Wait>(
        &self,
        rt: &R,
        number: u16,
        text: &str,
        hash: u64,
        limits: &Limits,
        grant: G,
    ) -> Result<(CellShare, LogSeen), (Fault, G)>
        requires hash { hash ≡ entry_hash Static.tables text.now }
        requires here { bucket_of Static.tables (length N.logs) text.now ≡ number }
        ensures text { IfOk result (λ made. made.0.cell.text ≡ text.now) }
        ensures seen { IfOk result (λ made. IsSeen Static.tables N.logs made.1 made.0.cell) }
        ensures may { IfOk result (λ made. G.may made.0.cell.name) }
        ensures refused { IfErr result (λ refused. IsInternFault refused.0) }
    {
        let mut bucket = self.lock_tidied(rt);
        if bucket.number() != number {
            return Err((Fault::Memory, grant));
        }
        bucket.intern(rt, text, hash, limits, grant)
    }

    /// A share of the cell of a text with this hash, whose bucket has this number, if one is linked that has a share.
    pub(crate) fn find<R: Wait>(
        &self,
        rt: &R,
        number: u16,
        text: &str,
        hash: u64,
        grant: G,
    ) -> Answer<G>
        requires hash { hash ≡ entry_hash Static.tables text.now }
        requires here { bucket_of Static.tables (length N.logs) text.now ≡ number }
        ensures text { IfHeld result (λ share _. share.cell.text ≡ text.now) }
        ensures seen { IfHeld result (λ share seen. IsSeen Static.tables N.logs seen share.cell) }
        ensures may { IfHeld result (λ share _. G.may share.cell.name) }
    {
        let mut bucket = self.lock_tidied(rt);
        if bucket.number() != number {
            return Answer::Absent(grant);
        }
        bucket.find(rt, text, hash, grant)
    }

    /// `find` of the text of a cell that is held, whose bucket has this number: the cell is there. It would be refused for `Memory` if the
    /// bucket behind the lock had another number.
    pub(crate) fn find_held<R: Wait>(
        &self,
        rt: &R,
        number: u16,
        held: &CellShare,
        seen: &LogSeen,
        grant: G,
    ) -> Result<Answer<G>, Fault>
        requires seen { IsSeen Static.tables N.logs seen.now held.now.cell }
        requires here { bucket_of Static.tables (length N.logs) held.now.cell.text ≡ number }
        ensures text { IfOk result (λ answer. IfHeld answer (λ share _. share.cell.text ≡ held.now.cell.text)) }
        ensures seen { IfOk result (λ answer. IfHeld answer (λ share seen. IsSeen Static.tables N.logs seen share.cell)) }
        ensures may { IfOk result (λ answer. IfHeld answer (λ share _. G.may share.cell.name)) }
        ensures there { IfOk result (λ answer. IfAbsent answer ⊥) }
        ensures refused { IfErr result (λ fault. fault ≡ Memory) }
    {
        let mut bucket = self.lock_tidied(rt);
        if bucket.number() != number {
            return Err(Fault::Memory);
        }
        Ok(bucket.find_held(rt, held, seen, grant))
    }

    /// Takes out each cell that has no share left.
    pub(crate) fn sweep<R: Wait>(&self, rt: &R) {
        let mut bucket = self.bucket.lock(rt);
        self.left.store(NOTHING, Ordering::SeqCst);
        bucket.sweep();
    }

    /// Tries the lock, once: if it is free, takes out the cell with this hash if it has no share left, and otherwise notes the hash for the
    /// next call that has the lock. It never waits.
    pub(crate) fn try_take_out(&self, hash: u64) {
        match self.bucket.try_lock() {
            Some(mut bucket) => bucket.take_left(hash),
            None => self.note(hash),
        }
    }

    // The bucket behind its lock, without the cell that was left. If several were, it looks at some places.
    fn lock_tidied<'b, R: Wait>(&'b self, rt: &R) -> MutexGuard<'b, Bucket<Static, N, G>> {
        let mut bucket = self.bucket.lock(rt);
        if self.left.load(Ordering::SeqCst) != NOTHING {
            self.take_noted(&mut bucket);
        }
        bucket.look_on();
        bucket
    }

    // Takes out of the bucket what was noted, and notes that nothing is left.
    #[cold]
    #[inline(never)]
    fn take_noted(&self, bucket: &mut Bucket<Static, N, G>) {
        match self.left.swap(NOTHING, Ordering::SeqCst) {
            NOTHING => {}
            SEVERAL => bucket.look_at_all(),
            hash => bucket.take_left(hash),
        }
    }

    // Notes that the cell with this hash was left.
    fn note(&self, hash: u64) {
        let alone = hash != NOTHING
            && hash != SEVERAL
            && self
                .left
                .compare_exchange(NOTHING, hash, Ordering::SeqCst, Ordering::SeqCst)
                .is_ok();
        if !alone {
            self.left.store(SEVERAL, Ordering::SeqCst);
        }
    }
}
