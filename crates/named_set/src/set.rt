//! The set: buckets with locks.

ghost use Rattle.std.specs.Prelude.{◌≡◌, ◌⊎◌, ◌+◌, ◌^◌, ◌≤◌, length, map, vec_len, IfErr, IfOk, IfSome, None};
ghost use Rattle.std.specs.List.{AllByRecursion};
ghost use Rattle.text_forms.specs.Faults.{IsInternFault};
ghost use Rattle.text_forms.specs.Layout.{most_buckets};
ghost use Rattle.text_forms.specs.Tables.{entry_hash};
ghost use Rattle.text_forms.specs.declared.faults.Fault.TheVariants.{FullCount, Memory};
ghost use Rattle.named_set.specs.Names.{AreFirst, IsEmpty};
ghost use Rattle.named_set.specs.Words.{IsTicketOf};

use crate::bucket::{Answer, Bucket};
use crate::held::Held;
use crate::index_key::IndexKey;
use crate::locked::LockedBucket;
use crate::name::{FreshName, SetName};
use counted_cell::{CellLog, CellShare, FreeGrant, Receipt};
use std::alloc::Global;
use std::marker::Model;
use std::mem::size_of;
use std::sync::Wait;
use text_forms::Fault;
use text_forms::static_sets::StaticTables;
use text_forms::word::{Buckets, Limits};

/// The texts of the set with this name, in buckets by their hashes, each with a lock of its own. Threads share it. In a clause it is
/// its limits and the bits of the number of its buckets.
#[derive(Drop)]
pub struct NamedSet<Static: StaticTables, N: SetName> {
    buckets: Vec<LockedBucket<Static, N, FreeGrant>>,
    count: Buckets,
    limits: Limits,
    alloc: Global,
}

impl<Static: StaticTables, N: SetName> Model for NamedSet<Static, N> {
    ghost use Rattle.std.specs.Prelude.{◌≡◌, ◌^◌, length, vec_len};
    ghost use Rattle.named_set.specs.Names.{SetValue};

    ghost Value = { SetValue };

    ghost view = { λ s. record { limits = s.limits; bits = s.count } };

    ghost invariant = { λ s. (vec_len s.buckets ≡ 2 ^ s.count) × (length N.logs ≡ 2 ^ s.count) };
}

impl<Static: StaticTables, N: SetName> NamedSet<Static, N> {
    /// The set with this name, without texts. It spends the name, so that the name has no other set. It is refused for `Memory` alone.
    pub fn new(alloc: Global, name: FreshName, limits: Limits) -> Result<Self, Fault>
        requires { N.logs ≡ name.logs }
        ensures limits { IfOk result (λ set. set.limits ≡ limits) }
        ensures bits { IfOk result (λ set. set.bits ≡ name.bits) }
        ensures refused { IfErr result (λ fault. fault ≡ Memory) }
    {
        let FreshName { logs, count, key } = name;
        let buckets = Self::buckets_of(alloc, logs, count, key)?;
        Ok(NamedSet {
            buckets,
            count,
            limits,
            alloc,
        })
    }

    // A bucket for each of the name's logs, in their order, with a lock of its own, whose index hashes under this key. It is refused for
    // `Memory` alone.
    fn buckets_of(
        alloc: Global,
        mut logs: Vec<CellLog>,
        count: Buckets,
        key: IndexKey,
    ) -> Result<Vec<LockedBucket<Static, N, FreeGrant>>, Fault>
        requires names { N.logs ≡ map (λ l. l.name) logs.items }
        requires empty { AllByRecursion IsEmpty logs.items }
        requires number { vec_len logs ≡ 2 ^ count }
        ensures number { IfOk result (λ buckets. (vec_len buckets ≡ vec_len logs) × (length N.logs ≡ vec_len logs)) }
        ensures refused { IfErr result (λ fault. fault ≡ Memory) }
    {
        let mut buckets = Vec::with_capacity(alloc, count.number())?;
        while let Some(bucket) = Self::last_bucket(alloc, &mut logs, key) {
            buckets.push(LockedBucket::new(bucket))?;
        }
        buckets.reverse();
        Ok(buckets)
    }

    // The bucket of the last log, which is taken off the logs.
    fn last_bucket(
        alloc: Global,
        logs: &mut Vec<CellLog>,
        key: IndexKey,
    ) -> Option<Bucket<Static, N, FreeGrant>>
        requires first { AreFirst N.logs logs.old.items }
        requires few { vec_len logs.old ≤ most_buckets }
        ensures first { AreFirst N.logs logs.new.items }
        ensures one { IfSome result (λ _. vec_len logs.new + 1 ≡ vec_len logs.old) }
        ensures none { result ≡ None → vec_len logs.old ≡ 0 }
    {
        let log = logs.pop()?;
        Some(Bucket::new(alloc, logs.len() as u16, log, key))
    }

    /// The limits of its words' holders and of its buckets' serials.
    pub fn limits(&self) -> Limits
        ensures { result ≡ self.now.limits }
    {
        self.limits
    }

    /// What the set takes its memory from.
    pub fn allocator(&self) -> Global {
        self.alloc
    }

    /// A held word of the text.
    ///
    /// `FullCount` if the text's word is held as often as the limits allow, `TicketsSpent` if its bucket has given its last ticket, and
    /// `Memory` if a request for memory is refused. `Memory` would also be returned if the bucket behind the lock had another number than
    /// the one that was asked for. It never has, but no type tells which value lies behind which lock, so a comparison does.
    pub fn intern<'s, R: Wait>(&'s self, rt: &R, text: &str) -> Result<Held<'s, Static, N>, Fault>
        ensures text { IfOk result (λ held. held.text ≡ text.now) }
        ensures refused { IfErr result IsInternFault }
    {
        let (_, hash) = Static::look_up(text);
        self.intern_hashed(rt, text, hash)
    }

    /// `intern` of a text with this hash. Atoms ask for it.
    #[doc(hidden)]
    pub fn intern_hashed<'s, R: Wait>(
        &'s self,
        rt: &R,
        text: &str,
        hash: u64,
    ) -> Result<Held<'s, Static, N>, Fault>
        requires { hash ≡ entry_hash Static.tables text.now }
        ensures text { IfOk result (λ held. held.text ≡ text.now) }
        ensures ticket { IfOk result (λ held. IsTicketOf Static.tables (length N.logs) held.text held.word) }
        ensures refused { IfErr result IsInternFault }
    {
        let number = self.count.bucket_of(hash);
        let bucket = &self.buckets[usize::from(number)];
        match bucket.intern(rt, number, text, hash, &self.limits, FreeGrant) {
            Ok((share, seen)) => Ok(Held::new(share, seen, self)),
            Err((fault, _)) => Err(fault),
        }
    }

    /// The held word of the text. `None` if nobody holds it: nothing is linked, and cells that nobody holds may go.
    ///
    /// `FullCount` if it is held as often as the limits allow, and nothing else.
    pub fn find<'s, R: Wait>(
        &'s self,
        rt: &R,
        text: &str,
    ) -> Result<Option<Held<'s, Static, N>>, Fault>
        ensures text { IfOk result (λ found. IfSome found (λ held. held.text ≡ text.now)) }
        ensures refused { IfErr result (λ fault. fault ≡ FullCount) }
    {
        let (_, hash) = Static::look_up(text);
        self.find_hashed(rt, text, hash)
    }

    /// `find` of a text with this hash. Atoms ask for it.
    #[doc(hidden)]
    pub fn find_hashed<'s, R: Wait>(
        &'s self,
        rt: &R,
        text: &str,
        hash: u64,
    ) -> Result<Option<Held<'s, Static, N>>, Fault>
        requires { hash ≡ entry_hash Static.tables text.now }
        ensures text { IfOk result (λ found. IfSome found (λ held. held.text ≡ text.now)) }
        ensures ticket { IfOk result (λ found. IfSome found (λ held. IsTicketOf Static.tables (length N.logs) held.text held.word)) }
        ensures refused { IfErr result (λ fault. fault ≡ FullCount) }
    {
        let number = self.count.bucket_of(hash);
        let bucket = &self.buckets[usize::from(number)];
        match bucket.find(rt, number, text, hash, FreeGrant) {
            Answer::Held(share, seen) => Ok(Some(Held::new(share, seen, self))),
            Answer::Full(_, _) => Err(Fault::FullCount),
            Answer::Absent(_) => Ok(None),
        }
    }

    /// A held word of the text of one that is held, by a look-up of the text, as `find` does it: it is there, and is the same word.
    ///
    /// `FullCount` if it is held as often as the limits allow. `Memory` would be returned if the bucket behind the lock had another number
    /// than the one that was asked for, as by `intern`; it never has.
    pub fn find_held<'s, 't, R: Wait>(
        &'s self,
        rt: &R,
        held: &Held<'t, Static, N>,
    ) -> Result<Held<'s, Static, N>, Fault>
        ensures word { IfOk result (λ again. again.word ≡ held.now.word) }
        ensures text { IfOk result (λ again. again.text ≡ held.now.text) }
        ensures refused { IfErr result (λ fault. (fault ≡ FullCount) ⊎ (fault ≡ Memory)) }
    {
        let (share, seen) = held.evidence();
        let number = self.count.bucket_of(held.text_hash());
        let bucket = &self.buckets[usize::from(number)];
        let again = match bucket.find_held(rt, number, share, seen, FreeGrant)? {
            Answer::Held(share, seen) => Held::new(share, seen, self),
            Answer::Full(_, _) => return Err(Fault::FullCount),
            Answer::Absent(_) => return Err(Fault::Memory), // never, as its clause `there` says
        };
        again.agree(held);
        Ok(again)
    }

    /// Takes each bucket once, from the first to the last: cells without shares go.
    pub fn sweep<R: Wait>(&self, rt: &R) {
        for bucket in &self.buckets {
            bucket.sweep(rt);
        }
    }

    /// Calls `visit` once for each cell that is linked, with its text and the number of its shares as one look at its count reads it: bucket
    /// by bucket, from the first to the last, each under its lock. In which order a bucket's cells come isn't said.
    ///
    /// A cell that nobody holds any more may still be linked: its number is 0. Beside other threads, which may link and unlink between one
    /// bucket and the next, and count up and down at any time, nothing is said of what is visited. A `visit` that waits for a lock of the
    /// set, as one that interns a text may, can wait for ever, and others with it; it may clone and drop held words.
    pub fn for_each<R: Wait, F: FnMut(&str, u64)>(&self, rt: &R, mut visit: F)
        requires { F.IsAlwaysCallable visit }
    {
        for bucket in &self.buckets {
            bucket.lock(rt).for_each(&mut visit);
        }
    }

    /// The bytes that the set has asked for and still holds: its buckets with their locks, their places for cells, and the cells that are
    /// linked, with their texts. Each bucket is read under its lock.
    ///
    /// The set itself isn't counted, since it lies where its owner put it. An index that `sweep` made smaller is counted so, also if its allocator
    /// refused to shrink the block. Beside other threads, nothing is said of the sum.
    pub fn memory<R: Wait>(&self, rt: &R) -> u128 {
        let bucket_size = size_of::<LockedBucket<Static, N, FreeGrant>>() as u128;
        let mut sum = bucket_size.saturating_mul(self.buckets.capacity() as u128);
        for bucket in &self.buckets {
            sum = sum.saturating_add(bucket.lock(rt).memory());
        }
        sum
    }

    /// How many cells are linked: the sum over the buckets, each read under its lock. Beside other threads nothing is said of it.
    pub fn linked<R: Wait>(&self, rt: &R) -> u128 {
        let mut sum = 0u128;
        for bucket in &self.buckets {
            sum = sum.saturating_add(bucket.lock(rt).len() as u128);
        }
        sum
    }

    /// Gives a share back. If it was its cell's last, tries the lock of the cell's bucket, once, and takes the cell out.
    #[inline]
    pub(crate) fn give_back(&self, share: CellShare) -> Receipt
        ensures { (result.name ≡ share.cell.name) × (result.number ≡ share.number) }
    {
        let hash = share.hash();
        let (receipt, last) = share.give().parts();
        if last.is_some() {
            self.try_take_out(hash);
        }
        receipt
    }

    /// Tries the lock of a hash's bucket, once, and takes out the cell with this hash if it has no share left. It stands apart, so that the
    /// end of a share that isn't the last stays short.
    #[cold]
    #[inline(never)]
    fn try_take_out(&self, hash: u64) {
        let at = usize::from(self.count.bucket_of(hash));
        self.buckets[at].try_take_out(hash);
    }
}
