//! The set: buckets behind locks.

ghost use Rattle.std.specs.Prelude.{◌≡◌, ◌-◌, ◌^◌, true, length, vec_len, IfOk, IfErr, IfSome};
ghost use Rattle.text_forms.specs.Faults.{IsInternFault};
ghost use Rattle.text_forms.specs.Layout.{holder_bound, serial_bound, usual_bits};
ghost use Rattle.text_forms.specs.Tables.{entry_hash};
ghost use Rattle.counted_set.specs.Chain.{IsRight};

use super::bucket::Bucket;
use super::counts::{OwnCounts, Pass};
use super::held::Held;
use super::locked::{find_behind, intern_behind};
use counted_cell::{CellShare, FreeGrant, Receipt};
use std::alloc::Global;
use std::marker::Model;
use std::mem::size_of;
use std::sync::{Mutex, Wait};
use text_forms::Fault;
use text_forms::static_sets::StaticTables;
use text_forms::word::{Buckets, Limits};

/// The dynamic texts of a static type, in buckets by their hashes. Threads share it. In a clause it is its limits and the bits of its number of
/// buckets.
#[derive(Drop)]
pub struct Set<Static: StaticTables> {
    buckets: Vec<Mutex<Bucket<Static>>>,
    count: Buckets,
    limits: Limits,
    alloc: Global,
}

impl<Static: StaticTables> Model for Set<Static> {
    ghost use Rattle.std.specs.Prelude.{◌≡◌, ◌^◌, vec_len};
    ghost use Rattle.counted_set.specs.SetValue.{SetValue};

    ghost Value = { SetValue };

    ghost view = { λ s. record { limits = s.limits; bits = s.count } };

    ghost invariant = { λ s. vec_len s.buckets ≡ 2 ^ s.count };
}

impl<Static: StaticTables> Set<Static> {
    /// An empty set with the greatest limits and the usual number of buckets. The only error is `Memory`.
    pub fn new(alloc: Global) -> Result<Self, Fault>
        ensures limits { IfOk result (λ set. set.limits ≡ record { holders = holder_bound - 1; serials = serial_bound - 1 }) }
        ensures bits { IfOk result (λ set. set.bits ≡ usual_bits) }
        ensures refused { IfErr result (λ fault. fault ≡ Fault.Memory) }
    {
        Self::with_limits(alloc, Limits::greatest())
    }

    /// An empty set with these limits and the usual number of buckets. The only error is `Memory`.
    pub fn with_limits(alloc: Global, limits: Limits) -> Result<Self, Fault>
        ensures limits { IfOk result (λ set. set.limits ≡ limits) }
        ensures bits { IfOk result (λ set. set.bits ≡ usual_bits) }
        ensures refused { IfErr result (λ fault. fault ≡ Fault.Memory) }
    {
        Self::with_buckets(alloc, limits, Buckets::usual())
    }

    /// An empty set with these limits and this many buckets. The only error is `Memory`.
    pub fn with_buckets(alloc: Global, limits: Limits, buckets: Buckets) -> Result<Self, Fault>
        ensures limits { IfOk result (λ set. set.limits ≡ limits) }
        ensures bits { IfOk result (λ set. set.bits ≡ buckets) }
        ensures refused { IfErr result (λ fault. fault ≡ Fault.Memory) }
    {
        Ok(Set {
            buckets: Self::empty_buckets(alloc, buckets)?,
            count: buckets,
            limits,
            alloc,
        })
    }

    /// This many empty buckets, each behind a lock. The only error is `Memory`.
    fn empty_buckets(alloc: Global, count: Buckets) -> Result<Vec<Mutex<Bucket<Static>>>, Fault>
        ensures number { IfOk result (λ buckets. vec_len buckets ≡ 2 ^ count) }
        ensures refused { IfErr result (λ fault. fault ≡ Fault.Memory) }
    {
        let mut buckets = Vec::with_capacity(alloc, count.number())?;
        for _ in 0..count.number() {
            buckets.push(Mutex::new(Bucket::new(alloc, count)))?;
        }
        Ok(buckets)
    }

    /// The limits on its entries' holders and its buckets' serials.
    pub fn limits(&self) -> Limits
        ensures { result ≡ self.now.limits }
    {
        self.limits
    }

    /// What the set takes its memory from.
    pub fn allocator(&self) -> Global {
        self.alloc
    }

    /// The buckets, each behind its lock, for tests of the design: whoever holds a lock keeps all others waiting.
    #[doc(hidden)]
    pub fn buckets(&self) -> &[Mutex<Bucket<Static>>]
        ensures { length result.now ≡ 2 ^ self.now.bits }
    {
        self.buckets.as_slice()
    }

    /// Makes one pass over each bucket, from the first to the last: entries without shares are taken out.
    pub fn sweep<R: Wait>(&self, rt: &R) {
        for bucket in &self.buckets {
            bucket.lock(rt).prune(&mut OwnCounts);
        }
    }

    /// The number of entries that are linked: the sum over the buckets, each read under its lock.
    ///
    /// While other threads link and unlink between one bucket and the next, nothing is said about the sum.
    pub fn linked<R: Wait>(&self, rt: &R) -> u128 {
        let mut sum = 0u128;
        for bucket in &self.buckets {
            sum = sum.saturating_add(bucket.lock(rt).len() as u128);
        }
        sum
    }

    /// Calls `visit` once for each entry that is linked, with its text and the number of its holders as one look at its count reads
    /// it: bucket by bucket, from the first to the last, each under its lock, and newest first within a bucket.
    ///
    /// An entry that nobody holds any more may still be linked: its number is 0. While other threads link and unlink between one bucket and the next,
    /// and count up and down at any time, nothing is said about what is visited. A `visit` that waits for a lock of the set, as one that interns a
    /// text may, can wait forever, and others with it; it may clone and drop atoms.
    pub fn for_each<R: Wait, F: FnMut(&str, u64)>(&self, rt: &R, mut visit: F)
        requires { F.IsAlwaysCallable visit }
    {
        for bucket in &self.buckets {
            bucket.lock(rt).for_each(&mut visit);
        }
    }

    /// The bytes that the set has asked for and still holds: its buckets with their locks, their nodes, and the cells of the entries that are linked,
    /// with their texts. Each bucket is read under its lock.
    ///
    /// The set itself, which is wherever its owner keeps it, isn't counted. While other threads use the set, nothing is said about the sum.
    pub fn memory<R: Wait>(&self, rt: &R) -> u128 {
        let bucket_size = size_of::<Mutex<Bucket<Static>>>() as u128;
        let mut sum = bucket_size.saturating_mul(self.buckets.capacity() as u128);
        for bucket in &self.buckets {
            sum = sum.saturating_add(bucket.lock(rt).memory());
        }
        sum
    }

    /// A share of the entry of a text with this hash, in the bucket of the hash. Atoms call this.
    #[doc(hidden)]
    pub fn intern_hashed<'s, R: Wait>(
        &'s self,
        rt: &R,
        text: &str,
        hash: u64,
    ) -> Result<Held<'s, Static>, Fault>
        requires { hash ≡ entry_hash Static.tables text.now }
        ensures text { IfOk result (λ held. held.text ≡ text.now) }
        ensures right { IfOk result (λ held. IsRight Static.tables held) }
        ensures grows { IfOk result (λ held. held.name.grows ≡ true) }
        ensures refused { IfErr result IsInternFault }
    {
        match intern_behind(rt, self.lock_of(hash), text, hash, &self.limits, FreeGrant) {
            Ok(share) => Ok(Held::new(share, self)),
            Err((fault, _)) => Err(fault),
        }
    }

    /// A share of the entry of a text with this hash, in the bucket of the hash, if one is linked there that isn't dying. Atoms call this.
    #[doc(hidden)]
    pub fn find_hashed<'s, R: Wait>(
        &'s self,
        rt: &R,
        text: &str,
        hash: u64,
    ) -> Result<Option<Held<'s, Static>>, Fault>
        requires { hash ≡ entry_hash Static.tables text.now }
        ensures text { IfOk result (λ found. IfSome found (λ held. held.text ≡ text.now)) }
        ensures right { IfOk result (λ found. IfSome found (λ held. IsRight Static.tables held)) }
        ensures grows { IfOk result (λ found. IfSome found (λ held. held.name.grows ≡ true)) }
        ensures refused { IfErr result (λ fault. fault ≡ Fault.FullCount) }
    {
        match find_behind(rt, self.lock_of(hash), text, hash, FreeGrant) {
            Pass::Found(share) => Ok(Some(Held::new(share, self))),
            Pass::Full(_) => Err(Fault::FullCount),
            Pass::Absent(_) => Ok(None),
        }
    }

    /// The lock of the bucket of a hash.
    #[inline]
    fn lock_of(&self, hash: u64) -> &Mutex<Bucket<Static>> {
        &self.buckets[usize::from(self.count.bucket_of(hash))]
    }

    /// Gives a share back. If it was its entry's last, tries the lock of the entry's bucket once, and prunes the bucket.
    #[inline]
    pub(super) fn give_back(&self, share: CellShare) -> Receipt
        ensures { (result.name ≡ share.cell.name) × (result.number ≡ share.number) }
    {
        let hash = share.hash();
        let (receipt, last) = share.give().parts();
        if last.is_some() {
            self.try_prune(hash);
        }
        receipt
    }

    /// Tries the lock of a hash's bucket once, and prunes the bucket. It is a separate function so that the end of a share that isn't the last stays
    /// short.
    #[cold]
    #[inline(never)]
    fn try_prune(&self, hash: u64) {
        if let Some(mut bucket) = self.lock_of(hash).try_lock() {
            bucket.prune(&mut OwnCounts);
        }
    }
}
