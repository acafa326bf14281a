//! A bucket: what one lock holds.

ghost use Rattle.std.specs.Prelude.{◌≡◌, ◌+◌, ◌^◌, ◌<◌, ◌≤◌, [], ◌∷◌, ◌++◌, length, IfOk, IfErr, Some, None};
ghost use Rattle.std.specs.List.{AllByRecursion};
ghost use Rattle.text_forms.specs.Layout.{holder_bound, serial_bound};
ghost use Rattle.text_forms.specs.Pass.{absent};
ghost use Rattle.text_forms.specs.Tables.{entry_hash};
ghost use Rattle.counted_set.specs.Chain.{IsKept, IsRightOf};
ghost use Rattle.counted_set.specs.Counted.{GivesShares, IfDying, IfFound, IsPass, ShowsFirst, found_by};
ghost use Rattle.counted_set.specs.Link.{IsLink, IsIntern, answer_of, next_entry};
ghost use Rattle.counted_set.specs.Memory.{IsMemory};
ghost use Rattle.counted_set.specs.PassLeft.{GoesOnAfter, IsPassLeft};
ghost use Rattle.counted_set.specs.Quiet.{PassesOthers};
ghost use Rattle.counted_set.specs.Visits.{VisitsEach};
ghost use Rattle.node_chain.specs.Walked.{at_start, passed_by};

use super::counts::{CountReply, Counts, Pass};
use super::entries::Entries;
use super::quiet::Met;
use super::share::{Entry, Share};
use super::visits::{memory_of, number_of, visit_each};
use counted_cell::{FreeGrant, Grant};
use node_chain::{Pack, StoredChain};
use std::alloc::{AllocError, AllocFailed, Global};
use std::marker::{Model, PhantomData};
use std::mem::replace;
use std::sync::Wait;
use text_forms::Fault;
use text_forms::static_sets::StaticTables;
use text_forms::word::{Buckets, Limits, ticket_word};

/// What one lock of a set holds: entries, newest first, and the last serial that it gave.
///
/// It is one of some number of buckets. Each entry names that number, its hash is that of its text, its ticket is that of its serial in the bucket of
/// the hash, and no serial is given twice. Which lock a bucket is under isn't known here.
///
/// Its entries are at rest: a walk over them takes them out, and puts them back. So it has 24 bytes. A share may be added to each entry by a grant of
/// the second type.
pub struct Bucket<Static: StaticTables, G: Grant = FreeGrant> {
    nodes: StoredChain<Pack<Entry>>,
    last: u64,
    number: u32, // of nodes
    buckets: Buckets,
    alloc: Global,
    of: PhantomData<(Static, G)>,
}

impl<Static: StaticTables, G: Grant> Model for Bucket<Static, G> {
    ghost use Rattle.counted_set.specs.Chain.{Chain, IsKept};
    ghost use Rattle.counted_set.specs.Stored.{AreStored};
    ghost use Rattle.node_chain.specs.Packs.{joined};

    ghost Value = { Chain };

    ghost view = { λ b. record { bits = b.buckets; entries = joined b.nodes; last = b.last } };

    ghost invariant = { λ b. AreStored b.number b.nodes × IsKept Static.tables G.may (record { bits = b.buckets; entries = joined b.nodes; last = b.last }) };
}

impl<Static: StaticTables, G: Grant> Drop for Bucket<Static, G> {
    fn drop(mut self) {
        drop(self.take_entries());
        let Self {
            nodes: _,
            last: _,
            number: _,
            buckets: _,
            alloc: _,
            of: _,
        } = self;
    }
}

impl<Static: StaticTables, G: Grant> Bucket<Static, G> {
    /// An empty bucket, one of this many, which has given no serial yet.
    pub fn new(alloc: Global, buckets: Buckets) -> Self
        ensures { result ≡ record { bits = buckets; entries = []; last = 0 } }
    {
        Bucket {
            nodes: StoredChain::new(),
            last: 0,
            number: 0,
            buckets,
            alloc,
            of: PhantomData,
        }
    }

    /// The number of entries that are linked. The bucket stays as it was.
    #[doc(hidden)]
    pub fn len(&mut self) -> usize
        ensures number { result ≡ length self.old.entries }
        ensures same { self.new ≡ self.old }
    {
        let mut entries = self.take_entries();
        let number = number_of(&mut entries);
        self.put_entries(entries);
        number
    }

    /// Takes out its entries for a walk, which begins at the first. The bucket has none until it gets them back.
    fn take_entries(&mut self) -> Entries
        ensures entries { result ≡ at_start self.old.entries }
        ensures kept { IsKept Static.tables G.may self.old }
        ensures few { length self.old.entries < 2 ^ 64 }
        ensures left { self.new ≡ record { bits = self.old.bits; entries = []; last = self.old.last } }
    {
        let nodes = replace(&mut self.nodes, StoredChain::new());
        let number = replace(&mut self.number, 0);
        Entries::open(nodes, number, self.alloc)
    }

    /// Puts entries back, from the first on, replacing those that it had.
    fn put_entries(&mut self, entries: Entries)
        requires { IsKept Static.tables G.may (record { bits = self.old.bits; entries = entries.passed ++ entries.left; last = self.old.last }) }
        ensures { self.new ≡ record { bits = self.old.bits; entries = entries.passed ++ entries.left; last = self.old.last } }
    {
        let (nodes, number) = entries.store();
        self.nodes = nodes;
        self.number = number;
    }

    /// One pass over all entries, which looks for the text: asks `counts` about each in order, and unlinks those that it reports as dying. Entries of
    /// the text are asked by `add` until one was added or is full, and all others by `dying`. `hash` is that of the text: its `entry_hash` under the
    /// key of the tables.
    ///
    /// It takes no memory. What stays linked stays in order. The grant is spent if a share was added, and handed back otherwise.
    pub fn pass<R: Wait, C: Counts<G>>(
        &mut self,
        rt: &R,
        text: &str,
        hash: u64,
        counts: &mut C,
        grant: G,
    ) -> Pass<C::Share, G>
        requires { hash ≡ entry_hash Static.tables text.now }
        ensures pass { IsPass C.gives (Some text.now) counts.old self.old.entries (found_by result) counts.new self.new.entries }
        ensures bits { self.new.bits ≡ self.old.bits }
        ensures last { self.new.last ≡ self.old.last }
    {
        let mut entries = self.take_entries();
        let answer = pass_left(rt, &mut entries, text, hash, counts, grant);
        self.put_entries(entries);
        answer
    }

    /// One pass over all entries, which looks for no text: asks `counts` about each by `dying`, and unlinks those that are.
    pub fn prune<C: Counts<G>>(&mut self, counts: &mut C)
        ensures pass { IsPass C.gives None counts.old self.old.entries absent counts.new self.new.entries }
        ensures bits { self.new.bits ≡ self.old.bits }
        ensures last { self.new.last ≡ self.old.last }
    {
        let mut entries = self.take_entries();
        prune_left(&mut entries, counts);
        self.put_entries(entries);
    }

    /// Calls `visit` once for each entry, newest first, with its text and the number of its holders as one look at its count reads it. The bucket
    /// stays as it was.
    pub fn for_each<F: FnMut(&str, u64)>(&mut self, visit: &mut F)
        requires { F.IsAlwaysCallable visit.old }
        ensures callable { F.IsAlwaysCallable visit.new }
        ensures visits { VisitsEach F.FnMut visit.old self.old.entries visit.new }
        ensures same { self.new ≡ self.old }
    {
        let mut entries = self.take_entries();
        visit_each(&mut entries, visit);
        self.put_entries(entries);
    }

    /// The bytes of its nodes, and of the cells of its entries with their texts. The bucket stays as it was.
    pub fn memory(&mut self) -> u128
        ensures memory { IsMemory self.old.entries result }
        ensures same { self.new ≡ self.old }
    {
        let mut entries = self.take_entries();
        let bytes = memory_of(&mut entries);
        self.put_entries(entries);
        bytes
    }

    /// Links a new entry as the first, with the next serial, and returns its only share. `hash` is that of the text, as for `pass`. The entry's limit
    /// of holders is that of `limits`.
    ///
    /// Returns `TicketsSpent` exactly if the last serial isn't below the limit; any other refusal is `Memory`. A refusal leaves the bucket as it was,
    /// and hands the grant back.
    pub fn link(
        &mut self,
        text: &str,
        hash: u64,
        limits: &Limits,
        grant: G,
    ) -> Result<Share, (Fault, G)>
        requires { hash ≡ entry_hash Static.tables text.now }
        ensures link { IsLink limits.now text.now hash self.old (answer_of result) self.new }
        ensures right { IfOk result (λ s. IsRightOf Static.tables G.may self.old.bits s) }
    {
        match self.link_next(text, hash, limits) {
            Ok(share) => Ok(share),
            Err(fault) => Err((fault, grant)),
        }
    }

    /// The same without a grant.
    fn link_next(&mut self, text: &str, hash: u64, limits: &Limits) -> Result<Share, Fault>
        requires { hash ≡ entry_hash Static.tables text.now }
        ensures link { IsLink limits.now text.now hash self.old result self.new }
        ensures right { IfOk result (λ s. IsRightOf Static.tables G.may self.old.bits s) }
    {
        let greatest = limits.serials();
        if self.last >= greatest {
            return Err(Fault::TicketsSpent);
        }
        let serial = self.last + 1;
        let (entry, share) = self.made_entry(serial, text, hash, limits.holders())?;
        Ok(self.link_shared(entry, share, serial)?)
    }

    /// The entry of the text to link next, with the next serial, and its only share. `hash` is that of the text.
    fn made_entry(
        &self,
        serial: u64,
        text: &str,
        hash: u64,
        holders: u64,
    ) -> Result<(Entry, Share), AllocError>
        requires next { serial ≡ self.now.last + 1 }
        requires below { serial < serial_bound }
        requires hash { hash ≡ entry_hash Static.tables text.now }
        requires holders { (1 ≤ holders) × (holders < holder_bound) }
        ensures entry { IfOk result (λ made. made.0 ≡ next_entry self.now text.now hash holders made.0.name) }
        ensures share { IfOk result (λ made. made.1 ≡ made.0) }
        ensures right { IfOk result (λ made. IsRightOf Static.tables G.may self.now.bits made.1) }
        ensures kept { IfOk result (λ made. IsKept Static.tables G.may (record { bits = self.now.bits; entries = made.0 ∷ self.now.entries; last = serial })) }
    {
        let ticket = ticket_word(serial, self.buckets.bucket_of(hash));
        Entry::new::<G>(self.alloc, self.buckets, ticket, text, hash, holders)
    }

    /// Links an entry with this serial as the first, and returns its only share. A refusal changes nothing.
    fn link_shared(&mut self, entry: Entry, share: Share, serial: u64) -> Result<Share, AllocError>
        requires { IsKept Static.tables G.may (record { bits = self.old.bits; entries = entry ∷ self.old.entries; last = serial }) }
        ensures linked { IfOk result (λ s. (s ≡ share) × (self.new ≡ record { bits = self.old.bits; entries = entry ∷ self.old.entries; last = serial })) }
        ensures refused { IfErr result (λ _. self.new ≡ self.old) }
    {
        if let Err(refused) = self.link_entry(entry, serial) {
            // The share goes first, so that the entry ends without any.
            drop(share);
            drop(refused);
            return Err(AllocError);
        }
        Ok(share)
    }

    /// Links an entry with this serial as the first. A refusal changes nothing, and gives the entry back.
    fn link_entry(&mut self, entry: Entry, serial: u64) -> Result<(), AllocFailed<Entry>>
        requires { IsKept Static.tables G.may (record { bits = self.old.bits; entries = entry ∷ self.old.entries; last = serial }) }
        ensures linked { IfOk result (λ _. self.new ≡ record { bits = self.old.bits; entries = entry ∷ self.old.entries; last = serial }) }
        ensures refused { IfErr result (λ e. (e.value ≡ entry) × (self.new ≡ self.old)) }
    {
        let mut entries = self.take_entries();
        match entries.add_head(entry) {
            Ok(()) => {
                self.last = serial;
                self.put_entries(entries);
                Ok(())
            }
            Err(refused) => {
                self.put_entries(entries);
                Err(refused)
            }
        }
    }

    /// A pass for the text, by counts whose shares are those of entries, and no more: nothing is linked. `hash` is that of the text, as for `pass`.
    /// If the counts give shares of the entries that they are asked about, what it finds is a share of the text.
    pub fn find<R: Wait, C: Counts<G, Share = Share>>(
        &mut self,
        rt: &R,
        text: &str,
        hash: u64,
        counts: &mut C,
        grant: G,
    ) -> Pass<Share, G>
        requires { hash ≡ entry_hash Static.tables text.now }
        ensures pass { IsPass C.gives (Some text.now) counts.old self.old.entries (found_by result) counts.new self.new.entries }
        ensures bits { self.new.bits ≡ self.old.bits }
        ensures last { self.new.last ≡ self.old.last }
        ensures share { GivesShares C.gives → IfFound (found_by result) (λ s. (s.text ≡ text.now) × IsRightOf Static.tables G.may self.old.bits s) }
    {
        let _ = &self.nodes; // so that the proof sees what the bucket keeps
        self.pass(rt, text, hash, counts, grant)
    }

    /// A pass for the text, which goes on to `link` if it is absent. `hash` is that of the text, as for `pass`.
    ///
    /// Returns the share that the pass found, and `FullCount` if the pass found the entry full. Other refusals are those of `link`. If the counts
    /// give shares of the entries that they are asked about, the share is of the text. A refusal hands the grant back.
    pub fn intern<R: Wait, C: Counts<G, Share = Share>>(
        &mut self,
        rt: &R,
        text: &str,
        hash: u64,
        limits: &Limits,
        counts: &mut C,
        grant: G,
    ) -> Result<Share, (Fault, G)>
        requires { hash ≡ entry_hash Static.tables text.now }
        ensures intern { IsIntern C.gives limits.now text.now hash counts.old self.old (answer_of result) counts.new self.new }
        ensures share { GivesShares C.gives → IfOk result (λ s. (s.text ≡ text.now) × IsRightOf Static.tables G.may self.old.bits s) }
    {
        match self.find(rt, text, hash, counts, grant) {
            Pass::Found(share) => Ok(share),
            Pass::Full(grant) => Err((Fault::FullCount, grant)),
            Pass::Absent(grant) => self.link(text, hash, limits, grant),
        }
    }
}

// What a pass does after the reply about an entry of the text: it has its answer, or goes on with the grant.
enum Next<S, G> {
    Answer(Pass<S, G>),
    GoOn(G),
}

// Goes over the entries that are left as a pass for the text does.
fn pass_left<R: Wait, G: Grant, C: Counts<G>>(
    rt: &R,
    entries: &mut Entries,
    text: &str,
    hash: u64,
    counts: &mut C,
    grant: G,
) -> Pass<C::Share, G>
    requires { AllByRecursion (λ e. (e.text ≡ text.now → e.hash ≡ hash) × G.may e.name) entries.old.left }
    ensures { IsPassLeft C.gives (Some text.now) counts.old entries.old (found_by result) counts.new entries.new }
{
    let mut unspent = grant;
    while let Some(entry) = entries.look() {
        if entry.is_of(text, hash) {
            let reply = counts.add(rt, entry, unspent);
            match go_on_after(reply, entries, counts) {
                Next::Answer(answer) => return answer,
                Next::GoOn(grant) => unspent = grant,
            }
        } else if !entry.has_hash(hash) {
            pass_others(hash, entries, counts);
        } else {
            match counts.dying(entry) {
                Some(gone) => entries.take_out::<G, C>(gone),
                None => entries.keep(),
            }
        }
    }
    Pass::Absent(unspent)
}

// Goes on after this reply about the next entry, which is of the text. A dying entry is taken out, and the pass has no answer yet. Any other reply is
// the answer, and dying entries after this one are taken out.
#[inline]
fn go_on_after<G: Grant, C: Counts<G>>(
    reply: CountReply<C::Share, C::Gone, C::Full, G>,
    asked: &mut Entries,
    counts: &mut C,
) -> Next<C::Share, G>
    requires some { 0 < length asked.old.left }
    requires dying { IfDying reply (λ gone. ShowsFirst C.shows_gone gone asked.old.left) }
    ensures { GoesOnAfter C.gives reply counts.old asked.old result counts.new asked.new }
{
    match reply {
        CountReply::Added(share) => {
            prune_after(asked, counts);
            Next::Answer(Pass::Found(share))
        }
        CountReply::Full(_, grant) => {
            prune_after(asked, counts);
            Next::Answer(Pass::Full(grant))
        }
        CountReply::Dying(gone, grant) => {
            asked.take_out::<G, C>(gone);
            Next::GoOn(grant)
        }
    }
}

// Passes the entries of the next node that don't have the hash, and takes out the first that is dying.
#[inline(always)] // as `keep_quiet` is
fn pass_others<G: Grant, C: Counts<G>>(hash: u64, entries: &mut Entries, counts: &mut C)
    ensures { PassesOthers C.gives C.shows_gone (Some hash) counts.old entries.old counts.new entries.new }
{
    match entries.keep_quiet(Some(hash), counts) {
        Some(Met::Dying(_, gone)) => entries.take_out::<G, C>(gone),
        Some(Met::Nothing) => {}
        Some(Met::Alike(_)) => {}
        None => {}
    }
}

// Takes out the dying entries after the next one. Often there are none after it, and then nothing moves.
#[inline]
fn prune_after<G: Grant, C: Counts<G>>(decided: &mut Entries, counts: &mut C)
    requires { 0 < length decided.old.left }
    ensures { IsPassLeft C.gives None counts.old (passed_by decided.old decided.old.left) absent counts.new decided.new }
{
    if decided.has_more() {
        prune_behind(decided, counts);
    }
}

// Passes the next entry, and takes out the dying ones after it.
#[inline(never)]
fn prune_behind<G: Grant, C: Counts<G>>(decided: &mut Entries, counts: &mut C)
    requires { 0 < length decided.old.left }
    ensures { IsPassLeft C.gives None counts.old (passed_by decided.old decided.old.left) absent counts.new decided.new }
{
    decided.keep();
    prune_left(decided, counts);
}

// Takes out the dying ones among the entries that are left.
fn prune_left<G: Grant, C: Counts<G>>(entries: &mut Entries, counts: &mut C)
    ensures { IsPassLeft C.gives None counts.old entries.old absent counts.new entries.new }
{
    while let Some(met) = entries.keep_quiet(None, counts) {
        match met {
            Met::Nothing => {}
            Met::Dying(_, gone) => entries.take_out::<G, C>(gone),
            Met::Alike(_) => unreachable!(),
        }
    }
}
