//! One bucket: passes with counts that are made up, its shares, and its serials.

mod links;
mod many;

use crate::assert_that;
use std::alloc::Global;
use std::process::Abort;
use std::sync::Wait;
use string_cache::Fault;
use string_cache::dynamic_set::{
    Bucket, CountReply, Counts, Entry, FreeGrant, Grant, OwnCounts, Pass, Share,
};
use string_cache::static_sets::EmptyStaticAtomSet;
use string_cache::word::{Buckets, Limits, ticket_word};
use test_calls::{hash_of, links};

/// Looks only at tickets, and gives one as its share. For entries that aren't named, `add` answers that they are dying, and `dying` that they stay;
/// `dying` notes the first three that it is asked about.
#[derive(Drop)]
struct Fake {
    added: u64,
    full: u64,
    gone: u64,
    tickets: [u64; 3],
    asked: usize,
}

impl Fake {
    fn new(added: u64, full: u64, gone: u64) -> Self {
        Fake {
            added,
            full,
            gone,
            tickets: [0; 3],
            asked: 0,
        }
    }
}

impl<G: Grant> Counts<G> for Fake {
    ghost use Rattle.std.specs.Prelude.{⊤};

    type Share = u64;

    type Gone = ();

    type Full = ();

    ghost gives = { λ _ _ _ _. ⊤ };

    ghost shows_gone = { λ _ _. ⊤ };

    ghost shows_full = { λ _ _. ⊤ };

    fn add<R: Wait>(&mut self, _rt: &R, entry: &Entry, grant: G) -> CountReply<u64, (), (), G> {
        match entry.ticket() {
            ticket if ticket == self.added => CountReply::Added(ticket),
            ticket if ticket == self.full => CountReply::Full((), grant),
            _ => CountReply::Dying((), grant),
        }
    }

    fn dying(&mut self, entry: &Entry) -> Option<()> {
        let ticket = entry.ticket();
        if let Some(place) = self.tickets.get_mut(self.asked) {
            *place = ticket;
        }
        self.asked = self.asked.saturating_add(1);
        if ticket == self.gone { Some(()) } else { None }
    }
}

/// The tickets of a bucket's entries, newest first, followed by zeros.
fn tickets(bucket: &mut Bucket<EmptyStaticAtomSet>) -> [u64; 3] {
    let mut fake = Fake::new(0, 0, 0);
    bucket.prune(&mut fake);
    fake.tickets
}

fn new_bucket(alloc: Global) -> Bucket<EmptyStaticAtomSet> {
    Bucket::new(alloc, Buckets::usual())
}

fn link(
    bucket: &mut Bucket<EmptyStaticAtomSet>,
    text: &str,
    limits: &Limits,
) -> Result<Share, Fault> {
    let hash = hash_of::<EmptyStaticAtomSet>(text);
    without_grant(bucket.link(text, hash, limits, FreeGrant))
}

/// What was answered, without the grant that a refusal hands back.
fn without_grant(answer: Result<Share, (Fault, FreeGrant)>) -> Result<Share, Fault> {
    match answer {
        Ok(share) => Ok(share),
        Err((fault, _)) => Err(fault),
    }
}

fn pass<R: Wait, C: Counts<FreeGrant>>(
    rt: &R,
    bucket: &mut Bucket<EmptyStaticAtomSet>,
    text: &str,
    counts: &mut C,
) -> Pass<C::Share, FreeGrant> {
    let hash = hash_of::<EmptyStaticAtomSet>(text);
    bucket.pass(rt, text, hash, counts, FreeGrant)
}

/// The ticket that was found; 1 if the entry is full, and 0 if there is none.
fn found(answer: Pass<u64, FreeGrant>) -> u64 {
    match answer {
        Pass::Found(ticket) => ticket,
        Pass::Full(_) => 1,
        Pass::Absent(_) => 0,
    }
}

/// Links "tokenised" within these limits, under this ticket.
fn link_within(
    rt: &impl Abort,
    bucket: &mut Bucket<EmptyStaticAtomSet>,
    limits: &Limits,
    ticket: u64,
) -> Share {
    let share = link(bucket, "tokenised", limits).expect(rt, "an answer");
    check_share(rt, &share, "tokenised", ticket);
    share
}

fn link_as(rt: &impl Abort, bucket: &mut Bucket<EmptyStaticAtomSet>, ticket: u64) -> Share {
    link_within(rt, bucket, &Limits::greatest(), ticket)
}

/// Whether the share is of the text, under the ticket.
fn is_share(share: &Share, text: &str, ticket: u64) -> bool {
    share.text() == text && share.ticket() == ticket
}

/// Whether shares of "tokenised" keep their text and their tickets.
fn stay(one: &Share, two: &Share, three: &Share) -> bool {
    is_share(one, "tokenised", FIRST)
        && is_share(two, "tokenised", SECOND)
        && is_share(three, "tokenised", THIRD)
}

/// What a pass finds for "tokenised".
fn finds<R: Wait>(rt: &R, bucket: &mut Bucket<EmptyStaticAtomSet>, mut fake: Fake) -> u64 {
    found(pass(rt, bucket, "tokenised", &mut fake))
}

/// What a pass finds in a bucket of three entries of one text, and which tickets it leaves.
fn pass_over_three<R: Wait + Abort>(rt: &R, alloc: Global, fake: Fake) -> (u64, [u64; 3]) {
    let mut bucket = new_bucket(alloc);
    let one = link_as(rt, &mut bucket, FIRST);
    let two = link_as(rt, &mut bucket, SECOND);
    let three = link_as(rt, &mut bucket, THIRD);
    assert_that(rt, tickets(&mut bucket) == [THIRD, SECOND, FIRST]);
    let finds = finds(rt, &mut bucket, fake);
    let left = tickets(&mut bucket);
    assert_that(rt, stay(&one, &two, &three));
    (finds, left)
}

/// The tickets of "tokenised" in the order in which they are given: by OpenSSL's SipHash its bucket is 0xe77.
const FIRST: u64 = 0x1_39dc;

const SECOND: u64 = 0x2_39dc;

const THIRD: u64 = 0x3_39dc;

/// Which ticket is added, which is full and which is dying to `dying`; what the pass finds, and which tickets it leaves.
static PASSES: [(u64, u64, u64, u64, [u64; 3]); 3] = [
    (SECOND, 0, 0, SECOND, [SECOND, FIRST, 0]),
    (0, THIRD, FIRST, 1, [THIRD, SECOND, 0]),
    (0, 0, 0, 0, [0, 0, 0]),
];

#[test]
fn passes(rt: HostRuntime) {
    for (added, full, gone, finds, left) in &PASSES {
        let found = pass_over_three(&rt, rt.alloc(), Fake::new(*added, *full, *gone));
        assert_that(&rt, found == (*finds, *left));
    }
}

fn intern<R: Wait>(
    rt: &R,
    bucket: &mut Bucket<EmptyStaticAtomSet>,
    text: &str,
    limits: &Limits,
) -> Result<Share, Fault> {
    let hash = hash_of::<EmptyStaticAtomSet>(text);
    without_grant(bucket.intern(rt, text, hash, limits, &mut OwnCounts, FreeGrant))
}

/// Checks that the share is of the text, under the ticket.
fn check_share(rt: &impl Abort, share: &Share, text: &str, ticket: u64) {
    assert_that(rt, is_share(share, text, ticket));
}

/// A share of a text, whose entry is linked if there is none.
fn share_of<R: Wait + Abort>(
    rt: &R,
    bucket: &mut Bucket<EmptyStaticAtomSet>,
    text: &str,
    limits: &Limits,
) -> Share {
    intern(rt, bucket, text, limits).expect(rt, "an answer")
}

/// Whether "tokenised" has as many holders as it may.
fn is_full<R: Wait>(rt: &R, bucket: &mut Bucket<EmptyStaticAtomSet>, limits: &Limits) -> bool {
    matches!(
        intern(rt, bucket, "tokenised", limits),
        Err(Fault::FullCount)
    )
}

/// Two shares of "tokenised" have one ticket, and there is no third.
fn hold_by_two<R: Wait + Abort>(rt: &R, bucket: &mut Bucket<EmptyStaticAtomSet>, limits: &Limits) {
    let one = share_of(rt, bucket, "tokenised", limits);
    let two = share_of(rt, bucket, "tokenised", limits);
    assert_that(rt, one.ticket() == two.ticket());
    assert_that(rt, is_full(rt, bucket, limits));
}

#[test]
fn shares_of_a_bucket(rt: HostRuntime) {
    let limits = Limits::new(2, 2).expect(&rt, "limits");
    let mut bucket = new_bucket(rt.alloc());
    hold_by_two(&rt, &mut bucket, &limits);
    // The entry is dying, and goes with the pass that links the next.
    let next = share_of(&rt, &mut bucket, "tokenised", &limits);
    check_share(&rt, &next, "tokenised", SECOND);
    assert_that(&rt, tickets(&mut bucket) == [SECOND, 0, 0]);
}

/// A share that outlives its bucket keeps its text, as does one whose entry made-up counts took out.
#[test]
fn share_outlives_its_bucket(rt: HostRuntime) {
    let mut bucket = new_bucket(rt.alloc());
    let taken_out = link_as(&rt, &mut bucket, FIRST);
    assert_that(&rt, finds(&rt, &mut bucket, Fake::new(0, 0, 0)) == 0);
    assert_that(&rt, tickets(&mut bucket) == [0, 0, 0]);
    let linked = link_as(&rt, &mut bucket, SECOND);
    drop(bucket);
    check_share(&rt, &linked, "tokenised", SECOND);
    check_share(&rt, &taken_out, "tokenised", FIRST);
}

/// Whether no ticket is left for "tokenised".
fn is_spent(bucket: &mut Bucket<EmptyStaticAtomSet>, limits: &Limits) -> bool {
    matches!(link(bucket, "tokenised", limits), Err(Fault::TicketsSpent))
}

#[test]
fn spent_tickets(rt: HostRuntime) {
    let limits = Limits::new(1, 2).expect(&rt, "limits");
    let mut bucket = new_bucket(rt.alloc());
    drop(link_within(&rt, &mut bucket, &limits, FIRST));
    drop(link_within(&rt, &mut bucket, &limits, SECOND));
    assert_that(&rt, is_spent(&mut bucket, &limits));
}

/// A bucket asks only for a text's hash: g and f1 of this one, which is inline, are 0x7f1a22d084b2f283 by OpenSSL's SipHash.
#[test]
fn short_text_of_a_bucket(rt: HostRuntime) {
    let limits = Limits::greatest();
    let mut bucket = new_bucket(rt.alloc());
    let share = share_of(&rt, &mut bucket, "foo", &limits);
    assert_that(&rt, share.ticket() == ticket_word(1, 0x283));
    let again = share_of(&rt, &mut bucket, "foo", &limits);
    check_share(&rt, &again, "foo", share.ticket());
}
