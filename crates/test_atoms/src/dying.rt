//! Texts that nobody holds any more, and that are still linked, since their last atoms went while the locks of their buckets were held. By
//! OpenSSL's SipHash the bucket of "afterwards" is 0, of "geometric" 0xfff, of "interned" 0x210, and of "forgotten" and "magnitude" 0x72f.

use crate::scenes::{Call, Step};
use crate::sets::{ONE_BUCKET, USUAL, play};

/// A text's atom goes while its bucket's lock is held: it stays linked.
static LET_DIE: [Step; 4] = [
    Step::Intern("interned"),
    Step::Is(0, "interned", 0x1_0840),
    Step::Die("interned"),
    Step::Linked(1),
];

static SWEPT: [Step; 2] = [Step::Sweep, Step::Linked(0)];

#[test]
fn dying_text_is_swept(rt: HostRuntime) {
    play(&rt, rt.alloc(), USUAL, &[&LET_DIE, &SWEPT]);
}

/// What is looked up takes the dying text out, and finds nothing.
static LOOKED_UP: [Step; 2] = [Step::Absent("interned"), Step::Linked(0)];

#[test]
fn text_of_a_dying_entry_is_not_found(rt: HostRuntime) {
    play(&rt, rt.alloc(), USUAL, &[&LET_DIE, &LOOKED_UP]);
}

static INTERNED_ANEW: [Step; 3] = [
    Step::Intern("interned"),
    Step::Is(1, "interned", 0x2_0840),
    Step::Linked(1),
];

#[test]
fn text_of_a_dying_entry_gets_a_new_one(rt: HostRuntime) {
    play(&rt, rt.alloc(), USUAL, &[&LET_DIE, &INTERNED_ANEW]);
}

/// The words of "forgotten" and "magnitude", if these are the first two texts.
const FORGOTTEN: u64 = 0x1_1cbc;

const MAGNITUDE: u64 = 0x2_1cbc;

/// Both held texts are interned again, and swept: neither goes.
static HELD_STAY: [Step; 15] = [
    Step::Intern("forgotten"),
    Step::Intern("magnitude"),
    Step::Is(0, "forgotten", FORGOTTEN),
    Step::Is(1, "magnitude", MAGNITUDE),
    Step::Word("forgotten", FORGOTTEN),
    Step::Word("magnitude", MAGNITUDE),
    Step::Sweep,
    Step::Linked(2),
    Step::Word("forgotten", FORGOTTEN),
    Step::Word("magnitude", MAGNITUDE),
    Step::Sweep,
    Step::Linked(2),
    Step::Drop(0),
    Step::Linked(1),
    Step::Is(1, "magnitude", MAGNITUDE),
];

/// Passes for the other text, interning both again, sweeps, and drops that aren't the last leave an entry that has a share.
#[test]
fn held_texts_stay_linked(rt: HostRuntime) {
    play(&rt, rt.alloc(), USUAL, &[&HELD_STAY]);
}

/// The texts are in the first bucket, in the last one, and two in one between.
static SWEEP_EACH: [Step; 12] = [
    Step::Intern("afterwards"),
    Step::Intern("geometric"),
    Step::Intern("forgotten"),
    Step::Intern("magnitude"),
    Step::Linked(4),
    Step::Die("afterwards"),
    Step::Die("geometric"),
    Step::Die("magnitude"),
    Step::Die("forgotten"),
    Step::Linked(4),
    Step::Sweep,
    Step::Linked(0),
];

/// Entries die under held locks, so that their own drops leave them linked.
#[test]
fn sweep_reaches_each_bucket(rt: HostRuntime) {
    play(&rt, rt.alloc(), USUAL, &[&SWEEP_EACH]);
}

static ONE_OF_TWO_SHARES: [Step; 8] = [
    Step::Intern("forgotten"),
    Step::Intern("magnitude"),
    Step::Make(Call::Clone(1)),
    Step::Die("forgotten"),
    Step::Drop(2),
    Step::Linked(2),
    Step::Drop(1),
    Step::Linked(0),
];

/// The same for a text whose hash is even: that of "interned", in a set of one bucket.
static ONE_OF_TWO_EVEN: [Step; 8] = [
    Step::Intern("tokenised"),
    Step::Intern("interned"),
    Step::Make(Call::Clone(1)),
    Step::Die("tokenised"),
    Step::Drop(2),
    Step::Linked(2),
    Step::Drop(1),
    Step::Linked(0),
];

#[test]
fn drop_of_one_of_two_shares_takes_out_nothing(rt: HostRuntime) {
    play(&rt, rt.alloc(), USUAL, &[&ONE_OF_TWO_SHARES]);
    play(&rt, rt.alloc(), ONE_BUCKET, &[&ONE_OF_TWO_EVEN]);
}

static BESIDE_DYING: [Step; 8] = [
    Step::Intern("interned"),
    Step::Intern("afterwards"),
    Step::Intern("geometric"),
    Step::Die("afterwards"),
    Step::Die("geometric"),
    Step::Drop(0),
    Step::Linked(2),
    Step::Linked(2),
];

/// Entries of other buckets that died under their locks stay linked.
#[test]
fn last_drop_prunes_its_own_bucket_alone(rt: HostRuntime) {
    play(&rt, rt.alloc(), USUAL, &[&BESIDE_DYING]);
}

/// Of five texts of one bucket the first, one between and the last die.
static THREE_DIE: [Step; 9] = [
    Step::Intern("interned"),
    Step::Intern("tokenised"),
    Step::Intern("document"),
    Step::Intern("repeated"),
    Step::Intern("forgotten"),
    Step::Die("interned"),
    Step::Die("document"),
    Step::Die("forgotten"),
    Step::Linked(5),
];

/// What a sweep leaves, and what a pass for another text and the end of a living text's last atom do.
static TWO_STAY: [Step; 4] = [
    Step::Sweep,
    Step::Visits("repeated 1;tokenised 1;", "repeated 1;tokenised 1;"),
    Step::Drop(3),
    Step::Visits("tokenised 1;", "tokenised 1;"),
];

static NEW_ONE: [Step; 2] = [
    Step::Intern("magnitude"),
    Step::Visits(
        "magnitude 1;repeated 1;tokenised 1;",
        "repeated 1;tokenised 1;magnitude 1;",
    ),
];

static HELD_ONE: [Step; 2] = [
    Step::Intern("tokenised"),
    Step::Visits("repeated 1;tokenised 2;", "repeated 1;tokenised 2;"),
];

static NONE_FOUND: [Step; 2] = [
    Step::Absent("magnitude"),
    Step::Visits("repeated 1;tokenised 1;", "repeated 1;tokenised 1;"),
];

static LAST_GOES: [Step; 2] = [Step::Drop(1), Step::Visits("repeated 1;", "repeated 1;")];

/// Each call that goes over a bucket takes out all that are dying, and no others.
#[test]
fn dying_texts_of_a_bucket_go_together(rt: HostRuntime) {
    play(&rt, rt.alloc(), ONE_BUCKET, &[&THREE_DIE, &TWO_STAY]);
    play(&rt, rt.alloc(), ONE_BUCKET, &[&THREE_DIE, &NEW_ONE]);
    play(&rt, rt.alloc(), ONE_BUCKET, &[&THREE_DIE, &HELD_ONE]);
    play(&rt, rt.alloc(), ONE_BUCKET, &[&THREE_DIE, &NONE_FOUND]);
    play(&rt, rt.alloc(), ONE_BUCKET, &[&THREE_DIE, &LAST_GOES]);
}
