//! Entries that are visited, and the bytes that they take. By OpenSSL's SipHash the bucket of "afterwards" is 0, of "forgotten" and
//! "magnitude" 0x72f, of "geometric" 0xfff, and of "interned" 0x210.

use crate::scenes::{Call, Step};
use crate::sets::{ONE_BUCKET, USUAL, play};

/// Bucket by bucket, and in a bucket the newest first, or the oldest in a set with a name, where the last takes the place of one that goes.
const EACH_PLAIN: &str = "afterwards 1;magnitude 1;forgotten 2;geometric 1;";

const EACH_NAMED: &str = "afterwards 1;forgotten 2;magnitude 1;geometric 1;";

static EACH_ONCE: [Step; 11] = [
    Step::Visits("", ""),
    Step::Intern("geometric"),
    Step::Intern("forgotten"),
    Step::Make(Call::Clone(1)),
    Step::Intern("magnitude"),
    Step::Intern("afterwards"),
    Step::Visits(EACH_PLAIN, EACH_NAMED),
    Step::Visits(EACH_PLAIN, EACH_NAMED),
    Step::Drop(0),
    Step::Visits(
        "afterwards 1;magnitude 1;forgotten 2;",
        "afterwards 1;forgotten 2;magnitude 1;",
    ),
    Step::Linked(3),
];

#[test]
fn each_entry_is_visited_once(rt: HostRuntime) {
    play(&rt, rt.alloc(), USUAL, &[&EACH_ONCE]);
}

/// A text that died under its bucket's lock is visited, and stays.
static DYING: [Step; 5] = [
    Step::Intern("interned"),
    Step::Die("interned"),
    Step::Visits("interned 0;", "interned 0;"),
    Step::Visits("interned 0;", "interned 0;"),
    Step::Linked(1),
];

#[test]
fn dying_entry_is_visited(rt: HostRuntime) {
    play(&rt, rt.alloc(), USUAL, &[&DYING]);
}

/// And so are two of one bucket.
static TWO_DYING: [Step; 7] = [
    Step::Intern("forgotten"),
    Step::Intern("magnitude"),
    Step::Die("forgotten"),
    Step::Die("magnitude"),
    Step::Visits("magnitude 0;forgotten 0;", "forgotten 0;magnitude 0;"),
    Step::Visits("magnitude 0;forgotten 0;", "forgotten 0;magnitude 0;"),
    Step::Linked(2),
];

#[test]
fn dying_entries_of_a_bucket_are_visited(rt: HostRuntime) {
    play(&rt, rt.alloc(), USUAL, &[&TWO_DYING]);
}

/// Five texts of one bucket. One between goes, and a new one is linked.
static OF_A_BUCKET: [Step; 11] = [
    Step::Intern("interned"),
    Step::Intern("tokenised"),
    Step::Intern("document"),
    Step::Intern("repeated"),
    Step::Intern("forgotten"),
    Step::Visits(
        "forgotten 1;repeated 1;document 1;tokenised 1;interned 1;",
        "interned 1;tokenised 1;document 1;repeated 1;forgotten 1;",
    ),
    Step::Drop(1),
    Step::Intern("magnitude"),
    Step::Visits(
        "magnitude 1;forgotten 1;repeated 1;document 1;interned 1;",
        "interned 1;forgotten 1;document 1;repeated 1;magnitude 1;",
    ),
    Step::Keep(0),
    Step::Visits("", ""),
];

#[test]
fn each_node_is_visited(rt: HostRuntime) {
    play(&rt, rt.alloc(), ONE_BUCKET, &[&OF_A_BUCKET]);
}

/// The bytes of a bucket with its lock, of a node, which has room for four entries, and of a cell before its text. A cell's bytes are
/// rounded up to eights.
const BUCKET: u128 = 32;

const NODE: u128 = 48;

const CELL: u128 = 32;

/// The bytes of a bucket of a set with a name, with its lock, and of four places for cells. A bucket makes room for four, then for twice as
/// many as it has, and keeps it.
const NAMED: u128 = 112;

const FOUR: u128 = 32;

/// The bytes of a set of one bucket that has texts, and those that it keeps once they are gone. A short text has none.
static MEMORY_OF_TEXTS: [&[Step]; 6] = [
    &[
        Step::Intern(""),
        Step::Memory(BUCKET, NAMED),
        Step::Keep(0),
        Step::Memory(BUCKET, NAMED),
    ],
    &[
        Step::Intern("short"),
        Step::Memory(BUCKET, NAMED),
        Step::Keep(0),
        Step::Memory(BUCKET, NAMED),
    ],
    &[
        Step::Intern("interned"),
        Step::Memory(BUCKET + NODE + CELL + 8, NAMED + FOUR + CELL + 8),
        Step::Keep(0),
        Step::Memory(BUCKET, NAMED + FOUR),
    ],
    &[
        Step::Intern("tokenised"),
        Step::Memory(BUCKET + NODE + CELL + 16, NAMED + FOUR + CELL + 16),
        Step::Keep(0),
        Step::Memory(BUCKET, NAMED + FOUR),
    ],
    &[
        Step::Intern("interned"),
        Step::Intern("document"),
        Step::Intern("repeated"),
        Step::Intern("addition"),
        Step::Memory(
            BUCKET + NODE + 4 * (CELL + 8),
            NAMED + FOUR + 4 * (CELL + 8),
        ),
        Step::Keep(0),
        Step::Memory(BUCKET, NAMED + FOUR),
    ],
    &[
        Step::Intern("interned"),
        Step::Intern("document"),
        Step::Intern("repeated"),
        Step::Intern("addition"),
        Step::Intern("interned"),
        Step::Intern("relation"),
        Step::Memory(
            BUCKET + 2 * NODE + 5 * (CELL + 8),
            NAMED + 2 * FOUR + 5 * (CELL + 8),
        ),
        Step::Keep(0),
        Step::Memory(BUCKET, NAMED + 2 * FOUR),
    ],
];

#[test]
fn memory_of_texts(rt: HostRuntime) {
    for steps in &MEMORY_OF_TEXTS {
        play(&rt, rt.alloc(), ONE_BUCKET, &[*steps]);
    }
}

/// A text of 100 bytes.
const LONG: &str =
    "aaaaaaaaaaaaaaaaaaaaaaaaaaaaaaaaaaaaaaaaaaaaaaaaaaaaaaaaaaaaaaaaaaaaaaaaaaaaaaaaaaaaaaaaaaaaaaaaaaaa";

static MEMORY_OF_LONG: [Step; 4] = [
    Step::Intern(LONG),
    Step::Memory(BUCKET + NODE + CELL + 104, NAMED + FOUR + CELL + 104),
    Step::Drop(0),
    Step::Memory(BUCKET, NAMED + FOUR),
];

#[test]
fn memory_of_a_long_text(rt: HostRuntime) {
    play(&rt, rt.alloc(), ONE_BUCKET, &[&MEMORY_OF_LONG]);
}

/// A node stays for the one entry that is left in it: in two nodes the first entries stay, and three of each go. So do all eight places of a set with
/// a name.
static ONE_OF_A_NODE: [Step; 15] = [
    Step::Intern("interned"),
    Step::Intern("document"),
    Step::Intern("repeated"),
    Step::Intern("addition"),
    Step::Intern("relation"),
    Step::Intern("sequence"),
    Step::Intern("compiler"),
    Step::Intern("tokenise"),
    Step::Drop(1),
    Step::Drop(2),
    Step::Drop(3),
    Step::Drop(5),
    Step::Drop(6),
    Step::Drop(7),
    Step::Memory(
        BUCKET + 2 * NODE + 2 * (CELL + 8),
        NAMED + 2 * FOUR + 2 * (CELL + 8),
    ),
];

#[test]
fn memory_of_nodes_with_one_entry(rt: HostRuntime) {
    play(&rt, rt.alloc(), ONE_BUCKET, &[&ONE_OF_A_NODE]);
}

/// The bytes of the usual buckets with two dying texts.
const WITH_TWO: Step = Step::Memory(
    4096 * BUCKET + 2 * (NODE + CELL + 16),
    4096 * NAMED + 2 * (FOUR + CELL + 16),
);

/// What is still linked counts, even though nobody holds it.
static DYING_COUNT: [Step; 8] = [
    Step::Intern("afterwards"),
    Step::Intern("geometric"),
    Step::Die("afterwards"),
    Step::Die("geometric"),
    WITH_TWO,
    WITH_TWO,
    Step::Sweep,
    Step::Memory(4096 * BUCKET, 4096 * NAMED + 2 * FOUR),
];

#[test]
fn memory_of_dying_entries(rt: HostRuntime) {
    play(&rt, rt.alloc(), USUAL, &[&DYING_COUNT]);
}
