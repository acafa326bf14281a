//! Texts that are looked up, and not interned. By OpenSSL's SipHash the bucket of "interned" is 0x210, and of "forgotten" and "magnitude"
//! 0x72f. A word is its serial times 0x10000 and its bucket times 4.

use crate::scenes::{Call, Step};
use crate::sets::{ONE_BUCKET, USUAL, play, within};
use string_cache::Fault;

/// Texts that are inline or static, and their words.
static FIXED: [Step; 9] = [
    Step::Make(Call::Find("")),
    Step::Is(0, "", 1),
    Step::Make(Call::Find("\0")),
    Step::Is(1, "\0", 0x11),
    Step::Make(Call::Find("foo")),
    Step::Is(2, "foo", 0x6f6f_6631),
    Step::Make(Call::Find("sentence")),
    Step::Is(3, "sentence", 2),
    Step::Linked(0),
];

#[test]
fn fixed_texts_are_found(rt: HostRuntime) {
    play(&rt, rt.alloc(), USUAL, &[&FIXED]);
}

/// "forgotten" has an atom, but another text of its bucket and one of another bucket have none. What is found holds its text after the atom that it
/// was found by has gone, and no longer than it lives itself.
static HELD: [Step; 11] = [
    Step::Intern("forgotten"),
    Step::Absent("magnitude"),
    Step::Absent("interned"),
    Step::Make(Call::Find("forgotten")),
    Step::One(1, 0),
    Step::Drop(0),
    Step::Linked(1),
    Step::Is(1, "forgotten", 0x1_1cbc),
    Step::Drop(1),
    Step::Linked(0),
    Step::Absent("forgotten"),
];

#[test]
fn held_texts_alone_are_found(rt: HostRuntime) {
    play(&rt, rt.alloc(), USUAL, &[&HELD]);
}

/// Each of five texts of one bucket, which are in two nodes of a set without a name.
static OF_A_BUCKET: [Step; 18] = [
    Step::Intern("interned"),
    Step::Intern("tokenised"),
    Step::Intern("document"),
    Step::Intern("repeated"),
    Step::Intern("forgotten"),
    Step::Make(Call::Find("interned")),
    Step::One(0, 5),
    Step::Make(Call::Find("tokenised")),
    Step::One(1, 6),
    Step::Make(Call::Find("document")),
    Step::One(2, 7),
    Step::Make(Call::Find("repeated")),
    Step::One(3, 8),
    Step::Make(Call::Find("forgotten")),
    Step::One(4, 9),
    Step::Keep(5),
    Step::Absent("magnitude"),
    Step::Linked(5),
];

#[test]
fn each_text_of_a_bucket_is_found(rt: HostRuntime) {
    play(&rt, rt.alloc(), ONE_BUCKET, &[&OF_A_BUCKET]);
}

/// The only ticket of "interned" is left after it was looked up, and then none.
static WITHOUT_TICKETS: [Step; 8] = [
    Step::Absent("interned"),
    Step::Linked(0),
    Step::Absent("interned"),
    Step::Linked(0),
    Step::Absent("interned"),
    Step::Linked(0),
    Step::Word("interned", 0x1_0840),
    Step::Absent("interned"),
];

#[test]
fn look_up_spends_no_ticket(rt: HostRuntime) {
    play(&rt, rt.alloc(), within(9, 1), &[&WITHOUT_TICKETS]);
}

/// What is found is a holder, of which there may be two, and gives its share back.
static HOLDERS: [Step; 18] = [
    Step::Intern("interned"),
    Step::Make(Call::Find("interned")),
    Step::One(0, 1),
    Step::Refused(Call::Find("interned"), Fault::FullCount),
    Step::Refused(Call::Find("interned"), Fault::FullCount),
    Step::Drop(1),
    Step::Make(Call::Find("interned")),
    Step::One(0, 2),
    Step::Refused(Call::Find("interned"), Fault::FullCount),
    Step::Refused(Call::Find("interned"), Fault::FullCount),
    Step::Drop(2),
    Step::Make(Call::Find("interned")),
    Step::One(0, 3),
    Step::Refused(Call::Find("interned"), Fault::FullCount),
    Step::Refused(Call::Find("interned"), Fault::FullCount),
    Step::Drop(3),
    Step::Drop(0),
    Step::Linked(0),
];

#[test]
fn found_atom_is_a_holder(rt: HostRuntime) {
    play(&rt, rt.alloc(), within(2, 9), &[&HOLDERS]);
}
