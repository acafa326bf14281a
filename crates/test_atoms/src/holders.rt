//! Holders up to their limit, and what is left of them. By OpenSSL's SipHash the bucket of "interned" is 0x210, so that its first two tickets
//! are 0x1_0840 and 0x2_0840.

use crate::scenes::{Call, Step};
use crate::sets::{Size, USUAL, play, within};
use string_cache::Fault;

/// Two atoms of a text are all that there may be, for each call that would make one more. When one of them goes, both calls make an atom of the same
/// word, one after the other.
static TWO_HOLDERS: [Step; 20] = [
    Step::Intern("interned"),
    Step::Intern("interned"),
    Step::Is(0, "interned", 0x1_0840),
    Step::One(0, 1),
    Step::Linked(1),
    Step::Refused(Call::Intern("interned"), Fault::FullCount),
    Step::Refused(Call::Clone(0), Fault::FullCount),
    Step::Refused(Call::Copy(0), Fault::FullCount),
    Step::Drop(1),
    Step::Make(Call::Clone(0)),
    Step::One(2, 0),
    Step::Drop(2),
    Step::Make(Call::Copy(0)),
    Step::One(3, 0),
    Step::Drop(0),
    Step::Linked(1),
    Step::Is(3, "interned", 0x1_0840),
    Step::Drop(3),
    Step::Linked(0),
    Step::Word("interned", 0x2_0840),
];

#[test]
fn two_holders(rt: HostRuntime) {
    play(&rt, rt.alloc(), within(2, 9), &[&TWO_HOLDERS]);
}

static ONE_SERIAL: [Step; 3] = [
    Step::Word("interned", 0x1_0840),
    Step::Refused(Call::Intern("interned"), Fault::TicketsSpent),
    Step::Word("abc", 0x6362_6131),
];

#[test]
fn one_serial(rt: HostRuntime) {
    play(&rt, rt.alloc(), within(9, 1), &[&ONE_SERIAL]);
}

/// A text of two thousand and one holders, interned and cloned in turn, of which the first is left.
static MANY: [Step; 9] = [
    Step::Intern("interned"),
    Step::Repeat(&[Call::Intern("interned"), Call::Clone(0)], 1000),
    Step::AllAre(0x1_0840),
    Step::Linked(1),
    Step::Keep(1),
    Step::Linked(1),
    Step::Is(0, "interned", 0x1_0840),
    Step::Drop(0),
    Step::Linked(0),
];

#[test]
fn two_thousand_holders(rt: HostRuntime) {
    play(&rt, rt.alloc(), USUAL, &[&MANY]);
}

/// While the text has one more holder, which is made in lower case from an atom in upper case, there can't be a third. No serial is left, and once
/// the two holders have gone, nobody can hold it.
static NO_SHARE_STAYS: [Step; 26] = [
    Step::Intern("interned"),
    Step::Make(Call::Upper(0)),
    Step::Make(Call::Lower(1)),
    Step::Refused(Call::Lower(0), Fault::FullCount),
    Step::Refused(Call::Intern("interned"), Fault::FullCount),
    Step::Refused(Call::Clone(0), Fault::FullCount),
    Step::Refused(Call::Copy(0), Fault::FullCount),
    Step::Refused(Call::Lower(0), Fault::FullCount),
    Step::Refused(Call::Intern("interned"), Fault::FullCount),
    Step::Refused(Call::Clone(0), Fault::FullCount),
    Step::Refused(Call::Copy(0), Fault::FullCount),
    Step::Refused(Call::Lower(0), Fault::FullCount),
    Step::Refused(Call::Intern("interned"), Fault::FullCount),
    Step::Refused(Call::Clone(0), Fault::FullCount),
    Step::Refused(Call::Copy(0), Fault::FullCount),
    Step::Drop(2),
    Step::Make(Call::Lower(0)),
    Step::One(3, 0),
    Step::Drop(3),
    Step::Drop(0),
    Step::Refused(Call::Intern("interned"), Fault::TicketsSpent),
    Step::Refused(Call::Intern("interned"), Fault::TicketsSpent),
    Step::Refused(Call::Intern("interned"), Fault::TicketsSpent),
    Step::Linked(1),
    Step::Drop(1),
    Step::Linked(0),
];

/// Neither a refused call nor one in another case leaves a share behind.
#[test]
fn no_share_stays_behind(rt: HostRuntime) {
    play(&rt, rt.alloc(), within(2, 1), &[&NO_SHARE_STAYS]);
}

/// One bucket of two serials, of which a text may have two holders.
const NARROW: Size = Size {
    bits: 0,
    limits: Some((2, 2)),
};

/// Each call that would add a holder to what has two holders is refused for that, even if another text is put into lower case.
static FULL: [Step; 13] = [
    Step::Intern("größenordnung"),
    Step::Intern("größenordnung"),
    Step::Refused(Call::Intern("größenordnung"), Fault::FullCount),
    Step::Refused(Call::Own("größenordnung"), Fault::FullCount),
    Step::Refused(Call::Cow("größenordnung"), Fault::FullCount),
    Step::Refused(Call::Json("größenordnung"), Fault::FullCount),
    Step::Refused(Call::Find("größenordnung"), Fault::FullCount),
    Step::Refused(Call::Again(0), Fault::FullCount),
    Step::Refused(Call::Clone(0), Fault::FullCount),
    Step::Refused(Call::Copy(0), Fault::FullCount),
    Step::Refused(Call::Lower(0), Fault::FullCount),
    Step::Intern("GRößENORDNUNG"),
    Step::Refused(Call::Lower(2), Fault::FullCount),
];

/// Once both tickets are given, each call that would link another text is refused for that, even if a static one is put into upper case. The text
/// that has one holder can be held once more by each call.
static SPENT: [Step; 20] = [
    Step::Refused(Call::Intern("tokenised"), Fault::TicketsSpent),
    Step::Refused(Call::Own("tokenised"), Fault::TicketsSpent),
    Step::Refused(Call::Cow("tokenised"), Fault::TicketsSpent),
    Step::Refused(Call::Json("tokenised"), Fault::TicketsSpent),
    Step::Absent("tokenised"),
    Step::Intern("sentence"),
    Step::Refused(Call::Upper(3), Fault::TicketsSpent),
    Step::Drop(1),
    Step::Make(Call::Own("größenordnung")),
    Step::Drop(4),
    Step::Make(Call::Cow("größenordnung")),
    Step::Drop(5),
    Step::Make(Call::Json("größenordnung")),
    Step::Drop(6),
    Step::Make(Call::Again(0)),
    Step::Drop(7),
    Step::Make(Call::Lower(2)),
    Step::One(0, 8),
    Step::Keep(0),
    Step::Linked(0),
];

/// A text of more than 64 bytes.
const SMALL: &str =
    "the letters of this text, which has more than sixty-four bytes, are small: größer";

/// The same of a text that is put into another case by way of memory.
static LONG: [Step; 9] = [
    Step::Intern(SMALL),
    Step::Make(Call::Upper(0)),
    Step::Make(Call::Lower(1)),
    Step::One(0, 2),
    Step::Refused(Call::Lower(1), Fault::FullCount),
    Step::Drop(0),
    Step::Drop(2),
    Step::Refused(Call::Lower(1), Fault::TicketsSpent),
    Step::Linked(1),
];

#[test]
fn limits_refuse_calls(rt: HostRuntime) {
    play(&rt, rt.alloc(), NARROW, &[&FULL, &SPENT]);
    play(&rt, rt.alloc(), NARROW, &[&LONG]);
}

/// Nobody holds inline and static texts: the set has none of them.
static FIXED: [Step; 7] = [
    Step::Intern(""),
    Step::Intern("été"),
    Step::Intern("sentence"),
    Step::Repeat(
        &[
            Call::Own("sentence"),
            Call::Cow("foo"),
            Call::Json("sentence"),
            Call::Clone(2),
            Call::Lower(2),
            Call::Again(1),
        ],
        3,
    ),
    Step::Linked(0),
    Step::Visits("", ""),
    Step::Keep(0),
];

#[test]
fn fixed_texts_are_not_linked(rt: HostRuntime) {
    play(&rt, rt.alloc(), within(1, 1), &[&FIXED]);
}

/// Each call that links a text takes one ticket, and one that finds it takes none. By OpenSSL's SipHash the bucket of "INTERNED" isn't 0x210.
static TICKETS: [Step; 16] = [
    Step::Make(Call::Own("interned")),
    Step::Is(0, "interned", 0x1_0840),
    Step::Drop(0),
    Step::Make(Call::Cow("interned")),
    Step::Is(1, "interned", 0x2_0840),
    Step::Drop(1),
    Step::Make(Call::Json("interned")),
    Step::Is(2, "interned", 0x3_0840),
    Step::Make(Call::Upper(2)),
    Step::Drop(2),
    Step::Make(Call::Lower(3)),
    Step::Is(4, "interned", 0x4_0840),
    Step::Make(Call::Again(4)),
    Step::Make(Call::Lower(4)),
    Step::Keep(0),
    Step::Word("interned", 0x5_0840),
];

#[test]
fn each_call_takes_one_ticket(rt: HostRuntime) {
    play(&rt, rt.alloc(), USUAL, &[&TICKETS]);
}
