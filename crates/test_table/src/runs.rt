//! Calls of a table that are made in a run, with values from outside.

use crate::assert_that;
use crate::memory::{interns_numbered, one_bucket};
use crate::rows::{FIRST, Made, Row, SECOND, Told, check_plain, follow};
use string_cache_core::table::TableReply;

/// Calls one after another, each in a run of its own, and the reply to each, when "interned" has one holder.
static CALLS: [Row; 12] = [
    Row::Intern("interned", Ok(FIRST)),
    Row::Run(&[Made::Clone(FIRST)], &[TableReply::Word(FIRST)]),
    Row::Run(&[Made::Give(FIRST)], &[TableReply::Given]),
    Row::Run(&[Made::Give(FIRST)], &[TableReply::Given]),
    Row::Run(&[Made::Give(FIRST)], &[TableReply::NotHeld]),
    Row::Run(&[Made::Clone(FIRST)], &[TableReply::NotHeld]),
    Row::Run(&[Made::Clone(3)], &[TableReply::NotHeld]),
    Row::Run(&[Made::Clone(0x6111)], &[TableReply::Word(0x6111)]),
    Row::Run(&[Made::Give(0x6111)], &[TableReply::Given]),
    Row::Run(&[Made::Intern("foo")], &[TableReply::Word(0x6f6f_6631)]),
    Row::Run(&[Made::Intern("interned")], &[TableReply::Word(SECOND)]),
    Row::Tell(Told::Keeps(1, 8)),
];

#[test]
fn calls_are_run(rt: HostRuntime) {
    check_plain(&rt, rt.alloc(), &CALLS);
}

/// The text is interned, an inline word and no word are given, the text is interned, and a longer one.
static IN_ORDER: [Row; 2] = [
    Row::Run(
        &[
            Made::Intern("interned"),
            Made::Give(0x6111),
            Made::Give(0),
            Made::Intern("interned"),
            Made::Intern("Größenordnungen, über die niemand spricht"), // its bucket is 0xa97
        ],
        &[
            TableReply::Word(FIRST),
            TableReply::Given,
            TableReply::NotHeld,
            TableReply::Word(FIRST),
            TableReply::Word(0x1_2a5c),
        ],
    ),
    Row::Tell(Told::Keeps(2, 52)),
];

#[test]
fn a_run_replies_to_each_call_in_order(rt: HostRuntime) {
    check_plain(&rt, rt.alloc(), &IN_ORDER);
}

/// Interning twice, giving twice and interning again, in two runs.
static PAIRS: [Row; 3] = [
    Row::Run(
        &[
            Made::Intern("interned"),
            Made::Intern("interned"),
            Made::Give(FIRST),
            Made::Give(FIRST),
        ],
        &[
            TableReply::Word(FIRST),
            TableReply::Word(FIRST),
            TableReply::Given,
            TableReply::Given,
        ],
    ),
    Row::Tell(Told::Keeps(0, 0)),
    Row::Run(&[Made::Intern("interned")], &[TableReply::Word(SECOND)]),
];

#[test]
fn a_run_leaves_spent_tickets_spent(rt: HostRuntime) {
    check_plain(&rt, rt.alloc(), &PAIRS);
}

static NONE_OR_MANY: [Row; 3] = [
    Row::Run(&[], &[]),
    Row::Intern("interned", Ok(FIRST)),
    Row::RunClones(FIRST, 20_000),
];

#[test]
fn a_run_has_no_calls_or_many(rt: HostRuntime) {
    check_plain(&rt, rt.alloc(), &NONE_OR_MANY);
}

/// By OpenSSL's SipHash the buckets of the other two are 0x2ec and 0x20a. As the first goes, the last takes its place, and comes last again.
static BESIDE_TWO: [Row; 7] = [
    Row::Intern("interned", Ok(FIRST)),
    Row::Intern("the first", Ok(0x1_0bb0)),
    Row::Intern("the second", Ok(0x1_0828)),
    Row::Run(
        &[Made::Clone(FIRST), Made::Clone(0x1_0bb0)],
        &[TableReply::Word(FIRST), TableReply::Word(0x1_0bb0)],
    ),
    Row::Run(
        &[Made::Give(FIRST), Made::Give(FIRST)],
        &[TableReply::Given, TableReply::Given],
    ),
    Row::Run(&[Made::Intern("interned")], &[TableReply::Word(SECOND)]),
    Row::Tell(Told::Stand(&[("the second", 1), ("the first", 2), ("interned", 1)])),
];

#[test]
fn a_run_is_made_over_three_texts(rt: HostRuntime) {
    check_plain(&rt, rt.alloc(), &BESIDE_TWO);
}

/// The first ticket of the only bucket.
const ONLY: u64 = 0x1_0000;

static ALONE: [Row; 1] = [Row::Intern("interned", Ok(ONLY))];

static OVER_MANY: [Row; 2] = [Row::RunClones(ONLY, 50_000), Row::RunClones(ONLY, 1)];

/// One bucket has 66,000 more texts.
#[test]
fn a_run_of_many_calls_is_made_over_many_texts(rt: HostRuntime) {
    let alloc = rt.alloc();
    let mut table = one_bucket(&rt, alloc);
    follow(&rt, alloc, &mut table, &ALONE);
    assert_that(&rt, interns_numbered(&rt, alloc, &mut table, 66_000));
    follow(&rt, alloc, &mut table, &OVER_MANY);
}
