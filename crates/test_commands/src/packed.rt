//! Words and counts over sets of a packed static type, whose long names are static in them.

use crate::assert_that;
use commands::words::words;
use example_page_names::names::PageNames;
use std::alloc::Global;
use std::process::Abort;
use std::sync::Wait;
use std::thread::Threads;
use string_cache::StaticTables;
use string_cache::dynamic_set::Set;
use test_refusals::are;
use test_samples::keys;
use text_streams::streams::Io;
use word_counts::count::{Open, count};

const TEXT: &str = "fieldset p crème-brûlée fieldset p crème-brûlée fieldset";

const LINES: &str = "Not seen the word \"fieldset\" before
Not seen the word \"p\" before
Not seen the word \"crème-brûlée\" before
Seen the word \"fieldset\" 1 times
Seen the word \"p\" 1 times
Seen the word \"crème-brûlée\" 1 times
Seen the word \"fieldset\" 2 times
";

static COUNTS: [(&str, u64); 3] = [("crème-brûlée", 2), ("fieldset", 3), ("p", 2)];

// These say nothing about what they do, so that each test is proved in a moment. They take any static type, since the borrow checker doesn't cover a
// function that names a set of a packed type.

/// Whether the lines of the words are written.
fn are_told<S: StaticTables, R: Wait + Abort>(rt: &R, alloc: Global) -> bool {
    let set = Set::<S>::new(alloc).expect(rt, "a set");
    let mut writer = Io::new(Vec::new(alloc));
    let keys = keys(1).expect(rt, "keys");
    let answer = words(rt, &set, keys, &mut Io::new(TEXT.as_bytes()), &mut writer);
    answer == Ok(()) && writer.into_inner().as_slice() == LINES.as_bytes()
}

/// Whether a worker, or two, count the words.
fn are_counted<S: StaticTables + Send + Sync, R: Threads + Wait + Sync + Abort>(
    rt: &R,
    alloc: Global,
    both: bool,
) -> bool {
    let set = Set::<S>::new(alloc).expect(rt, "a set");
    let workers = if both { 2 } else { 1 };
    let keys = keys(1).expect(rt, "keys");
    match count(rt, &set, keys, TEXT, workers, &Open) {
        Ok(counts) => are(&counts, &COUNTS),
        Err(_) => false,
    }
}

#[test]
fn words_over_packed_names(rt: HostRuntime) {
    assert_that(&rt, are_told::<PageNames, HostRuntime>(&rt, rt.alloc()));
}

#[test]
fn counts_over_packed_names(rt: HostRuntime) {
    assert_that(
        &rt,
        are_counted::<PageNames, HostRuntime>(&rt, rt.alloc(), false),
    );
    assert_that(
        &rt,
        are_counted::<PageNames, HostRuntime>(&rt, rt.alloc(), true),
    );
}
