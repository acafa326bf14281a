//! The life of a text from its first atom to its last, in a set of one bucket whose texts have at most two holders.

use crate::assert_that;
use std::alloc::Global;
use std::io::Print;
use std::process::Abort;
use std::sync::Wait;
use string_cache::dynamic_set::Set;
use string_cache::word::{Buckets, Limits};
use string_cache::{DefaultAtom, EmptyStaticAtomSet, Fault};
use test_calls::{cloned, interned, look_up};
use test_refusals::at_last;

type OneBucket = Set<EmptyStaticAtomSet>;

/// Whether each call that would add a holder of the atom's text is refused.
fn is_full<R: Wait>(rt: &R, set: &OneBucket, atom: &DefaultAtom<'_>) -> bool {
    let text = atom.as_str();
    let refused = [
        cloned(rt, atom).err(),
        interned(rt, set, text).err(),
        look_up(rt, set, text).err(),
    ];
    refused == [Some(Fault::FullCount); 3]
}

/// Whether one entry is left after another text came and went, and after a sweep.
fn stays_alone<R: Wait>(rt: &R, set: &OneBucket) -> Result<bool, Fault> {
    drop(interned(rt, set, "tokenised")?);
    let is_alone = set.linked(rt) == 1;
    set.sweep(rt);
    Ok(is_alone && set.linked(rt) == 1)
}

/// The bytes of the bucket with its lock, of a node, and of a cell before its text, whose bytes are rounded up to eights.
const EMPTY: u128 = 32;

const NODE: u128 = 48;

const CELL: u128 = 40;

/// The entries that a set shows.
#[derive(Clone, Copy)]
struct Shown {
    number: u32,
    /// Whether each is of one text, with two holders.
    are_right: bool,
}

impl Shown {
    /// Notes an entry of the other text, which has this many holders.
    fn note(&mut self, text: &str, other: &str, holders: u64) {
        self.number = self.number.saturating_add(1);
        self.are_right = self.are_right && other == text && holders == 2;
    }
}

fn look_at<R: Wait>(rt: &R, set: &OneBucket, text: &str) -> Shown {
    let mut shown = Shown {
        number: 0,
        are_right: true,
    };
    set.for_each(rt, |other, holders| shown.note(text, other, holders));
    shown
}

/// Whether the set shows only the text's entry, with two holders, and the bytes that it has.
fn is_shown<R: Wait>(rt: &R, set: &OneBucket, text: &str) -> bool {
    let shown = look_at(rt, set, text);
    let bytes = text.len().div_ceil(8) as u128 * 8;
    shown.are_right && shown.number == 1 && set.memory(rt) == EMPTY + NODE + CELL + bytes
}

/// Whether both atoms have the same word.
fn are_one(first: &DefaultAtom<'_>, second: &DefaultAtom<'_>) -> bool {
    first.unsafe_data() == second.unsafe_data() && first.as_str() == second.as_str()
}

/// Whether the text is full, stays and is shown while there are both atoms, which are the same.
fn are_held<R: Wait>(
    rt: &R,
    set: &OneBucket,
    atom: &DefaultAtom<'_>,
    clone: &DefaultAtom<'_>,
) -> Result<bool, Fault> {
    Ok(
        are_one(atom, clone)
            && is_full(rt, set, atom)
            && stays_alone(rt, set)?
            && is_shown(rt, set, atom.as_str()),
    )
}

/// Whether the atom has a clone, and its text is then full, stays and is shown.
fn is_cloned<R: Wait>(rt: &R, set: &OneBucket, atom: &DefaultAtom<'_>) -> Result<bool, Fault> {
    let clone = cloned(rt, atom)?;
    are_held(rt, set, atom, &clone)
}

/// Whether an atom was found that is the same as the other, and whose text is full.
fn is_second<R: Wait>(
    rt: &R,
    set: &OneBucket,
    atom: &DefaultAtom<'_>,
    found: Option<&DefaultAtom<'_>>,
) -> bool {
    match found {
        Some(found) => are_one(atom, found) && is_full(rt, set, found),
        None => false,
    }
}

/// Whether the atom's text is found, and is then full.
fn is_found<R: Wait>(rt: &R, set: &OneBucket, atom: &DefaultAtom<'_>) -> Result<bool, Fault> {
    let found = look_up(rt, set, atom.as_str())?;
    Ok(is_second(rt, set, atom, found.as_ref()))
}

/// Whether the atom has this text, is cloned and is found.
fn is_held<R: Wait>(
    rt: &R,
    set: &OneBucket,
    atom: &DefaultAtom<'_>,
    text: &str,
) -> Result<bool, Fault> {
    Ok(atom.as_str() == text && is_cloned(rt, set, atom)? && is_found(rt, set, atom)?)
}

/// Whether the text has an atom that is cloned and found.
fn is_interned<R: Wait>(rt: &R, set: &OneBucket, text: &str) -> Result<bool, Fault> {
    let atom = interned(rt, set, text)?;
    is_held(rt, set, &atom, text)
}

/// Whether that is so, and nothing is left in the end.
fn comes_and_goes<R: Wait>(rt: &R, set: &OneBucket, text: &str) -> Result<bool, Fault> {
    Ok(is_interned(rt, set, text)? && set.linked(rt) == 0 && set.memory(rt) == EMPTY)
}

/// Whether all of that is so in a set of its own.
fn lives<R: Wait>(rt: &R, alloc: Global, limits: Limits, text: &str) -> Result<bool, Fault> {
    let buckets = Buckets::new(0).ok_or(Fault::NotText)?;
    let set = OneBucket::with_buckets(alloc, limits, buckets)?;
    comes_and_goes(rt, &set, text)
}

/// Checks the life of a text, with each request for memory refused once.
fn check_life<R: Wait + Print + Abort>(rt: &R, alloc: Global, text: &str) {
    let limits = Limits::new(2, 9).expect(rt, "limits");
    let is_right = at_last(rt, || lives(rt, alloc, limits, text)).expect(rt, "an answer");
    assert_that(rt, is_right);
}

/// A text of 2,100,000 bytes beyond ASCII.
#[test]
fn large_text_lives(rt: HostRuntime) {
    let text = "字".repeat(rt.alloc(), 700_000).expect(&rt, "a text");
    check_life(&rt, rt.alloc(), &text);
}

/// A text of nine bytes.
#[test]
fn text_beyond_ascii_lives(rt: HostRuntime) {
    check_life(&rt, rt.alloc(), "naïveté");
}

#[test]
fn text_with_nul_lives(rt: HostRuntime) {
    check_life(&rt, rt.alloc(), "nul \0 nul");
}

#[test]
fn text_with_a_line_feed_lives(rt: HostRuntime) {
    check_life(&rt, rt.alloc(), "line\nfeed");
}
