//! Atoms as keys of maps.

use crate::assert_that;
use crate::samples::{clone_of, intern};
use std::collections::{BTreeMap, HashMap};
use std::convert::AsStr;
use std::hash::Hash;
use std::process::Abort;
use std::sync::Wait;
use string_cache::{SetAtom, SharedSet};

/// Adds one to the count of a key.
fn count_hashed<K: Hash + Eq + Drop>(rt: &impl Abort, counts: &mut HashMap<K, u64>, key: K) {
    let count = counts.entry(key).expect(rt, "an answer").or_insert(0);
    *count = count.saturating_add(1);
}

/// Adds one to the count of a key.
fn count_sorted<K: Ord + Drop>(rt: &impl Abort, counts: &mut BTreeMap<K, u64>, key: K) {
    let count = counts.entry(key).expect(rt, "an answer").or_insert(0);
    *count = count.saturating_add(1);
}

/// How often the map has this key.
fn times_of<K: Hash + Eq>(counts: &HashMap<K, u64>, key: &K) -> Option<u64> {
    counts.get(key).copied()
}

/// How often the map has the atom of this word.
fn count_of<S: SharedSet, R: Wait + Abort>(
    rt: &R,
    set: S,
    counts: &HashMap<SetAtom<S::Held>, u64>,
    word: &str,
) -> Option<u64> {
    times_of(counts, &intern(rt, set, word))
}

/// Whether a key of this text has this count.
fn is_counted<K: AsStr>((key, count): (&K, &u64), (text, times): &(&str, u64)) -> bool {
    key.as_str() == *text && count == times
}

/// Whether the map has keys of these texts, in this order, this often.
fn has_counts<K: Ord + AsStr>(sorted: &BTreeMap<K, u64>, wanted: &[(&str, u64)]) -> bool {
    for (found, row) in sorted.iter().zip(wanted.iter()) {
        if !is_counted(found, row) {
            return false;
        }
    }
    sorted.len() == wanted.len()
}

/// Counts the words of a text, by the hashes of their atoms and by their order.
fn count_words<S: SharedSet, R: Wait + Abort>(
    rt: &R,
    set: S,
    counts: &mut HashMap<SetAtom<S::Held>, u64>,
    sorted: &mut BTreeMap<SetAtom<S::Held>, u64>,
    text: &str,
) {
    for word in text.split_whitespace() {
        let atom = intern(rt, set, word);
        count_hashed(rt, counts, clone_of(rt, &atom));
        count_sorted(rt, sorted, atom);
    }
}

/// The words of the text below, in their order, and how often each occurs.
static COUNTS: [(&str, u64); 4] = [("a", 2), ("b", 1), ("interned", 3), ("sentence", 1)];

/// Whether the map has these words, this often, and no others.
fn has_hashed<S: SharedSet, R: Wait + Abort>(
    rt: &R,
    set: S,
    counts: &HashMap<SetAtom<S::Held>, u64>,
    wanted: &[(&str, u64)],
) -> bool {
    for (word, times) in wanted {
        if count_of(rt, set, counts, word) != Some(*times) {
            return false;
        }
    }
    counts.len() == wanted.len()
}

/// Whether both maps have the words of a text.
fn have_words<S: SharedSet, R: Wait + Abort>(rt: &R, set: S, text: &str) -> bool {
    let mut counts = HashMap::new(set.allocator());
    let mut sorted = BTreeMap::new(set.allocator());
    count_words(rt, set, &mut counts, &mut sorted, text);
    has_hashed(rt, set, &counts, &COUNTS) && has_counts(&sorted, &COUNTS)
}

/// The words of a text are counted as often as they occur.
pub fn check_keys<S: SharedSet, R: Wait + Abort>(rt: &R, set: S) {
    assert_that(
        rt,
        have_words(rt, set, "interned sentence a interned b a interned"),
    );
}
