//! What tests ask of counts.

use string_cache::{AtomKind, SetAtom};
use word_counts::count::WordCounts;

/// Whether these are the words and numbers of the counts.
pub fn are<H: AtomKind>(counts: &WordCounts<SetAtom<H>>, wanted: &[(&str, u64)]) -> bool {
    if counts.len() != wanted.len() {
        return false;
    }
    for i in 0..wanted.len() {
        let (atom, n) = &counts[i];
        let (word, number) = wanted[i];
        if !atom.eq_str(word) || *n != number {
            return false;
        }
    }
    true
}
