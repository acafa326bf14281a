//! Merges the counts of several lists of words into one.

ghost use Rattle.std.specs.Prelude.{◌≡◌, ◌+◌, ◌*◌, ◌^◌, ◌<◌, ◌≤◌, ◌∷◌, [], List, ℕ, IfOk, IfSome, MatchOption};
ghost use Rattle.std.specs.List.{All};
ghost use Rattle.std.specs.VecDeque.{deque_len};
ghost use Rattle.word_counts.specs.MergedCounts.{AreCountsOf, AreCountsOfFew, AreMerged, all_counted_texts, first_order, merged};
ghost use Rattle.word_counts.specs.WordCounts.{counted_texts};

use super::WordCounts;
use std::alloc::{AllocError, Global};
use std::cmp::Ordering;
use std::collections::VecDeque;
use std::thread::{Threads, join};
use string_cache::{Atom, AtomKind, SetAtom, StaticTables};

/// What is left of counts that are being merged.
type Rest<H> = VecDeque<(SetAtom<H>, u64)>;

/// How the first words of the two compare. If a list has none, the other's comes first.
fn order_of_first<H: AtomKind>(front: &Rest<H>, back: &Rest<H>) -> Ordering
    ensures { result ≡ first_order (counted_texts front.now.items) (counted_texts back.now.items) }
{
    match (front.front(), back.front()) {
        (Some((atom, _)), Some((other, _))) => atom.cmp(other),
        (Some(_), None) => Ordering::Less,
        _ => Ordering::Greater,
    }
}

/// The pair with this many more places of its word.
fn with_more<H: AtomKind>(pair: (SetAtom<H>, u64), more: u64) -> (SetAtom<H>, u64)
    requires pair { pair.1 < 2 ^ 63 }
    requires more { more < 2 ^ 63 }
    ensures { result ≡ (pair.0, pair.1 + more) }
{
    let (atom, n) = pair;
    (atom, n + more)
}

/// Takes the pair of the lowest word off the list that has it, or off both as one pair.
fn take_lowest<H: AtomKind>(front: &mut Rest<H>, back: &mut Rest<H>) -> Option<(SetAtom<H>, u64)>
    requires front { All (λ pair. pair.1 < 2 ^ 63) (counted_texts front.old.items) }
    requires back { All (λ pair. pair.1 < 2 ^ 63) (counted_texts back.old.items) }
    ensures front { All (λ pair. pair.1 < 2 ^ 63) (counted_texts front.new.items) }
    ensures back { All (λ pair. pair.1 < 2 ^ 63) (counted_texts back.new.items) }
    ensures pair { MatchOption result
        (merged (counted_texts front.old.items) (counted_texts back.old.items) ≡ [])
        (λ pair. merged (counted_texts front.old.items) (counted_texts back.old.items)
        ≡ (pair.0.text, pair.1) ∷ merged (counted_texts front.new.items) (counted_texts back.new.items)) }
    ensures fewer { IfSome result (λ pair. deque_len front.new + deque_len back.new < deque_len front.old + deque_len back.old) }
{
    match order_of_first(front, back) {
        Ordering::Less => front.pop_front(),
        Ordering::Greater => back.pop_front(),
        Ordering::Equal => {
            let pair = front.pop_front()?;
            let other = back.pop_front()?;
            Some(with_more(pair, other.1))
        }
    }
}

/// The counts of both lists of words together.
fn merge<H: AtomKind>(
    alloc: Global,
    front: WordCounts<SetAtom<H>>,
    back: WordCounts<SetAtom<H>>,
) -> Result<WordCounts<SetAtom<H>>, AllocError>
    requires front { All (λ pair. pair.1 < 2 ^ 63) (counted_texts front.items) }
    requires back { All (λ pair. pair.1 < 2 ^ 63) (counted_texts back.items) }
    ensures { IfOk result (λ counts. counted_texts counts.items ≡ merged (counted_texts front.items) (counted_texts back.items)) }
{
    let mut front = VecDeque::from_vec(front);
    let mut back = VecDeque::from_vec(back);
    let mut counts = Vec::new(alloc);
    while let Some(pair) = take_lowest(&mut front, &mut back) {
        counts.push(pair)?;
    }
    Ok(counts)
}

/// The lists merged in pairs: the first with the second, the third with the fourth, and so on. The last of an odd number stays.
fn merge_pairs<H: AtomKind>(
    alloc: Global,
    lists: VecDeque<WordCounts<SetAtom<H>>>,
) -> Result<VecDeque<WordCounts<SetAtom<H>>>, AllocError>
    requires { AreCountsOfFew (all_counted_texts lists.items) }
    ensures counts { (words : List (List ℕ)) → AreCountsOf words (all_counted_texts lists.items)
        → IfOk result (λ merged. AreCountsOf words (all_counted_texts merged.items)) }
    ensures fewer { IfOk result (λ merged. 2 * deque_len merged ≤ deque_len lists + 1) }
{
    let mut lists = lists;
    let mut merged = VecDeque::new(alloc);
    while let Some(front) = lists.pop_front() {
        let list = match lists.pop_front() {
            Some(back) => merge(alloc, front, back)?,
            None => front,
        };
        merged.push_back(list)?;
    }
    Ok(merged)
}

/// The counts of the words of all lists together, merged in this thread: in pairs, again and again, until one list is left.
pub fn merge_here<H: AtomKind>(
    alloc: Global,
    lists: VecDeque<WordCounts<SetAtom<H>>>,
) -> Result<WordCounts<SetAtom<H>>, AllocError>
    requires { AreCountsOfFew (all_counted_texts lists.items) }
    ensures { IfOk result (λ counts. AreMerged lists.items counts) }
{
    let mut lists = lists;
    while lists.len() > 1 {
        lists = merge_pairs(alloc, lists)?;
    }
    Ok(lists.pop_front().unwrap_or(Vec::new(alloc)))
}

/// The counts of the words of both halves of the lists together. The first half is merged in a thread of its own, or in this one after the second
/// half if none can be started.
fn merge_halves<'e, R: Threads, Static: StaticTables + Send + Sync>(
    rt: &R,
    alloc: Global,
    lists: VecDeque<WordCounts<Atom<'e, Static>>>,
) -> Result<WordCounts<Atom<'e, Static>>, AllocError>
    requires { AreCountsOfFew (all_counted_texts lists.items) }
    ensures { IfOk result (λ counts. AreMerged lists.entry.items counts) }
{
    let mut lower = lists;
    let upper = lower.split_off(lower.len() / 2)?;
    let (front, back) = join(
        rt,
        move || -> Result<WordCounts<Atom<'_, Static>>, AllocError>
            requires { AreCountsOfFew (all_counted_texts lower.items) }
            ensures { IfOk result (λ counts. AreMerged lower.entry.items counts) }
        { merge_here(alloc, lower) },
        move || -> Result<WordCounts<Atom<'_, Static>>, AllocError>
            requires { AreCountsOfFew (all_counted_texts upper.items) }
            ensures { IfOk result (λ counts. AreMerged upper.entry.items counts) }
        { merge_here(alloc, upper) },
    );
    let front = front?;
    let back = back?;
    merge(alloc, front, back)
}

/// The number of words from which on it is worth a thread to merge a list of them, or to let their atoms go.
pub const MANY: usize = 1 << 10;

/// Whether none of the lists is worth a thread.
fn are_short<H: AtomKind>(lists: &VecDeque<WordCounts<SetAtom<H>>>) -> bool {
    lists.iter().all(|list| list.len() < MANY)
}

/// The counts of the words of all lists together. If there are four lists or more and one has many words, half of them are merged in a thread of
/// their own, if one can be started.
pub fn merge_all<'e, R: Threads, Static: StaticTables + Send + Sync>(
    rt: &R,
    alloc: Global,
    lists: VecDeque<WordCounts<Atom<'e, Static>>>,
) -> Result<WordCounts<Atom<'e, Static>>, AllocError>
    requires { AreCountsOfFew (all_counted_texts lists.items) }
    ensures { IfOk result (λ counts. AreMerged lists.entry.items counts) }
{
    if lists.len() < 4 || are_short(&lists) {
        return merge_here(alloc, lists);
    }
    merge_halves(rt, alloc, lists)
}
