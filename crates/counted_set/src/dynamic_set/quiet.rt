//! Asks the entries of a node in order, as long as they stay. It goes straight from place to place, since a walk over a bucket does little else.

ghost use Rattle.std.specs.Prelude.{◌≡◌, ◌≤◌, ◌<◌, ◌∷◌, ◌↔◌, [], IsTrue, Some, length, drop};
ghost use Rattle.counted_set.specs.Quiet.{Meets};
ghost use Rattle.node_chain.specs.Packs.{most_items};

use super::counts::Counts;
use super::share::Entry;
use counted_cell::Grant;
use node_chain::Pack;

/// What ends a walk over entries. An entry that was asked and isn't dying is quiet.
#[derive(Drop)]
pub(super) enum Met<D> {
    /// Nothing: all are quiet.
    Nothing,
    /// The entry at this place of its node was asked, and is dying, as the second value shows.
    Dying(usize, D),
    /// The entry at this place of its node has the wanted hash. It wasn't asked.
    Alike(usize),
}

/// Asks the entries of a node from a place on, where there must be one, until one is dying or has the wanted hash.
pub(super) fn meet_from<G: Grant, C: Counts<G>>(
    node: &Pack<Entry>,
    place: usize,
    wanted: Option<u64>,
    counts: &mut C,
) -> Met<C::Gone>
    requires { place < length node.now }
    ensures { Meets C.gives C.shows_gone wanted place counts.old (drop place node.now) result counts.new }
{
    match place {
        0 => meet_all(node, wanted, counts),
        1 => meet_from_second(node, wanted, counts),
        2 => meet_from_third(node, wanted, counts),
        _ => meet_fourth(node, wanted, counts),
    }
}

// All entries of a node.
fn meet_all<G: Grant, C: Counts<G>>(
    node: &Pack<Entry>,
    wanted: Option<u64>,
    counts: &mut C,
) -> Met<C::Gone>
    ensures { Meets C.gives C.shows_gone wanted 0 counts.old (drop 0 node.now) result counts.new }
{
    match node.get(0) {
        Some(entry) => match meet(entry, 0, wanted, counts) {
            Met::Nothing => meet_from_second(node, wanted, counts),
            met => met,
        },
        None => Met::Nothing,
    }
}

// Those after the first.
fn meet_from_second<G: Grant, C: Counts<G>>(
    node: &Pack<Entry>,
    wanted: Option<u64>,
    counts: &mut C,
) -> Met<C::Gone>
    ensures { Meets C.gives C.shows_gone wanted 1 counts.old (drop 1 node.now) result counts.new }
{
    match node.get(1) {
        Some(entry) => match meet(entry, 1, wanted, counts) {
            Met::Nothing => meet_from_third(node, wanted, counts),
            met => met,
        },
        None => Met::Nothing,
    }
}

// Those after the second.
fn meet_from_third<G: Grant, C: Counts<G>>(
    node: &Pack<Entry>,
    wanted: Option<u64>,
    counts: &mut C,
) -> Met<C::Gone>
    ensures { Meets C.gives C.shows_gone wanted 2 counts.old (drop 2 node.now) result counts.new }
{
    match node.get(2) {
        Some(entry) => match meet(entry, 2, wanted, counts) {
            Met::Nothing => meet_fourth(node, wanted, counts),
            met => met,
        },
        None => Met::Nothing,
    }
}

// The fourth, which is the last.
fn meet_fourth<G: Grant, C: Counts<G>>(
    node: &Pack<Entry>,
    wanted: Option<u64>,
    counts: &mut C,
) -> Met<C::Gone>
    ensures met { Meets C.gives C.shows_gone wanted 3 counts.old (drop 3 node.now) result counts.new }
    ensures few { length node.now ≤ most_items }
{
    match node.get(3) {
        Some(entry) => meet(entry, 3, wanted, counts),
        None => Met::Nothing,
    }
}

// One entry, at this place of its node.
fn meet<G: Grant, C: Counts<G>>(
    entry: &Entry,
    place: usize,
    wanted: Option<u64>,
    counts: &mut C,
) -> Met<C::Gone>
    ensures { Meets C.gives C.shows_gone wanted place counts.old (entry.now ∷ []) result counts.new }
{
    if is_alike(entry, wanted) {
        Met::Alike(place)
    } else {
        match counts.dying(entry) {
            Some(gone) => Met::Dying(place, gone),
            None => Met::Nothing,
        }
    }
}

// Whether a hash is wanted and is the entry's.
fn is_alike(entry: &Entry, wanted: Option<u64>) -> bool
    ensures { IsTrue result ↔ (wanted ≡ Some entry.now.hash) }
{
    match wanted {
        Some(hash) => entry.has_hash(hash),
        None => false,
    }
}
