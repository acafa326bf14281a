//! The search for one pair of displacements: it must give each of its texts a free place of its own.

ghost use Rattle.std.specs.Prelude.{◌≡◌, ◌<◌, ◌≤◌, ◌^◌, ◌↔◌, IsTrue, MatchOption, length};
ghost use Rattle.std.specs.Bool.{OnTrue, OnFalse};
ghost use Rattle.table_generator.specs.Places.{place_by, Fits, FitsAmong, IsPlaceOf, Marks, NoneFits};

use text_forms::phf::Hashes;

/// The displacements that are tried: all pairs of a first one and a second one below these numbers.
#[derive(Clone, Copy)]
pub struct Tried {
    /// A different first displacement gives the texts of a pair places at different distances.
    pub first: u32,
    /// A different second displacement moves them all.
    pub second: u32,
}

/// The place of a text with these hashes among `len` texts, under its pair of displacements.
pub fn place_by(hashes: &Hashes, pair: (u32, u32), len: u32) -> usize
    requires { 1 ≤ len }
    ensures place { result ≡ place_by len pair hashes.now }
    ensures listed { result < len }
{
    let (d1, d2) = pair;
    let sum = d2
        .wrapping_add(hashes.f1.wrapping_mul(d1))
        .wrapping_add(hashes.f2);
    (sum % len) as usize
}

/// Whether one of the texts has the place.
fn is_place_of(members: &[Hashes], pair: (u32, u32), len: u32, place: usize) -> bool
    requires { 1 ≤ len }
    ensures { IsTrue result ↔ IsPlaceOf len pair place members.now }
{
    members
        .iter()
        .any(|other| place_by(other, pair, len) == place)
}

/// Whether the pair gives the texts different places, none of which is taken. It stops at the first text for which it doesn't.
fn fits(members: &[Hashes], pair: (u32, u32), taken: &[bool]) -> bool
    requires listed { 1 ≤ length taken.now }
    requires few { length taken.now < 2 ^ 32 }
    ensures yes { OnTrue result (Fits taken.now members.now pair) }
    ensures no { OnFalse result (Fits taken.now members.now pair → ⊥) }
{
    let len = taken.len() as u32;
    for (i, member) in members.iter().enumerate() {
        let place = place_by(member, pair, len);
        if taken[place] || is_place_of(&members[..i], pair, len, place) {
            return false;
        }
    }
    true
}

/// The first pair of those to be tried, in the order of their first displacements, that gives the texts different places, none of
/// which is taken.
fn find_within(members: &[Hashes], tried: Tried, taken: &[bool]) -> Option<(u32, u32)>
    requires listed { 1 ≤ length taken.now }
    requires few { length taken.now < 2 ^ 32 }
    ensures { MatchOption result (NoneFits taken.now members.now tried) (FitsAmong taken.now members.now tried) }
{
    for d1 in 0..tried.first {
        for d2 in 0..tried.second {
            if fits(members, (d1, d2), taken) {
                return Some((d1, d2));
            }
        }
    }
    None
}

/// A pair of those to be tried that gives the texts different places, none of which is taken; `None` only if none does. It takes no memory.
///
/// If there are more second displacements to try than places, the search begins with as many of both as there are places, and doubles that each time:
/// a pair of small ones is found in a time that depends on them, however great the numbers of `tried` are.
pub fn find_pair(members: &[Hashes], tried: Tried, taken: &[bool]) -> Option<(u32, u32)>
    requires listed { 1 ≤ length taken.now }
    requires few { length taken.now < 2 ^ 32 }
    ensures { MatchOption result (NoneFits taken.now members.now tried) (FitsAmong taken.now members.now tried) }
{
    let mut within = taken.len() as u32;
    while within < tried.second {
        let near = Tried {
            first: tried.first.min(within),
            second: within,
        };
        if let Some(pair) = find_within(members, near, taken) {
            return Some(pair);
        }
        within = within.saturating_mul(2);
    }
    find_within(members, tried, taken)
}

/// Takes the places of the texts.
pub fn mark(members: &[Hashes], pair: (u32, u32), taken: &mut [bool])
    requires listed { 1 ≤ length taken.old }
    requires few { length taken.old < 2 ^ 32 }
    ensures { Marks members.now pair taken.old taken.new }
{
    let len = taken.len() as u32;
    for member in members {
        taken[place_by(member, pair, len)] = true;
    }
}
