//! Atoms of a set with a name as keys by their words.

use super::{Named, intern};
use named_set::SetName;
use std::collections::HashMap;
use std::hash::Hash;
use std::process::Abort;
use std::sync::Wait;
use string_cache::ByWord;
use test_calls::has_text;
use test_samples::One;

/// A map by words.
type Places<'s, N> = HashMap<ByWord<'s, One, N>, u32>;

/// The key of a text.
fn key_of<'s, N: SetName, R: Wait + Abort>(
    rt: &R,
    set: &'s Named<N>,
    text: &str,
) -> ByWord<'s, One, N> {
    ByWord::new(intern(rt, set, text))
}

/// Puts a place under the word of a text.
fn put<'s, N: SetName, R: Wait + Abort>(
    rt: &R,
    set: &'s Named<N>,
    places: &mut Places<'s, N>,
    text: &str,
    place: u32,
) {
    let before: Result<_, _> = places.insert(key_of(rt, set, text), place);
    let _ = before.expect(rt, "room");
}

/// Whether this is the place under a key.
fn has_place<K: Hash + Eq>(places: &HashMap<K, u32>, key: &K, place: Option<u32>) -> bool {
    places.get(key).copied() == place
}

/// Whether this is the place under the word of a text.
fn is_place_of<'s, N: SetName, R: Wait + Abort>(
    rt: &R,
    set: &'s Named<N>,
    places: &Places<'s, N>,
    text: &str,
    place: Option<u32>,
) -> bool {
    has_place(places, &key_of(rt, set, text), place)
}

/// Puts places under the words of two texts, and asks for them and for a third.
fn are_put<'s, N: SetName, R: Wait + Abort>(
    rt: &R,
    set: &'s Named<N>,
    places: &mut Places<'s, N>,
) -> bool {
    put(rt, set, places, "sentence", 1);
    put(rt, set, places, "tokenised", 2);
    is_place_of(rt, set, places, "sentence", Some(1))
        && is_place_of(rt, set, places, "tokenised", Some(2))
        && is_place_of(rt, set, places, "interned", None)
}

/// Whether a map by words has what was put there.
pub fn are_keys<N: SetName, R: Wait + Abort>(rt: &R, set: &Named<N>) -> bool {
    are_put(rt, set, &mut HashMap::new(set.allocator()))
}

/// Whether a key has the atom that it was made from.
pub fn is_key<N: SetName, R: Wait + Abort>(rt: &R, set: &Named<N>, text: &str) -> bool {
    let key = key_of(rt, set, text);
    let has = has_text(key.atom(), text);
    let atom = key.into_atom();
    has && has_text(&atom, text)
}
