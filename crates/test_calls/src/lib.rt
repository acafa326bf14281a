//! Calls of sets and atoms that tests of several crates make. All but the hash of a text say nothing about what they do, so that the proof of a test
//! has less to read. What ends a test that goes wrong is in each crate of tests, since a library may not abort.
#![tactic(auto)]

ghost use Rattle.std.specs.Prelude.{◌≡◌};
ghost use Rattle.text_forms.specs.Tables.{entry_hash};

use serde_json::Value;
use std::alloc::Global;
use std::borrow::CowStr;
use std::convert::AsStr;
use std::sync::{MutexGuard, Wait};
use string_cache::atom::AtomOf;
use string_cache::dynamic_set::{Bucket, Set};
use string_cache::phf::hash;
use string_cache::static_sets::{EmptyStaticAtomSet, StaticAtomSet, StaticTables};
use string_cache::word::{Buckets, Limits};
use string_cache::{AtomKind, Fault, SetAtom, SetList, SharedSet, TextSet};

/// The hash of a text's entry.
#[tactic(auto, unfolding(text_forms::specs::Tables::entry_hash))]
pub fn hash_of<Static: StaticAtomSet>(text: &str) -> u64
    ensures { result ≡ entry_hash Static.tables text.now }
{
    hash(text, Static::get().key).entry_hash()
}

/// Whether this many texts are linked.
pub fn links<S: SharedSet, R: Wait>(rt: &R, set: S, count: u128) -> bool {
    set.linked(rt) == count
}

/// A set of the usual limits, if there is memory.
pub fn made<Static: StaticTables>(alloc: Global) -> Option<Set<Static>> {
    Set::new(alloc).ok()
}

/// One whose entries may have this many holders, and its buckets this many serials, if there is memory and a set may have these.
pub fn limited<Static: StaticTables>(
    alloc: Global,
    holders: u64,
    serials: u64,
) -> Option<Set<Static>> {
    Set::with_limits(alloc, Limits::new(holders, serials)?).ok()
}

/// One of this many buckets, if there is memory.
pub fn made_with<Static: StaticTables>(alloc: Global, buckets: Buckets) -> Option<Set<Static>> {
    Set::with_buckets(alloc, Limits::greatest(), buckets).ok()
}

/// The lock of a bucket, held, if there is such a bucket.
pub fn locked<'s, R: Wait, Static: StaticTables>(
    rt: &R,
    set: &'s Set<Static>,
    at: usize,
) -> Option<MutexGuard<'s, Bucket<Static>>> {
    Some(set.buckets().get(at)?.lock(rt))
}

/// The atom of a text, unless it is refused.
pub fn interned<S: TextSet, R: Wait>(
    rt: &R,
    set: S,
    text: &str,
) -> Result<SetAtom<S::Held>, Fault> {
    AtomOf::from_str_in(rt, set, text)
}

/// The atom of a text that the set has, unless it is refused.
pub fn look_up<S: TextSet, R: Wait>(
    rt: &R,
    set: S,
    text: &str,
) -> Result<Option<SetAtom<S::Held>>, Fault> {
    AtomOf::get_in(rt, set, text)
}

/// A clone of an atom, unless it is refused.
pub fn cloned<H: AtomKind, R: Wait>(rt: &R, atom: &SetAtom<H>) -> Result<SetAtom<H>, Fault> {
    atom.clone_atom(rt)
}

/// An atom of another's text, unless it is refused.
pub fn copied<H: AtomKind, R: Wait>(rt: &R, atom: &SetAtom<H>) -> Result<SetAtom<H>, Fault> {
    AtomOf::from_atom(rt, atom)
}

/// The atom of a text that is owned, unless it is refused.
pub fn interned_owned<S: TextSet, R: Wait>(
    rt: &R,
    set: S,
    text: String,
) -> Result<SetAtom<S::Held>, Fault> {
    AtomOf::from_string_in(rt, set, text)
}

/// That of one which may be owned.
pub fn interned_cow<S: TextSet, R: Wait>(
    rt: &R,
    set: S,
    text: CowStr<'_>,
) -> Result<SetAtom<S::Held>, Fault> {
    AtomOf::from_cow_in(rt, set, text)
}

/// The JSON text of an atom, unless it is refused.
pub fn json_of<H: AtomKind>(atom: &SetAtom<H>, alloc: Global) -> Result<Value, Fault> {
    atom.to_json(alloc)
}

/// The atom of a JSON text, unless it is refused.
pub fn read_json<S: TextSet, R: Wait>(
    rt: &R,
    set: S,
    value: &Value,
) -> Result<SetAtom<S::Held>, Fault> {
    AtomOf::from_json_in(rt, set, value)
}

/// The atom in lower case, unless it is refused.
pub fn lowered<S: TextSet, R: Wait>(
    rt: &R,
    set: S,
    atom: &SetAtom<S::Held>,
) -> Result<SetAtom<S::Held>, Fault> {
    atom.to_ascii_lowercase_in(rt, set)
}

/// The atom in upper case, unless it is refused.
pub fn raised<S: TextSet, R: Wait>(
    rt: &R,
    set: S,
    atom: &SetAtom<S::Held>,
) -> Result<SetAtom<S::Held>, Fault> {
    atom.to_ascii_uppercase_in(rt, set)
}

/// Gives a text a place in a list, unless it is refused.
pub fn push<S: SharedSet, R: Wait>(rt: &R, list: &mut SetList<S>, text: &str) -> Result<(), Fault> {
    list.push_str(rt, text)
}

/// Takes the last atom from a list.
pub fn pop<S: SharedSet>(list: &mut SetList<S>) -> Option<SetAtom<S::Held>> {
    list.pop()
}

/// The atom at a place of a list, unless it is refused.
pub fn cloned_at<S: SharedSet, R: Wait>(
    rt: &R,
    list: &SetList<S>,
    at: usize,
) -> Result<Option<SetAtom<S::Held>>, Fault> {
    list.clone_atom(rt, at)
}

/// Why a text is refused.
pub fn refusal<S: TextSet, R: Wait>(rt: &R, set: S, text: &str) -> Option<Fault> {
    interned(rt, set, text).err()
}

/// What has a word. What only asks for words and texts takes any such type, since it takes long to prove what an atom's own says of sets.
pub trait HasWord {
    /// The word.
    fn own_word(&self) -> u64;
}

impl<H: AtomKind> HasWord for SetAtom<H> {
    fn own_word(&self) -> u64 {
        self.unsafe_data()
    }
}

/// Whether the atom has this word.
pub fn has_word<A: HasWord>(atom: &A, word: u64) -> bool {
    atom.own_word() == word
}

/// Whether the atom has this text.
pub fn has_text<A: AsStr>(atom: &A, text: &str) -> bool {
    atom.as_str() == text
}

/// Whether the atom has this word and this text.
pub fn is_of<A: HasWord + AsStr>(atom: &A, word: u64, text: &str) -> bool {
    has_word(atom, word) && has_text(atom, text)
}

/// Whether both have the same word.
pub fn are_one<A: HasWord>(one: &A, other: &A) -> bool {
    one.own_word() == other.own_word()
}

/// A set without static texts.
pub type DefaultSet = Set<EmptyStaticAtomSet>;

/// The bits of buckets that tests take: one bucket, the usual number, and the most.
pub static BITS: [u8; 3] = [0, 12, 14];

/// What a visit of a set's entries shows: how many there are, how many holders they have together, and the fewest and the most that an entry has.
#[derive(Clone, Copy)]
pub struct Visit {
    pub entries: u64,
    pub holders: u64,
    pub fewest: u64,
    pub most: u64,
}

impl Visit {
    fn add(&mut self, holders: u64) {
        self.entries = self.entries.saturating_add(1);
        self.holders = self.holders.saturating_add(holders);
        self.fewest = self.fewest.min(holders);
        self.most = self.most.max(holders);
    }
}

pub fn shown<S: SharedSet, R: Wait>(rt: &R, set: S) -> Visit {
    let mut shown = Visit {
        entries: 0,
        holders: 0,
        fewest: u64::MAX,
        most: 0,
    };
    set.for_each(rt, |_, holders| shown.add(holders));
    shown
}

/// The text of a number: `w0000000`, `w0000001` and so on. `None` if there is no memory for it.
pub fn numbered(alloc: Global, n: usize) -> Option<String> {
    format!(in alloc; "w{n:07}").ok()
}

/// Whether the text is found with this word.
pub fn is_found<S: SharedSet, R: Wait>(rt: &R, set: S, text: &str, word: u64) -> bool {
    match look_up(rt, set, text) {
        Ok(Some(atom)) => is_of(&atom, word, text),
        _ => false,
    }
}
