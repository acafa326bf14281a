//! Calls that ask for no memory: `gate/refusals/refused.py` refuses every request between the two lines, and requires that there is none.

mod texts;

use crate::assert_that;
use crate::begun::{intern, intern_all, new_set, new_table, table_keys, word_in};
use crate::refusals::named;
use serde_json::Value;
use std::alloc::Global;
use std::cmp::Ordering;
use std::io::Print;
use std::process::Abort;
use std::sync::Wait;
use string_cache::dynamic_set::Set;
use string_cache::static_sets::{StaticAtomSet, StaticTables};
use string_cache::table::Table;
use string_cache::word::{Buckets, Limits};
use string_cache::{Atom, AtomList, DefaultAtom, EmptyStaticAtomSet, Fault};
use test_calls::{
    cloned, cloned_at, copied, interned, interned_owned, links, look_up, lowered, pop, push,
    read_json,
};
use test_refusals::{End, begin, finish};
use test_samples::One;

/// The word of the atom of a text.
fn atom_word<R: Wait + Abort, Static: StaticTables>(rt: &R, set: &Set<Static>, text: &str) -> u64 {
    interned(rt, set, text)
        .expect(rt, "an answer")
        .unsafe_data()
}

/// The word of the atom of an owned text.
fn own_word<R: Wait + Abort, Static: StaticTables>(rt: &R, set: &Set<Static>, own: String) -> u64 {
    interned_owned(rt, set, own)
        .expect(rt, "an answer")
        .unsafe_data()
}

/// Whether a text has this word in the set, also as an owned one, and in the table.
fn are_interned<R: Wait + Print + Abort, Static: StaticTables>(
    rt: &R,
    set: &Set<Static>,
    table: &mut Table<Static>,
    own: String,
    text: &str,
    word: u64,
) -> bool {
    begin(rt);
    let in_set = atom_word(rt, set, text) == word && own_word(rt, set, own) == word;
    let in_table = word_in(table, text);
    finish(rt, End::Given);
    in_set && in_table == Ok(word)
}

/// Checks that a text has this word in a new set and in a new table.
fn check_word<Static: StaticTables, R: Wait + Print + Abort>(
    rt: &R,
    alloc: Global,
    text: &str,
    word: u64,
) {
    let set: Set<Static> = new_set(rt, alloc);
    let own = String::from_str(alloc, text).expect(rt, "a text");
    assert_that(
        rt,
        are_interned(rt, &set, &mut new_table(rt, alloc), own, text, word),
    );
}

/// The word of "abcdefg".
const SHORT: u64 = 0x6766_6564_6362_6171;

#[test]
fn short_text_is_interned(rt: HostRuntime) {
    check_word::<EmptyStaticAtomSet, _>(&rt, rt.alloc(), "abcdefg", SHORT);
}

#[test]
fn static_text_is_interned(rt: HostRuntime) {
    check_word::<One, _>(&rt, rt.alloc(), "sentence", 2);
}

/// The JSON value of a text.
fn value_of<R: Wait + Abort, Static: StaticAtomSet>(
    rt: &R,
    set: &Set<Static>,
    text: &str,
) -> Value {
    let atom = intern(rt, set, text);
    atom.to_json(set.allocator()).expect(rt, "a value")
}

/// The word of the atom of a JSON value.
fn word_read<R: Wait + Abort>(rt: &R, set: &Set<One>, value: &Value) -> u64 {
    read_json(rt, set, value)
        .expect(rt, "an answer")
        .unsafe_data()
}

/// The words of the atoms of two JSON values.
fn words_read<R: Wait + Print + Abort>(
    rt: &R,
    set: &Set<One>,
    short: &Value,
    long: &Value,
) -> (u64, u64) {
    begin(rt);
    let words = (word_read(rt, set, short), word_read(rt, set, long));
    finish(rt, End::Given);
    words
}

/// The values of a short text and of a static one.
#[test]
fn json_is_read(rt: HostRuntime) {
    let set: Set<One> = new_set(&rt, rt.alloc());
    let short = value_of(&rt, &set, "abcdefg");
    let long = value_of(&rt, &set, "sentence");
    assert_that(&rt, words_read(&rt, &set, &short, &long) == (SHORT, 2));
}

/// The word of the atom in lower case.
fn lower_word<R: Wait + Abort>(rt: &R, set: &Set<One>, atom: &Atom<'_, One>) -> u64 {
    lowered(rt, set, atom).expect(rt, "an answer").unsafe_data()
}

/// The word of the atom in lower case, and again in lower case, which is then a clone.
fn word_lowered_twice<R: Wait + Abort>(rt: &R, set: &Set<One>, atom: &Atom<'_, One>) -> u64 {
    let lower = lowered(rt, set, atom).expect(rt, "an answer");
    lower_word(rt, set, &lower)
}

#[test]
fn lower_case_is_a_static_text(rt: HostRuntime) {
    let set: Set<One> = new_set(&rt, rt.alloc());
    let upper = intern(&rt, &set, "SENTENCE");
    begin(&rt);
    let word = word_lowered_twice(&rt, &set, &upper);
    finish(&rt, End::Given);
    assert_that(&rt, word == 2);
}

/// Whether clones of the atom of "interned", and the one that is found again, are equal to it. They end here.
fn are_cloned<R: Wait + Abort>(
    rt: &R,
    set: &Set<EmptyStaticAtomSet>,
    first: &DefaultAtom<'_>,
) -> bool {
    let clone = cloned(rt, first).expect(rt, "a clone");
    let again = copied(rt, first).expect(rt, "a copy");
    clone == *first && again == *first && intern(rt, set, "interned") == *first
}

/// Whether the atom isn't the other one, and goes before it.
fn goes_before(first: &DefaultAtom<'_>, other: &DefaultAtom<'_>) -> bool {
    first != other && first.cmp(other) == Ordering::Less
}

/// Whether the atom is cloned, compared with the other one and dropped, after which that one is left.
fn leaves_alone<R: Wait + Print + Abort>(
    rt: &R,
    set: &Set<EmptyStaticAtomSet>,
    first: DefaultAtom<'_>,
    other: &DefaultAtom<'_>,
) -> bool {
    begin(rt);
    let are_right = are_cloned(rt, set, &first) && goes_before(&first, other);
    drop(first);
    let linked = set.linked(rt);
    finish(rt, End::Given);
    are_right && linked == 1 && other.as_str() == "tokenised"
}

#[test]
fn atoms_are_cloned_compared_and_dropped(rt: HostRuntime) {
    let set: Set<EmptyStaticAtomSet> = new_set(&rt, rt.alloc());
    let other = intern(&rt, &set, "tokenised");
    assert_that(
        &rt,
        leaves_alone(&rt, &set, intern(&rt, &set, "interned"), &other),
    );
}

/// The number of entries that stay linked when the set is swept.
fn left_by_sweep<R: Wait>(rt: &R, set: &Set<EmptyStaticAtomSet>) -> u128 {
    set.sweep(rt);
    set.linked(rt)
}

#[test]
fn sets_are_swept(rt: HostRuntime) {
    let set: Set<EmptyStaticAtomSet> = new_set(&rt, rt.alloc());
    let atom = intern(&rt, &set, "interned");
    begin(&rt);
    let held = left_by_sweep(&rt, &set);
    drop(atom);
    let left = left_by_sweep(&rt, &set);
    finish(&rt, End::Given);
    assert_that(&rt, (held, left) == (1, 0));
}

/// The number of holders that all entries have.
fn holders<R: Wait>(rt: &R, set: &Set<EmptyStaticAtomSet>) -> u64 {
    let mut holders = 0u64;
    set.for_each(rt, |_, count| holders = holders.saturating_add(count));
    holders
}

/// Whether the set shows its one entry, which the atom holds.
fn is_visited<R: Wait + Print>(
    rt: &R,
    set: &Set<EmptyStaticAtomSet>,
    atom: &DefaultAtom<'_>,
) -> bool {
    begin(rt);
    let (holders, bytes) = (holders(rt, set), set.memory(rt));
    finish(rt, End::Given);
    holders == 1 && bytes == 4096 * 32 + 48 + 32 + 8 && atom.as_str() == "interned"
}

#[test]
fn entries_are_visited(rt: HostRuntime) {
    let set = new_set(&rt, rt.alloc());
    assert_that(&rt, is_visited(&rt, &set, &intern(&rt, &set, "interned")));
}

/// A set whose one entry died under the lock of its bucket, which is that of "interned", and is still linked.
fn with_dying_entry<R: Wait + Abort>(rt: &R, alloc: Global) -> Set<EmptyStaticAtomSet> {
    let set = new_set(rt, alloc);
    let atom = intern(rt, &set, "interned");
    let held = set.buckets().get(0x210).expect(rt, "a bucket").lock(rt);
    drop(atom);
    drop(held);
    set
}

/// What is left in it goes with it.
#[test]
fn set_ends_with_an_entry(rt: HostRuntime) {
    let set = with_dying_entry(&rt, rt.alloc());
    let linked = set.linked(&rt);
    begin(&rt);
    drop(set);
    finish(&rt, End::Given);
    assert_that(&rt, linked == 1);
}

/// A set of one bucket whose 18 entries, which are in five nodes, died under its lock. Before, they went one by one.
fn with_many_dying<R: Wait + Abort>(rt: &R, alloc: Global) -> Set<EmptyStaticAtomSet> {
    let buckets = Buckets::new(0).expect(rt, "bits");
    let set = Set::with_buckets(alloc, Limits::greatest(), buckets).expect(rt, "a set");
    let texts = [
        "interned",
        "tokenised",
        "sentence",
        "repeated",
        "forgotten",
        "magnitude",
        "afterwards",
        "geometric",
        "elsewhere",
        "character",
        "paragraph",
        "compiler",
        "identifier",
        "dictionary",
        "arithmetic",
        "alphabet",
        "direction",
        "telephone",
    ];
    drop(intern_all(rt, &set, &texts));
    let atoms = intern_all(rt, &set, &texts);
    let held = set.buckets().get(0).expect(rt, "a bucket").lock(rt);
    drop(atoms);
    drop(held);
    set
}

#[test]
fn set_ends_with_five_nodes(rt: HostRuntime) {
    let set = with_many_dying(&rt, rt.alloc());
    let linked = set.linked(&rt);
    begin(&rt);
    drop(set);
    finish(&rt, End::Given);
    assert_that(&rt, linked == 18);
}

/// Whether the text is found.
fn is_found<R: Wait + Abort>(rt: &R, set: &Set<One>, text: &str) -> bool {
    look_up(rt, set, text).expect(rt, "an answer").is_some()
}

/// Whether the atom is found by its text.
fn is_found_again<R: Wait>(rt: &R, set: &Set<One>, held: &Atom<'_, One>) -> bool {
    match look_up(rt, set, held.as_str()) {
        Ok(Some(found)) => found == *held,
        _ => false,
    }
}

/// Whether a text with a clone of its atom beside it is refused one more holder.
fn is_full<R: Wait + Abort>(rt: &R, set: &Set<One>, held: &Atom<'_, One>) -> bool {
    let _clone = cloned(rt, held).expect(rt, "a clone");
    look_up(rt, set, held.as_str()).err() == Some(Fault::FullCount)
}

/// Whether the atom's text is found, and is then full, and an inline and a static text are found, and no other.
fn are_looked_up<R: Wait + Abort>(rt: &R, set: &Set<One>, held: &Atom<'_, One>) -> bool {
    is_found_again(rt, set, held)
        && is_found(rt, set, "abcdefg")
        && is_found(rt, set, "sentence")
        && !is_found(rt, set, "tokenised")
        && is_full(rt, set, held)
}

/// What is full once it is found, too.
#[test]
fn texts_are_looked_up(rt: HostRuntime) {
    let limits = Limits::new(2, 9).expect(&rt, "limits");
    let set: Set<One> = Set::with_limits(rt.alloc(), limits).expect(&rt, "a set");
    let held = intern(&rt, &set, "interned");
    begin(&rt);
    let are_right = are_looked_up(&rt, &set, &held);
    finish(&rt, End::Given);
    assert_that(&rt, are_right);
}

/// Spends the one serial of the bucket of "interned".
fn spend<R: Abort>(rt: &R, table: &mut Table<EmptyStaticAtomSet>) {
    let word = table.intern("interned").expect(rt, "a word");
    table.give(word);
}

/// What the set returns for the text, in each way to pass it.
fn refused_thrice<R: Wait>(
    rt: &R,
    set: &Set<EmptyStaticAtomSet>,
    text: String,
    value: &Value,
) -> [Option<Fault>; 3] {
    [
        interned(rt, set, "interned").err(),
        interned_owned(rt, set, text).err(),
        read_json(rt, set, value).err(),
    ]
}

/// Whether that is returned without a request, and is each time that the tickets are spent.
fn is_spent<R: Wait + Print>(
    rt: &R,
    set: &Set<EmptyStaticAtomSet>,
    text: String,
    value: &Value,
) -> bool {
    begin(rt);
    let refused = refused_thrice(rt, set, text, value);
    finish(rt, End::Given);
    refused == [Some(Fault::TicketsSpent); 3]
}

/// Whether or not memory is there.
#[test]
fn tickets_of_a_set_are_spent(rt: HostRuntime) {
    let limits = Limits::new(9, 1).expect(&rt, "limits");
    let set: Set<EmptyStaticAtomSet> = Set::with_limits(rt.alloc(), limits).expect(&rt, "a set");
    let text = String::from_str(rt.alloc(), "interned").expect(&rt, "a text");
    assert_that(
        &rt,
        is_spent(&rt, &set, text, &value_of(&rt, &set, "interned")),
    );
}

/// A table whose texts may have this many holders, and its buckets this many serials.
fn limited_table<R: Abort>(
    rt: &R,
    alloc: Global,
    holders: u64,
    serials: u64,
) -> Table<EmptyStaticAtomSet> {
    let limits = Limits::new(holders, serials).expect(rt, "limits");
    Table::with_limits(alloc, table_keys(rt), limits).expect(rt, "a table")
}

/// Why "interned" is refused once its bucket's one serial is spent.
fn refused_once_spent<R: Print + Abort>(
    rt: &R,
    table: &mut Table<EmptyStaticAtomSet>,
) -> Option<Fault> {
    spend(rt, table);
    begin(rt);
    let refused = word_in(table, "interned").err();
    finish(rt, End::Given);
    refused
}

#[test]
fn tickets_of_a_table_are_spent(rt: HostRuntime) {
    let refused = refused_once_spent(&rt, &mut limited_table(&rt, rt.alloc(), 9, 1));
    assert_that(&rt, refused == Some(Fault::TicketsSpent));
}

/// Whether the table lends the text "interned" of this word.
fn is_lent(table: &Table<One>, word: u64) -> bool {
    match table.text_of(word) {
        Some(text) => text.as_str() == "interned",
        None => false,
    }
}

/// Whether the first that the table lists is this word, with its holders.
fn is_listed(table: &Table<One>, word: u64) -> bool {
    match table.iter().next() {
        Some(held) => held.word == word && table.holders(word) == Some(held.holders),
        None => false,
    }
}

/// Whether a holder of the word comes and goes, and none of a number that the table doesn't hold.
fn comes_and_goes(table: &mut Table<One>, word: u64) -> bool {
    table.clone_held(word) == Ok(Some(word))
        && table.release(word)
        && table.clone_held(4) == Ok(None)
        && !table.release(4)
}

/// What a table tells about "interned", and about a text and a number that it doesn't hold; a holder comes and goes, and then all go.
fn is_told(table: &mut Table<One>, word: u64) -> bool {
    let is_found = table.get("interned") == Some(word) && table.get("tokenised").is_none();
    let is_told = is_lent(table, word) && is_listed(table, word) && comes_and_goes(table, word);
    table.clear();
    is_found && is_told
}

/// Whether that is told, and nothing stays but the groups.
fn is_looked_into<R: Print + Abort>(rt: &R, table: &mut Table<One>) -> bool {
    let word = word_in(table, "interned").expect(rt, "a word");
    begin(rt);
    let is_told = is_told(table, word);
    let bytes = table.memory();
    finish(rt, End::Given);
    is_told && table.entries() == 0 && bytes == 4096 * 8 + 496 + 208 + 1
}

#[test]
fn table_is_looked_into(rt: HostRuntime) {
    assert_that(&rt, is_looked_into(&rt, &mut new_table(&rt, rt.alloc())));
}

/// A list of atoms without static texts.
type DefaultList<'s> = AtomList<'s, EmptyStaticAtomSet>;

/// Whether the list has an atom at this place.
fn is_cloned<R: Wait + Abort>(rt: &R, list: &DefaultList<'_>, at: usize) -> bool {
    cloned_at(rt, list, at).expect(rt, "an answer").is_some()
}

/// Whether "interned" is read in the list of it and a short text, which is cleared, and then has room for another text.
fn is_read_and_cleared<R: Wait + Abort>(rt: &R, list: &mut DefaultList<'_>) -> bool {
    let has_text = list.get(0) == Some("interned") && list.iter().len() == 2;
    let is_cloned = is_cloned(rt, list, 0) && is_cloned(rt, list, 1) && !is_cloned(rt, list, 2);
    list.clear();
    let is_empty = pop(list).is_none();
    has_text && is_cloned && is_empty && push(rt, list, "ab") == Ok(())
}

fn new_list_is_empty(set: &Set<EmptyStaticAtomSet>) -> bool {
    AtomList::new(set).is_empty()
}

/// A list is read and cleared, and a second one is made without places.
#[test]
fn list_is_read_and_cleared(rt: HostRuntime) {
    let set: Set<EmptyStaticAtomSet> = new_set(&rt, rt.alloc());
    let mut list = AtomList::new(&set);
    push(&rt, &mut list, "interned").expect(&rt, "a place");
    push(&rt, &mut list, "short").expect(&rt, "a place");
    begin(&rt);
    let are_right = is_read_and_cleared(&rt, &mut list) && new_list_is_empty(&set);
    finish(&rt, End::Given);
    assert_that(&rt, are_right && links(&rt, &set, 0));
}

/// What is held in a set with a name is interned again, looked up, cloned, shown and dropped.
#[test]
fn atom_of_a_set_with_a_name_is_given_again(rt: HostRuntime) {
    named::check(&rt, rt.alloc(), named::Call::Unasked);
}

/// A text is refused in a set with a name, too, once its tickets are spent.
#[test]
fn tickets_of_a_set_with_a_name_are_spent(rt: HostRuntime) {
    named::check(&rt, rt.alloc(), named::Call::Spent);
}
