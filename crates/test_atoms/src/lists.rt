//! Lists of atoms of one set: what they hold, and that what is taken out of them is given back.

mod many;

use crate::samples::{check_linked, crosses, end, intern, new_set};
use crate::sets::{self, ONE_BUCKET, Size, USUAL, ask, within};
use crate::together::Together;
use crate::{assert_for, assert_that};
use std::alloc::Global;
use std::process::Abort;
use std::sync::Wait;
use std::thread::{self, Threads};
use std::time::Clock;
use string_cache::dynamic_set::Set;
use string_cache::word::ticket_word;
use string_cache::{AtomList, Fault, ListOf, SetAtom, SetList, SharedSet};
use test_calls::{are_one, cloned, cloned_at, has_text, is_of, links, pop, push};
use test_samples::One;

/// What is done with a new set.
#[derive(Clone, Copy)]
pub enum Scene {
    EachForm,
    NarrowSet,
    PlacesGo,
    FilledAgain,
    LongList,
    LongListCleared,
    MillionPlaces,
    Texts,
    Tickets,
    EndsUnderLock,
    FixedUnderLock,
    FullUnderLock,
    TwoThreads,
}

/// Plays the scene in a set.
fn act<S: SharedSet + Together + Send + Sync, R: Threads + Wait + Abort + Sync>(
    rt: &R,
    set: S,
    scene: Scene,
) {
    match scene {
        Scene::EachForm => lend_each_form(rt, set, &list_of(rt, set, &FORMS)),
        Scene::NarrowSet => fill_narrow_set(rt, set, &mut list_of(rt, set, &TWICE)),
        Scene::PlacesGo => take_places(rt, set, &mut list_of(rt, set, &FOUR)),
        Scene::FilledAgain => fill_again(rt, set, &mut list_of(rt, set, &THREE)),
        Scene::LongList => many::find_in_long_list(rt, set),
        Scene::LongListCleared => many::clear_long_list(rt, set),
        Scene::MillionPlaces => many::fill_million_places(rt, set),
        Scene::Texts => hold_each_text(rt, set),
        Scene::Tickets => take_tickets(rt, set),
        Scene::EndsUnderLock => end_under_lock(rt, set),
        Scene::FixedUnderLock => fill_under_lock(rt, set),
        Scene::FullUnderLock => refuse_under_lock(rt, set),
        Scene::TwoThreads => fill_in_two(rt, set),
    }
}

/// Plays the scene in a set, which has no text afterwards.
pub fn play<S: SharedSet + Together + Send + Sync, R: Threads + Wait + Abort + Sync>(
    rt: &R,
    set: S,
    scene: Scene,
) {
    act(rt, set, scene);
    check_linked(rt, set, 0);
}

/// Plays it in a new set of this size, of each kind.
fn play_both<R: Threads + Clock + Wait + Abort + Sync>(
    rt: &R,
    alloc: Global,
    size: Size,
    scene: Scene,
) {
    ask(rt, alloc, size, sets::Question::Lists(scene));
}

/// A list of these texts.
fn list_of<S: SharedSet, R: Wait + Abort>(rt: &R, set: S, texts: &[&str]) -> SetList<S> {
    let mut list = ListOf::new(set);
    for text in texts {
        push(rt, &mut list, text).expect(rt, "a place");
    }
    list
}

/// Whether the list has this text at this place.
fn has_at<S: SharedSet>(list: &SetList<S>, at: usize, text: &str) -> bool {
    list.get(at) == Some(text)
}

/// Whether the list has these texts, at their places and in their order.
fn has_each<S: SharedSet>(list: &SetList<S>, texts: &[&str]) -> bool {
    let mut left = list.iter();
    for (at, text) in texts.iter().enumerate() {
        if !has_at(list, at, text) || left.next() != Some(*text) {
            return false;
        }
    }
    list.get(texts.len()).is_none() && left.next().is_none()
}

/// Whether the list has these texts, by each call that tells them.
fn has_texts<S: SharedSet>(list: &SetList<S>, texts: &[&str]) -> bool {
    list.len() == texts.len()
        && list.is_empty() == texts.is_empty()
        && list.iter().len() == texts.len()
        && list.iter().size_hint() == (texts.len(), Some(texts.len()))
        && has_each(list, texts)
}

/// Whether the list has these texts, and the set this many entries.
fn holds<S: SharedSet, R: Wait>(
    rt: &R,
    set: S,
    list: &SetList<S>,
    texts: &[&str],
    entries: u128,
) -> bool {
    has_texts(list, texts) && links(rt, set, entries)
}

/// The atom at a place.
fn atom_at<S: SharedSet, R: Wait + Abort>(
    rt: &R,
    list: &SetList<S>,
    at: usize,
) -> Option<SetAtom<S::Held>> {
    cloned_at(rt, list, at).expect(rt, "an answer")
}

/// Whether the atom at a place is that of its text: of the same word, and equal.
fn lends_own_atom<S: SharedSet, R: Wait + Abort>(
    rt: &R,
    list: &SetList<S>,
    at: usize,
    own: &SetAtom<S::Held>,
    text: &str,
) -> bool {
    match atom_at(rt, list, at) {
        Some(atom) => are_one(&atom, own) && has_text(&atom, text),
        None => false,
    }
}

/// Whether there is no such place, and so no atom.
fn lends_none<S: SharedSet, R: Wait + Abort>(rt: &R, list: &SetList<S>, at: usize) -> bool {
    atom_at(rt, list, at).is_none()
}

/// An inline text, a static one, and two that are dynamic, one of them not ASCII.
static FORMS: [&str; 5] = ["é", "sentence", "interned", "", "Überfluß"];

/// A list of each form lends the atoms of its texts, and none after them.
fn lend_each_form<S: SharedSet, R: Wait + Abort>(rt: &R, set: S, list: &SetList<S>) {
    assert_that(rt, holds(rt, set, list, &FORMS, 2));
    for (at, text) in FORMS.iter().enumerate() {
        assert_for(
            rt,
            lends_own_atom(rt, list, at, &intern(rt, set, text), text),
            &at,
        );
    }
    assert_that(rt, lends_none(rt, list, 5));
}

#[test]
fn list_of_each_form(rt: HostRuntime) {
    play_both(&rt, rt.alloc(), USUAL, Scene::EachForm);
}

/// The list, used where one that borrows its set for a shorter time is asked for.
fn shortened<'l, 's>(list: &'l AtomList<'s, One>) -> &'l AtomList<'l, One> {
    list
}

#[test]
fn list_stands_for_a_shorter_time(rt: HostRuntime) {
    let set = new_set(&rt, rt.alloc());
    assert_that(&rt, shortened(&AtomList::new(&set)).is_empty());
}

/// Whether the last place is of this word and text, and the set then has this many entries with what the list has left.
fn pops<S: SharedSet, R: Wait>(
    rt: &R,
    set: S,
    list: &mut SetList<S>,
    of: (u64, &str),
    left: u128,
) -> bool {
    match pop(list) {
        Some(atom) => is_of(&atom, of.0, of.1) && links(rt, set, left.saturating_add(1)),
        None => false,
    }
}

/// Whether the list has a last place to take.
fn has_last<S: SharedSet>(list: &mut SetList<S>) -> bool {
    pop(list).is_some()
}

/// Four texts, two of which are the same.
static FOUR: [&str; 4] = ["interned", "a", "interned", "geometric"];

/// Takes and cuts off the places of a list of the four, until it has none.
fn take_places<S: SharedSet, R: Wait + Abort>(rt: &R, set: S, list: &mut SetList<S>) {
    assert_that(
        rt,
        pops(rt, set, list, (ticket_word(1, 0xfff), "geometric"), 1),
    );
    list.truncate(9);
    assert_that(rt, holds(rt, set, list, &["interned", "a", "interned"], 1));
    list.truncate(1);
    assert_that(rt, holds(rt, set, list, &["interned"], 1));
    assert_that(
        rt,
        pops(rt, set, list, (ticket_word(1, 0x210), "interned"), 0),
    );
    assert_that(rt, !has_last(list) && holds(rt, set, list, &[], 0));
}

/// By OpenSSL's SipHash "interned" is in bucket 0x210 and "geometric" in 0xfff.
#[test]
fn places_go_from_the_last_on(rt: HostRuntime) {
    play_both(&rt, rt.alloc(), USUAL, Scene::PlacesGo);
}

/// Two texts that are dynamic, and one that is inline.
static THREE: [&str; 3] = ["interned", "Überfluß", "ab"];

fn fill_again<S: SharedSet, R: Wait + Abort>(rt: &R, set: S, list: &mut SetList<S>) {
    list.clear();
    assert_that(rt, holds(rt, set, list, &[], 0));
    push(rt, list, "tokenised").expect(rt, "a place");
    assert_that(rt, holds(rt, set, list, &["tokenised"], 1));
}

#[test]
fn cleared_list_is_filled_again(rt: HostRuntime) {
    play_both(&rt, rt.alloc(), USUAL, Scene::FilledAgain);
}

/// One text, two times.
static TWICE: [&str; 2] = ["interned", "interned"];

/// Whether the list's every way to one more holder of "interned" is refused, and leaves it as it was.
fn is_full<S: SharedSet, R: Wait>(rt: &R, list: &mut SetList<S>) -> bool {
    push(rt, list, "interned") == Err(Fault::FullCount)
        && cloned_at(rt, list, 0).err() == Some(Fault::FullCount)
        && has_texts(list, &TWICE)
}

fn fill_narrow_set<S: SharedSet, R: Wait + Abort>(rt: &R, set: S, list: &mut SetList<S>) {
    assert_that(rt, is_full(rt, list) && is_full(rt, list));
    list.clear();
    assert_that(rt, links(rt, set, 0));
    assert_that(rt, push(rt, list, "interned") == Err(Fault::TicketsSpent));
    assert_that(rt, list.is_empty());
}

/// In a set whose entries may have two holders, and whose buckets have one serial each, a refused place leaves no share behind.
#[test]
fn full_text_gets_no_place(rt: HostRuntime) {
    play_both(&rt, rt.alloc(), within(2, 1), Scene::NarrowSet);
}

/// Texts that are dynamic: one with NUL, one with a line feed, one beyond ASCII and without letters, and those of many bytes.
static TEXTS: [&str; 4] = ["with\0NUL", "with\na line feed", "長さ、大きさ", "Überfluß"];

/// Whether a clone of the place has the text once the place has gone.
fn outlives_its_place<S: SharedSet, R: Wait + Abort>(
    rt: &R,
    set: S,
    mut list: SetList<S>,
    text: &str,
) -> bool {
    let clone = atom_at(rt, &list, 1);
    list.truncate(1);
    drop(list);
    match clone {
        Some(atom) => has_text(&atom, text) && links(rt, set, 1),
        None => false,
    }
}

/// Whether the last place of a list is the atom of this text.
fn gives_last<S: SharedSet>(list: &mut SetList<S>, text: &str) -> bool {
    match pop(list) {
        Some(atom) => has_text(&atom, text),
        None => false,
    }
}

/// Whether a list of the text has it at each place, and gives it back by each call, and nothing stays.
fn is_held<S: SharedSet, R: Wait + Abort>(rt: &R, set: S, text: &str) -> bool {
    let texts = [text, text, text];
    let mut list = list_of(rt, set, &texts);
    let has_all = holds(rt, set, &list, &texts, 1) && gives_last(&mut list, text);
    has_all && outlives_its_place(rt, set, list, text) && links(rt, set, 0)
}

/// A text of two megabytes, not all ASCII.
fn long_text(rt: &impl Abort, alloc: Global) -> String {
    "Überfluß".repeat(alloc, 210_000).expect(rt, "a text")
}

fn hold_each_text<S: SharedSet, R: Wait + Abort>(rt: &R, set: S) {
    for text in &TEXTS {
        assert_for(rt, is_held(rt, set, text), text);
    }
    assert_that(rt, is_held(rt, set, &long_text(rt, set.allocator())));
}

#[test]
fn texts_in_a_list(rt: HostRuntime) {
    play_both(&rt, rt.alloc(), USUAL, Scene::Texts);
}

/// The word of the ticket of this serial in the bucket of "interned", 0x210.
fn word_of_serial(serial: u64) -> u64 {
    serial.saturating_mul(0x1_0000).saturating_add(0x840)
}

/// Whether the text's place in a new list is the atom of the ticket of this serial.
fn comes_with<S: SharedSet, R: Wait + Abort>(rt: &R, set: S, serial: u64) -> bool {
    let mut list = list_of(rt, set, &["interned"]);
    match pop(&mut list) {
        Some(atom) => is_of(&atom, word_of_serial(serial), "interned"),
        None => false,
    }
}

fn take_tickets<S: SharedSet, R: Wait + Abort>(rt: &R, set: S) {
    for serial in 1..10 {
        assert_for(rt, comes_with(rt, set, serial), &serial);
    }
}

/// Each push of a new text takes one ticket.
#[test]
fn each_push_takes_one_ticket(rt: HostRuntime) {
    play_both(&rt, rt.alloc(), USUAL, Scene::Tickets);
}

fn end_under_lock<S: SharedSet, R: Wait + Abort>(rt: &R, set: S) {
    let mut last = Some(list_of(rt, set, &["interned", "geometric"]));
    set.for_each(rt, |_, _| end(&mut last));
    check_linked(rt, set, 1);
    set.sweep(rt);
}

/// The end of a list waits for no lock: what it lets go of while a visit has the lock goes with the next pass.
#[test]
fn list_ends_under_a_held_lock(rt: HostRuntime) {
    play_both(&rt, rt.alloc(), USUAL, Scene::EndsUnderLock);
}

/// Whether each of the list's three places has an atom to lend, and no other has.
fn lends_three<S: SharedSet, R: Wait + Abort>(rt: &R, list: &SetList<S>) -> bool {
    !lends_none(rt, list, 0)
        && !lends_none(rt, list, 1)
        && !lends_none(rt, list, 2)
        && lends_none(rt, list, 3)
}

/// Gives inline and static texts places behind a dynamic one, and takes them out. Returns whether each place had an atom.
fn fills_with_fixed<S: SharedSet, R: Wait + Abort>(rt: &R, list: &mut SetList<S>) -> bool {
    let are_pushed = push(rt, list, "é") == Ok(()) && push(rt, list, "sentence") == Ok(());
    let are_lent = lends_three(rt, list) && has_last(list);
    list.truncate(1);
    are_pushed && are_lent
}

/// Does so while a visit has the lock of the only bucket.
fn fill_under_lock<S: SharedSet, R: Wait + Abort>(rt: &R, set: S) {
    let mut list = list_of(rt, set, &["interned"]);
    let mut is_filled = false;
    set.for_each(rt, |_, _| is_filled = fills_with_fixed(rt, &mut list));
    assert_that(rt, is_filled);
}

/// Inline and static texts take no lock, nor does a clone of a place.
#[test]
fn fixed_texts_have_places_under_a_held_lock(rt: HostRuntime) {
    play_both(&rt, rt.alloc(), ONE_BUCKET, Scene::FixedUnderLock);
}

/// Whether a clone of the atom is refused, and so is one of the list's place.
fn are_refused<S: SharedSet, R: Wait>(rt: &R, list: &SetList<S>, atom: &SetAtom<S::Held>) -> bool {
    let full = Some(Fault::FullCount);
    cloned(rt, atom).err() == full && cloned_at(rt, list, 0).err() == full
}

/// Does so while a visit has the lock of the only bucket.
fn refuse_under_lock<S: SharedSet, R: Wait + Abort>(rt: &R, set: S) {
    let list = list_of(rt, set, &["interned"]);
    let atom = intern(rt, set, "interned");
    let mut is_refused = false;
    set.for_each(rt, |_, _| is_refused = are_refused(rt, &list, &atom));
    assert_that(rt, is_refused);
}

/// A clone that is refused takes no lock either.
#[test]
fn full_clones_are_refused_under_a_held_lock(rt: HostRuntime) {
    let size = Size {
        bits: 0,
        limits: Some((2, 9)),
    };
    play_both(&rt, rt.alloc(), size, Scene::FullUnderLock);
}

/// Pushes four texts in turn.
fn push_in_turn<S: SharedSet, R: Wait>(
    rt: &R,
    list: &mut SetList<S>,
    texts: [&str; 4],
) -> Result<(), Fault> {
    for round in 0..2_000usize {
        push(rt, list, texts[round % 4])?;
    }
    Ok(())
}

/// Pushes four texts, some of which the other thread pushes as well, 500 times over, and lets half of them go.
fn is_filled<S: SharedSet, R: Wait>(rt: &R, list: &mut SetList<S>, texts: [&str; 4]) -> bool {
    let is_pushed = push_in_turn(rt, list, texts).is_ok() && has_at(list, 1_999, texts[3]);
    list.truncate(1_000);
    is_pushed && has_at(list, 999, texts[3]) && list.len() == 1_000
}

/// Does so with a list, which goes with the rest.
pub fn fills_and_goes<S: SharedSet, R: Wait>(rt: &R, set: S, texts: [&str; 4]) -> bool {
    is_filled(rt, &mut ListOf::new(set), texts)
}

/// Whether two threads fill lists of one set.
fn two_fill<S: SharedSet + Together + Send + Sync, R: Threads + Wait + Sync>(
    rt: &R,
    set: S,
) -> bool {
    let (left, right) = thread::join(
        rt,
        || set.fill(rt, ["interned", "tokenised", "ab", "repeated"]),
        || set.fill(rt, ["repeated", "geometric", "interned", "Überfluß"]),
    );
    left && right
}

fn fill_in_two<S: SharedSet + Together + Send + Sync, R: Threads + Wait + Abort + Sync>(
    rt: &R,
    set: S,
) {
    assert_that(rt, two_fill(rt, set));
    set.sweep(rt);
}

#[test]
fn two_threads_fill_lists_of_one_set(rt: HostRuntime) {
    play_both(&rt, rt.alloc(), USUAL, Scene::TwoThreads);
}

fn end_in_another<R: Threads + Wait + Abort + Sync>(rt: &R, set: &Set<One>) {
    let list = list_of(rt, set, &["interned", "Überfluß"]);
    crosses(&list);
    thread::join(rt, move || drop(list), || set.sweep(rt));
    set.sweep(rt);
}

/// A list ends in another thread than the one that filled it.
#[test]
fn list_goes_in_another_thread(rt: HostRuntime) {
    let set = new_set::<One>(&rt, rt.alloc());
    end_in_another(&rt, &set);
    check_linked(&rt, &set, 0);
}
