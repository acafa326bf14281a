//! A bucket's cells, however many they are: each is found and counted while others come and go, and goes with its last holder, or with a later
//! call if that holder's end found the lock of the bucket taken.
ghost use Rattle.std.specs.Prelude.{◌≡◌};

use crate::calls::{found, interned, is_found_as, links};
use crate::named_left::{
    all_are_left, are_left_anew, are_left_as_it_grows, are_left_as_it_is_laid_out,
    are_left_in_turns, left_comes_again, looks_go_round, many_are_left, many_are_left_alone,
    many_are_swept, one_goes_beside, one_is_left, take_turns, two_are_left,
};
use crate::named_long::long_texts_come_and_go;
use crate::{assert_for, assert_that};
use named_set::{FreshName, Held, NamedSet, SetName};
use std::alloc::Global;
use std::marker::Brand;
use std::process::Abort;
use std::sync::Wait;
use text_forms::static_sets::EmptyStaticAtomSet;
use text_forms::word::{Buckets, Limits};

pub type Named<N> = NamedSet<EmptyStaticAtomSet, N>;

pub type Words<'s, N> = Vec<Held<'s, EmptyStaticAtomSet, N>>;

/// The bytes of a cell with a text of eight.
const CELL: u128 = 32 + 8;

/// The bytes of the eight places of a bucket without an index.
const FEW: u128 = 8 * 8;

/// The bytes of a place of the index: of what stands there and of the half of a hash, and of an owner.
const PLACE: u128 = 4 + 4 + 8;

/// In which order words are let go.
#[derive(Clone, Copy, Debug)]
pub enum Order {
    First,
    Last,
    Between,
}

static ORDERS: [Order; 3] = [Order::First, Order::Last, Order::Between];

/// What is asked of a set of one bucket.
#[derive(Clone, Copy)]
enum Question {
    /// So many texts, for which the index has so many places, come and go.
    Texts(usize, u128, Order),
    /// The same of long texts.
    LongTexts(usize, u128, Order),
    /// Every second of so many goes.
    EverySecond(usize),
    /// An index that is shrunk.
    Shrunk,
    /// One of so many that was left, the first or another.
    OneLeft(usize, Order),
    /// One that was left, whose text is interned again.
    LeftAgain,
    /// One that was left, and another that goes while the lock is free.
    LeftBeside,
    /// Two that two visits left.
    TwoLeft,
    /// Of 40 the first 20 were left, or others.
    ManyLeft(Order),
    /// All of so many were left, which so many calls see.
    AllLeft(usize, usize),
    /// Half of them were, while those that are held go.
    ManyLeftAlone(Order),
    /// Half of 150 were left, and are swept.
    ManySwept(Order),
    /// Some were left while calls looked for others, once or again and again.
    LeftAnew,
    LeftInTurns,
    LeftRound,
    /// Some were left as the index grows.
    LeftAsItGrows,
    /// Some were left behind so many turns, and the index is laid out, maybe over as many places.
    LeftAsItIsLaidOut(usize),
    /// Texts come and go, and the index stays as large as it has to be.
    Marked,
}

/// A text of eight bytes, another for each number.
pub fn text_of(rt: &impl Abort, alloc: Global, number: usize) -> String {
    format!(in alloc; "w{number:07}").expect(rt, "a text")
}

/// Holds the texts of so many numbers, from 0.
pub fn hold<'s, N: SetName, R: Wait + Abort>(
    rt: &R,
    set: &'s Named<N>,
    count: usize,
) -> Words<'s, N> {
    let mut words = Vec::new(set.allocator());
    for number in 0..count {
        let text = text_of(rt, set.allocator(), number);
        let word = interned(rt, set, text.as_str()).expect(rt, "a word");
        words.push(word).expect(rt, "room");
    }
    words
}

/// Whether each is found under its own word.
pub fn are_found<N: SetName, R: Wait>(
    rt: &R,
    set: &Named<N>,
    words: &[Held<'_, EmptyStaticAtomSet, N>],
) -> bool {
    for word in words {
        if !is_found_as(rt, set, word, word.text()) {
            return false;
        }
    }
    true
}

/// Whether the text of this number isn't found.
fn is_absent<N: SetName, R: Wait + Abort>(rt: &R, set: &Named<N>, number: usize) -> bool {
    let text = text_of(rt, set.allocator(), number);
    matches!(found(rt, set, text.as_str()), Ok(None))
}

/// Looks so many times for a text that was never there.
pub fn look<N: SetName, R: Wait>(rt: &R, set: &Named<N>, times: usize) -> bool {
    for _ in 0..times {
        if !matches!(found(rt, set, "was never there"), Ok(None)) {
            return false;
        }
    }
    true
}

fn let_one_go<N: SetName>(words: &mut Words<'_, N>, order: Order) {
    let count = words.len();
    if count > 0 {
        let at = match order {
            Order::First => 0,
            Order::Last => count - 1,
            Order::Between => count / 2,
        };
        drop(words.remove(at));
    }
}

/// Lets all but so many go.
pub fn keep<N: SetName>(words: &mut Words<'_, N>, order: Order, count: usize) {
    for _ in count..words.len() {
        let_one_go(words, order);
    }
}

/// The same while a visit has the lock of the bucket.
pub fn leave<N: SetName, R: Wait>(
    rt: &R,
    set: &Named<N>,
    words: &mut Words<'_, N>,
    order: Order,
    count: usize,
) {
    set.for_each(rt, |_, _| keep(words, order, count));
}

/// The bytes of an index of so many places, or without one of places that few have.
pub fn bytes_of_places(places: u128) -> u128 {
    if places == 0 {
        FEW
    } else {
        places.saturating_mul(PLACE)
    }
}

/// The same with so many cells.
pub fn bytes_of(places: u128, cells: u128) -> u128 {
    bytes_of_places(places).saturating_add(cells.saturating_mul(CELL))
}

/// Whether the set holds so many bytes beside what it held without texts.
pub fn takes<N: SetName, R: Wait>(rt: &R, set: &Named<N>, empty: u128, bytes: u128) -> bool {
    set.memory(rt) == empty.saturating_add(bytes)
}

pub fn sweep<N: SetName, R: Wait>(rt: &R, set: &Named<N>) {
    set.sweep(rt);
}

/// Lets all but so many go one by one, and tells whether each takes its cell along.
pub fn let_go_to<N: SetName, R: Wait>(
    rt: &R,
    set: &Named<N>,
    words: &mut Words<'_, N>,
    order: Order,
    count: usize,
) -> bool {
    for _ in count..words.len() {
        let_one_go(words, order);
        if !links(rt, set, words.len() as u128) {
            return false;
        }
    }
    true
}

/// Whether the words are all that is linked, and are found, and take these bytes with an index of so many places.
fn stand<N: SetName, R: Wait>(
    rt: &R,
    set: &Named<N>,
    words: &Words<'_, N>,
    empty: u128,
    places: u128,
) -> bool {
    let count = words.len() as u128;
    are_found(rt, set, words.as_slice())
        && links(rt, set, count)
        && takes(rt, set, empty, bytes_of(places, count))
}

/// The bytes that are left of so many places behind a sweep of a bucket without cells.
fn bytes_left_of(places: u128) -> u128 {
    if places == 0 { FEW } else { 0 }
}

/// Whether one more text finds a place in the index as it is: cells that went have left no mark where no look goes on below.
fn has_room_left<N: SetName, R: Wait + Abort>(
    rt: &R,
    set: &Named<N>,
    empty: u128,
    places: u128,
) -> bool {
    let words = hold(rt, set, 1);
    stand(rt, set, &words, empty, places)
}

fn come_and_go<N: SetName, R: Wait + Abort>(
    rt: &R,
    set: &Named<N>,
    count: usize,
    places: u128,
    order: Order,
) -> bool {
    let empty = set.memory(rt);
    let mut words = hold(rt, set, count);
    let are_there = stand(rt, set, &words, empty, places);
    let is_half = let_go_to(rt, set, &mut words, order, count / 2);
    let are_left = stand(rt, set, &words, empty, places);
    let are_gone = let_go_to(rt, set, &mut words, order, 0);
    let keeps = stand(rt, set, &words, empty, places) && has_room_left(rt, set, empty, places);
    sweep(rt, set);
    let gives_back = takes(rt, set, empty, bytes_left_of(places));
    are_there && is_half && are_left && are_gone && keeps && gives_back
}

/// Lets the one that stands there go, if there is one.
pub fn let_go_at<N: SetName>(words: &mut Words<'_, N>, at: usize) {
    if at < words.len() {
        drop(words.remove(at));
    }
}

/// Lets the first go, and every second behind it.
fn let_every_second_go<N: SetName>(words: &mut Words<'_, N>) {
    for at in 0..words.len() / 2 {
        let_go_at(words, at);
    }
}

/// Whether none of the even numbers below this is found.
fn evens_are_absent<N: SetName, R: Wait + Abort>(rt: &R, set: &Named<N>, count: usize) -> bool {
    for number in 0..count {
        if number % 2 == 0 && !is_absent(rt, set, number) {
            return false;
        }
    }
    true
}

fn every_second_goes<N: SetName, R: Wait + Abort>(rt: &R, set: &Named<N>, count: usize) -> bool {
    let mut words = hold(rt, set, count);
    let_every_second_go(&mut words);
    let is_half = links(rt, set, (count / 2) as u128);
    is_half && are_found(rt, set, words.as_slice()) && evens_are_absent(rt, set, count)
}

/// An index of 3,000 cells has 5,802 places. A sweep lets it be as long as its cells would be given a quarter of them, and gives them two places for
/// each then. One cell needs no index, and a place.
fn shrinks<N: SetName, R: Wait + Abort>(rt: &R, set: &Named<N>) -> bool {
    let empty = set.memory(rt);
    let mut words = hold(rt, set, 3_000);
    sweep(rt, set);
    let are_all = stand(rt, set, &words, empty, 5_802);
    keep(&mut words, Order::Last, 725);
    sweep(rt, set);
    let are_more = stand(rt, set, &words, empty, 5_802);
    keep(&mut words, Order::Last, 724);
    let before = stand(rt, set, &words, empty, 5_802);
    sweep(rt, set);
    let are_quarter = stand(rt, set, &words, empty, 1_448);
    keep(&mut words, Order::Last, 1);
    sweep(rt, set);
    let is_one = takes(rt, set, empty, CELL + 8) && are_found(rt, set, words.as_slice());
    are_all && are_more && before && are_quarter && is_one
}

/// An index of 34 places has marks at some of them, once texts went and others came. With the 31st that isn't empty it is laid out over 40, which is
/// two for each of twenty, and so it is each time after.
fn is_laid_out_anew<N: SetName, R: Wait + Abort>(rt: &R, set: &Named<N>) -> bool {
    let empty = set.memory(rt);
    let mut words = hold(rt, set, 20);
    let has_34 = stand(rt, set, &words, empty, 34);
    take_turns(rt, set, &mut words, 1_000);
    has_34 && stand(rt, set, &words, empty, 40)
}

fn is_answered<N: SetName, R: Wait + Abort>(rt: &R, set: &Named<N>, question: Question) -> bool {
    match question {
        Question::Texts(count, places, order) => come_and_go(rt, set, count, places, order),
        Question::LongTexts(count, places, order) => {
            long_texts_come_and_go(rt, set, count, places, order)
        }
        Question::EverySecond(count) => every_second_goes(rt, set, count),
        Question::Shrunk => shrinks(rt, set),
        Question::OneLeft(count, order) => one_is_left(rt, set, count, order),
        Question::LeftAgain => left_comes_again(rt, set),
        Question::LeftBeside => one_goes_beside(rt, set),
        Question::TwoLeft => two_are_left(rt, set),
        Question::ManyLeft(order) => many_are_left(rt, set, order),
        Question::AllLeft(count, calls) => all_are_left(rt, set, count, calls),
        Question::ManyLeftAlone(order) => many_are_left_alone(rt, set, order),
        Question::ManySwept(order) => many_are_swept(rt, set, order),
        Question::LeftAnew => are_left_anew(rt, set),
        Question::LeftInTurns => are_left_in_turns(rt, set),
        Question::LeftRound => looks_go_round(rt, set),
        Question::LeftAsItGrows => are_left_as_it_grows(rt, set),
        Question::LeftAsItIsLaidOut(turns) => are_left_as_it_is_laid_out(rt, set, turns),
        Question::Marked => is_laid_out_anew(rt, set),
    }
}

fn is_so_as<N: SetName, R: Wait + Abort>(
    rt: &R,
    alloc: Global,
    name: FreshName,
    question: Question,
) -> bool
    requires { N.logs ≡ name.logs }
{
    let set = Named::<N>::new(alloc, name, Limits::greatest()).expect(rt, "a set");
    is_answered::<N, R>(rt, &set, question)
}

/// Whether it is so of a new set of one bucket.
fn is_so<R: Wait + Abort>(rt: &R, alloc: Global, question: Question) -> bool {
    let one = Buckets::new(0).expect(rt, "a number");
    let name = FreshName::new(alloc, one).expect(rt, "a name");
    is_so_as::<Brand, R>(rt, alloc, name, question)
}

/// How many texts come and go, and how many places the index has for them: two for each when it is laid out, of which an eighth stays empty.
static COUNTS: [(usize, u128); 5] = [(8, 0), (9, 18), (16, 18), (17, 34), (31, 62)];

fn come_in_order<R: Wait + Abort>(rt: &R, alloc: Global, order: Order) -> bool {
    for (count, places) in &COUNTS {
        if !is_so(rt, alloc, Question::Texts(*count, *places, order)) {
            return false;
        }
    }
    is_so(rt, alloc, Question::LongTexts(31, 62, order))
}

/// Few are walked. With the ninth an index is made.
#[test]
fn few_texts_come_and_go(rt: HostRuntime) {
    for order in &ORDERS {
        assert_for(&rt, come_in_order(&rt, rt.alloc(), *order), order);
    }
}

/// With the 2,901st of them the index is given 5,802 places, which is two for each of 2,901.
#[test]
fn thousands_of_texts_come_and_go(rt: HostRuntime) {
    for order in &ORDERS {
        let question = Question::Texts(5_000, 5_802, *order);
        assert_for(&rt, is_so(&rt, rt.alloc(), question), order);
    }
}

#[test]
fn others_are_found_as_every_second_goes(rt: HostRuntime) {
    for count in &[8usize, 18, 1_000] {
        let question = Question::EverySecond(*count);
        assert_for(&rt, is_so(&rt, rt.alloc(), question), count);
    }
}

#[test]
fn index_is_shrunk_by_a_sweep(rt: HostRuntime) {
    assert_that(&rt, is_so(&rt, rt.alloc(), Question::Shrunk));
}

fn one_of_each_is_left<R: Wait + Abort>(rt: &R, alloc: Global, order: Order) -> bool {
    for count in &[2usize, 8, 9, 40] {
        if !is_so(rt, alloc, Question::OneLeft(*count, order)) {
            return false;
        }
    }
    true
}

#[test]
fn one_that_was_left_goes_with_the_next_call(rt: HostRuntime) {
    for order in &ORDERS {
        assert_for(&rt, one_of_each_is_left(&rt, rt.alloc(), *order), order);
    }
}

#[test]
fn text_of_one_that_was_left_comes_again(rt: HostRuntime) {
    assert_that(&rt, is_so(&rt, rt.alloc(), Question::LeftAgain));
}

#[test]
fn one_that_was_left_stays_as_another_goes(rt: HostRuntime) {
    assert_that(&rt, is_so(&rt, rt.alloc(), Question::LeftBeside));
}

#[test]
fn two_that_were_left_go_with_later_calls(rt: HostRuntime) {
    assert_that(&rt, is_so(&rt, rt.alloc(), Question::TwoLeft));
}

#[test]
fn many_that_were_left_go_with_later_calls(rt: HostRuntime) {
    for order in &ORDERS {
        let question = Question::ManyLeft(*order);
        assert_for(&rt, is_so(&rt, rt.alloc(), question), order);
    }
}

#[test]
fn all_that_were_left_go_with_later_calls(rt: HostRuntime) {
    assert_that(&rt, is_so(&rt, rt.alloc(), Question::AllLeft(8, 1)));
    assert_that(&rt, is_so(&rt, rt.alloc(), Question::AllLeft(14, 2)));
    assert_that(&rt, is_so(&rt, rt.alloc(), Question::AllLeft(40, 4)));
}

#[test]
fn cells_that_were_left_go_however_often_others_are(rt: HostRuntime) {
    assert_that(&rt, is_so(&rt, rt.alloc(), Question::LeftAnew));
    assert_that(&rt, is_so(&rt, rt.alloc(), Question::LeftInTurns));
    assert_that(&rt, is_so(&rt, rt.alloc(), Question::LeftRound));
}

#[test]
fn many_that_were_left_go_beside_others(rt: HostRuntime) {
    for order in &ORDERS {
        let question = Question::ManyLeftAlone(*order);
        assert_for(&rt, is_so(&rt, rt.alloc(), question), order);
    }
}

#[test]
fn many_that_were_left_are_swept(rt: HostRuntime) {
    for order in &ORDERS {
        let question = Question::ManySwept(*order);
        assert_for(&rt, is_so(&rt, rt.alloc(), question), order);
    }
}

#[test]
fn cells_that_were_left_go_as_the_index_grows(rt: HostRuntime) {
    assert_that(&rt, is_so(&rt, rt.alloc(), Question::LeftAsItGrows));
    for turns in 0..200 {
        let question = Question::LeftAsItIsLaidOut(turns);
        assert_for(&rt, is_so(&rt, rt.alloc(), question), &turns);
    }
}

#[test]
fn an_index_of_marks_is_laid_out_anew(rt: HostRuntime) {
    assert_that(&rt, is_so(&rt, rt.alloc(), Question::Marked));
}
