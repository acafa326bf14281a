//! Tables and worlds of steps.

use crate::assert_that;
use crate::begun::{new_table, table_keys, word_in};
use std::alloc::Global;
use std::io::Print;
use std::process::Abort;
use string_cache::steps::{Step, StepReply, World};
use string_cache::table::{Call, Table, TableReply};
use string_cache::word::Limits;
use string_cache::{EmptyStaticAtomSet, Fault};
use test_refusals::{End, at_last, begin, finish};

/// The first ticket of "interned", and the next one.
const FIRST: u64 = 0x1_0840;

const SECOND: u64 = 0x2_0840;

/// The end of a call that keeps what it did until it was refused.
fn midway(is_refused: bool) -> End {
    if is_refused {
        End::RefusedMidway
    } else {
        End::Given
    }
}

fn is_empty(table: &Table<EmptyStaticAtomSet>) -> bool {
    table.entries() == 0 && table.text_bytes() == 0
}

/// Whether the table is empty, and gives "interned" its first ticket.
fn is_new(table: &mut Table<EmptyStaticAtomSet>) -> bool {
    is_empty(table) && word_in(table, "interned") == Ok(FIRST)
}

/// The word of "interned". A refusal may leave room for further texts in the table, and nothing else, and the call is made again.
fn word_at_last<R: Print + Abort>(
    rt: &R,
    table: &mut Table<EmptyStaticAtomSet>,
) -> Result<u64, Fault> {
    begin(rt);
    let answer = word_in(table, "interned");
    let is_refused = answer == Err(Fault::Memory);
    finish(rt, midway(is_refused));
    if is_refused {
        assert_that(rt, is_empty(table));
        return word_in(table, "interned");
    }
    answer
}

/// Makes room for a thousand texts.
fn make_room(table: &mut Table<EmptyStaticAtomSet>) -> Result<(), Fault> {
    table.reserve(1000)
}

/// Whether "interned" has the word, and no other text has one.
fn has_alone(table: &Table<EmptyStaticAtomSet>, word: u64) -> bool {
    table.text(word) == Some("interned") && table.entries() == 1
}

/// Makes room, again if the first call is refused memory. Returns whether only the text was there, with this word, after the first.
fn stays_alone<R: Print>(
    rt: &R,
    table: &mut Table<EmptyStaticAtomSet>,
    word: u64,
) -> Result<bool, Fault> {
    begin(rt);
    let made = make_room(table);
    finish(rt, midway(made.is_err()));
    let is_alone = has_alone(table, word);
    match made {
        Err(Fault::Memory) => make_room(table)?,
        made => made?,
    }
    Ok(is_alone)
}

/// Whether "interned", which has a word, stays when room is made.
fn keeps_its_text<R: Print + Abort>(rt: &R, table: &mut Table<EmptyStaticAtomSet>) -> bool {
    let word = word_in(table, "interned").expect(rt, "a word");
    stays_alone(rt, table, word) == Ok(true)
}

/// The bytes of a table without texts that has room for a thousand: 128 groups of both maps.
const WITH_ROOM: u128 = 4096 * 8 + 128 * (496 + 208) + 1;

/// Whether the table reports the bytes of that room if it was made, and fewer if it was refused.
fn tells_its_room<R: Print>(rt: &R, table: &mut Table<EmptyStaticAtomSet>) -> bool {
    begin(rt);
    let made = make_room(table);
    finish(rt, midway(made.is_err()));
    match made {
        Ok(()) => table.memory() == WITH_ROOM,
        Err(_) => table.memory() < WITH_ROOM,
    }
}

/// Interns a text that this number makes.
fn intern_number<R: Abort>(rt: &R, alloc: Global, table: &mut Table<EmptyStaticAtomSet>, n: u32) {
    let text = format!(in alloc; "the text {n}").expect(rt, "a text");
    word_in(table, &text).expect(rt, "a word");
}

/// Interns this many texts.
fn fill<R: Abort>(rt: &R, alloc: Global, table: &mut Table<EmptyStaticAtomSet>, number: u32) {
    for n in 0..number {
        intern_number(rt, alloc, table, n);
    }
    assert_that(rt, table.entries() == number as usize);
}

/// The word of "interned", which asks for no more than the text's own bytes.
fn has_room<R: Print + Abort>(rt: &R, table: &mut Table<EmptyStaticAtomSet>) -> bool {
    begin(rt);
    let answer = word_in(table, "interned");
    let is_refused = answer == Err(Fault::Memory);
    finish(rt, midway(is_refused));
    is_refused || answer == Ok(FIRST)
}

/// Whether "interned" finds room after this many other texts.
fn has_room_behind<R: Print + Abort>(
    rt: &R,
    alloc: Global,
    table: &mut Table<EmptyStaticAtomSet>,
    number: u32,
) -> bool {
    fill(rt, alloc, table, number);
    has_room(rt, table)
}

/// Whether it finds room where another text was.
fn has_room_once_cleared<R: Print + Abort>(
    rt: &R,
    alloc: Global,
    table: &mut Table<EmptyStaticAtomSet>,
) -> bool {
    fill(rt, alloc, table, 1);
    table.clear();
    has_room(rt, table)
}

/// Whether it finds room where another text was, whose only holder is gone.
fn has_room_once_given<R: Print + Abort>(rt: &R, table: &mut Table<EmptyStaticAtomSet>) -> bool {
    let word = word_in(table, "tokenised").expect(rt, "a word");
    table.release(word) && has_room(rt, table)
}

/// What is asked of a table.
#[derive(Clone, Copy)]
enum Question {
    IsNew,
    IsEmpty,
    Interns,
    KeepsItsText,
    TellsItsRoom,
    HasRoomBehind(u32),
    HasRoomOnceCleared,
    HasRoomOnceGiven,
}

/// Whether that is so.
fn passes<R: Print + Abort>(
    rt: &R,
    alloc: Global,
    table: &mut Table<EmptyStaticAtomSet>,
    question: Question,
) -> bool {
    match question {
        Question::IsNew => is_new(table),
        Question::IsEmpty => is_empty(table),
        Question::Interns => word_at_last(rt, table) == Ok(FIRST) && has_alone(table, FIRST),
        Question::KeepsItsText => keeps_its_text(rt, table),
        Question::TellsItsRoom => tells_its_room(rt, table),
        Question::HasRoomBehind(number) => has_room_behind(rt, alloc, table, number),
        Question::HasRoomOnceCleared => has_room_once_cleared(rt, alloc, table),
        Question::HasRoomOnceGiven => has_room_once_given(rt, table),
    }
}

/// Checks what is asked of a table. It ends here, and not in each test, so that they are proved in less time.
fn check<R: Print + Abort>(
    rt: &R,
    alloc: Global,
    made: Result<Table<EmptyStaticAtomSet>, Fault>,
    question: Question,
) {
    let mut table = made.expect(rt, "a table");
    assert_that(rt, passes(rt, alloc, &mut table, question));
}

#[test]
fn table_is_made(rt: HostRuntime) {
    let alloc = rt.alloc();
    let keys = table_keys(&rt);
    let made = at_last(&rt, || Table::new(alloc, keys));
    check(&rt, alloc, made, Question::IsNew);
}

#[test]
fn table_with_room_is_made(rt: HostRuntime) {
    let alloc = rt.alloc();
    let keys = table_keys(&rt);
    let made = at_last(&rt, || Table::with_capacity(alloc, keys, 1000));
    check(&rt, alloc, made, Question::IsEmpty);
}

#[test]
fn text_is_interned_in_a_table(rt: HostRuntime) {
    let made = Table::new(rt.alloc(), table_keys(&rt));
    check(&rt, rt.alloc(), made, Question::Interns);
}

/// What is held stays, whether the room is refused or not.
#[test]
fn room_is_made_in_a_table(rt: HostRuntime) {
    let made = Table::new(rt.alloc(), table_keys(&rt));
    check(&rt, rt.alloc(), made, Question::KeepsItsText);
}

/// Neither map is said to have the other's room.
#[test]
fn room_that_is_refused_is_not_told(rt: HostRuntime) {
    let made = Table::new(rt.alloc(), table_keys(&rt));
    check(&rt, rt.alloc(), made, Question::TellsItsRoom);
}

/// The last one of as many texts as room was made for. 576 texts fill what a table grows to by itself, so that one more would ask for room.
#[test]
fn text_finds_room_in_a_table(rt: HostRuntime) {
    let made = Table::with_capacity(rt.alloc(), table_keys(&rt), 577);
    check(&rt, rt.alloc(), made, Question::HasRoomBehind(576));
}

/// As many texts find room where others were.
#[test]
fn text_finds_room_in_a_cleared_table(rt: HostRuntime) {
    let made = Table::new(rt.alloc(), table_keys(&rt));
    check(&rt, rt.alloc(), made, Question::HasRoomOnceCleared);
}

/// So does one where another was, whose last holder is gone.
#[test]
fn text_finds_room_where_another_was(rt: HostRuntime) {
    let made = Table::new(rt.alloc(), table_keys(&rt));
    check(&rt, rt.alloc(), made, Question::HasRoomOnceGiven);
}

/// Adds a call that interns a text.
fn add_interning<R: Abort>(rt: &R, alloc: Global, calls: &mut Vec<Call>, text: &str) {
    let text = String::from_str(alloc, text).expect(rt, "a text");
    calls.push(Call::Intern(text)).expect(rt, "room");
}

/// Adds a call that gives back a holder of "interned".
fn add_giving<R: Abort>(rt: &R, calls: &mut Vec<Call>) {
    calls.push(Call::Give(FIRST)).expect(rt, "room");
}

/// Interning a text twice, giving it twice, interning it again, and another one.
fn calls<R: Abort>(rt: &R, alloc: Global) -> Vec<Call> {
    let mut calls = Vec::new(alloc);
    add_interning(rt, alloc, &mut calls, "interned");
    add_interning(rt, alloc, &mut calls, "interned");
    add_giving(rt, &mut calls);
    add_giving(rt, &mut calls);
    add_interning(rt, alloc, &mut calls, "interned");
    add_interning(rt, alloc, &mut calls, "tokenised");
    calls
}

/// By OpenSSL's SipHash the bucket of "tokenised" is 0xe77.
static REPLIES: [TableReply; 6] = [
    TableReply::Word(FIRST),
    TableReply::Word(FIRST),
    TableReply::Given,
    TableReply::Given,
    TableReply::Word(SECOND),
    TableReply::Word(0x1_39dc),
];

/// Whether one of these calls was refused memory.
fn are_refused(replies: &[TableReply]) -> bool {
    replies.contains(&TableReply::Refused(Fault::Memory))
}

/// How a run ended.
fn end_of(answer: &Result<Vec<TableReply>, Fault>) -> End {
    match answer {
        Ok(replies) => midway(are_refused(replies)),
        Err(_) => End::of(answer),
    }
}

/// The replies of a table.
fn run(table: &mut Table<EmptyStaticAtomSet>, calls: &[Call]) -> Result<Vec<TableReply>, Fault> {
    table.run(calls)
}

/// The replies of a new table.
fn run_in_new_table<R: Abort>(
    rt: &R,
    alloc: Global,
    calls: &[Call],
) -> Result<Vec<TableReply>, Fault> {
    let mut table: Table<EmptyStaticAtomSet> = new_table(rt, alloc);
    run(&mut table, calls)
}

/// Runs the calls, and returns how that ended.
fn run_watched<R: Print>(
    rt: &R,
    table: &mut Table<EmptyStaticAtomSet>,
    calls: &[Call],
) -> (Result<Vec<TableReply>, Fault>, End) {
    begin(rt);
    let answer = run(table, calls);
    let ended = end_of(&answer);
    finish(rt, ended);
    (answer, ended)
}

/// After an `Err` nothing has changed, and the run is made again in the same table. If one of the calls was refused, all are made again in a new one.
fn replies_in<R: Print + Abort>(
    rt: &R,
    alloc: Global,
    table: &mut Table<EmptyStaticAtomSet>,
    calls: &[Call],
) -> Result<Vec<TableReply>, Fault> {
    let (answer, ended) = run_watched(rt, table, calls);
    match ended {
        End::Given => answer,
        End::Refused => {
            assert_that(rt, is_empty(table));
            run(table, calls)
        }
        End::RefusedMidway => {
            assert_that(rt, answer?.len() == calls.len());
            run_in_new_table(rt, alloc, calls)
        }
    }
}

/// The same, in a new table.
fn replies_at_last<R: Print + Abort>(
    rt: &R,
    alloc: Global,
    calls: &[Call],
) -> Result<Vec<TableReply>, Fault> {
    let mut table: Table<EmptyStaticAtomSet> = new_table(rt, alloc);
    replies_in(rt, alloc, &mut table, calls)
}

#[test]
fn calls_are_run(rt: HostRuntime) {
    let calls = calls(&rt, rt.alloc());
    let replies = replies_at_last(&rt, rt.alloc(), &calls).expect(&rt, "replies");
    assert_that(&rt, replies.as_slice() == REPLIES.as_slice());
}

/// Whether a world has no entry, and a party takes a bucket for "interned" in it.
fn is_new_world<R: Abort>(rt: &R, alloc: Global, world: &mut World<EmptyStaticAtomSet>) -> bool {
    let step = interning(rt, alloc);
    world.count(1).is_none() && world.step(1, step) == Ok(StepReply::Taken)
}

#[test]
fn world_is_made(rt: HostRuntime) {
    let alloc = rt.alloc();
    let limits = Limits::greatest();
    let mut world: World<EmptyStaticAtomSet> = at_last(&rt, || World::new(alloc, limits)).expect(
        &rt,
        "an answer",
    );
    assert_that(&rt, is_new_world(&rt, alloc, &mut world));
}

/// A step that takes a bucket for "interned".
fn interning<R: Abort>(rt: &R, alloc: Global) -> Step {
    Step::TakeIntern(String::from_str(alloc, "interned").expect(rt, "a text"))
}

/// Adds a step of a party.
fn add_step<R: Abort>(rt: &R, steps: &mut Vec<(u32, Step)>, party: u32, step: Step) {
    steps.push((party, step)).expect(rt, "room");
}

/// Two parties that share an entry.
fn steps<R: Abort>(rt: &R, alloc: Global) -> Vec<(u32, Step)> {
    let mut steps = Vec::new(alloc);
    add_step(rt, &mut steps, 1, interning(rt, alloc));
    add_step(rt, &mut steps, 2, interning(rt, alloc));
    add_step(rt, &mut steps, 1, Step::Link(true));
    add_step(rt, &mut steps, 1, Step::Leave);
    add_step(rt, &mut steps, 2, interning(rt, alloc));
    add_step(rt, &mut steps, 2, Step::Link(true));
    add_step(rt, &mut steps, 2, Step::Add(1));
    add_step(rt, &mut steps, 2, Step::Leave);
    steps
}

static STEP_REPLIES: [StepReply; 8] = [
    StepReply::Taken,
    StepReply::No,
    StepReply::Linked {
        entry: 1,
        ticket: FIRST,
    },
    StepReply::Left,
    StepReply::Taken,
    StepReply::No,
    StepReply::Added {
        ticket: FIRST,
        holders: 2,
    },
    StepReply::Left,
];

/// Makes steps in a world, and appends their replies.
fn go_on(
    world: &mut World<EmptyStaticAtomSet>,
    steps: &[(u32, Step)],
    replies: &mut Vec<StepReply>,
) -> Result<(), Fault> {
    world.run(steps, replies)
}

/// Makes steps in a new world. A run that is refused goes on from the replies that were appended.
fn go_on_at_last<R: Print + Abort>(
    rt: &R,
    world: &mut World<EmptyStaticAtomSet>,
    steps: &[(u32, Step)],
    replies: &mut Vec<StepReply>,
) -> Result<(), Fault> {
    begin(rt);
    let answer = go_on(world, steps, replies);
    let is_refused = answer == Err(Fault::Memory);
    finish(rt, midway(is_refused));
    if is_refused {
        assert_that(rt, STEP_REPLIES.starts_with(replies.as_slice()));
        let rest = steps
            .get(replies.len()..)
            .expect(rt, "the steps that are left");
        return go_on(world, rest, replies);
    }
    answer
}

/// Whether the steps finally have their replies, and leave two holders.
fn are_made<R: Print + Abort>(
    rt: &R,
    alloc: Global,
    world: &mut World<EmptyStaticAtomSet>,
    steps: &[(u32, Step)],
) -> bool {
    let mut replies = Vec::new(alloc);
    go_on_at_last(rt, world, steps, &mut replies) == Ok(())
        && replies.as_slice() == STEP_REPLIES.as_slice()
        && world.count(1) == Some(2)
}

#[test]
fn steps_are_run(rt: HostRuntime) {
    let alloc = rt.alloc();
    let steps = steps(&rt, alloc);
    let mut world = World::<EmptyStaticAtomSet>::new(alloc, Limits::greatest()).expect(
        &rt, "a world",
    );
    assert_that(&rt, are_made(&rt, alloc, &mut world, &steps));
}
