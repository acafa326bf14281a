//! What is asked of a table by the tests of several modules. The table ends here, and not in each test, so that they are proved in less time.

use super::compared::{
    check_forms, check_keywords, check_three_names, check_two_names, check_what_was_held,
};
use super::kept::{Plain, filled};
use super::words::{
    check_coming_and_going, check_first_bytes, check_handing_on, check_lending, check_look_ups,
    check_prices, check_sharing,
};
use std::alloc::Global;
use std::process::Abort;

/// What is asked.
#[derive(Clone, Copy)]
pub enum Question {
    Keywords,
    TwoNames,
    ThreeNames,
    Forms,
    LookUps,
    ComingAndGoing,
    HandingOn,
    Sharing,
    FirstBytes,
    Lending,
    Prices,
    WhatWasHeld,
}

/// Checks what the table returns.
fn check_table<R: Abort>(rt: &R, alloc: Global, table: &mut Plain, question: Question) {
    match question {
        Question::Keywords => check_keywords(rt, table),
        Question::TwoNames => check_two_names(rt, table),
        Question::ThreeNames => check_three_names(rt, table),
        Question::Forms => check_forms(rt, table),
        Question::LookUps => check_look_ups(rt, table),
        Question::ComingAndGoing => check_coming_and_going(rt, table),
        Question::HandingOn => check_handing_on(rt, table),
        Question::Sharing => check_sharing(rt, table),
        Question::FirstBytes => check_first_bytes(rt, table),
        Question::Lending => check_lending(rt, table),
        Question::Prices => check_prices(rt, alloc, table),
        Question::WhatWasHeld => check_what_was_held(rt, table),
    }
}

/// Checks what a table of these names returns.
pub fn check<R: Abort>(rt: &R, alloc: Global, names: &[&str], question: Question) {
    let mut table = filled(rt, alloc, names);
    check_table(rt, alloc, &mut table, question);
}
