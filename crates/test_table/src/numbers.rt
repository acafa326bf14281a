//! Numbers that texts spell.

use crate::{assert_for, assert_that};
use text_forms::numbers::{number_after, number_of, short_number_of};

/// Texts, and the numbers that they spell.
static NUMBERS: [(&str, Option<u64>); 12] = [
    ("0", Some(0)),
    ("7", Some(7)),
    ("10", Some(10)),
    ("18446744073709551615", Some(u64::MAX)),
    ("18446744073709551616", None),
    ("", None),
    ("00", None),
    ("07", None),
    ("+7", None),
    ("-7", None),
    (" 7", None),
    ("7 ", None),
];

fn spells(text: &str, number: Option<u64>) -> bool {
    number_of(text) == number
}

fn spells_short(text: &str, number: Option<u32>) -> bool {
    short_number_of(text) == number
}

fn spells_after(text: &str, word: &str, number: Option<u64>) -> bool {
    number_after(text, word) == number
}

#[test]
fn spelled_numbers(rt: HostRuntime) {
    for (text, number) in &NUMBERS {
        assert_for(&rt, spells(text, *number), text);
    }
    assert_that(&rt, spells_short("4294967295", Some(u32::MAX)));
    assert_that(&rt, spells_short("4294967296", None));
    assert_that(&rt, spells_after("key 5", "key ", Some(5)));
    assert_that(&rt, spells_after("key5", "key ", None));
}
