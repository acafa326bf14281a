//! Table texts that are checked: rows of them, and one that another program made.

use crate::{assert_for, assert_that};
use std::alloc::Global;
use string_cache_core::Fault;
use table_generator::check::check_tables;

/// As `check_tables`. If memory was refused, the call is made once more.
pub fn checked(alloc: Global, text: &str) -> Result<bool, Fault> {
    match check_tables(alloc, text) {
        Err(_) => check_tables(alloc, text),
        first => first,
    }
}

/// Names in several scripts under two pairs of displacements, placed by a Python program that was written from what is stated about the hash and
/// about places, with a different search.
const NAMES: &str = "atom ee9d42ffbc5d841a 味噌汁
atom fd9460e8e024ebc2 gołąbki
atom cb0d452761586807 שקשוקה
atom c9cea4fccea8d648 sauerkraut
atom 1933aeba31c325e4 minestrone
atom 9f0d8fed70392973 bouillabaisse
atom bb1cbbc265467a6b борщ зелёный
atom d6b28c12c11d6bd6 café au lait
";

/// Whether the names are perfect tables under these pairs.
fn are_names_checked(alloc: Global, pairs: &str) -> Result<bool, Fault> {
    let text = format!(in alloc; "key 3\n{pairs}\n{NAMES}")?;
    checked(alloc, &text)
}

#[test]
fn text_of_another_program(rt: HostRuntime) {
    assert_that(
        &rt,
        are_names_checked(rt.alloc(), "disp 198 0\ndisp 196 3") == Ok(true),
    );
    assert_that(
        &rt,
        are_names_checked(rt.alloc(), "disp 196 3\ndisp 198 0") == Ok(false),
    );
}

/// Whether so many equal pairs, and so many equal texts, are perfect tables.
fn are_many_checked(alloc: Global, pairs: usize, texts: usize) -> Result<bool, Fault> {
    let pairs = "disp 0 0\n".repeat(alloc, pairs)?;
    let texts = "atom 1122334455667788 sentence\n".repeat(alloc, texts)?;
    let text = format!(in alloc; "key 0\n{pairs}{texts}")?;
    checked(alloc, &text)
}

/// One text has the place 0 under any displacements. Two equal ones are none of perfect tables.
#[test]
fn many_lines_are_checked(rt: HostRuntime) {
    assert_that(&rt, are_many_checked(rt.alloc(), 70_000, 1) == Ok(true));
    assert_that(&rt, are_many_checked(rt.alloc(), 1, 70_000) == Ok(false));
}

/// Texts, and whether each is the table text of perfect tables.
static TABLE_TEXTS: [(&str, bool); 35] = [
    ("key 0\ndisp 0 0\natom 1122334455667788 sentence\n", true),
    (
        "key 0\ndisp 0 0\natom 1122334455667788 sentence\natom 1122334455667788 sentence\n",
        false,
    ),
    ("key 0\ndisp 0 0\natom 1122334455667788 sentence", false),
    ("key 00\ndisp 0 0\natom 1122334455667788 sentence\n", false),
    ("", false),
    (" \r\n\n", false),
    ("key +0\ndisp 0 0\natom 1122334455667788 sentence\n", false),
    ("key 0\ndisp 0 0\natom 112233445566778A sentence\n", false),
    ("key 0\ndisp 0 0\natom 112233445566778a sentence\n", true),
    ("key 0\ndisp 0 0\natom 112233445566778 sentence\n", false),
    ("key 0\ndisp 0 0\natom 11223344556677889 sentence\n", false),
    ("key 0\ndisp 0 0\natom  1122334455667788 sentence\n", false),
    ("key 0\ndisp  0 0\natom 1122334455667788 sentence\n", false),
    ("key 0\ndisp 0 0 \natom 1122334455667788 sentence\n", false),
    ("key 0\ndisp 0\natom 1122334455667788 sentence\n", false),
    ("key 0\r\ndisp 0 0\natom 1122334455667788 sentence\n", false),
    ("disp 0 0\natom 1122334455667788 sentence\n", false),
    ("key 0\natom 1122334455667788 sentence\n", false),
    ("key 0\natom 1122334455667788 sentence\ndisp 0 0\n", false),
    ("key 0\ndisp 0 0\n", false),
    ("key 0\ndisp 0 0\natom 1122334455667788 sentence\n\n", false),
    (
        "key 0\nkey 0\ndisp 0 0\natom 1122334455667788 sentence\n",
        false,
    ),
    (
        "key 18446744073709551615\ndisp 0 0\natom 1122334455667788 sentence\n",
        true,
    ),
    (
        "key 18446744073709551616\ndisp 0 0\natom 1122334455667788 sentence\n",
        false,
    ),
    (
        "key 0\ndisp 4294967295 4294967295\natom ffffffffffffffff sentence\n",
        true,
    ),
    (
        "key 0\ndisp 0 4294967296\natom 1122334455667788 sentence\n",
        false,
    ),
    (
        "key 0\ndisp 4294967296 0\natom 1122334455667788 sentence\n",
        false,
    ),
    ("key 0\ndisp 0 0\natom 1122334455667788 \n", true),
    ("key 0\ndisp 0 0\natom 1122334455667788\n", false),
    ("key 0\ndisp 0 0\natom 1122334455667788 a\0NUL\n", true),
    (
        "key 0\ndisp 0 0\natom 1122334455667788 \ta\x1b[0m\x7f\n",
        true,
    ),
    // A text may have spaces and a carriage return.
    (
        "key 0\ndisp 0 0\natom 1122334455667788  two words\r\n",
        true,
    ),
    // More displacements than texts need.
    (
        "key 0\ndisp 0 0\ndisp 7 7\natom 1122334455667788 sentence\n",
        true,
    ),
    // The low bits of f2 are the places of the two among two.
    (
        "key 0\ndisp 0 0\natom 0000000000000001 sentence\natom 0000000000000002 interned\n",
        true,
    ),
    (
        "key 0\ndisp 0 0\natom 0000000000000001 interned\natom 0000000000000002 sentence\n",
        false,
    ),
];

#[test]
fn table_texts(rt: HostRuntime) {
    for (text, yes) in &TABLE_TEXTS {
        assert_for(&rt, checked(rt.alloc(), text) == Ok(*yes), text);
    }
}
