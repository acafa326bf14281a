//! What no contract says: which lists are placed, and what happens with those that aren't.

mod checked;
mod large;

use self::checked::checked;
use crate::texts::is_printed_as;
use crate::{assert_for, assert_that};
use std::alloc::{AllocError, Global};
use string_cache_core::Fault;
use string_cache_core::phf::{Hashes, hash};
use string_cache_core::static_sets::check_parts;
use table_generator::generate::generate;
use table_generator::tables::{GenFault, Tables};
use table_generator::{Tried, find_pair};

/// As `generate`. If memory was refused, the call is made once more.
fn tables_of(alloc: Global, list: &[&str], key: u64, bound: u32) -> Result<Tables, GenFault> {
    match generate(alloc, list, key, bound) {
        Err(GenFault::Memory) => generate(alloc, list, key, bound),
        first => first,
    }
}

/// The texts `word0000`, `word0001` and so on, below `count`.
fn numbered(alloc: Global, count: usize) -> Result<Vec<String>, AllocError> {
    let mut texts = Vec::new(alloc);
    for i in 0..count {
        texts.push(format!(in alloc; "word{i:04}")?)?;
    }
    Ok(texts)
}

fn lent(alloc: Global, texts: &[String]) -> Result<Vec<&str>, AllocError> {
    let mut list = Vec::new(alloc);
    for text in texts {
        list.push(text.as_str())?;
    }
    Ok(list)
}

/// Whether what is printed for the tables is the table text of perfect tables.
fn are_checked(alloc: Global, tables: &Tables) -> Result<bool, Fault> {
    let text = format!(in alloc; "{tables}")?;
    checked(alloc, &text)
}

/// Whether these are the tables of the text "sentence" under the key 0, its entry's hash being this number.
fn are_of_sentence(tables: &Tables, number: u64) -> bool {
    tables.key == 0
        && tables.disps.as_slice() == [(0u32, 0u32)].as_slice()
        && tables.atoms.len() == 1
        && tables.atoms[0].as_str() == "sentence"
        && tables.hashes.as_slice() == [number].as_slice()
}

/// The table text of "sentence".
fn text_of_sentence(alloc: Global, number: u64) -> Result<String, AllocError> {
    format!(in alloc; "key 0\ndisp 0 0\natom {number:016x} sentence\n")
}

/// Whether the tables of "sentence" print like this.
fn print_as(alloc: Global, tables: &Tables, number: u64) -> bool {
    match text_of_sentence(alloc, number) {
        Ok(wanted) => is_printed_as(alloc, tables, wanted.as_str()),
        Err(_) => false,
    }
}

#[test]
fn one_text(rt: HostRuntime) {
    let hashes = hash("sentence", 0);
    let number = u64::from(hashes.g) << 32 | u64::from(hashes.f1);
    let tables = tables_of(rt.alloc(), &["sentence"], 0, 1).expect(&rt, "tables");
    assert_that(&rt, are_of_sentence(&tables, number));
    assert_that(&rt, print_as(rt.alloc(), &tables, number));
    assert_that(&rt, are_checked(rt.alloc(), &tables) == Ok(true));
}

/// Lists, each with a bound and the fault that results.
static REFUSED: [(&[&str], u32, GenFault); 7] = [
    (&[], 1, GenFault::EmptyList),
    (
        &["sentence", "sen\ntence", "sentence"],
        1,
        GenFault::LineFeed,
    ),
    (&["sentence", "interned", "sentence"], 1, GenFault::Doubled),
    (&["été", "interned", "été"], 1, GenFault::Doubled),
    (&["a\0NUL", "a", "a\0NUL"], 1, GenFault::Doubled),
    (&["sentence"], 0, GenFault::NotPlaced),
    (&["sentence", "interned", "sentence"], 0, GenFault::Doubled),
];

/// What is printed for the faults.
static FAULTS: [(GenFault, &str); 5] = [
    (GenFault::EmptyList, "no texts"),
    (GenFault::LineFeed, "text with a line feed"),
    (GenFault::Doubled, "text listed twice"),
    (GenFault::NotPlaced, "no tables within the bound"),
    (GenFault::Memory, "no memory"),
];

/// Whether the list under the key 0 results in this fault.
fn is_refused(alloc: Global, list: &[&str], bound: u32, fault: GenFault) -> bool {
    tables_of(alloc, list, 0, bound).err() == Some(fault)
}

#[test]
fn refused_lists(rt: HostRuntime) {
    for (list, bound, fault) in &REFUSED {
        assert_for(&rt, is_refused(rt.alloc(), list, *bound, *fault), list);
    }
    for (fault, text) in &FAULTS {
        assert_for(&rt, is_printed_as(rt.alloc(), fault, text), text);
    }
}

/// The text at a place, if the one at `to` is like the one at `from`.
fn doubled_at(texts: &[String], from: usize, to: usize, at: usize) -> Option<&str> {
    let text = texts.get(if at == to { from } else { at })?;
    Some(text.as_str())
}

/// The texts, the one at `to` being like that at `from`.
fn doubled(
    alloc: Global,
    texts: &[String],
    from: usize,
    to: usize,
) -> Result<Vec<&str>, AllocError> {
    let mut list = Vec::new(alloc);
    for at in 0..texts.len() {
        if let Some(text) = doubled_at(texts, from, to, at) {
            list.push(text)?;
        }
    }
    Ok(list)
}

/// Whether these are refused.
fn is_double_refused(
    alloc: Global,
    texts: &[String],
    from: usize,
    to: usize,
) -> Result<bool, AllocError> {
    let list = doubled(alloc, texts, from, to)?;
    Ok(is_refused(alloc, &list, 1024, GenFault::Doubled))
}

/// Wherever the two equal texts are among a thousand: side by side, far apart, or in each other's place.
static PLACES: [(usize, usize); 5] = [(0, 1), (0, 999), (999, 0), (499, 500), (17, 801)];

#[test]
fn doubled_texts(rt: HostRuntime) {
    let texts = numbered(rt.alloc(), 1000).expect(&rt, "texts");
    for (from, to) in &PLACES {
        let is_refused = is_double_refused(rt.alloc(), &texts, *from, *to);
        assert_for(&rt, is_refused == Ok(true), &(from, to));
    }
}

/// A text that is listed three times, and between them others of its pair of displacements.
static THREE_TIMES: [&str; 5] = ["sentence", "interned", "sentence", "tokenised", "sentence"];

#[test]
fn text_listed_three_times(rt: HostRuntime) {
    assert_that(
        &rt,
        is_refused(rt.alloc(), &THREE_TIMES, 1024, GenFault::Doubled),
    );
}

/// The xor and the wrapping sum of the numbers.
fn xor_and_sum(numbers: &[u64]) -> (u64, u64) {
    let mut xor = 0u64;
    let mut sum = 0u64;
    for number in numbers {
        xor ^= *number;
        sum = sum.wrapping_add(*number);
    }
    (xor, sum)
}

/// The texts `name_of_element_N_x`, N being 7919, 15838 and so on modulo 1,000,003.
fn spread(alloc: Global, count: u64) -> Result<Vec<String>, AllocError> {
    let mut texts = Vec::new(alloc);
    for i in 0..count {
        let number = i.wrapping_mul(7919) % 1_000_003;
        texts.push(format!(in alloc; "name_of_element_{number}_x")?)?;
    }
    Ok(texts)
}

/// Whether the xor and the sum of the hashes, and the number of displacements, are those of a thousand and one texts.
fn are_of_many(alloc: Global, tables: &Tables) -> bool {
    let wanted = (0xa53f_e03c_a4ac_91ebu64, 0xb218_f2a5_e4b2_b187u64);
    xor_and_sum(&tables.hashes) == wanted
        && tables.disps.len() == 201
        && are_checked(alloc, tables) == Ok(true)
}

/// Whether those of the tables of these texts and of one more are.
fn are_placed_with(alloc: Global, texts: &[String], other: &str) -> Result<bool, GenFault> {
    let mut list = lent(alloc, texts)?;
    list.push(other)?;
    let tables = tables_of(alloc, &list, 0, 2048)?;
    Ok(are_of_many(alloc, &tables))
}

/// A thousand texts and one beyond ASCII. The xor and the sum of their entries' hashes come from a Python program that was written from what is
/// stated about the hash.
#[test]
fn thousand_and_one_texts(rt: HostRuntime) {
    let texts = spread(rt.alloc(), 1000).expect(&rt, "texts");
    assert_that(&rt, are_placed_with(rt.alloc(), &texts, "味噌汁") == Ok(true));
}

/// Whether the f2 of the texts differ in the lowest bit: with no displacement they have two places.
fn differ(text: &str, other: &str) -> bool {
    (hash(text, 0).f2 ^ hash(other, 0).f2) & 1 == 1
}

/// The first of the texts before this one from which it differs in this way.
fn other_of<'t>(earlier: &'t [String], text: &str) -> Option<&'t str> {
    for other in earlier {
        if differ(text, other) {
            return Some(other.as_str());
        }
    }
    None
}

/// Whether the two are placed with no displacement, and what is printed for that is checked.
fn is_pair_placed(alloc: Global, first: &str, second: &str) -> Result<bool, GenFault> {
    let tables = tables_of(alloc, &[first, second], 0, 1)?;
    let is_checked = are_checked(alloc, &tables) == Ok(true);
    Ok(is_checked && tables.disps.as_slice() == [(0u32, 0u32)].as_slice())
}

/// Whether the first two of the texts that differ are placed like this.
fn is_first_pair_placed(alloc: Global, texts: &[String]) -> Result<bool, GenFault> {
    for (i, text) in texts.iter().enumerate() {
        if let Some(other) = other_of(&texts[..i], text) {
            return is_pair_placed(alloc, other, text);
        }
    }
    Ok(false)
}

/// Of the texts below a hundred, the first two whose f2 differ in the lowest bit.
#[test]
fn two_texts(rt: HostRuntime) {
    let texts = numbered(rt.alloc(), 100).expect(&rt, "texts");
    assert_that(&rt, is_first_pair_placed(rt.alloc(), &texts) == Ok(true));
}

/// Whether the tables are made under this key. `None` if anything but their bound is in the way.
fn is_placed(alloc: Global, list: &[&str], key: u64) -> Option<bool> {
    match tables_of(alloc, list, key, 1024) {
        Ok(_) => Some(true),
        Err(GenFault::NotPlaced) => Some(false),
        Err(_) => None,
    }
}

/// Whether they are made under one of four keys, and nothing else is in the way under the others.
fn are_placed(alloc: Global, list: &[&str]) -> bool {
    let mut are_placed = false;
    for key in 0..4u64 {
        match is_placed(alloc, list, key) {
            Some(is_placed) => are_placed = are_placed || is_placed,
            None => return false,
        }
    }
    are_placed
}

/// Whether that is so for this many texts.
fn are_numbered_placed(alloc: Global, count: usize) -> Result<bool, AllocError> {
    let texts = numbered(alloc, count)?;
    let list = lent(alloc, &texts)?;
    Ok(are_placed(alloc, &list))
}

/// The lengths of lists that are placed by one of the first four keys: if more first displacements are tried than there are texts, all from nine on.
static PLACED: [usize; 20] = [
    1, 2, 3, 4, 5, 6, 7, 9, 10, 11, 12, 13, 14, 15, 16, 17, 18, 19, 20, 64,
];

#[test]
fn short_lists(rt: HostRuntime) {
    for count in &PLACED {
        let are_placed = are_numbered_placed(rt.alloc(), *count);
        assert_for(&rt, are_placed == Ok(true), count);
    }
}

/// Whether no tables were found within the bound.
fn is_not_placed(answer: &Result<Tables, GenFault>) -> bool {
    matches!(answer, Err(GenFault::NotPlaced))
}

/// Tables of the names, under the first of a hundred keys for which there are some.
fn tables_of_names(alloc: Global, names: &[&str]) -> Result<Tables, GenFault> {
    for key in 0..100u64 {
        let answer = tables_of(alloc, names, key, 1024);
        if !is_not_placed(&answer) {
            return answer;
        }
    }
    Err(GenFault::NotPlaced)
}

/// Whether these tables of 61 texts are perfect.
fn are_perfect(alloc: Global, tables: &Tables) -> Result<bool, AllocError> {
    let atoms = lent(alloc, &tables.atoms)?;
    Ok(
        tables.disps.len() == 13
            && tables.atoms.len() == 61
            && check_parts(tables.key, &tables.disps, &atoms, &tables.hashes),
    )
}

/// The tables of this many texts.
fn tables_of_numbered(alloc: Global, count: usize) -> Result<Tables, GenFault> {
    let texts = numbered(alloc, count)?;
    let list = lent(alloc, &texts)?;
    tables_of_names(alloc, &list)
}

/// A list of more than five texts is placed by one of the first keys.
#[test]
fn sixty_one_texts(rt: HostRuntime) {
    let tables = tables_of_numbered(rt.alloc(), 61).expect(&rt, "tables");
    assert_that(&rt, are_perfect(rt.alloc(), &tables) == Ok(true));
    assert_that(&rt, are_checked(rt.alloc(), &tables) == Ok(true));
}

/// Of these three texts the first two have the places 0 and 1 with no displacement, and the third 0, as 4294966296 is 3 * 1431655432. A first
/// displacement of 2 adds 2 to the third alone; a second one of 1000 takes it around to 0, and with it the others to 1 and 2. The smaller is found.
#[test]
fn small_displacements_come_first(rt: HostRuntime) {
    let members = [
        Hashes { g: 0, f1: 0, f2: 0 },
        Hashes { g: 0, f1: 0, f2: 1 },
        Hashes {
            g: 0,
            f1: 1,
            f2: 4_294_966_296,
        },
    ];
    let tried = Tried {
        first: 10_000,
        second: 10_000,
    };
    let found = find_pair(&members, tried, &[false, false, false]);
    assert_that(&rt, found == Some((2, 0)));
}

static FIVE: [&str; 5] = [
    "sentence",
    "interned",
    "tokenised",
    "repeated",
    "figcaption",
];

static THREE: [&str; 3] = ["sentence", "interned", "tokenised"];

/// Whether the first pair is a small one, with a first displacement above 0.
fn are_small(tables: &Tables) -> bool {
    match tables.disps.first() {
        Some((first, second)) => *first > 0 && *first < 1000 && *second < 1000,
        None => false,
    }
}

/// Whether that is so for the texts' tables at the greatest bound, and what is printed for them is checked.
fn are_placed_at_once(alloc: Global, list: &[&str]) -> Result<bool, GenFault> {
    let tables = tables_of(alloc, list, 0, u32::MAX)?;
    let are_checked = are_checked(alloc, &tables) == Ok(true);
    Ok(are_checked && are_small(&tables))
}

/// Three and five texts that small displacements place are placed at once at the greatest bound. With a first displacement of 0
/// they aren't placed.
#[test]
fn greatest_bound(rt: HostRuntime) {
    assert_that(&rt, are_placed_at_once(rt.alloc(), &THREE) == Ok(true));
    assert_that(&rt, are_placed_at_once(rt.alloc(), &FIVE) == Ok(true));
}

/// Whether the texts' places differ by an even number whatever the displacements.
fn differ_evenly(text: &str, other: &str) -> bool {
    let (one, other) = (hash(text, 0), hash(other, 0));
    (one.f1 ^ other.f1) & 1 == 0 && (one.f2 ^ other.f2) & 1 == 0
}

/// Whether no other text that differs from the first in this way can be placed with it, and there is such a text.
fn are_hopeless(alloc: Global, texts: &[String]) -> bool {
    let Some((first, others)) = texts.split_first() else {
        return false;
    };
    let mut is_refused_once = false;
    for other in others {
        if differ_evenly(first, other) {
            let pair = [first.as_str(), other.as_str()];
            if !is_refused(alloc, &pair, u32::MAX, GenFault::NotPlaced) {
                return false;
            }
            is_refused_once = true;
        }
    }
    is_refused_once
}

/// Two texts whose places differ by an even number whatever the displacements: a search without bound ends.
#[test]
fn hopeless_search(rt: HostRuntime) {
    let texts = numbered(rt.alloc(), 100).expect(&rt, "texts");
    assert_that(&rt, are_hopeless(rt.alloc(), &texts));
}
