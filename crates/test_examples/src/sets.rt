//! What the small programs return, with worked values.

use crate::{assert_for, assert_that};
use counted_cell::{FreeGrant, Label, Owner};
use example_sets::{
    Compared, Dishes, Priced, Prices, Tag, Tags, agree, agree_in_scope, compare_names,
    compute_something, finds_all, header_name, is_field, large_set, length_by_share, load,
    no_prices, price_of, price_of_text, priced_json, prints_well, save, set_price, tables_of_names,
    take_next, through_json,
};
use node_chain::NodeChain;
use std::alloc::Global;
use std::cmp::Ordering;
use std::process::Abort;
use std::sync::Wait;
use std::thread::Threads;
use string_cache::dynamic_set::Set;
use string_cache::static_sets::{StaticAtomSet, StaticTables};
use string_cache::word::{Buckets, Limits};
use string_cache::{Atom, DefaultAtom, EmptyStaticAtomSet, Fault};
use test_samples::keys;

/// A set without static texts.
type DefaultSet = Set<EmptyStaticAtomSet>;

fn new_set<Static: StaticTables>(rt: &impl Abort, alloc: Global) -> Set<Static> {
    Set::new(alloc).expect(rt, "a set")
}

/// The atom of a text.
fn intern<'s, R: Wait + Abort, Static: StaticTables>(
    rt: &R,
    set: &'s Set<Static>,
    text: &str,
) -> Atom<'s, Static> {
    Atom::from_str_in(rt, set, text).expect(rt, "an atom")
}

/// Two names; whether they are one, their order, and whether the second is the first in upper case.
static NAMES: [(&str, &str, bool, Ordering, bool); 5] = [
    ("", "", true, Ordering::Equal, true),
    ("B\u{e4}r", "B\u{e4}R", false, Ordering::Greater, true),
    ("pear tree", "pear tree", true, Ordering::Equal, false),
    ("pear tree", "plum", false, Ordering::Less, false),
    ("pear tree", "PEAR TREE", false, Ordering::Greater, true),
];

/// What is found for two names if the first costs 40.
fn compared<R: Wait>(rt: &R, alloc: Global, first: &str, second: &str) -> Option<Compared> {
    compare_names(rt, alloc, keys(1)?, first, second, 40).ok()
}

#[test]
fn names_compare(rt: HostRuntime) {
    for (first, second, is_same, order, is_in_capitals) in &NAMES {
        let wanted = Compared {
            is_same: *is_same,
            order: *order,
            is_in_capitals: *is_in_capitals,
            price: if *is_same { Some(40) } else { None },
        };
        assert_for(
            &rt,
            compared(&rt, rt.alloc(), first, second) == Some(wanted),
            second,
        );
    }
}

/// What a text stands for.
fn matched<R: Wait + Abort>(rt: &R, set: &DefaultSet, text: &str) -> u32 {
    compute_something(&intern(rt, set, text))
}

#[test]
fn texts_are_matched(rt: HostRuntime) {
    let set = new_set(&rt, rt.alloc());
    for (text, wanted) in &[("foo", 1), ("bar", 2), ("baz", 3), ("", 0)] {
        assert_for(&rt, matched(&rt, &set, text) == *wanted, &text);
    }
}

/// Whether two names of a header have one atom, of this text.
fn are_one_header<R: Wait + Abort>(
    rt: &R,
    set: &DefaultSet,
    first: &str,
    second: &str,
    text: &str,
) -> bool {
    let name = header_name(rt, set, first).expect(rt, "an atom");
    name.as_str() == text && name == header_name(rt, set, second).expect(rt, "an atom")
}

#[test]
fn headers_have_small_letters(rt: HostRuntime) {
    let set = new_set(&rt, rt.alloc());
    assert_that(
        &rt,
        are_one_header(&rt, &set, "Content-Type", "CONTENT-TYPE", "content-type"),
    );
    assert_that(
        &rt,
        are_one_header(&rt, &set, "GR\u{d6}SSE", "gr\u{d6}sse", "gr\u{d6}sse"),
    );
    let upper = "X-LONG-".repeat(rt.alloc(), 30).expect(&rt, "room");
    let lower = "x-long-".repeat(rt.alloc(), 30).expect(&rt, "room");
    assert_that(&rt, are_one_header(&rt, &set, &upper, &lower, &lower));
    assert_that(&rt, set.linked(&rt) == 0);
}

/// Whether the atom is written as a value that is read back as the atom.
fn goes_through_json<R: Wait>(rt: &R, set: &DefaultSet, atom: &DefaultAtom<'_>) -> bool {
    match through_json(rt, set.allocator(), set, atom) {
        Ok(back) => back == *atom,
        Err(_) => false,
    }
}

/// Whether this is the JSON text of the atom.
fn is_saved_as(alloc: Global, atom: &DefaultAtom<'_>, json: &str) -> bool {
    match save(alloc, atom) {
        Ok(text) => text.as_str() == json,
        Err(_) => false,
    }
}

/// Whether the atom of a JSON text is this one. `None` if it has none.
fn is_loaded<R: Wait>(
    rt: &R,
    set: &DefaultSet,
    json: &str,
    atom: &DefaultAtom<'_>,
) -> Option<bool> {
    match load(rt, set.allocator(), set, json) {
        Ok(loaded) => Some(loaded == *atom),
        Err(_) => None,
    }
}

/// Whether a text's atom goes through this JSON text and no other.
fn goes_through<R: Wait + Abort>(rt: &R, set: &DefaultSet, text: &str, json: &str) -> bool {
    let atom = intern(rt, set, text);
    goes_through_json(rt, set, &atom)
        && is_saved_as(set.allocator(), &atom, json)
        && is_loaded(rt, set, json, &atom) == Some(true)
        && is_loaded(rt, set, "7", &atom).is_none()
        && is_loaded(rt, set, "interned", &atom).is_none()
}

/// Texts, and their JSON texts.
static SAVED: [(&str, &str); 7] = [
    ("interned", r#""interned""#),
    ("m\u{f6}hrensuppe", "\"m\u{f6}hrensuppe\""),
    ("a\"b", r#""a\"b""#),
    ("", r#""""#),
    ("a\nb", r#""a\nb""#),
    ("\u{1f980} and \u{1f980}", "\"\u{1f980} and \u{1f980}\""),
    ("a\u{1}b and \u{7f}\t", "\"a\\u0001b and \u{7f}\\t\""),
];

#[test]
fn atoms_go_through_json(rt: HostRuntime) {
    let set = new_set(&rt, rt.alloc());
    for (text, json) in &SAVED {
        assert_for(&rt, goes_through(&rt, &set, text, json), text);
    }
}

/// A price list with one name.
fn one_price<'s, R: Wait + Abort>(rt: &R, set: &'s DefaultSet) -> Prices<'s> {
    let mut prices = no_prices(set.allocator(), keys(1).expect(rt, "keys"));
    set_price(&mut prices, intern(rt, set, "pear tree"), 40).expect(rt, "room");
    prices
}

/// What a price list with one name has for a text, by its atom.
fn priced_by_atom<R: Wait + Abort>(rt: &R, set: &DefaultSet, name: &str) -> Option<u32> {
    price_of(&one_price(rt, set), &intern(rt, set, name))
}

#[test]
fn prices_are_found_by_text(rt: HostRuntime) {
    let set = new_set(&rt, rt.alloc());
    for (name, price) in &[("pear tree", Some(40)), ("plum tree", None)] {
        assert_for(&rt, priced_by_atom(&rt, &set, name) == *price, &name);
    }
}

/// What a price list with one name has for a text.
fn priced<R: Wait + Abort>(rt: &R, set: &DefaultSet, name: &str) -> Result<Option<u32>, Fault> {
    price_of_text(rt, set, &one_price(rt, set), name)
}

/// What a list has for names that get these prices in turn, and for one without.
fn priced_in_turn<R: Wait + Abort>(rt: &R, set: &DefaultSet, names: &[(&str, u32)]) -> bool {
    let mut prices = no_prices(set.allocator(), keys(1).expect(rt, "keys"));
    for (name, price) in names {
        set_price(&mut prices, intern(rt, set, name), *price).expect(rt, "room");
    }
    are_priced(rt, set, &prices, names)
}

/// Whether each of these names has its price, and another none.
fn are_priced<'s, R: Wait>(
    rt: &R,
    set: &'s DefaultSet,
    prices: &Prices<'s>,
    names: &[(&str, u32)],
) -> bool {
    for (name, price) in names {
        if price_of_text(rt, set, prices, name) != Ok(Some(*price)) {
            return false;
        }
    }
    price_of_text(rt, set, prices, "m\u{f6}glicherweise") == Ok(None)
}

/// One name has its price twice.
static PRICE_LIST: [(&str, u32); 7] = [
    ("pear tree", 40),
    ("m\u{f6}hrensuppe", 41),
    ("plum", 42),
    ("", 43),
    ("\u{1f980}", 44),
    ("plum", 42),
    (
        "a pear tree with so many pears that its price is that of two others",
        0,
    ),
];

#[test]
fn many_names_have_prices(rt: HostRuntime) {
    let set = new_set(&rt, rt.alloc());
    assert_that(&rt, priced_in_turn(&rt, &set, &PRICE_LIST));
}

/// A set with one bucket of three tickets, which a price list for each of three look-ups spends.
fn set_of_three_tickets(rt: &impl Abort, alloc: Global) -> DefaultSet {
    let limits = Limits::new(9, 3).expect(rt, "limits");
    let buckets = Buckets::new(0).expect(rt, "bits");
    Set::with_buckets(alloc, limits, buckets).expect(rt, "a set")
}

static PRICED: [(&str, Option<u32>); 3] = [
    ("pear tree", Some(40)),
    ("plum tree", None), // dynamic
    ("plum", None), // inline
];

#[test]
fn prices_are_found_without_interning(rt: HostRuntime) {
    let set = set_of_three_tickets(&rt, rt.alloc());
    for (name, price) in &PRICED {
        assert_for(&rt, priced(&rt, &set, name) == Ok(*price), name);
    }
}

/// Whether this is the JSON text of a price.
fn is_json_of_price<R: Wait + Abort>(
    rt: &R,
    set: &DefaultSet,
    name: &str,
    price: u32,
    wanted: &str,
) -> bool {
    let name = intern(rt, set, name);
    match priced_json(set.allocator(), &Priced { name, price }) {
        Ok(json) => json.as_str() == wanted,
        Err(_) => false,
    }
}

static WRITTEN: [(&str, u32, &str); 3] = [
    ("tea", 3, r#"{"name":"tea","price":3}"#),
    (
        "soup \"du jour\"",
        0,
        r#"{"name":"soup \"du jour\"","price":0}"#,
    ),
    (
        "m\u{f6}hrensuppe",
        4_294_967_295,
        "{\"name\":\"m\u{f6}hrensuppe\",\"price\":4294967295}",
    ),
];

#[test]
fn prices_are_written_as_json(rt: HostRuntime) {
    let set = new_set(&rt, rt.alloc());
    for (name, price, wanted) in &WRITTEN {
        assert_for(&rt, is_json_of_price(&rt, &set, name, *price, wanted), name);
    }
}

/// Whether the text is dynamic, and the only one that the set links.
fn is_linked<R: Wait + Abort>(rt: &R, set: &DefaultSet, text: &str) -> bool {
    let atom = intern(rt, set, text);
    atom.is_dynamic() && set.linked(rt) == 1
}

#[test]
fn a_large_set_takes_texts(rt: HostRuntime) {
    let set = large_set(rt.alloc()).expect(&rt, "a set");
    assert_that(&rt, is_linked(&rt, &set, "pear tree"));
}

/// The number of texts in the tables of some names.
fn texts_in_tables(alloc: Global, names: &[&str]) -> Option<usize> {
    match tables_of_names(alloc, names) {
        Ok(tables) => Some(tables.atoms.len()),
        Err(_) => None,
    }
}

static FIVE: [&str; 5] = [
    "blockquote",
    "figcaption",
    "m\u{f6}hrensuppe",
    "template",
    "fieldset",
];

#[test]
fn tables_are_made_of_names(rt: HostRuntime) {
    let names = ["figcaption", "m\u{f6}hrensuppe"];
    assert_that(&rt, texts_in_tables(rt.alloc(), &names) == Some(2));
    assert_that(&rt, texts_in_tables(rt.alloc(), &FIVE) == Some(5));
    assert_that(&rt, matches!(prints_well(rt.alloc(), &FIVE, 1), Ok(true)));
    let names = ["textarea", "colgroup"]; // those that none of the first two keys places
    assert_that(&rt, texts_in_tables(rt.alloc(), &names) == Some(2));
    assert_that(
        &rt,
        texts_in_tables(rt.alloc(), &["figcaption", "figcaption"]).is_none(),
    );
    assert_that(&rt, texts_in_tables(rt.alloc(), &[]).is_none());
}

/// The bytes of a cell's text, as one more share sees it. `None` if the cell may have just the one share that it has.
fn bytes_by_share<R: Wait>(rt: &R, alloc: Global, text: &str, is_full: bool) -> Option<usize> {
    let label = Label {
        hash: 8,
        ticket: 7,
        limit: if is_full { 1 } else { 2 },
    };
    match Owner::new::<FreeGrant>(alloc, label, 9, text) {
        Ok((owner, first)) => {
            let len = length_by_share(rt, &owner);
            drop(first.give());
            len
        }
        Err(_) => None,
    }
}

#[test]
fn a_cell_is_read_by_a_share(rt: HostRuntime) {
    assert_that(
        &rt,
        bytes_by_share(&rt, rt.alloc(), "pear tree", false) == Some(9),
    );
    assert_that(
        &rt,
        bytes_by_share(&rt, rt.alloc(), "pear tree", true).is_none(),
    );
    assert_that(&rt, bytes_by_share(&rt, rt.alloc(), "", false) == Some(0));
}

/// Whether these two items, and no other, are taken out of the chain.
fn takes_two(chain: &mut NodeChain<u64>, first: u64, second: u64) -> bool {
    take_next(chain) == Some(first)
        && take_next(chain) == Some(second)
        && take_next(chain).is_none()
}

/// Whether two items are taken out of a chain in the order in which they are in it.
fn are_taken(alloc: Global, first: u64, second: u64) -> bool {
    let mut chain = NodeChain::new(alloc);
    chain.add_head(second).is_ok()
        && chain.add_head(first).is_ok()
        && takes_two(&mut chain, first, second)
}

#[test]
fn items_are_taken_out_in_order(rt: HostRuntime) {
    assert_that(&rt, are_taken(rt.alloc(), 40, 7));
}

#[test]
fn printed_tables_are_accepted(rt: HostRuntime) {
    let names = ["figcaption", "m\u{f6}hrensuppe"];
    assert_that(&rt, matches!(prints_well(rt.alloc(), &names, 0), Ok(true)));
    assert_that(&rt, prints_well(rt.alloc(), &[], 0).is_err());
}

/// Whether the atoms of two threads are equal in a set of their own. `None` if one is refused.
fn agreed<R: Threads + Wait + Sync>(
    rt: &R,
    alloc: Global,
    left: &str,
    right: &str,
) -> Option<bool> {
    agree(rt, alloc, left, right).ok()
}

/// The same in this set.
fn agreed_in_scope<R: Threads + Wait + Sync>(
    rt: &R,
    set: &DefaultSet,
    left: &str,
    right: &str,
) -> Option<bool> {
    agree_in_scope(rt, set, left, right).ok()
}

/// Whether both are so for two texts, and nothing is left in the set.
fn do_agree<R: Threads + Wait + Sync>(
    rt: &R,
    set: &DefaultSet,
    left: &str,
    right: &str,
    wanted: bool,
) -> bool {
    agreed(rt, set.allocator(), left, right) == Some(wanted)
        && agreed_in_scope(rt, set, left, right) == Some(wanted)
        && set.linked(rt) == 0 // their atoms are gone
}

static AGREED: [(&str, &str, bool); 5] = [
    ("tokenised", "tokenised", true),
    ("tokenised", "tokenized", false),
    ("m\u{f6}glicherweise", "m\u{f6}glicherweise", true),
    ("m\u{f6}glicherweise", "moglicherweise", false),
    ("", "", true),
];

#[test]
fn threads_agree(rt: HostRuntime) {
    let set = new_set(&rt, rt.alloc());
    for (left, right, wanted) in &AGREED {
        assert_for(&rt, do_agree(&rt, &set, left, right, *wanted), right);
    }
}

/// Whether the tables that the type has are well made.
fn are_checked<S: StaticAtomSet>() -> bool {
    S::get().check()
}

/// Whether the tag of a name is static, and whether it is a field's.
fn told_of_tag<R: Wait + Abort>(rt: &R, set: &Set<Tags>, name: &str) -> (bool, bool) {
    let tag = intern(rt, set, name);
    (tag.is_static(), is_field(&tag))
}

static TOLD: [(&str, (bool, bool)); 3] = [
    ("textarea", (true, true)),
    ("table", (false, false)),
    ("sentence", (false, false)),
];

#[test]
fn tags_are_static(rt: HostRuntime) {
    assert_that(&rt, are_checked::<Tags>());
    assert_that(
        &rt,
        finds_all::<Tags>(&["figcaption", "textarea", "template"]),
    );
    assert_that(&rt, !finds_all::<Tags>(&["figcaption", "sentence"]));
    let set = new_set(&rt, rt.alloc());
    for (name, told) in &TOLD {
        assert_for(&rt, told_of_tag(&rt, &set, name) == *told, name);
    }
}

/// A type that `tools/static_type.py` wrote, over names in several scripts.
#[test]
fn dishes_are_static(rt: HostRuntime) {
    let names = [
        "caf\u{e9} au lait",
        "\u{5e9}\u{5e7}\u{5e9}\u{5d5}\u{5e7}\u{5d4}",
        "soup \"du jour\" \\ bread",
        "minestrone",
    ];
    assert_that(&rt, are_checked::<Dishes>());
    assert_that(&rt, finds_all::<Dishes>(&names));
    assert_that(&rt, !finds_all::<Dishes>(&["cafe au lait"]));
}

#[test]
fn an_atom_has_24_bytes(rt: HostRuntime) {
    assert_that(&rt, size_of::<DefaultAtom>() == 24);
    assert_that(&rt, size_of::<Tag>() == 24);
}
