//! Small programs over `string_cache` and the crates that it builds on, as their users write them. Each has a contract that is proved only from the
//! contracts of the libraries. The tests that run them are in `test_examples`.
#![tactic(auto)]

ghost use Rattle.std.specs.Prelude.{◌≡◌, ◌≢◌, ◌↔◌, codes, IfOk, IsTrue, None, Some};
ghost use Rattle.std.specs.Cmp.Lexicographic.{slice_cmp};
ghost use Rattle.std.specs.Ordering.{nat_cmp};
ghost use Rattle.std.specs.Str.{str_to_ascii_uppercase};

mod cells;
mod chains;
mod dishes;
mod generated;
mod headers;
mod json;
mod lists;
mod prices;
mod sets;
mod sharing;
mod tags;

pub use cells::length_by_share;
pub use chains::take_next;
pub use dishes::{DISHES_TABLES, Dishes};
pub use generated::{prints_well, tables_of_names};
pub use headers::header_name;
pub use json::{Priced, load, priced_json, save, through_json};
pub use lists::list_names;
pub use prices::{Prices, no_prices, price_of, price_of_text, set_price};
pub use sets::large_set;
pub use sharing::{agree, agree_in_scope};
use std::alloc::Global;
use std::cmp::Ordering;
use std::hash::RandomState;
use std::sync::Wait;
use string_cache::dynamic_set::Set;
use string_cache::{DefaultAtom, Fault};
pub use tags::{TAGS, Tag, Tags, finds_all, is_field};

/// How one name compares to another.
#[derive(Clone, Copy, PartialEq, Eq, Debug)]
pub struct Compared {
    /// They are the same text.
    pub is_same: bool,
    /// Which of them comes first.
    pub order: Ordering,
    /// The second is the first in capitals.
    pub is_in_capitals: bool,
    /// What a map that has a price for the first has for the second.
    pub price: Option<u32>,
}

/// Compares two names by their atoms, and looks for the second in a map under these keys that has a price for the first.
pub fn compare_names<R: Wait>(
    rt: &R,
    alloc: Global,
    keys: RandomState,
    first: &str,
    second: &str,
    price: u32,
) -> Result<Compared, Fault>
    ensures same { IfOk result (λ found. IsTrue found.is_same ↔ (first.now ≡ second.now)) }
    ensures order { IfOk result (λ found. found.order ≡ slice_cmp nat_cmp first.now second.now) }
    ensures capitals { IfOk result (λ found. IsTrue found.is_in_capitals ↔ (str_to_ascii_uppercase first.now ≡ second.now)) }
    ensures price { IfOk result (λ found. first.now ≡ second.now → found.price ≡ Some price) }
    ensures no_price { IfOk result (λ found. first.now ≢ second.now → found.price ≡ None) }
{
    let set = Set::new(alloc)?;
    let first = DefaultAtom::from_str_in(rt, &set, first)?;
    let second = DefaultAtom::from_str_in(rt, &set, second)?;
    Ok(Compared {
        is_same: first == second,
        order: first.cmp(&second),
        is_in_capitals: first.to_ascii_uppercase_in(rt, &set)? == second,
        price: price_beside(rt, alloc, keys, &first, price, &second)?,
    })
}

/// What a map that has a price for the first name alone has for the second.
fn price_beside<R: Wait>(
    rt: &R,
    alloc: Global,
    keys: RandomState,
    first: &DefaultAtom,
    price: u32,
    second: &DefaultAtom,
) -> Result<Option<u32>, Fault>
    ensures same { IfOk result (λ found. first.now.text ≡ second.now.text → found ≡ Some price) }
    ensures other { IfOk result (λ found. first.now.text ≢ second.now.text → found ≡ None) }
{
    let mut prices = no_prices(alloc, keys);
    set_price(&mut prices, first.clone_atom(rt)?, price)?;
    Ok(price_of(&prices, second))
}

/// What a text stands for, matched by `as_str`.
pub fn compute_something(input: &DefaultAtom) -> u32
    ensures foo { input.now.text ≡ codes "foo" → result ≡ 1 }
    ensures bar { input.now.text ≡ codes "bar" → result ≡ 2 }
    ensures baz { input.now.text ≡ codes "baz" → result ≡ 3 }
    ensures other { input.now.text ≢ codes "foo" → input.now.text ≢ codes "bar" → input.now.text ≢ codes "baz" → result ≡ 0 }
{
    match input.as_str() {
        "foo" => 1,
        "bar" => 2,
        "baz" => 3,
        _ => 0,
    }
}
