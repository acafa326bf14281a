//! A map whose keys are atoms.

ghost use Rattle.std.specs.Prelude.{◌≡◌, ◌≢◌, ◌≤◌, ℕ, List, [], IfOk, IfSome, Ok, OnOk, Some, length};
ghost use Rattle.std.specs.HashMap.{hasher_of};
ghost use Rattle.example_sets.specs.Prices.{price_in};

use std::alloc::Global;
use std::collections::HashMap;
use std::hash::RandomState;
use std::sync::Wait;
use string_cache::dynamic_set::Set;
use string_cache::{DefaultAtom, EmptyStaticAtomSet, Fault};

/// Prices by name. The map hashes under random keys: under a fixed seed, names can be chosen that collide in it.
pub type Prices<'s> = HashMap<DefaultAtom<'s>, u32, RandomState>;

/// No prices, in a map under these keys. A program draws them once, by `RandomState::new(&rt)`.
pub fn no_prices<'s>(alloc: Global, keys: RandomState) -> Prices<'s>
    ensures empty { result.entries ≡ [] }
    ensures keys { hasher_of result ≡ keys }
{
    HashMap::with_hasher(alloc, keys)
}

/// Puts a price on a name.
pub fn set_price<'s>(
    prices: &mut Prices<'s>,
    name: DefaultAtom<'s>,
    price: u32,
) -> Result<(), Fault>
    ensures price { OnOk result (price_in prices.new.entries name.entry.text ≡ Some price) }
    ensures others { OnOk result ((other : List ℕ) → other ≢ name.entry.text → price_in prices.new.entries other ≡ price_in prices.old.entries other) }
{
    prices.insert(name, price)?;
    Ok(())
}

/// The price of a name, which any atom of its text finds.
pub fn price_of(prices: &Prices, name: &DefaultAtom) -> Option<u32>
    ensures { result ≡ price_in prices.now.entries name.now.text }
{
    prices.get(name).copied()
}

/// The price of a name, which is looked up and not interned.
pub fn price_of_text<'s, R: Wait>(
    rt: &R,
    set: &'s Set<EmptyStaticAtomSet>,
    prices: &Prices<'s>,
    name: &str,
) -> Result<Option<u32>, Fault>
    ensures found { IfOk result (λ price. IfSome price (λ _. price ≡ price_in prices.now.entries name.now)) }
    ensures short { length name.now ≤ 7 → result ≡ Ok (price_in prices.now.entries name.now) }
{
    match DefaultAtom::get_in(rt, set, name)? {
        Some(name) => Ok(price_of(prices, &name)),
        None => Ok(None),
    }
}
