//! A few items in one place.
ghost use Rattle.std.specs.Prelude.{◌≡◌, ◌+◌, ◌<◌, ◌≤◌, ◌↔◌, ◌++◌, [], ◌∷◌, IsTrue, length, take, drop};
ghost use Rattle.node_chain.specs.Packs.{IsAt, most_items};

use std::marker::Model;
use std::mem::replace;

/// The number of items that a pack has room for.
const MOST_ITEMS: usize = 4;

/// One to four items in order, held in the value itself. Contracts see their list.
#[derive(Drop)]
pub struct Pack<T> {
    first: T,
    others: Others<T>,
}

/// The items after the first.
#[derive(Drop)]
enum Others<T> {
    None,
    One(T),
    Two(T, T),
    Three(T, T, T),
}

impl<T> Model for Pack<T> {
    ghost use Rattle.std.specs.Prelude.{◌∷◌, List};
    ghost use Rattle.std.specs.Coded.{coded_list};
    ghost use Rattle.node_chain.specs.Packs.{others_of};

    ghost Value = { List T };

    ghost coded = { coded_list T.code };

    ghost view = { λ p. p.first ∷ others_of p.others };
}

impl<T> Pack<T> {
    /// A pack of one item.
    pub fn new(item: T) -> Pack<T>
        ensures { result ≡ item ∷ [] }
    {
        Pack {
            first: item,
            others: Others::None,
        }
    }

    /// The number of its items: 1 to 4.
    pub fn len(&self) -> usize
        ensures value { result ≡ length self.now }
        ensures some { 0 < result }
    {
        match &self.others {
            Others::None => 1,
            Others::One(_) => 2,
            Others::Two(_, _) => 3,
            Others::Three(_, _, _) => 4,
        }
    }

    /// Whether it has room for one more item.
    pub fn has_room(&self) -> bool
        ensures { IsTrue result ↔ (length self.now < most_items) }
    {
        self.len() < MOST_ITEMS
    }

    /// The item at a place, or `None` if the place is past the last. There is no place after the fourth.
    pub fn get(&self, index: usize) -> Option<&T>
        ensures item { IsAt self.now index result }
        ensures few { length self.now ≤ most_items }
    {
        match (index, &self.others) {
            (0, _) => Some(&self.first),
            (1, Others::One(second)) => Some(second),
            (1, Others::Two(second, _)) => Some(second),
            (1, Others::Three(second, _, _)) => Some(second),
            (2, Others::Two(_, third)) => Some(third),
            (2, Others::Three(_, third, _)) => Some(third),
            (3, Others::Three(_, _, fourth)) => Some(fourth),
            _ => None,
        }
    }
}

impl<T: Drop> Pack<T> {
    /// Adds an item as the first.
    pub fn add(&mut self, item: T)
        requires { length self.old < most_items }
        ensures { self.new ≡ item ∷ self.old }
    {
        let first = replace(&mut self.first, item);
        self.others = match replace(&mut self.others, Others::None) {
            Others::None => Others::One(first),
            Others::One(second) => Others::Two(first, second),
            Others::Two(second, third) => Others::Three(first, second, third),
            Others::Three(_, _, _) => unreachable!(),
        };
    }

    /// The item of a pack that has just one.
    pub fn into_item(self) -> T
        requires { length self ≡ 1 }
        ensures { self ≡ result ∷ [] }
    {
        let Pack { first, others: _ } = self;
        first
    }

    /// Takes out the item at a place, which isn't the only one, and closes the gap.
    pub fn remove(&mut self, index: usize) -> T
        requires { (index < length self.old) × (1 < length self.old) }
        ensures taken { drop index self.old ≡ result ∷ drop (index + 1) self.old }
        ensures rest { self.new ≡ take index self.old ++ drop (index + 1) self.old }
    {
        let others = replace(&mut self.others, Others::None);
        let (item, others) = others.without(index.saturating_sub(1));
        self.others = others;
        if index == 0 {
            replace(&mut self.first, item)
        } else {
            item
        }
    }
}

impl<T> Others<T> {
    ghost use Rattle.node_chain.specs.Packs.{others_of};

    /// The item at a place, and those before and after it.
    fn without(self, index: usize) -> (T, Others<T>)
        requires { index < length (others_of self) }
        ensures taken { drop index (others_of self) ≡ result.0 ∷ drop (index + 1) (others_of self) }
        ensures rest { others_of result.1 ≡ take index (others_of self) ++ drop (index + 1) (others_of self) }
    {
        match (self, index) {
            (Others::None, _) => unreachable!(),
            (Others::One(one), _) => (one, Others::None),
            (Others::Two(one, two), 0) => (one, Others::One(two)),
            (Others::Two(one, two), _) => (two, Others::One(one)),
            (Others::Three(one, two, three), 0) => (one, Others::Two(two, three)),
            (Others::Three(one, two, three), 1) => (two, Others::Two(one, three)),
            (Others::Three(one, two, three), _) => (three, Others::Two(one, two)),
        }
    }
}
