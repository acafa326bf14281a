//! The texts that are interned, and the order in which they are asked for again.

ghost use Rattle.std.specs.Prelude.{◌<◌, ◌≤◌};

use std::alloc::{AllocError, Global};

/// Which texts are made.
#[derive(Clone, Copy)]
pub enum Kind {
    /// Any: 8 to 32 letters.
    Random,
    /// Chosen by someone who knows the fixed seed of `TrustedTexts`, under which all of them have the same hash: the first half of their last block
    /// is the state that the block before it leaves, and a product with 0 is 0.
    Chosen,
}

/// The chosen text with this number.
fn chosen(alloc: Global, number: usize) -> Result<String, AllocError> {
    format!(in alloc; "prefix0000000856J!(^`x8A{number:08}")
}

/// Random numbers, the same in every run (xorshift: Marsaglia, 2003).
#[derive(Drop)]
struct Random {
    state: u64,
}

impl Random {
    fn next(&mut self) -> u64 {
        let mut x = self.state;
        x ^= x << 13;
        x ^= x >> 7;
        x ^= x << 17;
        self.state = x;
        x
    }

    /// A number from 0 to `limit - 1`.
    fn below(&mut self, limit: usize) -> usize
        requires { 0 < limit }
        ensures { result < limit }
    {
        (self.next() % limit as u64) as usize
    }

    /// 8 to 32 letters.
    fn text(&mut self, alloc: Global) -> Result<String, AllocError> {
        let letters = 8 + self.below(25);
        let mut text = String::with_capacity(alloc, letters)?;
        for _letter in 0..letters {
            text.push((b'A' + (self.next() % 32) as u8) as char)?;
        }
        Ok(text)
    }

    /// Adds this many texts of a kind, beginning with this one.
    fn push_texts(
        &mut self,
        alloc: Global,
        kind: Kind,
        from: usize,
        count: usize,
        texts: &mut Vec<String>,
    ) -> Result<(), AllocError> {
        for at in 0..count {
            texts.push(match kind {
                Kind::Random => self.text(alloc)?,
                Kind::Chosen => chosen(alloc, from.wrapping_add(at))?,
            })?;
        }
        Ok(())
    }
}

/// Texts of 8 to 32 bytes, and the same texts in another order. Each order is in memory as it is read, so that reading them costs little compared to
/// the calls.
#[derive(Drop)]
pub struct Texts {
    first: Vec<String>,
    again: Vec<String>,
    more: Vec<String>,
}

impl Texts {
    /// This many texts of a kind, and a tenth as many more.
    pub fn new(alloc: Global, kind: Kind, count: usize) -> Result<Texts, AllocError> {
        let mut random = Random {
            state: 0x9e37_79b9_7f4a_7c15,
        };
        let mut texts = Texts {
            first: Vec::new(alloc),
            again: Vec::new(alloc),
            more: Vec::new(alloc),
        };
        texts.fill(alloc, kind, count, &mut random)?;
        Ok(texts)
    }

    /// Adds this many texts, and a tenth as many more.
    fn fill(
        &mut self,
        alloc: Global,
        kind: Kind,
        count: usize,
        random: &mut Random,
    ) -> Result<(), AllocError> {
        random.push_texts(alloc, kind, 0, count, &mut self.first)?;
        self.say_again(&shuffled(alloc, count, random)?)?;
        random.push_texts(alloc, kind, count, count / 10, &mut self.more)
    }

    /// Adds the first texts once more, in this order.
    fn say_again(&mut self, order: &[usize]) -> Result<(), AllocError> {
        for at in order {
            if let Some(text) = self.first.get(*at) {
                self.again.push(text.clone()?)?;
            }
        }
        Ok(())
    }

    /// The texts in their first order.
    pub fn first(&self) -> &[String] {
        &self.first
    }

    /// The texts in the other order.
    pub fn again(&self) -> &[String] {
        &self.again
    }

    /// Other texts.
    pub fn more(&self) -> &[String] {
        &self.more
    }

    /// The number of texts, without the other ones.
    pub fn len(&self) -> usize {
        self.first.len()
    }
}

/// The numbers from 0 to `count - 1` in a random order.
fn shuffled(alloc: Global, count: usize, random: &mut Random) -> Result<Vec<usize>, AllocError> {
    let mut order: Vec<usize> = (0..count).collect(alloc)?;
    for at in 1..order.len() {
        let other = random.below(at + 1);
        order.swap(at, other);
    }
    Ok(order)
}
