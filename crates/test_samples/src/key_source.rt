//! Keys for the tables and maps of tests, the same in each run, and a source that gives none.

use std::hash::RandomState;
use std::io;
use std::random::RandomSource;

/// A source whose bytes are those of a number, again and again, each with its place added.
#[derive(Drop)]
struct Numbered {
    number: u64,
}

impl RandomSource for Numbered {
    fn fill_bytes(&self, buf: &mut [u8]) -> io::Result<()> {
        let number = self.number.to_le_bytes();
        for (at, byte) in buf.iter_mut().enumerate() {
            *byte = number[at % 8].wrapping_add((at % 256) as u8);
        }
        Ok(())
    }
}

/// The keys with this number, different for each. They are always given: `None` is possible since a source of bytes may refuse.
pub fn keys(number: u64) -> Option<RandomState> {
    RandomState::new(&Numbered { number }).ok()
}

/// A source of random bytes that gives none.
#[derive(Drop)]
pub struct Refusing;

impl RandomSource for Refusing {
    fn fill_bytes(&self, _buf: &mut [u8]) -> io::Result<()> {
        Err(io::Error::from(io::ErrorKind::Other))
    }
}
