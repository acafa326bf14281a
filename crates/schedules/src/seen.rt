//! What a visit of all entries has met.

use crate::calls::Answer;
use crate::texts::Word;

/// The entries that were met, of a set in which a text has at most one entry that somebody holds.
#[derive(Clone, Copy)]
pub struct Seen {
    count: u64,
    held: u16,
    is_strange: bool,
}

impl Seen {
    pub fn nothing() -> Seen {
        Seen {
            count: 0,
            held: 0,
            is_strange: false,
        }
    }

    /// Meets an entry of this text, with this number of holders.
    pub fn meet(&mut self, text: &str, holders: u64) {
        self.count = self.count.saturating_add(1);
        let Some(number) = Word::number_of(text) else {
            self.is_strange = true;
            return;
        };
        if holders == 0 {
            return;
        }
        let own = 1u16.checked_shl(u32::from(number)).unwrap_or(0);
        self.is_strange |= self.held & own != 0;
        self.held |= own;
    }

    pub fn answer(&self) -> Answer {
        if self.is_strange {
            Answer::Strange(self.count)
        } else {
            Answer::Visited(self.count)
        }
    }
}
