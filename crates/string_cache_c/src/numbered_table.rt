//! The table that C has, of the empty static type, and its calls that change who holds a text, with a number for each outcome.

ghost use Rattle.std.specs.Prelude.{◌≡◌, ◌≢◌, ◌≤◌, ◌⊎◌};
ghost use Rattle.string_cache_c.specs.Calls.{ClonesWord, GivesWord, InternsText};
ghost use Rattle.string_cache_c.specs.Numbers.{not_held, not_utf8};

use crate::numbers::{NOT_HELD, NOT_UTF8};
use crate::text_key::TextKey;
use crate::texts::text_of;
use interner_table::static_sets::EmptyStaticAtomSet;
use interner_table::table::Table;

/// A table, and calls of it that return a number: 0, or why they failed.
#[derive(Drop)]
pub struct NumberedTable {
    pub table: Table<EmptyStaticAtomSet, TextKey>,
}

impl NumberedTable {
    /// As `Table::intern`. The word is written if 0 is returned.
    pub fn intern(&mut self, text: &[u8], word: &mut u64) -> u32
        ensures interned { InternsText self.old.table text.now result word.old word.new self.new.table }
        ensures number { (result ≤ 3) ⊎ (result ≡ not_utf8) }
        ensures err { result ≢ 0 → (self.new ≡ self.old) × (word.new ≡ word.old) }
    {
        let Some(text) = text_of(text) else {
            return NOT_UTF8;
        };
        match self.table.intern(text) {
            Ok(own) => {
                *word = own;
                0
            }
            Err(fault) => u32::from(fault.number()),
        }
    }

    /// As `Table::clone_held`.
    pub fn clone_word(&mut self, word: u64) -> u32
        ensures cloned { ClonesWord self.old.table word result self.new.table }
        ensures number { (result ≡ 0) ⊎ (result ≡ 2) ⊎ (result ≡ not_held) }
        ensures err { result ≢ 0 → self.new ≡ self.old }
    {
        match self.table.clone_held(word) {
            Ok(Some(_)) => 0,
            Ok(None) => NOT_HELD,
            Err(fault) => u32::from(fault.number()),
        }
    }

    /// As `Table::release`.
    pub fn give(&mut self, word: u64) -> u32
        ensures given { GivesWord self.old.table word result self.new.table }
        ensures number { (result ≡ 0) ⊎ (result ≡ not_held) }
        ensures err { result ≢ 0 → self.new ≡ self.old }
    {
        if self.table.release(word) {
            0
        } else {
            NOT_HELD
        }
    }
}
