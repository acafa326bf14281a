//! What a table tells about its texts and about words.

ghost use Rattle.std.specs.Prelude.{IsTrue, ◌≡◌, ℕ, ◌↔◌, IfSome, IsSome, MatchOption, List, None, Some, slice_get, length};
ghost use Rattle.std.specs.List.{IsDistinct, sum_by};
ghost use Rattle.std.specs.Map.{keys_of};
ghost use Rattle.std.specs.Str.{IsUtf8, bytes_eq};
ghost use Rattle.text_forms.specs.Map.{HasHolders, IsHeldTicket};
ghost use Rattle.interner_table.specs.Table.{HasWord, IsHeld, IsTextOf};

use super::word_text::WordText;
use super::{Table, is_fixed};
use std::hash::BuildHasher;
use text_forms::static_sets::{StaticTables, TextForm, form_of_text, static_text};
use text_forms::word::{Form, form_of, static_word, unpack_inline};

impl<S: StaticTables, H: BuildHasher> Table<S, H> {
    ghost use Rattle.interner_table.specs.Kept.{Pair, map_of, IsSoundMap};
    ghost use Rattle.interner_table.specs.WordText.{text_in};

    /// The word of a text that has one: that of an inline or a static text, or the ticket of a dynamic text that is held. `None` exactly if the text
    /// is dynamic and isn't held. No holder is added.
    #[tactic(auto, unfolding(crate::specs::Table::IsHeld))]
    pub fn get(&self, text: &str) -> Option<u64>
        ensures word { MatchOption result ((word : ℕ) → ¬ (HasWord S.tables (map_of self.now) text.now word)) (λ word. HasWord S.tables (map_of self.now) text.now word) }
        ensures held { IfSome result (λ word. IsHeld S.tables (map_of self.now) word) }
    {
        self.is_sound(); // what is held is dynamic
        if let Some(at) = self.find(text) {
            let (ticket, _) = self.held_at(at);
            return Some(ticket);
        }
        match form_of_text::<S>(text) {
            TextForm::Inline(inline) => Some(inline.word()),
            TextForm::Static(index) => Some(static_word(index)),
            TextForm::Dynamic(_) => None,
        }
    }

    /// The text of a word that is held: an inline word's own, otherwise one that is lent. `None` for any other number.
    #[tactic(auto, unfolding(crate::specs::Table::IsHeld))]
    pub fn text_of(&self, word: u64) -> Option<WordText<'_>>
        ensures held { IsSome result ↔ IsHeld S.tables (map_of self.now) word }
        ensures word { IfSome result (λ lent. HasWord S.tables (map_of self.now) (text_in lent) word) }
        ensures same { IfSome result (λ lent. (text : List ℕ) → IsUtf8 text → HasWord S.tables (map_of self.now) text word → text_in lent ≡ text) }
    {
        match unpack_inline(word) {
            Some(text) => {
                self.is_sound(); // no ticket is inline
                Some(WordText::Inline(text))
            }
            None => Some(WordText::Lent(self.text(word)?)),
        }
    }

    /// The text of a static word or of a ticket that is held. `None` for any other word; an inline word holds its text
    /// itself.
    pub fn text(&self, word: u64) -> Option<&str>
        ensures text { MatchOption result ((text : List ℕ) → ¬ (IsTextOf S.tables (map_of self.now) word text)) (λ text. IsTextOf S.tables (map_of self.now) word text.now) }
        ensures found { (text : List ℕ) → IsTextOf S.tables (map_of self.now) word text → IsSome result }
        ensures same { IfSome result (λ lent. (text : List ℕ) → IsTextOf S.tables (map_of self.now) word text → lent.now ≡ text) }
        ensures word { IfSome result (λ text. HasWord S.tables (map_of self.now) text.now word) }
    {
        self.find_text(word)
    }

    /// Whether a word is held: an inline word always is, a static word if the static type has its text, and a ticket if someone holds it.
    pub fn holds(&self, word: u64) -> bool
        ensures { IsTrue result ↔ IsHeld S.tables (map_of self.now) word }
    {
        if is_fixed::<S>(word) {
            return true;
        }
        self.place_of(word).is_some()
    }

    /// The number of holders of a ticket. `None` for any other word: an inline word or a static word has no number of holders.
    pub fn holders(&self, word: u64) -> Option<u64>
        ensures { MatchOption result (¬ (IsHeldTicket (map_of self.now) word)) (λ holders. HasHolders (map_of self.now) word holders) }
    {
        let at = self.place_of(word)?;
        let (_, holders) = self.held_at(at);
        Some(holders)
    }

    /// The number of dynamic texts that are held.
    pub fn entries(&self) -> usize
        ensures count { result ≡ length self.now.pairs }
        ensures distinct { IsDistinct bytes_eq (keys_of self.now.pairs) }
    {
        self.entries.len() // each text once
    }

    /// The bytes of the dynamic texts that are held.
    pub fn text_bytes(&self) -> u128
        ensures { result ≡ sum_by (λ pair. length pair.0) self.now.pairs }
    {
        self.bytes // counted as texts come and go
    }

    // ---- places

    /// The text of a word.
    fn find_text(&self, word: u64) -> Option<&str>
        ensures sound { IsSoundMap S.tables (map_of self.now) }
        ensures text { MatchOption result ((text : List ℕ) → ¬ (IsTextOf S.tables (map_of self.now) word text)) (λ text. IsTextOf S.tables (map_of self.now) word text.now) }
    {
        self.is_sound();
        match form_of(word)? {
            Form::Inline(_) => None,
            Form::Static(index) => static_text::<S>(index),
            Form::Dynamic { .. } => self.ticket_text(word),
        }
    }

    /// The text of a ticket.
    fn ticket_text(&self, ticket: u64) -> Option<&str>
        ensures { MatchOption result (¬ (IsHeldTicket (map_of self.now) ticket)) (λ text. (holders : ℕ) × ((map_of self.now).held text.now ≡ Some (record { ticket = ticket; holders = holders }))) }
    {
        let at = self.place_of(ticket)?;
        let (text, _) = self.entries.get_index(at)?;
        Some(text.as_str())
    }
}
