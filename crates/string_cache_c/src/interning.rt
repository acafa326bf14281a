//! Interns, clones and gives words.

ghost use Rattle.std.specs.Prelude.{◌≡◌, ◌≢◌, ◌≤◌, ◌⊎◌, None};
ghost use Rattle.string_cache_c.specs.Calls.{ClonesWord, GivesWord, InternsText, Within};
ghost use Rattle.string_cache_c.specs.Numbers.{closed, not_held, not_utf8};

use crate::handle::ScTable;
use crate::numbers::CLOSED;

/// Interns a text, and writes its word. A text of at most 7 bytes has its inline word. Any other has a ticket, with one more holder.
///
/// Returns 5 if the bytes aren't UTF-8, 1 if there is no memory, 2 if the text has as many holders as the limits allow, 3 if its bucket has no ticket
/// left, and 7 if the table is closed; then nothing changes.
#[unsafe(no_mangle)]
pub extern "C" fn sc_table_intern(t: &mut ScTable, text: &[u8], word: &mut u64) -> u32
    ensures none { t.old.seat.value ≡ None → result ≡ closed }
    ensures interned { Within t.old.seat.value t.new.seat.value (λ old new. InternsText old text.now result word.old word.new new) }
    ensures number { (result ≤ 3) ⊎ (result ≡ not_utf8) ⊎ (result ≡ closed) }
    ensures err { result ≢ 0 → (t.new.seat.value ≡ t.old.seat.value) × (word.new ≡ word.old) }
{
    let Some(mut numbered) = t.take() else {
        return CLOSED;
    };
    let number = numbered.intern(text, word);
    t.put(numbered);
    number
}

/// Adds a holder to a word that is held. Returns 6 if it isn't held, 2 if it has as many holders as the limits allow, and 7 if the table is closed;
/// then nothing changes.
#[unsafe(no_mangle)]
pub extern "C" fn sc_table_clone(t: &mut ScTable, word: u64) -> u32
    ensures none { t.old.seat.value ≡ None → result ≡ closed }
    ensures cloned { Within t.old.seat.value t.new.seat.value (λ old new. ClonesWord old word result new) }
    ensures number { (result ≡ 0) ⊎ (result ≡ 2) ⊎ (result ≡ not_held) ⊎ (result ≡ closed) }
    ensures err { result ≢ 0 → t.new.seat.value ≡ t.old.seat.value }
{
    let Some(mut numbered) = t.take() else {
        return CLOSED;
    };
    let number = numbered.clone_word(word);
    t.put(numbered);
    number
}

/// Takes a holder from a word that is held. A ticket's text goes with its last holder. Returns 6 if the word isn't held and 7 if the table is closed;
/// then nothing changes.
#[unsafe(no_mangle)]
pub extern "C" fn sc_table_give(t: &mut ScTable, word: u64) -> u32
    ensures none { t.old.seat.value ≡ None → result ≡ closed }
    ensures given { Within t.old.seat.value t.new.seat.value (λ old new. GivesWord old word result new) }
    ensures number { (result ≡ 0) ⊎ (result ≡ not_held) ⊎ (result ≡ closed) }
    ensures err { result ≢ 0 → t.new.seat.value ≡ t.old.seat.value }
{
    let Some(mut numbered) = t.take() else {
        return CLOSED;
    };
    let number = numbered.give(word);
    t.put(numbered);
    number
}
