//! Questions about texts and words that need no table.

ghost use Rattle.std.specs.Prelude.{◌≡◌, ◌≢◌, ◌+◌, ◌<◌, ◌≤◌, ◌⊎◌, ℕ, IsTrue, List, MatchOption, None, Some, length, slice_index};
ghost use Rattle.std.specs.Str.{IsAscii, IsUtf8};
ghost use Rattle.core.specs.Slice.Scan.{little_endian};
ghost use Rattle.interner_table.specs.Form.{IsFormOf};
ghost use Rattle.interner_table.specs.Phf.{hashes_of};
ghost use Rattle.interner_table.specs.Word.{IsInlineText, IsInlineWord, inline_word};
ghost use Rattle.text_forms.specs.declared.word.Form.{Form};
ghost use Rattle.string_cache_c.specs.Calls.{CopiesText};
ghost use Rattle.string_cache_c.specs.Forms.{told};
ghost use Rattle.string_cache_c.specs.Numbers.{not_utf8, not_word};

use crate::copies::copy_text;
use crate::forms::ScForm;
use crate::numbers::{NOT_UTF8, NOT_WORD};
use interner_table::phf::{Hashes, hash};
use interner_table::word::{Form, form_of, pack_inline_word, unpack_inline};
use std::str;

const VERSION: u32 = 1; // of the calls for C

/// The three hashes of a text under a key.
#[repr(C)]
#[derive(Drop)]
pub struct ScHashes {
    pub g: u32,
    pub f1: u32,
    pub f2: u32,
}

/// The version of these calls: C's header names the one that it is written for.
#[unsafe(no_mangle)]
pub extern "C" fn sc_table_version() -> u32
    ensures { result ≡ 1 }
{
    VERSION
}

/// Writes the inline word of a text. Returns 5 if the bytes aren't UTF-8, and 11 if a text has more than 7 bytes.
#[unsafe(no_mangle)]
pub extern "C" fn sc_word_pack(text: &[u8], word: &mut u64) -> u32
    ensures utf8 { ¬ (IsUtf8 text.now) → result ≡ not_utf8 }
    ensures short { IsUtf8 text.now → length text.now ≤ 7 → (result ≡ 0) × (word.new ≡ inline_word text.now) }
    ensures long { IsUtf8 text.now → 7 < length text.now → result ≡ not_word }
    ensures err { result ≢ 0 → word.new ≡ word.old }
{
    let Ok(text) = str::from_utf8(text) else {
        return NOT_UTF8;
    };
    match pack_inline_word(text) {
        Some(own) => {
            *word = own;
            0
        }
        None => NOT_WORD,
    }
}

/// Copies the text of an inline word to the front of the room if it fits. Its length is written in either case. Returns 9 if it doesn't fit, and 11
/// for any other word.
#[unsafe(no_mangle)]
pub extern "C" fn sc_word_unpack(word: u64, room: &mut [u8], len: &mut usize) -> u32
    ensures text { IsInlineWord word → (text : List ℕ) × IsInlineText text × (inline_word text ≡ word) × CopiesText text result room.old room.new len.new }
    ensures none { ¬ (IsInlineWord word) → (result ≡ not_word) × (room.new ≡ room.old) × (len.new ≡ len.old) }
{
    match unpack_inline(word) {
        Some(text) => copy_text(text.as_str(), room, len),
        None => NOT_WORD,
    }
}

/// Writes what a word tells about itself. Returns 11 if it is the word of nothing.
#[unsafe(no_mangle)]
pub extern "C" fn sc_word_form(word: u64, form: &mut ScForm) -> u32
    ensures number { (result ≡ 0) ⊎ (result ≡ not_word) }
    ensures form { result ≡ 0 → (own : Form) × IsFormOf word (Some own) × (form.new ≡ told own) }
    ensures none { result ≡ not_word → IsFormOf word None }
    ensures err { result ≢ 0 → form.new ≡ form.old }
{
    match form_of(word) {
        Some(own) => {
            *form = tell(own);
            0
        }
        None => NOT_WORD,
    }
}

/// The form as C reads it.
fn tell(form: Form) -> ScForm
    ensures { result ≡ told form }
{
    let (kind, bucket, index, serial) = match form {
        Form::Inline(_) => (0, 0, 0, 0),
        Form::Static(index) => (1, 0, index, 0),
        Form::Dynamic { serial, bucket } => (2, bucket, 0, serial),
    };
    ScForm {
        kind,
        bucket,
        index,
        serial,
    }
}

/// Writes the hashes of a text under a key. Returns 5 if the bytes aren't UTF-8.
#[unsafe(no_mangle)]
pub extern "C" fn sc_text_hash(text: &[u8], key: u64, hashes: &mut ScHashes) -> u32
    ensures utf8 { ¬ (IsUtf8 text.now) → (result ≡ not_utf8) × (hashes.new ≡ hashes.old) }
    ensures ok { IsUtf8 text.now → result ≡ 0 }
    ensures g { IsUtf8 text.now → hashes.new.g ≡ (hashes_of text.now key).g }
    ensures f1 { IsUtf8 text.now → hashes.new.f1 ≡ (hashes_of text.now key).f1 }
    ensures f2 { IsUtf8 text.now → hashes.new.f2 ≡ (hashes_of text.now key).f2 }
{
    let Some(text) = text_of(text) else {
        return NOT_UTF8;
    };
    let Hashes { g, f1, f2 } = hash(text, key);
    *hashes = ScHashes { g, f1, f2 };
    0
}

// ---- the bytes of a text

/// The text of these bytes, if they are UTF-8. Most are a few bytes of ASCII, which is checked faster than all of UTF-8.
#[inline(always)]
pub fn text_of(bytes: &[u8]) -> Option<&str>
    ensures { MatchOption result (¬ (IsUtf8 bytes.now)) (λ text. (text.now ≡ bytes.now) × IsUtf8 bytes.now) }
{
    if is_short_ascii(bytes) {
        // SAFETY: ASCII is UTF-8.
        return Some(unsafe { str::from_utf8_unchecked(bytes) });
    }
    match str::from_utf8(bytes) {
        Ok(text) => Some(text),
        Err(_) => None,
    }
}

/// Whether these are at most 32 bytes of ASCII: from 8 bytes on four words, which may overlap, have all of them. More are left to `from_utf8`.
#[inline(always)]
fn is_short_ascii(bytes: &[u8]) -> bool
    ensures { IsTrue result → IsAscii bytes.now }
{
    if bytes.len() < 8 {
        return bytes.iter().all(|&byte| byte < 128);
    }
    if 32 < bytes.len() {
        return false;
    }
    let last = bytes.len() - 8;
    let front = high_bits(bytes, 0) | high_bits(bytes, last.min(8));
    let back = high_bits(bytes, last.min(16)) | high_bits(bytes, last);
    front | back == 0
}

/// The high bits of the eight bytes from a place on.
#[inline(always)]
fn high_bits(bytes: &[u8], at: usize) -> u64
    requires { at + 8 ≤ length bytes.now }
    ensures { result ≡ 0 → (place : ℕ) → at ≤ place → place < at + 8 → slice_index bytes.now place < 128 }
{
    word_at(bytes, at) & 0x8080_8080_8080_8080
}

/// The eight bytes from a place on, as a number.
#[inline(always)]
fn word_at(bytes: &[u8], at: usize) -> u64
    requires { at + 8 ≤ length bytes.now }
    ensures { result ≡ little_endian bytes.now at }
{
    u64::from_le_bytes([
        bytes[at],
        bytes[at + 1],
        bytes[at + 2],
        bytes[at + 3],
        bytes[at + 4],
        bytes[at + 5],
        bytes[at + 6],
        bytes[at + 7],
    ])
}
