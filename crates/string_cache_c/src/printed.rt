//! Static tables in their printed form.

ghost use Rattle.std.specs.Prelude.{◌≡◌, ◌≢◌, ◌⊎◌, ◌↔◌, IsTrue};
ghost use Rattle.std.specs.Str.{IsUtf8};
ghost use Rattle.table_generator.specs.TableText.{SpellsPerfectTables};
ghost use Rattle.string_cache_c.specs.Numbers.{not_utf8};

use crate::numbers::{NO_MEMORY, NOT_UTF8};
use std::alloc::Global;
use std::str;
use table_generator::check::check_tables;

/// Writes whether a text is the printed form of static tables in which each text is listed once, at its place. Returns 5 if the bytes aren't UTF-8,
/// and 1 if there is no memory.
#[unsafe(no_mangle)]
pub extern "C" fn sc_text_check_tables(text: &[u8], perfect: &mut bool, alloc: Global) -> u32
    ensures utf8 { ¬ (IsUtf8 text.now) → result ≡ not_utf8 }
    ensures number { IsUtf8 text.now → (result ≡ 0) ⊎ (result ≡ 1) }
    ensures perfect { result ≡ 0 → IsTrue perfect.new ↔ SpellsPerfectTables text.now }
    ensures err { result ≢ 0 → perfect.new ≡ perfect.old }
{
    let Ok(text) = str::from_utf8(text) else {
        return NOT_UTF8;
    };
    match check_tables(alloc, text) {
        Ok(answer) => {
            *perfect = answer;
            0
        }
        Err(_) => NO_MEMORY,
    }
}
