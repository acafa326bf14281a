//! A text's bytes, copied to where C has room.

ghost use Rattle.std.specs.Prelude.{◌≡◌};
ghost use Rattle.string_cache_c.specs.Calls.{CopiesText};

use crate::numbers::TOO_SMALL;

/// Copies the text to the front of the room if it fits, and writes its length in either case.
pub fn copy_text(text: &str, room: &mut [u8], len: &mut usize) -> u32
    ensures { CopiesText text.now result room.old room.new len.new }
{
    let text = text.as_bytes();
    *len = text.len();
    if room.len() < text.len() {
        return TOO_SMALL;
    }
    let (front, _) = room.split_at_mut(text.len());
    front.copy_from_slice(text);
    0
}
