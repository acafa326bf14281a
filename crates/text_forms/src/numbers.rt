//! Numbers as scripts and table texts spell them: decimal, without a sign or leading zeros.

ghost use Rattle.std.specs.Prelude.{◌≡◌, ◌≢◌, ℕ, ◌^◌, ◌<◌, ◌≤◌, ◌++◌, length, slice_index, decimal, MatchOption};
ghost use Rattle.std.specs.Bool.{OnTrue, OnFalse};

/// Whether what may be a number has no plus and no extra zero in front.
fn has_plain_front(bytes: &[u8]) -> bool
    ensures plain { OnTrue result ((slice_index bytes.now 0 ≢ 43)
        × (slice_index bytes.now 0 ≡ 48 → length bytes.now ≤ 1)) }
    ensures other { OnFalse result ((n : ℕ) → n < 2 ^ 64 → bytes.now ≢ decimal n) }
{
    if bytes.is_empty() {
        return true;
    }
    let first = bytes[0];
    if first == b'+' {
        return false;
    }
    first != b'0' || bytes.len() == 1
}

/// The number that a text spells: decimal, without a sign or leading zeros, and below 2^64. `None` if it spells none.
pub fn number_of(text: &str) -> Option<u64>
    ensures { MatchOption result ((n : ℕ) → n < 2 ^ 64 → text.now ≢ decimal n)
        (λ n. text.now ≡ decimal n) }
{
    if !has_plain_front(text.as_bytes()) {
        return None;
    }
    text.parse::<u64>().ok()
}

/// The number that follows `words`, up to the end of the text. `None` if none does.
pub fn number_after(text: &str, words: &str) -> Option<u64>
    ensures { MatchOption result ((n : ℕ) → n < 2 ^ 64 → text.now ≢ words.now ++ decimal n)
        (λ n. text.now ≡ words.now ++ decimal n) }
{
    number_of(text.strip_prefix(words)?)
}

/// As `number_of`, below 2^32.
pub fn short_number_of(text: &str) -> Option<u32>
    ensures { MatchOption result ((n : ℕ) → n < 2 ^ 32 → text.now ≢ decimal n)
        (λ n. text.now ≡ decimal n) }
{
    let number = number_of(text)?;
    u32::try_from(number).ok()
}
