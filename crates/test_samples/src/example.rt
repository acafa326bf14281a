//! A text with its counts.

/// The example from the original's documentation.
pub const EXAMPLE: &[u8] =
    b"here is a sentence of text that will be tokenised and\ninterned and some repeated tokens is of text and";

/// Its words, each with the number of its places.
pub static EXAMPLE_COUNTS: [(&str, u64); 15] = [
    ("a", 1),
    ("and", 3),
    ("be", 1),
    ("here", 1),
    ("interned", 1),
    ("is", 2),
    ("of", 2),
    ("repeated", 1),
    ("sentence", 1),
    ("some", 1),
    ("text", 2),
    ("that", 1),
    ("tokenised", 1),
    ("tokens", 1),
    ("will", 1),
];
