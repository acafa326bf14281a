//! Tables from their printed form, checked.

ghost use Rattle.std.specs.Prelude.{◌≡◌, ◌≢◌, ◌^◌, ◌<◌, ◌++◌, ◌↔◌, ℕ, List, IfOk, IfErr, IsTrue, MatchOption, codes, decimal};
ghost use Rattle.text_forms.specs.declared.faults.Fault.{Fault};
ghost use Rattle.table_generator.specs.Generated.{texts_of};
ghost use Rattle.table_generator.specs.TableText.{key_line, disp_line, atom_line, hex_digit, hex_digits, HasNoFeed, ReadsDisps, ReadsAtoms, SpellsPerfectTables};

use std::alloc::{AllocError, Global};
use text_forms::Fault;
use text_forms::numbers::{number_after, short_number_of};
use text_forms::static_sets::check_parts;

/// The value of a hexadecimal digit in lower case.
fn digit_of(byte: u8) -> Option<u8>
    ensures { MatchOption result ((d : ℕ) → d < 16 → byte ≢ hex_digit d) (λ d. (d < 16) × (byte ≡ hex_digit d)) }
{
    match byte {
        b'0'..=b'9' => Some(byte - b'0'),
        b'a'..=b'f' => Some(byte - b'a' + 10),
        _ => None,
    }
}

/// The number of 16 hexadecimal digits in lower case.
fn hash_of(digits: &[u8]) -> Option<u64>
    ensures { MatchOption result ((n : ℕ) → n < 2 ^ 64 → digits.now ≢ hex_digits 16 n) (λ n. digits.now ≡ hex_digits 16 n) }
{
    if digits.len() != 16 {
        return None;
    }
    let mut number = 0u64;
    for byte in digits {
        let Some(digit) = digit_of(*byte) else {
            return None;
        };
        number = number * 16 + u64::from(digit);
    }
    Some(number)
}

/// The displacements of a line, without its line feed.
fn pair_of(line: &str) -> Option<(u32, u32)>
    ensures { MatchOption result
        ((pair : ℕ × ℕ) → pair.0 < 2 ^ 32 → pair.1 < 2 ^ 32
        → line.now ≢ codes "disp " ++ (decimal pair.0 ++ (codes " " ++ decimal pair.1)))
        (λ pair. line.now ≡ codes "disp " ++ (decimal pair.0 ++ (codes " " ++ decimal pair.1))) }
{
    let Some((first, second)) = line.strip_prefix("disp ")?.split_once(' ') else {
        return None;
    };
    let Some(d1) = short_number_of(first) else {
        return None;
    };
    let Some(d2) = short_number_of(second) else {
        return None;
    };
    Some((d1, d2))
}

/// The hash number and the text of a line, without its line feed.
fn atom_of(line: &str) -> Option<(u64, &str)>
    ensures { MatchOption result
        ((hash : ℕ) (text : List ℕ) → hash < 2 ^ 64 → line.now ≢ codes "atom " ++ (hex_digits 16 hash ++ (codes " " ++ text)))
        (λ found. line.now ≡ codes "atom " ++ (hex_digits 16 found.0 ++ (codes " " ++ found.1.now))) }
{
    let Some((digits, text)) = line.strip_prefix("atom ")?.split_once(' ') else {
        return None;
    };
    let Some(hash) = hash_of(digits.as_bytes()) else {
        return None;
    };
    Some((hash, text))
}

/// The key, and what comes after its line.
fn key_and_rest(text: &str) -> Option<(u64, &str)>
    ensures { MatchOption result
        ((key : ℕ) (rest : List ℕ) → key < 2 ^ 64 → text.now ≢ key_line key ++ rest)
        (λ found. text.now ≡ key_line found.0 ++ found.1.now) }
{
    let Some((line, rest)) = text.split_once('\n') else {
        return None;
    };
    let Some(key) = number_after(line, "key ") else {
        return None;
    };
    Some((key, rest))
}

/// A pair of displacements, and what comes after its line.
fn pair_and_rest(text: &str) -> Option<((u32, u32), &str)>
    ensures { MatchOption result
        ((pair : ℕ × ℕ) (rest : List ℕ) → pair.0 < 2 ^ 32 → pair.1 < 2 ^ 32 → text.now ≢ disp_line pair ++ rest)
        (λ found. text.now ≡ disp_line found.0 ++ found.1.now) }
{
    let Some((line, rest)) = text.split_once('\n') else {
        return None;
    };
    let Some(pair) = pair_of(line) else {
        return None;
    };
    Some((pair, rest))
}

/// A hash number and its text, and what comes after their line.
fn atom_and_rest(text: &str) -> Option<(u64, &str, &str)>
    ensures { MatchOption result
        ((hash : ℕ) (atom rest : List ℕ) → hash < 2 ^ 64 → HasNoFeed atom → text.now ≢ atom_line hash atom ++ rest)
        (λ found. HasNoFeed found.1.now × (text.now ≡ atom_line found.0 found.1.now ++ found.2.now)) }
{
    let Some((line, rest)) = text.split_once('\n') else {
        return None;
    };
    let Some((hash, atom)) = atom_of(line) else {
        return None;
    };
    Some((hash, atom, rest))
}

/// All displacements that the text begins with, and what comes after their lines.
fn pairs_and_rest(alloc: Global, text: &str) -> Result<(Vec<(u32, u32)>, &str), AllocError>
    ensures { IfOk result (λ found. ReadsDisps text.now found.0.items found.1.now) }
{
    let mut disps = Vec::new(alloc);
    let mut rest = text;
    while let Some((pair, more)) = pair_and_rest(rest) {
        disps.push(pair)?;
        rest = more;
    }
    Ok((disps, rest))
}

/// The hash numbers and the texts that a table text ends with.
#[derive(Drop)]
struct AtomLines<'t> {
    hashes: Vec<u64>,
    atoms: Vec<&'t str>,
}

/// All texts that the text begins with, and what comes after their lines.
fn listed_and_rest(alloc: Global, text: &str) -> Result<(AtomLines<'_>, &str), AllocError>
    ensures { IfOk result (λ found. ReadsAtoms text.now found.0.hashes.items (texts_of found.0.atoms.items) found.1.now) }
{
    let mut hashes = Vec::new(alloc);
    let mut atoms = Vec::new(alloc);
    let mut rest = text;
    while let Some((hash, atom, more)) = atom_and_rest(rest) {
        hashes.push(hash)?;
        atoms.push(atom)?;
        rest = more;
    }
    Ok((AtomLines { hashes, atoms }, rest))
}

/// Whether a text is the printed form of tables that pass `PhfStrSet::check`.
///
/// The form: a line `key D`, then lines `disp D D`, at least one, then lines `atom H TEXT`, at least one, each with its line feed. D is decimal,
/// without a sign or leading zeros, and below 2^64 for the key, below 2^32 in `disp`. H has 16 hexadecimal digits in lower case; TEXT is the rest of
/// the line, which may be empty. The only error is `Memory`.
pub fn check_tables(alloc: Global, text: &str) -> Result<bool, Fault>
    ensures spelled { IfOk result (λ yes. IsTrue yes ↔ SpellsPerfectTables text.now) }
    ensures refused { IfErr result (λ fault. fault ≡ Fault.Memory) }
{
    let Some((key, rest)) = key_and_rest(text) else {
        return Ok(false);
    };
    let (disps, behind) = pairs_and_rest(alloc, rest)?;
    let (listed, end) = listed_and_rest(alloc, behind)?;
    Ok(end.is_empty() && check_parts(key, &disps, &listed.atoms, &listed.hashes))
}
