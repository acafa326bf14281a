//! One line of a script, and the step, the limits or the number of buckets that it spells.

ghost use Rattle.std.specs.Prelude.{◌≡◌, ◌≢◌, ℕ, ◌^◌, ◌<◌, ◌≤◌, ◌++◌, List, length, codes, decimal, MatchOption, IfOk};
ghost use Rattle.text_forms.specs.Bounds.{Bounds};
ghost use Rattle.atomic_steps.specs.declared.steps.Step.{Step};
ghost use Rattle.replay_script.specs.Script.{HasWords, step_words, IsEntryNumber, Spells, SpellsBuckets, SpellsLimits};

use atomic_steps::steps::Step;
use std::alloc::{AllocError, Global};
use text_forms::numbers::{number_after, number_of};
use text_forms::word::{Buckets, Limits};

/// The number after `words` as that of an entry, which is at least 1.
fn entry_after(text: &str, words: &str) -> Option<u64>
    ensures { MatchOption result ((e : ℕ) → IsEntryNumber e → text.now ≢ words.now ++ decimal e)
        (λ e. IsEntryNumber e × (text.now ≡ words.now ++ decimal e)) }
{
    let e = number_after(text, words)?;
    if e == 0 { None } else { Some(e) }
}

/// The bucket to sweep.
fn swept_bucket(text: &str) -> Option<u32>
    ensures { MatchOption result ((b : ℕ) → b < 2 ^ 32 → text.now ≢ codes "sweep " ++ decimal b)
        (λ b. text.now ≡ codes "sweep " ++ decimal b) }
{
    let bucket = number_after(text, "sweep ")?;
    u32::try_from(bucket).ok()
}

/// The text to intern, which is the rest of the line as it is.
fn interned_text(text: &str) -> Option<&str>
    ensures { MatchOption result ((t : List ℕ) → 0 < length t → text.now ≢ codes "intern " ++ t)
        (λ t. (0 < length t.now) × (text.now ≡ codes "intern " ++ t.now)) }
{
    let wanted = text.strip_prefix("intern ")?;
    if wanted.is_empty() {
        None
    } else {
        Some(wanted)
    }
}

/// The step that the words after the party's number spell.
fn step_of(alloc: Global, words: &str) -> Result<Option<Step>, AllocError>
    ensures { IfOk result (λ found. MatchOption found
        ((s : Step) → HasWords s → words.now ≢ step_words s)
        (λ s. HasWords s × (words.now ≡ step_words s))) }
{
    if let Some(text) = interned_text(words) {
        return Ok(Some(Step::TakeIntern(String::from_str(alloc, text)?)));
    }
    if let Some(bucket) = swept_bucket(words) {
        return Ok(Some(Step::TakeSweep(bucket)));
    }
    if let Some(e) = entry_after(words, "add e") {
        return Ok(Some(Step::Add(e)));
    }
    if let Some(e) = entry_after(words, "clone e") {
        return Ok(Some(Step::Clone(e)));
    }
    if let Some(e) = entry_after(words, "give e") {
        return Ok(Some(Step::Give(e)));
    }
    if let Some(e) = entry_after(words, "unlink e") {
        return Ok(Some(Step::Unlink(e)));
    }
    if let Some(e) = entry_after(words, "free e") {
        return Ok(Some(Step::Free(e)));
    }
    match words {
        "link" => Ok(Some(Step::Link(true))),
        "link noroom" => Ok(Some(Step::Link(false))),
        "leave" => Ok(Some(Step::Leave)),
        _ => Ok(None),
    }
}

/// A number, and what comes after the space that follows it.
fn number_and_rest(text: &str) -> Option<(u64, &str)>
    ensures { MatchOption result
        ((n : ℕ) (rest : List ℕ) → n < 2 ^ 64 → text.now ≢ decimal n ++ (codes " " ++ rest))
        (λ found. (found.0 < 2 ^ 64) × (text.now ≡ decimal found.0 ++ (codes " " ++ found.1.now))) }
{
    let Some((front, rest)) = text.split_once(' ') else {
        return None;
    };
    let Some(number) = number_of(front) else {
        return None;
    };
    Some((number, rest))
}

/// The party's number and the words after it, in a step's line.
fn party_of(line: &str) -> Option<(u32, &str)>
    ensures { MatchOption result
        ((party : ℕ) (words : List ℕ) → 1 ≤ party → party < 2 ^ 32
        → line.now ≢ decimal party ++ (codes " " ++ words))
        (λ found. (1 ≤ found.0) × (found.0 < 2 ^ 32)
        × (line.now ≡ decimal found.0 ++ (codes " " ++ found.1.now))) }
{
    let (number, words) = number_and_rest(line)?;
    if number == 0 || number >= 1 << 32 {
        return None;
    }
    Some((number as u32, words))
}

/// The party and the step that a line spells. `None` if it spells none.
pub fn step_of_line(alloc: Global, line: &str) -> Result<Option<(u32, Step)>, AllocError>
    ensures { IfOk result (λ found. MatchOption found
        ((s : ℕ × Step) → Spells line.now s → ⊥)
        (λ s. Spells line.now s)) }
{
    let Some((party, words)) = party_of(line) else {
        return Ok(None);
    };
    let Some(step) = step_of(alloc, words)? else {
        return Ok(None);
    };
    Ok(Some((party, step)))
}

/// The limits that a line spells. `None` if it spells none.
pub fn limits_of_line(line: &str) -> Option<Limits>
    ensures { MatchOption result ((limits : Bounds) → SpellsLimits line.now limits → ⊥)
        (λ limits. SpellsLimits line.now limits) }
{
    let Some((holders, rest)) = number_and_rest(line.strip_prefix("limits ")?) else {
        return None;
    };
    let Some(serials) = number_of(rest) else {
        return None;
    };
    Limits::new(holders, serials)
}

/// The bits of the number of buckets that a line spells, whether or not there can be that many buckets.
fn bucket_bits(line: &str) -> Option<u8>
    ensures { MatchOption result ((bits : ℕ) → bits < 2 ^ 8 → line.now ≢ codes "buckets " ++ decimal bits)
        (λ bits. line.now ≡ codes "buckets " ++ decimal bits) }
{
    let bits = number_after(line, "buckets ")?;
    u8::try_from(bits).ok()
}

/// The number of buckets that a line spells. `None` if it spells none.
pub fn buckets_of_line(line: &str) -> Option<Buckets>
    ensures { MatchOption result ((bits : ℕ) → SpellsBuckets line.now bits → ⊥)
        (λ bits. SpellsBuckets line.now bits) }
{
    let bits = bucket_bits(line)?;
    Buckets::new(bits)
}
