//! A script's lines, and what they spell: limits, a number of buckets, and steps.

ghost use Rattle.std.specs.Prelude.{◌≡◌, ◌+◌, ◌^◌, ◌<◌, ◌∷◌, [], length, ℕ, MatchOption, OnOk};
ghost use Rattle.replay_script.specs.Script.{script_lines, AreSteps, SpellsBuckets, SpellsLimits, Takes, StopsAfter};

use crate::faults::ScriptFault;
use crate::line::{buckets_of_line, limits_of_line, step_of_line};
use std::alloc::Global;
use text_forms::word::{Buckets, Limits};

/// The first line, without its line feed, and what comes after it. `None` if nothing is left.
pub fn next_line(text: &str) -> Option<(&str, &str)>
    ensures { MatchOption result (script_lines text.now ≡ [])
        (λ found. (script_lines text.now ≡ found.0.now ∷ script_lines found.1.now)
        × (length found.1.now < length text.now)) }
{
    if text.is_empty() {
        return None;
    }
    match text.split_once('\n') {
        Some((line, rest)) => Some((line, rest)),
        None => Some((text, "")),
    }
}

/// The limits in the first line of a text, if it spells limits, and the text without that line.
pub fn limits_of(text: &str) -> (Option<Limits>, &str)
    ensures { Takes SpellsLimits text.now result.0 result.1.now }
{
    if let Some((line, rest)) = next_line(text) {
        if let Some(limits) = limits_of_line(line) {
            return (Some(limits), rest);
        }
    }
    (None, text)
}

/// The number of buckets in the first line of a text, if it spells one, and the text without that line.
pub fn buckets_of(text: &str) -> (Option<Buckets>, &str)
    ensures { Takes SpellsBuckets text.now result.0 result.1.now }
{
    if let Some((line, rest)) = next_line(text) {
        if let Some(buckets) = buckets_of_line(line) {
            return (Some(buckets), rest);
        }
    }
    (None, text)
}

/// Checks that each line of a text spells a step. `NotAStep` names the first that spells none, counting the `before` lines that precede the text.
pub fn check_steps(alloc: Global, text: &str, before: u64) -> Result<(), ScriptFault>
    requires { before + length text.now < 2 ^ 64 }
    ensures ok { OnOk result (AreSteps (script_lines text.now)) }
    ensures line { (n : ℕ) → result ≡ Err (ScriptFault.NotAStep n) → StopsAfter (script_lines text.now) before n }
{
    let mut rest = text;
    let mut number = before;
    while let Some((line, after)) = next_line(rest) {
        number += 1;
        let Some(step) = step_of_line(alloc, line)? else {
            return Err(ScriptFault::NotAStep(number));
        };
        drop(step);
        rest = after;
    }
    Ok(())
}
