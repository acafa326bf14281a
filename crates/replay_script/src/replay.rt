//! A script's steps, made one after another, and the replies to them.

ghost use Rattle.std.specs.Prelude.{◌≡◌, ℕ, List, string_bytes, IfOk, OnOk, OnErr};
ghost use Rattle.text_forms.specs.Tables.{empty_tables};
ghost use Rattle.atomic_steps.specs.Runs.{Script};
ghost use Rattle.replay_script.specs.Script.{script_lines, SpellSteps, AreSteps, IsFirstBadLine};
ghost use Rattle.replay_script.specs.Replay.{RunsOn, IsOutput, IsReplay};

use crate::faults::ScriptFault;
use crate::line::step_of_line;
use crate::print::{append_holders, append_replies};
use crate::script::{buckets_of, check_steps, limits_of, next_line};
use atomic_steps::steps::{Step, World};
use std::alloc::Global;
use text_forms::Fault;
use text_forms::static_sets::EmptyStaticAtomSet;
use text_forms::word::{Buckets, Limits};

/// The most steps that are kept before they are made.
const CHUNK: usize = 4096;

/// Makes the steps, and appends the lines of their replies.
fn run_steps(
    alloc: Global,
    world: &mut World<EmptyStaticAtomSet>,
    steps: &[(u32, Step)],
    out: &mut String,
) -> Result<(), Fault>
    ensures ok { OnOk result (RunsOn empty_tables world.old world.new steps.now
        (string_bytes out.old) (string_bytes out.new)) }
    ensures err { OnErr result (result ≡ Err Fault.Memory) }
{
    let mut replies = Vec::new(alloc);
    world.run(steps, &mut replies)?;
    append_replies(out, &replies)?;
    Ok(())
}

/// Makes the steps of a text's lines in a world of their own, with these buckets, and returns the lines of the replies and of what is then held.
fn output_of(alloc: Global, limits: Limits, buckets: Buckets, text: &str) -> Result<String, Fault>
    requires { AreSteps (script_lines text.now) }
    ensures ok { IfOk result (λ out. (steps : Script) × SpellSteps (script_lines text.now) steps
        × IsOutput empty_tables limits buckets steps (string_bytes out)) }
    ensures err { OnErr result (result ≡ Err Fault.Memory) }
{
    let mut world: World<EmptyStaticAtomSet> = World::with_buckets(alloc, limits, buckets)?;
    let mut out = String::new(alloc);
    let mut steps = Vec::new(alloc);
    let mut most = 0u64;
    let mut rest = text;
    while let Some((line, after)) = next_line(rest) {
        let Some(step) = step_of_line(alloc, line)? else {
            unreachable!();
        };
        steps.push(step)?;
        most += 1;
        rest = after;
        if steps.len() >= CHUNK {
            run_steps(alloc, &mut world, &steps, &mut out)?;
            steps.clear();
        }
    }
    run_steps(alloc, &mut world, &steps, &mut out)?;
    append_holders(&mut out, &world, most)?;
    Ok(out)
}

/// The output of a script, over a new table: a line for each step's reply, and then one for each entry that is held. `NotAStep` if it isn't a script:
/// each line is checked before the first step is made. `Memory` if a request for memory is refused.
pub fn replay_text(alloc: Global, text: &str) -> Result<String, ScriptFault>
    ensures output { IfOk result (λ out. IsReplay empty_tables text.now (string_bytes out)) }
    ensures line { (n : ℕ) → result ≡ Err (ScriptFault.NotAStep n) → IsFirstBadLine (script_lines text.now) n }
{
    let (limits, body) = limits_of(text);
    let (buckets, rest) = buckets_of(body);
    let before = u64::from(limits.is_some()) + u64::from(buckets.is_some());
    check_steps(alloc, rest, before)?;
    let limits = limits.unwrap_or(Limits::greatest());
    output_of(alloc, limits, buckets.unwrap_or(Buckets::usual()), rest).or(Err(ScriptFault::Memory))
}

/// Does nothing. Its contract is that a script has one output.
#[doc(hidden)]
pub fn one_output()
    ensures { (bytes one other : List ℕ) → IsReplay empty_tables bytes one → IsReplay empty_tables bytes other
        → one ≡ other }
{}
