//! Everything the program does, over any reader and writers.

ghost use Rattle.std.specs.Prelude.{◌≡◌, [], ◌∷◌, map, string_bytes, false, IfOk, IfSome, IsErr, IfErr, MatchResult};
ghost use Rattle.commands.specs.Commands.{AsksFor, InRange, NeedKeys, NeedsKeys};
ghost use Rattle.commands.specs.Program.{IsOutputOf, Runs, Yields};

use crate::count::count_command;
use crate::generate::{check_command, generate_command};
use crate::replay::replay;
use crate::words::words_command;
use std::alloc::Global;
use std::fmt::Write;
use std::hash::RandomState;
use std::io::ErrorKind;
use std::random::RandomSource;
use std::rt::Env;
use std::sync::Wait;
use std::thread::Threads;
use std::{env, fmt};
use string_cache::Fault;
use text_forms::numbers::{number_of, short_number_of};
use text_streams::faults::AppFault;
use text_streams::streams::{Sink, Source, write_whole};

const USAGE: &str = "usage: atoms words | count N | replay | generate KEY BOUND | check\n";

/// The arguments without the program's name. `None` if one isn't UTF-8, and `Intern(Memory)` if there is no room for them.
pub fn arguments(rt: &(impl Env + AllocGlobal)) -> Result<Option<Vec<String>>, AppFault>
    ensures { IfErr result (λ fault. fault ≡ AppFault.Intern Fault.Memory) }
{
    let mut given = match env::args(rt) {
        Ok(given) => given,
        Err(error) if error.kind() == ErrorKind::OutOfMemory => {
            return Err(AppFault::Intern(Fault::Memory));
        }
        Err(_) => return Ok(None),
    };
    let _ = given.next();
    let mut args = Vec::new(rt.alloc());
    for arg in given {
        args.push(arg)?;
    }
    Ok(Some(args))
}

/// Random keys for the maps of one run, drawn from the system. `None` if it gives none.
pub fn random_keys(rt: &impl RandomSource) -> Option<RandomState> {
    RandomState::new(rt).ok()
}

/// What the arguments ask for.
enum Command {
    Words,
    /// By this number of workers.
    Count(u32),
    Replay,
    /// Tables under this key, with displacements below this bound.
    Generate(u64, u32),
    Check,
}

/// The most workers that count.
const MOST_WORKERS: u64 = 64;

/// The command that one word asks for.
fn alone(word: &str) -> Option<Command>
    ensures { AsksFor (word.now ∷ []) result }
{
    match word {
        "words" => Some(Command::Words),
        "replay" => Some(Command::Replay),
        "check" => Some(Command::Check),
        _ => None,
    }
}

/// The command that a word with a number asks for.
fn counting(word: &str, number: &str) -> Option<Command>
    ensures { AsksFor (word.now ∷ number.now ∷ []) result }
{
    if word != "count" {
        return None;
    }
    let Some(n) = number_of(number) else {
        return None;
    };
    if n == 0 || n > MOST_WORKERS {
        return None;
    }
    Some(Command::Count(n as u32))
}

/// The command that a word with two numbers asks for.
fn making(word: &str, key: &str, bound: &str) -> Option<Command>
    ensures { AsksFor (word.now ∷ key.now ∷ bound.now ∷ []) result }
{
    if word != "generate" {
        return None;
    }
    let Some(key) = number_of(key) else {
        return None;
    };
    let Some(bound) = short_number_of(bound) else {
        return None;
    };
    Some(Command::Generate(key, bound))
}

/// The command that the arguments ask for. `None` if they ask for none.
fn command_of(args: &[String]) -> Option<Command>
    ensures { AsksFor (map string_bytes args.now) result }
{
    match args {
        [word] => alone(word.as_str()),
        [word, number] => counting(word.as_str(), number.as_str()),
        [word, key, bound] => making(word.as_str(), key.as_str(), bound.as_str()),
        _ => None,
    }
}

/// Prints to a sink, without taking memory.
#[derive(Drop)]
struct Printer<'a, K: Sink> {
    sink: &'a mut K,
}

impl<K: Sink> fmt::Write for Printer<'_, K> {
    fn write_str(&mut self, s: &str) -> fmt::Result {
        if self.sink.failed() {
            return Err(fmt::Error);
        }
        match write_whole(self.sink, s.as_bytes()) {
            Ok(()) => Ok(()),
            Err(_) => Err(fmt::Error),
        }
    }
}

/// Writes a fault's line, and returns the exit status 1. A failure to write it changes nothing.
pub fn refuse<F: Sink>(faults: &mut F, fault: AppFault) -> u8
    ensures { result ≡ 1 }
{
    let mut printer = Printer { sink: faults };
    let _ = writeln!(printer, "atoms: {fault}");
    1
}

/// Writes the usage line, and returns the exit status 2. A failure to write it changes nothing.
pub fn usage<F: Sink>(faults: &mut F) -> u8
    ensures { result ≡ 2 }
{
    let mut printer = Printer { sink: faults };
    let _ = write!(printer, "{USAGE}");
    2
}

/// Carries out a command. `Keys` if it needs keys and there are none, before anything is read or written.
fn carry_out<R: Threads + Wait + Sync, S: Source, K: Sink>(
    rt: &R,
    alloc: Global,
    keys: Option<RandomState>,
    command: Command,
    input: &mut S,
    output: &mut K,
) -> Result<(), AppFault>
    requires input { S.has_failed input.old ≡ false }
    requires output { K.has_failed output.old ≡ false }
    requires range { InRange command }
    ensures yields { Yields S.Source K.Sink (IsOutputOf command) input.old output.old output.new result }
    ensures keyless { keys ≡ None → NeedsKeys command → (result ≡ Err AppFault.Keys) × (input.new ≡ input.old) × (output.new ≡ output.old) }
{
    match command {
        Command::Words => words_command(rt, alloc, keys.ok_or(AppFault::Keys)?, input, output),
        Command::Count(n) => count_command(
            rt,
            alloc,
            keys.ok_or(AppFault::Keys)?,
            n,
            input,
            output,
        ),
        Command::Replay => replay(alloc, input, output),
        Command::Generate(key, bound) => generate_command(alloc, key, bound, input, output),
        Command::Check => check_command(alloc, input, output),
    }
}

/// The exit status after an outcome: 0, or 1 after a fault's line.
fn status_of<F: Sink>(faults: &mut F, outcome: Result<(), AppFault>) -> u8
    ensures { MatchResult outcome (λ _. result ≡ 0) (λ _. result ≡ 1) }
{
    match outcome {
        Ok(()) => 0,
        Err(fault) => refuse(faults, fault),
    }
}

/// Runs the command that the arguments, without the program's name, ask for, and returns the exit status: 0, or 1 after a fault's line, or 2 after
/// the usage line, and then nothing was read or written. `words` and `count` need keys, under which they hash words; without keys they are refused
/// before anything is read. What is written doesn't depend on the keys.
pub fn program<R: Threads + Wait + Sync, S: Source, K: Sink, F: Sink>(
    rt: &R,
    alloc: Global,
    keys: Option<RandomState>,
    args: &[String],
    input: &mut S,
    output: &mut K,
    faults: &mut F,
) -> u8
    requires input { S.has_failed input.old ≡ false }
    requires output { K.has_failed output.old ≡ false }
    requires faults { F.has_failed faults.old ≡ false }
    ensures runs { Runs S.Source K.Sink args.now input.old input.new output.old output.new result }
    ensures keyless { keys ≡ None → NeedKeys args.now → (result ≡ 1) × (input.new ≡ input.old) × (output.new ≡ output.old) }
{
    let Some(command) = command_of(args) else {
        return usage(faults);
    };
    let outcome = carry_out(rt, alloc, keys, command, input, output);
    status_of(faults, outcome)
}

/// Everything main does once its arguments are read; returns the exit status. It runs the program on them, and if they aren't UTF-8 it writes the
/// usage line. If there was no room for them, that is a fault. `keys` are what `random_keys` gave.
pub fn run<R: Threads + Wait + Sync, S: Source, K: Sink, F: Sink>(
    rt: &R,
    alloc: Global,
    keys: Option<RandomState>,
    args: Result<Option<Vec<String>>, AppFault>,
    input: &mut S,
    output: &mut K,
    faults: &mut F,
) -> u8
    requires input { S.has_failed input.old ≡ false }
    requires output { K.has_failed output.old ≡ false }
    requires faults { F.has_failed faults.old ≡ false }
    ensures ran { IfOk args (λ given. IfSome given (λ list.
        Runs S.Source K.Sink list.items input.old input.new output.old output.new result)) }
    ensures keyless { keys ≡ None → IfOk args (λ given. IfSome given (λ list. NeedKeys list.items
        → (result ≡ 1) × (input.new ≡ input.old) × (output.new ≡ output.old))) }
    ensures refused { IsErr args → (result ≡ 1) × (input.new ≡ input.old) × (output.new ≡ output.old) }
    ensures usage { args ≡ Ok None → (result ≡ 2) × (input.new ≡ input.old) × (output.new ≡ output.old) }
{
    match args {
        Ok(Some(args)) => program(rt, alloc, keys, &args, input, output, faults),
        Ok(None) => usage(faults),
        Err(no_room) => refuse(faults, no_room),
    }
}
