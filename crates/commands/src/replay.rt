//! Reads a script of interleaved steps, and writes the replies to them.

ghost use Rattle.std.specs.Prelude.{◌≡◌, ℕ, List, false, true, string_bytes, IfSome};
ghost use Rattle.string_cache.specs.Tables.{empty_tables};
ghost use Rattle.replay_script.specs.Replay.{IsReplay};
ghost use Rattle.replay_script.specs.Script.{script_lines, IsFirstBadLine};
ghost use Rattle.commands.specs.Faults.{IsNotWrite, IsReplayFault};
ghost use Rattle.commands.specs.Told.{Tells};

use replay_script::replay_text;
use std::alloc::Global;
use text_streams::faults::AppFault;
use text_streams::streams::{Sink, Source, read_text, write_whole};

/// Runs the script that the reader gives, over a new table: a line for each step's reply, and then one for each entry that is held.
///
/// Nothing is written before the whole script was run. So `Read`, `Text` (the input isn't UTF-8), `Script` (the first line that isn't of the grammar)
/// and `Intern(Memory)` leave the writer as it was; after `Write` it may have a beginning of the output.
pub fn replay<S: Source, K: Sink>(
    alloc: Global,
    reader: &mut S,
    writer: &mut K,
) -> Result<(), AppFault>
    requires reader { S.has_failed reader.old ≡ false }
    requires writer { K.has_failed writer.old ≡ false }
    ensures told { Tells S.Source K.Sink (IsReplay empty_tables) IsNotWrite IsReplayFault reader.old reader.new writer.old writer.new result }
    ensures script { (n : ℕ) → result ≡ Err (AppFault.Script n) → S.has_ended reader.new ≡ true
        × IfSome (S.remaining reader.old) (λ bytes. IsFirstBadLine (script_lines bytes) n) }
    ensures ran { result ≡ Err AppFault.Write
        → IfSome (S.remaining reader.old) (λ bytes. (output : List ℕ) × IsReplay empty_tables bytes output) }
{
    let text = read_text(alloc, reader)?;
    let output = replay_text(alloc, &text)?;
    write_whole(writer, output.as_bytes())
}
