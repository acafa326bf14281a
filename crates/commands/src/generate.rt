//! The commands that make static tables of a list of texts, and check a table text.

ghost use Rattle.std.specs.Prelude.{◌≡◌, ◌++◌, false, true, string_bytes, IfOk, IfErr, IfSome, Err};
ghost use Rattle.table_generator.specs.Generated.{texts_of, TellsTables};
ghost use Rattle.replay_script.specs.Script.{script_lines};
ghost use Rattle.table_generator.specs.declared.tables.GenFault.{GenFault};
ghost use Rattle.commands.specs.Faults.{IsCheckFault, IsGenerateFault, IsMakingFault, IsNotWrite};
ghost use Rattle.commands.specs.TableCommands.{IsTableOutput, IsAnswer};
ghost use Rattle.commands.specs.Told.{Tells};

use replay_script::next_line;
use std::alloc::{AllocError, Global};
pub use table_generator::check::check_tables;
pub use table_generator::generate::generate;
pub use table_generator::tables::{GenFault, Tables};
use text_streams::faults::AppFault;
use text_streams::streams::{Sink, Source, read_text, write_whole};

/// The lines of a text, the last of which may lack its line feed.
fn lines_in(alloc: Global, text: &str) -> Result<Vec<&str>, AllocError>
    ensures { IfOk result (λ list. texts_of list.items ≡ script_lines text.now) }
{
    let mut list = Vec::new(alloc);
    let mut rest = text;
    while let Some((line, behind)) = next_line(rest) {
        list.push(line)?;
        rest = behind;
    }
    Ok(list)
}

/// The printed form of tables of the text's lines.
fn output_of(alloc: Global, key: u64, bound: u32, text: &str) -> Result<String, AppFault>
    ensures ok { IfOk result (λ out. IsTableOutput key bound text.now (string_bytes out)) }
    ensures fault { IfErr result (IsMakingFault (λ g. TellsTables (script_lines text.now) key bound (Err g))) }
{
    let list = lines_in(alloc, text)?;
    let tables = generate(alloc, &list, key, bound)?;
    Ok(format!(in alloc; "{tables}")?)
}

/// Reads texts, one per line, and writes the printed form of tables of them: the key, displacements below the bound, and the texts.
///
/// `Read`, `Text` (the input isn't UTF-8), `Intern(Memory)` and `Gen` are returned before anything is written. After `Write`, a beginning of the
/// tables may have been written.
pub fn generate_command<S: Source, K: Sink>(
    alloc: Global,
    key: u64,
    bound: u32,
    reader: &mut S,
    writer: &mut K,
) -> Result<(), AppFault>
    requires reader { S.has_failed reader.old ≡ false }
    requires writer { K.has_failed writer.old ≡ false }
    ensures told { Tells S.Source K.Sink (IsTableOutput key bound) IsNotWrite IsGenerateFault reader.old reader.new writer.old writer.new result }
    ensures refused { (g : GenFault) → result ≡ Err (AppFault.Gen g) → S.has_ended reader.new ≡ true
        × IfSome (S.remaining reader.old) (λ bytes. TellsTables (script_lines bytes) key bound (Err g)) }
{
    let text = read_text(alloc, reader)?;
    let output = output_of(alloc, key, bound, &text)?;
    write_whole(writer, output.as_bytes())
}

/// The answer's line of a text: whether it is the printed form of perfect tables.
fn answer_of(alloc: Global, text: &str) -> Result<&'static str, AppFault>
    ensures ok { IfOk result (λ answer. IsAnswer text.now answer.now) }
    ensures fault { IfErr result (IsMakingFault (λ g. ⊥)) }
{
    if check_tables(alloc, text)? {
        Ok("yes\n")
    } else {
        Ok("no\n")
    }
}

/// Reads a table text, and writes `yes` or `no`.
///
/// `Read`, `Text` (the input isn't UTF-8) and `Intern(Memory)` are returned before anything is written. After `Write`, a beginning of the answer may
/// have been written.
pub fn check_command<S: Source, K: Sink>(
    alloc: Global,
    reader: &mut S,
    writer: &mut K,
) -> Result<(), AppFault>
    requires reader { S.has_failed reader.old ≡ false }
    requires writer { K.has_failed writer.old ≡ false }
    ensures { Tells S.Source K.Sink IsAnswer IsNotWrite IsCheckFault reader.old reader.new writer.old writer.new result }
{
    let text = read_text(alloc, reader)?;
    let answer = answer_of(alloc, &text)?;
    write_whole(writer, answer.as_bytes())
}
