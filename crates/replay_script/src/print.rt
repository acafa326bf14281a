//! The lines that a script's run prints: one for each reply, and one for each entry that is held at its end.

ghost use Rattle.std.specs.Prelude.{◌≡◌, ◌++◌, ◌<◌, ◌≤◌, length, string_bytes, OnOk};
ghost use Rattle.std.specs.List.{flat_map};
ghost use Rattle.replay_script.specs.Replay.{serial_in, reply_line, held_line, held_lines_from};

use atomic_steps::steps::{StepReply, World};
use std::alloc::AllocError;
use text_forms::static_sets::EmptyStaticAtomSet;
use text_forms::word::{Form, form_of};

/// The serial of a ticket, and 0 for any other word.
fn serial_of(word: u64) -> u64
    ensures { result ≡ serial_in word }
{
    match form_of(word) {
        Some(Form::Dynamic { serial, .. }) => serial,
        _ => 0,
    }
}

/// Appends the line of a reply.
fn append_reply(out: &mut String, reply: StepReply) -> Result<(), AllocError>
    ensures { OnOk result (string_bytes out.new ≡ string_bytes out.old ++ reply_line reply) }
{
    match reply {
        StepReply::No => out.push_str("no\n"),
        StepReply::Taken => out.push_str("taken\n"),
        StepReply::Added { holders, .. } => writeln!(out, "added {holders}"),
        StepReply::Dying => out.push_str("dying\n"),
        StepReply::Full => out.push_str("full\n"),
        StepReply::Linked { entry, ticket } => {
            let serial = serial_of(ticket);
            writeln!(out, "linked e{entry} serial {serial}")
        }
        StepReply::Spent => out.push_str("spent\n"),
        StepReply::Memory => out.push_str("memory\n"),
        StepReply::Cloned { holders } => writeln!(out, "cloned {holders}"),
        StepReply::Given { left } => writeln!(out, "given {left}"),
        StepReply::Unlinked => out.push_str("unlinked\n"),
        StepReply::Kept => out.push_str("kept\n"),
        StepReply::Freed => out.push_str("freed\n"),
        StepReply::Left => out.push_str("left\n"),
    }
}

/// Appends the lines of the replies, in order.
pub fn append_replies(out: &mut String, replies: &[StepReply]) -> Result<(), AllocError>
    ensures { OnOk result (string_bytes out.new ≡ string_bytes out.old ++ flat_map reply_line replies.now) }
{
    for reply in replies {
        append_reply(out, *reply)?;
    }
    Ok(())
}

/// Appends the line of an entry, if somebody holds it.
fn append_held(out: &mut String, entry: u64, count: u64) -> Result<(), AllocError>
    ensures { OnOk result (string_bytes out.new ≡ string_bytes out.old ++ held_line entry count) }
{
    if count > 0 {
        writeln!(out, "held e{entry} {count}")
    } else {
        Ok(())
    }
}

/// Appends the lines of the entries that are held, in order. There are at most `most` entries.
pub fn append_holders(
    out: &mut String,
    world: &World<EmptyStaticAtomSet>,
    most: u64,
) -> Result<(), AllocError>
    requires { length world.now.entries ≤ most }
    ensures { OnOk result (string_bytes out.new ≡ string_bytes out.old ++ held_lines_from 1 world.now.entries) }
{
    for passed in 0..most {
        let entry = passed + 1;
        if let Some(count) = world.count(entry) {
            append_held(out, entry, count)?;
        }
    }
    Ok(())
}
