//! Many calls of a table in one.

ghost use Rattle.std.specs.Prelude.{◌≡◌, ◌↔◌, List, IfOk, IsTrue, OnErr};
ghost use Rattle.std.specs.List.{All};
ghost use Rattle.interner_table.specs.Calls.{AnswersAll};
ghost use Rattle.interner_table.specs.Kept.{map_of};
ghost use Rattle.interner_table.specs.declared.table.call.TableReply.{TableReply};
ghost use Rattle.example_tables.specs.Replies.{IsDone};

use interner_table::Fault;
use interner_table::static_sets::StaticTables;
use interner_table::table::{Call, Table, TableReply};

/// Makes some calls, and returns whether each was done.
pub fn all_done<S: StaticTables>(table: &mut Table<S>, calls: &[Call]) -> Result<bool, Fault>
    ensures done { IfOk result (λ done. (replies : List TableReply) × AnswersAll S.tables table.old.limits (map_of table.old) calls.now replies (map_of table.new) × (IsTrue done ↔ All IsDone replies)) }
    ensures refused { OnErr result (table.new ≡ table.old) }
{
    let replies = table.run(calls)?;
    Ok(replies.iter().all(is_done))
}

/// Whether a call was done.
fn is_done(reply: &TableReply) -> bool
    ensures { IsTrue result ↔ IsDone reply.now }
{
    matches!(reply, TableReply::Word(_) | TableReply::Given)
}
