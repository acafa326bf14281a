//! Walks over a bucket's entries that leave them as they are.

ghost use Rattle.std.specs.Prelude.{◌≡◌, ◌*◌, ◌^◌, ◌<◌, ◌≤◌, ◌++◌, [], length};
ghost use Rattle.counted_set.specs.Memory.{cells_size, IsMemory};
ghost use Rattle.counted_set.specs.Visits.{CalledAtText, VisitsEach};

use super::entries::{Entries, NODE_SIZE};

/// Calls `visit` on the text of each entry, with the number of its holders.
#[tactic(auto, using(crate::proofs::Visits::same_again))]
pub(super) fn visit_each<F: FnMut(&str, u64)>(entries: &mut Entries, visit: &mut F)
    requires start { entries.old.passed ≡ [] }
    requires callable { F.IsAlwaysCallable visit.old }
    ensures callable { F.IsAlwaysCallable visit.new }
    ensures visits { VisitsEach F.FnMut visit.old entries.old.left visit.new }
    ensures same { entries.new ≡ entries.old }
{
    visit_left(entries, visit);
    entries.rewind();
}

/// The number of entries.
#[tactic(auto, using(crate::proofs::Visits::same_again))]
pub(super) fn number_of(entries: &mut Entries) -> usize
    requires start { entries.old.passed ≡ [] }
    requires few { length entries.old.left < 2 ^ 64 }
    ensures number { result ≡ length entries.old.left }
    ensures same { entries.new ≡ entries.old }
{
    let number = number_left(entries);
    entries.rewind();
    number
}

/// The bytes of the nodes and of the cells of the entries.
#[tactic(auto, using(crate::proofs::Visits::same_again, crate::proofs::Visits::is_memory))]
pub(super) fn memory_of(entries: &mut Entries) -> u128
    requires start { entries.old.passed ≡ [] }
    requires few { length entries.old.left < 2 ^ 64 }
    ensures memory { IsMemory entries.old.left result }
    ensures same { entries.new ≡ entries.old }
{
    let nodes = entries.nodes_left() as u128;
    let cells = cells_left(entries);
    entries.rewind();
    nodes * NODE_SIZE as u128 + cells
}

// Calls `visit` on the text of each entry that is left, with the number of its holders, and passes it.
#[tactic(auto, using(crate::proofs::Visits::visited_all))]
fn visit_left<F: FnMut(&str, u64)>(entries: &mut Entries, visit: &mut F)
    requires { F.IsAlwaysCallable visit.old }
    ensures callable { F.IsAlwaysCallable visit.new }
    ensures visits { VisitsEach F.FnMut visit.old entries.old.left visit.new }
    ensures same { entries.new.passed ++ entries.new.left ≡ entries.old.passed ++ entries.old.left }
{
    while let Some(entry) = entries.look() {
        visit_one(visit, entry.text(), entry.holders());
        entries.keep();
    }
}

// One call.
fn visit_one<F: FnMut(&str, u64)>(visit: &mut F, text: &str, holders: u64)
    requires { F.IsAlwaysCallable visit.old }
    ensures callable { F.IsAlwaysCallable visit.new }
    ensures called { CalledAtText F.FnMut visit.old text.now visit.new }
{
    visit(text, holders);
}

// The number of entries that are left. It passes them all.
fn number_left(entries: &mut Entries) -> usize
    requires { length entries.old.left < 2 ^ 64 }
    ensures number { result ≡ length entries.old.left }
    ensures same { entries.new.passed ++ entries.new.left ≡ entries.old.passed ++ entries.old.left }
{
    let mut number = 0;
    while let Some(_entry) = entries.look() {
        number += 1;
        entries.keep();
    }
    number
}

// The bytes of the cells of the entries that are left. It passes them all.
fn cells_left(entries: &mut Entries) -> u128
    requires { length entries.old.left < 2 ^ 64 }
    ensures sum { result ≡ cells_size entries.old.left }
    ensures few { result ≤ 2 ^ 64 * 2 ^ 63 }
    ensures same { entries.new.passed ++ entries.new.left ≡ entries.old.passed ++ entries.old.left }
{
    let mut bytes = 0u128;
    while let Some(entry) = entries.look() {
        bytes += entry.cell_size() as u128;
        entries.keep();
    }
    bytes
}
