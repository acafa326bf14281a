//! Two texts, neither of which is at its place: each is at the other's.

use string_cache::{Packed, PackedAtomSet, PackedStrSet};

pub static MISPLACED_DISPS: [(u32, u32); 1] = [(0, 0)];

pub static MISPLACED_TEXT: &str = "internedsentence";

pub static MISPLACED_SPANS: [(u32, u32); 2] = [(0, 8), (8, 16)];

pub static MISPLACED_HASHES: [u64; 2] = [1, 2];

/// The static type of these texts.
pub type Misplaced = Packed<MisplacedTables>;

/// The tables of `Misplaced`.
#[derive(PartialEq, Eq, PartialOrd, Ord)]
pub struct MisplacedTables;

impl PackedAtomSet for MisplacedTables {
    ghost use Rattle.std.proofs.Common.{lit<, refl};
    ghost use Rattle.text_forms.specs.Packed.{packed};
    ghost use Rattle.test_packed.specs.declared.misplaced.TheConstants.{MISPLACED_DISPS, MISPLACED_HASHES, MISPLACED_SPANS, MISPLACED_TEXT};

    ghost text = { MISPLACED_TEXT.now };

    ghost spans = { MISPLACED_SPANS };

    ghost tables = { packed 0 MISPLACED_DISPS MISPLACED_TEXT.now MISPLACED_SPANS MISPLACED_HASHES };

    ghost cut = { refl };

    ghost usable = { record { displaced = lit< tt; listed = lit< tt; few_disps = lit< tt; few_atoms = lit< tt; hashed = refl } };

    fn get() -> PackedStrSet {
        PackedStrSet {
            key: 0,
            disps: &MISPLACED_DISPS,
            text: MISPLACED_TEXT,
            spans: &MISPLACED_SPANS,
            hashes: &MISPLACED_HASHES,
        }
    }
}
