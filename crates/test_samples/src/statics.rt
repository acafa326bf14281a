//! Static types of one text.

use text_forms::static_sets::{PhfStrSet, StaticAtomSet};

/// One text, whose place is always 0.
#[derive(PartialEq, Eq, PartialOrd, Ord)]
pub struct One;

static ONE: PhfStrSet = PhfStrSet {
    key: 0,
    disps: &[(0, 0)],
    atoms: &["sentence"],
    hashes: &[0x1122_3344_5566_7788],
};

impl StaticAtomSet for One {
    ghost use Rattle.std.specs.Prelude.{◌∷◌, [], codes};
    ghost use Rattle.std.proofs.Common.{lit<, refl};

    ghost tables = { record { key = 0; disps = (0, 0) ∷ []; atoms = codes "sentence" ∷ []; hashes = 0x1122_3344_5566_7788 ∷ [] } };

    ghost usable = { record { displaced = lit< tt; listed = lit< tt; few_disps = lit< tt; few_atoms = lit< tt; hashed = refl } };

    fn get() -> &'static PhfStrSet {
        &ONE
    }
}

/// One text, listed twice: one of the two is at its place.
#[derive(PartialEq, Eq, PartialOrd, Ord)]
pub struct Twice;

static TWICE: PhfStrSet = PhfStrSet {
    key: 0,
    disps: &[(0, 0)],
    atoms: &["sentence", "sentence"],
    hashes: &[1, 2],
};

impl StaticAtomSet for Twice {
    ghost use Rattle.std.specs.Prelude.{◌∷◌, [], codes};
    ghost use Rattle.std.proofs.Common.{lit<, refl};

    ghost tables = { record { key = 0; disps = (0, 0) ∷ []; atoms = codes "sentence" ∷ codes "sentence" ∷ []; hashes = 1 ∷ 2 ∷ [] } };

    ghost usable = { record { displaced = lit< tt; listed = lit< tt; few_disps = lit< tt; few_atoms = lit< tt; hashed = refl } };

    fn get() -> &'static PhfStrSet {
        &TWICE
    }
}

/// One text, short enough to be inline.
#[derive(PartialEq, Eq, PartialOrd, Ord)]
pub struct Short;

static SHORT: PhfStrSet = PhfStrSet {
    key: 0,
    disps: &[(0, 0)],
    atoms: &["short"],
    hashes: &[0],
};

impl StaticAtomSet for Short {
    ghost use Rattle.std.specs.Prelude.{◌∷◌, [], codes};
    ghost use Rattle.std.proofs.Common.{lit<, refl};

    ghost tables = { record { key = 0; disps = (0, 0) ∷ []; atoms = codes "short" ∷ []; hashes = 0 ∷ [] } };

    ghost usable = { record { displaced = lit< tt; listed = lit< tt; few_disps = lit< tt; few_atoms = lit< tt; hashed = refl } };

    fn get() -> &'static PhfStrSet {
        &SHORT
    }
}
