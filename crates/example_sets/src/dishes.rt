//! A static type over generated tables, which `tools/static_type.py` wrote.

ghost use Rattle.std.specs.Prelude.{[], ◌∷◌, codes};

use string_cache::{PhfStrSet, StaticAtomSet};

/// The tables, as they were generated.
pub static DISHES_TABLES: PhfStrSet = PhfStrSet {
    key: 0,
    disps: &[(3, 0)],
    atoms: &[
        "minestrone",
        "味噌汁",
        "soup \"du jour\" \\ bread",
        "שקשוקה",
        "café au lait",
    ],
    hashes: &[
        0x89ec_7cae_c7b8_7cfe,
        0xa6f9_169d_0958_f636,
        0xa88f_6f8b_8dd4_70e4,
        0xb0b2_6c73_dee3_0b7c,
        0x8112_8fc1_8b9c_cd76,
    ],
};

/// The static type of these texts.
#[derive(PartialEq, Eq, PartialOrd, Ord)]
pub struct Dishes;

impl StaticAtomSet for Dishes {
    ghost use Rattle.std.proofs.Common.{lit<, refl};
    ghost use Rattle.std.specs.Prelude.{[], ◌∷◌, codes};

    ghost tables = { record { key = 0; disps = (3, 0) ∷ []; atoms = codes "minestrone" ∷ codes "å\u{91}³å\u{99}\u{8c}æ±\u{81}" ∷ codes "soup \"du jour\" \\ bread" ∷ codes "×©×§×©×\u{95}×§×\u{94}" ∷ codes "cafÃ© au lait" ∷ []; hashes = 0x89ec_7cae_c7b8_7cfe ∷ 0xa6f9_169d_0958_f636 ∷ 0xa88f_6f8b_8dd4_70e4 ∷ 0xb0b2_6c73_dee3_0b7c ∷ 0x8112_8fc1_8b9c_cd76 ∷ [] } };

    ghost usable = { record { displaced = lit< tt; listed = lit< tt; few_disps = lit< tt; few_atoms = lit< tt; hashed = refl } };

    fn get() -> &'static PhfStrSet {
        &DISHES_TABLES
    }
}
