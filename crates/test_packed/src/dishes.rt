//! A packed static type over generated tables, which `tools/static_type.py` wrote.

use string_cache::{Packed, PackedAtomSet, PackedStrSet};

/// The pairs of displacements.
#[rattlefmt::skip]
pub static DISHES_DISPS: [(u32, u32); 1] = [
    (3, 0),
];

/// The texts, one after another.
#[rattlefmt::skip]
pub static DISHES_TEXT: &str = "minestrone味噌汁soup \"du jour\" \\ breadשקשוקהcafé au lait";

/// Where each text begins and ends, in bytes.
#[rattlefmt::skip]
pub static DISHES_SPANS: [(u32, u32); 5] = [
    (0, 10), (10, 19), (19, 41), (41, 53), (53, 66),
];

/// The number that an atom of each text hashes as.
#[rattlefmt::skip]
pub static DISHES_HASHES: [u64; 5] = [
    0x89ec_7cae_c7b8_7cfe, 0xa6f9_169d_0958_f636, 0xa88f_6f8b_8dd4_70e4, 0xb0b2_6c73_dee3_0b7c,
    0x8112_8fc1_8b9c_cd76,
];

/// The static type of these texts.
pub type Dishes = Packed<DishesTables>;

/// The tables of `Dishes`.
#[derive(PartialEq, Eq, PartialOrd, Ord)]
pub struct DishesTables;

impl PackedAtomSet for DishesTables {
    ghost use Rattle.std.proofs.Common.{lit<, refl};
    ghost use Rattle.text_forms.specs.Packed.{packed};
    ghost use Rattle.test_packed.specs.declared.dishes.TheConstants.{DISHES_DISPS, DISHES_HASHES, DISHES_SPANS, DISHES_TEXT};

    ghost text = { DISHES_TEXT.now };

    ghost spans = { DISHES_SPANS };

    ghost tables = { packed 0 DISHES_DISPS DISHES_TEXT.now DISHES_SPANS DISHES_HASHES };

    ghost cut = { refl };

    ghost usable = { record { displaced = lit< tt; listed = lit< tt; few_disps = lit< tt; few_atoms = lit< tt; hashed = refl } };

    fn get() -> PackedStrSet {
        PackedStrSet {
            key: 0,
            disps: &DISHES_DISPS,
            text: DISHES_TEXT,
            spans: &DISHES_SPANS,
            hashes: &DISHES_HASHES,
        }
    }
}
