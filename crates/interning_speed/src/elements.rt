//! A static type over generated tables, which `tools/static_type.py` wrote.

ghost use Rattle.std.specs.Prelude.{[], ◌∷◌, codes};

use string_cache::{PhfStrSet, StaticAtomSet};

/// The tables, as they were generated.
pub static ELEMENTS_TABLES: PhfStrSet = PhfStrSet {
    key: 1,
    disps: &[(7, 0), (43, 1)],
    atoms: &[
        "noscript",
        "template",
        "blockquote",
        "datalist",
        "figcaption",
        "fieldset",
        "progress",
        "optgroup",
        "colgroup",
    ],
    hashes: &[
        0x7e2f_39ca_8e6c_17ed,
        0x42ca_62e8_56db_04ad,
        0x8c81_9ea2_ba8a_8bc5,
        0xbf25_ab62_9a4d_8006,
        0x708d_bf4d_1952_6e84,
        0x4adc_a3a8_d7da_27f8,
        0x42aa_b803_4f99_b555,
        0xed58_bbed_1321_53fc,
        0xfc81_a3dd_79fb_4e5e,
    ],
};

/// The static type of these texts.
#[derive(PartialEq, Eq, PartialOrd, Ord)]
pub struct Elements;

impl StaticAtomSet for Elements {
    ghost use Rattle.std.proofs.Common.{lit<, refl};
    ghost use Rattle.std.specs.Prelude.{[], ◌∷◌, codes};

    ghost tables = { record { key = 1; disps = (7, 0) ∷ (43, 1) ∷ []; atoms = codes "noscript" ∷ codes "template" ∷ codes "blockquote" ∷ codes "datalist" ∷ codes "figcaption" ∷ codes "fieldset" ∷ codes "progress" ∷ codes "optgroup" ∷ codes "colgroup" ∷ []; hashes = 0x7e2f_39ca_8e6c_17ed ∷ 0x42ca_62e8_56db_04ad ∷ 0x8c81_9ea2_ba8a_8bc5 ∷ 0xbf25_ab62_9a4d_8006 ∷ 0x708d_bf4d_1952_6e84 ∷ 0x4adc_a3a8_d7da_27f8 ∷ 0x42aa_b803_4f99_b555 ∷ 0xed58_bbed_1321_53fc ∷ 0xfc81_a3dd_79fb_4e5e ∷ [] } };

    ghost usable = { record { displaced = lit< tt; listed = lit< tt; few_disps = lit< tt; few_atoms = lit< tt; hashed = refl } };

    fn get() -> &'static PhfStrSet {
        &ELEMENTS_TABLES
    }
}
