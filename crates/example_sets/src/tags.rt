//! A static type of your own.

ghost use Rattle.std.specs.Prelude.{◌≡◌, ◌<◌, ◌⊎◌, ◌↔◌, codes, length, IsTrue};
ghost use Rattle.std.specs.List.{All, Contains};
ghost use Rattle.text_forms.specs.Tables.{IsPerfectTable, form_of_text, is_static_form};
ghost use Rattle.example_sets.specs.Tags.{tag_tables};

use string_cache::{Atom, PhfStrSet, StaticAtomSet, StaticTables};

/// The tags that are known when the program is built. Each is at its place: `TAGS.check()` says so.
pub static TAGS: PhfStrSet = PhfStrSet {
    key: 0,
    disps: &[(1, 0), (0, 1)],
    atoms: &[
        "figcaption",
        "table",
        "textarea",
        "colgroup",
        "blockquote",
        "template",
    ],
    hashes: &[
        0x5083_f794_76e2_d47d,
        0xc864_a048_a605_0d03,
        0x0ccd_a95b_919a_5e9c,
        0xc212_cb28_033e_5d8c,
        0xfe8e_a144_fd65_76c8,
        0xf50d_b3d0_c04b_0e2c,
    ],
};

/// The static type of tags.
#[derive(PartialEq, Eq, PartialOrd, Ord)]
pub struct Tags;

impl StaticAtomSet for Tags {
    ghost use Rattle.std.proofs.Common.{lit<, refl};
    ghost use Rattle.example_sets.specs.Tags.{tag_tables};

    ghost tables = { tag_tables };

    ghost usable = { record { displaced = lit< tt; listed = lit< tt; few_disps = lit< tt; few_atoms = lit< tt; hashed = refl } };

    fn get() -> &'static PhfStrSet {
        &TAGS
    }
}

/// A tag.
pub type Tag<'s> = Atom<'s, Tags>;

/// Whether each of the names is found without a set. Those of more than 7 bytes in tables that pass `check` are.
pub fn finds_all<Static: StaticTables>(names: &[&str]) -> bool
    ensures found { IsTrue result ↔ All (λ name. IsTrue (is_static_form (form_of_text Static.tables name.now))) names.now }
    ensures listed { IsPerfectTable Static.tables → All (λ name. Contains Static.tables.atoms name.now × (7 < length name.now)) names.now → IsTrue result }
{
    names
        .iter()
        .all(|name| Atom::<Static>::try_static(name).is_some())
}

/// Whether the tag is one of a form's fields.
pub fn is_field(tag: &Tag) -> bool
    ensures { IsTrue result ↔ ((tag.now.text ≡ codes "textarea") ⊎ (tag.now.text ≡ codes "input")) }
{
    matches!(tag.as_str(), "textarea" | "input")
}
