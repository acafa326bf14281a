//! What atoms tell and print: one list of texts, with values from outside.

mod limits;
mod long;
mod odd;

use crate::assert_for;
use crate::begun::new_set;
use std::alloc::Global;
use std::sync::Wait;
use string_cache::dynamic_set::Set;
use string_cache::static_sets::StaticAtomSet;
use string_cache::trivial_impls::PrecomputedHash;
use string_cache::{Atom, EmptyStaticAtomSet};
use test_calls::interned;
use test_samples::One;

/// The static type of a row.
#[derive(Clone, Copy)]
enum Tables {
    Empty,
    One,
}

/// The one form that the atom says it has.
fn form_told<Static: StaticAtomSet>(atom: &Atom<'_, Static>) -> &'static str {
    match (atom.is_inline(), atom.is_static(), atom.is_dynamic()) {
        (true, false, false) => "inline",
        (false, true, false) => "static",
        (false, false, true) => "dynamic",
        _ => "not one form",
    }
}

/// Whether the atom is printed like this.
fn is_printed<Static: StaticAtomSet>(alloc: Global, atom: &Atom<'_, Static>, text: &str) -> bool {
    match format!(in alloc; "{atom:?}") {
        Ok(printed) => printed.as_str() == text,
        Err(_) => false,
    }
}

/// What the atom of a text under these tables tells.
#[derive(Clone, Copy)]
struct Vector {
    tables: Tables,
    text: &'static str,
    word: u64,
    form: &'static str,
    hash: u64,
    precomputed: u32,
    debug: &'static str,
}

impl Vector {
    /// Whether that is what the atom tells.
    fn is_told_of<Static: StaticAtomSet>(&self, alloc: Global, atom: &Atom<'_, Static>) -> bool {
        atom.unsafe_data() == self.word
            && form_told(atom) == self.form
            && atom.get_hash() == self.hash
            && atom.precomputed_hash() == self.precomputed
            && is_printed(alloc, atom, self.debug)
    }

    /// Whether that is what the atom of the text in this set tells.
    fn is_told<R: Wait, Static: StaticAtomSet>(&self, rt: &R, set: &Set<Static>) -> bool {
        match interned(rt, set, self.text) {
            Ok(atom) => self.is_told_of(set.allocator(), &atom),
            Err(_) => false,
        }
    }
}

/// The words are the layout's, and a ticket's bucket is the low 12 bits of the hash. The hashes of dynamic texts, g and f1, are from OpenSSL's
/// SipHash.
static VECTORS: [Vector; 11] = [
    Vector {
        tables: Tables::Empty,
        text: "",
        word: 1,
        form: "inline",
        hash: 1,
        precomputed: 1,
        debug: "Atom('' type=inline)",
    },
    Vector {
        tables: Tables::Empty,
        text: "a",
        word: 0x6111,
        form: "inline",
        hash: 0x6111,
        precomputed: 0x6111,
        debug: "Atom('a' type=inline)",
    },
    Vector {
        tables: Tables::Empty,
        text: "foo",
        word: 0x6f6f_6631,
        form: "inline",
        hash: 0x6f6f_6631,
        precomputed: 0x6f6f_6631,
        debug: "Atom('foo' type=inline)",
    },
    Vector {
        tables: Tables::Empty,
        text: "it's",
        word: 0x73_2774_6941,
        form: "inline",
        hash: 0x73_2774_6941,
        precomputed: 0x2774_6932,
        debug: "Atom('it's' type=inline)",
    },
    Vector {
        tables: Tables::Empty,
        text: "abcdefg",
        word: 0x6766_6564_6362_6171,
        form: "inline",
        hash: 0x6766_6564_6362_6171,
        precomputed: 0x0404_0415,
        debug: "Atom('abcdefg' type=inline)",
    },
    Vector {
        tables: Tables::Empty,
        text: "\0",
        word: 0x11,
        form: "inline",
        hash: 0x11,
        precomputed: 0x11,
        debug: "Atom('\0' type=inline)",
    },
    Vector {
        tables: Tables::Empty,
        text: "é",
        word: 0xa9_c321,
        form: "inline",
        hash: 0xa9_c321,
        precomputed: 0xa9_c321,
        debug: "Atom('é' type=inline)",
    },
    Vector {
        tables: Tables::Empty,
        text: "abcdefgh",
        word: 0x1_0b14,
        form: "dynamic",
        hash: 0xdc89_567d_86f9_a2c5,
        precomputed: 0x5a70_f4b8,
        debug: "Atom('abcdefgh' type=dynamic)",
    },
    Vector {
        tables: Tables::Empty,
        text: "sentence",
        word: 0x1_0594,
        form: "dynamic",
        hash: 0xed02_e6f1_6c03_c165,
        precomputed: 0x8101_2794,
        debug: "Atom('sentence' type=dynamic)",
    },
    Vector {
        tables: Tables::One,
        text: "sentence",
        word: 2,
        form: "static",
        hash: 0x1122_3344_5566_7788,
        precomputed: 0x4444_44cc,
        debug: "Atom('sentence' type=static)",
    },
    Vector {
        tables: Tables::One,
        text: "SENTENCE",
        word: 0x1_15d0,
        form: "dynamic",
        hash: 0xe89b_dab1_b2fd_2574,
        precomputed: 0x5a66_ffc5,
        debug: "Atom('SENTENCE' type=dynamic)",
    },
];

#[test]
fn vectors(rt: HostRuntime) {
    let empty: Set<EmptyStaticAtomSet> = new_set(&rt, rt.alloc());
    let one: Set<One> = new_set(&rt, rt.alloc());
    for vector in &VECTORS {
        let is_told = match vector.tables {
            Tables::Empty => vector.is_told(&rt, &empty),
            Tables::One => vector.is_told(&rt, &one),
        };
        assert_for(&rt, is_told, &vector.text);
    }
}
