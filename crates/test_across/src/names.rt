//! A static type over the tables of a real vocabulary.

mod static_names;

use crate::{assert_for, assert_that};
use static_names::{Name, Names};
use string_cache::{Atom, StaticAtomSet};
use test_samples::NAMES;

// These are over any static type, so that no proof has to read the tables of this one.

/// The atom of a text, if it is static.
fn static_atom<'s, S: StaticAtomSet>(text: &str) -> Option<Atom<'s, S>> {
    Atom::try_static(text)
}

fn is_static<S: StaticAtomSet>(text: &str) -> bool {
    static_atom::<S>(text).is_some()
}

/// The number of texts in the tables.
fn count_of<S: StaticAtomSet>() -> usize {
    S::get().atoms.len()
}

/// With the tables that were generated from the long names, each is found without a set.
#[test]
fn long_names_are_static(rt: HostRuntime) {
    let mut long = 0usize;
    for name in NAMES.lines() {
        let is_found = is_static::<Names>(name);
        assert_for(&rt, is_found == (name.len() > 7), &name);
        if is_found && long < usize::MAX {
            long += 1;
        }
    }
    assert_that(&rt, count_of::<Names>() == long);
}

/// What languages have a name for.
#[derive(Clone, Copy, PartialEq, Eq)]
enum Kind {
    Element,
    Keyword,
    Other,
}

/// What a name stands for, by its word: no text is compared, and a constant that is misspelled doesn't compile.
fn kind_of(name: &Name) -> Kind {
    match name.unsafe_data() {
        Names::BLOCKQUOTE | Names::FIGCAPTION => Kind::Element,
        Names::CONTINUE => Kind::Keyword,
        _ => Kind::Other,
    }
}

/// The kind of a static name.
fn kind_of_text(text: &str) -> Option<Kind> {
    Some(kind_of(&static_atom::<Names>(text)?))
}

static KINDS: [(&str, Option<Kind>); 5] = [
    ("blockquote", Some(Kind::Element)),
    ("figcaption", Some(Kind::Element)),
    ("continue", Some(Kind::Keyword)),
    ("background-color", Some(Kind::Other)),
    ("blockquotes", None),
];

#[test]
fn words_tell_names_apart(rt: HostRuntime) {
    for (text, kind) in &KINDS {
        assert_for(&rt, kind_of_text(text) == *kind, text);
    }
}
