//! The names in a page, told apart by their words: no text is compared.

use crate::names::{PageNames, PageNamesTables};
use std::alloc::Global;
use std::hash::RandomState;
use string_cache::Fault;
use string_cache::static_sets::StaticTables;
use string_cache::table::Table;

/// What a name in a page is for.
#[derive(Clone, Copy, Debug, PartialEq, Eq)]
enum Role {
    Heading,
    Form,
    Drawing,
    Link,
    Other,
}

/// What the name with this word is for. A constant that is misspelled doesn't compile.
fn role_of(word: u64) -> Role {
    match word {
        PageNamesTables::H1 | PageNamesTables::H2 | PageNamesTables::H3 => Role::Heading,
        PageNamesTables::FIELDSET | PageNamesTables::INPUT | PageNamesTables::TEXTAREA => {
            Role::Form
        }
        PageNamesTables::CLIP_PATH_ELEMENT
        | PageNamesTables::LINEAR_GRADIENT
        | PageNamesTables::PATH
        | PageNamesTables::SVG => Role::Drawing,
        PageNamesTables::FORMACTION | PageNamesTables::HREF | PageNamesTables::XLINK_HREF => {
            Role::Link
        }
        _ => Role::Other,
    }
}

/// What comes before the mark, or everything if there is none.
fn before(text: &str, mark: char) -> &str {
    match text.split_once(mark) {
        Some((first, _)) => first,
        None => text,
    }
}

/// The name that a token of a tag begins with, such as `href=/menu` or `/form`.
fn name_of(token: &str) -> &str {
    let name = before(token, '=');
    name.strip_prefix('/').unwrap_or(name)
}

/// The number of names in a tag that have this role.
fn count_in_tag<S: StaticTables>(
    table: &mut Table<S>,
    tag: &str,
    role: Role,
) -> Result<usize, Fault> {
    let mut count = 0usize;
    for token in tag.split_whitespace() {
        let word = table.intern(name_of(token))?;
        if role_of(word) == role {
            count = count.wrapping_add(1);
        }
    }
    Ok(count)
}

/// How many names in the page have this role, and how many of its names the table holds because they aren't in the list. Whoever wrote the page chose
/// those, so they are found under these keys.
fn count_of<S: StaticTables>(
    alloc: Global,
    keys: RandomState,
    page: &str,
    role: Role,
) -> Result<(usize, usize), Fault> {
    let mut table = Table::<S>::new(alloc, keys)?;
    let mut count = 0usize;
    for piece in page.split('<') {
        count = count.wrapping_add(count_in_tag(&mut table, before(piece, '>'), role)?);
    }
    Ok((count, table.entries()))
}

const PAGE: &str = "<article lang=fr><h1>Crème brûlée</h1>\
    <form method=post><fieldset><textarea name=note></textarea></fieldset>\
    <button formaction=/order>Order</button></form>\
    <svg viewBox=0,0,8,8 clip-path=url(#edge)><clipPath id=edge><path d=M0,0></path></clipPath></svg>\
    <a href=/menu xlink:href=#top>Menu</a><x-gallery-view crème-brûlée=1></x-gallery-view></article>";

const ROLES: [(Role, usize); 5] = [
    (Role::Heading, 2),
    (Role::Form, 4),
    (Role::Drawing, 6),
    (Role::Link, 3),
    (Role::Other, 18),
];

/// Each name in the page has its role, and the table holds only the two that aren't in the list.
#[test]
fn names_of_a_page_have_roles(rt: HostRuntime) {
    let keys = RandomState::new(&rt).expect(&rt, "keys");
    for (role, count) in &ROLES {
        let counted = count_of::<PageNames>(rt.alloc(), keys, PAGE, *role);
        assert!(rt; counted == Ok((*count, 2)), "of {role:?}");
    }
}
