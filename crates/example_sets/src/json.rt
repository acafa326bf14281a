//! Atoms as JSON, alone and in a struct.

ghost use Rattle.std.specs.Prelude.{◌≡◌, ◌≢◌, Some, IfErr, IfOk, option_and_then, string_bytes};
ghost use Rattle.serde_json.specs.Data.{Data, string};
ghost use Rattle.serde_json.specs.Find.{as_str};
ghost use Rattle.serde_json.specs.Read.{read};

use serde::Serialize;
use serde_json::{Error, Value};
use std::alloc::Global;
use std::sync::Wait;
use string_cache::dynamic_set::Set;
use string_cache::{DefaultAtom, EmptyStaticAtomSet, Fault};

/// An atom written as a JSON value, and read back.
pub fn through_json<'s, R: Wait>(
    rt: &R,
    alloc: Global,
    set: &'s Set<EmptyStaticAtomSet>,
    atom: &DefaultAtom,
) -> Result<DefaultAtom<'s>, Fault>
    ensures back { IfOk result (λ back. back.text ≡ atom.now.text) }
    ensures refused { IfErr result (λ fault. fault ≢ Fault.NotText) }
{
    let value = atom.to_json(alloc)?;
    DefaultAtom::from_json_in(rt, set, &value)
}

/// The JSON text of an atom. Whoever reads it gets the atom's text.
pub fn save(alloc: Global, atom: &DefaultAtom) -> Result<String, Fault>
    ensures { IfOk result (λ json. read (string_bytes json) ≡ Some (string atom.now.text)) }
{
    Ok(atom.to_json(alloc)?.to_string(alloc)?)
}

/// The atom of a JSON text that is one string.
pub fn load<'s, R: Wait>(
    rt: &R,
    alloc: Global,
    set: &'s Set<EmptyStaticAtomSet>,
    json: &str,
) -> Result<DefaultAtom<'s>, anyhow::Error>
    ensures { IfOk result (λ atom. option_and_then as_str (read json.now) ≡ Some atom.text) }
{
    let value = Value::from_str(alloc, json)?;
    Ok(DefaultAtom::from_json_in(rt, set, &value)?)
}

/// A name and its price.
#[derive(Drop, Serialize)]
pub struct Priced<'s> {
    pub name: DefaultAtom<'s>,
    pub price: u32,
}

/// The JSON text of a price, such as `{"name":"tea","price":3}`.
pub fn priced_json(alloc: Global, priced: &Priced<'_>) -> Result<String, Error> {
    serde_json::to_string(alloc, priced)
}
