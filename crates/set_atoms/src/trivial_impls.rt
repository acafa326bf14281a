//! How atoms lend their texts, print and are serialized, their 32-bit hashes, and the JSON texts that they are turned into and read from.

ghost use Rattle.std.specs.Prelude.{◌≡◌, ◌↔◌, ℕ, Some, Err, IfErr, IfOk, IfSome, IsNone, IsTrue, OnErr};
ghost use Rattle.std.specs.Fmt.{styled_text};
ghost use Rattle.serde.specs.Event.{Sends, text as text_event};
ghost use Rattle.serde_json.specs.Data.{string};
ghost use Rattle.serde_json.specs.Find.{as_str};
ghost use Rattle.serde_json.specs.View.{view};
ghost use Rattle.text_forms.specs.Tables.{form_of_text, hash_number, is_dynamic};
ghost use Rattle.set_atoms.specs.Precomputed.{precomputed_number};
ghost use Rattle.set_atoms.specs.Printed.{debug_text, form_name};

use crate::atom::{AtomKind, AtomOf, SetAtom};
use crate::held::TextSet;
use serde::{Described, Serialize, Serializer};
use serde_json::Value;
use std::alloc::Global;
use std::convert::{AsSlice, AsStr};
use std::fmt::{self, Debug, Display, Formatter, Write};
use std::sync::Wait;
use text_forms::Fault;

/// Values that have a 32-bit hash ready.
pub trait PrecomputedHash {
    /// What `precomputed_hash` returns.
    ghost precomputed: { Self → ℕ };

    /// The hash.
    fn precomputed_hash(&self) -> u32
        ensures { result ≡ precomputed self.now };
}

/// An atom lends its text.
impl<H: AtomKind> AsStr for SetAtom<H> {
    ghost text = { λ atom. atom.text };

    fn as_str(&self) -> &str {
        AtomOf::as_str(self)
    }
}

/// An atom lends the bytes of its text.
impl<H: AtomKind> AsSlice<u8> for SetAtom<H> {
    ghost items = { λ atom. atom.text };

    fn as_slice(&self) -> &[u8] {
        self.as_bytes()
    }
}

/// The high 32 bits of `get_hash`, xored with the low ones.
impl<H: AtomKind> PrecomputedHash for SetAtom<H> {
    ghost precomputed = { λ atom. precomputed_number (hash_number H.Static.tables atom.text) };

    fn precomputed_hash(&self) -> u32 {
        let hash = self.get_hash();
        (hash >> 32) as u32 ^ (hash & 0xffff_ffff) as u32
    }
}

/// The text. Width and precision apply as they do to a `str`.
impl<H: AtomKind> Display for SetAtom<H> {
    ghost output = { λ atom. Some atom.text };

    ghost styled_output = { λ atom spec. Some (styled_text spec atom.text) };

    fn fmt<W: Write>(&self, f: &mut Formatter<W>) -> fmt::Result {
        f.pad(self.as_str())
    }
}

/// `Atom('`, the text as it is, `' type=`, the name of its form, and `)`. No width applies to the whole.
impl<H: AtomKind> Debug for SetAtom<H> {
    ghost debug_output = { λ atom. Some (debug_text H.Static.tables atom.text) };

    fn fmt<W: Write>(&self, f: &mut Formatter<W>) -> fmt::Result {
        write!(f, "Atom('{}' type={})", self.as_str(), self.form_name())
    }
}

impl<H: AtomKind> Described for SetAtom<H> {
    ghost writes = { λ atom. Sends (text_event atom.text) };
}

/// An atom is written as its text. `Deserialize` isn't implemented, since it is handed no set.
impl<H: AtomKind> Serialize for SetAtom<H> {
    fn serialize<S: Serializer>(&self, out: &mut S) -> Result<(), S::Error> {
        out.str(self.as_str())
    }
}

impl<H: AtomKind> SetAtom<H> {
    /// The JSON text value of the atom's text. The only error is `Memory`.
    pub fn to_json(&self, alloc: Global) -> Result<Value, Fault>
        ensures text { IfOk result (λ value. view value ≡ string self.now.text) }
        ensures refused { IfErr result (λ fault. fault ≡ Fault.Memory) }
    {
        let text = String::from_str(alloc, self.as_str())?;
        Ok(Value::String(text))
    }

    /// The atom of a JSON text value's text, as `from_str_in` gives it.
    ///
    /// Returns `NotText` exactly if the value isn't a text, and then no lock is taken. A text is refused only if it is dynamic, with the faults of
    /// `from_str_in`.
    pub fn from_json_in<S: TextSet<Held = H>, R: Wait>(
        rt: &R,
        set: S,
        value: &Value,
    ) -> Result<Self, Fault>
        ensures text { IfOk result (λ atom. as_str (view value.now) ≡ Some atom.text) }
        ensures not_text { (result ≡ Err Fault.NotText) ↔ IsNone (as_str (view value.now)) }
        ensures dynamic { OnErr result (IfSome (as_str (view value.now)) (λ text. IsTrue (is_dynamic H.Static.tables text))) }
    {
        match value.as_str() {
            Some(text) => Self::from_str_in(rt, set, text),
            None => Err(Fault::NotText),
        }
    }

    /// The name of the atom's form.
    fn form_name(&self) -> &'static str
        ensures { result.now ≡ form_name (form_of_text H.Static.tables self.now.text) }
    {
        if self.is_inline() {
            "inline"
        } else if self.is_static() {
            "static"
        } else {
            "dynamic"
        }
    }
}
