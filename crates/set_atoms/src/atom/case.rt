//! Atoms in another case, and the change of a text's letters, for other kinds of atoms too.

ghost use Rattle.std.specs.Prelude.{◌≡◌, ◌↔◌, IfErr, IfOk, IsTrue, length, string_bytes};
ghost use Rattle.std.specs.Str.{IsUtf8, str_to_ascii_lowercase, str_to_ascii_uppercase};

use super::{AtomKind, AtomOf, SetAtom};
use crate::held::TextSet;
use std::alloc::{AllocError, Global};
use std::str;
use std::sync::Wait;
use text_forms::Fault;

/// The most bytes of a text that is changed without taking memory.
pub const BUFFER: usize = 64;

/// A case of the letters a to z and A to Z.
#[derive(Clone, Copy)]
pub enum Case {
    /// A to Z.
    Upper,
    /// a to z.
    Lower,
}

impl Case {
    ghost use Rattle.set_atoms.specs.Case.{in_case};

    /// Whether all letters of the text are in this case.
    pub fn has(self, text: &str) -> bool
        ensures { IsTrue result ↔ (in_case self text.now ≡ text.now) }
    {
        match self {
            Case::Upper => text.bytes().all(|byte| byte.to_ascii_uppercase() == byte),
            Case::Lower => text.bytes().all(|byte| byte.to_ascii_lowercase() == byte),
        }
    }

    /// Puts the letters among the bytes into this case.
    fn change(self, bytes: &mut [u8])
        ensures { bytes.new ≡ in_case self bytes.old }
    {
        match self {
            Case::Upper => bytes.make_ascii_uppercase(),
            Case::Lower => bytes.make_ascii_lowercase(),
        }
    }

    /// Writes the text in this case into as many bytes.
    pub fn write(self, text: &str, bytes: &mut [u8])
        requires { length bytes.old ≡ length text.now }
        ensures bytes { bytes.new ≡ in_case self text.now }
        ensures utf8 { IsUtf8 bytes.new }
    {
        bytes.copy_from_slice(text.as_bytes());
        self.change(bytes);
    }

    /// The text in this case.
    pub fn of_text(self, alloc: Global, text: &str) -> Result<String, AllocError>
        ensures { IfOk result (λ changed. string_bytes changed ≡ in_case self text.now) }
    {
        match self {
            Case::Upper => text.to_ascii_uppercase(alloc),
            Case::Lower => text.to_ascii_lowercase(alloc),
        }
    }
}

impl<H: AtomKind> SetAtom<H> {
    ghost use Rattle.set_atoms.specs.Case.{in_case, IsCaseFault};

    /// The atom of the text with each letter a to z changed to A to Z and every other byte as it was, as the set's `from_str_in` gives it. If no byte
    /// changes, this is `clone_atom`.
    ///
    /// A changed text of up to 64 bytes takes no memory of its own; a longer one is an owned text, so that `Memory` may be returned for a static text
    /// as well.
    /// Other refusals are those of `from_str_in` and `clone_atom`.
    pub fn to_ascii_uppercase_in<S: TextSet<Held = H>, R: Wait>(
        &self,
        rt: &R,
        set: S,
    ) -> Result<Self, Fault>
        ensures text { IfOk result (λ atom. atom.text ≡ str_to_ascii_uppercase self.now.text) }
        ensures same { str_to_ascii_uppercase self.now.text ≡ self.now.text → IfOk result (λ atom. atom ≡ self.now) }
        ensures again { IfOk result (λ atom. str_to_ascii_uppercase atom.text ≡ atom.text) }
        ensures refused { IfErr result (IsCaseFault H.Static.tables self.now.text (str_to_ascii_uppercase self.now.text)) }
    {
        self.to_case_in(rt, set, Case::Upper)
    }

    /// The atom of the text with each letter A to Z changed to a to z and every other byte as it was, as the set's `from_str_in` gives it. If no byte
    /// changes, this is `clone_atom`.
    ///
    /// It is refused as `to_ascii_uppercase_in` is.
    pub fn to_ascii_lowercase_in<S: TextSet<Held = H>, R: Wait>(
        &self,
        rt: &R,
        set: S,
    ) -> Result<Self, Fault>
        ensures text { IfOk result (λ atom. atom.text ≡ str_to_ascii_lowercase self.now.text) }
        ensures same { str_to_ascii_lowercase self.now.text ≡ self.now.text → IfOk result (λ atom. atom ≡ self.now) }
        ensures again { IfOk result (λ atom. str_to_ascii_lowercase atom.text ≡ atom.text) }
        ensures refused { IfErr result (IsCaseFault H.Static.tables self.now.text (str_to_ascii_lowercase self.now.text)) }
    {
        self.to_case_in(rt, set, Case::Lower)
    }

    // The atom of the text in a case.
    fn to_case_in<S: TextSet<Held = H>, R: Wait>(
        &self,
        rt: &R,
        set: S,
        case: Case,
    ) -> Result<Self, Fault>
        ensures text { IfOk result (λ atom. atom.text ≡ in_case case self.now.text) }
        ensures same { in_case case self.now.text ≡ self.now.text → IfOk result (λ atom. atom ≡ self.now) }
        ensures refused { IfErr result (IsCaseFault H.Static.tables self.now.text (in_case case self.now.text)) }
    {
        let text = self.as_str();
        if case.has(text) {
            return self.clone_atom(rt);
        }
        let len = text.len();
        if len > BUFFER {
            let changed = case.of_text(set.allocator(), text)?;
            return Self::from_string_in(rt, set, changed);
        }
        let mut buffer = [0u8; BUFFER];
        case.write(text, &mut buffer[..len]);
        // SAFETY: what was written there is UTF-8, as `write` says.
        Self::from_str_in(rt, set, unsafe { str::from_utf8_unchecked(&buffer[..len]) })
    }
}
