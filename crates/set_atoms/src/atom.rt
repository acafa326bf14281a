//! An atom: a text that is inline, static, or an entry of a set.

ghost use Rattle.std.specs.Prelude.{◌≡◌, ◌↔◌, ◌+◌, ◌*◌, ◌<◌, [], true, length, string_bytes, IsTrue, IsSome, IfSome, IfOk, IfErr, OnErr, Ok, None, Some, nat_eq};
ghost use Rattle.std.specs.List.{Contains};
ghost use Rattle.std.specs.Cmp;
ghost use Rattle.std.specs.Cmp.{on_equiv};
ghost use Rattle.std.specs.Cmp.{on_per};
ghost use Rattle.std.specs.Cmp.Lexicographic.{pointwise, nat_list_eq_equiv};
ghost use Rattle.std.specs.Cow.{cow_str_bytes};
ghost use Rattle.text_forms.specs.Faults.{IsInternFault};
ghost use Rattle.text_forms.specs.declared.static_sets.TextForm.TheVariants as form;
ghost use Rattle.text_forms.specs.Tables.{IsPerfectTable, IsStaticIndex, entry_hash, form_of_text, hash_number, is_dynamic, is_dynamic_form, is_inline_form, is_static_form, text_at};
ghost use Rattle.text_forms.specs.Word.{IsInlineText, inline_word, static_word};
ghost use Rattle.set_atoms.specs.AtomForm.{IsOwnForm, IsOwnShare, value_of_form};
ghost use Rattle.set_atoms.specs.AtomValue.{IsWordOf};
ghost use Rattle.set_atoms.specs.Packed.{IsPackable};

#[doc(hidden)]
pub mod case;
mod compare;
mod list;

use crate::form::Repr;
use crate::held::{Ahead, Beside, HeldText, TextSet};
use counted_set::dynamic_set::Held;
pub use list::{AtomList, ListOf, NamedAtomList, SetList, Texts};
use named_set::HeldCell;
use std::borrow::CowStr;
use std::marker::Model;
use std::sync::Wait;
use text_forms::Fault;
use text_forms::static_sets::{
    EmptyStaticAtomSet, StaticTables, TextForm, form_of_text, static_text,
};
use text_forms::word::{InlineText, static_word, unpack_inline};

/// A text, in the form that it has under the tables of its static type, over any set: `H` is what it holds of a dynamic one, `A` and `B` are what it
/// has ahead of its form and beside the share. They are parameters here, and not only parts of `H`, so that an atom can be used where one that
/// borrows for a shorter time is asked for.
///
/// A dynamic text is shared with the set that the atom borrows: the atom's end gives one share back, and never waits.
#[derive(Drop)]
pub struct AtomOf<H: HeldText, A: Ahead, B: Beside> {
    pub(crate) ahead: A,
    pub(crate) form: Repr<B, H>,
}

/// The atom of what is held of a set.
pub type SetAtom<H> = AtomOf<H, <H as HeldText>::Ahead, <H as HeldText>::Beside>;

/// An atom of a set without a name. It has 24 bytes.
pub type Atom<'s, Static> = AtomOf<Held<'s, Static>, (), u32>;

/// An atom that is inline or dynamic, of a set without a name.
pub type DefaultAtom<'s> = Atom<'s, EmptyStaticAtomSet>;

/// An atom of the set with this name. It has 32 bytes.
///
/// Two of one set have the same word exactly if they have the same text, whichever threads made them. The word is in the atom, whatever its form, so
/// `==` compares two numbers.
pub type NamedAtom<'s, Static, N> = AtomOf<HeldCell<'s, Static, N>, u64, ()>;

impl<H: HeldText, A: Ahead, B: Beside> Model for AtomOf<H, A, B> {
    ghost use Rattle.set_atoms.specs.AtomValue.{AtomValue};

    ghost Value = { AtomValue };

    ghost use Rattle.set_atoms.specs.AtomForm.{value_of_form, IsOwnForm};

    ghost view = { λ a. value_of_form H.Static.tables H.atom_of a.form };

    ghost invariant = { λ a. A.is_ahead a.ahead (value_of_form H.Static.tables H.atom_of a.form).word × IsOwnForm H.Static.tables H.atom_of B.is_beside H.is_kept H.is_ticket a.form };
}

/// What atoms of one kind of set do in their own way.
pub trait AtomKind: HeldText {
    /// The word of an atom.
    fn word_of(atom: &SetAtom<Self>) -> u64
        ensures word { result ≡ atom.now.word }
        ensures of_text { IsWordOf Self.Static.tables Self.is_ticket atom.now.text atom.now.bits result };

    /// Whether two atoms have the same text.
    fn have_one_text(one: &SetAtom<Self>, two: &SetAtom<Self>) -> bool
        ensures { IsTrue result ↔ (one.now.text ≡ two.now.text) };
}

impl<H: AtomKind> SetAtom<H> {
    fn of_inline(text: InlineText) -> Self
        requires { IsInlineText text }
        ensures { result ≡ record { text = text; word = inline_word text; bits = None } }
    {
        AtomOf {
            ahead: H::Ahead::of_word(text.word()),
            form: Repr::Inline(text),
        }
    }

    fn of_static(index: u32) -> Self
        requires { IsStaticIndex H.Static.tables index × (index < length H.Static.tables.atoms) }
        ensures { result ≡ record { text = text_at H.Static.tables index; word = static_word index; bits = None } }
    {
        AtomOf {
            ahead: H::Ahead::of_word(static_word(index)),
            form: Repr::Static(index),
        }
    }

    fn of_share(held: H) -> Self
        requires form { form_of_text H.Static.tables (H.atom_of held).text ≡ form.Dynamic (entry_hash H.Static.tables (H.atom_of held).text) }
        requires own { IsOwnShare H.atom_of H.is_kept H.is_ticket held }
        ensures { result ≡ H.atom_of held }
    {
        AtomOf {
            ahead: H::Ahead::of_word(held.word()),
            form: Repr::Dynamic(H::Beside::of_hash(held.text_hash()), held),
        }
    }

    /// The atom of a text. A dynamic text is looked for in the set, and linked there if it is new. Inline and static texts
    /// are never refused, and take no lock and no memory.
    ///
    /// `Memory` if there is no room for a new text, `TicketsSpent` if its bucket has given its last ticket, and `FullCount` if the text's entry has
    /// as many holders as the set's limits allow.
    pub fn from_str_in<S: TextSet<Held = H>, R: Wait>(
        rt: &R,
        set: S,
        text: &str,
    ) -> Result<Self, Fault>
        ensures text { IfOk result (λ atom. atom.text ≡ text.now) }
        ensures refused { IfErr result IsInternFault }
        ensures dynamic { OnErr result (IsTrue (is_dynamic H.Static.tables text.now)) }
    {
        match form_of_text::<H::Static>(text) {
            TextForm::Inline(inline) => Ok(Self::of_inline(inline)),
            TextForm::Static(index) => Ok(Self::of_static(index)),
            TextForm::Dynamic(hash) => {
                let held = set.intern(rt, text, hash)?;
                Ok(Self::of_share(held))
            }
        }
    }

    /// The atom of a text, if the text is inline, static, or an entry of the set that somebody holds. Nothing is linked, and no memory is
    /// taken. Inline and static texts are always found, and take no lock.
    ///
    /// `None` if the text is dynamic and its bucket, under its lock, has no entry of it with a holder; another thread may link one right after.
    /// `FullCount` if the text's entry has as many holders as the set's limits allow. Either way the set is as it was, except that entries of the
    /// bucket that nobody held may be gone.
    pub fn get_in<S: TextSet<Held = H>, R: Wait>(
        rt: &R,
        set: S,
        text: &str,
    ) -> Result<Option<Self>, Fault>
        ensures text { IfOk result (λ found. IfSome found (λ atom. atom.text ≡ text.now)) }
        ensures absent { (result ≡ Ok None) → IsTrue (is_dynamic H.Static.tables text.now) }
        ensures refused { IfErr result (λ fault. fault ≡ Fault.FullCount) }
        ensures dynamic { OnErr result (IsTrue (is_dynamic H.Static.tables text.now)) }
    {
        match form_of_text::<H::Static>(text) {
            TextForm::Inline(inline) => Ok(Some(Self::of_inline(inline))),
            TextForm::Static(index) => Ok(Some(Self::of_static(index))),
            TextForm::Dynamic(hash) => match set.find(rt, text, hash)? {
                Some(held) => Ok(Some(Self::of_share(held))),
                None => Ok(None),
            },
        }
    }

    /// The atom of an owned text, as `from_str_in` gives it. The text is dropped in either case.
    pub fn from_string_in<S: TextSet<Held = H>, R: Wait>(
        rt: &R,
        set: S,
        text: String,
    ) -> Result<Self, Fault>
        ensures text { IfOk result (λ atom. atom.text ≡ string_bytes text) }
        ensures refused { IfErr result IsInternFault }
        ensures dynamic { OnErr result (IsTrue (is_dynamic H.Static.tables (string_bytes text))) }
    {
        Self::from_cow_in(rt, set, CowStr::Owned(text))
    }

    /// The atom of a text that is borrowed or owned, as `from_str_in` gives it. An owned text is dropped in either case.
    pub fn from_cow_in<S: TextSet<Held = H>, R: Wait>(
        rt: &R,
        set: S,
        text: CowStr<'_>,
    ) -> Result<Self, Fault>
        ensures text { IfOk result (λ atom. atom.text ≡ cow_str_bytes text.entry) }
        ensures refused { IfErr result IsInternFault }
        ensures dynamic { OnErr result (IsTrue (is_dynamic H.Static.tables (cow_str_bytes text.entry))) }
    {
        Self::from_str_in(rt, set, text.as_str())
    }

    /// Another atom of the same text and word.
    ///
    /// The only error is `FullCount`, if the text is dynamic and its entry has as many holders as the set's limits allow.
    #[inline]
    pub fn clone_atom<R: Wait>(&self, rt: &R) -> Result<Self, Fault>
        ensures same { IfOk result (λ atom. atom ≡ self.now) }
        ensures refused { IfErr result (λ fault. fault ≡ Fault.FullCount) }
        ensures dynamic { OnErr result (IsTrue (is_dynamic H.Static.tables self.now.text)) }
    {
        let form = match &self.form {
            Repr::Inline(text) => Repr::Inline(*text),
            Repr::Static(index) => Repr::Static(*index),
            Repr::Dynamic(beside, held) => {
                // Another step seldom comes between, so nothing has to wait.
                let more = match held.try_clone() {
                    Some(more) => more,
                    None => held.clone_held(rt)?,
                };
                return Ok(AtomOf {
                    ahead: self.ahead,
                    form: Repr::Dynamic(*beside, more),
                });
            }
        };
        Ok(AtomOf {
            ahead: self.ahead,
            form,
        })
    }

    /// Another atom of the same text and word, as `clone_atom` gives it.
    pub fn from_atom<R: Wait>(rt: &R, atom: &Self) -> Result<Self, Fault>
        ensures same { IfOk result (λ other. other ≡ atom.now) }
        ensures refused { IfErr result (λ fault. fault ≡ Fault.FullCount) }
        ensures dynamic { OnErr result (IsTrue (is_dynamic H.Static.tables atom.now.text)) }
    {
        atom.clone_atom(rt)
    }

    /// The atom of a static text. `None` if the text isn't static: if it has at most 7 bytes, or isn't at its place in the tables. Perfect tables
    /// have each of their longer texts at its place.
    pub fn try_static(text: &str) -> Option<Self>
        ensures is_static { IsSome result ↔ IsTrue (is_static_form (form_of_text H.Static.tables text.now)) }
        ensures text { IfSome result (λ atom. atom.text ≡ text.now) }
        ensures listed { IsPerfectTable H.Static.tables → Contains H.Static.tables.atoms text.now → 7 < length text.now → IsSome result }
    {
        match form_of_text::<H::Static>(text) {
            TextForm::Static(index) => Some(Self::of_static(index)),
            TextForm::Inline(_) | TextForm::Dynamic(_) => None,
        }
    }

    /// The atom of the static text at an index. `None` if the tables have none there, or one that isn't at its place or has at most 7 bytes.
    pub fn pack_static(n: u32) -> Option<Self>
        ensures is_static { IsSome result ↔ IsStaticIndex H.Static.tables n }
        ensures atom { IfSome result (λ atom. atom ≡ record { text = text_at H.Static.tables n; word = static_word n; bits = None }) }
    {
        static_text::<H::Static>(n)?;
        Some(Self::of_static(n))
    }

    /// The atom of the inline word `n + 16 * len + 1`. `None` if the low byte of `n` isn't zero or that isn't the word of a text of `len` bytes.
    pub fn pack_inline(n: u64, len: u8) -> Option<Self>
        ensures packed { IsSome result ↔ IsPackable n len }
        ensures word { IfSome result (λ atom. (atom.word ≡ n + 16 * len + 1) × (atom.bits ≡ None)) }
        ensures text { IfSome result (λ atom. IsInlineText atom.text × (inline_word atom.text ≡ atom.word)) }
    {
        if n % 256 != 0 || len > 7 {
            return None;
        }
        let text = unpack_inline(n + 16 * u64::from(len) + 1)?;
        Some(Self::of_inline(text))
    }

    /// The text.
    pub fn as_str(&self) -> &str
        ensures { result.now ≡ self.now.text }
    {
        match &self.form {
            Repr::Inline(text) => text.as_str(),
            Repr::Static(index) => H::Static::text_at(*index),
            Repr::Dynamic(_, held) => held.text(),
        }
    }

    /// The bytes of the text.
    pub fn as_bytes(&self) -> &[u8]
        ensures { result.now ≡ self.now.text }
    {
        self.as_str().as_bytes()
    }

    /// The word: the inline word of the text, the static word of its place, or one that the set gave the text: in a set without a name the
    /// ticket of its entry, whose bucket is the hash modulo 2 to the power of the bits that the atom's value names; in a set with a name a
    /// ticket of the bucket that its hash names.
    #[inline]
    pub fn unsafe_data(&self) -> u64
        ensures word { result ≡ self.now.word }
        ensures of_text { IsWordOf H.Static.tables H.is_ticket self.now.text self.now.bits result }
    {
        H::word_of(self)
    }

    /// The number that the atom hashes as: the word of an inline text, the hash that the tables list for a static one, the
    /// hash of the entry of a dynamic one.
    pub fn get_hash(&self) -> u64
        ensures { result ≡ hash_number H.Static.tables self.now.text }
    {
        match &self.form {
            Repr::Inline(text) => text.word(),
            Repr::Static(index) => H::Static::hash_at(*index),
            Repr::Dynamic(_, held) => held.text_hash(),
        }
    }

    /// Whether the text has at most 7 bytes.
    pub fn is_inline(&self) -> bool
        ensures { result ≡ is_inline_form (form_of_text H.Static.tables self.now.text) }
    {
        matches!(&self.form, Repr::Inline(_))
    }

    /// Whether the text is longer and is at its place in the static tables.
    pub fn is_static(&self) -> bool
        ensures { result ≡ is_static_form (form_of_text H.Static.tables self.now.text) }
    {
        matches!(&self.form, Repr::Static(_))
    }

    /// Whether the text is an entry of the set.
    pub fn is_dynamic(&self) -> bool
        ensures { result ≡ is_dynamic_form (form_of_text H.Static.tables self.now.text) }
    {
        matches!(&self.form, Repr::Dynamic(..))
    }
}

/// The atom of the empty text, which is inline: its word is 1.
impl<H: AtomKind> Default for SetAtom<H> {
    ghost is_default = { λ atom. atom ≡ record { text = []; word = 1; bits = None } };

    fn default() -> Self {
        Self::of_inline(InlineText::new("").unwrap())
    }
}

/// Two atoms are equal if their texts are, whichever sets they borrow.
impl<H: AtomKind> PartialEq for SetAtom<H> {
    ghost eq = { λ a b. pointwise nat_eq a.text b.text };

    ghost laws = { on_per (λ a. a.text) (Cmp.partial_equiv_from_equiv nat_list_eq_equiv) };

    #[inline]
    #[tactic(auto, using(crate::proofs::Forms::tells))]
    fn eq(&self, other: &Self) -> bool {
        H::have_one_text(self, other)
    }
}

impl<H: AtomKind> Eq for SetAtom<H> {
    ghost laws = { on_equiv (λ a. a.text) nat_list_eq_equiv };
}
