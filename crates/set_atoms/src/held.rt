//! What atoms ask of a set, and of what they hold of one of its texts.

ghost use Rattle.std.specs.Prelude.{◌≡◌, ◌%◌, ◌^◌, ⊤, IfErr, IfOk, IfSome};
ghost use Rattle.text_forms.specs.Faults.{IsInternFault};
ghost use Rattle.text_forms.specs.Tables.{entry_hash};
ghost use Rattle.set_atoms.specs.AtomForm.{IsOwnShare};

use crate::atom::AtomKind;
use std::alloc::Global;
use std::sync::Wait;
use text_forms::Fault;
use text_forms::static_sets::StaticTables;

/// What an atom has of its word ahead of its form, whatever the form: the word itself, or nothing.
pub trait Ahead: Copy {
    ghost use Rattle.std.specs.Prelude.{ℕ};

    /// Whether an atom of this word has this ahead.
    ghost is_ahead: { Self → ℕ → Type 0 };

    /// What an atom of the word has ahead.
    fn of_word(word: u64) -> Self
        ensures { is_ahead result word };
}

impl Ahead for () {
    ghost is_ahead = { λ ahead word. ⊤ };

    #[inline]
    fn of_word(_: u64) {}
}

/// The word.
impl Ahead for u64 {
    ghost is_ahead = { λ ahead word. ahead ≡ word };

    #[inline]
    fn of_word(word: u64) -> u64 {
        word
    }
}

/// What is in a dynamic atom beside its share, without making it larger: part of the text's hash, or nothing.
pub trait Beside: Copy {
    ghost use Rattle.std.specs.Prelude.{ℕ};

    /// Whether this is beside the share of a text with this hash.
    ghost is_beside: { Self → ℕ → Type 0 };

    /// What is beside the share of a text with this hash.
    fn of_hash(hash: u64) -> Self
        ensures { is_beside result hash };
}

impl Beside for () {
    ghost is_beside = { λ beside hash. ⊤ };

    #[inline]
    fn of_hash(_: u64) {}
}

/// The low half of the hash, which tells most texts apart without a look at their entries.
impl Beside for u32 {
    ghost is_beside = { λ half hash. half ≡ hash % 2 ^ 32 };

    #[inline]
    fn of_hash(hash: u64) -> u32 {
        (hash % (1 << 32)) as u32
    }
}

/// One share of a text of a set: what a dynamic atom holds.
pub trait HeldText: Drop {
    ghost use Rattle.std.specs.Prelude.{ℕ, List, Option};
    ghost use Rattle.set_atoms.specs.AtomValue.{AtomValue};

    /// The static type of its set.
    type Static: StaticTables;

    /// What its atoms have ahead of their form.
    type Ahead: Ahead;

    /// What its atoms have beside it.
    type Beside: Beside;

    /// The atom of the share, as clauses see it.
    ghost atom_of: { Self → AtomValue };

    /// What an atom knows of its share, so that there can be more of them.
    ghost is_kept: { Self → Type 0 };

    /// Whether a dynamic text may have this word, by the text, the bits and the word.
    ghost is_ticket: { List ℕ → Option ℕ → ℕ → Type 0 };

    /// The text.
    fn text(&self) -> &str
        ensures { result.now ≡ (atom_of self.now).text };

    /// The word.
    fn word(&self) -> u64
        ensures { result ≡ (atom_of self.now).word };

    /// The hash of the text, which is stored with it.
    fn text_hash(&self) -> u64
        requires { is_kept self.now }
        ensures { result ≡ entry_hash Self.Static.tables (atom_of self.now).text };

    /// One more share of the same text by a single try, which waits for nothing. `None` if another step on the count came between, or if there are
    /// as many as the set's limits allow: then nothing has changed.
    fn try_clone(&self) -> Option<Self>
        requires { is_kept self.now }
        ensures same { IfSome result (λ held. held ≡ self.now) };

    /// One more share of the same text. The only error is `FullCount`, if there are as many as the set's limits allow.
    fn clone_held<R: Wait>(&self, rt: &R) -> Result<Self, Fault>
        requires { is_kept self.now }
        ensures same { IfOk result (λ held. held ≡ self.now) }
        ensures full { IfErr result (λ fault. fault ≡ Fault.FullCount) };
}

/// A borrowed set that threads share: it interns and finds dynamic texts. Atoms ask for their texts, which are dynamic, with their hashes.
pub trait TextSet: Copy {
    type Held: AtomKind;

    /// The share without its set, for holders of many shares of one set.
    type Bare: BareText<Static = <Self::Held as HeldText>::Static>;

    /// What the set takes its memory from.
    fn allocator(self) -> Global;

    /// A share of the text, which is linked if it is new. `FullCount`, `TicketsSpent` or `Memory` if the set refuses it.
    fn intern<R: Wait>(self, rt: &R, text: &str, hash: u64) -> Result<Self::Held, Fault>
        requires { hash ≡ entry_hash Self.Held.Static.tables text.now }
        ensures text { IfOk result (λ held. (Self.Held.atom_of held).text ≡ text.now) }
        ensures own { IfOk result (IsOwnShare Self.Held.atom_of Self.Held.is_kept Self.Held.is_ticket) }
        ensures refused { IfErr result IsInternFault };

    /// A share of the text, if the set has it and it is held. Nothing is linked. It is refused for `FullCount` alone.
    fn find<R: Wait>(self, rt: &R, text: &str, hash: u64) -> Result<Option<Self::Held>, Fault>
        requires { hash ≡ entry_hash Self.Held.Static.tables text.now }
        ensures text { IfOk result (λ found. IfSome found (λ held. (Self.Held.atom_of held).text ≡ text.now)) }
        ensures own { IfOk result (λ found. IfSome found (IsOwnShare Self.Held.atom_of Self.Held.is_kept Self.Held.is_ticket)) }
        ensures refused { IfErr result (λ fault. fault ≡ Fault.FullCount) };
}

/// One share of a text of a set, without the set, for holders of many shares of one set. It has no drop: its set ends it, or turns it back into a
/// share with its set.
pub trait BareText {
    ghost use Rattle.std.specs.Prelude.{ℕ, List, Option};
    ghost use Rattle.set_atoms.specs.AtomValue.{AtomValue};

    /// The static type of its set.
    type Static: StaticTables;

    /// The atom of the share, as clauses see it.
    ghost atom_of: { Self → AtomValue };

    /// What a list knows of its share, so that there can be more of them.
    ghost is_kept: { Self → Type 0 };

    /// Whether a dynamic text may have this word, by the text, the bits and the word.
    ghost is_ticket: { List ℕ → Option ℕ → ℕ → Type 0 };

    /// The text.
    fn text(&self) -> &str
        ensures { result.now ≡ (atom_of self.now).text };
}

/// A borrowed set to which shares without it are given back. It says nothing else about its shares, so that a list can be used where one that borrows
/// its set for a shorter time is asked for.
pub trait TakesBack<Bare>: Copy {
    /// Gives the share back, as its end with its set does: it never waits.
    fn take_back(self, bare: Bare);
}

/// A set whose shares can be kept without it.
pub trait ListedSet<Bare: BareText<Static = <Self::Held as HeldText>::Static>>: TextSet
    + TakesBack<Bare> {
    /// The share without its set. It isn't counted again.
    fn bare_of(held: Self::Held) -> Bare
        requires { IsOwnShare Self.Held.atom_of Self.Held.is_kept Self.Held.is_ticket held }
        ensures atom { Bare.atom_of result ≡ Self.Held.atom_of held }
        ensures own { IsOwnShare Bare.atom_of Bare.is_kept Bare.is_ticket result };

    /// The share with its set again, which is this one. It isn't counted again.
    fn again(self, bare: Bare) -> Self::Held
        requires { IsOwnShare Bare.atom_of Bare.is_kept Bare.is_ticket bare }
        ensures atom { Self.Held.atom_of result ≡ Bare.atom_of bare }
        ensures own { IsOwnShare Self.Held.atom_of Self.Held.is_kept Self.Held.is_ticket result };

    /// One more share of the same text, with its set, which is this one. It is refused as `clone_held` is.
    fn clone_bare<R: Wait>(self, rt: &R, bare: &Bare) -> Result<Self::Held, Fault>
        requires { IsOwnShare Bare.atom_of Bare.is_kept Bare.is_ticket bare.now }
        ensures atom { IfOk result (λ held. Self.Held.atom_of held ≡ Bare.atom_of bare.now) }
        ensures own { IfOk result (IsOwnShare Self.Held.atom_of Self.Held.is_kept Self.Held.is_ticket) }
        ensures full { IfErr result (λ fault. fault ≡ Fault.FullCount) };
}
