//! The set with a name, as atoms use it, and its atoms.

ghost use Rattle.std.specs.Prelude.{◌≡◌, ◌↔◌, true, length, IsTrue, None};
ghost use Rattle.named_set.specs.Words.{AreOneToOne, IsTicketOf};

use crate::atom::{AtomKind, NamedAtom, SetAtom};
use crate::form::Repr;
use crate::held::{BareText, HeldText, ListedSet, TakesBack, TextSet};
use named_set::{Held, HeldCell, HeldShare, NamedSet, SetName};
use std::alloc::Global;
use std::sync::Wait;
use text_forms::Fault;
use text_forms::static_sets::StaticTables;

impl<'s, Static: StaticTables, N: SetName> HeldText for HeldCell<'s, Static, N> {
    type Static = Static;

    type Ahead = u64;

    type Beside = ();

    ghost atom_of = { λ held. record { text = held.text; word = held.word; bits = None } };

    ghost is_kept = { λ held. held.name.grows ≡ true };

    ghost is_ticket = { λ text bits word. IsTicketOf Static.tables (length N.logs) text word };

    #[inline]
    fn text(&self) -> &str {
        HeldCell::text(self)
    }

    #[inline]
    fn word(&self) -> u64 {
        HeldCell::word(self)
    }

    #[inline]
    fn text_hash(&self) -> u64 {
        HeldCell::text_hash(self)
    }

    #[inline]
    fn try_clone(&self) -> Option<Self> {
        self.try_clone_held(self.permit()).ok()
    }

    #[inline]
    fn clone_held<R: Wait>(&self, rt: &R) -> Result<Self, Fault> {
        match HeldCell::clone_held(self, rt, self.permit()) {
            Ok(more) => Ok(more),
            Err(_) => Err(Fault::FullCount),
        }
    }
}

/// The cell of a held word, which is in the cell too.
#[inline]
fn cell_of<'s, Static: StaticTables, N: SetName>(
    held: Held<'s, Static, N>,
) -> HeldCell<'s, Static, N>
    ensures { result ≡ held.entry }
{
    let (_, cell) = held.into_parts();
    cell
}

impl<'s, Static: StaticTables, N: SetName> TextSet for &'s NamedSet<Static, N> {
    type Held = HeldCell<'s, Static, N>;

    type Bare = HeldShare<Static, N>;

    fn allocator(self) -> Global {
        NamedSet::allocator(self)
    }

    #[inline]
    fn intern<R: Wait>(
        self,
        rt: &R,
        text: &str,
        hash: u64,
    ) -> Result<HeldCell<'s, Static, N>, Fault> {
        let held = self.intern_hashed(rt, text, hash)?;
        Ok(cell_of(held))
    }

    #[inline]
    fn find<R: Wait>(
        self,
        rt: &R,
        text: &str,
        hash: u64,
    ) -> Result<Option<HeldCell<'s, Static, N>>, Fault> {
        match self.find_hashed(rt, text, hash)? {
            Some(held) => Ok(Some(cell_of(held))),
            None => Ok(None),
        }
    }
}

impl<Static: StaticTables, N: SetName> BareText for HeldShare<Static, N> {
    type Static = Static;

    ghost atom_of = { λ bare. record { text = bare.text; word = bare.word; bits = None } };

    ghost is_kept = { λ bare. bare.name.grows ≡ true };

    ghost is_ticket = { λ text bits word. IsTicketOf Static.tables (length N.logs) text word };

    #[inline]
    fn text(&self) -> &str {
        HeldShare::text(self)
    }
}

impl<'s, Static: StaticTables, N: SetName> TakesBack<HeldShare<Static, N>>
    for &'s NamedSet<Static, N> {
    #[inline]
    fn take_back(self, bare: HeldShare<Static, N>) {
        drop(HeldCell::of_share(bare, self));
    }
}

impl<'s, Static: StaticTables, N: SetName> ListedSet<HeldShare<Static, N>>
    for &'s NamedSet<Static, N> {
    #[inline]
    fn bare_of(held: HeldCell<'s, Static, N>) -> HeldShare<Static, N> {
        held.into_share()
    }

    #[inline]
    fn again(self, bare: HeldShare<Static, N>) -> HeldCell<'s, Static, N> {
        HeldCell::of_share(bare, self)
    }

    #[inline]
    fn clone_bare<R: Wait>(
        self,
        rt: &R,
        bare: &HeldShare<Static, N>,
    ) -> Result<HeldCell<'s, Static, N>, Fault> {
        match bare.clone_held(rt, self, bare.permit()) {
            Ok(more) => Ok(more),
            Err(_) => Err(Fault::FullCount),
        }
    }
}

impl<'s, Static: StaticTables, N: SetName> AtomKind for HeldCell<'s, Static, N> {
    // It is ahead of the form.
    #[inline]
    #[tactic(auto, using(crate::proofs::Words::own_word))]
    fn word_of(atom: &SetAtom<Self>) -> u64 {
        atom.ahead
    }

    #[inline]
    fn have_one_text(one: &SetAtom<Self>, two: &SetAtom<Self>) -> bool {
        one.agree(two);
        one.ahead == two.ahead
    }
}

impl<'s, Static: StaticTables, N: SetName> NamedAtom<'s, Static, N> {
    /// A law: two atoms of one set have the same word exactly if they have the same text, in any of the forms. It does nothing when it runs.
    #[inline]
    #[tactic(auto, using(crate::proofs::Words::words_agree))]
    pub fn agree<'t>(&self, other: &NamedAtom<'t, Static, N>)
        ensures { AreOneToOne self.now.word other.now.word self.now.text other.now.text }
    {
        if let (Repr::Dynamic(_, one), Repr::Dynamic(_, two)) = (&self.form, &other.form) {
            one.agree(two);
        }
    }
}
