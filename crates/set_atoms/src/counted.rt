//! The set without a name, as atoms use it, and its atoms.

ghost use Rattle.std.specs.Prelude.{◌≡◌, ◌↔◌, ◌%◌, ◌^◌, true, IsTrue, Some};
ghost use Rattle.counted_set.specs.Chain.{IsRight};
ghost use Rattle.set_atoms.specs.AtomValue.{IsTicketOfBits};

use crate::atom::{AtomKind, SetAtom};
use crate::form::Repr;
use crate::held::{BareText, HeldText, ListedSet, TakesBack, TextSet};
use counted_set::dynamic_set::{Held, HeldShare, Set};
use std::alloc::Global;
use std::sync::Wait;
use text_forms::Fault;
use text_forms::static_sets::StaticTables;
use text_forms::word::static_word;

impl<'s, Static: StaticTables> HeldText for Held<'s, Static> {
    type Static = Static;

    type Ahead = ();

    type Beside = u32;

    ghost atom_of = { λ held. record { text = held.text; word = held.ticket; bits = Some held.bits } };

    ghost is_kept = { λ held. IsRight Static.tables held × (held.name.grows ≡ true) };

    ghost is_ticket = { IsTicketOfBits Static.tables };

    #[inline]
    fn text(&self) -> &str {
        Held::text(self)
    }

    #[inline]
    fn word(&self) -> u64 {
        self.ticket()
    }

    #[inline]
    fn text_hash(&self) -> u64 {
        self.text_hash()
    }

    #[inline]
    fn try_clone(&self) -> Option<Self> {
        self.try_clone_share(self.permit()).ok()
    }

    #[inline]
    fn clone_held<R: Wait>(&self, rt: &R) -> Result<Self, Fault> {
        match self.clone_share(rt, self.permit()) {
            Ok(more) => Ok(more),
            Err(_) => Err(Fault::FullCount),
        }
    }
}

impl<'s, Static: StaticTables> TextSet for &'s Set<Static> {
    type Held = Held<'s, Static>;

    type Bare = HeldShare<Static>;

    fn allocator(self) -> Global {
        Set::allocator(self)
    }

    #[inline]
    fn intern<R: Wait>(self, rt: &R, text: &str, hash: u64) -> Result<Held<'s, Static>, Fault> {
        self.intern_hashed(rt, text, hash)
    }

    #[inline]
    fn find<R: Wait>(
        self,
        rt: &R,
        text: &str,
        hash: u64,
    ) -> Result<Option<Held<'s, Static>>, Fault> {
        self.find_hashed(rt, text, hash)
    }
}

impl<Static: StaticTables> BareText for HeldShare<Static> {
    type Static = Static;

    ghost atom_of = { λ bare. record { text = bare.text; word = bare.ticket; bits = Some bare.bits } };

    ghost is_kept = { λ bare. IsRight Static.tables bare × (bare.name.grows ≡ true) };

    ghost is_ticket = { IsTicketOfBits Static.tables };

    #[inline]
    fn text(&self) -> &str {
        HeldShare::text(self)
    }
}

impl<'s, Static: StaticTables> TakesBack<HeldShare<Static>> for &'s Set<Static> {
    #[inline]
    fn take_back(self, bare: HeldShare<Static>) {
        drop(Held::of_share(bare, self));
    }
}

impl<'s, Static: StaticTables> ListedSet<HeldShare<Static>> for &'s Set<Static> {
    #[inline]
    fn bare_of(held: Held<'s, Static>) -> HeldShare<Static> {
        held.into_share()
    }

    #[inline]
    fn again(self, bare: HeldShare<Static>) -> Held<'s, Static> {
        Held::of_share(bare, self)
    }

    #[inline]
    fn clone_bare<R: Wait>(
        self,
        rt: &R,
        bare: &HeldShare<Static>,
    ) -> Result<Held<'s, Static>, Fault> {
        match bare.clone_held(rt, self, bare.permit()) {
            Ok(more) => Ok(more),
            Err(_) => Err(Fault::FullCount),
        }
    }
}

impl<'s, Static: StaticTables> AtomKind for Held<'s, Static> {
    #[tactic(auto, using(crate::proofs::Words::own_word))]
    fn word_of(atom: &SetAtom<Self>) -> u64 {
        match &atom.form {
            Repr::Inline(text) => text.word(),
            Repr::Static(index) => static_word(*index),
            Repr::Dynamic(_, held) => held.ticket(),
        }
    }

    #[inline]
    #[tactic(auto, using(crate::proofs::Forms::words_tell))]
    fn have_one_text(one: &SetAtom<Self>, two: &SetAtom<Self>) -> bool {
        match (&one.form, &two.form) {
            (Repr::Inline(one), Repr::Inline(two)) => one.word() == two.word(),
            (Repr::Static(one), Repr::Static(two)) => one == two,
            (Repr::Dynamic(half, one), Repr::Dynamic(other_half, two)) => {
                half == other_half && one.text() == two.text()
            }
            _ => false,
        }
    }
}
