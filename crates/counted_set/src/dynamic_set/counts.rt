//! What a pass asks of the entries' counts.

use super::share::{Entry, Share};
use counted_cell::{AtLimit, Grant, NoShares};
use std::sync::Wait;

/// What `add` answers about an entry. An answer without a share has what shows why, and the grant, which wasn't spent.
#[derive(Drop)]
pub enum CountReply<S, D, F, G> {
    /// It has one more share, this one.
    Added(S),
    /// It has no share left, and gets none any more.
    Dying(D, G),
    /// It has as many shares as it may have.
    Full(F, G),
}

/// What a pass for a text finds. If it adds no share, it hands the grant back.
#[derive(Drop)]
pub enum Pass<S, G> {
    /// An entry of the text got one more share, this one.
    Found(S),
    /// An entry of the text has as many shares as it may have.
    Full(G),
    /// Each entry of the text is dying.
    Absent(G),
}

/// What is asked about the counts of entries. An addition takes a grant, and spends it or hands it back.
pub trait Counts<G: Grant> {
    ghost use Rattle.text_forms.specs.Pass.{PassReply};
    ghost use Rattle.counted_set.specs.Chain.{Linked};
    ghost use Rattle.counted_set.specs.Counted.{IfDying, IfFull, reply_by, reply_of};
    ghost use Rattle.std.specs.Prelude.{IfSome};

    /// What `add` gives.
    type Share;

    /// What shows that an entry has no share left, and will never have one: without it no entry is taken out.
    type Gone: Drop;

    /// What shows that an entry has as many shares as it may have.
    type Full: Drop;

    /// Which counts `add` and `dying` leave after which replies about an entry.
    ghost gives: { Self → Linked → PassReply Self.Share → Self → Type 0 };

    /// What shows that an entry has no share left.
    ghost shows_gone: { Linked → Self.Gone → Type 0 };

    /// What shows that an entry has as many shares as it may have.
    ghost shows_full: { Linked → Self.Full → Type 0 };

    /// Adds a share of the entry, unless it is dying or full.
    fn add<R: Wait>(
        &mut self,
        rt: &R,
        entry: &Entry,
        grant: G,
    ) -> CountReply<Self::Share, Self::Gone, Self::Full, G>
        requires { G.may entry.now.name }
        ensures gives { gives self.old entry.now (reply_of result) self.new }
        ensures dying { IfDying result (shows_gone entry.now) }
        ensures full { IfFull result (shows_full entry.now) };

    /// What shows that the entry has no share left, if it has none.
    fn dying(&mut self, entry: &Entry) -> Option<Self::Gone>
        ensures gives { gives self.old entry.now (reply_by result) self.new }
        ensures dying { IfSome result (shows_gone entry.now) };
}

/// The counts that the entries themselves have. A share of the entry is added by a single try, and if that gives none, as the entry's `add` does.
/// Each answer is about that entry's own cell.
#[derive(Drop)]
pub struct OwnCounts;

impl<G: Grant> Counts<G> for OwnCounts {
    ghost use Rattle.std.specs.Prelude.{◌≡◌};
    ghost use Rattle.counted_set.specs.Counted.{IfAdded};

    type Share = Share;

    type Gone = NoShares;

    type Full = AtLimit;

    ghost gives = { λ _ entry reply _. IfAdded reply (λ share. share ≡ entry) };

    ghost shows_gone = { λ entry none. none ≡ entry.name };

    ghost shows_full = { λ entry full. full ≡ entry.name };

    fn add<R: Wait>(
        &mut self,
        rt: &R,
        entry: &Entry,
        grant: G,
    ) -> CountReply<Share, NoShares, AtLimit, G> {
        // Another step seldom comes between, so nothing has to wait.
        let owner = entry.owner();
        match owner.try_add(grant.permit(owner)) {
            Ok(share) => CountReply::Added(Share::of_cell(share)),
            Err(permit) => entry.asked(rt, permit),
        }
    }

    fn dying(&mut self, entry: &Entry) -> Option<NoShares> {
        entry.dying()
    }
}
