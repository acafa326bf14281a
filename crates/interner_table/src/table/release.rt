//! Adds and takes holders by their words.

ghost use Rattle.std.specs.Prelude.{◌≡◌, ℕ, [], IfErr, IfOk, OnErr, List, true};
ghost use Rattle.text_forms.specs.declared.faults.Fault.TheVariants.{FullCount};
ghost use Rattle.interner_table.specs.Outcomes.{Cloned, Given};
ghost use Rattle.interner_table.specs.Table.{AreBothHeld, IsHeld, IsWordOf, in_some};

use super::{Table, is_fixed};
use std::hash::BuildHasher;
use text_forms::Fault;
use text_forms::static_sets::StaticTables;

impl<S: StaticTables, H: BuildHasher> Table<S, H> {
    ghost use Rattle.interner_table.specs.Kept.{map_of};

    /// Adds a holder to a word that is held. An inline word or a static word has no number of holders: nothing changes.
    ///
    /// `FullCount` if the ticket's text has as many holders as the limits allow. A refusal changes nothing.
    pub fn clone_word(&mut self, word: u64) -> Result<u64, Fault>
        requires { IsHeld S.tables (map_of self.old) word }
        ensures cloned { Cloned S.tables self.old word (in_some result) self.new }
        // Some of it again, in a form that a caller's proof finds by itself.
        ensures word { IfOk result (λ clone. clone ≡ word) }
        ensures held { IfOk result (λ clone. IsHeld S.tables (map_of self.new) clone) }
        ensures owned { (other : ℕ) (text : List ℕ) → IsWordOf S.tables (map_of self.old) text other → IsWordOf S.tables (map_of self.new) text other }
        ensures still { (other : ℕ) → IsHeld S.tables (map_of self.old) other → IsHeld S.tables (map_of self.new) other }
        ensures both { IfOk result (λ clone. (other : ℕ) → IsHeld S.tables (map_of self.old) other → AreBothHeld S.tables (map_of self.new) clone other) }
        ensures fault { IfErr result (λ fault. fault ≡ FullCount) }
        ensures err { OnErr result (self.new ≡ self.old) }
    {
        self.is_sound(); // as `both` says
        match self.clone_held(word)? {
            Some(clone) => Ok(clone),
            None => unreachable!(),
        }
    }

    /// Adds a holder to a word if it is held, as `clone_word` does. For any other number, returns `None` and changes nothing.
    ///
    /// `FullCount` if it is held, and its text has as many holders as the limits allow. A refusal changes nothing.
    #[tactic(auto, unfolding(crate::specs::Table::IsHeld))]
    pub fn clone_held(&mut self, word: u64) -> Result<Option<u64>, Fault>
        ensures cloned { Cloned S.tables self.old word result self.new }
        ensures fault { IfErr result (λ fault. fault ≡ FullCount) }
        ensures err { OnErr result (self.new ≡ self.old) }
    {
        self.is_sound(); // before and after, as `listed` and `apart` say
        if is_fixed::<S>(word) {
            return Ok(Some(word));
        }
        let Some(at) = self.place_of(word) else {
            return Ok(None);
        };
        let outcome = self.add_holder(at);
        self.is_sound();
        match outcome {
            Ok(clone) => Ok(Some(clone)),
            Err(fault) => Err(fault),
        }
    }

    /// Takes a holder from a word that is held. A ticket's text goes with its last holder; the bucket keeps its last serial, so that the ticket is
    /// never given again.
    pub fn give(&mut self, word: u64)
        requires { IsHeld S.tables (map_of self.old) word }
        ensures given { Given S.tables self.old word true self.new }
        // In a form that a caller's proof finds by itself.
        ensures left { (other : ℕ) → AreBothHeld S.tables (map_of self.old) other word → IsHeld S.tables (map_of self.new) other }
        ensures right { (other : ℕ) → AreBothHeld S.tables (map_of self.old) word other → IsHeld S.tables (map_of self.new) other }
    {
        let _ = self.release(word);
    }

    /// Takes a holder from a word if it is held, as `give` does, and returns `true`. For any other number, returns `false` and changes nothing.
    pub fn release(&mut self, word: u64) -> bool
        ensures { Given S.tables self.old word result self.new }
    {
        self.is_sound(); // before and after, as `keeps` and `apart` say
        if is_fixed::<S>(word) {
            return true;
        }
        let Some(at) = self.place_of(word) else {
            return false;
        };
        self.give_at(at);
        self.is_sound();
        true
    }

    /// Ends every entry, whoever holds it, and keeps room for as many. The memory of texts is given back. Each bucket keeps its last serial, so that
    /// no ticket is given again: the words that were handed out are no longer held, except inline and static ones.
    pub fn clear(&mut self)
        ensures { self.new ≡ record { limits = self.old.limits; lasts = self.old.lasts; pairs = [] } }
    {
        self.entries.clear();
        self.tickets.clear();
        self.bytes = 0;
    }
}
