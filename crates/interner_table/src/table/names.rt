//! A table for one kind of name.

ghost use Rattle.std.specs.Prelude.{◌≡◌, ◌-◌, ℕ, [], ◌↔◌, IfErr, IfOk, IfSome, IsSome, List, MatchOption, OnErr};
ghost use Rattle.std.specs.Str.{IsUtf8};
ghost use Rattle.text_forms.specs.Faults.{IsInternFault};
ghost use Rattle.text_forms.specs.declared.faults.Fault.TheVariants.{FullCount, Memory};
ghost use Rattle.text_forms.specs.Layout.{holder_bound, serial_bound, usual_buckets};
ghost use Rattle.text_forms.specs.Map.{empty_map};
ghost use Rattle.interner_table.specs.Outcomes.{Cloned, Given, Interned};
ghost use Rattle.interner_table.specs.Table.{AreBothHeld, HasWord, IsHeld, IsWordOf};

use super::{Name, Table, WordText};
use std::alloc::Global;
use std::hash::{BuildHasher, RandomState};
use std::marker::PhantomData;
use text_forms::Fault;
use text_forms::static_sets::{EmptyStaticAtomSet, StaticTables};

/// The names of one kind, as a table keeps them: their words are `Name<K>`. If there are two tables, say one of files and one of functions, a name of
/// one can't be passed to the other. `H` is the table's, by default the one for texts that an outsider may write.
#[derive(Drop)]
pub struct Names<K, S: StaticTables = EmptyStaticAtomSet, H: BuildHasher = RandomState> {
    table: Table<S, H>,
    kind: PhantomData<K>,
}

impl<K, S: StaticTables, H: BuildHasher + Drop> Names<K, S, H> {
    ghost use Rattle.interner_table.specs.Kept.{map_of};

    /// No names yet, in a table with this hasher. `Memory` if there is no room for the table's buckets.
    pub fn new(alloc: Global, hasher: H) -> Result<Self, Fault>
        ensures empty { IfOk result (λ names. map_of names.table ≡ empty_map usual_buckets) }
        ensures limits { IfOk result (λ names. names.table.limits ≡ record { holders = holder_bound - 1; serials = serial_bound - 1 }) }
        ensures fault { IfErr result (λ fault. fault ≡ Memory) }
    {
        Ok(Names::of_table(Table::new(alloc, hasher)?))
    }
}

impl<K, S: StaticTables, H: BuildHasher> Names<K, S, H> {
    ghost use Rattle.interner_table.specs.Kept.{map_of};
    ghost use Rattle.interner_table.specs.Name.{word_in, word_in_some};
    ghost use Rattle.interner_table.specs.WordText.{text_in};

    /// The names that a table holds, with its limits. `name_of` takes the words that it gave out.
    pub fn of_table(table: Table<S, H>) -> Self
        ensures { result.table ≡ table }
    {
        Names {
            table,
            kind: PhantomData,
        }
    }

    /// The table, for reading: its numbers, and each text by `iter`.
    pub fn table(&self) -> &Table<S, H>
        ensures { result.now ≡ self.now.table }
    {
        &self.table
    }

    /// The name of a text, as `Table::intern` gives its word: a dynamic text gets one more holder.
    ///
    /// `FullCount`, `TicketsSpent` and `Memory` are returned as there. A refusal changes nothing.
    pub fn intern(&mut self, text: &str) -> Result<Name<K>, Fault>
        ensures interned { Interned S.tables self.old.table text.now (word_in result) self.new.table }
        // Some of it again, in a form that a caller's proof finds by itself.
        ensures own { IfOk result (λ name. IsWordOf S.tables (map_of self.new.table) text.now name.word) }
        ensures same { IfOk result (λ name. (other : ℕ) (also : List ℕ) → IsWordOf S.tables (map_of self.old.table) also other → (name.word ≡ other) ↔ (text.now ≡ also)) }
        ensures owned { (other : ℕ) (also : List ℕ) → IsWordOf S.tables (map_of self.old.table) also other → IsWordOf S.tables (map_of self.new.table) also other }
        ensures still { (other : ℕ) → IsHeld S.tables (map_of self.old.table) other → IsHeld S.tables (map_of self.new.table) other }
        ensures both { IfOk result (λ name. (other : ℕ) → IsHeld S.tables (map_of self.old.table) other → AreBothHeld S.tables (map_of self.new.table) name.word other) }
        ensures fault { IfErr result IsInternFault }
        ensures err { OnErr result (self.new.table ≡ self.old.table) }
    {
        let word = self.table.intern(text)?;
        Ok(Name {
            word,
            kind: PhantomData,
        })
    }

    /// The name of a text that has one, as `Table::get` finds its word. No holder is added.
    pub fn get(&self, text: &str) -> Option<Name<K>>
        ensures word { MatchOption result ((word : ℕ) → ¬ (HasWord S.tables (map_of self.now.table) text.now word)) (λ name. HasWord S.tables (map_of self.now.table) text.now name.word) }
        ensures held { IfSome result (λ name. IsHeld S.tables (map_of self.now.table) name.word) }
    {
        let word = self.table.get(text)?;
        Some(Name {
            word,
            kind: PhantomData,
        })
    }

    /// The name with a word that is held. `None` for any other number.
    pub fn name_of(&self, word: u64) -> Option<Name<K>>
        ensures held { IsSome result ↔ IsHeld S.tables (map_of self.now.table) word }
        ensures word { IfSome result (λ name. name.word ≡ word) }
    {
        if !self.table.holds(word) {
            return None;
        }
        Some(Name {
            word,
            kind: PhantomData,
        })
    }

    /// The text of a name. `None` exactly if its word isn't held here: a name of another table has the text that its word has here, and an inline or
    /// static one always has its text.
    pub fn text_of(&self, name: Name<K>) -> Option<WordText<'_>>
        ensures held { IsSome result ↔ IsHeld S.tables (map_of self.now.table) name.word }
        ensures word { IfSome result (λ lent. HasWord S.tables (map_of self.now.table) (text_in lent) name.word) }
        ensures same { IfSome result (λ lent. (text : List ℕ) → IsUtf8 text → HasWord S.tables (map_of self.now.table) text name.word → text_in lent ≡ text) }
    {
        self.table.text_of(name.word)
    }

    /// Adds a holder to a name that is held. For any other, returns `None` and changes nothing.
    ///
    /// Returns `FullCount` as `Table::clone_held` does. A refusal changes nothing.
    pub fn clone_held(&mut self, name: Name<K>) -> Result<Option<Name<K>>, Fault>
        ensures cloned { Cloned S.tables self.old.table name.word (word_in_some result) self.new.table }
        ensures fault { IfErr result (λ fault. fault ≡ FullCount) }
        ensures err { OnErr result (self.new.table ≡ self.old.table) }
    {
        match self.table.clone_held(name.word) {
            Ok(Some(_)) => Ok(Some(name)),
            Ok(None) => Ok(None),
            Err(fault) => Err(fault),
        }
    }

    /// Takes a holder from a name that is held, and returns `true`. For any other, returns `false` and changes nothing.
    pub fn release(&mut self, name: Name<K>) -> bool
        ensures { Given S.tables self.old.table name.word result self.new.table }
    {
        self.table.release(name.word)
    }

    /// Ends every entry, as `Table::clear` does.
    pub fn clear(&mut self)
        ensures { self.new.table ≡ record { limits = self.old.table.limits; lasts = self.old.table.lasts; pairs = [] } }
    {
        self.table.clear();
    }
}
