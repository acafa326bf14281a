//! The names of a program, of kinds that can't be mixed up.

ghost use Rattle.std.specs.Prelude.{◌≡◌, ◌↔◌, ℕ, IfOk, IfSome, IsSome, IsTrue, MatchOption, OnErr, length};
ghost use Rattle.interner_table.specs.Kept.{map_of};
ghost use Rattle.interner_table.specs.Layout.{usual_buckets};
ghost use Rattle.interner_table.specs.Map.{empty_map};
ghost use Rattle.interner_table.specs.Table.{HasWord, IsHeld};
ghost use Rattle.interner_table.specs.Tables.{empty_tables};
ghost use Rattle.example_tables.specs.Lengths.{IsLengthOf};

use interner_table::Fault;
use interner_table::static_sets::EmptyStaticAtomSet;
use interner_table::table::{Name, Names, Table};
use std::alloc::Global;
use std::hash::RandomState;

/// Where a function is.
pub enum File {}

/// What is called.
pub enum Function {}

/// The names of a program.
#[derive(Drop)]
pub struct Program {
    files: Names<File>,
    functions: Names<Function>,
}

impl Program {
    /// A program without names. An outsider may write their texts, so they are found under these keys.
    pub fn new(alloc: Global, keys: RandomState) -> Result<Self, Fault>
        ensures files { IfOk result (λ program. map_of program.files.table ≡ empty_map usual_buckets) }
        ensures functions { IfOk result (λ program. map_of program.functions.table ≡ empty_map usual_buckets) }
    {
        Ok(Program {
            files: Names::new(alloc, keys)?,
            functions: Names::new(alloc, keys)?,
        })
    }

    /// A program with the names that two tables hold.
    pub fn of_tables(files: Table<EmptyStaticAtomSet>, functions: Table<EmptyStaticAtomSet>) -> Self
        ensures files { result.files.table ≡ files }
        ensures functions { result.functions.table ≡ functions }
    {
        Program {
            files: Names::of_table(files),
            functions: Names::of_table(functions),
        }
    }

    /// The names of a function and of the file that it is in. They aren't numbers that can be mistaken for each other.
    pub fn declare(
        &mut self,
        file: &str,
        function: &str,
    ) -> Result<(Name<File>, Name<Function>), Fault>
        ensures file { IfOk result (λ names. HasWord empty_tables (map_of self.new.files.table) file.now names.0.word) }
        ensures function { IfOk result (λ names. HasWord empty_tables (map_of self.new.functions.table) function.now names.1.word) }
    {
        Ok((self.files.intern(file)?, self.functions.intern(function)?))
    }

    /// The name of a function that was declared. `None` for a text that has none.
    pub fn function(&self, text: &str) -> Option<Name<Function>>
        ensures { MatchOption result ((word : ℕ) → ¬ (HasWord empty_tables (map_of self.now.functions.table) text.now word)) (λ name. HasWord empty_tables (map_of self.now.functions.table) text.now name.word) }
    {
        self.functions.get(text)
    }

    /// The name of a function, by its saved word. `None` for any other number.
    pub fn function_of_word(&self, word: u64) -> Option<Name<Function>>
        ensures held { IsSome result ↔ IsHeld empty_tables (map_of self.now.functions.table) word }
        ensures word { IfSome result (λ name. name.word ≡ word) }
    {
        self.functions.name_of(word)
    }

    /// The word of a function's name, for saving.
    pub fn word_of(function: Name<Function>) -> u64
        ensures { result ≡ function.word }
    {
        function.word()
    }

    /// The bytes of the text of a function's name. `None` if the function was forgotten.
    pub fn length_of(&self, function: Name<Function>) -> Option<usize>
        ensures { IsLengthOf empty_tables (map_of self.now.functions.table) function.word result }
    {
        match self.functions.text_of(function) {
            Some(text) => Some(text.as_str().len()),
            None => None,
        }
    }

    /// Declares a function once more, and returns whether it was there. It then has to be forgotten once more.
    #[tactic(auto, unfolding(interner_table::specs::Table::IsHeld))]
    pub fn declare_again(&mut self, function: Name<Function>) -> Result<bool, Fault>
        ensures held { IfOk result (λ there. IsTrue there ↔ IsHeld empty_tables (map_of self.old.functions.table) function.word) }
        ensures refused { OnErr result (self.new.functions.table ≡ self.old.functions.table) }
    {
        Ok(self.functions.clone_held(function)?.is_some())
    }

    /// Forgets a function that was declared, and returns whether it was there.
    pub fn forget(&mut self, function: Name<Function>) -> bool
        ensures { IsTrue result ↔ IsHeld empty_tables (map_of self.old.functions.table) function.word }
    {
        self.functions.release(function)
    }

    /// Forgets all functions. The files stay.
    pub fn forget_all(&mut self)
        ensures none { length self.new.functions.table.pairs ≡ 0 }
        ensures files { self.new.files.table ≡ self.old.files.table }
    {
        self.functions.clear();
    }

    /// The number of functions with names of more than 7 bytes.
    pub fn functions(&self) -> usize
        ensures { result ≡ length self.now.functions.table.pairs }
    {
        self.functions.table().entries()
    }
}
