//! Names in nested blocks.

use crate::letters::is_keyword;
use indexmap::IndexMap;
use interner_table::Fault;
use interner_table::static_sets::EmptyStaticAtomSet;
use interner_table::table::Table;
use std::alloc::{AllocError, Global};
use std::fmt;
use std::fmt::Write;
use std::hash::RandomState;

/// What is known about a name.
#[derive(Clone, Copy)]
struct Usage {
    /// Where it first occurred.
    line: u64,
    /// How often it occurred.
    times: u64,
}

/// An open block, with the names that first occurred in it.
#[derive(Drop)]
struct Scope {
    /// Where it begins.
    line: u64,
    /// By their words, each of which the table holds once. The word of a short name is its letters, so the map hashes under keys too.
    names: IndexMap<u64, Usage, RandomState>,
}

impl Scope {
    /// Counts a name once more. `false` if this block doesn't have it.
    fn count(&mut self, word: u64) -> bool {
        let Some(usage) = self.names.get_mut(&word) else {
            return false;
        };
        usage.times = usage.times.saturating_add(1);
        true
    }
}

/// The blocks that are open, and what is told about those that ended.
#[derive(Drop)]
pub struct Scopes {
    alloc: Global,
    keys: RandomState,
    table: Table<EmptyStaticAtomSet>,
    open: Vec<Scope>,
    lines: String,
}

impl Scopes {
    /// No blocks. Whoever wrote the program chose its names, so the table and the blocks find them under these keys.
    pub fn new(alloc: Global, keys: RandomState) -> Result<Self, Fault> {
        Ok(Scopes {
            alloc,
            keys,
            table: Table::new(alloc, keys)?,
            open: Vec::new(alloc),
            lines: String::new(alloc),
        })
    }

    /// What is told about the blocks that ended.
    pub fn lines(&self) -> &str {
        self.lines.as_str()
    }

    /// A block begins in this line.
    pub fn open(&mut self, line: u64) -> Result<(), AllocError> {
        let names = IndexMap::with_hasher(self.alloc, self.keys);
        self.open.push(Scope { line, names })?;
        Ok(())
    }

    /// A name occurs in this line: once more in the block that has it, or for the first time in the innermost one.
    pub fn see(&mut self, name: &str, line: u64) -> Result<(), anyhow::Error> {
        if is_keyword(name) {
            return Ok(());
        }
        if let Some(word) = self.table.get(name) {
            if self.count(word) {
                return Ok(());
            }
        }
        let word = self.table.intern(name)?;
        if let Some(scope) = self.open.last_mut() {
            scope.names.insert(word, Usage { line, times: 1 })?;
        }
        Ok(())
    }

    /// Counts a name once more, in the innermost block that has it. `false` if none has.
    fn count(&mut self, word: u64) -> bool {
        for scope in self.open.iter_mut().rev() {
            if scope.count(word) {
                return true;
            }
        }
        false
    }

    /// The innermost block ends in this line. An end without a block is ignored.
    pub fn close(&mut self, line: u64) -> Result<(), anyhow::Error> {
        if self.open.len() > 1 {
            self.end_last(line)?;
        }
        Ok(())
    }

    /// The text ends in this line, and so does each block that is still open, the innermost first.
    pub fn end(&mut self, line: u64) -> fmt::Result {
        for _ in 0..self.open.len() {
            self.end_last(line)?;
        }
        Ok(())
    }

    /// Lists the names of the innermost block, and gives them up.
    fn end_last(&mut self, line: u64) -> fmt::Result {
        match self.open.pop() {
            Some(scope) => self.tell(&scope, line),
            None => Ok(()),
        }
    }

    /// Lists the names of a block that ends in this line, and gives them up.
    fn tell(&mut self, scope: &Scope, line: u64) -> fmt::Result {
        if !scope.names.is_empty() {
            writeln!(self.lines, "lines {} to {line}", scope.line)?;
        }
        for (word, usage) in scope.names.iter() {
            self.tell_name(*word, usage)?;
        }
        Ok(())
    }

    /// Lists a name, and gives it up.
    fn tell_name(&mut self, word: u64, usage: &Usage) -> fmt::Result {
        if let Some(name) = self.table.text_of(word) {
            writeln!(self.lines, "  {name} {} {}", usage.line, usage.times)?;
        }
        self.table.release(word);
        Ok(())
    }
}
