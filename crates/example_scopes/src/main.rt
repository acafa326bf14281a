//! The names of a C program, block by block: each with the line where it first occurs, and how often it occurs.
//!
//! A name belongs to the block that is open where it first occurs. When a block ends, one line tells its lines, and one more for each of its names,
//! in the order in which they occurred. Then they are released: the table holds the names in scope, and nothing else.
#![tactic(auto)]

mod letters;
mod scopes;

use letters::State;
use scopes::Scopes;
use std::alloc::Global;
use std::hash::RandomState;
use std::io::{Print, Read};

/// A text, as far as it was read.
#[derive(Drop)]
struct Reader {
    scopes: Scopes,
    state: State,
    /// Where the last name begins.
    begin: usize,
    line: u64,
}

impl Reader {
    /// Nothing was read.
    fn new(alloc: Global, keys: RandomState) -> Result<Self, anyhow::Error> {
        Ok(Reader {
            scopes: Scopes::new(alloc, keys)?,
            state: State::Between,
            begin: 0,
            line: 1,
        })
    }

    /// Reads the whole text, as a block in which the others are.
    fn read(&mut self, text: &str) -> Result<(), anyhow::Error> {
        self.scopes.open(self.line)?;
        for (at, letter) in text.char_indices() {
            self.pass(text, at, self.state.after(letter))?;
            self.mark(letter)?;
        }
        self.pass(text, text.len(), State::Between)?;
        self.scopes.end(self.line)?;
        Ok(())
    }

    /// Reads the whole text, and prints what is told about its names.
    fn print_names(&mut self, rt: &impl Print, text: &str) -> Result<(), anyhow::Error> {
        self.read(text)?;
        print!(rt; "{}", self.scopes.lines())?;
        Ok(())
    }

    /// Goes on to the next state at this place in the text: a name may begin there, and one that ends there is seen.
    fn pass(&mut self, text: &str, at: usize, next: State) -> Result<(), anyhow::Error> {
        let was_name = matches!(self.state, State::Name);
        let is_name = matches!(next, State::Name);
        self.state = next;
        if is_name && !was_name {
            self.begin = at;
        }
        if was_name && !is_name {
            let name = text.get(self.begin..at).unwrap_or("");
            return self.scopes.see(name, self.line);
        }
        Ok(())
    }

    /// Opens or closes a block, or begins a line, if the letter that was read last says so.
    fn mark(&mut self, letter: char) -> Result<(), anyhow::Error> {
        match (self.state, letter) {
            (State::Between, '{') => self.scopes.open(self.line)?,
            (State::Between, '}') => self.scopes.close(self.line)?,
            (_, '\n') => self.line = self.line.saturating_add(1),
            _ => {}
        }
        Ok(())
    }
}

/// Prints the lines about a text's names.
fn print_names(
    rt: &impl Print,
    alloc: Global,
    keys: RandomState,
    text: &str,
) -> Result<(), anyhow::Error> {
    let mut reader = Reader::new(alloc, keys)?;
    reader.print_names(rt, text)
}

fn main(rt: HostRuntime) -> Result<(), anyhow::Error> {
    let mut text = String::new(rt.alloc());
    rt.stdin().read_to_string(&mut text)?;
    print_names(&rt, rt.alloc(), RandomState::new(&rt)?, text.as_str())
}
