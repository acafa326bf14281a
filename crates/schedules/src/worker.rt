//! A thread's atoms and its list, and the calls that it makes one after another.

use crate::calls::{Answer, Begun, Call, Done, Listed, Whole};
use crate::seen::Seen;
use crate::sets::Shared;
use crate::texts::{Case, Word};
use serde_json::Value;
use std::alloc::Global;
use std::mem;
use std::sync::Wait;
use std::sync::atomic::{AtomicU64, Ordering};
use string_cache::Fault;

/// The most atoms, places of its list and calls of a thread for which it has room before it begins.
const ROOM: usize = 8;

/// An atom, and the word that it should have.
#[derive(Drop)]
struct Kept<S: Shared> {
    atom: S::Atom,
    word: Word,
}

impl<S: Shared> Kept<S> {
    /// Its ticket, and whether it has its text.
    fn answer(&self) -> Answer {
        let (ticket, is_right) = S::ticket(&self.atom, self.word.as_str());
        if is_right {
            Answer::Ticket(ticket)
        } else {
            Answer::OtherText(ticket)
        }
    }
}

#[derive(Drop)]
pub struct Worker<'c, S: Shared> {
    alloc: Global,
    set: S,
    clock: &'c AtomicU64,
    thread: u64,
    atoms: Vec<Kept<S>>,
    list: S::List,
    /// The word that each place of the list should have.
    listed: Vec<Word>,
    done: Vec<Done>,
}

impl<'c, S: Shared> Worker<'c, S> {
    /// A worker without atoms, whose list is empty.
    pub fn new(
        alloc: Global,
        set: S,
        clock: &'c AtomicU64,
        thread: u64,
    ) -> Result<Worker<'c, S>, Fault> {
        Ok(Worker {
            alloc,
            set,
            clock,
            thread,
            atoms: Vec::with_capacity(alloc, ROOM)?,
            list: set.list(),
            listed: Vec::with_capacity(alloc, ROOM)?,
            done: Vec::with_capacity(alloc, ROOM)?,
        })
    }

    /// Makes the calls of these letters, then drops the atoms that are left, the newest first, and ends the list. Returns what each call returned.
    pub fn work<R: Wait>(mut self, rt: &R, letters: &str) -> Result<Vec<Done>, Fault> {
        self.make_all(rt, letters)?;
        self.let_all_go()?;
        self.end_list()?;
        Ok(self.done)
    }

    /// Makes the calls of these letters, up to the first one that stands for none.
    pub fn make_all<R: Wait>(&mut self, rt: &R, letters: &str) -> Result<(), Fault> {
        for letter in letters.bytes() {
            match Call::of_letter(letter) {
                Some(call) => self.make(rt, call)?,
                None => break,
            }
        }
        Ok(())
    }

    /// Drops its atoms, the newest first.
    fn let_all_go(&mut self) -> Result<(), Fault> {
        for _ in 0..self.atoms.len() {
            self.let_go()?;
        }
        Ok(())
    }

    /// Makes one call. One on an atom, or on a place of the list, isn't made if there is none.
    fn make<R: Wait>(&mut self, rt: &R, call: Call) -> Result<(), Fault> {
        match call {
            Call::Intern(word) => self.intern(rt, word),
            Call::Read(word) => self.read(rt, word),
            Call::Find(word) => self.find(rt, word),
            Call::Again(case) => self.renew(rt, case),
            Call::Drop => self.let_go(),
            Call::Push(word) => self.push(rt, word),
            Call::Listed(Listed::Copy) => self.copy(rt),
            Call::Listed(Listed::Pop) => self.pop(),
            Call::Listed(Listed::Clear) => self.clear(),
            Call::Whole(call) => self.ask(rt, call),
        }
    }

    /// Marks that a call begins or ends.
    fn tick(&self) -> u64 {
        self.clock.fetch_add(1, Ordering::SeqCst)
    }

    /// Marks that a call begins. `text` is what it is made on or asks for.
    fn begin(&self, call: &'static str, text: &'static str) -> Begun {
        Begun {
            call,
            text,
            at: self.tick(),
        }
    }

    /// Marks that a call ends, and notes what it returned.
    fn end(&mut self, begun: Begun, answer: Answer) -> Result<(), Fault> {
        let done = Done {
            thread: self.thread,
            begun,
            ended: self.tick(),
            answer,
        };
        self.done.push(done)?;
        Ok(())
    }

    /// Ends a call that was to give an atom of the word, and keeps the atom.
    fn keep(
        &mut self,
        begun: Begun,
        word: Word,
        given: Result<S::Atom, Fault>,
    ) -> Result<(), Fault> {
        match given {
            Ok(atom) => self.keep_atom(begun, Kept { atom, word }),
            Err(fault) => self.end(begun, Answer::Fault(fault)),
        }
    }

    /// Ends a call that was to give an atom of the word or none, and keeps the atom.
    fn keep_found(
        &mut self,
        begun: Begun,
        word: Word,
        found: Result<Option<S::Atom>, Fault>,
    ) -> Result<(), Fault> {
        match found {
            Ok(None) => self.end(begun, Answer::Absent),
            Ok(Some(atom)) => self.keep_atom(begun, Kept { atom, word }),
            Err(fault) => self.end(begun, Answer::Fault(fault)),
        }
    }

    /// Keeps the atom that a call gave, and ends the call.
    fn keep_atom(&mut self, begun: Begun, kept: Kept<S>) -> Result<(), Fault> {
        let answer = kept.answer();
        self.atoms.push(kept)?;
        self.end(begun, answer)
    }

    fn intern<R: Wait>(&mut self, rt: &R, word: Word) -> Result<(), Fault> {
        let begun = self.begin("intern", word.as_str());
        let given = self.set.intern(rt, begun.text);
        self.keep(begun, word, given)
    }

    fn read<R: Wait>(&mut self, rt: &R, word: Word) -> Result<(), Fault> {
        let text = String::from_str(self.alloc, word.as_str())?;
        self.read_value(rt, word, &Value::String(text))
    }

    /// Interns the word that a JSON value has.
    fn read_value<R: Wait>(&mut self, rt: &R, word: Word, value: &Value) -> Result<(), Fault> {
        let begun = self.begin("read", word.as_str());
        let given = self.set.read(rt, value);
        self.keep(begun, word, given)
    }

    fn find<R: Wait>(&mut self, rt: &R, word: Word) -> Result<(), Fault> {
        let begun = self.begin("find", word.as_str());
        let found = self.set.find(rt, begun.text);
        self.keep_found(begun, word, found)
    }

    /// Makes another atom from the newest one: of its text in this case, or a clone.
    fn renew<R: Wait>(&mut self, rt: &R, case: Option<Case>) -> Result<(), Fault> {
        let Some(Kept { atom, word }) = self.atoms.last() else {
            return Ok(());
        };
        let word = *word;
        let begun = self.begin(name_of(case), word.as_str());
        let given = self.set.again(rt, atom, case);
        self.keep(begun, word.again(case), given)
    }

    fn let_go(&mut self) -> Result<(), Fault> {
        let Some(kept) = self.atoms.pop() else {
            return Ok(());
        };
        let answer = kept.answer();
        let begun = self.begin("drop", kept.word.as_str());
        drop(kept);
        self.end(begun, answer)
    }

    fn push<R: Wait>(&mut self, rt: &R, word: Word) -> Result<(), Fault> {
        let begun = self.begin("push", word.as_str());
        match S::push(rt, &mut self.list, begun.text) {
            Ok(()) => {
                self.listed.push(word)?;
                self.end(begun, Answer::Nothing)
            }
            Err(fault) => self.end(begun, Answer::Fault(fault)),
        }
    }

    fn copy<R: Wait>(&mut self, rt: &R) -> Result<(), Fault> {
        let Some(word) = self.listed.last() else {
            return Ok(());
        };
        let word = *word;
        let begun = self.begin("copy", word.as_str());
        let copied = S::copy(rt, &self.list);
        self.keep_found(begun, word, copied)
    }

    fn pop(&mut self) -> Result<(), Fault> {
        let Some(word) = self.listed.pop() else {
            return Ok(());
        };
        let begun = self.begin("pop", word.as_str());
        let popped = S::pop(&mut self.list);
        self.keep_found(begun, word, Ok(popped))
    }

    fn clear(&mut self) -> Result<(), Fault> {
        if self.listed.is_empty() {
            return Ok(());
        }
        let begun = self.begin("clear", "-");
        S::clear(&mut self.list);
        self.end_each(begun)
    }

    /// Ends the list, if it isn't empty, and begins a new one.
    fn end_list(&mut self) -> Result<(), Fault> {
        if self.listed.is_empty() {
            return Ok(());
        }
        let list = mem::replace(&mut self.list, self.set.list());
        let begun = self.begin("end", "-");
        drop(list);
        self.end_each(begun)
    }

    /// Ends a call that let all places of the list go. It is noted as a call for each, from the last to the first.
    fn end_each(&mut self, begun: Begun) -> Result<(), Fault> {
        let ended = self.tick();
        for _ in 0..self.listed.len() {
            self.note_place(begun, ended)?;
        }
        Ok(())
    }

    /// Notes that the last place of the list went in a call.
    fn note_place(&mut self, begun: Begun, ended: u64) -> Result<(), Fault> {
        let Some(word) = self.listed.pop() else {
            return Ok(());
        };
        let text = word.as_str();
        let done = Done {
            thread: self.thread,
            begun: Begun { text, ..begun },
            ended,
            answer: Answer::Nothing,
        };
        self.done.push(done)?;
        Ok(())
    }

    /// Makes a call on the whole set.
    fn ask<R: Wait>(&mut self, rt: &R, call: Whole) -> Result<(), Fault> {
        let begun = self.begin(call.name(), "-");
        let answer = ask_set(rt, self.set, call);
        self.end(begun, answer)
    }
}

/// The name of the call that makes an atom of another one's text in this case, or a clone of it.
fn name_of(case: Option<Case>) -> &'static str {
    match case {
        None => "clone",
        Some(Case::Lower) => "lower",
        Some(Case::Upper) => "upper",
    }
}

/// What a call on the whole set returns.
fn ask_set<S: Shared, R: Wait>(rt: &R, set: S, call: Whole) -> Answer {
    match call {
        Whole::Sweep => {
            set.sweep(rt);
            Answer::Nothing
        }
        Whole::Linked => Answer::Linked(set.linked(rt)),
        Whole::Visit => {
            let mut seen = Seen::nothing();
            set.visit(rt, &mut seen);
            seen.answer()
        }
        Whole::Memory => {
            set.measure(rt);
            Answer::Nothing
        }
    }
}
