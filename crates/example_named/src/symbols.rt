//! A compiler's symbols: what names stand for, by their words.

ghost use Rattle.std.specs.Prelude.{◌≡◌, ◌≢◌, ℕ, List, [], IfErr, IfOk, None, OnErr, OnOk, Some, string_bytes};
ghost use Rattle.text_forms.specs.declared.faults.Fault.TheVariants.{Memory};
ghost use Rattle.example_named.specs.Symbols.{HasOnly, IsFound, IsUndeclared, number_at};

use crate::{Texts, Word};
use named_set::{FreshName, NamedSet, SetName};
use std::alloc::Global;
use std::collections::HashMap;
use std::hash::RandomState;
use std::marker::{Brand, Model};
use std::sync::Wait;
use std::thread::{self, Threads};
use text_forms::Fault;
use text_forms::word::Limits;

/// What names stand for. It is a map by words: a call hashes one number and compares it, and reads no text. It hashes under random keys: under a
/// fixed seed, names whose words collide can be chosen. In a clause it is what is declared: each name as a held word, with what it stands for.
#[derive(Drop)]
pub struct Symbols<'s, N: SetName> {
    numbers: HashMap<Word<'s, N>, u32, RandomState>,
}

impl<'s, N: SetName> Model for Symbols<'s, N> {
    ghost use Rattle.example_named.specs.Symbols.{Declared};

    ghost Value = { Declared };

    ghost view = { λ s. s.numbers.entries };
}

impl<'s, N: SetName> Symbols<'s, N> {
    /// Symbols without names, in a map under these keys. A program draws them once, by `RandomState::new(&rt)`.
    pub fn new(alloc: Global, keys: RandomState) -> Self
        ensures { result ≡ [] }
    {
        Symbols {
            numbers: HashMap::with_hasher(alloc, keys),
        }
    }

    /// Declares a name, and holds its word. A name that is already declared stands for this number from now on. The only error is `Memory`, and then
    /// nothing changes.
    pub fn declare(&mut self, name: Word<'s, N>, number: u32) -> Result<(), Fault>
        ensures number { OnOk result (number_at self.new name.entry.word ≡ Some number) }
        ensures others { OnOk result ((word : ℕ) → word ≢ name.entry.word → number_at self.new word ≡ number_at self.old word) }
        ensures undeclared { OnOk result ((text : List ℕ) → text ≢ name.entry.text → IsUndeclared self.old text → IsUndeclared self.new text) }
        ensures kept { OnErr result (self.new ≡ self.old) }
        ensures refused { IfErr result (λ fault. fault ≡ Memory) }
    {
        self.numbers.insert(name, number)?;
        Ok(())
    }

    /// What a word stands for. `None` if no name has the word's text.
    pub fn look_up(&self, name: &Word<N>) -> Option<u32>
        ensures number { result ≡ number_at self.now name.now.word }
        ensures undeclared { IsUndeclared self.now name.now.text → result ≡ None }
    {
        match self.numbers.get_key_value(name) {
            Some((declared, number)) => {
                declared.agree(name);
                Some(*number)
            }
            None => None,
        }
    }
}

/// Declares one text in symbols without names, whose map is under these keys, and looks up another: it is found exactly if the two are the same text.
pub fn declare_and_look_up<R: Wait>(
    rt: &R,
    alloc: Global,
    keys: RandomState,
    declared: &String,
    number: u32,
    asked: &String,
) -> Result<Option<u32>, Fault>
    ensures { IfOk result (λ found. IsFound (string_bytes declared.now) (Some number) (string_bytes asked.now) found) }
{
    let name = FreshName::usual(alloc)?;
    declare_and_look_up_named::<Brand, R>(rt, alloc, keys, name, declared, number, asked)
}

// The same, in the set with this name.
fn declare_and_look_up_named<N: SetName, R: Wait>(
    rt: &R,
    alloc: Global,
    keys: RandomState,
    name: FreshName,
    declared: &String,
    number: u32,
    asked: &String,
) -> Result<Option<u32>, Fault>
    requires { N.logs ≡ name.logs }
    ensures { IfOk result (λ found. IsFound (string_bytes declared.now) (Some number) (string_bytes asked.now) found) }
{
    let set = NamedSet::new(alloc, name, Limits::greatest())?;
    declare_and_look_up_in::<N, R>(
        rt,
        alloc,
        keys,
        &set,
        declared.as_str(),
        number,
        asked.as_str(),
    )
}

// The same, in this set.
fn declare_and_look_up_in<N: SetName, R: Wait>(
    rt: &R,
    alloc: Global,
    keys: RandomState,
    set: &Texts<N>,
    declared: &str,
    number: u32,
    asked: &str,
) -> Result<Option<u32>, Fault>
    ensures { IfOk result (λ found. IsFound declared.now (Some number) asked.now found) }
{
    let declared = set.intern(rt, declared)?;
    let asked = set.intern(rt, asked)?;
    let found = look_up_beside(alloc, keys, declared, number, &asked)?;
    Ok(found)
}

/// The same, but two threads intern the two texts at once.
pub fn declare_and_look_up_by_threads<R: Threads + Wait + Sync>(
    rt: &R,
    alloc: Global,
    keys: RandomState,
    declared: &String,
    number: u32,
    asked: &String,
) -> Result<Option<u32>, Fault>
    ensures { IfOk result (λ found. IsFound (string_bytes declared.now) (Some number) (string_bytes asked.now) found) }
{
    let name = FreshName::usual(alloc)?;
    declare_and_look_up_by_threads_named::<Brand, R>(rt, alloc, keys, name, declared, number, asked)
}

// The same, in the set with this name.
fn declare_and_look_up_by_threads_named<N: SetName + Send + Sync, R: Threads + Wait + Sync>(
    rt: &R,
    alloc: Global,
    keys: RandomState,
    name: FreshName,
    declared: &String,
    number: u32,
    asked: &String,
) -> Result<Option<u32>, Fault>
    requires { N.logs ≡ name.logs }
    ensures { IfOk result (λ found. IsFound (string_bytes declared.now) (Some number) (string_bytes asked.now) found) }
{
    let set = NamedSet::new(alloc, name, Limits::greatest())?;
    declare_and_look_up_by_threads_in::<N, R>(
        rt,
        alloc,
        keys,
        &set,
        declared.as_str(),
        number,
        asked.as_str(),
    )
}

// The same, in this set.
fn declare_and_look_up_by_threads_in<N: SetName + Send + Sync, R: Threads + Wait + Sync>(
    rt: &R,
    alloc: Global,
    keys: RandomState,
    set: &Texts<N>,
    declared: &str,
    number: u32,
    asked: &str,
) -> Result<Option<u32>, Fault>
    ensures { IfOk result (λ found. IsFound declared.now (Some number) asked.now found) }
{
    let (declared, asked) = thread::join(rt, || set.intern(rt, declared), || set.intern(rt, asked));
    let declared = declared?;
    let asked = asked?;
    let found = look_up_beside(alloc, keys, declared, number, &asked)?;
    Ok(found)
}

// Declares one word in symbols without names, and looks up another.
fn look_up_beside<N: SetName>(
    alloc: Global,
    keys: RandomState,
    declared: Word<N>,
    number: u32,
    asked: &Word<N>,
) -> Result<Option<u32>, Fault>
    ensures { IfOk result (λ found. IsFound declared.entry.text (Some number) asked.now.text found) }
{
    declared.agree(asked);
    let symbols = only(alloc, keys, declared, number)?;
    Ok(symbols.look_up(asked))
}

/// Symbols with one name.
pub(crate) fn only<'s, N: SetName>(
    alloc: Global,
    keys: RandomState,
    name: Word<'s, N>,
    number: u32,
) -> Result<Symbols<'s, N>, Fault>
    ensures number { IfOk result (λ symbols. number_at symbols name.entry.word ≡ Some number) }
    ensures only { IfOk result (λ symbols. HasOnly symbols name.entry.word) }
{
    let mut symbols = Symbols::new(alloc, keys);
    symbols.declare(name, number)?;
    Ok(symbols)
}
