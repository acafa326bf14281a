//! A map that many threads read at once.

ghost use Rattle.std.specs.Prelude.{◌≡◌, ◌<◌, ℕ, IfOk, Some, length, slice_index_or, string_bytes, vec_len};
ghost use Rattle.std.specs.List.{AllZip};
ghost use Rattle.example_named.specs.Symbols.{HasOnly, IsFound, IsTold, number_at};

use crate::crew::intern_at;
use crate::results::all_ok;
use crate::symbols::{Symbols, only};
use crate::{Texts, Word};
use named_set::{FreshName, NamedSet, SetName};
use std::alloc::{AllocError, Global};
use std::hash::RandomState;
use std::marker::Brand;
use std::sync::Wait;
use std::thread::{self, Threads};
use text_forms::Fault;
use text_forms::word::Limits;

/// What a reader is told about a text.
#[derive(Drop)]
pub struct Told<'s, N: SetName> {
    /// A word of the text.
    pub name: Word<'s, N>,
    /// What the word stands for.
    pub number: Option<u32>,
}

/// What each of these texts stands for, as told to a thread of its own that interns the text and looks up the word. All threads read one map.
pub fn look_up_all<'s, N: SetName + Send + Sync, R: Threads + Wait + Sync>(
    rt: &R,
    alloc: Global,
    set: &'s Texts<N>,
    symbols: &Symbols<N>,
    texts: &[String],
) -> Result<Vec<Told<'s, N>>, Fault>
    ensures { IfOk result (λ all. AllZip (λ text told. IsTold symbols.now (string_bytes text) told.name told.number) texts.now all.items) }
{
    let results = ask_each(rt, alloc, set, symbols, texts)?;
    let all = all_ok(alloc, results)?;
    Ok(all)
}

// What each of the threads was told.
fn ask_each<'s, N: SetName + Send + Sync, R: Threads + Wait + Sync>(
    rt: &R,
    alloc: Global,
    set: &'s Texts<N>,
    symbols: &Symbols<N>,
    texts: &[String],
) -> Result<Vec<Result<Told<'s, N>, Fault>>, AllocError>
    ensures len { IfOk result (λ results. vec_len results ≡ length texts.now) }
    ensures each { IfOk result (λ results. (at : ℕ) (d : _) (e : _) → at < length texts.now → IfOk (slice_index_or results.items at d) (λ told. IsTold symbols.now (string_bytes (slice_index_or texts.now at e)) told.name told.number)) }
{
    thread::map_indices(
        rt,
        alloc,
        texts.len(),
        &|at| ask(rt, set, symbols, texts, at),
    )
}

// What a thread does: it interns one of the texts, and looks up its word.
fn ask<'s, N: SetName, R: Wait>(
    rt: &R,
    set: &'s Texts<N>,
    symbols: &Symbols<N>,
    texts: &[String],
    at: usize,
) -> Result<Told<'s, N>, Fault>
    requires { at < length texts.now }
    ensures { (e : _) → IfOk result (λ told. IsTold symbols.now (string_bytes (slice_index_or texts.now at e)) told.name told.number) }
{
    let name = intern_at(rt, set, texts, at)?;
    let number = symbols.look_up(&name);
    Ok(Told { name, number })
}

/// Declares one text, and has each of the others looked up by a thread of its own, all in one map: those that are the same text are found.
pub fn declare_and_look_up_all<R: Threads + Wait + Sync>(
    rt: &R,
    alloc: Global,
    keys: RandomState,
    declared: &String,
    number: u32,
    texts: &Vec<String>,
) -> Result<Vec<Option<u32>>, Fault>
    ensures { IfOk result (λ all. AllZip (λ text found. IsFound (string_bytes declared.now) (Some number) (string_bytes text) found) texts.now.items all.items) }
{
    let name = FreshName::usual(alloc)?;
    declare_and_look_up_all_named::<Brand, R>(rt, alloc, keys, name, declared, number, texts)
}

// The same, in the set with this name.
fn declare_and_look_up_all_named<N: SetName + Send + Sync, R: Threads + Wait + Sync>(
    rt: &R,
    alloc: Global,
    keys: RandomState,
    name: FreshName,
    declared: &String,
    number: u32,
    texts: &Vec<String>,
) -> Result<Vec<Option<u32>>, Fault>
    requires { N.logs ≡ name.logs }
    ensures { IfOk result (λ all. AllZip (λ text found. IsFound (string_bytes declared.now) (Some number) (string_bytes text) found) texts.now.items all.items) }
{
    let set = NamedSet::new(alloc, name, Limits::greatest())?;
    declare_and_look_up_all_in::<N, R>(rt, alloc, keys, &set, declared, number, texts)
}

// The same, in this set.
fn declare_and_look_up_all_in<N: SetName + Send + Sync, R: Threads + Wait + Sync>(
    rt: &R,
    alloc: Global,
    keys: RandomState,
    set: &Texts<N>,
    declared: &String,
    number: u32,
    texts: &Vec<String>,
) -> Result<Vec<Option<u32>>, Fault>
    ensures { IfOk result (λ all. AllZip (λ text found. IsFound (string_bytes declared.now) (Some number) (string_bytes text) found) texts.now.items all.items) }
{
    let held = set.intern(rt, declared.as_str())?;
    let name = held.clone_held(rt)?;
    let symbols = only(alloc, keys, name, number)?;
    let results = find_each(rt, alloc, set, &symbols, &held, texts.as_slice())?;
    let all = all_ok(alloc, results)?;
    Ok(all)
}

// What each of the threads found.
fn find_each<N: SetName + Send + Sync, R: Threads + Wait + Sync>(
    rt: &R,
    alloc: Global,
    set: &Texts<N>,
    symbols: &Symbols<N>,
    held: &Word<N>,
    texts: &[String],
) -> Result<Vec<Result<Option<u32>, Fault>>, AllocError>
    requires { HasOnly symbols.now held.now.word }
    ensures len { IfOk result (λ results. vec_len results ≡ length texts.now) }
    ensures each { IfOk result (λ results. (at : ℕ) (d : _) (e : _) → at < length texts.now → IfOk (slice_index_or results.items at d) (λ found. IsFound held.now.text (number_at symbols.now held.now.word) (string_bytes (slice_index_or texts.now at e)) found)) }
{
    thread::map_indices(
        rt,
        alloc,
        texts.len(),
        &|at| find(rt, set, symbols, held, texts, at),
    )
}

// What a thread finds for one of the texts, besides the one that is held.
fn find<N: SetName, R: Wait>(
    rt: &R,
    set: &Texts<N>,
    symbols: &Symbols<N>,
    held: &Word<N>,
    texts: &[String],
    at: usize,
) -> Result<Option<u32>, Fault>
    requires inside { at < length texts.now }
    requires only { HasOnly symbols.now held.now.word }
    ensures { (e : _) → IfOk result (λ found. IsFound held.now.text (number_at symbols.now held.now.word) (string_bytes (slice_index_or texts.now at e)) found) }
{
    let asked = intern_at(rt, set, texts, at)?;
    held.agree(&asked);
    Ok(symbols.look_up(&asked))
}
