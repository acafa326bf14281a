//! A crew of threads, each of which interns a text in one set.

ghost use Rattle.std.specs.Prelude.{◌≡◌, ◌↔◌, ◌<◌, ℕ, IfOk, IsTrue, length, map, slice_index_or, string_bytes, vec_len};
ghost use Rattle.std.specs.List.{All, AllZip};
ghost use Rattle.example_named.specs.Texts.{AreOneText};

use crate::results::all_ok;
use crate::{Texts, Word};
use named_set::{FreshName, NamedSet, SetName};
use std::alloc::{AllocError, Global};
use std::marker::Brand;
use std::sync::Wait;
use std::thread::{self, Threads};
use text_forms::Fault;
use text_forms::word::Limits;

/// Whether the words that as many threads get for these texts in one set are all equal: exactly if the texts are.
pub fn crew_agrees<R: Threads + Wait + Sync>(
    rt: &R,
    alloc: Global,
    texts: &Vec<String>,
) -> Result<bool, Fault>
    ensures { IfOk result (λ same. IsTrue same ↔ AreOneText (map string_bytes texts.now.items)) }
{
    let name = FreshName::usual(alloc)?;
    crew_agrees_named::<Brand, R>(rt, alloc, name, texts)
}

// The same, in the set with this name.
fn crew_agrees_named<N: SetName + Send + Sync, R: Threads + Wait + Sync>(
    rt: &R,
    alloc: Global,
    name: FreshName,
    texts: &Vec<String>,
) -> Result<bool, Fault>
    requires { N.logs ≡ name.logs }
    ensures { IfOk result (λ same. IsTrue same ↔ AreOneText (map string_bytes texts.now.items)) }
{
    let set = NamedSet::new(alloc, name, Limits::greatest())?;
    crew_agrees_in::<N, R>(rt, alloc, &set, texts.as_slice())
}

// The same, in this set.
fn crew_agrees_in<N: SetName + Send + Sync, R: Threads + Wait + Sync>(
    rt: &R,
    alloc: Global,
    set: &Texts<N>,
    texts: &[String],
) -> Result<bool, Fault>
    ensures { IfOk result (λ same. IsTrue same ↔ AreOneText (map string_bytes texts.now)) }
{
    let words = intern_all(rt, alloc, set, texts)?;
    Ok(are_one(words.as_slice()))
}

// A word of each text, each interned by a thread of its own.
fn intern_all<'s, N: SetName + Send + Sync, R: Threads + Wait + Sync>(
    rt: &R,
    alloc: Global,
    set: &'s Texts<N>,
    texts: &[String],
) -> Result<Vec<Word<'s, N>>, Fault>
    ensures { IfOk result (λ words. AllZip (λ text word. word.text ≡ string_bytes text) texts.now words.items) }
{
    let results = intern_each(rt, alloc, set, texts)?;
    let words = all_ok(alloc, results)?;
    Ok(words)
}

// What each of the threads returned.
fn intern_each<'s, N: SetName + Send + Sync, R: Threads + Wait + Sync>(
    rt: &R,
    alloc: Global,
    set: &'s Texts<N>,
    texts: &[String],
) -> Result<Vec<Result<Word<'s, N>, Fault>>, AllocError>
    ensures len { IfOk result (λ results. vec_len results ≡ length texts.now) }
    ensures each { IfOk result (λ results. (at : ℕ) (d : _) (e : _) → at < length texts.now → IfOk (slice_index_or results.items at d) (λ word. word.text ≡ string_bytes (slice_index_or texts.now at e))) }
{
    thread::map_indices(rt, alloc, texts.len(), &|at| intern_at(rt, set, texts, at))
}

/// A word of one of the texts.
pub(crate) fn intern_at<'s, N: SetName, R: Wait>(
    rt: &R,
    set: &'s Texts<N>,
    texts: &[String],
    at: usize,
) -> Result<Word<'s, N>, Fault>
    requires { at < length texts.now }
    ensures { (e : _) → IfOk result (λ word. word.text ≡ string_bytes (slice_index_or texts.now at e)) }
{
    let word = set.intern(rt, texts[at].as_str())?;
    Ok(word)
}

// Whether all words are equal.
fn are_one<N: SetName>(words: &[Word<N>]) -> bool
    ensures { IsTrue result ↔ AreOneText (map (λ word. word.text) words.now) }
{
    match words.split_first() {
        Some((first, rest)) => are_all(rest, first),
        None => true,
    }
}

// Whether all words are equal to one.
fn are_all<N: SetName>(words: &[Word<N>], one: &Word<N>) -> bool
    ensures { IsTrue result ↔ All (λ word. word.text ≡ one.now.text) words.now }
{
    words.iter().all(|word| *word == *one)
}
