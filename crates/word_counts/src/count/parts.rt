//! The parts of a text's words that the workers count, each found from a place near its first word.

ghost use Rattle.std.specs.Prelude.{◌≡◌, ◌≤◌, ◌<◌, ◌*◌, ◌/◌, ◌++◌, ℕ, true, drop, length, take, slice_index, vec_len, IfOk, IfSome};
ghost use Rattle.std.specs.Char.{is_whitespace};
ghost use Rattle.word_counts.specs.Parts.{AreSections, HaveRests, words_of_part, words_of_parts, words_of_sections};
ghost use Rattle.word_counts.specs.Words.{words};

use std::alloc::{AllocError, Global};
use std::thread::{Threads, for_each_mut};

/// The words of a text from index `from` up to but not including `to`.
#[derive(Clone, Copy)]
pub struct Part<'e> {
    pub text: &'e str,
    pub from: usize,
    pub to: usize,
}

/// Where white space of one byte is, from the given place on.
fn white_from(bytes: &[u8], start: usize) -> Option<usize>
    ensures behind { IfSome result (λ i. start ≤ i) }
    ensures within { IfSome result (λ i. i < length bytes.now) }
    ensures ascii { IfSome result (λ i. slice_index bytes.now i < 128) }
    ensures white { IfSome result (λ i. is_whitespace (slice_index bytes.now i) ≡ true) }
{
    for i in start..bytes.len() {
        if bytes[i].is_ascii_whitespace() {
            return Some(i);
        }
    }
    None
}

/// The bytes of a section, which also has those up to the next white space. A text with fewer isn't worth a thread.
const SECTION: usize = 1 << 16;

/// The text in two parts, cut between words after the bytes of one section. If there is no white space there, the second one is empty.
fn cut_off(text: &str) -> (&str, &str)
    ensures words { words text.now ≡ words result.0.now ++ words result.1.now }
    ensures shorter { 0 < length text.now → length result.1.now < length text.now }
{
    let Some(cut) = white_from(text.as_bytes(), SECTION) else {
        return (text, "");
    };
    text.split_at(cut)
}

/// A part of a text that is cut between words, the text from there on, and the number of words in the part.
#[derive(Clone, Copy)]
pub struct Section<'e> {
    own: &'e str,
    rest: &'e str,
    words: usize,
}

/// The text in sections, whose words aren't counted yet.
pub fn sections<'e>(alloc: Global, text: &'e str) -> Result<Vec<Section<'e>>, AllocError>
    ensures words { IfOk result (λ sections. words_of_sections sections.items ≡ words text.now) }
    ensures rests { IfOk result (λ sections. HaveRests sections.items) }
{
    let mut sections = Vec::new(alloc);
    let mut rest = text;
    while !rest.is_empty() {
        let (own, behind) = cut_off(rest);
        sections.push(Section {
            own,
            rest,
            words: 0,
        })?;
        rest = behind;
    }
    Ok(sections)
}

/// The number of words in the text.
fn words_in(text: &str) -> usize
    ensures { result ≡ length (words text.now) }
{
    text.split_whitespace().count()
}

/// The text in sections, whose words are counted in at most `threads` threads.
fn counted_sections<'e, R: Threads + Sync>(
    rt: &R,
    alloc: Global,
    text: &'e str,
    threads: u32,
) -> Result<Vec<Section<'e>>, AllocError>
    requires { 1 ≤ threads }
    ensures words { IfOk result (λ sections. words_of_sections sections.items ≡ words text.now) }
    ensures counted { IfOk result (λ sections. AreSections sections.items) }
{
    let mut sections = sections(alloc, text)?;
    for_each_mut(
        rt,
        &mut sections,
        threads as usize,
        &|_, section| { section.words = words_in(section.own) },
    );
    Ok(sections)
}

/// The number of words in all sections.
fn words_of_all(sections: &[Section<'_>]) -> usize
    requires { AreSections sections.now }
    ensures { result ≡ length (words_of_sections sections.now) }
{
    let mut words = 0;
    for section in sections {
        words += section.words;
    }
    words
}

/// The words of the sections from index `from` up to but not including `to`, found from the section that has the first of them.
fn part_of<'e>(sections: &[Section<'e>], from: usize, to: usize) -> Part<'e>
    requires sections { AreSections sections.now }
    requires order { from ≤ to }
    ensures { words_of_part result ≡ drop from (take to (words_of_sections sections.now)) }
{
    let mut before = 0;
    for section in sections {
        let behind = before + section.words;
        if from < behind {
            return Part {
                text: section.rest,
                from: from - before,
                to: to - before,
            };
        }
        before = behind;
    }
    Part {
        text: "",
        from: 0,
        to: 0,
    }
}

/// Where piece `i` ends: of `words` words, it has those from index `(i - 1) * words / pieces` up to but not including `i * words / pieces`.
fn end_of_piece(words: usize, pieces: u32, i: u32) -> usize
    requires some { 1 ≤ pieces }
    requires piece { i ≤ pieces }
    ensures end { result ≡ i * words / pieces }
    ensures within { result ≤ words }
{
    (u128::from(i) * words as u128 / u128::from(pieces)) as usize
}

/// The words of the sections in `n` pieces.
fn pieces<'e>(alloc: Global, sections: &[Section<'e>], n: u32) -> Result<Vec<Part<'e>>, AllocError>
    requires some { 1 ≤ n }
    requires sections { AreSections sections.now }
    ensures len { IfOk result (λ parts. vec_len parts ≡ n) }
    ensures ends { IfOk result (λ parts. (i : ℕ) → i ≤ n
        → words_of_parts (take i parts.items) ≡ take (i * length (words_of_sections sections.now) / n) (words_of_sections sections.now)) }
{
    let words = words_of_all(sections);
    let mut parts = Vec::new(alloc);
    for i in 0..n {
        let from = end_of_piece(words, n, i);
        let to = end_of_piece(words, n, i + 1);
        parts.push(part_of(sections, from, to))?;
    }
    Ok(parts)
}

/// The words of the text in `n` parts, one for each worker. They are counted in at most `n` threads; a single part has all of them, so that they
/// needn't be counted for it.
pub fn parts<'e, R: Threads + Sync>(
    rt: &R,
    alloc: Global,
    text: &'e str,
    n: u32,
) -> Result<Vec<Part<'e>>, AllocError>
    requires { 1 ≤ n }
    ensures len { IfOk result (λ parts. vec_len parts ≡ n) }
    ensures words { IfOk result (λ parts. words_of_parts parts.items ≡ words text.now) }
{
    if n == 1 {
        // There are no more words than bytes.
        let to = text.len();
        return Ok(vec![in alloc; Part { text, from: 0, to }]?);
    }
    let sections = counted_sections(rt, alloc, text, n)?;
    pieces(alloc, &sections, n)
}
