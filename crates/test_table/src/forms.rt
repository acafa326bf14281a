//! What no contract says: words, hashes and texts that come from outside.

use crate::texts::is_printed_as;
use crate::{assert_for, assert_that};
use std::alloc::{AllocError, Global};
use string_cache_core::Fault;
use string_cache_core::phf::{Hashes, hash, place, sip24};
use string_cache_core::static_sets::{
    EmptyStaticAtomSet, PhfStrSet, StaticAtomSet, TextForm, check_parts, form_of_text, static_text,
};
use string_cache_core::word::{
    Buckets, Form, HOLDER_BOUND, InlineText, Limits, MOST_BUCKETS, SERIAL_BOUND, form_of,
    pack_inline_word, static_word, ticket_word, unpack_inline,
};
use test_samples::{One, Short, Twice};

/// Whether the form of the text is inline, with this word.
fn has_inline_form<S: StaticAtomSet>(text: &str, word: u64) -> bool {
    match form_of_text::<S>(text) {
        TextForm::Inline(inline) => inline.word() == word,
        TextForm::Static(_) | TextForm::Dynamic(_) => false,
    }
}

/// Whether the text has this inline word.
fn is_packed(text: &str, word: u64) -> bool {
    pack_inline_word(text) == Some(word) && has_inline_form::<EmptyStaticAtomSet>(text, word)
}

/// Whether the word is this inline text's.
fn is_unpacked(word: u64, text: &str) -> bool {
    let Some(unpacked) = unpack_inline(word) else {
        return false;
    };
    unpacked.as_str() == text && form_of(word) == Some(Form::Inline(unpacked))
}

/// Texts, and their words.
static INLINE: [(&str, u64); 8] = [
    ("", 0x01),
    ("a", 0x6111),
    ("foo", 0x6f6f_6631),
    ("abcdefg", 0x6766_6564_6362_6171),
    ("\0", 0x11),
    ("\0\0\0\0\0\0\0", 0x71),
    ("é", 0xa9_c321),
    ("short", 0x7472_6f68_7351),
];

#[test]
fn inline_words(rt: HostRuntime) {
    for (text, word) in &INLINE {
        assert_for(&rt, is_packed(text, *word), text);
        assert_for(&rt, is_unpacked(*word, text), word);
    }
    assert_that(&rt, pack_inline_word("abcdefgh").is_none());
}

/// Whether the text has the inline word of these bytes.
fn is_packed_as(text: &str, bytes: [u8; 8]) -> bool {
    match pack_inline_word(text) {
        Some(word) => word.to_le_bytes() == bytes,
        None => false,
    }
}

#[test]
fn inline_words_as_bytes(rt: HostRuntime) {
    assert_that(&rt, is_packed_as("a", [0x11, 0x61, 0, 0, 0, 0, 0, 0]));
    assert_that(&rt, is_packed_as("é", [0x21, 0xc3, 0xa9, 0, 0, 0, 0, 0]));
}

/// Whether the text is an inline text, whose word is that of the text.
fn is_inline_text(text: &str) -> bool {
    let Some(inline) = InlineText::new(text) else {
        return false;
    };
    inline.as_str() == text && Some(inline.word()) == pack_inline_word(text)
}

/// Whether the inline text is printed like this.
fn prints_as(alloc: Global, text: &str, printed: &str) -> Result<bool, AllocError> {
    let Some(inline) = InlineText::new(text) else {
        return Ok(false);
    };
    Ok(format!(in alloc; "{inline:?}")?.as_str() == printed)
}

/// Texts, and what is printed for them.
static PRINTED: [(&str, &str); 5] = [
    ("", "InlineText(\"\")"),
    ("foo", "InlineText(\"foo\")"),
    ("\0", "InlineText(\"\\0\")"),
    ("é\"j", "InlineText(\"é\\\"j\")"),
    ("abcdefg", "InlineText(\"abcdefg\")"),
];

#[test]
fn inline_texts(rt: HostRuntime) {
    for (text, printed) in &PRINTED {
        assert_for(&rt, is_inline_text(text), text);
        assert_for(&rt, prints_as(rt.alloc(), text, printed) == Ok(true), text);
    }
    assert_that(&rt, InlineText::new("abcdefgh").is_none());
}

/// Whether it is the word of nothing.
fn is_no_word(word: u64) -> bool {
    form_of(word).is_none() && unpack_inline(word).is_none()
}

static NO_WORDS: [u64; 11] = [
    0,
    3,
    6,
    0x05,
    0x81,
    0xff11,
    0x80_c021,
    0x80a0_ed31,
    0x4000,
    0x7ffc,
    0xfffc,
];

#[test]
fn words_of_nothing(rt: HostRuntime) {
    for word in &NO_WORDS {
        assert_for(&rt, is_no_word(*word), word);
    }
}

fn is_static(word: u64, index: u32) -> bool {
    form_of(word) == Some(Form::Static(index))
}

fn is_ticket(word: u64, serial: u64, bucket: u16) -> bool {
    form_of(word) == Some(Form::Dynamic { serial, bucket })
}

#[test]
fn other_words(rt: HostRuntime) {
    let last = MOST_BUCKETS as u16 - 1;
    assert_that(&rt, is_static(2, 0));
    assert_that(&rt, is_static(0xffff_ffff_0000_0002, u32::MAX));
    assert_that(&rt, is_ticket(0x1_0000, 1, 0));
    assert_that(&rt, is_ticket(0x1_fffc, 1, last));
    assert_that(
        &rt,
        is_ticket(0xffff_ffff_ffff_fffc, SERIAL_BOUND - 1, last),
    );
    assert_that(
        &rt,
        ticket_word(SERIAL_BOUND - 1, last) == 0xffff_ffff_ffff_fffc,
    );
    assert_that(&rt, ticket_word(1, 0) == 0x1_0000);
    assert_that(&rt, ticket_word(1, 4095) == 0x1_3ffc);
    assert_that(&rt, ticket_word(1, 16383) == 0x1_fffc);
    assert_that(&rt, static_word(0) == 2);
    assert_that(&rt, static_word(3) == 0x3_0000_0002);
}

/// Whether there are limits with these numbers, and they report them.
fn are_limits(holders: u64, serials: u64) -> bool {
    match Limits::new(holders, serials) {
        Some(limits) => limits.holders() == holders && limits.serials() == serials,
        None => false,
    }
}

fn are_greatest(holders: u64, serials: u64) -> bool {
    Limits::new(holders, serials) == Some(Limits::greatest())
}

static NO_LIMITS: [(u64, u64); 4] = [(0, 1), (1, 0), (HOLDER_BOUND, 1), (1, SERIAL_BOUND)];

#[test]
fn limits(rt: HostRuntime) {
    assert_that(&rt, (HOLDER_BOUND, SERIAL_BOUND) == (1 << 63, 1 << 48));
    for (holders, serials) in &NO_LIMITS {
        assert_that(&rt, Limits::new(*holders, *serials).is_none());
    }
    assert_that(&rt, are_limits(1, 1));
    assert_that(&rt, are_greatest(HOLDER_BOUND - 1, SERIAL_BOUND - 1));
}

/// Whether these are the bits of a number of buckets, the first and the last of which are those of the hashes whose low bits are all zeros and all
/// ones.
fn has_number(bits: u8, number: usize) -> bool {
    let Some(buckets) = Buckets::new(bits) else {
        return false;
    };
    buckets.bits() == bits
        && buckets.number() == number
        && usize::from(buckets.bucket_of(u64::MAX)) + 1 == number
        && buckets.bucket_of(0xffff_ffff_ffff_0000) == 0
}

static NUMBERS: [(u8, usize); 4] = [(0, 1), (1, 2), (12, 4096), (14, MOST_BUCKETS)];

#[test]
fn numbers_of_buckets(rt: HostRuntime) {
    assert_that(&rt, MOST_BUCKETS == 16384);
    for (bits, number) in &NUMBERS {
        assert_for(&rt, has_number(*bits, *number), bits);
    }
    assert_that(
        &rt,
        Buckets::new(15).is_none() && Buckets::new(255).is_none(),
    );
    assert_that(&rt, Buckets::usual().bits() == 12);
}

/// The vector that was published with SipHash.
#[test]
fn published_vector(rt: HostRuntime) {
    let message = [0u8, 1, 2, 3, 4, 5, 6, 7, 8, 9, 10, 11, 12, 13, 14];
    assert_eq!(rt;
        sip24(&message, 0x0706_0504_0302_0100, 0x0f0e_0d0c_0b0a_0908),
        0xa129_ca61_49be_45e5
    );
}

fn has_hashes(text: &str, key: u64, hashes: Hashes) -> bool {
    hash(text, key) == hashes
}

fn has_entry_hash(text: &str, number: u64) -> bool {
    hash(text, 0).entry_hash() == number
}

/// OpenSSL's SIPHASH with 1 and 3 rounds, 16 bytes of output, and the key's 8 bytes after 8 zeros.
static HASHES: [(&str, u64, u32, u32, u32); 9] = [
    ("", 0, 0x2134_935d, 0x61d9_b40d, 0x31fb_3303),
    ("a", 0, 0x3710_b5e8, 0x72fb_f647, 0x5537_0408),
    ("sentence", 0, 0xed02_e6f1, 0x6c03_c165, 0x56e9_3a5c),
    ("interned", 0, 0x556a_6dba, 0x06a4_7210, 0x56f7_56b3),
    ("tokenised", 0, 0xfc55_973d, 0xb973_7e77, 0x81fd_b514),
    ("abcdefgh", 0, 0xdc89_567d, 0x86f9_a2c5, 0x7188_184f),
    (
        "here is a sentence of text that will be tokenised and",
        0,
        0x12c7_060b,
        0x0b77_4f15,
        0x1e34_b306,
    ),
    ("interned", 1, 0x64b5_e15c, 0xa38a_6cc9, 0xcc77_1d20),
    ("interned", u64::MAX, 0xb30e_2215, 0x9496_46a2, 0xadd9_dbaa),
];

#[test]
fn hashes(rt: HostRuntime) {
    for (text, key, g, f1, f2) in &HASHES {
        let hashes = Hashes {
            g: *g,
            f1: *f1,
            f2: *f2,
        };
        assert_for(&rt, has_hashes(text, *key, hashes), &(text, key));
    }
    assert_that(&rt, has_entry_hash("sentence", 0xed02_e6f1_6c03_c165));
}

#[test]
fn places(rt: HostRuntime) {
    let hashes = Hashes {
        g: 7,
        f1: u32::MAX,
        f2: 5,
    };
    // (2^32 - 1 + (2^32 - 1) * 3 + 5) modulo 2^32 is 1.
    assert_eq!(rt; place(&hashes, &[(0, 0), (3, u32::MAX)], 10), 1);
    assert_eq!(rt; place(&hashes, &[(0, 7)], 10), 2);
    assert_eq!(rt; place(&hashes, &[(0, 7)], 1), 0);
}

fn has_form<S: StaticAtomSet>(text: &str, form: TextForm) -> bool {
    form_of_text::<S>(text) == form
}

fn has_text<S: StaticAtomSet>(index: u32, text: &str) -> bool {
    static_text::<S>(index) == Some(text)
}

fn has_none<S: StaticAtomSet>(index: u32) -> bool {
    static_text::<S>(index).is_none()
}

#[test]
fn static_texts(rt: HostRuntime) {
    let dynamic = TextForm::Dynamic(hash("sentencf", 0).entry_hash());
    assert_that(&rt, has_form::<One>("sentence", TextForm::Static(0)));
    assert_that(&rt, has_form::<One>("sentencf", dynamic));
    assert_that(&rt, has_text::<One>(0, "sentence"));
    assert_that(&rt, has_none::<One>(1));
    assert_that(&rt, has_none::<One>(u32::MAX));

    // The low bit of f2, 0x56e93a5c, is the place of "sentence" among two.
    assert_that(&rt, has_form::<Twice>("sentence", TextForm::Static(0)));
    assert_that(&rt, has_text::<Twice>(0, "sentence"));
    assert_that(&rt, has_none::<Twice>(1));

    assert_that(&rt, has_inline_form::<Short>("short", 0x7472_6f68_7351));
    assert_that(&rt, has_none::<Short>(0));
    assert_that(&rt, has_none::<EmptyStaticAtomSet>(0));
}

fn is_perfect(
    disps: &'static [(u32, u32)],
    atoms: &'static [&'static str],
    hashes: &'static [u64],
) -> bool {
    let set = PhfStrSet {
        key: 0,
        disps,
        atoms,
        hashes,
    };
    set.check()
}

/// Whether the static tables of the type pass the check.
fn passes<S: StaticAtomSet>() -> bool {
    S::get().check()
}

#[test]
fn checked_tables(rt: HostRuntime) {
    assert_that(
        &rt,
        passes::<One>() && passes::<Short>() && !passes::<Twice>(),
    );
    assert_that(&rt, passes::<EmptyStaticAtomSet>());
    assert_that(&rt, is_perfect(&[(0, 0)], &["sentence"], &[0]));
    assert_that(
        &rt,
        is_perfect(&[(u32::MAX, u32::MAX)], &["sentence"], &[1]),
    );

    // The low bits of f2, 0x56e93a5c and 0x56f756b3, are the places of the two among two.
    assert_that(
        &rt,
        is_perfect(&[(0, 0)], &["sentence", "interned"], &[1, 2]),
    );
    assert_that(
        &rt,
        !is_perfect(&[(0, 0)], &["interned", "sentence"], &[1, 2]),
    );
}

fn are_parts_perfect(disps: &[(u32, u32)], atoms: &[&str], hashes: &[u64]) -> bool {
    check_parts(0, disps, atoms, hashes)
}

/// As `check_parts` with the key 0, for tables that are made while the program runs.
fn are_perfect(
    alloc: Global,
    first: &str,
    second: &str,
    hashes: &[u64],
) -> Result<bool, AllocError> {
    let first = String::from_str(alloc, first)?;
    let second = String::from_str(alloc, second)?;
    let disps = vec![in alloc; (0u32, 0u32); 1]?;
    let atoms = [first.as_str(), second.as_str()];
    Ok(are_parts_perfect(&disps, &atoms, hashes))
}

/// Two texts, their numbers, and whether they are perfect.
static BORROWED: [(&str, &str, &[u64], bool); 3] = [
    ("sentence", "interned", &[1, 2], true),
    ("interned", "sentence", &[1, 2], false),
    ("sentence", "interned", &[1], false),
];

#[test]
fn borrowed_tables(rt: HostRuntime) {
    for (first, second, hashes, wanted) in &BORROWED {
        let are_perfect = are_perfect(rt.alloc(), first, second, hashes).expect(&rt, "memory");
        assert_for(&rt, are_perfect == *wanted, first);
    }
}

#[test]
fn unusable_tables(rt: HostRuntime) {
    assert_that(&rt, !is_perfect(&[], &["sentence"], &[1]));
    assert_that(&rt, !is_perfect(&[(0, 0)], &[], &[]));
    assert_that(&rt, !is_perfect(&[(0, 0)], &[], &[1]));
    assert_that(&rt, !is_perfect(&[(0, 0)], &["sentence"], &[]));
    assert_that(&rt, !is_perfect(&[(0, 0)], &["sentence"], &[1, 2]));
}

/// Whether these are the static tables of the type.
fn has_tables<S: StaticAtomSet>(
    key: u64,
    disps: &[(u32, u32)],
    atoms: &[&str],
    hashes: &[u64],
) -> bool {
    let set = S::get();
    set.key == key && set.disps == disps && set.atoms == atoms && set.hashes == hashes
}

#[test]
fn empty_set(rt: HostRuntime) {
    assert_that(
        &rt,
        has_tables::<EmptyStaticAtomSet>(0, &[(0, 0)], &[""], &[0x3ddd_def3]),
    );
    assert_that(&rt, EmptyStaticAtomSet == EmptyStaticAtomSet);
    assert_that(&rt, EmptyStaticAtomSet <= EmptyStaticAtomSet);
}

/// Faults, their numbers, and what they print.
static FAULTS: [(Fault, u8, &str); 4] = [
    (Fault::Memory, 1, "no memory"),
    (Fault::FullCount, 2, "count is full"),
    (Fault::TicketsSpent, 3, "tickets are spent"),
    (Fault::NotText, 4, "not a text"),
];

#[test]
fn faults(rt: HostRuntime) {
    for (fault, number, text) in &FAULTS {
        assert_for(&rt, fault.number() == *number, text);
        assert_for(&rt, is_printed_as(rt.alloc(), fault, text), text);
    }
}
