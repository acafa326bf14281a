//! Keys of SipHash: what is hashed under one, and where one comes from.

use crate::{assert_for, assert_that};
use std::cell::Cell;
use std::hash::{BuildHasher, Hash, Hasher};
use std::io;
use std::random::RandomSource;
use test_samples::Refusing;
use text_forms::SipKey;

/// SipHash-1-3 of a message under the key of zeros, as Rust's `DefaultHasher` gives it, and under that of the bytes 0 to 15, as another program
/// worked it out. That of no bytes is in Rust's own tests.
static HASHES: [(&str, u64, u64); 7] = [
    ("", 0xd1fb_a762_150c_532c, 0xabac_0158_050f_c4dc),
    ("\0", 0x68a9_1412_8e01_e473, 0xc9f4_9bf3_7d57_ca93),
    ("abcdefg", 0x6db1_2aae_9070_f506, 0x639b_490c_aba8_31bb),
    ("interned", 0xa078_8c30_bb8f_83e9, 0x391f_58f6_3195_45e5),
    ("Grüße, Jörg", 0x85d9_1c91_4333_a45c, 0x4205_0f3c_a85a_dab0),
    (
        "123456789012345",
        0x4369_9fe1_3351_339f,
        0x4c4b_02f2_3ccf_7e61,
    ),
    (
        "1234567890123456",
        0xd011_ef42_9422_7dbf,
        0x44a5_74e3_8c68_c801,
    ),
];

/// The two numbers of the bytes 0 to 15, the first of them lowest.
const LOW: u64 = 0x0706_0504_0302_0100;

const HIGH: u64 = 0x0f0e_0d0c_0b0a_0908;

/// The hash of a message, written at once.
fn hash_of(key: SipKey, message: &[u8]) -> u64 {
    let mut hasher = key.build_hasher();
    hasher.write(message);
    hasher.finish()
}

#[test]
fn a_message_has_its_sip_hash(rt: HostRuntime) {
    for (message, zero, counting) in &HASHES {
        assert_for(
            &rt,
            hash_of(SipKey::new(0, 0), message.as_bytes()) == *zero,
            message,
        );
        assert_for(
            &rt,
            hash_of(SipKey::new(LOW, HIGH), message.as_bytes()) == *counting,
            message,
        );
    }
}

/// 300 bytes, each its place modulo 251.
fn many_bytes() -> [u8; 300] {
    let mut bytes = [0; 300];
    for (at, byte) in bytes.iter_mut().enumerate() {
        *byte = (at % 251) as u8;
    }
    bytes
}

#[test]
fn a_long_message_has_its_sip_hash(rt: HostRuntime) {
    assert_that(
        &rt,
        hash_of(SipKey::new(0, 0), &many_bytes()) == 0x4048_38d6_b93c_1866,
    );
    assert_that(
        &rt,
        hash_of(SipKey::new(LOW, HIGH), &many_bytes()) == 0x335f_0a4d_a4d5_3017,
    );
}

/// The hash of a byte, written as a number.
fn hash_of_byte(key: SipKey, byte: u8) -> u64 {
    let mut hasher = key.build_hasher();
    hasher.write_u8(byte);
    hasher.finish()
}

#[test]
fn a_byte_is_a_message(rt: HostRuntime) {
    assert_that(
        &rt,
        hash_of_byte(SipKey::new(0, 0), 0xfe) == 0x65f7_05b1_7959_01a4,
    );
    assert_that(
        &rt,
        hash_of_byte(SipKey::new(LOW, HIGH), 0) == 0xc9f4_9bf3_7d57_ca93,
    );
}

/// The hash of a text, with its end.
fn hash_of_text(key: SipKey, text: &str) -> u64 {
    key.hash_one(text)
}

#[test]
fn the_end_of_a_text_adds_nothing(rt: HostRuntime) {
    for (message, zero, counting) in &HASHES {
        let is_one = message.len() == 1;
        assert_for(
            &rt,
            is_one || hash_of_text(SipKey::new(0, 0), message) == *zero,
            message,
        );
        assert_for(
            &rt,
            is_one || hash_of_text(SipKey::new(LOW, HIGH), message) == *counting,
            message,
        );
    }
}

/// SipHash-1-3 of the byte 255 as a message of its own, and of that behind the byte 0, as another program worked them out.
#[test]
fn the_byte_that_ends_texts_is_a_message_elsewhere(rt: HostRuntime) {
    assert_that(
        &rt,
        hash_of_byte(SipKey::new(0, 0), 0xff) == 0x3040_6ea5_23c5_3def,
    );
    assert_that(
        &rt,
        hash_of(SipKey::new(LOW, HIGH), b"\xff") == 0x336d_3897_9e4a_286b,
    );
    assert_that(
        &rt,
        hash_of_text(SipKey::new(0, 0), "\0") == 0xf14e_dd56_aa07_ea1e,
    );
    assert_that(
        &rt,
        hash_of_text(SipKey::new(LOW, HIGH), "\0") == 0x7ecc_3231_f847_2bec,
    );
}

/// Whether no two of the keys have one hash.
fn are_apart<K: Hash>(key: SipKey, keys: &[K]) -> bool {
    for (at, one) in keys.iter().enumerate() {
        for other in keys.iter().take(at) {
            if key.hash_one(one) == key.hash_one(other) {
                return false;
            }
        }
    }
    true
}

/// Keys of bytes, of which some are the one that ends a text: where it stands counts, and how often.
#[test]
fn bytes_of_keys_count(rt: HostRuntime) {
    let key = SipKey::new(LOW, HIGH);
    let four = [
        [1u8, 255, 255, 255],
        [255, 1, 255, 255],
        [255, 255, 1, 255],
        [255, 255, 255, 1],
        [1, 1, 255, 255],
        [255; 4],
    ];
    assert_that(&rt, are_apart(key, &four));
    assert_that(&rt, are_apart(key, &[(255u8, 7u8), (7, 255), (255, 255)]));
    assert_that(&rt, are_apart(key, &[(-1i8, 5i8), (5, -1), (-1, -1)]));
    let behind_texts = [
        ("ab", 255u8, 1u8),
        ("ab", 1, 255),
        ("", 255, 1),
        ("", 1, 255),
    ];
    assert_that(&rt, are_apart(key, &behind_texts));
    let behind_numbers = [
        (256u16, 255u8, 1u8),
        (256, 1, 255),
        (256, 255, 255),
        (256, 1, 1),
    ];
    assert_that(&rt, are_apart(key, &behind_numbers));
}

#[test]
fn where_texts_end_counts(rt: HostRuntime) {
    let key = SipKey::new(LOW, HIGH);
    assert_that(&rt, key.hash_one(("ab", "c")) != key.hash_one(("a", "bc")));
    assert_that(&rt, key.hash_one(("", "abc")) != key.hash_one(("abc", "")));
    assert_that(&rt, key.hash_one("abc") != key.hash_one("abc\0"));
}

/// Gives each byte seventeen times its place, the last one 255, and counts how often it is asked.
#[derive(Drop)]
struct Places {
    asked: Cell<u64>,
}

impl RandomSource for Places {
    fn fill_bytes(&self, buf: &mut [u8]) -> io::Result<()> {
        for (at, byte) in buf.iter_mut().enumerate() {
            *byte = ((at % 16) as u8).wrapping_mul(17);
        }
        self.asked.set(self.asked.get().wrapping_add(1));
        Ok(())
    }
}

#[test]
fn a_key_is_drawn_once_and_whole(rt: HostRuntime) {
    let source = Places {
        asked: Cell::new(0),
    };
    let key = SipKey::drawn(&source).expect(&rt, "a key");
    assert_that(&rt, hash_of(key, b"interned") == 0xc98c_6b49_0b24_4d8c); // OpenSSL's
    assert_that(&rt, source.asked.get() == 1);
}

#[test]
fn no_key_is_drawn(rt: HostRuntime) {
    assert_that(&rt, SipKey::drawn(&Refusing).is_err());
}

#[test]
fn the_system_gives_keys(rt: HostRuntime) {
    let one = SipKey::drawn(&rt).expect(&rt, "a key");
    let other = SipKey::drawn(&rt).expect(&rt, "a key");
    assert_that(
        &rt,
        hash_of(one, b"interned") != hash_of(other, b"interned"),
    );
}
