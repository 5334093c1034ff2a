//! The standard's example vectors.

use crate::expected::{array_of, assert_bytes};
use aes_block::AesKey;
use std::alloc::Global;
use std::process::Abort;

struct BlockCase {
    source: &'static str,
    key: &'static str,
    plaintext: &'static str,
    ciphertext: &'static str,
    last_round_key: &'static str,
}

static BLOCKS128: [BlockCase; 2] = [
    BlockCase {
        source: "FIPS 197, A.1 and B",
        key: "2b7e151628aed2a6abf7158809cf4f3c",
        plaintext: "3243f6a8885a308d313198a2e0370734",
        ciphertext: "3925841d02dc09fbdc118597196a0b32",
        last_round_key: "d014f9a8c9ee2589e13f0cc8b6630ca6",
    },
    BlockCase {
        source: "FIPS 197, C.1",
        key: "000102030405060708090a0b0c0d0e0f",
        plaintext: "00112233445566778899aabbccddeeff",
        ciphertext: "69c4e0d86a7b0430d8cdb78070b4c55a",
        last_round_key: "13111d7fe3944a17f307a78b4d2b30c5",
    },
];

static BLOCKS256: [BlockCase; 1] = [BlockCase {
    source: "FIPS 197, C.3",
    key: "000102030405060708090a0b0c0d0e0f101112131415161718191a1b1c1d1e1f",
    plaintext: "00112233445566778899aabbccddeeff",
    ciphertext: "8ea2b7ca516745bfeafc49904b496089",
    last_round_key: "24fc79ccbf0979e9371ac23c6d68de36",
}];

fn assert_block(rt: &impl Abort, alloc: Global, key: &AesKey, case: &BlockCase) {
    let (source, want) = (case.source, case.ciphertext);
    let plaintext: [u8; 16] = array_of(rt, case.plaintext);
    let block = key.encrypt_block(&plaintext);
    assert_bytes(rt, alloc, &block, want, source, "block");
    let blocks = key.encrypt_eight(&[plaintext; 8]);
    assert_bytes(rt, alloc, &blocks[5], want, source, "one of eight");
}

fn assert_128(rt: &impl Abort, alloc: Global, case: &BlockCase) {
    let key = AesKey::new128(&array_of(rt, case.key));
    assert_block(rt, alloc, &key, case);
    let (last, want) = (key.round_key(10), case.last_round_key);
    assert_bytes(rt, alloc, last, want, case.source, "round key 10");
}

fn assert_256(rt: &impl Abort, alloc: Global, case: &BlockCase) {
    let key = AesKey::new256(&array_of(rt, case.key));
    assert_block(rt, alloc, &key, case);
    let (last, want) = (key.round_key(14), case.last_round_key);
    assert_bytes(rt, alloc, last, want, case.source, "round key 14");
}

#[test]
fn blocks_are_those_published(rt: HostRuntime) {
    for case in &BLOCKS128 {
        assert_128(&rt, rt.alloc(), case);
    }
    for case in &BLOCKS256 {
        assert_256(&rt, rt.alloc(), case);
    }
}
