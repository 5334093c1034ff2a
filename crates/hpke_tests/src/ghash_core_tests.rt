//! Published vectors: products and hashes.

use crate::expected::{array_of, assert_same, bytes_of};
use ghash_core::{Ghash, GhashKey, field_mul};
use std::alloc::Global;
use std::process::Abort;

struct HashCase {
    source: &'static str,
    h: &'static str,
    aad: &'static str,
    ciphertext: &'static str,
    hash: &'static str,
}

// McGrew and Viega, The Galois/Counter Mode of Operation (GCM), appendix B: H, A, C and GHASH(H, A, C).
static HASHES: [HashCase; 4] = [
    HashCase {
        source: "GCM specification, test case 1",
        h: "66e94bd4ef8a2c3b884cfa59ca342b2e",
        aad: "",
        ciphertext: "",
        hash: "00000000000000000000000000000000",
    },
    HashCase {
        source: "GCM specification, test case 2",
        h: "66e94bd4ef8a2c3b884cfa59ca342b2e",
        aad: "",
        ciphertext: "0388dace60b6a392f328c2b971b2fe78",
        hash: "f38cbb1ad69223dcc3457ae5b6b0f885",
    },
    HashCase {
        source: "GCM specification, test case 4",
        h: "b83b533708bf535d0aa6e52980d53b78",
        aad: "feedfacedeadbeeffeedfacedeadbeefabaddad2",
        ciphertext: "42831ec2217774244b7221b784d0d49ce3aa212f2c02a4e035c17e2329aca12e21d514b25466931c7d8f6a5aac84aa051ba30b396a0aac973d58e091",
        hash: "698e57f70e6ecc7fd9463b7260a9ae5f",
    },
    HashCase {
        source: "GCM specification, test case 16",
        h: "acbef20579b4b8ebce889bac8732dad7",
        aad: "feedfacedeadbeeffeedfacedeadbeefabaddad2",
        ciphertext: "522dc1f099567d07f47f37a32a84427d643a8cdcbfe5c0c97598a2bd2555d1aa8cb08e48590dbb3da7b08b1056828838c5f61e6393ba7a0abcc9f662",
        hash: "8bd0c4d8aacd391e67cca447e8c38f65",
    },
];

fn assert_hash(rt: &impl Abort, alloc: Global, case: &HashCase) {
    let source = case.source;
    let aad = bytes_of(rt, alloc, case.aad);
    let ciphertext = bytes_of(rt, alloc, case.ciphertext);
    let is_short = aad.len() < 64 && ciphertext.len() < 64;
    assert!(rt; is_short, "{source}: lengths");
    let key = GhashKey::new(&array_of(rt, case.h));
    let mut hash = Ghash::start(&key);
    hash.update_padded(&aad);
    hash.update_padded(&ciphertext);
    let hash = hash.finish(aad.len() as u64, ciphertext.len() as u64);
    assert_same(rt, hash, array_of(rt, case.hash), source);
}

#[test]
fn hashes_are_those_published(rt: HostRuntime) {
    for case in &HASHES {
        assert_hash(&rt, rt.alloc(), case);
    }
}

// The GCM specification, test case 2: X1 is the product of the ciphertext's block and H. Entry 8 is
// the product of H with the unit.
#[test]
fn products_are_those_published(rt: HostRuntime) {
    let h = 0x66e94bd4ef8a2c3b884cfa59ca342b2e;
    let product = field_mul(0x0388dace60b6a392f328c2b971b2fe78, h);
    assert_same(&rt, product, 0x5e2ec746917062882c85b0685353deb7, "product");
    let key = GhashKey::new(&array_of(&rt, "66e94bd4ef8a2c3b884cfa59ca342b2e"));
    assert_same(&rt, key.products()[8], h, "H times the unit");
    assert_same(&rt, key.products()[0], 0, "H times 0");
}
