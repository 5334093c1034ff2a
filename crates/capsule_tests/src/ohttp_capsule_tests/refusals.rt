//! Messages that are spoilt, and why each is refused.

use super::calls::{QUESTION, REPLY, answered, asked, keys_of, taken};
use crate::expected::assert_same;
use byte_strings::{ByteList, PlainList};
use hkdf_labelled::{Aead, Kdf, Suite};
use ohttp_capsule::{Asked, CapsuleFault};
use ring_core::{Sntrup761, Sntrup857};
use sntrup_kem::{KemParams, SecretKey};
use std::alloc::Global;
use std::process::Abort;
use std::thread::Threads;

// What is spoilt; the length that the message is cut to, or filled up to with zeros; the masks that are
// then added, each at its place; the size of the nonce; and the refusal.
struct Spoilt(&'static str, usize, [(usize, u8); 2], usize, CapsuleFault);

const NONE: [(usize, u8); 2] = [(0, 0), (0, 0)];

fn spoil(rt: &impl Abort, alloc: Global, bytes: &[u8], case: &Spoilt) -> ByteList {
    let front = &bytes[..case.1.min(bytes.len())];
    let mut copy = Vec::from_slice(alloc, front).expect(rt, "memory");
    copy.resize(case.1, 0).expect(rt, "memory");
    for (place, mask) in case.2 {
        if place < copy.len() {
            copy[place] ^= mask;
        }
    }
    PlainList::from_vec(copy)
}

// Of a request to key 7 of sntrup761 with HKDF-SHA256 and AES-128-GCM: 7 bytes of header, 1,039 of
// the encapsulation, and 45 of the ciphertext.
static REQUESTS: [Spoilt; 27] = [
    Spoilt("no byte", 0, NONE, 16, CapsuleFault::Short),
    Spoilt("6 bytes of a header", 6, NONE, 16, CapsuleFault::Short),
    Spoilt("a header", 7, NONE, 16, CapsuleFault::Short),
    Spoilt("15 bytes of a tag", 1_061, NONE, 16, CapsuleFault::Short),
    Spoilt("a tag alone", 1_062, NONE, 16, CapsuleFault::Failed),
    Spoilt(
        "short, other key, a nonce of 15 bytes",
        1_061,
        [(0, 1), (0, 0)],
        15,
        CapsuleFault::Short,
    ),
    Spoilt(
        "other key",
        1_091,
        [(0, 15), (0, 0)],
        16,
        CapsuleFault::Header,
    ),
    Spoilt(
        "kem 0xf661",
        1_091,
        [(1, 1), (0, 0)],
        16,
        CapsuleFault::Header,
    ),
    Spoilt(
        "kem 0xf760",
        1_091,
        [(2, 1), (0, 0)],
        16,
        CapsuleFault::Header,
    ),
    Spoilt("kdf 257", 1_091, [(3, 1), (0, 0)], 16, CapsuleFault::Header),
    Spoilt("kdf 0", 1_091, [(4, 1), (0, 0)], 16, CapsuleFault::Header),
    Spoilt("kdf 4", 1_091, [(4, 5), (0, 0)], 16, CapsuleFault::Header),
    Spoilt("kdf 2", 1_091, [(4, 3), (0, 0)], 16, CapsuleFault::Failed),
    Spoilt(
        "aead 257",
        1_091,
        [(5, 1), (0, 0)],
        16,
        CapsuleFault::Header,
    ),
    Spoilt("aead 0", 1_091, [(6, 1), (0, 0)], 16, CapsuleFault::Header),
    Spoilt("aead 3", 1_091, [(6, 2), (0, 0)], 16, CapsuleFault::Header),
    Spoilt(
        "aead 65535",
        1_091,
        [(5, 255), (6, 254)],
        16,
        CapsuleFault::Header,
    ),
    Spoilt(
        "aead 2, a nonce of 16 bytes",
        1_091,
        [(6, 3), (0, 0)],
        16,
        CapsuleFault::NonceSize,
    ),
    Spoilt(
        "aead 2, a nonce of 32 bytes",
        1_091,
        [(6, 3), (0, 0)],
        32,
        CapsuleFault::Failed,
    ),
    Spoilt(
        "other key, a nonce of 15 bytes",
        1_091,
        [(0, 15), (0, 0)],
        15,
        CapsuleFault::Header,
    ),
    Spoilt(
        "a nonce of 15 bytes",
        1_091,
        NONE,
        15,
        CapsuleFault::NonceSize,
    ),
    Spoilt(
        "a nonce of 17 bytes",
        1_091,
        NONE,
        17,
        CapsuleFault::NonceSize,
    ),
    Spoilt(
        "a nonce of 15 bytes, last bit of the tag",
        1_091,
        [(1_090, 1), (0, 0)],
        15,
        CapsuleFault::NonceSize,
    ),
    Spoilt(
        "first bit of the encapsulation",
        1_091,
        [(7, 1), (0, 0)],
        16,
        CapsuleFault::Failed,
    ),
    Spoilt(
        "last bit of the encapsulation",
        1_091,
        [(1_045, 1), (0, 0)],
        16,
        CapsuleFault::Failed,
    ),
    Spoilt(
        "last bit of the tag",
        1_091,
        [(1_090, 1), (0, 0)],
        16,
        CapsuleFault::Failed,
    ),
    Spoilt("a byte behind it", 1_092, NONE, 16, CapsuleFault::Failed),
];

// The same of sntrup857, whose encapsulations have 1,184 bytes.
static REQUESTS_857: [Spoilt; 2] = [
    Spoilt("15 bytes of a tag", 1_206, NONE, 16, CapsuleFault::Short),
    Spoilt("a tag alone", 1_207, NONE, 16, CapsuleFault::Failed),
];

// Of a response with AES-128-GCM: 16 bytes of nonce, and 36 of the ciphertext.
static RESPONSES: [Spoilt; 8] = [
    Spoilt("no byte", 0, NONE, 16, CapsuleFault::Short),
    Spoilt("a nonce", 16, NONE, 16, CapsuleFault::Short),
    Spoilt("15 bytes of a tag", 31, NONE, 16, CapsuleFault::Short),
    Spoilt("a tag alone", 32, NONE, 16, CapsuleFault::Failed),
    Spoilt(
        "first bit of the nonce",
        52,
        [(0, 1), (0, 0)],
        16,
        CapsuleFault::Failed,
    ),
    Spoilt(
        "first bit of the ciphertext",
        52,
        [(16, 1), (0, 0)],
        16,
        CapsuleFault::Failed,
    ),
    Spoilt(
        "last bit of the tag",
        52,
        [(51, 1), (0, 0)],
        16,
        CapsuleFault::Failed,
    ),
    Spoilt("a byte behind it", 53, NONE, 16, CapsuleFault::Failed),
];

// The same with AES-256-GCM, and 32 bytes of nonce.
static RESPONSES_256: [Spoilt; 2] = [
    Spoilt("15 bytes of a tag", 47, NONE, 32, CapsuleFault::Short),
    Spoilt("a tag alone", 48, NONE, 32, CapsuleFault::Failed),
];

// A response that isn't spoilt, taken with another encapsulation.
static WHOLE: Spoilt = Spoilt("another encapsulation", 52, NONE, 16, CapsuleFault::Failed);

fn assert_request_refused<R: Abort + Threads + Sync, S: KemParams>(
    rt: &R,
    alloc: Global,
    secret: &SecretKey<S>,
    request: &[u8],
    case: &Spoilt,
) {
    let (what, size, want) = (case.0, case.3, case.4);
    assert!(rt; size <= 32, "a nonce");
    let nonce = [0xaa; 32];
    let request = spoil(rt, alloc, request, case);
    match answered(rt, alloc, secret, request.as_slice(), &nonce[..size], REPLY) {
        Ok(_pair) => panic!(rt; "answered: {what}"),
        Err(fault) => assert_same(rt, fault, want, what),
    }
}

fn assert_response_refused<R: Abort + Threads + Sync>(
    rt: &R,
    alloc: Global,
    asked: &Asked,
    response: &[u8],
    case: &Spoilt,
) {
    let (what, want) = (case.0, case.4);
    let response = spoil(rt, alloc, response, case);
    match taken(rt, alloc, asked, response.as_slice()) {
        Ok(_text) => panic!(rt; "taken: {what}"),
        Err(fault) => assert_same(rt, fault, want, what),
    }
}

const SUITE: Suite = Suite {
    kem: 63_329,
    kdf: Kdf::Sha256,
    aead: Aead::Aes128,
};

const SUITE_256: Suite = Suite {
    kem: 63_329,
    kdf: Kdf::Sha256,
    aead: Aead::Aes256,
};

// A secret key, and the question as a request to its public key.
fn requested<S: KemParams>(rt: &impl Abort, alloc: Global) -> (SecretKey<S>, Asked, ByteList) {
    let (public, secret) = keys_of::<S>(rt, alloc);
    let (asked, request) = asked(rt, alloc, &public, &SUITE, QUESTION);
    (secret, asked, request)
}

// The question that was asked, and the response to it.
fn responded<R: Abort + Threads + Sync>(rt: &R, alloc: Global) -> (Asked, ByteList) {
    let (secret, asked, request) = requested::<Sntrup761>(rt, alloc);
    let answer = answered(rt, alloc, &secret, request.as_slice(), &[0xaa; 16], REPLY);
    let (_question, response) = answer.expect(rt, "an answer");
    (asked, response)
}

#[test]
fn requests_are_refused_by_the_first_cause(rt: HostRuntime) {
    let alloc = rt.alloc();
    let (secret, asked, request) = requested::<Sntrup761>(&rt, alloc);
    drop(asked);
    let front = [0x07, 0xf7, 0x61, 0x00, 0x01, 0x00, 0x01];
    assert!(rt; request.as_slice().starts_with(&front), "the header");
    for case in &REQUESTS {
        assert_request_refused(&rt, alloc, &secret, request.as_slice(), case);
    }
}

// Spoilt responses, and one that is taken with another encapsulation.
#[test]
fn responses_are_refused_by_the_first_cause(rt: HostRuntime) {
    let alloc = rt.alloc();
    let (asked, response) = responded(&rt, alloc);
    for case in &RESPONSES {
        assert_response_refused(&rt, alloc, &asked, response.as_slice(), case);
    }
    let other = with_zeros(&rt, alloc, asked);
    assert_response_refused(&rt, alloc, &other, response.as_slice(), &WHOLE);
    drop(other);
}

// The same with an encapsulation of zeros.
fn with_zeros(rt: &impl Abort, alloc: Global, asked: Asked) -> Asked {
    let zeros = vec![in alloc; 0u8; 1_039].expect(rt, "memory");
    Asked {
        context: asked.context,
        enc: PlainList::from_vec(zeros),
    }
}

// The response is of zeros.
#[test]
fn the_shortest_messages_of_sntrup857_are_read(rt: HostRuntime) {
    let alloc = rt.alloc();
    let (secret, asked, request) = requested::<Sntrup857>(&rt, alloc);
    for case in &REQUESTS_857 {
        assert_request_refused(&rt, alloc, &secret, request.as_slice(), case);
    }
    for case in &RESPONSES[2..4] {
        assert_response_refused(&rt, alloc, &asked, &[], case);
    }
}

// They are of zeros.
#[test]
fn the_shortest_responses_with_aes_256_are_read(rt: HostRuntime) {
    let alloc = rt.alloc();
    let (public, _secret) = keys_of::<Sntrup761>(&rt, alloc);
    let (asked, _request) = asked(&rt, alloc, &public, &SUITE_256, QUESTION);
    for case in &RESPONSES_256 {
        assert_response_refused(&rt, alloc, &asked, &[], case);
    }
}
