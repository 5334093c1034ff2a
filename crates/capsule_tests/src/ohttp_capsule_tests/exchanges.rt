//! Whole exchanges against another program.

ghost use Rattle.std.specs.Prelude.{IsTrue};
ghost use Rattle.hkdf_labelled.specs.Suites.{encrypts};

use super::calls::{QUESTION, REPLY, answered, asked, keys_of, taken};
use crate::expected::assert_same;
use byte_strings::ByteList;
use hex::FromHex;
use hkdf_labelled::{Aead, Kdf, Suite};
use ohttp_capsule::Asked;
use ring_core::{Sntrup761, Sntrup857};
use sha2::{Digest, Sha256};
use sntrup_kem::{KemParams, PublicKey, SecretKey};
use std::alloc::Global;
use std::process::Abort;
use std::thread::Threads;

struct ExchangeCase {
    kdf: Kdf,
    aead: Aead,
    sha256_request: &'static str,
    sha256_response: &'static str,
}

// tools/vectors/ohttp_capsules.py, by hashlib, hmac, `cryptography` and the KEM of tools/reference: the
// key of stream 0 of the zero seed, r from stream 1, key identifier 7, and a nonce of bytes aa.
static EXCHANGES_761: [ExchangeCase; 6] = [
    ExchangeCase {
        kdf: Kdf::Sha256,
        aead: Aead::Aes128,
        sha256_request: "93907ac15ce7d2a599ebc87db0e8713afc9d50e33be3b3e216939b4e9cefedc4",
        sha256_response: "82f6acbd7932b106aeaf3416b4b7b0d8e7c9916f689b072d8d287b85202e058e",
    },
    ExchangeCase {
        kdf: Kdf::Sha256,
        aead: Aead::Aes256,
        sha256_request: "2a2491c3ec0a1057ad098c073685b31069626d47687d2eb251bcdba33903b470",
        sha256_response: "0d00f0133abdd18cc0effa5c3527b5b9c05fb2fe74f48bad7e6e0ef9e5b91d1f",
    },
    ExchangeCase {
        kdf: Kdf::Sha384,
        aead: Aead::Aes128,
        sha256_request: "52ec6aa2d145bdcee06d09eb80a68ce79a22f23596b1b3c93966d09ac8d23234",
        sha256_response: "7ddf6145c598a4f83f1b324dc0473a741683c13620b54f5ec8479a60721cf75c",
    },
    ExchangeCase {
        kdf: Kdf::Sha384,
        aead: Aead::Aes256,
        sha256_request: "db5f0ed3c8e1a77c944a82d83d165d877a3c416d183d35443d5f3d78c9370c32",
        sha256_response: "2ee8a8fa9cecd0ee66d5235862409067c1d950add600efbef57210a500c1e306",
    },
    ExchangeCase {
        kdf: Kdf::Sha512,
        aead: Aead::Aes128,
        sha256_request: "e754f79fb25cf311c1c4249905cdec01bef5a56b3fb5fd3d0b8ec8259f917979",
        sha256_response: "58fc77099c483d6cf6917d07c7cf65e3809eca320c5b30228cb1ee4cbbc774e2",
    },
    ExchangeCase {
        kdf: Kdf::Sha512,
        aead: Aead::Aes256,
        sha256_request: "7e0ef8e096b9c82de85a1c6764b521334d9e4169be818db8bf167a36d85bad08",
        sha256_response: "bbdcb52bae391ac84138bcf6c2ebd0597102a4a6d0b0abe1f3e3b61fa19b706f",
    },
];

static EXCHANGES_857: [ExchangeCase; 6] = [
    ExchangeCase {
        kdf: Kdf::Sha256,
        aead: Aead::Aes128,
        sha256_request: "35f6154860ae0de6afccd1d72720ff6c0ffdf46dabe25fc66f415afa84c2a6a7",
        sha256_response: "8b69348fbff87dc32a8981c7f5cedc8b308b95aa1219f47d84709207ded93f9c",
    },
    ExchangeCase {
        kdf: Kdf::Sha256,
        aead: Aead::Aes256,
        sha256_request: "8ceb11ba3a3cfad98ae9701cacda85b6a301f8a9bde2761e7a33c3c7db001de6",
        sha256_response: "ca11c9c758637ac5245c7fed41c2128e7c60d7d5a1500edacb3613f27aaae505",
    },
    ExchangeCase {
        kdf: Kdf::Sha384,
        aead: Aead::Aes128,
        sha256_request: "43a8bb5e45b50bfd89696975631775f37bb0c3de7be1562c9bce5767805874c7",
        sha256_response: "b9336fb33cf63c6649e2b1761265734b79b448e06c37194cca48f7ee18c57f6d",
    },
    ExchangeCase {
        kdf: Kdf::Sha384,
        aead: Aead::Aes256,
        sha256_request: "7b2a74c65fdc852e19c30551922059ae350ce04f1b13687431e9ac3210590327",
        sha256_response: "1011312da099e5209e556278e5701886460578eb8a16e3aa64fe099c75ef86d7",
    },
    ExchangeCase {
        kdf: Kdf::Sha512,
        aead: Aead::Aes128,
        sha256_request: "3782c8bd0314bf3c8cf526d1da6a5cae4744c649478303d03a8d065be4400fd3",
        sha256_response: "99cc890a030c11975bd64d7e4221c7578ae2060f71086c23d6ff5743a1bdcab6",
    },
    ExchangeCase {
        kdf: Kdf::Sha512,
        aead: Aead::Aes256,
        sha256_request: "db34d8148cb91429d7d1514e67ecc54a1136c9761ba6a0ace844dbdc84fb1765",
        sha256_response: "b36ddce86f4d0b154890cb51b53b7dc02b5141da71f6296a1d43532885006c4d",
    },
];

fn assert_encrypts(rt: &impl Abort, aead: Aead)
    ensures { IsTrue (encrypts aead) }
{
    match aead {
        Aead::Aes128 | Aead::Aes256 => {}
        Aead::ExportOnly => panic!(rt; "no cipher"),
    }
}

fn assert_digest(rt: &impl Abort, bytes: &[u8], digits: &str) {
    let want = <[u8; 32]>::from_hex(digits).expect(rt, "64 hex digits");
    assert_same(rt, Sha256::digest(bytes), want, digits);
}

// The response to a request, which asks this question.
fn response_to<R: Abort + Threads + Sync, S: KemParams>(
    rt: &R,
    alloc: Global,
    secret: &SecretKey<S>,
    request: &[u8],
    nonce: &[u8],
    question: &[u8],
    reply: &[u8],
) -> ByteList {
    let answer = answered(rt, alloc, secret, request, nonce, reply);
    let (asked, response) = answer.expect(rt, "an answer");
    assert!(rt; asked.as_slice() == question, "the question");
    response
}

fn assert_reply<R: Abort + Threads + Sync>(
    rt: &R,
    alloc: Global,
    asked: &Asked,
    response: &[u8],
    want: &[u8],
) {
    let reply = taken(rt, alloc, asked, response).expect(rt, "a reply");
    assert!(rt; reply.as_slice() == want, "the reply");
}

fn assert_exchange<R: Abort + Threads + Sync, S: KemParams>(
    rt: &R,
    alloc: Global,
    public: &PublicKey<S>,
    secret: &SecretKey<S>,
    case: &ExchangeCase,
) {
    let suite = Suite {
        kem: S::ID,
        kdf: case.kdf,
        aead: case.aead,
    };
    assert_encrypts(rt, suite.aead);
    let (asked, request) = asked(rt, alloc, public, &suite, QUESTION);
    assert_digest(rt, request.as_slice(), case.sha256_request);
    let nonce = [0xaa; 32];
    let size = if suite.aead == Aead::Aes128 { 16 } else { 32 };
    let (request, nonce) = (request.as_slice(), &nonce[..size]);
    let response = response_to(rt, alloc, secret, request, nonce, QUESTION, REPLY);
    assert_digest(rt, response.as_slice(), case.sha256_response);
    assert_reply(rt, alloc, &asked, response.as_slice(), REPLY);
    drop(asked);
}

#[test]
fn exchanges_are_those_of_another_program(rt: HostRuntime) {
    assert_exchanges::<_, Sntrup761>(&rt, rt.alloc(), &EXCHANGES_761);
    assert_exchanges::<_, Sntrup857>(&rt, rt.alloc(), &EXCHANGES_857);
}

fn assert_exchanges<R: Abort + Threads + Sync, S: KemParams>(
    rt: &R,
    alloc: Global,
    cases: &[ExchangeCase],
) {
    let (public, secret) = keys_of::<S>(rt, alloc);
    for case in cases {
        assert_exchange(rt, alloc, &public, &secret, case);
    }
}

// Texts of no byte, and of the most that there may be. sntrup857 has the longer encapsulations, and so
// its requests are the longest that are answered.
#[test]
fn texts_of_the_least_and_the_most_bytes_are_exchanged(rt: HostRuntime) {
    let alloc = rt.alloc();
    let (public, secret) = keys_of::<Sntrup857>(&rt, alloc);
    for length in [0, 1_048_576] {
        let text = vec![in alloc; 7u8; length].expect(&rt, "memory");
        assert_text(&rt, alloc, &public, &secret, &text);
    }
}

// The text is asked, and answered with itself.
fn assert_text<R: Abort + Threads + Sync>(
    rt: &R,
    alloc: Global,
    public: &PublicKey<Sntrup857>,
    secret: &SecretKey<Sntrup857>,
    text: &[u8],
) {
    let length = text.len();
    assert!(rt; length <= 1_048_576);
    let suite = Suite {
        kem: Sntrup857::ID,
        kdf: Kdf::Sha256,
        aead: Aead::Aes256,
    };
    let (asked, request) = asked(rt, alloc, public, &suite, text);
    let request = request.as_slice();
    assert_same(
        rt,
        request.len(),
        7 + 1_184 + length + 16,
        "size of the request",
    );
    let response = response_to(rt, alloc, secret, request, &[3; 32], text, text);
    let response = response.as_slice();
    assert_same(rt, response.len(), 32 + length + 16, "size of the response");
    assert_reply(rt, alloc, &asked, response, text);
    drop(asked);
}
