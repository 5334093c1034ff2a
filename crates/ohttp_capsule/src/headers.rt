//! The front of a request: the key identifier, and the algorithms (RFC 9458, 4.1 and 4.3).

ghost use Rattle.std.specs.Prelude.{◌≡◌, bytes_eq, find};
ghost use Rattle.ohttp_capsule.specs.Headers.{header, request_info, suites_of, suite_named};

use hkdf_labelled::{Aead, Kdf, Suite};

/// The size of a header, in bytes.
pub(crate) const HEADER_SIZE: usize = 7;

/// hdr: the identifier of the key, and the ids of KEM, KDF and AEAD in two bytes each.
pub fn header(key_id: u8, suite: &Suite) -> [u8; 7]
    ensures { result ≡ header key_id suite.now }
{
    let [kem1, kem0] = suite.kem.to_be_bytes();
    let [kdf1, kdf0] = suite.kdf.id().to_be_bytes();
    let [aead1, aead0] = suite.aead.id().to_be_bytes();
    [key_id, kem1, kem0, kdf1, kdf0, aead1, aead0]
}

/// info: what the context of a request is bound to.
pub(crate) fn request_info(key_id: u8, suite: &Suite) -> [u8; 29]
    ensures { result ≡ request_info key_id suite.now }
{
    let mut info = *b"message/bhttp request\0.......";
    info[22..].copy_from_slice(&header(key_id, suite));
    info
}

// The algorithms that go with a KEM.
#[tactic(auto, unfolding(crate::specs::Headers::suites_of))]
fn suites_of(kem: u16) -> [Suite; 6]
    ensures { result ≡ suites_of kem }
{
    [
        Suite {
            kem,
            kdf: Kdf::Sha256,
            aead: Aead::Aes128,
        },
        Suite {
            kem,
            kdf: Kdf::Sha256,
            aead: Aead::Aes256,
        },
        Suite {
            kem,
            kdf: Kdf::Sha384,
            aead: Aead::Aes128,
        },
        Suite {
            kem,
            kdf: Kdf::Sha384,
            aead: Aead::Aes256,
        },
        Suite {
            kem,
            kdf: Kdf::Sha512,
            aead: Aead::Aes128,
        },
        Suite {
            kem,
            kdf: Kdf::Sha512,
            aead: Aead::Aes256,
        },
    ]
}

// Whether these bytes are the header of this key with these algorithms.
fn is_header(key_id: u8, suite: &Suite, bytes: &[u8]) -> bool
    ensures { result ≡ bytes_eq (header key_id suite.now) bytes.now }
{
    &header(key_id, suite)[..] == bytes
}

// The first of these suites whose header the bytes are.
fn first_named(key_id: u8, suites: &[Suite], bytes: &[u8]) -> Option<Suite>
    ensures { result ≡ find (λ suite. bytes_eq (header key_id suite) bytes.now) suites.now }
{
    suites
        .iter()
        .find(|suite| is_header(key_id, suite, bytes))
        .copied()
}

/// The algorithms that a header names to the key of this identifier and KEM, where it names it and
/// algorithms that encrypt. Bytes of another size than 7 are no header.
pub fn suite_named(key_id: u8, kem: u16, bytes: &[u8]) -> Option<Suite>
    ensures { result ≡ suite_named key_id kem bytes.now }
{
    first_named(key_id, &suites_of(kem), bytes)
}
