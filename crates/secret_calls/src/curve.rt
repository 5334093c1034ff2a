//! X25519, and the KEM over it.

use rand_words::SeedStream;
use x25519::x25519;
use x25519_kem::{KeyPair, decap, encap};

// Two strings, one after the other.
fn joined(one: &[u8; 32], other: &[u8; 32]) -> [u8; 64] {
    let mut bytes = [0; 64];
    bytes[..32].copy_from_slice(one);
    bytes[32..].copy_from_slice(other);
    bytes
}

// A scalar and a u-coordinate.
pub(crate) fn multiplied(secrets: &[u8]) -> Option<[u8; 32]> {
    let (scalar, rest) = secrets.split_first_chunk::<32>()?;
    Some(x25519(scalar, rest.first_chunk::<32>()?))
}

// A seed: the public key and the secret key.
pub(crate) fn generated(secrets: &[u8]) -> Option<[u8; 64]> {
    let seed = secrets.first_chunk::<32>()?;
    let pair = KeyPair::generate(&mut SeedStream::new(seed, 0));
    Some(joined(pair.public(), pair.secret()))
}

// A seed and a public key: the shared secret and the encapsulation.
pub(crate) fn encapsulated(secrets: &[u8]) -> Option<[u8; 64]> {
    let (seed, rest) = secrets.split_first_chunk::<32>()?;
    let public = rest.first_chunk::<32>()?;
    let made = encap(&mut SeedStream::new(seed, 1), public).ok()?;
    Some(joined(&made.shared_secret, &made.enc))
}

// A secret key and an encapsulation: the shared secret.
pub(crate) fn decapsulated(secrets: &[u8]) -> Option<[u8; 32]> {
    let (secret, rest) = secrets.split_first_chunk::<32>()?;
    let enc = rest.first_chunk::<32>()?;
    decap(enc, &KeyPair::from_secret(secret)).ok()
}
