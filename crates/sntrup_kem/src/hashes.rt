//! The hashes.

ghost use Rattle.std.specs.Prelude.{◌≡◌, ◌++◌, take};
ghost use Rattle.sntrup_kem.specs.Hashes.{hash, key_hash, hash_confirm, hash_session};

use sha2::{Digest, Sha512};

// The first 32 of 64 bytes.
fn first_half(bytes: &[u8; 64]) -> [u8; 32]
    ensures { result ≡ take 32 bytes.now }
{
    let mut half = [0u8; 32];
    half.copy_from_slice(&bytes[..32]);
    half
}

// Hash_b of two strings, one after the other (NTRU Prime round 3, Hash).
#[tactic(auto, unfolding(crate::specs::Hashes::hash))]
fn hash_joined(b: u8, first: &[u8], second: &[u8]) -> [u8; 32]
    ensures { result ≡ hash b (first.now ++ second.now) }
{
    let mut hasher = Sha512::new();
    hasher.update(&[b]);
    hasher.update(first);
    hasher.update(second);
    first_half(&hasher.finalize())
}

// Hash_b (NTRU Prime round 3, Hash).
fn hash(b: u8, bytes: &[u8]) -> [u8; 32]
    ensures { result ≡ hash b bytes.now }
{
    hash_joined(b, bytes, &[])
}

// The hash of a public key, which its secret key has as its cache.
pub(crate) fn key_hash(public: &[u8]) -> [u8; 32]
    ensures { result ≡ key_hash public.now }
{
    hash(4, public)
}

// HashConfirm (NTRU Prime round 3), of the coding of r and the cache.
pub(crate) fn hash_confirm(r_enc: &[u8], cache: &[u8]) -> [u8; 32]
    ensures { result ≡ hash_confirm r_enc.now cache.now }
{
    hash_joined(2, &hash(3, r_enc), cache)
}

// HashSession (NTRU Prime round 3): `b` is 1 with the coding of r, and 0 with rho.
pub(crate) fn hash_session(b: u8, y: &[u8], enc: &[u8]) -> [u8; 32]
    ensures { result ≡ hash_session b y.now enc.now }
{
    hash_joined(b, &hash(3, y), enc)
}
