//! Encapsulation and decapsulation.

ghost use Rattle.std.specs.Prelude.{◌≡◌, ◌+◌, ◌^◌, ◌≤◌, ◌++◌, ◌↔◌, take, replicate, Some, IsTrue, IsErr, IfOk};
ghost use Rattle.x25519.specs.Ladder.{x25519};
ghost use Rattle.x25519_kem.specs.Kem.{public_key, generated, extract_and_expand, encapsulated, decapsulated, IsZeroDh};

use crate::keys::{KeyPair, SUITE_ID};
use hkdf_labelled::{Kdf, labeled_expand_with, labeled_extract_with};
use rand_words::Words;
use x25519::x25519;

/// What Encap gives: the encapsulation, which goes to the other end, and the shared secret.
#[derive(Drop)]
pub struct Encapsulation {
    pub enc: [u8; 32],
    pub shared_secret: [u8; 32],
}

/// The output of X25519 is zero in each byte, which RFC 9180, 7.1.4 wants refused: the public key, or
/// the encapsulation, is a point of small order.
#[derive(Clone, Copy, Debug, PartialEq, Eq)]
pub struct ZeroDh;

// Whether all bytes are 0. Each byte is read.
fn is_zero(bytes: &[u8; 32]) -> bool
    ensures { IsTrue result ↔ (bytes.now ≡ replicate 32 0) }
{
    let mut found = 0u8;
    for byte in bytes {
        found |= *byte;
    }
    found == 0
}

// DH(sk, pk) (RFC 9180, 4.1), or the refusal.
fn exchanged(secret: &[u8; 32], public: &[u8; 32]) -> Result<[u8; 32], ZeroDh>
    ensures zero { IsErr result ↔ IsZeroDh secret.now public.now }
    ensures dh { IfOk result (λ dh. dh ≡ x25519 secret.now public.now) }
{
    let dh = x25519(secret, public);
    if is_zero(&dh) { Err(ZeroDh) } else { Ok(dh) }
}

// Writes 32 bytes from a place on.
fn put(out: &mut [u8; 64], at: usize, bytes: &[u8; 32])
    requires { at + 32 ≤ 64 }
    ensures { take (at + 32) out.new ≡ take at out.old ++ bytes.now }
{
    out[at..at + 32].copy_from_slice(bytes);
}

// kem_context (RFC 9180, 4.1): the encapsulation, and the public key.
fn kem_context(enc: &[u8; 32], public: &[u8; 32]) -> [u8; 64]
    ensures { result ≡ enc.now ++ public.now }
{
    let mut context = [0; 64];
    put(&mut context, 0, enc);
    put(&mut context, 32, public);
    context
}

// ExtractAndExpand (RFC 9180, 4.1).
fn extract_and_expand(dh: &[u8; 32], kem_context: &[u8; 64]) -> [u8; 32]
    ensures { result ≡ extract_and_expand dh.now kem_context.now }
{
    let eae_prk = labeled_extract_with(Kdf::Sha256, &SUITE_ID, &[], b"eae_prk", dh);
    let mut secret = [0; 32];
    labeled_expand_with(
        Kdf::Sha256,
        &SUITE_ID,
        eae_prk.as_slice(),
        b"shared_secret",
        kem_context,
        &mut secret,
    );
    secret
}

/// Encap (RFC 9180, 4.1): a shared secret for the holder of a public key, which may be any 32 bytes,
/// and the encapsulation that carries it. The ephemeral key is that of the next eight words.
pub fn encap<R: Words>(words: &mut R, public: &[u8; 32]) -> Result<Encapsulation, ZeroDh>
    requires { R.place words.old + 8 ≤ 2 ^ 32 }
    ensures zero { IsErr result
        ↔ IsZeroDh (generated (R.word words.old) (R.place words.old)) public.now }
    ensures value { IfOk result (λ e.
        encapsulated (R.word words.old) (R.place words.old) public.now ≡ Some e) }
    ensures moves { R.place words.new ≡ R.place words.old + 8 }
    ensures stays { R.word words.new ≡ R.word words.old }
{
    let ephemeral = KeyPair::generate(words);
    let dh = exchanged(ephemeral.secret(), public)?;
    let enc = *ephemeral.public();
    let shared_secret = extract_and_expand(&dh, &kem_context(&enc, public));
    Ok(Encapsulation { enc, shared_secret })
}

/// Decap (RFC 9180, 4.1): the shared secret that an encapsulation, which may be any 32 bytes, carries
/// to the holder of a secret key.
pub fn decap(enc: &[u8; 32], pair: &KeyPair) -> Result<[u8; 32], ZeroDh>
    ensures zero { IsErr result ↔ IsZeroDh pair.now enc.now }
    ensures value { IfOk result (λ secret. decapsulated pair.now enc.now ≡ Some secret) }
{
    let dh = exchanged(pair.secret(), enc)?;
    Ok(extract_and_expand(&dh, &kem_context(enc, pair.public())))
}
