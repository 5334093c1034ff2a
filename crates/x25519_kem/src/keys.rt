//! Key pairs.

ghost use Rattle.std.specs.Prelude.{◌≡◌, ◌+◌, ◌^◌, ◌≤◌, ◌++◌, take};
ghost use Rattle.std.specs.Int.{w32, to_le_bytes};
ghost use Rattle.x25519.specs.Laws.{base};
ghost use Rattle.x25519_kem.specs.Kem.{public_key, derived, word_bytes, generated};

use hkdf_labelled::{Kdf, labeled_expand_with, labeled_extract_with};
use rand_words::Words;
use std::marker::Model;
use x25519::{clamped, x25519};

// suite_id (RFC 9180, 4.1): "KEM", and the kem_id in two bytes.
pub(crate) const SUITE_ID: [u8; 5] = *b"KEM\x00\x20";

// The u-coordinate of the base point, 9 (RFC 7748, 4.1).
const BASE: [u8; 32] = [
    9, 0, 0, 0, 0, 0, 0, 0, 0, 0, 0, 0, 0, 0, 0, 0, 0, 0, 0, 0, 0, 0, 0, 0, 0, 0, 0, 0, 0, 0, 0, 0,
];

/// A secret key and its public key, 32 bytes each (RFC 9180, 7.1.1 and 7.1.2). Contracts see the
/// secret key.
#[derive(Drop)]
pub struct KeyPair {
    secret: [u8; 32],
    public: [u8; 32],
}

impl Model for KeyPair {
    ghost use Rattle.std.specs.Prelude.{ℕ, List, ◌≡◌};
    ghost use Rattle.x25519_kem.specs.Kem.{public_key};

    ghost Value = { List ℕ };

    ghost view = { λ k. k.secret };

    ghost invariant = { λ k. k.public ≡ public_key k.secret };
}

// Writes a word from a place on, its low byte first.
fn put_word(out: &mut [u8; 32], at: usize, word: u32)
    requires { at + 4 ≤ 32 }
    ensures { take (at + 4) out.new ≡ take at out.old ++ to_le_bytes w32 word }
{
    out[at..at + 4].copy_from_slice(&word.to_le_bytes());
}

// The next eight words as bytes, each its low byte first.
fn draw_bytes<R: Words>(words: &mut R) -> [u8; 32]
    requires { R.place words.old + 8 ≤ 2 ^ 32 }
    ensures bytes { result ≡ word_bytes (R.word words.old) (R.place words.old) 8 }
    ensures moves { R.place words.new ≡ R.place words.old + 8 }
    ensures stays { R.word words.new ≡ R.word words.old }
{
    let mut bytes = [0u8; 32];
    for i in 0..8usize {
        put_word(&mut bytes, 4 * i, words.next_word());
    }
    bytes
}

// The secret key of DeriveKeyPair.
fn derived(ikm: &[u8]) -> [u8; 32]
    ensures { result ≡ derived ikm.now }
{
    let dkp_prk = labeled_extract_with(Kdf::Sha256, &SUITE_ID, &[], b"dkp_prk", ikm);
    let mut secret = [0; 32];
    labeled_expand_with(
        Kdf::Sha256,
        &SUITE_ID,
        dkp_prk.as_slice(),
        b"sk",
        &[],
        &mut secret,
    );
    secret
}

impl KeyPair {
    /// The pair of a secret key (RFC 9180, 7.1.2), which may be any 32 bytes.
    ///
    /// It is kept as it was given. RFC 9180 has it clamped here: X25519 does that wherever the key is
    /// used, which gives the same (the law `a_clamped_scalar_gives_the_same` of `x25519`).
    pub fn from_secret(secret: &[u8; 32]) -> KeyPair
        ensures { result ≡ secret.now }
    {
        KeyPair {
            secret: *secret,
            public: x25519(secret, &BASE),
        }
    }

    /// GenerateKeyPair (RFC 9180, 4): the pair of the next eight words, whose 32 bytes are clamped.
    pub fn generate<R: Words>(words: &mut R) -> KeyPair
        requires { R.place words.old + 8 ≤ 2 ^ 32 }
        ensures key { result ≡ generated (R.word words.old) (R.place words.old) }
        ensures moves { R.place words.new ≡ R.place words.old + 8 }
        ensures stays { R.word words.new ≡ R.word words.old }
    {
        KeyPair::from_secret(&clamped(&draw_bytes(words)))
    }

    /// DeriveKeyPair (RFC 9180, 7.1.3): the pair of a seed. The RFC wants 32 bytes of it at least; any
    /// length is taken here.
    pub fn derive(ikm: &[u8]) -> KeyPair
        ensures { result ≡ derived ikm.now }
    {
        KeyPair::from_secret(&derived(ikm))
    }

    /// The secret key.
    pub fn secret(&self) -> &[u8; 32]
        ensures { result.now ≡ self.now }
    {
        &self.secret
    }

    /// The public key.
    pub fn public(&self) -> &[u8; 32]
        ensures { result.now ≡ public_key self.now }
    {
        &self.public
    }
}
