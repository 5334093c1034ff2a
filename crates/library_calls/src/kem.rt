//! The KEM of Streamlined NTRU Prime (NTRU Prime round 3, KeyGen, Encap and Decap), with random words from
//! a stream of the caller's seed.

ghost use Rattle.std.specs.Prelude.{◌≡◌, ◌≢◌, ◌⊎◌, ◌↔◌, length, OnOk, OnErr};
ghost use Rattle.sntrup_core.specs.Keys.{IsExhausted, FindsNoInverse};
ghost use Rattle.sntrup_kem.specs.Kem.{HasMalformedPart, decapsulated, drawn_r, enc_of, session_of};
ghost use Rattle.library_calls.specs.Keys.{IsPair};
ghost use Rattle.library_calls.specs.Statuses.{done, no_memory, refused_exhausted, refused_noinverse, refused_form};

use crate::statuses::{NO_MEMORY, REFUSED_EXHAUSTED, REFUSED_FORM, REFUSED_NOINVERSE};
use rand_words::Words;
use ring_lanes::Lanes;
use sntrup_kem::{
    KemParams, KeyBytesFault, KeyFault, PublicKey, SecretKey, decap, encap, generate,
};
use std::alloc::{AllocError, Global};

/// Puts a pair of keys of a set, from the words of a source that stands at its first.
pub fn put_pair<S: KemParams, R: Words>(
    alloc: Global,
    words: &mut R,
    public: &mut [u8],
    secret: &mut [u8],
) -> u32
    requires start { R.place words.old ≡ 0 }
    requires public { length public.old ≡ S.PUBLIC }
    requires secret { length secret.old ≡ S.SECRET }
    ensures keys { result ≡ done → IsPair S.set (R.word words.old) public.new secret.new }
    ensures exhausted { result ≢ no_memory
        → ((result ≡ refused_exhausted) ↔ IsExhausted S.set (R.word words.old) 0) }
    ensures noinverse { result ≢ no_memory
        → ((result ≡ refused_noinverse) ↔ FindsNoInverse S.set (R.word words.old) 0) }
    ensures statuses { (result ≡ done) ⊎ (result ≡ no_memory) ⊎ (result ≡ refused_exhausted)
        ⊎ (result ≡ refused_noinverse) }
    ensures refused { result ≢ done
        → (public.new ≡ public.old) × (secret.new ≡ secret.old) }
{
    match generate::<S, R, Lanes>(alloc, words, &Lanes) {
        Ok((pk, sk)) => {
            public.copy_from_slice(pk.as_slice());
            secret.copy_from_slice(sk.as_slice());
            0
        }
        Err(KeyFault::Exhausted) => REFUSED_EXHAUSTED,
        Err(KeyFault::NoInverse) => REFUSED_NOINVERSE,
        Err(KeyFault::OutOfMemory) => NO_MEMORY,
    }
}

// Encap with the words of a source that stands at its first.
fn encapsulated<S: KemParams, R: Words>(
    alloc: Global,
    words: &mut R,
    public: &PublicKey<S>,
    enc: &mut [u8],
    key: &mut [u8; 32],
) -> Result<(), AllocError>
    requires start { R.place words.old ≡ 0 }
    requires enc { length enc.old ≡ S.ENC }
    ensures enc { OnOk result (enc.new
        ≡ enc_of S.set public.now (drawn_r S.set (R.word words.old) 0)) }
    ensures key { OnOk result (key.new
        ≡ session_of S.set public.now (drawn_r S.set (R.word words.old) 0)) }
    ensures refused { OnErr result ((enc.new ≡ enc.old) × (key.new ≡ key.old)) }
{
    let (sent, session) = encap(alloc, words, &Lanes, public)?;
    enc.copy_from_slice(sent.as_slice());
    key.copy_from_slice(&session);
    Ok(())
}

/// Encap to the public key of these bytes, with the words of a source that stands at its first: puts the
/// encapsulation and the session key.
pub fn put_enc<S: KemParams, R: Words>(
    alloc: Global,
    words: &mut R,
    public: &[u8],
    enc: &mut [u8],
    key: &mut [u8; 32],
) -> u32
    requires start { R.place words.old ≡ 0 }
    requires public { length public.now ≡ S.PUBLIC }
    requires enc { length enc.old ≡ S.ENC }
    ensures enc { result ≡ done → enc.new
        ≡ enc_of S.set public.now (drawn_r S.set (R.word words.old) 0) }
    ensures key { result ≡ done → key.new
        ≡ session_of S.set public.now (drawn_r S.set (R.word words.old) 0) }
    ensures statuses { (result ≡ done) ⊎ (result ≡ no_memory) }
    ensures refused { result ≢ done → (enc.new ≡ enc.old) × (key.new ≡ key.old) }
{
    let Ok(public) = PublicKey::<S>::from_bytes(alloc, public) else {
        return NO_MEMORY;
    };
    match encapsulated::<S, R>(alloc, words, &public, enc, key) {
        Ok(()) => 0,
        Err(_error) => NO_MEMORY,
    }
}

/// Decap of an encapsulation with the secret key of these bytes: puts the session key.
pub fn put_session<S: KemParams>(
    alloc: Global,
    enc: &[u8],
    secret: &[u8],
    key: &mut [u8; 32],
) -> u32
    requires enc { length enc.now ≡ S.ENC }
    requires secret { length secret.now ≡ S.SECRET }
    ensures key { result ≡ done → key.new ≡ decapsulated S.set secret.now enc.now }
    ensures form { result ≢ no_memory
        → ((result ≡ refused_form) ↔ HasMalformedPart S.set secret.now) }
    ensures statuses { (result ≡ done) ⊎ (result ≡ no_memory) ⊎ (result ≡ refused_form) }
    ensures refused { result ≢ done → key.new ≡ key.old }
{
    let secret = match SecretKey::<S>::from_bytes(alloc, secret) {
        Ok(secret) => secret,
        Err(KeyBytesFault::OutOfMemory) => return NO_MEMORY,
        Err(KeyBytesFault::Form) => return REFUSED_FORM,
        Err(KeyBytesFault::Length) => unreachable!(),
    };
    match decap(alloc, &Lanes, enc, &secret) {
        Ok(session) => {
            key.copy_from_slice(&session);
            0
        }
        Err(_error) => NO_MEMORY,
    }
}
