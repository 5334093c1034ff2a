//! The KEM of both parameter sets, with each multiplier.

use rand_words::{SeedStream, short_random};
use ring_core::{Multiplier, Plain, Sntrup761, Sntrup857};
use ring_karatsuba::Karatsuba;
use ring_lanes::Lanes;
use sntrup_kem::{KemParams, PublicKey, SecretKey, decap, encap, generate};
use std::alloc::Global;

// The bytes of lists, one after the other.
fn joined(alloc: Global, one: &[u8], other: &[u8]) -> Option<Vec<u8>> {
    let mut bytes = Vec::new(alloc);
    bytes.extend_from_slice(one).ok()?;
    bytes.extend_from_slice(other).ok()?;
    Some(bytes)
}

// A seed: Short, each coefficient as a byte.
fn short<S: KemParams>(alloc: Global, secrets: &[u8]) -> Option<Vec<u8>> {
    let seed = secrets.first_chunk::<32>()?;
    let made = short_random::<S, SeedStream>(alloc, &mut SeedStream::new(seed, 1)).ok()?;
    let mut bytes = Vec::new(alloc);
    for coefficient in made.as_slice() {
        bytes.push(coefficient.cast_unsigned()).ok()?;
    }
    Some(bytes)
}

// A seed: the public key and the secret key.
fn keygen<S: KemParams, M: Multiplier>(alloc: Global, mult: &M, secrets: &[u8]) -> Option<Vec<u8>> {
    let seed = secrets.first_chunk::<32>()?;
    let (public, secret) = generate::<S, SeedStream, M>(
        alloc,
        &mut SeedStream::new(seed, 0),
        mult,
    ).ok()?;
    joined(alloc, public.as_slice(), secret.as_slice())
}

// A seed and a public key: the session key and the encapsulation.
fn encapsulated<S: KemParams, M: Multiplier>(
    alloc: Global,
    mult: &M,
    secrets: &[u8],
) -> Option<Vec<u8>> {
    let (seed, public) = secrets.split_first_chunk::<32>()?;
    let public = PublicKey::<S>::from_bytes(alloc, public).ok()?;
    let (enc, key) = encap(alloc, &mut SeedStream::new(seed, 1), mult, &public).ok()?;
    joined(alloc, &key, enc.as_slice())
}

// A secret key and an encapsulation: the session key.
fn decapsulated<S: KemParams, M: Multiplier>(
    alloc: Global,
    mult: &M,
    secrets: &[u8],
) -> Option<Vec<u8>> {
    let (secret, enc) = secrets.split_at_checked(S::SECRET)?;
    if enc.len() != S::ENC {
        return None;
    }
    let secret = SecretKey::<S>::from_bytes(alloc, secret).ok()?;
    let key = decap(alloc, mult, enc, &secret).ok()?;
    joined(alloc, &key, &[])
}

// A call with this multiplier.
fn with<S: KemParams, M: Multiplier>(
    alloc: Global,
    mult: &M,
    call: &str,
    secrets: &[u8],
) -> Option<Vec<u8>> {
    match call {
        "short" => short::<S>(alloc, secrets),
        "keygen" => keygen::<S, M>(alloc, mult, secrets),
        "encap" => encapsulated::<S, M>(alloc, mult, secrets),
        "decap" => decapsulated::<S, M>(alloc, mult, secrets),
        _ => None,
    }
}

// A call of this set, with the multiplier of this name.
fn of_set<S: KemParams>(
    alloc: Global,
    call: &str,
    multiplier: &str,
    secrets: &[u8],
) -> Option<Vec<u8>> {
    match multiplier {
        "plain" => with::<S, Plain>(alloc, &Plain, call, secrets),
        "karatsuba" => with::<S, Karatsuba>(alloc, &Karatsuba, call, secrets),
        "lanes" => with::<S, Lanes>(alloc, &Lanes, call, secrets),
        _ => None,
    }
}

// What a call of the KEM makes: the second word is the set, the third the multiplier.
pub(crate) fn answer(
    alloc: Global,
    call: &str,
    words: &[String],
    secrets: &[u8],
) -> Option<Vec<u8>> {
    let multiplier = words.get(2)?;
    match words.get(1)?.as_str() {
        "761" => of_set::<Sntrup761>(alloc, call, multiplier, secrets),
        "857" => of_set::<Sntrup857>(alloc, call, multiplier, secrets),
        _ => None,
    }
}
