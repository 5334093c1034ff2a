//! How keys are made from random words.

ghost use Rattle.std.specs.Prelude.{◌≡◌, ◌≢◌, ◌↔◌, ℕ, ◌+◌, ◌*◌, ◌^◌, ◌<◌, ◌≤◌, length, take, ◌++◌, IfOk, IfErr, OnOk, vec_len};
ghost use Rattle.radix_pack.specs.Codings.{small_length, small_encode, rq_length, rq_encode, IsMalformed};
ghost use Rattle.rand_words.specs.Words.{TakesAtMost};
ghost use Rattle.sntrup_core.specs.Keys.{FindsG, IsExhausted, FindsNoInverse};
ghost use Rattle.sntrup_kem.specs.Sizes.{small_size, rho_words};
ghost use Rattle.sntrup_kem.specs.Hashes.{key_hash};
ghost use Rattle.sntrup_kem.specs.Kem.{word_bytes, drawn_rho, IsCodedKey, IsGenerated};

use crate::hashes::key_hash;
use crate::keys::{PublicKey, SecretKey, small_size};
use crate::params::KemParams;
use byte_strings::{ByteList, PlainList};
use radix_pack::{rq_encode, small_encode};
use rand_words::Words;
use ring_core::{Multiplier, Params};
use sntrup_core::{KeyFault, PublicPoly, SecretPolys, keygen};
use std::alloc::{AllocError, Global};

// The codings of a key.
#[derive(Drop)]
struct CodedKey {
    public: ByteList,
    f: ByteList,
    ginv: ByteList,
}

// The codings of what KeyGen gave.
fn coded<S: Params>(
    alloc: Global,
    public: &PublicPoly<S>,
    secret: &SecretPolys<S>,
) -> Result<CodedKey, KeyFault>
    ensures codings { IfOk result (λ k.
        (k.public ≡ rq_encode S.set public.now.h)
        × (k.f ≡ small_encode S.set.p secret.now.f)
        × (k.ginv ≡ small_encode S.set.p secret.now.ginv)) }
    ensures counts { IfOk result (λ k.
        (length k.public ≡ rq_length S.set)
        × (length k.f ≡ small_length S.set.p)
        × (length k.ginv ≡ small_length S.set.p)) }
    ensures fault { IfErr result (λ fault. fault ≡ KeyFault.OutOfMemory) }
{
    Ok(CodedKey {
        public: rq_encode(alloc, &public.h)?,
        f: small_encode(alloc, &secret.f)?,
        ginv: small_encode(alloc, &secret.ginv)?,
    })
}

// KeyGen, and its codings.
fn coded_key<S: Params, R: Words, M: Multiplier>(
    alloc: Global,
    words: &mut R,
    mult: &M,
) -> Result<CodedKey, KeyFault>
    requires { R.place words.old + 65 * S.set.p ≤ 2 ^ 32 }
    ensures key { IfOk result (λ k. (j : ℕ)
        × FindsG S.set (R.word words.old) (R.place words.old) j
        × (j < 64)
        × (R.place words.new ≡ R.place words.old + (j + 2) * S.set.p)
        × IsCodedKey S.set (R.word words.old) (R.place words.old) j k.public k.f k.ginv) }
    ensures counts { IfOk result (λ k.
        (length k.public ≡ rq_length S.set)
        × (length k.f ≡ small_length S.set.p)
        × (length k.ginv ≡ small_length S.set.p)) }
    ensures forms { IfOk result (λ k.
        (¬ IsMalformed S.set.p k.f) × (¬ IsMalformed S.set.p k.ginv)) }
    ensures exhausted { result ≢ Err KeyFault.OutOfMemory → ((result ≡ Err KeyFault.Exhausted)
        ↔ IsExhausted S.set (R.word words.old) (R.place words.old)) }
    ensures no_inverse { result ≢ Err KeyFault.OutOfMemory → ((result ≡ Err KeyFault.NoInverse)
        ↔ FindsNoInverse S.set (R.word words.old) (R.place words.old)) }
    ensures taken { result ≢ Err KeyFault.OutOfMemory
        → (j : ℕ) → FindsG S.set (R.word words.old) (R.place words.old) j
        → R.place words.new ≡ R.place words.old + (j + 2) * S.set.p }
    ensures exhausted_taken { result ≡ Err KeyFault.Exhausted
        → R.place words.new ≡ R.place words.old + 64 * S.set.p }
    ensures at_most { TakesAtMost (65 * S.set.p) (R.place words.old) (R.place words.new) }
    ensures stays { R.word words.new ≡ R.word words.old }
{
    let (public, secret) = keygen::<S, R, M>(alloc, words, mult)?;
    coded(alloc, &public, &secret)
}

// The next words as bytes, each its low byte first.
fn draw_bytes<R: Words>(alloc: Global, words: &mut R, count: usize) -> Result<Vec<u8>, AllocError>
    requires { R.place words.old + count ≤ 2 ^ 32 }
    ensures bytes { IfOk result (λ v. v.items
        ≡ word_bytes (R.word words.old) (R.place words.old) count) }
    ensures taken { OnOk result (R.place words.new ≡ R.place words.old + count) }
    ensures at_most { TakesAtMost count (R.place words.old) (R.place words.new) }
    ensures stays { R.word words.new ≡ R.word words.old }
{
    let mut bytes = Vec::new(alloc);
    for _word in 0..count {
        bytes.extend_from_slice(&words.next_word().to_le_bytes())?;
    }
    Ok(bytes)
}

// rho, from the next words.
fn draw_rho<S: Params, R: Words>(alloc: Global, words: &mut R) -> Result<ByteList, AllocError>
    requires { R.place words.old + rho_words S.set ≤ 2 ^ 32 }
    ensures bytes { IfOk result (λ b. b ≡ drawn_rho S.set (R.word words.old) (R.place words.old)) }
    ensures count { IfOk result (λ b. length b ≡ small_size S.set) }
    ensures taken { OnOk result (R.place words.new ≡ R.place words.old + rho_words S.set) }
    ensures at_most { TakesAtMost (rho_words S.set) (R.place words.old) (R.place words.new) }
    ensures stays { R.word words.new ≡ R.word words.old }
{
    let size = small_size::<S>();
    let mut bytes = draw_bytes(alloc, words, size.div_ceil(4))?;
    bytes.truncate(size);
    Ok(PlainList::from_vec(bytes))
}

// The parts of a secret key, one after the other.
fn secret_bytes(alloc: Global, key: &CodedKey, rho: &ByteList) -> Result<ByteList, AllocError>
    ensures bytes { IfOk result (λ b. b ≡ key.now.f ++ key.now.ginv ++ key.now.public ++ rho.now
        ++ key_hash key.now.public) }
    ensures count { IfOk result (λ b. length b ≡ length key.now.f + length key.now.ginv
        + length key.now.public + length rho.now + 32) }
{
    let mut bytes = Vec::new(alloc);
    bytes.extend_from_slice(key.f.as_slice())?;
    bytes.extend_from_slice(key.ginv.as_slice())?;
    bytes.extend_from_slice(key.public.as_slice())?;
    bytes.extend_from_slice(rho.as_slice())?;
    bytes.extend_from_slice(&key_hash(key.public.as_slice()))?;
    Ok(PlainList::from_vec(bytes))
}

// The pair of keys of these codings.
fn paired<S: KemParams>(
    alloc: Global,
    key: CodedKey,
    rho: &ByteList,
) -> Result<(PublicKey<S>, SecretKey<S>), KeyFault>
    requires counts { (length key.public ≡ rq_length S.set)
        × (length key.f ≡ small_length S.set.p)
        × (length key.ginv ≡ small_length S.set.p)
        × (length rho.now ≡ small_size S.set) }
    requires forms { (¬ IsMalformed S.set.p key.f) × (¬ IsMalformed S.set.p key.ginv) }
    ensures keys { IfOk result (λ k.
        (k.0 ≡ key.public)
        × (k.1 ≡ key.f ++ key.ginv ++ key.public ++ rho.now ++ key_hash key.public)) }
    ensures fault { IfErr result (λ fault. fault ≡ KeyFault.OutOfMemory) }
{
    let secret = SecretKey::from_list(secret_bytes(alloc, &key, rho)?);
    Ok((PublicKey::from_list(key.public), secret))
}

/// KeyGen with rho (NTRU Prime round 3): a pair of keys from random words.
///
/// Takes the words of [`keygen`], and where these give a key those of rho: 48 more for sntrup761,
/// and 54 for sntrup857. After `OutOfMemory` some of them may have been taken, and never more.
pub fn generate<S: KemParams, R: Words, M: Multiplier>(
    alloc: Global,
    words: &mut R,
    mult: &M,
) -> Result<(PublicKey<S>, SecretKey<S>), KeyFault>
    requires { R.place words.old + 65 * S.set.p + rho_words S.set ≤ 2 ^ 32 }
    ensures keys { IfOk result (λ k. (j : ℕ)
        × FindsG S.set (R.word words.old) (R.place words.old) j
        × IsGenerated S.set (R.word words.old) (R.place words.old) j k.0 k.1
        × (R.place words.new ≡ R.place words.old + (j + 2) * S.set.p + rho_words S.set)) }
    ensures exhausted { result ≢ Err KeyFault.OutOfMemory → ((result ≡ Err KeyFault.Exhausted)
        ↔ IsExhausted S.set (R.word words.old) (R.place words.old)) }
    ensures no_inverse { result ≢ Err KeyFault.OutOfMemory → ((result ≡ Err KeyFault.NoInverse)
        ↔ FindsNoInverse S.set (R.word words.old) (R.place words.old)) }
    ensures exhausted_taken { result ≡ Err KeyFault.Exhausted
        → R.place words.new ≡ R.place words.old + 64 * S.set.p }
    ensures no_inverse_taken { result ≡ Err KeyFault.NoInverse
        → (j : ℕ) → FindsG S.set (R.word words.old) (R.place words.old) j
        → R.place words.new ≡ R.place words.old + (j + 2) * S.set.p }
    ensures at_most { TakesAtMost (65 * S.set.p + rho_words S.set)
        (R.place words.old) (R.place words.new) }
    ensures stays { R.word words.new ≡ R.word words.old }
{
    let key = coded_key::<S, R, M>(alloc, words, mult)?;
    let rho = draw_rho::<S, R>(alloc, words)?;
    paired(alloc, key, &rho)
}
