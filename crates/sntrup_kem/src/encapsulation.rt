//! Session keys, and the encapsulations that carry them.

ghost use Rattle.std.specs.Prelude.{◌≡◌, ◌+◌, ◌++◌, ◌^◌, ◌≤◌, length, take, IfOk, OnOk};
ghost use Rattle.radix_pack.specs.Codings.{small_length, small_encode, small_decode, rq_length, rounded_length, IsMalformed};
ghost use Rattle.rand_words.specs.Words.{TakesAtMost};
ghost use Rattle.sntrup_kem.specs.Sizes.{hash_size};
ghost use Rattle.sntrup_kem.specs.Kem.{drawn_r, ciphertext, hidden, plaintext, enc_of, session_of, chosen, decapsulated};

use crate::hashes::{hash_confirm, hash_session, key_hash};
use crate::keys::{PublicKey, SecretKey};
use crate::masks::{choose, difference, mask_of};
use crate::params::KemParams;
use byte_strings::{ByteList, joined};
use radix_pack::{rounded_decode, rounded_encode, rq_decode, small_decode, small_encode};
use rand_words::{Words, short_random};
use ring_core::{Multiplier, Params, Small};
use sntrup_core::{PublicPoly, SecretPolys, decrypt, encrypt};
use std::alloc::{AllocError as OutOfMemory, Global};
use std::marker::{Model, PhantomData};

const HASH_SIZE: usize = 32;

/// An encapsulation: the coding of a rounded element, and a hash of 32 bytes that confirms it (NTRU
/// Prime round 3, Hide), together `S::ENC` bytes. Contracts see the bytes.
#[derive(Drop)]
pub struct Enc<S: KemParams> {
    bytes: ByteList,
    set: PhantomData<S>,
}

impl<S: KemParams> Model for Enc<S> {
    ghost use Rattle.std.specs.Prelude.{ℕ, List, ◌≡◌, length};

    ghost Value = { List ℕ };

    ghost view = { λ e. e.bytes };

    ghost invariant = { λ e. length e.bytes ≡ S.ENC };
}

impl<S: KemParams> Enc<S> {
    /// The `S::ENC` bytes.
    pub fn as_slice(&self) -> &[u8]
        ensures bytes { result.now ≡ self.now }
        ensures count { length result.now ≡ S.ENC }
    {
        self.bytes.as_slice()
    }
}

// What Hide makes of r: the encapsulation, and the coding of r.
#[derive(Drop)]
pub(crate) struct Hidden {
    pub(crate) enc: ByteList,
    pub(crate) r_enc: ByteList,
}

// The coding of the ciphertext of r.
fn ciphertext<S: Params, M: Multiplier>(
    alloc: Global,
    mult: &M,
    public: &[u8],
    r: &Small<S>,
) -> Result<ByteList, OutOfMemory>
    requires { length public.now ≡ rq_length S.set }
    ensures bytes { IfOk result (λ b. b ≡ ciphertext S.set public.now r.now) }
    ensures count { IfOk result (λ b. length b ≡ rounded_length S.set) }
{
    let h = rq_decode(alloc, public)?;
    let c = encrypt(alloc, mult, r, &PublicPoly { h })?;
    rounded_encode(alloc, &c)
}

// Hide (NTRU Prime round 3), with the cache, which is the hash of the public key, as it is given.
pub(crate) fn hide<S: Params, M: Multiplier>(
    alloc: Global,
    mult: &M,
    public: &[u8],
    cache: &[u8],
    r: &Small<S>,
) -> Result<Hidden, OutOfMemory>
    requires { length public.now ≡ rq_length S.set }
    ensures enc { IfOk result (λ h. h.enc ≡ hidden S.set public.now cache.now r.now) }
    ensures count { IfOk result (λ h. length h.enc ≡ rounded_length S.set + hash_size) }
    ensures r_enc { IfOk result (λ h. h.r_enc ≡ small_encode S.set.p r.now) }
    ensures r_count { IfOk result (λ h. length h.r_enc ≡ small_length S.set.p) }
{
    let c_enc = ciphertext(alloc, mult, public, r)?;
    let r_enc = small_encode(alloc, r)?;
    let confirm = hash_confirm(r_enc.as_slice(), cache);
    Ok(Hidden {
        enc: joined(alloc, c_enc.as_slice(), &confirm)?,
        r_enc,
    })
}

// r, from the next p words.
#[tactic(auto, unfolding(crate::specs::Kem::drawn_r))]
fn draw_r<S: Params, R: Words>(alloc: Global, words: &mut R) -> Result<Small<S>, OutOfMemory>
    requires { R.place words.old + S.set.p ≤ 2 ^ 32 }
    ensures r { IfOk result (λ r. r ≡ drawn_r S.set (R.word words.old) (R.place words.old)) }
    ensures taken { OnOk result (R.place words.new ≡ R.place words.old + S.set.p) }
    ensures at_most { TakesAtMost S.set.p (R.place words.old) (R.place words.new) }
    ensures stays { R.word words.new ≡ R.word words.old }
{
    short_random(alloc, words)
}

/// Encap (NTRU Prime round 3): a session key from p random words, and the encapsulation that
/// carries it to the holder of the secret key.
///
/// After `OutOfMemory` some of them may have been taken, and never more.
pub fn encap<S: KemParams, R: Words, M: Multiplier>(
    alloc: Global,
    words: &mut R,
    mult: &M,
    public: &PublicKey<S>,
) -> Result<(Enc<S>, [u8; 32]), OutOfMemory>
    requires { R.place words.old + S.set.p ≤ 2 ^ 32 }
    ensures enc { IfOk result (λ e. e.0
        ≡ enc_of S.set public.now (drawn_r S.set (R.word words.old) (R.place words.old))) }
    ensures key { IfOk result (λ e. e.1
        ≡ session_of S.set public.now (drawn_r S.set (R.word words.old) (R.place words.old))) }
    ensures taken { OnOk result (R.place words.new ≡ R.place words.old + S.set.p) }
    ensures at_most { TakesAtMost S.set.p (R.place words.old) (R.place words.new) }
    ensures stays { R.word words.new ≡ R.word words.old }
{
    let r = draw_r::<S, R>(alloc, words)?;
    let cache = key_hash(public.as_slice());
    let hidden = hide(alloc, mult, public.as_slice(), &cache, &r)?;
    let key = hash_session(1, hidden.r_enc.as_slice(), hidden.enc.as_slice());
    let enc = Enc {
        bytes: hidden.enc,
        set: PhantomData,
    };
    Ok((enc, key))
}

// The small polynomial of a coding.
fn small_decoded<S: Params>(alloc: Global, bytes: &[u8]) -> Result<Small<S>, OutOfMemory>
    requires count { length bytes.now ≡ small_length S.set.p }
    requires form { ¬ IsMalformed S.set.p bytes.now }
    ensures { IfOk result (λ a. a ≡ small_decode S.set.p bytes.now) }
{
    match small_decode(alloc, bytes)? {
        Some(a) => Ok(a),
        None => unreachable!(),
    }
}

// f and 1/g, of their codings.
fn secret_polys<S: Params>(
    alloc: Global,
    f_enc: &[u8],
    ginv_enc: &[u8],
) -> Result<SecretPolys<S>, OutOfMemory>
    requires f_count { length f_enc.now ≡ small_length S.set.p }
    requires f_form { ¬ IsMalformed S.set.p f_enc.now }
    requires ginv_count { length ginv_enc.now ≡ small_length S.set.p }
    requires ginv_form { ¬ IsMalformed S.set.p ginv_enc.now }
    ensures f { IfOk result (λ s. s.f ≡ small_decode S.set.p f_enc.now) }
    ensures ginv { IfOk result (λ s. s.ginv ≡ small_decode S.set.p ginv_enc.now) }
{
    let f = small_decoded(alloc, f_enc)?;
    let ginv = small_decoded(alloc, ginv_enc)?;
    Ok(SecretPolys { f, ginv })
}

// r, decrypted with the codings of f and 1/g.
#[tactic(auto, unfolding(crate::specs::Kem::plaintext))]
fn decrypted<S: Params, M: Multiplier>(
    alloc: Global,
    mult: &M,
    c_enc: &[u8],
    f_enc: &[u8],
    ginv_enc: &[u8],
) -> Result<Small<S>, OutOfMemory>
    requires c_count { length c_enc.now ≡ rounded_length S.set }
    requires f_count { length f_enc.now ≡ small_length S.set.p }
    requires f_form { ¬ IsMalformed S.set.p f_enc.now }
    requires ginv_count { length ginv_enc.now ≡ small_length S.set.p }
    requires ginv_form { ¬ IsMalformed S.set.p ginv_enc.now }
    ensures { IfOk result (λ r. r ≡ plaintext S.set f_enc.now ginv_enc.now c_enc.now) }
{
    let c = rounded_decode(alloc, c_enc)?;
    let secret = secret_polys(alloc, f_enc, ginv_enc)?;
    decrypt(alloc, mult, &c, &secret)
}

// These bytes, with zeros behind them.
fn padded(bytes: &[u8]) -> [u8; 256]
    requires { length bytes.now ≤ 256 }
    ensures { take (length bytes.now) result ≡ bytes.now }
{
    let mut list = [0u8; 256];
    list[..bytes.len()].copy_from_slice(bytes);
    list
}

// The session key where Hide makes all bytes of the encapsulation, and else the rejection key. What
// is hashed for either is made, and one of the two is hashed: the coding of r, or rho.
fn chosen_key(again: &Hidden, enc: &[u8], rho: &[u8]) -> [u8; 32]
    requires enc { length again.now.enc ≡ length enc.now }
    requires enc_long { 16 ≤ length enc.now }
    requires rho { length again.now.r_enc ≡ length rho.now }
    requires rho_short { length rho.now ≤ 256 }
    ensures { result ≡ chosen again.now.enc again.now.r_enc rho.now enc.now }
{
    let agrees = mask_of(difference(again.enc.as_slice(), enc));
    let mut secret = [0u8; 256];
    choose(
        agrees,
        &padded(again.r_enc.as_slice()),
        &padded(rho),
        &mut secret,
    );
    hash_session(agrees & 1, &secret[..rho.len()], enc)
}

/// Decap (NTRU Prime round 3): the session key that the encapsulation carries, or a rejection key
/// that is made from it and rho, where it is not what [`encap`] makes of its r.
///
/// Every string of `S::ENC` bytes gets a key. The hash of the public key is not computed again: a
/// secret key's last 32 bytes, its cache, are taken as they are.
pub fn decap<S: KemParams, M: Multiplier>(
    alloc: Global,
    mult: &M,
    enc: &[u8],
    secret: &SecretKey<S>,
) -> Result<[u8; 32], OutOfMemory>
    requires { length enc.now ≡ S.ENC }
    ensures { IfOk result (λ k. k ≡ decapsulated S.set secret.now enc.now) }
{
    let c_enc = &enc[..S::ENC - HASH_SIZE];
    let r = decrypted::<S, M>(alloc, mult, c_enc, secret.f_bytes(), secret.ginv_bytes())?;
    let again = hide(alloc, mult, secret.public_bytes(), secret.cache(), &r)?;
    Ok(chosen_key(&again, enc, secret.rho()))
}
