//! What the KEM is for. Each law is the contract of a function that does nothing, but for that of
//! an exchange, which makes the three calls.

ghost use Rattle.std.specs.Prelude.{◌≡◌, ◌≢◌, ◌↔◌, ℕ, ◌+◌, ◌*◌, ◌^◌, ◌≤◌, List, IfOk, IfErr};
ghost use Rattle.ring_core.specs.Sets.{sntrup761, sntrup857};
ghost use Rattle.sntrup_core.specs.Keys.{IsExhausted, FindsNoInverse};
ghost use Rattle.sntrup_kem.specs.Sizes.{rho_words};
ghost use Rattle.sntrup_kem.specs.Kem.{drawn_r, enc_of, session_of, decapsulated};
ghost use Rattle.sntrup_kem.specs.Laws.{DrawsShort, BothEndsAgree, HoldsItsPublicKey, AgreesToSession, RejectsOthers, IsExchanged};

use crate::encapsulation::{decap, encap};
use crate::generation::generate;
use crate::keys::{PublicKey, SecretKey};
use crate::params::KemParams;
use rand_words::Words;
use ring_core::Multiplier;
use sntrup_core::KeyFault;
use std::alloc::Global;

/// With each pair of keys that [`generate`](crate::generate) gives, [`decap`](crate::decap) gives
/// the session key of each [`encap`](crate::encap), whose r is short.
pub fn both_ends_agree<S: KemParams>()
    ensures short { DrawsShort S.set }
    ensures agreement { BothEndsAgree S.set }
{}

/// The public key that a generated secret key holds is that of its pair.
pub fn a_secret_key_holds_its_public_key<S: KemParams>()
    ensures { HoldsItsPublicKey S.set }
{}

/// Decap has two cases: all bytes agree with those that Hide makes of the decrypted r, or they
/// don't. Then the key is the rejection key, made from rho.
pub fn decap_has_two_cases<S: KemParams>()
    ensures agrees { AgreesToSession S.set }
    ensures rejects { RejectsOthers S.set }
{}

/// How many words rho is made of.
pub fn words_of_rho()
    ensures sntrup761 { rho_words sntrup761 ≡ 48 }
    ensures sntrup857 { rho_words sntrup857 ≡ 54 }
{}

// The session key of an encapsulation, and what the holder of the secret key makes of it.
fn session_keys<S: KemParams, R: Words, M: Multiplier, N: Multiplier>(
    alloc: Global,
    words: &mut R,
    encapsulating: &M,
    decapsulating: &N,
    public: &PublicKey<S>,
    secret: &SecretKey<S>,
) -> Result<([u8; 32], [u8; 32]), KeyFault>
    requires { R.place words.old + S.set.p ≤ 2 ^ 32 }
    ensures keys { IfOk result (λ keys.
        (keys.0 ≡ session_of S.set public.now
        (drawn_r S.set (R.word words.old) (R.place words.old)))
        × (keys.1 ≡ decapsulated S.set secret.now
        (enc_of S.set public.now (drawn_r S.set (R.word words.old) (R.place words.old))))) }
    ensures fault { IfErr result (λ fault. fault ≡ KeyFault.OutOfMemory) }
{
    let (enc, encapsulated) = encap(alloc, words, encapsulating, public)?;
    let decapsulated = decap(alloc, decapsulating, enc.as_slice(), secret)?;
    Ok((encapsulated, decapsulated))
}

/// Generates a pair of keys, encapsulates a session key for the public one with the words after it,
/// and decapsulates it with the secret one, each by a multiplier of its own type.
///
/// Gives the session keys of the two ends, which are equal.
pub fn exchanged_keys<S: KemParams, R: Words, L: Multiplier, M: Multiplier, N: Multiplier>(
    alloc: Global,
    words: &mut R,
    generating: &L,
    encapsulating: &M,
    decapsulating: &N,
) -> Result<([u8; 32], [u8; 32]), KeyFault>
    requires { R.place words.old + 66 * S.set.p + rho_words S.set ≤ 2 ^ 32 }
    ensures agreement { IfOk result (λ keys. keys.1 ≡ keys.0) }
    ensures session { IfOk result (λ keys.
        IsExchanged S.set (R.word words.old) (R.place words.old) keys.0) }
    ensures exhausted { result ≢ Err KeyFault.OutOfMemory → ((result ≡ Err KeyFault.Exhausted)
        ↔ IsExhausted S.set (R.word words.old) (R.place words.old)) }
    ensures no_inverse { result ≢ Err KeyFault.OutOfMemory → ((result ≡ Err KeyFault.NoInverse)
        ↔ FindsNoInverse S.set (R.word words.old) (R.place words.old)) }
{
    let (public, secret) = generate::<S, R, L>(alloc, words, generating)?;
    session_keys(alloc, words, encapsulating, decapsulating, &public, &secret)
}
