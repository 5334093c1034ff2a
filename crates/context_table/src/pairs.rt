//! Keys of one parameter set, and what their lines are answered.

ghost use Rattle.std.specs.Prelude.{◌≡◌, ◌+◌, ◌*◌, ◌^◌, ◌≤◌, [], IfOk, option_copied};
ghost use Rattle.sntrup_kem.specs.Kem.{public_part};
ghost use Rattle.context_table.specs.Keys.{IsPairReply, IsSecretReply, IsPeerReply, key_by};
ghost use Rattle.context_table.specs.Contexts.{sender_exchange, recipient_exchange};

use crate::exchanges::Exchange;
use batch_plans::{ContextRefusal, ContextReply, KeyRefusal, KeyReply};
use byte_strings::copied;
use rand_words::Words;
use ring_core::{Multiplier, Params};
use sntrup_kem::{
    KemParams, KeyBytesFault, KeyFault, PublicKey, SecretKey, decap, encap, generate,
};
use std::alloc::{AllocError as OutOfMemory, Global};
use std::marker::Model;

/// A public key, with its secret key where that is known. Contracts see the KEM and the bytes.
#[derive(Drop)]
pub struct KeyPair<S: KemParams> {
    public: PublicKey<S>,
    secret: Option<SecretKey<S>>,
}

impl<S: KemParams> Model for KeyPair<S> {
    ghost use Rattle.context_table.specs.Keys.{KeyView};

    ghost Value = { KeyView };

    ghost view = { λ k. record {
      kem = record { id = S.ID; set = S.set };
      public = k.public;
      secret = k.secret;
    } };
}

// What the sender's end has of an exchange.
fn sent(alloc: Global, kem: u16, enc: &[u8], key: &[u8]) -> Result<Exchange, OutOfMemory>
    ensures { IfOk result (λ e. e ≡ record {
      kem = kem;
      shared_secret = key.now;
      reply = ContextReply.Sender enc.now;
    }) }
{
    Ok(Exchange {
        kem,
        shared_secret: copied(alloc, key)?,
        reply: ContextReply::Sender {
            enc: copied(alloc, enc)?,
        },
    })
}

// What the recipient's end has of it.
fn received(alloc: Global, kem: u16, key: &[u8]) -> Result<Exchange, OutOfMemory>
    ensures { IfOk result (λ e. e ≡ record {
      kem = kem;
      shared_secret = key.now;
      reply = ContextReply.Recipient;
    }) }
{
    Ok(Exchange {
        kem,
        shared_secret: copied(alloc, key)?,
        reply: ContextReply::Recipient,
    })
}

impl<S: KemParams> KeyPair<S> {
    /// The public key.
    pub fn public(&self) -> &PublicKey<S>
        ensures kem { self.now.kem ≡ record { id = S.ID; set = S.set } }
        ensures public { result.now ≡ self.now.public }
    {
        &self.public
    }

    /// The secret key, where it is known.
    pub fn secret(&self) -> Option<&SecretKey<S>>
        ensures kem { self.now.kem ≡ record { id = S.ID; set = S.set } }
        ensures secret { option_copied result ≡ self.now.secret }
    {
        self.secret.as_ref()
    }

    /// A sender's exchange, by Encap to the public key with words of a source that stands at its
    /// first.
    pub(crate) fn sender_exchange<R: Words, M: Multiplier>(
        &self,
        alloc: Global,
        words: &mut R,
        mult: &M,
    ) -> Result<Exchange, OutOfMemory>
        requires { R.place words.old ≡ 0 }
        ensures { IfOk result (λ e. sender_exchange (R.word words.old) (Some self.now) ≡ Ok e) }
    {
        let (enc, key) = encap(alloc, words, mult, &self.public)?;
        sent(alloc, S::ID, enc.as_slice(), &key)
    }

    /// A recipient's exchange, by Decap of an encapsulation with the secret key, where there are
    /// both.
    pub(crate) fn recipient_exchange<M: Multiplier>(
        &self,
        alloc: Global,
        enc: Option<&[u8]>,
        mult: &M,
    ) -> Result<Result<Exchange, ContextRefusal>, OutOfMemory>
        ensures { IfOk result (λ e. e
            ≡ recipient_exchange (Some self.now) (option_copied enc.entry)) }
    {
        let Some(secret) = &self.secret else {
            return Ok(Err(ContextRefusal::NeedSecret));
        };
        let Some(enc) = enc else {
            return Ok(Err(ContextRefusal::NoEnc));
        };
        if enc.len() != S::ENC {
            return Ok(Err(ContextRefusal::EncSize));
        }
        let key = decap(alloc, mult, enc, secret)?;
        Ok(Ok(received(alloc, S::ID, &key)?))
    }
}

/// What a key line is answered, and the key where it stands.
#[derive(Drop)]
pub(crate) struct Answered<S: KemParams> {
    pub(crate) reply: KeyReply,
    pub(crate) pair: Option<KeyPair<S>>,
}

// There is no key.
fn refused<S: KemParams>(refusal: KeyRefusal) -> Answered<S>
    ensures reply { result.reply ≡ KeyReply.Refused refusal }
    ensures pair { result.pair ≡ None }
{
    Answered {
        reply: KeyReply::Refused(refusal),
        pair: None,
    }
}

// There is a key.
fn standing<S: KemParams>(
    reply: KeyReply,
    public: PublicKey<S>,
    secret: Option<SecretKey<S>>,
) -> Answered<S>
    ensures reply { result.reply ≡ reply }
    ensures pair { result.pair ≡ Some (record {
      kem = record { id = S.ID; set = S.set };
      public = public;
      secret = secret;
    }) }
{
    Answered {
        reply,
        pair: Some(KeyPair { public, secret }),
    }
}

// The reply that gives a pair.
fn pair_reply<S: KemParams>(
    alloc: Global,
    public: &PublicKey<S>,
    secret: &SecretKey<S>,
) -> Result<KeyReply, OutOfMemory>
    ensures { IfOk result (λ reply. reply ≡ KeyReply.Generated public.now secret.now) }
{
    Ok(KeyReply::Generated {
        public: copied(alloc, public.as_slice())?,
        secret: copied(alloc, secret.as_slice())?,
    })
}

// The pair stands.
fn generated<S: KemParams>(
    alloc: Global,
    public: PublicKey<S>,
    secret: SecretKey<S>,
) -> Result<Answered<S>, OutOfMemory>
    ensures reply { IfOk result (λ a. a.reply ≡ KeyReply.Generated public secret) }
    ensures pair { IfOk result (λ a. a.pair ≡ Some (record {
      kem = record { id = S.ID; set = S.set };
      public = public;
      secret = Some secret;
    })) }
{
    let reply = pair_reply(alloc, &public, &secret)?;
    Ok(standing(reply, public, Some(secret)))
}

/// Makes a pair from the words of a source that stands at its first.
pub(crate) fn made_pair<S: KemParams, R: Words, M: Multiplier>(
    alloc: Global,
    words: &mut R,
    mult: &M,
) -> Result<Answered<S>, OutOfMemory>
    requires { R.place words.old ≡ 0 }
    ensures reply { IfOk result (λ a. IsPairReply S.set (R.word words.old) a.reply) }
    ensures pair { IfOk result (λ a. a.pair
        ≡ key_by (record { id = S.ID; set = S.set }) [] a.reply) }
{
    match generate::<S, R, M>(alloc, words, mult) {
        Ok((public, secret)) => generated(alloc, public, secret),
        Err(KeyFault::Exhausted) => Ok(refused(KeyRefusal::Exhausted)),
        Err(KeyFault::NoInverse) => Ok(refused(KeyRefusal::NoInverse)),
        Err(KeyFault::OutOfMemory) => Err(OutOfMemory),
    }
}

// The secret key stands, with the public key in it.
fn held<S: KemParams>(alloc: Global, secret: SecretKey<S>) -> Result<Answered<S>, OutOfMemory>
    ensures reply { IfOk result (λ a. a.reply ≡ KeyReply.Secret (public_part S.set secret)) }
    ensures pair { IfOk result (λ a. a.pair ≡ Some (record {
      kem = record { id = S.ID; set = S.set };
      public = public_part S.set secret;
      secret = Some secret;
    })) }
{
    let public = secret.public(alloc)?;
    let reply = KeyReply::Secret {
        public: copied(alloc, public.as_slice())?,
    };
    Ok(standing(reply, public, Some(secret)))
}

/// Takes the bytes of a secret key.
pub(crate) fn given_secret<S: KemParams>(
    alloc: Global,
    bytes: &[u8],
) -> Result<Answered<S>, OutOfMemory>
    ensures reply { IfOk result (λ a. IsSecretReply S.set bytes.now a.reply) }
    ensures pair { IfOk result (λ a. a.pair
        ≡ key_by (record { id = S.ID; set = S.set }) bytes.now a.reply) }
{
    match SecretKey::<S>::from_bytes(alloc, bytes) {
        Ok(secret) => held(alloc, secret),
        Err(KeyBytesFault::Length) => Ok(refused(KeyRefusal::Length)),
        Err(KeyBytesFault::Form) => Ok(refused(KeyRefusal::Form)),
        Err(KeyBytesFault::OutOfMemory) => Err(OutOfMemory),
    }
}

/// Takes the bytes of another's public key.
pub(crate) fn given_public<S: KemParams>(
    alloc: Global,
    bytes: &[u8],
) -> Result<Answered<S>, OutOfMemory>
    ensures reply { IfOk result (λ a. IsPeerReply S.set bytes.now a.reply) }
    ensures pair { IfOk result (λ a. a.pair
        ≡ key_by (record { id = S.ID; set = S.set }) bytes.now a.reply) }
{
    match PublicKey::<S>::from_bytes(alloc, bytes) {
        Ok(public) => Ok(standing(KeyReply::Peer, public, None)),
        Err(KeyBytesFault::Length) => Ok(refused(KeyRefusal::Length)),
        Err(KeyBytesFault::Form) => unreachable!(),
        Err(KeyBytesFault::OutOfMemory) => Err(OutOfMemory),
    }
}
