//! The client's request (RFC 9458, 4.3).

ghost use Rattle.std.specs.Prelude.{◌≡◌, ◌+◌, ◌^◌, ◌≤◌, ℕ, List, length, IsTrue, IfOk, OnOk};
ghost use Rattle.rand_words.specs.Words.{TakesAtMost};
ghost use Rattle.hkdf_labelled.specs.Suites.{encrypts};
ghost use Rattle.hpke_context.specs.Calls.{HasCipher};
ghost use Rattle.sntrup_kem.specs.Sizes.{enc_size};
ghost use Rattle.sntrup_kem.specs.Kem.{drawn_r, IsGenerated};
ghost use Rattle.key_schedule.specs.declared.modes.Role.TheVariants.{Sender};
ghost use Rattle.ohttp_capsule.specs.Headers.{header_size};
ghost use Rattle.ohttp_capsule.specs.Requests.{tag_size, least_request, context_of, asked_with};
ghost use Rattle.ohttp_capsule.specs.Requests.{encapsulated_request};
ghost use Rattle.ohttp_capsule.specs.Laws.{Asks};

use crate::firsts::sealed_first;
use crate::headers::header;
use crate::kept::KeptContext;
use crate::setups::context_of;
use crate::strings::joined_three;
use byte_strings::{ByteList, copied};
use hkdf_labelled::{Aead, Kdf, Suite};
use key_schedule::Role;
use rand_words::Words;
use ring_core::Multiplier;
use sntrup_kem::laws::both_ends_agree;
use sntrup_kem::{KemParams, PublicKey, encap};
use std::alloc::{AllocError as OutOfMemory, Global};

/// What a client keeps of a request that it made: the context, and enc, the KEM's encapsulation.
#[derive(Drop)]
pub struct Asked {
    pub context: KeptContext,
    pub enc: ByteList,
}

// What a client keeps of a request, where the KEM gave this shared secret and its encapsulation.
fn kept(
    alloc: Global,
    id: u8,
    suite: Suite,
    enc: &[u8],
    shared_secret: &[u8; 32],
) -> Result<Asked, OutOfMemory>
    ensures { IfOk result (λ a. a
        ≡ record { context = context_of Sender id suite shared_secret.now; enc = enc.now }) }
{
    let context = context_of(alloc, Role::Sender, id, suite, shared_secret)?;
    let enc = copied(alloc, enc)?;
    Ok(Asked { context, enc })
}

// The request of which this is kept: hdr, enc, and the text's ct.
fn request_of(alloc: Global, asked: &Asked, id: u8, text: &[u8]) -> Result<ByteList, OutOfMemory>
    requires cipher { HasCipher asked.now.context }
    requires text { length text.now ≤ 2 ^ 20 }
    ensures request { IfOk result (λ r. r ≡ encapsulated_request id asked.now text.now) }
    ensures size { IfOk result (λ r. length r
        ≡ header_size + length asked.now.enc + (length text.now + tag_size)) }
{
    let context = asked.context.as_context();
    let ct = sealed_first(alloc, context, text)?;
    let header = header(id, context.suite());
    joined_three(alloc, &header, asked.enc.as_slice(), ct.as_slice())
}

// What a client keeps, and the request.
fn asked_by(
    alloc: Global,
    id: u8,
    suite: Suite,
    enc: &[u8],
    shared_secret: &[u8; 32],
    text: &[u8],
) -> Result<(Asked, ByteList), OutOfMemory>
    requires cipher { IsTrue (encrypts suite.aead) }
    requires text { length text.now ≤ 2 ^ 20 }
    ensures asked { IfOk result (λ a. a.0
        ≡ record { context = context_of Sender id suite shared_secret.now; enc = enc.now }) }
    ensures request { IfOk result (λ a. a.1 ≡ encapsulated_request id a.0 text.now) }
    ensures size { IfOk result (λ a. length a.1
        ≡ header_size + length enc.now + (length text.now + tag_size)) }
{
    let asked = kept(alloc, id, suite, enc, shared_secret)?;
    let request = request_of(alloc, &asked, id, text)?;
    Ok((asked, request))
}

/// Encapsulates a request (RFC 9458, 4.3): the text, sealed to a public key in a context of its own,
/// behind the header and the encapsulation, of which p random words are the secret.
///
/// `id` is the key identifier, by which the gateway finds its key. `text` has at most 2^20 bytes, and
/// `aead` isn't export-only. After `OutOfMemory` some of the words may have been taken, and never
/// more.
pub fn ask<S: KemParams, R: Words, M: Multiplier>(
    alloc: Global,
    words: &mut R,
    mult: &M,
    public: &PublicKey<S>,
    id: u8,
    kdf: Kdf,
    aead: Aead,
    text: &[u8],
) -> Result<(Asked, ByteList), OutOfMemory>
    requires cipher { IsTrue (encrypts aead) }
    requires text { length text.now ≤ 2 ^ 20 }
    requires words { R.place words.old + S.set.p ≤ 2 ^ 32 }
    ensures asked { IfOk result (λ a. a.0
        ≡ asked_with id (record { kem = S.ID; kdf = kdf; aead = aead }) S.set public.now
        (drawn_r S.set (R.word words.old) (R.place words.old))) }
    ensures request { IfOk result (λ a. a.1 ≡ encapsulated_request id a.0 text.now) }
    ensures enc_size { IfOk result (λ a. length a.0.enc ≡ enc_size S.set) }
    ensures size { IfOk result (λ a. length a.1 ≡ least_request S.set + length text.now) }
    ensures exchange { (word : ℕ → ℕ) (place j : ℕ) (sk : List ℕ)
        → IsGenerated S.set word place j public.now sk
        → IfOk result (λ a. Asks S.set S.ID sk id a.0 a.1 text.now) }
    ensures taken { OnOk result (R.place words.new ≡ R.place words.old + S.set.p) }
    ensures at_most { TakesAtMost S.set.p (R.place words.old) (R.place words.new) }
    ensures stays { R.word words.new ≡ R.word words.old }
{
    both_ends_agree::<S>();
    let suite = Suite {
        kem: S::ID,
        kdf,
        aead,
    };
    let (enc, shared_secret) = encap(alloc, words, mult, public)?;
    asked_by(alloc, id, suite, enc.as_slice(), &shared_secret, text)
}
