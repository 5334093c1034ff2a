//! The gateway's answer to a request (RFC 9458, 4.3 and 4.4).

ghost use Rattle.std.specs.Prelude.{◌≡◌, ◌≢◌, ◌↔◌, ◌+◌, ◌-◌, ◌^◌, ◌≤◌, List, ℕ, length, nat_lt, IfOk};
ghost use Rattle.hpke_context.specs.Calls.{HasCipher};
ghost use Rattle.ohttp_capsule.specs.declared.asking.Asked.{Asked};
ghost use Rattle.ohttp_capsule.specs.Requests.{least_request};
ghost use Rattle.ohttp_capsule.specs.Responses.{entropy_size};
ghost use Rattle.ohttp_capsule.specs.Replies.{suite_for, answered_in, answered};
ghost use Rattle.ohttp_capsule.specs.Refusals.{IsShortRequest, HasOtherHeader, HasOtherNonce, DoesNotOpen};
ghost use Rattle.ohttp_capsule.specs.Laws.{Asks, Exchanges};

use crate::faults::CapsuleFault;
use crate::firsts::opened_first;
use crate::headers::{HEADER_SIZE, suite_named};
use crate::responses::{entropy_size, sealed_response};
use crate::setups::context_of;
use aes_gcm::{Checks, MayCheck};
use byte_strings::ByteList;
use hkdf_labelled::{Suite, TAG_SIZE};
use hpke_context::Context;
use key_schedule::Role;
use ring_core::Multiplier;
use sntrup_kem::laws::both_ends_agree;
use sntrup_kem::{KemParams, SecretKey, decap};
use std::alloc::Global;
use std::thread::Threads;

// Whether hdr, enc and a tag aren't there. In this order nothing overflows, whatever `S::ENC` is.
fn is_short<S: KemParams>(request: &[u8]) -> bool
    ensures { result ≡ nat_lt (length request.now) (least_request S.set) }
{
    request.len() < HEADER_SIZE + TAG_SIZE || request.len() - HEADER_SIZE - TAG_SIZE < S::ENC
}

// The algorithms of a request, or the first refusal that needs no key.
fn suite_for<S: KemParams>(id: u8, request: &[u8], nonce: &[u8]) -> Result<Suite, CapsuleFault>
    ensures { result ≡ suite_for S.set S.ID id request.now nonce.now }
{
    if is_short::<S>(request) {
        return Err(CapsuleFault::Short);
    }
    let Some(suite) = suite_named(id, S::ID, &request[..HEADER_SIZE]) else {
        return Err(CapsuleFault::Header);
    };
    if nonce.len() != entropy_size(suite.aead) {
        return Err(CapsuleFault::NonceSize);
    }
    Ok(suite)
}

// The text of a request, and the response, in the context of the request.
fn answer_in(
    permission: MayCheck,
    alloc: Global,
    context: &Context,
    enc: &[u8],
    ct: &[u8],
    nonce: &[u8],
    text: &[u8],
) -> Result<(ByteList, ByteList), CapsuleFault>
    requires cipher { HasCipher context.now }
    requires ct { length ct.now ≤ 2 ^ 36 - 16 }
    requires text { length text.now ≤ 2 ^ 20 }
    ensures answered { result ≢ Err CapsuleFault.OutOfMemory
        → result ≡ answered_in context.now enc.now ct.now nonce.now text.now }
    ensures size { IfOk result (λ a. length a.1 ≡ length nonce.now + (length text.now + 16)) }
{
    let question = opened_first(alloc, context, ct, &mut Checks::by(permission))?;
    let response = sealed_response(alloc, context, enc, nonce, text)?;
    Ok((question, response))
}

/// Answers a request as [`answer`] does, for who may check tags.
pub fn answer_by<S: KemParams, M: Multiplier>(
    permission: MayCheck,
    alloc: Global,
    mult: &M,
    secret: &SecretKey<S>,
    id: u8,
    request: &[u8],
    nonce: &[u8],
    text: &[u8],
) -> Result<(ByteList, ByteList), CapsuleFault>
    requires request { length request.now ≤ 1049783 }
    requires text { length text.now ≤ 2 ^ 20 }
    ensures answered { result ≢ Err CapsuleFault.OutOfMemory
        → result ≡ answered S.set S.ID secret.now id request.now nonce.now text.now }
    ensures short { (result ≡ Err CapsuleFault.Short) ↔ IsShortRequest S.set request.now }
    ensures header { (result ≡ Err CapsuleFault.Header)
        ↔ HasOtherHeader S.set S.ID id request.now }
    ensures nonce_size { (result ≡ Err CapsuleFault.NonceSize)
        ↔ HasOtherNonce S.set S.ID id request.now nonce.now }
    ensures failed { result ≢ Err CapsuleFault.OutOfMemory → ((result ≡ Err CapsuleFault.Failed)
        ↔ DoesNotOpen S.set S.ID secret.now id request.now nonce.now) }
    ensures size { IfOk result (λ a. length a.1 ≡ length nonce.now + (length text.now + 16)) }
    ensures exchange { result ≢ Err CapsuleFault.OutOfMemory
        → (asked : Asked) (question : List ℕ)
        → Asks S.set S.ID secret.now id asked request.now question
        → length nonce.now ≡ entropy_size asked.context.suite.aead
        → Exchanges result asked question text.now }
{
    both_ends_agree::<S>();
    let suite = suite_for::<S>(id, request, nonce)?;
    let (enc, ct) = request[HEADER_SIZE..].split_at(S::ENC);
    let shared_secret = decap(alloc, mult, enc, secret)?;
    let context = context_of(alloc, Role::Recipient, id, suite, &shared_secret)?;
    answer_in(
        permission,
        alloc,
        context.as_context(),
        enc,
        ct,
        nonce,
        text,
    )
}

/// Decapsulates a request to the key of this identifier, and encapsulates the response with this
/// text (RFC 9458, 4.3 and 4.4). Gives the text of the request, and the response.
///
/// `text` has at most 2^20 bytes, and `request` 1,049,783: one with such a text, for sntrup857.
/// `nonce` is the response's: 16 or 32 random bytes, as the AEAD of the header asks for. Each
/// refusal comes exactly where its cause stands, the first that applies: a request that is too
/// short, a header of another key or of algorithms that don't encrypt, a nonce of another size, and
/// a tag that doesn't hold. The KEM refuses nothing: an encapsulation that was changed gives another
/// shared secret, and the tag is what tells. `rt` starts no thread: a count of checked tags is made
/// from it.
pub fn answer<R: Threads + Sync, S: KemParams, M: Multiplier>(
    rt: &R,
    alloc: Global,
    mult: &M,
    secret: &SecretKey<S>,
    id: u8,
    request: &[u8],
    nonce: &[u8],
    text: &[u8],
) -> Result<(ByteList, ByteList), CapsuleFault>
    requires request { length request.now ≤ 1049783 }
    requires text { length text.now ≤ 2 ^ 20 }
    ensures answered { result ≢ Err CapsuleFault.OutOfMemory
        → result ≡ answered S.set S.ID secret.now id request.now nonce.now text.now }
    ensures short { (result ≡ Err CapsuleFault.Short) ↔ IsShortRequest S.set request.now }
    ensures header { (result ≡ Err CapsuleFault.Header)
        ↔ HasOtherHeader S.set S.ID id request.now }
    ensures nonce_size { (result ≡ Err CapsuleFault.NonceSize)
        ↔ HasOtherNonce S.set S.ID id request.now nonce.now }
    ensures failed { result ≢ Err CapsuleFault.OutOfMemory → ((result ≡ Err CapsuleFault.Failed)
        ↔ DoesNotOpen S.set S.ID secret.now id request.now nonce.now) }
    ensures size { IfOk result (λ a. length a.1 ≡ length nonce.now + (length text.now + 16)) }
    ensures exchange { result ≢ Err CapsuleFault.OutOfMemory
        → (asked : Asked) (question : List ℕ)
        → Asks S.set S.ID secret.now id asked request.now question
        → length nonce.now ≡ entropy_size asked.context.suite.aead
        → Exchanges result asked question text.now }
{
    let permission = MayCheck::on_threads(rt);
    answer_by(permission, alloc, mult, secret, id, request, nonce, text)
}
