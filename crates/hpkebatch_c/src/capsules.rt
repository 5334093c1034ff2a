//! Oblivious HTTP (RFC 9458, 4.3 and 4.4): the client asks and takes, the gateway answers.

ghost use Rattle.std.specs.Prelude.{◌≡◌, ◌≢◌, ◌⊎◌, ◌↔◌, IsOk, Ok};
ghost use Rattle.ohttp_capsule.specs.Refusals.{IsShortRequest, HasOtherHeader, HasOtherNonce, DoesNotOpen, IsShortResponse, IsOfNoExchange};
ghost use Rattle.ohttp_capsule.specs.Replies.{answered, taken};
ghost use Rattle.ohttp_capsule.specs.Requests.{encapsulated_request};
ghost use Rattle.ring_core.specs.Sets.{sntrup761, sntrup857};
ghost use Rattle.sntrup_kem.specs.Kem.{HasMalformedPart};
ghost use Rattle.library_calls.specs.Capsules.{FitsAnswer, CanAnswer, CanAsk, IsAsked, asked_held, kept_by, asked_by, FitsAsk, FitsTake};
ghost use Rattle.library_calls.specs.Setups.{kem_761, kem_857};
ghost use Rattle.library_calls.specs.Statuses.{done, wrong_usage, no_memory, refused_failed, refused_form, refused_short, refused_header, refused_noncesize};

use library_calls::{HpkeAsked, put_answer, put_asked, take_response};
use rand_words::SeedStream;
use ring_core::{Sntrup761, Sntrup857};
use std::alloc::Global;
use std::rt::Memory;

/// Encapsulates a request (RFC 9458, 4.3) to a public key of sntrup761, with the words of a stream of `seed`:
/// fills `request`, 1,062 bytes more than `text`, and what the client keeps of it. `key_id` is the identifier by
/// which the gateway finds its key.
#[unsafe(no_mangle)]
pub extern "C" fn hpkebatch_sntrup761_ask(
    alloc: Global,
    asked: &mut HpkeAsked,
    seed: &[u8; 32],
    stream: u64,
    public: &[u8; 1158],
    key_id: u8,
    kdf: u16,
    aead: u16,
    text: &[u8],
    request: &mut [u8],
) -> u32
    ensures done { result ≢ no_memory
        → ((result ≡ done) ↔ (CanAsk kdf aead × FitsAsk sntrup761 text.now request.old)) }
    ensures statuses { (result ≡ done) ⊎ (result ≡ wrong_usage) ⊎ (result ≡ no_memory) }
    ensures kept { result ≡ done → asked.new
        ≡ kept_by sntrup761 seed.now stream public.now key_id kem_761 kdf aead }
    ensures asked { result ≡ done → asked_held asked.new
        ≡ asked_by sntrup761 seed.now stream public.now key_id kem_761 kdf aead }
    ensures request { result ≡ done
        → request.new ≡ encapsulated_request key_id (asked_held asked.new) text.now }
    ensures refused { result ≢ done → (asked.new ≡ asked.old) × (request.new ≡ request.old) }
{
    put_asked::<Sntrup761, SeedStream>(
        alloc,
        &mut SeedStream::new(seed, stream),
        asked,
        public,
        key_id,
        kdf,
        aead,
        text,
        request,
    )
}

/// Encapsulates a request (RFC 9458, 4.3) to a public key of sntrup857: `request` has 1,207 bytes more than
/// `text`.
#[unsafe(no_mangle)]
pub extern "C" fn hpkebatch_sntrup857_ask(
    alloc: Global,
    asked: &mut HpkeAsked,
    seed: &[u8; 32],
    stream: u64,
    public: &[u8; 1322],
    key_id: u8,
    kdf: u16,
    aead: u16,
    text: &[u8],
    request: &mut [u8],
) -> u32
    ensures done { result ≢ no_memory
        → ((result ≡ done) ↔ (CanAsk kdf aead × FitsAsk sntrup857 text.now request.old)) }
    ensures statuses { (result ≡ done) ⊎ (result ≡ wrong_usage) ⊎ (result ≡ no_memory) }
    ensures kept { result ≡ done → asked.new
        ≡ kept_by sntrup857 seed.now stream public.now key_id kem_857 kdf aead }
    ensures asked { result ≡ done → asked_held asked.new
        ≡ asked_by sntrup857 seed.now stream public.now key_id kem_857 kdf aead }
    ensures request { result ≡ done
        → request.new ≡ encapsulated_request key_id (asked_held asked.new) text.now }
    ensures refused { result ≢ done → (asked.new ≡ asked.old) × (request.new ≡ request.old) }
{
    put_asked::<Sntrup857, SeedStream>(
        alloc,
        &mut SeedStream::new(seed, stream),
        asked,
        public,
        key_id,
        kdf,
        aead,
        text,
        request,
    )
}

/// Decapsulates the response to a request (RFC 9458, 4.4), by what the client kept of it: checks the tag, and then
/// fills `text`, which has 32 bytes fewer than `response` for AES-128-GCM and 48 fewer for AES-256-GCM.
#[unsafe(no_mangle)]
pub extern "C" fn hpkebatch_take(
    alloc: Global,
    memory: Memory,
    asked: &HpkeAsked,
    response: &[u8],
    text: &mut [u8],
) -> u32
    ensures done { result ≢ no_memory → ((result ≡ done) ↔ (IsAsked asked.now
        × FitsTake (asked_held asked.now) response.now text.old
        × IsOk (taken (asked_held asked.now) response.now))) }
    ensures short { (result ≡ refused_short)
        ↔ (IsAsked asked.now × IsShortResponse (asked_held asked.now) response.now) }
    ensures failed { result ≢ no_memory → ((result ≡ refused_failed) ↔ (IsAsked asked.now
        × FitsTake (asked_held asked.now) response.now text.old
        × IsOfNoExchange (asked_held asked.now) response.now)) }
    ensures statuses { (result ≡ done) ⊎ (result ≡ wrong_usage) ⊎ (result ≡ no_memory)
        ⊎ (result ≡ refused_short) ⊎ (result ≡ refused_failed) }
    ensures taken { result ≡ done → taken (asked_held asked.now) response.now ≡ Ok text.new }
    ensures refused { result ≢ done → text.new ≡ text.old }
{
    take_response(alloc, memory, asked, response, text)
}

/// Answers a request (RFC 9458, 4.3 and 4.4) to a secret key of sntrup761 by this identifier: fills `question` with
/// the text that was asked, 1,062 bytes fewer than `request` has, and `response` with the nonce, `text` and a tag.
/// `nonce` has 16 random bytes for AES-128-GCM and 32 for AES-256-GCM, and is for one response.
#[unsafe(no_mangle)]
pub extern "C" fn hpkebatch_sntrup761_answer(
    alloc: Global,
    memory: Memory,
    secret: &[u8; 1763],
    key_id: u8,
    request: &[u8],
    nonce: &[u8],
    text: &[u8],
    question: &mut [u8],
    response: &mut [u8],
) -> u32
    ensures done { result ≢ no_memory → ((result ≡ done) ↔ (CanAnswer sntrup761 secret.now
        request.now question.old nonce.now text.now response.old
        × IsOk (answered sntrup761 kem_761 secret.now key_id request.now nonce.now text.now))) }
    ensures short { (result ≡ refused_short) ↔ IsShortRequest sntrup761 request.now }
    ensures form { result ≢ no_memory → ((result ≡ refused_form) ↔ (FitsAnswer sntrup761 request.now
        question.old nonce.now text.now response.old × HasMalformedPart sntrup761 secret.now)) }
    ensures header { result ≢ no_memory → ((result ≡ refused_header) ↔ (CanAnswer sntrup761 secret.now
        request.now question.old nonce.now text.now response.old
        × HasOtherHeader sntrup761 kem_761 key_id request.now)) }
    ensures noncesize { result ≢ no_memory → ((result ≡ refused_noncesize) ↔ (CanAnswer sntrup761
        secret.now request.now question.old nonce.now text.now response.old
        × HasOtherNonce sntrup761 kem_761 key_id request.now nonce.now)) }
    ensures failed { result ≢ no_memory → ((result ≡ refused_failed) ↔ (CanAnswer sntrup761 secret.now
        request.now question.old nonce.now text.now response.old
        × DoesNotOpen sntrup761 kem_761 secret.now key_id request.now nonce.now)) }
    ensures statuses { (result ≡ done) ⊎ (result ≡ wrong_usage) ⊎ (result ≡ no_memory)
        ⊎ (result ≡ refused_short) ⊎ (result ≡ refused_form) ⊎ (result ≡ refused_header)
        ⊎ (result ≡ refused_noncesize) ⊎ (result ≡ refused_failed) }
    ensures answered { result ≡ done → answered sntrup761 kem_761 secret.now key_id request.now nonce.now
        text.now ≡ Ok (question.new, response.new) }
    ensures refused { result ≢ done
        → (question.new ≡ question.old) × (response.new ≡ response.old) }
{
    put_answer::<Sntrup761>(
        alloc, memory, secret, key_id, request, nonce, text, question, response,
    )
}

/// Answers a request (RFC 9458, 4.3 and 4.4) to a secret key of sntrup857: `question` has 1,207 bytes fewer than
/// `request`.
#[unsafe(no_mangle)]
pub extern "C" fn hpkebatch_sntrup857_answer(
    alloc: Global,
    memory: Memory,
    secret: &[u8; 1999],
    key_id: u8,
    request: &[u8],
    nonce: &[u8],
    text: &[u8],
    question: &mut [u8],
    response: &mut [u8],
) -> u32
    ensures done { result ≢ no_memory → ((result ≡ done) ↔ (CanAnswer sntrup857 secret.now
        request.now question.old nonce.now text.now response.old
        × IsOk (answered sntrup857 kem_857 secret.now key_id request.now nonce.now text.now))) }
    ensures short { (result ≡ refused_short) ↔ IsShortRequest sntrup857 request.now }
    ensures form { result ≢ no_memory → ((result ≡ refused_form) ↔ (FitsAnswer sntrup857 request.now
        question.old nonce.now text.now response.old × HasMalformedPart sntrup857 secret.now)) }
    ensures header { result ≢ no_memory → ((result ≡ refused_header) ↔ (CanAnswer sntrup857 secret.now
        request.now question.old nonce.now text.now response.old
        × HasOtherHeader sntrup857 kem_857 key_id request.now)) }
    ensures noncesize { result ≢ no_memory → ((result ≡ refused_noncesize) ↔ (CanAnswer sntrup857
        secret.now request.now question.old nonce.now text.now response.old
        × HasOtherNonce sntrup857 kem_857 key_id request.now nonce.now)) }
    ensures failed { result ≢ no_memory → ((result ≡ refused_failed) ↔ (CanAnswer sntrup857 secret.now
        request.now question.old nonce.now text.now response.old
        × DoesNotOpen sntrup857 kem_857 secret.now key_id request.now nonce.now)) }
    ensures statuses { (result ≡ done) ⊎ (result ≡ wrong_usage) ⊎ (result ≡ no_memory)
        ⊎ (result ≡ refused_short) ⊎ (result ≡ refused_form) ⊎ (result ≡ refused_header)
        ⊎ (result ≡ refused_noncesize) ⊎ (result ≡ refused_failed) }
    ensures answered { result ≡ done → answered sntrup857 kem_857 secret.now key_id request.now nonce.now
        text.now ≡ Ok (question.new, response.new) }
    ensures refused { result ≢ done
        → (question.new ≡ question.old) × (response.new ≡ response.old) }
{
    put_answer::<Sntrup857>(
        alloc, memory, secret, key_id, request, nonce, text, question, response,
    )
}
