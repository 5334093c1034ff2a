//! The client of Oblivious HTTP (RFC 9458, 4.3 and 4.4): makes a request, and takes the text of its response.

ghost use Rattle.std.specs.Prelude.{◌≡◌, ◌≢◌, ◌⊎◌, ◌↔◌, ◌≤◌, ◌<◌, ◌+◌, ◌++◌, [], length, take, IsTrue, IsOk, IfOk, IfSome, IfNone, OnOk, OnErr, Ok};
ghost use Rattle.hkdf_labelled.specs.Hmac.{zero_padded};
ghost use Rattle.hpke_context.specs.Contexts.{cipher_of};
ghost use Rattle.hpke_context.specs.Calls.{HasCipher};
ghost use Rattle.sntrup_kem.specs.Sizes.{enc_size};
ghost use Rattle.sntrup_kem.specs.Kem.{drawn_r, enc_of, session_of};
ghost use Rattle.ohttp_capsule.specs.Headers.{header};
ghost use Rattle.ohttp_capsule.specs.Requests.{asked_with, encapsulated_request, least_request};
ghost use Rattle.ohttp_capsule.specs.Replies.{least_response, taken};
ghost use Rattle.ohttp_capsule.specs.Refusals.{IsShortResponse, IsOfNoExchange};
ghost use Rattle.library_calls.specs.Contexts.{suite_named};
ghost use Rattle.library_calls.specs.Capsules.{most_text, CanAsk, IsAsked, set_named, asked_held, kept, FitsAsk, FitsTake};
ghost use Rattle.library_calls.specs.Statuses.{done, wrong_usage, no_memory, refused_short, refused_failed};

use crate::contexts::{names_kdf, suite_named};
use crate::statuses::{NO_MEMORY, REFUSED_FAILED, REFUSED_SHORT, WRONG_USAGE};
use aes_gcm::MayCheck;
use byte_strings::copied;
use hpke_context::Context;
use key_schedule::Role;
use ohttp_capsule::headers::header;
use ohttp_capsule::setups::context_of;
use ohttp_capsule::{Asked, CapsuleFault, take_by};
use rand_words::Words;
use ring_core::{Sntrup761, Sntrup857};
use ring_lanes::Lanes;
use sntrup_kem::{KemParams, PublicKey, encap};
use std::alloc::{AllocError, Global};
use std::rt::Memory;

/// The most bytes of a text.
pub(crate) const MOST_TEXT: usize = 1_048_576;

/// The bytes of a header.
pub(crate) const HEADER_SIZE: usize = 7;

/// What a client keeps of a request, to take its response with. Its caller holds it, and changes nothing in it.
#[repr(C)]
#[derive(Drop)]
pub struct HpkeAsked {
    /// by which the gateway finds its key; below 256
    pub key_id: u16,
    pub kem: u16,
    pub kdf: u16,
    pub aead: u16,
    /// what the KEM gave
    pub shared_secret: [u8; 32],
    /// its encapsulation, and zero bytes behind it
    pub enc: [u8; 1184],
}

/// How many bytes a request of so many has beside hdr, enc and a tag, if it has these.
pub(crate) fn text_size<S: KemParams>(request: usize) -> Option<usize>
    ensures some { IfSome result (λ n. request ≡ least_request S.set + n) }
    ensures none { IfNone result (request < least_request S.set) }
{
    request.checked_sub(HEADER_SIZE + 16)?.checked_sub(S::ENC)
}

// Whether a number names an AEAD that encrypts.
fn encrypts(aead: u16) -> bool
    ensures { IsTrue result ↔ ((aead ≡ 1) ⊎ (aead ≡ 2)) }
{
    aead == 1 || aead == 2
}

// Whether a request can be made with these algorithms.
fn can_ask(kdf: u16, aead: u16) -> bool
    ensures { IsTrue result ↔ CanAsk kdf aead }
{
    names_kdf(kdf) && encrypts(aead)
}

// Whether this can be asked, with room for the request.
fn fits_ask<S: KemParams>(text: &[u8], request: &[u8]) -> bool
    ensures { IsTrue result ↔ FitsAsk S.set text.now request.now }
{
    match text_size::<S>(request.len()) {
        Some(size) => text.len() <= MOST_TEXT && text.len() == size,
        None => false,
    }
}

// Fills the room for a request: hdr, enc, and the text, sealed at number 0.
fn put_request(context: &Context, key_id: u8, enc: &[u8], text: &[u8], request: &mut [u8])
    requires cipher { HasCipher context.now }
    requires text { length text.now ≤ most_text }
    requires room { length request.old ≡ 7 + length enc.now + (length text.now + 16) }
    ensures { request.new ≡ header key_id context.now.suite ++ enc.now
        ++ (cipher_of context.now).sealed 0 [] text.now }
{
    let (front, ct) = request.split_at_mut(HEADER_SIZE + enc.len());
    let (hdr, sent) = front.split_at_mut(HEADER_SIZE);
    hdr.copy_from_slice(&header(key_id, context.suite()));
    sent.copy_from_slice(enc);
    context.seal_at(0, &[], text, ct);
}

// An encapsulation, with zero bytes behind it.
fn padded_enc(enc: &[u8]) -> [u8; 1184]
    requires { length enc.now ≤ 1184 }
    ensures { result ≡ zero_padded 1184 enc.now }
{
    let mut padded = [0u8; 1184];
    padded[..enc.len()].copy_from_slice(enc);
    padded
}

// Makes a request to a public key, with the words of a source that stands at its first.
fn asked_to<S: KemParams, R: Words>(
    alloc: Global,
    words: &mut R,
    public: &PublicKey<S>,
    key_id: u8,
    kdf: u16,
    aead: u16,
    text: &[u8],
    asked: &mut HpkeAsked,
    request: &mut [u8],
) -> Result<(), AllocError>
    requires start { R.place words.old ≡ 0 }
    requires enc { S.ENC ≤ 1184 }
    requires can { CanAsk kdf aead }
    requires fits { FitsAsk S.set text.now request.old }
    ensures kept { OnOk result (asked.new ≡ kept key_id S.ID kdf aead
        (session_of S.set public.now (drawn_r S.set (R.word words.old) 0))
        (enc_of S.set public.now (drawn_r S.set (R.word words.old) 0))) }
    ensures request { OnOk result (request.new ≡ encapsulated_request key_id
        (asked_with key_id (suite_named S.ID kdf aead) S.set public.now
        (drawn_r S.set (R.word words.old) 0)) text.now) }
    ensures size { OnOk result (length (enc_of S.set public.now
        (drawn_r S.set (R.word words.old) 0)) ≡ enc_size S.set) }
    ensures refused { OnErr result ((asked.new ≡ asked.old) × (request.new ≡ request.old)) }
{
    let (enc, shared_secret) = encap(alloc, words, &Lanes, public)?;
    let suite = suite_named(S::ID, kdf, aead);
    let context = context_of(alloc, Role::Sender, key_id, suite, &shared_secret)?;
    put_request(context.as_context(), key_id, enc.as_slice(), text, request);
    *asked = HpkeAsked {
        key_id: u16::from(key_id),
        kem: S::ID,
        kdf,
        aead,
        shared_secret,
        enc: padded_enc(enc.as_slice()),
    };
    Ok(())
}

/// Makes a request to the public key of these bytes, if all of it fits.
pub fn put_asked<S: KemParams, R: Words>(
    alloc: Global,
    words: &mut R,
    asked: &mut HpkeAsked,
    public: &[u8],
    key_id: u8,
    kdf: u16,
    aead: u16,
    text: &[u8],
    request: &mut [u8],
) -> u32
    requires start { R.place words.old ≡ 0 }
    requires enc { S.ENC ≤ 1184 }
    requires public { length public.now ≡ S.PUBLIC }
    ensures done { result ≢ no_memory
        → ((result ≡ done) ↔ (CanAsk kdf aead × FitsAsk S.set text.now request.old)) }
    ensures statuses { (result ≡ done) ⊎ (result ≡ wrong_usage) ⊎ (result ≡ no_memory) }
    ensures kept { result ≡ done → asked.new ≡ kept key_id S.ID kdf aead
        (session_of S.set public.now (drawn_r S.set (R.word words.old) 0))
        (enc_of S.set public.now (drawn_r S.set (R.word words.old) 0)) }
    ensures request { result ≡ done → request.new ≡ encapsulated_request key_id
        (asked_with key_id (suite_named S.ID kdf aead) S.set public.now
        (drawn_r S.set (R.word words.old) 0)) text.now }
    ensures size { result ≡ done → length (enc_of S.set public.now
        (drawn_r S.set (R.word words.old) 0)) ≡ enc_size S.set }
    ensures refused { result ≢ done → (asked.new ≡ asked.old) × (request.new ≡ request.old) }
{
    if !can_ask(kdf, aead) || !fits_ask::<S>(text, request) {
        return WRONG_USAGE;
    }
    let Ok(public) = PublicKey::<S>::from_bytes(alloc, public) else {
        return NO_MEMORY;
    };
    match asked_to::<S, R>(
        alloc, words, &public, key_id, kdf, aead, text, asked, request,
    ) {
        Ok(()) => 0,
        Err(_error) => NO_MEMORY,
    }
}

// Whether the numbers in what a client keeps name something.
fn is_asked(asked: &HpkeAsked) -> bool
    ensures { IsTrue result ↔ IsAsked asked.now }
{
    asked.key_id < 256
        && (asked.kem == Sntrup761::ID || asked.kem == Sntrup857::ID)
        && can_ask(asked.kdf, asked.aead)
}

// The encapsulation of a set, at the front of its place.
fn enc_in<S: KemParams>(enc: &[u8; 1184]) -> &[u8]
    requires { S.ENC ≤ 1184 }
    ensures { result.now ≡ take (enc_size S.set) enc.now }
{
    &enc[..S::ENC]
}

// The encapsulation that a client keeps.
fn enc_held(asked: &HpkeAsked) -> &[u8]
    ensures bytes { result.now ≡ take (enc_size (set_named asked.now.kem)) asked.now.enc }
    ensures size { length result.now ≤ 1184 }
{
    if asked.kem == Sntrup761::ID {
        enc_in::<Sntrup761>(&asked.enc)
    } else {
        enc_in::<Sntrup857>(&asked.enc)
    }
}

// What a client keeps, as `take_by` asks for it.
fn asked_held(alloc: Global, asked: &HpkeAsked) -> Result<Asked, AllocError>
    requires { asked.now.key_id < 256 }
    ensures { IfOk result (λ a. a ≡ asked_held asked.now) }
{
    let suite = suite_named(asked.kem, asked.kdf, asked.aead);
    let context = context_of(
        alloc,
        Role::Sender,
        asked.key_id as u8,
        suite,
        &asked.shared_secret,
    )?;
    let enc = copied(alloc, enc_held(asked))?;
    Ok(Asked { context, enc })
}

// The bytes of a response beside its text: the nonce and a tag.
fn least_response(asked: &HpkeAsked) -> usize
    requires { IsAsked asked.now }
    ensures { result ≡ least_response (asked_held asked.now) }
{
    match asked.aead {
        1 => 32,
        _ => 48,
    }
}

// Takes a response of which all fits.
fn put_taken(
    alloc: Global,
    memory: Memory,
    asked: &HpkeAsked,
    response: &[u8],
    text: &mut [u8],
) -> Result<(), CapsuleFault>
    requires asked { IsAsked asked.now }
    requires fits { FitsTake (asked_held asked.now) response.now text.old }
    ensures taken { OnOk result (taken (asked_held asked.now) response.now ≡ Ok text.new) }
    ensures failed { result ≢ Err CapsuleFault.OutOfMemory → ((result ≡ Err CapsuleFault.Failed)
        ↔ IsOfNoExchange (asked_held asked.now) response.now) }
    ensures faults { OnErr result ((result ≡ Err CapsuleFault.Failed)
        ⊎ (result ≡ Err CapsuleFault.OutOfMemory)) }
    ensures refused { OnErr result (text.new ≡ text.old) }
{
    let asked = asked_held(alloc, asked)?;
    let reply = take_by(MayCheck::alone(memory), alloc, &asked, response)?;
    text.copy_from_slice(reply.as_slice());
    Ok(())
}

/// Decapsulates the response to a request (RFC 9458, 4.4), by what the client kept of it: checks the tag, and then
/// fills `text`, which has 32 bytes fewer than `response` for AES-128-GCM and 48 fewer for AES-256-GCM.
pub fn take_response(
    alloc: Global,
    memory: Memory,
    asked: &HpkeAsked,
    response: &[u8],
    text: &mut [u8],
) -> u32
    ensures done { result ≢ no_memory → ((result ≡ done) ↔ (IsAsked asked.now
        × FitsTake (asked_held asked.now) response.now text.old
        × IsOk (taken (asked_held asked.now) response.now))) }
    ensures short { (result ≡ refused_short)
        ↔ (IsAsked asked.now × IsShortResponse (asked_held asked.now) response.now) }
    ensures failed { result ≢ no_memory → ((result ≡ refused_failed) ↔ (IsAsked asked.now
        × FitsTake (asked_held asked.now) response.now text.old
        × IsOfNoExchange (asked_held asked.now) response.now)) }
    ensures statuses { (result ≡ done) ⊎ (result ≡ wrong_usage) ⊎ (result ≡ no_memory)
        ⊎ (result ≡ refused_short) ⊎ (result ≡ refused_failed) }
    ensures taken { result ≡ done → taken (asked_held asked.now) response.now ≡ Ok text.new }
    ensures refused { result ≢ done → text.new ≡ text.old }
{
    if !is_asked(asked) {
        return WRONG_USAGE;
    }
    let Some(size) = response.len().checked_sub(least_response(asked)) else {
        return REFUSED_SHORT;
    };
    if size > MOST_TEXT || text.len() != size {
        return WRONG_USAGE;
    }
    match put_taken(alloc, memory, asked, response, text) {
        Ok(()) => 0,
        Err(CapsuleFault::Failed) => REFUSED_FAILED,
        Err(_out_of_memory) => NO_MEMORY,
    }
}
