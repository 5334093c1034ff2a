//! The gateway of Oblivious HTTP (RFC 9458, 4.3 and 4.4): opens a request, and seals its response.

ghost use Rattle.std.specs.Prelude.{◌≡◌, ◌↔◌, ◌≤◌, ◌+◌, length, IsTrue};
ghost use Rattle.library_calls.specs.Capsules.{refusal_of, most_text, CanAnswer, IsAnswered};

use crate::asks::{MOST_TEXT, text_size};
use crate::statuses::{
    NO_MEMORY, REFUSED_FAILED, REFUSED_FORM, REFUSED_HEADER, REFUSED_NONCESIZE, REFUSED_SHORT,
    WRONG_USAGE,
};
use aes_gcm::MayCheck;
use ohttp_capsule::{CapsuleFault, answer_by};
use ring_lanes::Lanes;
use sntrup_kem::{KemParams, KeyBytesFault, SecretKey};
use std::alloc::Global;
use std::rt::Memory;

// The status of a refusal.
fn refusal_of(fault: CapsuleFault) -> u32
    ensures { result ≡ refusal_of fault }
{
    match fault {
        CapsuleFault::Short => REFUSED_SHORT,
        CapsuleFault::Header => REFUSED_HEADER,
        CapsuleFault::NonceSize => REFUSED_NONCESIZE,
        CapsuleFault::Failed => REFUSED_FAILED,
        CapsuleFault::OutOfMemory => NO_MEMORY,
    }
}

// Whether both texts and their messages fit, where the request's text has so many bytes.
fn fits_answer(size: usize, question: &[u8], nonce: &[u8], text: &[u8], response: &[u8]) -> bool
    ensures { IsTrue result ↔ ((length question.now ≤ most_text) × (size ≡ length question.now)
        × (length text.now ≤ most_text)
        × (length response.now ≡ length nonce.now + (length text.now + 16))) }
{
    size <= MOST_TEXT
        && question.len() == size
        && text.len() <= MOST_TEXT
        && response.len() == nonce.len() + (text.len() + 16)
}

// Answers a request of which all fits to this key: the status.
fn response_status<S: KemParams>(
    alloc: Global,
    memory: Memory,
    secret: &SecretKey<S>,
    key_id: u8,
    request: &[u8],
    nonce: &[u8],
    text: &[u8],
    question: &mut [u8],
    response: &mut [u8],
) -> u32
    requires enc { S.ENC ≤ 1184 }
    requires can { CanAnswer S.set secret.now request.now question.old nonce.now text.now
        response.old }
    ensures { IsAnswered S.set S.ID secret.now key_id request.now nonce.now text.now question.old
        response.old question.new response.new result }
{
    match answer_by(
        MayCheck::alone(memory),
        alloc,
        &Lanes,
        secret,
        key_id,
        request,
        nonce,
        text,
    ) {
        Ok((asked, answer)) => {
            question.copy_from_slice(asked.as_slice());
            response.copy_from_slice(answer.as_slice());
            0
        }
        Err(fault) => refusal_of(fault),
    }
}

/// Answers a request to the key of these bytes, if all of it fits.
pub fn put_answer<S: KemParams>(
    alloc: Global,
    memory: Memory,
    secret: &[u8],
    key_id: u8,
    request: &[u8],
    nonce: &[u8],
    text: &[u8],
    question: &mut [u8],
    response: &mut [u8],
) -> u32
    requires enc { S.ENC ≤ 1184 }
    requires secret { length secret.now ≡ S.SECRET }
    ensures { IsAnswered S.set S.ID secret.now key_id request.now nonce.now text.now question.old
        response.old question.new response.new result }
{
    let Some(size) = text_size::<S>(request.len()) else {
        return REFUSED_SHORT;
    };
    if !fits_answer(size, question, nonce, text, response) {
        return WRONG_USAGE;
    }
    let secret = match SecretKey::<S>::from_bytes(alloc, secret) {
        Ok(secret) => secret,
        Err(KeyBytesFault::OutOfMemory) => return NO_MEMORY,
        Err(KeyBytesFault::Form) => return REFUSED_FORM,
        Err(KeyBytesFault::Length) => unreachable!(),
    };
    response_status::<S>(
        alloc, memory, &secret, key_id, request, nonce, text, question, response,
    )
}
