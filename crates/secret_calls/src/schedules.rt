//! HMAC, the key schedule, nonces and exports.

use hkdf_labelled::{Aead, Kdf, Suite, hmac};
use hpke_context::Context;
use key_schedule::{CipherSecrets, Mode, Role, nonce_at, schedule};

const MESSAGE: usize = 100;

const EXPORTED: usize = 100;

// A key of 32 bytes and a message.
pub(crate) fn hmac256(secrets: &[u8]) -> Option<[u8; 32]> {
    let (key, rest) = secrets.split_first_chunk::<32>()?;
    let message = rest.first_chunk::<MESSAGE>()?;
    hmac(Kdf::Sha256, key, message)
        .as_slice()
        .first_chunk::<32>()
        .copied()
}

// The same with SHA-512.
pub(crate) fn hmac512(secrets: &[u8]) -> Option<[u8; 64]> {
    let (key, rest) = secrets.split_first_chunk::<32>()?;
    let message = rest.first_chunk::<MESSAGE>()?;
    hmac(Kdf::Sha512, key, message)
        .as_slice()
        .first_chunk::<64>()
        .copied()
}

// The nonce of number 1, by the base nonce of a context.
fn second_nonce(secrets: &CipherSecrets) -> Option<[u8; 12]> {
    match secrets {
        CipherSecrets::NoCipher => None,
        CipherSecrets::Aes128 { base_nonce, .. } | CipherSecrets::Aes256 { base_nonce, .. } => {
            Some(nonce_at(base_nonce, 1))
        }
    }
}

// A shared secret and a psk, of 32 bytes each: a nonce and an export of the context that they give.
fn scheduled(kdf: Kdf, aead: Aead, secrets: &[u8]) -> Option<[u8; EXPORTED]> {
    let (shared_secret, rest) = secrets.split_first_chunk::<32>()?;
    let psk = rest.first_chunk::<32>()?;
    let suite = Suite { kem: 32, kdf, aead };
    let made = schedule(&suite, Mode::Psk, shared_secret, b"info", psk, b"psk id").ok()?;
    let nonce = second_nonce(&made.cipher)?;
    let context = Context::new(Role::Sender, suite, made, 2);
    let mut out = [0; EXPORTED];
    context.export_into(&nonce, &mut out).ok()?;
    Some(out)
}

// HKDF-SHA256 and AES-128-GCM.
pub(crate) fn schedule128(secrets: &[u8]) -> Option<[u8; EXPORTED]> {
    scheduled(Kdf::Sha256, Aead::Aes128, secrets)
}

// HKDF-SHA512 and AES-256-GCM.
pub(crate) fn schedule256(secrets: &[u8]) -> Option<[u8; EXPORTED]> {
    scheduled(Kdf::Sha512, Aead::Aes256, secrets)
}
