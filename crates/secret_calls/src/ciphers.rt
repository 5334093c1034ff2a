//! AES, GHASH and AES-GCM.

use aes_block::AesKey;
use aes_gcm::{Checks, GcmKey};
use ghash_core::{Ghash, GhashKey};
use std::thread::Threads;

// Of no whole number of blocks.
const TEXT: usize = 100;

const CIPHERTEXT: usize = TEXT + 16;

// A key of 16 bytes and a block.
pub(crate) fn aes128(secrets: &[u8]) -> Option<[u8; 16]> {
    let (key, rest) = secrets.split_first_chunk::<16>()?;
    let block = rest.first_chunk::<16>()?;
    Some(AesKey::new128(key).encrypt_block(block))
}

// A key of 32 bytes and a block.
pub(crate) fn aes256(secrets: &[u8]) -> Option<[u8; 16]> {
    let (key, rest) = secrets.split_first_chunk::<32>()?;
    let block = rest.first_chunk::<16>()?;
    Some(AesKey::new256(key).encrypt_block(block))
}

// A hash key and a text.
pub(crate) fn ghash(secrets: &[u8]) -> Option<[u8; 16]> {
    let (key, rest) = secrets.split_first_chunk::<16>()?;
    let text = rest.first_chunk::<TEXT>()?;
    let key = GhashKey::new(key);
    let mut hash = Ghash::start(&key);
    hash.update_padded(text);
    Some(hash.finish(0, 8 * TEXT as u64))
}

// A nonce and a text, which are sealed.
fn sealed(key: &GcmKey, secrets: &[u8]) -> Option<[u8; CIPHERTEXT]> {
    let (nonce, rest) = secrets.split_first_chunk::<12>()?;
    let text = rest.first_chunk::<TEXT>()?;
    let mut made = [0; CIPHERTEXT];
    key.seal_into(nonce, b"associated data", text, &mut made);
    Some(made)
}

// A key of 16 bytes, a nonce and a text.
pub(crate) fn seal128(secrets: &[u8]) -> Option<[u8; CIPHERTEXT]> {
    let (key, rest) = secrets.split_first_chunk::<16>()?;
    sealed(&GcmKey::new128(key), rest)
}

// A key of 32 bytes, a nonce and a text.
pub(crate) fn seal256(secrets: &[u8]) -> Option<[u8; CIPHERTEXT]> {
    let (key, rest) = secrets.split_first_chunk::<32>()?;
    sealed(&GcmKey::new256(key), rest)
}

// A nonce and a ciphertext with its tag, which is tested both ways and decrypted where it holds.
fn opened<R: Threads>(rt: &R, key: &GcmKey, secrets: &[u8]) -> Option<[u8; TEXT]> {
    let (nonce, rest) = secrets.split_first_chunk::<12>()?;
    let ct = rest.first_chunk::<CIPHERTEXT>()?;
    if !key
        .hash_ciphertext(rt, b"associated data", ct)
        .holds_at(nonce)
    {
        return None;
    }
    if !key.check_tag(nonce, b"associated data", ct, &mut Checks::new(rt)) {
        return None;
    }
    let mut text = [0; TEXT];
    key.decrypt_into(nonce, b"associated data", ct, &mut text);
    Some(text)
}

// A key of 16 bytes, a nonce and a ciphertext.
pub(crate) fn open128<R: Threads>(rt: &R, secrets: &[u8]) -> Option<[u8; TEXT]> {
    let (key, rest) = secrets.split_first_chunk::<16>()?;
    opened(rt, &GcmKey::new128(key), rest)
}

// A key of 32 bytes, a nonce and a ciphertext.
pub(crate) fn open256<R: Threads>(rt: &R, secrets: &[u8]) -> Option<[u8; TEXT]> {
    let (key, rest) = secrets.split_first_chunk::<32>()?;
    opened(rt, &GcmKey::new256(key), rest)
}
