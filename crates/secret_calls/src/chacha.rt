//! ChaCha20-Poly1305.

use chacha_poly::{ChaChaPolyKey, Checks, MayCheck};
use std::thread::Threads;

// Of no whole number of blocks.
const TEXT: usize = 100;

const CIPHERTEXT: usize = TEXT + 16;

const AAD: &[u8] = b"associated data";

// A key of 32 bytes, a nonce and a text, which are sealed.
pub(crate) fn seal(secrets: &[u8]) -> Option<[u8; CIPHERTEXT]> {
    let (key, rest) = secrets.split_first_chunk::<32>()?;
    let (nonce, rest) = rest.split_first_chunk::<12>()?;
    let text = rest.first_chunk::<TEXT>()?;
    let mut made = [0; CIPHERTEXT];
    ChaChaPolyKey::new(key).seal_into(nonce, AAD, text, &mut made);
    Some(made)
}

// A key of 32 bytes, a nonce and a ciphertext with its tag, which is tested both ways and decrypted
// where it holds.
pub(crate) fn opened<R: Threads>(rt: &R, secrets: &[u8]) -> Option<[u8; TEXT]> {
    let (key, rest) = secrets.split_first_chunk::<32>()?;
    let (nonce, rest) = rest.split_first_chunk::<12>()?;
    let ct = rest.first_chunk::<CIPHERTEXT>()?;
    let key = ChaChaPolyKey::new(key);
    let nonces = [[0; 12], *nonce, [1; 12], *nonce];
    let [_, holds, _, _] = key.hold_at(MayCheck::on_threads(rt), &nonces, AAD, ct);
    if !holds {
        return None;
    }
    if !key.check_tag(nonce, AAD, ct, &mut Checks::new(rt)) {
        return None;
    }
    let mut text = [0; TEXT];
    key.decrypt_into(nonce, AAD, ct, &mut text);
    Some(text)
}
