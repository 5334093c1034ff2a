//! AES-128-GCM and AES-256-GCM (SP 800-38D).

ghost use Rattle.std.specs.Prelude.{◌≡◌, ◌≢◌, ◌⊎◌, ◌↔◌, length, IsTrue, IsSome, IfSome};
ghost use Rattle.aes_gcm.specs.Gcm.{seal, clear, Holds};
ghost use Rattle.library_calls.specs.Lengths.{IsKeySize, FitsSeal, FitsSealInPlace, FitsOpen, FitsOpenInPlace};
ghost use Rattle.library_calls.specs.Statuses.{done, wrong_usage, refused_failed};

use crate::statuses::{REFUSED_FAILED, WRONG_USAGE};
use aes_gcm::{Checks, GcmKey, MayCheck};
use std::rt::Memory;

/// The most bytes of a text.
pub(crate) const MOST_TEXT: usize = 68_719_476_704;

/// The most bytes of additional data, and one more.
pub(crate) const AAD_END: usize = 2_305_843_009_213_693_952;

/// The key of 16 or 32 bytes. It has tables of 9 KiB: kept by itself, so that no caller's frame has room
/// for what it moves.
#[inline(never)]
pub(crate) fn key_of(bytes: &[u8]) -> Option<GcmKey>
    ensures size { IsSome result ↔ IsKeySize (length bytes.now) }
    ensures key { IfSome result (λ k. k ≡ bytes.now) }
{
    if let Some(key) = bytes.as_array::<16>() {
        return Some(GcmKey::new128(key));
    }
    if let Some(key) = bytes.as_array::<32>() {
        return Some(GcmKey::new256(key));
    }
    None
}

/// Whether this can be sealed, with room for it.
pub(crate) fn fits_seal(aad: &[u8], text: &[u8], out: &[u8]) -> bool
    ensures { IsTrue result
        ↔ FitsSeal (length aad.now) (length text.now) (length out.now) }
{
    aad.len() < AAD_END && text.len() <= MOST_TEXT && out.len() == text.len() + 16
}

/// Whether the text before the last 16 bytes of `buffer` can be sealed.
pub(crate) fn fits_seal_in_place(aad: &[u8], buffer: &[u8]) -> bool
    ensures { IsTrue result ↔ FitsSealInPlace (length aad.now) (length buffer.now) }
{
    aad.len() < AAD_END && buffer.len() >= 16 && buffer.len() <= MOST_TEXT + 16
}

/// Whether this can be opened.
pub(crate) fn fits_open_in_place(aad: &[u8], ct: &[u8]) -> bool
    ensures { IsTrue result ↔ FitsOpenInPlace (length aad.now) (length ct.now) }
{
    aad.len() < AAD_END && ct.len() <= MOST_TEXT + 16
}

/// Whether this can be opened, with room for it.
pub(crate) fn fits_open(aad: &[u8], ct: &[u8], out: &[u8]) -> bool
    ensures { IsTrue result
        ↔ FitsOpen (length aad.now) (length ct.now) (length out.now) }
{
    fits_open_in_place(aad, ct) && out.len() == ct.len().saturating_sub(16)
}

/// The authenticated encryption function (SP 800-38D, 7.1): fills `out` with the ciphertext and the tag,
/// 16 bytes more than `text`. `key` has 16 or 32 bytes.
pub fn gcm_seal(key: &[u8], nonce: &[u8; 12], aad: &[u8], text: &[u8], out: &mut [u8]) -> u32
    ensures done { (result ≡ done) ↔ (IsKeySize (length key.now)
        × FitsSeal (length aad.now) (length text.now) (length out.old)) }
    ensures statuses { (result ≡ done) ⊎ (result ≡ wrong_usage) }
    ensures sealed { result ≡ done → out.new ≡ seal key.now nonce.now aad.now text.now }
    ensures refused { result ≢ done → out.new ≡ out.old }
{
    if !fits_seal(aad, text, out) {
        return WRONG_USAGE;
    }
    let Some(key) = key_of(key) else {
        return WRONG_USAGE;
    };
    key.seal_into(nonce, aad, text, out);
    0
}

/// The authenticated decryption function (SP 800-38D, 7.2): checks the tag, and then fills `out` with the
/// text, 16 bytes fewer than `ct`; none where `ct` has fewer than 16. `key` has 16 or 32 bytes.
pub fn gcm_open(
    memory: Memory,
    key: &[u8],
    nonce: &[u8; 12],
    aad: &[u8],
    ct: &[u8],
    out: &mut [u8],
) -> u32
    ensures done { (result ≡ done) ↔ (IsKeySize (length key.now)
        × FitsOpen (length aad.now) (length ct.now) (length out.old)
        × Holds key.now nonce.now aad.now ct.now) }
    ensures failed { (result ≡ refused_failed) ↔ (IsKeySize (length key.now)
        × FitsOpen (length aad.now) (length ct.now) (length out.old)
        × (¬ Holds key.now nonce.now aad.now ct.now)) }
    ensures statuses { (result ≡ done) ⊎ (result ≡ wrong_usage) ⊎ (result ≡ refused_failed) }
    ensures opened { result ≡ done → out.new ≡ clear key.now nonce.now ct.now }
    ensures refused { result ≢ done → out.new ≡ out.old }
{
    if !fits_open(aad, ct, out) {
        return WRONG_USAGE;
    }
    let Some(key) = key_of(key) else {
        return WRONG_USAGE;
    };
    let mut checks = Checks::by(MayCheck::alone(memory));
    if !key.check_tag(nonce, aad, ct, &mut checks) {
        return REFUSED_FAILED;
    }
    key.decrypt_into(nonce, aad, ct, out);
    0
}
