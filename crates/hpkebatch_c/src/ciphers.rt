//! AES-128-GCM and AES-256-GCM (SP 800-38D).

ghost use Rattle.std.specs.Prelude.{◌≡◌, ◌≢◌, ◌⊎◌, ◌↔◌, length};
ghost use Rattle.aes_gcm.specs.Gcm.{seal, clear, Holds};
ghost use Rattle.library_calls.specs.Lengths.{IsKeySize, FitsSeal, FitsOpen};
ghost use Rattle.library_calls.specs.Statuses.{done, wrong_usage, refused_failed};

use library_calls::{gcm_open, gcm_seal};
use std::rt::Memory;

/// The authenticated encryption function (SP 800-38D, 7.1): fills `out` with the ciphertext and the tag,
/// 16 bytes more than `text`. `key` has 16 or 32 bytes.
#[unsafe(no_mangle)]
pub extern "C" fn hpkebatch_gcm_seal(
    key: &[u8],
    nonce: &[u8; 12],
    aad: &[u8],
    text: &[u8],
    out: &mut [u8],
) -> u32
    ensures done { (result ≡ done) ↔ (IsKeySize (length key.now)
        × FitsSeal (length aad.now) (length text.now) (length out.old)) }
    ensures statuses { (result ≡ done) ⊎ (result ≡ wrong_usage) }
    ensures sealed { result ≡ done → out.new ≡ seal key.now nonce.now aad.now text.now }
    ensures refused { result ≢ done → out.new ≡ out.old }
{
    gcm_seal(key, nonce, aad, text, out)
}

/// The authenticated decryption function (SP 800-38D, 7.2): checks the tag, and then fills `out` with the
/// text, 16 bytes fewer than `ct`; none where `ct` has fewer than 16. `key` has 16 or 32 bytes.
#[unsafe(no_mangle)]
pub extern "C" fn hpkebatch_gcm_open(
    memory: Memory,
    key: &[u8],
    nonce: &[u8; 12],
    aad: &[u8],
    ct: &[u8],
    out: &mut [u8],
) -> u32
    ensures done { (result ≡ done) ↔ (IsKeySize (length key.now)
        × FitsOpen (length aad.now) (length ct.now) (length out.old)
        × Holds key.now nonce.now aad.now ct.now) }
    ensures failed { (result ≡ refused_failed) ↔ (IsKeySize (length key.now)
        × FitsOpen (length aad.now) (length ct.now) (length out.old)
        × (¬ Holds key.now nonce.now aad.now ct.now)) }
    ensures statuses { (result ≡ done) ⊎ (result ≡ wrong_usage) ⊎ (result ≡ refused_failed) }
    ensures opened { result ≡ done → out.new ≡ clear key.now nonce.now ct.now }
    ensures refused { result ≢ done → out.new ≡ out.old }
{
    gcm_open(memory, key, nonce, aad, ct, out)
}
