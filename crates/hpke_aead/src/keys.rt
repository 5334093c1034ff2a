//! Keys of AEADs: sealing, checking, decrypting.

ghost use Rattle.std.specs.Prelude.{◌≡◌, ◌↔◌, ◌≤◌, ◌<◌, ◌+◌, ◌-◌, ◌^◌, ℕ, [], false, length, take, slice_index_or, IsTrue};
ghost use Rattle.hkdf_labelled.specs.Suites.{encrypts, parameters};
ghost use Rattle.aes_gcm.specs.Gcm.{last_16};
ghost use Rattle.hpke_aead.specs.Aeads.{key_of, seal, Holds, clear};

use aes_gcm::{Checks, GcmKey, MayCheck};
use hkdf_labelled::Aead;

/// A key, with what its cipher makes of it once.
#[derive(Drop)]
pub enum AeadKey {
    /// AES-128-GCM or AES-256-GCM, by the length of the key
    Gcm(GcmKey),
}

impl AeadKey {
    /// The key of an AEAD that encrypts: `bytes` has Nk bytes.
    ///
    /// A key has tables of 9 KiB. It is made by itself, so that no caller's frame has room for what it moves.
    #[inline(never)]
    pub fn new(aead: Aead, bytes: &[u8]) -> AeadKey
        requires cipher { IsTrue (encrypts aead) }
        requires size { length bytes.now ≡ (parameters aead).key_size }
        ensures { result ≡ key_of aead bytes.now }
    {
        match aead {
            Aead::Aes128 => AeadKey::Gcm(GcmKey::new128(bytes.as_array().unwrap())),
            Aead::Aes256 => AeadKey::Gcm(GcmKey::new256(bytes.as_array().unwrap())),
            Aead::ExportOnly => unreachable!(),
        }
    }

    /// Seal(key, nonce, aad, text) (RFC 9180, 4): fills `out` with the ciphertext, as long as `text`, and
    /// the tag of 16 bytes. That no two texts are sealed with one key and nonce is the caller's to keep.
    pub fn seal_into(&self, nonce: &[u8; 12], aad: &[u8], text: &[u8], out: &mut [u8])
        requires room { length out.old ≡ length text.now + 16 }
        requires text { length text.now ≤ 2 ^ 36 - 32 }
        requires aad { length aad.now < 2 ^ 61 }
        ensures { out.new ≡ seal self.now nonce.now aad.now text.now }
    {
        match self {
            AeadKey::Gcm(key) => key.seal_into(nonce, aad, text, out),
        }
    }

    /// The same in place: `buffer` has a text and 16 bytes behind it, and then the ciphertext and the tag.
    pub fn seal_in_place(&self, nonce: &[u8; 12], aad: &[u8], buffer: &mut [u8])
        requires room { 16 ≤ length buffer.old }
        requires text { length buffer.old - 16 ≤ 2 ^ 36 - 32 }
        requires aad { length aad.now < 2 ^ 61 }
        ensures { buffer.new
            ≡ seal self.now nonce.now aad.now (take (length buffer.old - 16) buffer.old) }
    {
        match self {
            AeadKey::Gcm(key) => key.seal_in_place(nonce, aad, buffer),
        }
    }

    /// Whether Open(key, nonce, aad, ct) (RFC 9180, 4) doesn't fail: true exactly where `ct` has at least 16
    /// bytes and its last 16 are the tag of those before. Decrypts nothing. Each call counts as one check.
    pub fn check_tag(&self, nonce: &[u8; 12], aad: &[u8], ct: &[u8], checks: &mut Checks) -> bool
        requires count { checks.old < 2 ^ 64 - 1 }
        requires ct { length ct.now ≤ 2 ^ 36 - 16 }
        requires aad { length aad.now < 2 ^ 61 }
        ensures truth { IsTrue result ↔ Holds self.now nonce.now aad.now ct.now }
        ensures long { IsTrue result → 16 ≤ length ct.now }
        ensures count { checks.new ≡ checks.old + 1 }
    {
        match self {
            AeadKey::Gcm(key) => key.check_tag(nonce, aad, ct, checks),
        }
    }

    /// The same at each of four nonces. These checks aren't counted.
    pub fn hold_at(
        &self,
        permission: MayCheck,
        nonces: &[[u8; 12]; 4],
        aad: &[u8],
        ct: &[u8],
    ) -> [bool; 4]
        requires ct { length ct.now ≤ 2 ^ 36 - 16 }
        requires aad { length aad.now < 2 ^ 61 }
        ensures { (k : ℕ) → k < 4 → IsTrue (slice_index_or result k false)
            ↔ Holds self.now (slice_index_or nonces.now k []) aad.now ct.now }
    {
        match self {
            AeadKey::Gcm(key) => key.hash_ciphertext_by(permission, aad, ct).hold_at(nonces),
        }
    }

    /// What Open(key, nonce, aad, ct) gives: fills `out` with the decryption of all but the last 16 bytes
    /// of `ct`. Its condition is that the tag holds, as `check_tag` told: it isn't computed again.
    pub fn decrypt_into(&self, nonce: &[u8; 12], aad: &[u8], ct: &[u8], out: &mut [u8])
        requires holds { Holds self.now nonce.now aad.now ct.now }
        requires room { length out.old + 16 ≡ length ct.now }
        ensures { out.new ≡ clear self.now nonce.now ct.now }
    {
        match self {
            AeadKey::Gcm(key) => key.decrypt_into(nonce, aad, ct, out),
        }
    }

    /// The same in place: all but the last 16 bytes of `buffer` become their decryption, and the tag behind
    /// them stays.
    pub fn decrypt_in_place(&self, nonce: &[u8; 12], aad: &[u8], buffer: &mut [u8])
        requires { Holds self.now nonce.now aad.now buffer.old }
        ensures text { take (length buffer.old - 16) buffer.new
            ≡ clear self.now nonce.now buffer.old }
        ensures tag { last_16 buffer.new ≡ last_16 buffer.old }
    {
        match self {
            AeadKey::Gcm(key) => key.decrypt_in_place(nonce, aad, buffer),
        }
    }
}
