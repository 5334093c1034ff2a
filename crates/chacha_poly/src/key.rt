//! Keys of the AEAD: sealing, checking, decrypting.

ghost use Rattle.std.specs.Prelude.{◌≡◌, ◌≤◌, ◌<◌, ◌+◌, ◌-◌, ◌^◌, ◌↔◌, ℕ, List, [], false, length, take, slice_index_or, IsTrue};
ghost use Rattle.chacha_poly.specs.Aead.{one_time_key, seal, Holds, last_16, clear};

use crate::tags::tag_by;
use chacha20::ChaChaKey;
use std::marker::Model;
use tag_checks::{Checks, MayCheck, ends_in};

/// A key of AEAD_CHACHA20_POLY1305. A contract sees its 32 bytes.
#[derive(Drop)]
pub struct ChaChaPolyKey {
    cipher: ChaChaKey,
}

impl Model for ChaChaPolyKey {
    ghost use Rattle.std.specs.Prelude.{ℕ, List};

    ghost Value = { List ℕ };

    ghost view = { λ k. k.cipher };
}

impl ChaChaPolyKey {
    /// The key of these bytes.
    pub fn new(key: &[u8; 32]) -> ChaChaPolyKey
        ensures { result ≡ key.now }
    {
        ChaChaPolyKey {
            cipher: ChaChaKey::new(key),
        }
    }

    /// The encryption (RFC 8439, 2.8), in place: `buffer` has a text and 16 bytes behind it, and then
    /// the ciphertext and the tag.
    ///
    /// The limit of 2^36 - 32 bytes is that of `aes_gcm`, so that one contract serves both ciphers; the
    /// RFC's is 2^38 - 64. That no two texts are sealed with the same key and nonce is the caller's to
    /// keep.
    #[tactic(auto, unfolding(crate::specs::Aead::seal, crate::specs::Aead::tag_of))]
    pub fn seal_in_place(&self, nonce: &[u8; 12], aad: &[u8], buffer: &mut [u8])
        requires room { 16 ≤ length buffer.old }
        requires text { length buffer.old - 16 ≤ 2 ^ 36 - 32 }
        ensures { buffer.new
            ≡ seal self.now nonce.now aad.now (take (length buffer.old - 16) buffer.old) }
    {
        let (text, tag) = buffer.split_at_mut(buffer.len() - 16);
        let once = self.cipher.encrypt_behind_key(nonce, text);
        tag.copy_from_slice(&tag_by(&once, aad, text));
    }

    /// The same of a `text`: fills `out` with the ciphertext, as long as `text`, and the tag of 16
    /// bytes.
    pub fn seal_into(&self, nonce: &[u8; 12], aad: &[u8], text: &[u8], out: &mut [u8])
        requires room { length out.old ≡ length text.now + 16 }
        requires text { length text.now ≤ 2 ^ 36 - 32 }
        ensures { out.new ≡ seal self.now nonce.now aad.now text.now }
    {
        out[..text.len()].copy_from_slice(text);
        self.seal_in_place(nonce, aad, out);
    }

    // Whether the tag holds by a one-time key.
    #[tactic(auto, unfolding(crate::specs::Aead::tag_of))]
    fn holds_by(&self, once: &[u8; 32], aad: &[u8], ct: &[u8]) -> bool
        ensures { (nonce : List ℕ) → once.now ≡ one_time_key self.now nonce
            → IsTrue result ↔ Holds self.now nonce aad.now ct.now }
    {
        if ct.len() < 16 {
            return false;
        }
        let tag = tag_by(once, aad, &ct[..ct.len() - 16]);
        ends_in(ct, &tag)
    }

    /// Whether the decryption (RFC 8439, 2.8) finds that `ct` was sealed with this key, `nonce` and
    /// `aad`: true exactly where `ct` has at least 16 bytes and its last 16 are the tag of those
    /// before. Decrypts nothing.
    ///
    /// Each call counts as one check, also of a `ct` that is too short. All bytes of the two tags are
    /// compared at once.
    pub fn check_tag(&self, nonce: &[u8; 12], aad: &[u8], ct: &[u8], checks: &mut Checks) -> bool
        requires count { checks.old < 2 ^ 64 - 1 }
        ensures truth { IsTrue result ↔ Holds self.now nonce.now aad.now ct.now }
        ensures count { checks.new ≡ checks.old + 1 }
    {
        checks.raise();
        let [once, ..] = self.cipher.first_bytes(&[*nonce; 4]);
        self.holds_by(&once, aad, ct)
    }

    /// The same at each of four nonces, for who may check tags. The key of the tag depends on the nonce
    /// (RFC 8439, 2.6), so each nonce costs a tag; only the four one-time keys are made at once.
    ///
    /// These checks aren't counted.
    pub fn hold_at(
        &self,
        _permission: MayCheck,
        nonces: &[[u8; 12]; 4],
        aad: &[u8],
        ct: &[u8],
    ) -> [bool; 4]
        ensures { (k : ℕ) → k < 4 → IsTrue (slice_index_or result k false)
            ↔ Holds self.now (slice_index_or nonces.now k []) aad.now ct.now }
    {
        let [a, b, c, d] = self.cipher.first_bytes(nonces);
        [
            self.holds_by(&a, aad, ct),
            self.holds_by(&b, aad, ct),
            self.holds_by(&c, aad, ct),
            self.holds_by(&d, aad, ct),
        ]
    }

    /// The plaintext (RFC 8439, 2.8), in place: all but the last 16 bytes of `buffer` become their
    /// decryption, and the tag behind them stays.
    ///
    /// Its condition is that the tag holds, as `check_tag` told: the tag isn't computed again.
    #[tactic(auto, unfolding(crate::specs::Aead::clear))]
    pub fn decrypt_in_place(&self, nonce: &[u8; 12], aad: &[u8], buffer: &mut [u8])
        requires holds { Holds self.now nonce.now aad.now buffer.old }
        requires ct { length buffer.old ≤ 2 ^ 36 - 16 }
        ensures text { take (length buffer.old - 16) buffer.new
            ≡ clear self.now nonce.now buffer.old }
        ensures tag { last_16 buffer.new ≡ last_16 buffer.old }
    {
        let (text, _) = buffer.split_at_mut(buffer.len() - 16);
        self.cipher.encrypt(1, nonce, text);
    }

    /// The same of a `ct`: fills `out` with the decryption of all but its last 16 bytes.
    #[tactic(auto, unfolding(crate::specs::Aead::clear))]
    pub fn decrypt_into(&self, nonce: &[u8; 12], aad: &[u8], ct: &[u8], out: &mut [u8])
        requires holds { Holds self.now nonce.now aad.now ct.now }
        requires ct { length ct.now ≤ 2 ^ 36 - 16 }
        requires room { length out.old + 16 ≡ length ct.now }
        ensures { out.new ≡ clear self.now nonce.now ct.now }
    {
        out.copy_from_slice(&ct[..out.len()]);
        self.cipher.encrypt(1, nonce, out);
    }
}
