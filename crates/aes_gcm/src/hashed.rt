//! One ciphertext, checked at several nonces.

ghost use Rattle.std.specs.Prelude.{◌≡◌, ◌≤◌, ◌<◌, ◌-◌, ◌^◌, ◌↔◌, ℕ, List, [], false, length, slice_index_or, IsTrue};
ghost use Rattle.aes_block.specs.Cipher.{cipher};
ghost use Rattle.aes_gcm.specs.Gcm.{j0, Holds};

use crate::adding::add_blocks;
use crate::counters::Block;
use crate::key::GcmKey;
use std::marker::Model;
use std::thread::Threads;
use tag_checks::{MayCheck, ends_in};

/// A ciphertext with its associated data and its key, hashed once. The hash doesn't depend on the
/// nonce, so a check at a further nonce costs one block of the cipher. A contract sees the key, the
/// associated data and the ciphertext.
#[derive(Drop)]
pub struct HashedCiphertext<'a> {
    key: &'a GcmKey,
    aad: &'a [u8],
    ct: &'a [u8],
    hash: Block,
}

impl<'a> Model for HashedCiphertext<'a> {
    ghost use Rattle.std.specs.Prelude.{◌≡◌};
    ghost use Rattle.aes_gcm.specs.Gcm.{hash_of, body};
    ghost use Rattle.aes_gcm.specs.Hashed.{HashedView};

    ghost Value = { HashedView };

    ghost view = { λ h. record { key = h.key.now; aad = h.aad.now; ct = h.ct.now } };

    ghost invariant = { λ h. h.hash ≡ hash_of h.key.now h.aad.now (body h.ct.now) };
}

impl GcmKey {
    // Hashes `aad`, and `ct` but for its last 16 bytes.
    pub(crate) fn hashed<'a>(&'a self, aad: &'a [u8], ct: &'a [u8]) -> HashedCiphertext<'a>
        requires ct { length ct.now ≤ 2 ^ 36 - 16 }
        requires aad { length aad.now < 2 ^ 61 }
        ensures { result ≡ record { key = self.now; aad = aad.now; ct = ct.now } }
    {
        let body = &ct[..ct.len().saturating_sub(16)];
        HashedCiphertext {
            key: self,
            aad,
            ct,
            hash: self.hash(aad, body),
        }
    }

    /// Hashes a ciphertext (SP 800-38D, 7.1, step 5), to check its tag at any number of nonces.
    ///
    /// These checks aren't counted. The runtime is asked for, and not used: who is lent none that
    /// may start threads can check a tag by [`GcmKey::check_tag`] alone.
    pub fn hash_ciphertext<'a, R: Threads>(
        &'a self,
        _rt: &R,
        aad: &'a [u8],
        ct: &'a [u8],
    ) -> HashedCiphertext<'a>
        requires ct { length ct.now ≤ 2 ^ 36 - 16 }
        requires aad { length aad.now < 2 ^ 61 }
        ensures { result ≡ record { key = self.now; aad = aad.now; ct = ct.now } }
    {
        self.hashed(aad, ct)
    }

    /// Hashes a ciphertext, as [`GcmKey::hash_ciphertext`] does, for who may check tags.
    pub fn hash_ciphertext_by<'a>(
        &'a self,
        _permission: MayCheck,
        aad: &'a [u8],
        ct: &'a [u8],
    ) -> HashedCiphertext<'a>
        requires ct { length ct.now ≤ 2 ^ 36 - 16 }
        requires aad { length aad.now < 2 ^ 61 }
        ensures { result ≡ record { key = self.now; aad = aad.now; ct = ct.now } }
    {
        self.hashed(aad, ct)
    }
}

impl HashedCiphertext<'_> {
    // Whether its tag is the one that is masked by the cipher of the J0 of a nonce.
    #[tactic(auto, unfolding(crate::specs::Gcm::tag_of))]
    fn holds_with(&self, mask: Block) -> bool
        ensures { (nonce : List ℕ) → mask ≡ cipher self.now.key (j0 nonce)
            → IsTrue result ↔ Holds self.now.key nonce self.now.aad self.now.ct }
    {
        if self.ct.len() < 16 {
            return false;
        }
        let tag = add_blocks(self.hash, mask);
        ends_in(self.ct, &tag)
    }

    /// Whether the authenticated decryption function (SP 800-38D, 7.2) finds that the ciphertext
    /// was sealed with `nonce`: true exactly where it has at least 16 bytes and its last 16 are the
    /// tag of those before. All bytes of the two tags are compared at once.
    pub fn holds_at(&self, nonce: &[u8; 12]) -> bool
        ensures { IsTrue result ↔ Holds self.now.key nonce.now self.now.aad self.now.ct }
    {
        let [verdict, ..] = self.hold_at(&[*nonce; 4]);
        verdict
    }

    /// The same at each of four nonces. It takes as long as at one.
    pub fn hold_at(&self, nonces: &[[u8; 12]; 4]) -> [bool; 4]
        ensures { (k : ℕ) → k < 4 → IsTrue (slice_index_or result k false)
            ↔ Holds self.now.key (slice_index_or nonces.now k []) self.now.aad self.now.ct }
    {
        let [a, b, c, d] = self.key.masks(nonces);
        [
            self.holds_with(a),
            self.holds_with(b),
            self.holds_with(c),
            self.holds_with(d),
        ]
    }
}
