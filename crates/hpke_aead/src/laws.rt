//! Laws of the definitions, each the contract of a function that does no work.

ghost use Rattle.std.specs.Prelude.{◌≡◌, ◌↔◌, ℕ, List, length, IsTrue};
ghost use Rattle.hkdf_labelled.specs.declared.suites.Aead.{Aead};
ghost use Rattle.hkdf_labelled.specs.Suites.{encrypts, parameters};
ghost use Rattle.hpke_aead.specs.declared.keys.AeadKey.{AeadKey};
ghost use Rattle.hpke_aead.specs.Aeads.{key_of, seal, Holds, tag_holds, clear};

/// What was sealed opens, with the same key, nonce and aad, to its text: for each AEAD that encrypts, and each
/// key of Nk bytes.
#[tactic(auto, using(crate::proofs::Opening::opens))]
pub fn opens_what_was_sealed()
    ensures holds { (aead : Aead) (bytes nonce aad text : List ℕ) → IsTrue (encrypts aead)
        → length bytes ≡ (parameters aead).key_size
        → Holds (key_of aead bytes) nonce aad (seal (key_of aead bytes) nonce aad text) }
    ensures text { (aead : Aead) (bytes nonce aad text : List ℕ) → IsTrue (encrypts aead)
        → length bytes ≡ (parameters aead).key_size
        → clear (key_of aead bytes) nonce (seal (key_of aead bytes) nonce aad text) ≡ text }
{}

/// A tag is called right exactly where Open doesn't fail.
#[tactic(auto, using(crate::proofs::Opening::opens))]
pub fn a_tag_is_called_right_where_it_holds()
    ensures { (key : AeadKey) (nonce aad ct : List ℕ)
        → IsTrue (tag_holds key nonce aad ct) ↔ Holds key nonce aad ct }
{}
