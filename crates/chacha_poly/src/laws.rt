//! Laws of the definitions, each the contract of a function that does no work.

ghost use Rattle.std.specs.Prelude.{◌≡◌, codes};
ghost use Rattle.byte_strings.specs.Bytes.{i2osp};
ghost use Rattle.chacha_poly.specs.Aead.{seal, Holds, clear};

/// What was sealed opens, with the same key, nonce and aad, to its text.
#[tactic(auto, using(crate::proofs::Opening::opens))]
pub fn opens_what_was_sealed(key: &[u8; 32], nonce: &[u8; 12], aad: &[u8], text: &[u8])
    ensures holds { Holds key.now nonce.now aad.now (seal key.now nonce.now aad.now text.now) }
    ensures text { clear key.now nonce.now (seal key.now nonce.now aad.now text.now) ≡ text.now }
{}

/// The ciphertext and the tag that RFC 8439 prints in 2.8.2, by the definition.
#[tactic(auto, using(crate::proofs::Published::seals))]
pub fn seal_is_that_published()
    ensures { seal (i2osp 0x808182838485868788898a8b8c8d8e8f909192939495969798999a9b9c9d9e9f 32) (i2osp 0x070000004041424344454647 12)
        (i2osp 0x50515253c0c1c2c3c4c5c6c7 12)
        (codes "Ladies and Gentlemen of the class of '99: If I could offer you only one tip for the future, sunscreen would be it.")
        ≡ i2osp 0xd31a8d34648e60db7b86afbc53ef7ec2a4aded51296e08fea9e2b5a736ee62d63dbea45e8ca9671282fafb69da92728b1a71de0a9e060b2905d6a5b67ecd3b3692ddbd7f2d778b8c9803aee328091b58fab324e4fad675945585808b4831d7bc3ff4def08e4b7a9de576d26586cec64b61161ae10b594f09e26a7e902ecbd0600691 130 }
{}
