//! Laws of the definitions, each the contract of a function that does nothing.

ghost use Rattle.std.specs.Prelude.{◌≡◌, ◌≢◌};
ghost use Rattle.byte_strings.specs.Bytes.{i2osp};
ghost use Rattle.aes_block.specs.Field.{product, inverse};
ghost use Rattle.aes_block.specs.Cipher.{cipher};

/// Each byte but 0 times its inverse is 1.
#[tactic(auto, using(crate::proofs::ByteTables::inverses))]
pub fn inverse_is_an_inverse(a: u8)
    requires { a ≢ 0 }
    ensures { product a (inverse a) ≡ 1 }
{}

/// The standard's example vectors for both key sizes, by the definition.
#[tactic(auto, using(crate::proofs::Published::ciphers))]
pub fn cipher_is_that_published()
    ensures aes128 { cipher (i2osp 0x000102030405060708090a0b0c0d0e0f 16)
        (i2osp 0x00112233445566778899aabbccddeeff 16)
        ≡ i2osp 0x69c4e0d86a7b0430d8cdb78070b4c55a 16 }
    ensures aes256 { cipher
        (i2osp 0x000102030405060708090a0b0c0d0e0f101112131415161718191a1b1c1d1e1f 32)
        (i2osp 0x00112233445566778899aabbccddeeff 16)
        ≡ i2osp 0x8ea2b7ca516745bfeafc49904b496089 16 }
{}
