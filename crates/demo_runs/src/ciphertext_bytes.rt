//! What the type of ciphertexts says.

ghost use Rattle.std.specs.Prelude.{◌≡◌, length};
ghost use Rattle.hex.specs.Hex.{IsBytes};
ghost use Rattle.demo_runs.specs.Ciphertexts.{AreCiphertexts};

/// The bytes of a ciphertext: 64 bytes of text and a tag of 16.
pub const CIPHERTEXT_SIZE: usize = 80;

/// Each of them is below 256: what their type says, as a fact for callers.
pub fn see_bytes(bytes: &[u8])
    ensures { IsBytes bytes.now }
{
    'bytes: for byte in bytes {
        let _byte = *byte;
    }
}

/// Each of them is so many bytes.
pub(crate) fn see_ciphertexts(cts: &[[u8; CIPHERTEXT_SIZE]])
    ensures { AreCiphertexts cts.now }
{
    'ciphertexts: for ct in cts {
        see_bytes(ct);
    }
}
