//! Secret scalars.

ghost use Rattle.std.specs.Prelude.{◌≡◌, ◌<◌, length};
ghost use Rattle.std.specs.Int.{bit_at};
ghost use Rattle.field25519.specs.Coding.{decode_little_endian};
ghost use Rattle.x25519.specs.Scalars.{clamped};

/// The bytes of a scalar with the five bits that decodeScalar25519 (RFC 7748, 5) fixes.
///
/// [`x25519`](crate::x25519) does this to each scalar that it is given.
pub fn clamped(k: &[u8; 32]) -> [u8; 32]
    ensures { result ≡ clamped k.now }
{
    let mut scalar = *k;
    scalar[0] &= 248;
    scalar[31] = scalar[31] & 127 | 64;
    scalar
}

// Bit t of the number of these bytes.
#[inline(always)]
pub(crate) fn bit(bytes: &[u8; 32], t: usize) -> u64
    requires { t < 256 }
    ensures value { result ≡ bit_at (decode_little_endian bytes.now) t }
    ensures small { result < 2 }
{
    (bytes[t / 8] >> (t % 8) & 1) as u64
}
