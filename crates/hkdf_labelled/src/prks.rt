//! Hash values of each of the hash functions, as keys.

ghost use Rattle.std.specs.Prelude.{◌≡◌, ◌≤◌, length};

use std::marker::Model;

/// A pseudorandom key (RFC 5869, 2.2): a hash value, of Nh bytes where a KDF gave it. Contracts see
/// its bytes.
#[derive(Drop)]
pub struct Prk {
    bytes: [u8; 64],
    len: usize,
}

impl Model for Prk {
    ghost use Rattle.std.specs.Prelude.{ℕ, List, ◌≤◌, take};

    ghost Value = { List ℕ };

    ghost view = { λ p. take p.len p.bytes };

    ghost invariant = { λ p. p.len ≤ 64 };
}

impl Prk {
    /// A key of these bytes. The largest hash value has 64.
    pub fn from_slice(value: &[u8]) -> Prk
        requires { length value.now ≤ 64 }
        ensures { result ≡ value.now }
    {
        let mut bytes = [0u8; 64];
        let len = value.len();
        bytes[..len].copy_from_slice(value);
        Prk { bytes, len }
    }

    /// The key's bytes.
    pub fn as_slice(&self) -> &[u8]
        ensures { result.now ≡ self.now }
    {
        &self.bytes[..self.len]
    }
}
