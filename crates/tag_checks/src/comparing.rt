//! The comparison of tags.

ghost use Rattle.std.specs.Prelude.{◌≡◌, ◌≤◌, ◌-◌, ◌↔◌, length, drop, IsTrue};

use std::simd::prelude::*;

/// Whether a byte string ends in these 16 bytes. All of them are compared at once.
pub fn ends_in(bytes: &[u8], tag: &[u8; 16]) -> bool
    requires { 16 ≤ length bytes.now }
    ensures { IsTrue result ↔ (drop (length bytes.now - 16) bytes.now ≡ tag.now) }
{
    let end = u8x16::from_slice(&bytes[bytes.len() - 16..]);
    !end.simd_ne(u8x16::from_array(*tag)).any()
}
