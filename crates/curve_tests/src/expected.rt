//! What tests expect, and keys that are written in hex. A comparison stands in a function of its own,
//! since each `assert_eq!` makes the proof of the function that it stands in seconds longer.

use hex::FromHex;
use std::fmt::Debug;
use std::process::Abort;

/// Both are the same; a failure prints both, and what they are.
pub fn assert_same<T: Copy + Debug + PartialEq>(rt: &impl Abort, got: T, want: T, what: &str) {
    assert_eq!(rt; got, want, "{what}");
}

/// The 32 bytes that these hex digits write.
pub fn key_of(rt: &impl Abort, digits: &str) -> [u8; 32] {
    <[u8; 32]>::from_hex(digits).expect(rt, "hex")
}

/// The bytes are those that `want` writes in hex; a failure prints where these were published.
pub fn assert_key(rt: &impl Abort, got: &[u8; 32], want: &str, source: &str) {
    assert_same(rt, *got, key_of(rt, want), source);
}
