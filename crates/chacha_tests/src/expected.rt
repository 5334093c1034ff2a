//! What tests expect, and bytes that are written in hex. A comparison stands in a function of its own,
//! since each `assert_eq!` makes the proof of the function that it stands in seconds longer; so does
//! each `?`.

use hex::{FromHex, decode};
use std::alloc::Global;
use std::fmt::Debug;
use std::process::Abort;

/// Both are the same; a failure prints both, and what they are.
pub fn assert_same<T: Copy + Debug + PartialEq>(rt: &impl Abort, got: T, want: T, what: &str) {
    assert_eq!(rt; got, want, "{what}");
}

/// Both are the same; a failure prints both, what they are, and at what place or case.
pub fn assert_at<T: Copy + Debug + PartialEq, P: Copy + Debug>(
    rt: &impl Abort,
    got: T,
    want: T,
    what: &str,
    at: P,
) {
    assert_eq!(rt; got, want, "{what}: {at:?}");
}

/// The bytes that these hex digits write.
pub fn bytes_of(rt: &impl Abort, alloc: Global, digits: &str) -> Vec<u8> {
    decode(alloc, digits).expect(rt, "hex")
}

/// The same of so many bytes.
pub fn array_of<const N: usize>(rt: &impl Abort, digits: &str) -> [u8; N] {
    <[u8; N]>::from_hex(digits).expect(rt, "hex")
}

/// The bytes are those that `want` writes in hex; a failure prints where these were published.
pub fn assert_bytes(
    rt: &impl Abort,
    alloc: Global,
    bytes: &[u8],
    want: &str,
    source: &str,
    what: &str,
) {
    let want = bytes_of(rt, alloc, want);
    assert_at(rt, bytes, want.as_slice(), what, source);
}
