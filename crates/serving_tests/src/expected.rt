//! What tests expect, and bytes that are written in hex. A comparison stands in a function of its own,
//! since each `assert_eq!` makes the proof of the function that it stands in seconds longer; so does
//! each `?`.

use hex::FromHex;
use std::fmt::Debug;
use std::process::Abort;

/// The bytes that these hex digits write.
pub fn array_of<const N: usize>(rt: &impl Abort, digits: &str) -> [u8; N] {
    <[u8; N]>::from_hex(digits).expect(rt, "hex")
}

/// Both are the same; a failure prints both, and what they are.
pub fn assert_same<T: Copy + Debug + PartialEq>(rt: &impl Abort, got: T, want: T, what: &str) {
    assert_eq!(rt; got, want, "{what}");
}

/// Both are the same; a failure prints both, what they are, and at what place or case.
pub fn assert_at<T: Copy + Debug + PartialEq, P: Copy + Debug>(
    rt: &impl Abort,
    got: T,
    want: T,
    what: &str,
    at: P,
) {
    assert_eq!(rt; got, want, "{what}: {at:?}");
}
