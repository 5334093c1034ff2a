//! Texts of replies, which stand in the batch where they can.
//!
//! A reply may give a text of a megabyte to each of many lines, and mostly it is one that a line of
//! the batch has: so it is held there.

ghost use Rattle.std.specs.Prelude.{◌≡◌, true, length};

use byte_strings::ByteList;
use std::alloc::Global;
use std::borrow::CowSlice;
use std::marker::Model;

/// The text of a reply: bytes of the batch, or bytes of its own. A contract sees the bytes.
#[derive(Drop)]
pub struct KnownText<'a> {
    bytes: CowSlice<'a, u8, Global>,
}

impl<'a> Model for KnownText<'a> {
    ghost use Rattle.std.specs.Prelude.{ℕ, List};
    ghost use Rattle.std.specs.Cow.{cow_slice_items};

    ghost Value = { List ℕ };

    ghost view = { λ t. cow_slice_items t.bytes };
}

// Whether two texts are the same. Each byte is compared, and no byte decides how the comparison goes
// on.
fn are_same(first: &[u8], second: &[u8]) -> bool
    ensures { result ≡ true → first.now ≡ second.now }
{
    if first.len() != second.len() {
        return false;
    }
    let mut found = 0u8;
    'bytes: for i in 0..first.len() {
        found |= first[i] ^ second[i];
    }
    found == 0
}

impl<'a> KnownText<'a> {
    /// Bytes of its own.
    pub fn own(bytes: ByteList) -> KnownText<'a>
        ensures { result ≡ bytes }
    {
        KnownText {
            bytes: CowSlice::Owned(bytes.into_vec()),
        }
    }

    /// These bytes: held in `known` where they are the same, and else kept.
    pub fn held_in(known: &'a [u8], bytes: ByteList) -> KnownText<'a>
        ensures { result ≡ bytes }
    {
        if are_same(known, bytes.as_slice()) {
            return KnownText {
                bytes: CowSlice::Borrowed(known),
            };
        }
        KnownText::own(bytes)
    }

    /// The bytes.
    pub fn as_slice(&self) -> &[u8]
        ensures items { result.now ≡ self.now }
    {
        self.bytes.as_slice()
    }
}
