//! Sums of a text and pieces of the key stream, in the text's place.

ghost use Rattle.std.specs.Prelude.{◌≡◌, ◌≤◌, ◌+◌, ◌++◌, length, take, drop};
ghost use Rattle.byte_strings.specs.Bytes.{xor_bytes};

use crate::lanes::Piece;
use std::simd::prelude::*;

// Adds a piece of the key stream to the 16 bytes of a text from `at` on.
#[inline(always)]
pub(crate) fn add_piece_at(text: &mut [u8], at: usize, stream: &Piece)
    requires { at + 16 ≤ length text.old }
    ensures sum { take (at + 16) text.new
        ≡ take at text.old ++ xor_bytes (take 16 (drop at text.old)) stream.now }
    ensures rest { drop (at + 16) text.new ≡ drop (at + 16) text.old }
{
    let sum = u8x16::from_slice(&text[at..]) ^ u8x16::from_array(*stream);
    sum.copy_to_slice(&mut text[at..]);
}

// Adds a piece of the key stream to the rest of a text, from `at` on.
pub(crate) fn add_rest(text: &mut [u8], at: usize, stream: &Piece)
    requires within { at ≤ length text.old }
    requires short { length text.old ≤ at + 16 }
    ensures { text.new ≡ take at text.old ++ xor_bytes (drop at text.old) stream.now }
{
    for i in 0..text.len() - at {
        text[at + i] ^= stream[i];
    }
}
