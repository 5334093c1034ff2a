//! Blocks of 16 bytes as elements of the field, and as vectors.

ghost use Rattle.std.specs.Prelude.{◌≡◌, ◌≤◌, ◌++◌, ◌-◌, length, replicate, take};
ghost use Rattle.ghash_core.specs.Hash.{block_of, block_bytes};
ghost use Rattle.ghash_core.specs.Rows.{element};

use std::simd::prelude::*;

// At most 16 bytes, with zero bytes up to 16.
fn padded(bytes: &[u8]) -> [u8; 16]
    requires { length bytes.now ≤ 16 }
    ensures { result ≡ bytes.now ++ replicate (16 - length bytes.now) 0 }
{
    let mut block = [0u8; 16];
    block[..bytes.len()].copy_from_slice(bytes);
    block
}

#[tactic(auto, unfolding(crate::specs::Hash::block_of))]
pub(crate) fn from_block(bytes: [u8; 16]) -> u128
    ensures { result ≡ block_of bytes }
{
    u128::from_be_bytes(bytes)
}

#[tactic(auto, unfolding(crate::specs::Hash::block_bytes))]
pub(crate) fn to_block(block: u128) -> [u8; 16]
    ensures { result ≡ block_bytes block }
{
    block.to_be_bytes()
}

// The block that at most 16 bytes begin, with zeros after them.
#[inline(always)]
pub(crate) fn padded_lanes(bytes: &[u8]) -> u8x16
    requires { length bytes.now ≤ 16 }
    ensures { element result ≡ block_of bytes.now }
{
    u8x16::from_array(padded(bytes))
}

// The block of the first 16 bytes.
#[inline(always)]
pub(crate) fn first_lanes(bytes: &[u8]) -> u8x16
    requires { 16 ≤ length bytes.now }
    ensures { element result ≡ block_of (take 16 bytes.now) }
{
    u8x16::from_slice(bytes)
}

#[inline(always)]
pub(crate) fn to_lanes(block: u128) -> u8x16
    ensures { element result ≡ block }
{
    u8x16::from_array(to_block(block))
}

#[inline(always)]
pub(crate) fn from_lanes(lanes: u8x16) -> u128
    ensures { result ≡ element lanes }
{
    from_block(lanes.to_array())
}

// The bytes of the block in a vector. They stand there as they are.
#[inline(always)]
pub(crate) fn lane_bytes(lanes: u8x16) -> [u8; 16]
    ensures { result ≡ block_bytes (element lanes) }
{
    lanes.to_array()
}
