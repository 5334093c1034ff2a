//! Blocks and round keys by bits, and back.
//!
//! Eight blocks are eight registers of 16 bytes. The bytes of a block go by the columns of a square; in
//! a register they go by its rows, so that what moves along the columns is whole rows. A block is
//! transposed before, and after.
//!
//! Turned, lane p of register j holds bit j of the byte in lane p of each block: the eight bytes that
//! stand in a lane are a square of 8 by 8 bits, and turning transposes it. The plain form gathers 64
//! bits a lane. Here three steps do it for all lanes at once: for n = 1, 2 and 4 the registers whose
//! numbers differ in the bit n exchange the bits whose places differ in it. Bit i of register k so goes
//! to the place that has the bit n of the two numbers exchanged, and after all three to bit k of
//! register i (`turned_all` of `proofs/Turning.antt`).
//!
//! A round key is the same for all blocks, so each of its lanes has all bits set or none.

ghost use Rattle.std.specs.Prelude.{◌≡◌, ◌≤◌, ◌+◌, ◌*◌, ◌<◌, ◌==◌, ◌^◌, if◌then◌else◌, map, slice_index, slice_index_or, slice_set, take, ◌++◌, ◌/◌, [], ◌∷◌, ℕ, length, bit_and};
ghost use Rattle.std.specs.Simd.Lanes.{zip2};
ghost use Rattle.aes_block.specs.Sliced.{IsState, AreBytes, AreKeysOf, bit_of, state_at, constant_of, moved, lane_of, lower, upper, place};

use crate::gates::{CONSTANT, State};
use std::simd::prelude::*;

// The bits of `a` that `mask` has, and those of `b` that it has, moved `n` up between them.
#[inline(always)]
fn lower(a: u8x16, b: u8x16, n: u8, mask: u8) -> u8x16
    requires n { n < 8 }
    requires a { length a ≡ 16 }
    requires b { length b ≡ 16 }
    ensures { result ≡ zip2 (lower n mask) a b }
{
    let low = u8x16::splat(mask);
    (a & low) ^ ((b & low) << u8x16::splat(n))
}

// The bits of `a` that `mask` hasn't, moved `n` down, and those of `b` that it hasn't.
#[inline(always)]
fn upper(a: u8x16, b: u8x16, n: u8, mask: u8) -> u8x16
    requires n { n < 8 }
    requires a { length a ≡ 16 }
    requires b { length b ≡ 16 }
    ensures { result ≡ zip2 (upper n mask) a b }
{
    let low = u8x16::splat(mask);
    ((a >> u8x16::splat(n)) & low) ^ (b & (low ^ u8x16::splat(255)))
}

#[inline(always)]
fn exchanged_ones(q: State) -> State
    requires { IsState q }
    ensures long { IsState result }
    ensures small { AreBytes result }
    ensures bits { (p k i : ℕ) → p < 16 → k < 8 → i < 8
        → bit_of result k p i ≡ bit_of q (place 1 k i) p (place 1 i k) }
{
    let [q0, q1, q2, q3, q4, q5, q6, q7] = q;
    [
        lower(q0, q1, 1, 0x55),
        upper(q0, q1, 1, 0x55),
        lower(q2, q3, 1, 0x55),
        upper(q2, q3, 1, 0x55),
        lower(q4, q5, 1, 0x55),
        upper(q4, q5, 1, 0x55),
        lower(q6, q7, 1, 0x55),
        upper(q6, q7, 1, 0x55),
    ]
}

#[inline(always)]
fn exchanged_twos(q: State) -> State
    requires { IsState q }
    ensures long { IsState result }
    ensures small { AreBytes result }
    ensures bits { (p k i : ℕ) → p < 16 → k < 8 → i < 8
        → bit_of result k p i ≡ bit_of q (place 2 k i) p (place 2 i k) }
{
    let [q0, q1, q2, q3, q4, q5, q6, q7] = q;
    [
        lower(q0, q2, 2, 0x33),
        lower(q1, q3, 2, 0x33),
        upper(q0, q2, 2, 0x33),
        upper(q1, q3, 2, 0x33),
        lower(q4, q6, 2, 0x33),
        lower(q5, q7, 2, 0x33),
        upper(q4, q6, 2, 0x33),
        upper(q5, q7, 2, 0x33),
    ]
}

#[inline(always)]
fn exchanged_fours(q: State) -> State
    requires { IsState q }
    ensures long { IsState result }
    ensures small { AreBytes result }
    ensures bits { (p k i : ℕ) → p < 16 → k < 8 → i < 8
        → bit_of result k p i ≡ bit_of q (place 4 k i) p (place 4 i k) }
{
    let [q0, q1, q2, q3, q4, q5, q6, q7] = q;
    [
        lower(q0, q4, 4, 0x0f),
        lower(q1, q5, 4, 0x0f),
        lower(q2, q6, 4, 0x0f),
        lower(q3, q7, 4, 0x0f),
        upper(q0, q4, 4, 0x0f),
        upper(q1, q5, 4, 0x0f),
        upper(q2, q6, 4, 0x0f),
        upper(q3, q7, 4, 0x0f),
    ]
}

// Eight blocks by bits, and back.
#[inline(always)]
fn turn(q: State) -> State
    requires { IsState q }
    ensures long { IsState result }
    ensures small { AreBytes result }
    ensures bits { (p k i : ℕ) → p < 16 → k < 8 → i < 8 → bit_of result k p i ≡ bit_of q i p k }
{
    exchanged_fours(exchanged_twos(exchanged_ones(q)))
}

// The bytes of a block by rows, or back by columns.
#[inline(always)]
fn transposed(x: u8x16) -> u8x16
    requires { length x ≡ 16 }
    ensures { result ≡ moved lane_of x }
{
    x.swizzle([0, 4, 8, 12, 1, 5, 9, 13, 2, 6, 10, 14, 3, 7, 11, 15])
}

// The bytes of a block by rows. They are below 256.
#[inline(always)]
fn lanes(block: &[u8; 16]) -> u8x16
    ensures long { length result ≡ 16 }
    ensures small { (p : ℕ) → p < 16 → slice_index result p < 256 }
    ensures same { moved lane_of result ≡ block.now }
{
    known(transposed(u8x16::from_array(*block)))
}

// A vector's lanes are bytes.
#[inline(always)]
fn known(x: u8x16) -> u8x16
    ensures long { length result ≡ 16 }
    ensures small { (p : ℕ) → p < 16 → slice_index result p < 256 }
    ensures same { result ≡ x }
{
    x
}

#[inline(always)]
fn load(blocks: &[[u8; 16]; 8]) -> State
    ensures long { IsState result }
    ensures small { AreBytes result }
    ensures same { (i : ℕ) → i < 8
        → moved lane_of (slice_index_or result i []) ≡ slice_index_or blocks.now i [] }
{
    [
        lanes(&blocks[0]),
        lanes(&blocks[1]),
        lanes(&blocks[2]),
        lanes(&blocks[3]),
        lanes(&blocks[4]),
        lanes(&blocks[5]),
        lanes(&blocks[6]),
        lanes(&blocks[7]),
    ]
}

// Eight blocks by bits.
#[inline(always)]
pub(crate) fn sliced(blocks: &[[u8; 16]; 8]) -> State
    ensures long { IsState result }
    ensures states { (i : ℕ) → i < 8 → state_at result i ≡ slice_index_or blocks.now i [] }
{
    turn(load(blocks))
}

// The eight states.
#[inline(always)]
pub(crate) fn unsliced(q: State) -> [[u8; 16]; 8]
    requires { IsState q }
    ensures { (i : ℕ) → i < 8 → slice_index_or result i [] ≡ state_at q i }
{
    let [q0, q1, q2, q3, q4, q5, q6, q7] = turn(q);
    [
        transposed(q0).to_array(),
        transposed(q1).to_array(),
        transposed(q2).to_array(),
        transposed(q3).to_array(),
        transposed(q4).to_array(),
        transposed(q5).to_array(),
        transposed(q6).to_array(),
        transposed(q7).to_array(),
    ]
}

// The lanes with all bits set where a byte of `x` has bit `k`, and 0 elsewhere.
#[inline(always)]
fn spread(x: u8x16, k: usize) -> u8x16
    requires lanes { length x ≡ 16 }
    requires bit { k < 8 }
    ensures { result ≡ map (λ b. if bit_and b (2 ^ k) == 2 ^ k then 255 else 0) x }
{
    let bit = u8x16::splat(1 << k);
    (x & bit)
        .simd_eq(bit)
        .select(u8x16::splat(255), u8x16::splat(0))
}

// A register with another last lane.
#[inline(always)]
fn ended(x: u8x16, end: u8) -> u8x16
    requires { length x ≡ 16 }
    ensures { result ≡ slice_set x 15 end }
{
    let mut lanes = x.to_array();
    lanes[15] = end;
    u8x16::from_array(lanes)
}

// Eight blocks by bits: this one, but that the last three bits of its last byte count from 0 to 7.
// Each of these bits alternates from block to block, and all other bits are the same in all.
#[inline(always)]
pub(crate) fn counted(block: &[u8; 16]) -> State
    ensures long { IsState result }
    ensures states { (i : ℕ) → i < 8 → state_at result i
        ≡ take 15 block.now ++ (slice_index block.now 15 / 8 * 8 + i) ∷ [] }
{
    let x = lanes(block);
    [
        ended(spread(x, 0), 0xaa),
        ended(spread(x, 1), 0xcc),
        ended(spread(x, 2), 0xf0),
        spread(x, 3),
        spread(x, 4),
        spread(x, 5),
        spread(x, 6),
        spread(x, 7),
    ]
}

/// The registers of the round keys, eight a key. What stands behind the last key is 0.
pub(crate) type SlicedKeys = [[u8; 16]; 120];

// What register `n` of the round keys has of the S-box's constant: all but those of the first key have
// it, since they are added to what `sub_bytes` gives.
fn constant_of(n: usize) -> u8
    ensures { result ≡ constant_of n }
{
    if n < 8 { 0 } else { CONSTANT }
}

// The round keys of an expanded key by bits, up to the last of `rounds` rounds.
pub(crate) fn sliced_keys(w: &[u8], rounds: usize) -> SlicedKeys
    requires few { rounds ≤ 14 }
    requires within { 16 * rounds + 16 ≤ length w.now }
    ensures { AreKeysOf result w.now rounds }
{
    let mut keys = [[0u8; 16]; 120];
    for n in 0..8 * (rounds + 1) {
        let lanes = transposed(u8x16::from_slice(&w[16 * (n / 8)..]));
        let key = known(lanes ^ u8x16::splat(constant_of(n)));
        keys[n] = spread(key, n % 8).to_array();
    }
    keys
}

// Round key `j`.
#[inline(always)]
pub(crate) fn key_at(keys: &SlicedKeys, j: usize) -> State
    requires { j < 15 }
    ensures { (k : ℕ) → k < 8
        → slice_index_or result k [] ≡ slice_index_or keys.now (8 * j + k) [] }
{
    [
        u8x16::from_array(keys[8 * j]),
        u8x16::from_array(keys[8 * j + 1]),
        u8x16::from_array(keys[8 * j + 2]),
        u8x16::from_array(keys[8 * j + 3]),
        u8x16::from_array(keys[8 * j + 4]),
        u8x16::from_array(keys[8 * j + 5]),
        u8x16::from_array(keys[8 * j + 6]),
        u8x16::from_array(keys[8 * j + 7]),
    ]
}
