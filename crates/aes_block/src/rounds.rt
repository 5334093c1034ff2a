//! The rounds of Cipher (FIPS 197, 5.1) on eight states at once, by bits.
//!
//! Each register holds a bit of eight states' bytes, a byte in each lane, and the lanes go by the
//! state's rows. So ShiftRows moves the lanes of each register alike, within their rows; the byte below
//! one in its column stands four lanes on; a sum is one of registers, and x times each byte hands each
//! register's bits on to the next. MixColumns of a byte a and the three below it in its
//! column, b, c and d, is 2 a + 3 b + c + d = 2 (a + b) + b + (c + d): with the sum m of each byte and
//! the one below it, that is twice m, b, and m two rows down (`column_is` of `proofs/States.antt`).
//!
//! SubBytes leaves out its constant, and MixColumns of a column of constants is that column, so the
//! constant can wait: the key of each round has it (`constants_out`).

ghost use Rattle.std.specs.Prelude.{◌≡◌, ◌<◌, slice_index_or, [], ℕ, List, length, bit_xor};
ghost use Rattle.std.specs.Simd.Lanes.{zip2};
ghost use Rattle.aes_block.specs.Field.{xtime};
ghost use Rattle.aes_block.specs.Sliced.{IsState, IsKeyOf, constant, gathered, state_at, mixed_byte, moved, row_place, next_place, half_place};
ghost use Rattle.byte_strings.specs.Bytes.{xor_bytes};
ghost use Rattle.aes_block.specs.Cipher.{sub_bytes, shift_rows, mix_columns};

use crate::gates::{State, sub_bytes};
use std::simd::prelude::*;

// ShiftRows: each lane comes from the place that it brings there.
#[inline(always)]
fn rows(x: u8x16) -> u8x16
    requires { length x ≡ 16 }
    ensures { result ≡ moved row_place x }
{
    x.swizzle([0, 1, 2, 3, 5, 6, 7, 4, 10, 11, 8, 9, 15, 12, 13, 14])
}

// Each lane from one row below it, in its column.
#[inline(always)]
fn turned(x: u8x16) -> u8x16
    requires { length x ≡ 16 }
    ensures { result ≡ moved next_place x }
{
    x.swizzle([4, 5, 6, 7, 8, 9, 10, 11, 12, 13, 14, 15, 0, 1, 2, 3])
}

// Each lane from two rows below it.
#[inline(always)]
fn halved(x: u8x16) -> u8x16
    requires { length x ≡ 16 }
    ensures { result ≡ moved half_place x }
{
    x.swizzle([8, 9, 10, 11, 12, 13, 14, 15, 0, 1, 2, 3, 4, 5, 6, 7])
}

#[inline(always)]
fn rows_of(q: State) -> State
    requires { IsState q }
    ensures { (k : ℕ) → k < 8 → slice_index_or result k []
        ≡ moved row_place (slice_index_or q k []) }
{
    let [q0, q1, q2, q3, q4, q5, q6, q7] = q;
    [
        rows(q0),
        rows(q1),
        rows(q2),
        rows(q3),
        rows(q4),
        rows(q5),
        rows(q6),
        rows(q7),
    ]
}

#[inline(always)]
fn turned_of(q: State) -> State
    requires { IsState q }
    ensures { (k : ℕ) → k < 8 → slice_index_or result k []
        ≡ moved next_place (slice_index_or q k []) }
{
    let [q0, q1, q2, q3, q4, q5, q6, q7] = q;
    [
        turned(q0),
        turned(q1),
        turned(q2),
        turned(q3),
        turned(q4),
        turned(q5),
        turned(q6),
        turned(q7),
    ]
}

#[inline(always)]
fn halved_of(q: State) -> State
    requires { IsState q }
    ensures { (k : ℕ) → k < 8 → slice_index_or result k []
        ≡ moved half_place (slice_index_or q k []) }
{
    let [q0, q1, q2, q3, q4, q5, q6, q7] = q;
    [
        halved(q0),
        halved(q1),
        halved(q2),
        halved(q3),
        halved(q4),
        halved(q5),
        halved(q6),
        halved(q7),
    ]
}

#[inline(always)]
fn added(a: State, b: State) -> State
    ensures { (k : ℕ) → k < 8 → slice_index_or result k []
        ≡ zip2 bit_xor (slice_index_or a k []) (slice_index_or b k []) }
{
    let [a0, a1, a2, a3, a4, a5, a6, a7] = a;
    let [b0, b1, b2, b3, b4, b5, b6, b7] = b;
    [
        a0 ^ b0,
        a1 ^ b1,
        a2 ^ b2,
        a3 ^ b3,
        a4 ^ b4,
        a5 ^ b5,
        a6 ^ b6,
        a7 ^ b7,
    ]
}

// x times each byte.
#[inline(always)]
fn doubled(m: State) -> State
    requires { IsState m }
    ensures long { IsState result }
    ensures bytes { (p i : ℕ) → p < 16 → i < 8 → gathered result p i ≡ xtime (gathered m p i) }
{
    let [m0, m1, m2, m3, m4, m5, m6, m7] = m;
    [m7, m0 ^ m7, m1, m2 ^ m7, m3 ^ m7, m4, m5, m6]
}

// MixColumns of each state.
#[inline(always)]
fn mixed(r: State) -> State
    requires { IsState r }
    ensures long { IsState result }
    ensures bytes { (p i : ℕ) → p < 16 → i < 8 → gathered result p i
        ≡ mixed_byte (gathered r p i) (gathered r (next_place p) i)
        (gathered r (half_place p) i) (gathered r (next_place (half_place p)) i) }
{
    let n = turned_of(r);
    let m = added(r, n);
    added(added(doubled(m), n), halved_of(m))
}

// AddRoundKey, with the first round key by bits.
#[inline(always)]
pub(crate) fn add_key(q: State, key: State) -> State
    requires state { IsState q }
    requires key { IsState key }
    ensures long { IsState result }
    ensures states { (bytes : List ℕ) → IsKeyOf key 0 bytes → (i : ℕ) → i < 8
        → state_at result i ≡ xor_bytes (state_at q i) bytes }
{
    added(q, key)
}

// A round but the last.
#[inline(always)]
pub(crate) fn round(q: State, key: State) -> State
    requires state { IsState q }
    requires key { IsState key }
    ensures long { IsState result }
    ensures states { (bytes : List ℕ) → IsKeyOf key constant bytes → (i : ℕ) → i < 8 → state_at result i
        ≡ xor_bytes (mix_columns (shift_rows (sub_bytes (state_at q i)))) bytes }
{
    added(mixed(rows_of(sub_bytes(q))), key)
}

// The last round, which has no MixColumns.
#[inline(always)]
pub(crate) fn last_round(q: State, key: State) -> State
    requires state { IsState q }
    requires key { IsState key }
    ensures long { IsState result }
    ensures states { (bytes : List ℕ) → IsKeyOf key constant bytes → (i : ℕ) → i < 8 → state_at result i
        ≡ xor_bytes (shift_rows (sub_bytes (state_at q i))) bytes }
{
    added(rows_of(sub_bytes(q)), key)
}
