//! The hash key, and a hash that is being taken (SP 800-38D, 6.4).

ghost use Rattle.std.specs.Prelude.{◌≡◌, ◌+◌, ◌<◌, ◌^◌, ◌*◌, ◌++◌, ℕ, List, [], ◌∷◌, length, bit_xor};
ghost use Rattle.ghash_core.specs.Field.{product, IsProducts};
ghost use Rattle.ghash_core.specs.Rows.{element};
ghost use Rattle.ghash_core.specs.Hash.{block_of, block_bytes, padded_blocks, length_block, sum_after, ghash, Took};

use crate::blocks::{first_lanes, from_block, lane_bytes, padded_lanes, to_lanes};
use crate::powers::{Powers, powers_of, sum_of_products};
use crate::products::product_by;
use crate::rows::products_of;
use std::marker::Model;
use std::simd::prelude::*;

/// The hash subkey H (SP 800-38D, 6.4), ready for hashing. A contract sees its block.
///
/// It is 2 KiB of tables and the sixteen [`products`](GhashKey::products), made once a key.
#[derive(Drop)]
pub struct GhashKey {
    h: u128,
    products: [u128; 16],
    powers: Powers,
}

impl Model for GhashKey {
    ghost use Rattle.std.specs.Prelude.{ℕ, ◌<◌, ◌^◌};
    ghost use Rattle.ghash_core.specs.Field.{IsProducts};
    ghost use Rattle.ghash_core.specs.Rows.{ArePowers};

    ghost Value = { ℕ };

    ghost view = { λ k. k.h };

    ghost invariant = { λ k. (k.h < 2 ^ 128) × IsProducts k.products k.h
        × ArePowers k.powers k.h };
}

impl GhashKey {
    /// The hash subkey of these 16 bytes. GCM takes the cipher of the zero block.
    pub fn new(h: &[u8; 16]) -> GhashKey
        ensures { result ≡ block_of h.now }
    {
        let h = from_block(*h);
        GhashKey {
            h,
            products: products_of(h),
            powers: powers_of(h),
        }
    }

    /// The products of H with the polynomials of degree below 4: entry `i` is the product with the
    /// block `i * 2^124`, whose first four bits are those of `i`.
    pub fn products(&self) -> &[u128; 16]
        ensures { IsProducts result.now self.now }
    {
        &self.products
    }

    // One step of the standard: from Y_(j - 1) and X_j, Y_j.
    fn next(&self, sum: u8x16, x: u8x16) -> u8x16
        ensures { element result ≡ product (bit_xor (element sum) (element x)) self.now }
    {
        product_by(&self.powers.first, sum ^ x)
    }

    // Four steps.
    fn next_four(&self, sum: u8x16, a: u8x16, b: u8x16, c: u8x16, d: u8x16) -> u8x16
        ensures { element result ≡ sum_after self.now (element sum)
            (element a ∷ element b ∷ element c ∷ element d ∷ []) }
    {
        sum_of_products(&self.powers, sum ^ a, b, c, d)
    }
}

// From the hash of some blocks, the hash of these and of the one block that fewer than 16 bytes are
// padded to. No byte gives no block.
fn hash_rest(key: &GhashKey, sum: u8x16, bytes: &[u8]) -> u8x16
    requires { length bytes.now < 16 }
    ensures { element result ≡ sum_after key.now (element sum) (padded_blocks bytes.now) }
{
    if bytes.is_empty() {
        sum
    } else {
        key.next(sum, padded_lanes(bytes))
    }
}

// From the hash of some blocks, the hash of these and of those that the bytes are padded to, one
// block at a time.
fn hash_ones(key: &GhashKey, sum: u8x16, bytes: &[u8]) -> u8x16
    ensures { element result ≡ sum_after key.now (element sum) (padded_blocks bytes.now) }
{
    let mut sum = sum;
    let mut rest = bytes;
    while rest.len() >= 16 {
        sum = key.next(sum, first_lanes(rest));
        rest = &rest[16..];
    }
    hash_rest(key, sum, rest)
}

// The same, four blocks at a time while there are as many.
fn hash_blocks(key: &GhashKey, sum: u8x16, bytes: &[u8]) -> u8x16
    ensures { element result ≡ sum_after key.now (element sum) (padded_blocks bytes.now) }
{
    let mut sum = sum;
    let mut rest = bytes;
    while rest.len() >= 64 {
        let a = first_lanes(rest);
        let b = first_lanes(&rest[16..]);
        let c = first_lanes(&rest[32..]);
        let d = first_lanes(&rest[48..]);
        sum = key.next_four(sum, a, b, c, d);
        rest = &rest[64..];
    }
    hash_ones(key, sum, rest)
}

/// GHASH of the blocks that were taken so far (SP 800-38D, 6.4).
///
/// A contract sees H and the sum, and says by `Took g xs` that the blocks `xs` were taken. GCM
/// takes the additional data, then the ciphertext, and finishes with their lengths.
#[derive(Drop)]
pub struct Ghash<'a> {
    key: &'a GhashKey,
    sum: [u8; 16],
}

impl<'a> Model for Ghash<'a> {
    ghost use Rattle.ghash_core.specs.Hash.{Hashing};
    ghost use Rattle.ghash_core.specs.Rows.{element};

    ghost Value = { Hashing };

    ghost view = { λ g. record { h = g.key.now; sum = element g.sum } };
}

impl<'a> Ghash<'a> {
    /// The hash of no block.
    pub fn start(key: &'a GhashKey) -> Ghash<'a>
        ensures key { result.h ≡ key.now }
        ensures none { Took result [] }
    {
        // Reading the key tells the proof its invariant, by which H is below 2^128.
        let _ = &key.h;
        Ghash { key, sum: [0; 16] }
    }

    /// Takes the bytes, with zero bytes after them up to a whole number of 16-byte blocks. No byte
    /// gives no block.
    pub fn update_padded(&mut self, bytes: &[u8])
        ensures key { self.new.h ≡ self.old.h }
        ensures more { (xs : List ℕ) → Took self.old xs
            → Took self.new (xs ++ padded_blocks bytes.now) }
    {
        let key = self.key;
        self.sum = hash_blocks(key, u8x16::from_array(self.sum), bytes).to_array();
    }

    /// Takes the block of both lengths and gives the hash. `aad_len` and `text_len` are in bytes;
    /// the block has them in bits, 64 each, so both must be below 2^61. Whether they are the lengths
    /// of what was taken isn't checked.
    pub fn finish(self, aad_len: u64, text_len: u64) -> [u8; 16]
        requires aad { aad_len < 2 ^ 61 }
        requires text { text_len < 2 ^ 61 }
        ensures { (xs : List ℕ) → Took self.entry xs
            → result ≡ block_bytes (ghash self.entry.h
            (xs ++ length_block (8 * aad_len) (8 * text_len) ∷ [])) }
    {
        let lengths = ((8 * aad_len) as u128) << 64 | (8 * text_len) as u128;
        let sum = u8x16::from_array(self.sum);
        lane_bytes(self.key.next(sum, to_lanes(lengths)))
    }
}
