//! The key, and the encryption.

ghost use Rattle.std.specs.Prelude.{◌≡◌, ◌≤◌, ◌<◌, ◌+◌, ◌-◌, ◌*◌, ◌/◌, ◌%◌, ◌^◌, ◌++◌, ℕ, List, [], length, take, drop, slice_index_or};
ghost use Rattle.chacha20.specs.ChaCha20.{block, encrypt};
ghost use Rattle.chacha20.specs.Lanes.{piece_at, encrypt_from, IsGroup};

use crate::adding::{add_piece_at, add_rest};
use crate::lanes::{Piece, Pieces, blocks_from, first_blocks};
use std::marker::Model;
use std::simd::prelude::*;

/// A key of ChaCha20. A contract sees its 32 bytes.
#[derive(Drop)]
pub struct ChaChaKey {
    key: [u8; 32],
}

impl Model for ChaChaKey {
    ghost use Rattle.std.specs.Prelude.{ℕ, List};

    ghost Value = { List ℕ };

    ghost view = { λ k. k.key };
}

// Two pieces.
#[inline(always)]
fn joined(a: &Piece, b: &Piece) -> [u8; 32]
    ensures { result ≡ a.now ++ b.now }
{
    let mut both = [0u8; 32];
    both[..16].copy_from_slice(a);
    both[16..].copy_from_slice(b);
    both
}

impl ChaChaKey {
    /// The key of these bytes.
    pub fn new(key: &[u8; 32]) -> ChaChaKey
        ensures { result ≡ key.now }
    {
        ChaChaKey { key: *key }
    }

    // Makes the pieces among which piece `i` is. Not inlined: what it needs room for is then not cleared
    // for each piece.
    #[inline(never)]
    fn fill(&self, nonce: &[u8; 12], i: u64, group: &mut Pieces)
        requires { i < 2 ^ 34 }
        ensures { IsGroup self.now nonce.now i group.new }
    {
        *group = blocks_from(&self.key, nonce, (i / 16 * 4) as u32);
    }

    // Piece `i`. `group` is the group of the one before, and then that of `i`.
    #[inline(always)]
    fn next_piece(&self, nonce: &[u8; 12], i: u64, group: &mut Pieces) -> Piece
        requires fits { i < 2 ^ 34 }
        requires before { IsGroup self.now nonce.now (i - 1) group.old }
        ensures group { IsGroup self.now nonce.now i group.new }
        ensures piece { result ≡ piece_at self.now nonce.now i }
    {
        if i % 16 == 0 {
            self.fill(nonce, i, group);
        }
        group[(i % 16) as usize]
    }

    // Adds the key stream from piece `i` on to the whole pieces of a text, and tells how many they are.
    // `group` is that of the piece before, and then that of the last piece.
    fn add_pieces(&self, nonce: &[u8; 12], i: u64, text: &mut [u8], group: &mut Pieces) -> usize
        requires fits { 16 * i + length text.old ≤ 2 ^ 38 }
        requires first { IsGroup self.now nonce.now (i - 1) group.old }
        ensures count { result ≡ length text.old / 16 }
        ensures last { IsGroup self.now nonce.now (i + result - 1) group.new }
        ensures sum { take (16 * result) text.new
            ++ encrypt_from self.now nonce.now (i + result) (drop (16 * result) text.new)
            ≡ encrypt_from self.now nonce.now i text.old }
    {
        let pieces = text.len() / 16;
        for k in 0..pieces {
            let stream = self.next_piece(nonce, i + k as u64, group);
            add_piece_at(text, 16 * k, &stream);
        }
        pieces
    }

    // Adds the key stream from piece `i` on.
    fn add_stream(&self, nonce: &[u8; 12], i: u64, text: &mut [u8], group: &mut Pieces)
        requires fits { 16 * i + length text.old ≤ 2 ^ 38 }
        requires first { IsGroup self.now nonce.now (i - 1) group.old }
        ensures { text.new ≡ encrypt_from self.now nonce.now i text.old }
    {
        let pieces = self.add_pieces(nonce, i, text, group);
        if 16 * pieces < text.len() {
            let stream = self.next_piece(nonce, i + pieces as u64, group);
            add_rest(text, 16 * pieces, &stream);
        }
    }

    /// The encryption of a text in its place, from a block counter on, and the decryption (RFC 8439,
    /// 2.4).
    ///
    /// The block counters must stay below 2^32.
    pub fn encrypt(&self, counter: u32, nonce: &[u8; 12], text: &mut [u8])
        requires { 64 * counter + length text.old ≤ 2 ^ 38 }
        ensures { text.new ≡ encrypt self.now counter nonce.now text.old }
    {
        let i = 4 * u64::from(counter);
        let mut group = [[0u8; 16]; 16];
        self.fill(nonce, i.saturating_sub(1), &mut group);
        self.add_stream(nonce, i, text, &mut group);
    }

    /// The encryption of a text in its place from block counter 1 on, and the first 32 bytes of
    /// block 0, as the AEAD takes them (RFC 8439, 2.6 and 2.8).
    pub fn encrypt_behind_key(&self, nonce: &[u8; 12], text: &mut [u8]) -> [u8; 32]
        requires { length text.old ≤ 2 ^ 38 - 64 }
        ensures text { text.new ≡ encrypt self.now 1 nonce.now text.old }
        ensures key { result ≡ take 32 (block self.now 0 nonce.now) }
    {
        let mut group = [[0u8; 16]; 16];
        self.fill(nonce, 3, &mut group);
        let key = joined(&group[0], &group[1]);
        self.add_stream(nonce, 4, text, &mut group);
        key
    }

    /// The first 32 bytes of block 0, at each of four nonces.
    pub fn first_bytes(&self, nonces: &[[u8; 12]; 4]) -> [[u8; 32]; 4]
        ensures { (k : ℕ) → k < 4 → slice_index_or result k []
            ≡ take 32 (block self.now 0 (slice_index_or nonces.now k [])) }
    {
        let p = first_blocks(&self.key, nonces);
        [
            joined(&p[0], &p[1]),
            joined(&p[4], &p[5]),
            joined(&p[8], &p[9]),
            joined(&p[12], &p[13]),
        ]
    }
}
