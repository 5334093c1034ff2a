//! Keys of AES (FIPS 197).

ghost use Rattle.std.specs.Prelude.{◌≡◌, ◌≤◌, ◌<◌, ◌+◌, ◌*◌, ◌/◌, ◌⊎◌, ◌++◌, ◌∷◌, ℕ, [], length, take, slice_index, slice_index_or};
ghost use Rattle.aes_block.specs.Sliced.{IsState, state_at};
ghost use Rattle.aes_block.specs.Cipher.{expanded_key, round_key, round_count, cipher};

use crate::gates::State;
use crate::key_expansion::expanded;
use crate::rounds::{add_key, last_round, round};
use crate::slices::{SlicedKeys, counted, key_at, sliced, sliced_keys, unsliced};
use arrayvec::ArrayVec;
use std::marker::Model;

/// A key of AES-128 or AES-256 and its round keys, as bytes and by bits. A contract sees the key's
/// bytes.
#[derive(Drop)]
pub struct AesKey {
    expanded: ArrayVec<u8, 240>,
    sliced: SlicedKeys,
    rounds: usize,
}

// The key stands at the front of its expansion; it has four bytes for each round above six.
impl Model for AesKey {
    ghost use Rattle.std.specs.Prelude.{◌≡◌, ◌+◌, ◌-◌, ◌*◌, ◌⊎◌, ℕ, List, take};
    ghost use Rattle.arrayvec.specs.ArrayVec.{array_vec_len};
    ghost use Rattle.aes_block.specs.Cipher.{expanded_key, round_count};
    ghost use Rattle.aes_block.specs.Sliced.{AreKeysOf};

    ghost Value = { List ℕ };

    ghost view = { λ k. take (4 * (k.rounds - 6)) k.expanded.items };

    ghost invariant = { λ k. ((k.rounds ≡ 10) ⊎ (k.rounds ≡ 14))
        × (array_vec_len k.expanded ≡ 16 * (k.rounds + 1))
        × (k.expanded.items ≡ expanded_key (take (4 * (k.rounds - 6)) k.expanded.items))
        × (k.rounds ≡ round_count (take (4 * (k.rounds - 6)) k.expanded.items))
        × AreKeysOf k.sliced k.expanded.items k.rounds };
}

impl AesKey {
    // The key of `nk` words.
    fn of_words(key: &[u8], nk: usize) -> AesKey
        requires words { length key.now ≡ 4 * nk }
        requires size { (nk ≡ 4) ⊎ (nk ≡ 8) }
        ensures { result ≡ key.now }
    {
        let expanded = expanded(key, nk);
        let sliced = sliced_keys(expanded.as_slice(), nk + 6);
        AesKey {
            expanded,
            sliced,
            rounds: nk + 6,
        }
    }

    /// A key of AES-128, with its 11 round keys.
    pub fn new128(key: &[u8; 16]) -> AesKey
        ensures { result ≡ key.now }
    {
        AesKey::of_words(key, 4)
    }

    /// A key of AES-256, with its 15 round keys.
    pub fn new256(key: &[u8; 32]) -> AesKey
        ensures { result ≡ key.now }
    {
        AesKey::of_words(key, 8)
    }

    /// Round key `i` of KeyExpansion (FIPS 197, 5.2), from 0 to Nr: 10 for AES-128, 14 for AES-256.
    pub fn round_key(&self, i: usize) -> &[u8; 16]
        requires { i ≤ round_count self.now }
        ensures { result.now ≡ round_key (expanded_key self.now) i }
    {
        let (keys, _) = self.expanded.as_slice().as_chunks::<16>();
        &keys[i]
    }

    // Cipher (FIPS 197, 5.1) of eight states. A call of its own: the rounds need all registers.
    #[inline(never)]
    fn encrypt_states(&self, start: State) -> [[u8; 16]; 8]
        requires { IsState start }
        ensures { (i : ℕ) → i < 8 → slice_index_or result i [] ≡ cipher self.now (state_at start i) }
    {
        let mut state = add_key(start, key_at(&self.sliced, 0));
        'rounds: for i in 1..self.rounds {
            let next = round(state, key_at(&self.sliced, i));
            state = next;
        }
        unsliced(last_round(state, key_at(&self.sliced, self.rounds)))
    }

    /// Cipher (FIPS 197, 5.1): the encryption of each of eight blocks. Its inverse isn't here: the
    /// modes that this crate serves encrypt counters alone.
    pub fn encrypt_eight(&self, blocks: &[[u8; 16]; 8]) -> [[u8; 16]; 8]
        ensures { (i : ℕ) → i < 8
            → slice_index_or result i [] ≡ cipher self.now (slice_index_or blocks.now i []) }
    {
        self.encrypt_states(sliced(blocks))
    }

    /// The same of eight blocks that a mode counts up: `block`, but that the last three bits of its
    /// last byte count from 0 to 7. Such blocks need no turning, so it is a little faster.
    pub fn encrypt_counted(&self, block: &[u8; 16]) -> [[u8; 16]; 8]
        ensures { (i : ℕ) → i < 8 → slice_index_or result i [] ≡ cipher self.now
            (take 15 block.now ++ (slice_index block.now 15 / 8 * 8 + i) ∷ []) }
    {
        self.encrypt_states(counted(block))
    }

    /// Cipher (FIPS 197, 5.1): the encryption of one block. It takes as long as that of eight.
    pub fn encrypt_block(&self, block: &[u8; 16]) -> [u8; 16]
        ensures { result ≡ cipher self.now block.now }
    {
        let [first, ..] = self.encrypt_eight(&[*block; 8]);
        first
    }
}
