//! KeyExpansion (FIPS 197, 5.2), for keys of 4 and of 8 words.
//!
//! SubWord goes through the S-box's circuit, as the first four bytes of a state, and adds its constant.

ghost use Rattle.std.specs.Prelude.{◌≡◌, ◌≤◌, ◌<◌, ◌+◌, ◌*◌, ◌⊎◌, length, map};
ghost use Rattle.arrayvec.specs.ArrayVec.{array_vec_len};
ghost use Rattle.byte_strings.specs.Bytes.{xor_bytes};
ghost use Rattle.aes_block.specs.Field.{s_box};
ghost use Rattle.aes_block.specs.Cipher.{word, rot_word, sub_word, rcon, temp, expanded_key};

use crate::gates::{CONSTANT, sub_bytes};
use crate::slices::{sliced, unsliced};
use crate::tables::ROUND_CONSTANTS;
use arrayvec::ArrayVec;

type Word = [u8; 4];

fn add_words(a: Word, b: Word) -> Word
    ensures { result ≡ xor_bytes a b }
{
    let [a0, a1, a2, a3] = a;
    let [b0, b1, b2, b3] = b;
    [a0 ^ b0, a1 ^ b1, a2 ^ b2, a3 ^ b3]
}

fn word(w: &[u8], j: usize) -> Word
    requires { 4 * j + 4 ≤ length w.now }
    ensures { result ≡ word w.now j }
{
    [w[4 * j], w[4 * j + 1], w[4 * j + 2], w[4 * j + 3]]
}

fn rot_word(w: &[u8], j: usize) -> Word
    requires { 4 * j + 4 ≤ length w.now }
    ensures { result ≡ rot_word w.now j }
{
    [w[4 * j + 1], w[4 * j + 2], w[4 * j + 3], w[4 * j]]
}

fn sub_word(bytes: Word) -> Word
    ensures { result ≡ sub_word bytes }
{
    let [a, b, c, d] = bytes;
    let block = [a, b, c, d, 0, 0, 0, 0, 0, 0, 0, 0, 0, 0, 0, 0];
    let [first, ..] = unsliced(sub_bytes(sliced(&[block; 8])));
    [
        first[0] ^ CONSTANT,
        first[1] ^ CONSTANT,
        first[2] ^ CONSTANT,
        first[3] ^ CONSTANT,
    ]
}

// Rcon_j, for the `j` that key expansion asks for.
#[tactic(auto, using(crate::proofs::ByteTables::constants))]
fn rcon(j: usize) -> Word
    requires low { 1 ≤ j }
    requires high { j ≤ 10 }
    ensures { result ≡ rcon j }
{
    [ROUND_CONSTANTS[j - 1], 0, 0, 0]
}

// temp, for word `i` of a key of `nk` words.
#[tactic(auto, unfolding(crate::specs::Cipher::temp))]
fn temp(w: &[u8], nk: usize, i: usize) -> Word
    requires within { 4 * i ≤ length w.now }
    requires four { 4 ≤ nk }
    requires low { nk ≤ i }
    requires high { i < 11 * nk }
    ensures { result ≡ temp nk w.now i }
{
    if i % nk == 0 {
        add_words(sub_word(rot_word(w, i - 1)), rcon(i / nk))
    } else if nk == 8 && i % 8 == 4 {
        sub_word(word(w, i - 1))
    } else {
        word(w, i - 1)
    }
}

// The round keys of a key of `nk` words, one after another: 11 or 15, so 240 bytes hold them.
#[tactic(auto, using(crate::proofs::Expanding::expansion_steps), unfolding(crate::specs::Cipher::expanded_key))]
pub(crate) fn expanded(key: &[u8], nk: usize) -> ArrayVec<u8, 240>
    requires words { length key.now ≡ 4 * nk }
    requires size { (nk ≡ 4) ⊎ (nk ≡ 8) }
    ensures bytes { result.items ≡ expanded_key key.now }
    ensures size { array_vec_len result ≡ 16 * (nk + 7) }
{
    let mut w = ArrayVec::<u8, 240>::new();
    w.try_extend_from_slice(key).unwrap();
    for i in 0..3 * nk + 28 {
        let next = add_words(word(w.as_slice(), i), temp(w.as_slice(), nk, nk + i));
        w.try_extend_from_slice(&next).unwrap();
    }
    w
}
