//! Random polynomials.

ghost use Rattle.std.specs.Prelude.{◌≡◌, ◌+◌, ◌^◌, ◌<◌, ◌≤◌, unsigned_abs, length, map, if◌then◌else◌, is_ok, IfOk};
ghost use Rattle.std.specs.List.{All};
ghost use Rattle.ring_core.specs.Bounds.{IsWithin};
ghost use Rattle.ring_core.specs.Product.{weight};
ghost use Rattle.rand_words.specs.Samples.{small_coefficient, small, marked, short_coefficient, short, IsMarked};
ghost use Rattle.rand_words.specs.Sorted.{sorted};
ghost use Rattle.rand_words.specs.Words.{words_from};

use crate::marks::mark;
use crate::sorting::sort;
use crate::words::{Words, draw};
use ring_core::{Params, Small};
use std::alloc::{AllocError as OutOfMemory, Global};

const TWO_TO_30: u32 = 1 << 30;

// A third of 30 bits, from -1 on.
fn small_coefficient_of(word: u32) -> i8
    ensures small { unsigned_abs result ≤ 1 }
    ensures value { result ≡ small_coefficient word }
{
    (word % TWO_TO_30 * 3 / TWO_TO_30) as i8 - 1
}

// Writes the coefficient of each word.
fn write_small(words: &[u32], list: &mut [i8])
    requires { length list.old ≡ length words.now }
    ensures small { IsWithin 1 list.new }
    ensures value { list.new ≡ map small_coefficient words.now }
{
    for i in 0..words.len() {
        list[i] = small_coefficient_of(words[i]);
    }
}

/// Small (NTRU Prime round 3): p coefficients from -1 to 1, from p words.
///
/// On `OutOfMemory` no word was taken.
pub fn small_random<S: Params, R: Words>(
    alloc: Global,
    words: &mut R,
) -> Result<Small<S>, OutOfMemory>
    requires { R.place words.old + S.set.p ≤ 2 ^ 32 }
    ensures sample { IfOk result (λ a. a
        ≡ small S.set (words_from (R.word words.old) (R.place words.old) S.set.p)) }
    ensures taken { R.place words.new
        ≡ (if is_ok result then R.place words.old + S.set.p else R.place words.old) }
    ensures stays { R.word words.new ≡ R.word words.old }
{
    let mut drawn = vec![in alloc; 0u32; S::P]?;
    let mut list = vec![in alloc; 0i8; S::P]?;
    draw(words, &mut drawn);
    write_small(&drawn, &mut list);
    Ok(Small::from_vec(list))
}

// The two low bits of a word, from -1 on.
fn short_coefficient_of(word: u32) -> i8
    ensures { result ≡ short_coefficient word }
{
    (word % 4) as i8 - 1
}

// Writes the coefficient of each marked word.
fn write_coefficients(words: &[u32], list: &mut [i8])
    requires count { length list.old ≡ length words.now }
    requires marked { All IsMarked words.now }
    ensures small { IsWithin 1 list.new }
    ensures value { list.new ≡ map short_coefficient words.now }
{
    for i in 0..words.len() {
        list[i] = short_coefficient_of(words[i]);
    }
}

// Writes the short polynomial of weight w, and leaves the words marked and sorted.
fn write_short(words: &mut [u32], w: usize, list: &mut [i8])
    requires count { length list.old ≡ length words.old }
    requires weight { w ≤ length words.old }
    ensures small { IsWithin 1 list.new }
    ensures value { list.new ≡ map short_coefficient (sorted (marked w words.old)) }
    ensures weight { weight list.new ≡ w }
{
    mark(words, w);
    sort(words);
    write_coefficients(words, list);
}

/// Short (NTRU Prime round 3): a small polynomial with w coefficients that aren't 0, from p words.
///
/// On `OutOfMemory` no word was taken.
pub fn short_random<S: Params, R: Words>(
    alloc: Global,
    words: &mut R,
) -> Result<Small<S>, OutOfMemory>
    requires { R.place words.old + S.set.p ≤ 2 ^ 32 }
    ensures sample { IfOk result (λ a. a
        ≡ short S.set (words_from (R.word words.old) (R.place words.old) S.set.p)) }
    ensures weight { IfOk result (λ a. weight a ≡ S.set.w) }
    ensures taken { R.place words.new
        ≡ (if is_ok result then R.place words.old + S.set.p else R.place words.old) }
    ensures stays { R.word words.new ≡ R.word words.old }
{
    let mut drawn = vec![in alloc; 0u32; S::P]?;
    let mut list = vec![in alloc; 0i8; S::P]?;
    draw(words, &mut drawn);
    write_short(&mut drawn, S::W, &mut list);
    Ok(Small::from_vec(list))
}
