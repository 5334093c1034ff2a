//! Candidates for inverses modulo 3, by the division steps of `division.rt`.
//!
//! A polynomial has 1,024 places, in two planes of bits: one tells which coefficients aren't 0, the
//! other which are -1. The place k is the bit k / 16 of the word k % 16. So a step that divides by x
//! moves each word one down, and the lowest one, turned by a bit, to the top. Places are counted
//! modulo 1,024: p + 2 of them are in use at a time, so that no two meet up to the degree 1,022.
//!
//! Each word of g and r stands one higher than it would in f and v, as in `modulo_q.rt`. The sum
//! of two numbers modulo 3 takes six operations on bits (T. J. Boothby and R. W. Bradshaw,
//! Bitslicing and the method of four Russians over larger finite fields).

ghost use Rattle.std.specs.Prelude.{◌≡◌, ◌+◌, ◌<◌, ◌≤◌, length, vec_len, unsigned_abs, IfOk};
ghost use Rattle.ring_core.specs.Bounds.{IsWithin};

use crate::division::Turn;
use std::alloc::{AllocError as OutOfMemory, Global};
use std::simd::prelude::*;

// A power of 2: a place is found by shifts.
const WORDS: usize = 16;

const PLACES: usize = 64 * WORDS;

// The coefficients of a polynomial, with room for a word more.
#[derive(Drop)]
struct Planes {
    some: [u64; 17],
    minus: [u64; 17],
}

// The coefficients in two words.
#[derive(Clone, Copy)]
struct Pair {
    some: u64x2,
    minus: u64x2,
}

// What a step does, each all ones or 0: whether f is added to g at all, whether it is taken away,
// and whether the two change places.
#[derive(Clone, Copy)]
struct Masks {
    some: u64,
    minus: u64,
    exchange: u64,
    delta: i16,
}

// All ones for a word whose lowest bit is 1, else 0.
fn mask(word: u64) -> u64 {
    0u64.wrapping_sub(word & 1)
}

impl Masks {
    // The masks of a step, made apart from where they are used: see `division.rt`.
    #[inline(never)]
    fn of(delta: i16, f_minus: u64, g_some: u64, g_minus: u64) -> Masks {
        let turn = Turn::of(delta, g_some & 1 == 1);
        Masks {
            some: mask(g_some),
            minus: mask(!(f_minus ^ g_minus)),
            exchange: mask(u64::from(turn.exchange)),
            delta: turn.delta,
        }
    }
}

impl Pair {
    // The pair or the other one, by a mask.
    #[inline(always)]
    fn or(self, other: Pair, mask: u64x2) -> Pair {
        Pair {
            some: self.some ^ mask & (self.some ^ other.some),
            minus: self.minus ^ mask & (self.minus ^ other.minus),
        }
    }

    // The pair times 1, -1 or 0, by masks.
    #[inline(always)]
    fn times(self, some: u64x2, minus: u64x2) -> Pair {
        let left = self.some & some;
        Pair {
            some: left,
            minus: (self.minus ^ minus) & left,
        }
    }

    #[inline(always)]
    fn plus(self, other: Pair) -> Pair {
        let one = self.some ^ other.minus;
        let two = self.minus ^ other.some;
        Pair {
            some: (one ^ self.minus) | (two ^ other.minus),
            minus: one & two,
        }
    }
}

impl Planes {
    fn zero() -> Planes {
        Planes {
            some: [0; 17],
            minus: [0; 17],
        }
    }

    #[inline(always)]
    fn pair(&self, at: usize) -> Pair
        requires { at ≤ 15 }
    {
        Pair {
            some: u64x2::from_slice(&self.some[at..]),
            minus: u64x2::from_slice(&self.minus[at..]),
        }
    }

    #[inline(always)]
    fn put_pair(&mut self, at: usize, pair: Pair)
        requires { at ≤ 15 }
    {
        pair.some.copy_to_slice(&mut self.some[at..]);
        pair.minus.copy_to_slice(&mut self.minus[at..]);
    }

    // Puts a number from -1 to 1 at a place where 0 is, the words `up` higher.
    fn put(&mut self, up: usize, place: usize, number: i8)
        requires { up ≤ 1 }
    {
        let word = place % WORDS + up;
        let bit = place / WORDS % 64;
        self.some[word] |= u64::from(number != 0) << bit;
        self.minus[word] |= u64::from(number < 0) << bit;
    }

    // The number at a place.
    fn number(&self, place: usize) -> i8 {
        let word = place % WORDS;
        let bit = place / WORDS % 64;
        let some = i8::from(self.some[word] >> bit & 1 == 1);
        let minus = i8::from(self.minus[word] >> bit & 1 == 1);
        some - 2 * minus
    }
}

// g becomes (g + f) / x, (g - f) / x or g / x, and f what it was or g, by the masks.
#[inline(never)]
fn step(by: &Masks, f: &mut Planes, g: &mut Planes) {
    let some = u64x2::splat(by.some);
    let minus = u64x2::splat(by.minus);
    let exchange = u64x2::splat(by.exchange);
    for pair in 0..WORDS / 2 {
        let at = 2 * pair;
        let a = f.pair(at);
        let b = g.pair(at + 1);
        f.put_pair(at, a.or(b, exchange));
        g.put_pair(at, b.plus(a.times(some, minus)));
    }
    g.some[WORDS] = g.some[0].rotate_right(1);
    g.minus[WORDS] = g.minus[0].rotate_right(1);
}

// All the steps.
fn divide(p: usize, f: &mut Planes, g: &mut Planes, v: &mut Planes, r: &mut Planes) {
    let mut delta = 1i16;
    for _step in 1..p.saturating_mul(2) {
        let by = Masks::of(delta, f.minus[0], g.some[1], g.minus[1]);
        step(&by, f, g);
        step(&by, v, r);
        delta = by.delta;
    }
}

// 1 - x^(p - 1) - x^p
fn turned_modulus(p: usize) -> Planes
    requires { 2 ≤ p }
{
    let mut planes = Planes::zero();
    planes.put(0, 0, 1);
    planes.put(0, p - 1, -1);
    planes.put(0, p, -1);
    planes
}

// The element turned round, its words one higher.
fn turned(small: &[i8]) -> Planes {
    let mut planes = Planes::zero();
    for k in 0..small.len() {
        planes.put(1, small.len() - 1 - k, small[k]);
    }
    planes
}

// The sign of a number.
fn sign(number: i8) -> i8
    ensures { unsigned_abs result ≤ 1 }
{
    number.signum()
}

// What the cofactor of a number f0 other than 0 makes of the inverse.
fn read(alloc: Global, p: usize, f0: i8, cofactor: &Planes) -> Result<Vec<i8>, OutOfMemory>
    requires few { p ≤ 1023 }
    ensures count { IfOk result (λ v. vec_len v ≡ p) }
    ensures small { IfOk result (λ v. IsWithin 1 v.items) }
{
    let mut list = Vec::with_capacity(alloc, p)?;
    for k in 0..p {
        list.push(sign(f0.wrapping_mul(cofactor.number(p + 1 - k))))?;
    }
    Ok(list)
}

// The inverse of a modulo 3, where it has one.
pub(crate) fn candidate_3(alloc: Global, a: &[i8]) -> Result<Vec<i8>, OutOfMemory>
    requires some { 2 ≤ length a.now }
    requires few { length a.now ≤ 1023 }
    ensures count { IfOk result (λ v. vec_len v ≡ length a.now) }
    ensures small { IfOk result (λ v. IsWithin 1 v.items) }
{
    let p = a.len();
    let mut number = turned_modulus(p);
    let mut rest = turned(a);
    let mut cofactor = Planes::zero();
    let mut other = Planes::zero();
    other.put(1, 2 * p % PLACES, 1);
    divide(p, &mut number, &mut rest, &mut cofactor, &mut other);
    read(alloc, p, number.number(0), &cofactor)
}
