//! Candidates for inverses modulo q, by the division steps of `division.rt`.
//!
//! A number stands for its residue class, and its products are Montgomery's, by m = -q: a b / 2^16
//! is the high half of a b less that of l m, where l is a b / m modulo 2^16. So a step multiplies
//! vectors by f0 and by f0 / m modulo 2^16, and by the same of g0, and takes no remainder. What it
//! makes of numbers within 2q is within 2q again, for each q below 2^13, and fits 16 bits. That each
//! step divides by 2^16 as well changes no zero, and no quotient of f0 and its cofactor.
//!
//! Each coefficient of g and r stands one place higher than it would in f and v. So a step reads a
//! vector of g one place above the one that it writes, which divides by x.

ghost use Rattle.std.specs.Prelude.{◌≡◌, ◌+◌, ◌*◌, ◌<◌, ◌≤◌, length, vec_len, IfOk};

use crate::division::Turn;
use crate::windows::{LANES, SPARE, high, low};
use std::alloc::{AllocError as OutOfMemory, Global};
use std::simd::prelude::*;

// The numbers modulo q, by -q and its inverse modulo 2^16. Of a factor that is never negative the
// compiler knows as much, and then it makes a slower instruction of each high half.
#[derive(Clone, Copy)]
struct ModuloQ {
    minus_q: i16,
    inverse: i16,
}

// What a step multiplies by: the constant terms of f and g, and their quotients by -q modulo 2^16.
// The mask is all ones where f and g change places, else 0. And delta after the step.
#[derive(Clone, Copy)]
struct Factors {
    f: i16,
    f_low: i16,
    g: i16,
    g_low: i16,
    exchange: i16,
    delta: i16,
}

// The high half of a product.
fn high_half(a: i16, b: i16) -> i16 {
    (i32::from(a) * i32::from(b) >> 16) as i16
}

// The high halves of products.
#[inline(always)]
fn high_halves(a: i16x16, b: i16x16) -> i16x16 {
    (a.cast::<i32>() * b.cast::<i32>() >> i32x16::splat(16)).cast::<i16>()
}

impl ModuloQ {
    // Newton's iteration: an odd number is its own inverse modulo 8, and each turn doubles the bits.
    fn new(q: i16) -> ModuloQ {
        let minus_q = q.wrapping_neg();
        let mut inverse = minus_q;
        for _turn in 0..3u32 {
            inverse = inverse.wrapping_mul(2i16.wrapping_sub(inverse.wrapping_mul(minus_q)));
        }
        ModuloQ { minus_q, inverse }
    }

    // a b / 2^16. Where b is 1 it is 0 exactly for the multiples a of q.
    fn product(self, a: i16, b: i16) -> i16 {
        let low = a.wrapping_mul(b).wrapping_mul(self.inverse);
        high_half(a, b).wrapping_sub(high_half(low, self.minus_q))
    }

    // The power (number / 2^16)^(q - 2), which is 2^16 / number.
    fn inverse_of(self, number: i16) -> i16 {
        let exponent = self.minus_q.wrapping_neg().wrapping_sub(2);
        let mut power = number;
        for bit in (0..15u32.saturating_sub(exponent.leading_zeros())).rev() {
            power = self.product(power, power);
            if exponent >> bit & 1 == 1 {
                power = self.product(power, number);
            }
        }
        self.product(power, 1)
    }

    // The factors of a step, made apart from where they are used: see `division.rt`.
    #[inline(never)]
    fn factors(self, delta: i16, f: i16, g: i16) -> Factors {
        let turn = Turn::of(delta, self.product(g, 1) != 0);
        Factors {
            f,
            f_low: f.wrapping_mul(self.inverse),
            g,
            g_low: g.wrapping_mul(self.inverse),
            exchange: 0i16.wrapping_sub(i16::from(turn.exchange)),
            delta: turn.delta,
        }
    }

    // g becomes (f0 g - g0 f) / x, and f what it was or g, by the mask.
    #[inline(never)]
    fn step(self, by: &Factors, f: &mut [i16], g: &mut [i16])
        requires { length g.old ≡ length f.old + 1 }
    {
        let minus_q = i16x16::splat(self.minus_q);
        let f0 = i16x16::splat(by.f);
        let f0_low = i16x16::splat(by.f_low);
        let g0 = i16x16::splat(by.g);
        let g0_low = i16x16::splat(by.g_low);
        let exchange = i16x16::splat(by.exchange);
        for block in 0..f.len() / LANES {
            let at = LANES * block;
            let a = i16x16::from_slice(&f[at..]);
            let b = i16x16::from_slice(&g[at + 1..]);
            let f0_b = high_halves(b, f0) - high_halves(b * f0_low, minus_q);
            let g0_a = high_halves(a, g0) - high_halves(a * g0_low, minus_q);
            (a ^ exchange & (a ^ b)).copy_to_slice(&mut f[at..]);
            (f0_b - g0_a).copy_to_slice(&mut g[at..]);
        }
    }

    // All the steps.
    fn divide(self, p: usize, f: &mut [i16], g: &mut [i16], v: &mut [i16], r: &mut [i16])
        requires some { 0 < length f.old }
        requires low { length g.old ≡ length f.old + 1 }
        requires high { length r.old ≡ length v.old + 1 }
    {
        let mut delta = 1i16;
        for done in 0..p.saturating_mul(2).saturating_sub(1) {
            let by = self.factors(delta, f[0], g[1]);
            let low = low(p, done, f.len());
            self.step(&by, &mut f[low.from..low.to], &mut g[low.from..low.to + 1]);
            let high = high(p, done, v.len());
            self.step(
                &by,
                &mut v[high.from..high.to],
                &mut r[high.from..high.to + 1],
            );
            delta = by.delta;
        }
    }
}

// 1 - x^(p - 1) - x^p
fn turned_modulus(alloc: Global, p: usize) -> Result<Vec<i16>, OutOfMemory>
    requires some { 2 ≤ p }
    requires few { p ≤ 1023 }
    ensures { IfOk result (λ v. vec_len v ≡ p + SPARE) }
{
    let mut list = vec![in alloc; 0i16; p + SPARE]?;
    list[0] = 1;
    list[p - 1] = -1;
    list[p] = -1;
    Ok(list)
}

// Three times the element turned round, one place higher, among zeros.
fn turned(alloc: Global, small: &[i8]) -> Result<Vec<i16>, OutOfMemory>
    requires { length small.now ≤ 1023 }
    ensures { IfOk result (λ v. vec_len v ≡ length small.now + SPARE + 1) }
{
    let mut list = vec![in alloc; 0i16; small.len() + SPARE + 1]?;
    for k in 0..small.len() {
        list[small.len() - k] = i16::from(small[k]).wrapping_mul(3);
    }
    Ok(list)
}

// x^2p, one place higher, among zeros.
fn last_place(alloc: Global, p: usize) -> Result<Vec<i16>, OutOfMemory>
    requires { p ≤ 1023 }
    ensures { IfOk result (λ v. vec_len v ≡ 2 * p + SPARE + 1) }
{
    let mut list = vec![in alloc; 0i16; 2 * p + SPARE + 1]?;
    list[2 * p + 1] = 1;
    Ok(list)
}

// What the cofactor of a number f0 other than 0 makes of the inverse.
fn read(
    alloc: Global,
    field: ModuloQ,
    p: usize,
    f0: i16,
    cofactor: &[i16],
) -> Result<Vec<i32>, OutOfMemory>
    requires few { p ≤ 1023 }
    requires long { p + 2 ≤ length cofactor.now }
    ensures { IfOk result (λ v. vec_len v ≡ p) }
{
    let scale = field.inverse_of(f0);
    let mut list = Vec::with_capacity(alloc, p)?;
    for k in 0..p {
        list.push(i32::from(field.product(cofactor[p + 1 - k], scale)))?;
    }
    Ok(list)
}

// The inverse of 3 f modulo q, where it has one.
pub(crate) fn candidate_3f(alloc: Global, f: &[i8], modulus: u16) -> Result<Vec<i32>, OutOfMemory>
    requires some { 2 ≤ length f.now }
    requires few { length f.now ≤ 1023 }
    requires modulus_most { modulus < 8192 }
    ensures { IfOk result (λ v. vec_len v ≡ length f.now) }
{
    let field = ModuloQ::new(modulus as i16);
    let p = f.len();
    let mut number = turned_modulus(alloc, p)?;
    let mut rest = turned(alloc, f)?;
    let mut cofactor = vec![in alloc; 0i16; 2 * p + SPARE]?;
    let mut other = last_place(alloc, p)?;
    field.divide(p, &mut number, &mut rest, &mut cofactor, &mut other);
    read(alloc, field, p, number[0], &cofactor)
}
