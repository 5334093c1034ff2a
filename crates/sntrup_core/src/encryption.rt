//! Encryption and decryption.

ghost use Rattle.std.specs.Prelude.{◌≡◌, pos, ◌-◌, ◌≤◌, ◌++◌, map, replicate, vec_len, IfOk};
ghost use Rattle.ring_core.specs.Bounds.{IsWithin};
ghost use Rattle.ring_core.specs.Product.{centred};
ghost use Rattle.sntrup_core.specs.Encryption.{rounded, encrypted, shortened, decrypted};

use crate::choosing::{choose_list, mask_of};
use crate::keys::{PublicPoly, SecretPolys};
use ring_core::{Multiplier, Params, Rq, Small};
use ring_inverse::times_3f;
use std::alloc::{AllocError as OutOfMemory, Global};

// The centred residue modulo 3. The number is secret: a multiple of 3 makes it positive, since the
// remainder of a signed number by a constant may come to a jump on its sign, and that of an unsigned
// one is a product and a shift.
fn residue_3(number: i16) -> i8
    ensures { result ≡ centred 3 number }
{
    ((i32::from(number) + 32770) as u32 % 3) as i8 - 1
}

// The multiple of 3 that is nearest.
fn round(number: i16) -> i32
    ensures { result ≡ rounded number }
{
    i32::from(number) - i32::from(residue_3(number))
}

// The multiples of 3 that are nearest to the numbers of the list.
fn round_all(alloc: Global, list: &[i16]) -> Result<Vec<i32>, OutOfMemory>
    ensures { IfOk result (λ v. v.items ≡ map rounded list.now) }
{
    list.iter().map(|number| round(*number)).collect(alloc)
}

// The centred residues modulo 3 of the numbers of the list.
fn residues_3(alloc: Global, list: &[i16]) -> Result<Vec<i8>, OutOfMemory>
    ensures { IfOk result (λ v. v.items ≡ map (λ z. centred 3 z) list.now) }
{
    list.iter().map(|number| residue_3(*number)).collect(alloc)
}

/// Encrypt (NTRU Prime round 3): each coefficient of h r in R/q goes to the nearest multiple of 3.
///
/// Meant for a short `r`; any small one is taken.
pub fn encrypt<S: Params, M: Multiplier>(
    alloc: Global,
    mult: &M,
    r: &Small<S>,
    public: &PublicPoly<S>,
) -> Result<Rq<S>, OutOfMemory>
    ensures { IfOk result (λ c. c ≡ encrypted S.set r.now public.now.h) }
{
    let product = mult.mul_q_small(alloc, &public.h, r)?;
    let numbers = round_all(alloc, product.as_slice())?;
    Rq::from_coefficients(alloc, &numbers)
}

// w ones, and then zeros up to p numbers.
fn ones_and_zeros(alloc: Global, p: usize, w: usize) -> Result<Vec<i8>, OutOfMemory>
    requires { w ≤ p }
    ensures count { IfOk result (λ v. vec_len v ≡ p) }
    ensures small { IfOk result (λ v. IsWithin 1 v.items) }
    ensures list { IfOk result (λ v. v.items
        ≡ replicate w (pos 1) ++ replicate (p - w) (pos 0)) }
{
    let mut list = vec![in alloc; 1i8; w]?;
    let zeros = vec![in alloc; 0i8; p - w]?;
    list.extend_from_slice(&zeros)?;
    Ok(list)
}

// The polynomial where it is short, and else w ones followed by zeros.
fn shortened<S: Params>(alloc: Global, r: &Small<S>) -> Result<Small<S>, OutOfMemory>
    ensures { IfOk result (λ list. list ≡ shortened S.set r.now) }
{
    let mut list = ones_and_zeros(alloc, S::P, S::W)?;
    choose_list(mask_of(r.weight(), S::W), r.as_slice(), &mut list);
    Ok(Small::from_vec(list))
}

/// Decrypt (NTRU Prime round 3): e = 3 f c in R/q, taken modulo 3, times 1/g.
///
/// Where the result is not short, it is w ones followed by zeros. So every `c` is taken. These are
/// made each time, and the choice between the two branches on neither.
pub fn decrypt<S: Params, M: Multiplier>(
    alloc: Global,
    mult: &M,
    c: &Rq<S>,
    secret: &SecretPolys<S>,
) -> Result<Small<S>, OutOfMemory>
    ensures { IfOk result (λ r. r ≡ decrypted S.set c.now secret.now.f secret.now.ginv) }
{
    let tripled = times_3f(alloc, mult, c, &secret.f)?;
    let e = Small::from_vec(residues_3(alloc, tripled.as_slice())?);
    let r = mult.mul_3(alloc, &e, &secret.ginv)?;
    shortened(alloc, &r)
}
