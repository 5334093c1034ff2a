//! Lists between zeros, and of copies.

ghost use Rattle.std.specs.Prelude.{◌≡◌, ℕ, pos, ◌+◌, ◌*◌, ◌<◌, ◌≤◌, length, vec_len, IfOk};
ghost use Rattle.ring_core.specs.Product.{coefficients};
ghost use Rattle.ring_core.specs.Rows.{shifted};
ghost use Rattle.ring_lanes.specs.Rows.{eighth, AreEights};

use std::alloc::{AllocError as OutOfMemory, Global};
use std::simd::prelude::*;

// Writes the numbers over zeros, from `front` on.
fn write_behind(padded: &mut [i16], list: &[i16], front: usize)
    requires room { front + length list.now ≤ length padded.old }
    requires zeros { (k : ℕ) → coefficients padded.old k ≡ pos 0 }
    ensures { (k : ℕ) → coefficients padded.new k ≡ shifted front (coefficients list.now) k }
{
    padded[front..front + list.len()].copy_from_slice(list);
}

// The numbers behind `front` zeros, with zeros up to `count` numbers behind them.
pub(crate) fn padded(
    alloc: Global,
    list: &[i16],
    front: usize,
    count: usize,
) -> Result<Vec<i16>, OutOfMemory>
    requires room { front + length list.now ≤ count }
    ensures count { IfOk result (λ v. vec_len v ≡ count) }
    ensures places { IfOk result (λ v. (k : ℕ)
        → coefficients v.items k ≡ shifted front (coefficients list.now) k) }
{
    let mut padded = vec![in alloc; 0i16; count]?;
    write_behind(&mut padded, list, front);
    Ok(padded)
}

// Writes each number eight times, over zeros.
fn write_eightfold(copies: &mut [i16], list: &[i16])
    requires room { 8 * length list.now ≤ length copies.old }
    requires zeros { (k : ℕ) → coefficients copies.old k ≡ pos 0 }
    ensures { (i j : ℕ) → j < 8 → coefficients copies.new (8 * i + j) ≡ coefficients list.now i }
{
    for i in 0..list.len() {
        i16x8::splat(list[i]).copy_to_slice(&mut copies[8 * i..]);
    }
}

// Eight copies of each number, with zeros up to `count` numbers behind them.
pub(crate) fn eightfold(alloc: Global, list: &[i16], count: usize) -> Result<Vec<i16>, OutOfMemory>
    requires room { 8 * length list.now ≤ count }
    ensures count { IfOk result (λ v. vec_len v ≡ count) }
    ensures copies { IfOk result (λ v. AreEights v.items) }
    ensures numbers { IfOk result (λ v. (i : ℕ) → eighth v.items i ≡ coefficients list.now i) }
{
    let mut copies = vec![in alloc; 0i16; count]?;
    write_eightfold(&mut copies, list);
    Ok(copies)
}
