//! Keys and how they are drawn.

ghost use Rattle.std.specs.Prelude.{◌≡◌, ◌≢◌, ◌↔◌, ◌⊎◌, ℕ, ◌+◌, ◌*◌, ◌^◌, ◌≤◌, ℤ, List, IfOk, IfErr, IfSome, IfNone, OnOk, Some};
ghost use Rattle.ring_core.specs.Product.{product, IsCentred};
ghost use Rattle.ring_inverse.specs.Reciprocals.{triple, IsInverse, HasInverse};
ghost use Rattle.rand_words.specs.Samples.{small};
ghost use Rattle.rand_words.specs.Words.{words_from, TakesAtMost};
ghost use Rattle.sntrup_core.specs.declared.keys.KeyFault.TheVariants.{NoInverse, OutOfMemory};
ghost use Rattle.sntrup_core.specs.Faults.{fault_text};
ghost use Rattle.sntrup_core.specs.Keys.{FindsG, IsExhausted, FindsNoInverse, IsKey, IsInvertible, IsFoundWith};

use rand_words::{Words, short_random, small_random};
use ring_core::{Multiplier, Params, Rq, Small};
use ring_inverse::{Reciprocal, reciprocal_3, reciprocal_3f};
use std::alloc::{AllocError, Global};
use std::error::Error;
use std::fmt;

/// A public key: h = g/(3f) in R/q.
#[derive(Drop)]
pub struct PublicPoly<S: Params> {
    pub h: Rq<S>,
}

/// A secret key: the short f, and 1/g in R/3.
#[derive(Drop)]
pub struct SecretPolys<S: Params> {
    pub f: Small<S>,
    pub ginv: Small<S>,
}

/// Why there is no key.
#[derive(Clone, Copy, Debug, PartialEq, Eq)]
pub enum KeyFault {
    /// None of the 64 drawn g has an inverse in R/3.
    Exhausted = 1,
    /// 3f has no inverse in R/q.
    NoInverse = 2,
    /// Memory ran out.
    OutOfMemory = 3,
}

const _: () = prove!(KeyFault::Exhausted as u8 == 1);

const _: () = prove!(KeyFault::NoInverse as u8 == 2);

const _: () = prove!(KeyFault::OutOfMemory as u8 == 3);

impl fmt::Display for KeyFault {
    ghost output = { λ fault. Some (fault_text fault) };

    fn fmt<W: fmt::Write>(&self, f: &mut fmt::Formatter<W>) -> fmt::Result {
        f.write_str(match self {
            KeyFault::Exhausted => "no polynomial drawn for g has an inverse",
            KeyFault::NoInverse => "3f has no inverse",
            KeyFault::OutOfMemory => "out of memory",
        })
    }
}

impl Error for KeyFault {}

impl From<AllocError> for KeyFault {
    ghost from_gives = { λ _ fault. fault ≡ OutOfMemory };

    fn from(_error: AllocError) -> KeyFault {
        KeyFault::OutOfMemory
    }
}

const MOST_DRAWS: usize = 64;

// A small polynomial with its inverse in R/3.
#[derive(Drop)]
struct Invertible<S: Params> {
    g: Small<S>,
    ginv: Small<S>,
}

// The small polynomial of the next p words, where it has an inverse in R/3.
fn draw_invertible<S: Params, R: Words, M: Multiplier>(
    alloc: Global,
    words: &mut R,
    mult: &M,
) -> Result<Option<Invertible<S>>, AllocError>
    requires { R.place words.old + S.set.p ≤ 2 ^ 32 }
    ensures some { IfOk result (λ drawn. IfSome drawn (λ a.
        IsInvertible S.set (R.word words.old) (R.place words.old) a.g a.ginv)) }
    ensures none { IfOk result (λ drawn. IfNone drawn (¬ HasInverse 3 S.set.p
        (small S.set (words_from (R.word words.old) (R.place words.old) S.set.p)))) }
    ensures taken { OnOk result (R.place words.new ≡ R.place words.old + S.set.p) }
    ensures at_most { TakesAtMost S.set.p (R.place words.old) (R.place words.new) }
    ensures stays { R.word words.new ≡ R.word words.old }
{
    let g = small_random::<S, R>(alloc, words)?;
    let reciprocal = reciprocal_3(alloc, mult, &g)?;
    match reciprocal {
        Reciprocal::Inverse(ginv) => Ok(Some(Invertible { g, ginv })),
        Reciprocal::Annihilator(_) => Ok(None),
    }
}

// The first of 64 small polynomials that has an inverse in R/3, where one has.
fn find_invertible<S: Params, R: Words, M: Multiplier>(
    alloc: Global,
    words: &mut R,
    mult: &M,
) -> Result<Option<Invertible<S>>, AllocError>
    requires { R.place words.old + 64 * S.set.p ≤ 2 ^ 32 }
    ensures some { IfOk result (λ drawn. IfSome drawn (λ a. IsFoundWith S.set (R.word words.old)
        (R.place words.old) (R.place words.new) a.g a.ginv)) }
    ensures none { IfOk result (λ drawn. IfNone drawn
        (IsExhausted S.set (R.word words.old) (R.place words.old)
        × (R.place words.new ≡ R.place words.old + 64 * S.set.p))) }
    ensures at_most { TakesAtMost (64 * S.set.p) (R.place words.old) (R.place words.new) }
    ensures stays { R.word words.new ≡ R.word words.old }
{
    for _draw in 0..MOST_DRAWS {
        let drawn = draw_invertible::<S, R, M>(alloc, words, mult)?;
        if let Some(found) = drawn {
            return Ok(Some(found));
        }
    }
    Ok(None)
}

// The key of g and f, where 3f has an inverse.
fn key_of<S: Params, M: Multiplier>(
    alloc: Global,
    mult: &M,
    found: Invertible<S>,
    f: Small<S>,
) -> Result<(PublicPoly<S>, SecretPolys<S>), KeyFault>
    ensures key { IfOk result (λ k. (k.1.f ≡ f) × (k.1.ginv ≡ found.ginv)
        × (v : List ℤ) × IsCentred S.set.q S.set.p v × IsInverse S.set.q S.set.p (triple f) v
        × (k.0.h ≡ product S.set.q S.set.p v found.g)) }
    ensures fault { IfErr result (λ fault. (fault ≡ OutOfMemory)
        ⊎ ((fault ≡ NoInverse) × (¬ HasInverse S.set.q S.set.p (triple f)))) }
{
    let reciprocal = reciprocal_3f(alloc, mult, &f)?;
    let Reciprocal::Inverse(v) = reciprocal else {
        return Err(KeyFault::NoInverse);
    };
    let h = mult.mul_q_small(alloc, &v, &found.g)?;
    let ginv = found.ginv;
    Ok((PublicPoly { h }, SecretPolys { f, ginv }))
}

/// KeyGen (NTRU Prime round 3): a key from random words.
///
/// Draws g until it has an inverse in R/3, at most 64 times; then f; then h is g/(3f). Takes
/// 64 p words where there is no g, and else p for each draw of g and p for f. After `OutOfMemory`
/// some of them may have been taken, and never more.
pub fn keygen<S: Params, R: Words, M: Multiplier>(
    alloc: Global,
    words: &mut R,
    mult: &M,
) -> Result<(PublicPoly<S>, SecretPolys<S>), KeyFault>
    requires { R.place words.old + 65 * S.set.p ≤ 2 ^ 32 }
    ensures key { IfOk result (λ k. (j : ℕ) × FindsG S.set (R.word words.old) (R.place words.old) j
        × IsKey S.set (R.word words.old) (R.place words.old) j
        k.0.h k.1.f k.1.ginv) }
    ensures exhausted { result ≢ Err KeyFault.OutOfMemory → ((result ≡ Err KeyFault.Exhausted)
        ↔ IsExhausted S.set (R.word words.old) (R.place words.old)) }
    ensures no_inverse { result ≢ Err KeyFault.OutOfMemory → ((result ≡ Err KeyFault.NoInverse)
        ↔ FindsNoInverse S.set (R.word words.old) (R.place words.old)) }
    ensures taken { result ≢ Err KeyFault.OutOfMemory
        → (j : ℕ) → FindsG S.set (R.word words.old) (R.place words.old) j
        → R.place words.new ≡ R.place words.old + (j + 2) * S.set.p }
    ensures exhausted_taken { result ≡ Err KeyFault.Exhausted
        → R.place words.new ≡ R.place words.old + 64 * S.set.p }
    ensures at_most { TakesAtMost (65 * S.set.p) (R.place words.old) (R.place words.new) }
    ensures stays { R.word words.new ≡ R.word words.old }
{
    let drawn = find_invertible::<S, R, M>(alloc, words, mult)?;
    let Some(found) = drawn else {
        return Err(KeyFault::Exhausted);
    };
    let f = short_random::<S, R>(alloc, words)?;
    key_of(alloc, mult, found, f)
}
