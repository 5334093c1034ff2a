//! Reciprocals of elements.

ghost use Rattle.std.specs.Prelude.{◌≡◌, ◌↔◌, ℤ, IfOk};
ghost use Rattle.ring_core.specs.Product.{IsCentred};
ghost use Rattle.ring_inverse.specs.Reciprocals.{triple, IsInverse, IsAnnihilator, HasInverse, IfInverse, IfAnnihilator, GivesAnnihilator};

use crate::elimination::eliminate;
use crate::quick::{quick_3, quick_3f};
use crate::triples::tripled;
use ring_core::words::{narrowed, small_to_16};
use ring_core::{Multiplier, Params, Rq, Small};
use std::alloc::{AllocError as OutOfMemory, Global};

/// What there is of 1/a: its value, or the reason why there is none.
#[derive(Drop)]
pub enum Reciprocal<T> {
    /// v with v a = 1
    Inverse(T),
    /// u with u a = 0, and u is not 0
    Annihilator(T),
}

// The element of R/3 with these coefficients.
fn small<S: Params>(alloc: Global, list: Vec<i16>) -> Result<Small<S>, OutOfMemory>
    requires { IsCentred 3 S.set.p list.items }
    ensures { IfOk result (λ r. r ≡ list.items) }
{
    Ok(Small::from_vec(narrowed(alloc, &list)?))
}

// q.
pub(crate) fn modulus<S: Params>() -> u16
    ensures { result ≡ S.set.q }
{
    S::Q as u16
}

// 1/a in R/3 or an annihilator, by elimination.
fn eliminated_3<S: Params>(alloc: Global, a: &Small<S>) -> Result<Reciprocal<Small<S>>, OutOfMemory>
    ensures inverse { IfOk result (λ r. IfInverse r (IsInverse 3 S.set.p a.now)) }
    ensures annihilator { IfOk result (λ r. IfAnnihilator r (IsAnnihilator 3 S.set.p a.now)) }
    ensures exactly { IfOk result (λ r. GivesAnnihilator r ↔ (¬ HasInverse 3 S.set.p a.now)) }
{
    let list = small_to_16(alloc, a.as_slice())?;
    match eliminate(alloc, &list, 3)? {
        Reciprocal::Inverse(v) => Ok(Reciprocal::Inverse(small(alloc, v)?)),
        Reciprocal::Annihilator(u) => Ok(Reciprocal::Annihilator(small(alloc, u)?)),
    }
}

// 1/(3 f) in R/q or an annihilator, by elimination.
fn eliminated_3f<S: Params>(alloc: Global, f: &Small<S>) -> Result<Reciprocal<Rq<S>>, OutOfMemory>
    ensures inverse { IfOk result (λ r. IfInverse r (IsInverse S.set.q S.set.p (triple f.now))) }
    ensures annihilator { IfOk result (λ r. IfAnnihilator r
        (IsAnnihilator S.set.q S.set.p (triple f.now))) }
    ensures exactly { IfOk result (λ r. GivesAnnihilator r
        ↔ (¬ HasInverse S.set.q S.set.p (triple f.now))) }
{
    let list = tripled(alloc, f.as_slice())?;
    match eliminate(alloc, &list, modulus::<S>())? {
        Reciprocal::Inverse(v) => Ok(Reciprocal::Inverse(Rq::from_vec(v))),
        Reciprocal::Annihilator(u) => Ok(Reciprocal::Annihilator(Rq::from_vec(u))),
    }
}

/// 1/a in R/3 (NTRU Prime round 3, KeyGen), or an annihilator of a exactly where a has no inverse.
///
/// An element without an inverse need not be 0: x^p - x - 1 has factors modulo 3, and their
/// multiples have none. A candidate is made by division steps, and is the answer where its product
/// with a is 1. Else the elimination decides, which takes several hundred times as long. An inverse
/// is the same with each multiplier.
pub fn reciprocal_3<S: Params, M: Multiplier>(
    alloc: Global,
    mult: &M,
    a: &Small<S>,
) -> Result<Reciprocal<Small<S>>, OutOfMemory>
    ensures inverse { IfOk result (λ r. IfInverse r (IsInverse 3 S.set.p a.now)) }
    ensures annihilator { IfOk result (λ r. IfAnnihilator r (IsAnnihilator 3 S.set.p a.now)) }
    ensures exactly { IfOk result (λ r. GivesAnnihilator r ↔ (¬ HasInverse 3 S.set.p a.now)) }
{
    match quick_3(alloc, mult, a)? {
        Some(v) => Ok(Reciprocal::Inverse(v)),
        None => eliminated_3(alloc, a),
    }
}

/// 1/(3 f) in R/q (NTRU Prime round 3, KeyGen), or an annihilator of 3 f exactly where it has no
/// inverse.
///
/// A candidate comes first, as in [`reciprocal_3`].
pub fn reciprocal_3f<S: Params, M: Multiplier>(
    alloc: Global,
    mult: &M,
    f: &Small<S>,
) -> Result<Reciprocal<Rq<S>>, OutOfMemory>
    ensures inverse { IfOk result (λ r. IfInverse r (IsInverse S.set.q S.set.p (triple f.now))) }
    ensures annihilator { IfOk result (λ r. IfAnnihilator r
        (IsAnnihilator S.set.q S.set.p (triple f.now))) }
    ensures exactly { IfOk result (λ r. GivesAnnihilator r
        ↔ (¬ HasInverse S.set.q S.set.p (triple f.now))) }
{
    match quick_3f(alloc, mult, f)? {
        Some(v) => Ok(Reciprocal::Inverse(v)),
        None => eliminated_3f(alloc, f),
    }
}
