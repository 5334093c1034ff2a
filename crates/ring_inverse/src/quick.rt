//! Inverses by division steps, each tested by a product.
//!
//! An inverse that is given is one. `None` says nothing of the element: that the steps find each
//! inverse there is, no clause says. A wrong candidate costs [`crate::reciprocal_3`] the time of an
//! elimination, and no more. So the steps owe no proof but that of their safety.

ghost use Rattle.std.specs.Prelude.{◌≡◌, ℤ, pos, ◌*ℤ◌, Bool, true, List, length, map, IfOk, IfSome};
ghost use Rattle.ring_core.specs.Product.{one, product, IsCentred};
ghost use Rattle.ring_inverse.specs.Reciprocals.{triple, IsInverse};

use crate::modulo_3::candidate_3;
use crate::modulo_q::candidate_3f;
use crate::reciprocal::modulus;
use crate::triples::tripled_long;
use ring_core::words::small_to_16;
use ring_core::{Multiplier, Params, Rq, Small};
use std::alloc::{AllocError as OutOfMemory, Global};

// Whether the list is 1 and then zeros. All of it is looked at, so that the answer alone can be told
// from the time.
fn is_one(list: &[i16]) -> bool
    ensures { result ≡ true → list.now ≡ one (length list.now) }
{
    let mut same = true;
    for k in 0..list.len() {
        same &= list[k] == i16::from(k == 0);
    }
    same
}

// Whether v a = 1 in R/3.
fn inverts_3<S: Params, M: Multiplier>(
    alloc: Global,
    mult: &M,
    v: &Small<S>,
    a: &Small<S>,
) -> Result<bool, OutOfMemory>
    ensures { IfOk result (λ yes. yes ≡ true → IsInverse 3 S.set.p a.now v.now) }
{
    let product = mult.mul_3(alloc, v, a)?;
    let list = small_to_16(alloc, product.as_slice())?;
    Ok(is_one(&list))
}

/// 1/a in R/3 (NTRU Prime round 3, KeyGen), where the division steps find it.
pub fn quick_3<S: Params, M: Multiplier>(
    alloc: Global,
    mult: &M,
    a: &Small<S>,
) -> Result<Option<Small<S>>, OutOfMemory>
    ensures { IfOk result (λ o. IfSome o (IsInverse 3 S.set.p a.now)) }
{
    let v = Small::from_vec(candidate_3(alloc, a.as_slice())?);
    let found = inverts_3(alloc, mult, &v, a)?;
    Ok(if found { Some(v) } else { None })
}

/// 3 f c in R/q (NTRU Prime round 3, Decrypt).
pub fn times_3f<S: Params, M: Multiplier>(
    alloc: Global,
    mult: &M,
    c: &Rq<S>,
    f: &Small<S>,
) -> Result<Rq<S>, OutOfMemory>
    ensures { IfOk result (λ e. e ≡ product S.set.q S.set.p (triple f.now) c.now) }
{
    let product = mult.mul_q_small(alloc, c, f)?;
    let numbers = tripled_long(alloc, product.as_slice())?;
    Rq::from_coefficients(alloc, &numbers)
}

// Whether v 3 f = 1 in R/q.
fn inverts_3f<S: Params, M: Multiplier>(
    alloc: Global,
    mult: &M,
    v: &Rq<S>,
    f: &Small<S>,
) -> Result<bool, OutOfMemory>
    ensures { IfOk result (λ yes. yes ≡ true
        → IsInverse S.set.q S.set.p (triple f.now) v.now) }
{
    let product = times_3f(alloc, mult, v, f)?;
    Ok(is_one(product.as_slice()))
}

/// 1/(3 f) in R/q (NTRU Prime round 3, KeyGen), where the division steps find it.
pub fn quick_3f<S: Params, M: Multiplier>(
    alloc: Global,
    mult: &M,
    f: &Small<S>,
) -> Result<Option<Rq<S>>, OutOfMemory>
    ensures centred { IfOk result (λ o. IfSome o (IsCentred S.set.q S.set.p)) }
    ensures inverse { IfOk result (λ o. IfSome o (IsInverse S.set.q S.set.p (triple f.now))) }
{
    let numbers = candidate_3f(alloc, f.as_slice(), modulus::<S>())?;
    let v = Rq::from_coefficients(alloc, &numbers)?;
    let found = inverts_3f(alloc, mult, &v, f)?;
    Ok(if found { Some(v) } else { None })
}
