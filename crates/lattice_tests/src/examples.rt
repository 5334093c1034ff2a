//! Products worked out by hand: the table that the test of each multiplier goes through, by
//! [`assert_products`], and those of elements without a coefficient 0, by [`assert_dense`].

ghost use Rattle.std.specs.Prelude.{◌≡◌, ◌*◌, ◌-◌, ◌<◌, ◌≤◌, map, IfOk, unsigned_abs, vec_len};
ghost use Rattle.ring_core.specs.Bounds.{IsWithin};
ghost use Rattle.lattice_tests.specs.Examples.{placed, placed_at};
ghost use Rattle.ring_core.specs.Product.{centred};

use crate::expected::{assert_at, assert_same};
use ring_core::{Multiplier, Params, Rq, Small};
use std::alloc::{AllocError as OutOfMemory, Global};
use std::process::Abort;

/// An element by the places of its coefficients 1 and -1; the others are 0.
pub struct Places {
    pub ones: &'static [usize],
    pub minus_ones: &'static [usize],
}

impl Places {
    // The coefficient of x^k.
    fn coefficient(&self, k: usize) -> i8
        ensures { result ≡ placed_at self.now.ones.now self.now.minus_ones.now k }
    {
        if self.ones.contains(&k) {
            1
        } else if self.minus_ones.contains(&k) {
            -1
        } else {
            0
        }
    }

    // The p coefficients.
    fn coefficients(&self, alloc: Global, p: usize) -> Result<Vec<i8>, OutOfMemory>
        ensures { IfOk result (λ v. v.items
            ≡ placed p self.now.ones.now self.now.minus_ones.now) }
    {
        let mut list = Vec::with_capacity(alloc, p)?;
        for k in 0..p {
            list.push(self.coefficient(k))?;
        }
        Ok(list)
    }

    /// The small element.
    pub fn small<S: Params>(&self, rt: &impl Abort, alloc: Global) -> Small<S>
        ensures { result ≡ placed S.set.p self.now.ones.now self.now.minus_ones.now }
    {
        let list = self.coefficients(alloc, S::P).expect(rt, "memory");
        Small::from_vec(list)
    }

    /// The same element of R/q.
    pub fn rq<S: Params>(&self, rt: &impl Abort, alloc: Global) -> Rq<S>
        ensures { result ≡ map (λ z. centred S.set.q z)
            (placed S.set.p self.now.ones.now self.now.minus_ones.now) }
    {
        let list = self.coefficients(alloc, S::P).expect(rt, "memory");
        let wide = list.iter().map(|number| i32::from(*number)).collect(alloc);
        let wide: Vec<i32> = wide.expect(rt, "memory");
        Rq::from_coefficients(alloc, &wide).expect(rt, "memory")
    }
}

/// Two factors, and their product in both rings.
pub struct Example {
    pub source: &'static str,
    pub a: Places,
    pub b: Places,
    pub product: Places,
}

/// Products over `Sntrup761`.
pub static PRODUCTS_761: [Example; 5] = [
    Example {
        source: "own, by hand: x^760 x = x^761 = x + 1",
        a: Places {
            ones: &[760],
            minus_ones: &[],
        },
        b: Places {
            ones: &[1],
            minus_ones: &[],
        },
        product: Places {
            ones: &[0, 1],
            minus_ones: &[],
        },
    },
    Example {
        source: "own, by hand: x^760 x^760 = x^759 (x + 1)",
        a: Places {
            ones: &[760],
            minus_ones: &[],
        },
        b: Places {
            ones: &[760],
            minus_ones: &[],
        },
        product: Places {
            ones: &[759, 760],
            minus_ones: &[],
        },
    },
    Example {
        source: "own, by hand: (x + 1) (x - 1) = x^2 - 1",
        a: Places {
            ones: &[0, 1],
            minus_ones: &[],
        },
        b: Places {
            ones: &[1],
            minus_ones: &[0],
        },
        product: Places {
            ones: &[2],
            minus_ones: &[0],
        },
    },
    Example {
        source: "own, by hand: (x^400 + x) (-x^400) = -x^800 - x^401 = -x^401 - x^40 - x^39",
        a: Places {
            ones: &[1, 400],
            minus_ones: &[],
        },
        b: Places {
            ones: &[],
            minus_ones: &[400],
        },
        product: Places {
            ones: &[],
            minus_ones: &[39, 40, 401],
        },
    },
    Example {
        source: "own, by hand: a product with 0",
        a: Places {
            ones: &[0, 5],
            minus_ones: &[760],
        },
        b: Places {
            ones: &[],
            minus_ones: &[],
        },
        product: Places {
            ones: &[],
            minus_ones: &[],
        },
    },
];

/// Products over `Sntrup857`.
pub static PRODUCTS_857: [Example; 2] = [
    Example {
        source: "own, by hand: x^856 x = x^857 = x + 1",
        a: Places {
            ones: &[856],
            minus_ones: &[],
        },
        b: Places {
            ones: &[1],
            minus_ones: &[],
        },
        product: Places {
            ones: &[0, 1],
            minus_ones: &[],
        },
    },
    Example {
        source: "own, by hand: (x^856 - 1) (x^856 - x) = x^855 (x + 1) - (x + 1) - x^856 + x",
        a: Places {
            ones: &[856],
            minus_ones: &[0],
        },
        b: Places {
            ones: &[856],
            minus_ones: &[1],
        },
        product: Places {
            ones: &[855],
            minus_ones: &[0],
        },
    },
];

fn assert_product_in_q<S: Params, M: Multiplier>(
    rt: &impl Abort,
    alloc: Global,
    mult: &M,
    example: &Example,
) {
    let a: Rq<S> = example.a.rq(rt, alloc);
    let b: Small<S> = example.b.small(rt, alloc);
    let want: Small<S> = example.product.small(rt, alloc);
    let in_q = mult.mul_q_small(alloc, &a, &b).expect(rt, "memory");
    for k in 0..S::P {
        let number = i32::from(want.coefficient(k));
        assert_at(rt, in_q.coefficient(k), number, example.source, k);
    }
}

fn assert_product_in_3<S: Params, M: Multiplier>(
    rt: &impl Abort,
    alloc: Global,
    mult: &M,
    example: &Example,
) {
    let a: Small<S> = example.a.small(rt, alloc);
    let b: Small<S> = example.b.small(rt, alloc);
    let want: Small<S> = example.product.small(rt, alloc);
    let in_3 = mult.mul_3(alloc, &a, &b).expect(rt, "memory");
    for k in 0..S::P {
        let number = want.coefficient(k);
        assert_at(rt, in_3.coefficient(k), number, example.source, k);
    }
}

/// Asserts that a multiplier gives the product of each example in both rings.
pub fn assert_products<S: Params, M: Multiplier>(
    rt: &impl Abort,
    alloc: Global,
    mult: &M,
    examples: &[Example],
) {
    for example in examples {
        assert_product_in_q::<S, M>(rt, alloc, mult, example);
        assert_product_in_3::<S, M>(rt, alloc, mult, example);
    }
}

/// The same number at each of p places.
pub fn filled(rt: &impl Abort, alloc: Global, number: i8, p: usize) -> Vec<i8>
    requires { unsigned_abs number ≤ 1 }
    ensures { IsWithin 1 result.items × (vec_len result ≡ p) }
{
    vec![in alloc; number; p].expect(rt, "memory")
}

// How many products of two coefficients meet at place k.
fn terms_at<S: Params>(k: usize) -> usize
    requires { k < S.set.p }
    ensures { result < 2048 }
{
    if k == 0 { S::P } else { 2 * S::P - k }
}

// So many times (q - 1)/2 in R/q, where 2 (q - 1)/2 = -1.
fn times_largest<S: Params>(terms: usize) -> i32
    requires { terms < 2048 }
{
    let pairs = (terms / 2) as i32;
    if terms % 2 == 0 {
        -pairs
    } else {
        S::Q / 2 - pairs
    }
}

fn assert_dense_in_q<S: Params, M: Multiplier>(
    rt: &impl Abort,
    alloc: Global,
    mult: &M,
    ones: &Small<S>,
) {
    let largest = vec![in alloc; S::Q / 2; S::P].expect(rt, "memory");
    let a: Rq<S> = Rq::from_coefficients(alloc, &largest).expect(rt, "memory");
    let in_q = mult.mul_q_small(alloc, &a, ones).expect(rt, "memory");
    for k in 0..S::P {
        let want = times_largest::<S>(terms_at::<S>(k));
        assert_at(rt, in_q.coefficient(k), want, "dense, in R/q", k);
    }
}

fn assert_dense_in_3<S: Params, M: Multiplier>(
    rt: &impl Abort,
    alloc: Global,
    mult: &M,
    ones: &Small<S>,
) {
    let in_3 = mult.mul_3(alloc, ones, ones).expect(rt, "memory");
    for k in 0..S::P {
        let want = [0i8, 1, -1][terms_at::<S>(k) % 3];
        assert_at(rt, in_3.coefficient(k), want, "dense, in R/3", k);
    }
}

/// Asserts the product of the largest coefficients (q - 1)/2 and ones, and that of ones and ones.
///
/// Own, by hand: 2p - k products meet at place k, and p at place 0.
pub fn assert_dense<S: Params, M: Multiplier>(rt: &impl Abort, alloc: Global, mult: &M) {
    let ones: Small<S> = Small::from_vec(filled(rt, alloc, 1, S::P));
    assert_same(rt, ones.weight(), S::P, "weight");
    assert_dense_in_q::<S, M>(rt, alloc, mult, &ones);
    assert_dense_in_3::<S, M>(rt, alloc, mult, &ones);
}
