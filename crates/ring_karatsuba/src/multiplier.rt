//! Products in both rings.

use crate::split::convolution;
use ring_core::words::{long_to_32, small_to_32};
use ring_core::{Multiplier, Params, Rq, Small};
use std::alloc::{AllocError as OutOfMemory, Global};

/// The product by splitting both factors at the half, again and again; then one wrapping and one
/// reduction.
pub struct Karatsuba;

impl Multiplier for Karatsuba {
    fn mul_q_small<S: Params>(
        &self,
        alloc: Global,
        a: &Rq<S>,
        b: &Small<S>,
    ) -> Result<Rq<S>, OutOfMemory> {
        let small = small_to_32(alloc, b.as_slice())?;
        let long = long_to_32(alloc, a.as_slice())?;
        let sums = convolution(alloc, &small, &long)?;
        Rq::from_sums(alloc, &sums)
    }

    fn mul_3<S: Params>(
        &self,
        alloc: Global,
        a: &Small<S>,
        b: &Small<S>,
    ) -> Result<Small<S>, OutOfMemory> {
        let small = small_to_32(alloc, b.as_slice())?;
        let long = small_to_32(alloc, a.as_slice())?;
        let sums = convolution(alloc, &small, &long)?;
        Small::from_sums(alloc, &sums)
    }
}
