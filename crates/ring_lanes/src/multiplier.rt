//! Products in both rings.

use crate::convolution::convolution;
use crate::pairs::small_convolution;
use ring_core::words::small_to_16;
use ring_core::{Multiplier, Params, Rq, Small};
use std::alloc::{AllocError as OutOfMemory, Global};

/// The product on vectors: the sums of the convolution by multiplication, 32 at a time, then one
/// wrapping and one reduction. It takes the same steps whatever the coefficients are.
pub struct Lanes;

impl Multiplier for Lanes {
    fn mul_q_small<S: Params>(
        &self,
        alloc: Global,
        a: &Rq<S>,
        b: &Small<S>,
    ) -> Result<Rq<S>, OutOfMemory> {
        let sums = convolution(alloc, &small_to_16(alloc, b.as_slice())?, a.as_slice())?;
        Rq::from_sums(alloc, &sums)
    }

    fn mul_3<S: Params>(
        &self,
        alloc: Global,
        a: &Small<S>,
        b: &Small<S>,
    ) -> Result<Small<S>, OutOfMemory> {
        let sums = small_convolution(alloc, b.as_slice(), a.as_slice())?;
        Small::from_sums(alloc, &sums)
    }
}
