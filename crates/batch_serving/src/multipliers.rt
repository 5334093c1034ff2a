//! The multiplier that the words name.

use batch_words::Mult;
use ring_core::{Multiplier, Params, Plain, Rq, Small};
use ring_karatsuba::Karatsuba;
use ring_lanes::Lanes;
use std::alloc::{AllocError, Global};

/// A multiplier by its name. What it gives is the same with each.
#[derive(Clone, Copy)]
pub struct Named {
    pub name: Mult,
}

impl Multiplier for Named {
    fn mul_q_small<S: Params>(
        &self,
        alloc: Global,
        a: &Rq<S>,
        b: &Small<S>,
    ) -> Result<Rq<S>, AllocError> {
        match self.name {
            Mult::Plain => Plain.mul_q_small(alloc, a, b),
            Mult::Karatsuba => Karatsuba.mul_q_small(alloc, a, b),
            Mult::Lanes => Lanes.mul_q_small(alloc, a, b),
        }
    }

    fn mul_3<S: Params>(
        &self,
        alloc: Global,
        a: &Small<S>,
        b: &Small<S>,
    ) -> Result<Small<S>, AllocError> {
        match self.name {
            Mult::Plain => Plain.mul_3(alloc, a, b),
            Mult::Karatsuba => Karatsuba.mul_3(alloc, a, b),
            Mult::Lanes => Lanes.mul_3(alloc, a, b),
        }
    }
}
