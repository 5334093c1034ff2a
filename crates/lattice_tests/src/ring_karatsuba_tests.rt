use crate::examples::{PRODUCTS_761, PRODUCTS_857, assert_dense, assert_products};
use ring_core::{Sntrup761, Sntrup857};
use ring_karatsuba::Karatsuba;

#[test]
fn products_are_those_of_the_ring(rt: HostRuntime) {
    assert_products::<Sntrup761, Karatsuba>(&rt, rt.alloc(), &Karatsuba, &PRODUCTS_761);
    assert_products::<Sntrup857, Karatsuba>(&rt, rt.alloc(), &Karatsuba, &PRODUCTS_857);
}

#[test]
fn the_largest_coefficients_are_multiplied(rt: HostRuntime) {
    assert_dense::<Sntrup761, Karatsuba>(&rt, rt.alloc(), &Karatsuba);
    assert_dense::<Sntrup857, Karatsuba>(&rt, rt.alloc(), &Karatsuba);
}
