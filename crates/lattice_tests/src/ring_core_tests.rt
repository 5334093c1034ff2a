use crate::examples::{PRODUCTS_761, PRODUCTS_857, assert_dense, assert_products, filled};
use crate::expected::{assert_at, assert_same};
use ring_core::{Plain, Rq, Small, Sntrup761, Sntrup857};

const P: usize = 761;

#[test]
fn products_are_those_of_the_ring(rt: HostRuntime) {
    assert_products::<Sntrup761, Plain>(&rt, rt.alloc(), &Plain, &PRODUCTS_761);
    assert_products::<Sntrup857, Plain>(&rt, rt.alloc(), &Plain, &PRODUCTS_857);
}

#[test]
fn the_largest_coefficients_are_multiplied(rt: HostRuntime) {
    assert_dense::<Sntrup761, Plain>(&rt, rt.alloc(), &Plain);
    assert_dense::<Sntrup857, Plain>(&rt, rt.alloc(), &Plain);
}

// Own, by Python 3.11.7: (n + 2295) % 4591 - 2295.
static RESIDUES: [(i32, i32); 8] = [
    (0, 0),
    (2295, 2295),
    (2296, -2295),
    (-2295, -2295),
    (-2296, 2295),
    (4591, 0),
    (i32::MAX, 2078),
    (i32::MIN, -2079),
];

#[test]
fn coefficients_are_centred(rt: HostRuntime) {
    for (number, residue) in RESIDUES {
        let made = Rq::from_coefficients(rt.alloc(), &[number; P]);
        let element: Rq<Sntrup761> = made.expect(&rt, "memory");
        assert_at(&rt, element.coefficient(760), residue, "number", number);
    }
}

#[test]
fn a_vector_of_coefficients_is_kept(rt: HostRuntime) {
    let element: Small<Sntrup761> = Small::from_vec(filled(&rt, rt.alloc(), -1, P));
    assert_same(&rt, element.weight(), P, "weight");
    assert_same(&rt, element.coefficient(760), -1, "coefficient 760");
}
