use crate::examples::{PRODUCTS_761, PRODUCTS_857, Places, assert_dense, assert_products};
use crate::expected::assert_at;
use ring_core::{Multiplier, Plain, Rq, Small, Sntrup761, Sntrup857};
use ring_lanes::Lanes;
use std::alloc::Global;
use std::process::Abort;

#[test]
fn products_are_those_of_the_ring(rt: HostRuntime) {
    assert_products::<Sntrup761, Lanes>(&rt, rt.alloc(), &Lanes, &PRODUCTS_761);
    assert_products::<Sntrup857, Lanes>(&rt, rt.alloc(), &Lanes, &PRODUCTS_857);
}

#[test]
fn the_largest_coefficients_are_multiplied(rt: HostRuntime) {
    assert_dense::<Sntrup761, Lanes>(&rt, rt.alloc(), &Lanes);
    assert_dense::<Sntrup857, Lanes>(&rt, rt.alloc(), &Lanes);
}

// Most coefficients of its eighth power aren't 0.
static SPARSE: Places = Places {
    ones: &[0, 3, 17, 54, 121, 300, 455, 601, 702],
    minus_ones: &[1, 30, 77, 200, 333, 500, 650, 760],
};

fn eighth_power(rt: &impl Abort, alloc: Global) -> Small<Sntrup761> {
    let mut power: Small<Sntrup761> = SPARSE.small(rt, alloc);
    for _ in 0..3 {
        power = Plain.mul_3(alloc, &power, &power).expect(rt, "memory");
    }
    power
}

// The element whose coefficient at k is 1000 k.
fn long(rt: &impl Abort, alloc: Global) -> Rq<Sntrup761> {
    let mut numbers = [0i32; 761];
    for k in 0..761 {
        numbers[k] = 1000 * k as i32;
    }
    Rq::from_coefficients(alloc, &numbers).expect(rt, "memory")
}

fn assert_dense_in_q(rt: &impl Abort, alloc: Global, dense: &Small<Sntrup761>) {
    let long = long(rt, alloc);
    let in_q = Lanes.mul_q_small(alloc, &long, dense).expect(rt, "memory");
    let plain = Plain.mul_q_small(alloc, &long, dense).expect(rt, "memory");
    for k in 0..761 {
        let want = plain.coefficient(k);
        assert_at(rt, in_q.coefficient(k), want, "in R/q", k);
    }
}

fn assert_dense_in_3(rt: &impl Abort, alloc: Global, dense: &Small<Sntrup761>) {
    let sparse: Small<Sntrup761> = SPARSE.small(rt, alloc);
    let in_3 = Lanes.mul_3(alloc, &sparse, dense).expect(rt, "memory");
    let plain = Plain.mul_3(alloc, &sparse, dense).expect(rt, "memory");
    for k in 0..761 {
        let want = plain.coefficient(k);
        assert_at(rt, in_3.coefficient(k), want, "in R/3", k);
    }
}

#[test]
fn dense_products_are_those_of_the_plain_multiplier(rt: HostRuntime) {
    let dense = eighth_power(&rt, rt.alloc());
    assert!(rt; dense.weight() > 400);
    assert_dense_in_q(&rt, rt.alloc(), &dense);
    assert_dense_in_3(&rt, rt.alloc(), &dense);
}
