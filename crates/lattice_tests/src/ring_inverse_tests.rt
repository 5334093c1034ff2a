ghost use Rattle.std.specs.Prelude.{◌≤◌, unsigned_abs};

use crate::expected::{assert_at, assert_same};
use rand_words::{SeedStream, short_random, small_random};
use ring_core::{Multiplier, Params, Plain, Rq, Small, Sntrup761, Sntrup857};
use ring_inverse::quick::{quick_3, quick_3f};
use ring_inverse::{Reciprocal, reciprocal_3, reciprocal_3f};
use std::alloc::{AllocError as OutOfMemory, Global};
use std::process::Abort;

const P: usize = 761;

// Some coefficients by their places. The others are 0, where the list is whole.
type Places = &'static [(usize, i32)];

enum Want {
    Inverse(Places),
    Annihilator,
}

struct ReciprocalCase {
    source: &'static str,
    element: &'static [i8],
    modulo_3: Want,
    modulo_q: Want,
}

static RECIPROCALS_761: [ReciprocalCase; 3] = [
    ReciprocalCase {
        source: "own, by hand: x (x^760 - 1) = x^761 - x = 1, and 3 * 1530 = -1 modulo 4591",
        element: &[0, 1],
        modulo_3: Want::Inverse(&[(0, -1), (760, 1)]),
        modulo_q: Want::Inverse(&[(0, 1530), (760, -1530)]),
    },
    ReciprocalCase {
        source: "own, by hand: 1 is its own inverse, and 3 * -1530 = 1 modulo 4591",
        element: &[1],
        modulo_3: Want::Inverse(&[(0, 1)]),
        modulo_q: Want::Inverse(&[(0, -1530)]),
    },
    ReciprocalCase {
        source: "own, by hand: 0 has no inverse",
        element: &[],
        modulo_3: Want::Annihilator,
        modulo_q: Want::Annihilator,
    },
];

static RECIPROCALS_857: [ReciprocalCase; 1] = [ReciprocalCase {
    source: "own, by hand: x (x^856 - 1) = x^857 - x = 1, and 3 * 1722 = -1 modulo 5167",
    element: &[0, 1],
    modulo_3: Want::Inverse(&[(0, -1), (856, 1)]),
    modulo_q: Want::Inverse(&[(0, 1722), (856, -1722)]),
}];

// A factor of x^761 - x - 1 modulo 3, of the least degree that one has, from x^0 on. Found by the
// distinct degrees of its factors in Python 3.11.7, and checked by sympy 1.14.0, which divides
// Poly(x**761 - x - 1, x, modulus=3) by it without remainder.
static FACTOR_761: [i8; 20] = [
    -1, -1, 0, -1, -1, -1, 1, -1, 1, -1, 0, -1, 1, 1, 1, 1, -1, 0, 1, 1,
];

// The same of x^857 - x - 1, found in the same way.
static FACTOR_857: [i8; 26] = [
    1, 0, 0, 1, -1, 0, 0, 0, 1, 1, 1, -1, 0, -1, 1, -1, -1, 0, 0, 1, 1, 0, 1, -1, 0, 1,
];

// Coefficients of the inverses of `dense`, by the extended Euclid of x^761 - x - 1 and the element
// over the field, in Python 3.11.7.
const DENSE_MODULO_3: Places = &[(0, -1), (1, -1), (2, -1), (380, 1), (759, 0), (760, -1)];

const DENSE_MODULO_Q: Places = &[
    (0, 469),
    (1, -2054),
    (2, 2167),
    (380, -358),
    (759, 304),
    (760, 2036),
];

// The element whose coefficient at k is (k k + k / 7) mod 3, less 1.
fn dense() -> [i8; 761] {
    let mut list = [0i8; P];
    for k in 0..P {
        list[k] = ((k * k + k / 7) % 3) as i8 - 1;
    }
    list
}

fn sign(number: i8) -> i8
    ensures { unsigned_abs result ≤ 1 }
{
    number.signum()
}

fn made<S: Params>(alloc: Global, front: &[i8]) -> Result<Small<S>, OutOfMemory> {
    let mut list = Vec::with_capacity(alloc, S::P)?;
    for k in 0..S::P {
        list.push(if k < front.len() { sign(front[k]) } else { 0 })?;
    }
    Ok(Small::from_vec(list))
}

// The element that begins with the signs of these numbers.
fn element<S: Params>(rt: &impl Abort, alloc: Global, front: &[i8]) -> Small<S> {
    made(alloc, front).expect(rt, "memory")
}

fn number_at(places: Places, k: usize) -> i32 {
    for (place, number) in places {
        if *place == k {
            return *number;
        }
    }
    0
}

fn is_inverse(want: &Want) -> bool {
    match want {
        Want::Inverse(_) => true,
        Want::Annihilator => false,
    }
}

// No contract says that a candidate is right: a wrong one costs the time of an elimination.
fn assert_quick_3<S: Params>(
    rt: &impl Abort,
    alloc: Global,
    a: &Small<S>,
    found: bool,
    what: &str,
) {
    let quick = quick_3(alloc, &Plain, a).expect(rt, "memory");
    assert_same(rt, quick.is_some(), found, what);
}

fn assert_quick_3f<S: Params>(
    rt: &impl Abort,
    alloc: Global,
    f: &Small<S>,
    found: bool,
    what: &str,
) {
    let quick = quick_3f(alloc, &Plain, f).expect(rt, "memory");
    assert_same(rt, quick.is_some(), found, what);
}

fn places_of(rt: &impl Abort, want: &Want, source: &str) -> Places {
    match want {
        Want::Inverse(places) => *places,
        Want::Annihilator => panic!(rt; "{source}"),
    }
}

fn assert_inverse_3<S: Params>(rt: &impl Abort, v: &Small<S>, want: &Want, source: &str) {
    let places = places_of(rt, want, source);
    for k in 0..S::P {
        let number = i32::from(v.coefficient(k));
        assert_at(rt, number, number_at(places, k), source, k);
    }
}

fn assert_inverse_q<S: Params>(rt: &impl Abort, v: &Rq<S>, want: &Want, source: &str) {
    let places = places_of(rt, want, source);
    for k in 0..S::P {
        assert_at(rt, v.coefficient(k), number_at(places, k), source, k);
    }
}

fn assert_modulo_3<S: Params>(rt: &impl Abort, alloc: Global, case: &ReciprocalCase) {
    let (source, want) = (case.source, &case.modulo_3);
    let a: Small<S> = element(rt, alloc, case.element);
    assert_quick_3(rt, alloc, &a, is_inverse(want), source);
    match &reciprocal_3(alloc, &Plain, &a).expect(rt, "memory") {
        Reciprocal::Inverse(v) => assert_inverse_3(rt, v, want, source),
        Reciprocal::Annihilator(u) => {
            assert_same(rt, is_inverse(want), false, source);
            assert!(rt; u.weight() > 0, "{source}");
        }
    }
}

fn assert_modulo_q<S: Params>(rt: &impl Abort, alloc: Global, case: &ReciprocalCase) {
    let (source, want) = (case.source, &case.modulo_q);
    let f: Small<S> = element(rt, alloc, case.element);
    assert_quick_3f(rt, alloc, &f, is_inverse(want), source);
    match &reciprocal_3f(alloc, &Plain, &f).expect(rt, "memory") {
        Reciprocal::Inverse(v) => assert_inverse_q(rt, v, want, source),
        Reciprocal::Annihilator(_) => assert_same(rt, is_inverse(want), false, source),
    }
}

#[test]
fn reciprocals_are_those_by_hand(rt: HostRuntime) {
    for case in &RECIPROCALS_761 {
        assert_modulo_3::<Sntrup761>(&rt, rt.alloc(), case);
        assert_modulo_q::<Sntrup761>(&rt, rt.alloc(), case);
    }
    for case in &RECIPROCALS_857 {
        assert_modulo_3::<Sntrup857>(&rt, rt.alloc(), case);
        assert_modulo_q::<Sntrup857>(&rt, rt.alloc(), case);
    }
}

fn assert_annihilated<S: Params>(rt: &impl Abort, alloc: Global, factor: &[i8]) {
    let a: Small<S> = element(rt, alloc, factor);
    match &reciprocal_3(alloc, &Plain, &a).expect(rt, "memory") {
        Reciprocal::Annihilator(u) => {
            assert!(rt; u.weight() > 0);
            let product = Plain.mul_3(alloc, u, &a).expect(rt, "memory");
            assert_same(rt, product.weight(), 0, "weight of the product");
        }
        Reciprocal::Inverse(_) => assert!(rt; false),
    }
}

#[test]
fn a_factor_of_the_modulus_has_an_annihilator(rt: HostRuntime) {
    assert_annihilated::<Sntrup761>(&rt, rt.alloc(), &FACTOR_761);
    assert_annihilated::<Sntrup857>(&rt, rt.alloc(), &FACTOR_857);
}

fn assert_dense_modulo_3(rt: &impl Abort, alloc: Global, a: &Small<Sntrup761>) {
    let found = quick_3(alloc, &Plain, a).expect(rt, "memory");
    let v = found.expect(rt, "an inverse");
    for (k, number) in DENSE_MODULO_3 {
        assert!(rt; *k < P);
        assert_at(rt, i32::from(v.coefficient(*k)), *number, "coefficient", k);
    }
}

fn assert_dense_modulo_q(rt: &impl Abort, alloc: Global, a: &Small<Sntrup761>) {
    match &reciprocal_3f(alloc, &Plain, a).expect(rt, "memory") {
        Reciprocal::Inverse(v) => {
            for (k, number) in DENSE_MODULO_Q {
                assert!(rt; *k < P);
                assert_at(rt, v.coefficient(*k), *number, "coefficient", k);
            }
        }
        Reciprocal::Annihilator(_) => assert!(rt; false),
    }
}

#[test]
fn a_dense_element_has_its_inverses(rt: HostRuntime) {
    let a: Small<Sntrup761> = element(&rt, rt.alloc(), &dense());
    assert_quick_3f(&rt, rt.alloc(), &a, true, "dense");
    assert_dense_modulo_3(&rt, rt.alloc(), &a);
    assert_dense_modulo_q(&rt, rt.alloc(), &a);
}

// No contract says that the division steps find the inverses of what KeyGen draws.
fn assert_found<S: Params>(rt: &impl Abort, alloc: Global, seed: u8) {
    let g = small_random(alloc, &mut SeedStream::new(&[seed; 32], 0));
    assert_quick_3::<S>(rt, alloc, &g.expect(rt, "memory"), true, "g");
    let f = short_random(alloc, &mut SeedStream::new(&[seed; 32], 1));
    assert_quick_3f::<S>(rt, alloc, &f.expect(rt, "memory"), true, "f");
}

#[test]
fn the_steps_find_inverses_of_drawn_elements(rt: HostRuntime) {
    for seed in 0..4 {
        assert_found::<Sntrup761>(&rt, rt.alloc(), seed);
        assert_found::<Sntrup857>(&rt, rt.alloc(), seed);
    }
}
