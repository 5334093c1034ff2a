ghost use Rattle.std.specs.Prelude.{◌≡◌, vec_len};
ghost use Rattle.radix_pack.specs.Codings.{small_length};

use crate::expected::{assert_at, assert_same};
use radix_pack::{small_decode, small_encode};
use ring_core::{Params, Small, Sntrup761, Sntrup857};
use std::alloc::Global;
use std::process::Abort;

// A small coding, whose last byte has one coefficient in both sets: the first byte, bytes alike,
// the last byte; and the coefficients, a pattern of four.
struct SmallCase {
    source: &'static str,
    first: u8,
    middle: u8,
    last: u8,
    coefficients: Option<[i8; 4]>,
}

static SMALL_CASES: [SmallCase; 5] = [
    SmallCase {
        source: "own, by hand: spare bits after the last coefficient",
        first: 0x55,
        middle: 0x55,
        last: 0x55,
        coefficients: None,
    },
    SmallCase {
        source: "own, by hand: each digit 1",
        first: 0x55,
        middle: 0x55,
        last: 0x01,
        coefficients: Some([0, 0, 0, 0]),
    },
    SmallCase {
        source: "own, by hand: the digit 3",
        first: 0x03,
        middle: 0x00,
        last: 0x00,
        coefficients: None,
    },
    SmallCase {
        source: "own, by hand: 0 + 4 * 1 + 16 * 2 + 64 * 1",
        first: 0x64,
        middle: 0x64,
        last: 0x00,
        coefficients: Some([-1, 0, 1, 0]),
    },
    SmallCase {
        source: "own, by hand: 2 + 4 * 2 + 16 * 2 + 64 * 2",
        first: 0xaa,
        middle: 0xaa,
        last: 0x02,
        coefficients: Some([1, 1, 1, 1]),
    },
];

fn small_case<S: Params>(rt: &impl Abort, alloc: Global, case: &SmallCase) -> Vec<u8>
    ensures { vec_len result ≡ small_length S.set.p }
{
    let mut bytes = vec![in alloc; case.middle; S::P.div_ceil(4)].expect(rt, "memory");
    if let [first, .., last] = &mut bytes[..] {
        *first = case.first;
        *last = case.last;
    }
    bytes
}

// The element has these coefficients, and encodes to the bytes.
fn assert_element<S: Params>(
    rt: &impl Abort,
    alloc: Global,
    element: &Small<S>,
    pattern: &[i8; 4],
    bytes: &[u8],
    source: &str,
) {
    for i in 0..S::P {
        assert_at(rt, element.coefficient(i), pattern[i % 4], source, i);
    }
    let encoded = small_encode(alloc, element).expect(rt, "memory");
    assert_same(rt, encoded.as_slice(), bytes, source);
}

fn assert_small<S: Params>(rt: &impl Abort, alloc: Global, case: &SmallCase) {
    let source = case.source;
    let bytes = small_case::<S>(rt, alloc, case);
    let decoded: Option<Small<S>> = small_decode(alloc, &bytes).expect(rt, "memory");
    match (&decoded, &case.coefficients) {
        (Some(element), Some(pattern)) => {
            assert_element(rt, alloc, element, pattern, &bytes, source);
        }
        (None, None) => {}
        _ => assert!(rt; false, "{source}"),
    }
}

#[test]
fn small_elements_decode_where_they_are_well_formed(rt: HostRuntime) {
    for case in &SMALL_CASES {
        assert_small::<Sntrup761>(&rt, rt.alloc(), case);
        assert_small::<Sntrup857>(&rt, rt.alloc(), case);
    }
}
