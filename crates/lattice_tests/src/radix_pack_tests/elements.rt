ghost use Rattle.std.specs.Prelude.{◌≡◌, length};
ghost use Rattle.radix_pack.specs.Codings.{rounded_length};

use super::{Runs, TOOL, bytes_of};
use crate::expected::{assert_at, assert_same};
use radix_pack::{rounded_decode, rounded_encode, rq_decode, rq_encode};
use ring_core::{Params, Rq, Sntrup761, Sntrup857};
use std::alloc::Global;
use std::process::Abort;

// An element with one coefficient throughout: its coding's length, first bytes and last.
struct RqCase {
    source: &'static str,
    coefficient: i32,
    length: usize,
    first: [u8; 4],
    last: [u8; 6],
}

static RQ_761: [RqCase; 2] = [
    RqCase {
        source: "own, by hand: all digits are 0",
        coefficient: -2295,
        length: 1158,
        first: [0; 4],
        last: [0; 6],
    },
    RqCase {
        source: "own, by hand: all digits are 4590, the first row of RADIX_CASES",
        coefficient: 2295,
        length: 1158,
        first: [0x20, 0x9d, 0x20, 0x9d],
        last: [0xe1, 0xb8, 0x11, 0xdc, 0x47, 0x06],
    },
];

static RQ_857: [RqCase; 2] = [
    RqCase {
        source: "own, by hand: all digits are 0",
        coefficient: -2583,
        length: 1322,
        first: [0; 4],
        last: [0; 6],
    },
    RqCase {
        source: "own, by tool: all digits are 5166, the second row of RADIX_CASES",
        coefficient: 2583,
        length: 1322,
        first: [0xa0, 0x60, 0xa0, 0x60],
        last: [0x43, 0x73, 0x37, 0xab, 0x50, 0x18],
    },
];

fn assert_rq_bytes(rt: &impl Abort, bytes: &[u8], case: &RqCase) {
    let source = case.source;
    assert_same(rt, bytes.len(), case.length, source);
    assert!(rt; bytes.starts_with(&case.first), "{source}");
    assert!(rt; bytes.ends_with(&case.last), "{source}");
    if case.coefficient < 0 {
        assert!(rt; bytes.iter().all(|byte| *byte == 0), "{source}");
    }
}

fn assert_rq<S: Params>(rt: &impl Abort, alloc: Global, case: &RqCase) {
    let list = vec![in alloc; case.coefficient; S::P].expect(rt, "memory");
    let a: Rq<S> = Rq::from_coefficients(alloc, &list).expect(rt, "memory");
    let encoded = rq_encode(alloc, &a).expect(rt, "memory");
    let bytes = encoded.as_slice();
    assert_rq_bytes(rt, bytes, case);
    let decoded: Rq<S> = rq_decode(alloc, bytes).expect(rt, "memory");
    assert_same(rt, decoded.as_slice(), a.as_slice(), case.source);
}

#[test]
fn elements_encode_at_both_ends_of_the_range(rt: HostRuntime) {
    for case in &RQ_761 {
        assert_rq::<Sntrup761>(&rt, rt.alloc(), case);
    }
    for case in &RQ_857 {
        assert_rq::<Sntrup857>(&rt, rt.alloc(), case);
    }
}

// The bytes of a rounded element, the pattern of its digits, and (q - 1)/2.
struct RoundedCase {
    source: &'static str,
    digits: [i16; 2],
    half: i32,
    bytes: Runs,
}

static ROUNDED_761: RoundedCase = RoundedCase {
    source: TOOL,
    digits: [765, 766],
    half: 2295,
    bytes: &[
        (380, "07"),
        (190, "7091"),
        (95, "80"),
        (47, "82be"),
        (1, "82c1"),
        (23, "f0"),
        (1, "e2"),
        (11, "36"),
        (1, "e8"),
        (5, "0af5"),
        (1, "421f"),
        (2, "a0"),
        (1, "80"),
        (1, "36c9"),
        (1, "ed"),
        (1, "b706"),
    ],
};

static ROUNDED_857: RoundedCase = RoundedCase {
    source: TOOL,
    digits: [1, 1721],
    half: 2583,
    bytes: &[
        (428, "24"),
        (214, "32dc"),
        (107, "0638"),
        (1, "81"),
        (26, "0061"),
        (1, "80"),
        (13, "20"),
        (6, "0f"),
        (1, "63"),
        (3, "c3"),
        (1, "8f"),
        (1, "0f"),
        (1, "9465"),
        (1, "00"),
    ],
};

fn assert_rounded<S: Params>(rt: &impl Abort, alloc: Global, case: &RoundedCase, bytes: &[u8])
    requires { length bytes.now ≡ rounded_length S.set }
{
    let source = case.source;
    let element: Rq<S> = rounded_decode(alloc, bytes).expect(rt, "memory");
    for i in 0..S::P {
        let want = 3 * i32::from(case.digits[i % 2]);
        let number = element.coefficient(i).wrapping_add(case.half);
        assert_at(rt, number, want, source, i);
    }
    let encoded = rounded_encode(alloc, &element).expect(rt, "memory");
    assert_same(rt, encoded.as_slice(), bytes, source);
}

#[tactic(auto, using(radix_pack::proofs::Lengths::lengths))]
#[test]
fn rounded_elements_decode_and_encode(rt: HostRuntime) {
    let bytes = bytes_of(&rt, rt.alloc(), ROUNDED_761.bytes);
    assert!(rt; bytes.len() == 1007);
    assert_rounded::<Sntrup761>(&rt, rt.alloc(), &ROUNDED_761, &bytes);
    let bytes = bytes_of(&rt, rt.alloc(), ROUNDED_857.bytes);
    assert!(rt; bytes.len() == 1152);
    assert_rounded::<Sntrup857>(&rt, rt.alloc(), &ROUNDED_857, &bytes);
}
