ghost use Rattle.std.specs.Prelude.{◌<◌, IsTrue, length};
ghost use Rattle.radix_pack.specs.Radix.{AreRadices, AreBelow};

use super::{Runs, TOOL, bytes_of};
use crate::expected::assert_at;
use radix_pack::{decode, encode};
use std::alloc::Global;
use std::process::Abort;

struct RadixCase {
    source: &'static str,
    // Patterns, which are repeated up to `count`.
    digits: &'static [u16],
    radices: &'static [u16],
    count: usize,
    bytes: Runs,
}

static RADIX_CASES: [RadixCase; 16] = [
    RadixCase {
        source: "own, by hand, level by level",
        digits: &[4590],
        radices: &[4591],
        count: 761,
        bytes: &[
            (380, "209d"),
            (190, "03"),
            (95, "e3"),
            (47, "0f"),
            (1, "3b"),
            (23, "38"),
            (1, "f5ae"),
            (11, "70d2"),
            (1, "ed"),
            (5, "3f"),
            (1, "5f61"),
            (2, "78db"),
            (1, "e1"),
            (1, "b8"),
            (1, "11dc"),
            (1, "4706"),
        ],
    },
    RadixCase {
        source: TOOL,
        digits: &[5166],
        radices: &[5167],
        count: 857,
        bytes: &[
            (428, "a060"),
            (214, "3f"),
            (107, "78"),
            (53, "3f"),
            (1, "0790"),
            (26, "f039"),
            (1, "0a"),
            (13, "3f"),
            (6, "90f8"),
            (1, "dc36"),
            (3, "4373"),
            (1, "37"),
            (1, "ab"),
            (1, "5018"),
        ],
    },
    RadixCase {
        source: TOOL,
        digits: &[0],
        radices: &[1],
        count: 1,
        bytes: &[],
    },
    RadixCase {
        source: TOOL,
        digits: &[1],
        radices: &[2],
        count: 1,
        bytes: &[(1, "01")],
    },
    RadixCase {
        source: TOOL,
        digits: &[254],
        radices: &[255],
        count: 1,
        bytes: &[(1, "fe")],
    },
    RadixCase {
        source: TOOL,
        digits: &[255],
        radices: &[256],
        count: 1,
        bytes: &[(1, "ff")],
    },
    RadixCase {
        source: TOOL,
        digits: &[256],
        radices: &[257],
        count: 1,
        bytes: &[(1, "0001")],
    },
    RadixCase {
        source: TOOL,
        digits: &[16382],
        radices: &[16383],
        count: 1,
        bytes: &[(1, "fe3f")],
    },
    RadixCase {
        source: TOOL,
        digits: &[0, 1],
        radices: &[1, 2],
        count: 2,
        bytes: &[(1, "01")],
    },
    RadixCase {
        source: TOOL,
        digits: &[3, 16382],
        radices: &[257, 16383],
        count: 2,
        bytes: &[(1, "013e"), (1, "40")],
    },
    RadixCase {
        source: TOOL,
        digits: &[16382, 0, 200],
        radices: &[16383, 1, 255],
        count: 3,
        bytes: &[(1, "36"), (1, "3f32")],
    },
    RadixCase {
        source: TOOL,
        digits: &[200, 256, 0],
        radices: &[256, 257, 2],
        count: 3,
        bytes: &[(1, "c8"), (1, "0001")],
    },
    RadixCase {
        source: TOOL,
        digits: &[1, 254, 255, 256, 0, 16382, 1],
        radices: &[2, 255, 256, 257, 1, 16383, 2],
        count: 7,
        bytes: &[(1, "ff"), (2, "fd"), (1, "ff"), (1, "ff")],
    },
    RadixCase {
        source: TOOL,
        digits: &[17, 16000],
        radices: &[16383, 16383],
        count: 761,
        bytes: &[
            (380, "91c1"),
            (190, "9fff"),
            (95, "f9"),
            (48, "f9"),
            (24, "f9"),
            (12, "f9"),
            (6, "f9"),
            (3, "f9"),
            (1, "f9"),
            (1, "f9"),
            (1, "1100"),
        ],
    },
    RadixCase {
        source: TOOL,
        digits: &[1, 0],
        radices: &[2, 1],
        count: 761,
        bytes: &[
            (23, "ff"),
            (12, "ff"),
            (6, "ff"),
            (3, "ff"),
            (1, "ff"),
            (1, "ff"),
            (1, "ff1f"),
        ],
    },
    RadixCase {
        source: TOOL,
        digits: &[0],
        radices: &[1],
        count: 761,
        bytes: &[],
    },
];

// By a function, since one that names the table is proved over all its rows.
fn radix_cases() -> &'static [RadixCase; 16] {
    &RADIX_CASES
}

fn repeated(rt: &impl Abort, alloc: Global, pattern: &[u16], count: usize) -> Vec<u16> {
    let mut list = Vec::new(alloc);
    for _ in 0..count {
        for number in pattern {
            if list.len() < count {
                list.push(*number).expect(rt, "memory");
            }
        }
    }
    list
}

fn are_radices(radices: &[u16]) -> bool
    ensures { IsTrue result → AreRadices radices.now }
{
    radices.iter().all(|radix| 1 <= *radix && *radix < 16384)
}

fn are_below(digits: &[u16], radices: &[u16]) -> bool
    ensures { IsTrue result → AreBelow digits.now radices.now }
{
    if digits.len() != radices.len() {
        return false;
    }
    for i in 0..radices.len() {
        if digits[i] >= radices[i] {
            return false;
        }
    }
    true
}

fn assert_coding(
    rt: &impl Abort,
    alloc: Global,
    case: &RadixCase,
    digits: &[u16],
    radices: &[u16],
    bytes: &[u8],
)
    requires digits { AreBelow digits.now radices.now }
    requires radices { AreRadices radices.now × (0 < length radices.now) }
{
    let at = (case.source, case.count);
    let encoded = encode(alloc, digits, radices).expect(rt, "memory");
    assert_at(rt, encoded.as_slice(), bytes, "bytes", at);
    let decoded = decode(alloc, encoded.as_slice(), radices).expect(rt, "memory");
    assert_at(rt, decoded.as_slice(), digits, "digits", at);
}

fn assert_radix_case(rt: &impl Abort, alloc: Global, case: &RadixCase) {
    let digits = repeated(rt, alloc, case.digits, case.count);
    let radices = repeated(rt, alloc, case.radices, case.count);
    assert!(rt; radices.len() > 0);
    assert!(rt; are_radices(&radices));
    assert!(rt; are_below(&digits, &radices));
    let bytes = bytes_of(rt, alloc, case.bytes);
    assert_coding(rt, alloc, case, &digits, &radices, &bytes);
}

#[test]
fn digits_encode_as_the_standard_says_and_decode(rt: HostRuntime) {
    for case in radix_cases() {
        assert_radix_case(&rt, rt.alloc(), case);
    }
}
