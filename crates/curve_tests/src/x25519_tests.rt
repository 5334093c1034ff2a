//! RFC 7748, 5.2 and 6.1, strings that are no canonical coding, and the points of small order.

use crate::expected::{assert_key, key_of};
use std::process::Abort;
use x25519::x25519;

struct Case {
    source: &'static str,
    scalar: &'static str,
    u: &'static str,
    output: &'static str,
}

static CASES: [Case; 9] = [
    Case {
        source: "RFC 7748, 5.2, first",
        scalar: "a546e36bf0527c9d3b16154b82465edd62144c0ac1fc5a18506a2244ba449ac4",
        u: "e6db6867583030db3594c1a424b15f7c726624ec26b3353b10a903a6d0ab1c4c",
        output: "c3da55379de9c6908e94ea4df28d084f32eccf03491c71f754b4075577a28552",
    },
    Case {
        source: "RFC 7748, 5.2, second",
        scalar: "4b66e9d4d1b4673c5ad22691957d6af5c11b6421e0ea01d42ca4169e7918ba0d",
        u: "e5210f12786811d3f4b7959d0538ae2c31dbe7106fc03c3efc4cd549c715a493",
        output: "95cbde9476e8907d7aade45cb4b873f88b595a68799fa152e6f8f7647aac7957",
    },
    Case {
        source: "RFC 7748, 6.1, Alice's public key",
        scalar: "77076d0a7318a57d3c16c17251b26645df4c2f87ebc0992ab177fba51db92c2a",
        u: "0900000000000000000000000000000000000000000000000000000000000000",
        output: "8520f0098930a754748b7ddcb43ef75a0dbf3a0d26381af4eba4a98eaa9b4e6a",
    },
    Case {
        source: "RFC 7748, 6.1, Bob's public key",
        scalar: "5dab087e624a8a4b79e17f8b83800ee66f3bb1292618b6fd1c2f8b27ff88e0eb",
        u: "0900000000000000000000000000000000000000000000000000000000000000",
        output: "de9edb7d7b7dc1b4d35b61c2ece435373f8343c85b78674dadfc7e146f882b4f",
    },
    Case {
        source: "RFC 7748, 6.1, Alice's shared secret",
        scalar: "77076d0a7318a57d3c16c17251b26645df4c2f87ebc0992ab177fba51db92c2a",
        u: "de9edb7d7b7dc1b4d35b61c2ece435373f8343c85b78674dadfc7e146f882b4f",
        output: "4a5d9d5ba4ce2de1728e3bf480350f25e07e21c947d19e3376f09b3c1e161742",
    },
    Case {
        source: "RFC 7748, 6.1, Bob's shared secret",
        scalar: "5dab087e624a8a4b79e17f8b83800ee66f3bb1292618b6fd1c2f8b27ff88e0eb",
        u: "8520f0098930a754748b7ddcb43ef75a0dbf3a0d26381af4eba4a98eaa9b4e6a",
        output: "4a5d9d5ba4ce2de1728e3bf480350f25e07e21c947d19e3376f09b3c1e161742",
    },
    Case {
        source: "own: p + 9 is 9 (RFC 7748, 5), so Alice's public key of 6.1",
        scalar: "77076d0a7318a57d3c16c17251b26645df4c2f87ebc0992ab177fba51db92c2a",
        u: "f6ffffffffffffffffffffffffffffffffffffffffffffffffffffffffffff7f",
        output: "8520f0098930a754748b7ddcb43ef75a0dbf3a0d26381af4eba4a98eaa9b4e6a",
    },
    Case {
        source: "own: the same with the highest bit, which is left out (RFC 7748, 5)",
        scalar: "77076d0a7318a57d3c16c17251b26645df4c2f87ebc0992ab177fba51db92c2a",
        u: "f6ffffffffffffffffffffffffffffffffffffffffffffffffffffffffffffff",
        output: "8520f0098930a754748b7ddcb43ef75a0dbf3a0d26381af4eba4a98eaa9b4e6a",
    },
    Case {
        source: "own: 2^255 - 1 is 18, by cryptography 48.0.0 of both",
        scalar: "77076d0a7318a57d3c16c17251b26645df4c2f87ebc0992ab177fba51db92c2a",
        u: "ffffffffffffffffffffffffffffffffffffffffffffffffffffffffffffff7f",
        output: "359668d79a67267a57ffef8f0f4a9882a7c0e3122cb1999c5626346383f9f811",
    },
];

fn assert_case(rt: &impl Abort, case: &Case) {
    let got = x25519(&key_of(rt, case.scalar), &key_of(rt, case.u));
    assert_key(rt, &got, case.output, case.source);
}

#[test]
fn outputs_are_those_published(rt: HostRuntime) {
    for case in &CASES {
        assert_case(&rt, case);
    }
}

// RFC 7748, 5.2: k and u are 9 at first, then u is k and k is the output.
fn iterated(rt: &impl Abort, turns: u32) -> [u8; 32] {
    let mut k = key_of(
        rt,
        "0900000000000000000000000000000000000000000000000000000000000000",
    );
    let mut u = k;
    for _turn in 0..turns {
        let next = x25519(&k, &u);
        u = k;
        k = next;
    }
    k
}

#[test]
fn iterated_outputs_are_those_published(rt: HostRuntime) {
    assert_key(
        &rt,
        &iterated(&rt, 1),
        "422c8e7a6227d7bca1350b3e2bb7279f7897b87bb6854b783c60e80311ae3079",
        "RFC 7748, 5.2, after one iteration",
    );
    assert_key(
        &rt,
        &iterated(&rt, 1000),
        "684cf59ba83309552800ef566f2f4d3c1c3887c49360e3875f2eb94d99532c51",
        "RFC 7748, 5.2, after 1,000 iterations",
    );
}

// The u-coordinates of small order below 2^255 (cr.yp.to/ecdh.html, "How do I validate Curve25519 public
// keys?"): 0, 1, two of order 8, p - 1, p and p + 1.
static SMALL_ORDER: [&str; 7] = [
    "0000000000000000000000000000000000000000000000000000000000000000",
    "0100000000000000000000000000000000000000000000000000000000000000",
    "e0eb7a7c3b41b8ae1656e3faf19fc46ada098deb9c32b1fd866205165f49b800",
    "5f9c95bca3508c24b1d0b1559c83ef5b04445cc4581c8e86d8224eddd09f1157",
    "ecffffffffffffffffffffffffffffffffffffffffffffffffffffffffffff7f",
    "edffffffffffffffffffffffffffffffffffffffffffffffffffffffffffff7f",
    "eeffffffffffffffffffffffffffffffffffffffffffffffffffffffffffff7f",
];

// The output is zero, and with the highest bit of u, which is left out, too.
fn assert_zero(rt: &impl Abort, u: &str) {
    let scalar = key_of(rt, CASES[0].scalar);
    let mut u = key_of(rt, u);
    let zeros = SMALL_ORDER[0];
    assert_key(rt, &x25519(&scalar, &u), zeros, "small order");
    u[31] |= 128;
    assert_key(rt, &x25519(&scalar, &u), zeros, "with the highest bit");
}

#[test]
fn points_of_small_order_give_zero(rt: HostRuntime) {
    for u in &SMALL_ORDER {
        assert_zero(&rt, u);
    }
}
