ghost use Rattle.std.specs.Prelude.{◌≡◌, ◌-◌, ◌≤◌};

use crate::expected::{assert_at, assert_same};
use rand_words::{SeedStream, Words, short_random};
use ring_core::{Params, Plain, Small, Sntrup761, Sntrup857};
use sntrup_core::{KeyFault, PublicPoly, SecretPolys, decrypt, encrypt, keygen};
use std::alloc::Global;
use std::process::Abort;

// The key of stream 0 of 32 times the seed's byte, and c, to which the short r of stream 1 is
// encrypted: the first four coefficients, and the sum of k times coefficient k.
struct KeyCase {
    seed: u8,
    h: [i64; 5],
    f: [i64; 5],
    ginv: [i64; 5],
    r: [i64; 5],
    c: [i64; 5],
}

// By Python 3.11: tools/vectors/sntrup.py, which compares the bytes of these keys and ciphertexts
// with those of the C implementation of OpenSSH 9.2p1.
static KEYS_761: [KeyCase; 3] = [
    KeyCase {
        seed: 0,
        h: [542, 1558, 795, 1211, 12292550],
        f: [1, 0, 0, 0, -1906],
        ginv: [-1, 1, 0, 0, 1756],
        r: [0, -1, -1, 1, 8315],
        c: [306, 1341, 1425, -1200, 250788],
    },
    KeyCase {
        seed: 1,
        h: [-1080, 1276, -1926, -1886, -1373679],
        f: [1, -1, 0, -1, -10366],
        ginv: [-1, -1, -1, -1, 4691],
        r: [0, 1, -1, 0, -3093],
        c: [-1167, -1227, 1236, -1581, -13266561],
    },
    KeyCase {
        seed: 2,
        h: [57, 1023, 1406, -1460, 21626122],
        f: [0, -1, 0, 1, 6869],
        ginv: [1, 0, 1, 0, 2568],
        r: [-1, 0, -1, -1, 14353],
        c: [2151, 234, -2109, -1716, 10893009],
    },
];

// By the same tool, which compares their bytes with those of libntruprime 20241021.
static KEYS_857: [KeyCase; 3] = [
    KeyCase {
        seed: 0,
        h: [-1154, 1688, 675, -314, -38152363],
        f: [0, 0, 1, 1, -3876],
        ginv: [-1, 1, 0, 1, 1870],
        r: [0, -1, -1, 1, 7237],
        c: [-105, -1815, 1014, 363, -30239613],
    },
    KeyCase {
        seed: 1,
        h: [-1436, -1939, -735, 1609, 30461944],
        f: [1, 0, -1, 0, -22085],
        ginv: [1, 0, 1, 0, 13222],
        r: [0, 1, -1, 1, -2440],
        c: [1986, -1830, -429, -537, 10627452],
    },
    KeyCase {
        seed: 2,
        h: [-1193, -585, -742, -1518, 28900665],
        f: [0, -1, 0, 0, 5233],
        ginv: [-1, 0, 1, 1, -4762],
        r: [-1, 0, 0, -1, 16734],
        c: [2331, -822, -330, 789, 3359259],
    },
];

// The first four numbers, and the sum of k times number k.
fn mark_of(list: &[i16]) -> [i64; 5] {
    let mut mark = [0i64; 5];
    for (k, number) in list.iter().enumerate() {
        let number = i64::from(*number);
        if k < 4 {
            mark[k] = number;
        }
        mark[4] = mark[4].wrapping_add((k as i64).wrapping_mul(number));
    }
    mark
}

fn mark_of_small(list: &[i8]) -> [i64; 5] {
    let mut mark = [0i64; 5];
    for (k, number) in list.iter().enumerate() {
        let number = i64::from(*number);
        if k < 4 {
            mark[k] = number;
        }
        mark[4] = mark[4].wrapping_add((k as i64).wrapping_mul(number));
    }
    mark
}

fn key_of<S: Params>(rt: &impl Abort, alloc: Global, seed: u8) -> (PublicPoly<S>, SecretPolys<S>) {
    let made = keygen(alloc, &mut SeedStream::new(&[seed; 32], 0), &Plain);
    made.expect(rt, "a key")
}

fn short_of<S: Params>(rt: &impl Abort, alloc: Global, seed: u8) -> Small<S> {
    let drawn = short_random(alloc, &mut SeedStream::new(&[seed; 32], 1));
    drawn.expect(rt, "memory")
}

fn assert_key<S: Params>(
    rt: &impl Abort,
    case: &KeyCase,
    public: &PublicPoly<S>,
    secret: &SecretPolys<S>,
) {
    let seed = case.seed;
    let h = mark_of(public.h.as_slice());
    assert_at(rt, h, case.h, "h of seed", seed);
    let f = mark_of_small(secret.f.as_slice());
    assert_at(rt, f, case.f, "f of seed", seed);
    let ginv = mark_of_small(secret.ginv.as_slice());
    assert_at(rt, ginv, case.ginv, "1/g of seed", seed);
}

// Encrypts the short r of the case, and decrypts it.
fn assert_round_trip<S: Params>(
    rt: &impl Abort,
    alloc: Global,
    case: &KeyCase,
    public: &PublicPoly<S>,
    secret: &SecretPolys<S>,
) {
    let seed = case.seed;
    let r = short_of::<S>(rt, alloc, seed);
    assert_at(rt, mark_of_small(r.as_slice()), case.r, "r of seed", seed);
    let c = encrypt(alloc, &Plain, &r, public).expect(rt, "memory");
    assert_at(rt, mark_of(c.as_slice()), case.c, "c of seed", seed);
    let decrypted = decrypt(alloc, &Plain, &c, secret).expect(rt, "memory");
    assert_at(rt, decrypted.as_slice(), r.as_slice(), "seed", seed);
}

fn assert_case<S: Params>(rt: &impl Abort, alloc: Global, case: &KeyCase) {
    let (public, secret) = key_of::<S>(rt, alloc, case.seed);
    assert_key(rt, case, &public, &secret);
    assert_round_trip(rt, alloc, case, &public, &secret);
}

#[test]
fn keys_are_those_of_the_standard_and_decrypt_exactly(rt: HostRuntime) {
    for case in &KEYS_761 {
        assert_case::<Sntrup761>(&rt, rt.alloc(), case);
    }
    for case in &KEYS_857 {
        assert_case::<Sntrup857>(&rt, rt.alloc(), case);
    }
}

// A word in the middle third of 30 bits, which Small makes 0.
const MIDDLE: u32 = 1 << 29;

// A source that gives so many middle words, and then those of stream 0 of the zero seed.
#[derive(Drop)]
struct Late {
    middle: u64,
    given: u64,
    stream: SeedStream,
    ghost in_step: { stream.word_pos ≡ given - middle },
}

impl Words for Late {
    ghost use Rattle.std.specs.Prelude.{◌-◌, if◌then◌else◌, nat_lt};
    ghost use Rattle.rand_words.specs.ChaCha.{word_at};

    ghost place = { λ w. w.given };

    ghost word = { λ w i. (if nat_lt i w.middle then 536870912
        else word_at 10 w.stream.key w.stream.stream (i - w.middle)) };

    fn next_word(&mut self) -> u32 {
        if self.given < self.middle {
            self.given += 1;
            MIDDLE
        } else {
            let word = self.stream.next_word();
            self.given += 1;
            word
        }
    }
}

fn middle_then_stream(middle: u64) -> Late
    ensures { result.given ≡ 0 }
{
    Late {
        middle,
        given: 0,
        stream: SeedStream::new(&[0; 32], 0),
    }
}

// `count` is 64 p.
fn assert_exhausted<S: Params>(rt: &impl Abort, alloc: Global, count: u64) {
    let mut words = middle_then_stream(count);
    let made = keygen::<S, Late, Plain>(alloc, &mut words, &Plain);
    assert_at(rt, made.err(), Some(KeyFault::Exhausted), "words", count);
    assert_same(rt, words.given, count, "words taken");
}

#[test]
fn no_g_in_64_draws_is_exhausted(rt: HostRuntime) {
    assert_exhausted::<Sntrup761>(&rt, rt.alloc(), 48_704);
    assert_exhausted::<Sntrup857>(&rt, rt.alloc(), 54_848);
}

fn assert_drawn_again<S: Params>(rt: &impl Abort, alloc: Global, case: &KeyCase) {
    let mut words = middle_then_stream(S::P as u64);
    let made = keygen::<S, Late, Plain>(alloc, &mut words, &Plain);
    let (public, secret) = made.expect(rt, "a key");
    assert_key(rt, case, &public, &secret);
}

#[test]
fn a_zero_g_is_drawn_again(rt: HostRuntime) {
    assert_drawn_again::<Sntrup761>(&rt, rt.alloc(), &KEYS_761[0]);
    assert_drawn_again::<Sntrup857>(&rt, rt.alloc(), &KEYS_857[0]);
}

#[test]
fn each_fault_is_printed(rt: HostRuntime) {
    for (fault, text) in [
        (
            KeyFault::Exhausted,
            "no polynomial drawn for g has an inverse",
        ),
        (KeyFault::NoInverse, "3f has no inverse"),
        (KeyFault::OutOfMemory, "out of memory"),
    ] {
        let printed = format!(in rt.alloc(); "{fault}").expect(&rt, "memory");
        assert_same(&rt, printed.as_str(), text, "printed");
    }
}
