ghost use Rattle.std.specs.Prelude.{◌≡◌, length, vec_len};

use super::{bytes_of, decapsulated, encapsulated, keys_of};
use crate::expected::{assert_at, assert_same};
use radix_pack::{rounded_encode, rq_decode, small_decode, small_encode};
use ring_core::{Plain, Small, Sntrup761, Sntrup857};
use sha2::{Digest, Sha512};
use sntrup_core::{PublicPoly, encrypt};
use sntrup_kem::{KemParams, PublicKey, SecretKey};
use std::alloc::Global;
use std::process::Abort;

// Rejection keys: with bit 0 of the byte at a place flipped, of the rounded part or of the hash;
// and of what Hide makes of an r of weight w - 1 and of one of weight w + 1: e/g is that r again, and
// for its weight alone Decrypt gives w ones and zeros in its place. The coding of either r begins with
// so many bytes of four ones.
struct RejectedCase {
    spoilt: &'static [(usize, &'static str)],
    whole_bytes: usize,
    light: &'static str,
    heavy: &'static str,
}

// Own, by Python 3.11: tools/vectors/sntrup_reject.py, with the key of stream 0 of the zero seed
// and the encapsulation of stream 1.
static REJECTED_761: RejectedCase = RejectedCase {
    spoilt: &[
        (
            0,
            "bd892edc23a801796ba640041e4832fb5fbd17fbda8899afd61a27ff72ca22d6",
        ),
        (
            1006,
            "faaadbf0daa9ed31f6a21aff9efbfe249c4cb75cdf8adba15f899bf2870af968",
        ),
        (
            1007,
            "23a35eba929c21866627422191d304469b55f63b385a0f801460f17db6a1d9da",
        ),
        (
            1038,
            "57a1e830fc3c0691ee85920bbd35fda1f8e352fc1b4ce7be671495615cbed00a",
        ),
    ],
    whole_bytes: 71,
    light: "07f92fc7bf87edd155f9d1038e161f00ead1c62d9472afa8f44339dee5aa8754",
    heavy: "68bd71b4d1f54cbc2193f9eebc85f79b9f69fdb90ab41570d973c7d2cff4e4ae",
};

static REJECTED_857: RejectedCase = RejectedCase {
    spoilt: &[
        (
            0,
            "1e9b0ab17f1133a44332236af90e1b274592941b9736e240edbd94090ec82096",
        ),
        (
            1151,
            "6694ff8674ca7c875b1caebbe4a73d61e56f579dec833b45f90dab45f5af1ba6",
        ),
        (
            1152,
            "60f05045adfa5be9b1c45ea8f03c47603c25535bf05e0bad0df3c4a90538a5ea",
        ),
        (
            1183,
            "e1a8a36d21ddcb0acbe24da52598b58b11b0441ff2ad5e50c2206861f3b9d579",
        ),
    ],
    whole_bytes: 80,
    light: "fa3512bf3b93fd140dc54671abfbe0b6f787e67243f99ad3212a50b73fe0fb67",
    heavy: "5ae7f2952c251856e7ce139173eb465d82da08fd6ffa94725e27f60d849bc9f6",
};

// The bytes with bit 0 of one flipped.
fn spoilt(rt: &impl Abort, alloc: Global, enc: &[u8], place: usize) -> Vec<u8>
    ensures { vec_len result ≡ length enc.now }
{
    let mut bytes = Vec::from_slice(alloc, enc).expect(rt, "memory");
    if let Some(byte) = bytes.get_mut(place) {
        *byte ^= 1;
    }
    bytes
}

// The coding of a one and three zeros, and of three ones and a zero: w - 1 is one more than a multiple
// of 4 in both sets, and w + 1 three more.
const ONE: u8 = 0x56;

const THREE_ONES: u8 = 0x6a;

// Makes the small coding of ones followed by zeros, out of bytes 0x55: so many bytes of four ones, and
// then `next`. p is one more than a multiple of 4 in both sets.
fn write_ones(coding: &mut [u8], whole_bytes: usize, next: u8) {
    for (k, byte) in coding.iter_mut().enumerate() {
        if k < whole_bytes {
            *byte = 0xaa;
        } else if k == whole_bytes {
            *byte = next;
        }
    }
    if let Some(last) = coding.last_mut() {
        *last = 0x01;
    }
}

fn first_half(bytes: &[u8; 64]) -> [u8; 32] {
    let mut half = [0u8; 32];
    half.copy_from_slice(&bytes[..32]);
    half
}

// Hash_b of two strings, one after the other.
fn hash(b: u8, first: &[u8], second: &[u8]) -> [u8; 32] {
    let mut hasher = Sha512::new();
    hasher.update(&[b]);
    hasher.update(first);
    hasher.update(second);
    first_half(&hasher.finalize())
}

// What Hide makes of r: the coding of c, and the hash that confirms r.
fn hidden<S: KemParams>(
    rt: &impl Abort,
    alloc: Global,
    public: &PublicKey<S>,
    r: &Small<S>,
) -> Vec<u8> {
    let h = rq_decode(alloc, public.as_slice()).expect(rt, "memory");
    let c = encrypt(alloc, &Plain, r, &PublicPoly { h }).expect(rt, "memory");
    let rounded = rounded_encode(alloc, &c).expect(rt, "memory");
    let coding = small_encode(alloc, r).expect(rt, "memory");
    let r_hash = hash(3, coding.as_slice(), &[]);
    let cache = hash(4, public.as_slice(), &[]);
    let mut enc = Vec::from_slice(alloc, rounded.as_slice()).expect(rt, "memory");
    enc.extend_from_slice(&hash(2, &r_hash, &cache))
        .expect(rt, "memory");
    enc
}

// The encapsulation of such an r, which has the right hash, decapsulated.
fn key_of_ones<S: KemParams>(
    rt: &impl Abort,
    alloc: Global,
    whole_bytes: usize,
    next: u8,
    public: &PublicKey<S>,
    secret: &SecretKey<S>,
) -> [u8; 32] {
    let mut coding = vec![in alloc; 0x55u8; S::P.div_ceil(4)].expect(rt, "memory");
    write_ones(&mut coding, whole_bytes, next);
    let decoded = small_decode::<S>(alloc, &coding).expect(rt, "memory");
    let r = decoded.expect(rt, "an element");
    let enc = hidden(rt, alloc, public, &r);
    assert!(rt; enc.len() == S::ENC);
    decapsulated(rt, alloc, &enc, secret)
}

fn assert_other_weights<S: KemParams>(
    rt: &impl Abort,
    alloc: Global,
    case: &RejectedCase,
    public: &PublicKey<S>,
    secret: &SecretKey<S>,
) {
    let light = key_of_ones(rt, alloc, case.whole_bytes, ONE, public, secret);
    assert_same(rt, light, bytes_of(rt, case.light), "weight w - 1");
    let heavy = key_of_ones(rt, alloc, case.whole_bytes, THREE_ONES, public, secret);
    assert_same(rt, heavy, bytes_of(rt, case.heavy), "weight w + 1");
}

fn assert_rejected<S: KemParams>(rt: &impl Abort, alloc: Global, case: &RejectedCase) {
    let (public, secret) = keys_of::<S>(rt, alloc, &[0; 32]);
    let (enc, _) = encapsulated(rt, alloc, &[0; 32], &public);
    for (place, digits) in case.spoilt {
        let other = spoilt(rt, alloc, enc.as_slice(), *place);
        let key = decapsulated(rt, alloc, &other, &secret);
        assert_at(rt, key, bytes_of(rt, digits), "byte", place);
    }
    assert_other_weights(rt, alloc, case, &public, &secret);
}

#[test]
fn other_ciphertexts_get_the_rejection_key(rt: HostRuntime) {
    assert_rejected::<Sntrup761>(&rt, rt.alloc(), &REJECTED_761);
    assert_rejected::<Sntrup857>(&rt, rt.alloc(), &REJECTED_857);
}
