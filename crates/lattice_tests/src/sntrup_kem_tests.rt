ghost use Rattle.std.specs.Prelude.{◌≡◌, length};

mod refusals;
mod rejections;
mod vectors;

use crate::expected::assert_same;
use hex::FromHex;
use rand_words::SeedStream;
use ring_core::{Plain, Sntrup761, Sntrup857};
use ring_karatsuba::Karatsuba;
use ring_lanes::Lanes;
use sntrup_kem::laws::exchanged_keys;
use sntrup_kem::{Enc, KemParams, PublicKey, SecretKey, decap, encap, generate};
use std::alloc::Global;
use std::process::Abort;

// The keys of stream 0 of a seed.
fn keys_of<S: KemParams>(
    rt: &impl Abort,
    alloc: Global,
    seed: &[u8; 32],
) -> (PublicKey<S>, SecretKey<S>) {
    generate(alloc, &mut SeedStream::new(seed, 0), &Plain).expect(rt, "keys")
}

// The encapsulation of stream 1 of a seed, and its session key.
fn encapsulated<S: KemParams>(
    rt: &impl Abort,
    alloc: Global,
    seed: &[u8; 32],
    public: &PublicKey<S>,
) -> (Enc<S>, [u8; 32]) {
    let made = encap(alloc, &mut SeedStream::new(seed, 1), &Plain, public);
    made.expect(rt, "an encapsulation")
}

fn decapsulated<S: KemParams>(
    rt: &impl Abort,
    alloc: Global,
    enc: &[u8],
    secret: &SecretKey<S>,
) -> [u8; 32]
    requires { length enc.now ≡ S.ENC }
{
    decap(alloc, &Plain, enc, secret).expect(rt, "a session key")
}

fn bytes_of(rt: &impl Abort, digits: &str) -> [u8; 32] {
    <[u8; 32]>::from_hex(digits).expect(rt, "64 hex digits")
}

fn assert_exchange<S: KemParams>(rt: &impl Abort, alloc: Global) {
    let mut words = SeedStream::new(&[0; 32], 2);
    let made = exchanged_keys::<S, SeedStream, Lanes, Karatsuba, Plain>(
        alloc, &mut words, &Lanes, &Karatsuba, &Plain,
    );
    let (sent, received) = made.expect(rt, "an exchange");
    assert_same(rt, sent, received, "sent");
}

#[test]
fn both_ends_of_an_exchange_get_the_same_key(rt: HostRuntime) {
    assert_exchange::<Sntrup761>(&rt, rt.alloc());
    assert_exchange::<Sntrup857>(&rt, rt.alloc());
}
