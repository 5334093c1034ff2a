use crate::expected::{assert_at, assert_same};
use ring_core::{Sntrup761, Sntrup857};
use sntrup_kem::{KemParams, KeyBytesFault, PublicKey, SecretKey};
use std::alloc::Global;
use std::process::Abort;

fn secret_fault<S: KemParams>(alloc: Global, bytes: &[u8]) -> Option<KeyBytesFault> {
    SecretKey::<S>::from_bytes(alloc, bytes).err()
}

fn public_fault<S: KemParams>(alloc: Global, bytes: &[u8]) -> Option<KeyBytesFault> {
    PublicKey::<S>::from_bytes(alloc, bytes).err()
}

// A secret key of zero bytes, so that each coefficient of f and 1/g is -1, with the byte ff at a place.
fn secret_with<S: KemParams>(rt: &impl Abort, alloc: Global, place: usize) -> Vec<u8> {
    let mut bytes = bytes_alike(rt, alloc, 0, S::SECRET);
    if let Some(byte) = bytes.get_mut(place) {
        *byte = 0xff;
    }
    bytes
}

fn bytes_alike(rt: &impl Abort, alloc: Global, byte: u8, count: usize) -> Vec<u8> {
    vec![in alloc; byte; count].expect(rt, "memory")
}

// `small` is the size of a small coding.
fn assert_secrets_refused<S: KemParams>(rt: &impl Abort, alloc: Global, small: usize) {
    for place in [
        0,
        small.wrapping_sub(1),
        small,
        small.wrapping_mul(2).wrapping_sub(1),
    ] {
        let fault = secret_fault::<S>(alloc, &secret_with::<S>(rt, alloc, place));
        assert_at(rt, fault, Some(KeyBytesFault::Form), "ff at", place);
    }
    let whole = secret_with::<S>(rt, alloc, small.wrapping_mul(2));
    assert_same(rt, secret_fault::<S>(alloc, &whole), None, "a whole key");
    for count in [S::SECRET.wrapping_sub(1), S::SECRET.wrapping_add(1)] {
        let fault = secret_fault::<S>(alloc, &bytes_alike(rt, alloc, 0, count));
        assert_at(rt, fault, Some(KeyBytesFault::Length), "bytes", count);
    }
}

fn assert_publics_refused<S: KemParams>(rt: &impl Abort, alloc: Global) {
    for (count, want) in [
        (S::PUBLIC.wrapping_sub(1), Some(KeyBytesFault::Length)),
        (S::PUBLIC, None),
        (S::PUBLIC.wrapping_add(1), Some(KeyBytesFault::Length)),
    ] {
        let fault = public_fault::<S>(alloc, &bytes_alike(rt, alloc, 0xff, count));
        assert_at(rt, fault, want, "bytes", count);
    }
}

#[test]
fn bytes_of_no_key_are_refused(rt: HostRuntime) {
    assert_secrets_refused::<Sntrup761>(&rt, rt.alloc(), 191);
    assert_publics_refused::<Sntrup761>(&rt, rt.alloc());
    assert_secrets_refused::<Sntrup857>(&rt, rt.alloc(), 215);
    assert_publics_refused::<Sntrup857>(&rt, rt.alloc());
}

#[test]
fn each_fault_is_printed(rt: HostRuntime) {
    for (fault, text) in [
        (KeyBytesFault::Length, "the key has another length"),
        (KeyBytesFault::Form, "the bytes encode no key"),
        (KeyBytesFault::OutOfMemory, "out of memory"),
    ] {
        let printed = format!(in rt.alloc(); "{fault}").expect(&rt, "memory");
        assert_same(&rt, printed.as_str(), text, "printed");
    }
}
