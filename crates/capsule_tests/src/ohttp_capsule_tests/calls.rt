//! The calls, with ample memory.

ghost use Rattle.std.specs.Prelude.{◌≤◌, ◌^◌, length, IsTrue};
ghost use Rattle.hkdf_labelled.specs.Suites.{encrypts};

use byte_strings::ByteList;
use hkdf_labelled::Suite;
use ohttp_capsule::{Asked, CapsuleFault, answer, ask, take};
use rand_words::SeedStream;
use ring_core::Plain;
use sntrup_kem::{KemParams, PublicKey, SecretKey, generate};
use std::alloc::Global;
use std::process::Abort;
use std::thread::Threads;

pub(super) const ID: u8 = 7;

pub(super) const QUESTION: &[u8] = b"Beauty is truth, truth beauty";

pub(super) const REPLY: &[u8] = b"Ode on a Grecian Urn";

// The keys of stream 0 of the zero seed.
pub(super) fn keys_of<S: KemParams>(
    rt: &impl Abort,
    alloc: Global,
) -> (PublicKey<S>, SecretKey<S>) {
    generate(alloc, &mut SeedStream::new(&[0; 32], 0), &Plain).expect(rt, "keys")
}

// A request to key 7, with the words of stream 1 of the zero seed.
pub(super) fn asked<S: KemParams>(
    rt: &impl Abort,
    alloc: Global,
    public: &PublicKey<S>,
    suite: &Suite,
    text: &[u8],
) -> (Asked, ByteList)
    requires cipher { IsTrue (encrypts suite.now.aead) }
    requires text { length text.now ≤ 2 ^ 20 }
{
    let mut words = SeedStream::new(&[0; 32], 1);
    let (kdf, aead) = (suite.kdf, suite.aead);
    ask(alloc, &mut words, &Plain, public, ID, kdf, aead, text).expect(rt, "a request")
}

pub(super) fn answered<R: Abort + Threads + Sync, S: KemParams>(
    rt: &R,
    alloc: Global,
    secret: &SecretKey<S>,
    request: &[u8],
    nonce: &[u8],
    text: &[u8],
) -> Result<(ByteList, ByteList), CapsuleFault> {
    assert!(rt; request.len() <= 1_049_783, "the limit of a request");
    assert!(rt; text.len() <= 1_048_576, "the limit of a text");
    let answered = answer(rt, alloc, &Plain, secret, ID, request, nonce, text);
    assert!(rt;
        !matches!(answered, Err(CapsuleFault::OutOfMemory)),
        "memory"
    );
    answered
}

pub(super) fn taken<R: Abort + Threads + Sync>(
    rt: &R,
    alloc: Global,
    asked: &Asked,
    response: &[u8],
) -> Result<ByteList, CapsuleFault> {
    assert!(rt; response.len() <= 1_048_624, "the limit of a response");
    assert!(rt; asked.context.as_context().cipher().is_some(), "a cipher");
    assert!(rt;
        asked.enc.as_slice().len() <= 1_184,
        "the limit of an encapsulation"
    );
    let taken = take(rt, alloc, asked, response);
    assert!(rt; !matches!(taken, Err(CapsuleFault::OutOfMemory)), "memory");
    taken
}
