//! A program for one test: it reads secrets from standard input, makes one call with them, and writes
//! what comes of it to standard output.
//!
//! `tools/secrets` runs it under valgrind with the secrets marked as undefined, and compares the
//! places where a branch or an address depends on them with those that `tools/secrets.allowed`
//! names. The first word is the call; a call of sntrup's KEM has a parameter set and a multiplier
//! behind it. Where the words or the number of bytes are no call's, nothing is written.
//!
//! Nothing is claimed of this program but that it is safe.
#![tactic(auto)]

mod chacha;
mod ciphers;
mod curve;
mod kem;
mod schedules;

use std::io::{Read, Write};
use std::{env, io};

// Writes the bytes that a call made.
fn put<W: Write, const N: usize>(sink: &mut W, made: Option<[u8; N]>) -> io::Result<()> {
    match made {
        Some(bytes) => sink.write_all(&bytes),
        None => Ok(()),
    }
}

fn main(rt: HostRuntime) -> io::Result<()> {
    let alloc = rt.alloc();
    let words: Vec<String> = env::args(&rt)?.skip(1).collect(alloc)?;
    let mut secrets = Vec::new(alloc);
    rt.reader().read_to_end(&mut secrets)?;
    let bytes = secrets.as_slice();
    let sink = &mut io::writer(&rt);
    let Some(call) = words.first() else {
        return Ok(());
    };
    match call.as_str() {
        "aes128" => put(sink, ciphers::aes128(bytes)),
        "aes256" => put(sink, ciphers::aes256(bytes)),
        "ghash" => put(sink, ciphers::ghash(bytes)),
        "seal128" => put(sink, ciphers::seal128(bytes)),
        "seal256" => put(sink, ciphers::seal256(bytes)),
        "open128" => put(sink, ciphers::open128(&rt, bytes)),
        "open256" => put(sink, ciphers::open256(&rt, bytes)),
        "sealchacha" => put(sink, chacha::seal(bytes)),
        "openchacha" => put(sink, chacha::opened(&rt, bytes)),
        "hmac256" => put(sink, schedules::hmac256(bytes)),
        "hmac512" => put(sink, schedules::hmac512(bytes)),
        "schedule128" => put(sink, schedules::schedule128(bytes)),
        "schedule256" => put(sink, schedules::schedule256(bytes)),
        "x25519" => put(sink, curve::multiplied(bytes)),
        "x25519_keygen" => put(sink, curve::generated(bytes)),
        "x25519_encap" => put(sink, curve::encapsulated(bytes)),
        "x25519_decap" => put(sink, curve::decapsulated(bytes)),
        call => match kem::answer(alloc, call, &words, bytes) {
            Some(made) => sink.write_all(made.as_slice()),
            None => Ok(()),
        },
    }
}
