//! Sources, sinks and gates.

mod gates;
mod memory;
mod streams;

use crate::expected::assert_same;
use batch_io::{Got, Sink, Source, Took};
use std::process::Abort;

// Reads into a buffer of 4 bytes, and compares each answer, and the bytes one after another.
pub fn expect_reads<S: Source>(
    rt: &impl Abort,
    source: &mut S,
    gives: &[Got],
    bytes: &[u8],
    name: &str,
) {
    let mut rest = bytes;
    for want in gives {
        let mut buf = [0; 4];
        let got = source.read(&mut buf);
        assert_same(rt, got, *want, name);
        if let Got::Bytes(count) = got {
            assert!(rt; count <= rest.len(), "{name}");
            assert_same(rt, &buf[..count], &rest[..count], name);
            rest = &rest[count..];
        }
    }
    assert!(rt; rest.is_empty(), "{name}");
}

// Writes all that is left of `bytes` in each call, and compares each answer.
pub fn expect_writes<K: Sink>(
    rt: &impl Abort,
    sink: &mut K,
    takes: &[Took],
    bytes: &[u8],
    name: &str,
) {
    let mut rest = bytes;
    for want in takes {
        let took = sink.write(rest);
        assert_same(rt, took, *want, name);
        if let Took::Bytes(count) = took {
            rest = &rest[count..];
        }
    }
}
