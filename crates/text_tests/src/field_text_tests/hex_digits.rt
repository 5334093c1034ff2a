//! Hex digits, against the crate `hex`.

ghost use Rattle.std.specs.Prelude.{◌<◌};

use crate::expected::assert_same;
use crate::sinks::sink_of;
use field_text::{Buffer, Printed, read_bytes};
use std::alloc::Global;
use std::process::Abort;

// So many bytes. The factor is odd, so that each byte of a text has another value.
fn bytes_of(rt: &impl Abort, alloc: Global, count: usize) -> Vec<u8>
    requires { count < 256 }
{
    let mut bytes = vec![in alloc; 0u8; count].expect(rt, "memory");
    for i in 0..count {
        bytes[i] = ((i * 167 + count) % 256) as u8;
    }
    bytes
}

// The bytes are printed as these digits.
fn expect_printed(rt: &impl Abort, alloc: Global, bytes: &[u8], digits: &[u8]) {
    let mut sink = sink_of(rt, alloc, 200, 0);
    let mut out = Buffer::new();
    out.put_hex(&mut sink, bytes);
    let printed = out.finish(&mut sink);
    assert_same(rt, printed, Printed::Whole, "outcome of the print");
    assert_same(rt, sink.bytes(), digits, "what is written");
}

// The digits are read as these bytes.
fn expect_read(rt: &impl Abort, alloc: Global, bytes: &[u8], digits: &[u8]) {
    let mut pool = Vec::new(alloc);
    let is_read = read_bytes(&mut pool, digits, 100).is_ok();
    assert_same(rt, is_read, true, "the digits are read");
    assert_same(rt, pool.as_slice(), bytes, "pool");
}

// The crate `hex` says what is due. From 1 to 100 bytes, so that there are whole blocks of lanes and
// rests of each size behind them.
#[test]
fn lanes_print_and_read_as_hex_does(rt: HostRuntime) {
    let alloc = rt.alloc();
    for count in 1..101usize {
        let bytes = bytes_of(&rt, alloc, count);
        let digits = hex::encode(alloc, &bytes).expect(&rt, "memory");
        expect_printed(&rt, alloc, &bytes, digits.as_bytes());
        expect_read(&rt, alloc, &bytes, digits.as_bytes());
    }
}
