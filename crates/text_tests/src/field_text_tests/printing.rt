//! Text that is printed through a buffer.

use crate::expected::assert_same;
use batch_io::MemorySink;
use field_text::{Buffer, Printed};
use std::alloc::Global;
use std::process::Abort;

// Own, by hand: the least and the greatest number, no bytes, and bytes of each digit.
const TEXT: &str = "n 0 9 10 18446744073709551615 - 0123456789abcdef";

#[test]
fn pieces_are_printed_one_after_another(rt: HostRuntime) {
    let alloc = rt.alloc();
    let room = vec![in alloc; 0; 100].expect(&rt, "memory");
    let mut sink = MemorySink::new(room, 7, Vec::new(alloc));
    let mut out = Buffer::new();
    out.put_text(&mut sink, b"n");
    for number in [0, 9, 10, u64::MAX] {
        out.put_text(&mut sink, b" ");
        out.put_number(&mut sink, number);
    }
    out.put_text(&mut sink, b" ");
    out.put_hex(&mut sink, &[]);
    out.put_text(&mut sink, b" ");
    out.put_hex(&mut sink, &[0x01, 0x23, 0x45, 0x67, 0x89, 0xab, 0xcd, 0xef]);
    assert_same(
        &rt,
        out.finish(&mut sink),
        Printed::Whole,
        "outcome of the print",
    );
    assert_same(&rt, sink.bytes(), TEXT.as_bytes(), "what is written");
}

// Own, by hand: 40,000 bytes 5a are 80,000 digits, more than wait in a buffer at once. The sink fails
// in its second call, and has then one buffer of them.
fn expect_long(rt: &impl Abort, alloc: Global, failing: u32, printed: Printed, count: usize) {
    let bytes = vec![in alloc; 0x5a; 40_000].expect(rt, "memory");
    let failing = Vec::from_array(alloc, [failing]).expect(rt, "memory");
    let room = vec![in alloc; 0; 80_000].expect(rt, "memory");
    let mut sink = MemorySink::new(room, 80_000, failing);
    let mut out = Buffer::new();
    out.put_hex(&mut sink, &bytes);
    assert_same(rt, out.finish(&mut sink), printed, "outcome of the print");
    assert_same(rt, sink.bytes().len(), count, "bytes written");
    let mut pairs = sink.bytes().chunks(2);
    let is_hex = pairs.all(|digits| digits == b"5a".as_slice());
    assert_same(rt, is_hex, true, "each byte is 5a");
}

#[test]
fn a_long_text_is_printed_in_pieces(rt: HostRuntime) {
    expect_long(&rt, rt.alloc(), 0, Printed::Whole, 80_000);
    expect_long(&rt, rt.alloc(), 2, Printed::Failed, 8192);
}

// Own, by hand: what waited before the new beginning isn't written, and a failed write is forgotten.
#[test]
fn a_buffer_that_begins_anew_has_nothing_of_before(rt: HostRuntime) {
    let alloc = rt.alloc();
    let room = vec![in alloc; 0; 100].expect(&rt, "memory");
    let failing = Vec::from_array(alloc, [1]).expect(&rt, "memory");
    let mut sink = MemorySink::new(room, 100, failing);
    let mut out = Buffer::new();
    out.put_text(&mut sink, b"lost");
    let failed = out.finish(&mut sink);
    assert_same(&rt, failed, Printed::Failed, "outcome of the first write");
    out.put_text(&mut sink, b"lost too");
    out.restart();
    out.put_text(&mut sink, b"kept");
    let printed = out.finish(&mut sink);
    assert_same(&rt, printed, Printed::Whole, "outcome of the second write");
    assert_same(&rt, sink.bytes(), b"kept".as_slice(), "what is written");
}
