//! Fields, and the pieces of a line.

use crate::expected::{assert_at, assert_same};
use call_places::Span;
use field_text::{Pieces, Reason, Stop, cut_at, read_bytes, read_number};
use std::alloc::Global;
use std::process::Abort;

// A number field from 1 to 65,535, or its reason. All are own, made by hand from the field's form.
static NUMBERS: [(&'static [u8], Result<u64, Reason>); 10] = [
    (b"1", Ok(1)),
    (b"65535", Ok(65_535)),
    (b"0", Err(Reason::Range)),
    (b"65536", Err(Reason::Range)),
    (b"18446744073709551617", Err(Reason::Range)),
    (b"", Err(Reason::Number)),
    (b"01", Err(Reason::Number)),
    (b"1a", Err(Reason::Number)),
    // the neighbours of the digits
    (b"1/", Err(Reason::Number)),
    (b"1:", Err(Reason::Number)),
];

// A bytes field of at most so many bytes, or its reason. All are own, as above.
static BYTES: [(&'static [u8], u8, Result<&'static [u8], Reason>); 17] = [
    (b"-", 2, Ok(b"")),
    (b"0a", 2, Ok(b"\x0a")),
    (b"00ff", 2, Ok(b"\x00\xff")),
    (b"000000", 2, Err(Reason::Size)),
    (b"", 2, Err(Reason::Hex)),
    (b"abc", 2, Err(Reason::Hex)),
    (b"0A", 2, Err(Reason::Hex)),
    // the neighbours of the digits and of the letters
    (b"0/", 2, Err(Reason::Hex)),
    (b"0:", 2, Err(Reason::Hex)),
    (b"0`", 2, Err(Reason::Hex)),
    (b"0g", 2, Err(Reason::Hex)),
    // a block of 32 digits, then such a neighbour in each half of one, also of one that is too long
    (
        b"000102030405060708090a0b0c0d0e0f",
        16,
        Ok(b"\x00\x01\x02\x03\x04\x05\x06\x07\x08\x09\x0a\x0b\x0c\x0d\x0e\x0f"),
    ),
    (b"000102030405060:08090a0b0c0d0e0f", 16, Err(Reason::Hex)),
    (b"0001020304050607/8090a0b0c0d0e0f", 16, Err(Reason::Hex)),
    (b"000102030405060708090a0b0c0d0e0f", 15, Err(Reason::Size)),
    (b"000102030405060`08090a0b0c0d0e0f", 15, Err(Reason::Hex)),
    (b"000102030405060708090a0b0c0d0e0g", 15, Err(Reason::Hex)),
];

fn expect_bytes(
    rt: &impl Abort,
    alloc: Global,
    piece: &[u8],
    most: u8,
    want: Result<&[u8], Reason>,
) {
    let mut pool = Vec::from_slice(alloc, b"pool".as_slice()).expect(rt, "memory");
    match read_bytes(&mut pool, piece, usize::from(most)) {
        Ok(span) => {
            assert_at(rt, span.start, 4, "start", piece);
            assert_at(rt, Ok(&pool[4..]), want, "bytes", piece);
            assert_at(rt, span.len as usize + 4, pool.len(), "its end", piece);
        }
        Err(Stop::Bad(reason)) => assert_at(rt, Err(reason), want, "reason", piece),
        Err(Stop::OutOfMemory) => panic!(rt; "memory"),
    }
}

#[test]
fn a_field_has_its_value_or_its_reason(rt: HostRuntime) {
    for (piece, want) in &NUMBERS {
        let piece = *piece;
        assert_at(&rt, read_number(piece, 1, 65_535), *want, "number", piece);
    }
    for (piece, most, want) in &BYTES {
        expect_bytes(&rt, rt.alloc(), piece, *most, *want);
    }
}

// What is left behind a bytes field and a number.
fn expect_rest(rt: &impl Abort, pieces: &mut Pieces) {
    assert_same(rt, pieces.len(), 2, "how many pieces");
    assert_same(rt, pieces.exactly(3), Err(Reason::Fields), "three pieces");
    assert_same(rt, pieces.piece(), Ok(b"export".as_slice()), "next piece");
    assert!(rt; !pieces.is_empty());
    assert_same(rt, pieces.piece(), Ok(b"".as_slice()), "next piece");
    assert!(rt; pieces.is_empty());
    assert_same(rt, pieces.piece(), Err(Reason::Fields), "next piece");
}

#[test]
fn a_line_is_read_piece_by_piece(rt: HostRuntime) {
    let Some((line, after)) = cut_at(b"0a0b 7 export \nend", b'\n') else {
        panic!(rt; "no line");
    };
    assert_same(&rt, after, b"end".as_slice(), "after");
    let mut pool = Vec::new(rt.alloc());
    let mut pieces = Pieces::of(line);
    match pieces.bytes(&mut pool, 2) {
        Ok(span) => assert_same(&rt, span, Span { start: 0, len: 2 }, "span"),
        Err(_) => panic!(rt; "no bytes"),
    }
    assert_same(&rt, pool.as_slice(), b"\x0a\x0b".as_slice(), "pool");
    assert_same(&rt, pieces.number(0, 9), Ok(7), "a number");
    expect_rest(&rt, &mut pieces);
}

// Own, by hand: lines of the numbers from 0 on, as many pieces as are cut at once, and one more.
static LINES: [(&'static [u8], usize); 2] = [
    (b"0 1 2 3 4 5 6 7 8 9 10 11", 12),
    (b"0 1 2 3 4 5 6 7 8 9 10 11 12", 13),
];

#[test]
fn a_long_line_is_read_piece_by_piece(rt: HostRuntime) {
    for (line, count) in &LINES {
        let mut pieces = Pieces::of(line);
        for next in 0..*count {
            assert_at(&rt, pieces.len(), *count - next, "how many pieces", next);
            assert!(rt; !pieces.is_empty());
            assert_at(&rt, pieces.number(0, 99), Ok(next as u64), "number", next);
        }
        assert_at(&rt, pieces.len(), 0, "how many pieces", *count);
        assert!(rt; pieces.is_empty());
    }
}
