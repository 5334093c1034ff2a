//! Texts that are refused, the limits of their fields, batches that something follows, fields by
//! themselves, and the lists that plans are made of.

ghost use Rattle.std.specs.Prelude.{◌+◌, ◌<◌, ◌≤◌, ◌^◌, vec_len};

use crate::bad_cases::{
    BadCase, FieldCase, LongCase, expect_bad, expect_limit, long_text, text_with,
};
use crate::expected::{assert_at, assert_same};
use crate::request_frames_tests::bad_calls::BAD_CALLS;
use crate::request_frames_tests::bad_contexts::BAD_CONTEXTS;
use crate::request_frames_tests::bad_set_ups::BAD_SET_UPS;
use crate::request_frames_tests::bad_texts::BAD;
use crate::request_frames_tests::long_fields::{CIPHERTEXTS, FIELDS, PLAINTEXT};
use crate::request_frames_tests::long_texts::LONG;
use call_places::Span;
use request_frames::{
    BadBatch, FieldFault, PlainList, ReadBatchFault, Reason, read_batch, read_bytes, read_front,
    read_number,
};
use std::alloc::Global;
use std::process::Abort;

fn refusal_of(alloc: Global, text: &[u8]) -> Option<BadBatch> {
    match read_batch(alloc, text) {
        Err(ReadBatchFault::Bad(bad)) => Some(bad),
        _ => None,
    }
}

// Each text has the bad line and the reason that are due.
fn expect_each_bad(rt: &impl Abort, alloc: Global, cases: &[BadCase]) {
    for case in cases {
        let refusal = refusal_of(alloc, case.text);
        expect_bad(rt, refusal, case.line, case.reason, case.what);
    }
}

#[test]
fn a_bad_text_has_its_first_bad_line_and_reason(rt: HostRuntime) {
    let alloc = rt.alloc();
    expect_each_bad(&rt, alloc, &BAD);
    expect_each_bad(&rt, alloc, &BAD_SET_UPS);
    expect_each_bad(&rt, alloc, &BAD_CONTEXTS);
    expect_each_bad(&rt, alloc, &BAD_CALLS);
}

// The text of these parts has the bad line and the reason that are due.
fn expect_long(rt: &impl Abort, alloc: Global, case: &LongCase) {
    let text = long_text(rt, alloc, case);
    let refusal = refusal_of(alloc, &text);
    expect_bad(rt, refusal, case.line, case.reason, case.what);
}

#[test]
fn each_limit_of_a_batch_is_exact(rt: HostRuntime) {
    for case in &LONG {
        expect_long(&rt, rt.alloc(), case);
    }
}

// The refusal of the text whose field has so many bytes.
fn refusal_with(rt: &impl Abort, alloc: Global, case: &FieldCase, count: u32) -> Option<BadBatch> {
    let text = text_with(rt, alloc, case, count);
    refusal_of(alloc, &text)
}

// The field may have so many bytes, and not one more.
fn expect_most(rt: &impl Abort, alloc: Global, case: &FieldCase) {
    let at_limit = refusal_with(rt, alloc, case, case.most);
    let above = refusal_with(rt, alloc, case, case.most.saturating_add(1));
    expect_limit(rt, at_limit, above, case);
}

#[test]
fn a_field_has_at_most_65535_bytes(rt: HostRuntime) {
    for case in &FIELDS {
        expect_most(&rt, rt.alloc(), case);
    }
}

#[test]
fn a_plaintext_has_at_most_1048576_bytes(rt: HostRuntime) {
    expect_most(&rt, rt.alloc(), &PLAINTEXT);
}

#[test]
fn a_ciphertext_has_at_most_1048592_bytes(rt: HostRuntime) {
    for case in &CIPHERTEXTS {
        expect_most(&rt, rt.alloc(), case);
    }
}

// The version of the batch at the front of a text and where it ends, or its bad line.
fn front_of(alloc: Global, text: &[u8]) -> Result<(u8, usize), Option<BadBatch>> {
    match read_front(alloc, text) {
        Ok((plan, end)) => {
            let version = plan.version;
            drop(plan);
            Ok((version, end))
        }
        Err(ReadBatchFault::Bad(bad)) => Err(Some(bad)),
        Err(ReadBatchFault::OutOfMemory) => Err(None),
    }
}

// Own, by hand: a text, and the version and the end of the batch at its front, or its bad line.
static FRONTS: [(&[u8], Result<(u8, usize), Option<BadBatch>>, &str); 3] = [
    (b"hpkebatch 2\nlane\nend\n", Ok((2, 21)), "a lane"),
    (
        b"hpkebatch 1\nend\nhpkebatch 1\nend\n",
        Ok((1, 16)),
        "two batches",
    ),
    (
        b"hpkebatch 1\nend",
        Err(Some(BadBatch {
            line: 2,
            reason: Reason::NoEnd,
        })),
        "no last line feed",
    ),
];

#[test]
fn a_batch_ends_before_what_follows_it(rt: HostRuntime) {
    for (text, front, what) in &FRONTS {
        assert_same(&rt, front_of(rt.alloc(), text), *front, what);
    }
}

// Own, by hand: a number field from its least to its greatest value, and its value or its reason.
static NUMBERS: [(&[u8], u64, u64, Result<u64, Reason>); 4] = [
    (b"65535", 0, 65_535, Ok(65_535)),
    (b"65536", 0, 65_535, Err(Reason::Range)),
    (b"0", 1, 9, Err(Reason::Range)),
    (b"00", 0, 9, Err(Reason::Number)),
];

#[test]
fn a_number_field_has_a_value_or_a_reason(rt: HostRuntime) {
    for (field, least, greatest, want) in &NUMBERS {
        let field = *field;
        let read = read_number(field, *least, *greatest);
        assert_at(&rt, read, *want, "number", field);
    }
}

// The span of a bytes field of two bytes at most, or its reason.
fn span_of(alloc: Global, pool: &mut Vec<u8>, field: &[u8]) -> Result<Span, Option<Reason>>
    requires { vec_len pool.old < 2 ^ 20 }
    ensures { vec_len pool.new ≤ vec_len pool.old + 2 }
{
    match read_bytes(alloc, field, 2, pool) {
        Ok(span) => Ok(span),
        Err(FieldFault::Bad(reason)) => Err(Some(reason)),
        Err(FieldFault::OutOfMemory) => Err(None),
    }
}

// Own, by hand: bytes fields that are read one after another into a pool of one byte, each with its span
// or its reason.
static FIELDS_IN_TURN: [(&[u8], Result<Span, Option<Reason>>); 5] = [
    (b"-", Ok(Span { start: 1, len: 0 })),
    (b"08ff", Ok(Span { start: 1, len: 2 })),
    (b"00000", Err(Some(Reason::Hex))),
    (b"00000A", Err(Some(Reason::Hex))),
    (b"00000a", Err(Some(Reason::Size))),
];

#[test]
fn a_bytes_field_has_a_span_or_a_reason(rt: HostRuntime) {
    let alloc = rt.alloc();
    let mut pool = Vec::from_slice(alloc, b"\x07".as_slice()).expect(&rt, "memory");
    for (field, want) in &FIELDS_IN_TURN {
        let field = *field;
        assert!(rt; pool.len() < 1_000);
        let span = span_of(alloc, &mut pool, field);
        assert_at(&rt, span, *want, "field", field);
    }
    assert_same(&rt, pool.as_slice(), b"\x07\x08\xff".as_slice(), "pool");
}

#[test]
fn a_list_keeps_what_is_written_in_it(rt: HostRuntime) {
    let bytes = Vec::from_slice(rt.alloc(), b"lane".as_slice()).expect(&rt, "memory");
    let mut list = PlainList::from_vec(bytes);
    list.as_mut_slice()[0] = b'c';
    assert_same(&rt, list.as_slice(), b"cane".as_slice(), "list");
    assert_same(&rt, list.into_vec().as_slice(), b"cane".as_slice(), "list");
}
