//! Texts that are bad, and what is due for them.

use crate::expected::assert_same;
use field_text::{BadBatch, Reason};
use std::alloc::Global;
use std::process::Abort;

// A text, with its first bad line and that line's first reason.
pub struct BadCase {
    pub what: &'static str,
    pub text: &'static [u8],
    pub line: u32,
    pub reason: Reason,
}

// A long text: `before`, `part` so many times, and `after`.
pub struct LongCase {
    pub what: &'static str,
    pub before: &'static [u8],
    pub part: &'static [u8],
    pub times: usize,
    pub after: &'static [u8],
    pub line: u32,
    pub reason: Reason,
}

fn put(rt: &impl Abort, text: &mut Vec<u8>, piece: &[u8]) {
    text.extend_from_slice(piece).expect(rt, "memory");
}

// The text of these parts.
pub fn long_text(rt: &impl Abort, alloc: Global, case: &LongCase) -> Vec<u8> {
    let mut text = Vec::new(alloc);
    put(rt, &mut text, case.before);
    for _ in 0..case.times {
        put(rt, &mut text, case.part);
    }
    put(rt, &mut text, case.after);
    text
}

// A bytes field between `before` and `after`, the most bytes that it may have, and the line that it
// stands on.
pub struct FieldCase {
    pub what: &'static str,
    pub before: &'static [u8],
    pub most: u32,
    pub after: &'static [u8],
    pub line: u32,
}

// The text whose field has so many bytes, each of them 0, with a line `x` behind the field's.
pub fn text_with(rt: &impl Abort, alloc: Global, case: &FieldCase, count: u32) -> Vec<u8> {
    let digits = vec![in alloc; b'0'; 2 * count as usize].expect(rt, "memory");
    let mut text = Vec::new(alloc);
    put(rt, &mut text, case.before);
    put(rt, &mut text, &digits);
    put(rt, &mut text, case.after);
    put(rt, &mut text, b"x\n");
    text
}

// A text was refused for this line and this reason.
pub fn expect_bad(
    rt: &impl Abort,
    refusal: Option<BadBatch>,
    line: u32,
    reason: Reason,
    what: &str,
) {
    assert_same(rt, refusal, Some(BadBatch { line, reason }), what)
}

// What was answered where a field has as many bytes as it may, and where it has one more: at its
// limit the line `x` behind it is the first bad one.
pub fn expect_limit(
    rt: &impl Abort,
    at_limit: Option<BadBatch>,
    above: Option<BadBatch>,
    case: &FieldCase,
) {
    let next = case.line.saturating_add(1);
    expect_bad(rt, at_limit, next, Reason::Word, case.what);
    expect_bad(rt, above, case.line, Reason::Size, case.what);
}
