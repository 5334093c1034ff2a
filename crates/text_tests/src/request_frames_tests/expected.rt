//! Answers that are printed, against the text that is due.

use crate::expected::assert_same;
use crate::printable::is_answered;
use crate::sinks::sink_of;
use request_frames::{Answers, Plan, Printed, print_answers};
use std::alloc::Global;
use std::process::Abort;

// The answers to the plan are printed as this text.
pub fn expect_whole(
    rt: &impl Abort,
    alloc: Global,
    plan: &Plan,
    answers: &Answers,
    text: &[u8],
    source: &str,
) {
    assert!(rt; is_answered(plan, answers), "{source}");
    let mut sink = sink_of(rt, alloc, 2_000, 0);
    let printed = print_answers(plan, answers, &mut sink);
    assert_same(rt, printed, Printed::Whole, source);
    assert_same(rt, sink.bytes(), text, source);
}

// Where the third call of the sink fails, the answers are printed as the first 200 bytes of the
// text.
pub fn expect_cut_short(
    rt: &impl Abort,
    alloc: Global,
    plan: &Plan,
    answers: &Answers,
    text: &[u8],
) {
    assert!(rt; is_answered(plan, answers), "answers to the plan");
    let mut sink = sink_of(rt, alloc, 2_000, 3);
    let printed = print_answers(plan, answers, &mut sink);
    assert_same(rt, printed, Printed::Failed, "printed");
    assert_same(rt, sink.bytes().len(), 200, "bytes before the failure");
    let is_front = text.starts_with(sink.bytes());
    assert_same(rt, is_front, true, "the front of the text");
}
