//! The line of each verdict.

use crate::expected::assert_same;
use batch_io::MemorySink;
use field_text::Printed;
use result_lines::{Verdict, print_verdict};
use std::alloc::Global;
use std::process::Abort;

// Own, by hand: each form of the line; numbers from the least to the greatest.
static LINES: [(Verdict, &str); 10] = [
    (Verdict::Legal, "legal\n"),
    (Verdict::Form { line: 1 }, "broken form 1\n"),
    (Verdict::Journal { context: 0 }, "broken journal 0\n"),
    (Verdict::Journal { context: 255 }, "broken journal 255\n"),
    (
        Verdict::Journal { context: 65_535 },
        "broken journal 65535\n",
    ),
    (Verdict::Journal { context: 65_536 }, "broken journal +0\n"),
    (Verdict::Table, "broken table\n"),
    (Verdict::Stamps, "broken stamps\n"),
    (Verdict::Reply { line: 5 }, "broken reply 5\n"),
    (
        Verdict::Guess { line: u32::MAX },
        "broken guess 4294967295\n",
    ),
];

// A sink with room for a line. The call of this number fails, and none where it is 0.
fn sink_of(rt: &impl Abort, alloc: Global, failing: u32) -> MemorySink {
    let failing = Vec::from_array(alloc, [failing]).expect(rt, "memory");
    let room = vec![in alloc; 0; 40].expect(rt, "memory");
    MemorySink::new(room, 40, failing)
}

// The line is written whole, and nothing of it where the write fails.
fn expect_line(rt: &impl Abort, alloc: Global, verdict: Verdict, text: &str) {
    let mut sink = sink_of(rt, alloc, 0);
    let printed = print_verdict(verdict, &mut sink);
    assert_same(rt, printed, Printed::Whole, text);
    assert_same(rt, sink.bytes(), text.as_bytes(), "what is written");
    let mut failing = sink_of(rt, alloc, 1);
    let printed = print_verdict(verdict, &mut failing);
    assert_same(rt, printed, Printed::Failed, text);
    assert_same(rt, failing.bytes().len(), 0, "bytes before the failure");
}

#[test]
fn each_verdict_is_printed(rt: HostRuntime) {
    for (verdict, text) in &LINES {
        expect_line(&rt, rt.alloc(), *verdict, text);
    }
}
