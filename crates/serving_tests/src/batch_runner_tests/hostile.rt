//! Ends that give and take in pieces, faults in each place, batches that are cut, and malformed lines.

use crate::batch_runner_tests::runs::openings_and_schedules;
use crate::batch_runner_tests::{
    assert_end, bytes_of, outcome_of, repeat, sink_of, source_of, string_of,
};
use crate::expected::{assert_at, assert_same};
use batch_io::{FreeGate, MemorySink};
use batch_runner::Outcome;
use request_frames::Reason;
use std::alloc::Global;
use std::process::Abort;
use std::sync::Wait;
use std::thread::Threads;

// The row of an opening with a changed tag in it.
const OPENING: usize = 1;

// How many bytes an end gives or takes a call.
static STEPS: [usize; 5] = [1, 2, 3, 7, 65_536];

// The text that an input is answered, where the ends give and take so many bytes a call, and those calls
// fail.
fn answer_by_steps<R: Abort + Threads + Wait + Sync>(
    rt: &R,
    alloc: Global,
    input: &[u8],
    steps: (usize, usize),
    failing_reads: &[u32],
    failing_writes: &[u32],
) -> (Outcome, MemorySink) {
    let source = source_of(rt, alloc, input, steps.0, failing_reads);
    let mut sink = sink_of(rt, alloc, 4096, steps.1, failing_writes);
    let outcome = outcome_of(rt, alloc, &["run"], source, &mut sink, &FreeGate::new());
    (outcome, sink)
}

#[test]
fn pieces_of_each_size_are_the_same_batch(rt: HostRuntime) {
    let row = &openings_and_schedules()[OPENING];
    let text = row.reply.as_bytes();
    for read in STEPS {
        for written in STEPS {
            let steps = (read, written);
            let end = answer_by_steps(&rt, rt.alloc(), row.input.as_bytes(), steps, &[], &[]);
            assert_end(&rt, &end, Outcome::Done, text, "pieces of each size");
        }
    }
}

#[test]
fn each_read_fails_in_turn(rt: HostRuntime) {
    let row = &openings_and_schedules()[OPENING];
    let (input, text) = (row.input.as_bytes(), row.reply.as_bytes());
    let reads = u32::try_from(input.len().div_ceil(16) + 1).expect(&rt, "a number");
    for read in 1..=reads {
        let end = answer_by_steps(&rt, rt.alloc(), input, (16, 16), &[read], &[]);
        assert_end(&rt, &end, Outcome::ReadFault, b"", "a read that fails");
    }
    let end = answer_by_steps(
        &rt,
        rt.alloc(),
        input,
        (16, 16),
        &[reads.wrapping_add(1)],
        &[],
    );
    assert_end(&rt, &end, Outcome::Done, text, "no read that fails");
}

// Each write fails once, until a run has no such write.
#[test]
fn each_write_fails_in_turn(rt: HostRuntime) {
    let row = &openings_and_schedules()[OPENING];
    let (input, whole) = (row.input.as_bytes(), row.reply.as_bytes());
    let mut failed = 0;
    for write in 1..1_000 {
        let (outcome, sink) = answer_by_steps(&rt, rt.alloc(), input, (16, 16), &[], &[write]);
        assert!(rt; whole.starts_with(sink.bytes()), "{write}");
        if outcome == Outcome::Done {
            assert_same(&rt, sink.bytes(), whole, "what is written");
            break;
        }
        assert_at(&rt, outcome, Outcome::WriteFault, "failed write", write);
        failed = write;
    }
    assert_same(&rt, failed as usize, whole.len().div_ceil(16), "writes");
}

// The line that a front of a batch is answered: it has no `end`, or not even its first line.
fn cut_reply(rt: &impl Abort, alloc: Global, front: &[u8]) -> String {
    if front.len() < b"hpkebatch 1\n".len() {
        return string_of(rt, alloc, "bad 1 header\n");
    }
    let line = front.iter().filter(|byte| **byte == b'\n').count() + 1;
    format!(in alloc; "bad {line} noend\n").expect(rt, "memory")
}

fn assert_cut<R: Abort + Threads + Wait + Sync>(rt: &R, alloc: Global, front: &[u8]) {
    let size = front.len();
    let (outcome, sink) = answer_by_steps(rt, alloc, front, (4096, 4096), &[], &[]);
    assert!(rt; matches!(outcome, Outcome::BadBatch { .. }), "{size}");
    let want = cut_reply(rt, alloc, front);
    assert_at(
        rt,
        sink.bytes(),
        want.as_bytes(),
        "bytes of the batch",
        size,
    );
}

#[test]
fn a_cut_batch_is_named(rt: HostRuntime) {
    let input = openings_and_schedules()[OPENING].input.as_bytes();
    for size in 0..input.len() {
        assert_cut(&rt, rt.alloc(), &input[..size]);
    }
}

// The third line of a batch, behind a lane, and its reason. Own, by hand, from the format.
static LINES: [(&'static [u8], Reason); 7] = [
    (b"unsealall 0", Reason::Fields),
    (b"unsealall 0 -", Reason::Fields),
    (b"unsealall 0 - - -", Reason::Fields),
    (b"export 65536 - 0", Reason::Range),
    (b"export 99999999999999999999999999 - 0", Reason::Range),
    (b"seal 0 -  -", Reason::Fields),
    (b"\xff", Reason::Word),
];

// How a batch of one lane with this line ends.
fn outcome_with<R: Abort + Threads + Wait + Sync>(rt: &R, alloc: Global, line: &[u8]) -> Outcome {
    let mut batch = bytes_of(rt, alloc, b"hpkebatch 1\nlane\n");
    batch.extend_from_slice(line).expect(rt, "memory");
    batch.extend_from_slice(b"\nend\n").expect(rt, "memory");
    let (outcome, _) = answer_by_steps(rt, alloc, &batch, (4096, 4096), &[], &[]);
    outcome
}

#[test]
fn malformed_lines_are_named(rt: HostRuntime) {
    for (line, reason) in &LINES {
        let (line, reason) = (*line, *reason);
        let bad = Outcome::BadBatch { line: 3, reason };
        assert_at(&rt, outcome_with(&rt, rt.alloc(), line), bad, "line", line);
    }
}

// How an opening of so many messages ends, each of no bytes.
fn outcome_of_opening<R: Abort + Threads + Wait + Sync>(
    rt: &R,
    alloc: Global,
    count: usize,
) -> Outcome {
    let mut line = string_of(rt, alloc, "unsealall 0");
    repeat(rt, &mut line, " - -", count);
    outcome_with(rt, alloc, line.as_bytes())
}

#[test]
fn an_opening_has_at_most_4096_messages(rt: HostRuntime) {
    let most = outcome_of_opening(&rt, rt.alloc(), 4_096);
    assert_same(&rt, most, Outcome::Done, "4096 messages");
    let more = outcome_of_opening(&rt, rt.alloc(), 4_097);
    let bad = Outcome::BadBatch {
        line: 3,
        reason: Reason::Count,
    };
    assert_same(&rt, more, bad, "4097 messages");
}
