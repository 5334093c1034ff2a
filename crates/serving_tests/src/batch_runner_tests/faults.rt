//! Ends that fail, and commands that have to leave their ends alone.

use crate::batch_runner_tests::{EMPTY, assert_end, outcome_of, sink_of, source_of};
use crate::expected::assert_same;
use batch_io::{FreeGate, MemorySink};
use batch_runner::Outcome;
use std::alloc::Global;
use std::process::Abort;
use std::sync::Wait;
use std::thread::Threads;

// A command whose source or sink fails in the calls of these numbers, counted from 1.
struct Fault {
    name: &'static str,
    words: &'static [&'static str],
    input: &'static str,
    failing_reads: &'static [u32],
    failing_writes: &'static [u32],
    sink_step: usize,
    outcome: Outcome,
    written: &'static str,
}

// Rows: own, by hand. Reads give 4 bytes a call.
static FAULTS: [Fault; 11] = [
    Fault {
        name: "the third read fails",
        words: &["run"],
        input: EMPTY,
        failing_reads: &[3],
        failing_writes: &[],
        sink_step: 4,
        outcome: Outcome::ReadFault,
        written: "",
    },
    Fault {
        name: "the read at the end fails",
        words: &["run"],
        input: EMPTY,
        failing_reads: &[5],
        failing_writes: &[],
        sink_step: 4,
        outcome: Outcome::ReadFault,
        written: "",
    },
    Fault {
        name: "the first write fails",
        words: &["run"],
        input: EMPTY,
        failing_reads: &[],
        failing_writes: &[1],
        sink_step: 4,
        outcome: Outcome::WriteFault,
        written: "",
    },
    Fault {
        name: "the second write fails",
        words: &["run"],
        input: EMPTY,
        failing_reads: &[],
        failing_writes: &[2],
        sink_step: 4,
        outcome: Outcome::WriteFault,
        written: "hpke",
    },
    Fault {
        name: "the first write of a bad line fails",
        words: &["run"],
        input: "",
        failing_reads: &[],
        failing_writes: &[1],
        sink_step: 4,
        outcome: Outcome::WriteFault,
        written: "",
    },
    Fault {
        name: "a byte a write, and no fault",
        words: &["run"],
        input: EMPTY,
        failing_reads: &[],
        failing_writes: &[],
        sink_step: 1,
        outcome: Outcome::Done,
        written: EMPTY,
    },
    Fault {
        name: "the first read of `live` fails",
        words: &["live"],
        input: "hpkebatch 2\nend\n",
        failing_reads: &[1],
        failing_writes: &[],
        sink_step: 4,
        outcome: Outcome::ReadFault,
        written: "",
    },
    Fault {
        name: "the first read of `check` fails",
        words: &["check"],
        input: EMPTY,
        failing_reads: &[1],
        failing_writes: &[],
        sink_step: 4,
        outcome: Outcome::ReadFault,
        written: "",
    },
    Fault {
        name: "the last read of `capsules` fails",
        words: &["capsules"],
        input: "hpkebatch 2\nend\n",
        failing_reads: &[5],
        failing_writes: &[],
        sink_step: 4,
        outcome: Outcome::ReadFault,
        written: "",
    },
    Fault {
        name: "`demo` reads nothing; its text is that of tools/reference",
        words: &["demo", "0", "1", "1"],
        input: EMPTY,
        failing_reads: &[1],
        failing_writes: &[],
        sink_step: 4,
        outcome: Outcome::Done,
        written: "messages 1 opened 1 refused 0\nsha256 e2949e0ada9610f5a9a3f86ed8b2874de13668035dbe1b48d2f75e748c416ad0\n",
    },
    Fault {
        name: "the second write of `demo` fails",
        words: &["demo", "0", "1", "1"],
        input: EMPTY,
        failing_reads: &[1],
        failing_writes: &[2],
        sink_step: 4,
        outcome: Outcome::WriteFault,
        written: "mess",
    },
];

fn end_with<R: Abort + Threads + Wait + Sync>(
    rt: &R,
    alloc: Global,
    fault: &Fault,
) -> (Outcome, MemorySink) {
    let source = source_of(rt, alloc, fault.input.as_bytes(), 4, fault.failing_reads);
    let mut sink = sink_of(rt, alloc, 256, fault.sink_step, fault.failing_writes);
    let outcome = outcome_of(rt, alloc, fault.words, source, &mut sink, &FreeGate::new());
    (outcome, sink)
}

#[test]
fn a_fault_leaves_a_front_of_the_text(rt: HostRuntime) {
    for case in &FAULTS {
        let end = end_with(&rt, rt.alloc(), case);
        assert_end(&rt, &end, case.outcome, case.written.as_bytes(), case.name);
    }
}

// Words outside the command grammar.
static USAGE: [&'static [&'static str]; 12] = [
    &[],
    &["Run"],
    &["run", "run"],
    &["run", "--workers", "0"],
    &["run", "--workers", "17"],
    &["run", "--workers", "04"],
    &["run", "--mult", "fast"],
    &["run", "--"],
    &["rehearse"],
    &["rehearse", "16"],
    &["rehearse", "0,"],
    &["--help"],
];

// The outcome where a call of either end would be a fault.
fn untouched<R: Abort + Threads + Wait + Sync>(rt: &R, alloc: Global, words: &[&str]) -> Outcome {
    let source = source_of(rt, alloc, b"", 1, &[1]);
    let mut sink = sink_of(rt, alloc, 0, 1, &[1]);
    outcome_of(rt, alloc, words, source, &mut sink, &FreeGate::new())
}

#[test]
fn other_words_read_and_write_nothing(rt: HostRuntime) {
    for words in &USAGE {
        let outcome = untouched(&rt, rt.alloc(), words);
        assert_same(&rt, outcome, Outcome::Usage, "outcome");
    }
}
