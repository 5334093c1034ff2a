//! The ends in memory, which fail on demand or never, and the gate that holds nobody.

use crate::batch_io_tests::{expect_reads, expect_writes};
use crate::expected::assert_same;
use batch_io::{FreeGate, Gate, Got, MemorySink, MemorySource, Point, PureSink, PureSource, Took};
use std::alloc::Global;
use std::process::Abort;

// All rows: own, counted by hand from the doc comments of `MemorySource` and `MemorySink`.

struct SourceCase {
    name: &'static str,
    step: usize,
    failing: &'static [u32],
    gives: &'static [Got],
}

// Reads of "hpkebatch" into a buffer of 4 bytes.
static SOURCES: [SourceCase; 6] = [
    SourceCase {
        name: "one byte a call",
        step: 1,
        failing: &[],
        gives: &[
            Got::Bytes(1),
            Got::Bytes(1),
            Got::Bytes(1),
            Got::Bytes(1),
            Got::Bytes(1),
            Got::Bytes(1),
            Got::Bytes(1),
            Got::Bytes(1),
            Got::Bytes(1),
            Got::Bytes(0),
        ],
    },
    SourceCase {
        name: "three bytes a call",
        step: 3,
        failing: &[],
        gives: &[Got::Bytes(3), Got::Bytes(3), Got::Bytes(3), Got::Bytes(0)],
    },
    SourceCase {
        name: "more bytes a call than the buffer has",
        step: 4096,
        failing: &[],
        gives: &[Got::Bytes(4), Got::Bytes(4), Got::Bytes(1), Got::Bytes(0)],
    },
    SourceCase {
        name: "the first call fails",
        step: 3,
        failing: &[1],
        gives: &[
            Got::Failed,
            Got::Bytes(3),
            Got::Bytes(3),
            Got::Bytes(3),
            Got::Bytes(0),
        ],
    },
    SourceCase {
        name: "two calls fail in mid-stream",
        step: 4096,
        failing: &[4, 2],
        gives: &[
            Got::Bytes(4),
            Got::Failed,
            Got::Bytes(4),
            Got::Failed,
            Got::Bytes(1),
        ],
    },
    SourceCase {
        name: "a call fails at the end",
        step: 4096,
        failing: &[4],
        gives: &[
            Got::Bytes(4),
            Got::Bytes(4),
            Got::Bytes(1),
            Got::Failed,
            Got::Bytes(0),
        ],
    },
];

struct SinkCase {
    name: &'static str,
    step: usize,
    failing: &'static [u32],
    takes: &'static [Took],
}

// Writes of "hpkebatch", each of all that is left of it, into room for 7 bytes.
static SINKS: [SinkCase; 4] = [
    SinkCase {
        name: "three bytes a call",
        step: 3,
        failing: &[],
        takes: &[Took::Bytes(3), Took::Bytes(3), Took::Bytes(1), Took::Failed],
    },
    SinkCase {
        name: "more bytes a call than there is room",
        step: 4096,
        failing: &[],
        takes: &[Took::Bytes(7), Took::Failed, Took::Failed],
    },
    SinkCase {
        name: "the first call fails",
        step: 4096,
        failing: &[1],
        takes: &[Took::Failed, Took::Bytes(7), Took::Failed],
    },
    SinkCase {
        name: "the second call fails",
        step: 6,
        failing: &[2],
        takes: &[Took::Bytes(6), Took::Failed, Took::Bytes(1), Took::Failed],
    },
];

fn expect_source(rt: &impl Abort, alloc: Global, case: &SourceCase) {
    let bytes = Vec::from_slice(alloc, b"hpkebatch").expect(rt, "memory");
    let failing = Vec::from_slice(alloc, case.failing).expect(rt, "memory");
    let mut source = MemorySource::new(bytes, case.step.max(1), failing);
    expect_reads(rt, &mut source, case.gives, b"hpkebatch", case.name);
}

fn expect_sink(rt: &impl Abort, alloc: Global, case: &SinkCase) {
    let room = vec![in alloc; 0; 7].expect(rt, "memory");
    let failing = Vec::from_slice(alloc, case.failing).expect(rt, "memory");
    let mut sink = MemorySink::new(room, case.step.max(1), failing);
    expect_writes(rt, &mut sink, case.takes, b"hpkebatch", case.name);
    assert_same(rt, sink.bytes(), b"hpkebat".as_slice(), case.name);
}

#[test]
fn ends_in_memory_move_in_steps_and_fail_on_demand(rt: HostRuntime) {
    for case in &SOURCES {
        expect_source(&rt, rt.alloc(), case);
    }
    for case in &SINKS {
        expect_sink(&rt, rt.alloc(), case);
    }
}

fn reach<G: Gate>(gate: &G) {
    gate.reached(0, 0, Point::Drawn);
    gate.reached(1, 0, Point::Guessed);
    gate.reached(0, 0, Point::Answered);
}

#[test]
fn pure_ends_never_fail_and_the_free_gate_holds_nobody(rt: HostRuntime) {
    let bytes = Vec::from_slice(rt.alloc(), b"batch").expect(&rt, "memory");
    let mut source = PureSource::new(bytes);
    let gives = [Got::Bytes(4), Got::Bytes(1), Got::Bytes(0), Got::Bytes(0)];
    expect_reads(&rt, &mut source, &gives, b"batch", "pure source");
    let takes = [Took::Bytes(5), Took::Bytes(0)];
    expect_writes(&rt, &mut PureSink::new(), &takes, b"batch", "pure sink");
    reach(&FreeGate::new());
}
