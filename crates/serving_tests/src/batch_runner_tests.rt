//! Whole runs over memory: tests of batch_runner, batch_alone and batch_serving.

mod alone;
mod faults;
mod hostile;
mod live;
mod other_runs;
mod rooms;
mod runs;
mod threads;

use crate::batch_runner_tests::other_runs::{Exchange, bad_runs, exchanges, others};
use crate::batch_runner_tests::runs::{Run, openings_and_schedules, runs};
use crate::expected::assert_same;
use batch_io::{FreeGate, Gate, MemorySink, MemorySource, PureSink, PureSource};
use batch_runner::{Outcome, serve_pure, serve_words, status};
use request_frames::Reason;
use result_lines::Verdict;
use std::alloc::Global;
use std::process::Abort;
use std::sync::Wait;
use std::thread::Threads;

// The shortest batch, which is its own reply.
pub const EMPTY: &'static str = "hpkebatch 1\nend\n";

// Words that ask for a run.
static RUN_WORDS: [&'static [&'static str]; 4] = [
    &["run"],
    &["run", "--workers", "16"],
    &["run", "--mult=karatsuba", "--workers=1"],
    &["run", "--mult", "lanes"],
];

pub fn words_of(rt: &impl Abort, alloc: Global, words: &[&str]) -> Vec<String> {
    let mut owned = Vec::new(alloc);
    for word in words {
        let word = String::from_str(alloc, word).expect(rt, "memory");
        owned.push(word).expect(rt, "memory");
    }
    owned
}

pub fn bytes_of(rt: &impl Abort, alloc: Global, text: &[u8]) -> Vec<u8> {
    text.to_vec(alloc).expect(rt, "memory")
}

// The text of what was written.
pub fn text_of<'a>(rt: &impl Abort, sink: &'a MemorySink) -> &'a str {
    str::from_utf8(sink.bytes()).expect(rt, "a text")
}

// A sink with so much room, some writes of which fail.
pub fn sink_of(
    rt: &impl Abort,
    alloc: Global,
    room: usize,
    step: usize,
    failing: &[u32],
) -> MemorySink {
    let room = vec![in alloc; 0; room].expect(rt, "memory");
    let failing = failing.to_vec(alloc).expect(rt, "memory");
    MemorySink::new(room, step.max(1), failing)
}

// A source of this input, some reads of which fail.
pub fn source_of(
    rt: &impl Abort,
    alloc: Global,
    input: &[u8],
    step: usize,
    failing: &[u32],
) -> MemorySource {
    let input = bytes_of(rt, alloc, input);
    let failing = failing.to_vec(alloc).expect(rt, "memory");
    MemorySource::new(input, step.max(1), failing)
}

// The outcome of these words over a source and a sink.
pub fn outcome_of<R: Abort + Threads + Wait + Sync, G: Gate + Sync>(
    rt: &R,
    alloc: Global,
    words: &[&str],
    mut source: MemorySource,
    sink: &mut MemorySink,
    gate: &G,
) -> Outcome {
    let words = words_of(rt, alloc, words);
    serve_words(rt, alloc, &words, &mut source, sink, gate)
}

// The text that an input is answered, and the outcome, where the lanes tell this gate their points.
pub fn gated_answer_to<R: Abort + Threads + Wait + Sync, G: Gate + Sync>(
    rt: &R,
    alloc: Global,
    words: &[&str],
    input: &str,
    step: usize,
    gate: &G,
) -> (Outcome, MemorySink) {
    let source = source_of(rt, alloc, input.as_bytes(), step, &[]);
    let mut sink = sink_of(rt, alloc, 32_768, 4096, &[]);
    let outcome = outcome_of(rt, alloc, words, source, &mut sink, gate);
    (outcome, sink)
}

pub fn answer_to<R: Abort + Threads + Wait + Sync>(
    rt: &R,
    alloc: Global,
    words: &[&str],
    input: &str,
    step: usize,
) -> (Outcome, MemorySink) {
    gated_answer_to(rt, alloc, words, input, step, &FreeGate::new())
}

// An end with this outcome and this text.
pub fn assert_end(
    rt: &impl Abort,
    end: &(Outcome, MemorySink),
    outcome: Outcome,
    text: &[u8],
    name: &str,
) {
    assert_same(rt, end.0, outcome, name);
    assert_same(rt, end.1.bytes(), text, name);
}

// Each run is done, with its text.
fn assert_runs<R: Abort + Threads + Wait + Sync>(rt: &R, alloc: Global, runs: &[Run]) {
    for case in runs {
        let end = answer_to(rt, alloc, case.words, case.input, case.step);
        assert_end(rt, &end, Outcome::Done, case.reply.as_bytes(), case.source);
    }
}

#[test]
fn each_batch_of_at_most_one_lane_gets_its_text(rt: HostRuntime) {
    assert_runs(&rt, rt.alloc(), runs());
}

#[test]
fn each_batch_with_an_opening_or_a_schedule_gets_its_text(rt: HostRuntime) {
    assert_runs(&rt, rt.alloc(), openings_and_schedules());
}

#[test]
fn each_other_command_writes_its_text(rt: HostRuntime) {
    for case in others() {
        let end = answer_to(&rt, rt.alloc(), case.words, case.input, 4096);
        assert_end(&rt, &end, case.outcome, case.text.as_bytes(), case.source);
    }
}

#[test]
fn each_bad_line_is_named(rt: HostRuntime) {
    for case in bad_runs() {
        let bad = Outcome::BadBatch {
            line: case.line,
            reason: case.reason,
        };
        let end = answer_to(&rt, rt.alloc(), &["run"], case.input, 4096);
        assert_end(&rt, &end, bad, case.reply.as_bytes(), case.what);
    }
}

#[test]
fn each_option_of_run_is_taken(rt: HostRuntime) {
    for words in &RUN_WORDS {
        let end = answer_to(&rt, rt.alloc(), words, EMPTY, 4096);
        let text = EMPTY.as_bytes();
        assert_end(&rt, &end, Outcome::Done, text, "the shortest batch");
    }
}

// Each multiplier's text is the plain one's.
fn assert_exchange<R: Abort + Threads + Wait + Sync>(rt: &R, alloc: Global, case: &Exchange) {
    let (_, plain) = answer_to(rt, alloc, &["run"], case.input, 4096);
    assert_same(rt, plain.bytes().len(), case.size, case.source);
    let ends = plain.bytes().ends_with(case.lanes.as_bytes());
    assert_same(rt, ends, true, case.source);
    for words in &RUN_WORDS {
        let end = answer_to(rt, alloc, words, case.input, 4096);
        assert_end(rt, &end, Outcome::Done, plain.bytes(), case.source);
    }
}

#[test]
fn keys_are_the_same_with_each_multiplier(rt: HostRuntime) {
    for case in exchanges() {
        assert_exchange(&rt, rt.alloc(), case);
    }
}

#[test]
fn pure_ends_are_served(rt: HostRuntime) {
    let alloc = rt.alloc();
    let words = words_of(&rt, alloc, &["run"]);
    let mut source = PureSource::new(bytes_of(&rt, alloc, EMPTY.as_bytes()));
    let mut sink = PureSink::new();
    let gate = FreeGate::new();
    let outcome = serve_pure(&rt, alloc, &words, &mut source, &mut sink, &gate);
    assert_same(&rt, outcome, Outcome::Done, "outcome");
}

#[test]
fn statuses_are_those_of_the_manual(rt: HostRuntime) {
    let bad = Outcome::BadBatch {
        line: 1,
        reason: Reason::Header,
    };
    let broken = Outcome::Broken {
        verdict: Verdict::Stamps,
    };
    let rows = [
        (Outcome::Done, 0),
        (Outcome::Usage, 2),
        (bad, 3),
        (Outcome::ReadFault, 4),
        (Outcome::WriteFault, 5),
        (Outcome::OutOfMemory, 6),
        (broken, 7),
    ];
    for (outcome, want) in rows {
        assert_same(&rt, status(&outcome), want, "status");
    }
}

// The text, and behind it a piece so many times.
pub fn repeat(rt: &impl Abort, text: &mut String, piece: &str, count: usize) {
    for _ in 0..count {
        text.push_str(piece).expect(rt, "memory");
    }
}

pub fn string_of(rt: &impl Abort, alloc: Global, text: &str) -> String {
    String::from_str(alloc, text).expect(rt, "memory")
}

// One batch's outcome and text in this schedule.
fn rehearse<R: Abort + Threads + Wait + Sync>(
    rt: &R,
    alloc: Global,
    steps: &str,
) -> (Outcome, MemorySink) {
    answer_to(rt, alloc, &["rehearse", steps], runs()[1].input, 4096)
}

// Numbers of lanes that aren't there do nothing: so the text is that of no schedule.
#[test]
fn the_longest_schedule_is_taken(rt: HostRuntime) {
    let alloc = rt.alloc();
    let mut steps = string_of(&rt, alloc, "15");
    repeat(&rt, &mut steps, ",15", 65_535);
    let (_, none) = rehearse(&rt, alloc, "-");
    let end = rehearse(&rt, alloc, &steps);
    assert_end(&rt, &end, Outcome::Done, none.bytes(), "65,536 steps");
    repeat(&rt, &mut steps, ",15", 1);
    let end = rehearse(&rt, alloc, &steps);
    assert_end(&rt, &end, Outcome::Usage, b"", "65,537 steps");
}
