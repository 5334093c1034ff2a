//! Rows that the calling thread serves alone: tests of batch_alone.

use crate::batch_runner_tests::live::{ADDS, RETIRES};
use crate::batch_runner_tests::other_runs::{bad_runs, others};
use crate::batch_runner_tests::runs::{Run, openings_and_schedules, runs};
use crate::batch_runner_tests::{bytes_of, sink_of, text_of, words_of};
use crate::expected::assert_same;
use aes_gcm::MayCheck;
use batch_alone::serve_alone;
use batch_io::MemorySink;
use batch_serving::Outcome;
use std::alloc::Global;
use std::process::Abort;
use std::thread::Threads;

// How the words end on an input, and what they write.
fn served_alone<R: Abort + Threads>(
    rt: &R,
    alloc: Global,
    words: &[&str],
    input: &[u8],
) -> (Outcome, MemorySink) {
    let words = words_of(rt, alloc, words);
    let mut sink = sink_of(rt, alloc, 32_768, 4096, &[]);
    let permission = MayCheck::on_threads(rt);
    let end = serve_alone(permission, alloc, &words, input, &mut sink);
    (end, sink)
}

// The words end so on an input, and write this text.
fn assert_alone<R: Abort + Threads>(
    rt: &R,
    alloc: Global,
    words: &[&str],
    input: &str,
    end: Outcome,
    text: &str,
    name: &str,
) {
    let (got, sink) = served_alone(rt, alloc, words, input.as_bytes());
    assert_same(rt, got, end, name);
    assert_same(rt, sink.bytes(), text.as_bytes(), name);
}

fn assert_runs<R: Abort + Threads>(rt: &R, alloc: Global, runs: &[Run]) {
    for case in runs {
        assert_alone(
            rt,
            alloc,
            case.words,
            case.input,
            Outcome::Done,
            case.reply,
            case.source,
        );
    }
}

#[test]
fn the_calling_thread_writes_the_same_texts(rt: HostRuntime) {
    let alloc = rt.alloc();
    assert_runs(&rt, alloc, runs());
    assert_runs(&rt, alloc, openings_and_schedules());
    for case in bad_runs() {
        let bad = Outcome::BadBatch {
            line: case.line,
            reason: case.reason,
        };
        assert_alone(&rt, alloc, &["run"], case.input, bad, case.reply, case.what);
    }
}

#[test]
fn the_calling_thread_obeys_each_command(rt: HostRuntime) {
    for case in others() {
        assert_alone(
            &rt,
            rt.alloc(),
            case.words,
            case.input,
            case.outcome,
            case.text,
            case.source,
        );
    }
}

// What `live` answers to a batch, `check` calls legal.
fn assert_legal<R: Abort + Threads>(rt: &R, alloc: Global, batch: &[u8]) {
    let (end, sink) = served_alone(rt, alloc, &["live"], batch);
    assert_same(rt, end, Outcome::Done, "outcome");
    let mut both = bytes_of(rt, alloc, batch);
    both.extend_from_slice(sink.bytes()).expect(rt, "memory");
    let (verdict, told) = served_alone(rt, alloc, &["check", "--live"], &both);
    assert_same(rt, verdict, Outcome::Done, "verdict");
    assert_same(rt, told.bytes(), b"legal\n".as_slice(), "legal");
}

// Own, by hand: the journals and the table of `RETIRES` where lane 0 is served before lane 1. The notes
// of lane 0 are before the place of its opening, and that of the retirement is the last stamp.
const RETIRED_IN_ORDER: &str =
    "\njournal 0\n1 0 0 3\njournal +0\n0 1 0 2\ntable\n0 0 0 0\n0 1 1 1\n1 1 1 4\nend\n";

#[test]
fn live_on_the_calling_thread_is_legal(rt: HostRuntime) {
    let alloc = rt.alloc();
    for batch in [ADDS, RETIRES] {
        assert_legal(&rt, alloc, batch.as_bytes());
    }
    let (_, sink) = served_alone(&rt, alloc, &["live"], RETIRES.as_bytes());
    let ends = text_of(&rt, &sink).ends_with(RETIRED_IN_ORDER);
    assert_same(&rt, ends, true, "lane 0 before lane 1");
}
