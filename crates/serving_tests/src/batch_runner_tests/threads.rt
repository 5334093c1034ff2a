//! Runs whose lanes threads serve. Which of the allowed texts comes depends on the threads.

use crate::batch_runner_tests::{
    answer_to, assert_end, gated_answer_to, repeat, string_of, text_of,
};
use crate::expected::{assert_at, assert_same};
use batch_io::{Gate, HoldGate, Point};
use batch_runner::Outcome;
use std::alloc::Global;
use std::process::Abort;
use std::sync::Wait;
use std::sync::atomic::{AtomicBool, AtomicU32, Ordering};
use std::thread::{self, Threads};

// A turn of a gate that holds a lane is one load: so many are enough on a busy machine.
pub const MOST_TURNS: u64 = 1_000_000_000;

// Source: RFC 9180, A.1.1.1. Lane 0 is held where it has guessed. If it guessed 0, its message is opened
// outside of its table; if lane 1 was quicker, it guessed 1. The text is the same.
const OPENINGS: &str =
    "hpkebatch 1\nshare recv 32 1 1 fe0e18c9f024ce43799ae393c7e8fe8fce9d218875e8227b0187c04e7d2ea1fc base 4f6465206f6e2061204772656369616e2055726e - - 9\nlane\nunseal 0 436f756e742d31 af2d7e9ac9ae7e270f46ba1f975be53c09f8d875bdc8535458c2494e8a6eab251c03d0c22a56b8ca42c2063b84\nlane\nunseal 0 436f756e742d30 f938558b5d72f1a23810b4be2ab4f84331acc02fc97babc53a52ae8218a355a96d8770ac83d07bea87e13c512a\nend\n";

const OPENED: &str =
    "hpkebatch 1\ncontext 0 shared\nlane 0\nopened 1 4265617574792069732074727574682c20747275746820626561757479\nlane 1\nopened 0 4265617574792069732074727574682c20747275746820626561757479\njournal 0\n1 0 0\n0 0 0\nend\n";

// Two lanes that seal the same text on one context.
const SEALS: &str =
    "hpkebatch 1\nshare send 32 1 1 fe0e18c9f024ce43799ae393c7e8fe8fce9d218875e8227b0187c04e7d2ea1fc base 4f6465206f6e2061204772656369616e2055726e - - 9\nlane\nseal 0 436f756e742d30 4265617574792069732074727574682c20747275746820626561757479\nlane\nseal 0 436f756e742d30 4265617574792069732074727574682c20747275746820626561757479\nend\n";

#[test]
fn an_opening_that_is_held_up_is_answered_at_its_place(rt: HostRuntime) {
    let gate = HoldGate::new(0, Point::Guessed, 1, MOST_TURNS);
    let words = ["run", "--workers", "2"];
    let end = gated_answer_to(&rt, rt.alloc(), &words, OPENINGS, 4096, &gate);
    let text = OPENED.as_bytes();
    assert_end(&rt, &end, Outcome::Done, text, "lane 0 is held");
    assert!(rt; !gate.gave_up());
}

// Whichever lane is held at its draw, the other one answers meanwhile: so no lane waits for the other
// lane's call to end, and the text is that of one of the two orders.
#[test]
fn a_seal_that_is_held_up_holds_no_other_lane_up(rt: HostRuntime) {
    let alloc = rt.alloc();
    let (_, first) = answer_to(&rt, alloc, &["rehearse", "0,1"], SEALS, 4096);
    let (_, second) = answer_to(&rt, alloc, &["rehearse", "1,0"], SEALS, 4096);
    assert!(rt; first.bytes() != second.bytes());
    for (held, other) in [(0, 1), (1, 0)] {
        let gate = HoldGate::new(held, Point::Drawn, other, MOST_TURNS);
        let words = ["run", "--workers", "2"];
        let (outcome, sink) = gated_answer_to(&rt, alloc, &words, SEALS, 4096, &gate);
        assert_same(&rt, outcome, Outcome::Done, "outcome");
        assert!(rt; sink.bytes() == first.bytes() || sink.bytes() == second.bytes());
        assert!(rt; !gate.gave_up());
    }
}

// One worker serves lane 0 first.
#[test]
fn one_worker_serves_the_lanes_in_order(rt: HostRuntime) {
    let alloc = rt.alloc();
    let (_, first) = answer_to(&rt, alloc, &["rehearse", "-"], SEALS, 4096);
    let words = ["run", "--mult=plain", "--workers=1"];
    let end = answer_to(&rt, alloc, &words, SEALS, 4096);
    assert_end(&rt, &end, Outcome::Done, first.bytes(), "one worker");
}

// ---- sixteen lanes

// Sixteen lanes that seal two texts each on one context.
fn sixteen_lanes(rt: &impl Abort, alloc: Global) -> String {
    let mut text = string_of(
        rt,
        alloc,
        "hpkebatch 2\nshare send 32 1 1 fe0e18c9f024ce43799ae393c7e8fe8fce9d218875e8227b0187c04e7d2ea1fc base 4f6465206f6e2061204772656369616e2055726e - - 99\n",
    );
    repeat(rt, &mut text, "lane\nseal 0 - 00\nseal 0 - 01\n", 16);
    repeat(rt, &mut text, "end\n", 1);
    text
}

// The numbers of all `sealed` lines, in the order of the text.
pub fn sealed_numbers(rt: &impl Abort, alloc: Global, text: &str) -> Vec<u64> {
    let mut numbers = Vec::new(alloc);
    for line in text.lines() {
        if let Some(rest) = line.strip_prefix("sealed ") {
            let (number, _) = rest.split_once(" ").unwrap_or((rest, ""));
            let number = number.parse::<u64>().expect(rt, "a number");
            numbers.push(number).expect(rt, "memory");
        }
    }
    numbers
}

fn assert_used_once<R: Abort + Threads + Wait + Sync>(
    rt: &R,
    alloc: Global,
    batch: &str,
    workers: &str,
) {
    let words = ["run", "--workers", workers];
    let (outcome, sink) = answer_to(rt, alloc, &words, batch, 4096);
    assert_same(rt, outcome, Outcome::Done, "outcome");
    let mut numbers = sealed_numbers(rt, alloc, text_of(rt, &sink));
    for lane in numbers.chunks(2) {
        assert!(rt; lane.is_sorted(), "{workers}");
    }
    numbers.sort_unstable();
    assert!(rt; numbers.iter().copied().eq(0..32), "{workers}");
}

#[test]
fn each_number_is_used_once_by_whichever_lane(rt: HostRuntime) {
    let batch = sixteen_lanes(&rt, rt.alloc());
    for workers in ["1", "2", "3", "4", "16"] {
        assert_used_once(&rt, rt.alloc(), &batch, workers);
    }
}

// ---- as many lanes at once as there are workers

// A gate at which each lane waits, at its first draw, until so many lanes are there.
#[derive(Drop)]
struct MeetGate {
    lanes: u32,
    there: AtomicU32,
    gave_up: AtomicBool,
}

impl MeetGate {
    fn new(lanes: u32) -> MeetGate {
        MeetGate {
            lanes,
            there: AtomicU32::new(0),
            gave_up: AtomicBool::new(false),
        }
    }

    fn gave_up(&self) -> bool {
        self.gave_up.load(Ordering::SeqCst)
    }

    // Waits until so many lanes are there, for so many turns at most.
    fn meet(&self) {
        self.there.fetch_add(1, Ordering::SeqCst);
        for turn in 0..MOST_TURNS {
            if self.there.load(Ordering::SeqCst) >= self.lanes || self.gave_up() {
                return;
            }
            if turn % 1024 == 0 {
                thread::yield_now();
            }
        }
        self.gave_up.store(true, Ordering::SeqCst);
    }
}

impl Gate for MeetGate {
    fn reached(&self, _lane: u32, call: u32, point: Point) {
        if call == 0 && point == Point::Drawn {
            self.meet();
        }
    }
}

// Four lanes are served at once where the words name no number, and sixteen where they say so.
#[test]
fn each_worker_serves_a_lane_meanwhile(rt: HostRuntime) {
    let batch = sixteen_lanes(&rt, rt.alloc());
    for command in ["run", "live"] {
        assert_meet(&rt, rt.alloc(), &[command], &batch, 4);
        for (workers, lanes) in [("3", 3), ("16", 16)] {
            let words = [command, "--workers", workers];
            assert_meet(&rt, rt.alloc(), &words, &batch, lanes);
        }
    }
}

// So many lanes of the batch are there at once.
fn assert_meet<R: Abort + Threads + Wait + Sync>(
    rt: &R,
    alloc: Global,
    words: &[&str],
    batch: &str,
    lanes: u32,
) {
    let gate = MeetGate::new(lanes);
    let (outcome, _) = gated_answer_to(rt, alloc, words, batch, 4096, &gate);
    assert_at(rt, outcome, Outcome::Done, "outcome", words);
    assert_at(rt, gate.gave_up(), false, "a lane that gave up", words);
}
