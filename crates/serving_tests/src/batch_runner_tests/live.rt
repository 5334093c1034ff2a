//! Runs whose lanes add and retire contexts, by threads. Which of the allowed texts comes depends on the
//! threads.

use crate::batch_runner_tests::threads::{MOST_TURNS, sealed_numbers};
use crate::batch_runner_tests::{answer_to, gated_answer_to, repeat, string_of, text_of};
use crate::expected::{assert_at, assert_same};
use batch_io::{Gate, MemorySink, Point};
use batch_runner::Outcome;
use std::alloc::Global;
use std::process::Abort;
use std::sync::Wait;
use std::sync::atomic::{AtomicBool, Ordering};
use std::thread::{self, Threads};

// Two lanes that seal the same text on one context, and then on one that each adds.
pub(crate) const ADDS: &str =
    "hpkebatch 2\nshare send 32 1 1 fe0e18c9f024ce43799ae393c7e8fe8fce9d218875e8227b0187c04e7d2ea1fc base 4f6465206f6e2061204772656369616e2055726e - - 9\nlane\nseal 0 436f756e742d30 4265617574792069732074727574682c20747275746820626561757479\nadd send 32 1 1 fe0e18c9f024ce43799ae393c7e8fe8fce9d218875e8227b0187c04e7d2ea1fc base 4f6465206f6e2061204772656369616e2055726e - - 9\nseal +0 436f756e742d30 4265617574792069732074727574682c20747275746820626561757479\nlane\nseal 0 436f756e742d30 4265617574792069732074727574682c20747275746820626561757479\nadd send 32 1 1 fe0e18c9f024ce43799ae393c7e8fe8fce9d218875e8227b0187c04e7d2ea1fc base 4f6465206f6e2061204772656369616e2055726e - - 9\nseal +1 436f756e742d30 4265617574792069732074727574682c20747275746820626561757479\nend\n";

// The replies to a lane's `add`, and to its seal on the added context (RFC 9180, A.1.1.1).
const ADDED: &str =
    "added\nsealed 0 f938558b5d72f1a23810b4be2ab4f84331acc02fc97babc53a52ae8218a355a96d8770ac83d07bea87e13c512a\n";

// A gate that holds a lane at a point of a call until the other one's call 1 is answered, and that one
// at its first draw until the lane is held.
#[derive(Drop)]
struct CallGate {
    held: u32,
    call: u32,
    point: Point,
    is_held: AtomicBool,
    is_answered: AtomicBool,
    gave_up: AtomicBool,
}

impl CallGate {
    fn new(held: u32, call: u32, point: Point) -> CallGate {
        CallGate {
            held,
            call,
            point,
            is_held: AtomicBool::new(false),
            is_answered: AtomicBool::new(false),
            gave_up: AtomicBool::new(false),
        }
    }

    fn gave_up(&self) -> bool {
        self.gave_up.load(Ordering::SeqCst)
    }

    // Waits until the sign is set, for so many turns at most.
    fn wait(&self, sign: &AtomicBool) {
        for turn in 0..MOST_TURNS {
            if sign.load(Ordering::SeqCst) {
                return;
            }
            if turn % 1024 == 0 {
                thread::yield_now();
            }
        }
        self.gave_up.store(true, Ordering::SeqCst);
    }
}

impl Gate for CallGate {
    fn reached(&self, lane: u32, call: u32, point: Point) {
        if lane == self.held {
            if call == self.call && point == self.point {
                self.is_held.store(true, Ordering::SeqCst);
                self.wait(&self.is_answered);
            }
            return;
        }
        match (call, point) {
            (0, Point::Drawn) => self.wait(&self.is_held),
            (1, Point::Answered) => self.is_answered.store(true, Ordering::SeqCst),
            _ => {}
        }
    }
}

// Whichever lane is held at its first draw, the other one adds a context meanwhile: so no lane waits
// for the other's call to end.
#[test]
fn a_lane_that_is_held_up_holds_no_add_up(rt: HostRuntime) {
    let alloc = rt.alloc();
    for held in 0..2 {
        let gate = CallGate::new(held, 0, Point::Drawn);
        let sink = held_run(&rt, alloc, ADDS, &gate);
        let text = text_of(&rt, &sink);
        assert_same(&rt, count_in(text, ADDED), 2, "what was added");
        let numbers = sorted_numbers(&rt, alloc, text);
        assert_same(&rt, numbers.as_slice(), &[0, 0, 0, 1], "numbers");
    }
}

// The text of a run by two workers that is done, while the gate holds a lane.
fn held_run<R: Abort + Threads + Wait + Sync>(
    rt: &R,
    alloc: Global,
    batch: &str,
    gate: &CallGate,
) -> MemorySink {
    let words = ["live", "--workers", "2"];
    let (outcome, sink) = gated_answer_to(rt, alloc, &words, batch, 4096, gate);
    assert_same(rt, outcome, Outcome::Done, "outcome");
    assert_same(rt, gate.gave_up(), false, "a lane that gave up");
    sink
}

// The numbers of all `sealed` lines, in their own order.
fn sorted_numbers(rt: &impl Abort, alloc: Global, text: &str) -> Vec<u64> {
    let mut numbers = sealed_numbers(rt, alloc, text);
    numbers.sort_unstable();
    numbers
}

// Lane 0 adds a context and opens a message of RFC 9180, A.1.1.1, on it; lane 1 seals that message on
// another context, and then it retires the one that lane 0 added.
pub(crate) const RETIRES: &str =
    "hpkebatch 2\nshare send 32 1 1 fe0e18c9f024ce43799ae393c7e8fe8fce9d218875e8227b0187c04e7d2ea1fc base 4f6465206f6e2061204772656369616e2055726e - - 9\nlane\nadd recv 32 1 1 fe0e18c9f024ce43799ae393c7e8fe8fce9d218875e8227b0187c04e7d2ea1fc base 4f6465206f6e2061204772656369616e2055726e - - 9\nunseal +0 436f756e742d30 f938558b5d72f1a23810b4be2ab4f84331acc02fc97babc53a52ae8218a355a96d8770ac83d07bea87e13c512a\nlane\nseal 0 436f756e742d30 4265617574792069732074727574682c20747275746820626561757479\nretire +0\nend\n";

// What a text has of `RETIRES` where the retirement comes between the look and the opening: the replies,
// the place of the opening behind all notes, and the note of the retirement just before it.
static SERVED: [&str; 3] = [
    "\nlane 0\nadded\nopened 0 4265617574792069732074727574682c20747275746820626561757479\nlane 1\nsealed 0 f938558b5d72f1a23810b4be2ab4f84331acc02fc97babc53a52ae8218a355a96d8770ac83d07bea87e13c512a\nretired\njournal 0\n",
    "\njournal +0\n0 1 0 4\ntable\n0 0 0 ",
    "\n1 1 1 3\nend\n",
];

// A call that has looked its context up is served, also where it is retired before its turn comes.
#[test]
fn a_call_is_served_whose_context_is_retired_behind_its_look(rt: HostRuntime) {
    let gate = CallGate::new(0, 1, Point::Guessed);
    let sink = held_run(&rt, rt.alloc(), RETIRES, &gate);
    let text = text_of(&rt, &sink);
    for piece in SERVED {
        assert_same(&rt, count_in(text, piece), 1, piece);
    }
}

// How often a piece stands in a text: `split` gives one part more.
fn count_in(text: &str, piece: &str) -> usize {
    text.split(piece).count().wrapping_sub(1)
}

// A lane that adds a context, seals on it 50 times, retires it, and seals 50 times more; and one that
// seals on it 100 times, perhaps before it is added, perhaps after it is retired.
fn racing_lanes(rt: &impl Abort, alloc: Global) -> String {
    let mut text = string_of(
        rt,
        alloc,
        "hpkebatch 2\nlane\nadd send 32 1 1 fe0e18c9f024ce43799ae393c7e8fe8fce9d218875e8227b0187c04e7d2ea1fc base - - - 200\n",
    );
    repeat(rt, &mut text, "seal +0 - 00\n", 50);
    repeat(rt, &mut text, "retire +0\n", 1);
    repeat(rt, &mut text, "seal +0 - 00\n", 50);
    repeat(rt, &mut text, "lane\n", 1);
    repeat(rt, &mut text, "seal +0 - 01\n", 100);
    repeat(rt, &mut text, "end\n", 1);
    text
}

// Of the notes of racing lanes, how many of lane 1 found the name live; none where a note doesn't tell
// what those before it left. Lane 0's call 0 is the add, and its call 51 the retire.
fn found_by_lane_1(text: &str) -> Option<usize> {
    let (_, table) = text.split_once("table\n")?;
    let mut live = false;
    let mut found = 0usize;
    for line in table.lines() {
        if line == "end" {
            return Some(found);
        }
        let bit = line.split(" ").nth(2)?;
        if (bit == "1") != live {
            return None;
        }
        if line.starts_with("0 0 ") {
            live = true;
        } else if line.starts_with("0 51 ") {
            live = false;
        } else if line.starts_with("1 ") && live {
            found = found.wrapping_add(1);
        }
    }
    None
}

// The text of a run that is done.
fn done_run<R: Abort + Threads + Wait + Sync>(
    rt: &R,
    alloc: Global,
    batch: &str,
    workers: &str,
) -> MemorySink {
    let words = ["live", "--workers", workers];
    let (outcome, sink) = answer_to(rt, alloc, &words, batch, 4096);
    assert_same(rt, outcome, Outcome::Done, "outcome");
    sink
}

fn assert_refusals(rt: &impl Abort, text: &str, found: usize, workers: &str) {
    let (first, second) = text.split_once("lane 1\n").expect(rt, "two lanes");
    let sealed = count_in(first, "\nsealed ");
    let refused = count_in(first, "refused nocontext\n");
    assert_at(rt, (sealed, refused), (50, 50), "workers", workers);
    let refused = count_in(second, "refused nocontext\n");
    assert_at(rt, refused.wrapping_add(found), 100, "workers", workers);
}

fn assert_numbers(rt: &impl Abort, alloc: Global, text: &str, found: usize, workers: &str) {
    let numbers = sorted_numbers(rt, alloc, text);
    let all = found as u64;
    assert!(rt;
        numbers.iter().copied().eq(0..all.wrapping_add(50)),
        "{workers}"
    );
}

#[test]
fn each_look_is_answered_by_the_table(rt: HostRuntime) {
    let alloc = rt.alloc();
    let batch = racing_lanes(&rt, alloc);
    for workers in ["1", "2", "4"] {
        let sink = done_run(&rt, alloc, &batch, workers);
        let text = text_of(&rt, &sink);
        let found = found_by_lane_1(text).expect(&rt, "a note that tells what is live");
        assert_refusals(&rt, text, found, workers);
        assert_numbers(&rt, alloc, text, found, workers);
    }
}

// Sixteen lanes that add sixteen contexts each, and seal on the first and the last of them all.
fn adding_lanes(rt: &impl Abort, alloc: Global) -> String {
    let mut text = string_of(rt, alloc, "hpkebatch 2\n");
    for _ in 0..16 {
        repeat(rt, &mut text, "lane\n", 1);
        repeat(rt, &mut text, "add send 32 1 1 ab base - - - 9\n", 16);
        repeat(rt, &mut text, "seal +0 - 00\nseal +255 - 00\n", 1);
    }
    repeat(rt, &mut text, "end\n", 1);
    text
}

fn assert_all_added(rt: &impl Abort, text: &str) {
    assert_same(rt, count_in(text, "added\n"), 256, "lines of adds");
    assert_same(rt, count_in(text, "\njournal +"), 256, "journals");
    let (_, table) = text.split_once("table\n").expect(rt, "a table");
    // Each call has a note, and `end` is the last line.
    assert_same(rt, table.lines().count(), 16 * 18 + 1, "lines of the table");
}

#[test]
fn sixteen_lanes_add_256_contexts(rt: HostRuntime) {
    let batch = adding_lanes(&rt, rt.alloc());
    let sink = done_run(&rt, rt.alloc(), &batch, "16");
    assert_all_added(&rt, text_of(&rt, &sink));
}
