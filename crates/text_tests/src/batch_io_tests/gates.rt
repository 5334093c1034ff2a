//! The gate that holds a lane until another has answered.

use crate::expected::assert_same;
use batch_io::{Gate, HoldGate, Point};
use std::sync::atomic::{AtomicBool, Ordering};
use std::thread;

// Far more turns than another thread needs to come.
const TURNS: u64 = 1_000_000_000;

// Turns of lane 1 before it answers: so many that a lane that isn't held is past its point by then.
const LATE: u32 = 1_000;

// Lane 1 raises the flag before it answers, and lane 0 looks at it once it is past its point.
#[test]
fn a_lane_is_held_until_the_other_has_answered(rt: HostRuntime) {
    let gate = HoldGate::new(0, Point::Drawn, 1, TURNS);
    let flag = AtomicBool::new(false);
    let (shared, answers) = (&gate, &flag);
    let (was_held, ()) = thread::join(
        &rt,
        || {
            shared.reached(0, 0, Point::Drawn);
            answers.load(Ordering::SeqCst)
        },
        || {
            for _ in 0..LATE {
                thread::yield_now();
            }
            answers.store(true, Ordering::SeqCst);
            shared.reached(1, 0, Point::Answered)
        },
    );
    assert_same(&rt, was_held, true, "held");
    assert_same(&rt, gate.gave_up(), false, "gave up");
}

#[test]
fn one_lane_is_held_and_at_one_kind_of_point_alone(rt: HostRuntime) {
    let gate = HoldGate::new(0, Point::Guessed, 1, 10);
    gate.reached(0, 0, Point::Drawn);
    gate.reached(2, 0, Point::Guessed);
    assert_same(
        &rt,
        gate.gave_up(),
        false,
        "gave up at another lane or point",
    );
    gate.reached(0, 1, Point::Guessed);
    assert_same(&rt, gate.gave_up(), true, "gave up");
}
