//! The gate that holds nobody up, and one that holds one lane up once.

ghost use Rattle.std.specs.Prelude.{◌≡◌};

use crate::outside::{Gate, Point};
use std::sync::atomic::{AtomicBool, Ordering};
use std::thread;

/// A gate that does nothing.
#[derive(Clone, Copy, Debug, Default)]
pub struct FreeGate;

impl FreeGate {
    /// The gate, which has no state.
    pub fn new() -> FreeGate
        ensures { result ≡ record {} }
    {
        FreeGate
    }
}

impl Gate for FreeGate {
    fn reached(&self, _lane: u32, _call: u32, _point: Point) {}
}

// A lane that is held gives its processor up at each turn that this divides.
const YIELD_EVERY: u64 = 1024;

/// A gate that holds a lane at its first point of a kind until another lane has answered a call.
///
/// It makes one order of two lanes certain, for tests. Where both lanes have the same worker the
/// other one never comes, so the lane is held for so many turns at most, each of which is one load.
/// [`gave_up`](HoldGate::gave_up) tells whether they ran out.
#[derive(Debug, Drop)]
pub struct HoldGate {
    lane: u32,
    point: Point,
    until: u32,
    most: u64,
    held: AtomicBool,
    answered: AtomicBool,
    gave_up: AtomicBool,
}

impl HoldGate {
    /// The gate that holds `lane` at its first `point` until lane `until` has answered a call, for
    /// `most` turns at most.
    pub fn new(lane: u32, point: Point, until: u32, most: u64) -> HoldGate {
        HoldGate {
            lane,
            point,
            until,
            most,
            held: AtomicBool::new(false),
            answered: AtomicBool::new(false),
            gave_up: AtomicBool::new(false),
        }
    }

    /// Whether the turns ran out before the other lane had answered.
    pub fn gave_up(&self) -> bool {
        self.gave_up.load(Ordering::SeqCst)
    }

    fn hold(&self) {
        for turn in 0..self.most {
            if self.answered.load(Ordering::SeqCst) {
                return;
            }
            if turn % YIELD_EVERY == 0 {
                thread::yield_now();
            }
        }
        self.gave_up.store(true, Ordering::SeqCst);
    }
}

impl Gate for HoldGate {
    fn reached(&self, lane: u32, _call: u32, point: Point) {
        if point == Point::Answered && lane == self.until {
            self.answered.store(true, Ordering::SeqCst);
        }
        if point == self.point && lane == self.lane && !self.held.swap(true, Ordering::SeqCst) {
            self.hold();
        }
    }
}
