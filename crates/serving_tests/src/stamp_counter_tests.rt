//! The counter by itself, and shared by eight threads.

ghost use Rattle.std.specs.Prelude.{◌≡◌, ◌+◌, ◌*◌, length, vec_len, All, IfOk, IfSome};
ghost use Rattle.serving_tests.specs.Seats.{Holds, MayDraw};

use crate::expected::assert_same;
use stamp_counter::{
    SeatList, StampCounter, StampSeat, each_step_keeps_the_rule, the_rule_tells_stamps_apart,
};
use std::alloc::{AllocError as OutOfMemory, Global};
use std::process::Abort;
use std::sync::atomic::{AtomicBool, Ordering};
use std::thread::{Threads, for_each_mut};

#[test]
fn stamps_are_drawn_once_each(rt: HostRuntime) {
    let made = StampCounter::new(rt.alloc(), &[2, 1]);
    let (counter, mut seats) = made.expect(&rt, "memory");
    let mut first = seats.take().expect(&rt, "the first seat");
    let mut second = seats.take().expect(&rt, "the second seat");
    assert!(rt; seats.take().is_none());
    let drawn = counter.draw(&mut first, 1);
    assert_same(&rt, drawn, 0, "a stamp of the first seat");
    let drawn = counter.draw(&mut second, 1);
    assert_same(&rt, drawn, 1, "a stamp of the second seat");
    let drawn = counter.draw(&mut first, 1);
    assert_same(&rt, drawn, 2, "a stamp of the first seat");
    counter.join(&mut first, second);
    assert_same(&rt, counter.close(first), 3, "stamps drawn");
    the_rule_tells_stamps_apart();
    each_step_keeps_the_rule();
}

fn set_mark(marks: &[AtomicBool], stamp: u64) {
    if let Some(mark) = marks.get(stamp as usize) {
        mark.store(true, Ordering::SeqCst);
    }
}

// Draws 250 stamps, one after another, and marks each.
fn draw_each(counter: &StampCounter, marks: &[AtomicBool], seat: &mut StampSeat)
    requires { MayDraw counter.now.id seat.old }
    ensures { Holds counter.now.id seat.new }
{
    for _ in 0..250u32 {
        set_mark(marks, counter.draw(seat, 1));
    }
}

// Eight threads draw from one counter.
fn draw_all<R: Threads + Sync>(
    rt: &R,
    counter: &StampCounter,
    marks: &[AtomicBool],
    seats: &mut [StampSeat],
)
    requires { All (MayDraw counter.now.id) seats.old }
    ensures { All (Holds counter.now.id) seats.new × (length seats.new ≡ length seats.old) }
{
    for_each_mut(rt, seats, 8, &|_, seat| draw_each(counter, marks, seat));
}

// The seats of a new counter.
fn hand_out(alloc: Global, mut list: SeatList) -> Result<Vec<StampSeat>, OutOfMemory>
    ensures { IfOk result (λ v. v.items ≡ list) }
{
    let mut seats = Vec::new(alloc);
    while let Some(seat) = list.take() {
        seats.push(seat)?;
    }
    Ok(seats)
}

// One seat, with all that these drew and have left.
fn join_all(counter: &StampCounter, mut seats: Vec<StampSeat>) -> Option<StampSeat>
    requires { All (Holds counter.now.id) seats.items }
    ensures { IfSome result (λ s. (s.counter ≡ counter.now.id)
        × (length s.drawn + s.left ≡ 250 * vec_len seats)) }
{
    let mut all = seats.pop()?;
    while let Some(seat) = seats.pop() {
        counter.join(&mut all, seat);
    }
    Some(all)
}

// So many marks, and none is set.
fn no_marks(rt: &impl Abort, alloc: Global, count: usize) -> Vec<AtomicBool> {
    let mut marks = Vec::new(alloc);
    for _ in 0..count {
        marks.push(AtomicBool::new(false)).expect(rt, "memory");
    }
    marks
}

// 2000 draws mark 2000 numbers: so each of them is drawn once.
#[test]
fn eight_threads_draw_each_stamp_once(rt: HostRuntime) {
    let made = StampCounter::new(rt.alloc(), &[250; 8]);
    let (counter, list) = made.expect(&rt, "memory");
    let mut seats = hand_out(rt.alloc(), list).expect(&rt, "memory");
    let marks = no_marks(&rt, rt.alloc(), 2000);
    draw_all(&rt, &counter, &marks, seats.as_mut_slice());
    assert!(rt; marks.iter().all(|mark| mark.load(Ordering::SeqCst)));
    let seat = join_all(&counter, seats).expect(&rt, "a seat");
    assert_same(&rt, counter.close(seat), 2000, "stamps drawn");
}
