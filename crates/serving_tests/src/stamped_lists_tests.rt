//! Stamps for two lists, drawn by one lane.

use crate::expected::assert_same;
use stamp_counter::{StampCounter, draw_stamps};

#[test]
fn stamps_rise_over_two_lists(rt: HostRuntime) {
    let made = StampCounter::new(rt.alloc(), &[3, 3, 0]);
    let (counter, mut seats) = made.expect(&rt, "memory");
    let mut list = seats.take().expect(&rt, "the seat of a list");
    let mut other = seats.take().expect(&rt, "the seat of another list");
    let lane = seats.take().expect(&rt, "the lane's seat");
    let (first, lane) = draw_stamps(&counter, &mut list, lane, 2);
    let (second, lane) = draw_stamps(&counter, &mut other, lane, 3);
    let (third, _) = draw_stamps(&counter, &mut list, lane, 1);
    assert_same(&rt, [first, second, third], [0, 2, 5], "stamps");
}
