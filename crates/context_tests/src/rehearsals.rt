//! Rehearsals of small batches by schedules, over published messages.

mod plans;
mod rows;
mod wants;

use plans::{
    A0, A1, C0, C1, CHANGED_TAG_AT, FIVE_CHANGED_TAGS_AT, NONE, P, REPLAY_AT, STALE_GUESS_AT,
    TWO_CONTEXTS_AT, X1, export, rehearsed, seal, seal_by_recipient, unseal, unseal_all,
    unseal_by_sender,
};
use rows::{
    ALL_KINDS, CHANGED_TAG, FIVE_CHANGED_TAGS, LANE_1_FIRST, LANES_NOT_THERE, LIMIT_1, REPLAY,
    STALE_GUESS, TWO_CONTEXTS,
};
use std::alloc::Global;
use std::process::Abort;
use std::thread::Threads;
use wants::expect;

fn lane_1_first<R: Threads + Sync + Abort>(rt: &R, alloc: Global) {
    let answers = rehearsed(rt, alloc, 2, &[seal(A1, P)], &[seal(A0, P)], &[1, 0]);
    expect(rt, alloc, &answers, &LANE_1_FIRST);
}

fn lanes_not_there<R: Threads + Sync + Abort>(rt: &R, alloc: Global) {
    let answers = rehearsed(rt, alloc, 2, &[seal(A0, P)], &[seal(A1, P)], &[2, 255]);
    expect(rt, alloc, &answers, &LANES_NOT_THERE);
}

// Own, by hand: lane 1 draws first; and a schedule of lanes that aren't there leaves lane 0 first.
#[test]
fn seals_take_numbers_in_the_order_of_the_schedule(rt: HostRuntime) {
    lane_1_first(&rt, rt.alloc());
    lanes_not_there(&rt, rt.alloc());
}

fn changed_tag<R: Threads + Sync + Abort>(rt: &R, alloc: Global) {
    let answers = rehearsed(rt, alloc, 9, &[unseal_all(CHANGED_TAG_AT, 3)], &[], &[]);
    expect(rt, alloc, &answers, &CHANGED_TAG);
}

fn five_changed_tags<R: Threads + Sync + Abort>(rt: &R, alloc: Global) {
    let answers = rehearsed(
        rt,
        alloc,
        9,
        &[unseal_all(FIVE_CHANGED_TAGS_AT, 6)],
        &[],
        &[],
    );
    expect(rt, alloc, &answers, &FIVE_CHANGED_TAGS);
}

fn stale_guess<R: Threads + Sync + Abort>(rt: &R, alloc: Global) {
    let answers = rehearsed(
        rt,
        alloc,
        9,
        &[unseal_all(STALE_GUESS_AT, 1)],
        &[unseal(A0, C0)],
        &[0, 1, 1, 1, 1],
    );
    expect(rt, alloc, &answers, &STALE_GUESS);
}

fn replay<R: Threads + Sync + Abort>(rt: &R, alloc: Global) {
    let answers = rehearsed(rt, alloc, 9, &[unseal_all(REPLAY_AT, 2)], &[], &[]);
    expect(rt, alloc, &answers, &REPLAY);
}

// Own, by hand: item i is tested ahead at the numbers guess + i - k, for k from 0 to min(i, 3).
#[test]
fn openings_guess_and_settle_by_the_schedule(rt: HostRuntime) {
    changed_tag(&rt, rt.alloc());
    five_changed_tags(&rt, rt.alloc());
    stale_guess(&rt, rt.alloc());
    replay(&rt, rt.alloc());
}

fn two_contexts<R: Threads + Sync + Abort>(rt: &R, alloc: Global) {
    let answers = rehearsed(
        rt,
        alloc,
        9,
        &[seal(A0, P), unseal_all(TWO_CONTEXTS_AT, 2)],
        &[seal(A1, P)],
        &[0, 0, 0, 0, 1, 0],
    );
    expect(rt, alloc, &answers, &TWO_CONTEXTS);
}

fn limit_1<R: Threads + Sync + Abort>(rt: &R, alloc: Global) {
    let answers = rehearsed(
        rt,
        alloc,
        1,
        &[seal(A0, P), seal(A0, P)],
        &[unseal(A0, C0), unseal(A1, C1), unseal(A1, X1)],
        &[],
    );
    expect(rt, alloc, &answers, &LIMIT_1);
}

// Own, by hand: stamps count the places of both contexts; each refusal at LIMIT has its place.
#[test]
fn stamps_and_limits_are_those_of_all_contexts(rt: HostRuntime) {
    two_contexts(&rt, rt.alloc());
    limit_1(&rt, rt.alloc());
}

// By tools/reference/hpkebatch.py of the same batch, `rehearse 0,1,1,1,0,1,0,1,1,0,1`. Both openings
// of lane 0 have steps of their own, and its calls end while lane 1 is in the midst of one.
#[test]
fn each_call_is_answered_with_its_own_number_and_steps(rt: HostRuntime) {
    let answers = rehearsed(
        &rt,
        rt.alloc(),
        9,
        &[
            seal(A1, P),
            unseal_all(CHANGED_TAG_AT, 3),
            export(0, NONE),
            seal_by_recipient(A0, P),
            unseal_all(STALE_GUESS_AT, 1),
        ],
        &[
            unseal_by_sender(A0, C0),
            seal(A0, P),
            unseal(A0, C0),
            export(1, A1),
        ],
        &[0, 1, 1, 1, 0, 1, 0, 1, 1, 0, 1],
    );
    expect(&rt, rt.alloc(), &answers, &ALL_KINDS);
}
