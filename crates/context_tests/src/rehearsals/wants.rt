//! What the lanes of a rehearsal are answered with.

use crate::expected::assert_same;
use batch_plans::{Answers, Batch, LaneAnswers, Reply};
use call_places::{Mark, Place};
use hex::decode;
use std::alloc::Global;
use std::process::Abort;

// What a lane is answered with; the parts of its pool are in hex.
#[derive(Clone, Copy)]
pub(crate) struct LaneWant {
    pub(crate) pool: &'static [&'static str],
    pub(crate) replies: &'static [Reply],
    pub(crate) batches: &'static [Batch],
}

// What a rehearsal gives: the answers of two lanes, and the journals of context 0 and context 1, each
// mark by lane, call, item and stamp.
pub(crate) struct Want {
    pub(crate) name: &'static str,
    pub(crate) lanes: &'static [LaneWant; 2],
    pub(crate) journals: [&'static [(u32, u32, u32, u64)]; 2],
}

fn pool_of(rt: &impl Abort, alloc: Global, want: &LaneWant) -> Vec<u8> {
    let mut pool = Vec::new(alloc);
    for part in want.pool {
        let part = decode(alloc, part).expect(rt, "hex");
        pool.extend_from_slice(part.as_slice()).expect(rt, "memory");
    }
    pool
}

fn expect_lane(rt: &impl Abort, alloc: Global, name: &str, lane: &LaneAnswers, want: &LaneWant) {
    let pool = pool_of(rt, alloc, want);
    assert_same(rt, lane.replies.as_slice(), want.replies, name);
    assert_same(rt, lane.batches.as_slice(), want.batches, name);
    assert_same(rt, lane.pool.as_slice(), pool.as_slice(), name);
}

fn expect_journal(rt: &impl Abort, name: &str, journal: &[Mark], want: &[(u32, u32, u32, u64)]) {
    assert_same(rt, journal.len(), want.len(), name);
    for (mark, (lane, call, item, stamp)) in journal.iter().zip(want) {
        let place = Place {
            lane: *lane,
            call: *call,
            item: *item,
        };
        assert_same(
            rt,
            *mark,
            Mark {
                place,
                stamp: *stamp,
            },
            name,
        );
    }
}

pub(crate) fn expect(rt: &impl Abort, alloc: Global, answers: &Answers, want: &Want) {
    let name = want.name;
    assert_same(rt, answers.lanes.as_slice().len(), 2, name);
    for (lane, want) in answers.lanes.as_slice().iter().zip(want.lanes) {
        expect_lane(rt, alloc, name, lane, want);
    }
    assert_same(rt, answers.journals.as_slice().len(), 2, name);
    for (journal, want) in answers.journals.as_slice().iter().zip(&want.journals) {
        expect_journal(rt, name, journal.as_slice(), want);
    }
}
