//! Replies to whole batches, from answers that are given, against their text by hand.

use crate::request_frames_tests::answers::{list, plan_of};
use crate::request_frames_tests::expected::expect_whole;
use crate::request_frames_tests::reply_rows::{LaneCase, POOL, REPLIES, ReplyCase};
use call_places::{Mark, Place};
use request_frames::{Answers, ContextReply, LaneAnswers, LaneLines, PlainList};
use std::alloc::{AllocError, Global};
use std::process::Abort;

fn lanes_of(rt: &impl Abort, alloc: Global, cases: &[LaneCase]) -> Result<LaneLines, AllocError> {
    let mut lanes = Vec::new(alloc);
    for case in cases {
        lanes.push(list(rt, alloc, case.calls))?;
    }
    Ok(PlainList::from_vec(lanes))
}

fn journal_of(
    alloc: Global,
    marks: &[(u32, u32, u32, u64)],
) -> Result<PlainList<Mark>, AllocError> {
    let mut journal = Vec::new(alloc);
    for (lane, call, item, stamp) in marks {
        let place = Place {
            lane: *lane,
            call: *call,
            item: *item,
        };
        journal.push(Mark {
            place,
            stamp: *stamp,
        })?;
    }
    Ok(PlainList::from_vec(journal))
}

fn contexts_of(alloc: Global, count: usize) -> Result<PlainList<ContextReply>, AllocError> {
    let mut contexts = Vec::new(alloc);
    for _context in 0..count {
        contexts.push(ContextReply::Shared)?;
    }
    Ok(PlainList::from_vec(contexts))
}

fn lane_answers_of(
    rt: &impl Abort,
    alloc: Global,
    cases: &[LaneCase],
) -> Result<PlainList<LaneAnswers>, AllocError> {
    let mut lanes = Vec::new(alloc);
    for lane in cases {
        lanes.push(LaneAnswers {
            pool: list(rt, alloc, POOL.as_slice()),
            replies: list(rt, alloc, lane.replies),
            batches: list(rt, alloc, lane.batches),
        })?;
    }
    Ok(PlainList::from_vec(lanes))
}

fn journals_of(
    alloc: Global,
    cases: &[&[(u32, u32, u32, u64)]],
) -> Result<PlainList<PlainList<Mark>>, AllocError> {
    let mut journals = Vec::new(alloc);
    for marks in cases {
        journals.push(journal_of(alloc, marks)?)?;
    }
    Ok(PlainList::from_vec(journals))
}

fn answers_of(rt: &impl Abort, alloc: Global, case: &ReplyCase) -> Answers {
    Answers {
        keys: PlainList::from_vec(Vec::new(alloc)),
        contexts: contexts_of(alloc, case.contexts).expect(rt, "memory"),
        lanes: lane_answers_of(rt, alloc, case.lanes).expect(rt, "memory"),
        journals: journals_of(alloc, case.journals).expect(rt, "memory"),
        notes: PlainList::from_vec(Vec::new(alloc)),
    }
}

fn expect_case(rt: &impl Abort, alloc: Global, case: &ReplyCase) {
    let lanes = lanes_of(rt, alloc, case.lanes).expect(rt, "memory");
    let plan = plan_of(rt, alloc, case.version, 0, case.contexts, lanes);
    let answers = answers_of(rt, alloc, case);
    let text = case.text.as_bytes();
    expect_whole(rt, alloc, &plan, &answers, text, case.source);
    drop(plan);
    drop(answers);
}

#[test]
fn each_call_has_its_lines(rt: HostRuntime) {
    for case in &REPLIES {
        expect_case(&rt, rt.alloc(), case);
    }
}
