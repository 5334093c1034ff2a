//! Replies that are printed, whole and cut short.

use crate::expected::assert_same;
use crate::printable::is_answered;
use crate::sinks::sink_of;
use batch_plans::{
    Answers, Batch, CallRefusal, ContextReply, KeyReply, LaneAnswers, PlainList, Plan, Reply,
};
use call_places::{Act, Entry, Mark, Place, Span, Step};
use field_text::Printed;
use live_frames::{print_live, read_live};
use std::alloc::{AllocError, Global};
use std::process::Abort;

// A reply to a batch, by what is answered. All are own, made by hand from the format.
struct Case {
    source: &'static str,
    batch: &'static [u8],
    keys: usize,
    replies: &'static [Reply],
    batches: &'static [Batch],
    // Each place by its call, its item and its stamp.
    journals: &'static [&'static [(u32, u32, u64)]],
    // Each note by its call, its act, whether the name was live, and its stamp.
    notes: &'static [(u32, Act, bool, u64)],
    text: &'static [u8],
}

// What the spans of each reply name.
const POOL: [u8; 2] = [0xc0, 0xc1];

// The guess of the opening that was served, and the room that the refused one left.
const GUESSES: [Batch; 2] = [
    Batch {
        guess: 7,
        missed: 2,
    },
    Batch {
        guess: 0,
        missed: 0,
    },
];

static CASES: [Case; 2] = [
    Case {
        source: "own: a context is called before it is added, while it is live, and after it is retired",
        batch: b"hpkebatch 2\nlane\nseal +0 a0 b0b1\nadd send 32 1 1 5e base 1f - - 9\nseal +0 a0 b0b1\nretire +0\nseal +0 a0 b0b1\nend\n",
        keys: 0,
        replies: &[
            Reply::Refused(CallRefusal::NoContext),
            Reply::Added,
            Reply::Sealed {
                number: 0,
                text: Span { start: 0, len: 2 },
            },
            Reply::Retired,
            Reply::Refused(CallRefusal::NoContext),
        ],
        batches: &[],
        journals: &[&[(2, 0, 3)]],
        notes: &[
            (0, Act::Look, false, 0),
            (1, Act::Add, false, 1),
            (2, Act::Look, true, 2),
            (3, Act::Retire, true, 4),
            (4, Act::Look, false, 5),
        ],
        text: b"hpkebatch 2\nlane 0\nrefused nocontext\nadded\nsealed 0 c0c1\nretired\nrefused nocontext\njournal +0\n0 2 0 3\ntable\n0 0 0 0\n0 1 0 1\n0 2 1 2\n0 3 1 4\n0 4 0 5\nend\n",
    },
    Case {
        source: "own: an opening of several messages that is refused has one line, whatever room it had",
        batch: b"hpkebatch 2\npeer 00\nshare recv 32 1 1 5e base - - - 9\nlane\nunsealall +0 - 00 - 11 - 22\nadd recv 32 1 1 5e psk - - - 9\nunsealall 0 - 00 - 11\nend\n",
        keys: 1,
        replies: &[
            Reply::Refused(CallRefusal::NoContext),
            Reply::Blank,
            Reply::Blank,
            Reply::Refused(CallRefusal::PskMissing),
            Reply::Opened {
                number: 0,
                text: Span { start: 1, len: 1 },
            },
            Reply::Failed { number: 1 },
        ],
        batches: &GUESSES,
        journals: &[&[(2, 0, 1), (2, 1, 2)], &[]],
        notes: &[(0, Act::Look, false, 0)],
        text: b"hpkebatch 2\nkey 0 peer\ncontext 0 shared\nlane 0\nrefused nocontext\nrefused pskmissing\nopened 0 c1\nfailed 1\nbatch 7 2\njournal 0\n0 2 0 1\n0 2 1 2\njournal +0\ntable\n0 0 0 0\nend\n",
    },
];

fn place(call: u32, item: u32) -> Place {
    Place {
        lane: 0,
        call,
        item,
    }
}

fn journal(rt: &impl Abort, alloc: Global, places: &[(u32, u32, u64)]) -> PlainList<Mark> {
    let mut marks = Vec::new(alloc);
    for (call, item, stamp) in places {
        let mark = Mark {
            place: place(*call, *item),
            stamp: *stamp,
        };
        marks.push(mark).expect(rt, "memory");
    }
    PlainList::from_vec(marks)
}

fn table(rt: &impl Abort, alloc: Global, notes: &[(u32, Act, bool, u64)]) -> PlainList<Entry> {
    let mut entries = Vec::new(alloc);
    for (call, act, live, stamp) in notes {
        let entry = Entry {
            place: place(*call, 0),
            stamp: *stamp,
            step: Step::Note {
                name: 0,
                act: *act,
                live: *live,
            },
        };
        entries.push(entry).expect(rt, "memory");
    }
    PlainList::from_vec(entries)
}

fn list<T: Copy>(rt: &impl Abort, alloc: Global, items: &[T]) -> PlainList<T> {
    PlainList::from_vec(items.to_vec(alloc).expect(rt, "memory"))
}

fn keys(alloc: Global, count: usize) -> Result<PlainList<KeyReply>, AllocError> {
    let mut keys = Vec::new(alloc);
    for _ in 0..count {
        keys.push(KeyReply::Peer)?;
    }
    Ok(PlainList::from_vec(keys))
}

fn contexts(alloc: Global, count: usize) -> Result<PlainList<ContextReply>, AllocError> {
    let mut contexts = Vec::new(alloc);
    for _ in 0..count {
        contexts.push(ContextReply::Shared)?;
    }
    Ok(PlainList::from_vec(contexts))
}

fn lanes(
    rt: &impl Abort,
    alloc: Global,
    case: &Case,
) -> Result<PlainList<LaneAnswers>, AllocError> {
    let lane = LaneAnswers {
        pool: list(rt, alloc, POOL.as_slice()),
        replies: list(rt, alloc, case.replies),
        batches: list(rt, alloc, case.batches),
    };
    let mut lanes = Vec::new(alloc);
    lanes.push(lane)?;
    Ok(PlainList::from_vec(lanes))
}

fn journals(
    rt: &impl Abort,
    alloc: Global,
    case: &Case,
) -> Result<PlainList<PlainList<Mark>>, AllocError> {
    let mut journals = Vec::new(alloc);
    for marks in case.journals {
        journals.push(journal(rt, alloc, marks))?;
    }
    Ok(PlainList::from_vec(journals))
}

fn answers(rt: &impl Abort, alloc: Global, case: &Case) -> Answers {
    Answers {
        keys: keys(alloc, case.keys).expect(rt, "memory"),
        contexts: contexts(alloc, case.journals.len()).expect(rt, "memory"),
        lanes: lanes(rt, alloc, case).expect(rt, "memory"),
        journals: journals(rt, alloc, case).expect(rt, "memory"),
        notes: table(rt, alloc, case.notes),
    }
}

fn expect_whole(rt: &impl Abort, alloc: Global, plan: &Plan, answers: &Answers, case: &Case) {
    let source = case.source;
    assert!(rt; is_answered(plan, answers), "{source}");
    let mut sink = sink_of(rt, alloc, 1_000, 0);
    let printed = print_live(plan, answers, &mut sink);
    assert_same(rt, printed, Printed::Whole, source);
    assert_same(rt, sink.bytes(), case.text, source);
}

// The second call of the sink fails.
fn expect_cut_short(rt: &impl Abort, alloc: Global, plan: &Plan, answers: &Answers, case: &Case) {
    let source = case.source;
    assert!(rt; is_answered(plan, answers), "{source}");
    let mut sink = sink_of(rt, alloc, 1_000, 2);
    let printed = print_live(plan, answers, &mut sink);
    assert_same(rt, printed, Printed::Failed, source);
    assert_same(rt, sink.bytes().len(), 100, source);
    let is_front = case.text.starts_with(sink.bytes());
    assert_same(rt, is_front, true, source);
}

fn expect_printed(rt: &impl Abort, alloc: Global, plan: &Plan, case: &Case) {
    let answers = answers(rt, alloc, case);
    expect_whole(rt, alloc, plan, &answers, case);
    expect_cut_short(rt, alloc, plan, &answers, case);
    drop(answers);
}

#[test]
fn a_reply_is_printed_whole_or_cut_short(rt: HostRuntime) {
    let alloc = rt.alloc();
    for case in &CASES {
        match read_live(alloc, case.batch) {
            Ok(plan) => {
                expect_printed(&rt, alloc, &plan, case);
                drop(plan);
            }
            Err(_) => panic!(rt; "not read"),
        }
    }
}
