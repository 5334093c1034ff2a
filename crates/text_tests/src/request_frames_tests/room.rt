//! The refusals of a plan's calls, and the room for its replies.

ghost use Rattle.std.specs.Prelude.{◌≡◌, length};
ghost use Rattle.batch_plans.specs.Within.{IsWithinLimits};

use crate::expected::assert_same;
use call_places::Span;
use request_frames::{
    Answers, Batch, CallRefusal, ContextReply, LaneAnswers, LaneProgress, PlainList, Plan, Reply,
    call_refusal, read_batch,
};
use std::alloc::Global;
use std::process::Abort;

// A batch of one lane with the export limits of its contexts, and what is due for it: the refusal
// of each call, the bytes of all replies, how many replies and guesses there are, and the places of
// each journal.
struct RoomCase {
    source: &'static str,
    text: &'static str,
    export_limits: &'static [u32],
    refusals: &'static [Option<CallRefusal>],
    bytes: usize,
    replies: usize,
    batches: usize,
    places: &'static [usize],
}

static ROOMS: [RoomCase; 6] = [
    RoomCase {
        source: "RFC 9180, A.1.1.1, sequence numbers 0 and 1: two seals",
        text: "hpkebatch 1\nshare send 32 1 1 fe0e18c9f024ce43799ae393c7e8fe8fce9d218875e8227b0187c04e7d2ea1fc base 4f6465206f6e2061204772656369616e2055726e - - 2\nlane\nseal 0 436f756e742d30 4265617574792069732074727574682c20747275746820626561757479\nseal 0 436f756e742d31 4265617574792069732074727574682c20747275746820626561757479\nend\n",
        export_limits: &[8_160],
        refusals: &[None, None],
        bytes: 90,
        replies: 2,
        batches: 0,
        places: &[2],
    },
    RoomCase {
        source: "RFC 9180, A.1.1.1: both messages opened, and the second with another tag",
        text: "hpkebatch 1\nshare recv 32 1 1 fe0e18c9f024ce43799ae393c7e8fe8fce9d218875e8227b0187c04e7d2ea1fc base 4f6465206f6e2061204772656369616e2055726e - - 1\nlane\nunseal 0 436f756e742d30 f938558b5d72f1a23810b4be2ab4f84331acc02fc97babc53a52ae8218a355a96d8770ac83d07bea87e13c512a\nunseal 0 436f756e742d31 af2d7e9ac9ae7e270f46ba1f975be53c09f8d875bdc8535458c2494e8a6eab251c03d0c22a56b8ca42c2063b84\nunseal 0 436f756e742d31 af2d7e9ac9ae7e270f46ba1f975be53c09f8d875bdc8535458c2494e8a6eab251c03d0c22a56b8ca42c2063b85\nend\n",
        export_limits: &[8_160],
        refusals: &[None, None, None],
        bytes: 87,
        replies: 3,
        batches: 0,
        places: &[3],
    },
    RoomCase {
        source: "own: an export-only context",
        text: "hpkebatch 1\nshare send 32 1 65535 fe0e18c9f024ce43799ae393c7e8fe8fce9d218875e8227b0187c04e7d2ea1fc base - - - 1\nlane\nseal 0 - -\nexport 0 - 8160\nexport 0 - 8161\nexport 0 - 0\nend\n",
        export_limits: &[8_160],
        refusals: &[
            Some(CallRefusal::NoCipher),
            None,
            Some(CallRefusal::ExportSize),
            None,
        ],
        bytes: 8160,
        replies: 4,
        batches: 0,
        places: &[0],
    },
    RoomCase {
        source: "own: a recipient, and a number of no context",
        text: "hpkebatch 1\nshare recv 32 1 1 fe0e18c9f024ce43799ae393c7e8fe8fce9d218875e8227b0187c04e7d2ea1fc base 4f6465206f6e2061204772656369616e2055726e - - 9\nlane\nseal 0 - -\nunseal 1 - -\nunseal 0 - 00\nend\n",
        export_limits: &[8_160],
        refusals: &[Some(CallRefusal::Role), Some(CallRefusal::NoContext), None],
        bytes: 0,
        replies: 3,
        batches: 0,
        places: &[1],
    },
    RoomCase {
        source: "own: three contexts, the first of which was refused",
        text: "hpkebatch 1\nshare recv 32 1 1 fe0e18c9f024ce43799ae393c7e8fe8fce9d218875e8227b0187c04e7d2ea1fc base 4f6465206f6e2061204772656369616e2055726e - - 1\nshare send 32 1 1 fe0e18c9f024ce43799ae393c7e8fe8fce9d218875e8227b0187c04e7d2ea1fc base 4f6465206f6e2061204772656369616e2055726e - - 9\nshare recv 32 1 65535 fe0e18c9f024ce43799ae393c7e8fe8fce9d218875e8227b0187c04e7d2ea1fc base 4f6465206f6e2061204772656369616e2055726e - - 9\nlane\nunseal 0 436f756e742d30 f938558b5d72f1a23810b4be2ab4f84331acc02fc97babc53a52ae8218a355a96d8770ac83d07bea87e13c512a\nunseal 1 436f756e742d30 f938558b5d72f1a23810b4be2ab4f84331acc02fc97babc53a52ae8218a355a96d8770ac83d07bea87e13c512a\nseal 1 - 00\nseal 2 - -\nunseal 2 - -\nexport 0 - 0\nexport 2 - 3\nend\n",
        export_limits: &[0, 8_160, 8_160],
        refusals: &[
            Some(CallRefusal::NoContext),
            Some(CallRefusal::Role),
            None,
            Some(CallRefusal::Role),
            Some(CallRefusal::NoCipher),
            Some(CallRefusal::NoContext),
            None,
        ],
        bytes: 20,
        replies: 7,
        batches: 0,
        places: &[0, 1, 0],
    },
    RoomCase {
        source: "own: openings of two messages by a recipient, and of three by a sender",
        text: "hpkebatch 2\nshare recv 32 1 1 fe0e18c9f024ce43799ae393c7e8fe8fce9d218875e8227b0187c04e7d2ea1fc base 4f6465206f6e2061204772656369616e2055726e - - 9\nshare send 32 1 1 fe0e18c9f024ce43799ae393c7e8fe8fce9d218875e8227b0187c04e7d2ea1fc base 4f6465206f6e2061204772656369616e2055726e - - 9\nlane\nunsealall 0 436f756e742d30 f938558b5d72f1a23810b4be2ab4f84331acc02fc97babc53a52ae8218a355a96d8770ac83d07bea87e13c512a 436f756e742d31 af2d7e9ac9ae7e270f46ba1f975be53c09f8d875bdc8535458c2494e8a6eab251c03d0c22a56b8ca42c2063b84\nunsealall 1 - 00 - 00 - 00\nend\n",
        export_limits: &[8_160, 8_160],
        refusals: &[None, Some(CallRefusal::Role)],
        bytes: 58,
        replies: 3,
        batches: 1,
        places: &[2, 0],
    },
];

// Answers that give each context as shared, also one that was refused: the room goes by the plan
// and the export limits alone.
fn answers(rt: &impl Abort, alloc: Global, plan: &Plan, export_limits: &[u32]) -> Answers
    requires { IsWithinLimits plan.now }
{
    let keys = PlainList::from_vec(Vec::new(alloc));
    let mut contexts = Vec::new(alloc);
    for _line in plan.contexts.as_slice() {
        contexts.push(ContextReply::Shared).expect(rt, "memory");
    }
    let contexts = PlainList::from_vec(contexts);
    match Answers::for_plan(alloc, plan, keys, contexts, export_limits) {
        Ok(answers) => answers,
        Err(_) => panic!(rt; "memory"),
    }
}

fn places_of(rt: &impl Abort, alloc: Global, answers: &Answers) -> Vec<usize> {
    let mut places = Vec::new(alloc);
    for journal in answers.journals.as_slice() {
        let count = journal.as_slice().len();
        places.push(count).expect(rt, "memory");
    }
    places
}

// The one lane's calls have the refusals that are due.
fn expect_refusals(rt: &impl Abort, plan: &Plan, case: &RoomCase) {
    let source = case.source;
    let [calls] = plan.lanes.as_slice() else {
        panic!(rt; "{source}");
    };
    assert_same(rt, calls.as_slice().len(), case.refusals.len(), source);
    for (call, want) in calls.as_slice().iter().zip(case.refusals) {
        let refusal = call_refusal(plan.contexts.as_slice(), case.export_limits, call);
        assert_same(rt, refusal, *want, source);
    }
}

// The one lane has the room that is due.
fn expect_room(rt: &impl Abort, answers: &Answers, case: &RoomCase) {
    let source = case.source;
    let [lane] = answers.lanes.as_slice() else {
        panic!(rt; "{source}");
    };
    assert_same(rt, lane.pool.as_slice().len(), case.bytes, source);
    assert_same(rt, lane.replies.as_slice().len(), case.replies, source);
    assert_same(rt, lane.batches.as_slice().len(), case.batches, source);
}

fn expect_case(rt: &impl Abort, alloc: Global, plan: &Plan, case: &RoomCase)
    requires { IsWithinLimits plan.now }
{
    let answers = answers(rt, alloc, plan, case.export_limits);
    expect_refusals(rt, plan, case);
    expect_room(rt, &answers, case);
    let places = places_of(rt, alloc, &answers);
    assert_same(rt, places.as_slice(), case.places, case.source);
    drop(answers);
}

#[test]
fn each_call_has_its_room_or_its_refusal(rt: HostRuntime) {
    let alloc = rt.alloc();
    for case in &ROOMS {
        let source = case.source;
        match read_batch(alloc, case.text.as_bytes()) {
            Ok(plan) => {
                expect_case(&rt, alloc, &plan, case);
                drop(plan);
            }
            Err(_) => panic!(rt; "not read: {source}"),
        }
    }
}

// A lane with room for five bytes, three replies and a guess.
fn lane(rt: &impl Abort, alloc: Global) -> LaneProgress
    ensures pool { length result.pool ≡ 5 }
    ensures taken { result.taken ≡ 0 }
    ensures left { (result.left ≡ 3) × (result.batches_left ≡ 1) }
{
    let blank = Batch {
        guess: 0,
        missed: 0,
    };
    let pool = vec![in alloc; 0; 5].expect(rt, "memory");
    let replies = vec![in alloc; Reply::Blank; 3].expect(rt, "memory");
    let batches = vec![in alloc; blank; 1].expect(rt, "memory");
    LaneProgress::new(LaneAnswers {
        pool: PlainList::from_vec(pool),
        replies: PlainList::from_vec(replies),
        batches: PlainList::from_vec(batches),
    })
}

#[test]
fn a_lane_takes_its_replies_in_order(rt: HostRuntime) {
    let mut lane = lane(&rt, rt.alloc());
    let text = lane.take_room(2);
    lane.pool()[..2].copy_from_slice(b"ab".as_slice());
    lane.put(Reply::Opened { number: 7, text });
    lane.put(Reply::Limit);
    let guess = Batch {
        guess: 3,
        missed: 2,
    };
    lane.put_batch(guess);
    let text = lane.take_room(3);
    lane.pool()[2..].copy_from_slice(b"cde".as_slice());
    lane.put(Reply::Exported { text });
    let answers = lane.finish();
    assert_same(&rt, answers.pool.as_slice(), b"abcde".as_slice(), "pool");
    let want = [
        Reply::Opened {
            number: 7,
            text: Span { start: 0, len: 2 },
        },
        Reply::Limit,
        Reply::Exported {
            text: Span { start: 2, len: 3 },
        },
    ];
    assert_same(&rt, answers.replies.as_slice(), want.as_slice(), "replies");
    let batches = answers.batches.as_slice();
    assert_same(&rt, batches, [guess].as_slice(), "guesses");
}
