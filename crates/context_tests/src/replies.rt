//! Published messages and an export, through the pool of a lane's answers.

ghost use Rattle.std.specs.Prelude.{◌≡◌, ◌≤◌, ◌<◌, ◌^◌, All, length, sum_by};
ghost use Rattle.batch_plans.specs.Room.{opened_room};
ghost use Rattle.hpke_context.specs.Calls.{HasCipher};
ghost use Rattle.call_places.specs.Spans.{ItemIsInPool};

use crate::expected::{array_of, assert_same};
use crate::messages::{Message, context_of, items_of, pool_of, settle_three};
use batch_plans::{CallRefusal, LaneAnswers, LaneProgress, PlainList, Reply};
use call_places::{Item, Span};
use context_books::{Draw, export, finish_opening, finish_seal, refuse};
use hpke_context::Context;
use key_schedule::Role;
use std::alloc::Global;
use std::process::Abort;
use std::thread::Threads;

// pt of each table of RFC 9180, appendix A.
const TEXT: &[u8; 29] = b"Beauty is truth, truth beauty";

// A lane with room for so many bytes and replies.
fn room_for(rt: &impl Abort, alloc: Global, bytes: usize, replies: usize) -> LaneProgress
    requires { bytes < 2 ^ 32 }
    ensures pool { length result.pool ≡ bytes }
    ensures taken { result.taken ≡ 0 }
    ensures left { result.left ≡ replies }
    ensures batches { result.batches_left ≡ 0 }
{
    let pool = vec![in alloc; 0u8; bytes].expect(rt, "memory");
    let replies = vec![in alloc; Reply::Blank; replies].expect(rt, "memory");
    LaneProgress::new(LaneAnswers {
        pool: PlainList::from_vec(pool),
        replies: PlainList::from_vec(replies),
        batches: PlainList::from_vec(Vec::new(alloc)),
    })
}

// RFC 9180, A.1.1.1, the ciphertexts of the sequence numbers 0 and 1; own: nothing for a seal at
// LIMIT; RFC 9180, A.1.1.2, the export for an empty exporter_context.
const SEALED: &str = "\
    f938558b5d72f1a23810b4be2ab4f84331acc02fc97babc53a52ae8218a355a96d8770ac83d07bea87e13c512a\
    af2d7e9ac9ae7e270f46ba1f975be53c09f8d875bdc8535458c2494e8a6eab251c03d0c22a56b8ca42c2063b84\
    000000000000000000000000000000000000000000000000000000000000000000000000000000000000000000\
    3853fe2b4035195a573ffc53856e77058e15d9ea064de3e59f4961d0095250ee";

static REPLIES: [Reply; 5] = [
    Reply::Sealed {
        number: 0,
        text: Span { start: 0, len: 45 },
    },
    Reply::Sealed {
        number: 1,
        text: Span { start: 45, len: 45 },
    },
    Reply::Limit,
    Reply::Exported {
        text: Span {
            start: 135,
            len: 32,
        },
    },
    Reply::Refused(CallRefusal::Role),
];

#[test]
fn seals_and_an_export_are_those_published(rt: HostRuntime) {
    let context = context_of(&rt, Role::Sender, 2);
    let mut progress = room_for(&rt, rt.alloc(), 167, 5);
    finish_seal(&mut progress, &context, Draw::Number(0), b"Count-0", TEXT);
    finish_seal(&mut progress, &context, Draw::Number(1), b"Count-1", TEXT);
    finish_seal(&mut progress, &context, Draw::Limit, b"Count-2", TEXT);
    export(&mut progress, &context, b"", 32);
    refuse(&mut progress, CallRefusal::Role);
    let answers = progress.finish();
    assert_same(&rt, answers.replies.as_slice(), &REPLIES[..], "replies");
    let bytes: [u8; 167] = array_of(&rt, SEALED);
    assert_same(&rt, answers.pool.as_slice(), &bytes[..], "pool");
}

// The replies to three items that a new book opens, with room for three texts.
#[tactic(auto, using(context_books::proofs::Items::one_line_each))]
fn opened<R: Abort + Threads + Sync>(
    rt: &R,
    alloc: Global,
    context: &Context,
    pool: &[u8],
    items: &[Item; 3],
) -> LaneAnswers
    requires cipher { HasCipher context.now }
    requires limit { 1 ≤ context.now.limit }
    requires spans { All (ItemIsInPool (length pool.now)) items.now }
    requires room { sum_by opened_room items.now ≤ 87 }
{
    let settled = settle_three(rt, alloc, context, pool, items, 0);
    let mut progress = room_for(rt, alloc, 87, 3);
    finish_opening(
        &mut progress,
        context,
        pool,
        items,
        settled.first,
        &settled.steps,
    );
    progress.finish()
}

struct OpeningCase {
    name: &'static str,
    limit: u64,
    messages: [Message; 3],
    replies: [Reply; 3],
    opened: [bool; 3],
}

// Own, by hand: an item is opened at the number of items that were opened before it, up to LIMIT.
const OPENINGS: [OpeningCase; 2] = [
    OpeningCase {
        name: "a changed tag raises no number",
        limit: 9,
        messages: [Message::First, Message::Spoilt, Message::Second],
        replies: [
            Reply::Opened {
                number: 0,
                text: Span { start: 0, len: 29 },
            },
            Reply::Failed { number: 1 },
            Reply::Opened {
                number: 1,
                text: Span { start: 58, len: 29 },
            },
        ],
        opened: [true, false, true],
    },
    OpeningCase {
        name: "at LIMIT a tag is tested and no text is given",
        limit: 1,
        messages: [Message::First, Message::Second, Message::Spoilt],
        replies: [
            Reply::Opened {
                number: 0,
                text: Span { start: 0, len: 29 },
            },
            Reply::Limit,
            Reply::Failed { number: 1 },
        ],
        opened: [true, false, false],
    },
];

fn expect(rt: &impl Abort, answers: &LaneAnswers, case: &OpeningCase) {
    let name = case.name;
    assert_same(rt, answers.replies.as_slice(), &case.replies[..], name);
    let bytes = answers.pool.as_slice();
    assert!(rt; bytes.len() == 87, "{name}");
    for (i, opened) in case.opened.iter().enumerate() {
        let want = if *opened { *TEXT } else { [0; 29] };
        assert_same(rt, &bytes[29 * i..29 * i + 29], want.as_slice(), name);
    }
}

#[test]
fn openings_are_replied_to_item_by_item(rt: HostRuntime) {
    for case in &OPENINGS {
        assert_opening(&rt, rt.alloc(), case);
    }
}

fn assert_opening<R: Abort + Threads + Sync>(rt: &R, alloc: Global, case: &OpeningCase) {
    let pool = pool_of(rt);
    assert!(rt; 1 <= case.limit);
    let context = context_of(rt, Role::Recipient, case.limit);
    let items = items_of(case.messages);
    let answers = opened(rt, alloc, &context, &pool, &items);
    expect(rt, &answers, case);
}
