//! Small batches over published messages, and their rehearsals.

ghost use Rattle.std.specs.Prelude.{◌≡◌, ◌≤◌, ◌∷◌, [], IfOk, IsTrue, length};
ghost use Rattle.batch_plans.specs.Within.{IsPlain, IsWithinLimits};
ghost use Rattle.context_tests.specs.SmallPlans.{line_of, two_lines, are_small};

use crate::messages::context_of;
use batch_plans::{
    Answers, ByteList, CallLine, ContextKind, ContextLine, ContextLines, ContextReply, LaneLines,
    PlainList, Plan,
};
use call_places::{Item, Span};
use context_core::rehearse;
use hex::FromHex;
use hkdf_labelled::{Aead, Kdf};
use key_schedule::{Mode, Role};
use std::alloc::Global;
use std::process::Abort;
use std::thread::Threads;

// RFC 9180, A.1.1.1: both aads of the sequence numbers 0 and 1, pt, both ciphertexts; then the
// ciphertexts with the last bit of their tags changed.
const POOL: &str = "436f756e742d30436f756e742d31\
        4265617574792069732074727574682c20747275746820626561757479\
        f938558b5d72f1a23810b4be2ab4f84331acc02fc97babc53a52ae8218a355a96d8770ac83d07bea87e13c512a\
        af2d7e9ac9ae7e270f46ba1f975be53c09f8d875bdc8535458c2494e8a6eab251c03d0c22a56b8ca42c2063b84\
        f938558b5d72f1a23810b4be2ab4f84331acc02fc97babc53a52ae8218a355a96d8770ac83d07bea87e13c512b\
        af2d7e9ac9ae7e270f46ba1f975be53c09f8d875bdc8535458c2494e8a6eab251c03d0c22a56b8ca42c2063b85";

pub(crate) const A0: Span = Span { start: 0, len: 7 };

pub(crate) const A1: Span = Span { start: 7, len: 7 };

pub(crate) const P: Span = Span { start: 14, len: 29 };

pub(crate) const C0: Span = Span { start: 43, len: 45 };

pub(crate) const C1: Span = Span { start: 88, len: 45 };

const X0: Span = Span {
    start: 133,
    len: 45,
};

pub(crate) const X1: Span = Span {
    start: 178,
    len: 45,
};

pub(crate) const NONE: Span = Span { start: 0, len: 0 };

// Where the items of each opening of several messages begin.
pub(crate) const CHANGED_TAG_AT: u32 = 0;

pub(crate) const FIVE_CHANGED_TAGS_AT: u32 = 3;

pub(crate) const STALE_GUESS_AT: u32 = 9;

pub(crate) const REPLAY_AT: u32 = 10;

pub(crate) const TWO_CONTEXTS_AT: u32 = 12;

// The items of those openings.
const ITEMS: [Item; 14] = [
    // a changed tag between two messages
    Item { aad: A0, text: C0 },
    Item { aad: A1, text: X1 },
    Item { aad: A1, text: C1 },
    // five changed tags before a message
    Item { aad: A0, text: X0 },
    Item { aad: A0, text: X0 },
    Item { aad: A0, text: X0 },
    Item { aad: A0, text: X0 },
    Item { aad: A0, text: X0 },
    Item { aad: A0, text: C0 },
    // a stale guess
    Item { aad: A1, text: C1 },
    // a replay
    Item { aad: A0, text: C0 },
    Item { aad: A0, text: C0 },
    // two contexts
    Item { aad: A0, text: C0 },
    Item { aad: A1, text: C1 },
];

pub(crate) fn seal(aad: Span, text: Span) -> CallLine
    ensures { result ≡ CallLine.Seal 0 (record { aad = aad; text = text }) }
{
    CallLine::Seal {
        context: 0,
        item: Item { aad, text },
    }
}

pub(crate) fn unseal(aad: Span, text: Span) -> CallLine
    ensures { result ≡ CallLine.Unseal 1 (record { aad = aad; text = text }) }
{
    CallLine::Unseal {
        context: 1,
        item: Item { aad, text },
    }
}

pub(crate) fn unseal_all(first: u32, count: u32) -> CallLine
    ensures { result ≡ CallLine.UnsealAll 1 first count }
{
    CallLine::UnsealAll {
        context: 1,
        first,
        count,
    }
}

/// A recipient's context doesn't seal.
pub(crate) fn seal_by_recipient(aad: Span, text: Span) -> CallLine
    ensures { result ≡ CallLine.Seal 1 (record { aad = aad; text = text }) }
{
    CallLine::Seal {
        context: 1,
        item: Item { aad, text },
    }
}

/// A sender's context doesn't open.
pub(crate) fn unseal_by_sender(aad: Span, text: Span) -> CallLine
    ensures { result ≡ CallLine.Unseal 0 (record { aad = aad; text = text }) }
{
    CallLine::Unseal {
        context: 0,
        item: Item { aad, text },
    }
}

pub(crate) fn export(context: u32, exporter: Span) -> CallLine
    ensures { result ≡ CallLine.Export context exporter 32 }
{
    CallLine::Export {
        context,
        exporter,
        size: 32,
    }
}

fn line(role: Role, limit: u64) -> ContextLine
    ensures { result ≡ line_of role limit }
{
    ContextLine {
        kind: ContextKind::Share {
            role,
            kem: 0x0020,
            secret: NONE,
        },
        kdf: Kdf::Sha256,
        aead: Aead::Aes128,
        mode: Mode::Base,
        info: NONE,
        psk: NONE,
        psk_id: NONE,
        limit,
    }
}

// The messages, and zeros behind them.
fn pool(rt: &impl Abort, alloc: Global) -> ByteList
    ensures { length result ≡ 1024 }
{
    let mut pool = [0; 1024];
    let messages = <[u8; 223]>::from_hex(POOL).expect(rt, "hex");
    pool[..223].copy_from_slice(&messages);
    PlainList::from_vec(Vec::from_slice(alloc, &pool).expect(rt, "memory"))
}

// Context 0 seals and context 1 opens.
fn contexts(rt: &impl Abort, alloc: Global, limit: u64) -> ContextLines
    ensures { result ≡ two_lines limit }
{
    let lines = [line(Role::Sender, limit), line(Role::Recipient, limit)];
    PlainList::from_vec(Vec::from_slice(alloc, &lines).expect(rt, "memory"))
}

fn lanes(rt: &impl Abort, alloc: Global, first: &[CallLine], second: &[CallLine]) -> LaneLines
    ensures { result ≡ first.now ∷ second.now ∷ [] }
{
    let first = PlainList::from_vec(Vec::from_slice(alloc, first).expect(rt, "memory"));
    let second = PlainList::from_vec(Vec::from_slice(alloc, second).expect(rt, "memory"));
    PlainList::from_vec(Vec::from_array(alloc, [first, second]).expect(rt, "memory"))
}

fn items(rt: &impl Abort, alloc: Global) -> PlainList<Item>
    ensures { result ≡ ITEMS }
{
    PlainList::from_vec(Vec::from_slice(alloc, &ITEMS).expect(rt, "memory"))
}

// The pool is as long as if each call had bytes of its own.
fn plan_of(
    rt: &impl Abort,
    alloc: Global,
    limit: u64,
    first: &[CallLine],
    second: &[CallLine],
) -> Plan
    requires limit { 1 ≤ limit }
    requires small { IsTrue (are_small ITEMS (first.now ∷ second.now ∷ [])) }
    ensures within { IsWithinLimits result }
    ensures plain { IsPlain result }
    ensures keys { result.keys ≡ [] }
    ensures contexts { result.contexts ≡ two_lines limit }
{
    Plan {
        version: 2,
        seed: None,
        pool: pool(rt, alloc),
        keys: PlainList::from_vec(Vec::new(alloc)),
        contexts: contexts(rt, alloc, limit),
        items: items(rt, alloc),
        lanes: lanes(rt, alloc, first, second),
        added: 0,
    }
}

pub(crate) fn rehearsed<R: Abort + Threads + Sync>(
    rt: &R,
    alloc: Global,
    limit: u64,
    first: &[CallLine],
    second: &[CallLine],
    schedule: &[u8],
) -> Answers
    requires limit { 1 ≤ limit }
    requires small { IsTrue (are_small ITEMS (first.now ∷ second.now ∷ [])) }
{
    let plan = plan_of(rt, alloc, limit, first, second);
    let contexts = [
        Some(context_of(rt, Role::Sender, limit)),
        Some(context_of(rt, Role::Recipient, limit)),
    ];
    let keys = PlainList::from_vec(Vec::new(alloc));
    let replies = [ContextReply::Shared, ContextReply::Shared];
    let replies = PlainList::from_vec(Vec::from_array(alloc, replies).expect(rt, "memory"));
    // 255 Nh of each context.
    let limits = [8160, 8160];
    let Ok(mut answers) = Answers::for_plan(alloc, &plan, keys, replies, &limits) else {
        panic!(rt; "memory");
    };
    rehearse(rt, alloc, &plan, &contexts, schedule, &mut answers).expect(rt, "memory");
    answers
}
