//! Texts that are read, and texts that are bad.

use crate::bad_cases::{BadCase, LongCase, expect_bad, long_text};
use crate::expected::assert_same;
use crate::live_frames_tests::bad_texts::{BAD, LONG};
use batch_plans::{CallLine, ContextKind, ContextLine, Plan};
use call_places::{Item, Span};
use field_text::{BadBatch, ReadBatchFault, Reason};
use hkdf_labelled::{Aead, Kdf};
use key_schedule::{Mode, Role};
use live_frames::{read_live, read_live_front};
use std::alloc::Global;
use std::process::Abort;

fn refusal_of(alloc: Global, text: &[u8]) -> Option<BadBatch> {
    match read_live(alloc, text) {
        Err(ReadBatchFault::Bad(bad)) => Some(bad),
        _ => None,
    }
}

// The text behind the first line has the bad line and the reason that are due.
fn expect_behind(rt: &impl Abort, alloc: Global, case: &BadCase) {
    let mut text = Vec::from_slice(alloc, b"hpkebatch 2\n").expect(rt, "memory");
    text.extend_from_slice(case.text).expect(rt, "memory");
    let refusal = refusal_of(alloc, &text);
    expect_bad(rt, refusal, case.line, case.reason, case.what);
}

// The text of these parts has the bad line and the reason that are due.
fn expect_long(rt: &impl Abort, alloc: Global, case: &LongCase) {
    let text = long_text(rt, alloc, case);
    let refusal = refusal_of(alloc, &text);
    expect_bad(rt, refusal, case.line, case.reason, case.what);
}

#[test]
fn a_bad_text_has_its_first_bad_line_and_reason(rt: HostRuntime) {
    let alloc = rt.alloc();
    for case in &BAD {
        expect_behind(&rt, alloc, case);
    }
    for case in &LONG {
        expect_long(&rt, alloc, case);
    }
    let refusal = refusal_of(alloc, b"hpkebatch 1\nlane\nend\n");
    expect_bad(&rt, refusal, 1, Reason::Header, "version 1");
}

fn span(start: u32, len: u32) -> Span {
    Span { start, len }
}

fn item(aad: u32, text: u32) -> Item {
    Item {
        aad: span(aad, 1),
        text: span(text, 2),
    }
}

// A lane has these calls.
fn expect_calls(rt: &impl Abort, plan: &Plan, lane: usize, calls: &[CallLine]) {
    match plan.lanes.as_slice().get(lane) {
        Some(found) => assert_same(rt, found.as_slice(), calls, "calls of a lane"),
        None => panic!(rt; "no lane"),
    }
}

// The plan of a text.
fn plan_of(rt: &impl Abort, alloc: Global, text: &[u8]) -> Plan {
    match read_live(alloc, text) {
        Ok(plan) => plan,
        Err(_) => panic!(rt; "not read"),
    }
}

// The one context that the text below adds.
fn expect_context(rt: &impl Abort, plan: &Plan) {
    let context = ContextLine {
        kind: ContextKind::Share {
            role: Role::Sender,
            kem: 32,
            secret: span(3, 1),
        },
        kdf: Kdf::Sha256,
        aead: Aead::Aes128,
        mode: Mode::Base,
        info: span(4, 1),
        psk: span(5, 0),
        psk_id: span(5, 0),
        limit: 9,
    };
    let contexts = plan.contexts.as_slice();
    assert_same(rt, contexts, [context].as_slice(), "contexts");
}

// Own, by hand: a context is called before it is added, while it is live, and after it is retired.
#[test]
fn a_context_is_added_called_and_retired(rt: HostRuntime) {
    let text =
        b"hpkebatch 2\nlane\nseal +0 a0 b0b1\nadd send 32 1 1 5e base 1f - - 9\nseal +0 a0 b0b1\nretire +0\nseal +0 a0 b0b1\nend\n";
    let plan = plan_of(&rt, rt.alloc(), text.as_slice());
    assert_same(&rt, plan.version, 2, "version");
    assert_same(&rt, plan.added, 1, "contexts added");
    expect_context(&rt, &plan);
    let calls = [
        CallLine::Seal {
            context: 65_536,
            item: item(0, 1),
        },
        CallLine::Add { name: 0 },
        CallLine::Seal {
            context: 65_536,
            item: item(5, 6),
        },
        CallLine::Retire { name: 0 },
        CallLine::Seal {
            context: 65_536,
            item: item(8, 9),
        },
    ];
    assert_same(&rt, plan.lanes.as_slice().len(), 1, "how many lanes");
    expect_calls(&rt, &plan, 0, calls.as_slice());
    drop(plan);
}

// The KEM ids of the contexts, all of whose shared secrets are given.
fn kems_of(rt: &impl Abort, alloc: Global, plan: &Plan) -> Vec<u16> {
    let mut kems = Vec::new(alloc);
    for line in plan.contexts.as_slice() {
        if let ContextKind::Share { kem, .. } = line.kind {
            kems.push(kem).expect(rt, "memory");
        }
    }
    kems
}

// Own, by hand: contexts are named in the order of the text, behind those of context lines.
#[test]
fn contexts_are_named_over_all_lanes(rt: HostRuntime) {
    let text =
        b"hpkebatch 2\nshare recv 7 1 2 - base - - - 1\nlane\nadd recv 8 1 2 - base - - - 1\nunsealall 0 - 00 - 11\nlane\nadd recv 9 1 2 - base - - - 1\nretire +65535\nexport +1 - 7\nunseal 65535 - 00\nend\n";
    let plan = plan_of(&rt, rt.alloc(), text.as_slice());
    assert_same(&rt, plan.added, 2, "contexts added");
    let kems = kems_of(&rt, rt.alloc(), &plan);
    assert_same(&rt, kems.as_slice(), [7, 8, 9].as_slice(), "KEM ids");
    let first = [
        CallLine::Add { name: 0 },
        CallLine::UnsealAll {
            context: 0,
            first: 0,
            count: 2,
        },
    ];
    let last = Item {
        aad: span(2, 0),
        text: span(2, 1),
    };
    let second = [
        CallLine::Add { name: 1 },
        CallLine::Retire { name: 65_535 },
        CallLine::Export {
            context: 65_537,
            exporter: span(2, 0),
            size: 7,
        },
        CallLine::Unseal {
            context: 65_535,
            item: last,
        },
    ];
    assert_same(&rt, plan.lanes.as_slice().len(), 2, "how many lanes");
    expect_calls(&rt, &plan, 0, first.as_slice());
    expect_calls(&rt, &plan, 1, second.as_slice());
    drop(plan);
}

// How many contexts the batch at the front of a text adds, and where it ends, or its bad line.
fn front_of(alloc: Global, text: &[u8]) -> Result<(u32, usize), Option<BadBatch>> {
    match read_live_front(alloc, text) {
        Ok((plan, end)) => {
            let added = plan.added;
            drop(plan);
            Ok((added, end))
        }
        Err(ReadBatchFault::Bad(bad)) => Err(Some(bad)),
        Err(ReadBatchFault::OutOfMemory) => Err(None),
    }
}

struct FrontCase {
    text: &'static [u8],
    front: Result<(u32, usize), Option<BadBatch>>,
    what: &'static str,
}

// Own, by hand: the ends are counted in bytes.
static FRONTS: [FrontCase; 5] = [
    FrontCase {
        text: b"hpkebatch 2\nlane\nretire +0\nend\n",
        front: Ok((0, 31)),
        what: "a retirement",
    },
    FrontCase {
        text: b"hpkebatch 2\nlane\nadd send 32 1 1 5e base 1f - - 9\nend\nhpkebatch 2\n",
        front: Ok((1, 54)),
        what: "a reply behind a batch",
    },
    FrontCase {
        text: b"hpkebatch 2\nretire +0\nend\nend\n",
        front: Err(Some(BadBatch {
            line: 2,
            reason: Reason::Order,
        })),
        what: "a retirement outside the lanes",
    },
    FrontCase {
        text: b"hpkebatch 2\nlane\nend",
        front: Err(Some(BadBatch {
            line: 3,
            reason: Reason::NoEnd,
        })),
        what: "no last line feed",
    },
    FrontCase {
        text: b"hpkebatch 1\nend\n",
        front: Err(Some(BadBatch {
            line: 1,
            reason: Reason::Header,
        })),
        what: "version 1",
    },
];

#[test]
fn a_batch_ends_before_what_follows_it(rt: HostRuntime) {
    for case in &FRONTS {
        assert_same(&rt, front_of(rt.alloc(), case.text), case.front, case.what);
    }
}
