//! Texts that are read, texts that are bad, and replies that are printed.

mod bad_texts;
mod limits;

use crate::bad_cases::{FieldCase, LongCase, expect_bad, expect_limit, long_text, text_with};
use crate::capsule_frames_tests::bad_texts::BAD;
use crate::capsule_frames_tests::limits::{COUNTS, FIELDS};
use crate::expected::assert_same;
use crate::sinks::sink_of;
use batch_plans::{EncField, KeyLine, KeyReply, PlainList, Plan};
use call_places::Span;
use capsule_frames::{
    CapsuleLine, CapsuleRefusal, CapsuleReply, KnownText, print_capsules, read_capsules,
};
use field_text::{BadBatch, Printed, ReadBatchFault};
use hkdf_labelled::{Aead, Kdf};
use std::alloc::Global;
use std::process::Abort;

fn refusal_of(alloc: Global, text: &[u8]) -> Option<BadBatch> {
    match read_capsules(alloc, text) {
        Err(ReadBatchFault::Bad(bad)) => Some(bad),
        _ => None,
    }
}

#[test]
fn bad_texts_have_their_first_reason(rt: HostRuntime) {
    for case in &BAD {
        let refusal = refusal_of(rt.alloc(), case.text);
        expect_bad(&rt, refusal, case.line, case.reason, case.what);
    }
}

fn expect_count(rt: &impl Abort, alloc: Global, case: &LongCase) {
    let text = long_text(rt, alloc, case);
    let refusal = refusal_of(alloc, &text);
    expect_bad(rt, refusal, case.line, case.reason, case.what);
}

#[test]
fn each_kind_is_counted_by_itself(rt: HostRuntime) {
    for case in &COUNTS {
        expect_count(&rt, rt.alloc(), case);
    }
}

// The refusal of the text whose field has so many bytes.
fn refusal_with(rt: &impl Abort, alloc: Global, case: &FieldCase, count: u32) -> Option<BadBatch> {
    let text = text_with(rt, alloc, case, count);
    refusal_of(alloc, &text)
}

#[test]
fn each_bytes_field_has_its_limit(rt: HostRuntime) {
    for case in &FIELDS {
        let at_limit = refusal_with(&rt, rt.alloc(), case, case.most);
        let above = refusal_with(&rt, rt.alloc(), case, case.most.saturating_add(1));
        expect_limit(&rt, at_limit, above, case);
    }
}

const SEED: [u8; 32] = [
    0, 1, 2, 3, 4, 5, 6, 7, 8, 9, 10, 11, 12, 13, 14, 15, 16, 17, 18, 19, 20, 21, 22, 23, 24, 25,
    26, 27, 28, 29, 30, 31,
];

// The plan of the batch below: its seed, its keys, and the bytes of all its lines.
fn expect_keys(rt: &impl Abort, plan: &Plan) {
    assert_same(rt, plan.version, 2, "version");
    assert_same(rt, plan.seed, Some(SEED), "seed");
    assert_same(
        rt,
        plan.pool.as_slice(),
        [0x0c, 0x42, 0x65, 0xaa, 0xaa, 0x00, 0xff].as_slice(),
        "pool",
    );
    let keys = [
        KeyLine::Generate,
        KeyLine::Peer857(Span { start: 0, len: 1 }),
    ];
    assert_same(rt, plan.keys.as_slice(), keys.as_slice(), "keys");
}

// Own, by hand: a batch with a key that is made, one that is given, and a line of each kind.
#[test]
fn a_batch_is_read(rt: HostRuntime) {
    let text =
        b"hpkebatch 2\nrand 000102030405060708090a0b0c0d0e0f101112131415161718191a1b1c1d1e1f\nkeygen\npeer857 0c\nask 0 7 1 2 4265\nanswer 0 7 @0 aaaa -\ntake 0 00ff\nend\n";
    let Ok(batch) = read_capsules(rt.alloc(), text) else {
        panic!(rt; "not read");
    };
    expect_keys(&rt, &batch.plan);
    let want = [
        CapsuleLine::Ask {
            key: 0,
            id: 7,
            kdf: Kdf::Sha256,
            aead: Aead::Aes256,
            text: Span { start: 1, len: 2 },
        },
        CapsuleLine::Answer {
            key: 0,
            id: 7,
            request: EncField::Of(0),
            nonce: Span { start: 3, len: 2 },
            text: Span { start: 5, len: 0 },
        },
        CapsuleLine::Take {
            ask: 0,
            response: EncField::Bytes(Span { start: 5, len: 2 }),
        },
    ];
    assert_same(&rt, batch.lines.as_slice(), &want[..], "lines");
    drop(batch);
}

// A list of these bytes.
fn list(rt: &impl Abort, alloc: Global, bytes: &[u8]) -> PlainList<u8> {
    PlainList::from_vec(Vec::from_slice(alloc, bytes).expect(rt, "memory"))
}

fn keys(rt: &impl Abort, alloc: Global) -> PlainList<KeyReply> {
    match Vec::from_array(alloc, [KeyReply::Peer]) {
        Ok(keys) => PlainList::from_vec(keys),
        Err(_) => panic!(rt; "memory"),
    }
}

// A text is held as it stands among the bytes `held`, or else by itself.
fn replies(rt: &impl Abort, alloc: Global) -> Vec<CapsuleReply> {
    let replies = [
        CapsuleReply::Asked {
            request: list(rt, alloc, &[1]),
        },
        CapsuleReply::Answered {
            text: KnownText::held_in(&[2], list(rt, alloc, &[2])),
            response: list(rt, alloc, &[3]),
        },
        CapsuleReply::Took {
            text: KnownText::own(PlainList::from_vec(Vec::new(alloc))),
        },
        CapsuleReply::Took {
            text: KnownText::held_in(&[4], list(rt, alloc, &[5])),
        },
        CapsuleReply::Refused(CapsuleRefusal::NonceSize),
    ];
    match Vec::from_array(alloc, replies) {
        Ok(replies) => replies,
        Err(_) => panic!(rt; "memory"),
    }
}

// The reply to a batch of one key and a line of each kind, and a refused one, by hand. A text is
// printed as it is, whether it is one that is known or another.
#[test]
fn replies_are_printed(rt: HostRuntime) {
    let alloc = rt.alloc();
    let keys = keys(&rt, alloc);
    let replies = replies(&rt, alloc);
    let mut sink = sink_of(&rt, alloc, 2_000, 0);
    let printed = print_capsules(&keys, &replies, &mut sink);
    assert_same(&rt, printed, Printed::Whole, "printed");
    let want =
        b"hpkebatch 2\nkey 0 peer\nasked 01\nanswered 02 03\ntook -\ntook 05\nrefused noncesize\nend\n";
    assert_same(&rt, sink.bytes(), want.as_slice(), "the reply");
}
