//! A batch with a line of each word, and its plan.

use crate::expected::assert_same;
use call_places::{Item, Span};
use hkdf_labelled::{Aead, Kdf};
use key_schedule::{Mode, Role};
use request_frames::{
    CallLine, ContextKind, ContextLine, EncField, KeyLine, Plan, one_reading, one_spelling,
    read_batch,
};
use std::process::Abort;

// A batch with a line of each word. Own, made by hand as its plan is.
const WHOLE: &'static [u8] = b"hpkebatch 2
rand 000102030405060708090a0b0c0d0e0f101112131415161718191a1b1c1d1e1f
keygen
secret 00ff
peer -
keygen857
secret857 0a
peer857 0b0c
share send 32 1 2 01 psk 02 0304 05 1
send 1 1 0 base - - - 9
recv 3 65535 3 @1 base - - - 18446744073709551615
recv 2 2 65535 06 base - - - 2
lane
seal 0 07 08
unseal 65535 - 0910
lane
unsealall 2 11 12 - 13
export 65535 14 65535
unsealall 3 - -
lane
end
";

const SEED: [u8; 32] = [
    0, 1, 2, 3, 4, 5, 6, 7, 8, 9, 10, 11, 12, 13, 14, 15, 16, 17, 18, 19, 20, 21, 22, 23, 24, 25,
    26, 27, 28, 29, 30, 31,
];

const POOL: [u8; 19] = [
    0x00, 0xff, 0x0a, 0x0b, 0x0c, 0x01, 0x02, 0x03, 0x04, 0x05, 0x06, 0x07, 0x08, 0x09, 0x10, 0x11,
    0x12, 0x13, 0x14,
];

static KEYS: [KeyLine; 6] = [
    KeyLine::Generate,
    KeyLine::Secret(Span { start: 0, len: 2 }),
    KeyLine::Peer(Span { start: 2, len: 0 }),
    KeyLine::Generate857,
    KeyLine::Secret857(Span { start: 2, len: 1 }),
    KeyLine::Peer857(Span { start: 3, len: 2 }),
];

const EMPTY_AT_10: Span = Span { start: 10, len: 0 };

const EMPTY_AT_11: Span = Span { start: 11, len: 0 };

static CONTEXTS: [ContextLine; 4] = [
    ContextLine {
        kind: ContextKind::Share {
            role: Role::Sender,
            kem: 32,
            secret: Span { start: 5, len: 1 },
        },
        kdf: Kdf::Sha256,
        aead: Aead::Aes256,
        mode: Mode::Psk,
        info: Span { start: 6, len: 1 },
        psk: Span { start: 7, len: 2 },
        psk_id: Span { start: 9, len: 1 },
        limit: 1,
    },
    ContextLine {
        kind: ContextKind::Send { key: 0 },
        kdf: Kdf::Sha256,
        aead: Aead::Aes128,
        mode: Mode::Base,
        info: EMPTY_AT_10,
        psk: EMPTY_AT_10,
        psk_id: EMPTY_AT_10,
        limit: 9,
    },
    ContextLine {
        kind: ContextKind::Recv {
            key: 3,
            enc: EncField::Of(1),
        },
        kdf: Kdf::Sha512,
        aead: Aead::ExportOnly,
        mode: Mode::Base,
        info: EMPTY_AT_10,
        psk: EMPTY_AT_10,
        psk_id: EMPTY_AT_10,
        limit: u64::MAX,
    },
    ContextLine {
        kind: ContextKind::Recv {
            key: 65_535,
            enc: EncField::Bytes(Span { start: 10, len: 1 }),
        },
        kdf: Kdf::Sha384,
        aead: Aead::Aes256,
        mode: Mode::Base,
        info: EMPTY_AT_11,
        psk: EMPTY_AT_11,
        psk_id: EMPTY_AT_11,
        limit: 2,
    },
];

static ITEMS: [Item; 3] = [
    Item {
        aad: Span { start: 15, len: 1 },
        text: Span { start: 16, len: 1 },
    },
    Item {
        aad: Span { start: 17, len: 0 },
        text: Span { start: 17, len: 1 },
    },
    Item {
        aad: Span { start: 19, len: 0 },
        text: Span { start: 19, len: 0 },
    },
];

static FIRST_LANE: [CallLine; 2] = [
    CallLine::Seal {
        context: 0,
        item: Item {
            aad: Span { start: 11, len: 1 },
            text: Span { start: 12, len: 1 },
        },
    },
    CallLine::Unseal {
        context: 65_535,
        item: Item {
            aad: Span { start: 13, len: 0 },
            text: Span { start: 13, len: 2 },
        },
    },
];

static SECOND_LANE: [CallLine; 3] = [
    CallLine::UnsealAll {
        context: 2,
        first: 0,
        count: 2,
    },
    CallLine::Export {
        context: 65_535,
        exporter: Span { start: 18, len: 1 },
        size: 65_535,
    },
    CallLine::UnsealAll {
        context: 3,
        first: 2,
        count: 1,
    },
];

// The seed, the keys and the contexts are those of the batch.
fn expect_set_up(rt: &impl Abort, plan: &Plan) {
    assert_same(rt, plan.version, 2, "version");
    assert_same(rt, plan.seed, Some(SEED), "seed");
    assert_same(rt, plan.pool.as_slice(), POOL.as_slice(), "pool");
    assert_same(rt, plan.keys.as_slice(), KEYS.as_slice(), "keys");
    assert_same(
        rt,
        plan.contexts.as_slice(),
        CONTEXTS.as_slice(),
        "contexts",
    );
    assert_same(rt, plan.added, 0, "contexts added");
}

// The lanes and their items are those of the batch.
fn expect_lanes(rt: &impl Abort, plan: &Plan) {
    let [first, second, third] = plan.lanes.as_slice() else {
        panic!(rt; "not three lanes");
    };
    assert_same(rt, first.as_slice(), FIRST_LANE.as_slice(), "lane 0");
    assert_same(rt, second.as_slice(), SECOND_LANE.as_slice(), "lane 1");
    assert_same(rt, third.as_slice().len(), 0, "lane 2");
    assert_same(rt, plan.items.as_slice(), ITEMS.as_slice(), "items");
}

#[test]
fn a_batch_is_read_with_its_plan(rt: HostRuntime) {
    one_reading();
    one_spelling();
    match read_batch(rt.alloc(), WHOLE) {
        Ok(plan) => {
            expect_set_up(&rt, &plan);
            expect_lanes(&rt, &plan);
            drop(plan);
        }
        Err(_) => panic!(rt; "not read"),
    }
}
