//! Keys and contexts that are refused.

use crate::expected::{assert_at, assert_same};
use crate::set_ups::plans::{BASE, NO_BYTES, base_line, plan_of, set_up_with, span_of};
use batch_plans::{
    ContextKind, ContextLine, ContextRefusal, ContextReply, EncField, KeyLine, KeyRefusal, KeyReply,
};
use call_places::Span;
use context_table::Setup;
use key_schedule::{Mode, Role};
use ring_core::Plain;
use std::alloc::Global;
use std::process::Abort;

fn refusal_of(reply: &ContextReply) -> Option<ContextRefusal> {
    match reply {
        ContextReply::Refused(refusal) => Some(*refusal),
        ContextReply::Shared | ContextReply::Sender { .. } | ContextReply::Recipient => None,
    }
}

fn key_refusal_of(reply: &KeyReply) -> Option<KeyRefusal> {
    match reply {
        KeyReply::Refused(refusal) => Some(*refusal),
        KeyReply::Generated { .. } | KeyReply::Secret { .. } | KeyReply::Peer => None,
    }
}

// The pool is a byte ff, 1999 zero bytes, and 1400 bytes ff.
const FORMLESS: Span = Span {
    start: 0,
    len: 1763,
};

const SHORT_SECRET: Span = Span {
    start: 1,
    len: 1762,
};

const SECRET_OF_761: Span = Span {
    start: 1,
    len: 1763,
};

const ANY_PUBLIC: Span = Span {
    start: 2000,
    len: 1158,
};

const SHORT_PUBLIC: Span = Span {
    start: 2000,
    len: 1157,
};

const ONE_BYTE: Span = Span { start: 0, len: 1 };

fn ffs_and_zeros(rt: &impl Abort, alloc: Global) -> Vec<u8> {
    let mut pool = Vec::new(alloc);
    span_of(rt, &mut pool, &[0xff]);
    span_of(rt, &mut pool, &[0; 1999]);
    span_of(rt, &mut pool, &[0xff; 1400]);
    pool
}

static KEY_REFUSALS: [(KeyLine, Option<KeyRefusal>); 7] = [
    (KeyLine::Secret(SHORT_SECRET), Some(KeyRefusal::Length)),
    (KeyLine::Secret(FORMLESS), Some(KeyRefusal::Form)),
    (KeyLine::Peer(SHORT_PUBLIC), Some(KeyRefusal::Length)),
    (KeyLine::Peer(ANY_PUBLIC), None),
    (KeyLine::Secret857(SECRET_OF_761), Some(KeyRefusal::Length)),
    (KeyLine::Peer857(ANY_PUBLIC), Some(KeyRefusal::Length)),
    (KeyLine::Generate857, None),
];

fn key_lines(rt: &impl Abort, alloc: Global) -> Vec<KeyLine> {
    let mut keys = Vec::new(alloc);
    for case in &KEY_REFUSALS {
        keys.push(case.0).expect(rt, "memory");
    }
    keys
}

fn assert_key_refusals(rt: &impl Abort, setup: &Setup) {
    for (number, case) in KEY_REFUSALS.iter().enumerate() {
        let reply = setup.keys.as_slice().get(number).expect(rt, "a reply");
        assert_at(rt, key_refusal_of(reply), case.1, "key", number);
    }
}

#[test]
fn keys_are_refused_by_length_and_form(rt: HostRuntime) {
    let alloc = rt.alloc();
    let (pool, keys) = (ffs_and_zeros(&rt, alloc), key_lines(&rt, alloc));
    let plan = plan_of(&rt, alloc, pool, keys, Vec::new(alloc));
    let setup = set_up_with(&rt, alloc, &plan, &Plain);
    drop(plan);
    assert_key_refusals(&rt, &setup);
    drop(setup);
}

// The last context line of a plan, after others in mode base. Each case is own, by hand.
struct ContextCase {
    what: &'static str,
    keys: &'static [KeyLine],
    earlier: &'static [ContextKind],
    kind: ContextKind,
    mode: Mode,
    psk: Span,
    psk_id: Span,
    want: Option<ContextRefusal>,
}

const SEND: ContextKind = ContextKind::Send { key: 0 };

const RECV_0: ContextKind = ContextKind::Recv {
    key: 0,
    enc: EncField::Of(0),
};

const RECV_ONE_BYTE: ContextKind = ContextKind::Recv {
    key: 0,
    enc: EncField::Bytes(ONE_BYTE),
};

const SHARE: ContextKind = ContextKind::Share {
    role: Role::Sender,
    kem: 32,
    secret: ONE_BYTE,
};

const CASE: ContextCase = ContextCase {
    what: "a send",
    keys: &[KeyLine::Generate],
    earlier: &[],
    kind: SEND,
    mode: Mode::Base,
    psk: NO_BYTES,
    psk_id: NO_BYTES,
    want: None,
};

static CONTEXT_REFUSALS: [ContextCase; 14] = [
    CASE,
    ContextCase {
        what: "no key line",
        keys: &[],
        want: Some(ContextRefusal::NoKey),
        ..CASE
    },
    ContextCase {
        what: "a refused key, before the psk inputs",
        keys: &[KeyLine::Peer(SHORT_PUBLIC)],
        psk: ONE_BYTE,
        want: Some(ContextRefusal::NoKey),
        ..CASE
    },
    ContextCase {
        what: "any public key",
        keys: &[KeyLine::Peer(ANY_PUBLIC)],
        ..CASE
    },
    ContextCase {
        what: "a public key alone, before the encapsulation",
        keys: &[KeyLine::Peer(ANY_PUBLIC)],
        kind: RECV_0,
        want: Some(ContextRefusal::NeedSecret),
        ..CASE
    },
    ContextCase {
        what: "its own number",
        kind: RECV_0,
        psk: ONE_BYTE,
        want: Some(ContextRefusal::NoEnc),
        ..CASE
    },
    ContextCase {
        what: "the number of no sender to a key",
        earlier: &[SHARE],
        kind: RECV_0,
        want: Some(ContextRefusal::NoEnc),
        ..CASE
    },
    ContextCase {
        what: "the number of a refused sender",
        earlier: &[ContextKind::Send { key: 1 }],
        kind: RECV_0,
        want: Some(ContextRefusal::NoEnc),
        ..CASE
    },
    ContextCase {
        what: "too few bytes, before the psk inputs",
        kind: RECV_ONE_BYTE,
        psk: ONE_BYTE,
        want: Some(ContextRefusal::EncSize),
        ..CASE
    },
    ContextCase {
        what: "an encapsulation of the other set",
        keys: &[KeyLine::Generate857, KeyLine::Generate],
        earlier: &[ContextKind::Send { key: 1 }],
        kind: RECV_0,
        want: Some(ContextRefusal::EncSize),
        ..CASE
    },
    ContextCase {
        what: "a psk without its id",
        psk: ONE_BYTE,
        want: Some(ContextRefusal::PskPair),
        ..CASE
    },
    ContextCase {
        what: "a psk in mode base",
        psk: ONE_BYTE,
        psk_id: ONE_BYTE,
        want: Some(ContextRefusal::PskExtra),
        ..CASE
    },
    ContextCase {
        what: "no psk in mode psk",
        mode: Mode::Psk,
        want: Some(ContextRefusal::PskMissing),
        ..CASE
    },
    ContextCase {
        what: "a recipient in mode psk",
        earlier: &[SEND],
        kind: RECV_0,
        mode: Mode::Psk,
        psk: ONE_BYTE,
        psk_id: ONE_BYTE,
        ..CASE
    },
];

fn lines_of(rt: &impl Abort, alloc: Global, case: &ContextCase) -> Vec<ContextLine> {
    let mut lines = Vec::new(alloc);
    for kind in case.earlier {
        lines.push(base_line(*kind)).expect(rt, "memory");
    }
    let last = ContextLine {
        kind: case.kind,
        mode: case.mode,
        psk: case.psk,
        psk_id: case.psk_id,
        ..BASE
    };
    lines.push(last).expect(rt, "memory");
    lines
}

fn assert_last(rt: &impl Abort, setup: &Setup, case: &ContextCase) {
    let reply = setup.contexts.as_slice().last().expect(rt, "a reply");
    assert_same(rt, refusal_of(reply), case.want, case.what);
    let slot = setup.standing.as_slice().last().expect(rt, "a slot");
    assert_same(rt, slot.is_some(), case.want.is_none(), case.what);
}

fn assert_context(rt: &impl Abort, alloc: Global, case: &ContextCase) {
    let keys = Vec::from_slice(alloc, case.keys).expect(rt, "memory");
    let contexts = lines_of(rt, alloc, case);
    let plan = plan_of(rt, alloc, ffs_and_zeros(rt, alloc), keys, contexts);
    let setup = set_up_with(rt, alloc, &plan, &Plain);
    drop(plan);
    assert_last(rt, &setup, case);
    drop(setup);
}

#[test]
fn contexts_are_refused_by_the_first_cause(rt: HostRuntime) {
    for case in &CONTEXT_REFUSALS {
        assert_context(&rt, rt.alloc(), case);
    }
}
