//! Whole exchanges against other implementations of the KEM.

ghost use Rattle.batch_plans.specs.Within.{IsWithinLimits};

use crate::expected::{assert_at, assert_same};
use crate::set_ups::plans::{base_line, plan_of, set_up_with, span_of};
use batch_plans::{ContextKind, ContextLine, ContextReply, EncField, KeyLine, KeyReply, Plan};
use call_places::Span;
use context_table::{Setup, export_limits};
use hex::FromHex;
use hpke_context::Context;
use key_schedule::Role;
use ring_core::{Multiplier, Plain};
use ring_karatsuba::Karatsuba;
use sha2::{Digest, Sha256};
use std::alloc::Global;
use std::process::Abort;

fn assert_hash(rt: &impl Abort, bytes: &[u8], digits: &str, what: &str, of: &str) {
    let want = <[u8; 32]>::from_hex(digits).expect(rt, "64 hex digits");
    assert_at(rt, Sha256::digest(bytes), want, what, of);
}

// 32 bytes that the context of this number exports.
fn exported(rt: &impl Abort, setup: &Setup, number: usize) -> [u8; 32] {
    let slot = setup.standing.as_slice().get(number);
    let context: &Context = slot.and_then(|slot| slot.as_ref()).expect(rt, "a context");
    let mut out = [0; 32];
    context.export_into(b"", &mut out).expect(rt, "32 bytes");
    out
}

// An exchange with the key of stream 0 of the zero seed, and r of stream 1.
struct ExchangeCase {
    source: &'static str,
    generate: KeyLine,
    kem: u16,
    sha256_pk: &'static str,
    sha256_sk: &'static str,
    sha256_enc: &'static str,
    shared_secret: &'static str,
    // What Decap gives where bit 0 of the encapsulation is flipped: own, by Python 3.11,
    // tools/vectors/sntrup_reject.py.
    rejection: &'static str,
}

static EXCHANGES: [ExchangeCase; 2] = [
    ExchangeCase {
        source: "sntrup761 of OpenSSH 9.2p1",
        generate: KeyLine::Generate,
        kem: 0xF761,
        sha256_pk: "e9cfcf9d46e1480b876470c04bff9bd008c180b2e95373cc6d4af86ac566589f",
        sha256_sk: "0624f159ae7e906ebc8d827e97e4f554a97dfe262f4c9cbb38343377eea7de01",
        sha256_enc: "52313a15b7ce1cfcb62fefe274aca188ea30729bf63763f19f8b026354b60cbe",
        shared_secret: "e886d16c151bd76b251613e1819a2e4e45586720f1d6e649d0fca84d40eceacf",
        rejection: "bd892edc23a801796ba640041e4832fb5fbd17fbda8899afd61a27ff72ca22d6",
    },
    ExchangeCase {
        source: "sntrup857 of libntruprime 20241021",
        generate: KeyLine::Generate857,
        kem: 0xF857,
        sha256_pk: "5802250fb3ad00451bcf7333cf40e823d08c67ce687b56f150907e9452429f51",
        sha256_sk: "9b33a3956ee0536794b3a1e4a7b71528df39d0f5a6a0bef852958bd74f71cc2a",
        sha256_enc: "f9220c2c4edd31b35b67e808f91a156e93f5568fca7c4818ea48985c8b09c3d6",
        shared_secret: "bef4a6513a405179b943b4565b72fa6a2ce9f29760c4fd788240e223a845a693",
        rejection: "1e9b0ab17f1133a44332236af90e1b274592941b9736e240edbd94090ec82096",
    },
];

// The key line that gives these bytes, of the same set.
fn secret_line(generate: KeyLine, bytes: Span) -> KeyLine {
    match generate {
        KeyLine::Generate857 => KeyLine::Secret857(bytes),
        _ => KeyLine::Secret(bytes),
    }
}

fn add_digits(rt: &impl Abort, pool: &mut Vec<u8>, digits: &str) -> Span {
    let bytes = <[u8; 32]>::from_hex(digits).expect(rt, "64 hex digits");
    span_of(rt, pool, &bytes)
}

// A sender, and a context over the session key that it should have.
fn sender_plan(rt: &impl Abort, alloc: Global, case: &ExchangeCase) -> Plan
    ensures { IsWithinLimits result }
{
    let mut pool = Vec::new(alloc);
    let secret = add_digits(rt, &mut pool, case.shared_secret);
    let role = Role::Sender;
    let share = ContextKind::Share {
        role,
        kem: case.kem,
        secret,
    };
    let contexts = [base_line(ContextKind::Send { key: 0 }), base_line(share)];
    let contexts = Vec::from_slice(alloc, &contexts).expect(rt, "memory");
    let keys = Vec::from_slice(alloc, &[case.generate]).expect(rt, "memory");
    plan_of(rt, alloc, pool, keys, contexts)
}

// The bytes with bit 0 flipped.
fn flipped(rt: &impl Abort, alloc: Global, bytes: &[u8]) -> Vec<u8> {
    let mut flipped = Vec::from_slice(alloc, bytes).expect(rt, "memory");
    if let Some(byte) = flipped.first_mut() {
        *byte ^= 1;
    }
    flipped
}

// The sender again, and recipients by its number, by its bytes with the secret key given, and by
// its bytes with bit 0 flipped; and a context over the rejection key that the last one should have.
fn recipient_lines(kem: u16, enc: Span, spoilt: Span, rejection: Span) -> [ContextLine; 5] {
    [
        base_line(ContextKind::Send { key: 0 }),
        base_line(ContextKind::Recv {
            key: 0,
            enc: EncField::Of(0),
        }),
        base_line(ContextKind::Recv {
            key: 1,
            enc: EncField::Bytes(enc),
        }),
        base_line(ContextKind::Recv {
            key: 0,
            enc: EncField::Bytes(spoilt),
        }),
        base_line(ContextKind::Share {
            role: Role::Recipient,
            kem,
            secret: rejection,
        }),
    ]
}

fn recipients_plan(
    rt: &impl Abort,
    alloc: Global,
    case: &ExchangeCase,
    secret: &[u8],
    enc: &[u8],
) -> Plan
    ensures { IsWithinLimits result }
{
    let mut pool = Vec::new(alloc);
    let given = span_of(rt, &mut pool, secret);
    let whole = span_of(rt, &mut pool, enc);
    let spoilt = span_of(rt, &mut pool, &flipped(rt, alloc, enc));
    let rejection = add_digits(rt, &mut pool, case.rejection);
    let keys = [case.generate, secret_line(case.generate, given)];
    let contexts = recipient_lines(case.kem, whole, spoilt, rejection);
    let keys = Vec::from_slice(alloc, &keys).expect(rt, "memory");
    let contexts = Vec::from_slice(alloc, &contexts).expect(rt, "memory");
    plan_of(rt, alloc, pool, keys, contexts)
}

// The pair of the first key line.
fn pair_of<'a>(rt: &impl Abort, setup: &'a Setup, of: &str) -> (&'a [u8], &'a [u8]) {
    let Some(KeyReply::Generated { public, secret }) = setup.keys.as_slice().first() else {
        panic!(rt; "no pair, {of}");
    };
    (public.as_slice(), secret.as_slice())
}

// The encapsulation of the first context line.
fn enc_of<'a>(rt: &impl Abort, setup: &'a Setup, of: &str) -> &'a [u8] {
    let Some(ContextReply::Sender { enc }) = setup.contexts.as_slice().first() else {
        panic!(rt; "no sender, {of}");
    };
    enc.as_slice()
}

fn assert_sender(rt: &impl Abort, setup: &Setup, case: &ExchangeCase) {
    let of = case.source;
    let (public, secret) = pair_of(rt, setup, of);
    assert_hash(rt, public, case.sha256_pk, "public key", of);
    assert_hash(rt, secret, case.sha256_sk, "secret key", of);
    assert_hash(
        rt,
        enc_of(rt, setup, of),
        case.sha256_enc,
        "encapsulation",
        of,
    );
    assert_at(
        rt,
        exported(rt, setup, 0),
        exported(rt, setup, 1),
        "session key",
        of,
    );
}

fn assert_recipients(rt: &impl Abort, first: &Setup, second: &Setup, of: &str) {
    let sent = exported(rt, first, 0);
    for number in 0..3 {
        assert_at(rt, exported(rt, second, number), sent, of, number);
    }
    assert_at(
        rt,
        exported(rt, second, 3),
        exported(rt, second, 4),
        "rejection key",
        of,
    );
    let Some(KeyReply::Secret { public: held }) = second.keys.as_slice().get(1) else {
        panic!(rt; "no secret key, {of}");
    };
    let (public, _) = pair_of(rt, first, of);
    assert!(rt;
        held.as_slice() == public,
        "public key of the secret key, {of}"
    );
}

fn assert_limits(rt: &impl Abort, alloc: Global, setup: &Setup) {
    let limits = export_limits(alloc, setup.standing.as_slice()).expect(rt, "memory");
    assert_same(rt, limits.as_slice(), &[8160; 5][..], "export limits");
}

// The second set-up, of what the first one gave.
fn second_of<M: Multiplier>(
    rt: &impl Abort,
    alloc: Global,
    case: &ExchangeCase,
    first: &Setup,
    mult: &M,
) -> Setup {
    let (_, secret) = pair_of(rt, first, case.source);
    let enc = enc_of(rt, first, case.source);
    let plan = recipients_plan(rt, alloc, case, secret, enc);
    let second = set_up_with(rt, alloc, &plan, mult);
    drop(plan);
    second
}

fn assert_exchange<M: Multiplier>(rt: &impl Abort, alloc: Global, case: &ExchangeCase, mult: &M) {
    let plan = sender_plan(rt, alloc, case);
    let first = set_up_with(rt, alloc, &plan, mult);
    drop(plan);
    assert_sender(rt, &first, case);
    let second = second_of(rt, alloc, case, &first, mult);
    assert_recipients(rt, &first, &second, case.source);
    assert_limits(rt, alloc, &second);
    drop(first);
    drop(second);
}

#[test]
fn exchanges_are_those_of_other_implementations(rt: HostRuntime) {
    for case in &EXCHANGES {
        assert_exchange(&rt, rt.alloc(), case, &Plain);
        assert_exchange(&rt, rt.alloc(), case, &Karatsuba);
    }
}
