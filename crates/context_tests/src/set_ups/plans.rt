//! Plans within the limits, of the zero seed and with no lanes.

ghost use Rattle.std.specs.Prelude.{◌≡◌, ◌≤◌, All};
ghost use Rattle.batch_plans.specs.Limits.{most_field};
ghost use Rattle.batch_plans.specs.Within.{IsField, IsKeyWithin, IsEncWithin, IsKindWithin};
ghost use Rattle.batch_plans.specs.Within.{IsContextWithin, IsWithinLimits};

use batch_plans::{ContextKind, ContextLine, EncField, KeyLine, PlainList, Plan};
use call_places::Span;
use context_table::{Setup, set_up};
use hkdf_labelled::{Aead, Kdf};
use key_schedule::Mode;
use ring_core::Multiplier;
use std::alloc::Global;
use std::process::Abort;

fn assert_field(rt: &impl Abort, pool: usize, span: Span)
    ensures { IsField most_field pool span }
{
    assert!(rt;
        u64::from(span.start) + u64::from(span.len) <= pool as u64,
        "in the pool"
    );
    assert!(rt; span.len <= 65_535, "a field");
}

fn assert_key(rt: &impl Abort, seed: &Option<[u8; 32]>, pool: usize, line: &KeyLine)
    ensures { IsKeyWithin seed.now pool line.now }
{
    match *line {
        KeyLine::Generate | KeyLine::Generate857 => assert!(rt; seed.is_some(), "a seed"),
        KeyLine::Secret(bytes)
        | KeyLine::Peer(bytes)
        | KeyLine::Secret857(bytes)
        | KeyLine::Peer857(bytes) => assert_field(rt, pool, bytes),
    }
}

fn assert_enc(rt: &impl Abort, pool: usize, enc: EncField)
    ensures { IsEncWithin pool enc }
{
    match enc {
        EncField::Bytes(bytes) => assert_field(rt, pool, bytes),
        EncField::Of(number) => assert!(rt; number <= 65_535, "a number"),
    }
}

fn assert_kind(rt: &impl Abort, seed: &Option<[u8; 32]>, pool: usize, kind: &ContextKind)
    ensures { IsKindWithin seed.now pool kind.now }
{
    match *kind {
        ContextKind::Share {
            kem: _kem,
            secret,
            ..
        } => assert_field(rt, pool, secret),
        ContextKind::Send { key } => {
            assert!(rt; key <= 65_535, "a number");
            assert!(rt; seed.is_some(), "a seed");
        }
        ContextKind::Recv { key, enc } => {
            assert!(rt; key <= 65_535, "a number");
            assert_enc(rt, pool, enc);
        }
    }
}

fn assert_context(rt: &impl Abort, seed: &Option<[u8; 32]>, pool: usize, line: &ContextLine)
    ensures { IsContextWithin seed.now pool line.now }
{
    assert_kind(rt, seed, pool, &line.kind);
    assert_field(rt, pool, line.info);
    assert_field(rt, pool, line.psk);
    assert_field(rt, pool, line.psk_id);
    assert!(rt; line.limit >= 1, "a limit");
}

fn assert_keys(rt: &impl Abort, seed: &Option<[u8; 32]>, pool: usize, keys: &[KeyLine])
    ensures { All (IsKeyWithin seed.now pool) keys.now }
{
    for line in keys {
        assert_key(rt, seed, pool, line);
    }
}

fn assert_contexts(rt: &impl Abort, seed: &Option<[u8; 32]>, pool: usize, contexts: &[ContextLine])
    ensures { All (IsContextWithin seed.now pool) contexts.now }
{
    for line in contexts {
        assert_context(rt, seed, pool, line);
    }
}

// A plan of the zero seed, with no lanes.
pub(crate) fn plan_of(
    rt: &impl Abort,
    alloc: Global,
    pool: Vec<u8>,
    keys: Vec<KeyLine>,
    contexts: Vec<ContextLine>,
) -> Plan
    ensures { IsWithinLimits result }
{
    let seed = Some([0; 32]);
    assert!(rt; pool.len() <= 67_108_864, "bytes");
    assert!(rt; keys.len() <= 64, "keys");
    assert!(rt; contexts.len() <= 256, "contexts");
    assert_keys(rt, &seed, pool.len(), &keys);
    assert_contexts(rt, &seed, pool.len(), &contexts);
    Plan {
        version: 2,
        seed,
        pool: PlainList::from_vec(pool),
        keys: PlainList::from_vec(keys),
        contexts: PlainList::from_vec(contexts),
        items: PlainList::from_vec(Vec::new(alloc)),
        lanes: PlainList::from_vec(Vec::new(alloc)),
        added: 0,
    }
}

pub(crate) fn set_up_with<M: Multiplier>(
    rt: &impl Abort,
    alloc: Global,
    plan: &Plan,
    mult: &M,
) -> Setup
    requires { IsWithinLimits plan.now }
{
    set_up(alloc, plan, mult).expect(rt, "memory")
}

// ---- what is asked

pub(crate) const NO_BYTES: Span = Span { start: 0, len: 0 };

pub(crate) const BASE: ContextLine = ContextLine {
    kind: ContextKind::Send { key: 0 },
    kdf: Kdf::Sha256,
    aead: Aead::Aes256,
    mode: Mode::Base,
    info: NO_BYTES,
    psk: NO_BYTES,
    psk_id: NO_BYTES,
    limit: 9,
};

// A line of this kind in mode base.
pub(crate) fn base_line(kind: ContextKind) -> ContextLine {
    ContextLine { kind, ..BASE }
}

// Adds bytes to the pool.
pub(crate) fn span_of(rt: &impl Abort, pool: &mut Vec<u8>, bytes: &[u8]) -> Span {
    let start = u32::try_from(pool.len()).expect(rt, "a start");
    let len = u32::try_from(bytes.len()).expect(rt, "a length");
    pool.extend_from_slice(bytes).expect(rt, "memory");
    Span { start, len }
}
