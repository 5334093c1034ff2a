//! The contexts of a plan.

ghost use Rattle.std.specs.Prelude.{◌≡◌, ◌+◌, ◌<◌, ◌≤◌, ◌^◌, [], ◌∷◌, ◌++◌, length, IsSome, IfOk, OnOk, option_copied};
ghost use Rattle.batch_plans.specs.Within.{IsEncWithin, IsKindWithin, IsContextWithin};
ghost use Rattle.batch_plans.specs.Within.{IsWithinLimits};
ghost use Rattle.context_table.specs.Contexts.{enc_at, exchange, psk_refusal, suite_of, scheduled};
ghost use Rattle.context_table.specs.Contexts.{outcome, reply_of, slot_of, AreOutcomes};
ghost use Rattle.context_table.specs.Contexts.{sender_exchange};
ghost use Rattle.context_table.specs.Keys.{key_at};
ghost use Rattle.context_table.specs.Slots.{HoldKeys};
ghost use Rattle.context_table.specs.Streams.{context_words};

use crate::exchanges::Exchange;
use crate::keys::KeyTable;
use crate::parts::ContextParts;
use crate::streams::context_stream;
use batch_plans::{ContextKind, ContextLine, ContextRefusal, ContextReply, EncField, Plan};
use byte_strings::copied;
use hkdf_labelled::Suite;
use hpke_context::Context;
use key_schedule::{PskFault, schedule};
use ring_core::Multiplier;
use std::alloc::{AllocError as OutOfMemory, Global};

/// A context that stands, and the reply to its line.
#[derive(Drop)]
pub(crate) struct Standing {
    pub(crate) reply: ContextReply,
    pub(crate) context: ContextParts,
}

// The bytes of ENC: those of the line, or what an earlier sender's line was answered.
fn enc_at<'a>(pool: &'a [u8], earlier: &'a [ContextReply], enc: EncField) -> Option<&'a [u8]>
    requires { IsEncWithin (length pool.now) enc }
    ensures { option_copied result ≡ enc_at pool.now earlier.now enc }
{
    match enc {
        EncField::Bytes(bytes) => Some(bytes.of(pool)),
        EncField::Of(number) => match earlier.get(number as usize) {
            Some(ContextReply::Sender { enc }) => Some(enc.as_slice()),
            _ => None,
        },
    }
}

// What is exchanged by a line that sends to the key of this number.
fn sending<M: Multiplier>(
    alloc: Global,
    plan: &Plan,
    keys: &KeyTable,
    earlier: &[ContextReply],
    key: u32,
    mult: &M,
) -> Result<Result<Exchange, ContextRefusal>, OutOfMemory>
    requires seed { IsSome plan.now.seed }
    requires keys { HoldKeys plan.now keys.now.replies keys.now.slots }
    requires number { length earlier.now < 2 ^ 32 }
    ensures { IfOk result (λ e. e ≡ sender_exchange (context_words plan.now (length earlier.now))
        (key_at plan.now keys.now.replies key)) }
{
    let Some(key) = keys.key(key) else {
        return Ok(Err(ContextRefusal::NoKey));
    };
    let mut words = context_stream(plan, earlier.len());
    Ok(Ok(key.sender_exchange(alloc, &mut words, mult)?))
}

// What is exchanged by the line after those that got these replies.
fn exchange<M: Multiplier>(
    alloc: Global,
    plan: &Plan,
    keys: &KeyTable,
    earlier: &[ContextReply],
    kind: &ContextKind,
    mult: &M,
) -> Result<Result<Exchange, ContextRefusal>, OutOfMemory>
    requires kind { IsKindWithin plan.now.seed (length plan.now.pool) kind.now }
    requires keys { HoldKeys plan.now keys.now.replies keys.now.slots }
    requires number { length earlier.now < 2 ^ 32 }
    ensures { IfOk result (λ e. e
        ≡ exchange plan.now keys.now.replies earlier.now (length earlier.now) kind.now) }
{
    let pool = plan.pool.as_slice();
    match *kind {
        ContextKind::Share { kem, secret, .. } => Ok(Ok(Exchange {
            kem,
            shared_secret: copied(alloc, secret.of(pool))?,
            reply: ContextReply::Shared,
        })),
        ContextKind::Send { key } => sending(alloc, plan, keys, earlier, key, mult),
        ContextKind::Recv { key, enc } => match keys.key(key) {
            None => Ok(Err(ContextRefusal::NoKey)),
            Some(key) => key.recipient_exchange(alloc, enc_at(pool, earlier, enc), mult),
        },
    }
}

fn psk_refusal(fault: PskFault) -> ContextRefusal
    ensures { result ≡ psk_refusal fault }
{
    match fault {
        PskFault::Inconsistent => ContextRefusal::PskPair,
        PskFault::Unneeded => ContextRefusal::PskExtra,
        PskFault::Missing => ContextRefusal::PskMissing,
    }
}

fn suite_of(kem: u16, line: &ContextLine) -> Suite
    ensures { result ≡ suite_of kem line.now }
{
    Suite {
        kem,
        kdf: line.kdf,
        aead: line.aead,
    }
}

// KeySchedule of a context line (RFC 9180, 5.1).
fn scheduled(
    plan: &Plan,
    line: &ContextLine,
    exchanged: Exchange,
) -> Result<Standing, ContextRefusal>
    requires { IsContextWithin plan.now.seed (length plan.now.pool) line.now }
    ensures { result ≡ scheduled plan.now.pool line.now exchanged }
{
    let pool = plan.pool.as_slice();
    let suite = suite_of(exchanged.kem, line);
    let shared_secret = exchanged.shared_secret.as_slice();
    let info = line.info.of(pool);
    let (psk, psk_id) = (line.psk.of(pool), line.psk_id.of(pool));
    match schedule(&suite, line.mode, shared_secret, info, psk, psk_id) {
        Ok(secrets) => Ok(Standing {
            reply: exchanged.reply,
            context: ContextParts::new(line.kind.role(), suite, secrets, line.limit),
        }),
        Err(fault) => Err(psk_refusal(fault)),
    }
}

// What becomes of the line after those that got these replies.
fn outcome<M: Multiplier>(
    alloc: Global,
    plan: &Plan,
    keys: &KeyTable,
    earlier: &[ContextReply],
    line: &ContextLine,
    mult: &M,
) -> Result<Result<Standing, ContextRefusal>, OutOfMemory>
    requires line { IsContextWithin plan.now.seed (length plan.now.pool) line.now }
    requires keys { HoldKeys plan.now keys.now.replies keys.now.slots }
    requires number { length earlier.now < 2 ^ 32 }
    ensures { IfOk result (λ o. o
        ≡ outcome plan.now keys.now.replies earlier.now (length earlier.now) line.now) }
{
    Ok(
        match exchange(alloc, plan, keys, earlier, &line.kind, mult)? {
            Ok(exchanged) => scheduled(plan, line, exchanged),
            Err(refusal) => Err(refusal),
        },
    )
}

// The reply to a line, and what its context is made of.
fn parts(outcome: Result<Standing, ContextRefusal>) -> (ContextReply, Option<ContextParts>)
    ensures reply { result.0 ≡ reply_of outcome }
    ensures context { result.1 ≡ slot_of outcome }
{
    match outcome {
        Ok(standing) => (standing.reply, Some(standing.context)),
        Err(refusal) => (ContextReply::Refused(refusal), None),
    }
}

// The context of these parts.
//
// It makes the tables of a key, 9 KiB: kept by itself, as all that moves contexts, so that no frame
// below it has room for them.
#[inline(never)]
fn slot(parts: Option<ContextParts>) -> Option<Context>
    ensures { result ≡ parts }
{
    Some(parts?.into_context())
}

// Puts a context into the next slot, or leaves that empty.
#[inline(never)]
fn push(slots: &mut Vec<Option<Context>>, slot: Option<Context>) -> Result<(), OutOfMemory>
    ensures { OnOk result (slots.new.items ≡ slots.old.items ++ slot ∷ []) }
{
    slots.push(slot)?;
    Ok(())
}

// Puts the context of these parts into the next slot.
#[inline(never)]
fn push_slot(
    slots: &mut Vec<Option<Context>>,
    parts: Option<ContextParts>,
) -> Result<(), OutOfMemory>
    ensures { OnOk result (slots.new.items ≡ slots.old.items ++ parts ∷ []) }
{
    push(slots, slot(parts))
}

// Puts the reply to a line and its context behind those so far.
fn keep(
    replies: &mut Vec<ContextReply>,
    slots: &mut Vec<Option<Context>>,
    outcome: Result<Standing, ContextRefusal>,
) -> Result<(), OutOfMemory>
    ensures replies { OnOk result (replies.new.items ≡ replies.old.items ++ reply_of outcome ∷ []) }
    ensures slots { OnOk result (slots.new.items ≡ slots.old.items ++ slot_of outcome ∷ []) }
{
    let (reply, slot) = parts(outcome);
    replies.push(reply)?;
    push_slot(slots, slot)
}

/// The replies to context lines, and the contexts that stand, each in the slot of its number.
#[derive(Drop)]
pub(crate) struct ContextTable {
    pub(crate) replies: Vec<ContextReply>,
    pub(crate) slots: Vec<Option<Context>>,
}

/// Sets up the contexts of a plan, in the order of their lines.
pub(crate) fn context_table<M: Multiplier>(
    alloc: Global,
    plan: &Plan,
    keys: &KeyTable,
    mult: &M,
) -> Result<ContextTable, OutOfMemory>
    requires limits { IsWithinLimits plan.now }
    requires keys { HoldKeys plan.now keys.now.replies keys.now.slots }
    ensures reply_count { IfOk result (λ t. length t.replies.items ≡ length plan.now.contexts) }
    ensures slot_count { IfOk result (λ t. length t.slots.items ≡ length plan.now.contexts) }
    ensures outcomes { IfOk result (λ t. AreOutcomes plan.now keys.now.replies
        t.replies.items t.slots.items) }
{
    let mut replies = Vec::new(alloc);
    let mut slots = Vec::new(alloc);
    'contexts: for line in plan.contexts.as_slice() {
        let outcome = outcome(alloc, plan, keys, &replies, line, mult)?;
        keep(&mut replies, &mut slots, outcome)?;
    }
    Ok(ContextTable { replies, slots })
}
