//! What the items of calls ask, and how the sequential context answers them.

ghost use Rattle.std.specs.Prelude.{◌≡◌, ◌≤◌, ◌<◌, ◌+◌, ◌-◌, ◌^◌, length, map, slice_get, IfOk, OnOk};
ghost use Rattle.hpke_context.specs.Answers.{Seal, Unseal, next};
ghost use Rattle.hpke_context.specs.Calls.{CanSeal, CanOpen, answer_now};
ghost use Rattle.batch_plans.specs.Limits.{most_ciphertext};
ghost use Rattle.batch_plans.specs.Within.{IsWithinLimits};
ghost use Rattle.call_places.specs.Spans.{IsInPool, span_bytes};
ghost use Rattle.context_books.specs.Runs.{answer_line};
ghost use Rattle.journal_check.specs.Runs.{asks_in, asked_at as asked_at_of, item_view, CanDo};
ghost use Rattle.journal_check.specs.Runs.{IsAskedIn, OpensWithin};

use aes_gcm::Checks;
use batch_plans::{CallLine, Plan, Reply, items_from};
use call_places::{Item, Place, Span};
use hpke_context::{CallFault, Sequential};
use reply_frames::LinePrinter;
use std::alloc::AllocError;

/// What an item asks: to be sealed, or to be opened.
#[derive(Clone, Copy, Debug, PartialEq, Eq)]
pub enum Asked {
    Seal(Item),
    Open(Item),
}

fn opened_item(items: &[Item], i: u32) -> Option<Asked>
    ensures { result ≡ slice_get (map (λ item. Asked.Open item) items.now) i }
{
    Some(Asked::Open(*items.get(i as usize)?))
}

// What the item of this number asks.
fn asked_item(items: &[Item], call: &CallLine, i: u32) -> Option<Asked>
    requires { OpensWithin (length items.now) call.now }
    ensures { result ≡ slice_get (asks_in items.now call.now) i }
{
    match *call {
        CallLine::Seal { item, .. } if i == 0 => Some(Asked::Seal(item)),
        CallLine::Unseal { item, .. } if i == 0 => Some(Asked::Open(item)),
        CallLine::UnsealAll { first, count, .. } => opened_item(items_from(items, first, count), i),
        CallLine::Seal { .. }
        | CallLine::Unseal { .. }
        | CallLine::Export { .. }
        | CallLine::Add { .. }
        | CallLine::Retire { .. } => None,
    }
}

/// The span of all of these bytes.
pub(crate) fn all_of(bytes: &[u8]) -> Span
    requires { length bytes.now < 2 ^ 32 }
    ensures within { IsInPool (length bytes.now) result }
    ensures all { span_bytes bytes.now result ≡ bytes.now }
{
    Span {
        start: 0,
        len: bytes.len() as u32,
    }
}

// The line of a seal.
fn seal(
    lines: &mut LinePrinter,
    sequential: &mut Sequential,
    aad: &[u8],
    text: &[u8],
) -> Result<Vec<u8>, AllocError>
    requires can { CanSeal sequential.old.context }
    requires text { length text.now ≤ most_ciphertext }
    requires aad { length aad.now < 2 ^ 61 }
    ensures line { IfOk result (λ line. line.items
        ≡ answer_line (answer_now sequential.old (Seal aad.now text.now))) }
    ensures seq { OnOk result (sequential.new.seq
        ≡ next sequential.old.seq (answer_now sequential.old (Seal aad.now text.now))) }
    ensures context { OnOk result (sequential.new.context ≡ sequential.old.context) }
{
    let mut out = vec![in lines.alloc; 0u8; text.len() + 16]?;
    match sequential.seal_into(aad, text, &mut out) {
        Ok(number) => {
            let text = all_of(&out);
            lines.reply_line(&out, &Reply::Sealed { number, text })
        }
        Err(_) => lines.reply_line(&[], &Reply::Limit),
    }
}

// The line of an opening.
fn open(
    lines: &mut LinePrinter,
    sequential: &mut Sequential,
    aad: &[u8],
    ct: &[u8],
    checks: &mut Checks,
) -> Result<Vec<u8>, AllocError>
    requires can { CanOpen sequential.old.context }
    requires ct { length ct.now ≤ most_ciphertext }
    requires aad { length aad.now < 2 ^ 61 }
    requires count { checks.old < 2 ^ 64 - 1 }
    ensures line { IfOk result (λ line. line.items
        ≡ answer_line (answer_now sequential.old (Unseal aad.now ct.now))) }
    ensures seq { OnOk result (sequential.new.seq
        ≡ next sequential.old.seq (answer_now sequential.old (Unseal aad.now ct.now))) }
    ensures context { OnOk result (sequential.new.context ≡ sequential.old.context) }
    ensures checked { OnOk result (checks.new ≡ checks.old + 1) }
{
    let seq = sequential.seq();
    let mut out = vec![in lines.alloc; 0u8; ct.len().saturating_sub(16)]?;
    match sequential.unseal_into(aad, ct, &mut out, checks) {
        Ok(number) => {
            let text = all_of(&out);
            lines.reply_line(&out, &Reply::Opened { number, text })
        }
        Err(CallFault::Failed) => lines.reply_line(&[], &Reply::Failed { number: seq }),
        Err(_) => lines.reply_line(&[], &Reply::Limit),
    }
}

/// What a place asks, where there is such an item.
pub(crate) fn asked_at(plan: &Plan, place: Place) -> Option<Asked>
    requires { IsWithinLimits plan.now }
    ensures { result ≡ asked_at_of plan.now place }
{
    let calls = plan.lanes.as_slice().get(place.lane as usize)?;
    let call = calls.as_slice().get(place.call as usize)?;
    asked_item(plan.items.as_slice(), call, place.item)
}

/// Answers an item: the line of its answer. The context goes on as the sequential context does.
pub(crate) fn answer(
    lines: &mut LinePrinter,
    sequential: &mut Sequential,
    pool: &[u8],
    asked: Asked,
    checks: &mut Checks,
) -> Result<Vec<u8>, AllocError>
    requires can { CanDo sequential.old.context asked }
    requires within { IsAskedIn (length pool.now) asked }
    requires count { checks.old < 2 ^ 64 - 1 }
    ensures line { IfOk result (λ line. line.items
        ≡ answer_line (answer_now sequential.old (item_view pool.now asked))) }
    ensures seq { OnOk result (sequential.new.seq
        ≡ next sequential.old.seq (answer_now sequential.old (item_view pool.now asked))) }
    ensures context { OnOk result (sequential.new.context ≡ sequential.old.context) }
    ensures checked { OnOk result (checks.new ≤ checks.old + 1) }
{
    match asked {
        Asked::Seal(item) => seal(lines, sequential, item.aad.of(pool), item.text.of(pool)),
        Asked::Open(item) => {
            open(
                lines,
                sequential,
                item.aad.of(pool),
                item.text.of(pool),
                checks,
            )
        }
    }
}
