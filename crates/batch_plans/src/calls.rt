//! What a call is and has, and which calls are served.

ghost use Rattle.std.specs.Prelude.{◌≡◌, ◌<◌, length, None, MatchOption, IfSome, Some, slice_index};
ghost use Rattle.batch_plans.specs.Calls.{kind_of, context_of, items_of, size_of, keeps_guess};
ghost use Rattle.batch_plans.specs.Calls.{cipher_refusal, seal_refusal, open_refusal};
ghost use Rattle.batch_plans.specs.Calls.{refusal_by, standing_line, refusal};
ghost use Rattle.batch_plans.specs.Room.{served_on};

use crate::plan::{CallKind, CallLine, ContextLine};
use crate::replies::CallRefusal;
use hkdf_labelled::Aead;
use key_schedule::Role;

/// What a call does, whatever its form.
pub fn kind_of(call: &CallLine) -> CallKind
    ensures { result ≡ kind_of call.now }
{
    match *call {
        CallLine::Seal { .. } => CallKind::Seal,
        CallLine::Unseal { .. } | CallLine::UnsealAll { .. } => CallKind::Open,
        CallLine::Export { .. } => CallKind::Export,
        CallLine::Add { .. } => CallKind::Add,
        CallLine::Retire { .. } => CallKind::Retire,
    }
}

/// CTX, the number of the context that a call names; of an `add` or a `retire`, its K.
pub fn context_of(call: &CallLine) -> u32
    ensures { result ≡ context_of call.now }
{
    match *call {
        CallLine::Seal { context, .. }
        | CallLine::Unseal { context, .. }
        | CallLine::UnsealAll { context, .. }
        | CallLine::Export { context, .. } => context,
        CallLine::Add { name } | CallLine::Retire { name } => name,
    }
}

/// How many items a call has. Adding and retiring a context count as one.
pub fn items_of(call: &CallLine) -> u32
    ensures { result ≡ items_of call.now }
{
    match *call {
        CallLine::UnsealAll { count, .. } => count,
        _ => 1,
    }
}

/// LEN, how many bytes a call exports; of one that isn't an export 0.
pub fn size_of(call: &CallLine) -> u32
    ensures { result ≡ size_of call.now }
{
    match *call {
        CallLine::Export { size, .. } => size,
        _ => 0,
    }
}

/// Whether a call keeps a guess where it is served, as an opening of several messages does.
pub fn keeps_guess(call: &CallLine) -> bool
    ensures { result ≡ keeps_guess call.now }
{
    matches!(call, CallLine::UnsealAll { .. })
}

/// Why a call is refused from the batch and its set-up alone; without a refusal it is served.
///
/// The first cause that holds is answered, in the order of [`CallRefusal`]; for an `Add` or a `Retire`,
/// which no context serves, it is `NoContext`. `export_limits` has for each context the most bytes
/// that it exports, 255·Nh (RFC 9180, 5.3), and 0 where it was refused. Takes no memory.
pub fn call_refusal(
    contexts: &[ContextLine],
    export_limits: &[u32],
    call: &CallLine,
) -> Option<CallRefusal>
    ensures { result ≡ refusal contexts.now export_limits.now call.now }
{
    let Some((line, export_limit)) = standing_line(contexts, export_limits, context_of(call)) else {
        return Some(CallRefusal::NoContext);
    };
    refusal_by(line.kind.role(), line.aead, export_limit, call)
}

/// Why a context of this role and cipher, which exports `export_limit` bytes at most, refuses a
/// call that names it. Without a refusal the call is served.
///
/// The first cause that holds is answered, in the order of [`CallRefusal`]; for an `Add` or a `Retire`,
/// which no context serves, it is `NoContext`. Takes no memory.
pub fn refusal_by(role: Role, aead: Aead, export_limit: u32, call: &CallLine) -> Option<CallRefusal>
    ensures { result ≡ refusal_by role aead export_limit call.now }
{
    match kind_of(call) {
        CallKind::Seal => seal_refusal(role, aead),
        CallKind::Open => open_refusal(role, aead),
        CallKind::Export if size_of(call) > export_limit => Some(CallRefusal::ExportSize),
        CallKind::Export => None,
        CallKind::Add | CallKind::Retire => Some(CallRefusal::NoContext),
    }
}

/// The number of the context that seals or opens the items of a call, where it is served.
pub(crate) fn served_on(
    contexts: &[ContextLine],
    export_limits: &[u32],
    call: &CallLine,
) -> Option<u32>
    ensures number { result ≡ served_on contexts.now export_limits.now call.now }
    ensures there { IfSome result (λ number. number < length contexts.now) }
{
    if !kind_of(call).takes_numbers() {
        return None;
    }
    match call_refusal(contexts, export_limits, call) {
        None => Some(context_of(call)),
        Some(_) => None,
    }
}

// The line of this number, where its context stands, with its export limit.
fn standing_line(
    contexts: &[ContextLine],
    export_limits: &[u32],
    number: u32,
) -> Option<(ContextLine, u32)>
    ensures { MatchOption result (standing_line contexts.now export_limits.now number ≡ None)
        (λ found. (standing_line contexts.now export_limits.now number ≡ Some found.0)
        × (slice_index export_limits.now number ≡ found.1)) }
{
    match export_limits.get(number as usize) {
        None | Some(0) => None,
        Some(limit) => Some((*contexts.get(number as usize)?, *limit)),
    }
}

fn cipher_refusal(aead: Aead) -> Option<CallRefusal>
    ensures { result ≡ cipher_refusal aead }
{
    match aead {
        Aead::Aes128 | Aead::Aes256 => None,
        Aead::ExportOnly => Some(CallRefusal::NoCipher),
    }
}

fn seal_refusal(role: Role, aead: Aead) -> Option<CallRefusal>
    ensures { result ≡ seal_refusal role aead }
{
    match role {
        Role::Sender => cipher_refusal(aead),
        Role::Recipient => Some(CallRefusal::Role),
    }
}

fn open_refusal(role: Role, aead: Aead) -> Option<CallRefusal>
    ensures { result ≡ open_refusal role aead }
{
    match role {
        Role::Sender => Some(CallRefusal::Role),
        Role::Recipient => cipher_refusal(aead),
    }
}
