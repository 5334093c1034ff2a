//! The replies to calls that add and retire contexts.

ghost use Rattle.std.specs.Prelude.{ℕ, ◌≡◌, ◌+◌, ◌∷◌, [], Some, None, IfSome, IfNone, slice_get};
ghost use Rattle.batch_plans.specs.Within.{IsWithinLimits};
ghost use Rattle.batch_plans.specs.Names.{line_count};
ghost use Rattle.batch_plans.specs.Replies.{IsInRange};
ghost use Rattle.batch_plans.specs.AnswersText.{reply_line};
ghost use Rattle.context_books.specs.Live.{add_line, retire_line};
ghost use Rattle.result_lines.specs.Replies.{reply_lines};
ghost use Rattle.journal_check.specs.Asks.{asked_in};
ghost use Rattle.journal_check.specs.Served.{due_by};
ghost use Rattle.journal_check.specs.Walks.{run_in};

use crate::lane_walks::CheckedRun;
use batch_plans::{CallLine, CallRefusal, ContextRefusal, ContextReply, Plan, Reply};

// The reply to a call that adds a context which couldn't be set up: why, or `added` where the call
// doesn't tell.
fn refused_add(refusal: ContextRefusal) -> Reply
    ensures within { IsInRange 0 result }
    ensures line { reply_line [] result ≡ add_line (Some (ContextReply.Refused refusal)) }
{
    match refusal {
        ContextRefusal::PskPair => Reply::Refused(CallRefusal::PskPair),
        ContextRefusal::PskExtra => Reply::Refused(CallRefusal::PskExtra),
        ContextRefusal::PskMissing => Reply::Refused(CallRefusal::PskMissing),
        ContextRefusal::NoKey
        | ContextRefusal::NeedSecret
        | ContextRefusal::NoEnc
        | ContextRefusal::EncSize => Reply::Added,
    }
}

// The reply to a call that adds the context of this name, by what its set-up replied.
fn add(plan: &Plan, adds: &[ContextReply], name: u32) -> Reply
    requires { IsWithinLimits plan.now }
    ensures within { IsInRange 0 result }
    ensures line { reply_line [] result
        ≡ add_line (slice_get adds.now (line_count plan.now + name)) }
{
    let lines = plan.contexts.as_slice().len() - plan.added as usize;
    match adds.get(lines + name as usize) {
        Some(ContextReply::Refused(refusal)) => refused_add(*refusal),
        _ => Reply::Added,
    }
}

// The reply to a call that retires a name.
fn retire(live: bool) -> Reply
    ensures within { IsInRange 0 result }
    ensures line { reply_line [] result ≡ retire_line live }
{
    if live {
        Reply::Retired
    } else {
        Reply::Refused(CallRefusal::NoContext)
    }
}

/// The reply to a call that adds or retires a context; none to other calls, and where there is no
/// table.
pub(crate) fn change_reply(checked: &CheckedRun, call: &CallLine, live: bool) -> Option<Reply>
    requires { IsWithinLimits checked.now.plan.now }
    ensures within { IfSome result (λ reply. IsInRange 0 reply) }
    ensures line { IfSome result (λ reply. (lane number : ℕ)
        → due_by checked.now.table (run_in checked.now) live lane number call.now
        ≡ reply_line [] reply ∷ []) }
    ensures nothing { IfSome result (λ reply.
        asked_in checked.now.contexts.now call.now ≡ None) }
    ensures other { IfNone result ((lane number : ℕ)
        → due_by checked.now.table (run_in checked.now) live lane number call.now
        ≡ reply_lines (run_in checked.now) lane number call.now) }
{
    let table = checked.table?;
    match *call {
        CallLine::Add { name } => Some(add(checked.plan, table.adds, name)),
        CallLine::Retire { .. } => Some(retire(live)),
        CallLine::Seal { .. }
        | CallLine::Unseal { .. }
        | CallLine::UnsealAll { .. }
        | CallLine::Export { .. } => None,
    }
}
