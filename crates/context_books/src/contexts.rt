//! The contexts that stand, and which calls they refuse.

ghost use Rattle.std.specs.Prelude.{◌≡◌, MatchOption, Some, None};
ghost use Rattle.context_books.specs.Standing.{standing_at, call_refusal};

use batch_plans::{CallLine, CallRefusal, context_of, refusal_by};
use hpke_context::Context;

/// The context of this number, where there is one and it stands.
pub fn standing(contexts: &[Option<Context>], number: u32) -> Option<&Context>
    ensures { MatchOption result (standing_at contexts.now number ≡ None)
        (λ context. standing_at contexts.now number ≡ Some context.now) }
{
    contexts.get(number as usize)?.as_ref()
}

/// Why a call is refused by the contexts that stand. Without a refusal it is served.
pub fn refusal_of(contexts: &[Option<Context>], call: &CallLine) -> Option<CallRefusal>
    ensures { result ≡ call_refusal contexts.now call.now }
{
    let Some(context) = standing(contexts, context_of(call)) else {
        return Some(CallRefusal::NoContext);
    };
    refusal_by(
        context.role(),
        context.suite().aead,
        context.export_limit() as u32,
        call,
    )
}
