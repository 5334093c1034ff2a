//! The reply to a seal.

ghost use Rattle.std.specs.Prelude.{◌≡◌, ◌∷◌, [], ◌+◌, ◌-◌, ◌<◌, ◌≤◌, ◌^◌, ℕ, length, take};
ghost use Rattle.call_places.specs.Spans.{IsInPool, span_bytes};
ghost use Rattle.hpke_context.specs.Answers.{Seal, answer};
ghost use Rattle.hpke_context.specs.Contexts.{cipher_of};
ghost use Rattle.hpke_context.specs.Calls.{HasCipher};
ghost use Rattle.context_books.specs.Runs.{answer_line};
ghost use Rattle.context_books.specs.Writing.{due_at, PutsReplies, WritesReply};

use crate::book::Draw;
use batch_plans::limits::TAG_SIZE;
use batch_plans::{LaneProgress, Reply};
use call_places::Span;
use hpke_context::Context;

// Seals a text to the bytes that a span names.
fn seal_at(context: &Context, number: u64, aad: &[u8], text: &[u8], pool: &mut [u8], span: Span)
    requires cipher { HasCipher context.now }
    requires text { length text.now ≤ 2 ^ 36 - 32 }
    requires aad { length aad.now < 2 ^ 61 }
    requires span { IsInPool (length pool.old) span }
    requires size { span.len ≡ length text.now + 16 }
    ensures kept { take span.start pool.new ≡ take span.start pool.old }
    ensures sealed { span_bytes pool.new span
        ≡ (cipher_of context.now).sealed number aad.now text.now }
{
    let start = span.start as usize;
    let out = &mut pool[start..start + span.len as usize];
    context.seal_at(number, aad, text, out);
}

// The reply to a seal, whose bytes are written.
fn sealed(
    progress: &mut LaneProgress,
    context: &Context,
    drawn: Draw,
    aad: &[u8],
    text: &[u8],
) -> Reply
    requires cipher { HasCipher context.now }
    requires drawn { (n : ℕ) → drawn ≡ Draw.Number n → n < context.now.limit }
    requires text { length text.now ≤ 2 ^ 36 - 32 }
    requires aad { length aad.now < 2 ^ 61 }
    requires room { progress.old.taken + (length text.now + 16) ≤ length progress.old.pool }
    ensures { WritesReply progress.old progress.new (length text.now + 16) result (answer_line
        (answer (cipher_of context.now) (due_at context.now.limit drawn)
        (Seal aad.now text.now))) }
{
    let span = progress.take_room(text.len() + TAG_SIZE);
    match drawn {
        Draw::Number(number) => {
            seal_at(context, number, aad, text, progress.pool(), span);
            Reply::Sealed { number, text: span }
        }
        Draw::Limit => Reply::Limit,
    }
}

/// Answers a seal whose number was drawn: ContextS.Seal(aad, text) (RFC 9180, 5.2).
///
/// The text is encrypted at the drawn number, below LIMIT; where the numbers were used up, `Limit`
/// is replied. Room for the ciphertext is taken in either case. That no two texts are sealed at one
/// number is the caller's to keep: a draw gives each number once.
pub fn finish_seal(
    progress: &mut LaneProgress,
    context: &Context,
    drawn: Draw,
    aad: &[u8],
    text: &[u8],
)
    requires cipher { HasCipher context.now }
    requires drawn { (n : ℕ) → drawn ≡ Draw.Number n → n < context.now.limit }
    requires text { length text.now ≤ 2 ^ 36 - 32 }
    requires aad { length aad.now < 2 ^ 61 }
    requires room { progress.old.taken + (length text.now + 16) ≤ length progress.old.pool }
    requires left { 0 < progress.old.left }
    ensures { PutsReplies progress.old progress.new (length text.now + 16) (answer_line
        (answer (cipher_of context.now) (due_at context.now.limit drawn)
        (Seal aad.now text.now)) ∷ []) }
{
    let reply = sealed(progress, context, drawn, aad, text);
    progress.put(reply);
}
