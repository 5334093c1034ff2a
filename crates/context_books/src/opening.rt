//! The replies to an opening.

ghost use Rattle.std.specs.Prelude.{◌≡◌, ◌∷◌, [], ◌+◌, ◌<◌, ◌≤◌, IsTrue, length, take, map, sum_by};
ghost use Rattle.std.specs.List.{All};
ghost use Rattle.call_places.specs.Spans.{IsInPool, ItemIsInPool, span_bytes};
ghost use Rattle.hpke_context.specs.Answers.{Unseal, answer, run};
ghost use Rattle.hpke_context.specs.Contexts.{cipher_of};
ghost use Rattle.hpke_context.specs.Calls.{HasCipher};
ghost use Rattle.context_books.specs.Entries.{step_for, steps_from};
ghost use Rattle.context_books.specs.Openings.{unseals};
ghost use Rattle.batch_plans.specs.Room.{opened_room};
ghost use Rattle.context_books.specs.Runs.{answer_line};
ghost use Rattle.context_books.specs.Writing.{PutsReplies, WritesReply};

use batch_plans::limits::TAG_SIZE;
use batch_plans::{LaneProgress, Reply};
use call_places::{Item, Span, Step};
use hpke_context::Context;

// Decrypts a ciphertext, whose tag holds at the number, to the bytes that a span names.
fn open_at(context: &Context, number: u64, aad: &[u8], ct: &[u8], pool: &mut [u8], span: Span)
    requires cipher { HasCipher context.now }
    requires holds { IsTrue ((cipher_of context.now).holds number aad.now ct.now) }
    requires span { IsInPool (length pool.old) span }
    requires size { span.len + 16 ≡ length ct.now }
    ensures kept { take span.start pool.new ≡ take span.start pool.old }
    ensures opened { span_bytes pool.new span
        ≡ (cipher_of context.now).clear number aad.now ct.now }
{
    let start = span.start as usize;
    let out = &mut pool[start..start + span.len as usize];
    context.open_at(number, aad, ct, out);
}

// The reply to an item at this number, whose bytes are written.
fn opened(
    progress: &mut LaneProgress,
    context: &Context,
    pool: &[u8],
    item: &Item,
    number: u64,
    step: Step,
) -> Reply
    requires cipher { HasCipher context.now }
    requires span { ItemIsInPool (length pool.now) item.now }
    requires step { let asked = Unseal (span_bytes pool.now item.now.aad)
        (span_bytes pool.now item.now.text)
        in step ≡ step_for asked (answer (cipher_of context.now) number asked) }
    requires room { progress.old.taken + opened_room item.now ≤ length progress.old.pool }
    ensures { WritesReply progress.old progress.new (opened_room item.now) result (answer_line
        (answer (cipher_of context.now) number (Unseal (span_bytes pool.now item.now.aad)
        (span_bytes pool.now item.now.text)))) }
{
    let text = progress.take_room((item.text.len as usize).saturating_sub(TAG_SIZE));
    match step {
        Step::Opened => {
            let (aad, ct) = (item.aad.of(pool), item.text.of(pool));
            open_at(context, number, aad, ct, progress.pool(), text);
            Reply::Opened { number, text }
        }
        Step::Failed => Reply::Failed { number },
        _ => Reply::Limit,
    }
}

/// Answers an opening whose steps are settled: ContextR.Open(aad, ct) (RFC 9180, 5.2), one item
/// after another, from the number `first` that was due before them.
///
/// The steps are those of the sequential context, so they tell which tags hold, and at which
/// numbers: no tag is computed again. An item that isn't opened raises no number. Room for the
/// plaintext of each item is taken in any case.
pub fn finish_opening(
    progress: &mut LaneProgress,
    context: &Context,
    pool: &[u8],
    items: &[Item],
    first: u64,
    steps: &[Step],
)
    requires cipher { HasCipher context.now }
    requires spans { All (ItemIsInPool (length pool.now)) items.now }
    requires steps { steps.now
        ≡ steps_from (cipher_of context.now) first (unseals pool.now items.now) }
    requires room { progress.old.taken + sum_by opened_room items.now ≤ length progress.old.pool }
    requires left { length items.now ≤ progress.old.left }
    ensures { PutsReplies progress.old progress.new (sum_by opened_room items.now)
        (map answer_line (run (cipher_of context.now) first (unseals pool.now items.now))) }
{
    // A number rises below LIMIT, so it stays in its type.
    let _limit = context.limit();
    let mut number = first;
    'items: for (i, item) in items.iter().enumerate() {
        let step = steps[i];
        let reply = opened(progress, context, pool, item, number, step);
        progress.put(reply);
        if step.advances() {
            number += 1;
        }
    }
}
