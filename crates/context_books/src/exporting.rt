//! The replies to an export and to a call that is refused.

ghost use Rattle.std.specs.Prelude.{◌≡◌, ◌∷◌, [], ◌+◌, ◌<◌, ◌≤◌, length, take};
ghost use Rattle.call_places.specs.Spans.{IsInPool, span_bytes};
ghost use Rattle.hpke_context.specs.Contexts.{export_limit, exported_by};
ghost use Rattle.batch_plans.specs.Progress.{with_reply};
ghost use Rattle.batch_plans.specs.Lines.{exported_line};
ghost use Rattle.context_books.specs.Writing.{PutsReplies, WritesReply};

use batch_plans::{CallRefusal, LaneProgress, Reply};
use call_places::Span;
use hpke_context::Context;

// Exports to the bytes that a span names, as many as it has.
fn export_at(context: &Context, exporter_context: &[u8], pool: &mut [u8], span: Span)
    requires size { span.len ≤ export_limit context.now }
    requires span { IsInPool (length pool.old) span }
    ensures kept { take span.start pool.new ≡ take span.start pool.old }
    ensures exported { span_bytes pool.new span
        ≡ exported_by context.now exporter_context.now span.len }
{
    let start = span.start as usize;
    let out = &mut pool[start..start + span.len as usize];
    let _ = context.export_into(exporter_context, out);
}

// The reply to an export, whose bytes are written.
fn exported(
    progress: &mut LaneProgress,
    context: &Context,
    exporter_context: &[u8],
    size: u32,
) -> Reply
    requires size { size ≤ export_limit context.now }
    requires room { progress.old.taken + size ≤ length progress.old.pool }
    ensures { WritesReply progress.old progress.new size result
        (exported_line (exported_by context.now exporter_context.now size)) }
{
    let span = progress.take_room(size as usize);
    export_at(context, exporter_context, progress.pool(), span);
    Reply::Exported { text: span }
}

/// Answers an export: Context.Export(exporter_context, L) (RFC 9180, 5.3), with `size` as L.
///
/// It uses no number, so it asks for no turn.
pub fn export(progress: &mut LaneProgress, context: &Context, exporter_context: &[u8], size: u32)
    requires size { size ≤ export_limit context.now }
    requires room { progress.old.taken + size ≤ length progress.old.pool }
    requires left { 0 < progress.old.left }
    ensures { PutsReplies progress.old progress.new size
        (exported_line (exported_by context.now exporter_context.now size) ∷ []) }
{
    let reply = exported(progress, context, exporter_context, size);
    progress.put(reply);
}

/// Answers a call that is refused. It has one reply, whatever it asks for, and takes no room.
pub fn refuse(progress: &mut LaneProgress, refusal: CallRefusal)
    requires { 0 < progress.old.left }
    ensures { progress.new ≡ with_reply progress.old (Reply.Refused refusal) }
{
    progress.put(Reply::Refused(refusal));
}
