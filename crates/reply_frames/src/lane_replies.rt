//! The lines of a lane's calls, each put into a buffer: the replies of a call, and its guess.

ghost use Rattle.std.specs.Prelude.{◌≡◌, length, take, drop, map, slice_get};
ghost use Rattle.std.specs.List.{All, concat};
ghost use Rattle.batch_plans.specs.Replies.{IsInRange, IsPrintable};
ghost use Rattle.field_text.specs.Buffers.{Puts};
ghost use Rattle.batch_plans.specs.AnswersText.{reply_line, is_refused, reply_count, batch_count};
ghost use Rattle.batch_plans.specs.AnswersText.{guess_line, answered_lines};

use crate::reply_lines::{put_batch, put_reply};
use batch_io::Sink;
use batch_plans::{Batch, CallLine, LaneAnswers, Reply, items_of, keeps_guess};
use field_text::Buffer;

// Each call takes its replies from those that are left, and an opening that was served its guess.
pub(crate) fn put_calls<K: Sink>(
    out: &mut Buffer,
    sink: &mut K,
    calls: &[CallLine],
    lane: &LaneAnswers,
)
    requires { IsPrintable lane.now }
    ensures { Puts K.written K.faults sink.old sink.new out.old out.new
        (concat (answered_lines calls.now lane.now)) }
{
    let pool = lane.pool.as_slice();
    let mut replies = lane.replies.as_slice();
    let mut batches = lane.batches.as_slice();
    'calls: for call in calls {
        let (own, later) = replies_of(call, replies);
        let (guess, later_guesses) = guesses_of(call, replies, batches);
        put_replies(out, sink, pool, own);
        put_guesses(out, sink, guess);
        replies = later;
        batches = later_guesses;
    }
}

// The replies of a call, which come next, and those behind them.
fn replies_of<'a>(call: &CallLine, replies: &'a [Reply]) -> (&'a [Reply], &'a [Reply])
    ensures own { result.0.now
        ≡ take (reply_count call.now (slice_get replies.now 0)) replies.now }
    ensures later { result.1.now
        ≡ drop (reply_count call.now (slice_get replies.now 0)) replies.now }
{
    let count = reply_count(call, replies).min(replies.len());
    (&replies[..count], &replies[count..])
}

// The guess of a call whose replies come next, where it has one, and those behind it.
pub(crate) fn guesses_of<'a>(
    call: &CallLine,
    replies: &[Reply],
    batches: &'a [Batch],
) -> (&'a [Batch], &'a [Batch])
    ensures own { result.0.now
        ≡ take (batch_count call.now (slice_get replies.now 0)) batches.now }
    ensures later { result.1.now
        ≡ drop (batch_count call.now (slice_get replies.now 0)) batches.now }
{
    let count = batch_count(call, replies).min(batches.len());
    (&batches[..count], &batches[count..])
}

/// How many of the next replies are a call's.
pub fn reply_count(call: &CallLine, replies: &[Reply]) -> usize
    ensures { result ≡ reply_count call.now (slice_get replies.now 0) }
{
    if is_refused(replies) {
        1
    } else {
        items_of(call) as usize
    }
}

// How many of the next guesses are a call's.
fn batch_count(call: &CallLine, replies: &[Reply]) -> usize
    ensures { result ≡ batch_count call.now (slice_get replies.now 0) }
{
    usize::from(keeps_guess(call) && !is_refused(replies))
}

// Whether the next reply is a refusal.
fn is_refused(replies: &[Reply]) -> bool
    ensures { result ≡ is_refused (slice_get replies.now 0) }
{
    matches!(replies.first(), Some(Reply::Refused(_)))
}

// Puts the line of each reply behind what is in the buffer.
pub(crate) fn put_replies<K: Sink>(out: &mut Buffer, sink: &mut K, pool: &[u8], replies: &[Reply])
    requires { All (IsInRange (length pool.now)) replies.now }
    ensures { Puts K.written K.faults sink.old sink.new out.old out.new
        (concat (map (reply_line pool.now) replies.now)) }
{
    'replies: for reply in replies {
        put_reply(out, sink, pool, reply);
    }
}

// Puts the line of each guess behind what is in the buffer.
pub(crate) fn put_guesses<K: Sink>(out: &mut Buffer, sink: &mut K, batches: &[Batch])
    ensures { Puts K.written K.faults sink.old sink.new out.old out.new
        (concat (map guess_line batches.now)) }
{
    'batches: for batch in batches {
        put_batch(out, sink, batch);
    }
}
