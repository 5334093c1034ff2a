//! The lines of a lane's calls by the replies that were given, each put into a buffer.

ghost use Rattle.std.specs.Prelude.{◌≡◌, ℕ, ◌≤◌, length, take, drop, filter, slice_get};
ghost use Rattle.std.specs.List.{All, concat};
ghost use Rattle.batch_plans.specs.Replies.{IsInRange, IsPrintable};
ghost use Rattle.field_text.specs.Buffers.{Puts};
ghost use Rattle.batch_plans.specs.AnswersText.{is_given as given_test, given_lines};

use crate::lane_replies::{guesses_of, put_guesses, put_replies, reply_count};
use batch_io::Sink;
use batch_plans::{CallLine, LaneAnswers, Reply};
use field_text::Buffer;

fn is_given(reply: &Reply) -> bool
    ensures { result ≡ given_test reply.now }
{
    match *reply {
        Reply::Blank => false,
        _ => true,
    }
}

// Where the next reply stands that was given, if there is one.
fn next_given(replies: &[Reply]) -> usize
    ensures within { result ≤ length replies.now }
    ensures same { filter given_test (drop result replies.now) ≡ filter given_test replies.now }
    ensures first { slice_get (drop result replies.now) 0
        ≡ slice_get (filter given_test replies.now) 0 }
{
    let mut next = 0;
    'blanks: while next < replies.len() && !is_given(&replies[next]) {
        next += 1;
    }
    next
}

// How many replies there are up to so many that were given.
fn end_of_given(replies: &[Reply], count: usize) -> usize
    ensures within { result ≤ length replies.now }
    ensures own { filter given_test (take result replies.now)
        ≡ take count (filter given_test replies.now) }
    ensures later { filter given_test (drop result replies.now)
        ≡ drop count (filter given_test replies.now) }
{
    let mut next = 0;
    let mut left = count;
    'replies: while left > 0 && next < replies.len() {
        if is_given(&replies[next]) {
            left -= 1;
        }
        next += 1;
    }
    next
}

// The replies from the next one on that was given.
fn from_given(replies: &[Reply]) -> &[Reply]
    ensures same { filter given_test result.now ≡ filter given_test replies.now }
    ensures first { slice_get result.now 0 ≡ slice_get (filter given_test replies.now) 0 }
    ensures range { (size : ℕ) → All (IsInRange size) replies.now
        → All (IsInRange size) result.now }
{
    let next = next_given(replies);
    &replies[next..]
}

// The first replies, so many of which were given, and those behind them.
fn parted<'a>(replies: &'a [Reply], count: usize) -> (&'a [Reply], &'a [Reply])
    ensures own { filter given_test result.0.now ≡ take count (filter given_test replies.now) }
    ensures later { filter given_test result.1.now ≡ drop count (filter given_test replies.now) }
    ensures range { (size : ℕ) → All (IsInRange size) replies.now
        → All (IsInRange size) result.0.now × All (IsInRange size) result.1.now }
{
    let end = end_of_given(replies, count);
    (&replies[..end], &replies[end..])
}

// Each call takes its replies from those that are left, and an opening that was served its guess.
pub(crate) fn put_given_calls<K: Sink>(
    out: &mut Buffer,
    sink: &mut K,
    calls: &[CallLine],
    lane: &LaneAnswers,
)
    requires { IsPrintable lane.now }
    ensures { Puts K.written K.faults sink.old sink.new out.old out.new
        (concat (given_lines calls.now lane.now)) }
{
    let pool = lane.pool.as_slice();
    let mut replies = lane.replies.as_slice();
    let mut batches = lane.batches.as_slice();
    'calls: for call in calls {
        let next = from_given(replies);
        let (own, later) = parted(next, reply_count(call, next));
        let (guess, later_guesses) = guesses_of(call, next, batches);
        put_replies(out, sink, pool, own);
        put_guesses(out, sink, guess);
        replies = later;
        batches = later_guesses;
    }
}
