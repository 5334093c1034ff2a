//! Messages of RFC 9458, answered by threads: `capsules`.

ghost use Rattle.capsule_frames.specs.Capsules.{capsules};
ghost use Rattle.capsule_frames.specs.Replies.{IsCapsuleReply};
ghost use Rattle.batch_serving.specs.Effects.{Writes};
ghost use Rattle.batch_serving.specs.Text.{AnswersBy};

use batch_io::Sink;
use batch_serving::{Named, Outcome, tell_exchange, tell_fault};
use batch_words::Mult;
use capsule_frames::{read_capsules, serve_capsules};
use std::alloc::Global;
use std::thread::Threads;

/// Answers a batch of capsules, or tells its first bad line.
pub(crate) fn exchange<R: Threads + Sync, K: Sink>(
    rt: &R,
    alloc: Global,
    input: &[u8],
    mult: Mult,
    sink: &mut K,
) -> Outcome
    ensures { Writes K.written K.faults sink.old sink.new
        (AnswersBy IsCapsuleReply (capsules input.now)) result }
{
    match read_capsules(alloc, input) {
        Ok(plan) => {
            let answered = serve_capsules(rt, alloc, &plan, &Named { name: mult });
            let outcome = tell_exchange(&plan, answered, sink);
            drop(plan);
            outcome
        }
        Err(fault) => tell_fault(&fault, sink),
    }
}
