//! The texts of all ends, written to the sink.
//!
//! A printer has a buffer of 8 KiB on the stack. Each call here is kept by itself, so that none of it
//! stands there while a batch is answered.

ghost use Rattle.std.specs.Prelude.{◌≡◌, ◌≤◌};
ghost use Rattle.batch_plans.specs.AnswersText.{IsAnswered, answers_text, live_text};
ghost use Rattle.result_lines.specs.VerdictText.{verdict_text};
ghost use Rattle.capsule_frames.specs.Text.{capsules_text};
ghost use Rattle.demo_runs.specs.Demo.{report_text};
ghost use Rattle.batch_serving.specs.Effects.{Says, SaysFault, Writes, end_of};
ghost use Rattle.batch_serving.specs.Outcomes.{outcome_on};
ghost use Rattle.batch_serving.specs.Text.{IsTold};

use crate::outcomes::{Outcome, outcome_on};
use batch_io::Sink;
use capsule_frames::{CapsuleAnswers, print_capsules};
use demo_runs::{DemoReport, print_report};
use reply_frames::{print_answers, print_bad, print_live};
use request_frames::{Answers, BadBatch, Plan, Printed, ReadBatchFault};
use result_lines::{Verdict, print_verdict};

// How a run ends whose text was printed so.
fn end_of(printed: Printed, due: Outcome) -> Outcome
    ensures { result ≡ end_of printed due }
{
    match printed {
        Printed::Whole => due,
        Printed::Failed => Outcome::WriteFault,
    }
}

/// Writes the first bad line of an input, and its first reason.
#[inline(never)]
fn tell_bad<K: Sink>(bad: &BadBatch, sink: &mut K) -> Outcome
    ensures { Writes K.written K.faults sink.old sink.new (IsTold bad.now) result }
{
    let due = Outcome::BadBatch {
        line: bad.line,
        reason: bad.reason,
    };
    end_of(print_bad(bad, sink), due)
}

/// Tells why an input couldn't be read: its first bad line, or want of memory, of which nothing is
/// written.
pub fn tell_fault<K: Sink>(fault: &ReadBatchFault, sink: &mut K) -> Outcome
    ensures { Writes K.written K.faults sink.old sink.new (SaysFault fault.now) result }
{
    match fault {
        ReadBatchFault::Bad(bad) => tell_bad(bad, sink),
        ReadBatchFault::OutOfMemory => Outcome::OutOfMemory,
    }
}

/// Writes the replies to a plan, which were answered.
#[inline(never)]
pub(crate) fn tell_answers<K: Sink>(plan: &Plan, answers: &Answers, sink: &mut K) -> Outcome
    requires { IsAnswered plan.now answers.now }
    ensures { Writes K.written K.faults sink.old sink.new
        (Says Outcome.Done (answers_text plan.now answers.now)) result }
{
    end_of(print_answers(plan, answers, sink), Outcome::Done)
}

/// Writes a verdict.
#[inline(never)]
pub(crate) fn tell_verdict<K: Sink>(verdict: Verdict, sink: &mut K) -> Outcome
    ensures { Writes K.written K.faults sink.old sink.new
        (Says (outcome_on verdict) (verdict_text verdict)) result }
{
    end_of(print_verdict(verdict, sink), outcome_on(verdict))
}

/// Writes the report of a demonstration.
#[inline(never)]
pub(crate) fn tell_report<K: Sink>(report: &DemoReport, sink: &mut K) -> Outcome
    requires { report.now.opened ≤ report.now.messages }
    ensures { Writes K.written K.faults sink.old sink.new
        (Says Outcome.Done (report_text report.now)) result }
{
    end_of(print_report(report, sink), Outcome::Done)
}

/// Writes the replies to a plan whose lanes add and retire contexts, which were answered.
#[inline(never)]
pub(crate) fn tell_live<K: Sink>(plan: &Plan, answers: &Answers, sink: &mut K) -> Outcome
    requires { IsAnswered plan.now answers.now }
    ensures { Writes K.written K.faults sink.old sink.new
        (Says Outcome.Done (live_text plan.now answers.now)) result }
{
    end_of(print_live(plan, answers, sink), Outcome::Done)
}

/// Writes the replies to capsules.
#[inline(never)]
pub(crate) fn tell_capsules<K: Sink>(answers: &CapsuleAnswers, sink: &mut K) -> Outcome
    ensures { Writes K.written K.faults sink.old sink.new
        (Says Outcome.Done (capsules_text answers.now.keys answers.now.replies)) result }
{
    end_of(
        print_capsules(&answers.keys, answers.replies.as_slice(), sink),
        Outcome::Done,
    )
}
