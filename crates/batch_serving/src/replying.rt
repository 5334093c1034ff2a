//! What was answered, written as a reply if there was memory for it.

ghost use Rattle.std.specs.Prelude.{◌≤◌, ℕ, IfOk, Ok};
ghost use Rattle.batch_plans.specs.AnswersText.{answers_text, IsAnswered, live_text};
ghost use Rattle.context_table.specs.ReplyTo.{IsLiveReply};
ghost use Rattle.capsule_frames.specs.Replies.{AreReplies, IsCapsuleReply};
ghost use Rattle.demo_runs.specs.Demo.{IsDemo};
ghost use Rattle.batch_serving.specs.Effects.{SaysReply, Writes};
ghost use Rattle.batch_serving.specs.Text.{AnswersBy, Demonstrates};

use crate::outcomes::Outcome;
use crate::telling::{tell_answers, tell_capsules, tell_live, tell_report};
use batch_io::Sink;
use batch_plans::{Answers, Plan};
use capsule_frames::{CapsuleAnswers, CapsulePlan};
use demo_runs::DemoReport;
use std::alloc::AllocError;

/// Writes the replies to a plan.
pub fn tell_answered<K: Sink>(
    plan: &Plan,
    answered: Result<Answers, AllocError>,
    sink: &mut K,
) -> Outcome
    requires { IfOk answered (IsAnswered plan.now) }
    ensures { Writes K.written K.faults sink.old sink.new
        (SaysReply (answers_text plan.now) answered) result }
{
    match answered {
        Ok(answers) => {
            let outcome = tell_answers(plan, &answers, sink);
            drop(answers);
            outcome
        }
        Err(_) => Outcome::OutOfMemory,
    }
}

/// Writes a reply that `live` may give to a plan.
pub fn tell_live_run<K: Sink>(
    plan: &Plan,
    answered: Result<Answers, AllocError>,
    sink: &mut K,
) -> Outcome
    requires text { IfOk answered (λ answers.
        IsLiveReply plan.now (live_text plan.now answers)) }
    requires answered { IfOk answered (IsAnswered plan.now) }
    ensures { Writes K.written K.faults sink.old sink.new
        (AnswersBy IsLiveReply (Ok plan.now)) result }
{
    match answered {
        Ok(answers) => {
            let outcome = tell_live(plan, &answers, sink);
            drop(answers);
            outcome
        }
        Err(_) => Outcome::OutOfMemory,
    }
}

/// Writes the replies to a plan of capsules.
pub fn tell_exchange<K: Sink>(
    plan: &CapsulePlan,
    answered: Result<CapsuleAnswers, AllocError>,
    sink: &mut K,
) -> Outcome
    requires { IfOk answered (λ a. AreReplies plan.now a.keys a.replies) }
    ensures { Writes K.written K.faults sink.old sink.new
        (AnswersBy IsCapsuleReply (Ok plan.now)) result }
{
    match answered {
        Ok(answers) => {
            let outcome = tell_capsules(&answers, sink);
            drop(answers);
            outcome
        }
        Err(_) => Outcome::OutOfMemory,
    }
}

/// Writes the report of a demonstration.
pub fn tell_demonstration<K: Sink>(demo: Result<DemoReport, AllocError>, sink: &mut K) -> Outcome
    requires { IfOk demo (λ report. report.opened ≤ report.messages) }
    ensures { (seed messages : ℕ) → IfOk demo (IsDemo seed messages)
        → Writes K.written K.faults sink.old sink.new (Demonstrates seed messages) result }
{
    match demo {
        Ok(report) => tell_report(&report, sink),
        Err(_) => Outcome::OutOfMemory,
    }
}
