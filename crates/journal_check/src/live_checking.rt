//! The verdict on a result whose lanes add and retire contexts.

ghost use Rattle.std.specs.Prelude.{◌≡◌, ◌↔◌, ◌≤◌, true, length, IfOk};
ghost use Rattle.std.specs.List.{list_all};
ghost use Rattle.batch_plans.specs.Limits.{most_input};
ghost use Rattle.batch_plans.specs.Within.{IsWithinLimits};
ghost use Rattle.context_table.specs.ReplyTo.{IsLiveReply};
ghost use Rattle.context_books.specs.Live.{looked_up_plan};
ghost use Rattle.context_books.specs.LiveChecks.{tells_act};
ghost use Rattle.result_lines.specs.declared.verdicts.Verdict.{Verdict};
ghost use Rattle.result_lines.specs.LiveVerdicts.{live_told};
ghost use Rattle.result_lines.specs.ToldLive.{told_live_by};
ghost use Rattle.journal_check.specs.Served.{live_verdict_over};
ghost use Rattle.journal_check.specs.Verdicts.{IsLiveVerdict};
ghost use Rattle.result_lines.specs.Computed.{live_verdict_on as verdict_of, live_by_form};

use crate::checking::Judge;
use crate::tables::Table;
use aes_gcm::MayCheck;
use batch_plans::{LaneLines, Plan};
use call_places::Entry;
use context_table::set_up;
use hpke_context::Context;
use result_lines::{
    Stop, Told, Verdict, looked_up_lanes, read_live_result, read_live_setup, read_table,
};
use ring_core::Multiplier;
use std::alloc::{AllocError, Global};
use std::mem;
use std::thread::Threads;

impl Judge<'_> {
    // The verdict on what a result tells, where these are the lanes as they were served. They take the
    // place of the plan's.
    fn verdict_as_served(
        &self,
        plan: &mut Plan,
        contexts: &mut [Option<Context>],
        lanes: LaneLines,
        notes: &[Entry],
        told: &Told,
    ) -> Result<Verdict, AllocError>
        requires within { IsWithinLimits plan.old }
        requires served { lanes ≡ (looked_up_plan plan.old notes.now).lanes }
        requires lanes_size { length told.now.lanes ≡ length plan.old.lanes }
        requires journals_size { length told.now.journals ≡ length plan.old.contexts }
        requires contexts_size { length contexts.old ≡ length plan.old.contexts }
        requires acts { list_all (tells_act plan.old contexts.old) notes.now ≡ true }
        ensures { IfOk result (λ verdict. verdict ≡ verdict_of
            (live_told plan.old self.now.replies.now contexts.old notes.now told.now) told.now) }
    {
        let calls = mem::replace(&mut plan.lanes, lanes);
        let table = Table {
            calls: calls.as_slice(),
            adds: self.replies,
            notes,
        };
        self.verdict_on(plan, contexts, Some(table), told)
    }

    // The verdict on the text, where these are the notes of its table.
    fn verdict_by_notes(
        &self,
        plan: &mut Plan,
        contexts: &mut [Option<Context>],
        notes: &[Entry],
    ) -> Result<Verdict, AllocError>
        requires within { IsWithinLimits plan.old }
        requires size { length self.now.text.now ≤ most_input }
        requires contexts_size { length contexts.old ≡ length plan.old.contexts }
        requires acts { list_all (tells_act plan.old contexts.old) notes.now ≡ true }
        ensures { IfOk result (λ verdict. verdict
            ≡ live_by_form plan.old self.now.replies.now contexts.old notes.now
            (told_live_by plan.old self.now.keys.now self.now.replies.now contexts.old notes.now
            self.now.text.now)) }
    {
        let lanes = looked_up_lanes(self.alloc, plan, notes)?;
        let served = lanes.as_slice();
        match read_live_result(
            self.alloc,
            plan,
            self.keys,
            self.replies,
            contexts,
            served,
            notes,
            self.text,
        ) {
            Ok(told) => self.verdict_as_served(plan, contexts, lanes, notes, &told),
            Err(Stop::Wrong(line)) => Ok(Verdict::Form { line }),
            Err(Stop::OutOfMemory) => Err(AllocError),
        }
    }

    // The verdict on the text by its table, where the lines of the set-up may be any.
    fn verdict_by_table(
        &self,
        plan: &mut Plan,
        contexts: &mut [Option<Context>],
    ) -> Result<Verdict, AllocError>
        requires within { IsWithinLimits plan.old }
        requires size { length self.now.text.now ≤ most_input }
        requires contexts_size { length contexts.old ≡ length plan.old.contexts }
        ensures { IfOk result (λ verdict. verdict ≡ live_verdict_over plan.old self.now.keys.now
            self.now.replies.now contexts.old self.now.text.now) }
    {
        let table = read_table(self.alloc, plan, contexts, self.text)?;
        self.verdict_by_notes(plan, contexts, table.as_slice())
    }

    // The verdict on the text, as a result of a plan whose lanes add and retire contexts. The lines of the
    // set-up are read first, so that a text which is wrong there is told at once. Then the table is, since
    // the lines that a call has depend on it.
    #[tactic(auto, using(crate::proofs::LiveRead::wrong_setup))]
    fn live_verdict(
        &self,
        plan: &mut Plan,
        contexts: &mut [Option<Context>],
    ) -> Result<Verdict, AllocError>
        requires within { IsWithinLimits plan.old }
        requires size { length self.now.text.now ≤ most_input }
        requires contexts_size { length contexts.old ≡ length plan.old.contexts }
        ensures { IfOk result (λ verdict. verdict ≡ live_verdict_over plan.old self.now.keys.now
            self.now.replies.now contexts.old self.now.text.now) }
    {
        match read_live_setup(self.alloc, plan, self.keys, self.replies, self.text) {
            Ok(_told) => self.verdict_by_table(plan, contexts),
            Err(Stop::Wrong(line)) => Ok(Verdict::Form { line }),
            Err(Stop::OutOfMemory) => Err(AllocError),
        }
    }
}

// Checks a text, over a plan whose lanes become those of the calls as they were served.
fn check_over<M: Multiplier>(
    permission: MayCheck,
    alloc: Global,
    mult: &M,
    plan: &mut Plan,
    text: &[u8],
) -> Result<Verdict, AllocError>
    requires within { IsWithinLimits plan.old }
    requires size { length text.now ≤ most_input }
    ensures { IfOk result (λ verdict. IsLiveVerdict plan.old text.now verdict) }
{
    let setup = set_up(alloc, plan, mult)?;
    let mut contexts = setup.standing.into_vec();
    let keys = setup.keys.as_slice();
    let replies = setup.contexts.as_slice();
    let judge = Judge {
        permission,
        alloc,
        keys,
        replies,
        text,
    };
    judge.live_verdict(plan, &mut contexts)
}

/// Checks whether a text is one that a plan may be answered with whose lanes add and retire contexts.
///
/// The set-up is done again, and its lines are read first. Then the table is, since the lines that a call
/// has depend on it. The plan is used up: its lanes become those of the calls as they were served, over
/// the same bytes.
pub fn check_live_result_by<M: Multiplier>(
    permission: MayCheck,
    alloc: Global,
    mult: &M,
    plan: Plan,
    text: &[u8],
) -> Result<Verdict, AllocError>
    requires within { IsWithinLimits plan }
    requires size { length text.now ≤ most_input }
    ensures verdict { IfOk result (λ verdict. IsLiveVerdict plan text.now verdict) }
    ensures legal { IfOk result (λ verdict.
        (verdict ≡ Verdict.Legal) ↔ IsLiveReply plan text.now) }
{
    let mut plan = plan;
    let verdict = check_over(permission, alloc, mult, &mut plan, text);
    drop(plan);
    verdict
}

/// Checks whether a text is one that a plan may be answered with whose lanes add and retire contexts.
///
/// As [`check_live_result_by`], with the permission that the runtime gives. No thread is started.
pub fn check_live_result<R: Threads, M: Multiplier>(
    rt: &R,
    alloc: Global,
    mult: &M,
    plan: Plan,
    text: &[u8],
) -> Result<Verdict, AllocError>
    requires within { IsWithinLimits plan }
    requires size { length text.now ≤ most_input }
    ensures verdict { IfOk result (λ verdict. IsLiveVerdict plan text.now verdict) }
    ensures legal { IfOk result (λ verdict.
        (verdict ≡ Verdict.Legal) ↔ IsLiveReply plan text.now) }
{
    check_live_result_by(MayCheck::on_threads(rt), alloc, mult, plan, text)
}
