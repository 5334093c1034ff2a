//! The verdict on a result.

ghost use Rattle.std.specs.Prelude.{◌≡◌, ◌↔◌, ◌≤◌, length, IfOk};
ghost use Rattle.batch_plans.specs.Limits.{most_contexts, most_input};
ghost use Rattle.batch_plans.specs.Within.{IsWithinLimits};
ghost use Rattle.context_table.specs.ReplyTo.{IsReply};
ghost use Rattle.result_lines.specs.declared.verdicts.Verdict.{Verdict};
ghost use Rattle.result_lines.specs.Replies.{wrong_reply as wrong_reply_of};
ghost use Rattle.result_lines.specs.Guesses.{wrong_guesses as wrong_guesses_of};
ghost use Rattle.context_books.specs.Asks.{batch_of};
ghost use Rattle.journal_check.specs.Piles.{IsKept};
ghost use Rattle.journal_check.specs.Served.{IsServed, all_due, verdict_by, verdict_over};
ghost use Rattle.journal_check.specs.Verdicts.{IsVerdict};
ghost use Rattle.journal_check.specs.Walks.{IsRun, run_in};
ghost use Rattle.result_lines.specs.Computed.{by_reply, by_guess};

use crate::guesses::wrong_guesses;
use crate::kept::kept_journals;
use crate::lane_walks::CheckedRun;
use crate::links::linked_journals;
use crate::orders::wrong_order;
use crate::replies::wrong_reply;
use crate::runs::run_journals;
use crate::tables::Table;
use aes_gcm::MayCheck;
use batch_plans::{ContextReply, KeyReply, PlainList, Plan};
use call_places::Mark;
use context_table::set_up;
use hpke_context::Context;
use result_lines::{Stop, Told, Verdict, read_result};
use ring_core::Multiplier;
use std::alloc::{AllocError, Global};
use std::thread::Threads;

// A reply that isn't the one that is due, or a guess that isn't right. It prints lines: kept by itself, so
// that no caller's frame has room for a printer while the journals are run.
#[inline(never)]
fn wrong_line(alloc: Global, told: &Told, checked: &CheckedRun) -> Result<Verdict, AllocError>
    requires { IsRun checked.now }
    ensures { IfOk result (λ verdict. verdict
        ≡ by_reply (wrong_reply_of told.now.replies
        (all_due checked.now.table (run_in checked.now)))
        (by_guess (wrong_guesses_of (run_in checked.now) 0 checked.now.guesses.now))) }
{
    if let Some(line) = wrong_reply(&mut told.replies(), alloc, checked)? {
        return Ok(Verdict::Reply { line });
    }
    match wrong_guesses(alloc, checked)? {
        Some(line) => Ok(Verdict::Guess { line }),
        None => Ok(Verdict::Legal),
    }
}

/// What a text is judged by besides its plan: the replies to the plan's key lines and to its contexts,
/// and the permission to check tags.
#[derive(Clone, Copy)]
pub(crate) struct Judge<'a> {
    pub(crate) permission: MayCheck,
    pub(crate) alloc: Global,
    pub(crate) keys: &'a [KeyReply],
    pub(crate) replies: &'a [ContextReply],
    pub(crate) text: &'a [u8],
}

impl Judge<'_> {
    // The verdict on what a result tells, where these are its journals, as far as they may be legal.
    fn verdict_along(
        &self,
        plan: &Plan,
        contexts: &mut [Option<Context>],
        table: Option<Table>,
        told: &Told,
        journals: &[PlainList<Mark>],
    ) -> Result<Verdict, AllocError>
        requires within { IsWithinLimits plan.now }
        requires few { length told.now.journals ≤ most_contexts }
        requires lanes_size { length told.now.lanes ≡ length plan.now.lanes }
        requires contexts_size { length contexts.old ≡ length told.now.journals }
        requires served { IsServed plan.now contexts.old table }
        requires kept { IsKept (batch_of plan.now contexts.old) told.now.journals journals.now }
        ensures { IfOk result (λ verdict. verdict
            ≡ verdict_by plan.now contexts.old table.entry told.now) }
    {
        let order = wrong_order(self.alloc, plan, contexts, table, journals)?;
        if let Some(wrong) = order {
            return Ok(wrong);
        }
        let runs = run_journals(self.permission, self.alloc, plan, contexts, journals)?;
        let linked = linked_journals(self.alloc, plan.lanes.as_slice().len(), journals)?;
        let checked = CheckedRun {
            plan,
            contexts,
            guesses: told.lanes(),
            journals: &linked,
            runs: &runs,
            table,
        };
        wrong_line(self.alloc, told, &checked)
    }

    /// The verdict on what a result tells. Where there is a table, the plan's calls are those as they were
    /// served. Of the journals no more places are kept than may be legal, and one for each context.
    pub(crate) fn verdict_on(
        &self,
        plan: &Plan,
        contexts: &mut [Option<Context>],
        table: Option<Table>,
        told: &Told,
    ) -> Result<Verdict, AllocError>
        requires within { IsWithinLimits plan.now }
        requires few { length told.now.journals ≤ most_contexts }
        requires lanes_size { length told.now.lanes ≡ length plan.now.lanes }
        requires contexts_size { length contexts.old ≡ length told.now.journals }
        requires served { IsServed plan.now contexts.old table }
        ensures { IfOk result (λ verdict. verdict
            ≡ verdict_by plan.now contexts.old table.entry told.now) }
    {
        let kept = kept_journals(self.alloc, plan, contexts, told.journals())?;
        self.verdict_along(plan, contexts, table, told, kept.as_slice())
    }

    // The verdict on the text, over the contexts that stand.
    fn verdict(&self, plan: &Plan, contexts: &mut [Option<Context>]) -> Result<Verdict, AllocError>
        requires within { IsWithinLimits plan.now }
        requires size { length self.now.text.now ≤ most_input }
        requires contexts_size { length contexts.old ≡ length plan.now.contexts }
        ensures { IfOk result (λ verdict. verdict ≡ verdict_over plan.now self.now.keys.now
            self.now.replies.now contexts.old self.now.text.now) }
    {
        match read_result(
            self.alloc,
            plan,
            self.keys,
            self.replies,
            contexts,
            self.text,
        ) {
            Ok(told) => self.verdict_on(plan, contexts, None, &told),
            Err(Stop::Wrong(line)) => Ok(Verdict::Form { line }),
            Err(Stop::OutOfMemory) => Err(AllocError),
        }
    }
}

/// Checks whether a text is one that the plan may be answered with.
///
/// The set-up is done again, as [`set_up`](context_table::set_up) does it, and each journal is run
/// through its context.
pub fn check_result_by<M: Multiplier>(
    permission: MayCheck,
    alloc: Global,
    mult: &M,
    plan: &Plan,
    text: &[u8],
) -> Result<Verdict, AllocError>
    requires within { IsWithinLimits plan.now }
    requires size { length text.now ≤ most_input }
    ensures verdict { IfOk result (λ verdict. IsVerdict plan.now text.now verdict) }
    ensures legal { IfOk result (λ verdict.
        (verdict ≡ Verdict.Legal) ↔ IsReply plan.now text.now) }
{
    let setup = set_up(alloc, plan, mult)?;
    let mut contexts = setup.standing.into_vec();
    let keys = setup.keys.as_slice();
    let replies = setup.contexts.as_slice();
    let judge = Judge {
        permission,
        alloc,
        keys,
        replies,
        text,
    };
    judge.verdict(plan, &mut contexts)
}

/// Checks whether a text is one that the plan may be answered with.
///
/// As [`check_result_by`], with the permission that the runtime gives. No thread is started.
pub fn check_result<R: Threads, M: Multiplier>(
    rt: &R,
    alloc: Global,
    mult: &M,
    plan: &Plan,
    text: &[u8],
) -> Result<Verdict, AllocError>
    requires within { IsWithinLimits plan.now }
    requires size { length text.now ≤ most_input }
    ensures verdict { IfOk result (λ verdict. IsVerdict plan.now text.now verdict) }
    ensures legal { IfOk result (λ verdict.
        (verdict ≡ Verdict.Legal) ↔ IsReply plan.now text.now) }
{
    check_result_by(MayCheck::on_threads(rt), alloc, mult, plan, text)
}
