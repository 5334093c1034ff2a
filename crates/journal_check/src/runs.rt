//! Journals that are run through their contexts.

ghost use Rattle.std.specs.Prelude.{◌≡◌, ◌≤◌, ◌<◌, ◌+◌, ◌^◌, length, map, slice_set, Some, None, IsSome, IfOk, OnOk};
ghost use Rattle.call_places.specs.declared.entries.Mark.{Mark};
ghost use Rattle.hpke_context.specs.Answers.{run};
ghost use Rattle.hpke_context.specs.Contexts.{ContextView, cipher_of};
ghost use Rattle.context_books.specs.Histories.{places};
ghost use Rattle.context_books.specs.Entries.{numbers_from};
ghost use Rattle.context_books.specs.Lists.{In};
ghost use Rattle.batch_plans.specs.Within.{IsWithinLimits};
ghost use Rattle.context_books.specs.Standing.{standing_at};
ghost use Rattle.context_books.specs.Runs.{answer_line};
ghost use Rattle.journal_check.specs.Runs.{asked_at as asked_at_of, items_at, IsFor, IsRunOf};
ghost use Rattle.journal_check.specs.Runs.{AreRuns, AreFor};

use crate::items::{Asked, answer, asked_at};
use aes_gcm::{Checks, MayCheck};
use batch_plans::{PlainList, Plan};
use call_places::Mark;
use hpke_context::{Context, Sequential};
use reply_frames::LinePrinter;
use std::alloc::{AllocError, Global};

/// A journal along which its context was run: of each place the line of its reply, and the number
/// that was due there.
#[derive(Drop)]
pub(crate) struct JournalRun {
    pub(crate) lines: Vec<PlainList<u8>>,
    pub(crate) numbers: Vec<u64>,
}

// What a place asks that is known to ask something.
fn asked_of(plan: &Plan, mark: &Mark) -> Asked
    requires within { IsWithinLimits plan.now }
    requires some { IsSome (asked_at_of plan.now mark.now.place) }
    ensures { asked_at_of plan.now mark.now.place ≡ Some result }
{
    match asked_at(plan, mark.place) {
        Some(asked) => asked,
        None => unreachable!(),
    }
}

// Runs a context along its journal.
fn run_along(
    alloc: Global,
    plan: &Plan,
    sequential: &mut Sequential,
    marks: &[Mark],
    checks: &mut Checks,
) -> Result<JournalRun, AllocError>
    requires within { IsWithinLimits plan.now }
    requires fit { (m : Mark) → In m marks.now → IsFor plan.now sequential.old.context m.place }
    requires first { sequential.old.seq ≡ 0 }
    requires count { checks.old + length marks.now < 2 ^ 64 }
    ensures lines { IfOk result (λ done. done.lines.items ≡ map answer_line
        (run (cipher_of sequential.old.context) 0 (items_at plan.now (places marks.now)))) }
    ensures numbers { IfOk result (λ done. done.numbers.items
        ≡ numbers_from (cipher_of sequential.old.context) 0
        (items_at plan.now (places marks.now))) }
    ensures context { OnOk result (sequential.new.context ≡ sequential.old.context) }
{
    let mut printer = LinePrinter::new(alloc);
    let mut lines = Vec::new(alloc);
    let mut numbers = Vec::new(alloc);
    'marks: for mark in marks {
        let asked = asked_of(plan, mark);
        numbers.push(sequential.seq())?;
        let line = answer(
            &mut printer,
            sequential,
            plan.pool.as_slice(),
            asked,
            checks,
        )?;
        lines.push(PlainList::from_vec(line))?;
    }
    Ok(JournalRun { lines, numbers })
}

/// Runs the journal of a context, and hands the context back.
pub(crate) fn run_journal(
    permission: MayCheck,
    alloc: Global,
    plan: &Plan,
    context: Context,
    marks: &[Mark],
) -> Result<(JournalRun, Context), AllocError>
    requires within { IsWithinLimits plan.now }
    requires fit { (m : Mark) → In m marks.now → IsFor plan.now context m.place }
    ensures lines { IfOk result (λ done. done.0.lines.items ≡ map answer_line
        (run (cipher_of context) 0 (items_at plan.now (places marks.now)))) }
    ensures numbers { IfOk result (λ done. done.0.numbers.items
        ≡ numbers_from (cipher_of context) 0 (items_at plan.now (places marks.now))) }
    ensures context { IfOk result (λ done. done.1 ≡ context) }
{
    let mut checks = Checks::by(permission);
    let mut sequential = Sequential::new(context);
    let done = run_along(alloc, plan, &mut sequential, marks, &mut checks)?;
    Ok((done, sequential.into_context()))
}

// Takes the context of this number out of its slot.
fn take(contexts: &mut [Option<Context>], number: usize) -> Option<Context>
    requires { number < length contexts.old }
    ensures context { result ≡ standing_at contexts.old number }
    ensures taken { contexts.new ≡ slice_set contexts.old number None }
{
    contexts[number].take()
}

// Puts it back.
fn put_back(contexts: &mut [Option<Context>], number: usize, context: Context)
    requires { number < length contexts.old }
    ensures { contexts.new ≡ slice_set contexts.old number (Some context) }
{
    contexts[number] = Some(context);
}

// Runs the journal of the context of this number, where it stands.
fn run_at(
    permission: MayCheck,
    alloc: Global,
    plan: &Plan,
    contexts: &mut [Option<Context>],
    number: usize,
    marks: &[Mark],
) -> Result<JournalRun, AllocError>
    requires within { IsWithinLimits plan.now }
    requires there { number < length contexts.old }
    requires fit { (context : ContextView) (m : Mark) → standing_at contexts.old number ≡ Some context
        → In m marks.now → IsFor plan.now context m.place }
    ensures run { IfOk result (λ done. (context : ContextView)
        → standing_at contexts.old number ≡ Some context
        → IsRunOf plan.now context marks.now done) }
    ensures kept { OnOk result (contexts.new ≡ contexts.old) }
{
    match take(contexts, number) {
        Some(context) => {
            let (done, context) = run_journal(permission, alloc, plan, context, marks)?;
            put_back(contexts, number, context);
            Ok(done)
        }
        None => Ok(JournalRun {
            lines: Vec::new(alloc),
            numbers: Vec::new(alloc),
        }),
    }
}

/// Runs the journals of all contexts that stand. Where memory runs out a context may be lost.
///
/// It is a call by itself, so that the stack has a printer's room for it or for what comes later, and
/// not for both at a time.
#[inline(never)]
pub(crate) fn run_journals(
    permission: MayCheck,
    alloc: Global,
    plan: &Plan,
    contexts: &mut [Option<Context>],
    journals: &[PlainList<Mark>],
) -> Result<Vec<JournalRun>, AllocError>
    requires within { IsWithinLimits plan.now }
    requires count { length journals.now ≤ length contexts.old }
    requires fit { AreFor plan.now contexts.old journals.now }
    ensures runs { IfOk result (λ runs. AreRuns plan.now contexts.old journals.now runs.items) }
    ensures size { IfOk result (λ runs. length runs.items ≡ length journals.now) }
    ensures kept { OnOk result (contexts.new ≡ contexts.old) }
{
    let mut runs = Vec::new(alloc);
    'journals: for (number, marks) in journals.iter().enumerate() {
        let done = run_at(permission, alloc, plan, contexts, number, marks.as_slice())?;
        runs.push(done)?;
    }
    Ok(runs)
}
