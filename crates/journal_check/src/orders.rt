//! The journals of a result, its table and its stamps: the first that is wrong.

ghost use Rattle.std.specs.Prelude.{◌≡◌, ◌≤◌, ◌<◌, ◌^◌, ◌+◌, length, IfOk};
ghost use Rattle.batch_plans.specs.Limits.{most_contexts};
ghost use Rattle.batch_plans.specs.Within.{IsWithinLimits};
ghost use Rattle.batch_plans.specs.Names.{line_count};
ghost use Rattle.context_books.specs.Asks.{batch_of};
ghost use Rattle.context_books.specs.LiveChecks.{is_live_history as is_live_history_of};
ghost use Rattle.result_lines.specs.declared.verdicts.Verdict.{Verdict};
ghost use Rattle.result_lines.specs.Journals.{is_one_history as is_one_history_of};
ghost use Rattle.result_lines.specs.LiveVerdicts.{called as called_of};
ghost use Rattle.journal_check.specs.Served.{IsServed, IsServedBy, table_along, stamps_by};
ghost use Rattle.journal_check.specs.Served.{named_by, by_order};
ghost use Rattle.result_lines.specs.Computed.{by_stamps, or_later, is_table as is_table_of, by_table};

use crate::histories::is_one_history;
use crate::journals::broken_journal;
use crate::tables::{Table, is_live_history, is_table};
use batch_plans::{FIRST_NAME, PlainList, Plan};
use call_places::Mark;
use hpke_context::Context;
use result_lines::Verdict;
use std::alloc::{AllocError, Global};

// The number by which calls name the context at this place, where lanes add contexts.
fn called(plan: &Plan, at: u32) -> u32
    requires within { IsWithinLimits plan.now }
    requires few { at < most_contexts }
    ensures { result ≡ called_of (line_count plan.now) at }
{
    let lines = plan.contexts.as_slice().len() as u32 - plan.added;
    if at < lines {
        at
    } else {
        FIRST_NAME + (at - lines)
    }
}

// Stamps that make no history of the journals, where there are stamps.
fn wrong_stamps(
    alloc: Global,
    plan: &Plan,
    contexts: &[Option<Context>],
    stamps: bool,
    journals: &[PlainList<Mark>],
) -> Result<Option<Verdict>, AllocError>
    requires within { IsWithinLimits plan.now }
    requires few { length journals.now < 2 ^ 32 }
    ensures { IfOk result (λ wrong. (later : Verdict)
        → by_stamps (is_one_history_of stamps (batch_of plan.now contexts.now) journals.now) later
        ≡ or_later wrong later) }
{
    if stamps && !is_one_history(alloc, plan, contexts, journals)? {
        return Ok(Some(Verdict::Stamps));
    }
    Ok(None)
}

// A table that isn't legal, or stamps that make no history of it and the journals.
fn wrong_table(
    alloc: Global,
    plan: &Plan,
    contexts: &[Option<Context>],
    table: &Table,
    journals: &[PlainList<Mark>],
) -> Result<Option<Verdict>, AllocError>
    requires within { IsWithinLimits plan.now }
    requires few { length journals.now + 1 < 2 ^ 32 }
    requires served { IsServedBy plan.now contexts.now table.now }
    ensures { IfOk result (λ wrong. (later : Verdict)
        → by_table (is_table_of (table_along plan.now contexts.now table.now journals.now))
        (by_stamps (is_live_history_of
        (table_along plan.now contexts.now table.now journals.now)) later)
        ≡ or_later wrong later) }
{
    if !is_table(alloc, plan, contexts, table, journals)? {
        return Ok(Some(Verdict::Table));
    }
    if !is_live_history(alloc, plan, contexts, table, journals)? {
        return Ok(Some(Verdict::Stamps));
    }
    Ok(None)
}

// Whether a result has stamps.
fn has_stamps(plan: &Plan, table: Option<Table>) -> bool
    ensures { result ≡ stamps_by plan.now table.entry }
{
    match table {
        Some(_) => true,
        None => plan.version == 2,
    }
}

// The number by which a verdict names the context at this place.
fn named(plan: &Plan, table: Option<Table>, at: u32) -> u32
    requires within { IsWithinLimits plan.now }
    requires few { at < most_contexts }
    ensures { result ≡ named_by plan.now table.entry at }
{
    match table {
        Some(_) => called(plan, at),
        None => at,
    }
}

/// A journal that isn't legal, a table that isn't, or stamps that make no history of all.
pub(crate) fn wrong_order(
    alloc: Global,
    plan: &Plan,
    contexts: &[Option<Context>],
    table: Option<Table>,
    journals: &[PlainList<Mark>],
) -> Result<Option<Verdict>, AllocError>
    requires within { IsWithinLimits plan.now }
    requires few { length journals.now ≤ most_contexts }
    requires served { IsServed plan.now contexts.now table }
    ensures { IfOk result (λ wrong. (later : Verdict)
        → by_order plan.now contexts.now table.entry journals.now later ≡ or_later wrong later) }
{
    let stamps = has_stamps(plan, table);
    let broken = broken_journal(alloc, plan, contexts, stamps, journals)?;
    if let Some(at) = broken {
        let context = named(plan, table, at);
        return Ok(Some(Verdict::Journal { context }));
    }
    match table {
        Some(table) => wrong_table(alloc, plan, contexts, &table, journals),
        None => wrong_stamps(alloc, plan, contexts, stamps, journals),
    }
}
