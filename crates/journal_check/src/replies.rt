//! The replies to calls.

ghost use Rattle.std.specs.Prelude.{ℕ, ◌≡◌, ◌≢◌, ◌≤◌, ◌<◌, ◌+◌, ◌∷◌, ◌++◌, ◌^◌, [], List, None};
ghost use Rattle.std.specs.Prelude.{length, map, slice_index, slice_index_or, false, All, IfOk};
ghost use Rattle.std.specs.Prelude.{OnOk};
ghost use Rattle.call_places.specs.declared.entries.Place.{Place};
ghost use Rattle.call_places.specs.Spans.{IsInPool, span_bytes};
ghost use Rattle.hpke_context.specs.Contexts.{export_limit, exported_by};
ghost use Rattle.batch_plans.specs.declared.plan.CallLine.{CallLine};
ghost use Rattle.batch_plans.specs.Replies.{IsInRange};
ghost use Rattle.batch_plans.specs.Lines.{exported_line};
ghost use Rattle.batch_plans.specs.AnswersText.{reply_line};
ghost use Rattle.context_books.specs.Standing.{standing_at, call_refusal};
ghost use Rattle.context_books.specs.Runs.{place_line, export_line as export_line_of, item_lines};
ghost use Rattle.result_lines.specs.Replies.{wrong_reply as wrong_reply_of};
ghost use Rattle.journal_check.specs.Served.{due_by, lane_due, all_due, AreLives};
ghost use Rattle.journal_check.specs.Walks.{Holds, IsRun, PointsTo, MayHave, Stands, run_in};
ghost use Rattle.journal_check.specs.Walks.{calls_of, left_in};

use crate::asks::asked_of;
use crate::items::all_of;
use crate::lane_walks::{CheckedRun, Walk};
use crate::live_replies::change_reply;
use batch_plans::{CallLine, PlainList, Reply};
use call_places::Span;
use context_books::{refusal_of, standing};
use hpke_context::Context;
use reply_frames::LinePrinter;
use result_lines::{Replies, Stop, is_line, live_calls};
use std::alloc::{AllocError, Global};

// The line of an export.
fn export_line(
    lines: &mut LinePrinter,
    context: &Context,
    exporter: &[u8],
    size: usize,
) -> Result<Vec<u8>, AllocError>
    requires limit { size ≤ export_limit context.now }
    requires small { size < 2 ^ 32 }
    ensures { IfOk result (λ line. line.items
        ≡ exported_line (exported_by context.now exporter.now size)) }
{
    let mut out = vec![in lines.alloc; 0u8; size]?;
    let _ = context.export_into(exporter, &mut out);
    let text = all_of(&out);
    lines.reply_line(&out, &Reply::Exported { text })
}

// Holds the next reply, where one is left, against the line that is due.
fn take_line(replies: &mut Replies, due: &[u8]) -> Result<(), Stop>
    ensures { Holds replies.old replies.new (due.now ∷ []) result }
{
    let Some(reply) = replies.take() else {
        return Ok(());
    };
    if is_line(reply.line, due) {
        Ok(())
    } else {
        Err(Stop::Wrong(reply.number))
    }
}

// Holds the next reply against one that names no bytes.
fn take_reply(replies: &mut Replies, lines: &mut LinePrinter, reply: Reply) -> Result<(), Stop>
    requires { IsInRange 0 reply }
    ensures { Holds replies.old replies.new (reply_line [] reply ∷ []) result }
{
    let line = lines.reply_line(&[], &reply)?;
    take_line(replies, &line)
}

// Holds the next reply against an export that is served.
fn take_export(
    replies: &mut Replies,
    lines: &mut LinePrinter,
    checked: &CheckedRun,
    context: u32,
    exporter: Span,
    size: u32,
) -> Result<(), Stop>
    requires served { call_refusal checked.now.contexts.now
        (CallLine.Export context exporter size) ≡ None }
    requires span { IsInPool (length checked.now.plan.now.pool) exporter }
    ensures { Holds replies.old replies.new (export_line_of (standing_at
        checked.now.contexts.now context)
        (span_bytes checked.now.plan.now.pool exporter) size ∷ []) result }
{
    let Some(context) = standing(checked.contexts, context) else {
        unreachable!()
    };
    let exporter = exporter.of(checked.plan.pool.as_slice());
    let line = export_line(lines, context, exporter, size as usize)?;
    take_line(replies, &line)
}

// The line of this index.
fn line_at(lines: &[PlainList<u8>], at: usize) -> &[u8]
    requires { at < length lines.now }
    ensures { result.now ≡ slice_index_or lines.now at [] }
{
    lines[at].as_slice()
}

// Holds the next reply against that of the lane's next place in the journal of a context.
fn take_place(
    replies: &mut Replies,
    walk: &Walk,
    cursors: &mut [usize],
    context: u32,
) -> Result<(), Stop>
    requires run { IsRun walk.now.checked }
    requires cursors { length cursors.old ≡ length walk.now.checked.journals.now }
    requires stands { Stands walk.now.checked context }
    ensures line { (p : Place) (ps : List Place) → left_in walk.now cursors.old context ≡ p ∷ ps
        → Holds replies.old replies.new
        (place_line (run_in walk.now.checked) context p ∷ []) result }
    ensures left { (p : Place) (ps : List Place) → left_in walk.now cursors.old context ≡ p ∷ ps
        → left_in walk.now cursors.new context ≡ ps }
    ensures others { (d : ℕ) → d ≢ context
        → slice_index cursors.new d ≡ slice_index cursors.old d }
{
    let Some(at) = walk.step(cursors, context) else {
        return Ok(());
    };
    let run = &walk.checked.runs[context as usize];
    take_line(replies, line_at(&run.lines, at))
}

// Holds the next replies against those of the lane's next places in the journal of a context.
fn take_items(
    replies: &mut Replies,
    walk: &Walk,
    cursors: &mut [usize],
    context: u32,
    count: u32,
) -> Result<(), Stop>
    requires run { IsRun walk.now.checked }
    requires cursors { length cursors.old ≡ length walk.now.checked.journals.now }
    requires stands { Stands walk.now.checked context }
    ensures lines { (ps more : List Place) → length ps ≡ count
        → left_in walk.now cursors.old context ≡ ps ++ more
        → Holds replies.old replies.new
        (map (place_line (run_in walk.now.checked) context) ps) result }
    ensures left { OnOk result ((ps more : List Place) → length ps ≡ count
        → left_in walk.now cursors.old context ≡ ps ++ more
        → left_in walk.now cursors.new context ≡ more) }
    ensures others { (d : ℕ) → d ≢ context
        → slice_index cursors.new d ≡ slice_index cursors.old d }
{
    'places: for _place in 0..count {
        take_place(replies, walk, cursors, context)?;
    }
    Ok(())
}

// Holds the next replies against those to a call that is served, and passes its places.
fn take_served(
    replies: &mut Replies,
    lines: &mut LinePrinter,
    walk: &Walk,
    cursors: &mut [usize],
    call: &CallLine,
) -> Result<(), Stop>
    requires within { MayHave walk.now.checked call.now }
    requires run { IsRun walk.now.checked }
    requires cursors { length cursors.old ≡ length walk.now.checked.journals.now }
    requires served { call_refusal walk.now.checked.contexts.now call.now ≡ None }
    ensures lines { (number : ℕ) (more : List CallLine)
        → PointsTo walk.now number (call.now ∷ more) cursors.old
        → Holds replies.old replies.new
        (item_lines (run_in walk.now.checked) walk.now.lane number call.now) result }
    ensures points { OnOk result ((number : ℕ) (more : List CallLine)
        → PointsTo walk.now number (call.now ∷ more) cursors.old
        → PointsTo walk.now (number + 1) more cursors.new) }
{
    match asked_of(walk.checked.contexts, call) {
        Some((context, count)) => take_items(replies, walk, cursors, context, count),
        None => {
            let CallLine::Export {
                context,
                exporter,
                size,
            } = *call
            else {
                unreachable!()
            };
            take_export(replies, lines, &walk.checked, context, exporter, size)
        }
    }
}

// Holds the next replies against those to a call, and passes its places. Where a table says that the
// call's name was live, `live` says so.
fn take_call(
    replies: &mut Replies,
    lines: &mut LinePrinter,
    walk: &Walk,
    cursors: &mut [usize],
    call: &CallLine,
    live: bool,
) -> Result<(), Stop>
    requires within { MayHave walk.now.checked call.now }
    requires run { IsRun walk.now.checked }
    requires cursors { length cursors.old ≡ length walk.now.checked.journals.now }
    ensures lines { (number : ℕ) (more : List CallLine)
        → PointsTo walk.now number (call.now ∷ more) cursors.old
        → Holds replies.old replies.new (due_by walk.now.checked.table
        (run_in walk.now.checked) live walk.now.lane number call.now) result }
    ensures points { OnOk result ((number : ℕ) (more : List CallLine)
        → PointsTo walk.now number (call.now ∷ more) cursors.old
        → PointsTo walk.now (number + 1) more cursors.new) }
{
    if let Some(reply) = change_reply(&walk.checked, call, live) {
        return take_reply(replies, lines, reply);
    }
    match refusal_of(walk.checked.contexts, call) {
        Some(refusal) => take_reply(replies, lines, Reply::Refused(refusal)),
        None => take_served(replies, lines, walk, cursors, call),
    }
}

// Whether the name of the call of this number was live.
fn is_live(lives: &[bool], number: usize) -> bool
    ensures { result ≡ slice_index_or lives.now number false }
{
    lives.get(number).copied().unwrap_or(false)
}

// Holds the next replies against those to all calls of a lane.
fn take_calls(
    replies: &mut Replies,
    alloc: Global,
    walk: &Walk,
    cursors: &mut [usize],
    calls: &[CallLine],
    lives: &[bool],
) -> Result<(), Stop>
    requires within { All (MayHave walk.now.checked) calls.now }
    requires run { IsRun walk.now.checked }
    requires cursors { length cursors.old ≡ length walk.now.checked.journals.now }
    requires points { PointsTo walk.now 0 calls.now cursors.old }
    requires lives { AreLives walk.now.checked.table walk.now.lane (length calls.now) lives.now }
    ensures { Holds replies.old replies.new (lane_due walk.now.checked.table
        (run_in walk.now.checked) walk.now.lane calls.now) result }
{
    let mut lines = LinePrinter::new(alloc);
    'calls: for (number, call) in calls.iter().enumerate() {
        let live = is_live(lives, number);
        take_call(replies, &mut lines, walk, cursors, call, live)?;
    }
    Ok(())
}

// For each of a lane's calls whether a note tells that its name was live; none without a table.
fn lives_of(alloc: Global, walk: &Walk, count: usize) -> Result<Vec<bool>, AllocError>
    ensures { IfOk result (λ lives.
        AreLives walk.now.checked.table walk.now.lane count lives.items) }
{
    match walk.checked.table {
        Some(table) => live_calls(alloc, table.notes, walk.lane, count),
        None => Ok(Vec::new(alloc)),
    }
}

// The same from the start of the journals.
fn take_lane(replies: &mut Replies, alloc: Global, walk: &Walk) -> Result<(), Stop>
    requires run { IsRun walk.now.checked }
    requires there { walk.now.lane < length walk.now.checked.plan.now.lanes }
    ensures { Holds replies.old replies.new (lane_due walk.now.checked.table
        (run_in walk.now.checked) walk.now.lane (calls_of walk.now)) result }
{
    let calls = walk.calls();
    let mut cursors = walk.start(alloc)?;
    let lives = lives_of(alloc, walk, calls.len())?;
    take_calls(replies, alloc, walk, &mut cursors, calls, &lives)
}

// Holds the next replies against those of all lanes.
fn take_lanes(replies: &mut Replies, alloc: Global, checked: &CheckedRun) -> Result<(), Stop>
    requires { IsRun checked.now }
    ensures { Holds replies.old replies.new
        (all_due checked.now.table (run_in checked.now)) result }
{
    'lanes: for lane in 0..checked.plan.lanes.as_slice().len() {
        let walk = Walk {
            checked: *checked,
            lane: lane as u32,
        };
        take_lane(replies, alloc, &walk)?;
    }
    Ok(())
}

// The line of the next reply, if there is one: none is due.
fn left_over(replies: &mut Replies) -> Option<u32>
    ensures { result ≡ wrong_reply_of replies.old [] }
{
    replies.take().map(|reply| reply.number)
}

/// The line of the first reply that isn't the one that is due along the journals.
pub(crate) fn wrong_reply(
    replies: &mut Replies,
    alloc: Global,
    checked: &CheckedRun,
) -> Result<Option<u32>, AllocError>
    requires { IsRun checked.now }
    ensures { IfOk result (λ wrong. wrong
        ≡ wrong_reply_of replies.old (all_due checked.now.table (run_in checked.now))) }
{
    match take_lanes(replies, alloc, checked) {
        Ok(()) => Ok(left_over(replies)),
        Err(Stop::Wrong(number)) => Ok(Some(number)),
        Err(Stop::OutOfMemory) => Err(AllocError),
    }
}
