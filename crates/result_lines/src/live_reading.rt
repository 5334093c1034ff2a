//! A whole result whose lanes add and retire contexts.

ghost use Rattle.std.specs.Prelude.{◌≡◌, ◌≤◌, ℕ, List, length, map, take, drop};
ghost use Rattle.batch_plans.specs.Limits.{most_input};
ghost use Rattle.batch_plans.specs.Within.{IsWithinLimits};
ghost use Rattle.batch_plans.specs.Names.{line_count as lines_in};
ghost use Rattle.batch_plans.specs.LiveText.{note_line as note_line_of, table_lines};
ghost use Rattle.context_books.specs.Live.{looked_up_plan};
ghost use Rattle.result_lines.specs.Readings.{Tells};
ghost use Rattle.result_lines.specs.Told.{with_lines, with_setup, nothing_yet};
ghost use Rattle.result_lines.specs.ToldLive.{with_added_journals, with_all_journals, told_live_by};

use crate::reading::{SetUp, read_journals, read_lanes, read_setup};
use crate::stamps::Stamps;
use crate::stop::Stop;
use crate::told::Told;
use batch_plans::{CallLine, ContextLine, ContextReply, KeyReply, PlainList, Plan};
use call_places::Entry;
use hpke_context::Context;
use reply_frames::LinePrinter;
use std::alloc::Global;

// The journals of contexts that are added.
fn read_added_journals(told: &mut Told, alloc: Global, lines: &[ContextLine]) -> Result<(), Stop>
    ensures { Tells (λ _. told.new) result (with_added_journals 0 lines.now told.old) }
{
    'journals: for (name, _line) in lines.iter().enumerate() {
        told.added_journal(alloc, name as u64)?;
    }
    Ok(())
}

// How many contexts are those of context lines.
fn line_count(plan: &Plan) -> usize
    ensures lines { result ≡ lines_in plan.now }
    ensures few { result ≤ length plan.now.contexts }
{
    plan.contexts
        .as_slice()
        .len()
        .saturating_sub(plan.added as usize)
}

// All journals.
#[tactic(auto, unfolding(crate::specs::ToldLive::with_all_journals))]
fn read_all_journals(told: &mut Told, alloc: Global, plan: &Plan) -> Result<(), Stop>
    ensures { Tells (λ _. told.new) result (with_all_journals plan.now told.old) }
{
    let lines = line_count(plan);
    let contexts = plan.contexts.as_slice();
    read_journals(told, alloc, Stamps::PlacesAndNotes, &contexts[..lines])?;
    read_added_journals(told, alloc, &contexts[lines..])
}

// The lines of notes.
fn read_notes(told: &mut Told, alloc: Global, notes: &[Entry]) -> Result<(), Stop>
    ensures { Tells (λ _. told.new) result (with_lines (map note_line_of notes.now) told.old) }
{
    let mut lines = LinePrinter::new(alloc);
    'notes: for note in notes {
        let line = lines.note_line(note)?;
        told.expect(&line)?;
    }
    Ok(())
}

// The table.
fn read_table_lines(told: &mut Told, alloc: Global, notes: &[Entry]) -> Result<(), Stop>
    ensures { Tells (λ _. told.new) result (with_lines (table_lines notes.now) told.old) }
{
    told.expect(b"table\n")?;
    read_notes(told, alloc, notes)
}

// The replies to context lines.
fn line_replies<'a>(plan: &Plan, replies: &'a [ContextReply]) -> &'a [ContextReply]
    ensures { result.now ≡ take (lines_in plan.now) replies.now }
{
    let lines = line_count(plan);
    if lines < replies.len() {
        &replies[..lines]
    } else {
        replies
    }
}

// The lanes of a plan as they were served, and the notes that say so.
#[derive(Clone, Copy)]
struct Served<'a> {
    lanes: &'a [PlainList<CallLine>],
    notes: &'a [Entry],
}

// All lines of a text of which nothing is read yet.
#[tactic(auto, unfolding(crate::specs::ToldLive::told_live_by))]
fn read_live_lines(
    told: &mut Told,
    alloc: Global,
    plan: &Plan,
    set_up: &SetUp,
    served: &Served,
) -> Result<(), Stop>
    requires lanes { served.now.lanes.now ≡ (looked_up_plan plan.now served.now.notes.now).lanes }
    ensures { (text : List ℕ) → told.old ≡ nothing_yet text → Tells (λ _. told.new) result
        (told_live_by plan.now set_up.now.keys.now set_up.now.replies.now set_up.now.contexts.now
        served.now.notes.now text) }
{
    read_setup(
        told,
        alloc,
        2,
        set_up.keys,
        line_replies(plan, set_up.replies),
    )?;
    read_lanes(told, alloc, set_up.contexts, served.lanes)?;
    read_all_journals(told, alloc, plan)?;
    read_table_lines(told, alloc, served.notes)?;
    told.end()
}

/// What a text tells up to the end of its set-up, as a result of the plan, whose lanes add and retire
/// contexts, where these are the replies to its key lines and its contexts.
///
/// A line that is wrong here is the one that [`read_live_result`] finds, whatever notes the table has.
pub fn read_live_setup<'a>(
    alloc: Global,
    plan: &Plan,
    keys: &[KeyReply],
    replies: &[ContextReply],
    text: &'a [u8],
) -> Result<Told<'a>, Stop>
    requires { length text.now ≤ most_input }
    ensures { Tells (λ told. told) result
        (with_setup 2 keys.now (take (lines_in plan.now) replies.now) (nothing_yet text.now)) }
{
    let mut told = Told::nothing_yet(alloc, text);
    read_setup(&mut told, alloc, 2, keys, line_replies(plan, replies))?;
    Ok(told)
}

/// What a text tells as a result of the plan, whose lanes add and retire contexts, where these are
/// the replies to its key lines and its contexts, the contexts that stand, the notes of its table and
/// its lanes as these say that they were served.
///
/// The text is read once. [`Stop::Wrong`] has the number of the first line that is missing, has no
/// line feed or another form, or stands behind the line `end`. The journals told are those of all
/// contexts, in their order.
pub fn read_live_result<'a>(
    alloc: Global,
    plan: &Plan,
    keys: &[KeyReply],
    replies: &[ContextReply],
    contexts: &[Option<Context>],
    lanes: &[PlainList<CallLine>],
    notes: &[Entry],
    text: &'a [u8],
) -> Result<Told<'a>, Stop>
    requires size { length text.now ≤ most_input }
    requires lanes { lanes.now ≡ (looked_up_plan plan.now notes.now).lanes }
    ensures { Tells (λ told. told) result
        (told_live_by plan.now keys.now replies.now contexts.now notes.now text.now) }
{
    let set_up = SetUp {
        keys,
        replies,
        contexts,
    };
    let served = Served { lanes, notes };
    let mut told = Told::nothing_yet(alloc, text);
    read_live_lines(&mut told, alloc, plan, &set_up, &served)?;
    Ok(told)
}
