//! The table of a result whose lanes add and retire contexts.

ghost use Rattle.std.specs.Prelude.{◌≡◌, ◌+◌, Some, None, [], length, map, take, slice_get};
ghost use Rattle.std.specs.Prelude.{slice_index_or, MatchOption, IfSome, IfNone, IfOk};
ghost use Rattle.batch_plans.specs.Within.{IsWithinLimits};
ghost use Rattle.batch_plans.specs.Names.{line_count};
ghost use Rattle.context_books.specs.Standing.{standing_at};
ghost use Rattle.context_books.specs.Live.{noting_of as noting_of_name, looking as looking_of};
ghost use Rattle.context_books.specs.Live.{adding as adding_of, noting as noting_of_call};
ghost use Rattle.field_text.specs.Cuts.{lines_of};
ghost use Rattle.result_lines.specs.Tables.{notes_from, notes_behind, entry_by as entry_of_noting};
ghost use Rattle.result_lines.specs.Tables.{noting_at as noting_at_place};
ghost use Rattle.result_lines.specs.Tables.{entry_of as entry_of_note, table_told};

use crate::forms::read_note;
use batch_plans::{CallLine, EntryList, FIRST_NAME, PlainList, Plan};
use call_places::{Act, Entry, Place, Step};
use field_text::cut_at;
use hpke_context::Context;
use std::alloc::{AllocError, Global};
use std::marker::Model;

/// What the line of a note says.
#[derive(Clone, Copy, Debug, PartialEq, Eq)]
pub struct NoteLine {
    pub lane: u32,
    pub call: u32,
    /// Whether the name was live.
    pub live: bool,
    pub stamp: u64,
}

/// What a call does, and to which name.
#[derive(Drop)]
pub struct NamedAct {
    pub act: Act,
    pub name: u32,
}

impl Model for NamedAct {
    ghost use Rattle.context_books.specs.Live.{Noting};

    ghost Value = { Noting };

    ghost view = { λ n. record { act = n.act; name = n.name } };
}

// The notes of a table that are still to be read.
#[derive(Drop)]
struct Notes<'a> {
    rest: &'a [u8],
}

impl<'a> Model for Notes<'a> {
    ghost use Rattle.std.specs.Prelude.{List};
    ghost use Rattle.field_text.specs.Cuts.{lines_of};
    ghost use Rattle.result_lines.specs.declared.tables.NoteLine.{NoteLine};
    ghost use Rattle.result_lines.specs.Tables.{notes_from};

    ghost Value = { List NoteLine };

    ghost view = { λ n. notes_from (lines_of n.rest.now) };
}

// No table has more notes than there are stamps.
const MOST_NOTES: usize = 131_072;

// What stands behind the first line `table`; where there is none, no line.
fn behind_table(text: &[u8]) -> &[u8]
    ensures { notes_from (lines_of result.now) ≡ notes_behind text.now }
{
    let mut rest = text;
    'lines: while let Some((line, more)) = cut_at(rest, b'\n') {
        rest = more;
        if line == b"table".as_slice() {
            return rest;
        }
    }
    rest
}

impl<'a> Notes<'a> {
    ghost use Rattle.std.specs.Prelude.{◌∷◌};

    // The notes of a text, however many.
    fn of(text: &'a [u8]) -> Notes<'a>
        ensures { result ≡ notes_behind text.now }
    {
        Notes {
            rest: behind_table(text),
        }
    }

    // The next note.
    fn take(&mut self) -> Option<NoteLine>
        ensures some { IfSome result (λ note. self.old ≡ note ∷ self.new) }
        ensures none { IfNone result (self.old ≡ []) }
    {
        let (line, more) = cut_at(self.rest, b'\n')?;
        let Ok(note) = read_note(line) else {
            return None;
        };
        self.rest = more;
        Some(note)
    }
}

fn noting_of(plan: &Plan, act: Act, name: u32) -> Option<NamedAct>
    ensures { result ≡ noting_of_name plan.now act name }
{
    if name < plan.added {
        Some(NamedAct { act, name })
    } else {
        None
    }
}

fn looking(plan: &Plan, context: u32) -> Option<NamedAct>
    ensures { result ≡ looking_of plan.now context }
{
    if context < FIRST_NAME {
        None
    } else {
        noting_of(plan, Act::Look, context - FIRST_NAME)
    }
}

fn adding(plan: &Plan, contexts: &[Option<Context>], name: u32) -> Option<NamedAct>
    requires { IsWithinLimits plan.now }
    ensures { result ≡ adding_of (standing_at contexts.now (line_count plan.now + name)) name }
{
    let lines = plan.contexts.as_slice().len() as u32 - plan.added;
    let context = contexts.get(lines as usize + name as usize)?;
    if context.is_some() {
        Some(NamedAct {
            act: Act::Add,
            name,
        })
    } else {
        None
    }
}

/// What the note of a call tells, if the call has one: it looks up or retires a name that a line adds,
/// or adds a context that stands.
pub fn noting(plan: &Plan, contexts: &[Option<Context>], call: &CallLine) -> Option<NamedAct>
    requires { IsWithinLimits plan.now }
    ensures { result ≡ noting_of_call plan.now contexts.now call.now }
{
    match *call {
        CallLine::Seal { context, .. }
        | CallLine::Unseal { context, .. }
        | CallLine::UnsealAll { context, .. }
        | CallLine::Export { context, .. } => looking(plan, context),
        CallLine::Add { name } => adding(plan, contexts, name),
        CallLine::Retire { name } => noting_of(plan, Act::Retire, name),
    }
}

// The call of this number, where the plan has one.
fn call_at(plan: &Plan, lane: u32, call: u32) -> Option<&CallLine>
    ensures { MatchOption result (slice_get (slice_index_or plan.now.lanes lane []) call ≡ None)
        (λ found. slice_get (slice_index_or plan.now.lanes lane []) call ≡ Some found.now) }
{
    let calls = plan.lanes.as_slice().get(lane as usize)?;
    calls.as_slice().get(call as usize)
}

fn noting_at(plan: &Plan, contexts: &[Option<Context>], lane: u32, call: u32) -> Option<NamedAct>
    requires { IsWithinLimits plan.now }
    ensures { result ≡ noting_at_place plan.now contexts.now lane call }
{
    let call = call_at(plan, lane, call)?;
    noting(plan, contexts, call)
}

fn entry_by(noting: Option<NamedAct>, note: NoteLine) -> Entry
    ensures { result ≡ entry_of_noting noting note }
{
    let (name, act) = match noting {
        Some(n) => (n.name, n.act),
        None => (0, Act::Look),
    };
    Entry {
        place: Place {
            lane: note.lane,
            call: note.call,
            item: 0,
        },
        stamp: note.stamp,
        step: Step::Note {
            name,
            act,
            live: note.live,
        },
    }
}

fn entry_of(plan: &Plan, contexts: &[Option<Context>], note: NoteLine) -> Entry
    requires { IsWithinLimits plan.now }
    ensures { result ≡ entry_of_note plan.now contexts.now note }
{
    entry_by(noting_at(plan, contexts, note.lane, note.call), note)
}

// The first notes, so many or all.
fn first_entries(
    alloc: Global,
    plan: &Plan,
    contexts: &[Option<Context>],
    left: &mut Notes,
    most: usize,
) -> Result<Vec<Entry>, AllocError>
    requires { IsWithinLimits plan.now }
    ensures { IfOk result (λ notes. notes.items
        ≡ map (entry_of_note plan.now contexts.now) (take most left.old)) }
{
    let mut notes = Vec::new(alloc);
    'notes: for _note in 0..most {
        match left.take() {
            Some(note) => notes.push(entry_of(plan, contexts, note))?,
            None => return Ok(notes),
        }
    }
    Ok(notes)
}

/// The table that a text has as a result of the plan, whose lanes add and retire contexts: the notes
/// behind its first line `table`, as far as lines have their form, and 131,072 of them at most: no
/// more have stamps of their own. A text without such a line has none.
///
/// The contexts are those that stand, with the contexts of `add` lines behind those of context
/// lines. What each note is about, its call in the plan says. Whether the table is legal, and whether
/// the text has another line than it may have, is not known here. Time is linear in the text's length.
pub fn read_table(
    alloc: Global,
    plan: &Plan,
    contexts: &[Option<Context>],
    text: &[u8],
) -> Result<EntryList, AllocError>
    requires { IsWithinLimits plan.now }
    ensures { IfOk result (λ notes. notes ≡ table_told plan.now contexts.now text.now) }
{
    let mut left = Notes::of(text);
    let notes = first_entries(alloc, plan, contexts, &mut left, MOST_NOTES)?;
    Ok(PlainList::from_vec(notes))
}
