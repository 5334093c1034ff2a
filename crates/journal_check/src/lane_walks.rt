//! A lane that is walked beside the journals: its places are found in them one after another.

ghost use Rattle.std.specs.Prelude.{ℕ, ◌≡◌, ◌≢◌, ◌<◌, ◌+◌, ◌^◌, ◌∷◌, [], length, drop, slice_get};
ghost use Rattle.std.specs.Prelude.{slice_index, IfSome, IfNone, IfOk};
ghost use Rattle.call_places.specs.declared.entries.Mark.{Mark};
ghost use Rattle.context_books.specs.Batches.{own_places};
ghost use Rattle.context_books.specs.Histories.{places, marks_at};
ghost use Rattle.journal_check.specs.Passing.{Reaches, AllReach};
ghost use Rattle.journal_check.specs.Walks.{IsRun, PointsTo, calls_of, left_in};

use crate::links::LinkedJournal;
use crate::runs::JournalRun;
use crate::tables::Table;
use batch_plans::{CallLine, PlainList, Plan};
use call_places::Mark;
use hpke_context::Context;
use result_lines::GuessLine;
use std::alloc::{AllocError, Global};

/// A run that is checked: the plan, the contexts that stand, the guesses that the result tells, the
/// journals, what came of running each context along its own, and the table, where lanes add and
/// retire contexts.
#[derive(Clone, Copy)]
pub(crate) struct CheckedRun<'a> {
    pub(crate) plan: &'a Plan,
    pub(crate) contexts: &'a [Option<Context>],
    pub(crate) guesses: &'a [PlainList<GuessLine>],
    pub(crate) journals: &'a [LinkedJournal],
    pub(crate) runs: &'a [JournalRun],
    pub(crate) table: Option<Table<'a>>,
}

/// A lane of a run that is walked. There is a cursor into the journal of each context, from which on
/// the lane's next place is looked for.
#[derive(Clone, Copy)]
pub(crate) struct Walk<'a> {
    pub(crate) checked: CheckedRun<'a>,
    pub(crate) lane: u32,
}

// The first place of a lane from this index on.
fn own_from(marks: &[Mark], lane: u32, from: usize) -> Option<usize>
    ensures some { IfSome result (λ at. (m : Mark) → slice_get marks.now at ≡ Some m
        → own_places lane (places (drop from marks.now))
        ≡ m.place ∷ own_places lane (places (drop (at + 1) marks.now))) }
    ensures there { IfSome result (λ at. at < length marks.now) }
    ensures fits { IfSome result (λ at. at + 1 < 2 ^ 64) }
    ensures none { IfNone result (own_places lane (places (drop from marks.now)) ≡ []) }
{
    'marks: for at in from..marks.len() {
        if marks[at].place.lane == lane {
            return Some(at);
        }
    }
    None
}

// Where the next place of a lane stands in a journal, from this index on.
fn next_own(journal: &LinkedJournal, lane: u32, from: usize) -> Option<usize>
    ensures some { IfSome result (λ at. (m : Mark) → slice_get journal.now at ≡ Some m
        → own_places lane (places (drop from journal.now))
        ≡ m.place ∷ own_places lane (places (drop (at + 1) journal.now))) }
    ensures there { IfSome result (λ at. at < length journal.now) }
    ensures fits { IfSome result (λ at. at + 1 < 2 ^ 64) }
    ensures none { IfNone result (own_places lane (places (drop from journal.now)) ≡ []) }
{
    own_from(journal.marks(), lane, journal.start(lane, from))
}

impl<'a> Walk<'a> {
    /// The lane's calls.
    pub(crate) fn calls(&self) -> &'a [CallLine]
        requires { self.now.lane < length self.now.checked.plan.now.lanes }
        ensures { result.now ≡ calls_of self.now }
    {
        let lanes = self.checked.plan.lanes.as_slice();
        lanes[self.lane as usize].as_slice()
    }

    /// The cursors at the start of the journals.
    pub(crate) fn start(&self, alloc: Global) -> Result<Vec<usize>, AllocError>
        requires { IsRun self.now.checked }
        ensures size { IfOk result (λ cursors.
            length cursors.items ≡ length self.now.checked.journals.now) }
        ensures points { IfOk result (λ cursors.
            PointsTo self.now 0 (calls_of self.now) cursors.items) }
        ensures reach { IfOk result (λ cursors.
            AllReach self.now.lane self.now.checked.journals.now cursors.items) }
    {
        vec![in alloc; 0usize; self.checked.journals.len()]
    }

    /// The index of the lane's next place in the journal of a context, where there is one. The cursor
    /// goes on behind it.
    pub(crate) fn step(&self, cursors: &mut [usize], context: u32) -> Option<usize>
        requires there { context < length self.now.checked.journals.now }
        requires cursors { length cursors.old ≡ length self.now.checked.journals.now }
        ensures there { IfSome result (λ at.
            at < length (marks_at self.now.checked.journals.now context)) }
        ensures place { IfSome result (λ at. (m : Mark)
            → slice_get (marks_at self.now.checked.journals.now context) at ≡ Some m
            → left_in self.now cursors.old context
            ≡ m.place ∷ left_in self.now cursors.new context) }
        ensures none { IfNone result (left_in self.now cursors.old context ≡ []) }
        ensures reach { Reaches self.now.lane (marks_at self.now.checked.journals.now context)
            (slice_index cursors.old context)
            → Reaches self.now.lane (marks_at self.now.checked.journals.now context)
            (slice_index cursors.new context) }
        ensures others { (d : ℕ) → d ≢ context
            → slice_index cursors.new d ≡ slice_index cursors.old d }
    {
        let number = context as usize;
        let at = next_own(&self.checked.journals[number], self.lane, cursors[number])?;
        cursors[number] = at + 1;
        Some(at)
    }
}
