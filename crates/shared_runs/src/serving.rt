//! The runner: lanes are begun and ended, and the journals written, whatever the kind of the lanes.

ghost use Rattle.std.specs.Prelude.{ℕ, ◌≡◌, ◌+◌, ◌<◌, ◌≤◌, ◌++◌, ◌∷◌, List, [], Option, None, length, map, vec_capacity, IfOk, OnOk, slice_index_or};
ghost use Rattle.std.specs.Thread.{IsSync};
ghost use Rattle.call_places.specs.declared.entries.Entry.{Entry};
ghost use Rattle.call_places.specs.declared.entries.Mark.{Mark};
ghost use Rattle.call_places.specs.Entries.{mark_of};
ghost use Rattle.hpke_context.specs.Contexts.{ContextView};
ghost use Rattle.batch_plans.specs.declared.plan.Plan.{Plan};
ghost use Rattle.batch_plans.specs.declared.replies.Answers.{Answers};
ghost use Rattle.batch_plans.specs.declared.replies.LaneAnswers.{LaneAnswers};
ghost use Rattle.batch_plans.specs.Room.{all_items_on, lane_room, room_for};
ghost use Rattle.context_books.specs.ContextLines.{export_limits};
ghost use Rattle.context_books.specs.LaneCalls.{lane_calls};
ghost use Rattle.shared_runs.specs.Closing.{entries_of};
ghost use Rattle.shared_runs.specs.Serving.{InOrder};
ghost use Rattle.shared_runs.specs.BegunRuns.{IsBegun};

use crate::begun_run::BegunRun;
use crate::journals::put_journals;
use batch_plans::{Answers, LaneAnswers, PlainList};
use call_places::Entry;
use context_books::Book;
use std::alloc::{AllocError as OutOfMemory, Global};
use std::thread::Threads;

/// What lanes of one kind share while they are served, and how one of them is begun and ended.
pub(crate) trait RunsLanes: Drop {
    /// A lane, with all that it needs to be served.
    type Lane: Drop;

    /// What is with no lane.
    type Left: Drop;

    // The plan whose calls there is room for.
    ghost plan: { Self → Plan };

    ghost contexts: { Self → List (Option ContextView) };

    // What holds from the start.
    ghost kept: { Self → Type 0 };

    // The lanes before this one have got what they need.
    ghost given: { Self → ℕ → Self.Left → Type 0 };

    // The lane of this number before its first call, and after its last.
    ghost ready: { Self → ℕ → Self.Lane → Type 0 };

    ghost done: { Self → ℕ → Self.Lane → Type 0 };

    // The first lanes gave back what they had, and these are their answers.
    ghost back: { Self → Self.Left → List LaneAnswers → Type 0 };

    // These answers, journals and notes are those of a run.
    ghost run: { Self → List LaneAnswers → List (List Mark) → List Entry → Type 0 };

    /// The next lane before its first call.
    fn prepare<R: Threads + Sync>(
        &self,
        rt: &R,
        alloc: Global,
        left: &mut Self::Left,
        lane: u32,
        answers: LaneAnswers,
    ) -> Result<Self::Lane, OutOfMemory>
        requires sync { IsSync R.row }
        requires kept { kept self.now }
        requires lane { lane < length (plan self.now).lanes }
        requires given { given self.now lane left.old }
        requires room { answers ≡ lane_room (plan self.now) (export_limits (contexts self.now))
            (lane_calls (plan self.now) lane) }
        ensures ready { IfOk result (ready self.now lane) }
        ensures given { OnOk result (given self.now (lane + 1) left.new) };

    /// The answers of the next lane that was served. What else it had is taken back.
    fn take_back(&self, left: &mut Self::Left, lane: Self::Lane) -> LaneAnswers
        requires kept { kept self.now }
        requires back { (answers : List LaneAnswers) × back self.now left.old answers
            × (length answers < length (plan self.now).lanes)
            × done self.now (length answers) lane }
        ensures { (answers : List LaneAnswers) → back self.now left.old answers
            → length answers < length (plan self.now).lanes → done self.now (length answers) lane
            → back self.now left.new (answers ++ result ∷ []) };

    /// Closes all that was shared: the books of the contexts, and the notes in place of these.
    fn close(
        self,
        left: Self::Left,
        books: &mut Vec<Option<Book>>,
        notes: PlainList<Entry>,
    ) -> PlainList<Entry>
        requires kept { kept self }
        requires back { (answers : List LaneAnswers) × back self left answers
            × (length answers ≡ length (plan self).lanes) }
        requires none { books.old.items ≡ [] }
        requires room { length (contexts self) ≤ vec_capacity books.old }
        ensures count { length books.new.items ≡ length (contexts self) }
        ensures few { (number : ℕ) → length (entries_of (slice_index_or books.new.items number None))
            ≤ all_items_on (plan self).contexts (export_limits (contexts self)) number
            (plan self).lanes }
        ensures run { (answers : List LaneAnswers) → back self left answers
            → length answers ≡ length (plan self).lanes
            → run self answers (map (map mark_of) (map entries_of books.new.items)) result };
}

// All lanes before their first calls.
fn prepare_all<R: Threads + Sync, K: RunsLanes>(
    rt: &R,
    alloc: Global,
    shared: &K,
    left: &mut K::Left,
    answers: Vec<LaneAnswers>,
) -> Result<Vec<K::Lane>, OutOfMemory>
    requires kept { K.kept shared.now }
    requires few { length (K.plan shared.now).lanes ≤ 16 }
    requires given { K.given shared.now 0 left.old }
    requires room { answers.items ≡ map (lane_room (K.plan shared.now)
        (export_limits (K.contexts shared.now))) (K.plan shared.now).lanes }
    ensures ready { IfOk result (λ lanes. InOrder (K.ready shared.now)
        (length (K.plan shared.now).lanes) lanes.items) }
    ensures given { OnOk result (K.given shared.now (length (K.plan shared.now).lanes) left.new) }
{
    let mut lanes = Vec::with_capacity(alloc, answers.len())?;
    'lanes: for answers in answers {
        let lane = lanes.len() as u32;
        lanes.push_reserved(shared.prepare(rt, alloc, left, lane, answers)?);
    }
    Ok(lanes)
}

/// All lanes before their first calls, and room for all that the run will give.
pub(crate) fn begin<R: Threads + Sync, K: RunsLanes>(
    rt: &R,
    alloc: Global,
    shared: &K,
    left: &mut K::Left,
    answers: Answers,
) -> Result<BegunRun<K::Lane>, OutOfMemory>
    requires kept { K.kept shared.now }
    requires few { length (K.plan shared.now).lanes ≤ 16 }
    requires given { K.given shared.now 0 left.old }
    requires room { answers ≡ room_for (K.plan shared.now) answers.keys answers.contexts
        (export_limits (K.contexts shared.now)) }
    ensures begun { IfOk result (IsBegun answers) }
    ensures ready { IfOk result (λ begun. InOrder (K.ready shared.now)
        (length (K.plan shared.now).lanes) begun.lanes.items) }
    ensures given { OnOk result (K.given shared.now (length (K.plan shared.now).lanes) left.new) }
{
    let Answers {
        keys,
        contexts,
        lanes: rooms,
        journals,
        notes,
    } = answers;
    let rooms = rooms.into_vec();
    let answers = Vec::with_capacity(alloc, rooms.len())?;
    let books = Vec::with_capacity(alloc, journals.as_slice().len())?;
    let lanes = prepare_all(rt, alloc, shared, left, rooms)?;
    Ok(BegunRun {
        lanes,
        answers,
        books,
        keys,
        contexts,
        journals,
        notes,
    })
}

// The answers of all lanes, put into `answers`. What else they had is taken back.
fn take_all_back<K: RunsLanes>(
    shared: &K,
    left: &mut K::Left,
    lanes: Vec<K::Lane>,
    answers: &mut Vec<LaneAnswers>,
)
    requires kept { K.kept shared.now }
    requires done { InOrder (K.done shared.now) (length (K.plan shared.now).lanes) lanes.items }
    requires none { K.back shared.now left.old [] }
    requires empty { answers.old.items ≡ [] }
    requires room { length lanes.items ≤ vec_capacity answers.old }
    ensures back { K.back shared.now left.new answers.new.items }
    ensures all { length answers.new.items ≡ length (K.plan shared.now).lanes }
{
    'lanes: for lane in lanes {
        answers.push_reserved(shared.take_back(left, lane));
    }
}

/// Takes the lanes back once they were served, closes what they shared, and fills the answers that
/// were made for them.
pub(crate) fn end<K: RunsLanes>(shared: K, mut left: K::Left, begun: BegunRun<K::Lane>) -> Answers
    requires kept { K.kept shared }
    requires contexts { length (K.contexts shared) ≡ length (K.plan shared).contexts }
    requires none { K.back shared left [] }
    requires room { (room : Answers) × IsBegun room begun
        × (room ≡ room_for (K.plan shared) room.keys room.contexts
        (export_limits (K.contexts shared))) }
    requires done { InOrder (K.done shared) (length (K.plan shared).lanes) begun.lanes.items }
    ensures run { K.run shared result.lanes result.journals result.notes }
    ensures set_up { (room : Answers) → IsBegun room begun
        → (result.keys ≡ room.keys) × (result.contexts ≡ room.contexts) }
    ensures lanes { length result.lanes ≡ length (K.plan shared).lanes }
    ensures journals { length result.journals ≡ length (K.plan shared).contexts }
{
    let BegunRun {
        lanes,
        mut answers,
        mut books,
        keys,
        contexts,
        mut journals,
        notes,
    } = begun;
    take_all_back(&shared, &mut left, lanes, &mut answers);
    let notes = shared.close(left, &mut books, notes);
    put_journals(&books, journals.as_mut_slice());
    Answers {
        keys,
        contexts,
        lanes: PlainList::from_vec(answers),
        journals,
        notes,
    }
}
