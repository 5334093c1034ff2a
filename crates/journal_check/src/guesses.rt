//! Guesses.

ghost use Rattle.std.specs.Prelude.{ℕ, ◌≡◌, ◌≢◌, ◌≤◌, ◌<◌, ◌+◌, ◌∷◌, ◌++◌, List, None, length, map};
ghost use Rattle.std.specs.Prelude.{slice_index, All, IfOk, OnOk};
ghost use Rattle.call_places.specs.declared.entries.Place.{Place};
ghost use Rattle.context_books.specs.Guesses.{is_in_window as is_in_window_of, missed as missed_of};
ghost use Rattle.context_books.specs.Histories.{marks_at};
ghost use Rattle.batch_plans.specs.declared.replies.Batch.{Batch};
ghost use Rattle.batch_plans.specs.declared.plan.CallLine.{CallLine};
ghost use Rattle.context_books.specs.Standing.{call_refusal};
ghost use Rattle.context_books.specs.Asks.{ask_of};
ghost use Rattle.context_books.specs.Runs.{journal_of};
ghost use Rattle.result_lines.specs.Guesses.{is_right as is_right_of};
ghost use Rattle.result_lines.specs.Guesses.{wrong_guess as wrong_guess_of};
ghost use Rattle.result_lines.specs.Guesses.{wrong_guesses as wrong_guesses_of};
ghost use Rattle.journal_check.specs.Passing.{is_right_by, due_at, Reaches, AllReach};
ghost use Rattle.journal_check.specs.Passing.{is_opening as is_opening_of};
ghost use Rattle.journal_check.specs.Walks.{IsRun, PointsTo, MayHave, Stands, run_in, calls_of};
ghost use Rattle.journal_check.specs.Walks.{left_in};

use crate::asks::asked_of;
use crate::lane_walks::{CheckedRun, Walk};
use batch_plans::{Batch, CallLine};
use context_books::refusal_of;
use hpke_context::Context;
use result_lines::GuessLine;
use std::alloc::{AllocError, Global};

// Whether a number lies in the window of an item: `guess` + i - k for k from 0 to min(i, 3).
fn is_in_window(guess: u64, i: u64, number: u64) -> bool
    ensures { result ≡ is_in_window_of guess i number }
{
    let top = guess as u128 + i as u128;
    number as u128 <= top && top <= number as u128 + i.min(3) as u128
}

// How many of these numbers a guess missed.
fn missed(guess: u64, numbers: &[u64]) -> usize
    ensures { result ≡ missed_of guess 0 numbers.now }
{
    let mut count = 0;
    'numbers: for (i, number) in numbers.iter().enumerate() {
        if !is_in_window(guess, i as u64, *number) {
            count += 1;
        }
    }
    count
}

// The number of this index; 0 where there is none.
fn number_at(numbers: &[u64], i: usize) -> u64
    ensures { result ≡ slice_index numbers.now i }
{
    numbers.get(i).copied().unwrap_or(0)
}

// Whether a guess lies from this number to the first of those that were due, and missed so many.
fn is_right(told: Batch, least: u64, numbers: &[u64]) -> bool
    ensures { result ≡ is_right_by told least numbers.now }
{
    least <= told.guess
        && told.guess <= number_at(numbers, 0)
        && told.missed as usize == missed(told.guess, numbers)
}

// The number that was due at the lane's next place in the journal of a context.
fn pass_place(walk: &Walk, cursors: &mut [usize], context: u32) -> u64
    requires run { IsRun walk.now.checked }
    requires cursors { length cursors.old ≡ length walk.now.checked.journals.now }
    requires stands { Stands walk.now.checked context }
    ensures number { (p : Place) (ps : List Place) → left_in walk.now cursors.old context ≡ p ∷ ps
        → result ≡ due_at (run_in walk.now.checked) context p }
    ensures left { (p : Place) (ps : List Place) → left_in walk.now cursors.old context ≡ p ∷ ps
        → left_in walk.now cursors.new context ≡ ps }
    ensures reach { Reaches walk.now.lane (marks_at walk.now.checked.journals.now context)
        (slice_index cursors.old context)
        → Reaches walk.now.lane (marks_at walk.now.checked.journals.now context)
        (slice_index cursors.new context) }
    ensures others { (d : ℕ) → d ≢ context
        → slice_index cursors.new d ≡ slice_index cursors.old d }
{
    let Some(at) = walk.step(cursors, context) else {
        return 0;
    };
    let run = &walk.checked.runs[context as usize];
    number_at(&run.numbers, at)
}

// What was due along a lane: where its last place before a call was passed, and at the places of
// the call.
#[derive(Drop)]
struct Passed {
    least: u64,
    numbers: Vec<u64>,
}

// Passes the lane's next places in the journal of a context.
fn pass_items(
    alloc: Global,
    walk: &Walk,
    cursors: &mut [usize],
    context: u32,
    count: u32,
) -> Result<Passed, AllocError>
    requires run { IsRun walk.now.checked }
    requires cursors { length cursors.old ≡ length walk.now.checked.journals.now }
    requires stands { Stands walk.now.checked context }
    ensures least { IfOk result (λ passed. passed.least
        ≡ slice_index (map (due_at (run_in walk.now.checked) context)
        (journal_of (run_in walk.now.checked) context)) (slice_index cursors.old context)) }
    ensures numbers { IfOk result (λ passed. (ps more : List Place) → length ps ≡ count
        → left_in walk.now cursors.old context ≡ ps ++ more
        → passed.numbers.items ≡ map (due_at (run_in walk.now.checked) context) ps) }
    ensures left { OnOk result ((ps more : List Place) → length ps ≡ count
        → left_in walk.now cursors.old context ≡ ps ++ more
        → left_in walk.now cursors.new context ≡ more) }
    ensures reach { OnOk result (
        Reaches walk.now.lane (marks_at walk.now.checked.journals.now context)
        (slice_index cursors.old context)
        → Reaches walk.now.lane (marks_at walk.now.checked.journals.now context)
        (slice_index cursors.new context)) }
    ensures others { (d : ℕ) → d ≢ context
        → slice_index cursors.new d ≡ slice_index cursors.old d }
{
    let due = &walk.checked.runs[context as usize].numbers;
    let least = number_at(due, cursors[context as usize]);
    let mut numbers = Vec::new(alloc);
    'places: for _place in 0..count {
        let number = pass_place(walk, cursors, context);
        numbers.push(number)?;
    }
    Ok(Passed { least, numbers })
}

// Whether a call is an opening of several messages that is served.
fn is_opening(contexts: &[Option<Context>], call: &CallLine) -> bool
    ensures { result ≡ is_opening_of contexts.now call.now }
{
    if refusal_of(contexts, call).is_some() {
        return false;
    }
    match *call {
        CallLine::UnsealAll { .. } => true,
        CallLine::Seal { .. }
        | CallLine::Unseal { .. }
        | CallLine::Export { .. }
        | CallLine::Add { .. }
        | CallLine::Retire { .. } => false,
    }
}

// Passes the places of a call.
fn pass_call(
    alloc: Global,
    walk: &Walk,
    cursors: &mut [usize],
    call: &CallLine,
) -> Result<Passed, AllocError>
    requires run { IsRun walk.now.checked }
    requires cursors { length cursors.old ≡ length walk.now.checked.journals.now }
    ensures points { OnOk result ((number : ℕ) (more : List CallLine)
        → PointsTo walk.now number (call.now ∷ more) cursors.old
        → PointsTo walk.now (number + 1) more cursors.new) }
    ensures reach { OnOk result (
        AllReach walk.now.lane walk.now.checked.journals.now cursors.old
        → AllReach walk.now.lane walk.now.checked.journals.now cursors.new) }
    ensures right { IfOk result (λ passed. (number : ℕ) (more : List CallLine)
        (told : Batch) (context first count : ℕ)
        → call.now ≡ CallLine.UnsealAll context first count
        → call_refusal walk.now.checked.contexts.now call.now ≡ None → 1 ≤ count
        → PointsTo walk.now number (call.now ∷ more) cursors.old
        → AllReach walk.now.lane walk.now.checked.journals.now cursors.old
        → is_right_by told passed.least passed.numbers.items
        ≡ is_right_of (run_in walk.now.checked) context walk.now.lane number count told) }
{
    match asked_of(walk.checked.contexts, call) {
        Some((context, count)) => pass_items(alloc, walk, cursors, context, count),
        None => Ok(Passed {
            least: 0,
            numbers: Vec::new(alloc),
        }),
    }
}

// The line of the first guess of these calls of a lane that isn't right.
fn judge_calls(
    alloc: Global,
    walk: &Walk,
    cursors: &mut [usize],
    calls: &[CallLine],
    guesses: &[GuessLine],
) -> Result<Option<u32>, AllocError>
    requires within { All (MayHave walk.now.checked) calls.now }
    requires run { IsRun walk.now.checked }
    requires cursors { length cursors.old ≡ length walk.now.checked.journals.now }
    requires points { PointsTo walk.now 0 calls.now cursors.old }
    requires reach { AllReach walk.now.lane walk.now.checked.journals.now cursors.old }
    ensures { IfOk result (λ wrong. wrong
        ≡ wrong_guess_of (run_in walk.now.checked) walk.now.lane 0
        (map (ask_of walk.now.checked.plan.now walk.now.checked.contexts.now) calls.now)
        guesses.now) }
{
    let mut next = 0;
    'calls: for call in calls {
        let passed = pass_call(alloc, walk, cursors, call)?;
        if is_opening(walk.checked.contexts, call) {
            if next >= guesses.len() {
                return Ok(None);
            }
            let told = guesses[next];
            if !is_right(told.guess, passed.least, &passed.numbers) {
                return Ok(Some(told.number));
            }
            next += 1;
        }
    }
    Ok(None)
}

// The same from the start of the journals.
fn wrong_guess(alloc: Global, walk: &Walk, guesses: &[GuessLine]) -> Result<Option<u32>, AllocError>
    requires run { IsRun walk.now.checked }
    requires there { walk.now.lane < length walk.now.checked.plan.now.lanes }
    ensures { IfOk result (λ wrong. wrong
        ≡ wrong_guess_of (run_in walk.now.checked) walk.now.lane 0
        (map (ask_of walk.now.checked.plan.now walk.now.checked.contexts.now)
        (calls_of walk.now)) guesses.now) }
{
    let mut cursors = walk.start(alloc)?;
    judge_calls(alloc, walk, &mut cursors, walk.calls(), guesses)
}

/// The line of the first guess of all lanes that isn't right.
pub(crate) fn wrong_guesses(alloc: Global, checked: &CheckedRun) -> Result<Option<u32>, AllocError>
    requires { IsRun checked.now }
    ensures { IfOk result (λ wrong. wrong
        ≡ wrong_guesses_of (run_in checked.now) 0 checked.now.guesses.now) }
{
    'lanes: for (lane, guesses) in checked.guesses.iter().enumerate() {
        let walk = Walk {
            checked: *checked,
            lane: lane as u32,
        };
        let wrong = wrong_guess(alloc, &walk, guesses.as_slice())?;
        if wrong.is_some() {
            return Ok(wrong);
        }
    }
    Ok(None)
}
