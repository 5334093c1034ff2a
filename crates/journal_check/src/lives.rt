//! Which names are live, note by note.

ghost use Rattle.std.specs.Prelude.{◌≡◌, ◌<◌, false, length, slice_get, IfOk};
ghost use Rattle.std.specs.List.{All, list_all, range_with_len};
ghost use Rattle.context_books.specs.LiveChecks.{is_same_truth, tells_live_at};
ghost use Rattle.journal_check.specs.Lives.{name_of, changed};

use call_places::{Act, Entry, Step};
use std::alloc::{AllocError, Global};

// The name of a note.
fn name_in(entry: &Entry) -> u32
    ensures { result ≡ name_of entry.now.step }
{
    match entry.step {
        Step::Note { name, .. } => name,
        Step::Sealed | Step::SealLimit | Step::Opened | Step::Failed | Step::OpenLimit => 0,
    }
}

// A number above the names of all notes.
fn above_names(notes: &[Entry]) -> usize
    ensures { All (λ e. name_of e.step < result) notes.now }
{
    let mut above = 0usize;
    'notes: for entry in notes {
        let name = name_in(entry) as usize;
        if name >= above {
            above = name + 1;
        }
    }
    above
}

// What a note does to the names that are live.
fn change(lives: &mut [bool], name: usize, act: Act)
    requires { name < length lives.old }
    ensures { lives.new ≡ changed lives.old name act }
{
    match act {
        Act::Add => lives[name] = true,
        Act::Retire => lives[name] = false,
        Act::Look => {}
    }
}

fn is_same(told: bool, live: bool) -> bool
    ensures { result ≡ is_same_truth told live }
{
    if told { live } else { !live }
}

// The same with a bit for each name, none of which is live at first.
fn tell_lives_in(lives: &mut [bool], notes: &[Entry]) -> bool
    requires none { All (λ live. live ≡ false) lives.old }
    requires names { All (λ e. name_of e.step < length lives.old) notes.now }
    ensures { result ≡ list_all (λ i. tells_live_at notes.now i (slice_get notes.now i))
        (range_with_len 0 (length notes.now)) }
{
    'notes: for entry in notes {
        let Step::Note { name, act, live } = entry.step else {
            return false;
        };
        let at = name as usize;
        if !is_same(live, lives[at]) {
            return false;
        }
        change(lives, at, act);
    }
    true
}

/// Whether each entry is a note, and tells whether its name was live after the notes before it.
pub(crate) fn tell_lives(alloc: Global, notes: &[Entry]) -> Result<bool, AllocError>
    ensures { IfOk result (λ good. good
        ≡ list_all (λ i. tells_live_at notes.now i (slice_get notes.now i))
        (range_with_len 0 (length notes.now))) }
{
    let mut lives = vec![in alloc; false; above_names(notes)]?;
    Ok(tell_lives_in(&mut lives, notes))
}
