//! Journals in which a lane's places are linked.
//!
//! The plain form of a walk looks for a lane's next place by trying one place after another from a
//! cursor on, and so tries each journal once for each lane. Here each place knows where its lane goes
//! on, and the search begins there: it tries one place. `start` answers where, and its clause says
//! that from there on the lane has the same places, so the search finds what the plain one finds;
//! `link_firsts` and `link_next` (proofs/Linked.antt) say so of the links. They are made from the end
//! of a journal to its start, with the first place of each lane: one number a lane and a journal.

ghost use Rattle.std.specs.Prelude.{ℕ, ◌≡◌, ◌≤◌, ◌<◌, ◌+◌, ◌-◌, List, Some, length, drop};
ghost use Rattle.std.specs.Prelude.{slice_get, slice_set, IfOk};
ghost use Rattle.call_places.specs.declared.entries.Mark.{Mark};
ghost use Rattle.context_books.specs.Batches.{own_places};
ghost use Rattle.context_books.specs.Histories.{places};
ghost use Rattle.journal_check.specs.Links.{GoesOnAt, AreFirsts, IsNext, AreLinks};

use batch_plans::PlainList;
use call_places::Mark;
use std::alloc::{AllocError, Global};
use std::marker::Model;

/// A journal that knows where each lane begins, and behind each place where its lane goes on.
#[derive(Drop)]
pub(crate) struct LinkedJournal {
    marks: Vec<Mark>,
    firsts: Vec<usize>,
    nexts: Vec<usize>,
}

impl Model for LinkedJournal {
    ghost Value = { List Rattle.call_places.specs.declared.entries.Mark.Mark };

    ghost view = { λ j. j.marks.items };

    ghost invariant = { λ j. AreLinks j.marks.items j.firsts.items j.nexts.items };
}

// Links the place of this index, of this lane, and answers where the lane goes on behind it.
fn link_place(marks: &[Mark], firsts: &mut [usize], i: usize) -> usize
    requires there { i < length marks.now }
    requires firsts { AreFirsts marks.now (i + 1) firsts.old }
    ensures next { IsNext marks.now i result }
    ensures firsts { AreFirsts marks.now i firsts.new }
{
    let lane = marks[i].place.lane as usize;
    if lane >= firsts.len() {
        return i + 1;
    }
    let next = firsts[lane];
    firsts[lane] = i;
    next
}

// Links all places, from the last to the first.
fn link_places(marks: &[Mark], firsts: &mut [usize], nexts: &mut [usize])
    requires size { length nexts.old ≡ length marks.now }
    requires firsts { AreFirsts marks.now (length marks.now) firsts.old }
    ensures { AreLinks marks.now firsts.new nexts.new }
{
    'marks: for i in (0..marks.len()).rev() {
        nexts[i] = link_place(marks, firsts, i);
    }
}

impl LinkedJournal {
    fn new(alloc: Global, lanes: usize, marks: &[Mark]) -> Result<LinkedJournal, AllocError>
        ensures { IfOk result (λ journal. journal ≡ marks.now) }
    {
        let mut firsts = vec![in alloc; marks.len(); lanes]?;
        let mut nexts = vec![in alloc; marks.len(); marks.len()]?;
        link_places(marks, &mut firsts, &mut nexts);
        Ok(LinkedJournal {
            marks: marks.to_vec(alloc)?,
            firsts,
            nexts,
        })
    }

    /// The places with their stamps, in order.
    pub(crate) fn marks(&self) -> &[Mark]
        ensures { result.now ≡ self.now }
    {
        self.marks.as_slice()
    }

    // Where a lane begins.
    fn first(&self, lane: u32) -> usize
        ensures { GoesOnAt self.now lane 0 result }
    {
        match self.firsts.get(lane as usize) {
            Some(at) => *at,
            None => 0,
        }
    }

    // Where a lane goes on behind the place of this index.
    fn next(&self, lane: u32, i: usize) -> usize
        requires { i < length self.now }
        ensures { GoesOnAt self.now lane (i + 1) result }
    {
        if self.marks[i].place.lane != lane {
            return i + 1;
        }
        match self.nexts.get(i) {
            Some(at) => *at,
            None => i + 1,
        }
    }

    /// Where the search for a lane's next place from this index on begins.
    pub(crate) fn start(&self, lane: u32, from: usize) -> usize
        ensures { GoesOnAt self.now lane from result }
    {
        if from == 0 {
            return self.first(lane);
        }
        if from > self.marks.len() {
            return from;
        }
        self.next(lane, from - 1)
    }
}

/// The journals of so many lanes, linked.
pub(crate) fn linked_journals(
    alloc: Global,
    lanes: usize,
    journals: &[PlainList<Mark>],
) -> Result<Vec<LinkedJournal>, AllocError>
    ensures { IfOk result (λ linked. linked.items ≡ journals.now) }
{
    let mut linked = Vec::new(alloc);
    'journals: for marks in journals {
        linked.push(LinkedJournal::new(alloc, lanes, marks.as_slice())?)?;
    }
    Ok(linked)
}
