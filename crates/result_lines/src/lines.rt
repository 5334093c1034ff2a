//! The lines of a text that are still to be read.

ghost use Rattle.std.specs.Prelude.{◌≡◌, ◌≤◌, ◌+◌, ◌<◌, Some, None, IfSome, IfNone, IfOk, length, take};
ghost use Rattle.std.specs.Str.{bytes_eq};
ghost use Rattle.batch_plans.specs.Limits.{most_input};
ghost use Rattle.result_lines.specs.Places.{all_of, next_line, with_feed, line_due, guess_from};
ghost use Rattle.result_lines.specs.Places.{marks_of, ended};
ghost use Rattle.result_lines.specs.Readings.{mark_at, Tells};

use crate::forms::{read_guess, read_mark};
use crate::stamps::Stamps;
use crate::stop::Stop;
use batch_plans::{Batch, PlainList};
use call_places::Mark;
use field_text::cut_at;
use std::alloc::{AllocError, Global};
use std::marker::Model;

/// The lines of a text from one line on. A contract sees the number of that line, and the parts of
/// the text between its line feeds.
#[derive(Drop)]
pub struct Lines<'a> {
    rest: &'a [u8],
    number: u32,
}

impl<'a> Model for Lines<'a> {
    ghost use Rattle.std.specs.Prelude.{◌≤◌, ◌+◌, length};
    ghost use Rattle.batch_plans.specs.Limits.{most_input};
    ghost use Rattle.field_text.specs.Cuts.{lines_of};
    ghost use Rattle.result_lines.specs.Places.{LinesView};

    ghost Value = { LinesView };

    ghost view = { λ l. record { number = l.number; parts = lines_of l.rest.now } };

    ghost invariant = { λ l. l.number + length l.rest.now ≤ most_input + 1 };
}

/// The lines of a journal. A contract sees the places that they spell, which are read where they are
/// needed.
#[derive(Drop)]
pub struct JournalLines<'a> {
    lines: Lines<'a>,
    stamps: Stamps,
}

impl<'a> Model for JournalLines<'a> {
    ghost use Rattle.std.specs.Prelude.{List};
    ghost use Rattle.call_places.specs.declared.entries.Mark.{Mark};
    ghost use Rattle.result_lines.specs.Places.{marks_of};

    ghost Value = { List Mark };

    ghost view = { λ j. (marks_of j.stamps j.lines).marks };
}

impl JournalLines<'_> {
    ghost use Rattle.std.specs.Prelude.{◌≡◌, take, IfOk};

    /// The first places, so many or all.
    pub fn first(&self, alloc: Global, most: usize) -> Result<PlainList<Mark>, AllocError>
        ensures { IfOk result (λ marks. marks ≡ take most self.now) }
    {
        let mut lines = self.lines.again();
        let marks = lines.first_marks(alloc, self.stamps, most)?;
        Ok(PlainList::from_vec(marks))
    }
}

/// Whether a line is this one, which is given with its line feed.
pub fn is_line(line: &[u8], due: &[u8]) -> bool
    ensures { result ≡ bytes_eq (with_feed line.now) due.now }
{
    match due.strip_suffix(b"\n".as_slice()) {
        Some(body) => body == line,
        None => false,
    }
}

impl<'a> Lines<'a> {
    /// All lines of a text.
    pub fn of(text: &'a [u8]) -> Lines<'a>
        requires { length text.now ≤ most_input }
        ensures { result ≡ all_of text.now }
    {
        Lines {
            rest: text,
            number: 1,
        }
    }

    /// The number of the next line.
    pub fn number(&self) -> u32
        ensures { result ≡ self.now.number }
    {
        self.number
    }

    /// The next line, without its line feed.
    pub fn line(&mut self) -> Result<&'a [u8], Stop>
        ensures { Tells (λ line. (line.now, self.new)) result (next_line self.old) }
    {
        match cut_at(self.rest, b'\n') {
            Some((line, rest)) => {
                self.rest = rest;
                self.number += 1;
                Ok(line)
            }
            None => Err(Stop::Wrong(self.number)),
        }
    }

    /// Takes the next line, which has to be this one; it is given with its line feed.
    #[tactic(auto, unfolding(crate::specs::Places::line_due))]
    pub fn expect(&mut self, due: &[u8]) -> Result<(), Stop>
        ensures { Tells (λ _. self.new) result (line_due due.now self.old) }
    {
        let number = self.number;
        let line = self.line()?;
        if is_line(line, due) {
            Ok(())
        } else {
            Err(Stop::Wrong(number))
        }
    }

    /// The next line as `batch G M`.
    #[tactic(auto, unfolding(crate::specs::Places::guess_from))]
    pub fn guess(&mut self) -> Result<Batch, Stop>
        ensures { Tells (λ guess. (guess, self.new)) result (guess_from self.old) }
    {
        let number = self.number;
        let line = self.line()?;
        read_guess(line).map_err(|_| Stop::Wrong(number))
    }

    // The next line as a place of a journal. Another line is left.
    fn mark(&mut self, stamps: Stamps) -> Option<Mark>
        ensures none { IfNone result ((mark_at stamps self.old ≡ None) × (self.new ≡ self.old)) }
        ensures some { IfSome result (λ mark.
            mark_at stamps self.old ≡ Some (mark, self.new)) }
    {
        let (line, rest) = cut_at(self.rest, b'\n')?;
        let Ok(mark) = read_mark(line, stamps) else {
            return None;
        };
        self.rest = rest;
        self.number += 1;
        Some(mark)
    }

    // The same lines, to be read another time.
    fn again(&self) -> Lines<'a>
        ensures { result ≡ self.now }
    {
        Lines {
            rest: self.rest,
            number: self.number,
        }
    }

    // Passes the places of a journal: as many lines as have their form.
    fn pass_marks(&mut self, stamps: Stamps)
        ensures { self.new ≡ (marks_of stamps self.old).lines }
    {
        'marks: while let Some(_mark) = self.mark(stamps) {}
    }

    /// The places of a journal, of which none is kept: as many lines as have their form.
    pub fn marks(&mut self, stamps: Stamps) -> JournalLines<'a>
        ensures journal { result ≡ (marks_of stamps self.old).marks }
        ensures lines { self.new ≡ (marks_of stamps self.old).lines }
    {
        let lines = self.again();
        self.pass_marks(stamps);
        JournalLines { lines, stamps }
    }

    // The first places of a journal, so many or all.
    fn first_marks(
        &mut self,
        alloc: Global,
        stamps: Stamps,
        most: usize,
    ) -> Result<Vec<Mark>, AllocError>
        ensures { IfOk result (λ marks. marks.items ≡ take most (marks_of stamps self.old).marks) }
    {
        let mut marks = Vec::new(alloc);
        'marks: for _mark in 0..most {
            match self.mark(stamps) {
                Some(mark) => marks.push(mark)?,
                None => return Ok(marks),
            }
        }
        Ok(marks)
    }

    /// Whether nothing is left.
    pub fn end(&self) -> Result<(), Stop>
        ensures { Tells (λ _. self.now.number) result (ended self.now) }
    {
        if self.rest.is_empty() {
            Ok(())
        } else {
            Err(Stop::Wrong(self.number))
        }
    }
}
