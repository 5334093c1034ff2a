//! What a result tells.

ghost use Rattle.std.specs.Prelude.{◌≡◌, ◌≤◌, ◌++◌, ◌∷◌, [], codes, decimal, length, OnOk, IfErr};
ghost use Rattle.result_lines.specs.declared.stop.Stop.TheVariants.{OutOfMemory};
ghost use Rattle.result_lines.specs.Readings.{Tells};
ghost use Rattle.result_lines.specs.Told.{nothing_yet, with_line, with_reply, with_replies};
ghost use Rattle.result_lines.specs.Told.{with_guess, with_served, with_call, with_calls};
ghost use Rattle.result_lines.specs.Told.{lane_ended, with_lane, with_journal, with_end};
ghost use Rattle.result_lines.specs.ToldLive.{with_added_journal};
ghost use Rattle.batch_plans.specs.Limits.{most_input};

use crate::lines::{JournalLines, Lines};
use crate::replies::Replies;
use crate::stamps::Stamps;
use crate::stop::Stop;
use batch_plans::{Batch, CallLine, PlainList};
use context_books::refusal_of;
use hpke_context::Context;
use reply_frames::LinePrinter;
use std::alloc::Global;
use std::marker::Model;
use std::mem;

/// A line that is a reply to a call or to an item of one, without its line feed.
#[derive(Clone, Copy)]
pub struct ReplyLine<'a> {
    /// The number of the line, from 1.
    pub number: u32,
    pub line: &'a [u8],
}

/// A line that tells what an opening of several messages guessed.
#[derive(Clone, Copy, Debug, PartialEq, Eq)]
pub struct GuessLine {
    /// The number of the line, from 1.
    pub number: u32,
    pub guess: Batch,
}

/// What the lines of a result tell that were read, and the lines to come.
#[derive(Drop)]
pub struct Told<'a> {
    lines: Lines<'a>,
    /// The replies to all calls, in their order.
    replies: Vec<ReplyLine<'a>>,
    /// The guesses of each lane that was read.
    lanes: Vec<PlainList<GuessLine>>,
    /// The guesses of the lane that is being read.
    guesses: Vec<GuessLine>,
    /// The journal of each context.
    journals: Vec<JournalLines<'a>>,
}

impl<'a> Model for Told<'a> {
    ghost use Rattle.std.specs.Prelude.{map};
    ghost use Rattle.result_lines.specs.Told.{ToldView};

    ghost Value = { ToldView };

    ghost view = { λ t. record {
      lines = t.lines;
      replies = map (λ reply. record { number = reply.number; line = reply.line.now })
          t.replies.items;
      lanes = t.lanes.items;
      guesses = t.guesses.items;
      journals = t.journals.items;
    } };
}

// Puts one more behind others.
fn push<T: Drop>(list: &mut Vec<T>, last: T) -> Result<(), Stop>
    ensures pushed { OnOk result (list.new.items ≡ list.old.items ++ last ∷ []) }
    ensures stop { IfErr result (λ stop. stop ≡ OutOfMemory) }
{
    Ok(list.push(last)?)
}

impl<'a> Told<'a> {
    /// Nothing is read of a text.
    pub fn nothing_yet(alloc: Global, text: &'a [u8]) -> Told<'a>
        requires { length text.now ≤ most_input }
        ensures { result ≡ nothing_yet text.now }
    {
        Told {
            lines: Lines::of(text),
            replies: Vec::new(alloc),
            lanes: Vec::new(alloc),
            guesses: Vec::new(alloc),
            journals: Vec::new(alloc),
        }
    }

    /// The replies to all calls, in their order.
    pub fn replies(&self) -> Replies<'_>
        ensures { result ≡ self.now.replies }
    {
        Replies::of(&self.replies)
    }

    /// The guesses of each lane.
    pub fn lanes(&self) -> &[PlainList<GuessLine>]
        ensures { result.now ≡ self.now.lanes }
    {
        &self.lanes
    }

    /// The journal of each context.
    pub fn journals(&self) -> &[JournalLines<'a>]
        ensures { result.now ≡ self.now.journals }
    {
        &self.journals
    }

    /// The next line has to be this one.
    #[tactic(auto, unfolding(crate::specs::Told::with_line))]
    pub fn expect(&mut self, due: &[u8]) -> Result<(), Stop>
        ensures { Tells (λ _. self.new) result (with_line due.now self.old) }
    {
        self.lines.expect(due)
    }

    /// The next line has to be a word and a number.
    pub fn expect_numbered(&mut self, alloc: Global, word: &[u8], number: u64) -> Result<(), Stop>
        ensures { Tells (λ _. self.new) result
            (with_line (word.now ++ decimal number ++ codes "\n") self.old) }
    {
        let line = LinePrinter::new(alloc).numbered_line(word, number)?;
        self.expect(&line)
    }

    // A reply.
    #[tactic(auto, unfolding(crate::specs::Told::with_reply))]
    fn reply(&mut self) -> Result<(), Stop>
        ensures { Tells (λ _. self.new) result (with_reply self.old) }
    {
        let number = self.lines.number();
        let line = self.lines.line()?;
        push(&mut self.replies, ReplyLine { number, line })
    }

    // So many replies.
    fn all_replies(&mut self, count: u32) -> Result<(), Stop>
        ensures { Tells (λ _. self.new) result (with_replies count self.old) }
    {
        'replies: for _reply in 0..count {
            self.reply()?;
        }
        Ok(())
    }

    // What an opening of several messages guessed.
    #[tactic(auto, unfolding(crate::specs::Told::with_guess))]
    fn guess(&mut self) -> Result<(), Stop>
        ensures { Tells (λ _. self.new) result (with_guess self.old) }
    {
        let number = self.lines.number();
        let guess = self.lines.guess()?;
        push(&mut self.guesses, GuessLine { number, guess })
    }

    // The lines of a call that is served.
    fn served(&mut self, call: &CallLine) -> Result<(), Stop>
        ensures { Tells (λ _. self.new) result (with_served call.now self.old) }
    {
        match *call {
            CallLine::Seal { .. }
            | CallLine::Unseal { .. }
            | CallLine::Export { .. }
            | CallLine::Add { .. }
            | CallLine::Retire { .. } => self.reply(),
            CallLine::UnsealAll { count, .. } => {
                self.all_replies(count)?;
                self.guess()
            }
        }
    }

    // The lines of a call.
    fn call(&mut self, contexts: &[Option<Context>], call: &CallLine) -> Result<(), Stop>
        ensures { Tells (λ _. self.new) result (with_call contexts.now call.now self.old) }
    {
        match refusal_of(contexts, call) {
            None => self.served(call),
            Some(_) => self.reply(),
        }
    }

    // Those of all calls of a lane.
    fn calls(&mut self, contexts: &[Option<Context>], calls: &[CallLine]) -> Result<(), Stop>
        ensures { Tells (λ _. self.new) result (with_calls contexts.now calls.now self.old) }
    {
        'calls: for call in calls {
            self.call(contexts, call)?;
        }
        Ok(())
    }

    // The lane that was read is behind the others.
    fn end_lane(&mut self, alloc: Global) -> Result<(), Stop>
        ensures { Tells (λ _. self.new) result (lane_ended self.old) }
    {
        let guesses = mem::replace(&mut self.guesses, Vec::new(alloc));
        push(&mut self.lanes, PlainList::from_vec(guesses))
    }

    /// `lane L`, and the lines of its calls.
    #[tactic(auto, unfolding(crate::specs::Told::with_lane))]
    pub fn lane(
        &mut self,
        alloc: Global,
        contexts: &[Option<Context>],
        number: u64,
        calls: &[CallLine],
    ) -> Result<(), Stop>
        ensures { Tells (λ _. self.new) result (with_lane contexts.now number calls.now self.old) }
    {
        self.expect_numbered(alloc, b"lane ", number)?;
        self.calls(contexts, calls)?;
        self.end_lane(alloc)
    }

    /// `journal C`, and its places.
    #[tactic(auto, unfolding(crate::specs::Told::with_journal))]
    pub fn journal(&mut self, alloc: Global, stamps: Stamps, number: u64) -> Result<(), Stop>
        ensures { Tells (λ _. self.new) result (with_journal stamps number self.old) }
    {
        self.expect_numbered(alloc, b"journal ", number)?;
        let marks = self.lines.marks(stamps);
        push(&mut self.journals, marks)
    }

    /// `journal +K`, and its places.
    #[tactic(auto, unfolding(crate::specs::ToldLive::with_added_journal))]
    pub fn added_journal(&mut self, alloc: Global, name: u64) -> Result<(), Stop>
        ensures { Tells (λ _. self.new) result (with_added_journal name self.old) }
    {
        self.expect_numbered(alloc, b"journal +", name)?;
        let marks = self.lines.marks(Stamps::PlacesAndNotes);
        push(&mut self.journals, marks)
    }

    /// The line `end`, and nothing behind it.
    #[tactic(auto, unfolding(crate::specs::Told::with_end))]
    pub fn end(&mut self) -> Result<(), Stop>
        ensures { Tells (λ _. self.new) result (with_end self.old) }
    {
        self.expect(b"end\n")?;
        self.lines.end()
    }
}
