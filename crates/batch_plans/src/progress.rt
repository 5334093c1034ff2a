//! The answers of a lane while its calls are answered.

ghost use Rattle.std.specs.Prelude.{◌≡◌, ◌≤◌, ◌<◌, ◌+◌, ◌^◌, length};
ghost use Rattle.std.specs.Borrow.{sem};
ghost use Rattle.batch_plans.specs.Replies.{IsInRange, IsPrintable};

use crate::replies::{Batch, LaneAnswers, Reply};
use byte_strings::PlainList;
use call_places::Span;
use std::marker::Model;

/// The answers of a lane while its calls are answered in their order.
///
/// A reply with bytes first takes room for them, which lies behind the room of the replies before
/// it; the bytes are written to that part of the pool, and then the reply is put behind those
/// before it. The span of a reply that was put lies in the room that was taken by then, so what is
/// written to room that is taken later changes no earlier reply. Guesses stand in a list of their
/// own.
///
/// A contract sees the pool, how much of it is taken, the replies and the guesses that were put,
/// and how many of each are still to come. Nothing here takes memory.
#[derive(Drop)]
pub struct LaneProgress {
    pool: Vec<u8>,
    taken: usize,
    replies: Vec<Reply>,
    replied: usize,
    batches: Vec<Batch>,
    guessed: usize,
}

impl Model for LaneProgress {
    ghost use Rattle.batch_plans.specs.Progress.{Progress};

    ghost Value = { Progress };

    ghost use Rattle.batch_plans.specs.Filling.{progress_of, IsProgress};

    ghost view = { progress_of };

    ghost invariant = { IsProgress };
}

impl LaneProgress {
    ghost use Rattle.batch_plans.specs.Progress.{begun, with_room, with_reply, with_batch};
    ghost use Rattle.batch_plans.specs.Lending.{LendsPool};

    /// The answers of a lane before its first call.
    pub fn new(answers: LaneAnswers) -> LaneProgress
        requires { length answers.pool < 2 ^ 32 }
        ensures { result ≡ begun answers }
    {
        let LaneAnswers {
            pool,
            replies,
            batches,
        } = answers;
        LaneProgress {
            pool: pool.into_vec(),
            taken: 0,
            replies: replies.into_vec(),
            replied: 0,
            batches: batches.into_vec(),
            guessed: 0,
        }
    }

    /// Takes the next `size` bytes of the pool, and names them.
    pub fn take_room(&mut self, size: usize) -> Span
        requires { self.old.taken + size ≤ length self.old.pool }
        ensures span { result ≡ record { start = self.old.taken; len = size } }
        ensures taken { self.new ≡ with_room self.old size }
    {
        let start = self.taken;
        self.taken += size;
        Span {
            start: start as u32,
            len: size as u32,
        }
    }

    /// The whole pool, for writing.
    pub fn pool(&mut self) -> &mut [u8]
        ensures* writes_back { sem 𝓛 (LendsPool self.entry result) }
        ensures value { result.now ≡ self.old.pool }
    {
        self.pool.as_mut_slice()
    }

    /// How many replies are still to come.
    pub fn left(&self) -> usize
        ensures { result ≡ self.now.left }
    {
        self.replies.len() - self.replied
    }

    /// How many guesses are still to come.
    pub fn batches_left(&self) -> usize
        ensures { result ≡ self.now.batches_left }
    {
        self.batches.len() - self.guessed
    }

    /// Puts the next reply, whose bytes lie in room that was taken.
    pub fn put(&mut self, reply: Reply)
        requires left { 0 < self.old.left }
        requires range { IsInRange self.old.taken reply }
        ensures { self.new ≡ with_reply self.old reply }
    {
        self.replies[self.replied] = reply;
        self.replied += 1;
    }

    /// Puts what the next opening of several messages guessed.
    pub fn put_batch(&mut self, batch: Batch)
        requires { 0 < self.old.batches_left }
        ensures { self.new ≡ with_batch self.old batch }
    {
        self.batches[self.guessed] = batch;
        self.guessed += 1;
    }

    /// The answers, when each reply and each guess was put.
    pub fn finish(self) -> LaneAnswers
        requires replies { self.left ≡ 0 }
        requires batches { self.batches_left ≡ 0 }
        ensures pool { result.pool ≡ self.pool }
        ensures replies { result.replies ≡ self.replies }
        ensures batches { result.batches ≡ self.batches }
        ensures printable { IsPrintable result }
    {
        let LaneProgress {
            pool,
            replies,
            batches,
            ..
        } = self;
        LaneAnswers {
            pool: PlainList::from_vec(pool),
            replies: PlainList::from_vec(replies),
            batches: PlainList::from_vec(batches),
        }
    }
}
