//! A lane whose calls add and retire contexts.

ghost use Rattle.std.specs.Prelude.{◌≡◌, [], ◌++◌, Some, length, replicate};
ghost use Rattle.batch_plans.specs.Room.{blank_batch};
ghost use Rattle.batch_plans.specs.declared.replies.Reply.TheVariants.{Blank};
ghost use Rattle.lane_workers.specs.LiveLanes.{LiveView, AreSharedLive};
ghost use Rattle.lane_workers.specs.LiveReturned.{IsGivenLive, IsFreshLive, IsDoneLive, MayReturnLive};

use crate::works::LaneWork;
use batch_plans::{Batch, LaneProgress, Reply};
use turn_lock::Pass;

/// A lane with its pass of the table of names.
#[derive(Drop)]
pub struct LiveLane {
    pub(crate) work: LaneWork,
    pub(crate) pass: Option<Pass>,
}

// Puts a blank for each reply and each guess that the lane had room for and doesn't need.
fn put_blanks(progress: &mut LaneProgress)
    ensures { progress.new ≡ record progress.old {
      replies = progress.old.replies ++ replicate progress.old.left Blank;
      left = 0;
      batches = progress.old.batches ++ replicate progress.old.batches_left blank_batch;
      batches_left = 0;
    } }
{
    'replies: for _ in 0..progress.left() {
        progress.put(Reply::Blank);
    }
    'guesses: for _ in 0..progress.batches_left() {
        progress.put_batch(Batch {
            guess: 0,
            missed: 0,
        });
    }
}

impl LiveLane {
    /// The lane with its pass of the table, before its first call.
    pub fn new(work: LaneWork, pass: Pass) -> LiveLane
        ensures lane { result.work ≡ work }
        ensures fresh { (v : LiveView) → IsGivenLive v work pass → IsFreshLive v result }
    {
        LiveLane {
            work,
            pass: Some(pass),
        }
    }

    /// What the lane gives back, once it was served: itself without its pass of the table, and that.
    ///
    /// Where a call didn't find its context the lane has replies and guesses left over: they stay
    /// blank, behind all others.
    pub fn finish(self) -> (LaneWork, Pass)
        requires { (v : LiveView) × IsDoneLive v self }
        ensures { (v : LiveView) → AreSharedLive v → IsDoneLive v self
            → MayReturnLive v self.work.lane result.0 result.1 }
    {
        let LiveLane {
            mut work,
            pass: Some(pass),
        } = self
        else {
            unreachable!()
        };
        put_blanks(&mut work.progress);
        (work, pass)
    }
}
