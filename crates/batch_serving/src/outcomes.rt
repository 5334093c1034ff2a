//! How a run ends.

ghost use Rattle.std.specs.Prelude.{◌≡◌};
ghost use Rattle.batch_serving.specs.Outcomes.{outcome_on, status_of};

use request_frames::Reason;
use result_lines::Verdict;

/// How a run ends, in the order of the exit statuses.
#[derive(Clone, Copy, Debug, PartialEq, Eq)]
pub enum Outcome {
    /// The whole text was written; for `check`, that the result is legal.
    Done,
    /// The words aren't in the command grammar. Nothing was read or written.
    Usage,
    /// The input isn't in the command's grammar: its first bad line, and that line's first reason,
    /// were written.
    BadBatch { line: u32, reason: Reason },
    /// A read of the source failed. Nothing was written.
    ReadFault,
    /// A write to the sink failed, after a prefix of the text that was due.
    WriteFault,
    /// Memory ran out. Nothing was written.
    OutOfMemory,
    /// A result isn't legal: what is wrong with it was written.
    Broken { verdict: Verdict },
}

/// The exit status of an outcome: 0 for `Done`, 2 for `Usage`, 3 for `BadBatch`, 4 for `ReadFault`,
/// 5 for `WriteFault`, 6 for `OutOfMemory`, 7 for `Broken`.
pub fn status(outcome: &Outcome) -> u8
    ensures { result ≡ status_of outcome.now }
{
    match outcome {
        Outcome::Done => 0,
        Outcome::Usage => 2,
        Outcome::BadBatch { .. } => 3,
        Outcome::ReadFault => 4,
        Outcome::WriteFault => 5,
        Outcome::OutOfMemory => 6,
        Outcome::Broken { .. } => 7,
    }
}

/// How a verdict ends a run: a legal result is `Done`.
pub(crate) fn outcome_on(verdict: Verdict) -> Outcome
    ensures { result ≡ outcome_on verdict }
{
    match verdict {
        Verdict::Legal => Outcome::Done,
        broken => Outcome::Broken { verdict: broken },
    }
}
