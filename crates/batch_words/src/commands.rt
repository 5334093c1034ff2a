//! What the words can ask for.

use crate::schedules::Schedule;

/// What the words ask for.
#[derive(Debug, Drop)]
pub enum Command {
    /// `run`: read a batch and answer it, with so many workers, from 1 to 16.
    Run {
        workers: u32,
        mult: Mult,
    },
    /// `live`: read a batch whose lanes add and retire contexts and answer it, with so many workers, from
    /// 1 to 16.
    Live {
        workers: u32,
        mult: Mult,
    },
    /// `rehearse`: read a batch and answer it in the order of a schedule, on one thread but for the
    /// tests of tags.
    Rehearse {
        schedule: Schedule,
    },
    /// `demo`: seal so many messages, from 1 to 65,536, in so many lanes, from 1 to 16, by keys of a
    /// seed, and open them again. Nothing is read.
    Demo {
        seed: u64,
        messages: u32,
        lanes: u32,
    },
    /// `check`: read a batch and a result, and judge the result.
    Check {
        mult: Mult,
    },
    /// `check --live`: the same of a batch whose lanes add and retire contexts.
    CheckLive {
        mult: Mult,
    },
    /// `capsules`: read keys and messages of RFC 9458, and answer them.
    Capsules {
        mult: Mult,
    },
}

/// The multiplier of the ring's polynomials. All of them give the same products; [`Mult::Lanes`] is
/// the usual one.
#[derive(Clone, Copy, Debug, PartialEq, Eq)]
pub enum Mult {
    /// Coefficient by coefficient, with a branch for each: not where time can be watched.
    Plain,
    /// By splitting at the half.
    Karatsuba,
    /// Several coefficients at a time.
    Lanes,
}
