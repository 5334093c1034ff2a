//! Contexts that lanes add and retire while they are served.

ghost use Rattle.std.specs.Prelude.{◌≡◌, ◌≤◌, length, map, IfOk};
ghost use Rattle.batch_plans.specs.Limits.{most_contexts};
ghost use Rattle.batch_plans.specs.Names.{position, at_position, all_live};

use crate::plan::{CallLine, LaneLines, Plan};
use byte_strings::PlainList;
use std::alloc::{AllocError, Global};

/// CTX of a context line is below this number, and a call names the context of `add` line K by it
/// plus K.
pub const FIRST_NAME: u32 = 65_536;

impl Plan {
    /// Where the context that a call names stands among the plan's contexts: that of a context line
    /// at its number, that of an `add` line behind all context lines. Where there is none the answer
    /// is no number of a context.
    pub fn position(&self, number: u32) -> u32
        requires contexts { length self.now.contexts ≤ most_contexts }
        requires added { self.now.added ≤ length self.now.contexts }
        ensures { result ≡ position self.now number }
    {
        let lines = self.contexts.as_slice().len() as u32 - self.added;
        if number < lines {
            number
        } else if number < FIRST_NAME {
            number + self.added
        } else {
            lines + (number - FIRST_NAME)
        }
    }

    /// The call, with the place of its context as CTX.
    pub fn at_position(&self, call: &CallLine) -> CallLine
        requires contexts { length self.now.contexts ≤ most_contexts }
        requires added { self.now.added ≤ length self.now.contexts }
        ensures { result ≡ at_position self.now call.now }
    {
        match *call {
            CallLine::Seal { context, item } => CallLine::Seal {
                context: self.position(context),
                item,
            },
            CallLine::Unseal { context, item } => CallLine::Unseal {
                context: self.position(context),
                item,
            },
            CallLine::UnsealAll {
                context,
                first,
                count,
            } => CallLine::UnsealAll {
                context: self.position(context),
                first,
                count,
            },
            CallLine::Export {
                context,
                exporter,
                size,
            } => CallLine::Export {
                context: self.position(context),
                exporter,
                size,
            },
            _ => *call,
        }
    }

    // The calls of a lane, each with the place of its context.
    fn lane_at_positions(
        &self,
        alloc: Global,
        calls: &[CallLine],
    ) -> Result<PlainList<CallLine>, AllocError>
        requires contexts { length self.now.contexts ≤ most_contexts }
        requires added { self.now.added ≤ length self.now.contexts }
        ensures { IfOk result (λ placed. placed ≡ map (at_position self.now) calls.now) }
    {
        let mut placed = Vec::with_capacity(alloc, calls.len())?;
        'calls: for call in calls {
            placed.push(self.at_position(call))?;
        }
        Ok(PlainList::from_vec(placed))
    }

    /// The lanes where each context that is named may be called: each call with the place of its
    /// context.
    pub fn lanes_at_positions(&self, alloc: Global) -> Result<LaneLines, AllocError>
        requires contexts { length self.now.contexts ≤ most_contexts }
        requires added { self.now.added ≤ length self.now.contexts }
        ensures { IfOk result (λ lanes. lanes ≡ (all_live self.now).lanes) }
    {
        let mut lanes = Vec::new(alloc);
        'lanes: for calls in self.lanes.as_slice() {
            lanes.push(self.lane_at_positions(alloc, calls.as_slice())?)?;
        }
        Ok(PlainList::from_vec(lanes))
    }
}
