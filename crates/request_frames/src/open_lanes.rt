//! The lanes so far.

ghost use Rattle.std.specs.Prelude.{◌≡◌, ◌+◌, ◌≤◌, ◌++◌, [], ◌∷◌, true, OnOk, IfOk};
ghost use Rattle.field_text.specs.Readings.{Gives, Reads};
ghost use Rattle.batch_plans.specs.Limits.{most_items, most_exported, items_of, size_of};
ghost use Rattle.request_frames.specs.Batch.{add_call};
ghost use Rattle.request_frames.specs.Drafts.{lanes_in, call_more, lane_more, AreCounted};

use batch_plans::limits::{MOST_EXPORTED, MOST_ITEMS, MOST_LANES, MOST_OPENING};
use batch_plans::{CallLine, PlainList, items_of};
use field_text::{Reason, Stop};
use std::alloc::{AllocError, Global};
use std::mem;

/// The lanes so far. The one that is open stands apart from those before it, and the counts of all
/// are kept.
#[derive(Drop)]
pub(crate) struct OpenLanes {
    closed: Vec<PlainList<CallLine>>,
    calls: Vec<CallLine>,
    is_open: bool,
    item_count: usize,
    size_sum: u64,
}

// The LEN of a call.
fn size_of_call(call: &CallLine) -> u32
    ensures { result ≡ size_of call.now }
{
    match *call {
        CallLine::Export { size, .. } => size,
        _ => 0,
    }
}

impl OpenLanes {
    /// No lane.
    pub(crate) fn new(alloc: Global) -> OpenLanes
        ensures lanes { lanes_in result ≡ [] }
        ensures counted { AreCounted result }
        ensures items { result.item_count ≡ 0 }
    {
        OpenLanes {
            closed: Vec::new(alloc),
            calls: Vec::new(alloc),
            is_open: false,
            item_count: 0,
            size_sum: 0,
        }
    }

    /// Whether there is a lane.
    pub(crate) fn is_open(&self) -> bool
        ensures { result ≡ self.now.is_open }
    {
        self.is_open
    }

    // The counts with a call more, where they are within their limits.
    fn counts_with(&self, call: &CallLine) -> Result<(usize, u64), Reason>
        requires { AreCounted self.now }
        ensures read { Reads (λ _. add_call (lanes_in self.now) call.now) result
            (call_more (lanes_in self.now) call.now) }
        ensures items { IfOk result (λ counts. counts.0 ≡ self.now.item_count + items_of call.now) }
        ensures few { IfOk result (λ counts. counts.0 ≤ most_items) }
        ensures sizes { IfOk result (λ counts. counts.1 ≡ self.now.size_sum + size_of call.now) }
        ensures small { IfOk result (λ counts. counts.1 ≤ most_exported) }
    {
        let count = items_of(call) as usize;
        let item_count = self.item_count + count;
        let size_sum = self.size_sum + size_of_call(call) as u64;
        if count > MOST_OPENING || item_count > MOST_ITEMS || size_sum > MOST_EXPORTED as u64 {
            return Err(Reason::Count);
        }
        Ok((item_count, size_sum))
    }

    /// A call of the open lane, where the counts are within their limits with it.
    #[tactic(auto, using(crate::proofs::Lanes::lane_facts))]
    pub(crate) fn push(&mut self, call: CallLine) -> Result<(), Stop>
        requires counted { AreCounted self.old }
        requires open { self.old.is_open ≡ true }
        ensures read { Gives (λ _. lanes_in self.new) result
            (call_more (lanes_in self.old) call) }
        ensures counted { OnOk result (AreCounted self.new) }
        ensures added { OnOk result (self.new.item_count ≡ self.old.item_count + items_of call) }
    {
        let (item_count, size_sum) = self.counts_with(&call)?;
        self.calls.push(call)?;
        self.item_count = item_count;
        self.size_sum = size_sum;
        Ok(())
    }

    // Puts the open lane behind those before it.
    fn close(&mut self, alloc: Global) -> Result<(), AllocError>
        ensures closed { OnOk result
            (self.new.closed.items ≡ self.old.closed.items ++ self.old.calls.items ∷ []) }
        ensures calls { OnOk result (self.new.calls.items ≡ []) }
        ensures open { self.new.is_open ≡ self.old.is_open }
        ensures items { self.new.item_count ≡ self.old.item_count }
        ensures sizes { self.new.size_sum ≡ self.old.size_sum }
    {
        let calls = mem::replace(&mut self.calls, Vec::new(alloc));
        self.closed.push(PlainList::from_vec(calls))?;
        Ok(())
    }

    /// A lane more, which is open then.
    #[tactic(auto, using(crate::proofs::Lanes::lane_facts))]
    pub(crate) fn open(&mut self, alloc: Global) -> Result<(), Stop>
        requires counted { AreCounted self.old }
        ensures read { Gives (λ _. lanes_in self.new) result (lane_more (lanes_in self.old)) }
        ensures counted { OnOk result (AreCounted self.new) }
        ensures items { self.new.item_count ≡ self.old.item_count }
    {
        if !self.is_open {
            self.is_open = true;
            return Ok(());
        }
        if self.closed.len() + 1 >= MOST_LANES {
            return Err(Stop::Bad(Reason::Count));
        }
        self.close(alloc)?;
        Ok(())
    }

    /// All lanes.
    pub(crate) fn finish(mut self, alloc: Global) -> Result<Vec<PlainList<CallLine>>, AllocError>
        requires { AreCounted self }
        ensures { IfOk result (λ lanes. lanes.items ≡ lanes_in self) }
    {
        if self.is_open {
            self.close(alloc)?;
        }
        Ok(self.closed)
    }
}
