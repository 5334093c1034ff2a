//! A large batch that is made from a number, sealed and opened again: `demo`.

ghost use Rattle.std.specs.Prelude.{◌<◌, ◌≤◌, IfOk};
ghost use Rattle.demo_runs.specs.Demo.{IsDemo};
ghost use Rattle.demo_runs.specs.Batches.{IsReady, IsServed};
ghost use Rattle.batch_serving.specs.Effects.{Writes};
ghost use Rattle.batch_serving.specs.Text.{Demonstrates};

use batch_io::Sink;
use batch_serving::{Outcome, tell_demonstration};
use context_core::laws::every_rehearsal_is_allowed;
use context_core::rehearse_by;
use demo_runs::{
    DemoBatch, DemoReport, Sealing, ServedBatch, begin_opening, begin_sealing, ciphertexts, report,
    report_without_key,
};
use speculative_open::Crew;
use std::alloc::{AllocError, Global};

// Serves the lanes of a batch one after another. The crew tests the tags.
fn serve<C: Crew>(crew: &C, alloc: Global, batch: DemoBatch) -> Result<ServedBatch, AllocError>
    requires crew { C.ready crew.now }
    requires batch { IsReady batch }
    ensures { IfOk result (IsServed batch) }
{
    let DemoBatch {
        plan,
        standing,
        mut answers,
    } = batch;
    every_rehearsal_is_allowed();
    rehearse_by(crew, alloc, &plan, standing.as_slice(), &[], &mut answers)?;
    Ok(ServedBatch { plan, answers })
}

// Seals so many messages in so many lanes, and opens them again.
fn demo<C: Crew>(
    crew: &C,
    alloc: Global,
    seed: u64,
    messages: u32,
    lanes: u32,
) -> Result<DemoReport, AllocError>
    requires crew { C.ready crew.now }
    requires messages { messages ≤ 65536 }
    requires lanes { (0 < lanes) × (lanes ≤ 16) }
    ensures report { IfOk result (IsDemo seed messages) }
    ensures opened { IfOk result (λ report. report.opened ≤ report.messages) }
{
    match begin_sealing(alloc, seed, messages, lanes)? {
        Some(Sealing { batch, room }) => {
            let cts = ciphertexts(serve(crew, alloc, batch)?, room);
            let opening = begin_opening(alloc, seed, &cts)?;
            Ok(report(messages, serve(crew, alloc, opening)?, &cts))
        }
        None => Ok(report_without_key(messages)),
    }
}

/// Seals so many messages in so many lanes, opens them again, and writes the report.
pub(crate) fn demonstrate<C: Crew, K: Sink>(
    crew: &C,
    alloc: Global,
    seed: u64,
    messages: u32,
    lanes: u32,
    sink: &mut K,
) -> Outcome
    requires crew { C.ready crew.now }
    requires messages { (0 < messages) × (messages ≤ 65536) }
    requires lanes { (0 < lanes) × (lanes ≤ 16) }
    ensures { Writes K.written K.faults sink.old sink.new (Demonstrates seed messages) result }
{
    tell_demonstration(demo(crew, alloc, seed, messages, lanes), sink)
}
