//! A large batch that is made from a number, sealed and opened again: `demo`.

ghost use Rattle.std.specs.Prelude.{◌<◌, ◌≤◌, IfOk};
ghost use Rattle.demo_runs.specs.Demo.{IsDemo};
ghost use Rattle.demo_runs.specs.Batches.{IsReady, IsServed};
ghost use Rattle.batch_serving.specs.Effects.{Writes};
ghost use Rattle.batch_serving.specs.Text.{Demonstrates};

use batch_io::{Gate, Sink};
use batch_serving::{Outcome, tell_demonstration};
use demo_runs::{
    DemoBatch, DemoReport, Sealing, ServedBatch, begin_opening, begin_sealing, ciphertexts, report,
    report_without_key,
};
use shared_runs::run_lanes;
use std::alloc::{AllocError, Global};
use std::sync::Wait;
use std::thread::Threads;

// The workers that `run` has where it is given no number.
const WORKERS: u32 = 4;

// Serves the lanes of a batch as `run` serves them without options.
fn serve<R: Threads + Wait + Sync, G: Gate + Sync>(
    rt: &R,
    alloc: Global,
    batch: DemoBatch,
    gate: &G,
) -> Result<ServedBatch, AllocError>
    requires { IsReady batch }
    ensures { IfOk result (IsServed batch) }
{
    let DemoBatch {
        plan,
        standing,
        answers,
    } = batch;
    let answers = run_lanes(rt, alloc, &plan, standing, answers, WORKERS, gate)?;
    Ok(ServedBatch { plan, answers })
}

// Seals so many messages in so many lanes, and opens them again.
fn demo<R: Threads + Wait + Sync, G: Gate + Sync>(
    rt: &R,
    alloc: Global,
    seed: u64,
    messages: u32,
    lanes: u32,
    gate: &G,
) -> Result<DemoReport, AllocError>
    requires messages { messages ≤ 65536 }
    requires lanes { (0 < lanes) × (lanes ≤ 16) }
    ensures report { IfOk result (IsDemo seed messages) }
    ensures opened { IfOk result (λ report. report.opened ≤ report.messages) }
{
    match begin_sealing(alloc, seed, messages, lanes)? {
        Some(Sealing { batch, room }) => {
            let cts = ciphertexts(serve(rt, alloc, batch, gate)?, room);
            let opening = begin_opening(alloc, seed, &cts)?;
            Ok(report(messages, serve(rt, alloc, opening, gate)?, &cts))
        }
        None => Ok(report_without_key(messages)),
    }
}

/// Seals so many messages in so many lanes, opens them again, and writes the report.
pub(crate) fn demonstrate<R: Threads + Wait + Sync, K: Sink, G: Gate + Sync>(
    rt: &R,
    alloc: Global,
    seed: u64,
    messages: u32,
    lanes: u32,
    sink: &mut K,
    gate: &G,
) -> Outcome
    requires messages { (0 < messages) × (messages ≤ 65536) }
    requires lanes { (0 < lanes) × (lanes ≤ 16) }
    ensures { Writes K.written K.faults sink.old sink.new (Demonstrates seed messages) result }
{
    tell_demonstration(demo(rt, alloc, seed, messages, lanes, gate), sink)
}
