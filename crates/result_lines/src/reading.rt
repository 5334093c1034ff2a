//! A whole result.

ghost use Rattle.std.specs.Prelude.{◌≡◌, ◌≤◌, ℕ, List, length};
ghost use Rattle.batch_plans.specs.Limits.{most_input};
ghost use Rattle.batch_plans.specs.ReplyText.{numbered, has_stamps};
ghost use Rattle.batch_plans.specs.Lines.{key_line as key_line_of, context_line as context_line_of};
ghost use Rattle.result_lines.specs.Forms.{stamps_for};
ghost use Rattle.result_lines.specs.Readings.{Tells};
ghost use Rattle.result_lines.specs.Told.{with_lines, with_setup, with_lanes, with_journals};
ghost use Rattle.result_lines.specs.Told.{nothing_yet, told_by};

use crate::stamps::Stamps;
use crate::stop::Stop;
use crate::told::Told;
use batch_plans::{CallLine, ContextLine, ContextReply, KeyReply, PlainList, Plan};
use hpke_context::Context;
use reply_frames::LinePrinter;
use std::alloc::Global;

// The lines of the keys.
fn read_keys(told: &mut Told, alloc: Global, keys: &[KeyReply]) -> Result<(), Stop>
    ensures { Tells (λ _. told.new) result (with_lines (numbered key_line_of 0 keys.now) told.old) }
{
    let mut lines = LinePrinter::new(alloc);
    'keys: for (number, reply) in keys.iter().enumerate() {
        let line = lines.key_line(number as u64, reply)?;
        told.expect(&line)?;
    }
    Ok(())
}

// The lines of the contexts.
fn read_contexts(told: &mut Told, alloc: Global, replies: &[ContextReply]) -> Result<(), Stop>
    ensures { Tells (λ _. told.new) result
        (with_lines (numbered context_line_of 0 replies.now) told.old) }
{
    let mut lines = LinePrinter::new(alloc);
    'contexts: for (number, reply) in replies.iter().enumerate() {
        let line = lines.context_line(number as u64, reply)?;
        told.expect(&line)?;
    }
    Ok(())
}

/// The lines of the set-up.
#[tactic(auto, unfolding(crate::specs::Told::with_setup))]
pub(crate) fn read_setup(
    told: &mut Told,
    alloc: Global,
    version: u8,
    keys: &[KeyReply],
    replies: &[ContextReply],
) -> Result<(), Stop>
    ensures { Tells (λ _. told.new) result (with_setup version keys.now replies.now told.old) }
{
    told.expect_numbered(alloc, b"hpkebatch ", version as u64)?;
    read_keys(told, alloc, keys)?;
    read_contexts(told, alloc, replies)
}

/// The lanes.
pub(crate) fn read_lanes(
    told: &mut Told,
    alloc: Global,
    contexts: &[Option<Context>],
    lanes: &[PlainList<CallLine>],
) -> Result<(), Stop>
    ensures { Tells (λ _. told.new) result (with_lanes contexts.now 0 lanes.now told.old) }
{
    'lanes: for (number, calls) in lanes.iter().enumerate() {
        told.lane(alloc, contexts, number as u64, calls.as_slice())?;
    }
    Ok(())
}

/// The journals, one for each of these contexts.
pub(crate) fn read_journals(
    told: &mut Told,
    alloc: Global,
    stamps: Stamps,
    lines: &[ContextLine],
) -> Result<(), Stop>
    ensures { Tells (λ _. told.new) result (with_journals stamps 0 lines.now told.old) }
{
    'journals: for (number, _line) in lines.iter().enumerate() {
        told.journal(alloc, stamps, number as u64)?;
    }
    Ok(())
}

// The stamps that a version prints.
fn stamps_of(version: u8) -> Stamps
    ensures { result ≡ stamps_for (has_stamps version) }
{
    if version == 2 {
        Stamps::Places
    } else {
        Stamps::Unprinted
    }
}

/// What the set-up of a plan gave: the replies to its key lines and to its contexts, and the contexts
/// that stand.
#[derive(Clone, Copy)]
pub(crate) struct SetUp<'a> {
    pub(crate) keys: &'a [KeyReply],
    pub(crate) replies: &'a [ContextReply],
    pub(crate) contexts: &'a [Option<Context>],
}

// All lines of a text of which nothing is read yet.
#[tactic(auto, unfolding(crate::specs::Told::told_by))]
fn read_lines(told: &mut Told, alloc: Global, plan: &Plan, set_up: &SetUp) -> Result<(), Stop>
    ensures { (text : List ℕ) → told.old ≡ nothing_yet text → Tells (λ _. told.new) result
        (told_by plan.now set_up.now.keys.now set_up.now.replies.now set_up.now.contexts.now text) }
{
    read_setup(told, alloc, plan.version, set_up.keys, set_up.replies)?;
    read_lanes(told, alloc, set_up.contexts, plan.lanes.as_slice())?;
    read_journals(
        told,
        alloc,
        stamps_of(plan.version),
        plan.contexts.as_slice(),
    )?;
    told.end()
}

/// What a text tells as a result of the plan, where these are the replies to its key lines and its
/// context lines, and the contexts that stand.
///
/// The text is read once. [`Stop::Wrong`] has the number of the first line that is missing, has no
/// line feed or another form, or stands behind the line `end`.
pub fn read_result<'a>(
    alloc: Global,
    plan: &Plan,
    keys: &[KeyReply],
    replies: &[ContextReply],
    contexts: &[Option<Context>],
    text: &'a [u8],
) -> Result<Told<'a>, Stop>
    requires { length text.now ≤ most_input }
    ensures { Tells (λ told. told) result
        (told_by plan.now keys.now replies.now contexts.now text.now) }
{
    let set_up = SetUp {
        keys,
        replies,
        contexts,
    };
    let mut told = Told::nothing_yet(alloc, text);
    read_lines(&mut told, alloc, plan, &set_up)?;
    Ok(told)
}
