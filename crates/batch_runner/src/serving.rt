//! The top call: from the words and the input to the outcome and the text.

ghost use Rattle.std.specs.Prelude.{◌≡◌, ◌↔◌, ◌⊎◌, ◌≤◌, ◌≢◌, ℕ, List, length, map, Some, None};
ghost use Rattle.std.specs.String.{string_bytes};
ghost use Rattle.std.specs.Io.KnownBytes.{Consumes, Appends};
ghost use Rattle.batch_io.specs.Faults.{Rose};
ghost use Rattle.field_text.specs.declared.reasons.Reason.{Reason};
ghost use Rattle.field_text.specs.Printing.{AppendsPrefix};
ghost use Rattle.batch_plans.specs.ReplyText.{bad_text};
ghost use Rattle.result_lines.specs.declared.verdicts.Verdict.{Verdict};
ghost use Rattle.result_lines.specs.VerdictText.{verdict_text};
ghost use Rattle.batch_serving.specs.declared.outcomes.Outcome.{Outcome as Outcome_};
ghost use Rattle.batch_serving.specs.Effects.{Serves, Writes};
ghost use Rattle.batch_serving.specs.Input.{IsInput, input_limit};
ghost use Rattle.batch_serving.specs.Text.{IsBadFor, IsBrokenFor, IsReadBy, MayEnd, ReadsInput};
ghost use Rattle.batch_words.specs.declared.commands.Command.{Command as Command_};
ghost use Rattle.batch_words.specs.Words.{command_of, IsWithin};

use crate::demonstrating::demonstrate;
use crate::exchanging::exchange;
use crate::living::answer_live;
use crate::rehearsing::rehearse_batch;
use crate::running::run_batch;
use aes_gcm::MayCheck;
use batch_io::{Gate, PureSink, PureSource, Sink, Source};
use batch_serving::{Outcome, ReadStop, judge, judge_live, read_input};
use batch_words::{Command, read_words};
use std::alloc::Global;
use std::sync::Wait;
use std::thread::Threads;

// Does with an input what a command says.
fn answer<R: Threads + Wait + Sync, K: Sink, G: Gate + Sync>(
    rt: &R,
    alloc: Global,
    input: &[u8],
    command: &Command,
    sink: &mut K,
    gate: &G,
) -> Outcome
    requires within { IsWithin command.now }
    requires reads { ReadsInput command.now }
    ensures { Writes K.written K.faults sink.old sink.new (MayEnd command.now input.now) result }
{
    match command {
        Command::Run { workers, mult } => {
            run_batch(rt, alloc, input, *workers, *mult, sink, gate)
        }
        Command::Live { workers, mult } => {
            answer_live(rt, alloc, input, *workers, *mult, sink, gate)
        }
        Command::Rehearse { schedule } => {
            rehearse_batch(rt, alloc, input, schedule.as_slice(), sink)
        }
        Command::Check { mult } => { judge(MayCheck::on_threads(rt), alloc, input, *mult, sink) }
        Command::CheckLive { mult } => {
            judge_live(MayCheck::on_threads(rt), alloc, input, *mult, sink)
        }
        Command::Capsules { mult } => exchange(rt, alloc, input, *mult, sink),
        Command::Demo { .. } => unreachable!(),
    }
}

// Does what a command says. All but `demo` read an input first.
fn obey<R: Threads + Wait + Sync, S: Source, K: Sink, G: Gate + Sync>(
    rt: &R,
    alloc: Global,
    command: &Command,
    source: &mut S,
    sink: &mut K,
    gate: &G,
) -> Outcome
    requires { IsWithin command.now }
    ensures serves { Serves S.left S.faults K.written K.faults source.old source.new
        sink.old sink.new command.now result }
    ensures unread { (seed messages lanes : ℕ) → command.now ≡ Command.Demo seed messages lanes
        → (source.new ≡ source.old) × (result ≢ Outcome.ReadFault) }
{
    if let Command::Demo {
        seed,
        messages,
        lanes,
    } = command
    {
        return demonstrate(rt, alloc, *seed, *messages, *lanes, sink, gate);
    }
    match read_input(alloc, source) {
        Ok(input) => answer(rt, alloc, &input, command, sink, gate),
        Err(ReadStop::Fault) => Outcome::ReadFault,
        Err(ReadStop::OutOfMemory) => Outcome::OutOfMemory,
    }
}

/// Does what the words ask for: reads an input from `source` and writes the text that comes of it to
/// `sink`, and tells how the run ended. `words` doesn't hold the program's name.
///
/// The command grammar is `command_of` of batch_words, and what may come of an input is `MayEnd` of
/// batch_serving. For `run` a batch is answered by the replies along legal journals of its
/// contexts, which the text itself prints; for `live` along a legal table too, of the contexts that
/// its lanes add, retire and look up; for `rehearse` by the replies along the journals of its
/// schedule. `check` reads a batch and judges what stands behind it: it is done where that is a text
/// that `run` may write for the batch, and else tells what is wrong. `capsules` answers messages of
/// RFC 9458. Of an input outside the command's grammar its first bad line is told. `demo` reads
/// nothing: it makes two batches itself, and tells how many messages were opened again.
///
/// At most 67,108,865 bytes are taken, each turn of the reading takes one at least, and all memory
/// that the answers of `run`, `live` and `rehearse` need is taken before the first call is answered.
/// `run` and `live` serve the lanes by so many workers as the words ask for, on contexts that they
/// share, and tell `gate` of each draw, each guess and each call that is answered; so does `demo`, by 4
/// workers. These three may wait. The other commands tell it nothing. `capsules` answers by 16 threads
/// at most, and `rehearse` by 4. The tags of a large opening are tested by threads of their own, in
/// `rehearse` too. Whatever threads a command starts are joined.
///
/// The input is what the source tells, and the text written what the sink tells; over ends that
/// tell nothing the clauses speak of the outcomes and the counts of faults alone.
pub fn serve_words<R: Threads + Wait + Sync, S: Source, K: Sink, G: Gate + Sync>(
    rt: &R,
    alloc: Global,
    words: &[String],
    source: &mut S,
    sink: &mut K,
    gate: &G,
) -> Outcome
    ensures usage { result ≢ Outcome.OutOfMemory
        → ((result ≡ Outcome.Usage) ↔ (command_of (map string_bytes words.now) ≡ None)) }
    ensures untouched { command_of (map string_bytes words.now) ≡ None
        → (source.new ≡ source.old) × (sink.new ≡ sink.old) }

    // What was written, for the input that was read.
    ensures done { result ≡ Outcome.Done → (command : Command_)
        × (command_of (map string_bytes words.now) ≡ Some command) × (input : List ℕ)
        × IsReadBy command (S.left source.old) (S.left source.new) input
        × (text : List ℕ) × MayEnd command input Outcome.Done text
        × Appends (K.written sink.old) (K.written sink.new) text }
    ensures bad { (line : ℕ) (reason : Reason) → result ≡ Outcome.BadBatch line reason
        → (command : Command_) × (command_of (map string_bytes words.now) ≡ Some command)
        × (input : List ℕ) × IsInput (S.left source.old) (S.left source.new) input
        × IsBadFor command input line reason
        × Appends (K.written sink.old) (K.written sink.new)
        (bad_text (record { line = line; reason = reason })) }
    ensures broken { (verdict : Verdict) → result ≡ Outcome.Broken verdict
        → (command : Command_) × (command_of (map string_bytes words.now) ≡ Some command)
        × (input : List ℕ) × IsInput (S.left source.old) (S.left source.new) input
        × IsBrokenFor command input verdict
        × Appends (K.written sink.old) (K.written sink.new) (verdict_text verdict) }
    ensures cut { result ≡ Outcome.WriteFault → (command : Command_)
        × (command_of (map string_bytes words.now) ≡ Some command) × (input : List ℕ)
        × IsReadBy command (S.left source.old) (S.left source.new) input
        × (outcome : Outcome_) × (text : List ℕ) × MayEnd command input outcome text
        × AppendsPrefix (K.written sink.old) (K.written sink.new) text }
    ensures unread { (seed messages lanes : ℕ)
        → command_of (map string_bytes words.now) ≡ Some (Command.Demo seed messages lanes)
        → (source.new ≡ source.old) × (result ≢ Outcome.ReadFault) }
    ensures unwritten { (result ≡ Outcome.ReadFault) ⊎ (result ≡ Outcome.OutOfMemory)
        → sink.new ≡ sink.old }

    // Why a fault comes, and that none is passed over.
    ensures read_fault { result ≡ Outcome.ReadFault
        → Rose (S.faults source.old) (S.faults source.new) }
    ensures write_fault { result ≡ Outcome.WriteFault
        → Rose (K.faults sink.old) (K.faults sink.new) }
    ensures no_read_fault { result ≢ Outcome.ReadFault
        → S.faults source.new ≡ S.faults source.old }
    ensures no_write_fault { result ≢ Outcome.WriteFault
        → K.faults sink.new ≡ K.faults sink.old }

    // What was read, however the run ended.
    ensures taken { (front : List ℕ) × Consumes (S.left source.old) (S.left source.new) front
        × (length front ≤ input_limit) }

    // An input that is told, and no fault, leave only what may come of it, and want of memory.
    ensures complete { (command : Command_) (input : List ℕ)
        → command_of (map string_bytes words.now) ≡ Some command → S.left source.old ≡ Some input
        → ¬ Rose (S.faults source.old) (S.faults source.new)
        → ¬ Rose (K.faults sink.old) (K.faults sink.new)
        → ((text : List ℕ) × MayEnd command input result text) ⊎ (result ≡ Outcome.OutOfMemory) }
{
    match read_words(alloc, words) {
        Ok(Some(command)) => obey(rt, alloc, &command, source, sink, gate),
        Ok(None) => Outcome::Usage,
        Err(_) => Outcome::OutOfMemory,
    }
}

/// The same over ends that never fail: no fault is answered, and words in the grammar leave only
/// what may come of the input, and want of memory.
pub fn serve_pure<R: Threads + Wait + Sync, G: Gate + Sync>(
    rt: &R,
    alloc: Global,
    words: &[String],
    source: &mut PureSource,
    sink: &mut PureSink,
    gate: &G,
) -> Outcome
    ensures faultless { (result ≢ Outcome.ReadFault) × (result ≢ Outcome.WriteFault) }
    ensures complete { (command : Command_) → command_of (map string_bytes words.now) ≡ Some command
        → ((text : List ℕ) × MayEnd command source.old result text)
        ⊎ (result ≡ Outcome.OutOfMemory) }
{
    serve_words(rt, alloc, words, source, sink, gate)
}
