//! The words and an input, served by the calling thread.

ghost use Rattle.std.specs.Prelude.{◌≡◌, ◌↔◌, ◌⊎◌, ◌≢◌, ℕ, List, map, Some, None};
ghost use Rattle.std.specs.String.{string_bytes};
ghost use Rattle.std.specs.Io.KnownBytes.{Appends};
ghost use Rattle.batch_io.specs.Faults.{Rose};
ghost use Rattle.field_text.specs.declared.reasons.Reason.{Reason};
ghost use Rattle.field_text.specs.Printing.{AppendsPrefix};
ghost use Rattle.batch_plans.specs.ReplyText.{bad_text};
ghost use Rattle.result_lines.specs.declared.verdicts.Verdict.{Verdict};
ghost use Rattle.result_lines.specs.VerdictText.{verdict_text};
ghost use Rattle.batch_words.specs.declared.commands.Command.{Command as Command_};
ghost use Rattle.batch_words.specs.Words.{command_of, IsWithin};
ghost use Rattle.batch_serving.specs.declared.outcomes.Outcome.{Outcome as Outcome_};
ghost use Rattle.batch_serving.specs.Effects.{Writes};
ghost use Rattle.batch_serving.specs.Text.{IsBadFor, IsBrokenFor, MayEnd};

use crate::demonstrating::demonstrate;
use crate::exchanging::exchange_alone;
use crate::living::live_in_order;
use crate::rehearsing::rehearse_batch;
use crate::running::run_in_order;
use aes_gcm::MayCheck;
use batch_io::Sink;
use batch_serving::{Outcome, judge, judge_live};
use batch_words::{Command, read_words};
use speculative_open::Alone;
use std::alloc::Global;

// Does with an input what a command says.
fn obey<K: Sink>(
    permission: MayCheck,
    alloc: Global,
    command: &Command,
    input: &[u8],
    sink: &mut K,
) -> Outcome
    requires { IsWithin command.now }
    ensures { Writes K.written K.faults sink.old sink.new (MayEnd command.now input.now) result }
{
    let alone = Alone::new(permission);
    match command {
        Command::Run { mult, .. } => run_in_order(&alone, alloc, input, *mult, sink),
        Command::Live { mult, .. } => live_in_order(&alone, alloc, input, *mult, sink),
        Command::Rehearse { schedule } => {
            rehearse_batch(&alone, alloc, input, schedule.as_slice(), sink)
        }
        Command::Check { mult } => judge(permission, alloc, input, *mult, sink),
        Command::CheckLive { mult } => judge_live(permission, alloc, input, *mult, sink),
        Command::Capsules { mult } => exchange_alone(permission, alloc, input, *mult, sink),
        Command::Demo {
            seed,
            messages,
            lanes,
        } => demonstrate(&alone, alloc, *seed, *messages, *lanes, sink),
    }
}

/// Does what the words ask for with an input that lies in memory, on the calling thread: writes the
/// text that comes of it to `sink`, and tells how the run ended. `words` doesn't hold the program's
/// name.
///
/// `run`, `live` and `demo` serve their lanes one after another, however many workers the words ask
/// for: the reply is one of those that they may give.
///
/// The command grammar is `command_of` of batch_words, and what may come of an input is `MayEnd` of
/// batch_serving. No thread is started, and nothing is waited for.
pub fn serve_alone<K: Sink>(
    permission: MayCheck,
    alloc: Global,
    words: &[String],
    input: &[u8],
    sink: &mut K,
) -> Outcome
    ensures usage { result ≢ Outcome.OutOfMemory
        → ((result ≡ Outcome.Usage) ↔ (command_of (map string_bytes words.now) ≡ None)) }
    ensures untouched { command_of (map string_bytes words.now) ≡ None → sink.new ≡ sink.old }

    // What was written for the input.
    ensures done { result ≡ Outcome.Done → (command : Command_)
        × (command_of (map string_bytes words.now) ≡ Some command)
        × (text : List ℕ) × MayEnd command input.now Outcome.Done text
        × Appends (K.written sink.old) (K.written sink.new) text }
    ensures bad { (line : ℕ) (reason : Reason) → result ≡ Outcome.BadBatch line reason
        → (command : Command_) × (command_of (map string_bytes words.now) ≡ Some command)
        × IsBadFor command input.now line reason
        × Appends (K.written sink.old) (K.written sink.new)
        (bad_text (record { line = line; reason = reason })) }
    ensures broken { (verdict : Verdict) → result ≡ Outcome.Broken verdict
        → (command : Command_) × (command_of (map string_bytes words.now) ≡ Some command)
        × IsBrokenFor command input.now verdict
        × Appends (K.written sink.old) (K.written sink.new) (verdict_text verdict) }
    ensures cut { result ≡ Outcome.WriteFault → (command : Command_)
        × (command_of (map string_bytes words.now) ≡ Some command)
        × (outcome : Outcome_) × (text : List ℕ) × MayEnd command input.now outcome text
        × AppendsPrefix (K.written sink.old) (K.written sink.new) text }
    ensures unwritten { result ≡ Outcome.OutOfMemory → sink.new ≡ sink.old }

    // Why a fault comes, and that none is passed over.
    ensures no_read_fault { result ≢ Outcome.ReadFault }
    ensures write_fault { result ≡ Outcome.WriteFault
        → Rose (K.faults sink.old) (K.faults sink.new) }
    ensures no_write_fault { result ≢ Outcome.WriteFault
        → K.faults sink.new ≡ K.faults sink.old }

    // No fault leaves only what may come of the input, and want of memory.
    ensures complete { (command : Command_)
        → command_of (map string_bytes words.now) ≡ Some command
        → ¬ Rose (K.faults sink.old) (K.faults sink.new)
        → ((text : List ℕ) × MayEnd command input.now result text) ⊎ (result ≡ Outcome.OutOfMemory) }
{
    match read_words(alloc, words) {
        Ok(Some(command)) => obey(permission, alloc, &command, input, sink),
        Ok(None) => Outcome::Usage,
        Err(_) => Outcome::OutOfMemory,
    }
}
