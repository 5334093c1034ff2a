//! The printing of whole replies to batches whose lanes add and retire contexts.

ghost use Rattle.std.specs.Prelude.{◌≡◌, ◌≤◌, length, map};
ghost use Rattle.std.specs.List.{concat};
ghost use Rattle.std.specs.Io.KnownBytes.{Appends};
ghost use Rattle.batch_io.specs.Faults.{Rose};
ghost use Rattle.batch_plans.specs.Names.{line_count as lines_in};
ghost use Rattle.field_text.specs.Printing.{AppendsPrefix};
ghost use Rattle.field_text.specs.Buffers.{Puts};
ghost use Rattle.batch_plans.specs.AnswersText.{IsAnswered, live_text};
ghost use Rattle.batch_plans.specs.LiveText.{note_line, table_lines};

use crate::printing::{put_each_journal, put_journals, put_lanes, put_setup, put_version};
use crate::reply_lines::put_note;
use batch_io::Sink;
use batch_plans::{Answers, Plan};
use call_places::Entry;
use field_text::{Buffer, Printed};

/// Writes the reply to a batch whose lanes add and retire contexts: its keys, its context lines, its
/// lanes, the journals of all contexts, and the table of the notes.
///
/// The answers are those to the plan. A reply that was not given is left out, and so is a guess that
/// no opening made which was served. Takes no memory. Once a write failed nothing more is written.
pub fn print_live<K: Sink>(plan: &Plan, answers: &Answers, sink: &mut K) -> Printed
    requires { IsAnswered plan.now answers.now }
    ensures whole { result ≡ Printed.Whole
        → Appends (K.written sink.old) (K.written sink.new) (live_text plan.now answers.now) }
    ensures no_fault { result ≡ Printed.Whole → K.faults sink.new ≡ K.faults sink.old }
    ensures cut { result ≡ Printed.Failed
        → AppendsPrefix (K.written sink.old) (K.written sink.new)
        (live_text plan.now answers.now) }
    ensures failed { result ≡ Printed.Failed → Rose (K.faults sink.old) (K.faults sink.new) }
    ensures later { K.faults sink.old ≤ K.faults sink.new }
{
    let mut out = Buffer::new();
    put_live(&mut out, sink, plan, answers);
    out.finish(sink)
}

// How many contexts are those of context lines.
fn line_count(plan: &Plan) -> usize
    ensures lines { result ≡ lines_in plan.now }
    ensures few { result ≤ length plan.now.contexts }
{
    plan.contexts
        .as_slice()
        .len()
        .saturating_sub(plan.added as usize)
}

fn put_live<K: Sink>(out: &mut Buffer, sink: &mut K, plan: &Plan, answers: &Answers)
    requires { IsAnswered plan.now answers.now }
    ensures { Puts K.written K.faults sink.old sink.new out.old out.new
        (live_text plan.now answers.now) }
{
    let lines = line_count(plan);
    let contexts = answers.contexts.as_slice();
    let journals = answers.journals.as_slice();
    put_version(out, sink, 2);
    put_setup(out, sink, answers.keys.as_slice(), &contexts[..lines]);
    put_lanes(
        out,
        sink,
        true,
        plan.lanes.as_slice(),
        answers.lanes.as_slice(),
    );
    put_journals(out, sink, true, &journals[..lines]);
    put_each_journal(out, sink, b"journal +", true, &journals[lines..]);
    put_table(out, sink, answers.notes.as_slice());
    out.put_text(sink, b"end\n")
}

fn put_table<K: Sink>(out: &mut Buffer, sink: &mut K, notes: &[Entry])
    ensures { Puts K.written K.faults sink.old sink.new out.old out.new
        (concat (table_lines notes.now)) }
{
    out.put_text(sink, b"table\n");
    put_notes(out, sink, notes)
}

fn put_notes<K: Sink>(out: &mut Buffer, sink: &mut K, notes: &[Entry])
    ensures { Puts K.written K.faults sink.old sink.new out.old out.new
        (concat (map note_line notes.now)) }
{
    'notes: for note in notes {
        put_note(out, sink, note);
    }
}
