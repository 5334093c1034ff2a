//! The printing of a verdict.

ghost use Rattle.std.specs.Prelude.{◌≡◌, ◌≤◌, ◌++◌, codes};
ghost use Rattle.std.specs.Io.KnownBytes.{Appends};
ghost use Rattle.batch_io.specs.Faults.{Rose};
ghost use Rattle.field_text.specs.Printing.{AppendsPrefix};
ghost use Rattle.field_text.specs.Buffers.{Puts};
ghost use Rattle.result_lines.specs.VerdictText.{context_called, verdict_text};

use crate::verdicts::Verdict;
use batch_io::Sink;
use batch_plans::FIRST_NAME;
use field_text::{Buffer, Printed};
use reply_frames::put_numbered;

// The line of a journal, by the number that calls name its context by.
fn put_journal<K: Sink>(out: &mut Buffer, sink: &mut K, context: u32)
    ensures { Puts K.written K.faults sink.old sink.new out.old out.new
        (codes "broken journal " ++ context_called context ++ codes "\n") }
{
    if context < FIRST_NAME {
        put_numbered(out, sink, b"broken journal ", context as u64)
    } else {
        put_numbered(
            out,
            sink,
            b"broken journal +",
            (context - FIRST_NAME) as u64,
        )
    }
}

fn put_verdict<K: Sink>(out: &mut Buffer, sink: &mut K, verdict: Verdict)
    ensures { Puts K.written K.faults sink.old sink.new out.old out.new (verdict_text verdict) }
{
    match verdict {
        Verdict::Legal => out.put_text(sink, b"legal\n"),
        Verdict::Form { line } => put_numbered(out, sink, b"broken form ", line as u64),
        Verdict::Journal { context } => put_journal(out, sink, context),
        Verdict::Table => out.put_text(sink, b"broken table\n"),
        Verdict::Stamps => out.put_text(sink, b"broken stamps\n"),
        Verdict::Reply { line } => put_numbered(out, sink, b"broken reply ", line as u64),
        Verdict::Guess { line } => put_numbered(out, sink, b"broken guess ", line as u64),
    }
}

/// Writes a verdict, which is one line.
///
/// Takes no memory. Once a write failed nothing more is written.
pub fn print_verdict<K: Sink>(verdict: Verdict, sink: &mut K) -> Printed
    ensures whole { result ≡ Printed.Whole
        → Appends (K.written sink.old) (K.written sink.new) (verdict_text verdict) }
    ensures no_fault { result ≡ Printed.Whole → K.faults sink.new ≡ K.faults sink.old }
    ensures cut { result ≡ Printed.Failed
        → AppendsPrefix (K.written sink.old) (K.written sink.new) (verdict_text verdict) }
    ensures failed { result ≡ Printed.Failed → Rose (K.faults sink.old) (K.faults sink.new) }
    ensures later { K.faults sink.old ≤ K.faults sink.new }
{
    let mut out = Buffer::new();
    put_verdict(&mut out, sink, verdict);
    out.finish(sink)
}
