//! What a demonstration tells.

ghost use Rattle.std.specs.Prelude.{◌≡◌, ◌≤◌};
ghost use Rattle.std.specs.Io.KnownBytes.{Appends};
ghost use Rattle.batch_io.specs.Faults.{Rose};
ghost use Rattle.field_text.specs.Printing.{AppendsPrefix};
ghost use Rattle.field_text.specs.Buffers.{Puts};
ghost use Rattle.demo_runs.specs.Demo.{report_text};

use batch_io::Sink;
use field_text::{Buffer, Printed};

/// How many messages there were, how many of them were opened again, and the SHA-256 of their
/// ciphertexts, joined in number order.
#[derive(Clone, Copy, Debug, PartialEq, Eq)]
pub struct DemoReport {
    pub messages: u32,
    pub opened: u32,
    pub hash: [u8; 32],
}

fn put_report<K: Sink>(out: &mut Buffer, sink: &mut K, report: &DemoReport)
    requires { report.now.opened ≤ report.now.messages }
    ensures { Puts K.written K.faults sink.old sink.new out.old out.new (report_text report.now) }
{
    out.put_text(sink, b"messages ");
    out.put_number(sink, report.messages as u64);
    out.put_text(sink, b" opened ");
    out.put_number(sink, report.opened as u64);
    out.put_text(sink, b" refused ");
    out.put_number(sink, (report.messages - report.opened) as u64);
    out.put_text(sink, b"\n");
    out.put_text(sink, b"sha256 ");
    out.put_hex(sink, &report.hash);
    out.put_text(sink, b"\n")
}

/// Writes a report as two lines.
///
/// Takes no memory. Once a write failed nothing more is written.
pub fn print_report<K: Sink>(report: &DemoReport, sink: &mut K) -> Printed
    requires { report.now.opened ≤ report.now.messages }
    ensures whole { result ≡ Printed.Whole
        → Appends (K.written sink.old) (K.written sink.new) (report_text report.now) }
    ensures no_fault { result ≡ Printed.Whole → K.faults sink.new ≡ K.faults sink.old }
    ensures cut { result ≡ Printed.Failed
        → AppendsPrefix (K.written sink.old) (K.written sink.new) (report_text report.now) }
    ensures failed { result ≡ Printed.Failed → Rose (K.faults sink.old) (K.faults sink.new) }
    ensures later { K.faults sink.old ≤ K.faults sink.new }
{
    let mut out = Buffer::new();
    put_report(&mut out, sink, report);
    out.finish(sink)
}
