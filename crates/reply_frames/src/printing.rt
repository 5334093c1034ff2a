//! The printing of whole replies.

ghost use Rattle.std.specs.Prelude.{◌≡◌, ◌≢◌, ◌≤◌, length, map};
ghost use Rattle.std.specs.List.{All, concat};
ghost use Rattle.std.specs.Io.KnownBytes.{Appends};
ghost use Rattle.batch_io.specs.Faults.{Rose};
ghost use Rattle.batch_plans.specs.Replies.{IsInRange, IsPrintable};
ghost use Rattle.field_text.specs.Printing.{AppendsPrefix};
ghost use Rattle.field_text.specs.Buffers.{Puts};
ghost use Rattle.batch_plans.specs.Lines.{context_line};
ghost use Rattle.batch_plans.specs.AnswersText.{reply_line, answers_text, IsAnswered};
ghost use Rattle.batch_plans.specs.ReplyText.{numbered, all_lines, setup_text, version_line};
ghost use Rattle.batch_plans.specs.ReplyText.{lane_lines, has_stamps, mark_line, journal_lines};
ghost use Rattle.batch_plans.specs.ReplyText.{bad_text};
ghost use Rattle.reply_frames.specs.LineParts.{lines_by, lanes_by, marks_behind};

use crate::given_replies::put_given_calls;
use crate::lane_replies::put_calls;
use crate::replies::put_keys;
use crate::reply_lines::{put_bad, put_context_line, put_mark, put_numbered, put_reply};
use batch_io::Sink;
use batch_plans::{Answers, CallLine, ContextReply, KeyReply, LaneAnswers, PlainList, Plan, Reply};
use call_places::Mark;
use field_text::{BadBatch, Buffer, Printed};

/// Writes the reply to a batch: its keys, its contexts, its lanes and its journals.
///
/// The answers are those to the plan, with their replies given: a reply that was not given would be
/// left out. Takes no memory. Once a write failed nothing more is written.
pub fn print_answers<K: Sink>(plan: &Plan, answers: &Answers, sink: &mut K) -> Printed
    requires { IsAnswered plan.now answers.now }
    ensures whole { result ≡ Printed.Whole
        → Appends (K.written sink.old) (K.written sink.new) (answers_text plan.now answers.now) }
    ensures no_fault { result ≡ Printed.Whole → K.faults sink.new ≡ K.faults sink.old }
    ensures cut { result ≡ Printed.Failed
        → AppendsPrefix (K.written sink.old) (K.written sink.new)
        (answers_text plan.now answers.now) }
    ensures failed { result ≡ Printed.Failed → Rose (K.faults sink.old) (K.faults sink.new) }
    ensures later { K.faults sink.old ≤ K.faults sink.new }
{
    let mut out = Buffer::new();
    put_answers(&mut out, sink, plan, answers);
    out.finish(sink)
}

/// Writes the part of a reply that tells of the set-up: the replies to the key lines and to the
/// context lines, each list numbered from 0.
///
/// Takes no memory. Once a write failed nothing more is written.
pub fn print_setup<K: Sink>(keys: &[KeyReply], contexts: &[ContextReply], sink: &mut K) -> Printed
    ensures whole { result ≡ Printed.Whole
        → Appends (K.written sink.old) (K.written sink.new) (setup_text keys.now contexts.now) }
    ensures no_fault { result ≡ Printed.Whole → K.faults sink.new ≡ K.faults sink.old }
    ensures cut { result ≡ Printed.Failed
        → AppendsPrefix (K.written sink.old) (K.written sink.new)
        (setup_text keys.now contexts.now) }
    ensures failed { result ≡ Printed.Failed → Rose (K.faults sink.old) (K.faults sink.new) }
    ensures later { K.faults sink.old ≤ K.faults sink.new }
{
    let mut out = Buffer::new();
    put_setup(&mut out, sink, keys, contexts);
    out.finish(sink)
}

/// Writes one reply, whose span names bytes of the pool, as a line.
///
/// Takes no memory. Once a write failed nothing more is written.
pub fn print_reply<K: Sink>(reply: &Reply, pool: &[u8], sink: &mut K) -> Printed
    requires given { reply.now ≢ Reply.Blank }
    requires range { IsInRange (length pool.now) reply.now }
    ensures whole { result ≡ Printed.Whole
        → Appends (K.written sink.old) (K.written sink.new) (reply_line pool.now reply.now) }
    ensures no_fault { result ≡ Printed.Whole → K.faults sink.new ≡ K.faults sink.old }
    ensures cut { result ≡ Printed.Failed
        → AppendsPrefix (K.written sink.old) (K.written sink.new) (reply_line pool.now reply.now) }
    ensures failed { result ≡ Printed.Failed → Rose (K.faults sink.old) (K.faults sink.new) }
    ensures later { K.faults sink.old ≤ K.faults sink.new }
{
    let mut out = Buffer::new();
    put_reply(&mut out, sink, pool, reply);
    out.finish(sink)
}

/// Writes the reply to a text that is no batch, which is one line.
///
/// Takes no memory. Once a write failed nothing more is written.
pub fn print_bad<K: Sink>(bad: &BadBatch, sink: &mut K) -> Printed
    ensures whole { result ≡ Printed.Whole
        → Appends (K.written sink.old) (K.written sink.new) (bad_text bad.now) }
    ensures no_fault { result ≡ Printed.Whole → K.faults sink.new ≡ K.faults sink.old }
    ensures cut { result ≡ Printed.Failed
        → AppendsPrefix (K.written sink.old) (K.written sink.new) (bad_text bad.now) }
    ensures failed { result ≡ Printed.Failed → Rose (K.faults sink.old) (K.faults sink.new) }
    ensures later { K.faults sink.old ≤ K.faults sink.new }
{
    let mut out = Buffer::new();
    put_bad(&mut out, sink, bad);
    out.finish(sink)
}

fn put_answers<K: Sink>(out: &mut Buffer, sink: &mut K, plan: &Plan, answers: &Answers)
    requires { IsAnswered plan.now answers.now }
    ensures { Puts K.written K.faults sink.old sink.new out.old out.new
        (answers_text plan.now answers.now) }
{
    put_version(out, sink, plan.version);
    put_setup(
        out,
        sink,
        answers.keys.as_slice(),
        answers.contexts.as_slice(),
    );
    put_lanes(
        out,
        sink,
        false,
        plan.lanes.as_slice(),
        answers.lanes.as_slice(),
    );
    put_journals(
        out,
        sink,
        has_stamps(plan.version),
        answers.journals.as_slice(),
    );
    out.put_text(sink, b"end\n")
}

// Puts the first line behind what is in the buffer.
pub(crate) fn put_version<K: Sink>(out: &mut Buffer, sink: &mut K, version: u8)
    ensures { Puts K.written K.faults sink.old sink.new out.old out.new (version_line version) }
{
    put_numbered(out, sink, b"hpkebatch ", version as u64)
}

// Whether journals tell their stamps.
fn has_stamps(version: u8) -> bool
    ensures { result ≡ has_stamps version }
{
    version == 2
}

// Puts the replies to the key lines and to the context lines behind what is in the buffer.
pub(crate) fn put_setup<K: Sink>(
    out: &mut Buffer,
    sink: &mut K,
    keys: &[KeyReply],
    contexts: &[ContextReply],
)
    ensures { Puts K.written K.faults sink.old sink.new out.old out.new
        (setup_text keys.now contexts.now) }
{
    put_keys(out, sink, keys);
    put_contexts(out, sink, contexts)
}

fn put_contexts<K: Sink>(out: &mut Buffer, sink: &mut K, contexts: &[ContextReply])
    ensures { Puts K.written K.faults sink.old sink.new out.old out.new
        (concat (numbered context_line 0 contexts.now)) }
{
    'contexts: for (context, reply) in contexts.iter().enumerate() {
        put_context_line(out, sink, context as u64, reply);
    }
}

// Puts the lines of all lanes behind what is in the buffer, by the replies that were given or by all.
pub(crate) fn put_lanes<K: Sink>(
    out: &mut Buffer,
    sink: &mut K,
    given: bool,
    lanes: &[PlainList<CallLine>],
    answers: &[LaneAnswers],
)
    requires each { length answers.now ≡ length lanes.now }
    requires printable { All IsPrintable answers.now }
    ensures { Puts K.written K.faults sink.old sink.new out.old out.new
        (concat (all_lines (numbered lane_lines 0 (lanes_by given lanes.now answers.now)))) }
{
    'lanes: for (number, lane) in answers.iter().enumerate() {
        put_lane(
            out,
            sink,
            given,
            number as u64,
            lanes[number].as_slice(),
            lane,
        );
    }
}

fn put_lane<K: Sink>(
    out: &mut Buffer,
    sink: &mut K,
    given: bool,
    number: u64,
    calls: &[CallLine],
    lane: &LaneAnswers,
)
    requires { IsPrintable lane.now }
    ensures { Puts K.written K.faults sink.old sink.new out.old out.new
        (concat (lane_lines number (lines_by given calls.now lane.now))) }
{
    put_numbered(out, sink, b"lane ", number);
    if given {
        put_given_calls(out, sink, calls, lane)
    } else {
        put_calls(out, sink, calls, lane)
    }
}

// Puts the journals of contexts, numbered from 0, behind what is in the buffer. `stamps` says
// whether a place tells its stamp.
pub(crate) fn put_journals<K: Sink>(
    out: &mut Buffer,
    sink: &mut K,
    stamps: bool,
    journals: &[PlainList<Mark>],
)
    ensures { Puts K.written K.faults sink.old sink.new out.old out.new
        (concat (all_lines (numbered (journal_lines stamps) 0 journals.now))) }
{
    put_each_journal(out, sink, b"journal ", stamps, journals)
}

// Puts journals behind what is in the buffer, each behind this word and its number.
pub(crate) fn put_each_journal<K: Sink>(
    out: &mut Buffer,
    sink: &mut K,
    word: &[u8],
    stamps: bool,
    journals: &[PlainList<Mark>],
)
    ensures { Puts K.written K.faults sink.old sink.new out.old out.new
        (concat (all_lines (numbered (marks_behind word.now stamps) 0 journals.now))) }
{
    'journals: for (number, journal) in journals.iter().enumerate() {
        put_journal(out, sink, word, stamps, number as u64, journal.as_slice());
    }
}

fn put_journal<K: Sink>(
    out: &mut Buffer,
    sink: &mut K,
    word: &[u8],
    stamps: bool,
    number: u64,
    marks: &[Mark],
)
    ensures { Puts K.written K.faults sink.old sink.new out.old out.new
        (concat (marks_behind word.now stamps number marks.now)) }
{
    put_numbered(out, sink, word, number);
    put_marks(out, sink, stamps, marks)
}

// Puts the places of a journal behind what is in the buffer.
fn put_marks<K: Sink>(out: &mut Buffer, sink: &mut K, stamps: bool, marks: &[Mark])
    ensures { Puts K.written K.faults sink.old sink.new out.old out.new
        (concat (map (mark_line stamps) marks.now)) }
{
    'marks: for mark in marks {
        put_mark(out, sink, stamps, mark);
    }
}
