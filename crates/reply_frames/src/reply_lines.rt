//! The lines of the reply text, each put into a buffer.

ghost use Rattle.std.specs.Prelude.{◌≡◌, ◌++◌, length, codes, decimal};
ghost use Rattle.batch_plans.specs.Replies.{IsInRange};
ghost use Rattle.call_places.specs.Spans.{span_bytes};
ghost use Rattle.field_text.specs.Buffers.{Puts};
ghost use Rattle.batch_plans.specs.Lines.{context_words, context_line, served_line, exported_line};
ghost use Rattle.batch_plans.specs.Lines.{refused_line};
ghost use Rattle.batch_plans.specs.AnswersText.{reply_line, guess_line};
ghost use Rattle.batch_plans.specs.ReplyText.{stamp_words, mark_line, bad_text};
ghost use Rattle.batch_plans.specs.LiveText.{tells_live as live_test, bit as bit_of, note_line};

use crate::reply_words::{word_of_call_refusal, word_of_context_refusal, word_of_reason};
use batch_io::Sink;
use batch_plans::{Batch, CallRefusal, ContextReply, Reply};
use call_places::{Entry, Mark, Place, Step};
use field_text::{BadBatch, Buffer};

/// Puts a line of a word and a number behind what is in the buffer.
pub fn put_numbered<K: Sink>(out: &mut Buffer, sink: &mut K, word: &[u8], number: u64)
    ensures { Puts K.written K.faults sink.old sink.new out.old out.new
        (word.now ++ decimal number ++ codes "\n") }
{
    out.put_text(sink, word);
    out.put_number(sink, number);
    out.put_text(sink, b"\n")
}

// Puts the word and the number that begin a line, and the space behind them.
fn put_head<K: Sink>(out: &mut Buffer, sink: &mut K, word: &[u8], number: u64)
    ensures { Puts K.written K.faults sink.old sink.new out.old out.new
        (word.now ++ decimal number ++ codes " ") }
{
    out.put_text(sink, word);
    out.put_number(sink, number);
    out.put_text(sink, b" ")
}

// Puts `refused` and a word.
fn put_refusal<K: Sink>(out: &mut Buffer, sink: &mut K, word: &[u8])
    ensures { Puts K.written K.faults sink.old sink.new out.old out.new
        (codes "refused " ++ word.now) }
{
    out.put_text(sink, b"refused ");
    out.put_text(sink, word)
}

pub(crate) fn put_context_line<K: Sink>(
    out: &mut Buffer,
    sink: &mut K,
    context: u64,
    reply: &ContextReply,
)
    ensures { Puts K.written K.faults sink.old sink.new out.old out.new
        (context_line context reply.now) }
{
    put_head(out, sink, b"context ", context);
    put_context_words(out, sink, reply);
    out.put_text(sink, b"\n")
}

fn put_context_words<K: Sink>(out: &mut Buffer, sink: &mut K, reply: &ContextReply)
    ensures { Puts K.written K.faults sink.old sink.new out.old out.new (context_words reply.now) }
{
    match reply {
        ContextReply::Shared => out.put_text(sink, b"shared"),
        ContextReply::Sender { enc } => {
            out.put_text(sink, b"sender ");
            out.put_hex(sink, enc.as_slice())
        }
        ContextReply::Recipient => out.put_text(sink, b"recipient"),
        ContextReply::Refused(refusal) => {
            put_refusal(out, sink, word_of_context_refusal(*refusal))
        }
    }
}

pub(crate) fn put_reply<K: Sink>(out: &mut Buffer, sink: &mut K, pool: &[u8], reply: &Reply)
    requires { IsInRange (length pool.now) reply.now }
    ensures { Puts K.written K.faults sink.old sink.new out.old out.new
        (reply_line pool.now reply.now) }
{
    match *reply {
        Reply::Blank => {}
        Reply::Sealed { number, text } => {
            put_served(out, sink, b"sealed ", number, text.of(pool))
        }
        Reply::Opened { number, text } => {
            put_served(out, sink, b"opened ", number, text.of(pool))
        }
        Reply::Failed { number } => put_numbered(out, sink, b"failed ", number),
        Reply::Limit => out.put_text(sink, b"limit\n"),
        Reply::Exported { text } => put_exported(out, sink, text.of(pool)),
        Reply::Refused(refusal) => put_refused(out, sink, refusal),
        Reply::Added => out.put_text(sink, b"added\n"),
        Reply::Retired => out.put_text(sink, b"retired\n"),
    }
}

fn put_served<K: Sink>(out: &mut Buffer, sink: &mut K, word: &[u8], number: u64, text: &[u8])
    ensures { Puts K.written K.faults sink.old sink.new out.old out.new
        (served_line word.now number text.now) }
{
    put_head(out, sink, word, number);
    out.put_hex(sink, text);
    out.put_text(sink, b"\n")
}

fn put_exported<K: Sink>(out: &mut Buffer, sink: &mut K, bytes: &[u8])
    ensures { Puts K.written K.faults sink.old sink.new out.old out.new (exported_line bytes.now) }
{
    out.put_text(sink, b"exported ");
    out.put_hex(sink, bytes);
    out.put_text(sink, b"\n")
}

fn put_refused<K: Sink>(out: &mut Buffer, sink: &mut K, refusal: CallRefusal)
    ensures { Puts K.written K.faults sink.old sink.new out.old out.new (refused_line refusal) }
{
    put_refusal(out, sink, word_of_call_refusal(refusal));
    out.put_text(sink, b"\n")
}

pub(crate) fn put_batch<K: Sink>(out: &mut Buffer, sink: &mut K, batch: &Batch)
    ensures { Puts K.written K.faults sink.old sink.new out.old out.new (guess_line batch.now) }
{
    put_head(out, sink, b"batch ", batch.guess);
    out.put_number(sink, batch.missed as u64);
    out.put_text(sink, b"\n")
}

pub(crate) fn put_mark<K: Sink>(out: &mut Buffer, sink: &mut K, stamps: bool, mark: &Mark)
    ensures { Puts K.written K.faults sink.old sink.new out.old out.new
        (mark_line stamps mark.now) }
{
    put_place(out, sink, mark.place);
    put_stamp(out, sink, stamps, mark.stamp);
    out.put_text(sink, b"\n")
}

fn put_place<K: Sink>(out: &mut Buffer, sink: &mut K, place: Place)
    ensures { Puts K.written K.faults sink.old sink.new out.old out.new
        (decimal place.lane ++ codes " " ++ decimal place.call ++ codes " " ++ decimal place.item) }
{
    out.put_number(sink, place.lane as u64);
    out.put_text(sink, b" ");
    out.put_number(sink, place.call as u64);
    out.put_text(sink, b" ");
    out.put_number(sink, place.item as u64)
}

fn put_stamp<K: Sink>(out: &mut Buffer, sink: &mut K, stamps: bool, stamp: u64)
    ensures { Puts K.written K.faults sink.old sink.new out.old out.new
        (stamp_words stamps stamp) }
{
    if !stamps {
        return;
    }
    out.put_text(sink, b" ");
    out.put_number(sink, stamp)
}

// Puts the line of a note of the table behind what is in the buffer.
pub(crate) fn put_note<K: Sink>(out: &mut Buffer, sink: &mut K, note: &Entry)
    ensures { Puts K.written K.faults sink.old sink.new out.old out.new (note_line note.now) }
{
    out.put_number(sink, note.place.lane as u64);
    out.put_text(sink, b" ");
    out.put_number(sink, note.place.call as u64);
    out.put_text(sink, b" ");
    out.put_number(sink, bit(tells_live(note.step)));
    out.put_text(sink, b" ");
    out.put_number(sink, note.stamp);
    out.put_text(sink, b"\n")
}

/// Whether the name of a note was live; no other step tells it.
pub fn tells_live(step: Step) -> bool
    ensures { result ≡ live_test step }
{
    match step {
        Step::Note { live, .. } => live,
        _ => false,
    }
}

fn bit(live: bool) -> u64
    ensures { result ≡ bit_of live }
{
    if live { 1 } else { 0 }
}

pub(crate) fn put_bad<K: Sink>(out: &mut Buffer, sink: &mut K, bad: &BadBatch)
    ensures { Puts K.written K.faults sink.old sink.new out.old out.new (bad_text bad.now) }
{
    put_head(out, sink, b"bad ", bad.line as u64);
    out.put_text(sink, word_of_reason(bad.reason));
    out.put_text(sink, b"\n")
}
