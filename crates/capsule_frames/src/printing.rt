//! The printing of a whole reply.

ghost use Rattle.std.specs.Prelude.{◌≡◌, ◌≤◌, ◌++◌, map};
ghost use Rattle.std.specs.List.{concat};
ghost use Rattle.std.specs.Io.KnownBytes.{Appends};
ghost use Rattle.batch_io.specs.Faults.{Rose};
ghost use Rattle.field_text.specs.Printing.{AppendsPrefix, hex_text};
ghost use Rattle.field_text.specs.Buffers.{Puts};
ghost use Rattle.capsule_frames.specs.Text.{refusal_word, capsule_words, capsule_line};
ghost use Rattle.capsule_frames.specs.Text.{capsules_text};

use crate::replies::{CapsuleRefusal, CapsuleReply};
use batch_io::Sink;
use batch_plans::KeyReplies;
use field_text::{Buffer, Printed};
use reply_frames::put_keys;

fn word_of_refusal(refusal: CapsuleRefusal) -> &'static [u8]
    ensures { result.now ≡ refusal_word refusal }
{
    match refusal {
        CapsuleRefusal::NoKey => b"nokey",
        CapsuleRefusal::NeedSecret => b"needsecret",
        CapsuleRefusal::NoAsk => b"noask",
        CapsuleRefusal::NoAnswer => b"noanswer",
        CapsuleRefusal::Short => b"short",
        CapsuleRefusal::Header => b"header",
        CapsuleRefusal::NonceSize => b"noncesize",
        CapsuleRefusal::Failed => b"failed",
    }
}

// A word, and the digits of bytes behind it.
fn put_bytes<K: Sink>(out: &mut Buffer, sink: &mut K, word: &[u8], bytes: &[u8])
    ensures { Puts K.written K.faults sink.old sink.new out.old out.new
        (word.now ++ hex_text bytes.now) }
{
    out.put_text(sink, word);
    out.put_hex(sink, bytes)
}

fn put_words<K: Sink>(out: &mut Buffer, sink: &mut K, reply: &CapsuleReply)
    ensures { Puts K.written K.faults sink.old sink.new out.old out.new (capsule_words reply.now) }
{
    match reply {
        CapsuleReply::Asked { request } => put_bytes(out, sink, b"asked ", request.as_slice()),
        CapsuleReply::Answered { text, response } => {
            put_bytes(out, sink, b"answered ", text.as_slice());
            put_bytes(out, sink, b" ", response.as_slice())
        }
        CapsuleReply::Took { text } => put_bytes(out, sink, b"took ", text.as_slice()),
        CapsuleReply::Refused(refusal) => {
            out.put_text(sink, b"refused ");
            out.put_text(sink, word_of_refusal(*refusal))
        }
    }
}

fn put_line<K: Sink>(out: &mut Buffer, sink: &mut K, reply: &CapsuleReply)
    ensures { Puts K.written K.faults sink.old sink.new out.old out.new (capsule_line reply.now) }
{
    put_words(out, sink, reply);
    out.put_text(sink, b"\n")
}

fn put_lines<K: Sink>(out: &mut Buffer, sink: &mut K, replies: &[CapsuleReply])
    ensures { Puts K.written K.faults sink.old sink.new out.old out.new
        (concat (map capsule_line replies.now)) }
{
    'replies: for reply in replies {
        put_line(out, sink, reply);
    }
}

fn put_capsules<K: Sink>(
    out: &mut Buffer,
    sink: &mut K,
    keys: &KeyReplies,
    replies: &[CapsuleReply],
)
    ensures { Puts K.written K.faults sink.old sink.new out.old out.new
        (capsules_text keys.now replies.now) }
{
    out.put_text(sink, b"hpkebatch 2\n");
    put_keys(out, sink, keys.as_slice());
    put_lines(out, sink, replies);
    out.put_text(sink, b"end\n")
}

/// Writes the reply to a batch of capsules: its keys, and its capsule lines in the order of the
/// batch.
///
/// Takes no memory. Once a write failed nothing more is written.
pub fn print_capsules<K: Sink>(keys: &KeyReplies, replies: &[CapsuleReply], sink: &mut K) -> Printed
    ensures whole { result ≡ Printed.Whole
        → Appends (K.written sink.old) (K.written sink.new) (capsules_text keys.now replies.now) }
    ensures no_fault { result ≡ Printed.Whole → K.faults sink.new ≡ K.faults sink.old }
    ensures cut { result ≡ Printed.Failed
        → AppendsPrefix (K.written sink.old) (K.written sink.new)
        (capsules_text keys.now replies.now) }
    ensures failed { result ≡ Printed.Failed → Rose (K.faults sink.old) (K.faults sink.new) }
    ensures later { K.faults sink.old ≤ K.faults sink.new }
{
    let mut out = Buffer::new();
    put_capsules(&mut out, sink, keys, replies);
    out.finish(sink)
}
