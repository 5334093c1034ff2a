//! The replies to keys, each a line that is put into a buffer.

ghost use Rattle.std.specs.Prelude.{◌≡◌};
ghost use Rattle.std.specs.List.{concat};
ghost use Rattle.field_text.specs.Buffers.{Puts};
ghost use Rattle.batch_plans.specs.Words.{key_refusal_word};
ghost use Rattle.batch_plans.specs.Lines.{key_words, key_line};
ghost use Rattle.batch_plans.specs.ReplyText.{numbered};

use batch_io::Sink;
use batch_plans::{KeyRefusal, KeyReply};
use field_text::Buffer;

fn word_of_refusal(refusal: KeyRefusal) -> &'static [u8]
    ensures { result.now ≡ key_refusal_word refusal }
{
    match refusal {
        KeyRefusal::Exhausted => b"exhausted",
        KeyRefusal::NoInverse => b"noinverse",
        KeyRefusal::Length => b"length",
        KeyRefusal::Form => b"form",
    }
}

fn put_key_words<K: Sink>(out: &mut Buffer, sink: &mut K, reply: &KeyReply)
    ensures { Puts K.written K.faults sink.old sink.new out.old out.new (key_words reply.now) }
{
    match reply {
        KeyReply::Generated { public, secret } => {
            out.put_text(sink, b"generated ");
            out.put_hex(sink, public.as_slice());
            out.put_text(sink, b" ");
            out.put_hex(sink, secret.as_slice())
        }
        KeyReply::Secret { public } => {
            out.put_text(sink, b"secret ");
            out.put_hex(sink, public.as_slice())
        }
        KeyReply::Peer => out.put_text(sink, b"peer"),
        KeyReply::Refused(refusal) => {
            out.put_text(sink, b"refused ");
            out.put_text(sink, word_of_refusal(*refusal))
        }
    }
}

pub(crate) fn put_key_line<K: Sink>(out: &mut Buffer, sink: &mut K, key: u64, reply: &KeyReply)
    ensures { Puts K.written K.faults sink.old sink.new out.old out.new (key_line key reply.now) }
{
    out.put_text(sink, b"key ");
    out.put_number(sink, key);
    out.put_text(sink, b" ");
    put_key_words(out, sink, reply);
    out.put_text(sink, b"\n")
}

/// Puts the replies to key lines, numbered from 0, behind what is in the buffer.
pub fn put_keys<K: Sink>(out: &mut Buffer, sink: &mut K, keys: &[KeyReply])
    ensures { Puts K.written K.faults sink.old sink.new out.old out.new
        (concat (numbered key_line 0 keys.now)) }
{
    'keys: for (key, reply) in keys.iter().enumerate() {
        put_key_line(out, sink, key as u64, reply);
    }
}
