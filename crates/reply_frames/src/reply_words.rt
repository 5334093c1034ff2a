//! The words of refusals and reasons in the reply text.

ghost use Rattle.std.specs.Prelude.{◌≡◌};
ghost use Rattle.batch_plans.specs.Words.{context_refusal_word, call_refusal_word, reason_word};

use batch_plans::{CallRefusal, ContextRefusal};
use field_text::Reason;

pub(crate) fn word_of_context_refusal(refusal: ContextRefusal) -> &'static [u8]
    ensures { result.now ≡ context_refusal_word refusal }
{
    match refusal {
        ContextRefusal::NoKey => b"nokey",
        ContextRefusal::NeedSecret => b"needsecret",
        ContextRefusal::NoEnc => b"noenc",
        ContextRefusal::EncSize => b"encsize",
        ContextRefusal::PskPair => b"pskpair",
        ContextRefusal::PskExtra => b"pskextra",
        ContextRefusal::PskMissing => b"pskmissing",
    }
}

pub(crate) fn word_of_call_refusal(refusal: CallRefusal) -> &'static [u8]
    ensures { result.now ≡ call_refusal_word refusal }
{
    match refusal {
        CallRefusal::NoContext => b"nocontext",
        CallRefusal::Role => b"role",
        CallRefusal::NoCipher => b"nocipher",
        CallRefusal::ExportSize => b"exportsize",
        CallRefusal::PskPair => b"pskpair",
        CallRefusal::PskExtra => b"pskextra",
        CallRefusal::PskMissing => b"pskmissing",
    }
}

pub(crate) fn word_of_reason(reason: Reason) -> &'static [u8]
    ensures { result.now ≡ reason_word reason }
{
    match reason {
        Reason::Header => b"header",
        Reason::Word => b"word",
        Reason::Fields => b"fields",
        Reason::Number => b"number",
        Reason::Hex => b"hex",
        Reason::Range => b"range",
        Reason::Order => b"order",
        Reason::Count => b"count",
        Reason::Size => b"size",
        Reason::NoEnd => b"noend",
        Reason::Trailing => b"trailing",
    }
}
