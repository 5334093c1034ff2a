//! What capsule lines leave for later ones.

ghost use Rattle.std.specs.Prelude.{◌≡◌, ◌++◌, [], ◌∷◌, OnOk, IsOkAnd};

use crate::known::KnownText;
use crate::replies::CapsuleRefusal;
use byte_strings::ByteList;
use ohttp_capsule::Asked;
use std::alloc::AllocError as OutOfMemory;
use std::marker::Model;

/// What a client has of an ask that was made: what it keeps, and the request. They are within the
/// limits of [`answer`](ohttp_capsule::answer) and [`take`](ohttp_capsule::take). Its text is that
/// of the plan, by which an answer's text is known.
#[derive(Drop)]
pub(crate) struct Sent<'p> {
    asked: Asked,
    request: ByteList,
    text: &'p [u8],
}

impl<'p> Model for Sent<'p> {
    ghost use Rattle.std.specs.Prelude.{◌≤◌, length};
    ghost use Rattle.hpke_context.specs.Calls.{HasCipher};
    ghost use Rattle.capsule_frames.specs.Results.{SentView};

    ghost Value = { SentView };

    ghost view = { λ s. record { asked = s.asked; request = s.request } };

    ghost invariant = { λ s. HasCipher s.asked.context × (length s.asked.enc ≤ 1184)
        × (length s.request ≤ 1049783) };
}

impl<'p> Sent<'p> {
    ghost use Rattle.std.specs.Prelude.{◌≡◌, ◌≤◌, length};
    ghost use Rattle.hpke_context.specs.Calls.{HasCipher};

    pub(crate) fn new(asked: Asked, request: ByteList, text: &'p [u8]) -> Sent<'p>
        requires cipher { HasCipher asked.context }
        requires enc { length asked.enc ≤ 1184 }
        requires request { length request ≤ 1049783 }
        ensures { result ≡ record { asked = asked; request = request } }
    {
        Sent {
            asked,
            request,
            text,
        }
    }

    pub(crate) fn asked(&self) -> &Asked
        ensures asked { result.now ≡ self.now.asked }
        ensures cipher { HasCipher result.now.context }
        ensures enc { length result.now.enc ≤ 1184 }
    {
        &self.asked
    }

    pub(crate) fn request(&self) -> &[u8]
        ensures request { result.now ≡ self.now.request }
        ensures size { length result.now ≤ 1049783 }
    {
        self.request.as_slice()
    }

    /// The text of the ask, in the plan.
    pub(crate) fn text(&self) -> &'p [u8] {
        self.text
    }

    pub(crate) fn into_request(self) -> ByteList
        ensures { result ≡ self.entry.request }
    {
        self.request
    }
}

/// What a gateway has of an answer that was given: the text of the request, and the response, which
/// is within the limit of [`take`](ohttp_capsule::take). What it said is the text of the plan, by
/// which the text of a take is known.
#[derive(Drop)]
pub(crate) struct Given<'p> {
    text: KnownText<'p>,
    response: ByteList,
    said: &'p [u8],
}

impl<'p> Model for Given<'p> {
    ghost use Rattle.std.specs.Prelude.{◌≤◌, length};
    ghost use Rattle.capsule_frames.specs.Results.{GivenView};

    ghost Value = { GivenView };

    ghost view = { λ g. record { text = g.text; response = g.response } };

    ghost invariant = { λ g. length g.response ≤ 1048624 };
}

impl<'p> Given<'p> {
    ghost use Rattle.std.specs.Prelude.{◌≡◌, ◌≤◌, length};

    /// A text, a response, and what it says.
    pub(crate) fn new(text: KnownText<'p>, response: ByteList, said: &'p [u8]) -> Given<'p>
        requires { length response ≤ 1048624 }
        ensures { result ≡ record { text = text.entry; response = response } }
    {
        Given {
            text,
            response,
            said,
        }
    }

    /// The text that was answered with, in the plan.
    pub(crate) fn said(&self) -> &'p [u8] {
        self.said
    }

    pub(crate) fn response(&self) -> &[u8]
        ensures response { result.now ≡ self.now.response }
        ensures size { length result.now ≤ 1048624 }
    {
        self.response.as_slice()
    }

    pub(crate) fn into_parts(self) -> (KnownText<'p>, ByteList)
        ensures text { result.0 ≡ self.entry.text }
        ensures response { result.1 ≡ self.entry.response }
    {
        (self.text, self.response)
    }
}

/// What becomes of an ask, of an answer and of a take.
pub(crate) type AskResult<'p> = Result<Sent<'p>, CapsuleRefusal>;

pub(crate) type AnswerResult<'p> = Result<Given<'p>, CapsuleRefusal>;

pub(crate) type TakeResult<'p> = Result<KnownText<'p>, CapsuleRefusal>;

/// One more behind others. Want of memory drops it.
pub(crate) fn push_last<T: Drop>(list: &mut Vec<T>, last: T) -> Result<(), OutOfMemory>
    ensures { OnOk result (list.new.items ≡ list.old.items ++ last ∷ []) }
{
    Ok(list.push(last)?)
}

/// One more behind others, where it was made. Want of memory drops it.
pub(crate) fn push_made<T: Drop>(
    list: &mut Vec<T>,
    made: Result<T, OutOfMemory>,
) -> Result<(), OutOfMemory>
    ensures { OnOk result (IsOkAnd made (λ last. list.new.items ≡ list.old.items ++ last ∷ [])) }
{
    push_last(list, made?)
}
