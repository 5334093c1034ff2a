//! What capsule lines are answered.

use crate::known::KnownText;
use batch_plans::ByteList;

/// Why a capsule line is refused.
#[derive(Clone, Copy, Debug, PartialEq, Eq)]
pub enum CapsuleRefusal {
    /// There is no key of this number that stands.
    NoKey,
    /// The key is another's, of which the secret half is not known.
    NeedSecret,
    /// There is no earlier ask of this number that was made.
    NoAsk,
    /// There is no earlier answer of this number that was given.
    NoAnswer,
    /// The message is too short.
    Short,
    /// The header of the request names another key or other algorithms.
    Header,
    /// The nonce has another size than the header asks for.
    NonceSize,
    /// The tag does not hold.
    Failed,
}

/// What a capsule line is answered.
#[derive(Drop)]
pub enum CapsuleReply<'a> {
    /// The request.
    Asked {
        request: ByteList,
    },
    /// The text of the request, and the response.
    Answered {
        text: KnownText<'a>,
        response: ByteList,
    },
    /// The text of the response.
    Took {
        text: KnownText<'a>,
    },
    Refused(CapsuleRefusal),
}
