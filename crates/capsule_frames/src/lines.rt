//! What a batch of capsules asks for.

use batch_plans::{EncField, PlainList, Plan};
use call_places::Span;
use hkdf_labelled::{Aead, Kdf};

/// A line that makes, answers or reads a message of RFC 9458, 4. The lines of each kind are numbered
/// from 0. Spans name bytes of the plan's pool.
#[derive(Clone, Copy, Debug, PartialEq, Eq)]
pub enum CapsuleLine {
    /// A client's request to a key, under a key identifier, with a text.
    Ask {
        key: u32,
        id: u8,
        kdf: Kdf,
        aead: Aead,
        text: Span,
    },
    /// A gateway's answer to a request, given or made by an ask, with a nonce and a text.
    Answer {
        key: u32,
        id: u8,
        request: EncField,
        nonce: Span,
        text: Span,
    },
    /// What the client of an ask takes of a response, given or made by an answer.
    Take {
        ask: u32,
        response: EncField,
    },
}

/// The capsule lines, in the order of the text.
pub type CapsuleLines = PlainList<CapsuleLine>;

/// What a batch of capsules spells: a plan of seed and keys alone, whose pool has the bytes of all
/// lines, and the capsule lines.
#[derive(Drop)]
pub struct CapsulePlan {
    pub plan: Plan,
    pub lines: CapsuleLines,
}
