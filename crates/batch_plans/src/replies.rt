//! What a batch is answered with.

use byte_strings::{ByteList, PlainList};
use call_places::{Entry, Mark, Span};

/// The replies to the key lines, in their order.
pub type KeyReplies = PlainList<KeyReply>;

/// The replies to the context lines, in their order, and then to the lines that add contexts.
pub type ContextReplies = PlainList<ContextReply>;

/// The replies of a lane, in the order of its calls and of the items of each call. A call that was
/// refused has one.
pub type ReplyList = PlainList<Reply>;

/// What the openings of several messages of a lane guessed, in the order of its calls. One that was
/// refused has none.
pub type BatchList = PlainList<Batch>;

/// The answers of the lanes, in their order.
pub type LaneAnswerList = PlainList<LaneAnswers>;

/// The journals of the contexts, in the order of the context lines and of those that add contexts.
pub type JournalList = PlainList<PlainList<Mark>>;

/// Entries, the oldest first.
pub type EntryList = PlainList<Entry>;

/// The reply to a key line. A public and a secret key are in the encoding of the KEM.
#[derive(Drop)]
pub enum KeyReply {
    /// The pair was made from the seed.
    Generated { public: ByteList, secret: ByteList },
    /// The secret key stands, and this is its public key.
    Secret { public: ByteList },
    /// The public key stands.
    Peer,
    /// There is no key of this number.
    Refused(KeyRefusal),
}

/// Why there is no key.
#[derive(Clone, Copy, Debug, PartialEq, Eq)]
pub enum KeyRefusal {
    /// No polynomial that was drawn has an inverse modulo 3.
    Exhausted,
    /// The drawn polynomial has no inverse modulo q.
    NoInverse,
    /// The bytes are fewer or more than a key has.
    Length,
    /// The bytes have a key's length and encode none.
    Form,
}

/// The reply to a context line.
#[derive(Drop)]
pub enum ContextReply {
    /// A context over a given `shared_secret`.
    Shared,
    /// A sender's context, and the encapsulation for its recipient (RFC 9180, 5.1).
    Sender { enc: ByteList },
    /// A recipient's context over an encapsulation.
    Recipient,
    /// There is no context of this number.
    Refused(ContextRefusal),
}

/// Why there is no context, in the order in which the causes are tested.
#[derive(Clone, Copy, Debug, PartialEq, Eq)]
pub enum ContextRefusal {
    /// No key has the number that is named, or that key was refused.
    NoKey,
    /// A recipient's key is a public key alone.
    NeedSecret,
    /// The context whose encapsulation is named has none.
    NoEnc,
    /// The encapsulation has not the KEM's length.
    EncSize,
    /// Exactly one of `psk` and `psk_id` is empty (RFC 9180, 5.1, VerifyPSKInputs).
    PskPair,
    /// There is a psk, in mode base.
    PskExtra,
    /// There is no psk, in mode psk.
    PskMissing,
}

/// Why a call is not served, in the order in which the causes are tested: it follows from the batch
/// and its set-up, and where lanes add and retire contexts from the table too.
#[derive(Clone, Copy, Debug, PartialEq, Eq)]
pub enum CallRefusal {
    /// No context has the number that is named, that context was refused, or it isn't live there.
    NoContext,
    /// A recipient was to seal, or a sender to open.
    Role,
    /// An export-only context was to seal or to open (RFC 9180, 7.3).
    NoCipher,
    /// More bytes were to be exported than HKDF-Expand gives (RFC 5869, 2.3).
    ExportSize,
    /// Exactly one of `psk` and `psk_id` of a context to be added is empty (RFC 9180, 5.1,
    /// VerifyPSKInputs).
    PskPair,
    /// A context to be added has a psk, in mode base.
    PskExtra,
    /// A context to be added has no psk, in mode psk.
    PskMissing,
}

/// The reply to an item of a call. Spans are of the pool of the lane, and a number is the sequence
/// number of its context (RFC 9180, 5.2) at which the item was sealed or opened.
#[derive(Clone, Copy, Debug, PartialEq, Eq)]
pub enum Reply {
    /// No reply was given. It is printed as nothing.
    Blank,
    /// A ciphertext with its tag.
    Sealed { number: u64, text: Span },
    /// A plaintext.
    Opened { number: u64, text: Span },
    /// The tag does not hold at this number, which was due.
    Failed { number: u64 },
    /// The sequence number stands at the context's limit.
    Limit,
    /// An exported secret (RFC 9180, 5.3).
    Exported { text: Span },
    /// The call was not served.
    Refused(CallRefusal),
    /// The context was added.
    Added,
    /// The context was retired.
    Retired,
}

/// What an opening of several messages guessed of its context.
#[derive(Clone, Copy, Debug, PartialEq, Eq)]
pub struct Batch {
    /// The sequence number that it expected at its first message.
    pub guess: u64,
    /// How many of its messages had numbers that it hadn't tested.
    pub missed: u32,
}

/// What a lane is answered with: its replies, the bytes that they name, and its guesses.
#[derive(Drop)]
pub struct LaneAnswers {
    pub pool: ByteList,
    pub replies: ReplyList,
    pub batches: BatchList,
}

/// What a batch is answered with.
///
/// A journal has the places of the seals and opens that its context served, in the order in which
/// it served them, each with its stamp; that of a refused context is empty. The notes tell where
/// contexts were added, retired and looked up while lanes were served.
#[derive(Drop)]
pub struct Answers {
    pub keys: KeyReplies,
    pub contexts: ContextReplies,
    pub lanes: LaneAnswerList,
    pub journals: JournalList,
    pub notes: EntryList,
}
