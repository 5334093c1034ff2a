//! What a batch asks for.

ghost use Rattle.std.specs.Prelude.{◌≡◌};
ghost use Rattle.batch_plans.specs.Calls.{context_role};
ghost use Rattle.batch_plans.specs.KeyLines.{key_line, set_of, source_of};
ghost use Rattle.batch_plans.specs.Room.{takes_numbers};

use byte_strings::{ByteList, PlainList};
use call_places::{Item, Span};
use hkdf_labelled::{Aead, Kdf};
use key_schedule::{Mode, Role};

/// The key lines of a batch, which are numbered from 0.
pub type KeyLines = PlainList<KeyLine>;

/// The context lines of a batch, which are numbered from 0, and behind them those that add contexts.
pub type ContextLines = PlainList<ContextLine>;

/// The items of all calls that open several, in the order of the text.
pub type ItemList = PlainList<Item>;

/// The lanes of a batch, each the list of its calls. Both are numbered from 0.
pub type LaneLines = PlainList<PlainList<CallLine>>;

/// A whole batch, as its text spells it.
#[derive(Drop)]
pub struct Plan {
    /// The version of the batch text, 1 or 2.
    pub version: u8,
    /// The seed of all random bytes, where the batch gives one.
    pub seed: Option<[u8; 32]>,
    /// The bytes of all bytes fields but the seed's, one after the other in the order of the text.
    pub pool: ByteList,
    pub keys: KeyLines,
    pub contexts: ContextLines,
    pub items: ItemList,
    pub lanes: LaneLines,
    /// How many of the contexts are set up by `add` lines: the last ones. They are named apart, from
    /// 0, and a call may name one only where its lanes add contexts while they are served.
    pub added: u32,
}

/// A key pair of a KEM, sntrup761 or sntrup857, or the public half of one.
#[derive(Clone, Copy, Debug, PartialEq, Eq)]
pub enum KeyLine {
    /// A pair made from the seed.
    Generate,
    /// The pair of this private key.
    Secret(Span),
    /// Another's public key.
    Peer(Span),
    /// A pair of sntrup857, made from the seed.
    Generate857,
    /// The pair of this private key of sntrup857.
    Secret857(Span),
    /// Another's public key of sntrup857.
    Peer857(Span),
}

/// Where a key comes from.
#[derive(Clone, Copy, Debug, PartialEq, Eq)]
pub enum KeySource {
    /// A pair made from the seed.
    Generate,
    /// The pair of this private key.
    Secret(Span),
    /// Another's public key.
    Peer(Span),
}

/// A parameter set of Streamlined NTRU Prime.
#[derive(Clone, Copy, Debug, PartialEq, Eq)]
pub enum KeySet {
    Sntrup761,
    Sntrup857,
}

impl KeyLine {
    /// The line of a key of this set, from this source.
    pub fn of(set: KeySet, source: KeySource) -> KeyLine
        ensures { result ≡ key_line set source }
    {
        match (set, source) {
            (KeySet::Sntrup761, KeySource::Generate) => KeyLine::Generate,
            (KeySet::Sntrup761, KeySource::Secret(bytes)) => KeyLine::Secret(bytes),
            (KeySet::Sntrup761, KeySource::Peer(bytes)) => KeyLine::Peer(bytes),
            (KeySet::Sntrup857, KeySource::Generate) => KeyLine::Generate857,
            (KeySet::Sntrup857, KeySource::Secret(bytes)) => KeyLine::Secret857(bytes),
            (KeySet::Sntrup857, KeySource::Peer(bytes)) => KeyLine::Peer857(bytes),
        }
    }

    /// The set of the key.
    pub fn set(&self) -> KeySet
        ensures { result ≡ set_of self.now }
    {
        match *self {
            KeyLine::Generate857 | KeyLine::Secret857(_) | KeyLine::Peer857(_) => KeySet::Sntrup857,
            KeyLine::Generate | KeyLine::Secret(_) | KeyLine::Peer(_) => KeySet::Sntrup761,
        }
    }

    /// Where the key comes from.
    pub fn source(&self) -> KeySource
        ensures { result ≡ source_of self.now }
    {
        match *self {
            KeyLine::Generate | KeyLine::Generate857 => KeySource::Generate,
            KeyLine::Secret(bytes) | KeyLine::Secret857(bytes) => KeySource::Secret(bytes),
            KeyLine::Peer(bytes) | KeyLine::Peer857(bytes) => KeySource::Peer(bytes),
        }
    }
}

/// Where a line finds a message: the encapsulation of a recipient's context, or a capsule.
#[derive(Clone, Copy, Debug, PartialEq, Eq)]
pub enum EncField {
    /// The line gives its bytes.
    Bytes(Span),
    /// It is that of the line of this number: of a sender's context, or of what made the capsule.
    Of(u32),
}

/// Where a context's shared secret comes from.
#[derive(Clone, Copy, Debug, PartialEq, Eq)]
pub enum ContextKind {
    /// `shared_secret` (RFC 9180, 5.1) is given, with the KEM's id that goes into `suite_id`.
    Share { role: Role, kem: u16, secret: Span },
    /// A sender's, by Encap to the public key of this number (RFC 9180, 5.1.1, SetupBaseS).
    Send { key: u32 },
    /// A recipient's, by Decap with the secret key of this number (RFC 9180, 5.1.1, SetupBaseR).
    Recv { key: u32, enc: EncField },
}

impl ContextKind {
    /// Whose context it is, the sender's or the recipient's (RFC 9180, 5.1).
    pub fn role(&self) -> Role
        ensures { result ≡ context_role self.now }
    {
        match *self {
            ContextKind::Share { role, .. } => role,
            ContextKind::Send { .. } => Role::Sender,
            ContextKind::Recv { .. } => Role::Recipient,
        }
    }
}

/// The set-up of one context (RFC 9180, 5.1). Spans are of the plan's pool.
#[derive(Clone, Copy, Debug, PartialEq, Eq)]
pub struct ContextLine {
    pub kind: ContextKind,
    pub kdf: Kdf,
    pub aead: Aead,
    pub mode: Mode,
    pub info: Span,
    pub psk: Span,
    pub psk_id: Span,
    /// How many messages the context may seal or open.
    pub limit: u64,
}

/// One call of a lane, on the context of this number. Spans are of the plan's pool.
///
/// A context line has a number below 65,536; the context of `add` line K is called by 65,536 + K.
#[derive(Clone, Copy, Debug, PartialEq, Eq)]
pub enum CallLine {
    /// `ContextS.Seal(aad, pt)` (RFC 9180, 5.2), with the item's text as pt.
    Seal {
        context: u32,
        item: Item,
    },
    /// `ContextR.Open(aad, ct)` (RFC 9180, 5.2), with the item's text as ct.
    Unseal {
        context: u32,
        item: Item,
    },
    /// `ContextR.Open(aad, ct)` (RFC 9180, 5.2) of `count` of the plan's items from `first` on, one
    /// after another.
    UnsealAll {
        context: u32,
        first: u32,
        count: u32,
    },
    /// `Context.Export(exporter_context, L)` (RFC 9180, 5.3), with `size` as L, in bytes.
    Export {
        context: u32,
        exporter: Span,
        size: u32,
    },
    /// From here on the context of the `add` line of this number may be called.
    Add {
        name: u32,
    },
    /// From here on the context of the `add` line of this number may not be called.
    Retire {
        name: u32,
    },
}

/// What a call does, whatever its form.
#[derive(Clone, Copy, Debug, PartialEq, Eq)]
pub enum CallKind {
    /// `ContextS.Seal` (RFC 9180, 5.2).
    Seal,
    /// `ContextR.Open` (RFC 9180, 5.2), of one item or of several.
    Open,
    /// `Context.Export` (RFC 9180, 5.3).
    Export,
    /// A context may be called from here on.
    Add,
    /// A context may not be called from here on.
    Retire,
}

impl CallKind {
    /// Whether each item takes a sequence number of the context, as a seal and an open do.
    pub fn takes_numbers(self) -> bool
        ensures { result ≡ takes_numbers self }
    {
        matches!(self, CallKind::Seal | CallKind::Open)
    }
}
