//! What the key schedule is given of the KEM.

use batch_plans::{ByteList, ContextReply};

/// What the key schedule of a context is given of the KEM, and the reply to the context's line
/// where it stands.
#[derive(Drop)]
pub(crate) struct Exchange {
    /// The KEM's id in `suite_id` (RFC 9180, 5.1).
    pub(crate) kem: u16,
    pub(crate) shared_secret: ByteList,
    pub(crate) reply: ContextReply,
}
