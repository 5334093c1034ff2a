//! What a call answers, beside 0 for done. The header names these numbers too. Those below 8 are the
//! command's exit statuses.

/// A length doesn't fit, or a number names nothing.
pub(crate) const WRONG_USAGE: u32 = 2;

/// The text isn't a batch.
pub(crate) const BAD_BATCH: u32 = 3;

/// The caller's memory is too small for the text.
pub(crate) const NO_ROOM: u32 = 5;

/// Memory ran out.
pub(crate) const NO_MEMORY: u32 = 6;

/// The result isn't one that `run` may give for the batch.
pub(crate) const BROKEN: u32 = 7;

/// A recipient doesn't seal, and a sender doesn't open.
pub(crate) const REFUSED_ROLE: u32 = 8;

/// The context is export-only.
pub(crate) const REFUSED_NOCIPHER: u32 = 9;

/// The numbers below LIMIT are used.
pub(crate) const REFUSED_LIMIT: u32 = 10;

/// The tag doesn't hold.
pub(crate) const REFUSED_FAILED: u32 = 11;

/// More bytes are asked for than one export gives.
pub(crate) const REFUSED_EXPORTSIZE: u32 = 12;

/// None of the polynomials that were drawn for g has an inverse.
pub(crate) const REFUSED_EXHAUSTED: u32 = 13;

/// 3f has no inverse.
pub(crate) const REFUSED_NOINVERSE: u32 = 14;

/// The bytes encode no secret key.
pub(crate) const REFUSED_FORM: u32 = 15;

/// One of psk and psk_id is missing.
pub(crate) const REFUSED_PSKPAIR: u32 = 16;

/// Mode base takes no psk.
pub(crate) const REFUSED_PSKEXTRA: u32 = 17;

/// Mode psk needs a psk.
pub(crate) const REFUSED_PSKMISSING: u32 = 18;

/// A part of the message is missing.
pub(crate) const REFUSED_SHORT: u32 = 20;

/// The header names another key, or algorithms that don't encrypt.
pub(crate) const REFUSED_HEADER: u32 = 21;

/// The nonce of the response has another size than its AEAD asks for.
pub(crate) const REFUSED_NONCESIZE: u32 = 22;
