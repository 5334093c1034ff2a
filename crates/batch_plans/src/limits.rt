//! How large a batch may be. Sizes are in bytes.

pub use hkdf_labelled::TAG_SIZE;

/// The whole input.
pub const MOST_INPUT: usize = 67_108_864;

/// The key lines.
pub const MOST_KEYS: usize = 64;

/// The context lines and the lines that add contexts, together.
pub const MOST_CONTEXTS: usize = 256;

/// The lanes.
pub const MOST_LANES: usize = 16;

/// The items of one call that opens several.
pub const MOST_OPENING: usize = 4_096;

/// The items in all lanes.
pub const MOST_ITEMS: usize = 65_536;

/// The sum of all exports.
pub const MOST_EXPORTED: u32 = 16_777_216;

/// AAD, and each other bytes field that has no limit of its own.
pub const MOST_FIELD: usize = 65_535;

/// PT.
pub const MOST_PLAINTEXT: usize = 1_048_576;

/// CT: a plaintext and its tag.
pub const MOST_CIPHERTEXT: usize = 1_048_592;
