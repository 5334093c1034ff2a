//! Counter blocks (SP 800-38D, 6.2 and 7.1).

ghost use Rattle.std.specs.Prelude.{◌≡◌, ◌<◌, ◌^◌};
ghost use Rattle.aes_gcm.specs.Gcm.{counter_block};

/// A block of the cipher.
pub(crate) type Block = [u8; 16];

/// As many blocks as the cipher takes at once.
pub(crate) type Blocks = [Block; 8];

// J0 with its last 32 bits raised by `i`.
#[tactic(auto, unfolding(crate::specs::Gcm::counter_block))]
pub(crate) fn counter_block(nonce: &[u8; 12], i: u64) -> Block
    requires { i < 2 ^ 63 }
    ensures { result ≡ counter_block nonce.now i }
{
    let counter = ((1 + i) % (1 << 32)) as u32;
    let mut block = [0u8; 16];
    block[..12].copy_from_slice(nonce);
    block[12..].copy_from_slice(&counter.to_be_bytes());
    block
}
