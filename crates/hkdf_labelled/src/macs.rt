//! HMAC (RFC 2104).

ghost use Rattle.std.specs.Prelude.{◌≡◌, ◌≤◌, ℕ, List, [], ◌++◌, length, take};
ghost use Rattle.hkdf_labelled.specs.Hashers.{kdf_of, Took};
ghost use Rattle.hkdf_labelled.specs.Hmac.{zero_padded, key_block, xor_each, hmac};
ghost use Rattle.hkdf_labelled.specs.Macs.{IsKeyed};
ghost use Rattle.hkdf_labelled.specs.Suites.{hash_size, block_size};

use crate::hashers::Hasher;
use crate::prks::Prk;
use crate::suites::Kdf;

const IPAD: u8 = 0x36;

const OPAD: u8 = 0x5c;

// The bytes, with zero bytes after them.
fn padded(bytes: &[u8]) -> [u8; 128]
    requires { length bytes.now ≤ 128 }
    ensures { result ≡ zero_padded 128 bytes.now }
{
    let mut block = [0; 128];
    block[..bytes.len()].copy_from_slice(bytes);
    block
}

// The key as one block, which stands at the front of the array.
#[tactic(auto, using(crate::proofs::Blocks::block_facts))]
fn block_of(kdf: Kdf, key: &[u8]) -> [u8; 128]
    ensures { take (block_size kdf) result ≡ key_block kdf key.now }
{
    if key.len() > kdf.block_size() {
        let mut hasher = Hasher::new(kdf);
        hasher.update(key);
        let digest = hasher.finish();
        padded(digest.as_slice())
    } else {
        padded(key)
    }
}

// XORs `byte` into each byte.
fn mask(block: &mut [u8], byte: u8)
    ensures { block.new ≡ xor_each block.old byte }
{
    for b in block.iter_mut() {
        *b ^= byte;
    }
}

// A hasher that has taken in the key's block, with each byte XOR `byte`.
#[tactic(auto, using(crate::proofs::Blocks::block_facts))]
fn begun(kdf: Kdf, block: &[u8; 128], byte: u8) -> Hasher
    ensures kdf { kdf_of result ≡ kdf }
    ensures took { Took result (xor_each (take (block_size kdf) block.now) byte) }
{
    let mut hasher = Hasher::new(kdf);
    let mut masked = *block;
    mask(&mut masked, byte);
    hasher.update(&masked[..kdf.block_size()]);
    hasher
}

/// An HMAC (RFC 2104) whose message comes in pieces. Contracts see the KDF, the key and the pieces
/// so far, joined: how a message is cut makes no difference.
#[derive(Drop)]
pub struct Mac {
    inner: Hasher,
    outer: Hasher,
}

impl Mac {
    /// An HMAC under this key, with the empty message so far.
    ///
    /// The key may have any length. One that is longer than a block of the hash function (64 bytes
    /// for SHA-256, else 128) counts as its hash, as the RFC has it.
    pub fn new(kdf: Kdf, key: &[u8]) -> Mac
        ensures { IsKeyed result kdf key.now [] }
    {
        let block = block_of(kdf, key);
        Mac {
            inner: begun(kdf, &block, IPAD),
            outer: begun(kdf, &block, OPAD),
        }
    }

    // An HMAC under the same key, with the same message so far. Copied before it is fed, it spares
    // each further message the hash of the key's two blocks.
    pub(crate) fn copy(&self) -> Mac
        ensures { result ≡ self.now }
    {
        Mac {
            inner: self.inner.copy(),
            outer: self.outer.copy(),
        }
    }

    /// Adds `bytes` to the end of the message.
    pub fn update(&mut self, bytes: &[u8])
        ensures { (kdf : Kdf) (key m : List ℕ) → IsKeyed self.old kdf key m
            → IsKeyed self.new kdf key (m ++ bytes.now) }
    {
        self.inner.update(bytes);
    }

    /// The HMAC of the message.
    #[tactic(auto, using(crate::proofs::Blocks::block_facts), unfolding(crate::specs::Hmac::hmac))]
    pub fn finish(self) -> Prk
        ensures value { (kdf : Kdf) (key m : List ℕ) → IsKeyed self kdf key m
            → result ≡ hmac kdf key m }
        ensures size { (kdf : Kdf) (key m : List ℕ) → IsKeyed self kdf key m
            → length result ≡ hash_size kdf }
    {
        let Mac { inner, mut outer } = self;
        let digest = inner.finish();
        outer.update(digest.as_slice());
        outer.finish()
    }
}

/// HMAC of a message that lies in one piece (RFC 2104).
#[tactic(auto, using(crate::proofs::Blocks::block_facts))]
pub fn hmac(kdf: Kdf, key: &[u8], message: &[u8]) -> Prk
    ensures value { result ≡ hmac kdf key.now message.now }
    ensures size { length result ≡ hash_size kdf }
{
    let mut mac = Mac::new(kdf, key);
    mac.update(message);
    mac.finish()
}
