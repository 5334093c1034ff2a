//! Laws of the definitions, each the contract of a function that does no work.

ghost use Rattle.std.specs.Prelude.{◌≡◌, ◌+◌, []};
ghost use Rattle.byte_strings.specs.Bytes.{i2osp};
ghost use Rattle.aes_gcm.specs.Gcm.{inc32, counter_block, seal, Holds, clear};

use crate::key::GcmKey;

/// Each counter block is inc32 of the one before (SP 800-38D, 6.2). The first is J0.
#[tactic(auto, using(crate::proofs::Streams::counters))]
pub fn counter_blocks_go_by_inc32(nonce: &[u8; 12], i: u64)
    ensures { counter_block nonce.now (i + 1) ≡ inc32 (counter_block nonce.now i) }
{}

/// What was sealed opens, with the same key, nonce and aad, to its text.
pub fn opens_what_was_sealed(key: &GcmKey, nonce: &[u8; 12], aad: &[u8], text: &[u8])
    ensures holds { Holds key.now nonce.now aad.now (seal key.now nonce.now aad.now text.now) }
    ensures text { clear key.now nonce.now (seal key.now nonce.now aad.now text.now) ≡ text.now }
{
    // Reading the key tells the proof its invariant, by which the key has 16 or 32 bytes.
    let _ = &key.aes;
}

/// The first two test cases of a specification of GCM (McGrew and Viega, The Galois/Counter Mode of
/// Operation, appendix B), by the definition: no text and 16 zero bytes, with zero key and IV.
#[tactic(auto, using(crate::proofs::Published::seals))]
pub fn seal_is_that_published()
    ensures no_text { seal (i2osp 0 16) (i2osp 0 12) [] []
        ≡ i2osp 0x58e2fccefa7e3061367f1d57a4e7455a 16 }
    ensures one_block { seal (i2osp 0 16) (i2osp 0 12) [] (i2osp 0 16)
        ≡ i2osp 0x0388dace60b6a392f328c2b971b2fe78ab6e47d42cec13bdf53a67b21257bddf 32 }
{}
