//! What a demonstration tells.

ghost use Rattle.std.specs.Prelude.{◌≡◌, ◌≤◌, ℕ, None};
ghost use Rattle.std.specs.List.{concat};
ghost use Rattle.sha2.specs.Sha256.{sha256};
ghost use Rattle.demo_runs.specs.Demo.{IsDemo};
ghost use Rattle.demo_runs.specs.Batches.{IsSealed, HasOpened};

use crate::batches::ServedBatch;
use crate::ciphertext_bytes::CIPHERTEXT_SIZE;
use crate::opening::opened_messages;
use crate::report_lines::DemoReport;
use crate::sealing::Ciphertexts;
use sha2::{Digest, Sha256};

// The SHA-256 of ciphertexts, joined.
fn hash_of(cts: &[[u8; CIPHERTEXT_SIZE]]) -> [u8; 32]
    ensures { result ≡ sha256 (concat cts.now) }
{
    let mut hasher = Sha256::new();
    'ciphertexts: for ct in cts {
        hasher.update(ct);
    }
    hasher.finalize()
}

/// The report on so many messages, once the lane of the second batch was served.
pub fn report(messages: u32, served: ServedBatch, cts: &Ciphertexts) -> DemoReport
    requires { (seed : ℕ) × HasOpened seed messages cts.now served }
    ensures report { (seed : ℕ) → HasOpened seed messages cts.now served
        → IsDemo seed messages result }
    ensures opened { result.opened ≤ result.messages }
{
    DemoReport {
        messages,
        opened: opened_messages(messages, served),
        hash: hash_of(cts.as_slice()),
    }
}

/// The report where the seed gives no key: nothing was sealed, and none opened.
pub fn report_without_key(messages: u32) -> DemoReport
    ensures report { (seed : ℕ) → IsSealed seed messages None → IsDemo seed messages result }
    ensures opened { result.opened ≤ result.messages }
{
    DemoReport {
        messages,
        opened: 0,
        hash: hash_of(&[]),
    }
}
