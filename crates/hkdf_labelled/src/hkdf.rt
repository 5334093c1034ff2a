//! HKDF (RFC 5869).

ghost use Rattle.std.specs.Prelude.{◌≡◌, ◌≤◌, ◌*◌, ◌+◌, ◌-◌, ◌++◌, ◌∷◌, [], ℕ, List, length, min, take};
ghost use Rattle.hkdf_labelled.specs.Hkdf.{extract, expand};
ghost use Rattle.hkdf_labelled.specs.Hmac.{hmac as hmac_of};
ghost use Rattle.hkdf_labelled.specs.Macs.{IsKeyed};
ghost use Rattle.hkdf_labelled.specs.Suites.{hash_size};

use crate::macs::{Mac, hmac};
use crate::prks::Prk;
use crate::suites::Kdf;

/// HKDF-Extract (RFC 5869, 2.2): a pseudorandom key out of input keying material.
///
/// No salt is the empty slice. The RFC's default of Nh zero bytes gives the same key, since both
/// fill the HMAC's block with zero bytes.
pub fn extract(kdf: Kdf, salt: &[u8], ikm: &[u8]) -> Prk
    ensures value { result ≡ extract kdf salt.now ikm.now }
    ensures size { length result ≡ hash_size kdf }
{
    hmac(kdf, salt, ikm)
}

// The output block after `previous`, numbered `counter`. The MAC has the key, and no message yet.
// The info is `prefix`, `suite_id`, `label` and `info` joined.
fn next_block(
    mac: Mac,
    previous: &Prk,
    prefix: &[u8],
    suite_id: &[u8],
    label: &[u8],
    info: &[u8],
    counter: u8,
) -> Prk
    ensures value { (kdf : Kdf) (prk : List ℕ) → IsKeyed mac kdf prk []
        → result ≡ hmac_of kdf prk
        (previous.now ++ (prefix.now ++ suite_id.now ++ label.now ++ info.now) ++ counter ∷ []) }
    ensures size { (kdf : Kdf) (prk : List ℕ) → IsKeyed mac kdf prk []
        → length result ≡ hash_size kdf }
{
    let mut mac = mac;
    mac.update(previous.as_slice());
    mac.update(prefix);
    mac.update(suite_id);
    mac.update(label);
    mac.update(info);
    mac.update(&[counter]);
    mac.finish()
}

// Copies as much of `bytes` as fits into `out` from `at` on, and says how much that is.
fn copy_at(out: &mut [u8], at: usize, bytes: &[u8]) -> usize
    requires { at ≤ length out.old }
    ensures count { result ≡ min (length bytes.now) (length out.old - at) }
    ensures bytes { take (at + result) out.new ≡ take at out.old ++ take result bytes.now }
{
    let count = bytes.len().min(out.len() - at);
    out[at..at + count].copy_from_slice(&bytes[..count]);
    count
}

// HKDF-Expand under the PRK that the MAC has as its key, with no message yet. The info is `prefix`,
// `suite_id`, `label` and `info` joined. It comes in parts, since joining them would take memory.
pub(crate) fn expand_parts(
    kdf: Kdf,
    keyed: Mac,
    prefix: &[u8],
    suite_id: &[u8],
    label: &[u8],
    info: &[u8],
    out: &mut [u8],
)
    requires keyed { (prk : List ℕ) × IsKeyed keyed kdf prk [] }
    requires blocks { length out.old ≤ 255 * hash_size kdf }
    ensures { (prk : List ℕ) → IsKeyed keyed kdf prk []
        → out.new ≡ expand kdf prk (prefix.now ++ suite_id.now ++ label.now ++ info.now)
        (length out.old) }
{
    let mut previous = Prk::from_slice(&[]);
    let mut counter = 0u8;
    let mut filled = 0;
    'filling: while out.len() - filled > kdf.size() {
        counter += 1;
        previous = next_block(
            keyed.copy(),
            &previous,
            prefix,
            suite_id,
            label,
            info,
            counter,
        );
        filled += copy_at(out, filled, previous.as_slice());
    }
    let last = next_block(keyed, &previous, prefix, suite_id, label, info, counter + 1);
    copy_at(out, filled, last.as_slice());
}

/// HKDF-Expand (RFC 5869, 2.3): fills `out` with output keying material bound to `info`.
///
/// `out.len()` is the RFC's L, and at most 255 Nh, since one byte numbers the blocks. The RFC asks
/// for a `prk` of at least Nh bytes; any length is taken here.
pub fn expand_into(kdf: Kdf, prk: &[u8], info: &[u8], out: &mut [u8])
    requires { length out.old ≤ 255 * hash_size kdf }
    ensures { out.new ≡ expand kdf prk.now info.now (length out.old) }
{
    expand_parts(kdf, Mac::new(kdf, prk), &[], &[], &[], info, out);
}
