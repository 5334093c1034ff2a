//! HPKE's labelled forms of HKDF (RFC 9180, 4).

ghost use Rattle.std.specs.Prelude.{◌≡◌, ◌≤◌, ◌*◌, ◌++◌, length, codes};
ghost use Rattle.byte_strings.specs.Bytes.{i2osp};
ghost use Rattle.hkdf_labelled.specs.Labels.{suite_id, labeled_extract_with, labeled_expand_with, labeled_extract, labeled_expand};
ghost use Rattle.hkdf_labelled.specs.Suites.{hash_size};

use crate::hkdf::expand_parts;
use crate::macs::Mac;
use crate::prks::Prk;
use crate::suites::{Kdf, Suite};

/// suite_id (RFC 9180, 5.1): "HPKE" and the numbers of the KEM, the KDF and the AEAD, in two bytes
/// each. Each labelled form takes it in, which binds what it gives to the suite.
pub fn suite_id(suite: &Suite) -> [u8; 10]
    ensures { result ≡ suite_id suite.now }
{
    let [kem1, kem0] = suite.kem.to_be_bytes();
    let [kdf1, kdf0] = suite.kdf.id().to_be_bytes();
    let [aead1, aead0] = suite.aead.id().to_be_bytes();
    [b'H', b'P', b'K', b'E', kem1, kem0, kdf1, kdf0, aead1, aead0]
}

/// LabeledExtract(salt, label, ikm) with a suite_id (RFC 9180, 4): HPKE's own forms have
/// [`suite_id`], and those of a KEM "KEM" and its number.
pub fn labeled_extract_with(kdf: Kdf, suite_id: &[u8], salt: &[u8], label: &[u8], ikm: &[u8]) -> Prk
    ensures value { result ≡ labeled_extract_with kdf suite_id.now salt.now label.now ikm.now }
    ensures size { length result ≡ hash_size kdf }
{
    let mut mac = Mac::new(kdf, salt);
    mac.update(b"HPKE-v1");
    mac.update(suite_id);
    mac.update(label);
    mac.update(ikm);
    mac.finish()
}

/// LabeledExtract(salt, label, ikm) of HPKE (RFC 9180, 4).
pub fn labeled_extract(suite: &Suite, salt: &[u8], label: &[u8], ikm: &[u8]) -> Prk
    ensures value { result ≡ labeled_extract suite.now salt.now label.now ikm.now }
    ensures size { length result ≡ hash_size suite.now.kdf }
{
    labeled_extract_with(suite.kdf, &suite_id(suite), salt, label, ikm)
}

// What stands before the suite_id in LabeledExpand: the length asked for, and the version.
pub(crate) fn expand_prefix(len: u16) -> [u8; 9]
    ensures { result ≡ i2osp len 2 ++ codes "HPKE-v1" }
{
    let mut prefix = *b"..HPKE-v1";
    prefix[..2].copy_from_slice(&len.to_be_bytes());
    prefix
}

/// LabeledExpand(prk, label, info, L) with a suite_id (RFC 9180, 4): fills `out`, whose length is L.
///
/// L is hashed too, which sets a shorter output apart from the front of a longer one. L is at most
/// 255 Nh, as in HKDF-Expand; two bytes hold that for each KDF.
pub fn labeled_expand_with(
    kdf: Kdf,
    suite_id: &[u8],
    prk: &[u8],
    label: &[u8],
    info: &[u8],
    out: &mut [u8],
)
    requires { length out.old ≤ 255 * hash_size kdf }
    ensures { out.new
        ≡ labeled_expand_with kdf suite_id.now prk.now label.now info.now (length out.old) }
{
    let prefix = expand_prefix(out.len() as u16);
    let keyed = Mac::new(kdf, prk);
    expand_parts(kdf, keyed, &prefix, suite_id, label, info, out);
}

/// LabeledExpand(prk, label, info, L) of HPKE, as [`labeled_expand_with`].
pub fn labeled_expand_into(suite: &Suite, prk: &[u8], label: &[u8], info: &[u8], out: &mut [u8])
    requires { length out.old ≤ 255 * hash_size suite.now.kdf }
    ensures { out.new
        ≡ labeled_expand suite.now prk.now label.now info.now (length out.old) }
{
    labeled_expand_with(suite.kdf, &suite_id(suite), prk, label, info, out);
}
