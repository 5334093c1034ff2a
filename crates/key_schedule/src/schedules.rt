//! The secrets of a context (RFC 9180, 5.1).

ghost use Rattle.std.specs.Prelude.{◌≡◌, ◌↔◌, [], ◌++◌, ◌+◌, ◌*◌, ◌<◌, ◌≤◌, length, take, codes, IfSome, IsNone, IsSome, IsTrue};
ghost use Rattle.hkdf_labelled.specs.declared.suites.Aead.{Aead};
ghost use Rattle.hkdf_labelled.specs.Suites.{hash_size, parameters, encrypts};
ghost use Rattle.hkdf_labelled.specs.Labels.{labeled_extract, labeled_expand};
ghost use Rattle.key_schedule.specs.Psks.{IsGiven, OneIsMissing};
ghost use Rattle.key_schedule.specs.Secrets.{aead_of, key_bytes, base_nonce_in};
ghost use Rattle.key_schedule.specs.Schedule.{mode_id, key_schedule_context, cipher_secrets, key_schedule};

use crate::modes::Mode;
use crate::psks::{PskFault, verify_psk_inputs};
use arrayvec::ArrayVec;
use hkdf_labelled::{Aead, Prk, Suite, labeled_expand_into, labeled_extract};

/// What a context encrypts with: nothing for an export-only suite, else the AEAD's key (Nk bytes)
/// and base_nonce (Nn bytes), the nonce of message 0.
#[derive(Drop)]
pub enum CipherSecrets {
    /// Export-only
    NoCipher,
    /// AES-128-GCM
    Aes128 { key: [u8; 16], base_nonce: [u8; 12] },
    /// AES-256-GCM
    Aes256 { key: [u8; 32], base_nonce: [u8; 12] },
}

impl CipherSecrets {
    /// The AEAD whose secrets these are.
    pub fn aead(&self) -> Aead
        ensures { result ≡ aead_of self.now }
    {
        match self {
            CipherSecrets::NoCipher => Aead::ExportOnly,
            CipherSecrets::Aes128 { .. } => Aead::Aes128,
            CipherSecrets::Aes256 { .. } => Aead::Aes256,
        }
    }

    /// key: Nk bytes, and none for an export-only suite.
    pub fn key(&self) -> &[u8]
        ensures key { result.now ≡ key_bytes self.now }
        ensures size { length (key_bytes self.now) ≡ (parameters (aead_of self.now)).key_size }
    {
        match self {
            CipherSecrets::NoCipher => &[],
            CipherSecrets::Aes128 { key, .. } => key,
            CipherSecrets::Aes256 { key, .. } => key,
        }
    }

    /// base_nonce: the nonce of message 0. None for an export-only suite.
    pub fn base_nonce(&self) -> Option<&[u8; 12]>
        ensures some { IsSome result ↔ IsTrue (encrypts (aead_of self.now)) }
        ensures none { IsNone result ↔ (aead_of self.now ≡ Aead.ExportOnly) }
        ensures nonce { IfSome result (λ nonce. nonce.now ≡ base_nonce_in self.now) }
    {
        match self {
            CipherSecrets::NoCipher => None,
            CipherSecrets::Aes128 { base_nonce, .. } => Some(base_nonce),
            CipherSecrets::Aes256 { base_nonce, .. } => Some(base_nonce),
        }
    }
}

/// What a context is made of. `exporter` is exporter_secret, of Nh bytes.
#[derive(Drop)]
pub struct Secrets {
    pub cipher: CipherSecrets,
    pub exporter: Prk,
}

// key_schedule_context: the mode's number and the hashes of psk_id and info. 129 bytes hold that of
// the largest hash.
fn key_schedule_context(suite: &Suite, mode: Mode, info: &[u8], psk_id: &[u8]) -> ArrayVec<u8, 129>
    ensures { result.items ≡ key_schedule_context suite.now mode info.now psk_id.now }
{
    let psk_id_hash = labeled_extract(suite, &[], b"psk_id_hash", psk_id);
    let info_hash = labeled_extract(suite, &[], b"info_hash", info);
    let mut context = ArrayVec::<u8, 129>::new();
    context.push(mode.id());
    context
        .try_extend_from_slice(psk_id_hash.as_slice())
        .unwrap();
    context.try_extend_from_slice(info_hash.as_slice()).unwrap();
    context
}

// LabeledExpand to a size that the type of the result gives.
fn expand<const N: usize>(suite: &Suite, secret: &Prk, label: &[u8], context: &[u8]) -> [u8; N]
    requires { N ≤ 255 * hash_size suite.now.kdf }
    ensures { result ≡ labeled_expand suite.now secret.now label.now context.now N }
{
    let mut out = [0; N];
    labeled_expand_into(suite, secret.as_slice(), label, context, &mut out);
    out
}

fn cipher_secrets(suite: &Suite, secret: &Prk, context: &[u8]) -> CipherSecrets
    ensures { result ≡ cipher_secrets suite.now secret.now context.now }
{
    match suite.aead {
        Aead::Aes128 => CipherSecrets::Aes128 {
            key: expand(suite, secret, b"key", context),
            base_nonce: expand(suite, secret, b"base_nonce", context),
        },
        Aead::Aes256 => CipherSecrets::Aes256 {
            key: expand(suite, secret, b"key", context),
            base_nonce: expand(suite, secret, b"base_nonce", context),
        },
        Aead::ExportOnly => CipherSecrets::NoCipher,
    }
}

fn exporter_secret(suite: &Suite, secret: &Prk, context: &[u8]) -> Prk
    ensures { result
        ≡ labeled_expand suite.now secret.now (codes "exp") context.now (hash_size suite.now.kdf) }
{
    let mut bytes = [0u8; 64];
    let exporter = &mut bytes[..suite.kdf.size()];
    labeled_expand_into(suite, secret.as_slice(), b"exp", context, exporter);
    Prk::from_slice(exporter)
}

/// KeySchedule (RFC 9180, 5.1): the secrets of a context, the same at both ends.
///
/// `shared_secret` is what the KEM gave, `info` what the application binds the context to; both may
/// have any length. In mode base `psk` and `psk_id` are empty; in mode psk neither is. The RFC
/// raises an error in the same cases in which a [`PskFault`] comes, and tests them in this order.
/// The key and base_nonce have the sizes of the suite's AEAD; an export-only suite has none.
pub fn schedule(
    suite: &Suite,
    mode: Mode,
    shared_secret: &[u8],
    info: &[u8],
    psk: &[u8],
    psk_id: &[u8],
) -> Result<Secrets, PskFault>
    ensures result { result
        ≡ key_schedule suite.now mode shared_secret.now info.now psk.now psk_id.now }
    ensures inconsistent { (result ≡ Err PskFault.Inconsistent) ↔ OneIsMissing psk.now psk_id.now }
    ensures unneeded { (result ≡ Err PskFault.Unneeded)
        ↔ ((mode ≡ Mode.Base) × IsGiven psk.now × IsGiven psk_id.now) }
    ensures missing { (result ≡ Err PskFault.Missing)
        ↔ ((mode ≡ Mode.Psk) × (psk.now ≡ []) × (psk_id.now ≡ [])) }
{
    verify_psk_inputs(mode, psk, psk_id)?;
    let context = key_schedule_context(suite, mode, info, psk_id);
    let secret = labeled_extract(suite, shared_secret, b"secret", psk);
    Ok(Secrets {
        cipher: cipher_secrets(suite, &secret, context.as_slice()),
        exporter: exporter_secret(suite, &secret, context.as_slice()),
    })
}
