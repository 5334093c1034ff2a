//! Contexts that KeySchedule sets up (RFC 9180, 5.1), for a shared secret of any KEM.

ghost use Rattle.std.specs.Prelude.{◌≡◌, ◌≢◌, ◌⊎◌, ◌↔◌, ◌≤◌, length, IsTrue};
ghost use Rattle.hkdf_labelled.specs.Hmac.{zero_padded};
ghost use Rattle.key_schedule.specs.Secrets.{key_bytes, base_nonce_in};
ghost use Rattle.key_schedule.specs.Psks.{OneIsMissing};
ghost use Rattle.key_schedule.specs.Schedule.{secrets_of};
ghost use Rattle.library_calls.specs.Contexts.{mode_named, context_of};
ghost use Rattle.library_calls.specs.Setups.{CanSetUp, PskFits, IsExtra, IsMissing, set_up};
ghost use Rattle.library_calls.specs.Statuses.{done, wrong_usage, refused_pskpair, refused_pskextra, refused_pskmissing};

use crate::contexts::{HpkeContext, names_aead, names_kdf, suite_named};
use crate::statuses::{REFUSED_PSKEXTRA, REFUSED_PSKMISSING, REFUSED_PSKPAIR, WRONG_USAGE};
use hkdf_labelled::Suite;
use key_schedule::{CipherSecrets, Mode, PskFault, Secrets, schedule, verify_psk_inputs};

/// The mode of a number that names one.
fn mode_named(mode: u16) -> Mode
    ensures { result ≡ mode_named mode }
{
    match mode {
        0 => Mode::Base,
        _ => Mode::Psk,
    }
}

// Whether numbers name what a context can be set up with.
fn can_set_up(role: u16, mode: u16, kdf: u16, aead: u16, limit: u64) -> bool
    ensures { IsTrue result ↔ CanSetUp role mode kdf aead limit }
{
    role <= 1 && mode <= 1 && names_kdf(kdf) && names_aead(aead) && limit >= 1
}

// Why the psk inputs don't go with the mode, or 0.
fn psk_status(mode: u16, psk: &[u8], psk_id: &[u8]) -> u32
    ensures fits { (result ≡ done) ↔ PskFits mode psk.now psk_id.now }
    ensures pair { (result ≡ refused_pskpair) ↔ OneIsMissing psk.now psk_id.now }
    ensures extra { (result ≡ refused_pskextra) ↔ IsExtra mode psk.now psk_id.now }
    ensures missing { (result ≡ refused_pskmissing) ↔ IsMissing mode psk.now psk_id.now }
    ensures statuses { (result ≡ done) ⊎ (result ≡ refused_pskpair) ⊎ (result ≡ refused_pskextra)
        ⊎ (result ≡ refused_pskmissing) }
{
    match verify_psk_inputs(mode_named(mode), psk, psk_id) {
        Ok(()) => 0,
        Err(PskFault::Inconsistent) => REFUSED_PSKPAIR,
        Err(PskFault::Unneeded) => REFUSED_PSKEXTRA,
        Err(PskFault::Missing) => REFUSED_PSKMISSING,
    }
}

/// Why no context can be set up with these, or 0.
pub(crate) fn setup_status(
    role: u16,
    mode: u16,
    kdf: u16,
    aead: u16,
    limit: u64,
    psk: &[u8],
    psk_id: &[u8],
) -> u32
    ensures fits { (result ≡ done)
        ↔ (CanSetUp role mode kdf aead limit × PskFits mode psk.now psk_id.now) }
    ensures pair { (result ≡ refused_pskpair)
        ↔ (CanSetUp role mode kdf aead limit × OneIsMissing psk.now psk_id.now) }
    ensures extra { (result ≡ refused_pskextra)
        ↔ (CanSetUp role mode kdf aead limit × IsExtra mode psk.now psk_id.now) }
    ensures missing { (result ≡ refused_pskmissing)
        ↔ (CanSetUp role mode kdf aead limit × IsMissing mode psk.now psk_id.now) }
    ensures statuses { (result ≡ done) ⊎ (result ≡ wrong_usage) ⊎ (result ≡ refused_pskpair)
        ⊎ (result ≡ refused_pskextra) ⊎ (result ≡ refused_pskmissing) }
{
    if !can_set_up(role, mode, kdf, aead, limit) {
        return WRONG_USAGE;
    }
    psk_status(mode, psk, psk_id)
}

// A key, with zero bytes behind it.
fn padded_key(cipher: &CipherSecrets) -> [u8; 32]
    ensures { result ≡ zero_padded 32 (key_bytes cipher.now) }
{
    let mut padded = [0u8; 32];
    let key = cipher.key();
    padded[..key.len()].copy_from_slice(key);
    padded
}

// The nonce of number 0, or zero bytes.
fn padded_nonce(cipher: &CipherSecrets) -> [u8; 12]
    ensures { result ≡ zero_padded 12 (base_nonce_in cipher.now) }
{
    let mut padded = [0u8; 12];
    if let Some(base_nonce) = cipher.base_nonce() {
        padded.copy_from_slice(base_nonce);
    }
    padded
}

// An exporter_secret, with zero bytes behind it.
fn padded_secret(secret: &[u8]) -> [u8; 64]
    requires { length secret.now ≤ 64 }
    ensures { result ≡ zero_padded 64 secret.now }
{
    let mut padded = [0u8; 64];
    padded[..secret.len()].copy_from_slice(secret);
    padded
}

// The context of what KeySchedule gave, at its first number.
fn context_of(role: u16, limit: u64, suite: &Suite, secrets: &Secrets) -> HpkeContext
    requires { length secrets.now.exporter ≤ 64 }
    ensures { result ≡ context_of role limit suite.now secrets.now }
{
    let base_nonce = padded_nonce(&secrets.cipher);
    let key = padded_key(&secrets.cipher);
    let exporter_secret = padded_secret(secrets.exporter.as_slice());
    HpkeContext {
        number: 0,
        limit,
        role,
        kem: suite.kem,
        kdf: suite.kdf.id(),
        aead: suite.aead.id(),
        base_nonce,
        key,
        exporter_secret,
    }
}

// What KeySchedule gives where the psk inputs go with the mode.
#[tactic(auto, using(crate::proofs::Exporters::exporter_short))]
fn secrets_of(
    suite: &Suite,
    mode: u16,
    shared_secret: &[u8],
    info: &[u8],
    psk: &[u8],
    psk_id: &[u8],
) -> Secrets
    requires { PskFits mode psk.now psk_id.now }
    ensures secrets { result ≡ secrets_of suite.now (mode_named mode) shared_secret.now info.now
        psk.now psk_id.now }
    ensures exporter { length result.exporter ≤ 64 }
{
    match schedule(suite, mode_named(mode), shared_secret, info, psk, psk_id) {
        Ok(secrets) => secrets,
        Err(_fault) => unreachable!(),
    }
}

/// The context that KeySchedule gives, where the psk inputs go with the mode.
pub(crate) fn set_up(
    role: u16,
    mode: u16,
    kem: u16,
    kdf: u16,
    aead: u16,
    limit: u64,
    shared_secret: &[u8],
    info: &[u8],
    psk: &[u8],
    psk_id: &[u8],
) -> HpkeContext
    requires { PskFits mode psk.now psk_id.now }
    ensures { result ≡ set_up role mode kem kdf aead limit shared_secret.now info.now psk.now
        psk_id.now }
{
    let suite = suite_named(kem, kdf, aead);
    let secrets = secrets_of(&suite, mode, shared_secret, info, psk, psk_id);
    context_of(role, limit, &suite, &secrets)
}

/// Sets a context up by KeySchedule (RFC 9180, 5.1), for the shared secret that a KEM gave. Its first number
/// is 0. A shared secret is for one sender, and once.
pub fn context_shared(
    context: &mut HpkeContext,
    role: u16,
    mode: u16,
    kem: u16,
    kdf: u16,
    aead: u16,
    limit: u64,
    shared_secret: &[u8],
    info: &[u8],
    psk: &[u8],
    psk_id: &[u8],
) -> u32
    ensures done { (result ≡ done)
        ↔ (CanSetUp role mode kdf aead limit × PskFits mode psk.now psk_id.now) }
    ensures pskpair { (result ≡ refused_pskpair)
        ↔ (CanSetUp role mode kdf aead limit × OneIsMissing psk.now psk_id.now) }
    ensures pskextra { (result ≡ refused_pskextra)
        ↔ (CanSetUp role mode kdf aead limit × IsExtra mode psk.now psk_id.now) }
    ensures pskmissing { (result ≡ refused_pskmissing)
        ↔ (CanSetUp role mode kdf aead limit × IsMissing mode psk.now psk_id.now) }
    ensures statuses { (result ≡ done) ⊎ (result ≡ wrong_usage) ⊎ (result ≡ refused_pskpair)
        ⊎ (result ≡ refused_pskextra) ⊎ (result ≡ refused_pskmissing) }
    ensures set_up { result ≡ done → context.new
        ≡ set_up role mode kem kdf aead limit shared_secret.now info.now psk.now psk_id.now }
    ensures refused { result ≢ done → context.new ≡ context.old }
{
    let status = setup_status(role, mode, kdf, aead, limit, psk, psk_id);
    if status == 0 {
        *context = set_up(
            role,
            mode,
            kem,
            kdf,
            aead,
            limit,
            shared_secret,
            info,
            psk,
            psk_id,
        );
    }
    status
}
