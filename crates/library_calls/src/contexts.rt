//! One end's context (RFC 9180, 5.2 and 5.3), which its caller holds.

ghost use Rattle.std.specs.Prelude.{◌≡◌, ◌≢◌, ◌⊎◌, ◌↔◌, ◌≤◌, ◌<◌, ◌+◌, ◌*◌, length, IsTrue, IsOk, IfOk, IfErr};
ghost use Rattle.hpke_aead.specs.Aeads.{seal, clear, Holds};
ghost use Rattle.library_calls.specs.Contexts.{sender, recipient, NamesKdf, NamesAead, kdf_named, aead_named, suite_named, IsContext, Serves, key_held, nonce_due, export_most, exported_held};
ghost use Rattle.library_calls.specs.Lengths.{FitsSeal, FitsOpen, FitsOpenInPlace};
ghost use Rattle.library_calls.specs.Statuses.{done, wrong_usage, refused_role, refused_nocipher, refused_limit, refused_failed, refused_exportsize};

use crate::ciphers::{fits_open, fits_seal};
use crate::statuses::{
    REFUSED_EXPORTSIZE, REFUSED_FAILED, REFUSED_LIMIT, REFUSED_NOCIPHER, REFUSED_ROLE, WRONG_USAGE,
};
use aes_gcm::{Checks, MayCheck};
use hkdf_labelled::{Aead, Kdf, Suite, labeled_expand_into};
use hpke_aead::AeadKey;
use key_schedule::nonce_at;
use std::rt::Memory;

/// The number of a sender's role.
pub(crate) const SENDER: u16 = 0;

/// The number of a recipient's role.
pub(crate) const RECIPIENT: u16 = 1;

/// A context. Its caller holds it, gives it to one call at a time, and changes nothing in it.
#[repr(C)]
#[derive(Drop)]
pub struct HpkeContext {
    /// the sequence number that is due
    pub number: u64,
    /// LIMIT: the first number that isn't used
    pub limit: u64,
    pub role: u16,
    pub kem: u16,
    pub kdf: u16,
    pub aead: u16,
    pub base_nonce: [u8; 12],
    /// 16 bytes for AES-128-GCM, and zero bytes behind them
    pub key: [u8; 32],
    /// Nh bytes of the KDF, and zero bytes behind them
    pub exporter_secret: [u8; 64],
}

/// Whether a number names a KDF.
pub(crate) fn names_kdf(kdf: u16) -> bool
    ensures { IsTrue result ↔ NamesKdf kdf }
{
    kdf >= 1 && kdf <= 3
}

/// Whether a number names an AEAD, or export-only.
pub(crate) fn names_aead(aead: u16) -> bool
    ensures { IsTrue result ↔ NamesAead aead }
{
    aead == 1 || aead == 2 || aead == 65535
}

/// The KDF of a number that names one.
pub(crate) fn kdf_named(kdf: u16) -> Kdf
    ensures { result ≡ kdf_named kdf }
{
    match kdf {
        1 => Kdf::Sha256,
        2 => Kdf::Sha384,
        _ => Kdf::Sha512,
    }
}

/// The AEAD of a number that names one.
pub(crate) fn aead_named(aead: u16) -> Aead
    ensures { result ≡ aead_named aead }
{
    match aead {
        1 => Aead::Aes128,
        2 => Aead::Aes256,
        _ => Aead::ExportOnly,
    }
}

/// The suite of numbers that name one.
pub(crate) fn suite_named(kem: u16, kdf: u16, aead: u16) -> Suite
    ensures { result ≡ suite_named kem kdf aead }
{
    Suite {
        kem,
        kdf: kdf_named(kdf),
        aead: aead_named(aead),
    }
}

// Whether the numbers in a context name something.
fn is_context(context: &HpkeContext) -> bool
    ensures { IsTrue result ↔ IsContext context.now }
{
    context.role <= 1 && names_kdf(context.kdf) && names_aead(context.aead)
}

/// The key of a context that serves a call of this role, or why it doesn't.
pub(crate) fn serving(context: &HpkeContext, role: u16) -> Result<AeadKey, u32>
    ensures ok { IsOk result ↔ Serves context.now role }
    ensures key { IfOk result (λ key. key ≡ key_held context.now) }
    ensures role { (result ≡ Err refused_role)
        ↔ (IsContext context.now × (context.now.role ≢ role)) }
    ensures nocipher { (result ≡ Err refused_nocipher)
        ↔ (IsContext context.now × (context.now.role ≡ role) × (context.now.aead ≡ 65535)) }
    ensures faults { IfErr result (λ status. (status ≡ wrong_usage) ⊎ (status ≡ refused_role)
        ⊎ (status ≡ refused_nocipher)) }
{
    if !is_context(context) {
        return Err(WRONG_USAGE);
    }
    if context.role != role {
        return Err(REFUSED_ROLE);
    }
    let aead = aead_named(context.aead);
    if !aead.encrypts() {
        return Err(REFUSED_NOCIPHER);
    }
    let size = aead.parameters().key_size;
    Ok(AeadKey::new(aead, &context.key[..size]))
}

/// ContextS.Seal (RFC 9180, 5.2) at the number that is due: fills `out` with the ciphertext and the tag,
/// 16 bytes more than `text`, and moves the number on.
pub fn context_seal(context: &mut HpkeContext, aad: &[u8], text: &[u8], out: &mut [u8]) -> u32
    ensures done { (result ≡ done) ↔ (FitsSeal (length aad.now) (length text.now) (length out.old)
        × Serves context.old sender × (context.old.number < context.old.limit)) }
    ensures role { (result ≡ refused_role)
        ↔ (FitsSeal (length aad.now) (length text.now) (length out.old)
        × IsContext context.old × (context.old.role ≢ sender)) }
    ensures nocipher { (result ≡ refused_nocipher)
        ↔ (FitsSeal (length aad.now) (length text.now) (length out.old)
        × IsContext context.old × (context.old.role ≡ sender) × (context.old.aead ≡ 65535)) }
    ensures limit { (result ≡ refused_limit)
        ↔ (FitsSeal (length aad.now) (length text.now) (length out.old)
        × Serves context.old sender × (context.old.limit ≤ context.old.number)) }
    ensures statuses { (result ≡ done) ⊎ (result ≡ wrong_usage) ⊎ (result ≡ refused_role)
        ⊎ (result ≡ refused_nocipher) ⊎ (result ≡ refused_limit) }
    ensures sealed { result ≡ done
        → out.new ≡ seal (key_held context.old) (nonce_due context.old) aad.now text.now }
    ensures due { result ≡ done
        → context.new ≡ record context.old { number = context.old.number + 1 } }
    ensures refused { result ≢ done → (context.new ≡ context.old) × (out.new ≡ out.old) }
{
    if !fits_seal(aad, text, out) {
        return WRONG_USAGE;
    }
    let key = match serving(context, SENDER) {
        Ok(key) => key,
        Err(status) => return status,
    };
    if context.number >= context.limit {
        return REFUSED_LIMIT;
    }
    let nonce = nonce_at(&context.base_nonce, context.number);
    key.seal_into(&nonce, aad, text, out);
    context.number += 1;
    0
}

/// Whether a ciphertext opens by this key at the number that is due: 0, or why it doesn't. The key is lent,
/// since to move its tables takes a tenth of the time of a short opening.
pub(crate) fn opening_status(
    memory: Memory,
    context: &HpkeContext,
    key: &AeadKey,
    aad: &[u8],
    ct: &[u8],
) -> u32
    requires { FitsOpenInPlace (length aad.now) (length ct.now) }
    ensures done { (result ≡ done) ↔ (Holds key.now (nonce_due context.now) aad.now ct.now
        × (context.now.number < context.now.limit)) }
    ensures failed { (result ≡ refused_failed)
        ↔ (¬ Holds key.now (nonce_due context.now) aad.now ct.now) }
    ensures limit { (result ≡ refused_limit) ↔ (Holds key.now (nonce_due context.now) aad.now ct.now
        × (context.now.limit ≤ context.now.number)) }
    ensures statuses { (result ≡ done) ⊎ (result ≡ refused_failed) ⊎ (result ≡ refused_limit) }
{
    let nonce = nonce_at(&context.base_nonce, context.number);
    let mut checks = Checks::by(MayCheck::alone(memory));
    if !key.check_tag(&nonce, aad, ct, &mut checks) {
        REFUSED_FAILED
    } else if context.number < context.limit {
        0
    } else {
        REFUSED_LIMIT
    }
}

/// ContextR.Open (RFC 9180, 5.2) at the number that is due: checks the tag, and then fills `out` with the
/// text, 16 bytes fewer than `ct`, or none where `ct` has fewer than 16, and moves the number on.
pub fn context_open(
    memory: Memory,
    context: &mut HpkeContext,
    aad: &[u8],
    ct: &[u8],
    out: &mut [u8],
) -> u32
    ensures done { (result ≡ done) ↔ (FitsOpen (length aad.now) (length ct.now) (length out.old)
        × Serves context.old recipient
        × Holds (key_held context.old) (nonce_due context.old) aad.now ct.now
        × (context.old.number < context.old.limit)) }
    ensures role { (result ≡ refused_role)
        ↔ (FitsOpen (length aad.now) (length ct.now) (length out.old)
        × IsContext context.old × (context.old.role ≢ recipient)) }
    ensures nocipher { (result ≡ refused_nocipher)
        ↔ (FitsOpen (length aad.now) (length ct.now) (length out.old)
        × IsContext context.old × (context.old.role ≡ recipient) × (context.old.aead ≡ 65535)) }
    ensures failed { (result ≡ refused_failed)
        ↔ (FitsOpen (length aad.now) (length ct.now) (length out.old)
        × Serves context.old recipient
        × (¬ Holds (key_held context.old) (nonce_due context.old) aad.now ct.now)) }
    ensures limit { (result ≡ refused_limit)
        ↔ (FitsOpen (length aad.now) (length ct.now) (length out.old)
        × Serves context.old recipient
        × Holds (key_held context.old) (nonce_due context.old) aad.now ct.now
        × (context.old.limit ≤ context.old.number)) }
    ensures statuses { (result ≡ done) ⊎ (result ≡ wrong_usage) ⊎ (result ≡ refused_role)
        ⊎ (result ≡ refused_nocipher) ⊎ (result ≡ refused_failed) ⊎ (result ≡ refused_limit) }
    ensures opened { result ≡ done
        → out.new ≡ clear (key_held context.old) (nonce_due context.old) ct.now }
    ensures due { result ≡ done
        → context.new ≡ record context.old { number = context.old.number + 1 } }
    ensures refused { result ≢ done → (context.new ≡ context.old) × (out.new ≡ out.old) }
{
    if !fits_open(aad, ct, out) {
        return WRONG_USAGE;
    }
    let key = match serving(context, RECIPIENT) {
        Ok(key) => key,
        Err(status) => return status,
    };
    let status = opening_status(memory, context, &key, aad, ct);
    if status != 0 {
        return status;
    }
    let number = context.number;
    key.decrypt_into(&nonce_at(&context.base_nonce, number), aad, ct, out);
    context.number = number + 1;
    0
}

/// Context.Export (RFC 9180, 5.3): fills `out`. Either role may export, and no number is used.
pub fn context_export(context: &HpkeContext, exporter_context: &[u8], out: &mut [u8]) -> u32
    ensures done { (result ≡ done)
        ↔ (IsContext context.now × (length out.old ≤ export_most context.now)) }
    ensures exportsize { (result ≡ refused_exportsize)
        ↔ (IsContext context.now × (export_most context.now < length out.old)) }
    ensures statuses { (result ≡ done) ⊎ (result ≡ wrong_usage) ⊎ (result ≡ refused_exportsize) }
    ensures exported { result ≡ done
        → out.new ≡ exported_held context.now exporter_context.now (length out.old) }
    ensures refused { result ≢ done → out.new ≡ out.old }
{
    if !is_context(context) {
        return WRONG_USAGE;
    }
    let suite = suite_named(context.kem, context.kdf, context.aead);
    let size = suite.kdf.size();
    if out.len() > 255 * size {
        return REFUSED_EXPORTSIZE;
    }
    labeled_expand_into(
        &suite,
        &context.exporter_secret[..size],
        b"sec",
        exporter_context,
        out,
    );
    0
}
