//! Contexts, which don't change.

ghost use Rattle.std.specs.Prelude.{◌≡◌, ◌≤◌, ◌<◌, ◌+◌, ◌-◌, ◌^◌, ◌↔◌, length, IsSome, IsNone, IfSome, IsOk, IsTrue, OnOk, OnErr};
ghost use Rattle.key_schedule.specs.Secrets.{aead_of, base_nonce_in};
ghost use Rattle.hpke_aead.specs.Aeads.{Holds};
ghost use Rattle.hpke_context.specs.Contexts.{key_in, nonce_of, cipher_of, export_limit, exported_by};
ghost use Rattle.hpke_context.specs.Calls.{HasCipher, IsExportOnly, KeepsKey};

use crate::faults::CallFault;
use aes_gcm::Checks;
use hkdf_labelled::{Expander, Suite};
use hpke_aead::AeadKey;
use key_schedule::{CipherSecrets, Role, Secrets, nonce_at};
use std::marker::Model;

/// One end's context (RFC 9180, 5.1 and 5.2) without its sequence number: it doesn't change once
/// made. A contract sees its role, suite, LIMIT and secrets.
///
/// The AEAD's key is expanded once, when the context is made. HMAC is keyed with exporter_secret then
/// too: that spares each export two compressions of the hash function, and costs two where nothing
/// is exported.
#[derive(Drop)]
pub struct Context {
    role: Role,
    suite: Suite,
    limit: u64,
    cipher: CipherSecrets,
    exporter: Expander,
    key: Option<AeadKey>,
}

impl Model for Context {
    ghost use Rattle.std.specs.Prelude.{◌≡◌, ◌≤◌};
    ghost use Rattle.key_schedule.specs.Secrets.{aead_of};
    ghost use Rattle.hpke_context.specs.Contexts.{ContextView};
    ghost use Rattle.hpke_context.specs.Calls.{KeepsKey};

    ghost Value = { ContextView };

    ghost view = { λ c. record {
      role = c.role;
      suite = c.suite;
      limit = c.limit;
      secrets = record { cipher = c.cipher; exporter = c.exporter.prk };
    } };

    ghost invariant = { λ c. (1 ≤ c.limit) × (aead_of c.cipher ≡ c.suite.aead)
        × KeepsKey c.cipher c.key × (c.exporter.kdf ≡ c.suite.kdf) };
}

// The key of these secrets, expanded. It is kept by itself, so that the stack has room for few keys at a time.
#[inline(never)]
fn expanded_key(secrets: &CipherSecrets) -> Option<AeadKey>
    ensures { KeepsKey secrets.now result }
{
    let aead = secrets.aead();
    if !aead.encrypts() {
        return None;
    }
    Some(AeadKey::new(aead, secrets.key()))
}

impl Context {
    /// A context of what KeySchedule gave. `limit` is LIMIT: the numbers 0 to LIMIT - 1 are used,
    /// where the RFC uses all but the last that its nonce can count (RFC 9180, 5.2).
    pub fn new(role: Role, suite: Suite, secrets: Secrets, limit: u64) -> Context
        requires limit { 1 ≤ limit }
        requires suite { aead_of secrets.cipher ≡ suite.aead }
        ensures { result ≡ record { role = role; suite = suite; limit = limit; secrets = secrets } }
    {
        let Secrets { cipher, exporter } = secrets;
        let key = expanded_key(&cipher);
        Context {
            role,
            suite,
            limit,
            cipher,
            exporter: Expander::new(suite.kdf, exporter),
            key,
        }
    }

    /// The context's end.
    pub fn role(&self) -> Role
        ensures { result ≡ self.now.role }
    {
        self.role
    }

    /// The context's algorithms.
    pub fn suite(&self) -> &Suite
        ensures suite { result.now ≡ self.now.suite }
        ensures secrets { aead_of self.now.secrets.cipher ≡ self.now.suite.aead }
    {
        &self.suite
    }

    /// LIMIT: the first number that isn't used.
    pub fn limit(&self) -> u64
        ensures limit { result ≡ self.now.limit }
        ensures least { 1 ≤ self.now.limit }
    {
        self.limit
    }

    /// The AEAD with the context's key. None for an export-only context.
    pub fn cipher(&self) -> Option<&AeadKey>
        ensures some { IsSome result ↔ HasCipher self.now }
        ensures none { IsNone result ↔ IsExportOnly self.now }
        ensures key { IfSome result (λ key. key.now ≡ key_in self.now.secrets.cipher) }
    {
        self.key.as_ref()
    }

    /// base_nonce: the nonce of number 0. None for an export-only context.
    pub fn base_nonce(&self) -> Option<&[u8; 12]>
        ensures some { IsSome result ↔ HasCipher self.now }
        ensures none { IsNone result ↔ IsExportOnly self.now }
        ensures nonce { IfSome result (λ nonce. nonce.now ≡ base_nonce_in self.now.secrets.cipher) }
    {
        self.cipher.base_nonce()
    }

    // The key, and the nonce of a number.
    fn at(&self, number: u64) -> (&AeadKey, [u8; 12])
        requires { HasCipher self.now }
        ensures key { result.0.now ≡ key_in self.now.secrets.cipher }
        ensures nonce { result.1 ≡ nonce_of self.now number }
    {
        let (Some(key), Some(base_nonce)) = (self.cipher(), self.base_nonce()) else {
            unreachable!()
        };
        (key, nonce_at(base_nonce, number))
    }

    /// Seals a text at a number: fills `out` with the ciphertext, as long as `text`, and the tag of 16
    /// bytes. That no two texts are sealed at one number is the caller's to keep.
    pub fn seal_at(&self, number: u64, aad: &[u8], text: &[u8], out: &mut [u8])
        requires cipher { HasCipher self.now }
        requires room { length out.old ≡ length text.now + 16 }
        requires text { length text.now ≤ 2 ^ 36 - 32 }
        requires aad { length aad.now < 2 ^ 61 }
        ensures { out.new ≡ (cipher_of self.now).sealed number aad.now text.now }
    {
        let (key, nonce) = self.at(number);
        key.seal_into(&nonce, aad, text, out);
    }

    /// Whether a tag holds at a number. Decrypts nothing. Each call counts as one check.
    pub fn holds_at(&self, number: u64, aad: &[u8], ct: &[u8], checks: &mut Checks) -> bool
        requires cipher { HasCipher self.now }
        requires count { checks.old < 2 ^ 64 - 1 }
        requires ct { length ct.now ≤ 2 ^ 36 - 16 }
        requires aad { length aad.now < 2 ^ 61 }
        ensures verdict { result ≡ (cipher_of self.now).holds number aad.now ct.now }
        ensures truth { IsTrue result ↔ Holds (key_in self.now.secrets.cipher)
            (nonce_of self.now number) aad.now ct.now }
        ensures long { IsTrue result → 16 ≤ length ct.now }
        ensures count { checks.new ≡ checks.old + 1 }
    {
        let (key, nonce) = self.at(number);
        key.check_tag(&nonce, aad, ct, checks)
    }

    /// Decrypts a ciphertext whose tag holds at a number: fills `out` with the text, which is 16 bytes
    /// shorter. The tag isn't computed again.
    pub fn open_at(&self, number: u64, aad: &[u8], ct: &[u8], out: &mut [u8])
        requires cipher { HasCipher self.now }
        requires holds { IsTrue ((cipher_of self.now).holds number aad.now ct.now) }
        requires room { length out.old + 16 ≡ length ct.now }
        ensures { out.new ≡ (cipher_of self.now).clear number aad.now ct.now }
    {
        let (key, nonce) = self.at(number);
        key.decrypt_into(&nonce, aad, ct, out);
    }

    /// The most bytes that one export gives: 255 Nh, the limit of HKDF-Expand.
    pub fn export_limit(&self) -> usize
        ensures { result ≡ export_limit self.now }
    {
        255 * self.suite.kdf.size()
    }

    /// Context.Export(exporter_context, L) (RFC 9180, 5.3): fills `out`, whose length is L.
    ///
    /// Either role may export, with or without a cipher, and no number is used. Both ends get the
    /// same bytes for the same `exporter_context` and L. [`CallFault::ExportSize`] is the one
    /// refusal; it leaves `out` as it was.
    pub fn export_into(&self, exporter_context: &[u8], out: &mut [u8]) -> Result<(), CallFault>
        ensures size { (result ≡ Err CallFault.ExportSize)
            ↔ (export_limit self.now < length out.old) }
        ensures ok { IsOk result ↔ (length out.old ≤ export_limit self.now) }
        ensures exported { OnOk result
            (out.new ≡ exported_by self.now exporter_context.now (length out.old)) }
        ensures refused { OnErr result (out.new ≡ out.old) }
    {
        if out.len() > self.export_limit() {
            return Err(CallFault::ExportSize);
        }
        self.exporter
            .labeled_expand_into(&self.suite, b"sec", exporter_context, out);
        Ok(())
    }
}
