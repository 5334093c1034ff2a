//! A context with its sequence number.

ghost use Rattle.std.specs.Prelude.{◌≡◌, ◌≤◌, ◌<◌, ◌+◌, ◌-◌, ◌^◌, ◌↔◌, ◌⊎◌, ℕ, length, IsTrue, IsOk, OnOk, OnErr};
ghost use Rattle.hpke_context.specs.Answers.{Seal, Unseal, Sealed_at, Opened_at, Failed_at, At_limit, advances, next};
ghost use Rattle.hpke_context.specs.Contexts.{export_limit, exported_by};
ghost use Rattle.hpke_context.specs.Calls.{HasCipher, IsExportOnly, CanSeal, CanOpen, answer_now};

use crate::contexts::Context;
use crate::faults::CallFault;
use aes_gcm::Checks;
use key_schedule::Role;
use std::marker::Model;

/// A context that seals or opens one message after another (RFC 9180, 5.2). A contract sees the
/// context and seq, the sequence number that is due, which is at most LIMIT.
#[derive(Drop)]
pub struct Sequential {
    context: Context,
    seq: u64,
}

impl Model for Sequential {
    ghost use Rattle.std.specs.Prelude.{◌≤◌};
    ghost use Rattle.hpke_context.specs.Calls.{SequentialView};

    ghost Value = { SequentialView };

    ghost view = { λ s. record { context = s.context; seq = s.seq } };

    ghost invariant = { λ s. s.seq ≤ s.context.limit };
}

impl Sequential {
    /// A context at its first message, number 0.
    pub fn new(context: Context) -> Sequential
        ensures { result ≡ record { context = context; seq = 0 } }
    {
        Sequential { context, seq: 0 }
    }

    /// The context.
    pub fn context(&self) -> &Context
        ensures { result.now ≡ self.now.context }
    {
        &self.context
    }

    /// The sequence number that is due.
    pub fn seq(&self) -> u64
        ensures seq { result ≡ self.now.seq }
        ensures most { self.now.seq ≤ self.now.context.limit }
    {
        self.seq
    }

    /// The context alone. Its numbers begin at 0 again if it is made sequential once more, which a
    /// sender must not do.
    pub fn into_context(self) -> Context
        ensures { result ≡ self.context }
    {
        self.context
    }

    /// ContextS.Seal(aad, pt) (RFC 9180, 5.2): fills `out` with the ciphertext, as long as `text`,
    /// and the tag of 16 bytes, and gives the number that was used.
    ///
    /// Refused as [`CallFault::Role`] for a recipient, then as [`CallFault::NoCipher`] for an
    /// export-only context, then as [`CallFault::Limit`] where all numbers below LIMIT are used.
    /// A refusal leaves the context, seq and `out` as they were.
    pub fn seal_into(&mut self, aad: &[u8], text: &[u8], out: &mut [u8]) -> Result<u64, CallFault>
        requires room { length out.old ≡ length text.now + 16 }
        requires text { length text.now ≤ 2 ^ 36 - 32 }
        requires aad { length aad.now < 2 ^ 61 }
        ensures role { (result ≡ Err CallFault.Role) ↔ (self.old.context.role ≡ Role.Recipient) }
        ensures nocipher { (result ≡ Err CallFault.NoCipher)
            ↔ ((self.old.context.role ≡ Role.Sender) × IsExportOnly self.old.context) }
        ensures limit { (result ≡ Err CallFault.Limit)
            ↔ (CanSeal self.old.context × (self.old.seq ≡ self.old.context.limit)) }
        ensures ok { IsOk result
            ↔ (CanSeal self.old.context × (self.old.seq < self.old.context.limit)) }
        ensures sealed { (n : ℕ) → result ≡ Ok n
            → answer_now self.old (Seal aad.now text.now) ≡ Sealed_at n out.new }
        ensures number { (n : ℕ) → result ≡ Ok n → n ≡ self.old.seq }
        ensures due { CanSeal self.old.context
            → self.new.seq ≡ next self.old.seq (answer_now self.old (Seal aad.now text.now)) }
        ensures context { self.new.context ≡ self.old.context }
        ensures refused { OnErr result ((self.new ≡ self.old) × (out.new ≡ out.old)) }
    {
        if self.context.role() == Role::Recipient {
            return Err(CallFault::Role);
        }
        if self.context.cipher().is_none() {
            return Err(CallFault::NoCipher);
        }
        if self.seq == self.context.limit() {
            return Err(CallFault::Limit);
        }
        let seq = self.seq;
        self.context.seal_at(seq, aad, text, out);
        self.seq += 1;
        Ok(seq)
    }

    /// ContextR.Open(aad, ct) (RFC 9180, 5.2): fills `out` with the text, which is 16 bytes shorter
    /// than `ct`, and gives the number that was used.
    ///
    /// Refused as [`CallFault::Role`] for a sender, then as [`CallFault::NoCipher`] for an
    /// export-only context, then as [`CallFault::Failed`] where the tag doesn't hold at seq, then
    /// as [`CallFault::Limit`] where it holds and all numbers below LIMIT are used. A refusal
    /// leaves the context, seq and `out` as they were. A recipient with a cipher checks one tag,
    /// whatever the answer; `out` is empty for a `ct` that is too short for a tag.
    pub fn unseal_into(
        &mut self,
        aad: &[u8],
        ct: &[u8],
        out: &mut [u8],
        checks: &mut Checks,
    ) -> Result<u64, CallFault>
        requires room { length out.old ≡ length ct.now - 16 }
        requires ct { length ct.now ≤ 2 ^ 36 - 16 }
        requires aad { length aad.now < 2 ^ 61 }
        requires count { checks.old < 2 ^ 64 - 1 }
        ensures role { (result ≡ Err CallFault.Role) ↔ (self.old.context.role ≡ Role.Sender) }
        ensures nocipher { (result ≡ Err CallFault.NoCipher)
            ↔ ((self.old.context.role ≡ Role.Recipient) × IsExportOnly self.old.context) }
        ensures failed { (result ≡ Err CallFault.Failed) ↔ (CanOpen self.old.context
            × (answer_now self.old (Unseal aad.now ct.now) ≡ Failed_at self.old.seq)) }
        ensures limit { (result ≡ Err CallFault.Limit) ↔ (CanOpen self.old.context
            × (answer_now self.old (Unseal aad.now ct.now) ≡ At_limit)) }
        ensures ok { IsOk result ↔ (CanOpen self.old.context
            × IsTrue (advances (answer_now self.old (Unseal aad.now ct.now)))) }
        ensures opened { (n : ℕ) → result ≡ Ok n
            → answer_now self.old (Unseal aad.now ct.now) ≡ Opened_at n out.new }
        ensures number { (n : ℕ) → result ≡ Ok n → n ≡ self.old.seq }
        ensures due { CanOpen self.old.context
            → self.new.seq ≡ next self.old.seq (answer_now self.old (Unseal aad.now ct.now)) }
        ensures context { self.new.context ≡ self.old.context }
        ensures refused { OnErr result ((self.new ≡ self.old) × (out.new ≡ out.old)) }
        ensures checked { CanOpen self.old.context → checks.new ≡ checks.old + 1 }
        ensures unchecked { ((result ≡ Err CallFault.Role) ⊎ (result ≡ Err CallFault.NoCipher))
            → checks.new ≡ checks.old }
    {
        if self.context.role() == Role::Sender {
            return Err(CallFault::Role);
        }
        if self.context.cipher().is_none() {
            return Err(CallFault::NoCipher);
        }
        let seq = self.seq;
        if !self.context.holds_at(seq, aad, ct, checks) {
            return Err(CallFault::Failed);
        }
        if seq == self.context.limit() {
            return Err(CallFault::Limit);
        }
        self.context.open_at(seq, aad, ct, out);
        self.seq += 1;
        Ok(seq)
    }

    /// Context.Export(exporter_context, L), as [`Context::export_into`]. It uses no number.
    pub fn export_into(&self, exporter_context: &[u8], out: &mut [u8]) -> Result<(), CallFault>
        ensures size { (result ≡ Err CallFault.ExportSize)
            ↔ (export_limit self.now.context < length out.old) }
        ensures ok { IsOk result ↔ (length out.old ≤ export_limit self.now.context) }
        ensures exported { OnOk result
            (out.new ≡ exported_by self.now.context exporter_context.now (length out.old)) }
        ensures refused { OnErr result (out.new ≡ out.old) }
    {
        self.context.export_into(exporter_context, out)
    }
}
