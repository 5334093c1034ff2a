//! What a shared context does outside its lock, by what doesn't change.

ghost use Rattle.std.specs.Prelude.{◌≡◌, ◌↔◌, ◌+◌, ◌-◌, ◌<◌, ◌≤◌, ◌^◌, IsTrue, IsOk, OnOk, OnErr, length};
ghost use Rattle.hpke_context.specs.Contexts.{cipher_of, export_limit, exported_by};
ghost use Rattle.hpke_context.specs.Calls.{HasCipher};

use crate::contexts::SharedContext;
use hpke_context::CallFault;

impl SharedContext {
    /// Encrypts a text at a number that was drawn: fills `out` with the ciphertext, as long as
    /// `text`, and the tag of 16 bytes (RFC 9180, 5.2, Seal). It waits for nobody.
    ///
    /// The number is below LIMIT, the text has at most 2^36 - 32 bytes, `aad` fewer than 2^61. That no
    /// two texts are sealed at one number is the caller's to keep: `draw` gives each number once.
    pub fn finish_seal(&self, number: u64, aad: &[u8], text: &[u8], out: &mut [u8])
        requires cipher { HasCipher self.now.context }
        requires number { number < self.now.context.limit }
        requires room { length out.old ≡ length text.now + 16 }
        requires text { length text.now ≤ 2 ^ 36 - 32 }
        requires aad { length aad.now < 2 ^ 61 }
        ensures { out.new ≡ (cipher_of self.now.context).sealed number aad.now text.now }
    {
        self.context().seal_at(number, aad, text, out);
    }

    /// Decrypts a ciphertext that was opened at this number: fills `out` with the text, which is 16
    /// bytes shorter than `ct` (RFC 9180, 5.2, Open). It waits for nobody.
    ///
    /// Its condition is that the tag holds at the number: the tag isn't computed again.
    pub fn finish_open(&self, number: u64, aad: &[u8], ct: &[u8], out: &mut [u8])
        requires cipher { HasCipher self.now.context }
        requires holds { IsTrue ((cipher_of self.now.context).holds number aad.now ct.now) }
        requires room { length out.old + 16 ≡ length ct.now }
        ensures { out.new ≡ (cipher_of self.now.context).clear number aad.now ct.now }
    {
        self.context().open_at(number, aad, ct, out);
    }

    /// Context.Export(exporter_context, L) (RFC 9180, 5.3): fills `out`, whose length is L. It waits
    /// for nobody, and uses no number.
    ///
    /// [`CallFault::ExportSize`] is the one refusal, where more than 255 Nh bytes are asked for; it
    /// leaves `out` as it was.
    pub fn export_into(&self, exporter_context: &[u8], out: &mut [u8]) -> Result<(), CallFault>
        ensures size { (result ≡ Err CallFault.ExportSize)
            ↔ (export_limit self.now.context < length out.old) }
        ensures ok { IsOk result ↔ (length out.old ≤ export_limit self.now.context) }
        ensures exported { OnOk result
            (out.new ≡ exported_by self.now.context exporter_context.now (length out.old)) }
        ensures refused { OnErr result (out.new ≡ out.old) }
    {
        self.context().export_into(exporter_context, out)
    }
}
