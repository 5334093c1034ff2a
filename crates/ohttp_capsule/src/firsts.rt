//! The first message of a context, which is the one that a request has.

ghost use Rattle.std.specs.Prelude.{◌≡◌, ◌<◌, ◌≤◌, ◌-◌, ◌+◌, ◌^◌, ◌⊎◌, [], length, true, false, IfOk};
ghost use Rattle.hpke_context.specs.Contexts.{cipher_of};
ghost use Rattle.hpke_context.specs.Calls.{HasCipher};

use crate::faults::CapsuleFault;
use aes_gcm::Checks;
use byte_strings::{ByteList, PlainList};
use hkdf_labelled::TAG_SIZE;
use hpke_context::Context;
use std::alloc::{AllocError as OutOfMemory, Global};

/// ContextS.Seal("", text), at number 0.
pub(crate) fn sealed_first(
    alloc: Global,
    context: &Context,
    text: &[u8],
) -> Result<ByteList, OutOfMemory>
    requires cipher { HasCipher context.now }
    requires text { length text.now ≤ 2 ^ 20 }
    ensures ct { IfOk result (λ ct. ct ≡ (cipher_of context.now).sealed 0 [] text.now) }
    ensures size { IfOk result (λ ct. length ct ≡ length text.now + 16) }
{
    let mut ct = vec![in alloc; 0u8; text.len() + TAG_SIZE]?;
    context.seal_at(0, &[], text, &mut ct);
    Ok(PlainList::from_vec(ct))
}

/// ContextR.Open("", ct), at number 0 (RFC 9180, 5.2): the text of a request's ciphertext.
///
/// Refused as [`CapsuleFault::Failed`] where the tag doesn't hold; else only memory can run out. The
/// context isn't changed, and `checks` counts the tag.
pub fn opened_first(
    alloc: Global,
    context: &Context,
    ct: &[u8],
    checks: &mut Checks,
) -> Result<ByteList, CapsuleFault>
    requires cipher { HasCipher context.now }
    requires ct { length ct.now ≤ 2 ^ 36 - 16 }
    requires count { checks.old < 2 ^ 64 - 1 }
    ensures text { IfOk result (λ t. t ≡ (cipher_of context.now).clear 0 [] ct.now) }
    ensures holds { IfOk result (λ t. (cipher_of context.now).holds 0 [] ct.now ≡ true) }
    ensures failed { result ≡ Err CapsuleFault.Failed
        → (cipher_of context.now).holds 0 [] ct.now ≡ false }
    ensures faults { (f : CapsuleFault) → result ≡ Err f
        → (f ≡ CapsuleFault.Failed) ⊎ (f ≡ CapsuleFault.OutOfMemory) }
{
    if !context.holds_at(0, &[], ct, checks) {
        return Err(CapsuleFault::Failed);
    }
    let mut text = vec![in alloc; 0u8; ct.len() - TAG_SIZE]?;
    context.open_at(0, &[], ct, &mut text);
    Ok(PlainList::from_vec(text))
}
