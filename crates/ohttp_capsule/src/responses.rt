//! The key of a response, and what is sealed and opened with it (RFC 9458, 4.4).

ghost use Rattle.std.specs.Prelude.{◌≡◌, ◌≢◌, ◌<◌, ◌≤◌, ◌-◌, ◌+◌, ◌*◌, ◌^◌, [], length, codes, IsTrue, IfOk};
ghost use Rattle.hkdf_labelled.specs.Suites.{hash_size, encrypts};
ghost use Rattle.hkdf_labelled.specs.Hkdf.{expand};
ghost use Rattle.hpke_aead.specs.Aeads.{key_of, seal};
ghost use Rattle.hpke_context.specs.Calls.{HasCipher};
ghost use Rattle.ohttp_capsule.specs.Responses.{key_size, entropy_size, response_secret, response_prk, aead_key, aead_nonce, encapsulated_response};
ghost use Rattle.ohttp_capsule.specs.Replies.{opened_with};

use crate::faults::CapsuleFault;
use aes_gcm::Checks;
use byte_strings::{ByteList, PlainList, joined};
use hkdf_labelled::{Aead, Kdf, Prk, Suite, TAG_SIZE, expand_into, extract};
use hpke_aead::AeadKey;
use hpke_context::Context;
use std::alloc::{AllocError as OutOfMemory, Global};

/// entropy_len: how many bytes the nonce of a response has.
pub(crate) fn entropy_size(aead: Aead) -> usize
    ensures size { result ≡ entropy_size aead }
    ensures most { result ≤ 32 }
{
    aead.parameters().key_size.max(12)
}

/// The AEAD's key and nonce for a response.
#[derive(Drop)]
pub(crate) struct ResponseKey {
    pub(crate) key: AeadKey,
    pub(crate) nonce: [u8; 12],
}

// HKDF-Expand to a size that the type of the result gives.
fn expanded<const N: usize>(kdf: Kdf, prk: &Prk, info: &[u8]) -> [u8; N]
    requires { N ≤ 255 * hash_size kdf }
    ensures { result ≡ expand kdf prk.now info.now N }
{
    let mut out = [0; N];
    expand_into(kdf, prk.as_slice(), info, &mut out);
    out
}

// secret: entropy_len bytes that the context exports.
fn response_secret(context: &Context, out: &mut [u8])
    requires { length out.old ≡ entropy_size context.now.suite.aead }
    ensures { out.new ≡ response_secret context.now }
{
    match context.export_into(b"message/bhttp response", out) {
        Ok(()) => {}
        Err(_fault) => unreachable!(),
    }
}

// prk, by which the key is bound to the context, to enc and to the nonce.
fn response_prk(
    alloc: Global,
    context: &Context,
    enc: &[u8],
    nonce: &[u8],
) -> Result<Prk, OutOfMemory>
    ensures { IfOk result (λ p. p ≡ response_prk context.now enc.now nonce.now) }
{
    let suite = context.suite();
    let mut bytes = [0u8; 32];
    let secret = &mut bytes[..entropy_size(suite.aead)];
    response_secret(context, secret);
    let salt = joined(alloc, enc, nonce)?;
    Ok(extract(suite.kdf, salt.as_slice(), secret))
}

// aead_key, expanded for the AEAD.
fn aead_key(suite: &Suite, prk: &Prk) -> AeadKey
    requires { IsTrue (encrypts suite.now.aead) }
    ensures { result ≡ key_of suite.now.aead
        (expand suite.now.kdf prk.now (codes "key") (key_size suite.now.aead)) }
{
    let mut bytes = [0u8; 32];
    let key = &mut bytes[..suite.aead.parameters().key_size];
    expand_into(suite.kdf, prk.as_slice(), b"key", key);
    AeadKey::new(suite.aead, key)
}

/// The key and the nonce of the response with this `nonce`, to a request whose encapsulation is
/// `enc`.
pub(crate) fn response_key(
    alloc: Global,
    context: &Context,
    enc: &[u8],
    nonce: &[u8],
) -> Result<ResponseKey, OutOfMemory>
    requires { HasCipher context.now }
    ensures key { IfOk result (λ k. k.key ≡ aead_key context.now enc.now nonce.now) }
    ensures nonce { IfOk result (λ k. k.nonce ≡ aead_nonce context.now enc.now nonce.now) }
{
    let prk = response_prk(alloc, context, enc, nonce)?;
    let suite = context.suite();
    Ok(ResponseKey {
        key: aead_key(suite, &prk),
        nonce: expanded(suite.kdf, &prk, b"nonce"),
    })
}

/// Seal(key, nonce, "", text).
pub(crate) fn sealed(
    alloc: Global,
    key: &AeadKey,
    nonce: &[u8; 12],
    text: &[u8],
) -> Result<ByteList, OutOfMemory>
    requires { length text.now ≤ 2 ^ 20 }
    ensures ct { IfOk result (λ ct. ct ≡ seal key.now nonce.now [] text.now) }
    ensures size { IfOk result (λ ct. length ct ≡ length text.now + 16) }
{
    let mut ct = vec![in alloc; 0u8; text.len() + TAG_SIZE]?;
    key.seal_into(nonce, &[], text, &mut ct);
    Ok(PlainList::from_vec(ct))
}

/// Open(key, nonce, "", ct).
pub(crate) fn opened(
    alloc: Global,
    key: &AeadKey,
    nonce: &[u8; 12],
    ct: &[u8],
    checks: &mut Checks,
) -> Result<ByteList, CapsuleFault>
    requires ct { length ct.now ≤ 2 ^ 36 - 16 }
    requires count { checks.old < 2 ^ 64 - 1 }
    ensures { result ≢ Err CapsuleFault.OutOfMemory → result ≡ opened_with key.now nonce.now ct.now }
{
    if !key.check_tag(nonce, &[], ct, checks) {
        return Err(CapsuleFault::Failed);
    }
    let mut text = vec![in alloc; 0u8; ct.len() - TAG_SIZE]?;
    key.decrypt_into(nonce, &[], ct, &mut text);
    Ok(PlainList::from_vec(text))
}

/// The response with this text: the nonce, and the text sealed with no aad.
pub(crate) fn sealed_response(
    alloc: Global,
    context: &Context,
    enc: &[u8],
    nonce: &[u8],
    text: &[u8],
) -> Result<ByteList, OutOfMemory>
    requires cipher { HasCipher context.now }
    requires text { length text.now ≤ 2 ^ 20 }
    ensures response { IfOk result (λ b. b
        ≡ encapsulated_response context.now enc.now nonce.now text.now) }
    ensures size { IfOk result (λ b. length b ≡ length nonce.now + (length text.now + 16)) }
{
    let response = response_key(alloc, context, enc, nonce)?;
    let ct = sealed(alloc, &response.key, &response.nonce, text)?;
    joined(alloc, nonce, ct.as_slice())
}
