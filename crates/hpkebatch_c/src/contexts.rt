//! One end's context (RFC 9180, 5.2 and 5.3), which its caller holds: a message, also in place, many, and an
//! export.

ghost use Rattle.std.specs.Prelude.{◌≡◌, ◌≢◌, ◌⊎◌, ◌↔◌, ◌≤◌, ◌+◌, ◌-◌, length, take, ◌<◌};
ghost use Rattle.aes_gcm.specs.Gcm.{last_16};
ghost use Rattle.hpke_aead.specs.Aeads.{seal, clear, Holds};
ghost use Rattle.library_calls.specs.Contexts.{sender, recipient, IsContext, Serves, key_held, nonce_due, export_most, exported_held};
ghost use Rattle.library_calls.specs.Lengths.{FitsSeal, FitsOpen, FitsSealInPlace, FitsOpenInPlace};
ghost use Rattle.library_calls.specs.Messages.{FitsSealAll, sealed_all, FitsOpenAll, AllHold, opened_all};
ghost use Rattle.library_calls.specs.Statuses.{done, wrong_usage, refused_failed, refused_role, refused_nocipher, refused_limit, refused_exportsize};

use library_calls::{
    HpkeContext, context_export, context_open, context_open_all, context_open_in_place,
    context_seal, context_seal_all, context_seal_in_place,
};
use std::rt::Memory;

/// ContextS.Seal (RFC 9180, 5.2) at the number that is due: fills `out` with the ciphertext and the tag,
/// 16 bytes more than `text`, and moves the number on.
#[unsafe(no_mangle)]
pub extern "C" fn hpkebatch_context_seal(
    context: &mut HpkeContext,
    aad: &[u8],
    text: &[u8],
    out: &mut [u8],
) -> u32
    ensures done { (result ≡ done) ↔ (FitsSeal (length aad.now) (length text.now) (length out.old)
        × Serves context.old sender × (context.old.number < context.old.limit)) }
    ensures role { (result ≡ refused_role)
        ↔ (FitsSeal (length aad.now) (length text.now) (length out.old)
        × IsContext context.old × (context.old.role ≢ sender)) }
    ensures nocipher { (result ≡ refused_nocipher)
        ↔ (FitsSeal (length aad.now) (length text.now) (length out.old)
        × IsContext context.old × (context.old.role ≡ sender) × (context.old.aead ≡ 65535)) }
    ensures limit { (result ≡ refused_limit)
        ↔ (FitsSeal (length aad.now) (length text.now) (length out.old)
        × Serves context.old sender × (context.old.limit ≤ context.old.number)) }
    ensures statuses { (result ≡ done) ⊎ (result ≡ wrong_usage) ⊎ (result ≡ refused_role)
        ⊎ (result ≡ refused_nocipher) ⊎ (result ≡ refused_limit) }
    ensures sealed { result ≡ done
        → out.new ≡ seal (key_held context.old) (nonce_due context.old) aad.now text.now }
    ensures due { result ≡ done
        → context.new ≡ record context.old { number = context.old.number + 1 } }
    ensures refused { result ≢ done → (context.new ≡ context.old) × (out.new ≡ out.old) }
{
    context_seal(context, aad, text, out)
}

/// ContextR.Open (RFC 9180, 5.2) at the number that is due: checks the tag, and then fills `out` with the
/// text, 16 bytes fewer than `ct`, or none where `ct` has fewer than 16, and moves the number on.
#[unsafe(no_mangle)]
pub extern "C" fn hpkebatch_context_open(
    memory: Memory,
    context: &mut HpkeContext,
    aad: &[u8],
    ct: &[u8],
    out: &mut [u8],
) -> u32
    ensures done { (result ≡ done) ↔ (FitsOpen (length aad.now) (length ct.now) (length out.old)
        × Serves context.old recipient
        × Holds (key_held context.old) (nonce_due context.old) aad.now ct.now
        × (context.old.number < context.old.limit)) }
    ensures role { (result ≡ refused_role)
        ↔ (FitsOpen (length aad.now) (length ct.now) (length out.old)
        × IsContext context.old × (context.old.role ≢ recipient)) }
    ensures nocipher { (result ≡ refused_nocipher)
        ↔ (FitsOpen (length aad.now) (length ct.now) (length out.old)
        × IsContext context.old × (context.old.role ≡ recipient) × (context.old.aead ≡ 65535)) }
    ensures failed { (result ≡ refused_failed)
        ↔ (FitsOpen (length aad.now) (length ct.now) (length out.old)
        × Serves context.old recipient
        × (¬ Holds (key_held context.old) (nonce_due context.old) aad.now ct.now)) }
    ensures limit { (result ≡ refused_limit)
        ↔ (FitsOpen (length aad.now) (length ct.now) (length out.old)
        × Serves context.old recipient
        × Holds (key_held context.old) (nonce_due context.old) aad.now ct.now
        × (context.old.limit ≤ context.old.number)) }
    ensures statuses { (result ≡ done) ⊎ (result ≡ wrong_usage) ⊎ (result ≡ refused_role)
        ⊎ (result ≡ refused_nocipher) ⊎ (result ≡ refused_failed) ⊎ (result ≡ refused_limit) }
    ensures opened { result ≡ done
        → out.new ≡ clear (key_held context.old) (nonce_due context.old) ct.now }
    ensures due { result ≡ done
        → context.new ≡ record context.old { number = context.old.number + 1 } }
    ensures refused { result ≢ done → (context.new ≡ context.old) × (out.new ≡ out.old) }
{
    context_open(memory, context, aad, ct, out)
}

/// ContextS.Seal (RFC 9180, 5.2) at the number that is due, in place: `buffer` has a text and 16 bytes
/// behind it, and then the ciphertext and the tag. The number moves on.
#[unsafe(no_mangle)]
pub extern "C" fn hpkebatch_context_seal_in_place(
    context: &mut HpkeContext,
    aad: &[u8],
    buffer: &mut [u8],
) -> u32
    ensures done { (result ≡ done) ↔ (FitsSealInPlace (length aad.now) (length buffer.old)
        × Serves context.old sender × (context.old.number < context.old.limit)) }
    ensures role { (result ≡ refused_role)
        ↔ (FitsSealInPlace (length aad.now) (length buffer.old)
        × IsContext context.old × (context.old.role ≢ sender)) }
    ensures nocipher { (result ≡ refused_nocipher)
        ↔ (FitsSealInPlace (length aad.now) (length buffer.old)
        × IsContext context.old × (context.old.role ≡ sender) × (context.old.aead ≡ 65535)) }
    ensures limit { (result ≡ refused_limit)
        ↔ (FitsSealInPlace (length aad.now) (length buffer.old)
        × Serves context.old sender × (context.old.limit ≤ context.old.number)) }
    ensures statuses { (result ≡ done) ⊎ (result ≡ wrong_usage) ⊎ (result ≡ refused_role)
        ⊎ (result ≡ refused_nocipher) ⊎ (result ≡ refused_limit) }
    ensures sealed { result ≡ done
        → buffer.new ≡ seal (key_held context.old) (nonce_due context.old) aad.now
        (take (length buffer.old - 16) buffer.old) }
    ensures due { result ≡ done
        → context.new ≡ record context.old { number = context.old.number + 1 } }
    ensures refused { result ≢ done
        → (context.new ≡ context.old) × (buffer.new ≡ buffer.old) }
{
    context_seal_in_place(context, aad, buffer)
}

/// ContextR.Open (RFC 9180, 5.2) at the number that is due, in place: `buffer` has a ciphertext and its
/// tag, and if the tag holds, the text and then the tag as it was. The number moves on.
#[unsafe(no_mangle)]
pub extern "C" fn hpkebatch_context_open_in_place(
    memory: Memory,
    context: &mut HpkeContext,
    aad: &[u8],
    buffer: &mut [u8],
) -> u32
    ensures done { (result ≡ done) ↔ (FitsOpenInPlace (length aad.now) (length buffer.old)
        × Serves context.old recipient
        × Holds (key_held context.old) (nonce_due context.old) aad.now buffer.old
        × (context.old.number < context.old.limit)) }
    ensures role { (result ≡ refused_role)
        ↔ (FitsOpenInPlace (length aad.now) (length buffer.old)
        × IsContext context.old × (context.old.role ≢ recipient)) }
    ensures nocipher { (result ≡ refused_nocipher)
        ↔ (FitsOpenInPlace (length aad.now) (length buffer.old)
        × IsContext context.old × (context.old.role ≡ recipient) × (context.old.aead ≡ 65535)) }
    ensures failed { (result ≡ refused_failed)
        ↔ (FitsOpenInPlace (length aad.now) (length buffer.old)
        × Serves context.old recipient
        × (¬ Holds (key_held context.old) (nonce_due context.old) aad.now buffer.old)) }
    ensures limit { (result ≡ refused_limit)
        ↔ (FitsOpenInPlace (length aad.now) (length buffer.old)
        × Serves context.old recipient
        × Holds (key_held context.old) (nonce_due context.old) aad.now buffer.old
        × (context.old.limit ≤ context.old.number)) }
    ensures statuses { (result ≡ done) ⊎ (result ≡ wrong_usage) ⊎ (result ≡ refused_role)
        ⊎ (result ≡ refused_nocipher) ⊎ (result ≡ refused_failed) ⊎ (result ≡ refused_limit) }
    ensures opened { result ≡ done → take (length buffer.old - 16) buffer.new
        ≡ clear (key_held context.old) (nonce_due context.old) buffer.old }
    ensures tag { result ≡ done → last_16 buffer.new ≡ last_16 buffer.old }
    ensures due { result ≡ done
        → context.new ≡ record context.old { number = context.old.number + 1 } }
    ensures refused { result ≢ done
        → (context.new ≡ context.old) × (buffer.new ≡ buffer.old) }
{
    context_open_in_place(memory, context, aad, buffer)
}

/// Context.Export (RFC 9180, 5.3): fills `out`. Either role may export, and no number is used.
#[unsafe(no_mangle)]
pub extern "C" fn hpkebatch_context_export(
    context: &HpkeContext,
    exporter_context: &[u8],
    out: &mut [u8],
) -> u32
    ensures done { (result ≡ done)
        ↔ (IsContext context.now × (length out.old ≤ export_most context.now)) }
    ensures exportsize { (result ≡ refused_exportsize)
        ↔ (IsContext context.now × (export_most context.now < length out.old)) }
    ensures statuses { (result ≡ done) ⊎ (result ≡ wrong_usage) ⊎ (result ≡ refused_exportsize) }
    ensures exported { result ≡ done
        → out.new ≡ exported_held context.now exporter_context.now (length out.old) }
    ensures refused { result ≢ done → out.new ≡ out.old }
{
    context_export(context, exporter_context, out)
}

/// ContextS.Seal (RFC 9180, 5.2) of each text, at the numbers from the one that is due on: fills `out` with
/// the ciphertexts, each with its tag, one behind another. There are as many additional data as texts.
#[unsafe(no_mangle)]
pub extern "C" fn hpkebatch_context_seal_all(
    context: &mut HpkeContext,
    aads: &[&[u8]],
    texts: &[&[u8]],
    out: &mut [u8],
) -> u32
    ensures done { (result ≡ done) ↔ (FitsSealAll aads.now texts.now (length out.old)
        × Serves context.old sender
        × (context.old.number + length texts.now ≤ context.old.limit)) }
    ensures role { (result ≡ refused_role) ↔ (FitsSealAll aads.now texts.now (length out.old)
        × IsContext context.old × (context.old.role ≢ sender)) }
    ensures nocipher { (result ≡ refused_nocipher)
        ↔ (FitsSealAll aads.now texts.now (length out.old)
        × IsContext context.old × (context.old.role ≡ sender) × (context.old.aead ≡ 65535)) }
    ensures limit { (result ≡ refused_limit) ↔ (FitsSealAll aads.now texts.now (length out.old)
        × Serves context.old sender
        × (context.old.limit < context.old.number + length texts.now)) }
    ensures statuses { (result ≡ done) ⊎ (result ≡ wrong_usage) ⊎ (result ≡ refused_role)
        ⊎ (result ≡ refused_nocipher) ⊎ (result ≡ refused_limit) }
    ensures sealed { result ≡ done → out.new ≡ sealed_all context.old aads.now texts.now }
    ensures due { result ≡ done → context.new
        ≡ record context.old { number = context.old.number + length texts.now } }
    ensures refused { result ≢ done → (context.new ≡ context.old) × (out.new ≡ out.old) }
{
    context_seal_all(context, aads, texts, out)
}

/// ContextR.Open (RFC 9180, 5.2) of each ciphertext, at the numbers from the one that is due on: checks all
/// tags, and then fills `out` with the texts, one behind another. There are as many additional data as
/// ciphertexts. Here LIMIT is tested before the tags.
#[unsafe(no_mangle)]
pub extern "C" fn hpkebatch_context_open_all(
    memory: Memory,
    context: &mut HpkeContext,
    aads: &[&[u8]],
    cts: &[&[u8]],
    out: &mut [u8],
) -> u32
    ensures done { (result ≡ done) ↔ (FitsOpenAll aads.now cts.now (length out.old)
        × Serves context.old recipient
        × (context.old.number + length cts.now ≤ context.old.limit)
        × AllHold context.old aads.now cts.now) }
    ensures role { (result ≡ refused_role) ↔ (FitsOpenAll aads.now cts.now (length out.old)
        × IsContext context.old × (context.old.role ≢ recipient)) }
    ensures nocipher { (result ≡ refused_nocipher)
        ↔ (FitsOpenAll aads.now cts.now (length out.old)
        × IsContext context.old × (context.old.role ≡ recipient) × (context.old.aead ≡ 65535)) }
    ensures limit { (result ≡ refused_limit) ↔ (FitsOpenAll aads.now cts.now (length out.old)
        × Serves context.old recipient
        × (context.old.limit < context.old.number + length cts.now)) }
    ensures failed { (result ≡ refused_failed) ↔ (FitsOpenAll aads.now cts.now (length out.old)
        × Serves context.old recipient
        × (context.old.number + length cts.now ≤ context.old.limit)
        × (¬ AllHold context.old aads.now cts.now)) }
    ensures statuses { (result ≡ done) ⊎ (result ≡ wrong_usage) ⊎ (result ≡ refused_role)
        ⊎ (result ≡ refused_nocipher) ⊎ (result ≡ refused_limit) ⊎ (result ≡ refused_failed) }
    ensures opened { result ≡ done → out.new ≡ opened_all context.old cts.now }
    ensures due { result ≡ done → context.new
        ≡ record context.old { number = context.old.number + length cts.now } }
    ensures refused { result ≢ done → (context.new ≡ context.old) × (out.new ≡ out.old) }
{
    context_open_all(memory, context, aads, cts, out)
}
