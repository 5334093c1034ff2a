//! One message of a context, sealed and opened in its own place.

ghost use Rattle.std.specs.Prelude.{◌≡◌, ◌≢◌, ◌⊎◌, ◌↔◌, ◌≤◌, ◌<◌, ◌+◌, ◌-◌, length, take};
ghost use Rattle.aes_gcm.specs.Gcm.{last_16};
ghost use Rattle.hpke_aead.specs.Aeads.{seal, clear, Holds};
ghost use Rattle.library_calls.specs.Contexts.{sender, recipient, IsContext, Serves, key_held, nonce_due};
ghost use Rattle.library_calls.specs.Lengths.{FitsSealInPlace, FitsOpenInPlace};
ghost use Rattle.library_calls.specs.Statuses.{done, wrong_usage, refused_role, refused_nocipher, refused_limit, refused_failed};

use crate::ciphers::{fits_open_in_place, fits_seal_in_place};
use crate::contexts::{HpkeContext, RECIPIENT, SENDER, opening_status, serving};
use crate::statuses::{REFUSED_LIMIT, WRONG_USAGE};
use key_schedule::nonce_at;
use std::rt::Memory;

/// ContextS.Seal (RFC 9180, 5.2) at the number that is due, in place: `buffer` has a text and 16 bytes
/// behind it, and then the ciphertext and the tag. The number moves on.
pub fn context_seal_in_place(context: &mut HpkeContext, aad: &[u8], buffer: &mut [u8]) -> u32
    ensures done { (result ≡ done) ↔ (FitsSealInPlace (length aad.now) (length buffer.old)
        × Serves context.old sender × (context.old.number < context.old.limit)) }
    ensures role { (result ≡ refused_role)
        ↔ (FitsSealInPlace (length aad.now) (length buffer.old)
        × IsContext context.old × (context.old.role ≢ sender)) }
    ensures nocipher { (result ≡ refused_nocipher)
        ↔ (FitsSealInPlace (length aad.now) (length buffer.old)
        × IsContext context.old × (context.old.role ≡ sender) × (context.old.aead ≡ 65535)) }
    ensures limit { (result ≡ refused_limit)
        ↔ (FitsSealInPlace (length aad.now) (length buffer.old)
        × Serves context.old sender × (context.old.limit ≤ context.old.number)) }
    ensures statuses { (result ≡ done) ⊎ (result ≡ wrong_usage) ⊎ (result ≡ refused_role)
        ⊎ (result ≡ refused_nocipher) ⊎ (result ≡ refused_limit) }
    ensures sealed { result ≡ done
        → buffer.new ≡ seal (key_held context.old) (nonce_due context.old) aad.now
        (take (length buffer.old - 16) buffer.old) }
    ensures due { result ≡ done
        → context.new ≡ record context.old { number = context.old.number + 1 } }
    ensures refused { result ≢ done
        → (context.new ≡ context.old) × (buffer.new ≡ buffer.old) }
{
    if !fits_seal_in_place(aad, buffer) {
        return WRONG_USAGE;
    }
    let key = match serving(context, SENDER) {
        Ok(key) => key,
        Err(status) => return status,
    };
    if context.number >= context.limit {
        return REFUSED_LIMIT;
    }
    let nonce = nonce_at(&context.base_nonce, context.number);
    key.seal_in_place(&nonce, aad, buffer);
    context.number += 1;
    0
}

/// ContextR.Open (RFC 9180, 5.2) at the number that is due, in place: `buffer` has a ciphertext and its
/// tag, and if the tag holds, the text and then the tag as it was. The number moves on.
pub fn context_open_in_place(
    memory: Memory,
    context: &mut HpkeContext,
    aad: &[u8],
    buffer: &mut [u8],
) -> u32
    ensures done { (result ≡ done) ↔ (FitsOpenInPlace (length aad.now) (length buffer.old)
        × Serves context.old recipient
        × Holds (key_held context.old) (nonce_due context.old) aad.now buffer.old
        × (context.old.number < context.old.limit)) }
    ensures role { (result ≡ refused_role)
        ↔ (FitsOpenInPlace (length aad.now) (length buffer.old)
        × IsContext context.old × (context.old.role ≢ recipient)) }
    ensures nocipher { (result ≡ refused_nocipher)
        ↔ (FitsOpenInPlace (length aad.now) (length buffer.old)
        × IsContext context.old × (context.old.role ≡ recipient) × (context.old.aead ≡ 65535)) }
    ensures failed { (result ≡ refused_failed)
        ↔ (FitsOpenInPlace (length aad.now) (length buffer.old)
        × Serves context.old recipient
        × (¬ Holds (key_held context.old) (nonce_due context.old) aad.now buffer.old)) }
    ensures limit { (result ≡ refused_limit)
        ↔ (FitsOpenInPlace (length aad.now) (length buffer.old)
        × Serves context.old recipient
        × Holds (key_held context.old) (nonce_due context.old) aad.now buffer.old
        × (context.old.limit ≤ context.old.number)) }
    ensures statuses { (result ≡ done) ⊎ (result ≡ wrong_usage) ⊎ (result ≡ refused_role)
        ⊎ (result ≡ refused_nocipher) ⊎ (result ≡ refused_failed) ⊎ (result ≡ refused_limit) }
    ensures opened { result ≡ done → take (length buffer.old - 16) buffer.new
        ≡ clear (key_held context.old) (nonce_due context.old) buffer.old }
    ensures tag { result ≡ done → last_16 buffer.new ≡ last_16 buffer.old }
    ensures due { result ≡ done
        → context.new ≡ record context.old { number = context.old.number + 1 } }
    ensures refused { result ≢ done
        → (context.new ≡ context.old) × (buffer.new ≡ buffer.old) }
{
    if !fits_open_in_place(aad, buffer) {
        return WRONG_USAGE;
    }
    let key = match serving(context, RECIPIENT) {
        Ok(key) => key,
        Err(status) => return status,
    };
    let status = opening_status(memory, context, &key, aad, buffer);
    if status != 0 {
        return status;
    }
    let number = context.number;
    key.decrypt_in_place(&nonce_at(&context.base_nonce, number), aad, buffer);
    context.number = number + 1;
    0
}
