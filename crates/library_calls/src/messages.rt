//! Many messages of a context in one call: all of them, or none.

ghost use Rattle.std.specs.Prelude.{◌≡◌, ◌≢◌, ◌⊎◌, ◌↔◌, ◌≤◌, ◌<◌, ◌+◌, ◌-◌, ◌^◌, ◌++◌, ℕ, length, take, IsTrue, IfSome, IfNone};
ghost use Rattle.hpke_aead.specs.Aeads.{seal, clear, Holds};
ghost use Rattle.library_calls.specs.Contexts.{sender, recipient, IsContext, Serves};
ghost use Rattle.library_calls.specs.Messages.{item, sealed_by, FitsSealAll, sealed_all, FitsOpenAll, EachHolds, AllHold, opened_by, opened_all};
ghost use Rattle.library_calls.specs.Statuses.{done, wrong_usage, refused_role, refused_nocipher, refused_limit, refused_failed};

use crate::ciphers::{AAD_END, MOST_TEXT};
use crate::contexts::{HpkeContext, RECIPIENT, SENDER, serving};
use crate::statuses::{REFUSED_FAILED, REFUSED_LIMIT, WRONG_USAGE};
use aes_gcm::{Checks, MayCheck};
use hpke_aead::AeadKey;
use key_schedule::nonce_at;
use std::rt::Memory;

// A byte string of a list.
fn item<'a>(list: &[&'a [u8]], k: usize) -> &'a [u8]
    requires { k < length list.now }
    ensures { result.now ≡ item list.now k }
{
    list[k]
}

// How many bytes a ciphertext and its tag take of those that are left, or none where it can't be sealed.
fn sealed_within(aad: &[u8], text: &[u8], left: usize) -> Option<usize>
    ensures size { IfSome result (λ n. (n ≡ length text.now + 16) × (n ≤ left)
        × (length aad.now < 2 ^ 61) × (length text.now ≤ 2 ^ 36 - 32)) }
    ensures none { IfNone result ((2 ^ 61 ≤ length aad.now) ⊎ (2 ^ 36 - 32 < length text.now)
        ⊎ (left < length text.now + 16)) }
{
    if aad.len() >= AAD_END || text.len() > MOST_TEXT || left < text.len() + 16 {
        return None;
    }
    Some(text.len() + 16)
}

// Whether all can be sealed, with room for just that.
fn fits_seal_all(aads: &[&[u8]], texts: &[&[u8]], room: usize) -> bool
    ensures { IsTrue result ↔ FitsSealAll aads.now texts.now room }
{
    if aads.len() != texts.len() {
        return false;
    }
    let mut left = room;
    for k in 0..texts.len() {
        let Some(size) = sealed_within(item(aads, k), item(texts, k), left) else {
            return false;
        };
        left -= size;
    }
    left == 0
}

// Seals a text at a place of `out`, and gives where it ends.
fn put_sealed(
    key: &AeadKey,
    nonce: &[u8; 12],
    aad: &[u8],
    text: &[u8],
    out: &mut [u8],
    at: usize,
) -> usize
    requires aad { length aad.now < 2 ^ 61 }
    requires text { length text.now ≤ 2 ^ 36 - 32 }
    requires room { at + (length text.now + 16) ≤ length out.old }
    ensures end { result ≡ at + (length text.now + 16) }
    ensures size { length out.new ≡ length out.old }
    ensures bytes { take result out.new
        ≡ take at out.old ++ seal key.now nonce.now aad.now text.now }
{
    let end = at + (text.len() + 16);
    key.seal_into(nonce, aad, text, &mut out[at..end]);
    end
}

// Seals all of what fits.
fn seal_each(
    key: &AeadKey,
    base_nonce: &[u8; 12],
    number: u64,
    aads: &[&[u8]],
    texts: &[&[u8]],
    out: &mut [u8],
)
    requires fits { FitsSealAll aads.now texts.now (length out.old) }
    requires numbers { number + length texts.now < 2 ^ 64 }
    ensures { out.new ≡ sealed_by key.now base_nonce.now number aads.now texts.now
        (length texts.now) }
{
    let mut filled = 0;
    for k in 0..texts.len() {
        let nonce = nonce_at(base_nonce, number + k as u64);
        filled = put_sealed(key, &nonce, item(aads, k), item(texts, k), out, filled);
    }
}

/// ContextS.Seal (RFC 9180, 5.2) of each text, at the numbers from the one that is due on: fills `out` with
/// the ciphertexts, each with its tag, one behind another. There are as many additional data as texts.
pub fn context_seal_all(
    context: &mut HpkeContext,
    aads: &[&[u8]],
    texts: &[&[u8]],
    out: &mut [u8],
) -> u32
    ensures done { (result ≡ done) ↔ (FitsSealAll aads.now texts.now (length out.old)
        × Serves context.old sender
        × (context.old.number + length texts.now ≤ context.old.limit)) }
    ensures role { (result ≡ refused_role) ↔ (FitsSealAll aads.now texts.now (length out.old)
        × IsContext context.old × (context.old.role ≢ sender)) }
    ensures nocipher { (result ≡ refused_nocipher)
        ↔ (FitsSealAll aads.now texts.now (length out.old)
        × IsContext context.old × (context.old.role ≡ sender) × (context.old.aead ≡ 65535)) }
    ensures limit { (result ≡ refused_limit) ↔ (FitsSealAll aads.now texts.now (length out.old)
        × Serves context.old sender
        × (context.old.limit < context.old.number + length texts.now)) }
    ensures statuses { (result ≡ done) ⊎ (result ≡ wrong_usage) ⊎ (result ≡ refused_role)
        ⊎ (result ≡ refused_nocipher) ⊎ (result ≡ refused_limit) }
    ensures sealed { result ≡ done → out.new ≡ sealed_all context.old aads.now texts.now }
    ensures due { result ≡ done → context.new
        ≡ record context.old { number = context.old.number + length texts.now } }
    ensures refused { result ≢ done → (context.new ≡ context.old) × (out.new ≡ out.old) }
{
    if !fits_seal_all(aads, texts, out.len()) {
        return WRONG_USAGE;
    }
    let key = match serving(context, SENDER) {
        Ok(key) => key,
        Err(status) => return status,
    };
    let (number, limit) = (context.number, context.limit);
    let count = texts.len() as u64;
    if number > limit || count > limit - number {
        return REFUSED_LIMIT;
    }
    seal_each(&key, &context.base_nonce, number, aads, texts, out);
    context.number = number + count;
    0
}

// How many bytes a text takes of those that are left, or none where its ciphertext can't be opened.
fn opened_within(aad: &[u8], ct: &[u8], left: usize) -> Option<usize>
    ensures size { IfSome result (λ n. (n ≡ length ct.now - 16) × (n ≤ left)
        × (length aad.now < 2 ^ 61) × (length ct.now ≤ 2 ^ 36 - 16)) }
    ensures none { IfNone result ((2 ^ 61 ≤ length aad.now) ⊎ (2 ^ 36 - 16 < length ct.now)
        ⊎ (left < length ct.now - 16)) }
{
    let size = ct.len().saturating_sub(16);
    if aad.len() >= AAD_END || ct.len() > MOST_TEXT + 16 || left < size {
        return None;
    }
    Some(size)
}

// Whether all can be opened, with room for just that.
fn fits_open_all(aads: &[&[u8]], cts: &[&[u8]], room: usize) -> bool
    ensures { IsTrue result ↔ FitsOpenAll aads.now cts.now room }
{
    if aads.len() != cts.len() {
        return false;
    }
    let mut left = room;
    for k in 0..cts.len() {
        let Some(size) = opened_within(item(aads, k), item(cts, k), left) else {
            return false;
        };
        left -= size;
    }
    left == 0
}

// Whether a tag holds.
fn holds(permission: MayCheck, key: &AeadKey, nonce: &[u8; 12], aad: &[u8], ct: &[u8]) -> bool
    requires aad { length aad.now < 2 ^ 61 }
    requires ct { length ct.now ≤ 2 ^ 36 - 16 }
    ensures { IsTrue result ↔ Holds key.now nonce.now aad.now ct.now }
{
    let mut checks = Checks::by(permission);
    key.check_tag(nonce, aad, ct, &mut checks)
}

// Whether all tags hold.
fn all_hold(
    permission: MayCheck,
    key: &AeadKey,
    base_nonce: &[u8; 12],
    number: u64,
    aads: &[&[u8]],
    cts: &[&[u8]],
) -> bool
    requires fits { (room : ℕ) × FitsOpenAll aads.now cts.now room }
    requires numbers { number + length cts.now < 2 ^ 64 }
    ensures { IsTrue result
        ↔ EachHolds key.now base_nonce.now number aads.now cts.now (length cts.now) }
{
    for k in 0..cts.len() {
        let nonce = nonce_at(base_nonce, number + k as u64);
        if !holds(permission, key, &nonce, item(aads, k), item(cts, k)) {
            return false;
        }
    }
    true
}

// Opens a ciphertext to a place of `out`, and gives where the text ends.
fn put_opened(
    key: &AeadKey,
    nonce: &[u8; 12],
    aad: &[u8],
    ct: &[u8],
    out: &mut [u8],
    at: usize,
) -> usize
    requires holds { Holds key.now nonce.now aad.now ct.now }
    requires room { at + (length ct.now - 16) ≤ length out.old }
    ensures end { result ≡ at + (length ct.now - 16) }
    ensures size { length out.new ≡ length out.old }
    ensures bytes { take result out.new ≡ take at out.old ++ clear key.now nonce.now ct.now }
{
    let end = at + (ct.len() - 16);
    key.decrypt_into(nonce, aad, ct, &mut out[at..end]);
    end
}

// Opens all, whose tags hold.
fn open_each(
    key: &AeadKey,
    base_nonce: &[u8; 12],
    number: u64,
    aads: &[&[u8]],
    cts: &[&[u8]],
    out: &mut [u8],
)
    requires fits { FitsOpenAll aads.now cts.now (length out.old) }
    requires numbers { number + length cts.now < 2 ^ 64 }
    requires holds { EachHolds key.now base_nonce.now number aads.now cts.now (length cts.now) }
    ensures { out.new ≡ opened_by key.now base_nonce.now number cts.now (length cts.now) }
{
    let mut filled = 0;
    for k in 0..cts.len() {
        let nonce = nonce_at(base_nonce, number + k as u64);
        filled = put_opened(key, &nonce, item(aads, k), item(cts, k), out, filled);
    }
}

/// ContextR.Open (RFC 9180, 5.2) of each ciphertext, at the numbers from the one that is due on: checks all
/// tags, and then fills `out` with the texts, one behind another. There are as many additional data as
/// ciphertexts. Here LIMIT is tested before the tags.
pub fn context_open_all(
    memory: Memory,
    context: &mut HpkeContext,
    aads: &[&[u8]],
    cts: &[&[u8]],
    out: &mut [u8],
) -> u32
    ensures done { (result ≡ done) ↔ (FitsOpenAll aads.now cts.now (length out.old)
        × Serves context.old recipient
        × (context.old.number + length cts.now ≤ context.old.limit)
        × AllHold context.old aads.now cts.now) }
    ensures role { (result ≡ refused_role) ↔ (FitsOpenAll aads.now cts.now (length out.old)
        × IsContext context.old × (context.old.role ≢ recipient)) }
    ensures nocipher { (result ≡ refused_nocipher)
        ↔ (FitsOpenAll aads.now cts.now (length out.old)
        × IsContext context.old × (context.old.role ≡ recipient) × (context.old.aead ≡ 65535)) }
    ensures limit { (result ≡ refused_limit) ↔ (FitsOpenAll aads.now cts.now (length out.old)
        × Serves context.old recipient
        × (context.old.limit < context.old.number + length cts.now)) }
    ensures failed { (result ≡ refused_failed) ↔ (FitsOpenAll aads.now cts.now (length out.old)
        × Serves context.old recipient
        × (context.old.number + length cts.now ≤ context.old.limit)
        × (¬ AllHold context.old aads.now cts.now)) }
    ensures statuses { (result ≡ done) ⊎ (result ≡ wrong_usage) ⊎ (result ≡ refused_role)
        ⊎ (result ≡ refused_nocipher) ⊎ (result ≡ refused_limit) ⊎ (result ≡ refused_failed) }
    ensures opened { result ≡ done → out.new ≡ opened_all context.old cts.now }
    ensures due { result ≡ done → context.new
        ≡ record context.old { number = context.old.number + length cts.now } }
    ensures refused { result ≢ done → (context.new ≡ context.old) × (out.new ≡ out.old) }
{
    if !fits_open_all(aads, cts, out.len()) {
        return WRONG_USAGE;
    }
    let key = match serving(context, RECIPIENT) {
        Ok(key) => key,
        Err(status) => return status,
    };
    let (number, limit) = (context.number, context.limit);
    let count = cts.len() as u64;
    if number > limit || count > limit - number {
        return REFUSED_LIMIT;
    }
    let permission = MayCheck::alone(memory);
    if !all_hold(permission, &key, &context.base_nonce, number, aads, cts) {
        return REFUSED_FAILED;
    }
    open_each(&key, &context.base_nonce, number, aads, cts, out);
    context.number = number + count;
    0
}
