//! Contexts that are set up by the KEM (RFC 9180, 5.1): SetupBaseS, SetupPSKS, SetupBaseR and SetupPSKR.

ghost use Rattle.std.specs.Prelude.{◌≡◌, ◌≢◌, ◌⊎◌, ◌↔◌, length};
ghost use Rattle.key_schedule.specs.Psks.{OneIsMissing};
ghost use Rattle.sntrup_kem.specs.Kem.{HasMalformedPart, decapsulated, drawn_r, enc_of, session_of};
ghost use Rattle.library_calls.specs.Contexts.{sender, recipient};
ghost use Rattle.library_calls.specs.Setups.{CanSetUp, PskFits, IsExtra, IsMissing, set_up};
ghost use Rattle.library_calls.specs.Statuses.{done, wrong_usage, no_memory, refused_form, refused_pskpair, refused_pskextra, refused_pskmissing};

use crate::contexts::{HpkeContext, RECIPIENT, SENDER};
use crate::kem::{put_enc, put_session};
use crate::setups::{set_up, setup_status};
use rand_words::Words;
use sntrup_kem::KemParams;
use std::alloc::Global;

/// Sets up a sender's context, by Encap with the words of a source that stands at its first.
pub fn put_sender<S: KemParams, R: Words>(
    alloc: Global,
    words: &mut R,
    context: &mut HpkeContext,
    enc: &mut [u8],
    public: &[u8],
    mode: u16,
    kdf: u16,
    aead: u16,
    limit: u64,
    info: &[u8],
    psk: &[u8],
    psk_id: &[u8],
) -> u32
    requires start { R.place words.old ≡ 0 }
    requires public { length public.now ≡ S.PUBLIC }
    requires enc { length enc.old ≡ S.ENC }
    ensures done { result ≢ no_memory → ((result ≡ done)
        ↔ (CanSetUp sender mode kdf aead limit × PskFits mode psk.now psk_id.now)) }
    ensures pskpair { (result ≡ refused_pskpair)
        ↔ (CanSetUp sender mode kdf aead limit × OneIsMissing psk.now psk_id.now) }
    ensures pskextra { (result ≡ refused_pskextra)
        ↔ (CanSetUp sender mode kdf aead limit × IsExtra mode psk.now psk_id.now) }
    ensures pskmissing { (result ≡ refused_pskmissing)
        ↔ (CanSetUp sender mode kdf aead limit × IsMissing mode psk.now psk_id.now) }
    ensures statuses { (result ≡ done) ⊎ (result ≡ wrong_usage) ⊎ (result ≡ no_memory)
        ⊎ (result ≡ refused_pskpair) ⊎ (result ≡ refused_pskextra)
        ⊎ (result ≡ refused_pskmissing) }
    ensures enc { result ≡ done → enc.new ≡ enc_of S.set public.now
        (drawn_r S.set (R.word words.old) 0) }
    ensures set_up { result ≡ done → context.new ≡ set_up sender mode S.ID kdf aead limit
        (session_of S.set public.now (drawn_r S.set (R.word words.old) 0)) info.now psk.now psk_id.now }
    ensures refused { result ≢ done
        → (context.new ≡ context.old) × (enc.new ≡ enc.old) }
{
    let refusal = setup_status(SENDER, mode, kdf, aead, limit, psk, psk_id);
    if refusal != 0 {
        return refusal;
    }
    let mut session = [0u8; 32];
    let status = put_enc::<S, R>(alloc, words, public, enc, &mut session);
    if status == 0 {
        *context = set_up(
            SENDER,
            mode,
            S::ID,
            kdf,
            aead,
            limit,
            &session,
            info,
            psk,
            psk_id,
        );
    }
    status
}

/// Sets up a recipient's context, by Decap.
pub fn put_recipient<S: KemParams>(
    alloc: Global,
    context: &mut HpkeContext,
    enc: &[u8],
    secret: &[u8],
    mode: u16,
    kdf: u16,
    aead: u16,
    limit: u64,
    info: &[u8],
    psk: &[u8],
    psk_id: &[u8],
) -> u32
    requires enc { length enc.now ≡ S.ENC }
    requires secret { length secret.now ≡ S.SECRET }
    ensures done { result ≢ no_memory → ((result ≡ done)
        ↔ (CanSetUp recipient mode kdf aead limit × PskFits mode psk.now psk_id.now
        × (¬ HasMalformedPart S.set secret.now))) }
    ensures pskpair { (result ≡ refused_pskpair)
        ↔ (CanSetUp recipient mode kdf aead limit × OneIsMissing psk.now psk_id.now) }
    ensures pskextra { (result ≡ refused_pskextra)
        ↔ (CanSetUp recipient mode kdf aead limit × IsExtra mode psk.now psk_id.now) }
    ensures pskmissing { (result ≡ refused_pskmissing)
        ↔ (CanSetUp recipient mode kdf aead limit × IsMissing mode psk.now psk_id.now) }
    ensures form { result ≢ no_memory → ((result ≡ refused_form)
        ↔ (CanSetUp recipient mode kdf aead limit × PskFits mode psk.now psk_id.now
        × HasMalformedPart S.set secret.now)) }
    ensures statuses { (result ≡ done) ⊎ (result ≡ wrong_usage) ⊎ (result ≡ no_memory)
        ⊎ (result ≡ refused_form) ⊎ (result ≡ refused_pskpair) ⊎ (result ≡ refused_pskextra)
        ⊎ (result ≡ refused_pskmissing) }
    ensures set_up { result ≡ done → context.new ≡ set_up recipient mode S.ID kdf aead limit
        (decapsulated S.set secret.now enc.now) info.now psk.now psk_id.now }
    ensures refused { result ≢ done → context.new ≡ context.old }
{
    let refusal = setup_status(RECIPIENT, mode, kdf, aead, limit, psk, psk_id);
    if refusal != 0 {
        return refusal;
    }
    let mut session = [0u8; 32];
    let status = put_session::<S>(alloc, enc, secret, &mut session);
    if status == 0 {
        *context = set_up(
            RECIPIENT,
            mode,
            S::ID,
            kdf,
            aead,
            limit,
            &session,
            info,
            psk,
            psk_id,
        );
    }
    status
}
