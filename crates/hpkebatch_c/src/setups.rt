//! Contexts that are set up (RFC 9180, 5.1): for a shared secret of any KEM, and by the KEM.

ghost use Rattle.std.specs.Prelude.{◌≡◌, ◌≢◌, ◌⊎◌, ◌↔◌};
ghost use Rattle.key_schedule.specs.Psks.{OneIsMissing};
ghost use Rattle.ring_core.specs.Sets.{sntrup761, sntrup857};
ghost use Rattle.sntrup_kem.specs.Kem.{HasMalformedPart, decapsulated};
ghost use Rattle.library_calls.specs.Contexts.{sender, recipient};
ghost use Rattle.library_calls.specs.Keys.{enc_by, session_by};
ghost use Rattle.library_calls.specs.Setups.{kem_761, kem_857, CanSetUp, PskFits, IsExtra, IsMissing, set_up};
ghost use Rattle.library_calls.specs.Statuses.{done, wrong_usage, no_memory, refused_form, refused_pskpair, refused_pskextra, refused_pskmissing};

use library_calls::{HpkeContext, context_shared, put_recipient, put_sender};
use rand_words::SeedStream;
use ring_core::{Sntrup761, Sntrup857};
use std::alloc::Global;

/// Sets a context up by KeySchedule (RFC 9180, 5.1), for the shared secret that a KEM gave. Its first number
/// is 0. A shared secret is for one sender, and once.
#[unsafe(no_mangle)]
pub extern "C" fn hpkebatch_context_shared(
    context: &mut HpkeContext,
    role: u16,
    mode: u16,
    kem: u16,
    kdf: u16,
    aead: u16,
    limit: u64,
    shared_secret: &[u8],
    info: &[u8],
    psk: &[u8],
    psk_id: &[u8],
) -> u32
    ensures done { (result ≡ done)
        ↔ (CanSetUp role mode kdf aead limit × PskFits mode psk.now psk_id.now) }
    ensures pskpair { (result ≡ refused_pskpair)
        ↔ (CanSetUp role mode kdf aead limit × OneIsMissing psk.now psk_id.now) }
    ensures pskextra { (result ≡ refused_pskextra)
        ↔ (CanSetUp role mode kdf aead limit × IsExtra mode psk.now psk_id.now) }
    ensures pskmissing { (result ≡ refused_pskmissing)
        ↔ (CanSetUp role mode kdf aead limit × IsMissing mode psk.now psk_id.now) }
    ensures statuses { (result ≡ done) ⊎ (result ≡ wrong_usage) ⊎ (result ≡ refused_pskpair)
        ⊎ (result ≡ refused_pskextra) ⊎ (result ≡ refused_pskmissing) }
    ensures set_up { result ≡ done → context.new
        ≡ set_up role mode kem kdf aead limit shared_secret.now info.now psk.now psk_id.now }
    ensures refused { result ≢ done → context.new ≡ context.old }
{
    context_shared(
        context,
        role,
        mode,
        kem,
        kdf,
        aead,
        limit,
        shared_secret,
        info,
        psk,
        psk_id,
    )
}

/// SetupBaseS or SetupPSKS (RFC 9180, 5.1) for sntrup761: a sender's context and the encapsulation for its
/// recipient, from the words of a stream of `seed`.
#[unsafe(no_mangle)]
pub extern "C" fn hpkebatch_sntrup761_sender(
    alloc: Global,
    context: &mut HpkeContext,
    enc: &mut [u8; 1039],
    seed: &[u8; 32],
    stream: u64,
    public: &[u8; 1158],
    mode: u16,
    kdf: u16,
    aead: u16,
    limit: u64,
    info: &[u8],
    psk: &[u8],
    psk_id: &[u8],
) -> u32
    ensures done { result ≢ no_memory → ((result ≡ done)
        ↔ (CanSetUp sender mode kdf aead limit × PskFits mode psk.now psk_id.now)) }
    ensures pskpair { (result ≡ refused_pskpair)
        ↔ (CanSetUp sender mode kdf aead limit × OneIsMissing psk.now psk_id.now) }
    ensures pskextra { (result ≡ refused_pskextra)
        ↔ (CanSetUp sender mode kdf aead limit × IsExtra mode psk.now psk_id.now) }
    ensures pskmissing { (result ≡ refused_pskmissing)
        ↔ (CanSetUp sender mode kdf aead limit × IsMissing mode psk.now psk_id.now) }
    ensures statuses { (result ≡ done) ⊎ (result ≡ wrong_usage) ⊎ (result ≡ no_memory)
        ⊎ (result ≡ refused_pskpair) ⊎ (result ≡ refused_pskextra)
        ⊎ (result ≡ refused_pskmissing) }
    ensures enc { result ≡ done → enc.new ≡ enc_by sntrup761 seed.now stream public.now }
    ensures set_up { result ≡ done → context.new ≡ set_up sender mode kem_761 kdf aead limit
        (session_by sntrup761 seed.now stream public.now) info.now psk.now psk_id.now }
    ensures refused { result ≢ done
        → (context.new ≡ context.old) × (enc.new ≡ enc.old) }
{
    put_sender::<Sntrup761, SeedStream>(
        alloc,
        &mut SeedStream::new(seed, stream),
        context,
        enc,
        public,
        mode,
        kdf,
        aead,
        limit,
        info,
        psk,
        psk_id,
    )
}

/// SetupBaseR or SetupPSKR (RFC 9180, 5.1) for sntrup761: the recipient's context of an encapsulation.
#[unsafe(no_mangle)]
pub extern "C" fn hpkebatch_sntrup761_recipient(
    alloc: Global,
    context: &mut HpkeContext,
    enc: &[u8; 1039],
    secret: &[u8; 1763],
    mode: u16,
    kdf: u16,
    aead: u16,
    limit: u64,
    info: &[u8],
    psk: &[u8],
    psk_id: &[u8],
) -> u32
    ensures done { result ≢ no_memory → ((result ≡ done)
        ↔ (CanSetUp recipient mode kdf aead limit × PskFits mode psk.now psk_id.now
        × (¬ HasMalformedPart sntrup761 secret.now))) }
    ensures pskpair { (result ≡ refused_pskpair)
        ↔ (CanSetUp recipient mode kdf aead limit × OneIsMissing psk.now psk_id.now) }
    ensures pskextra { (result ≡ refused_pskextra)
        ↔ (CanSetUp recipient mode kdf aead limit × IsExtra mode psk.now psk_id.now) }
    ensures pskmissing { (result ≡ refused_pskmissing)
        ↔ (CanSetUp recipient mode kdf aead limit × IsMissing mode psk.now psk_id.now) }
    ensures form { result ≢ no_memory → ((result ≡ refused_form)
        ↔ (CanSetUp recipient mode kdf aead limit × PskFits mode psk.now psk_id.now
        × HasMalformedPart sntrup761 secret.now)) }
    ensures statuses { (result ≡ done) ⊎ (result ≡ wrong_usage) ⊎ (result ≡ no_memory)
        ⊎ (result ≡ refused_form) ⊎ (result ≡ refused_pskpair) ⊎ (result ≡ refused_pskextra)
        ⊎ (result ≡ refused_pskmissing) }
    ensures set_up { result ≡ done → context.new ≡ set_up recipient mode kem_761 kdf aead limit
        (decapsulated sntrup761 secret.now enc.now) info.now psk.now psk_id.now }
    ensures refused { result ≢ done → context.new ≡ context.old }
{
    put_recipient::<Sntrup761>(
        alloc, context, enc, secret, mode, kdf, aead, limit, info, psk, psk_id,
    )
}

/// SetupBaseS or SetupPSKS (RFC 9180, 5.1) for sntrup857: a sender's context and the encapsulation for its
/// recipient, from the words of a stream of `seed`.
#[unsafe(no_mangle)]
pub extern "C" fn hpkebatch_sntrup857_sender(
    alloc: Global,
    context: &mut HpkeContext,
    enc: &mut [u8; 1184],
    seed: &[u8; 32],
    stream: u64,
    public: &[u8; 1322],
    mode: u16,
    kdf: u16,
    aead: u16,
    limit: u64,
    info: &[u8],
    psk: &[u8],
    psk_id: &[u8],
) -> u32
    ensures done { result ≢ no_memory → ((result ≡ done)
        ↔ (CanSetUp sender mode kdf aead limit × PskFits mode psk.now psk_id.now)) }
    ensures pskpair { (result ≡ refused_pskpair)
        ↔ (CanSetUp sender mode kdf aead limit × OneIsMissing psk.now psk_id.now) }
    ensures pskextra { (result ≡ refused_pskextra)
        ↔ (CanSetUp sender mode kdf aead limit × IsExtra mode psk.now psk_id.now) }
    ensures pskmissing { (result ≡ refused_pskmissing)
        ↔ (CanSetUp sender mode kdf aead limit × IsMissing mode psk.now psk_id.now) }
    ensures statuses { (result ≡ done) ⊎ (result ≡ wrong_usage) ⊎ (result ≡ no_memory)
        ⊎ (result ≡ refused_pskpair) ⊎ (result ≡ refused_pskextra)
        ⊎ (result ≡ refused_pskmissing) }
    ensures enc { result ≡ done → enc.new ≡ enc_by sntrup857 seed.now stream public.now }
    ensures set_up { result ≡ done → context.new ≡ set_up sender mode kem_857 kdf aead limit
        (session_by sntrup857 seed.now stream public.now) info.now psk.now psk_id.now }
    ensures refused { result ≢ done
        → (context.new ≡ context.old) × (enc.new ≡ enc.old) }
{
    put_sender::<Sntrup857, SeedStream>(
        alloc,
        &mut SeedStream::new(seed, stream),
        context,
        enc,
        public,
        mode,
        kdf,
        aead,
        limit,
        info,
        psk,
        psk_id,
    )
}

/// SetupBaseR or SetupPSKR (RFC 9180, 5.1) for sntrup857: the recipient's context of an encapsulation.
#[unsafe(no_mangle)]
pub extern "C" fn hpkebatch_sntrup857_recipient(
    alloc: Global,
    context: &mut HpkeContext,
    enc: &[u8; 1184],
    secret: &[u8; 1999],
    mode: u16,
    kdf: u16,
    aead: u16,
    limit: u64,
    info: &[u8],
    psk: &[u8],
    psk_id: &[u8],
) -> u32
    ensures done { result ≢ no_memory → ((result ≡ done)
        ↔ (CanSetUp recipient mode kdf aead limit × PskFits mode psk.now psk_id.now
        × (¬ HasMalformedPart sntrup857 secret.now))) }
    ensures pskpair { (result ≡ refused_pskpair)
        ↔ (CanSetUp recipient mode kdf aead limit × OneIsMissing psk.now psk_id.now) }
    ensures pskextra { (result ≡ refused_pskextra)
        ↔ (CanSetUp recipient mode kdf aead limit × IsExtra mode psk.now psk_id.now) }
    ensures pskmissing { (result ≡ refused_pskmissing)
        ↔ (CanSetUp recipient mode kdf aead limit × IsMissing mode psk.now psk_id.now) }
    ensures form { result ≢ no_memory → ((result ≡ refused_form)
        ↔ (CanSetUp recipient mode kdf aead limit × PskFits mode psk.now psk_id.now
        × HasMalformedPart sntrup857 secret.now)) }
    ensures statuses { (result ≡ done) ⊎ (result ≡ wrong_usage) ⊎ (result ≡ no_memory)
        ⊎ (result ≡ refused_form) ⊎ (result ≡ refused_pskpair) ⊎ (result ≡ refused_pskextra)
        ⊎ (result ≡ refused_pskmissing) }
    ensures set_up { result ≡ done → context.new ≡ set_up recipient mode kem_857 kdf aead limit
        (decapsulated sntrup857 secret.now enc.now) info.now psk.now psk_id.now }
    ensures refused { result ≢ done → context.new ≡ context.old }
{
    put_recipient::<Sntrup857>(
        alloc, context, enc, secret, mode, kdf, aead, limit, info, psk, psk_id,
    )
}
