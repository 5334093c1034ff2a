//! The KEM of Streamlined NTRU Prime (NTRU Prime round 3, KeyGen, Encap and Decap), with random words from
//! a stream of the caller's seed.

ghost use Rattle.std.specs.Prelude.{◌≡◌, ◌≢◌, ◌⊎◌, ◌↔◌};
ghost use Rattle.rand_words.specs.Words.{stream_word};
ghost use Rattle.ring_core.specs.Sets.{sntrup761, sntrup857};
ghost use Rattle.sntrup_core.specs.Keys.{IsExhausted, FindsNoInverse};
ghost use Rattle.sntrup_kem.specs.Kem.{HasMalformedPart, decapsulated};
ghost use Rattle.library_calls.specs.Keys.{enc_by, session_by, IsPair};
ghost use Rattle.library_calls.specs.Statuses.{done, no_memory, refused_form, refused_exhausted, refused_noinverse};

use library_calls::{put_enc, put_pair, put_session};
use rand_words::SeedStream;
use ring_core::{Sntrup761, Sntrup857};
use std::alloc::Global;

/// KeyGen with rho, for sntrup761: a pair of keys from the words of a stream of `seed`.
#[unsafe(no_mangle)]
pub extern "C" fn hpkebatch_sntrup761_keygen(
    alloc: Global,
    seed: &[u8; 32],
    stream: u64,
    public: &mut [u8; 1158],
    secret: &mut [u8; 1763],
) -> u32
    ensures keys { result ≡ done
        → IsPair sntrup761 (stream_word seed.now stream) public.new secret.new }
    ensures exhausted { result ≢ no_memory
        → ((result ≡ refused_exhausted) ↔ IsExhausted sntrup761 (stream_word seed.now stream) 0) }
    ensures noinverse { result ≢ no_memory → ((result ≡ refused_noinverse)
        ↔ FindsNoInverse sntrup761 (stream_word seed.now stream) 0) }
    ensures statuses { (result ≡ done) ⊎ (result ≡ no_memory) ⊎ (result ≡ refused_exhausted)
        ⊎ (result ≡ refused_noinverse) }
    ensures refused { result ≢ done
        → (public.new ≡ public.old) × (secret.new ≡ secret.old) }
{
    put_pair::<Sntrup761, SeedStream>(alloc, &mut SeedStream::new(seed, stream), public, secret)
}

/// KeyGen with rho, for sntrup857.
#[unsafe(no_mangle)]
pub extern "C" fn hpkebatch_sntrup857_keygen(
    alloc: Global,
    seed: &[u8; 32],
    stream: u64,
    public: &mut [u8; 1322],
    secret: &mut [u8; 1999],
) -> u32
    ensures keys { result ≡ done
        → IsPair sntrup857 (stream_word seed.now stream) public.new secret.new }
    ensures exhausted { result ≢ no_memory
        → ((result ≡ refused_exhausted) ↔ IsExhausted sntrup857 (stream_word seed.now stream) 0) }
    ensures noinverse { result ≢ no_memory → ((result ≡ refused_noinverse)
        ↔ FindsNoInverse sntrup857 (stream_word seed.now stream) 0) }
    ensures statuses { (result ≡ done) ⊎ (result ≡ no_memory) ⊎ (result ≡ refused_exhausted)
        ⊎ (result ≡ refused_noinverse) }
    ensures refused { result ≢ done
        → (public.new ≡ public.old) × (secret.new ≡ secret.old) }
{
    put_pair::<Sntrup857, SeedStream>(alloc, &mut SeedStream::new(seed, stream), public, secret)
}

/// Encap, for sntrup761: a session key and the encapsulation that carries it, from the words of a stream
/// of `seed`.
#[unsafe(no_mangle)]
pub extern "C" fn hpkebatch_sntrup761_encap(
    alloc: Global,
    seed: &[u8; 32],
    stream: u64,
    public: &[u8; 1158],
    enc: &mut [u8; 1039],
    key: &mut [u8; 32],
) -> u32
    ensures enc { result ≡ done → enc.new ≡ enc_by sntrup761 seed.now stream public.now }
    ensures key { result ≡ done → key.new ≡ session_by sntrup761 seed.now stream public.now }
    ensures statuses { (result ≡ done) ⊎ (result ≡ no_memory) }
    ensures refused { result ≢ done → (enc.new ≡ enc.old) × (key.new ≡ key.old) }
{
    put_enc::<Sntrup761, SeedStream>(alloc, &mut SeedStream::new(seed, stream), public, enc, key)
}

/// Encap, for sntrup857.
#[unsafe(no_mangle)]
pub extern "C" fn hpkebatch_sntrup857_encap(
    alloc: Global,
    seed: &[u8; 32],
    stream: u64,
    public: &[u8; 1322],
    enc: &mut [u8; 1184],
    key: &mut [u8; 32],
) -> u32
    ensures enc { result ≡ done → enc.new ≡ enc_by sntrup857 seed.now stream public.now }
    ensures key { result ≡ done → key.new ≡ session_by sntrup857 seed.now stream public.now }
    ensures statuses { (result ≡ done) ⊎ (result ≡ no_memory) }
    ensures refused { result ≢ done → (enc.new ≡ enc.old) × (key.new ≡ key.old) }
{
    put_enc::<Sntrup857, SeedStream>(alloc, &mut SeedStream::new(seed, stream), public, enc, key)
}

/// Decap, for sntrup761. Every encapsulation gets a key.
#[unsafe(no_mangle)]
pub extern "C" fn hpkebatch_sntrup761_decap(
    alloc: Global,
    enc: &[u8; 1039],
    secret: &[u8; 1763],
    key: &mut [u8; 32],
) -> u32
    ensures key { result ≡ done → key.new ≡ decapsulated sntrup761 secret.now enc.now }
    ensures form { result ≢ no_memory
        → ((result ≡ refused_form) ↔ HasMalformedPart sntrup761 secret.now) }
    ensures statuses { (result ≡ done) ⊎ (result ≡ no_memory) ⊎ (result ≡ refused_form) }
    ensures refused { result ≢ done → key.new ≡ key.old }
{
    put_session::<Sntrup761>(alloc, enc, secret, key)
}

/// Decap, for sntrup857.
#[unsafe(no_mangle)]
pub extern "C" fn hpkebatch_sntrup857_decap(
    alloc: Global,
    enc: &[u8; 1184],
    secret: &[u8; 1999],
    key: &mut [u8; 32],
) -> u32
    ensures key { result ≡ done → key.new ≡ decapsulated sntrup857 secret.now enc.now }
    ensures form { result ≢ no_memory
        → ((result ≡ refused_form) ↔ HasMalformedPart sntrup857 secret.now) }
    ensures statuses { (result ≡ done) ⊎ (result ≡ no_memory) ⊎ (result ≡ refused_form) }
    ensures refused { result ≢ done → key.new ≡ key.old }
{
    put_session::<Sntrup857>(alloc, enc, secret, key)
}
