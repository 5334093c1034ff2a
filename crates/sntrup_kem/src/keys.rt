//! Keys as bytes.

ghost use Rattle.std.specs.Prelude.{◌≡◌, ◌≢◌, ◌↔◌, ◌+◌, ◌≤◌, take, drop, IsTrue, length, IfOk, Some};
ghost use Rattle.radix_pack.specs.Codings.{IsMalformed};
ghost use Rattle.sntrup_kem.specs.Sizes.{small_size};
ghost use Rattle.sntrup_kem.specs.Faults.{fault_text};
ghost use Rattle.sntrup_kem.specs.Kem.{f_part, ginv_part, public_part, rho_part, cache_part, HasMalformedPart};

use crate::params::KemParams;
use byte_strings::{ByteList, copied};
use radix_pack::small_decode;
use ring_core::Params;
use std::alloc::{AllocError as OutOfMemory, Global};
use std::error::Error;
use std::fmt;
use std::marker::{Model, PhantomData};

/// Why bytes give no key, in the order in which it is tested; memory may run out before `Form`.
#[derive(Clone, Copy, Debug, PartialEq, Eq)]
pub enum KeyBytesFault {
    /// They are too few or too many.
    Length = 1,
    /// One of the two small codings in them is none of a polynomial.
    Form = 2,
    /// Memory ran out.
    OutOfMemory = 3,
}

const _: () = prove!(KeyBytesFault::Length as u8 == 1);

const _: () = prove!(KeyBytesFault::Form as u8 == 2);

const _: () = prove!(KeyBytesFault::OutOfMemory as u8 == 3);

impl fmt::Display for KeyBytesFault {
    ghost output = { λ fault. Some (fault_text fault) };

    fn fmt<W: fmt::Write>(&self, f: &mut fmt::Formatter<W>) -> fmt::Result {
        f.write_str(match self {
            KeyBytesFault::Length => "the key has another length",
            KeyBytesFault::Form => "the bytes encode no key",
            KeyBytesFault::OutOfMemory => "out of memory",
        })
    }
}

impl Error for KeyBytesFault {}

impl From<OutOfMemory> for KeyBytesFault {
    ghost use Rattle.sntrup_kem.specs.declared.keys.KeyBytesFault.TheVariants.{OutOfMemory};

    ghost from_gives = { λ _ fault. fault ≡ OutOfMemory };

    fn from(_error: OutOfMemory) -> KeyBytesFault {
        KeyBytesFault::OutOfMemory
    }
}

/// A public key: the coding of h (NTRU Prime round 3, KeyGen), of `S::PUBLIC` bytes. Contracts see
/// the bytes.
///
/// Every string of so many bytes is a public key.
#[derive(Drop)]
pub struct PublicKey<S: KemParams> {
    bytes: ByteList,
    set: PhantomData<S>,
}

impl<S: KemParams> Model for PublicKey<S> {
    ghost use Rattle.std.specs.Prelude.{ℕ, List, ◌≡◌, length};

    ghost Value = { List ℕ };

    ghost view = { λ k. k.bytes };

    ghost invariant = { λ k. length k.bytes ≡ S.PUBLIC };
}

impl<S: KemParams> PublicKey<S> {
    /// The public key of these bytes.
    pub fn from_bytes(alloc: Global, bytes: &[u8]) -> Result<PublicKey<S>, KeyBytesFault>
        ensures key { IfOk result (λ k. k ≡ bytes.now) }
        ensures length { (result ≡ Err KeyBytesFault.Length) ↔ (length bytes.now ≢ S.PUBLIC) }
        ensures form { result ≢ Err KeyBytesFault.Form }
    {
        if bytes.len() != S::PUBLIC {
            return Err(KeyBytesFault::Length);
        }
        Ok(PublicKey::from_list(copied(alloc, bytes)?))
    }

    // The public key of these bytes, which it keeps.
    pub(crate) fn from_list(bytes: ByteList) -> PublicKey<S>
        requires { length bytes ≡ S.PUBLIC }
        ensures { result ≡ bytes }
    {
        PublicKey {
            bytes,
            set: PhantomData,
        }
    }

    /// The `S::PUBLIC` bytes.
    pub fn as_slice(&self) -> &[u8]
        ensures bytes { result.now ≡ self.now }
        ensures count { length result.now ≡ S.PUBLIC }
    {
        self.bytes.as_slice()
    }
}

/// A secret key (NTRU Prime round 3, KeyGen), of `S::SECRET` bytes: the small codings of f and of
/// 1/g, the public key, rho, which is as long as a small coding, and 32 bytes of the public key's
/// hash, the cache. Contracts see the bytes.
#[derive(Drop)]
pub struct SecretKey<S: KemParams> {
    bytes: ByteList,
    set: PhantomData<S>,
}

impl<S: KemParams> Model for SecretKey<S> {
    ghost use Rattle.std.specs.Prelude.{ℕ, List, ◌≡◌, length};
    ghost use Rattle.sntrup_kem.specs.Kem.{HasMalformedPart};

    ghost Value = { List ℕ };

    ghost view = { λ k. k.bytes };

    ghost invariant = { λ k. (length k.bytes ≡ S.SECRET) × (¬ HasMalformedPart S.set k.bytes) };
}

// The size of a small coding.
pub(crate) fn small_size<S: Params>() -> usize
    ensures few { result ≤ 256 }
    ensures size { result ≡ small_size S.set }
{
    S::P.div_ceil(4)
}

// So many bytes from a place on.
fn part(bytes: &[u8], from: usize, count: usize) -> &[u8]
    requires { from + count ≤ length bytes.now }
    ensures part { result.now ≡ take count (drop from bytes.now) }
    ensures count { length result.now ≡ count }
{
    &bytes[from..from + count]
}

// Whether these bytes are the small coding of no polynomial.
fn is_malformed<S: Params>(alloc: Global, bytes: &[u8]) -> Result<bool, OutOfMemory>
    requires { length bytes.now ≡ small_size S.set }
    ensures { IfOk result (λ malformed. IsTrue malformed ↔ IsMalformed S.set.p bytes.now) }
{
    Ok(small_decode::<S>(alloc, bytes)?.is_none())
}

// Whether one of the two small codings in a secret key's bytes is that of no polynomial.
fn has_malformed_part<S: KemParams>(alloc: Global, bytes: &[u8]) -> Result<bool, OutOfMemory>
    requires { length bytes.now ≡ S.SECRET }
    ensures { IfOk result (λ malformed. IsTrue malformed ↔ HasMalformedPart S.set bytes.now) }
{
    let size = small_size::<S>();
    if is_malformed::<S>(alloc, part(bytes, 0, size))? {
        return Ok(true);
    }
    is_malformed::<S>(alloc, part(bytes, size, size))
}

impl<S: KemParams> SecretKey<S> {
    /// The secret key of these bytes.
    ///
    /// The public key in it, rho and the cache are taken as they are: that they belong to f and 1/g
    /// is not tested.
    pub fn from_bytes(alloc: Global, bytes: &[u8]) -> Result<SecretKey<S>, KeyBytesFault>
        ensures key { IfOk result (λ k. k ≡ bytes.now) }
        ensures length { (result ≡ Err KeyBytesFault.Length) ↔ (length bytes.now ≢ S.SECRET) }
        ensures form { result ≢ Err KeyBytesFault.OutOfMemory → ((result ≡ Err KeyBytesFault.Form)
            ↔ ((length bytes.now ≡ S.SECRET) × HasMalformedPart S.set bytes.now)) }
    {
        if bytes.len() != S::SECRET {
            return Err(KeyBytesFault::Length);
        }
        if has_malformed_part::<S>(alloc, bytes)? {
            return Err(KeyBytesFault::Form);
        }
        Ok(SecretKey::from_list(copied(alloc, bytes)?))
    }

    // The secret key of these bytes, which it keeps.
    pub(crate) fn from_list(bytes: ByteList) -> SecretKey<S>
        requires count { length bytes ≡ S.SECRET }
        requires form { ¬ HasMalformedPart S.set bytes }
        ensures { result ≡ bytes }
    {
        SecretKey {
            bytes,
            set: PhantomData,
        }
    }

    /// The `S::SECRET` bytes.
    pub fn as_slice(&self) -> &[u8]
        ensures bytes { result.now ≡ self.now }
        ensures count { length result.now ≡ S.SECRET }
    {
        self.bytes.as_slice()
    }

    /// The public key in it.
    pub fn public(&self, alloc: Global) -> Result<PublicKey<S>, OutOfMemory>
        ensures { IfOk result (λ k. k ≡ public_part S.set self.now) }
    {
        Ok(PublicKey::from_list(copied(alloc, self.public_bytes())?))
    }

    // The coding of f.
    pub(crate) fn f_bytes(&self) -> &[u8]
        ensures bytes { result.now ≡ f_part S.set self.now }
        ensures count { length result.now ≡ small_size S.set }
        ensures form { ¬ IsMalformed S.set.p result.now }
    {
        part(self.bytes.as_slice(), 0, small_size::<S>())
    }

    // The coding of 1/g.
    pub(crate) fn ginv_bytes(&self) -> &[u8]
        ensures bytes { result.now ≡ ginv_part S.set self.now }
        ensures count { length result.now ≡ small_size S.set }
        ensures form { ¬ IsMalformed S.set.p result.now }
    {
        let size = small_size::<S>();
        part(self.bytes.as_slice(), size, size)
    }

    // The public key.
    pub(crate) fn public_bytes(&self) -> &[u8]
        ensures bytes { result.now ≡ public_part S.set self.now }
        ensures count { length result.now ≡ S.PUBLIC }
    {
        part(self.bytes.as_slice(), 2 * small_size::<S>(), S::PUBLIC)
    }

    // What the rejection key is made of.
    pub(crate) fn rho(&self) -> &[u8]
        ensures bytes { result.now ≡ rho_part S.set self.now }
        ensures count { length result.now ≡ small_size S.set }
    {
        let size = small_size::<S>();
        part(self.bytes.as_slice(), 2 * size + S::PUBLIC, size)
    }

    // The hash of the public key, as it was given.
    pub(crate) fn cache(&self) -> &[u8]
        ensures { result.now ≡ cache_part S.set self.now }
    {
        &self.bytes.as_slice()[3 * small_size::<S>() + S::PUBLIC..]
    }
}
