//! One hasher for the three hash functions.

ghost use Rattle.std.specs.Prelude.{◌≡◌, ℕ, List, [], ◌++◌};
ghost use Rattle.hkdf_labelled.specs.Suites.{hash};
ghost use Rattle.hkdf_labelled.specs.Hashers.{kdf_of, Took};

use crate::prks::Prk;
use crate::suites::Kdf;
use sha2::{Digest, Sha256, Sha384, Sha512};

// A hasher of the hash function of a KDF.
#[derive(Drop)]
pub(crate) enum Hasher {
    Of256(Sha256),
    Of384(Sha384),
    Of512(Sha512),
}

impl Hasher {
    pub(crate) fn new(kdf: Kdf) -> Hasher
        ensures kdf { kdf_of result ≡ kdf }
        ensures empty { Took result [] }
    {
        match kdf {
            Kdf::Sha256 => Hasher::Of256(Sha256::new()),
            Kdf::Sha384 => Hasher::Of384(Sha384::new()),
            Kdf::Sha512 => Hasher::Of512(Sha512::new()),
        }
    }

    // A hasher that has taken in the same message. No clone of these hashers fails.
    pub(crate) fn copy(&self) -> Hasher
        ensures { result ≡ self.now }
    {
        match self {
            Hasher::Of256(hasher) => Hasher::Of256(hasher.clone().unwrap()),
            Hasher::Of384(hasher) => Hasher::Of384(hasher.clone().unwrap()),
            Hasher::Of512(hasher) => Hasher::Of512(hasher.clone().unwrap()),
        }
    }

    // Takes in more of the message.
    pub(crate) fn update(&mut self, bytes: &[u8])
        ensures kdf { kdf_of self.new ≡ kdf_of self.old }
        ensures joined { (m : List ℕ) → Took self.old m → Took self.new (m ++ bytes.now) }
    {
        match self {
            Hasher::Of256(hasher) => hasher.update(bytes),
            Hasher::Of384(hasher) => hasher.update(bytes),
            Hasher::Of512(hasher) => hasher.update(bytes),
        }
    }

    // The hash of the message.
    pub(crate) fn finish(self) -> Prk
        ensures { (m : List ℕ) → Took self m → result ≡ hash (kdf_of self) m }
    {
        match self {
            Hasher::Of256(hasher) => Prk::from_slice(&hasher.finalize()),
            Hasher::Of384(hasher) => Prk::from_slice(&hasher.finalize()),
            Hasher::Of512(hasher) => Prk::from_slice(&hasher.finalize()),
        }
    }
}
