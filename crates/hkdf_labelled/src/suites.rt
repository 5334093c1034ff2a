//! The algorithms that a suite names (RFC 9180, 7).

ghost use Rattle.std.specs.Prelude.{◌≡◌};
ghost use Rattle.hkdf_labelled.specs.Suites.{hash_size, block_size, kdf_id, parameters, encrypts, aead_id, aead_named};

/// A KDF of HPKE: HKDF over one of the SHA-2 hashes (RFC 9180, 7.2).
#[derive(Clone, Copy, Debug, PartialEq, Eq)]
pub enum Kdf {
    /// HKDF-SHA256
    Sha256,
    /// HKDF-SHA384
    Sha384,
    /// HKDF-SHA512
    Sha512,
}

impl Kdf {
    /// Nh: the size of a hash value, in bytes.
    pub fn size(self) -> usize
        ensures { result ≡ hash_size self }
    {
        match self {
            Kdf::Sha256 => 32,
            Kdf::Sha384 => 48,
            Kdf::Sha512 => 64,
        }
    }

    // B: the size of a block of the hash function, in bytes.
    pub(crate) fn block_size(self) -> usize
        ensures { result ≡ block_size self }
    {
        match self {
            Kdf::Sha256 => 64,
            Kdf::Sha384 | Kdf::Sha512 => 128,
        }
    }

    /// kdf_id: the number in the registry of RFC 9180, 7.2.
    pub fn id(self) -> u16
        ensures { result ≡ kdf_id self }
    {
        match self {
            Kdf::Sha256 => 1,
            Kdf::Sha384 => 2,
            Kdf::Sha512 => 3,
        }
    }
}

/// Nt of both AES-GCM suites (RFC 9180, 7.3), in bytes.
pub const TAG_SIZE: usize = 16;

/// An AEAD of HPKE, or none where secrets are only exported (RFC 9180, 7.3).
#[derive(Clone, Copy, Debug, PartialEq, Eq)]
pub enum Aead {
    /// AES-128-GCM
    Aes128,
    /// AES-256-GCM
    Aes256,
    /// Export-only: no key and no nonces
    ExportOnly,
}

/// What an AEAD is (RFC 9180, 7.3). Sizes are in bytes.
#[derive(Clone, Copy, Debug, PartialEq, Eq)]
pub struct AeadParameters {
    /// aead_id: the number in the registry of RFC 9180, 7.3
    pub id: u16,
    /// Nk: the size of a key
    pub key_size: usize,
    /// Nn: the size of a nonce
    pub nonce_size: usize,
    /// Nt: the size of a tag, which a ciphertext has more than its plaintext
    pub tag_size: usize,
}

impl Aead {
    /// The AEAD's number and sizes. The sizes of an export-only suite are 0.
    pub fn parameters(self) -> AeadParameters
        ensures { result ≡ parameters self }
    {
        match self {
            Aead::Aes128 => AeadParameters {
                id: 1,
                key_size: 16,
                nonce_size: 12,
                tag_size: TAG_SIZE,
            },
            Aead::Aes256 => AeadParameters {
                id: 2,
                key_size: 32,
                nonce_size: 12,
                tag_size: TAG_SIZE,
            },
            Aead::ExportOnly => AeadParameters {
                id: 65535,
                key_size: 0,
                nonce_size: 0,
                tag_size: 0,
            },
        }
    }

    /// Whether it encrypts, which export-only doesn't.
    pub fn encrypts(self) -> bool
        ensures { result ≡ encrypts self }
    {
        match self {
            Aead::Aes128 | Aead::Aes256 => true,
            Aead::ExportOnly => false,
        }
    }

    /// aead_id: the number in the registry of RFC 9180, 7.3.
    pub fn id(self) -> u16
        ensures { result ≡ aead_id self }
    {
        self.parameters().id
    }

    /// The AEAD of a number in that registry. ChaCha20Poly1305 is none of these.
    pub fn named(id: u16) -> Option<Aead>
        ensures { result ≡ aead_named id }
    {
        match id {
            1 => Some(Aead::Aes128),
            2 => Some(Aead::Aes256),
            65535 => Some(Aead::ExportOnly),
            _ => None,
        }
    }
}

/// The algorithms of a context. The KEM is here by its number alone, which goes into the labels;
/// whose number it is isn't checked.
#[derive(Clone, Copy, Debug, PartialEq, Eq)]
pub struct Suite {
    /// kem_id (RFC 9180, 7.1)
    pub kem: u16,
    pub kdf: Kdf,
    pub aead: Aead,
}
