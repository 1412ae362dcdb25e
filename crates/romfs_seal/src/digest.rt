//! Digests.

ghost use Rattle.std.specs.Prelude.{◌≡◌};
ghost use Rattle.romfs_seal.specs.Digests.{digest_bytes, made_by};

use devices::Algorithm;

/// A digest.
#[derive(Clone, Copy, Debug, PartialEq, Eq)]
pub enum Digest {
    /// Of SHA-256.
    Short([u8; 32]),
    /// Of SHA-512.
    Long([u8; 64]),
}

impl Digest {
    /// The algorithm that makes such digests.
    pub fn algorithm(&self) -> Algorithm
        ensures { result ≡ made_by self.now }
    {
        match self {
            Digest::Short(_) => Algorithm::Sha256,
            Digest::Long(_) => Algorithm::Sha512,
        }
    }

    /// Its bytes.
    pub fn as_bytes(&self) -> &[u8]
        ensures { result.now ≡ digest_bytes self.now }
    {
        match self {
            Digest::Short(bytes) => bytes.as_slice(),
            Digest::Long(bytes) => bytes.as_slice(),
        }
    }
}
