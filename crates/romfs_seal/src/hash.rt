//! The hash of a block.

ghost use Rattle.std.specs.Prelude.{◌≡◌, ℕ, List};
ghost use Rattle.devices.specs.declared.algorithm.Algorithm.{Algorithm};
ghost use Rattle.devices.specs.Tree.{IsDigest};
ghost use Rattle.romfs_seal.specs.Digests.{digest_bytes};

use crate::digest::Digest;
use devices::Algorithm;
use sha2::{Digest as Hasher, Sha256, Sha512};

/// A hash: it maps bytes to a digest.
pub trait BlockHash {
    // Its name in fs-verity.
    ghost algorithm_of: { Self → Algorithm };

    // The digest of these bytes.
    ghost digest_of: { Self → List ℕ → List ℕ };

    /// Its name in fs-verity.
    fn algorithm(&self) -> Algorithm
        ensures { result ≡ algorithm_of self.now };

    /// The digest of the bytes.
    fn hash(&self, bytes: &[u8]) -> Digest
        ensures { digest_bytes result ≡ digest_of self.now bytes.now };

    ghost sized: { (hash : Self) (bytes : List ℕ) →
        IsDigest (algorithm_of hash) (digest_of hash bytes) };
}

impl BlockHash for Algorithm {
    ghost use Rattle.romfs_seal.specs.Digests.{sha, is_digest};

    ghost algorithm_of = { λ algorithm. algorithm };

    ghost digest_of = { λ algorithm. sha algorithm };

    ghost sized = { λ algorithm bytes. is_digest algorithm bytes };

    fn algorithm(&self) -> Algorithm {
        *self
    }

    fn hash(&self, bytes: &[u8]) -> Digest {
        match self {
            Algorithm::Sha256 => Digest::Short(Sha256::digest(bytes)),
            Algorithm::Sha512 => Digest::Long(Sha512::digest(bytes)),
        }
    }
}
