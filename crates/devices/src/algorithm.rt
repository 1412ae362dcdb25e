//! The hash algorithms.

ghost use Rattle.std.specs.Prelude.{◌≡◌, ◌+◌, ◌*◌, ◌^◌, ◌<◌, ◌≤◌};
ghost use Rattle.devices.specs.Tree.{blocks_above, digest_size, fan};
ghost use Rattle.devices.specs.File.{number};

/// A hash algorithm of fs-verity.
#[derive(Clone, Copy, Debug, PartialEq, Eq)]
pub enum Algorithm {
    /// SHA-256, with digests of 32 bytes.
    Sha256,
    /// SHA-512, with digests of 64 bytes.
    Sha512,
}

impl Algorithm {
    /// How many bytes a digest has.
    pub fn digest_size(self) -> usize
        ensures size { result ≡ digest_size self }
        ensures bound { result ≤ 64 }
    {
        match self {
            Algorithm::Sha256 => 32,
            Algorithm::Sha512 => 64,
        }
    }

    /// Its number in a descriptor.
    pub fn number(self) -> u8
        ensures { result ≡ number self }
    {
        match self {
            Algorithm::Sha256 => 1,
            Algorithm::Sha512 => 2,
        }
    }

    /// How many digests a block holds.
    pub fn fan(self) -> u64
        ensures count { result ≡ fan self }
        ensures some { 0 < result }
        ensures bound { result ≤ 128 }
    {
        match self {
            Algorithm::Sha256 => 128,
            Algorithm::Sha512 => 64,
        }
    }

    /// How many blocks the digests of this many blocks fill.
    pub fn blocks_above(self, blocks: u64) -> u64
        requires { blocks ≤ 2 ^ 52 }
        ensures count { result ≡ blocks_above self blocks }
        ensures fewer { 64 * result ≤ blocks + 63 }
    {
        match self {
            Algorithm::Sha256 => (blocks + 127) / 128,
            Algorithm::Sha512 => (blocks + 63) / 64,
        }
    }
}
