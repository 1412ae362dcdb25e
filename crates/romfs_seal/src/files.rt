//! A file, the file of its tree, and the digest that they should have.

ghost use Rattle.std.specs.Prelude.{◌≡◌, ◌≢◌, false, ◌+◌, ◌*◌, ◌<◌, ◌≤◌, ◌^◌, ℕ, List, length, take, drop, IsTrue, OnOk, OnErr};
ghost use Rattle.devices.specs.Given.{Allows, IsShort};
ghost use Rattle.devices.specs.Tree.{AreBytes, IsDigest, digest_at, digest_size};
ghost use Rattle.romfs_seal.specs.Digests.{digest_bytes};
ghost use Rattle.devices.specs.Seal.{Seal, IsGiven};

use crate::filling::{fill_block, fill_bytes};
use crate::{BlockHash, Digest};
use devices::{Algorithm, Contents, Unread};

/// A file and the file of its tree, with the reported size and digest.
pub trait NamedFiles {
    // What reads from the files may give, and how they are hashed.
    ghost seal: { Self → Seal };

    /// The reported size.
    fn size(&self) -> u64
        ensures { result ≡ (seal self.now).size };

    /// The algorithm of the digests.
    fn algorithm(&self) -> Algorithm
        ensures { result ≡ (seal self.now).algorithm };

    /// The digest of some bytes.
    fn hash(&self, bytes: &[u8]) -> Digest
        ensures { digest_bytes result ≡ (seal self.now).hash bytes.now };

    /// Whether these bytes have the reported digest.
    fn is_described(&self, descriptor: &[u8]) -> bool
        ensures is { IsTrue result → (seal self.now).hash descriptor.now ≡ (seal self.now).digest }
        ensures not { result ≡ false →
            (seal self.now).hash descriptor.now ≢ (seal self.now).digest };

    /// Fills a block with this many bytes of the file, and zeros after them.
    fn fill_image(&self, block: &mut [u8], count: usize, place: u64) -> Result<(), Unread>
        requires long { length block.old ≡ 4096 }
        requires fits { count ≤ 4096 }
        requires near { place + count < 2 ^ 64 }
        ensures ok { OnOk result (IsGiven (seal self.now).image place count block.new) }
        ensures err { OnErr result (IsShort (seal self.now).image place count) };

    /// Reads a block of the tree.
    fn fill_tree(&self, block: &mut [u8], place: u64) -> Result<(), Unread>
        requires long { length block.old ≡ 4096 }
        requires near { place ≤ 2 ^ 63 }
        ensures ok { OnOk result (IsGiven (seal self.now).tree place 4096 block.new) }
        ensures err { OnErr result (IsShort (seal self.now).tree place 4096) };

    /// Reads a part of the tree.
    fn read_tree(&self, room: &mut [u8], place: u64) -> Result<(), Unread>
        requires { place + length room.old < 2 ^ 64 }
        ensures ok { OnOk result (Allows (seal self.now).tree place room.new) }
        ensures bytes { AreBytes room.new }
        ensures err { OnErr result (IsShort (seal self.now).tree place (length room.old)) };

    ghost sized: { (files : Self) (bytes : List ℕ) →
        IsDigest (seal files).algorithm ((seal files).hash bytes) };
}

/// Whether the digest of a block is the one at this place in a list of digests.
pub(crate) fn has_digest<F: NamedFiles>(
    files: &F,
    digests: &[u8],
    place: usize,
    block: &[u8],
) -> bool
    requires { digest_size (F.seal files.now).algorithm * place
        + digest_size (F.seal files.now).algorithm ≤ length digests.now }
    ensures there { IsTrue result → (F.seal files.now).hash block.now
        ≡ digest_at (F.seal files.now).algorithm digests.now place }
    ensures not { result ≡ false → (F.seal files.now).hash block.now
        ≢ digest_at (F.seal files.now).algorithm digests.now place }
    ensures bytes { AreBytes block.now }
{
    let digest = files.hash(block);
    stands_at(
        digests,
        files.algorithm().digest_size(),
        place,
        digest.as_bytes(),
    )
}

/// Whether a digest of this size is the one at this place in a list of digests.
fn stands_at(digests: &[u8], size: usize, place: usize, digest: &[u8]) -> bool
    requires { size * place + size ≤ length digests.now }
    ensures there { IsTrue result → digest.now ≡ take size (drop (size * place) digests.now) }
    ensures not { result ≡ false → digest.now ≢ take size (drop (size * place) digests.now) }
{
    let at = size * place;
    digest == &digests[at..at + size]
}

/// Two files, with the reported size and digest.
#[derive(Drop)]
pub struct Files<C: Contents, D: Contents, H: BlockHash> {
    /// The file.
    pub image: C,
    /// The file of its tree.
    pub tree: D,
    /// How they are hashed.
    pub hash: H,
    /// The reported digest.
    pub digest: Digest,
    /// The reported size.
    pub size: u64,
}

impl<C: Contents, D: Contents, H: BlockHash> NamedFiles for Files<C, D, H> {
    ghost use Rattle.devices.specs.Sources.{given_of};
    ghost use Rattle.romfs_seal.specs.Digests.{digest_bytes};

    ghost seal = { λ files. record {
      image = given_of (C.source files.image);
      tree = given_of (D.source files.tree);
      algorithm = H.algorithm_of files.hash;
      hash = H.digest_of files.hash;
      size = files.size;
      digest = digest_bytes files.digest;
    } };

    ghost sized = { λ files bytes. H.sized files.hash bytes };

    fn size(&self) -> u64 {
        self.size
    }

    fn algorithm(&self) -> Algorithm {
        self.hash.algorithm()
    }

    fn hash(&self, bytes: &[u8]) -> Digest {
        self.hash.hash(bytes)
    }

    fn is_described(&self, descriptor: &[u8]) -> bool {
        self.hash.hash(descriptor).as_bytes() == self.digest.as_bytes()
    }

    fn fill_image(&self, block: &mut [u8], count: usize, place: u64) -> Result<(), Unread> {
        fill_block(&self.image, block, count, place)
    }

    fn fill_tree(&self, block: &mut [u8], place: u64) -> Result<(), Unread> {
        fill_block(&self.tree, block, 4096, place)
    }

    fn read_tree(&self, room: &mut [u8], place: u64) -> Result<(), Unread> {
        fill_bytes(&self.tree, room, place)
    }
}
