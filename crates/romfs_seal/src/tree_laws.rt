//! What follows from a digest.

ghost use Rattle.std.specs.Prelude.{◌≡◌, ◌⊎◌, ◌<◌, ℕ, List};
ghost use Rattle.devices.specs.Tree.{AreBlocks, HasLevels, block, root};
ghost use Rattle.devices.specs.File.{IsFileDigest};
ghost use Rattle.devices.specs.Vouched.{Vouches};
ghost use Rattle.romfs_seal.specs.Twins.{IsForged, AreForged};

use crate::hash::BlockHash;

/// What the root hash of some blocks vouches for is theirs, or one of the blocks on the way to the
/// top differs from theirs and has the same digest. There is no premise on the hash.
pub fn vouched_is_right_or_forged<H: BlockHash>()
    ensures { (hash : H) (xs : List ℕ) (n levels i : ℕ) (b : List ℕ) → AreBlocks xs n →
        HasLevels (H.algorithm_of hash) n levels → i < n →
        (vouched : Vouches (H.algorithm_of hash) (H.digest_of hash) levels
        (root (H.algorithm_of hash) (H.digest_of hash) levels xs n) i b) →
        (b ≡ block xs i) ⊎ IsForged (H.algorithm_of hash) (H.digest_of hash) levels xs n
        (root (H.algorithm_of hash) (H.digest_of hash) levels xs n) i b vouched }
{}

/// Two files with the same digest have the same bytes, however many; or their descriptors, or two
/// blocks at one place of their trees, differ and have the same digest.
pub fn one_digest_one_file<H: BlockHash>()
    ensures { (hash : H) (xs ys d : List ℕ) →
        (x : IsFileDigest (H.algorithm_of hash) (H.digest_of hash) xs d) →
        (y : IsFileDigest (H.algorithm_of hash) (H.digest_of hash) ys d) →
        (ys ≡ xs) ⊎ AreForged (H.algorithm_of hash) (H.digest_of hash) xs ys x.levels y.levels }
{}
