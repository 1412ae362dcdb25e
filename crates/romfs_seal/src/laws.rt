//! What holds of reads under a digest, by the definitions alone.

ghost use Rattle.std.specs.Prelude.{◌≡◌, ◌⊎◌, ◌^◌, ◌<◌, ◌≤◌, List, ℕ, length};
ghost use Rattle.devices.specs.Tree.{AreBytes, IsDigest};
ghost use Rattle.devices.specs.File.{IsFileDigest};
ghost use Rattle.devices.specs.Seal.{Seal, MayBeKept};
ghost use Rattle.devices.specs.Read.{AreRead, IsUnmatched};
ghost use Rattle.devices.specs.Honest.{IsHonest};
ghost use Rattle.romfs_seal.specs.Twins.{AreForgedIn};

/// The premise holds for any bytes that are held with their tree, under any hash. Reads of these
/// are therefore right without a premise.
pub fn held_bytes_are_unmatched()
    ensures { (s : Seal) (xs : List ℕ) → ((m : List ℕ) → IsDigest s.algorithm (s.hash m)) →
        IsHonest s xs → IsUnmatched s xs }
{}

/// What may be kept of a tree of hashes is bytes, whatever its reads give.
pub fn what_may_be_kept_is_bytes()
    ensures { (s : Seal) (levels : ℕ) (kept : List ℕ) →
        ((m : List ℕ) → IsDigest s.algorithm (s.hash m)) → MayBeKept s levels kept →
        AreBytes kept }
{}

/// What was read in full under a digest, and is not empty, is each file with that digest; or the
/// descriptor, or a block on the way from one of the bytes to the top of the tree, differs from
/// that file's and has the same digest. There is no premise on the hash.
pub fn read_in_full_is_right_or_forged()
    ensures { (s : Seal) (xs ys : List ℕ) → ((m : List ℕ) → IsDigest s.algorithm (s.hash m)) →
        (read : AreRead s 0 xs) → s.size ≡ length xs → 1 ≤ length xs → length xs < 2 ^ 64 →
        (y : IsFileDigest s.algorithm s.hash ys s.digest) →
        (xs ≡ ys) ⊎ AreForgedIn s ys y.levels 0 xs read }
{}
