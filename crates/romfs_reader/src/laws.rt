//! What holds of the accessible bytes of every accepted image.

ghost use Rattle.std.specs.Prelude.{◌≡◌, ◌≤◌, ℕ, List, length, Contains};
ghost use Rattle.romfs_format.specs.declared.limits.TheConstants.{MAX_NAMES};
ghost use Rattle.romfs_format.specs.Chains.{Has};
ghost use Rattle.romfs_reader.specs.Images.{IsImage};

/// A path has one header and no more than [`MAX_NAMES`](romfs_format::limits::MAX_NAMES) names, and
/// there are finitely many paths: here is a list of all.
#[tactic(auto, using(crate::proofs::Paths::path_laws))]
pub fn paths_are_few()
    ensures one { (a : List ℕ) → IsImage a → (path : List (List ℕ)) (g h : ℕ) →
        Has a path g → Has a path h → g ≡ h }
    ensures short { (a : List ℕ) → IsImage a → (path : List (List ℕ)) (h : ℕ) →
        Has a path h → length path ≤ MAX_NAMES }
    ensures all { (a : List ℕ) → IsImage a →
        (all : List (List (List ℕ)))
        × ((path : List (List ℕ)) (h : ℕ) → Has a path h → Contains all path) }
{}
