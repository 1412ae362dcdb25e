//! What holds of every list of bytes, by the definitions alone.

ghost use Rattle.std.specs.Prelude.{◌≡◌, ◌≤◌, ◌↔◌, ℕ, List, IsTrue};
ghost use Rattle.romfs_format.specs.declared.head.Kind.TheVariants.{SymLink};
ghost use Rattle.romfs_format.specs.declared.limits.TheConstants.{MAX_TARGET_SIZE};
ghost use Rattle.romfs_format.specs.declared.rule.Rule.{Rule};
ghost use Rattle.romfs_format.specs.declared.rule.Profile.{Profile};
ghost use Rattle.romfs_format.specs.declared.rule.Profile.TheVariants.{Strict, Usual};
ghost use Rattle.romfs_format.specs.declared.rule.Profile.TheVariants.{StrictWithAttributes};
ghost use Rattle.romfs_format.specs.declared.rule.Profile.TheVariants.{UsualWithAttributes};
ghost use Rattle.romfs_format.specs.Profiles.{reads_attributes};
ghost use Rattle.romfs_format.specs.Trailer.{HasTrailer, IsTrailer, IsTrailerBroken, trailer};
ghost use Rattle.romfs_format.specs.Fields.{image, kind, size, word};
ghost use Rattle.romfs_format.specs.Chains.{Has};
ghost use Rattle.romfs_format.specs.Links.{IsFinal};
ghost use Rattle.romfs_format.specs.Rules.{IsFault, IsSound};

/// Under a profile an image has at most one fault, and a sound one has none.
#[tactic(auto, using(crate::proofs::Faults::one_fault, crate::proofs::Faults::no_fault))]
pub fn one_fault()
    ensures once { (profile : Profile) (b : List ℕ) (r s : Rule) (p q : ℕ) →
        IsFault profile b r p → IsFault profile b s q → (r ≡ s) × (p ≡ q) }
    ensures none { (profile : Profile) (b : List ℕ) (r : Rule) (p : ℕ) →
        IsSound profile b → ¬ IsFault profile b r p }
{}

/// What is sound under the strict profile is sound.
#[tactic(auto, using(crate::proofs::Faults::strict_sound))]
pub fn strict_is_sound()
    ensures { (b : List ℕ) → IsSound Strict b → IsSound Usual b }
{}

/// A profile with attributes requires what the one without them requires, and that a trailer is not
/// broken.
#[tactic(auto, using(crate::proofs::Faults::with_usual, crate::proofs::Faults::with_strict))]
pub fn attributes_are_one_rule()
    ensures usual { (b : List ℕ) → IsSound UsualWithAttributes b
        ↔ (IsSound Usual b × ¬ IsTrailerBroken b) }
    ensures strict { (b : List ℕ) → IsSound StrictWithAttributes b
        ↔ (IsSound Strict b × ¬ IsTrailerBroken b) }
{}

/// The trailer of a sound image keeps its rule, under a profile that reads it.
#[tactic(auto, using(crate::proofs::Trailers::whole_trailer))]
pub fn trailers_are_whole()
    ensures { (profile : Profile) (b : List ℕ) → IsTrue (reads_attributes profile) →
        IsSound profile b → HasTrailer b → IsTrailer (word b 8) (trailer b) }
{}

/// A symbolic link of a sound image that a path leads to, after hard links, has a target of at most
/// [`MAX_TARGET_SIZE`](crate::limits::MAX_TARGET_SIZE) bytes.
#[tactic(auto, using(crate::proofs::Targets::short_target))]
pub fn targets_are_short()
    ensures { (b : List ℕ) → IsSound Usual b → (path : List (List ℕ)) (h e : ℕ) →
        Has (image b) path h → IsFinal (image b) h e → kind (image b) e ≡ SymLink →
        size (image b) e ≤ MAX_TARGET_SIZE }
{}
