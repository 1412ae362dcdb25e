//! What a check of what is kept of an image says about the image.

ghost use Rattle.std.specs.Prelude.{◌≡◌, ◌↔◌, ℕ, List, IsTrue};
ghost use Rattle.romfs_format.specs.declared.rule.Profile.{Profile};
ghost use Rattle.romfs_format.specs.Profiles.{reads_attributes};
ghost use Rattle.romfs_format.specs.Rules.{IsSound};
ghost use Rattle.romfs_format.specs.Trailer.{lists_shown, rows_shown};
ghost use Rattle.romfs_kept.specs.Gathered.{IsGatheredOf, IsGatheredWithTrailerOf};
ghost use Rattle.romfs_image.specs.declared.refusal.CheckFault.{CheckFault};
ghost use Rattle.romfs_image.specs.Refusals.{IsRefusal};

/// What was gathered from bytes is sound if they are, and otherwise refused with their fault,
/// under a profile without attributes.
pub fn kept_is_judged_as_its_bytes()
    ensures { (profile : Profile) → ¬ IsTrue (reads_attributes profile) → (b a : List ℕ) →
        IsGatheredOf b a → (IsSound profile a ↔ IsSound profile b)
        × ((fault : CheckFault) → IsRefusal profile a fault ↔ IsRefusal profile b fault) }
{}

/// What was gathered from bytes with their trailer is judged so under every profile, and
/// shows the rows that they show and their extended attributes, if they are sound.
pub fn kept_with_trailer_is_judged_as_its_bytes()
    ensures { (profile : Profile) → (b a : List ℕ) → IsGatheredWithTrailerOf b a →
        (IsSound profile a ↔ IsSound profile b)
        × ((fault : CheckFault) → IsRefusal profile a fault ↔ IsRefusal profile b fault)
        × (IsSound profile b → (rows_shown profile a ≡ rows_shown profile b)
        × (lists_shown profile a ≡ lists_shown profile b)) }
{}
