//! What holds of bytes that agree with what was kept of them.

ghost use Rattle.std.specs.Prelude.{◌≡◌, ◌≤◌, ℕ, List, Bool, Option, Some, IsTrue, length, take, drop};
ghost use Rattle.romfs_format.specs.declared.rule.Rule.{Rule};
ghost use Rattle.romfs_format.specs.declared.rule.ImageFault.{ImageFault};
ghost use Rattle.romfs_format.specs.declared.rule.Profile.{Profile};
ghost use Rattle.romfs_format.specs.declared.limits.TheConstants.{HEAD_SIZE, MAX_TARGET_SIZE};
ghost use Rattle.romfs_format.specs.declared.head.Kind.TheVariants.{SymLink};
ghost use Rattle.romfs_format.specs.Fields.{word, kind, size, name, data_at};
ghost use Rattle.romfs_format.specs.Chains.{Has};
ghost use Rattle.romfs_format.specs.Heads.{head_of};
ghost use Rattle.romfs_format.specs.Links.{IsFinal};
ghost use Rattle.romfs_format.specs.Profiles.{reads_attributes};
ghost use Rattle.romfs_format.specs.Rules.{Breaks, BreaksHeader, IsFaultOf, IsSound};
ghost use Rattle.romfs_format.specs.Trailer.{lists_shown, rows_shown};
ghost use Rattle.romfs_kept.specs.Gathered.{IsGatheredOf, IsGatheredWithTrailerOf};
ghost use Rattle.romfs_kept.specs.Footprint.{Agrees, IsClosed};

/// Lists that agree on the kept parts of a closed set of headers break the same header rules, each
/// at the same headers, under every profile.
pub fn same_header_rules()
    ensures { (profile : Profile) (kept headers : ℕ → Bool) (a xs : List ℕ) → Agrees kept a xs →
        IsClosed kept headers a → (r : Rule) (h : ℕ) →
        (BreaksHeader profile a r h → BreaksHeader profile xs r h)
        × (BreaksHeader profile xs r h → BreaksHeader profile a r h) }
{}

/// What was gathered from bytes with their full size breaks exactly the rules that they break, at
/// the same places, under a profile that does not read attributes: their trailer comes after the
/// full size.
pub fn same_rules()
    ensures { (profile : Profile) → ¬ IsTrue (reads_attributes profile) → (b a : List ℕ) →
        IsGatheredOf b a → HEAD_SIZE ≤ word b 8 → word b 8 ≤ length b → (r : Rule) (p : ℕ) →
        (Breaks profile b r p → Breaks profile a r p)
        × (Breaks profile a r p → Breaks profile b r p) }
{}

/// What was gathered from any bytes is sound if they are, and otherwise has their fault, under such
/// a profile.
pub fn same_fault()
    ensures { (profile : Profile) → ¬ IsTrue (reads_attributes profile) → (b a : List ℕ) →
        IsGatheredOf b a → (fault : Option ImageFault) →
        (IsFaultOf profile b fault → IsFaultOf profile a fault)
        × (IsFaultOf profile a fault → IsFaultOf profile b fault) }
{}

/// What was gathered from any bytes with their trailer is sound if they are, and otherwise has
/// their fault, under every profile.
pub fn same_fault_with_trailer()
    ensures { (profile : Profile) → (b a : List ℕ) → IsGatheredWithTrailerOf b a →
        (fault : Option ImageFault) →
        (IsFaultOf profile b fault → IsFaultOf profile a fault)
        × (IsFaultOf profile a fault → IsFaultOf profile b fault) }
{}

/// And it shows the rows that they show, if they are sound.
pub fn same_rows_with_trailer()
    ensures { (profile : Profile) → (b a : List ℕ) → IsGatheredWithTrailerOf b a →
        IsSound profile b → rows_shown profile a ≡ rows_shown profile b }
{}

/// And their extended attributes.
pub fn same_lists_with_trailer()
    ensures { (profile : Profile) → (b a : List ℕ) → IsGatheredWithTrailerOf b a →
        IsSound profile b → lists_shown profile a ≡ lists_shown profile b }
{}

/// In lists that agree on the kept parts of a closed set of headers, paths lead to the same
/// headers, and hard links to the same ends. Both have the same fields; an end has the same name,
/// too.
pub fn same_paths()
    ensures paths { (kept headers : ℕ → Bool) (a xs : List ℕ) → Agrees kept a xs →
        IsClosed kept headers a → (path : List (List ℕ)) (h : ℕ) →
        (Has a path h → Has xs path h × (head_of a h ≡ head_of xs h))
        × (Has xs path h → Has a path h) }
    ensures ends { (kept headers : ℕ → Bool) (a xs : List ℕ) → Agrees kept a xs →
        IsClosed kept headers a → (path : List (List ℕ)) (h end : ℕ) → Has a path h →
        (IsFinal a h end → IsFinal xs h end × (head_of a end ≡ head_of xs end)
        × (name a end ≡ name xs end))
        × (IsFinal xs h end → IsFinal a h end) }
{}

/// A symbolic link to which a path leads, after hard links, has the same target in both, unless it
/// is too long.
pub fn same_targets()
    ensures { (kept headers : ℕ → Bool) (a xs : List ℕ) → Agrees kept a xs →
        IsClosed kept headers a → (path : List (List ℕ)) (h end : ℕ) (n : List ℕ) →
        Has a path h → IsFinal a h end → kind a end ≡ SymLink → size a end ≤ MAX_TARGET_SIZE →
        name a end ≡ Some n →
        take (size a end) (drop (data_at end n) a) ≡ take (size a end) (drop (data_at end n) xs) }
{}
