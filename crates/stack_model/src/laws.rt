//! Laws of stacking and numbering.

ghost use Rattle.std.specs.Prelude.{◌≡◌, ◌≢◌, ◌↔◌, ◌⊎◌, ◌+◌, ◌/◌, ◌%◌, ◌^◌, ◌<◌, ◌≤◌, ◌++◌, [], ◌∷◌, ℕ, List, None, Some, IsSome, length, codes};
ghost use Rattle.std.specs.List.{AllByRecursion};
ghost use Rattle.stack_model.specs.declared.owner.TheConstants.Owner.{ROOT};
ghost use Rattle.romfs_format.specs.declared.attribute_row.AttributeRow.{AttributeRow};
ghost use Rattle.romfs_format.specs.declared.head.Kind.TheVariants.{Directory};
ghost use Rattle.romfs_format.specs.Fields.{kind};
ghost use Rattle.romfs_format.specs.Chains.{Has};
ghost use Rattle.stack_model.specs.Stack.{Path, IsPlain, IsIn, HasDirectory, HasOther, Cuts, Shows, IsFree, IsCut};
ghost use Rattle.stack_model.specs.Attributes.{mode, mode_at, row_of, attr_of};
ghost use Rattle.stack_model.specs.Listing.{Entry, Stacked, stacked, IsAmong, IsListing};
ghost use Rattle.stack_model.specs.Numbers.{Place, place, nodes, number_of, node_of};

/// A list of layers has at most one listing.
#[tactic(auto, using(crate::proofs::Listings::one_listing))]
pub fn one_listing()
    ensures { (layers : List (List ℕ)) (xs ys : List Entry) →
        IsListing layers xs → IsListing layers ys → xs ≡ ys }
{}

/// One layer shows exactly the paths that it has and that do not name markers: its own markers cut
/// nothing of its own.
#[tactic(auto, using(crate::proofs::Joined::alone))]
pub fn one_layer_shows_its_own()
    ensures { (a : List ℕ) (path : Path) (i h : ℕ) →
        Shows (a ∷ []) path i h ↔ (IsPlain path × (i ≡ 0) × Has a path h) }
{}

/// A run of layers laid on another one: the joined run shows what the upper run shows, and what the
/// lower run shows if the upper one neither has nor cuts it; and it cuts what either cuts.
#[tactic(auto, using(crate::proofs::Joined::joins))]
pub fn laid_is_joined()
    ensures free { (layers : List (List ℕ)) (path : Path) →
        IsFree layers path ↔ (AllByRecursion (λ a. ¬ IsIn a path) layers × ¬ IsCut layers path) }
    ensures shows { (low high : List (List ℕ)) (path : Path) (i h : ℕ) →
        Shows (low ++ high) path i h
        ↔ (((j : ℕ) × (i ≡ length low + j) × Shows high path j h)
        ⊎ (Shows low path i h × IsFree high path)) }
    ensures cuts { (low high : List (List ℕ)) (path : Path) →
        IsCut (low ++ high) path ↔ (IsCut low path ⊎ IsCut high path) }
{}

/// Whiteouts: in a directory of a layer a marker for y cuts y and everything below it, and an
/// opaque marker cuts everything in the directory. An entry that is not a directory cuts what is at
/// its place and below. The root is never cut.
#[tactic(auto, using(crate::proofs::Joined::cuts_of_a_layer))]
pub fn whiteouts_cut()
    ensures marker { (a : List ℕ) (q rest : Path) (y : List ℕ) →
        IsPlain (q ++ y ∷ rest) → HasDirectory a q →
        IsIn a (q ++ (codes ".wh." ++ y) ∷ []) → Cuts a (q ++ y ∷ rest) }
    ensures opaque { (a : List ℕ) (q rest : Path) (y : List ℕ) →
        IsPlain (q ++ y ∷ rest) → HasDirectory a q →
        IsIn a (q ++ codes ".wh..wh..opq" ∷ []) → Cuts a (q ++ y ∷ rest) }
    ensures replaced { (a : List ℕ) (q rest : Path) (y : List ℕ) →
        IsPlain (q ++ y ∷ rest) → HasDirectory a q →
        HasOther a (q ++ y ∷ []) → Cuts a (q ++ y ∷ rest) }
    ensures root { (a : List ℕ) → ¬ Cuts a [] }
{}

/// An entry of any kind except a directory cuts what lower layers have at its place and below: also
/// a file, a device, or a link over a directory, wherever the link leads.
pub fn all_but_directories_cut()
    ensures { (a : List ℕ) (q rest : Path) (y : List ℕ) (h : ℕ) →
        IsPlain (q ++ y ∷ rest) → HasDirectory a q →
        Has a (q ++ y ∷ []) h → kind a h ≢ Directory → Cuts a (q ++ y ∷ rest) }
{}

/// Numbers: the root has 1 if it is listed; each number from 1 to the count of nodes belongs to
/// exactly one place, that of some entry, and no other number is used; two entries have one number
/// exactly if they have one place.
#[tactic(auto, using(crate::proofs::Numbering::numbering))]
pub fn numbers_are_places()
    ensures root { (layers : List (List ℕ)) (entries : List Entry) (e : Entry) →
        IsListing layers entries → IsAmong e entries → e.path ≡ [] →
        number_of entries (place e) ≡ Some 1 }
    ensures used { (entries : List Entry) (n : ℕ) (p : Place) →
        (number_of entries p ≡ Some n) ↔ (node_of entries n ≡ Some p) }
    ensures listed { (entries : List Entry) (n : ℕ) (p : Place) →
        node_of entries n ≡ Some p → (e : Entry) × IsAmong e entries × (place e ≡ p) }
    ensures all { (entries : List Entry) (n : ℕ) →
        IsSome (node_of entries n) ↔ ((1 ≤ n) × (n ≤ length (nodes entries))) }
    ensures entries { (entries : List Entry) (e f : Entry) → IsAmong e entries → IsAmong f entries →
        IsSome (number_of entries (place e))
        × ((number_of entries (place e) ≡ number_of entries (place f)) ↔ (place e ≡ place f)) }
{}

/// Modes: the type is always the header's; a row gives all other bits. If a place has no row, and
/// everything without one belongs to the superuser, its attributes are those without any rows.
#[tactic(auto, using(crate::proofs::Modes::modes))]
pub fn types_are_the_headers()
    ensures types { (stack : Stacked) (p : Place) →
        mode_at stack p / 2 ^ 12 ≡ mode stack.layers p / 2 ^ 12 }
    ensures bits { (stack : Stacked) (p : Place) (row : AttributeRow) →
        row_of stack p ≡ Some row → mode_at stack p % 2 ^ 12 ≡ row.mode % 2 ^ 12 }
    ensures without { (stack : Stacked) (p : Place) →
        row_of stack p ≡ None → stack.owner ≡ ROOT →
        attr_of stack p ≡ attr_of (stacked stack.layers stack.entries) p }
{}
