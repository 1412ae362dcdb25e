//! Laws of trees.

ghost use Rattle.std.specs.Prelude.{◌≡◌, ℕ, List, [], ◌∷◌, ◌++◌, Some, IsSomeAnd};
ghost use Rattle.std.specs.List.{AllByRecursion};
ghost use Rattle.romfs_format.specs.declared.head.Kind.TheVariants.{Directory};
ghost use Rattle.romfs_reader.specs.Images.{IsImage};
ghost use Rattle.romfs_format.specs.Chains.{Has};
ghost use Rattle.stack_model.specs.Listing.{Entry as Listed, IsListing};
ghost use Rattle.stack_model.specs.Stack.{Path, IsPlain, IsIn, Shows};
ghost use Rattle.layer_paths.specs.Rows.{Subtree, spread, named, at_path};
ghost use Rattle.layer_paths.specs.declared.entries.Entry.{Entry};
ghost use Rattle.layer_tree.specs.Merging.{IsUnremoved, value_of};
ghost use Rattle.layer_paths.specs.Trees.{TreeRows, entry_at, cuts_at, AreChildren, IsTreeOf, listing};

/// The entries of a tree whose layers are numbered from 0, in the order of their paths, are the
/// listing of these layers.
pub fn entries_are_the_listing()
    ensures { (layers : List (List ℕ)) (t : TreeRows) →
        IsTreeOf 0 layers t → IsListing layers (listing t) }
{}

/// Layers that are the accessible bytes of sound images have a listing, whether or not memory
/// suffices to make a tree of them.
#[tactic(auto, using(crate::proofs::Existing::some_listing))]
pub fn sound_layers_have_a_listing()
    ensures { (layers : List (List ℕ)) → AllByRecursion IsImage layers →
        (entries : List Listed) × IsListing layers entries }
{}

/// Trees of one run of layers have the same entries, cut the same paths and have the same children,
/// with the same entries below them. So every bracketing of a list of layers gives the same result.
pub fn one_tree()
    ensures entries { (first : ℕ) (layers : List (List ℕ)) (s t : TreeRows) →
        IsTreeOf first layers s → IsTreeOf first layers t →
        (path : Path) → entry_at s path ≡ entry_at t path }
    ensures cuts { (first : ℕ) (layers : List (List ℕ)) (s t : TreeRows) →
        IsTreeOf first layers s → IsTreeOf first layers t →
        (path : Path) → cuts_at s path ≡ cuts_at t path }
    ensures children { (first : ℕ) (layers : List (List ℕ)) (s t : TreeRows) →
        IsTreeOf first layers s → IsTreeOf first layers t →
        (path : Path) (cs ds : List (Subtree Entry)) →
        AreChildren s path cs → AreChildren t path ds → (name : List ℕ) (q : Path) →
        at_path (spread cs) (name ∷ q) ≡ at_path (spread ds) (name ∷ q) }
{}

/// The children of a directory are, by their names, the paths one name below it.
pub fn children_are_one_name_below()
    ensures { (t : TreeRows) (path : Path) (children : List (Subtree Entry)) →
        AreChildren t path children →
        (name : List ℕ) → value_of (named name children) ≡ entry_at t (path ++ name ∷ []) }
{}

/// Directories of two layers are merged: the result shows all of the upper layer, and each path of
/// the lower one that the upper one lacks, unless the upper one has a marker's name, an opaque
/// marker, or an entry that is not a directory on the way to it. Nothing else is removed.
pub fn directories_merge()
    ensures upper { (low high : List ℕ) (path : Path) (h : ℕ) →
        IsPlain path → Has high path h → Shows (low ∷ high ∷ []) path 1 h }
    ensures lower { (low high : List ℕ) (path : Path) (h : ℕ) →
        IsPlain path → Has low path h → ¬ IsIn high path → IsUnremoved high path →
        Shows (low ∷ high ∷ []) path 0 h }
{}

/// Children are in directories: a path that is not a directory, or is not shown, has none.
pub fn children_stand_in_directories()
    ensures { (first : ℕ) (layers : List (List ℕ)) → AllByRecursion IsImage layers →
        (t : TreeRows) → IsTreeOf first layers t → (path : Path) (name : List ℕ) (e : Entry) →
        entry_at t (path ++ name ∷ []) ≡ Some e →
        IsSomeAnd (entry_at t path) (λ d. d.kind ≡ Directory) }
{}
