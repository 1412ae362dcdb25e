//! What holds of the shown paths of sound layers.

ghost use Rattle.std.specs.Prelude.{ℕ, List};
ghost use Rattle.stack_model.specs.Listing.{Entry, IsListing};
ghost use Rattle.node_list.specs.Below.{AreImages, AreTree};

/// The shown paths of sound layers make a tree: each lies in shown directories, and a directory has
/// one path.
#[tactic(auto, using(crate::proofs::Trees::are_tree))]
pub fn shown_paths_make_a_tree()
    ensures { (layers : List (List ℕ)) (entries : List Entry) →
        AreImages layers → IsListing layers entries → AreTree layers entries }
{}
