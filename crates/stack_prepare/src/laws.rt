//! Why images are refused, and what they show if no attributes are read: what follows from what
//! [`crate::prepare`] promises.

ghost use Rattle.std.specs.Prelude.{◌≡◌, ◌⊎◌, List, ℕ, false};
ghost use Rattle.stack_model.specs.declared.owner.Owner.{Owner};
ghost use Rattle.stack_model.specs.declared.owner.TheConstants.Owner.{ROOT};
ghost use Rattle.romfs_format.specs.declared.rule.Profile.{Profile};
ghost use Rattle.romfs_format.specs.Profiles.{reads_attributes};
ghost use Rattle.stack_model.specs.Listing.{Stacked, stacked};
ghost use Rattle.stack_model.specs.Numbers.{Place};
ghost use Rattle.stack_model.specs.Attributes.{attr_of, has_xattrs};
ghost use Rattle.stack_prepare.specs.declared.refusal.Refusal.{Refusal};
ghost use Rattle.stack_prepare.specs.declared.refusal.Refusal.TheVariants.{Memory};
ghost use Rattle.stack_prepare.specs.Layers.{AreLayers, AreRefused};
ghost use Rattle.stack_prepare.specs.Preparing.{AreStacked};

/// Apart from lack of memory, images are refused for one reason, and good ones for none.
#[tactic(auto, using(crate::proofs::Refusals::one_reason))]
pub fn refusals_are_one()
    ensures once { (profile : Profile) (images : List (List ℕ)) (r s : Refusal) →
        AreRefused profile images r → AreRefused profile images s →
        (r ≡ s) ⊎ ((r ≡ Memory) ⊎ (s ≡ Memory)) }
    ensures good { (profile : Profile) (images layers : List (List ℕ)) (r : Refusal) →
        AreLayers profile images layers → AreRefused profile images r → r ≡ Memory }
{}

/// If a profile reads no attributes, and everything belongs to the superuser, the attributes of
/// each place are those of the layers without any rows, whatever follows the images. No node has an
/// extended attribute then, whatever the owner.
#[tactic(auto, using(crate::proofs::Stacked::unasked, crate::proofs::Stacked::unasked_xattrs))]
pub fn attributes_are_asked_for()
    ensures usual { (profile : Profile) (images : List (List ℕ)) (stack : Stacked) (p : Place) →
        reads_attributes profile ≡ false → AreStacked profile ROOT images stack →
        attr_of stack p ≡ attr_of (stacked stack.layers stack.entries) p }
    ensures extended { (profile : Profile) (owner : Owner) (images : List (List ℕ))
        (stack : Stacked) → reads_attributes profile ≡ false →
        AreStacked profile owner images stack → has_xattrs stack ≡ false }
{}
