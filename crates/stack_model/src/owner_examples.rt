//! The owner of a node that its image gives no owner.

ghost use Rattle.std.specs.Prelude.{◌≡◌};
ghost use Rattle.stack_model.specs.declared.owner.TheConstants.Owner.{ROOT};

/// The superuser is user 0, and its group is group 0.
pub fn superuser_example()
    ensures user { ROOT.uid ≡ 0 }
    ensures group { ROOT.gid ≡ 0 }
{}
