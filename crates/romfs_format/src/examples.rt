//! Worked examples, by computation.

ghost use Rattle.romfs_format.specs.Examples.{AclNumberExamples, LimitExamples};
ghost use Rattle.romfs_format.specs.TrailerExamples.{BrokenTrailerExamples, NoTrailerExamples};
ghost use Rattle.romfs_format.specs.TrailerExamples.{ProfileExamples, TrailerExamples};
ghost use Rattle.romfs_format.specs.ExtendedExamples.{AclExamples, BrokenAclExamples, CapabilityExamples};
ghost use Rattle.romfs_format.specs.ExtendedExamples.{ListExamples, XattrNameExamples};
ghost use Rattle.romfs_format.specs.PartExamples.{BrokenPartExamples, PartExamples};
ghost use Rattle.romfs_format.specs.PartExamples.{RightPartExamples};

/// The numbers of the limits.
#[tactic(auto, using(crate::proofs::Worked::limits))]
pub fn limits_example()
    ensures { LimitExamples }
{}

/// The numbers of access control lists.
#[tactic(auto, using(crate::proofs::Worked::acl_numbers))]
pub fn acl_numbers_example()
    ensures { AclNumberExamples }
{}

/// The start of an attribute trailer, and what is none.
#[tactic(auto, using(crate::proofs::WorkedTrailers::absent))]
pub fn no_trailer_example()
    ensures { NoTrailerExamples }
{}

/// Trailers that keep their rule, and what they say.
#[tactic(auto, using(crate::proofs::WorkedTrailers::whole))]
pub fn trailer_example()
    ensures { TrailerExamples }
{}

/// Trailers that break their rule, each for one thing alone.
#[tactic(auto, using(crate::proofs::WorkedTrailers::broken))]
pub fn broken_trailer_example()
    ensures { BrokenTrailerExamples }
{}

/// What each profile requires, and what it shows of a trailer.
#[tactic(auto, using(crate::proofs::WorkedTrailers::profiles))]
pub fn profile_example()
    ensures { ProfileExamples }
{}

/// Values that are access control lists, and what mode they agree with.
#[tactic(auto, using(crate::proofs::WorkedExtended::acls))]
pub fn acl_example()
    ensures { AclExamples }
{}

/// Values that are none.
#[tactic(auto, using(crate::proofs::WorkedExtended::no_acls))]
pub fn broken_acl_example()
    ensures { BrokenAclExamples }
{}

/// Which values are capabilities.
#[tactic(auto, using(crate::proofs::WorkedExtended::capabilities))]
pub fn capability_example()
    ensures { CapabilityExamples }
{}

/// Which names of extended attributes a file may have.
#[tactic(auto, using(crate::proofs::WorkedExtended::names))]
pub fn xattr_name_example()
    ensures { XattrNameExamples }
{}

/// Which lists of extended attributes a file may have, and what is found in them.
#[tactic(auto, using(crate::proofs::WorkedExtended::lists))]
pub fn list_example()
    ensures { ListExamples }
{}

/// What is the second part of a trailer, and what its lists say.
#[tactic(auto, using(crate::proofs::WorkedExtended::parts))]
pub fn part_example()
    ensures { PartExamples }
{}

/// Trailers with a second part that keep their rule.
#[tactic(auto, using(crate::proofs::WorkedExtended::right))]
pub fn right_part_example()
    ensures { RightPartExamples }
{}

/// Trailers whose second part breaks its rule, each for one thing alone.
#[tactic(auto, using(crate::proofs::WorkedExtended::broken))]
pub fn broken_part_example()
    ensures { BrokenPartExamples }
{}
