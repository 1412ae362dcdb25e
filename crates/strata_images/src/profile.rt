//! The rules of a line for its images.

ghost use Rattle.std.specs.Prelude.{◌≡◌};
ghost use Rattle.strata_images.specs.Images.{asks_attributes, profile_of};

use stack_prepare::Profile;
use strata_words::Line;

/// Whether the line asks for attributes, by an option for them alone or as a mount does.
pub fn asks_attributes(line: &Line<'_>) -> bool
    ensures { result ≡ asks_attributes line.now }
{
    line.attributes || line.as_mounted
}

/// The rules of the line for its images, and whether their attributes are read.
pub fn profile_of(line: &Line<'_>) -> Profile
    ensures { result ≡ profile_of line.now }
{
    Profile::with(line.strict, asks_attributes(line))
}
