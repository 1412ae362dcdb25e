//! Why an image is not gathered.

ghost use Rattle.std.specs.Prelude.{◌≡◌};
ghost use Rattle.romfs_kept.specs.declared.fault.GatherFault.TheVariants.{Memory};

use std::alloc::AllocError;

/// Why nothing was kept of an image.
#[derive(Clone, Copy, Debug, PartialEq, Eq)]
pub enum GatherFault {
    /// A read failed, or the bytes ended before the reported size.
    Unread,
    /// The trailer ends at 2^32 or beyond: the places that can be kept are numbers of 32 bits.
    Far,
    /// Memory was refused.
    Memory,
}

impl From<AllocError> for GatherFault {
    ghost from_gives = { λ _ fault. fault ≡ Memory };

    fn from(_error: AllocError) -> GatherFault {
        GatherFault::Memory
    }
}
