//! Why images are refused.

ghost use Rattle.std.specs.Prelude.{◌≡◌};
ghost use Rattle.stack_prepare.specs.declared.refusal.Refusal.TheVariants.{Memory};

use romfs_format::ImageFault;
use std::alloc::{AllocError, AllocFailed};

/// Why no table was made from images.
#[derive(Clone, Copy, Debug, PartialEq, Eq)]
pub enum Refusal {
    /// The image of this layer, counted from 0, breaks a rule, and is the lowest that does.
    Layer { layer: u16, fault: ImageFault },
    /// There are this many images: none, or more than 128.
    Layers { count: u64 },
    /// Memory was refused.
    Memory,
}

impl From<AllocError> for Refusal {
    ghost from_gives = { λ _ refusal. refusal ≡ Memory };

    fn from(_error: AllocError) -> Refusal {
        Refusal::Memory
    }
}

impl<T: Drop> From<AllocFailed<T>> for Refusal {
    ghost from_gives = { λ _ refusal. refusal ≡ Memory };

    fn from(_error: AllocFailed<T>) -> Refusal {
        Refusal::Memory
    }
}
