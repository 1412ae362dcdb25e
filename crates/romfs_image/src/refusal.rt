//! Why bytes are refused as an image.

ghost use Rattle.std.specs.Prelude.{◌≡◌};
ghost use Rattle.romfs_image.specs.declared.refusal.CheckFault.TheVariants.{Memory};

use romfs_format::ImageFault;
use std::alloc::AllocError;
use std::error::Error;
use std::fmt;

/// Why bytes are refused as an image.
#[derive(Clone, Copy, Debug, PartialEq, Eq)]
pub enum CheckFault {
    /// They break a rule.
    Broken(ImageFault),
    /// No memory is left.
    Memory,
}

impl fmt::Display for CheckFault {
    ghost use Rattle.std.specs.Prelude.{Some};
    ghost use Rattle.romfs_image.specs.Texts.{refusal_text};

    ghost output = { λ fault. Some (refusal_text fault) };

    fn fmt<W: fmt::Write>(&self, f: &mut fmt::Formatter<W>) -> fmt::Result {
        match self {
            CheckFault::Broken(fault) => fault.rule.fmt(f),
            CheckFault::Memory => write!(f, "out of memory"),
        }
    }
}

impl Error for CheckFault {}

impl From<AllocError> for CheckFault {
    ghost from_gives = { λ _ fault. fault ≡ Memory };

    fn from(_error: AllocError) -> CheckFault {
        CheckFault::Memory
    }
}
