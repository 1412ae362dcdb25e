//! Why serving stopped.

ghost use Rattle.std.specs.Prelude.{◌≡◌};
ghost use Rattle.serve_core.specs.Stops.{stop_of_fault, stop_of_refusal};

use romfs_format::ImageFault;
use serve_loop::StreamFault;
use stack_prepare::Refusal;

/// Why a stream was not served to its end: its images were refused, or it stopped.
#[derive(Clone, Copy, Debug, PartialEq, Eq)]
pub enum Stop {
    /// The image of this layer, counted from 0, breaks a rule, and is the lowest that does.
    Layer { layer: u16, fault: ImageFault },
    /// There are this many images: none, or more than 128.
    Layers { count: u64 },
    /// The message that begins at this place of the stream states a length that no message can
    /// have.
    BadLength { at: u64, len: u32 },
    /// The stream ends inside the message that begins at this place.
    CutOff { at: u64 },
    /// A pull of the source failed.
    Read,
    /// A push to the sink or a flush failed, or a push of some bytes took none.
    Write,
    /// As many pulls as were allowed were made, and none met the end.
    Turns,
    /// Memory was refused.
    Memory,
}

impl From<Refusal> for Stop {
    ghost from_gives = { λ refusal stop. stop ≡ stop_of_refusal refusal };

    fn from(refusal: Refusal) -> Stop {
        match refusal {
            Refusal::Layer { layer, fault } => Stop::Layer { layer, fault },
            Refusal::Layers { count } => Stop::Layers { count },
            Refusal::Memory => Stop::Memory,
        }
    }
}

impl From<StreamFault> for Stop {
    ghost from_gives = { λ fault stop. stop ≡ stop_of_fault fault };

    fn from(fault: StreamFault) -> Stop {
        match fault {
            StreamFault::BadLength { at, len } => Stop::BadLength { at, len },
            StreamFault::CutOff { at } => Stop::CutOff { at },
            StreamFault::Read => Stop::Read,
            StreamFault::Write => Stop::Write,
            StreamFault::Turns => Stop::Turns,
            StreamFault::Memory => Stop::Memory,
        }
    }
}
