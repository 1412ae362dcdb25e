//! Why serving a stream stopped.

ghost use Rattle.std.specs.Prelude.{◌≡◌};
ghost use Rattle.serve_loop.specs.declared.stream_fault.StreamFault.TheVariants.{Memory};

use std::alloc::AllocError;

/// Why a stream was not served to its end.
#[derive(Clone, Copy, Debug, PartialEq, Eq)]
pub enum StreamFault {
    /// The message that begins at this place of the stream states a length that no message can
    /// have.
    BadLength { at: u64, len: u32 },
    /// The stream ends inside the message that begins at this place.
    CutOff { at: u64 },
    /// A pull of the source failed.
    Read,
    /// A push to the sink or a flush failed, or a push of some bytes took none.
    Write,
    /// As many pulls as were allowed were made, and none met the end.
    Turns,
    /// Memory was refused.
    Memory,
}

impl From<AllocError> for StreamFault {
    ghost from_gives = { λ _ fault. fault ≡ Memory };

    fn from(_error: AllocError) -> StreamFault {
        StreamFault::Memory
    }
}
