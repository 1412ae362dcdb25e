//! What the errors of the device mean. The numbers are Linux's.

ghost use Rattle.std.specs.Prelude.{◌≡◌};
ghost use Rattle.std.specs.IoError.{raw_os_error};
ghost use Rattle.serve_device.specs.Answers.{answer_of, asks_again};
ghost use Rattle.serve_device.specs.Troubles.{gone_after, read_trouble, write_trouble};

use std::io::{Error, Result as IoResult};

/// Why a read or a write failed.
#[derive(Clone, Copy)]
pub(crate) enum Trouble {
    /// It was interrupted, and may be tried again.
    Again,
    /// No request waits for this reply.
    Unwanted,
    /// The kernel has ended the connection.
    Gone,
    /// Any other fault.
    Fault,
}

// What an error of a read means: ENOENT (2, the request was aborted while it was read), EINTR (4),
// EAGAIN (11) and ECONNABORTED (103, the connection ended meanwhile) are tried again, and ENODEV
// (19) means an unmount.
pub(crate) fn trouble_of_read(error: &Error) -> Trouble
    ensures { result ≡ read_trouble (raw_os_error error.now) }
{
    match error.raw_os_error() {
        Some(2 | 4 | 11 | 103) => Trouble::Again,
        Some(19) => Trouble::Gone,
        _ => Trouble::Fault,
    }
}

// Whether a read was interrupted and must be tried again.
pub(crate) fn asks_again(outcome: &IoResult<usize>) -> bool
    ensures { result ≡ asks_again (answer_of outcome.now) }
{
    match outcome {
        Ok(_) => false,
        Err(error) => matches!(trouble_of_read(error), Trouble::Again),
    }
}

// What an error of a write means: with ENOENT (2) no request waits for this reply any more, for
// instance because it was interrupted, and ENODEV (19) means an unmount.
pub(crate) fn trouble_of_write(error: &Error) -> Trouble
    ensures { result ≡ write_trouble (raw_os_error error.now) }
{
    match error.raw_os_error() {
        Some(2) => Trouble::Unwanted,
        Some(19) => Trouble::Gone,
        _ => Trouble::Fault,
    }
}

// Notes the result of a call: a device that is gone stays so.
pub(crate) fn note_gone(gone: &mut bool, outcome: &Result<usize, Trouble>)
    ensures { gone.new ≡ gone_after gone.old outcome.now }
{
    if let Err(Trouble::Gone) = outcome {
        *gone = true;
    }
}
