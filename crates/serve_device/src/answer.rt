//! What the system returns from a read or a write.

ghost use Rattle.std.specs.Prelude.{◌≡◌};

use std::io::Result as IoResult;

/// The result of a read or a write.
#[derive(Clone, Copy)]
pub enum Answer {
    /// It read or wrote this many bytes.
    Bytes(usize),
    /// It failed, with this number if the error is the system's.
    Failure(Option<i32>),
}

impl Answer {
    ghost use Rattle.serve_device.specs.Answers.{answer_of};

    // The answer that a read or a write returned.
    pub(crate) fn of(outcome: &IoResult<usize>) -> Answer
        ensures { result ≡ answer_of outcome.now }
    {
        match outcome {
            Ok(n) => Answer::Bytes(*n),
            Err(error) => Answer::Failure(error.raw_os_error()),
        }
    }
}
