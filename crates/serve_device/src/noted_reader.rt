//! A reader, and the result of its last read.

ghost use Rattle.std.specs.Prelude.{◌≡◌, ◌≤◌, length, IfOk, None};

use crate::answer::Answer;
use crate::trouble::asks_again;
use std::io::{Read, Result as IoResult};

/// A reader, the number of its reads, the number of those that were not interrupted, and the result
/// of the last one. Both numbers stay at 2^64 - 1.
#[derive(Drop)]
pub struct NotedReader<R> {
    reader: R,
    reads: u64,
    settled: u64,
    last: Option<Answer>,
}

impl<R: Read> NotedReader<R> {
    ghost use Rattle.serve_device.specs.Reads.{HasRead, inner_reader, noted_reader, reader_state};

    /// A reader without reads so far.
    pub fn new(reader: R) -> NotedReader<R>
        ensures state { noted_reader R.remaining result
            ≡ reader_state (R.remaining reader) 0 0 None }
        ensures over { inner_reader result ≡ reader }
    {
        NotedReader {
            reader,
            reads: 0,
            settled: 0,
            last: None,
        }
    }

    /// Reads once, and notes the result.
    pub fn read(&mut self, into: &mut [u8]) -> IoResult<usize>
        ensures bound { IfOk result (λ n. n ≤ length into.new) }
        ensures read { HasRead into.new result
            (noted_reader R.remaining self.old) (noted_reader R.remaining self.new) }
    {
        let outcome = self.reader.read(into);
        self.reads = self.reads.saturating_add(1);
        if !asks_again(&outcome) {
            self.settled = self.settled.saturating_add(1);
        }
        self.last = Some(Answer::of(&outcome));
        outcome
    }
}
