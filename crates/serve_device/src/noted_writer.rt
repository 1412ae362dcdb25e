//! A writer, the length of its last write and the result.

ghost use Rattle.std.specs.Prelude.{◌≡◌, ◌≤◌, length, IfOk, None};
ghost use Rattle.std.specs.Io.KnownBytes.{Keeps};
ghost use Rattle.devices.specs.Counting.{flushed};
ghost use Rattle.serve_device.specs.Answers.{answer_of};

use crate::answer::Answer;
use devices::{Failed, Pushes};
use std::io::{Result as IoResult, Write};

/// A writer, the number of its writes, which stays at 2^64 - 1, how many bytes the last one was
/// given, and its result.
#[derive(Drop)]
pub struct NotedWriter<W> {
    writer: W,
    writes: u64,
    offered: usize,
    last: Option<Answer>,
}

impl<W: Write> NotedWriter<W> {
    ghost use Rattle.serve_device.specs.Writes.{HasWritten, inner_writer, noted_writer, writer_state};

    /// A writer without writes so far.
    pub fn new(writer: W) -> NotedWriter<W>
        ensures state { noted_writer W.contents result
            ≡ writer_state (W.contents writer) 0 0 None }
        ensures over { inner_writer result ≡ writer }
    {
        NotedWriter {
            writer,
            writes: 0,
            offered: 0,
            last: None,
        }
    }

    /// Writes once, and notes the length and the result.
    pub fn write(&mut self, bytes: &[u8]) -> IoResult<usize>
        ensures bound { IfOk result (λ n. n ≤ length bytes.now) }
        ensures wrote { HasWritten bytes.now (answer_of result)
            (noted_writer W.contents self.old) (noted_writer W.contents self.new) }
    {
        let outcome = self.writer.write(bytes);
        self.writes = self.writes.saturating_add(1);
        self.offered = bytes.len();
        self.last = Some(Answer::of(&outcome));
        outcome
    }

    /// Flushes the writer, and counts that. It writes nothing.
    pub fn flush(&mut self, counts: &mut Pushes) -> Result<(), Failed>
        ensures bytes { Keeps (noted_writer W.contents self.old).held
            (noted_writer W.contents self.new).held }
        ensures writes { (noted_writer W.contents self.new).writes
            ≡ (noted_writer W.contents self.old).writes }
        ensures offered { (noted_writer W.contents self.new).offered
            ≡ (noted_writer W.contents self.old).offered }
        ensures last { (noted_writer W.contents self.new).last
            ≡ (noted_writer W.contents self.old).last }
        ensures counts { counts.new ≡ flushed counts.old result }
    {
        counts.flush(&mut self.writer)
    }
}
