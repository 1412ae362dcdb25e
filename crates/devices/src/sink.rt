//! Sinks of bytes.

ghost use Rattle.std.specs.Prelude.{◌≡◌, ◌≤◌, length, IfOk};
ghost use Rattle.std.specs.Io.KnownBytes.{Keeps, WriteAppends};
ghost use Rattle.devices.specs.Counting.{no_pushes, pushed, flushed};
ghost use Rattle.devices.specs.States.{SinkState, sink_state};

use crate::counts::Pushes;
use crate::failed::Failed;
use std::io::Write;

/// A sink takes bytes. A contract sees the bytes that it holds, and its counts.
pub trait Sink {
    ghost state: { Self → SinkState };

    /// Takes the first of the bytes, and returns how many. A push that failed took none. Each
    /// failure is counted.
    fn push(&mut self, bytes: &[u8]) -> Result<usize, Failed>
        ensures bound { IfOk result (λ n. n ≤ length bytes.now) }
        ensures bytes { WriteAppends (state self.old).held (state self.new).held result bytes.now }
        ensures counts { (state self.new).counts
            ≡ pushed (state self.old).counts (length bytes.now) result };

    /// Passes on what was taken. Each flush and each failure is counted.
    fn flush(&mut self) -> Result<(), Failed>
        ensures bytes { Keeps (state self.old).held (state self.new).held }
        ensures counts { (state self.new).counts ≡ flushed (state self.old).counts result };
}

/// A sink over a writer. Any error of a write or flush is a failure, an interrupted one too.
#[derive(Drop)]
pub struct Spout<W> {
    writer: W,
    counts: Pushes,
}

impl<W: Write> Spout<W> {
    /// A sink with the bytes that the writer holds, to which nothing was pushed so far.
    pub fn new(writer: W) -> Spout<W>
        ensures { ⟦<Spout<W> as Sink>⟧.state result ≡ sink_state (W.contents writer) no_pushes }
    {
        Spout {
            writer,
            counts: Pushes::none(),
        }
    }
}

impl<W: Write> Sink for Spout<W> {
    ghost state = { λ spout. sink_state (W.contents spout.writer) spout.counts };

    fn push(&mut self, bytes: &[u8]) -> Result<usize, Failed> {
        self.counts.push(&mut self.writer, bytes)
    }

    fn flush(&mut self) -> Result<(), Failed> {
        self.counts.flush(&mut self.writer)
    }
}
