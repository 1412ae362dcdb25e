//! The counts that devices keep. A count that reaches 2^64 - 1 stays there.

ghost use Rattle.std.specs.Prelude.{◌≡◌, ◌≤◌, length, IfOk};
ghost use Rattle.std.specs.Io.KnownBytes.{Keeps, WriteAppends};
ghost use Rattle.devices.specs.Counting.{no_pulls, no_pushes, no_accepts, pulled, pushed, flushed, accepted};

use crate::failed::Failed;
use std::io::Write;

/// The outcome of a pull.
#[derive(Clone, Copy)]
pub enum LastPull {
    /// It gave this many bytes, at least one.
    Bytes(u64),
    /// It met the end of the stream.
    End,
    /// It failed.
    Failure,
}

/// The counts of a source.
#[derive(Clone, Copy)]
pub struct Pulls {
    /// How often it was pulled.
    pub pulls: u64,
    /// How often a pull met the end.
    pub ends: u64,
    /// How often a pull failed.
    pub failures: u64,
    /// The outcome of the last pull; `None` before the first.
    pub last: Option<LastPull>,
}

/// The counts of a sink.
#[derive(Clone, Copy)]
pub struct Pushes {
    /// How often it was flushed.
    pub flushes: u64,
    /// How often a push or a flush failed. A push that takes none of some bytes is a failure too.
    pub failures: u64,
    /// How many bytes it took since its last flush that succeeded, or since it was made.
    pub unflushed: u64,
}

/// The counts of accepts.
#[derive(Clone, Copy)]
pub struct Accepts {
    /// How many clients it gave.
    pub clients: u64,
    /// How often no client could be accepted.
    pub failures: u64,
}

impl Pulls {
    /// The counts of a source that was never pulled.
    pub fn none() -> Pulls
        ensures { result ≡ no_pulls }
    {
        Pulls {
            pulls: 0,
            ends: 0,
            failures: 0,
            last: None,
        }
    }

    /// Counts a pull into a room that is not empty, by the number of bytes that it gave.
    pub fn note(&mut self, got: &Result<usize, Failed>)
        ensures { self.new ≡ pulled self.old got.now }
    {
        self.pulls = self.pulls.saturating_add(1);
        match got {
            Ok(0) => {
                self.ends = self.ends.saturating_add(1);
                self.last = Some(LastPull::End);
            }
            Ok(n) => self.last = Some(LastPull::Bytes(*n as u64)),
            Err(_) => {
                self.failures = self.failures.saturating_add(1);
                self.last = Some(LastPull::Failure);
            }
        }
    }
}

impl Pushes {
    /// The counts of a sink to which nothing was pushed.
    pub fn none() -> Pushes
        ensures { result ≡ no_pushes }
    {
        Pushes {
            flushes: 0,
            failures: 0,
            unflushed: 0,
        }
    }

    /// Counts a push of `size` bytes, by the number of bytes that were taken.
    pub fn note_push(&mut self, size: usize, taken: &Result<usize, Failed>)
        ensures { self.new ≡ pushed self.old size taken.now }
    {
        match taken {
            Ok(n) => {
                if *n == 0 && size != 0 {
                    self.failures = self.failures.saturating_add(1);
                }
                self.unflushed = self.unflushed.saturating_add(*n as u64);
            }
            Err(_) => self.failures = self.failures.saturating_add(1),
        }
    }

    /// Writes bytes, once, and counts it as a push. Any error is a failure, an interrupted one too.
    pub(crate) fn push<W: Write>(&mut self, writer: &mut W, bytes: &[u8]) -> Result<usize, Failed>
        ensures bound { IfOk result (λ n. n ≤ length bytes.now) }
        ensures bytes { WriteAppends (W.contents writer.old) (W.contents writer.new)
            result bytes.now }
        ensures counts { self.new ≡ pushed self.old (length bytes.now) result }
    {
        let taken = match writer.write(bytes) {
            Ok(n) => Ok(n),
            Err(_) => Err(Failed),
        };
        self.note_push(bytes.len(), &taken);
        taken
    }

    /// Flushes a writer, and counts it. Any error is a failure, an interrupted one too.
    pub fn flush<W: Write>(&mut self, writer: &mut W) -> Result<(), Failed>
        ensures bytes { Keeps (W.contents writer.old) (W.contents writer.new) }
        ensures counts { self.new ≡ flushed self.old result }
    {
        let done = match writer.flush() {
            Ok(_) => Ok(()),
            Err(_) => Err(Failed),
        };
        self.note_flush(&done);
        done
    }

    // Counts a flush.
    fn note_flush(&mut self, done: &Result<(), Failed>)
        ensures { self.new ≡ flushed self.old done.now }
    {
        self.flushes = self.flushes.saturating_add(1);
        match done {
            Ok(_) => self.unflushed = 0,
            Err(_) => self.failures = self.failures.saturating_add(1),
        }
    }
}

impl Accepts {
    /// The counts before the first accept.
    pub fn none() -> Accepts
        ensures { result ≡ no_accepts }
    {
        Accepts {
            clients: 0,
            failures: 0,
        }
    }

    /// Counts a client, or that none could be accepted.
    pub fn note<T>(&mut self, client: &Result<T, Failed>)
        ensures { self.new ≡ accepted self.old client.now }
    {
        match client {
            Ok(_) => self.clients = self.clients.saturating_add(1),
            Err(_) => self.failures = self.failures.saturating_add(1),
        }
    }
}
