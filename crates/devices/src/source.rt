//! Sources of bytes.

ghost use Rattle.std.specs.Prelude.{◌≡◌, ◌<◌, ◌≤◌, length, IfOk};
ghost use Rattle.std.specs.Io.KnownBytes.{ReadConsumes};
ghost use Rattle.devices.specs.Counting.{no_pulls, pulled};
ghost use Rattle.devices.specs.States.{SourceState, source_state};

use crate::counts::Pulls;
use crate::failed::Failed;
use std::io::Read;

/// A source gives bytes. A contract sees the bytes that it has left, and its counts.
pub trait Source {
    ghost state: { Self → SourceState };

    /// Puts the next bytes at the front of the room, which is not empty, and returns how many: 0
    /// only at the end of the stream. A pull that failed gave nothing. Each pull is counted.
    fn pull(&mut self, into: &mut [u8]) -> Result<usize, Failed>
        requires { 0 < length into.old }
        ensures bound { IfOk result (λ n. n ≤ length into.new) }
        ensures bytes { ReadConsumes (state self.old).left (state self.new).left result into.new }
        ensures counts { (state self.new).counts ≡ pulled (state self.old).counts result };
}

/// A source over a reader. Any error of a read is a failure, an interrupted one too.
#[derive(Drop)]
pub struct Tap<R> {
    reader: R,
    counts: Pulls,
}

impl<R: Read> Tap<R> {
    /// A source of the bytes that the reader has left, never pulled so far.
    pub fn new(reader: R) -> Tap<R>
        ensures { ⟦<Tap<R> as Source>⟧.state result ≡ source_state (R.remaining reader) no_pulls }
    {
        Tap {
            reader,
            counts: Pulls::none(),
        }
    }
}

impl<R: Read> Source for Tap<R> {
    ghost state = { λ tap. source_state (R.remaining tap.reader) tap.counts };

    fn pull(&mut self, into: &mut [u8]) -> Result<usize, Failed> {
        let got = match self.reader.read(into) {
            Ok(n) => Ok(n),
            Err(_) => Err(Failed),
        };
        self.counts.note(&got);
        got
    }
}
