//! Sources of clients.

ghost use Rattle.std.specs.Prelude.{◌≡◌};
ghost use Rattle.devices.specs.Counting.{no_accepts, accepted};

use crate::counts::Accepts;
use crate::failed::Failed;
use std::os::unix::net::{UnixListener, UnixStream};

/// A source of clients. A contract sees how many it gave, and how often none could be accepted.
pub trait Clients {
    ghost use Rattle.devices.specs.declared.counts.Accepts.{Accepts};

    ghost counts: { Self → Accepts };

    /// Waits for the next client. Each one, and each failure, is counted.
    fn accept(&mut self) -> Result<UnixStream, Failed>
        ensures { counts self.new ≡ accepted (counts self.old) result };
}

/// The clients of a listener. Any error of an accept is a failure.
#[derive(Drop)]
pub struct Listening<'a> {
    listener: &'a UnixListener,
    counts: Accepts,
}

impl<'a> Listening<'a> {
    /// The clients of this listener, none given so far.
    pub fn new(listener: &'a UnixListener) -> Listening<'a>
        ensures { ⟦<Listening<'a> as Clients>⟧.counts result ≡ no_accepts }
    {
        Listening {
            listener,
            counts: Accepts::none(),
        }
    }
}

impl Clients for Listening<'_> {
    ghost counts = { λ listening. listening.counts };

    fn accept(&mut self) -> Result<UnixStream, Failed> {
        let client = match self.listener.accept() {
            Ok((client, _)) => Ok(client),
            Err(_) => Err(Failed),
        };
        self.counts.note(&client);
        client
    }
}
