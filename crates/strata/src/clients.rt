//! Sessions at a Unix socket, one after another.
//!
//! A session is the stream of one client: it begins with a new connection, which is closed at its
//! end. All sessions are served over one table, each as a stream of its own.

ghost use Rattle.std.specs.Prelude.{◌≡◌, ◌<◌, ◌^◌, true};
ghost use Rattle.devices.specs.Counting.{no_accepts};
ghost use Rattle.devices.specs.declared.counts.Accepts.{Accepts};
ghost use Rattle.fuse_answer.specs.Puts.{sourced_by};
ghost use Rattle.reply_model.specs.Readings.{in_memory};
ghost use Rattle.devices.specs.States.{devices};
ghost use Rattle.serve_loop.specs.Serving.{Does};
ghost use Rattle.strata.specs.Ending.{AreNew};
ghost use Rattle.strata.specs.Sessions.{accepting, fault_of, status_at, EndWith, IsSession, ServedSession};

use crate::faults::Fault;
use crate::host::Host;
use devices::{Clients, Contents, Listening, Sink, Source, Spout, Tap};
use node_reader::Table;
use serve_core::{
    Counted, Done, FreePass, MAX_TURNS, Plan, Served, Serving, Session, SharedAllocator,
    StreamFault, Terms,
};
use std::alloc::Allocator;
use std::io::Write;
use std::os::unix::net::{UnixListener, UnixStream};
use std::thread::Threads;

/// Serves `count` sessions over a table of images held in full to the clients of a listener, one
/// after another, and returns the exit status. Each begins in a fresh session, and has at most 2^40
/// pulls.
///
/// If a session stops before its stream's end, its fault is a line of `faults`, with its number,
/// counted from 1, and the next session follows. The status is that of the first such fault, or 0.
/// If no client can be accepted, a line reports it, no more sessions follow, and the status is 1.
/// It waits for a client as long as none connects.
pub fn sessions<R: Threads + Sync, A: Allocator + Copy + Send + Sync, E: Write>(
    rt: &R,
    alloc: A,
    table: &Table<A>,
    listener: &UnixListener,
    count: u32,
    plan: Plan,
    faults: &mut E,
) -> u8
    requires { table.now.whole ≡ true }
    ensures { (after : Accepts)
        × EndWith A Session.Fresh (in_memory table.now) count result (accepting no_accepts after) }
{
    let service = Service {
        host: Host { rt, alloc },
        served: Served::held(table),
        first: Session::Fresh,
        plan,
    };
    let mut clients = Listening::new(listener);
    service.sessions_from(&mut clients, count, faults)
}

/// What the client of each session is served, and how.
#[derive(Drop)]
pub struct Service<'s, R, A: Allocator, D> {
    pub host: Host<'s, R, A>,
    pub served: Served<'s, A, D>,
    /// The session in which each stream begins.
    pub first: Session,
    pub plan: Plan,
}

impl<R: Threads + Sync, A: SharedAllocator, D: Contents + Sync> Service<'_, R, A, D> {
    /// Serves `count` sessions as [`sessions`] does, to any clients, each stream as
    /// [`serve_core::Serving::run`] serves it; no lookups are counted. A session has one client,
    /// and no others are accepted.
    pub fn sessions_from<C: Clients, E: Write>(
        &self,
        clients: &mut C,
        count: u32,
        faults: &mut E,
    ) -> u8
        requires clients { (C.counts clients.old).clients < 2 ^ 63 }
        requires failures { (C.counts clients.old).failures < 2 ^ 63 }
        ensures { EndWith A self.now.first (sourced_by D.source self.now.served) count result
            (accepting (C.counts clients.old) (C.counts clients.new)) }
    {
        let mut status = 0;
        for number in 0..count {
            let Ok(client) = clients.accept() else {
                return Fault::Accept.end(faults);
            };
            let ended = self.serve_session(client, number + 1, faults);
            if status == 0 {
                status = ended;
            }
        }
        status
    }

    // Serves the session with this number to a client, closes the connection, and returns the
    // status.
    fn serve_session<E: Write>(&self, client: UnixStream, session: u32, faults: &mut E) -> u8
        ensures { (s : ServedSession A self.now.first (sourced_by D.source self.now.served))
            × (result ≡ status_at (fault_of session s.result)) }
    {
        let mut source = Tap::new(&client);
        let mut sink = Spout::new(&client);
        let ended = self.serve_client(&mut source, &mut sink);
        end_session(session, &ended, faults)
    }

    // Serves a client until its stream ends or stops, between the two sides of its connection.
    fn serve_client<'c>(
        &self,
        source: &mut Tap<&'c UnixStream>,
        sink: &mut Spout<&'c UnixStream>,
    ) -> Result<Done<A>, StreamFault>
        requires { AreNew (devices (⟦<Tap<&'c UnixStream> as Source>⟧.state source.old)
            (⟦<Spout<&'c UnixStream> as Sink>⟧.state sink.old)) }
        ensures { Does (λ t.
            IsSession self.now.first (sourced_by D.source self.now.served) 0 t result)
            (devices (⟦<Tap<&'c UnixStream> as Source>⟧.state source.old)
            (⟦<Spout<&'c UnixStream> as Sink>⟧.state sink.old))
            (devices (⟦<Tap<&'c UnixStream> as Source>⟧.state source.new)
            (⟦<Spout<&'c UnixStream> as Sink>⟧.state sink.new)) }
    {
        let terms = Terms {
            first: self.first,
            plan: self.plan,
            turns: MAX_TURNS,
            // no line names a file of balances for a session
            counted: Counted::NoNodes,
            gate: &FreePass,
        };
        let serving = Serving {
            served: self.served,
            terms,
        };
        serving.run(self.host.rt, self.host.alloc, source, sink)
    }
}

// Prints why the session with this number stopped, if it did, and returns its status.
fn end_session<A: Allocator, E: Write>(
    session: u32,
    ended: &Result<Done<A>, StreamFault>,
    faults: &mut E,
) -> u8
    ensures { result ≡ status_at (fault_of session ended.now) }
{
    match ended {
        Ok(_) => 0,
        Err(stop) => {
            let stop = *stop;
            Fault::InSession { session, stop }.end(faults)
        }
    }
}
