//! Streams over a table.

ghost use Rattle.std.specs.Prelude.{◌≡◌, true, IfOk};
ghost use Rattle.std.specs.Thread.{IsSync};
ghost use denote.Param.Send.{IsSend, Frees};
ghost use Rattle.devices.specs.States.{devices};
ghost use Rattle.fuse_answer.specs.Puts.{sourced_by};
ghost use Rattle.reply_pool.specs.Spread.{IsSpreadable, SpreadsFrom};
ghost use Rattle.serve_loop.specs.Serving.{AreReady};
ghost use Rattle.serve_core.specs.Headline.{RunsBetween, RunsWithin, bounds_of};
ghost use Rattle.serve_core.specs.Openings.{RunsUntil};

use crate::stop::Stop;
use crate::terms::{Counted, Terms, nodes_counted};
use devices::{Contents, Sink, Source};
use draw_board::Gate;
use reply_model::Session;
use reply_pool::{Pool, RoundPieces, Served, spread_out};
use serve_loop::{Done, Opening, StreamFault, Until};
use stack_prepare::{SharedAllocator, Table};
use std::alloc::{AllocError, Allocator};
use std::thread::Threads;

/// Serves the source's stream of requests over a table of images held in full into the sink, in at
/// most as many pulls as its terms allow, of at most 65,536 bytes each. The bytes written are the
/// replies to the stream, for every plan and every cutting into pulls. Lookups of all nodes are
/// counted.
///
/// - `Ok`: the stream came to its end between two messages: nothing is left of it, and all replies
///   are written and flushed.
/// - `BadLength`, `CutOff`, `Read` and `Turns`: all replies to the complete messages that arrived
///   are written and flushed.
/// - `Write` and `Memory`: some of the first replies are written.
///
/// `Read` and `Write` exactly if the source's or the sink's count of failures rose in this call.
/// Faults of images do not occur. No pull follows an end, a bad length or a failure, and no device
/// is called after memory was refused. With no turns it returns `Turns` at once.
pub fn run<R: Threads + Sync, A: SharedAllocator, S: Source, K: Sink, G: Gate + Sync>(
    rt: &R,
    alloc: A,
    table: &Table<A>,
    source: &mut S,
    sink: &mut K,
    terms: &Terms<'_, G>,
) -> Result<Done<A>, Stop>
    requires devices { AreReady terms.now.turns
        (devices (S.state source.old) (K.state sink.old)) }
    requires whole { table.now.whole ≡ true }
    requires counted { terms.now.counted ≡ Counted.AllNodes }
    ensures { RunsBetween terms.now.first table.now terms.now.turns result
        (devices (S.state source.old) (K.state sink.old))
        (devices (S.state source.new) (K.state sink.new)) }
{
    let serving = Serving {
        served: Served::held(table),
        terms: *terms,
    };
    Ok(serving.run(rt, alloc, source, sink)?)
}

/// What streams are served over, a table and the files of its layers, and on which terms.
#[derive(Drop)]
pub struct Serving<'s, 't, A: Allocator, D, G> {
    pub served: Served<'s, A, D>,
    pub terms: Terms<'t, G>,
}

impl<'s, 't, A: SharedAllocator, D: Contents + Sync, G: Gate + Sync> Serving<'s, 't, A, D, G> {
    /// The same as [`run`] over this table and its files, with lookups counted as the terms say.
    /// Data in a file are read on demand: a READ gets what the file returned then, or EIO if a read
    /// failed or the file ended earlier.
    pub fn run<R: Threads + Sync, S: Source, K: Sink>(
        &self,
        rt: &R,
        alloc: A,
        source: &mut S,
        sink: &mut K,
    ) -> Result<Done<A>, StreamFault>
        requires { AreReady self.now.terms.turns
            (devices (S.state source.old) (K.state sink.old)) }
        ensures { RunsWithin self.now.terms.first (sourced_by D.source self.now.served)
            (bounds_of D.source self.now) result
            (devices (S.state source.old) (K.state sink.old))
            (devices (S.state source.new) (K.state sink.new)) }
    {
        match self.run_until(rt, alloc, source, sink, Until::End) {
            Ok(Opening::Ended(done)) => Ok(done),
            // a stream that is served to its end is not left when its session begins
            Ok(Opening::Begun(_)) => unreachable!(),
            Err(fault) => Err(fault),
        }
    }

    /// The same to the stream's end, or only until its session has begun and no part of a message
    /// is left; [`serve_loop::run_until`] says what the result is then.
    pub fn run_until<R: Threads + Sync, S: Source, K: Sink>(
        &self,
        rt: &R,
        alloc: A,
        source: &mut S,
        sink: &mut K,
        until: Until,
    ) -> Result<Opening<A>, StreamFault>
        requires { AreReady self.now.terms.turns
            (devices (S.state source.old) (K.state sink.old)) }
        ensures { RunsUntil until self.now.terms.first (sourced_by D.source self.now.served)
            (bounds_of D.source self.now) result
            (devices (S.state source.old) (K.state sink.old))
            (devices (S.state source.new) (K.state sink.new)) }
    {
        let (served, terms) = (self.served, self.terms);
        let (plan, gate) = (terms.plan, terms.gate);
        let workers = move |stream: &[u8], session: Session, messages: usize| -> Result<
            RoundPieces<A>,
            AllocError,
        >
            requires { IsSpreadable stream.now messages × IsSync R.row × IsSync G.row
                × IsSync D.row × IsSync A.row × IsSend A.row
                × Frees A.Allocator A.dealloc_token }
            ensures { IfOk result (λ spread.
                SpreadsFrom (sourced_by D.source served.entry) session stream.now spread) }
        { spread_out(rt, alloc, served, stream, session, messages, plan, gate) };
        let counted = nodes_counted(terms.counted, served.table);
        let pool = Pool::new(served, terms.first, plan, gate, workers, counted);
        serve_loop::run_until(alloc, &pool, source, sink, terms.turns, until)
    }
}
