//! The command `serve`.

ghost use Rattle.std.specs.Prelude.{◌≡◌, ℕ, List, is_some, IfOk, OnOk, IfErr};
ghost use Rattle.devices.specs.States.{Devices, devices};
ghost use Rattle.strata_words.specs.CommandLine.{IsInLimits};
ghost use Rattle.fuse_answer.specs.Puts.{sourced_by};
ghost use Rattle.romfs_files.specs.Data.{source_of};
ghost use Rattle.serve_loop.specs.Serving.{Trace};
ghost use Rattle.strata.specs.Ending.{AreNamed, AreNew, IsFileFault, IsServing, IsServedWhole, IsNotServed};
ghost use Rattle.strata_images.specs.Images.{ArePrepared, HaveSources, are_whole, bytes_of, sources_of};

use crate::balances::tell_balances;
use crate::faults::Fault;
use crate::files::{create_named, open_requests};
use crate::settings::{counted_of, first_of, plan_of};
use devices::{Sink, Source, Spout, Tap};
use romfs_files::ImageData;
use serve_core::{Done, FreePass, MAX_TURNS, Served, Serving, SharedAllocator, StreamFault, Terms};
use std::fs::Files;
use std::os::unix::fs::FileExt;
use std::thread::Threads;
use strata_images::{LineImages, prepare};
use strata_words::Line;

/// Checks the images, stacks them, and answers the requests from a file, or otherwise the input,
/// over the stack, to a file, or otherwise the output, as they arrive. If an image is broken
/// neither the input nor the output is touched. At the end of the stream it writes the balances, if
/// a file is named for them.
pub fn serve<R: Files + Threads + Sync, A: SharedAllocator, S: Source, K: Sink>(
    rt: &R,
    alloc: A,
    line: &Line<'_>,
    images: LineImages<R::File, A>,
    input: &mut S,
    output: &mut K,
) -> Result<(), Fault>
where
    R::File: FileExt + Sync,
    requires limits { IsInLimits line.now }
    requires new { AreNew (devices (S.state input.old) (K.state output.old)) }
    requires images { HaveSources line.now (are_whole images.held) (bytes_of images.held)
        (sources_of images.files) }
    ensures done { OnOk result (IsServedWhole A line.now (bytes_of images.held)
        (devices (S.state input.old) (K.state output.old))
        (devices (S.state input.new) (K.state output.new))) }
    ensures stopped { IfErr result (λ fault. IsNotServed A line.now (bytes_of images.held) fault
        (devices (S.state input.old) (K.state output.old))
        (devices (S.state input.new) (K.state output.new))) }
{
    let streams = open_streams(rt, line)?;
    let (table, files) = prepare(rt, alloc, line, images)?;
    let served = Served {
        table: &table,
        files: files.as_slice(),
    };
    serve_streams(rt, alloc, line, served, streams, input, output)
}

/// The files of a stream that a line names.
#[derive(Drop)]
struct Streams<F> {
    requests: Option<F>,
    replies: Option<F>,
    balances: Option<F>,
}

fn open_streams<R: Files>(rt: &R, line: &Line<'_>) -> Result<Streams<R::File>, Fault>
    ensures named { IfOk result (λ streams. AreNamed line.now
        streams.requests streams.replies streams.balances) }
    ensures err { (old : Devices) → IfErr result (λ fault. IsFileFault line.now fault old old) }
{
    let requests = open_requests(rt, line.requests)?;
    let replies = create_named(rt, line.replies, Fault::RepliesFile)?;
    let balances = create_named(rt, line.balances, Fault::BalancesFile)?;
    Ok(Streams {
        requests,
        replies,
        balances,
    })
}

// Answers the requests of a stream, and writes the balances at its end.
fn serve_streams<R: Files + Threads + Sync, A: SharedAllocator, S: Source, K: Sink>(
    rt: &R,
    alloc: A,
    line: &Line<'_>,
    served: Served<'_, A, ImageData<R::File, A>>,
    streams: Streams<R::File>,
    input: &mut S,
    output: &mut K,
) -> Result<(), Fault>
where
    R::File: FileExt + Sync,
    requires limits { IsInLimits line.now }
    requires named { AreNamed line.now streams.requests streams.replies streams.balances }
    requires new { AreNew (devices (S.state input.old) (K.state output.old)) }
    ensures done { (images : List (List ℕ)) →
        ArePrepared line.now images (sourced_by source_of served.entry) →
        OnOk result (IsServedWhole A line.now images
        (devices (S.state input.old) (K.state output.old))
        (devices (S.state input.new) (K.state output.new))) }
    ensures stopped { (images : List (List ℕ)) →
        ArePrepared line.now images (sourced_by source_of served.entry) →
        IfErr result (λ fault. IsNotServed A line.now images fault
        (devices (S.state input.old) (K.state output.old))
        (devices (S.state input.new) (K.state output.new))) }
{
    let Streams {
        requests,
        replies,
        balances,
    } = streams;
    let done = serve_stream(rt, alloc, line, served, requests, replies, input, output)?;
    tell_balances(alloc, balances, done.balances.as_slice())
}

// Answers the requests of the file or otherwise of the input, to the file or otherwise to the
// output.
fn serve_stream<R: Files + Threads + Sync, A: SharedAllocator, S: Source, K: Sink>(
    rt: &R,
    alloc: A,
    line: &Line<'_>,
    served: Served<'_, A, ImageData<R::File, A>>,
    requests: Option<R::File>,
    replies: Option<R::File>,
    input: &mut S,
    output: &mut K,
) -> Result<Done<A>, StreamFault>
where
    R::File: FileExt + Sync,
    requires limits { IsInLimits line.now }
    requires requests { is_some requests ≡ is_some line.now.requests }
    requires replies { is_some replies ≡ is_some line.now.replies }
    requires new { AreNew (devices (S.state input.old) (K.state output.old)) }
    ensures { (t : Trace) × IsServing line.now (sourced_by source_of served.entry) t result
        (devices (S.state input.old) (K.state output.old))
        (devices (S.state input.new) (K.state output.new)) }
{
    let terms = Terms {
        first: first_of(line),
        plan: plan_of(line),
        turns: MAX_TURNS,
        counted: counted_of(line),
        gate: &FreePass,
    };
    let serving = Serving { served, terms };
    match (requests, replies) {
        (Some(from), Some(to)) => {
            let (mut from, mut to) = (Tap::new(from), Spout::new(to));
            serving.run(rt, alloc, &mut from, &mut to)
        }
        (Some(from), None) => serving.run(rt, alloc, &mut Tap::new(from), output),
        (None, Some(to)) => serving.run(rt, alloc, input, &mut Spout::new(to)),
        (None, None) => serving.run(rt, alloc, input, output),
    }
}
