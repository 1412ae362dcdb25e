//! Runs of streams over tables and images, and their results.

ghost use Rattle.std.specs.Prelude.{◌≡◌, true, IfSome};

use crate::calls::Calls;
use crate::reader::Pieces;
use crate::writer::Taker;
use devices::{Contents, Spout, Tap};
use node_reader::Table;
use reply_pool::Plan;
use romfs_format::Profile;
use serve_core::{Counted, Done, Served, Serving, Session, Stop, Terms, prepare, run, serve_as};
use stack_core::{FreePass, Gate};
use std::alloc::{AllocError, Allocator, Global};
use std::thread::Threads;
use test_kit::long::image;
use test_kit::messages::REQUESTS;
use test_kit::refusing::Refusing;
use test_kit::sample_images::{alone, samples};
use test_kit::script::{bad_stream, forgets, long_replies, long_stream, script};

/// More pulls than any of the streams has.
pub const TURNS: u32 = 1 << 20;

#[derive(Clone, Copy)]
pub enum Stream {
    Script,
    /// The script, and then a WRITE for which the room for requests has to grow.
    Long,
    /// The first two messages of the script, and then a length that no message can have.
    Bad,
    /// A million bytes without a reply.
    Forgets,
    /// INIT, and 512 GETATTRs of the root.
    Many,
}

/// How a stream arrives, and how its replies are taken.
#[derive(Clone, Copy)]
pub struct Run {
    pub stream: Stream,
    /// How many of its first bytes arrive, in pieces of this many, and whether the read after them
    /// fails.
    pub given: usize,
    pub piece: usize,
    pub breaks: bool,
    pub turns: u32,
    /// Workers, and messages of a batch.
    pub plan: (u32, u32),
    /// How many bytes are taken in all, and at once; whether the write after them fails, or takes
    /// none.
    pub room: usize,
    pub most: usize,
    pub fails: bool,
    /// How many flushes succeed before one fails.
    pub flushes: u64,
}

/// All of the script, and all of its replies.
pub const WHOLE: Run = Run {
    stream: Stream::Script,
    given: usize::MAX,
    piece: usize::MAX,
    breaks: false,
    turns: TURNS,
    plan: (2, 3),
    room: usize::MAX,
    most: usize::MAX,
    fails: true,
    flushes: u64::MAX,
};

/// All of a stream by this many workers, in batches of this many messages.
pub fn by(plan: (u32, u32)) -> Run {
    Run { plan, ..WHOLE }
}

/// The memory of a run that is refused, if a test checks that no device is called after that.
pub type Watched<'a> = Option<&'a Refusing<Global>>;

/// How many messages and how many bytes of replies, or why it stopped.
pub type End = Result<(u64, u128), Stop>;

/// The result of a run.
#[derive(Drop)]
pub struct Finished<A: Allocator> {
    done: Result<Done<A>, Stop>,
    /// The bytes that were put.
    pub put: Vec<u8>,
    pub reads: u64,
    /// Writes and flushes.
    pub writes: u64,
    /// Calls of a device after memory was refused.
    pub late: u64,
}

impl<A: Allocator> Finished<A> {
    fn of(done: Result<Done<A>, Stop>, pieces: Pieces<'_>, taker: Taker<'_>) -> Self {
        Finished {
            done,
            put: taker.taken,
            reads: pieces.calls.made,
            writes: taker.calls.made,
            late: pieces.calls.late.saturating_add(taker.calls.late),
        }
    }

    pub fn end(&self) -> End {
        match &self.done {
            Ok(done) => Ok((done.messages, done.written)),
            Err(stop) => Err(*stop),
        }
    }

    /// The balance of each node; none if the run stopped.
    pub fn balances(&self) -> &[i128] {
        match &self.done {
            Ok(done) => done.balances.as_slice(),
            Err(_) => &[],
        }
    }

    /// Its result, if these are the replies.
    fn seen(&self, replies: &[u8]) -> Seen {
        Seen {
            end: self.end(),
            put: replies.starts_with(&self.put).then_some(self.put.len()),
            reads: self.reads,
            writes: self.writes,
            late: self.late,
        }
    }
}

/// The result of a run.
#[derive(Clone, Copy, PartialEq, Eq)]
pub struct Seen {
    pub end: End,
    /// How many bytes were written, if they are a prefix of the replies.
    pub put: Option<usize>,
    pub reads: u64,
    /// Writes and flushes.
    pub writes: u64,
    /// Calls of a device after memory was refused.
    pub late: u64,
}

/// How a run ends; how many bytes of the first replies are written, and how many reads, and writes
/// and flushes, are made.
pub type Outcome = (End, usize, u64, u64);

impl Seen {
    pub fn of(outcome: Outcome) -> Self {
        let (end, put, reads, writes) = outcome;
        Seen {
            end,
            put: Some(put),
            reads,
            writes,
            late: 0,
        }
    }
}

/// The table of images.
pub fn table_of<R: Threads + Sync, A: Allocator + Copy + Send + Sync>(
    rt: &R,
    alloc: A,
    images: Vec<Vec<u8, A>, A>,
) -> Option<Table<A>>
    ensures { IfSome result (λ table. table.whole ≡ true) }
{
    prepare(rt, alloc, images, &FreePass).ok()
}

/// The table of the sample image.
pub fn sample_table<R: Threads + Sync, A: Allocator + Copy + Send + Sync>(
    rt: &R,
    alloc: A,
) -> Option<Table<A>>
    ensures { IfSome result (λ table. table.whole ≡ true) }
{
    table_of(rt, alloc, samples(alloc, 1)?)
}

/// The table of the large file and directory.
pub fn long_table<R: Threads + Sync, A: Allocator + Copy + Send + Sync>(
    rt: &R,
    alloc: A,
) -> Option<Table<A>>
    ensures { IfSome result (λ table. table.whole ≡ true) }
{
    table_of(rt, alloc, alone(alloc, image(alloc).ok()?).ok()?)
}

/// A run of a stream over a table.
pub fn ran<R: Threads + Sync, A: Allocator + Copy + Send + Sync, G: Gate + Sync>(
    rt: &R,
    global: Global,
    alloc: A,
    table: &Table<A>,
    stream: &[u8],
    row: Run,
    watched: Watched<'_>,
    gate: &G,
) -> Option<Finished<A>>
    requires { table.now.whole ≡ true }
{
    let plan = Plan::new(row.plan.0, row.plan.1)?;
    let mut pieces = pieces_of(stream, row, watched);
    let mut taker = taker_of(global, row, watched);
    let terms = Terms {
        first: Session::Fresh,
        plan,
        turns: u64::from(row.turns),
        counted: Counted::AllNodes,
        gate,
    };
    let mut tap = Tap::new(&mut pieces);
    let mut spout = Spout::new(&mut taker);
    let done = run(rt, alloc, table, &mut tap, &mut spout, &terms);
    drop(tap);
    drop(spout);
    Some(Finished::of(done, pieces, taker))
}

/// A run of a stream over a table and the files of its layers, by one worker.
pub fn ran_from<R: Threads + Sync, D: Contents + Sync>(
    rt: &R,
    global: Global,
    served: Served<'_, Global, D>,
    stream: &[u8],
) -> Option<Finished<Global>> {
    let plan = Plan::new(1, 1)?;
    let mut pieces = pieces_of(stream, WHOLE, None);
    let mut taker = taker_of(global, WHOLE, None);
    let terms = Terms {
        first: Session::Fresh,
        plan,
        turns: u64::from(TURNS),
        counted: Counted::AllNodes,
        gate: &FreePass,
    };
    let mut tap = Tap::new(&mut pieces);
    let mut spout = Spout::new(&mut taker);
    let serving = Serving { served, terms };
    let done = match serving.run(rt, global, &mut tap, &mut spout) {
        Ok(done) => Ok(done),
        Err(fault) => Err(Stop::from(fault)),
    };
    drop(tap);
    drop(spout);
    Some(Finished::of(done, pieces, taker))
}

/// The result of a run of a stream, the first of these two, over a table.
pub fn run_over<R: Threads + Sync, A: Allocator + Copy + Send + Sync>(
    rt: &R,
    global: Global,
    alloc: A,
    table: &Table<A>,
    streams: (&[u8], &[u8]),
    row: Run,
    watched: Watched<'_>,
) -> Option<Seen>
    requires { table.now.whole ≡ true }
{
    let (stream, replies) = streams;
    let ran = ran(rt, global, alloc, table, stream, row, watched, &FreePass)?;
    Some(ran.seen(replies))
}

/// The result of a run over the table of the sample image, which is in memory of `plain`.
pub fn run_of<R: Threads + Sync, A: Allocator + Copy + Send + Sync>(
    rt: &R,
    global: Global,
    plain: A,
    alloc: A,
    row: Run,
    watched: Watched<'_>,
) -> Option<Seen> {
    let stream = stream_of(global, row.stream).ok()?;
    let replies = long_replies(global).ok()?;
    let table = sample_table(rt, plain)?;
    run_over(rt, global, alloc, &table, (&stream, &replies), row, watched)
}

/// The result of a run over images by `serve_as`, for a lasting stream or another.
pub fn serve_of<R: Threads + Sync, A: Allocator + Copy + Send + Sync>(
    rt: &R,
    global: Global,
    alloc: A,
    images: Vec<Vec<u8, A>, A>,
    profile: Profile,
    lasting: bool,
    row: Run,
    watched: Watched<'_>,
) -> Option<Seen> {
    let plan = Plan::new(row.plan.0, row.plan.1)?;
    let stream = stream_of(global, row.stream).ok()?;
    let replies = long_replies(global).ok()?;
    let mut pieces = pieces_of(&stream, row, watched);
    let mut taker = taker_of(global, row, watched);
    let mut tap = Tap::new(&mut pieces);
    let mut spout = Spout::new(&mut taker);
    let first = if lasting {
        Session::LastingFresh
    } else {
        Session::Fresh
    };
    let terms = Terms {
        first,
        plan,
        turns: u64::from(row.turns),
        counted: Counted::AllNodes,
        gate: &FreePass,
    };
    let done = serve_as(rt, alloc, images, profile, &mut tap, &mut spout, &terms);
    drop(tap);
    drop(spout);
    Some(Finished::of(done, pieces, taker).seen(&replies))
}

fn stream_of(alloc: Global, stream: Stream) -> Result<Vec<u8>, AllocError> {
    match stream {
        Stream::Script => script(alloc),
        Stream::Long => long_stream(alloc),
        Stream::Bad => bad_stream(alloc),
        Stream::Forgets => forgets(alloc),
        Stream::Many => many(alloc),
    }
}

/// INIT, and 512 GETATTRs of the root.
fn many(alloc: Global) -> Result<Vec<u8>, AllocError> {
    let mut stream = REQUESTS[..56].to_vec(alloc)?;
    for _ in 0..512 {
        stream.extend_from_slice(&REQUESTS[56..])?;
    }
    Ok(stream)
}

fn pieces_of<'a>(stream: &'a [u8], run: Run, watched: Watched<'a>) -> Pieces<'a> {
    Pieces {
        rest: &stream[..stream.len().min(run.given)],
        piece: run.piece,
        fails: run.breaks,
        calls: Calls::new(watched),
    }
}

fn taker_of<'a>(alloc: Global, run: Run, watched: Watched<'a>) -> Taker<'a> {
    Taker {
        taken: Vec::new(alloc),
        room: run.room,
        most: run.most,
        fails: run.fails,
        flushes: run.flushes,
        calls: Calls::new(watched),
    }
}
