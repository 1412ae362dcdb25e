//! Callers' own threads share a board, and each answers the batches that it draws.

ghost use Rattle.std.specs.Prelude.{◌≡◌, ◌+◌, ◌≤◌, true};
ghost use Rattle.std.specs.Thread.{IsSync};
ghost use Rattle.draw_board.specs.Hands.{GivesBack, IsHandOf, KeepsShare, share, total_of};
ghost use Rattle.reply_pool.specs.Batches.{batches};

use super::jobs::{Job, jobs_of};
use super::tables::sample_table;
use draw_board::{Board, Hand};
use node_table::Table;
use reply_pool::{Piece, Served, work};
use stack_core::{FreePass, Gate};
use std::alloc::{AllocError, Global};
use std::snapshot::Snapshot;
use std::sync::Wait;
use std::test::Fail;
use std::thread;
use std::thread::{Promise, Threads};
use test_kit::memories::Memories;
use test_kit::refusing::Refusing;
use test_kit::script::{script, script_replies};

/// How many jobs a batch has.
const SIZE: u32 = 3;

/// What a thread returns.
#[derive(Drop)]
struct Done {
    pieces: Result<Vec<Piece<Global>>, AllocError>,
    hand: Hand,
}

/// A promise to return the hand that was lent.
#[derive(Drop)]
struct SameHand(Snapshot<Hand>);

impl Promise<Done> for SameHand {
    ghost kept_by = { λ lent back. GivesBack lent.0.value back.hand };
}

/// The same, over the table of the sample image.
pub fn pieces_of<R: Threads + Sync, G: Gate>(
    rt: &R,
    memories: &Memories,
    jobs: usize,
    gate: &G,
) -> Option<Result<(usize, u64), AllocError>> {
    let table = sample_table(rt, &memories.plain)?;
    let pieces = pieces_over(rt, memories, &table, jobs, gate);
    drop(table);
    pieces
}

/// How many batches this many jobs have.
fn batches_in(jobs: usize) -> u32
    requires { jobs ≤ 256 }
    ensures { result ≡ batches 3 jobs }
{
    let size = SIZE as usize;
    ((jobs + size - 1) / size) as u32
}

/// How many pieces one worker makes for this many requests of the script, and how often it draws;
/// over a table.
fn pieces_over<R: Threads + Sync, G: Gate>(
    rt: &R,
    memories: &Memories,
    table: &Table<&Refusing<Global>>,
    jobs: usize,
    gate: &G,
) -> Option<Result<(usize, u64), AllocError>>
    requires { table.now.whole ≡ true }
{
    let stream = script(memories.global).ok()?;
    let requests = jobs_of(memories.global, &stream).ok()?;
    pieces_to(rt, memories, table, requests.get(..jobs)?, gate)
}

/// The same for these requests.
fn pieces_to<R: Threads + Sync, G: Gate>(
    rt: &R,
    memories: &Memories,
    table: &Table<&Refusing<Global>>,
    jobs: &[Job<'_>],
    gate: &G,
) -> Option<Result<(usize, u64), AllocError>>
    requires { table.now.whole ≡ true }
{
    if 12 < jobs.len() {
        return None;
    }
    let batches = batches_in(jobs.len());
    let (board, mut hand) = Board::start(memories.global, batches, 1).ok()?;
    let alloc = &memories.refusing;
    let pieces = work(
        rt,
        alloc,
        Served::held(table),
        jobs,
        SIZE,
        &board,
        &mut hand,
        gate,
    );
    let draws = board.close(hand);
    match pieces {
        Ok(pieces) => Some(Ok((pieces.len(), draws))),
        Err(AllocError) => Some(Err(AllocError)),
    }
}

/// Answers what it draws of the script's jobs, until nothing is left to draw.
fn work_out<R: Threads + Sync>(
    rt: &R,
    alloc: Global,
    table: &Table<Global>,
    stream: &[u8],
    board: &Board<Global>,
    mut hand: Hand,
) -> Done
    requires whole { table.now.whole ≡ true }
    requires total { total_of board.now ≡ 4 }
    requires hand { IsHandOf board.now hand }
    ensures { KeepsShare board.now hand result.hand }
{
    let jobs = match jobs_of(alloc, stream) {
        Ok(jobs) => jobs,
        Err(AllocError) => {
            return Done {
                pieces: Err(AllocError),
                hand,
            };
        }
    };
    if 256 < jobs.len() || batches_in(jobs.len()) != 4 {
        return Done {
            pieces: Err(AllocError),
            hand,
        };
    }
    let pieces = work(
        rt,
        alloc,
        Served::held(table),
        &jobs,
        SIZE,
        board,
        &mut hand,
        &FreePass,
    );
    Done { pieces, hand }
}

/// Two threads work, and return all pieces and one hand.
fn work_in_two<R: Threads + Wait + Sync>(
    rt: &R,
    alloc: Global,
    table: &Table<Global>,
    stream: &[u8],
    board: &Board<Global>,
    hand: Hand,
    lent: Hand,
) -> Done
    requires whole { table.now.whole ≡ true }
    requires total { total_of board.now ≡ 4 }
    requires hands { IsHandOf board.now hand × IsHandOf board.now lent }
    ensures of_board { IsHandOf board.now result.hand }
    ensures share { share result.hand ≡ share hand + share lent }
{
    thread::scope(
        thread::scope_env(),
        rt,
        move |scope| -> Done
            requires { IsSync R.row × (table.now.whole ≡ true) × (total_of board.now ≡ 4)
                × IsHandOf board.now hand × IsHandOf board.now lent }
            ensures of_board { IsHandOf board.entry.now result.hand }
            ensures share { share result.hand ≡ share hand + share lent }
        {
            let thread = scope.spawn_with(
                SameHand(Snapshot::of(&lent)),
                move || -> Done
                    requires { IsSync R.row × (table.now.whole ≡ true) × (total_of board.now ≡ 4)
                        × IsHandOf board.now lent }
                    ensures { GivesBack lent result.hand }
                { work_out(rt, alloc, table, stream, board, lent) },
            );
            let mine = work_out(rt, alloc, table, stream, board, hand);
            let theirs = match thread {
                Ok(thread) => thread.join(rt),
                Err(refused) => (refused.value)(),
            };
            joined(board, mine, theirs)
        },
    )
}

/// The pieces of both threads, and one hand of two.
fn joined(board: &Board<Global>, mine: Done, theirs: Done) -> Done
    requires { IsHandOf board.now mine.hand × IsHandOf board.now theirs.hand }
    ensures of_board { IsHandOf board.now result.hand }
    ensures share { share result.hand ≡ share mine.hand + share theirs.hand }
{
    let Done { pieces, mut hand } = mine;
    let Done {
        pieces: more,
        hand: other,
    } = theirs;
    board.rejoin(&mut hand, other);
    Done {
        pieces: both(pieces, more),
        hand,
    }
}

fn both(
    pieces: Result<Vec<Piece<Global>>, AllocError>,
    more: Result<Vec<Piece<Global>>, AllocError>,
) -> Result<Vec<Piece<Global>>, AllocError> {
    let mut all = pieces?;
    let mut rest = more?;
    all.append(&mut rest)?;
    Ok(all)
}

/// Whether pieces have these numbers, each once, and in their order these bytes.
fn are_whole(
    alloc: Global,
    mut pieces: Vec<Piece<Global>>,
    numbers: u32,
    replies: &[u8],
) -> Result<bool, AllocError> {
    pieces.sort_unstable_by_key(|piece| piece.number);
    let mut bytes = Vec::new(alloc);
    for piece in &pieces {
        bytes.extend_from_slice(piece.bytes.as_slice())?;
    }
    let told = pieces.iter().map(|piece| piece.number).eq(0..numbers);
    Ok(told && bytes.as_slice() == replies)
}

/// The pieces of two threads over a table, and how often both drew.
fn answered_by_two<R: Threads + Wait + Sync>(
    rt: &R,
    alloc: Global,
    table: &Table<Global>,
) -> Result<(Vec<Piece<Global>>, u64), Fail>
    requires { table.now.whole ≡ true }
{
    let stream = script(alloc)?;
    let (board, mut first) = Board::start(alloc, 4, 2)?;
    let Ok(lent) = board.split(&mut first, 1) else {
        return Err(Fail::new("the first hand has two misses"));
    };
    let Done { pieces, hand } = work_in_two(rt, alloc, table, &stream, &board, first, lent);
    let draws = board.close(hand);
    Ok((pieces?, draws))
}

#[test]
fn two_threads_answer_each_batch_once(rt: HostRuntime) -> Result<(), Fail> {
    let alloc = rt.alloc();
    let table = sample_table(&rt, alloc).ok_or("the sample image")?;
    let answered = answered_by_two(&rt, alloc, &table);
    drop(table);
    let (pieces, draws) = answered?;
    let replies = script_replies(alloc)?;
    assert!(rt; are_whole(alloc, pieces, 4, &replies)?);
    assert_eq!(rt; draws, 6);
    Ok(())
}
