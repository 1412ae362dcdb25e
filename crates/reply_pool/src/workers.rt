//! Rounds of jobs, answered by several workers.
//!
//! ```text
//! jobs     -> batches        reply_rounds
//! batches  -> pieces         worker:  draw a number, answer its batch (jobs), until none is left
//!                            workers: a hand for each of the threads, rejoined after them
//! pieces   -> a loop's replies (RoundPieces), or one Rounded (`round`): reply_rounds
//! ```

ghost use Rattle.std.specs.Prelude.{◌≡◌, ◌≤◌, length, IfOk};
ghost use Rattle.std.specs.Thread.{IsSync};
ghost use denote.Param.Send.{IsSend, Frees};
ghost use Rattle.node_reader.specs.contracts.table.Table.{the_row};
ghost use Rattle.serve_loop.specs.declared.limits.TheConstants.{MAX_ROUND_MESSAGES};
ghost use Rattle.draw_board.specs.declared.limits.TheConstants.{MAX_BATCH};
ghost use Rattle.draw_board.specs.Hands.{KeepsShare};
ghost use Rattle.fuse_answer.specs.Puts.{sourced_by};
ghost use Rattle.reply_rounds.specs.Batches.{AreLight};
ghost use Rattle.reply_rounds.specs.Jobs.{IsRounded};
ghost use Rattle.reply_rounds.specs.Spread.{AnswerAll};
ghost use Rattle.reply_rounds.specs.Workers.{AreBoth, CanDraw, HasAll};

use crate::worker::work;
use devices::Contents;
use draw_board::{Board, Gate, Hand};
use fuse_answer::Served;
use fuse_wire::Request;
use reply_model::Session;
use reply_rounds::{Piece, Plan, Rounded, count_batches, in_order};
use std::alloc::{AllocError, Allocator};
use std::thread::{Threads, join};

/// Answers jobs, which are requests, each with the session before it: at most 256 of them.
///
/// Batch k holds the jobs from k times the plan's batch on; the gate is passed before its first
/// answer. As many workers as the plan has, but no more than there are batches, draw batches
/// whenever they are free; the caller does the work of a worker that cannot be started. For every
/// plan the result is the same. `AllocError` only if memory is refused, in any thread.
pub fn round<
    R: Threads + Sync,
    A: Allocator + Copy + Send + Sync,
    D: Contents + Sync,
    G: Gate + Sync,
>(
    rt: &R,
    alloc: A,
    served: Served<'_, A, D>,
    jobs: &[(Session, Request<'_>)],
    plan: Plan,
    gate: &G,
) -> Result<Rounded<A>, AllocError>
    requires { length jobs.now ≤ MAX_ROUND_MESSAGES }
    ensures { IfOk result
        (λ rounded. IsRounded (sourced_by D.source served.entry) jobs.now rounded) }
{
    let pieces = answer_batches(rt, alloc, served, jobs, plan.batch(), plan.workers(), gate)?;
    in_order(alloc, pieces)
}

/// Answers jobs in batches of this size, by this many workers, but no more than there are batches.
pub(crate) fn answer_batches<
    R: Threads + Sync,
    A: Allocator + Copy + Send + Sync,
    D: Contents + Sync,
    G: Gate + Sync,
>(
    rt: &R,
    alloc: A,
    served: Served<'_, A, D>,
    jobs: &[(Session, Request<'_>)],
    size: u32,
    workers: u32,
    gate: &G,
) -> Result<Vec<Piece<A>, A>, AllocError>
    requires few { length jobs.now ≤ MAX_ROUND_MESSAGES }
    requires size { (1 ≤ size) × (size ≤ MAX_BATCH) }
    requires workers { 1 ≤ workers }
    ensures { IfOk result
        (λ pieces. AnswerAll (sourced_by D.source served.entry) jobs.now size pieces.items) }
{
    let total = count_batches(jobs.len(), size);
    if total == 0 {
        return Ok(Vec::new(alloc));
    }
    let workers = workers.min(total);
    let (board, first) = Board::start(alloc, total, workers)?;
    let (pieces, hand) = draw_all(rt, alloc, served, jobs, size, &board, first, gate, workers);
    board.close(hand);
    pieces
}

/// Draws in this many workers at the same time until nothing is left, each with a hand of its own,
/// and returns their pieces and the hand into which all hands were rejoined.
#[cycle(crew)]
fn draw_all<
    R: Threads + Sync,
    A: Allocator + Copy + Send + Sync,
    D: Contents + Sync,
    G: Gate + Sync,
>(
    rt: &R,
    alloc: A,
    served: Served<'_, A, D>,
    jobs: &[(Session, Request<'_>)],
    size: u32,
    board: &Board<A>,
    mut hand: Hand,
    gate: &G,
    workers: u32,
) -> (Result<Vec<Piece<A>, A>, AllocError>, Hand)
    requires draws { CanDraw jobs.now size board.now hand workers }
    requires lent { IsSync (the_row A.row A.Allocator) }
    ensures hand { KeepsShare board.now hand result.1 }
    ensures pieces { IfOk result.0
        (λ pieces. HasAll (sourced_by D.source served.entry) jobs.now size board.now result.1
        pieces.items) }
    ensures light { IfOk result.0 (λ pieces. AreLight pieces.items) }
{
    if workers <= 1 {
        let pieces = work(rt, alloc, served, jobs, size, board, &mut hand, gate);
        return (pieces, hand);
    }
    let low = workers / 2;
    let high = workers - low;
    // the hand has a miss for each worker and keeps some
    let Ok(other) = board.split(&mut hand, high) else {
        unreachable!()
    };
    let (mine, others) = join(
        rt,
        move || -> (Result<Vec<Piece<A>, A>, AllocError>, Hand)
            requires { IsSync R.row × IsSync G.row × IsSync D.row × IsSync A.row × IsSend A.row
                × Frees A.Allocator A.dealloc_token × CanDraw jobs.now size board.now hand low
                × IsSync (the_row A.row A.Allocator) }
            ensures hand { KeepsShare board.entry.now hand result.1 }
            ensures pieces { IfOk result.0 (λ pieces.
                HasAll (sourced_by D.source served.entry) jobs.entry.now size board.entry.now
                result.1 pieces.items) }
            ensures light { IfOk result.0 (λ pieces. AreLight pieces.items) }
        { draw_all(rt, alloc, served, jobs, size, board, hand, gate, low) },
        move || -> (Result<Vec<Piece<A>, A>, AllocError>, Hand)
            requires { IsSync R.row × IsSync G.row × IsSync D.row × IsSync A.row × IsSend A.row
                × Frees A.Allocator A.dealloc_token × CanDraw jobs.now size board.now other high
                × IsSync (the_row A.row A.Allocator) }
            ensures hand { KeepsShare board.entry.now other result.1 }
            ensures pieces { IfOk result.0 (λ pieces.
                HasAll (sourced_by D.source served.entry) jobs.entry.now size board.entry.now
                result.1 pieces.items) }
            ensures light { IfOk result.0 (λ pieces. AreLight pieces.items) }
        { draw_all(rt, alloc, served, jobs, size, board, other, gate, high) },
    );
    let (pieces, mut hand) = mine;
    let (more, other) = others;
    board.rejoin(&mut hand, other);
    (both(pieces, more), hand)
}

// The pieces of two hands, if neither lacks memory.
fn both<A: Allocator>(
    pieces: Result<Vec<Piece<A>, A>, AllocError>,
    more: Result<Vec<Piece<A>, A>, AllocError>,
) -> Result<Vec<Piece<A>, A>, AllocError>
    ensures { IfOk result (λ all. AreBoth pieces more all.items) }
{
    let mut all = pieces?;
    let mut rest = more?;
    all.append(&mut rest)?;
    Ok(all)
}
